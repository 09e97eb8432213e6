// Voices off and on again, and voices that are muted.
use crate::rig::Seen::{Byte, Done, Totals};
use crate::rig::{Answer, RF5C68A, RF5C164, check_calls, write_all};
use calls::Call;
use calls::Call::{Read, Reset, Tick, Write};
use chip::chip::Chip;
use chip::registers::Setup;
use std::process::Abort;
use std::test::Fail;
use wave::memory::Store;
use wave::ram::Ram;

// What the first three places from 0100H on sound like.
const FIRST: Answer = Ok(Totals(512, 256));

const SECOND: Answer = Ok(Totals(-512, -256));

const THIRD: Answer = Ok(Totals(256, 128));

// Voice 1 goes one place a tick from 0100H on, off by one call and on by another.
fn check_switch<M: Store>(
    rt: &impl Abort,
    chip: &mut Chip<M>,
    off: Call,
    on: Call,
) -> Result<(), Fail> {
    let samples = [(0x1100, 0xC0), (0x1101, 0x40), (0x1102, 0xA0)];
    write_all(chip, &samples)?;
    let settings = [(0, 128), (1, 0x12), (3, 0x08), (6, 1), (8, 0xFE), (7, 0x80)];
    write_all(chip, &settings)?;
    let calls = [
        (Tick, FIRST),
        (off, Ok(Done)),
        (on, Ok(Done)),
        (Tick, SECOND),
        (off, Ok(Done)),
        (on, Ok(Done)),
        (Tick, THIRD),
        (Read(0x10), Ok(Byte(2))),
        (off, Ok(Done)),
        (Read(0x10), Ok(Byte(2))),
        (Tick, Ok(Totals(0, 0))),
        (Read(0x10), Ok(Byte(0))),
        (on, Ok(Done)),
        (Tick, FIRST),
        (Tick, SECOND),
    ];
    check_calls(rt, chip, &calls);
    Ok(())
}

#[test]
fn by_the_channel_register(rt: HostRuntime) -> Result<(), Fail> {
    let mut bytes = [0; 65_536];
    let ram = Ram::new(&mut bytes);
    let mut chip = Chip::new(ram, RF5C164);
    check_switch(&rt, &mut chip, Write(8, 0xFF), Write(8, 0xFE))
}

#[test]
fn by_the_control_byte(rt: HostRuntime) -> Result<(), Fail> {
    let mut bytes = [0; 65_536];
    let ram = Ram::new(&mut bytes);
    let mut chip = Chip::new(ram, RF5C164);
    check_switch(&rt, &mut chip, Write(7, 0x00), Write(7, 0x80))
}

// A new start counts for a voice at rest alone.
#[test]
fn start_while_sounding(rt: HostRuntime) -> Result<(), Fail> {
    let mut bytes = [0; 65_536];
    let ram = Ram::new(&mut bytes);
    let mut chip = Chip::new(ram, RF5C164);
    write_all(&mut chip, &[(3, 0x08), (6, 1), (8, 0xFE), (7, 0x80)])?;
    let calls = [
        (Tick, Ok(Totals(0, 0))),
        (Write(6, 2), Ok(Done)),
        (Tick, Ok(Totals(0, 0))),
        (Read(0x10), Ok(Byte(1))),
        (Read(0x11), Ok(Byte(1))),
        (Write(8, 0xFF), Ok(Done)),
        (Tick, Ok(Totals(0, 0))),
        (Read(0x10), Ok(Byte(0))),
        (Read(0x11), Ok(Byte(2))),
    ];
    check_calls(&rt, &mut chip, &calls);
    Ok(())
}

// Voices 1 and 2 are set up and switched on; voice 1 is muted, and would be heard by another total.
const ROUND: [(Call, Answer); 21] = [
    (Write(7, 0x40), Ok(Done)),
    (Write(0, 255), Ok(Done)),
    (Write(1, 0xFF), Ok(Done)),
    (Write(3, 0x08), Ok(Done)),
    (Write(7, 0x41), Ok(Done)),
    (Write(0, 128), Ok(Done)),
    (Write(1, 0x12), Ok(Done)),
    (Write(8, 0x00), Ok(Done)),
    (Write(7, 0x80), Ok(Done)),
    (Tick, Ok(Totals(512, 256))),
    (Write(7, 0x8F), Ok(Done)),
    (Tick, Ok(Totals(512, 256))),
    (Write(8, 0x00), Ok(Done)),
    (Tick, Ok(Totals(512, 256))),
    (Write(7, 0x00), Ok(Done)),
    (Tick, Ok(Totals(0, 0))),
    (Write(7, 0x80), Ok(Done)),
    (Tick, Ok(Totals(512, 256))),
    (Read(0x10), Ok(Byte(0))),
    (Write(8, 0xFE), Ok(Done)),
    (Tick, Ok(Totals(0, 0))),
];

#[test]
fn muted_voice(rt: HostRuntime) {
    let mut bytes = [0xC0; 65_536];
    let ram = Ram::new(&mut bytes);
    let mut chip = Chip::new(
        ram,
        Setup {
            mutes: 0x01,
            ..RF5C164
        },
    );
    for _ in 0..3u8 {
        check_calls(&rt, &mut chip, &ROUND);
        check_calls(&rt, &mut chip, &[(Reset, Ok(Done))]);
    }
}

// Each voice has a level of its own: voice 8 gives 92 and 46.
#[test]
fn all_muted_but_the_last(rt: HostRuntime) -> Result<(), Fail> {
    let mut bytes = [0xC0; 65_536];
    let ram = Ram::new(&mut bytes);
    let mut chip = Chip::new(
        ram,
        Setup {
            mutes: 0x7F,
            ..RF5C68A
        },
    );
    for voice in 0..8u8 {
        write_all(
            &mut chip,
            &[(7, voice | 0xC0), (0, voice | 0x10), (1, 0x12)],
        )?;
    }
    check_calls(
        &rt,
        &mut chip,
        &[(Write(8, 0), Ok(Done)), (Tick, Ok(Totals(92, 46)))],
    );
    Ok(())
}
