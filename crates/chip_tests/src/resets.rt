// New chips, and what a reset keeps and what it does not.
use crate::rig::Seen::{Byte, Done, Totals};
use crate::rig::{Answer, RF5C164, SILENT, check_calls, next_frame, write_all};
use calls::Call;
use calls::Call::{Read, Reset, Tick, Write};
use chip::chip::Chip;
use chip::registers::Setup;
use std::process::Abort;
use std::test::Fail;
use voice::frame::Converter;
use voice::voice::Contribution;
use wave::memory::Store;
use wave::ram::Ram;

// Voice 2 of two that are alike sounds in bank 5; voice 1 is muted.
fn sound<M: Store>(rt: &impl Abort, chip: &mut Chip<M>) -> Result<(), Fail> {
    let samples = [(0x1000, 0xC0), (0x1200, 0xC0), (7, 0x05), (0x1000, 0x77)];
    write_all(chip, &samples)?;
    for select in [0xC0, 0xC1] {
        write_all(chip, &[(7, select), (0, 128), (1, 0x12), (3, 0x08), (6, 2)])?;
    }
    let calls = [(Write(8, 0), Ok(Done)), (Tick, Ok(Totals(512, 256)))];
    check_calls(rt, chip, &calls);
    Ok(())
}

// Bank 0, no starts, voice 1 selected, and every voice switched off.
const AS_NEW: [(Call, Answer); 9] = [
    (Read(0x1000), Ok(Byte(0xC0))),
    (Read(0x11), Ok(Byte(0))),
    (Read(0x13), Ok(Byte(0))),
    (Write(6, 3), Ok(Done)),
    (Read(0x11), Ok(Byte(3))),
    (Write(7, 0xC1), Ok(Done)),
    (Write(0, 128), Ok(Done)),
    (Write(1, 0x12), Ok(Done)),
    (Tick, Ok(Totals(0, 0))),
];

// A chip with another converter, and its first voice muted.
const MUTED: Setup = Setup {
    converter: Converter::Bits10,
    mutes: 0x01,
    ..RF5C164
};

#[test]
fn new_chip(rt: HostRuntime) {
    let mut bytes = [0xC0; 65_536];
    let ram = Ram::new(&mut bytes);
    let mut chip = Chip::new(ram, RF5C164);
    assert_eq!(rt; chip.contributions(), SILENT);
    check_calls(&rt, &mut chip, &AS_NEW);
}

#[test]
fn registers_as_new(rt: HostRuntime) -> Result<(), Fail> {
    let mut bytes = [0; 65_536];
    let ram = Ram::new(&mut bytes);
    let mut chip = Chip::new(ram, MUTED);
    sound(&rt, &mut chip)?;
    let mut heard = SILENT;
    heard[1] = Contribution {
        left: 512,
        right: 256,
    };
    assert_eq!(rt; chip.contributions(), heard);
    chip.reset();
    assert_eq!(rt; chip.contributions(), SILENT);
    check_calls(&rt, &mut chip, &AS_NEW);
    Ok(())
}

#[test]
fn voices_as_new(rt: HostRuntime) -> Result<(), Fail> {
    let mut bytes = [0; 65_536];
    let ram = Ram::new(&mut bytes);
    let mut chip = Chip::new(ram, MUTED);
    sound(&rt, &mut chip)?;
    let calls = [
        (Reset, Ok(Done)),
        (Write(7, 0xC1), Ok(Done)),
        (Write(8, 0), Ok(Done)),
        (Tick, Ok(Totals(0, 0))),
        (Write(0, 128), Ok(Done)),
        (Tick, Ok(Totals(0, 0))),
        (Write(1, 0x12), Ok(Done)),
        (Tick, Ok(Totals(512, 256))),
        (Read(0x12), Ok(Byte(0))),
        (Read(0x13), Ok(Byte(0))),
    ];
    check_calls(&rt, &mut chip, &calls);
    Ok(())
}

#[test]
fn memory_and_converter_kept(rt: HostRuntime) -> Result<(), Fail> {
    let mut bytes = [0; 65_536];
    let ram = Ram::new(&mut bytes);
    let mut chip = Chip::new(ram, MUTED);
    sound(&rt, &mut chip)?;
    chip.reset();
    let frame = next_frame(&mut chip)?;
    assert_eq!(rt; (frame.left.word, frame.right.word), (512, 512));
    let calls = [(Write(7, 5), Ok(Done)), (Read(0x1000), Ok(Byte(0x77)))];
    check_calls(&rt, &mut chip, &calls);
    // voice 1 is still muted: the totals are those of voice 2 alone
    sound(&rt, &mut chip)
}
