// What the host port refuses, and which refusal goes before which.
use crate::rig::Seen::{Byte, Done};
use crate::rig::{
    Answer, READ_ONLY, RF5C68A, RF5C164, SILENT, UNFILLED, check_alike, check_calls, perform,
};
use calls::Call;
use calls::Call::{Read, Tick, Write};
use chip::chip::Chip;
use chip::refusal::Refusal;
use std::ops::Range;
use std::process::Abort;
use std::test::Fail;
use wave::board::Board;
use wave::memory::{Refusal as MemoryRefusal, Store};
use wave::ram::Ram;
use wave::rom::Rom;

#[test]
fn memory_of_another_size(rt: HostRuntime) -> Result<(), Fail> {
    for size in [0, 65_535, 65_537] {
        let mut bytes = vec![in rt.alloc(); 0u8; size]?;
        let ram = Ram::new(&mut bytes);
        let mut chip = Chip::new(ram, RF5C164);
        let calls = [
            Write(0, 1),
            Write(9, 1),
            Write(0x1000, 1),
            Write(0xFFFF, 1),
            Read(0),
            Read(0x10),
            Read(0x1000),
            Read(0xFFFF),
            Tick,
        ];
        check_alike(&rt, &mut chip, &calls, Err(Refusal::MemorySize));
    }
    Ok(())
}

#[test]
fn refused_tick(rt: HostRuntime) {
    let mut bytes = [0xC0; 65_535];
    let ram = Ram::new(&mut bytes);
    let mut chip = Chip::new(ram, RF5C68A);
    let mut frame = UNFILLED;
    assert_eq!(rt; chip.tick(&mut frame), Err(Refusal::MemorySize));
    assert_eq!(rt; frame, UNFILLED);
    assert_eq!(rt; chip.contributions(), SILENT);
}

#[test]
fn beyond_the_port(rt: HostRuntime) {
    let mut bytes = [0; 65_536];
    let ram = Ram::new(&mut bytes);
    let mut chip = Chip::new(ram, RF5C164);
    for control in [0x00, 0x80] {
        check_alike(&rt, &mut chip, &[Write(7, control)], Ok(Done));
        let calls = [
            Write(0x2000, 1),
            Write(0xFFFF, 1),
            Read(0x2000),
            Read(0xFFFF),
        ];
        check_alike(&rt, &mut chip, &calls, Err(Refusal::BeyondPort));
    }
}

// A call at each of some addresses; a list of calls and answers would have to be made first.
fn check_each<M: Store, F: Fn(u16) -> Call>(
    rt: &impl Abort,
    chip: &mut Chip<M>,
    addresses: Range<u16>,
    call: F,
    answer: Answer,
)
    requires { F.IsAlwaysCallable call }
{
    for address in addresses {
        assert_eq!(rt; perform(chip, call(address)), answer, "{}", address);
    }
}

#[test]
fn nothing_there(rt: HostRuntime) {
    let mut bytes = [0; 65_536];
    for setup in [RF5C68A, RF5C164] {
        let ram = Ram::new(&mut bytes);
        let mut chip = Chip::new(ram, setup);
        let nothing = Err(Refusal::NothingThere);
        check_each(
            &rt,
            &mut chip,
            0x9..0x1000,
            |address| Write(address, 0x80),
            nothing,
        );
        check_each(&rt, &mut chip, 0x0..0x10, Read, nothing);
        check_each(&rt, &mut chip, 0x20..0x1000, Read, nothing);
    }
}

#[test]
fn positions_of_one_kind_alone(rt: HostRuntime) {
    let mut bytes = [0; 65_536];
    for (setup, answer) in [
        (RF5C68A, Err(Refusal::NothingThere)),
        (RF5C164, Ok(Byte(0))),
    ] {
        let ram = Ram::new(&mut bytes);
        let mut chip = Chip::new(ram, setup);
        check_each(&rt, &mut chip, 0x10..0x20, Read, answer);
    }
}

#[test]
fn while_sounding(rt: HostRuntime) {
    let mut bytes = [0x40; 65_536];
    let ram = Ram::new(&mut bytes);
    let mut chip = Chip::new(ram, RF5C164);
    check_calls(
        &rt,
        &mut chip,
        &[
            (Read(0x1000), Ok(Byte(0x40))),
            (Write(7, 0x80), Ok(Done)),
            (Read(0x1000), Err(Refusal::Sounding)),
            (Read(0x1FFF), Err(Refusal::Sounding)),
            (Read(8), Err(Refusal::NothingThere)),
            (Read(0x20), Err(Refusal::NothingThere)),
            (Read(0x10), Ok(Byte(0))),
            (Write(0x1000, 0x41), Ok(Done)),
            (Write(7, 0x00), Ok(Done)),
            (Read(0x1000), Ok(Byte(0x41))),
        ],
    );
}

#[test]
fn rom_behind_the_window(rt: HostRuntime) {
    let rom = [0x11; 32_768];
    let mut ram = [0x22; 32_768];
    let board = Board {
        first: Rom::new(&rom),
        second: Ram::new(&mut ram),
    };
    let mut chip = Chip::new(board, RF5C68A);
    let calls = [
        (Write(0x1000, 9), READ_ONLY),
        (Write(7, 0x87), Ok(Done)),
        (Write(0x1FFF, 9), READ_ONLY),
        (Read(0x1FFF), Err(Refusal::Sounding)),
        (Write(7, 0x88), Ok(Done)),
        (Write(0x1000, 9), Ok(Done)),
        (Write(7, 0x08), Ok(Done)),
        (Read(0x1000), Ok(Byte(9))),
        (Read(0x1001), Ok(Byte(0x22))),
        (Write(7, 0x07), Ok(Done)),
        (Read(0x1FFF), Ok(Byte(0x11))),
    ];
    check_calls(&rt, &mut chip, &calls);
}

#[test]
fn refusals_by_number(rt: HostRuntime) {
    let numbers = [
        (Refusal::MemorySize, 1),
        (Refusal::BeyondPort, 2),
        (Refusal::NothingThere, 3),
        (Refusal::Sounding, 4),
        (Refusal::Memory(MemoryRefusal::ReadOnly), 5),
        (Refusal::Memory(MemoryRefusal::PastEnd), 6),
        (Refusal::PastWindow, 13),
    ];
    for (refusal, number) in numbers {
        assert_eq!(rt; refusal.number(), number);
    }
}
