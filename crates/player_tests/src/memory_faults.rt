// Faults by the chip and by its memory: a memory of another size, and a place that takes no writes.
use crate::rig::{
    RF5C68A, TAKEN, Told, UNFILLED, block, check_steps, check_stop, recorded, register, tell,
    totals, wait, window,
};
use chip::chip::Chip;
use chip::refusal::Refusal;
use kind::Kind;
use player::fault::Fault;
use player::player::{Player, Progress};
use register_log::fault::Fault as LogFault;
use register_log::record::Record;
use std::alloc::Global;
use std::process::Abort;
use std::test::Fail;
use wave::board::Board;
use wave::memory::Refusal as MemoryRefusal;
use wave::ram::Ram;
use wave::rom::Rom;

// Records, and the host address at which a chip over a memory of another size refuses them.
fn refused() -> [(Record<'static>, u16); 11] {
    [
        (register(0, 0x01), 0),
        (register(7, 0x80), 7),
        (register(8, 0x00), 8),
        (window(0, 0x01), 0x1000),
        (window(0x234, 0x01), 0x1234),
        (window(0xFFF, 0x01), 0x1FFF),
        (block(0, &[0x01]), 0x1000),
        (block(0x234, &[0x01, 0x02, 0x03]), 0x1234),
        (block(0xFFE, &[0x01, 0x02]), 0x1FFE),
        (wait(1), 0),
        (wait(65_535), 0),
    ]
}

// At the first record; a wait is taken, and its first tick refused.
#[test]
fn memory_of_another_size(rt: HostRuntime) -> Result<(), Fail> {
    for size in [0, 65_535, 65_537, 131_072] {
        let mut bytes = vec![in rt.alloc(); 0u8; size]?;
        for (record, address) in refused() {
            let log = recorded(rt.alloc(), Kind::Rf5c68a, &[record, register(0, 1)])?;
            let mut chip = Chip::new(Ram::new(bytes.as_mut_slice()), RF5C68A);
            let mut player = Player::new(log.as_slice());
            let stop = Err(Told(1, "chip", 32, address));
            let count = check_stop(&rt, &mut player, &mut chip, stop);
            let waits = matches!(record, Record::Wait { .. });
            assert_eq!(rt; count, if waits { 2 } else { 1 });
            assert!(rt; bytes.iter().all(|byte| *byte == 0));
        }
    }
    Ok(())
}

// Behind a register and a wait that were played on a chip over a memory of the right size.
#[test]
fn later_on_a_memory_of_another_size(rt: HostRuntime) -> Result<(), Fail> {
    let mut bytes = [0; 65_536];
    let mut short = [0; 65_535];
    for (record, address) in refused() {
        let log = recorded(
            rt.alloc(),
            Kind::Rf5c68a,
            &[register(0, 1), wait(1), record],
        )?;
        let mut chip = Chip::new(Ram::new(&mut bytes), RF5C68A);
        let mut player = Player::new(log.as_slice());
        let before = [TAKEN, TAKEN, TAKEN, totals(0, 0)];
        check_steps(&rt, &mut player, &mut chip, &before);
        let mut other = Chip::new(Ram::new(&mut short), RF5C68A);
        let stop = Err(Told(1, "chip", 66, address));
        let _ = check_stop(&rt, &mut player, &mut other, stop);
        // also on the first chip again
        check_steps(&rt, &mut player, &mut chip, &[stop]);
    }
    Ok(())
}

// The bit is that of the wait, though the player stands behind it.
#[test]
fn last_tick_of_a_wait(rt: HostRuntime) -> Result<(), Fail> {
    let mut bytes = [0; 65_536];
    let mut long = [0; 65_537];
    let log = recorded(rt.alloc(), Kind::Rf5c68a, &[register(0, 1), wait(3)])?;
    let mut chip = Chip::new(Ram::new(&mut bytes), RF5C68A);
    let mut other = Chip::new(Ram::new(&mut long), RF5C68A);
    let mut player = Player::new(log.as_slice());
    let before = [TAKEN, TAKEN, TAKEN, totals(0, 0), totals(0, 0)];
    check_steps(&rt, &mut player, &mut chip, &before);
    let stop = Err(Told(1, "chip", 47, 0));
    check_steps(&rt, &mut player, &mut other, &[stop]);
    check_steps(&rt, &mut player, &mut chip, &[stop]);
    Ok(())
}

// Over mask ROM alone, at the first record.
#[test]
fn rom_alone(rt: HostRuntime) -> Result<(), Fail> {
    let rom = [0x11; 65_536];
    for (record, address) in [
        (window(5, 0x01), 0x1005),
        (window(0xFFF, 0x01), 0x1FFF),
        (block(7, &[0x01, 0x02]), 0x1007),
        (block(0xFFF, &[0x11]), 0x1FFF),
    ] {
        let log = recorded(rt.alloc(), Kind::Rf5c68a, &[record])?;
        let mut chip = Chip::new(Rom::new(&rom), RF5C68A);
        let mut player = Player::new(log.as_slice());
        let stop = Err(Told(5, "memory", 32, address));
        let _ = check_stop(&rt, &mut player, &mut chip, stop);
    }
    Ok(())
}

const READ_ONLY: Result<Progress, Told> = Err(Told(5, "memory", 47, 0x1064));

// Four bytes from an offset on, of which place 8064H takes none: the answer, and window bytes 60H to 67H then.
const BLOCKS: [(u16, Result<Progress, Told>, [u8; 8]); 6] = [
    (0x60, Ok(Progress::Taken), [1, 2, 3, 4, 0x11, 0, 0, 0]),
    (0x61, READ_ONLY, [0, 1, 2, 3, 0x11, 0, 0, 0]),
    (0x62, READ_ONLY, [0, 0, 1, 2, 0x11, 0, 0, 0]),
    (0x63, READ_ONLY, [0, 0, 0, 1, 0x11, 0, 0, 0]),
    (0x64, READ_ONLY, [0, 0, 0, 0, 0x11, 0, 0, 0]),
    (0x65, Ok(Progress::Taken), [0, 0, 0, 0, 0x11, 1, 2, 3]),
];

// A record behind a choice of wave bank 8, played on a board of RAM with one place of mask ROM in it. Not by the rig's
// steps: a proof does not cover their `'static` answers at a memory of several lifetimes.
fn check_board(
    rt: &impl Abort,
    heap: Global,
    record: Record<'static>,
    (answer, shown): (Result<Progress, Told>, [u8; 8]),
) -> Result<(), Fail> {
    let mut low = [0; 0x8064];
    let mut high = [0; 0x7F9B];
    let board = Board {
        first: Ram::new(&mut low),
        second: Board {
            first: Rom::new(&[0x11]),
            second: Ram::new(&mut high),
        },
    };
    let log = recorded(heap, Kind::Rf5c68a, &[register(7, 8), record])?;
    let mut chip = Chip::new(board, RF5C68A);
    let mut player = Player::new(log.as_slice());
    let mut frame = UNFILLED;
    for _ in 0..2 {
        assert_eq!(rt; player.step(&mut chip, &mut frame), Ok(Progress::Taken));
    }
    let found = player.step(&mut chip, &mut frame);
    assert_eq!(rt; found.map_err(tell), answer);
    let mut buffer = [0x55; 8];
    assert_eq!(rt; chip.inspect(0x60, &mut buffer), Ok(()));
    assert_eq!(rt; buffer, shown);
    Ok(())
}

#[test]
fn blocks_over_a_read_only_place(rt: HostRuntime) -> Result<(), Fail> {
    for (offset, answer, shown) in BLOCKS {
        let record = block(offset, &[1, 2, 3, 4]);
        check_board(&rt, rt.alloc(), record, (answer, shown))?;
    }
    Ok(())
}

#[test]
fn window_bytes_round_a_read_only_place(rt: HostRuntime) -> Result<(), Fail> {
    for (offset, answer, shown) in [
        (0x63, Ok(Progress::Taken), [0, 0, 0, 9, 0x11, 0, 0, 0]),
        (0x64, READ_ONLY, [0, 0, 0, 0, 0x11, 0, 0, 0]),
        (0x65, Ok(Progress::Taken), [0, 0, 0, 0, 0x11, 9, 0, 0]),
    ] {
        check_board(&rt, rt.alloc(), window(offset, 9), (answer, shown))?;
    }
    Ok(())
}

// Of the record at bit 47.
fn of_chip(refusal: Refusal) -> Fault {
    Fault::Chip {
        refusal,
        bit: 47,
        address: Some(0x1234),
    }
}

fn of_log(fault: LogFault) -> Fault {
    Fault::Log { fault, bit: 47 }
}

// Number, layer and host address, also of faults that no step answers.
#[test]
fn faults_by_number(rt: HostRuntime) {
    let read_only = Refusal::Memory(MemoryRefusal::ReadOnly);
    let past_end = Refusal::Memory(MemoryRefusal::PastEnd);
    let faults = [
        (of_chip(Refusal::MemorySize), 1, "chip", 0x1234),
        (of_chip(Refusal::BeyondPort), 2, "chip", 0x1234),
        (of_chip(Refusal::NothingThere), 3, "chip", 0x1234),
        (of_chip(Refusal::Sounding), 4, "chip", 0x1234),
        (of_chip(read_only), 5, "memory", 0x1234),
        (of_chip(past_end), 6, "memory", 0x1234),
        (of_log(LogFault::Length), 7, "log", 0),
        (of_log(LogFault::Header), 8, "log", 0),
        (of_log(LogFault::Cut), 9, "log", 0),
        (of_log(LogFault::Tag), 10, "log", 0),
        (of_log(LogFault::Range), 11, "log", 0),
        (of_log(LogFault::Padding), 12, "log", 0),
        (of_chip(Refusal::PastWindow), 13, "chip", 0x1234),
    ];
    for (fault, number, layer, address) in faults {
        assert_eq!(rt; (fault.number(), fault.layer()), (number, layer));
        assert_eq!(rt; (fault.bit(), fault.address()), (47, address));
    }
}
