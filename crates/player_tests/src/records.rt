// What records do to a chip, beside calls of another.
use crate::rig::{
    RF5C68A, RF5C164, Seen, UNFILLED, block, check_same, check_stop, recorded, register, wait,
    window,
};
use calls::Call;
use calls::Call::{Tick, Write};
use chip::chip::Chip;
use chip::registers::Setup;
use player::player::Player;
use register_log::record::Record;
use std::alloc::Global;
use std::process::Abort;
use std::test::Fail;
use wave::ram::Ram;

// A list of records, the bit of the end after it, and the calls that do the same.
type Case<'a> = (&'a [Record<'static>], usize, &'a [Call]);

// Both over bytes that are all alike.
fn check_case(
    rt: &impl Abort,
    heap: Global,
    (setup, byte): (Setup, u8),
    (records, end, calls): Case<'_>,
) -> Result<(), Fail> {
    let log = recorded(heap, setup.kind, records)?;
    let mut bytes = [byte; 65_536];
    let mut other_bytes = [byte; 65_536];
    let mut chip = Chip::new(Ram::new(&mut bytes), setup);
    let mut other = Chip::new(Ram::new(&mut other_bytes), setup);
    let mut player = Player::new(log.as_slice());
    let _ = check_stop(rt, &mut player, &mut chip, Ok(Seen::Ended(end)));
    let mut frame = UNFILLED;
    for call in calls {
        assert!(rt; calls::perform(&mut other, *call, &mut frame, &mut []).is_ok());
    }
    check_same(rt, &mut chip, &mut other);
    Ok(())
}

// Over bytes 40H a position shows the step, and over stop bytes the loop start.
fn check_cases(rt: &impl Abort, heap: Global, cases: &[Case<'_>]) -> Result<(), Fail> {
    for case in cases {
        for setup in [RF5C68A, RF5C164] {
            check_case(rt, heap, (setup, 0x40), *case)?;
            check_case(rt, heap, (setup, 0xFF), *case)?;
        }
    }
    Ok(())
}

#[test]
fn registers(rt: HostRuntime) -> Result<(), Fail> {
    check_cases(
        &rt,
        rt.alloc(),
        &[
            (&[], 32, &[]),
            (
                &[register(6, 0x80), register(6, 0x00), register(6, 0x81)],
                77,
                &[Write(6, 0x81)],
            ),
            (&[register(7, 0x05)], 47, &[Write(7, 0x05)]),
        ],
    )
}

// All of voice 3, which sounds.
#[test]
fn every_register(rt: HostRuntime) -> Result<(), Fail> {
    let records = [
        register(7, 0xC2),
        register(0, 0x91),
        register(1, 0xA2),
        register(2, 0xB3),
        register(3, 0xC4),
        register(4, 0xD5),
        register(5, 0xE6),
        register(6, 0xF7),
        register(8, 0xFB),
    ];
    let calls = [
        Write(7, 0xC2),
        Write(0, 0x91),
        Write(1, 0xA2),
        Write(2, 0xB3),
        Write(3, 0xC4),
        Write(4, 0xD5),
        Write(5, 0xE6),
        Write(6, 0xF7),
        Write(8, 0xFB),
    ];
    check_cases(&rt, rt.alloc(), &[(&records, 167, &calls)])
}

#[test]
fn window_bytes_and_blocks(rt: HostRuntime) -> Result<(), Fail> {
    check_cases(
        &rt,
        rt.alloc(),
        &[
            (&[window(0, 0x00)], 55, &[Write(0x1000, 0x00)]),
            (&[window(0xFFF, 0xAB)], 55, &[Write(0x1FFF, 0xAB)]),
            (
                &[register(7, 0x83), window(0x234, 0xAB)],
                70,
                &[Write(7, 0x83), Write(0x1234, 0xAB)],
            ),
            (
                &[register(7, 0x0F), block(0xFFD, &[0x81, 0x82, 0x83])],
                104,
                &[
                    Write(7, 0x0F),
                    Write(0x1FFD, 0x81),
                    Write(0x1FFE, 0x82),
                    Write(0x1FFF, 0x83),
                ],
            ),
            (
                &[
                    block(0x10, &[1, 2, 3]),
                    window(0x11, 9),
                    block(0x12, &[8, 7]),
                ],
                160,
                &[
                    Write(0x1010, 1),
                    Write(0x1011, 9),
                    Write(0x1012, 8),
                    Write(0x1013, 7),
                ],
            ),
        ],
    )
}

// A voice that sounds is set up, goes on through two waits, and is changed between them.
#[test]
fn waits(rt: HostRuntime) -> Result<(), Fail> {
    check_cases(
        &rt,
        rt.alloc(),
        &[
            (&[wait(1)], 51, &[Tick]),
            (
                &[
                    register(7, 0xC2),
                    register(0, 0x80),
                    register(1, 0x12),
                    register(3, 0x08),
                    register(8, 0xFB),
                    wait(3),
                    window(0x004, 0xFF),
                    register(5, 0x20),
                    wait(2),
                ],
                183,
                &[
                    Write(7, 0xC2),
                    Write(0, 0x80),
                    Write(1, 0x12),
                    Write(3, 0x08),
                    Write(8, 0xFB),
                    Tick,
                    Tick,
                    Tick,
                    Write(0x1004, 0xFF),
                    Write(5, 0x20),
                    Tick,
                    Tick,
                ],
            ),
        ],
    )
}

// A block of a whole window, into wave bank 5.
#[test]
fn longest_block(rt: HostRuntime) -> Result<(), Fail> {
    let mut payload = [0x5A; 4_096];
    for (byte, number) in payload.iter_mut().zip(0..250) {
        *byte = number;
    }
    let bytes: &[u8] = &payload;
    let list = [register(7, 5), Record::Block { offset: 0, bytes }];
    let log = recorded(rt.alloc(), RF5C68A.kind, &list)?;
    let mut memory = [0x40; 65_536];
    let mut chip = Chip::new(Ram::new(&mut memory), RF5C68A);
    let mut player = Player::new(log.as_slice());
    // 47 + 27 bits, 6 of padding, and 4,096 bytes
    let _ = check_stop(&rt, &mut player, &mut chip, Ok(Seen::Ended(32_848)));
    assert_eq!(rt; memory.get(0x5000..0x6000), Some(bytes));
    for outside in [0..0x5000, 0x6000..65_536] {
        let bytes = memory.get(outside).unwrap_or(&[]);
        assert!(rt; bytes.iter().all(|byte| *byte == 0x40));
    }
    Ok(())
}
