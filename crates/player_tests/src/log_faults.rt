// Faults of the log: header, records and end, each also behind other records.
use crate::bits::{END, Field, HEADER, REGISTER, WAIT, log_of};
use crate::rig::{
    Answer, RF5C68A, RF5C164, TAKEN, Told, check_same, check_steps, check_stop, step,
};
use chip::chip::Chip;
use chip::registers::Setup;
use player::player::Player;
use std::alloc::Global;
use std::process::Abort;
use std::test::Fail;
use wave::ram::Ram;

const WRONG_LENGTH: Answer = Err(Told(7, "log", 0, 0));

const WRONG_HEADER: Answer = Err(Told(8, "log", 0, 0));

// A log, the chip that it is played on, and the first step's answer.
const HEADERS: [(&[u8], Setup, Answer); 29] = [
    (&[], RF5C68A, WRONG_LENGTH),
    (&[], RF5C164, WRONG_LENGTH),
    (&[0x10], RF5C68A, WRONG_LENGTH),
    (&[0x10, 0x98, 0x96], RF5C68A, WRONG_LENGTH),
    (&[0x00, 0x00, 0x00], RF5C164, WRONG_LENGTH),
    (&[0x10, 0x98, 0x96, 0x80], RF5C68A, TAKEN),
    (&[0x10, 0x00, 0x00, 0x01], RF5C68A, TAKEN),
    (&[0x18, 0xBF, 0x0A, 0x40], RF5C164, TAKEN),
    (&[0x18, 0x00, 0x00, 0x01], RF5C164, TAKEN),
    (&[0x00, 0x98, 0x96, 0x80], RF5C68A, WRONG_HEADER),
    (&[0x20, 0x98, 0x96, 0x80], RF5C68A, WRONG_HEADER),
    (&[0x30, 0x98, 0x96, 0x80], RF5C68A, WRONG_HEADER),
    (&[0x90, 0x98, 0x96, 0x80], RF5C68A, WRONG_HEADER),
    (&[0x08, 0xBF, 0x0A, 0x40], RF5C164, WRONG_HEADER),
    (&[0xF8, 0xBF, 0x0A, 0x40], RF5C164, WRONG_HEADER),
    (&[0x11, 0x98, 0x96, 0x80], RF5C68A, WRONG_HEADER),
    (&[0x12, 0x98, 0x96, 0x80], RF5C68A, WRONG_HEADER),
    (&[0x14, 0x98, 0x96, 0x80], RF5C68A, WRONG_HEADER),
    (&[0x1C, 0xBF, 0x0A, 0x40], RF5C164, WRONG_HEADER),
    (&[0x10, 0x00, 0x00, 0x00], RF5C68A, WRONG_HEADER),
    (&[0x10, 0x98, 0x96, 0x81], RF5C68A, WRONG_HEADER),
    (&[0x10, 0xFF, 0xFF, 0xFF], RF5C68A, WRONG_HEADER),
    (&[0x18, 0x00, 0x00, 0x00], RF5C164, WRONG_HEADER),
    (&[0x18, 0xBF, 0x0A, 0x41], RF5C164, WRONG_HEADER),
    (&[0x18, 0xFF, 0xFF, 0xFF], RF5C164, WRONG_HEADER),
    (&[0x18, 0xBF, 0x0A, 0x40], RF5C68A, WRONG_HEADER),
    (&[0x18, 0x00, 0x00, 0x01], RF5C68A, WRONG_HEADER),
    (&[0x10, 0x98, 0x96, 0x80], RF5C164, WRONG_HEADER),
    (&[0x10, 0x00, 0x00, 0x01], RF5C164, WRONG_HEADER),
];

#[test]
fn headers(rt: HostRuntime) {
    let mut bytes = [0; 65_536];
    for (log, setup, answer) in HEADERS {
        let mut chip = Chip::new(Ram::new(&mut bytes), setup);
        let mut player = Player::new(log);
        assert_eq!(rt; step(&rt, &mut player, &mut chip), answer);
        if answer != TAKEN {
            check_steps(&rt, &mut player, &mut chip, &[answer; 3]);
        }
    }
}

// Bytes 10H again and again: a right header, and behind it the end with a padding bit set.
#[test]
fn longest_log(rt: HostRuntime) -> Result<(), Fail> {
    let mut bytes = [0; 65_536];
    let log = vec![in rt.alloc(); 0x10u8; 16_777_217]?;
    for (length, steps, stop) in [
        (16_777_216, 1, Err(Told(12, "log", 32, 0))),
        (16_777_217, 0, WRONG_LENGTH),
    ] {
        let mut chip = Chip::new(Ram::new(&mut bytes), RF5C68A);
        let mut player = Player::new(log.get(..length).unwrap_or(&[]));
        let count = check_stop(&rt, &mut player, &mut chip, stop);
        assert_eq!(rt; count, steps);
    }
    Ok(())
}

// A log's number of the fault, the bit of its record, and what follows the header.
type Case = (u8, usize, &'static [Field]);

// A chip over bytes 0 plays up to the fault, and none of them changes.
fn check_cases(rt: &impl Abort, heap: Global, cases: &[Case]) -> Result<(), Fail> {
    let mut bytes = [0; 65_536];
    for (number, bit, fields) in cases {
        let mut all = vec![in heap; HEADER]?;
        all.extend_from_slice(fields)?;
        let log = log_of(heap, all.as_slice())?;
        let mut chip = Chip::new(Ram::new(&mut bytes), RF5C68A);
        let mut player = Player::new(log.as_slice());
        let stop = Err(Told(*number, "log", *bit, 0));
        let _ = check_stop(rt, &mut player, &mut chip, stop);
        assert!(rt; bytes.iter().all(|byte| *byte == 0), "{:?}", fields);
    }
    Ok(())
}

// Within the tag, after it, one bit before the last field's end, and within a block's bytes.
#[test]
fn cut_records(rt: HostRuntime) -> Result<(), Fail> {
    let cases: [Case; 19] = [
        (9, 32, &[]),
        (9, 47, &[REGISTER]),
        (9, 62, &[REGISTER, REGISTER]),
        (9, 32, &[(3, 1)]),
        (9, 32, &[(3, 2)]),
        (9, 32, &[(3, 3)]),
        (9, 32, &[(3, 4)]),
        (9, 47, &[REGISTER, (3, 1)]),
        (9, 51, &[WAIT, (3, 2)]),
        (9, 66, &[WAIT, REGISTER, (3, 3)]),
        (9, 66, &[REGISTER, WAIT, (3, 4)]),
        (9, 66, &[REGISTER, WAIT, (14, 0xBE0)]),
        (9, 66, &[REGISTER, WAIT, (22, 0x17_FFD2)]),
        (9, 62, &[REGISTER, REGISTER, (18, 0x1_8000)]),
        (9, 62, &[REGISTER, REGISTER, (26, 0x200_0000)]),
        (9, 32, &[(27, 0x400_0001), (5, 0)]),
        (9, 32, &[(27, 0x400_0001), (5, 0), (8, 0xAA)]),
        (9, 47, &[REGISTER, (27, 0x400_0002), (6, 0), (16, 0xAABB)]),
        (9, 51, &[WAIT, (27, 0x400_0001), (2, 0), (8, 0xAA)]),
    ];
    check_cases(&rt, rt.alloc(), &cases)
}

#[test]
fn wrong_tags(rt: HostRuntime) -> Result<(), Fail> {
    let cases: [Case; 8] = [
        (10, 32, &[(3, 5)]),
        (10, 32, &[(3, 6)]),
        (10, 32, &[(3, 7)]),
        (10, 32, &[(32, 0xBFFF_FFFF)]),
        (10, 47, &[REGISTER, (3, 5)]),
        (10, 51, &[WAIT, (3, 6)]),
        (10, 66, &[REGISTER, WAIT, (3, 7)]),
        (10, 77, &[REGISTER, REGISTER, REGISTER, (3, 7)]),
    ];
    check_cases(&rt, rt.alloc(), &cases)
}

// Register addresses above 8, waits of no ticks, and blocks that end past the window.
#[test]
fn fields_out_of_range(rt: HostRuntime) -> Result<(), Fail> {
    let cases: [Case; 16] = [
        (11, 32, &[(15, 0x19FF)]),
        (11, 32, &[(15, 0x1AFF)]),
        (11, 32, &[(15, 0x1BFF)]),
        (11, 32, &[(15, 0x1CFF)]),
        (11, 32, &[(15, 0x1DFF)]),
        (11, 32, &[(15, 0x1EFF)]),
        (11, 32, &[(15, 0x1FFF)]),
        (11, 47, &[REGISTER, (15, 0x1980)]),
        (11, 66, &[REGISTER, WAIT, (15, 0x1F80)]),
        (11, 32, &[(19, 0x3_0000)]),
        (11, 47, &[REGISTER, (19, 0x3_0000), REGISTER]),
        (11, 32, &[(27, 0x4FF_F001), (5, 0), (16, 0xAABB)]),
        (11, 32, &[(27, 0x4FF_EFFF), (5, 0), (16, 0xAABB)]),
        (11, 32, &[(27, 0x400_1FFF), (5, 0), (16, 0xAABB)]),
        (11, 47, &[REGISTER, (27, 0x4FF_F001), (6, 0), (16, 0xAABB)]),
        (11, 51, &[WAIT, (27, 0x480_0800), (2, 0), (16, 0xAABB)]),
    ];
    check_cases(&rt, rt.alloc(), &cases)
}

// After the end, and before a block's bytes.
#[test]
fn wrong_padding(rt: HostRuntime) -> Result<(), Fail> {
    let cases: [Case; 12] = [
        (12, 32, &[END, (5, 0x01)]),
        (12, 32, &[END, (5, 0x10)]),
        (12, 32, &[END, (5, 0), (8, 0)]),
        (12, 32, &[END, (5, 0), (8, 1)]),
        (12, 47, &[REGISTER, END, (6, 0x01)]),
        (12, 47, &[REGISTER, END, (6, 0x20)]),
        (12, 47, &[REGISTER, END, (6, 0), (8, 0)]),
        (12, 77, &[REGISTER, REGISTER, REGISTER, END, (8, 0)]),
        (12, 32, &[(27, 0x400_0000), (5, 0x01), (8, 0xAA)]),
        (12, 32, &[(27, 0x400_0000), (5, 0x10), (8, 0xAA)]),
        (12, 47, &[REGISTER, (27, 0x400_0000), (6, 0x20), (8, 0xAA)]),
        (12, 51, &[WAIT, (27, 0x400_0000), (2, 0x1), (8, 0xAA)]),
    ];
    check_cases(&rt, rt.alloc(), &cases)
}

// What stands at bit 85 behind a header of an RF5C164 and three records.
const TAILS: [(u8, &[Field]); 6] = [
    (10, &[(3, 5)]),
    (11, &[(15, 0x19FF)]),
    (11, &[(27, 0x4FF_F001), (16, 0xAABB)]),
    (9, &[(27, 0x400_0001), (8, 0xAA)]),
    (12, &[END, (8, 0)]),
    (9, &[(3, 2)]),
];

// Register 7 gets 83H, register 6 gets 12H, and window byte 10H gets A5H.
const BEFORE: [Field; 4] = [
    (32, 0x18BF_0A40),
    (15, 0x1783),
    (15, 0x1612),
    (23, 0x20_10A5),
];

// Beside another chip that got the writes of the records before alone.
fn check_tail(rt: &impl Abort, heap: Global, number: u8, tail: &[Field]) -> Result<(), Fail> {
    let mut fields = vec![in heap; BEFORE[0], BEFORE[1], BEFORE[2], BEFORE[3]]?;
    fields.extend_from_slice(tail)?;
    let log = log_of(heap, fields.as_slice())?;
    let mut bytes = [0x40; 65_536];
    let mut other_bytes = [0x40; 65_536];
    let mut chip = Chip::new(Ram::new(&mut bytes), RF5C164);
    let mut other = Chip::new(Ram::new(&mut other_bytes), RF5C164);
    let mut player = Player::new(log.as_slice());
    let count = check_stop(rt, &mut player, &mut chip, Err(Told(number, "log", 85, 0)));
    assert_eq!(rt; count, 4);
    for (address, byte) in [(7, 0x83), (6, 0x12), (0x1010, 0xA5)] {
        other.write(address, byte)?;
    }
    check_same(rt, &mut chip, &mut other);
    Ok(())
}

#[test]
fn records_before_a_fault(rt: HostRuntime) -> Result<(), Fail> {
    for (number, tail) in TAILS {
        check_tail(&rt, rt.alloc(), number, tail)?;
    }
    Ok(())
}
