// Recordings step by step.
use crate::bits::check_front;
use crate::lists::{BEGUN, FIVE, REGISTER, REGISTER_BYTES, RF5C68A, RF5C164, UNFIT};
use kind::Kind;
use register_log::fault::Fault;
use register_log::header::Header;
use register_log::recording::Recording;
use register_log::refusal::Refusal;
use std::process::Abort;
use std::test::Fail;

// What the buffer begins with after each of five records.
const GROWING: [&[u8]; 5] = [
    &[0x18, 0xBF, 0x0A, 0x40, 0x20, 0x00, 0x00],
    &[0x18, 0xBF, 0x0A, 0x40, 0x20, 0x00, 0xFF, 0xFF, 0xC0],
    &[
        0x18, 0xBF, 0x0A, 0x40, 0x20, 0x00, 0xFF, 0xFF, 0xD0, 0x00, 0x7F, 0x80,
    ],
    &[
        0x18, 0xBF, 0x0A, 0x40, 0x20, 0x00, 0xFF, 0xFF, 0xD0, 0x00, 0x7F, 0xC0, 0x01, 0x00, 0x10,
        0x80, 0x01, 0x00,
    ],
    &[
        0x18, 0xBF, 0x0A, 0x40, 0x20, 0x00, 0xFF, 0xFF, 0xD0, 0x00, 0x7F, 0xC0, 0x01, 0x00, 0x10,
        0x80, 0x01, 0x31, 0xFE, 0x00,
    ],
];

fn check_growing(rt: &impl Abort, recording: &mut Recording, buffer: &mut [u8], byte: u8) {
    for (record, log) in FIVE.iter().zip(GROWING) {
        assert_eq!(rt; recording.add(record, buffer), Ok(()));
        check_front(rt, buffer, log, byte);
    }
}

#[test]
fn a_log_after_each_record(rt: HostRuntime) -> Result<(), Fail> {
    for byte in [0x00, 0xEE, 0xFF] {
        let mut buffer = [byte; 24];
        let mut recording = Recording::begin(RF5C164, &mut buffer)?;
        check_front(&rt, &buffer, &[0x18, 0xBF, 0x0A, 0x40, 0x00], byte);
        check_growing(&rt, &mut recording, &mut buffer, byte);
        assert_eq!(rt; recording.close(), 20);
    }
    Ok(())
}

#[test]
fn closed_or_abandoned_at_once(rt: HostRuntime) -> Result<(), Fail> {
    let mut buffer = [0xEE; 6];
    let recording = Recording::begin(RF5C68A, &mut buffer)?;
    assert_eq!(rt; recording.close(), 5);
    let other = Recording::begin(RF5C164, &mut buffer)?;
    other.abandon();
    check_front(&rt, &buffer, &[0x18, 0xBF, 0x0A, 0x40, 0x00], 0xEE);
    Ok(())
}

const RANGE: Result<(), Refusal> = Err(Refusal::Log(Fault::Range));

const NO_ROOM: Result<(), Refusal> = Err(Refusal::NoRoom);

// Recording goes on after a refused record as if it had not been, also in a buffer with no room for it.
#[test]
fn unfit_records(rt: HostRuntime) -> Result<(), Fail> {
    for record in UNFIT {
        let mut buffer = [0xEE; 7];
        let mut recording = Recording::begin(RF5C68A, &mut buffer)?;
        assert_eq!(rt; recording.add(&record, &mut buffer), RANGE);
        check_front(&rt, &buffer, BEGUN, 0xEE);
        assert_eq!(rt; recording.add(&REGISTER, &mut buffer), Ok(()));
        assert_eq!(rt; recording.add(&record, &mut buffer), RANGE);
        check_front(&rt, &buffer, &REGISTER_BYTES, 0xEE);
        assert_eq!(rt; recording.close(), 7);
    }
    Ok(())
}

// A buffer may be another at each call, if it has the log so far.
#[test]
fn room_found_later(rt: HostRuntime) -> Result<(), Fail> {
    let mut short = [0xEE; 6];
    let mut recording = Recording::begin(RF5C68A, &mut short)?;
    assert_eq!(rt; recording.add(&REGISTER, &mut short), NO_ROOM);
    check_front(&rt, &short, BEGUN, 0xEE);
    assert_eq!(rt; recording.add(&REGISTER, &mut []), NO_ROOM);
    let mut buffer = [0x10, 0x98, 0x96, 0x80, 0x1F, 0xFF, 0xFF, 0xFF];
    assert_eq!(rt; recording.add(&REGISTER, &mut buffer), Ok(()));
    check_front(&rt, &buffer, &REGISTER_BYTES, 0xFF);
    assert_eq!(rt; recording.close(), 7);
    Ok(())
}

// After three registers, and after eleven, the end's bits are the last ones of a byte.
#[test]
fn length_after_each_register(rt: HostRuntime) -> Result<(), Fail> {
    let mut buffer = [0xEE; 25];
    for (count, length) in [5, 7, 9, 10, 12, 14, 16, 18, 20, 22, 24, 25]
        .into_iter()
        .enumerate()
    {
        let mut recording = Recording::begin(RF5C68A, &mut buffer)?;
        for _ in 0..count {
            assert_eq!(rt; recording.add(&REGISTER, &mut buffer), Ok(()));
        }
        assert_eq!(rt; recording.close(), length);
    }
    Ok(())
}

// A refusal of a header, which leaves a buffer of five bytes EEH.
fn check_not_begun(rt: &impl Abort, header: Header, refusal: Refusal, capacity: usize) {
    let mut buffer = [0xEE; 5];
    match Recording::begin(header, buffer.get_mut(..capacity).unwrap_or(&mut [])) {
        Ok(recording) => {
            recording.abandon();
            panic!(rt; "{} is accepted", header.clock);
        }
        Err(found) => assert_eq!(rt; found, refusal),
    }
    check_front(rt, &buffer, &[], 0xEE);
}

#[test]
fn not_begun(rt: HostRuntime) {
    let wrong = Refusal::Log(Fault::Header);
    let cases = [
        (Kind::Rf5c68a, 0, wrong, 5),
        (Kind::Rf5c68a, 10_000_001, wrong, 5),
        (Kind::Rf5c68a, 10_000_001, wrong, 0),
        (Kind::Rf5c164, 0, wrong, 5),
        (Kind::Rf5c164, 12_520_001, wrong, 5),
        (Kind::Rf5c164, u32::MAX, wrong, 4),
        (Kind::Rf5c68a, 10_000_000, Refusal::NoRoom, 4),
        (Kind::Rf5c164, 12_520_000, Refusal::NoRoom, 0),
        (Kind::Rf5c164, 1, Refusal::NoRoom, 4),
    ];
    for (kind, clock, refusal, capacity) in cases {
        check_not_begun(&rt, Header { kind, clock }, refusal, capacity);
    }
}
