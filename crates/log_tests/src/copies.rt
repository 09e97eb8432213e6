// Logs copied.
use crate::bits::{Field, HEADER, REGISTER_BITS, WAIT_BITS, WINDOW_BITS, check_front, log_of};
use crate::lists::{FIVE_BYTES, REGISTER_BYTES};
use register_log::fault::Fault;
use register_log::refusal::Refusal;
use std::alloc::Global;
use std::process::Abort;
use std::test::Fail;

// A log into a buffer that is longer by so many bytes.
fn check_copied(rt: &impl Abort, heap: Global, log: &[u8], more: usize) -> Result<(), Fail> {
    let mut buffer = vec![in heap; 0xEEu8; log.len().saturating_add(more)]?;
    assert_eq!(rt; whole_log::copy(log, buffer.as_mut_slice()), Ok(log.len()));
    check_front(rt, buffer.as_slice(), log, 0xEE);
    Ok(())
}

// What follows the header in logs that are accepted.
const ACCEPTED: [&[Field]; 7] = [
    &[(3, 0)],
    &[REGISTER_BITS, (3, 0)],
    &[REGISTER_BITS, REGISTER_BITS, REGISTER_BITS, (3, 0)],
    &[WINDOW_BITS, WAIT_BITS, REGISTER_BITS, WINDOW_BITS, (3, 0)],
    &[WAIT_BITS, (27, 0x400_0000), (2, 0), (8, 0xAB), (3, 0)],
    &[
        WINDOW_BITS,
        WINDOW_BITS,
        (27, 0x4FF_E001),
        (7, 0),
        (16, 0xABCD),
        WAIT_BITS,
        (3, 0),
    ],
    &[
        (27, 0x4FF_F000),
        (5, 0),
        (8, 0xFF),
        (27, 0x400_0000),
        (5, 0),
        (8, 0),
        (3, 0),
    ],
];

#[test]
fn byte_by_byte(rt: HostRuntime) -> Result<(), Fail> {
    for fields in ACCEPTED {
        let mut all = vec![in rt.alloc(); HEADER]?;
        all.extend_from_slice(fields)?;
        let log = log_of(rt.alloc(), all.as_slice())?;
        for more in [0, 1, 30] {
            check_copied(&rt, rt.alloc(), log.as_slice(), more)?;
        }
    }
    check_copied(&rt, rt.alloc(), FIVE_BYTES, 5)?;
    check_copied(&rt, rt.alloc(), &REGISTER_BYTES, 0)
}

// A refused copy leaves the buffer.
fn check_refused(rt: &impl Abort, log: &[u8], fault: Fault) {
    let mut buffer = [0xEE; 12];
    let refusal = Err(Refusal::Log(fault));
    assert_eq!(rt; whole_log::copy(log, &mut buffer), refusal);
    check_front(rt, &buffer, &[], 0xEE);
}

#[test]
fn damaged(rt: HostRuntime) -> Result<(), Fail> {
    let cases: [(&[Field], Fault); 13] = [
        (&[], Fault::Length),
        (&[(24, 0x10_9896)], Fault::Length),
        (&[(32, 0x1098_9681), (8, 0)], Fault::Header),
        (&[(32, 0x2098_9680), (8, 0)], Fault::Header),
        (&[(32, 0x1198_9680)], Fault::Header),
        (&[HEADER], Fault::Cut),
        (&[HEADER, REGISTER_BITS], Fault::Cut),
        (&[HEADER, REGISTER_BITS, (3, 3)], Fault::Cut),
        (&[HEADER, (3, 5)], Fault::Tag),
        (&[HEADER, REGISTER_BITS, (3, 7), (30, 0)], Fault::Tag),
        (
            &[HEADER, REGISTER_BITS, (3, 3), (16, 0), (2, 1)],
            Fault::Range,
        ),
        (&[HEADER, REGISTER_BITS, (3, 0), (6, 1)], Fault::Padding),
        (&[HEADER, (3, 0), (5, 0), (8, 0)], Fault::Padding),
    ];
    for (fields, fault) in cases {
        let log = log_of(rt.alloc(), fields)?;
        check_refused(&rt, log.as_slice(), fault);
    }
    Ok(())
}

const NO_ROOM: Result<usize, Refusal> = Err(Refusal::NoRoom);

// A log of five records, into buffers that are too short, though some of the records have room.
#[test]
fn into_short_buffers(rt: HostRuntime) -> Result<(), Fail> {
    for length in [0, 4, 5, 6, 18, 19] {
        let mut buffer = vec![in rt.alloc(); 0xEEu8; length]?;
        assert_eq!(rt; whole_log::copy(FIVE_BYTES, buffer.as_mut_slice()), NO_ROOM);
        check_front(&rt, buffer.as_slice(), &[], 0xEE);
    }
    Ok(())
}

// Damaged, into buffers that are too short: what comes first in the log is refused.
#[test]
fn first_cause(rt: HostRuntime) {
    let log = [0x10, 0x98, 0x96, 0x80, 0x2F, 0x80, 0xC0];
    let mut six = [0; 6];
    assert_eq!(rt; whole_log::copy(&log, &mut six), NO_ROOM);
    assert_eq!(rt; six, [0; 6]);
    let mut seven = [0; 7];
    let cut = Err(Refusal::Log(Fault::Cut));
    assert_eq!(rt; whole_log::copy(&log, &mut seven), cut);
    assert_eq!(rt; seven, [0; 7]);
    let wrong = Err(Refusal::Log(Fault::Header));
    assert_eq!(rt; whole_log::copy(&[0x10, 0, 0, 0, 0], &mut []), wrong);
    let short = Err(Refusal::Log(Fault::Length));
    assert_eq!(rt; whole_log::copy(&[0x10, 0, 0], &mut []), short);
}
