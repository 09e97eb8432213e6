// Logs read from the first record on, up to their end or a fault.
use crate::bits::{
    Answer, CUT, END, Field, HEADER, NO_SUCH_TAG, NOT_PADDED, OUT_OF_RANGE, REGISTER_BITS,
    WAIT_BITS, WINDOW_BITS, check_stays, log_of,
};
use register_log::fault::Fault;
use register_log::reader::Reader;
use std::process::Abort;
use std::test::Fail;

// What follows the header, how many records of it are read, the place that the reader then keeps, and what it answers there.
const LOGS: [(&[Field], usize, usize, Answer); 28] = [
    (&[], 0, 32, CUT),
    (&[REGISTER_BITS], 1, 47, CUT),
    (&[REGISTER_BITS, REGISTER_BITS], 2, 62, CUT),
    (&[REGISTER_BITS; 8], 8, 152, CUT),
    (&[WINDOW_BITS], 1, 55, CUT),
    (&[WINDOW_BITS, WINDOW_BITS], 2, 78, CUT),
    (&[WAIT_BITS, REGISTER_BITS, REGISTER_BITS], 3, 81, END),
    (&[WAIT_BITS; 8], 8, 184, CUT),
    (&[(3, 0)], 0, 32, END),
    (&[REGISTER_BITS, (3, 0)], 1, 47, END),
    (&[REGISTER_BITS, REGISTER_BITS, REGISTER_BITS], 3, 77, END),
    (
        &[REGISTER_BITS, REGISTER_BITS, REGISTER_BITS, (3, 5)],
        3,
        77,
        NO_SUCH_TAG,
    ),
    (
        &[REGISTER_BITS, REGISTER_BITS, REGISTER_BITS, (3, 7)],
        3,
        77,
        NO_SUCH_TAG,
    ),
    (&[REGISTER_BITS, (3, 6), (30, 0)], 1, 47, NO_SUCH_TAG),
    (&[(3, 1), (4, 9), (8, 0xC0)], 0, 32, OUT_OF_RANGE),
    (&[WAIT_BITS, (3, 1), (4, 15), (8, 0)], 1, 51, OUT_OF_RANGE),
    (&[WINDOW_BITS, (3, 3), (16, 0)], 1, 55, OUT_OF_RANGE),
    (
        &[WAIT_BITS, (3, 4), (12, 4_095), (12, 1)],
        1,
        51,
        OUT_OF_RANGE,
    ),
    (
        &[WAIT_BITS, (3, 4), (12, 1), (12, 4_095)],
        1,
        51,
        OUT_OF_RANGE,
    ),
    (
        &[WAIT_BITS, (3, 4), (12, 0), (12, 0), (2, 1)],
        1,
        51,
        NOT_PADDED,
    ),
    (
        &[WAIT_BITS, (3, 4), (12, 0), (12, 0), (2, 2)],
        1,
        51,
        NOT_PADDED,
    ),
    (&[WAIT_BITS, (3, 4), (12, 0), (12, 0), (2, 0)], 1, 51, CUT),
    (
        &[WAIT_BITS, (3, 4), (12, 0), (12, 0), (2, 0), (8, 9)],
        2,
        88,
        CUT,
    ),
    (&[REGISTER_BITS, (3, 0), (6, 1)], 1, 47, NOT_PADDED),
    (&[REGISTER_BITS, (3, 0), (6, 32)], 1, 47, NOT_PADDED),
    (&[REGISTER_BITS, (3, 0), (6, 0), (8, 0)], 1, 47, NOT_PADDED),
    (&[(3, 0), (5, 0), (8, 0)], 0, 32, NOT_PADDED),
    (&[REGISTER_BITS, (3, 0), REGISTER_BITS], 1, 47, NOT_PADDED),
];

fn check_ending(rt: &impl Abort, log: &[u8], records: usize, place: usize, answer: Answer) {
    let mut reader = Reader::new(log);
    for _ in 0..records {
        assert!(rt; matches!(reader.next(), Ok(Some(_))));
    }
    assert_eq!(rt; reader.place, place);
    check_stays(rt, log, reader.place, answer);
}

#[test]
fn from_the_first_record(rt: HostRuntime) -> Result<(), Fail> {
    for (fields, records, place, answer) in LOGS {
        let mut all = vec![in rt.alloc(); HEADER]?;
        all.extend_from_slice(fields)?;
        let log = log_of(rt.alloc(), all.as_slice())?;
        check_ending(&rt, log.as_slice(), records, place, answer);
    }
    Ok(())
}

// Places that no reader comes to by itself.
#[test]
fn at_the_end_of_the_log_and_past_it(rt: HostRuntime) {
    let log = [0x10, 0x98, 0x96, 0x80, 0x00];
    for place in [38, 39, 40, 41, 1_000, usize::MAX] {
        check_stays(&rt, &log, place, CUT);
    }
    check_stays(&rt, &log, 37, END);
    check_stays(&rt, &[0x10, 0x98, 0x96], 1_000, Err(Fault::Length));
}

#[test]
fn faults_by_number(rt: HostRuntime) {
    let numbers = [
        (Fault::Length, 7),
        (Fault::Header, 8),
        (Fault::Cut, 9),
        (Fault::Tag, 10),
        (Fault::Range, 11),
        (Fault::Padding, 12),
    ];
    for (fault, number) in numbers {
        assert_eq!(rt; fault.number(), number);
    }
}
