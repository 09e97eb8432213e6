// The shortest and the longest logs.
use crate::bits::{Answer, CUT, END, NOT_PADDED, check_stays};
use crate::lists::{REGISTER, RF5C68A};
use kind::Kind;
use register_log::fault::Fault;
use register_log::header::Header;
use register_log::record::Record;
use register_log::recording::Recording;
use register_log::refusal::Refusal;
use std::process::Abort;
use std::test::Fail;

const TOO_SHORT_OR_LONG: Answer = Err(Fault::Length);

const NO_LENGTH: Result<Header, Fault> = Err(Fault::Length);

// What four bytes 10H say.
const TENS: Result<Header, Fault> = Ok(Header {
    kind: Kind::Rf5c68a,
    clock: 0x10_1010,
});

const WRONG: Result<Header, Fault> = Err(Fault::Header);

// A log of one byte again and again: the byte, how often, and what its header and its first record are.
const LOGS: [(u8, usize, Result<Header, Fault>, Answer); 14] = [
    (0x10, 0, NO_LENGTH, TOO_SHORT_OR_LONG),
    (0x10, 1, NO_LENGTH, TOO_SHORT_OR_LONG),
    (0x10, 3, NO_LENGTH, TOO_SHORT_OR_LONG),
    (0x10, 4, TENS, CUT),
    (0x10, 5, TENS, NOT_PADDED),
    (0x10, 16_777_215, TENS, NOT_PADDED),
    (0x10, 16_777_216, TENS, NOT_PADDED),
    (0x10, 16_777_217, NO_LENGTH, TOO_SHORT_OR_LONG),
    (0x00, 3, NO_LENGTH, TOO_SHORT_OR_LONG),
    (0x00, 4, WRONG, CUT),
    (0x00, 5, WRONG, END),
    (0x00, 6, WRONG, NOT_PADDED),
    (0x00, 16_777_216, WRONG, NOT_PADDED),
    (0x00, 16_777_217, NO_LENGTH, TOO_SHORT_OR_LONG),
];

#[test]
fn each_length(rt: HostRuntime) -> Result<(), Fail> {
    for (byte, length, header, record) in LOGS {
        let log = vec![in rt.alloc(); byte; length]?;
        assert_eq!(rt; Header::read(log.as_slice()), header, "{}", length);
        check_stays(&rt, log.as_slice(), 32, record);
    }
    Ok(())
}

// A block at the front of the window.
fn block(bytes: &[u8], length: usize) -> Record<'_> {
    Record::Block {
        offset: 0,
        bytes: bytes.get(..length).unwrap_or(&[]),
    }
}

// Fills a log up: the header and 4,092 whole blocks have 16,777,204 bytes, and the end one more. Then a block may have so
// many bytes and no more.
fn check_full(rt: &impl Abort, buffer: &mut [u8], room: usize) -> Result<(), Fail> {
    let bytes = [0xA5; 4_096];
    let no_room = Err(Refusal::NoRoom);
    let mut recording = Recording::begin(RF5C68A, buffer)?;
    for _ in 0..4_092 {
        assert_eq!(rt; recording.add(&block(&bytes, 4_096), buffer), Ok(()));
    }
    assert_eq!(rt;
        recording.add(&block(&bytes, room.saturating_add(1)), buffer),
        no_room
    );
    assert_eq!(rt; recording.add(&block(&bytes, room), buffer), Ok(()));
    assert_eq!(rt; recording.add(&REGISTER, buffer), no_room);
    assert_eq!(rt; recording.close(), room.saturating_add(16_777_209));
    Ok(())
}

#[test]
fn full_logs(rt: HostRuntime) -> Result<(), Fail> {
    for (capacity, room) in [(16_777_215, 6), (16_777_217, 7)] {
        let mut buffer = vec![in rt.alloc(); 0xEEu8; capacity]?;
        check_full(&rt, buffer.as_mut_slice(), room)?;
    }
    Ok(())
}

// The longest log there can be, recorded and copied.
#[test]
fn longest_log(rt: HostRuntime) -> Result<(), Fail> {
    let mut log = vec![in rt.alloc(); 0xEEu8; 16_777_216]?;
    check_full(&rt, log.as_mut_slice(), 7)?;
    let mut short = vec![in rt.alloc(); 0xEEu8; 16_777_215]?;
    let refused = whole_log::copy(log.as_slice(), short.as_mut_slice());
    assert_eq!(rt; refused, Err(Refusal::NoRoom));
    let mut copy = vec![in rt.alloc(); 0xEEu8; 16_777_216]?;
    let copied = whole_log::copy(log.as_slice(), copy.as_mut_slice());
    assert_eq!(rt; copied, Ok(16_777_216));
    assert!(rt; copy == log);
    Ok(())
}
