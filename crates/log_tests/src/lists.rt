// Lists of records, recorded under a header.
use crate::bits::check_front;
use kind::Kind;
use register_log::fault::Fault;
use register_log::header::Header;
use register_log::record::Record;
use register_log::refusal::Refusal;
use std::alloc::Global;
use std::process::Abort;
use std::test::Fail;

pub const RF5C68A: Header = Header {
    kind: Kind::Rf5c68a,
    clock: 10_000_000,
};

pub const RF5C164: Header = Header {
    kind: Kind::Rf5c164,
    clock: 12_520_000,
};

pub type List = &'static [Record<'static>];

pub const FIVE: List = &[
    Record::Register {
        address: 0,
        byte: 0x00,
    },
    Record::Wait { ticks: 65_535 },
    Record::Window {
        offset: 0,
        byte: 0xFF,
    },
    Record::Block {
        offset: 1,
        bytes: &[0x80, 0x01],
    },
    Record::Register {
        address: 8,
        byte: 0xFF,
    },
];

pub const FIVE_BYTES: &[u8] = &[
    0x18, 0xBF, 0x0A, 0x40, 0x20, 0x00, 0xFF, 0xFF, 0xD0, 0x00, 0x7F, 0xC0, 0x01, 0x00, 0x10, 0x80,
    0x01, 0x31, 0xFE, 0x00,
];

// A header alone.
pub const BEGUN: &[u8] = &[0x10, 0x98, 0x96, 0x80, 0x00];

// A header, records, and the log of them.
const LOGS: [(Header, List, &[u8]); 10] = [
    (RF5C68A, &[], BEGUN),
    (
        Header {
            kind: Kind::Rf5c164,
            clock: 1,
        },
        &[Record::Wait { ticks: 1 }],
        &[0x18, 0x00, 0x00, 0x01, 0x60, 0x00, 0x20],
    ),
    (
        RF5C164,
        &[Record::Wait { ticks: 65_535 }],
        &[0x18, 0xBF, 0x0A, 0x40, 0x7F, 0xFF, 0xE0],
    ),
    (
        RF5C68A,
        &[Record::Register {
            address: 7,
            byte: 0xC0,
        }],
        &[0x10, 0x98, 0x96, 0x80, 0x2F, 0x80, 0x00],
    ),
    (
        RF5C68A,
        &[Record::Window {
            offset: 4_095,
            byte: 0xA5,
        }],
        &[0x10, 0x98, 0x96, 0x80, 0x5F, 0xFF, 0x4A, 0x00],
    ),
    (
        RF5C68A,
        &[Record::Window {
            offset: 0,
            byte: 0x00,
        }],
        &[0x10, 0x98, 0x96, 0x80, 0x40, 0x00, 0x00, 0x00],
    ),
    (
        RF5C68A,
        &[Record::Block {
            offset: 0,
            bytes: &[0xAB],
        }],
        &[0x10, 0x98, 0x96, 0x80, 0x80, 0x00, 0x00, 0x00, 0xAB, 0x00],
    ),
    (
        RF5C68A,
        &[Record::Block {
            offset: 4_094,
            bytes: &[0x12, 0x34],
        }],
        &[
            0x10, 0x98, 0x96, 0x80, 0x9F, 0xFC, 0x00, 0x20, 0x12, 0x34, 0x00,
        ],
    ),
    (
        RF5C68A,
        &[
            Record::Register {
                address: 8,
                byte: 0xFF,
            },
            Record::Register {
                address: 1,
                byte: 0x81,
            },
        ],
        &[0x10, 0x98, 0x96, 0x80, 0x31, 0xFE, 0x46, 0x04, 0x00],
    ),
    (RF5C164, FIVE, FIVE_BYTES),
];

// A buffer that is longer than a log by so many bytes, all alike.
fn check_recorded(
    rt: &impl Abort,
    heap: Global,
    (header, records, log): (Header, List, &[u8]),
    (more, byte): (usize, u8),
) -> Result<(), Fail> {
    let mut buffer = vec![in heap; byte; log.len().saturating_add(more)]?;
    let recorded = whole_log::record(header, records, buffer.as_mut_slice());
    assert_eq!(rt; recorded, Ok(log.len()));
    check_front(rt, buffer.as_slice(), log, byte);
    Ok(())
}

#[test]
fn exact_bytes(rt: HostRuntime) -> Result<(), Fail> {
    for (header, records, log) in LOGS {
        for around in [(0, 0xEE), (0, 0x00), (0, 0xFF), (1, 0xEE), (9, 0xFF)] {
            check_recorded(&rt, rt.alloc(), (header, records, log), around)?;
        }
    }
    Ok(())
}

// A refusal leaves the buffer, whatever records have room in it.
#[test]
fn one_byte_too_short(rt: HostRuntime) -> Result<(), Fail> {
    for (header, records, log) in LOGS {
        let length = log.len().saturating_sub(1);
        let mut buffer = vec![in rt.alloc(); 0xFFu8; length]?;
        let recorded = whole_log::record(header, records, buffer.as_mut_slice());
        assert_eq!(rt; recorded, Err(Refusal::NoRoom));
        check_front(&rt, buffer.as_slice(), &[], 0xFF);
    }
    Ok(())
}

#[test]
fn too_short_for_a_header(rt: HostRuntime) -> Result<(), Fail> {
    for length in 0..5 {
        let mut buffer = vec![in rt.alloc(); 0xEEu8; length]?;
        let recorded = whole_log::record(RF5C68A, FIVE, buffer.as_mut_slice());
        assert_eq!(rt; recorded, Err(Refusal::NoRoom));
        check_front(&rt, buffer.as_slice(), &[], 0xEE);
    }
    Ok(())
}

pub const REGISTER: Record<'static> = Record::Register {
    address: 7,
    byte: 0xC0,
};

pub const REGISTER_BYTES: [u8; 7] = [0x10, 0x98, 0x96, 0x80, 0x2F, 0x80, 0x00];

// Records that no log may have.
pub const UNFIT: [Record<'static>; 13] = [
    Record::Register {
        address: 9,
        byte: 0x00,
    },
    Record::Register {
        address: 15,
        byte: 0xFF,
    },
    Record::Register {
        address: 16,
        byte: 0x00,
    },
    Record::Register {
        address: 255,
        byte: 0x00,
    },
    Record::Wait { ticks: 0 },
    Record::Window {
        offset: 4_096,
        byte: 0x00,
    },
    Record::Window {
        offset: 65_535,
        byte: 0xFF,
    },
    Record::Block {
        offset: 0,
        bytes: &[],
    },
    Record::Block {
        offset: 4_095,
        bytes: &[],
    },
    Record::Block {
        offset: 4_095,
        bytes: &[1, 2],
    },
    Record::Block {
        offset: 4_096,
        bytes: &[1],
    },
    Record::Block {
        offset: 65_535,
        bytes: &[1],
    },
    Record::Block {
        offset: 65_535,
        bytes: &[],
    },
];

const RANGE: Result<usize, Refusal> = Err(Refusal::Log(Fault::Range));

// Behind a register, in a buffer with room and in one that is full with that alone.
#[test]
fn unfit_records(rt: HostRuntime) -> Result<(), Fail> {
    for record in UNFIT {
        for more in [0, 1, 20] {
            let mut buffer = vec![in rt.alloc(); 0xFFu8; 7 + more]?;
            let list = [REGISTER, record, REGISTER];
            assert_eq!(rt;
                whole_log::record(RF5C68A, list.as_slice(), buffer.as_mut_slice()),
                RANGE
            );
            check_front(&rt, buffer.as_slice(), &[], 0xFF);
        }
    }
    Ok(())
}

const NO_ROOM: Result<usize, Refusal> = Err(Refusal::NoRoom);

// The first of several causes in a list: a buffer's length, and the answer.
#[test]
fn first_cause(rt: HostRuntime) {
    let unfit = Record::Wait { ticks: 0 };
    let block = Record::Block {
        offset: 0,
        bytes: &[0xAB; 16],
    };
    let cases = [
        (4, [unfit, block, REGISTER], NO_ROOM),
        (5, [unfit, block, REGISTER], RANGE),
        (5, [block, unfit, REGISTER], NO_ROOM),
        (7, [REGISTER, unfit, block], RANGE),
        (7, [REGISTER, block, unfit], NO_ROOM),
        (24, [block, unfit, REGISTER], NO_ROOM),
        (25, [block, unfit, REGISTER], RANGE),
        (26, [block, REGISTER, unfit], NO_ROOM),
        (27, [block, REGISTER, unfit], RANGE),
    ];
    for (length, list, answer) in cases {
        let mut buffer = [0xEE; 27];
        let part = buffer.get_mut(..length).unwrap_or(&mut []);
        assert_eq!(rt; whole_log::record(RF5C68A, list.as_slice(), part), answer);
        check_front(&rt, &buffer, &[], 0xEE);
    }
}

// An offset and a length, and the answer: the length of a log of this block alone, or the refusal.
#[test]
fn long_blocks(rt: HostRuntime) -> Result<(), Fail> {
    let cases = [
        (0, 4_096, Ok(4_105)),
        (0, 4_097, RANGE),
        (0, 65_536, RANGE),
        (1, 4_095, Ok(4_104)),
        (1, 4_096, RANGE),
        (2_048, 2_048, Ok(2_057)),
        (2_048, 2_049, RANGE),
        (4_094, 2, Ok(11)),
        (4_094, 3, RANGE),
    ];
    for (offset, length, answer) in cases {
        let bytes = vec![in rt.alloc(); 0x5Au8; length]?;
        let mut buffer = vec![in rt.alloc(); 0xEEu8; 5_000]?;
        let bytes = bytes.as_slice();
        let list = [Record::Block { offset, bytes }];
        assert_eq!(rt;
            whole_log::record(RF5C68A, list.as_slice(), buffer.as_mut_slice()),
            answer
        );
    }
    Ok(())
}

#[test]
fn wrong_clocks(rt: HostRuntime) -> Result<(), Fail> {
    let headers = [
        (Kind::Rf5c68a, 0),
        (Kind::Rf5c68a, 10_000_001),
        (Kind::Rf5c68a, 12_520_000),
        (Kind::Rf5c68a, 16_777_217),
        (Kind::Rf5c68a, u32::MAX),
        (Kind::Rf5c164, 0),
        (Kind::Rf5c164, 12_520_001),
        (Kind::Rf5c164, 16_777_217),
        (Kind::Rf5c164, u32::MAX),
    ];
    for (kind, clock) in headers {
        for length in [0, 4, 5, 100] {
            let mut buffer = vec![in rt.alloc(); 0xEEu8; length]?;
            let recorded = whole_log::record(Header { kind, clock }, FIVE, buffer.as_mut_slice());
            assert_eq!(rt; recorded, Err(Refusal::Log(Fault::Header)));
            check_front(&rt, buffer.as_slice(), &[], 0xEE);
        }
    }
    Ok(())
}

#[test]
fn refusals_by_number(rt: HostRuntime) {
    let numbers = [
        (Refusal::Log(Fault::Length), 7),
        (Refusal::Log(Fault::Header), 8),
        (Refusal::Log(Fault::Cut), 9),
        (Refusal::Log(Fault::Tag), 10),
        (Refusal::Log(Fault::Range), 11),
        (Refusal::Log(Fault::Padding), 12),
        (Refusal::NoRoom, 13),
    ];
    for (refusal, number) in numbers {
        assert_eq!(rt; refusal.number(), number);
    }
}
