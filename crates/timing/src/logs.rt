// Logs of the longest length, recorded and read.
use kind::Kind;
use register_log::header::Header;
use register_log::reader::Reader;
use register_log::record::Record;
use register_log::recording::Recording;
use std::io;

const LONGEST: usize = 16_777_216;

const HEADER: Header = Header {
    kind: Kind::Rf5c68a,
    clock: 10_000_000,
};

pub const SHORT: [Record<'static>; 3] = [
    Record::Register {
        address: 7,
        byte: 0xC0,
    },
    Record::Window {
        offset: 0x200,
        byte: 0x81,
    },
    Record::Wait { ticks: 26_042 },
];

pub const BLOCK: Record<'static> = Record::Block {
    offset: 0,
    bytes: &[0xA5; 4_096],
};

// Records these over and over until there is no room, and answers how many there are, and the log's length.
fn fill(records: &[Record<'_>], buffer: &mut [u8]) -> (usize, usize) {
    let Ok(mut recording) = Recording::begin(HEADER, buffer) else {
        return (0, 0);
    };
    let mut count: usize = 0;
    'rounds: for _ in 0..LONGEST {
        for record in records {
            if recording.add(record, buffer).is_err() {
                break 'rounds;
            }
            count = count.saturating_add(1);
        }
    }
    (count, recording.close())
}

// Reads a log's records, and answers how many there are.
fn count_records(log: &[u8]) -> usize {
    let mut reader = Reader::new(log);
    let mut count: usize = 0;
    for _ in 0..8 * LONGEST {
        match reader.next() {
            Ok(Some(_)) => count = count.saturating_add(1),
            _ => break,
        }
    }
    count
}

pub fn record(rt: &HostRuntime, records: &[Record<'_>], rounds: u32) -> io::Result<()> {
    let mut buffer = vec![in rt.alloc(); 0u8; LONGEST]?;
    let mut filled = (0, 0);
    for _ in 0..rounds {
        filled = fill(records, buffer.as_mut_slice());
    }
    let (count, length) = filled;
    println!(rt; "recorded {count} records in {length} bytes")
}

pub fn read(rt: &HostRuntime, records: &[Record<'_>], rounds: u32) -> io::Result<()> {
    let mut buffer = vec![in rt.alloc(); 0u8; LONGEST]?;
    let (_, length) = fill(records, buffer.as_mut_slice());
    let log = buffer.get(..length).unwrap_or(&[]);
    let mut count = 0;
    for _ in 0..rounds {
        count = count_records(log);
    }
    println!(rt; "read {count} records in {length} bytes")
}
