// Logs over numbers: their headers, recordings and copies.
ghost use Rattle.std.specs.Prelude.{◌≡◌, map, None};
ghost use Rattle.kind.specs.Kinds.{bit_of};
ghost use Rattle.register_log.specs.Header.{header, kind_number};
ghost use Rattle.register_log.specs.Record.{values};
ghost use Rattle.whole_log.specs.Outcome.{recording, copied};
ghost use Rattle.exported.specs.Logs.{kind_of, header_answer, header_of, part, entry_of, recorded_answer};

use crate::numbers::NO_REFUSAL;
use kind::Kind;
use register_log::header::Header;
use register_log::record::Record;
use register_log::refusal::Refusal;
use register_log::tag::Tag;
use whole_log::records::Records;

// A header's fields, or why it is refused.
#[repr(C)]
#[derive(Clone, Copy, PartialEq, Eq, Debug)]
pub struct HeaderAnswer {
    // 0, or the fault's number
    pub refusal: u8,
    // 0 for an RF5C68A, 1 for an RF5C164
    pub kind: u8,
    // in Hz
    pub clock: u32,
}

// A log's length in bytes, or why it is not recorded.
#[repr(C)]
#[derive(Clone, Copy, PartialEq, Eq, Debug)]
pub struct Recorded {
    // 0, or the refusal's number
    pub refusal: u8,
    pub length: usize,
}

// A record by numbers.
#[repr(C)]
#[derive(Clone, Copy, PartialEq, Eq, Debug)]
pub struct FlatRecord {
    // 1 for a register, 2 for a byte of the window, 3 for a wait, 4 for a block
    pub tag: u8,
    // the byte of a register or of the window
    pub byte: u8,
    // the address of a register, the offset in the window, or the ticks of a wait
    pub value: u16,
    // where a block's bytes start among the lent ones, and how many they are
    pub start: usize,
    pub count: usize,
}

impl FlatRecord {
    // The record; for numbers that stand for none it is one that no log can hold.
    fn record(self, bytes: &[u8]) -> Record<'_>
        ensures { values result ≡ entry_of bytes.now self }
    {
        let FlatRecord {
            tag,
            byte,
            value,
            start,
            count,
        } = self;
        match Tag::try_from(u32::from(tag)) {
            Ok(Tag::Register) => Record::Register {
                address: value.min(255) as u8,
                byte,
            },
            Ok(Tag::Window) => Record::Window {
                offset: value,
                byte,
            },
            Ok(Tag::Wait) => Record::Wait { ticks: value },
            Ok(Tag::Block) => Record::Block {
                offset: value,
                bytes: part(bytes, start, count),
            },
            Ok(Tag::End) | Err(_) => Record::Wait { ticks: 0 },
        }
    }
}

// Records in a row, with the lent bytes of which their blocks are parts.
#[derive(Clone, Copy)]
struct FlatRecords<'a> {
    records: &'a [FlatRecord],
    bytes: &'a [u8],
}

impl Records for FlatRecords<'_> {
    ghost entries = { λ flat. map (entry_of flat.bytes.now) flat.records.now };

    fn count(&self) -> usize {
        self.records.len()
    }

    fn at(&self, index: usize) -> Option<Record<'_>> {
        let record = self.records.get(index)?;
        Some(record.record(self.bytes))
    }
}

// So many of the bytes from a place on, or none where they are not all there.
fn part(bytes: &[u8], start: usize, count: usize) -> &[u8]
    ensures { result.now ≡ part bytes.now start count }
{
    if start <= bytes.len() && count <= bytes.len() - start {
        &bytes[start..start + count]
    } else {
        &[]
    }
}

// The kind that a number stands for: 0 is an RF5C68A, and any other an RF5C164.
pub(crate) fn kind_of(number: u8) -> Kind
    ensures { result ≡ kind_of number }
{
    if number == kind_number(Kind::Rf5c68a) {
        Kind::Rf5c68a
    } else {
        Kind::Rf5c164
    }
}

pub(crate) fn kind_number(kind: Kind) -> u8
    ensures { result ≡ kind_number kind }
{
    u8::from(bool::from(kind))
}

// Whether a log has a right header, and its fields.
pub fn check_header(log: &[u8]) -> HeaderAnswer
    ensures { result ≡ header_answer (header log.now) }
{
    match Header::read(log) {
        Ok(header) => HeaderAnswer {
            refusal: NO_REFUSAL,
            kind: kind_number(header.kind),
            clock: header.clock,
        },
        Err(fault) => HeaderAnswer {
            refusal: fault.number(),
            kind: 0,
            clock: 0,
        },
    }
}

// Records a header and records, whose blocks are parts of the lent bytes, into a buffer.
pub fn record_log(
    kind: u8,
    clock: u32,
    records: &[FlatRecord],
    bytes: &[u8],
    buffer: &mut [u8],
) -> Recorded
    ensures answer { result
        ≡ recorded_answer
        (recording buffer.old (header_of kind clock) (map (entry_of bytes.now) records.now) None).answer }
    ensures buffer { buffer.new
        ≡ (recording buffer.old (header_of kind clock) (map (entry_of bytes.now) records.now) None).buffer }
{
    let header = Header {
        kind: kind_of(kind),
        clock,
    };
    let records = FlatRecords { records, bytes };
    answer(whole_log::record(header, records, buffer))
}

// Takes a log's bytes over into a buffer, and answers as if the log were recorded again.
pub fn copy_log(log: &[u8], buffer: &mut [u8]) -> Recorded
    ensures answer { result ≡ recorded_answer (copied log.now buffer.old).answer }
    ensures buffer { buffer.new ≡ (copied log.now buffer.old).buffer }
{
    answer(whole_log::copy(log, buffer))
}

fn answer(recorded: Result<usize, Refusal>) -> Recorded
    ensures { result ≡ recorded_answer «recorded» }
{
    match recorded {
        Ok(length) => Recorded {
            refusal: NO_REFUSAL,
            length,
        },
        Err(refusal) => Recorded {
            refusal: refusal.number(),
            length: 0,
        },
    }
}
