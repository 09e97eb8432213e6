// Recordings: logs that are being written.
ghost use Rattle.std.specs.Prelude.{◌≡◌, ◌*◌, ◌≤◌, true, List, [], ◌∷◌, ◌++◌, length, IfOk, Ok, Err, MatchResult};
ghost use Rattle.outcome.specs.Outcome.{granted, kept};
ghost use Rattle.register_log.specs.Contents.{Whole};
ghost use Rattle.register_log.specs.Fields.{written};
ghost use Rattle.register_log.specs.Header.{most, header_fields, header_fits, records_start};
ghost use Rattle.register_log.specs.Record.{Entry, values, fits, fields};
ghost use Rattle.register_log.specs.Recording.{state, begun, added, after, log_length, roomy, end_fields};
ghost use Rattle.register_log.specs.BitWriter.{Wrote};
ghost use Rattle.register_log.specs.declared.header.Header.{Header as HeaderValue};

use crate::bit_writer::BitWriter;
use crate::header::Header;
use crate::layout::Layout;
use crate::record::{ADDRESS_BITS, BYTE_BITS, LENGTH_BITS, OFFSET_BITS, Record, TICKS_BITS};
use crate::refusal::Refusal;
use crate::tag::{self, Tag};

// A log that is being written into a buffer. It holds a number alone, and the buffer is lent anew at each call, so that
// others can look at the log while it grows. The records so far end where its layout says.
// A recording is closed or abandoned, and cannot be let go otherwise.
pub struct Recording {
    layout: Layout,
}

impl Recording {
    // Writes a header.
    pub fn begin(header: Header, buffer: &mut [u8]) -> Result<Recording, Refusal>
        ensures outcome { MatchResult result
            (λ recording. begun buffer.old header ≡ Ok (state recording.layout.place buffer.new))
            (λ refusal. (begun buffer.old header ≡ Err refusal) × (buffer.new ≡ buffer.old)) }
        ensures whole { IfOk result (λ recording. Whole (state recording.layout.place buffer.new) header []) }
    {
        let layout = Layout::begin(header, buffer.len())?;
        start(header, buffer);
        Ok(Recording { layout })
    }

    // Adds a record. If the buffer holds the log of some records before, it holds that of one more afterwards.
    pub fn add(&mut self, record: &Record<'_>, buffer: &mut [u8]) -> Result<(), Refusal>
        ensures answer { result
            ≡ granted (added (state self.old.layout.place buffer.old) (values «record».now)) }
        ensures after { state self.new.layout.place buffer.new
            ≡ kept (state self.old.layout.place buffer.old)
            (added (state self.old.layout.place buffer.old) (values «record».now)) }
        ensures whole { IfOk result (λ _.
            (h : HeaderValue) (entries : List Entry) → Whole (state self.old.layout.place buffer.old) h entries →
            Whole (state self.new.layout.place buffer.new) h (entries ++ values «record».now ∷ [])) }
    {
        let Layout { place } = self.layout;
        self.layout.add(record, buffer.len())?;
        put(record, buffer, place);
        Ok(())
    }

    // The length of the log in bytes.
    pub fn close(self) -> usize
        ensures { result ≡ log_length self.layout.place }
    {
        let Recording { layout } = self;
        layout.length()
    }

    pub fn abandon(self) {
        let Recording { layout: _ } = self;
    }
}

// Writes a header that fits, and the end after it.
fn start(header: Header, buffer: &mut [u8])
    requires fits { header_fits header ≡ true }
    requires room { roomy (length buffer.old) records_start ≡ true }
    ensures buffer { buffer.new ≡ written buffer.old 0 (header_fields header ++ end_fields) }
    ensures whole { Whole (state records_start buffer.new) header [] }
{
    let mut writer = BitWriter { buffer, place: 0 };
    write_header(&mut writer, header);
    writer.put(tag::BITS, Tag::End as u32);
}

// Writes a record that fits at a place, and the end after it: `add` has tested what this and `write_record` ask.
fn put(record: &Record<'_>, buffer: &mut [u8], place: usize)
    requires fits { fits (values «record».now) ≡ true }
    requires room { roomy (length buffer.old) (after place (values «record».now)) ≡ true }
    requires small { place ≤ 8 * most }
    ensures buffer { buffer.new ≡ written buffer.old place (fields place (values «record».now) ++ end_fields) }
    ensures whole { (h : HeaderValue) (entries : List Entry) → Whole (state place buffer.old) h entries →
        Whole (state (after place (values «record».now)) buffer.new) h (entries ++ values «record».now ∷ []) }
{
    let mut writer = BitWriter { buffer, place };
    write_record(&mut writer, record);
    writer.put(tag::BITS, Tag::End as u32);
}

fn write_header(writer: &mut BitWriter<'_>, header: Header)
    requires start { writer.old.place ≡ 0 }
    requires room { 5 ≤ length writer.old.buffer.now }
    requires clock { header.clock ≤ 12520000 }
    ensures { Wrote writer.old writer.new (header_fields header) }
{
    writer.put(4, 1);
    writer.put(1, u32::from(bool::from(header.kind)));
    writer.put(3, 0);
    writer.put(24, header.clock);
}

fn write_record(writer: &mut BitWriter<'_>, record: &Record<'_>)
    requires fits { fits (values «record».now) ≡ true }
    requires room { after writer.old.place (values «record».now) ≤ 8 * length writer.old.buffer.now }
    requires small { writer.old.place ≤ 8 * most }
    ensures { Wrote writer.old writer.new (fields writer.old.place (values «record».now)) }
{
    match *record {
        Record::Register { address, byte } => {
            writer.put(tag::BITS, Tag::Register as u32);
            writer.put(ADDRESS_BITS, u32::from(address));
            writer.put(BYTE_BITS, u32::from(byte));
        }
        Record::Window { offset, byte } => {
            writer.put(tag::BITS, Tag::Window as u32);
            writer.put(OFFSET_BITS, u32::from(offset));
            writer.put(BYTE_BITS, u32::from(byte));
        }
        Record::Wait { ticks } => {
            writer.put(tag::BITS, Tag::Wait as u32);
            writer.put(TICKS_BITS, u32::from(ticks));
        }
        Record::Block { offset, bytes } => {
            writer.put(tag::BITS, Tag::Block as u32);
            writer.put(OFFSET_BITS, u32::from(offset));
            writer.put(LENGTH_BITS, (bytes.len() - 1) as u32);
            writer.align();
            writer.bytes(bytes);
        }
    }
}
