// Whole logs: recording a list of records, and copying a log. A refusal leaves the buffer as it was.
#![tactic(auto)]

ghost use Rattle.std.specs.Prelude.{◌≡◌, ℕ, List, length, None, Ok};
ghost use Rattle.register_log.specs.Contents.{contents};
ghost use Rattle.register_log.specs.Header.{header as header_of};
ghost use Rattle.register_log.specs.Recording.{state};
ghost use Rattle.whole_log.specs.Outcome.{outcome, recorded, finished, one_by_one, recording, copied};
ghost use Rattle.whole_log.specs.Law.{Recorded, Copied};

pub mod records;

use crate::records::Records;
use register_log::header::Header;
use register_log::layout::Layout;
use register_log::reader::Reader;
use register_log::recording::Recording;
use register_log::refusal::Refusal;

// Records a header and records into a buffer, and answers the log's length. It reads back as them.
pub fn record<R: Records>(header: Header, records: R, buffer: &mut [u8]) -> Result<usize, Refusal>
    ensures outcome { outcome result buffer.new ≡ recording buffer.old header (R.entries records) None }
    ensures law { Recorded buffer.old header (R.entries records) None (outcome result buffer.new) }
{
    measure(header, records, buffer.len())?;
    write(header, records, buffer)
}

// What the single calls of a recording would answer, in a buffer of so many bytes. None of them is made.
fn measure<R: Records>(header: Header, records: R, capacity: usize) -> Result<usize, Refusal>
    ensures { (buffer : List ℕ) → length buffer ≡ capacity →
        result ≡ (one_by_one buffer header (R.entries records) None).answer }
{
    let mut layout = Layout::begin(header, capacity)?;
    for index in 0..records.count() {
        if let Some(record) = records.at(index) {
            layout.add(&record, capacity)?;
        }
    }
    Ok(layout.length())
}

// Makes the single calls. `measure` has granted them, so that none is refused here.
fn write<R: Records>(header: Header, records: R, buffer: &mut [u8]) -> Result<usize, Refusal>
    ensures { outcome result buffer.new ≡ one_by_one buffer.old header (R.entries records) None }
{
    let mut recording = Recording::begin(header, buffer)?;
    match add_all(&mut recording, records, buffer) {
        Ok(()) => Ok(recording.close()),
        Err(refusal) => {
            recording.abandon();
            Err(refusal)
        }
    }
}

fn add_all<R: Records>(
    recording: &mut Recording,
    records: R,
    buffer: &mut [u8],
) -> Result<(), Refusal>
    ensures { recorded (R.entries records) None (state «recording».old.layout.place buffer.old)
        ≡ finished result (state «recording».new.layout.place buffer.new) }
{
    // a loop: of what a closure borrows and changes a proof would know nothing
    for index in 0..records.count() {
        if let Some(record) = records.at(index) {
            recording.add(&record, buffer)?;
        }
    }
    Ok(())
}

// Takes a log's bytes over, and answers as if the log were recorded again. An accepted log comes out byte by byte.
pub fn copy(log: &[u8], buffer: &mut [u8]) -> Result<usize, Refusal>
    ensures outcome { outcome result buffer.new ≡ copied log.now buffer.old }
    ensures law { Copied log.now buffer.old (outcome result buffer.new) }
{
    let header = Header::read(log)?;
    let length = measure_log(header, log, buffer.len())?;
    buffer[..length].copy_from_slice(log);
    Ok(length)
}

// What the single calls of a recording of the log would answer, in a buffer of so many bytes.
fn measure_log(header: Header, log: &[u8], capacity: usize) -> Result<usize, Refusal>
    requires { header_of log.now ≡ Ok header }
    ensures { (buffer : List ℕ) → length buffer ≡ capacity →
        result ≡ (one_by_one buffer header (contents log.now).entries (contents log.now).fault).answer }
{
    let mut layout = Layout::begin(header, capacity)?;
    let mut reader = Reader::new(log);
    while let Some(record) = reader.next()? {
        layout.add(&record, capacity)?;
    }
    Ok(layout.length())
}
