// A log: recorded, copied and read back.
use crate::tune::{HEADER, records};
use register_log::header::Header;
use register_log::reader::Reader;
use register_log::record::Record;
use std::io;

fn say_record(rt: &HostRuntime, record: Record<'_>) -> io::Result<()> {
    match record {
        Record::Register { address, byte } => println!(rt; "read register {address} gets {byte}"),
        Record::Window { offset, byte } => println!(rt; "read window byte {offset} gets {byte}"),
        Record::Wait { ticks } => println!(rt; "read a wait of {ticks} ticks"),
        Record::Block { offset, bytes } => {
            println!(rt; "read a block from window byte {offset}: {bytes:?}")
        }
    }
}

// The header of a log, its records, and where it ends.
pub fn show_contents(rt: &HostRuntime, log: &[u8]) -> io::Result<()> {
    match Header::read(log) {
        Ok(Header { kind, clock }) => println!(rt; "read the header: {kind} at {clock} Hz")?,
        Err(fault) => println!(rt; "read a wrong header: {}", fault.number())?,
    }
    let mut reader = Reader::new(log);
    for _ in 0..=records().len() {
        match reader.next() {
            Ok(Some(record)) => say_record(rt, record)?,
            Ok(None) => println!(rt; "read the end at bit {}", reader.place)?,
            Err(fault) => println!(rt; "read fault {} at bit {}", fault.number(), reader.place)?,
        }
    }
    Ok(())
}

// Whether a copy of the log has the same bytes.
fn copies_alike(log: &[u8]) -> bool {
    let mut copy = [0; 128];
    match whole_log::copy(log, &mut copy) {
        Ok(length) => copy.get(..length) == Some(log),
        Err(_) => false,
    }
}

// The tune's log, a part of the buffer.
pub fn record_tune<'b>(rt: &HostRuntime, buffer: &'b mut [u8]) -> io::Result<&'b [u8]> {
    let records = records();
    match whole_log::record(HEADER, records.as_slice(), buffer) {
        Ok(length) => {
            let log = buffer.get(..length).unwrap_or(&[]);
            println!(rt;
                "recorded {} records in {length} bytes: {log:?}",
                records.len()
            )?;
            if copies_alike(log) {
                println!(rt; "copied the log byte by byte")?;
            } else {
                println!(rt; "copied the log otherwise")?;
            }
            Ok(log)
        }
        Err(refusal) => {
            println!(rt; "was refused a recording: {}", refusal.number())?;
            Ok(&[])
        }
    }
}
