// A reader of a log's records.
ghost use Rattle.std.specs.Prelude.{◌≡◌, ◌+◌, true};
ghost use Rattle.register_log.specs.Fields.{field};
ghost use Rattle.register_log.specs.Header.{records_start};
ghost use Rattle.register_log.specs.Record.{values, in_window};
ghost use Rattle.register_log.specs.Reading.{decode, answered, place_after, WhenFound, whole, tagged, end_at, register_at, window_at, wait_at, block_at};

use crate::bit_reader::BitReader;
use crate::fault::Fault;
use crate::header::RECORDS;
use crate::record::{
    ADDRESS_BITS, BYTE_BITS, LENGTH_BITS, OFFSET_BITS, Record, TICKS_BITS, TOP_ADDRESS, WINDOW,
};
use crate::tag::{self, Tag};

// A log, and a place in it in bits.
#[derive(Clone, Copy, PartialEq, Eq, Debug)]
pub struct Reader<'a> {
    pub log: &'a [u8],
    pub place: usize,
}

impl<'a> Reader<'a> {
    // At the first record.
    pub fn new(log: &'a [u8]) -> Reader<'a>
        ensures log { result.log.now ≡ log.now }
        ensures place { result.place ≡ records_start }
    {
        Reader {
            log,
            place: RECORDS,
        }
    }

    // The record at the reader's place, past which the reader moves, or none at the end. After a fault, as at the end,
    // the reader stays.
    pub fn next(&mut self) -> Result<Option<Record<'a>>, Fault>
        ensures found { answered result self.new.place ≡ decode self.old.log.now self.old.place }
        ensures place { self.new.place
            ≡ place_after self.old.place (decode self.old.log.now self.old.place) }
        ensures log { self.new.log.now ≡ self.old.log.now }
        ensures window { WhenFound (λ r. in_window (values r) ≡ true) result }
    {
        let mut bits = BitReader::new(self.log, self.place)?;
        let record = read(&mut bits)?;
        if record.is_some() {
            self.place = bits.place;
        }
        Ok(record)
    }
}

// A record, past which the bit reader moves, or none at the end.
type Found<'a> = Result<Option<Record<'a>>, Fault>;

fn read<'a>(bits: &mut BitReader<'a>) -> Found<'a>
    ensures { answered result bits.new.place
        ≡ whole bits.old.log.now (bits.old.place + 3)
        (tagged bits.old.log.now (bits.old.place + 3) (field bits.old.log.now bits.old.place 3)) }
{
    match Tag::try_from(bits.take(tag::BITS)?)? {
        Tag::End => read_end(bits),
        Tag::Register => read_register(bits),
        Tag::Window => read_window(bits),
        Tag::Wait => read_wait(bits),
        Tag::Block => read_block(bits),
    }
}

fn read_end<'a>(bits: &mut BitReader<'a>) -> Found<'a>
    ensures { answered result bits.new.place ≡ end_at bits.old.log.now bits.old.place }
{
    bits.align()?;
    if !bits.at_end() {
        return Err(Fault::Padding);
    }
    Ok(None)
}

// Numbers are cut to their type after `take`, which would need the width in its type to give a narrower one.
fn read_register<'a>(bits: &mut BitReader<'a>) -> Found<'a>
    ensures { answered result bits.new.place ≡ register_at bits.old.log.now bits.old.place }
{
    let address = bits.take(ADDRESS_BITS)? as u8;
    let byte = bits.take(BYTE_BITS)? as u8;
    if address > TOP_ADDRESS {
        return Err(Fault::Range);
    }
    Ok(Some(Record::Register { address, byte }))
}

fn read_window<'a>(bits: &mut BitReader<'a>) -> Found<'a>
    ensures { answered result bits.new.place ≡ window_at bits.old.log.now bits.old.place }
{
    let offset = bits.take(OFFSET_BITS)? as u16;
    let byte = bits.take(BYTE_BITS)? as u8;
    Ok(Some(Record::Window { offset, byte }))
}

fn read_wait<'a>(bits: &mut BitReader<'a>) -> Found<'a>
    ensures { answered result bits.new.place ≡ wait_at bits.old.log.now bits.old.place }
{
    let ticks = bits.take(TICKS_BITS)? as u16;
    if ticks == 0 {
        return Err(Fault::Range);
    }
    Ok(Some(Record::Wait { ticks }))
}

fn read_block<'a>(bits: &mut BitReader<'a>) -> Found<'a>
    ensures { answered result bits.new.place ≡ block_at bits.old.log.now bits.old.place }
{
    let offset = bits.take(OFFSET_BITS)? as u16;
    let count = bits.take(LENGTH_BITS)? as usize + 1;
    if usize::from(offset) + count > WINDOW {
        return Err(Fault::Range);
    }
    bits.align()?;
    let bytes = bits.bytes(count)?;
    Ok(Some(Record::Block { offset, bytes }))
}
