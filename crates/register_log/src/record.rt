// Records: what a log has after its header.
ghost use Rattle.std.specs.Prelude.{◌≡◌, ◌*◌, ◌≤◌, true};
ghost use Rattle.register_log.specs.Fields.{span};
ghost use Rattle.register_log.specs.Header.{most};
ghost use Rattle.register_log.specs.Record.{values, fits, fields, block};

use crate::tag;

// What was written to the chip, or that it ran for some ticks. An address stays the number that a log gives, and a block
// holds its bytes as a part of the log.
#[derive(Clone, Copy, PartialEq, Eq, Debug)]
pub enum Record<'a> {
    Register { address: u8, byte: u8 },
    Window { offset: u16, byte: u8 },
    Wait { ticks: u16 },
    Block { offset: u16, bytes: &'a [u8] },
}

// The highest address of a register. A chip has this number and the size of its window as well, but neither crate names
// the other.
pub(crate) const TOP_ADDRESS: u8 = 8;

// How many bits each field of a record has.
pub(crate) const ADDRESS_BITS: usize = 4;

pub(crate) const BYTE_BITS: usize = 8;

pub(crate) const OFFSET_BITS: usize = 12;

pub(crate) const LENGTH_BITS: usize = 12;

pub(crate) const TICKS_BITS: usize = 16;

// How many bytes the window has; offsets count from its start.
pub(crate) const WINDOW: usize = 4096;

impl Record<'_> {
    // Whether a log can hold the record.
    pub fn fits(&self) -> bool
        ensures { result ≡ fits (values self.now) }
    {
        // a pattern names each number, so that its range is known
        match *self {
            Record::Register { address, byte } => address <= TOP_ADDRESS,
            Record::Window { offset, byte } => usize::from(offset) < WINDOW,
            Record::Wait { ticks } => ticks != 0,
            Record::Block { offset, bytes } => block_fits(offset, bytes),
        }
    }

    // How many bits the record takes from a place on.
    pub(crate) fn width(&self, place: usize) -> usize
        requires fits { fits (values self.now) ≡ true }
        requires small { place ≤ 8 * most }
        ensures exact { result ≡ span (fields place (values self.now)) }
        ensures bound { result ≤ 32802 }
    {
        match *self {
            Record::Register { .. } => tag::BITS + ADDRESS_BITS + BYTE_BITS,
            Record::Window { .. } => tag::BITS + OFFSET_BITS + BYTE_BITS,
            Record::Wait { .. } => tag::BITS + TICKS_BITS,
            Record::Block { bytes, .. } => {
                let start = (place + tag::BITS + OFFSET_BITS + LENGTH_BITS).next_multiple_of(8);
                start - place + 8 * bytes.len()
            }
        }
    }
}

// Whether a block of these bytes lies within the window.
fn block_fits(offset: u16, bytes: &[u8]) -> bool
    ensures { result ≡ fits (block offset bytes.now) }
{
    (1..=WINDOW).contains(&bytes.len()) && usize::from(offset) + bytes.len() <= WINDOW
}
