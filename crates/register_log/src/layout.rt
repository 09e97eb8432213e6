// Layouts: logs that are measured and not written.
ghost use Rattle.std.specs.Prelude.{◌≡◌, ◌*◌, ◌≤◌, Ok, Err, MatchResult};
ghost use Rattle.outcome.specs.Outcome.{granted, kept};
ghost use Rattle.register_log.specs.Header.{most};
ghost use Rattle.register_log.specs.Record.{values};
ghost use Rattle.register_log.specs.Recording.{log_length, reached, header_placed, record_placed};

use crate::fault::Fault;
use crate::header::{Header, MOST, RECORDS};
use crate::record::Record;
use crate::refusal::Refusal;
use crate::tag;

// Where the records of a log would end. It is tested as a recording would be, and no byte is written.
#[derive(Clone, Copy, PartialEq, Eq, Debug)]
pub struct Layout {
    pub(crate) place: usize,
    ghost short: { place ≤ 8 * most },
}

impl Layout {
    // After a header, in a buffer of so many bytes.
    pub fn begin(header: Header, capacity: usize) -> Result<Layout, Refusal>
        ensures { MatchResult result
            (λ layout. header_placed capacity header ≡ Ok layout.place)
            (λ refusal. header_placed capacity header ≡ Err refusal) }
    {
        if !header.kind.clock_fits(header.clock) {
            return Err(Fault::Header.into());
        }
        Layout::until(RECORDS, capacity)
    }

    // After one more record.
    pub fn add(&mut self, record: &Record<'_>, capacity: usize) -> Result<(), Refusal>
        ensures answer { result ≡ granted (record_placed capacity self.old.place (values «record».now)) }
        ensures after { self.new.place
            ≡ kept self.old.place (record_placed capacity self.old.place (values «record».now)) }
    {
        if !record.fits() {
            return Err(Fault::Range.into());
        }
        *self = Layout::until(self.place + record.width(self.place), capacity)?;
        Ok(())
    }

    // Up to a place, if a log whose records end there fits the buffer, and is none too long.
    fn until(place: usize, capacity: usize) -> Result<Layout, Refusal>
        requires { place ≤ 16 * most }
        ensures { MatchResult result
            (λ layout. reached capacity place ≡ Ok layout.place)
            (λ refusal. reached capacity place ≡ Err refusal) }
    {
        let length = log_length(place);
        if length > capacity || length > MOST {
            return Err(Refusal::NoRoom);
        }
        Ok(Layout { place })
    }

    // How many bytes the log has.
    pub fn length(self) -> usize
        ensures { result ≡ log_length self.place }
    {
        log_length(self.place)
    }
}

// How many bytes a log has whose records end at a place.
fn log_length(place: usize) -> usize
    requires { place ≤ 16 * most }
    ensures { result ≡ log_length place }
{
    (place + tag::BITS).div_ceil(8)
}
