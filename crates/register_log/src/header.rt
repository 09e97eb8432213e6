// The header: the first four bytes of a log.
ghost use Rattle.std.specs.Prelude.{◌≡◌};
ghost use Rattle.register_log.specs.Header.{header};

use crate::fault::Fault;
use kind::Kind;

// How many bytes the header has, and how many a log may have at most.
pub const LENGTH: usize = 4;

pub const MOST: usize = 16_777_216;

// The place of the first record, in bits.
pub const RECORDS: usize = 32;

#[derive(Clone, Copy, PartialEq, Eq, Debug)]
pub struct Header {
    pub kind: Kind,
    pub clock: u32,
}

impl Header {
    pub fn read(log: &[u8]) -> Result<Header, Fault>
        ensures { result ≡ header log.now }
    {
        let [first, high, middle, low, records @ ..] = log else {
            return Err(Fault::Length);
        };
        if records.len() > MOST - LENGTH {
            return Err(Fault::Length);
        }
        let version = first >> 4;
        let kind = Kind::from(first >> 3 & 1 == 1);
        let spare = first & 7;
        let clock = u32::from_be_bytes([0, *high, *middle, *low]);
        if version == 1 && spare == 0 && kind.clock_fits(clock) {
            Ok(Header { kind, clock })
        } else {
            Err(Fault::Header)
        }
    }
}
