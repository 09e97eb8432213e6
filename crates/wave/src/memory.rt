// A source is a memory that can be read, a store one that can also be written.
// All other code knows a memory by these two traits alone.
ghost use Rattle.std.specs.Prelude.{◌≡◌, ℕ, ◌≤◌, Bool, List, length, slice_index};
ghost use Rattle.outcome.specs.Outcome.{granted};
ghost use Rattle.wave.specs.Memory.{number, most, fetch, store, written, meaning, Loan};

// The most places that a memory uses; bytes beyond them are never reached.
pub const MOST: usize = 131_072;

// Why a memory refuses a call, by its number.
#[derive(Clone, Copy, PartialEq, Eq, Debug)]
pub enum Refusal {
    // the place takes no writes
    ReadOnly = 5,
    // the place is at or past the size
    PastEnd = 6,
}

impl Refusal {
    pub fn number(self) -> u8
        ensures { result ≡ number self }
    {
        self as u8
    }
}

pub trait Source {
    // the bytes, as many as the size
    ghost bytes: { Self → List ℕ };

    fn size(&self) -> usize
        ensures exact { result ≡ length (bytes self.now) }
        ensures bound { result ≤ most };

    fn read(&self, place: usize) -> Result<u8, Refusal>
        ensures { result ≡ fetch (bytes self.now) place };
}

pub trait Store: Source {
    // the places that take writes; what it says of places at or past the size does not count
    ghost takes: { Self → ℕ → Bool };

    // the borrows that it holds: what a write leaves in them reaches their lenders, and what lies beyond its places stays
    ghost borrows: { Self → List Loan };

    fn write(&mut self, place: usize, byte: u8) -> Result<(), Refusal>
        ensures answer { result ≡ granted (store (meaning (Self.bytes self.old) (takes self.old)) place byte) }
        ensures after { meaning (Self.bytes self.new) (takes self.new)
            ≡ written (meaning (Self.bytes self.old) (takes self.old)) place byte }
        ensures same_borrows { borrows self.new ≡ borrows self.old };
}

// The byte at a place, 0 past the end.
pub fn byte_at<S: Source>(memory: &S, place: usize) -> u8
    ensures { result ≡ slice_index (S.bytes memory.now) place }
{
    memory.read(place).unwrap_or(0)
}
