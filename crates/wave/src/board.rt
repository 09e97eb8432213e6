// A board: two memories in a row, the first one's places first.
ghost use Rattle.std.specs.Prelude.{◌≡◌};
ghost use Rattle.outcome.specs.Outcome.{granted};
ghost use Rattle.wave.specs.Memory.{store, written};
ghost use Rattle.wave.specs.Means.{means};
ghost use Rattle.wave.specs.Board.{joined, cut_off, loans, either, board, second_written};

use crate::memory::{MOST, Refusal, Source, Store};

#[derive(Drop)]
pub struct Board<A, B> {
    pub first: A,
    pub second: B,
}

impl<A: Source, B: Source> Source for Board<A, B> {
    ghost bytes = { λ s. joined (A.bytes s.first) (B.bytes s.second) };

    #[tactic(auto, using(crate::proofs::Joins::joined_length))]
    fn size(&self) -> usize {
        (self.first.size() + self.second.size()).min(MOST)
    }

    #[tactic(auto, using(crate::proofs::Joins::joined_first, crate::proofs::Joins::joined_second, crate::proofs::Joins::joined_past))]
    fn read(&self, place: usize) -> Result<u8, Refusal> {
        // the same choice of a part as in `write`: a function for it would need a type for its answer, and a match here
        let size = self.first.size();
        if place < size {
            self.first.read(place)
        } else if place < MOST {
            self.second.read(place - size)
        } else {
            Err(Refusal::PastEnd)
        }
    }
}

impl<A: Store, B: Store> Store for Board<A, B> {
    ghost takes = { λ s. either (means A.bytes A.takes s.first) (means B.bytes B.takes s.second) };

    ghost borrows = { λ s. loans (A.bytes s.first) (A.borrows s.first) (B.bytes s.second) (B.borrows s.second) };

    fn write(&mut self, place: usize, byte: u8) -> Result<(), Refusal>
        ensures answer { result ≡ granted (store (board (means A.bytes A.takes self.old.first) (means B.bytes B.takes self.old.second)) place byte) }
        ensures after { board (means A.bytes A.takes self.new.first) (means B.bytes B.takes self.new.second)
            ≡ written
            (board (means A.bytes A.takes self.old.first) (means B.bytes B.takes self.old.second))
            place byte }
        ensures first { means A.bytes A.takes self.new.first
            ≡ written (means A.bytes A.takes self.old.first) place byte }
        ensures second { means B.bytes B.takes self.new.second
            ≡ second_written
            (means A.bytes A.takes self.old.first)
            (means B.bytes B.takes self.old.second)
            place byte }
        ensures cut_off { cut_off (A.bytes self.new.first) (B.bytes self.new.second)
            ≡ cut_off (A.bytes self.old.first) (B.bytes self.old.second) }
        ensures first_borrows { A.borrows self.new.first ≡ A.borrows self.old.first }
        ensures second_borrows { B.borrows self.new.second ≡ B.borrows self.old.second }
    {
        let size = self.first.size();
        if place < size {
            self.first.write(place, byte)
        } else if place < MOST {
            self.second.write(place - size, byte)
        } else {
            Err(Refusal::PastEnd)
        }
    }
}
