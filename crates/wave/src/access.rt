// Lists of reads and writes. Memories of one meaning cannot be told apart by them, whatever their makes.
ghost use Rattle.std.specs.Prelude.{◌≡◌, ◌↔◌, true, IsTrue};
ghost use Rattle.wave.specs.Memory.{Alike};
ghost use Rattle.wave.specs.Means.{means};
ghost use Rattle.wave.specs.Access.{answer, after, Compared};

use crate::memory::{Refusal, Source, Store};

// What is asked of a memory.
#[derive(Clone, Copy, PartialEq, Eq, Debug)]
pub enum Access {
    Read(usize),
    Write(usize, u8),
}

// What a memory answers: the byte of a read, nothing more for a write, or its refusal.
pub type Answer = Result<Option<u8>, Refusal>;

pub fn perform<M: Store>(memory: &mut M, access: Access) -> Answer
    ensures answer { result ≡ answer (means M.bytes M.takes memory.old) access }
    ensures after { means M.bytes M.takes memory.new ≡ after (means M.bytes M.takes memory.old) access }
    ensures same_borrows { M.borrows memory.new ≡ M.borrows memory.old }
{
    match access {
        Access::Read(place) => memory.read(place).map(Some),
        Access::Write(place, byte) => memory.write(place, byte).map(|()| None),
    }
}

// Performs the same accesses on two memories, and says whether all the answers were the same.
pub fn answer_alike<M: Store, N: Store>(first: &mut M, second: &mut N, accesses: &[Access]) -> bool
    ensures compared { Compared (means M.bytes M.takes first.old) (means N.bytes N.takes second.old) accesses.now
        result (means M.bytes M.takes first.new) (means N.bytes N.takes second.new) }
    ensures law { Alike (means M.bytes M.takes first.old) (means N.bytes N.takes second.old)
        → (result ≡ true) × (means M.bytes M.takes first.new ≡ means N.bytes N.takes second.new) }
    ensures first_borrows { M.borrows first.new ≡ M.borrows first.old }
    ensures second_borrows { N.borrows second.new ≡ N.borrows second.old }
{
    // a loop: of what a closure borrows and changes a proof would know nothing
    let mut alike = true;
    for access in accesses {
        alike &= perform_both(first, second, *access);
    }
    alike
}

fn perform_both<M: Store, N: Store>(first: &mut M, second: &mut N, access: Access) -> bool
    ensures answers { IsTrue result
        ↔ (answer (means M.bytes M.takes first.old) access
        ≡ answer (means N.bytes N.takes second.old) access) }
    ensures first { means M.bytes M.takes first.new ≡ after (means M.bytes M.takes first.old) access }
    ensures second { means N.bytes N.takes second.new ≡ after (means N.bytes N.takes second.old) access }
    ensures first_borrows { M.borrows first.new ≡ M.borrows first.old }
    ensures second_borrows { N.borrows second.new ≡ N.borrows second.old }
{
    perform(first, access) == perform(second, access)
}
