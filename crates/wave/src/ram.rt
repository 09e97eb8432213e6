// RAM over lent bytes: every place takes writes.
ghost use Rattle.std.specs.Prelude.{◌≡◌, true, [], ◌∷◌};
ghost use Rattle.outcome.specs.Outcome.{granted};
ghost use Rattle.wave.specs.Memory.{store, written};
ghost use Rattle.wave.specs.Lent.{ram, loan};

use crate::lent::Lent;
use crate::memory::{Refusal, Source, Store};

pub type Ram<'a> = Lent<&'a mut [u8]>;

impl<'a> Lent<&'a mut [u8]> {
    pub fn new(lent: &'a mut [u8]) -> Ram<'a>
        ensures { (result.lent.now ≡ lent.old) × (result.lent.ghost_name ≡ lent.entry.ghost_name) }
    {
        Lent { lent }
    }

    // The lent bytes again.
    pub fn into_lent(self) -> &'a mut [u8]
        ensures { (result.now ≡ self.entry.lent.now) × (result.ghost_name ≡ self.entry.lent.ghost_name) }
    {
        self.lent
    }
}

impl Store for Lent<&mut [u8]> {
    ghost takes = { λ _ _. true };

    ghost borrows = { λ s. loan s.lent ∷ [] };

    #[tactic(auto, using(crate::proofs::Limits::used_length, crate::proofs::Limits::ram_written, crate::proofs::Limits::beyond_set, crate::proofs::Writes::store_past))]
    fn write(&mut self, place: usize, byte: u8) -> Result<(), Refusal>
        ensures answer { result ≡ granted (store (ram self.old.lent.now) place byte) }
        ensures after { ram self.new.lent.now ≡ written (ram self.old.lent.now) place byte }
        ensures same_borrows { loan self.new.lent ∷ [] ≡ loan self.old.lent ∷ [] }
    {
        if place < self.size() {
            self.lent[place] = byte;
            Ok(())
        } else {
            Err(Refusal::PastEnd)
        }
    }
}
