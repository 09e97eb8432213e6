// Mask ROM over bytes held for reading: no place takes writes.
ghost use Rattle.std.specs.Prelude.{◌≡◌, false, []};
ghost use Rattle.outcome.specs.Outcome.{granted};
ghost use Rattle.wave.specs.Memory.{store, written};
ghost use Rattle.wave.specs.Lent.{rom};

use crate::lent::Lent;
use crate::memory::{Refusal, Source, Store};

pub type Rom<'a> = Lent<&'a [u8]>;

impl<'a> Lent<&'a [u8]> {
    pub fn new(lent: &'a [u8]) -> Rom<'a>
        ensures { result.lent.now ≡ lent.now }
    {
        Lent { lent }
    }
}

impl Store for Lent<&[u8]> {
    ghost takes = { λ _ _. false };

    ghost borrows = { λ _. [] };

    #[tactic(auto, using(crate::proofs::Limits::rom_refused, crate::proofs::Writes::store_past))]
    fn write(&mut self, place: usize, byte: u8) -> Result<(), Refusal>
        ensures answer { result ≡ granted (store (rom self.old.lent.now) place byte) }
        ensures after { rom self.new.lent.now ≡ written (rom self.old.lent.now) place byte }
        ensures same { self.new ≡ self.old }
    {
        if place < self.size() {
            Err(Refusal::ReadOnly)
        } else {
            Err(Refusal::PastEnd)
        }
    }
}
