// A memory over lent bytes, of which it uses the first `MOST`.
ghost use Rattle.std.specs.Prelude.{◌≡◌};
ghost use Rattle.wave.specs.Lent.{used};

use crate::memory::{MOST, Refusal, Source};
use std::convert::AsSlice;

// What RAM and mask ROM have in common; `B` is how the bytes are lent.
#[derive(Drop)]
pub struct Lent<B> {
    pub(crate) lent: B,
}

impl<B: AsSlice<u8>> Source for Lent<B> {
    ghost bytes = { λ s. used (B.items s.lent) };

    #[tactic(auto, using(crate::specs::Lent::used_within))]
    fn size(&self) -> usize {
        used(self.lent.as_slice()).len()
    }

    fn read(&self, place: usize) -> Result<u8, Refusal> {
        used(self.lent.as_slice())
            .get(place)
            .copied()
            .ok_or(Refusal::PastEnd)
    }
}

fn used(lent: &[u8]) -> &[u8]
    ensures { result.now ≡ used lent.now }
{
    &lent[..MOST.min(lent.len())]
}
