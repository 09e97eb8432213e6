// Why a chip refuses a call.
ghost use Rattle.std.specs.Prelude.{◌≡◌};
ghost use Rattle.chip.specs.Refusal.{number};
ghost use Rattle.chip.specs.declared.refusal.Refusal.TheVariants.{Memory};

use wave::memory::Refusal as MemoryRefusal;

#[derive(Clone, Copy, PartialEq, Eq, Debug)]
pub enum Refusal {
    // the memory under the chip has not 65,536 bytes
    MemorySize,
    // the host address is above 1FFFH
    BeyondPort,
    // there is nothing at the address for that direction
    NothingThere,
    // a window read while ON
    Sounding,
    // an inspection would end past the window
    PastWindow,
    // the memory refuses
    Memory(MemoryRefusal),
}

impl Refusal {
    // A case that holds another refusal has no number of its own, so these are no discriminants.
    pub fn number(self) -> u8
        ensures { result ≡ number self }
    {
        match self {
            Refusal::MemorySize => 1,
            Refusal::BeyondPort => 2,
            Refusal::NothingThere => 3,
            Refusal::Sounding => 4,
            Refusal::PastWindow => 13,
            Refusal::Memory(inner) => inner.number(),
        }
    }
}

impl From<MemoryRefusal> for Refusal {
    ghost from_gives = { λ e r. r ≡ Memory e };

    fn from(refusal: MemoryRefusal) -> Refusal {
        Refusal::Memory(refusal)
    }
}
