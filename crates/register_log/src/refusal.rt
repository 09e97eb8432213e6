// Why a log cannot be recorded.
ghost use Rattle.std.specs.Prelude.{◌≡◌};
ghost use Rattle.register_log.specs.Recording.{number};
ghost use Rattle.register_log.specs.declared.refusal.Refusal.TheVariants.{Log};

use crate::fault::Fault;

#[derive(Clone, Copy, PartialEq, Eq, Debug)]
pub enum Refusal {
    // what is to be recorded would be, or is, no log
    Log(Fault),
    // the buffer is too short, or the log would be too long
    NoRoom,
}

impl From<Fault> for Refusal {
    ghost from_gives = { λ fault refusal. refusal ≡ Log fault };

    fn from(fault: Fault) -> Refusal {
        Refusal::Log(fault)
    }
}

impl Refusal {
    // A case that holds a fault has no number of its own, so these are no discriminants.
    pub fn number(self) -> u8
        ensures { result ≡ number self }
    {
        match self {
            Refusal::Log(fault) => fault.number(),
            Refusal::NoRoom => 13,
        }
    }
}
