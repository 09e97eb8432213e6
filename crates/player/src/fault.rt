// Why a player stops before the end of its log.
ghost use Rattle.std.specs.Prelude.{◌≡◌};
ghost use Rattle.player.specs.Fault.{number, layer, bit, address};

use chip::refusal::Refusal;

#[derive(Clone, Copy, PartialEq, Eq, Debug)]
pub enum Fault {
    // the log is wrong at a bit
    Log {
        fault: register_log::fault::Fault,
        bit: usize,
    },
    // the chip refuses what the record at a bit asks: a write at a host address, or a tick, which has none
    Chip {
        refusal: Refusal,
        bit: usize,
        address: Option<u16>,
    },
}

impl Fault {
    pub fn number(self) -> u8
        ensures { result ≡ number self }
    {
        match self {
            Fault::Log { fault, .. } => fault.number(),
            Fault::Chip { refusal, .. } => refusal.number(),
        }
    }

    // The part of the package that refuses, by the word that is printed.
    pub fn layer(self) -> &'static str
        ensures { result.now ≡ layer self }
    {
        match self {
            Fault::Log { .. } => "log",
            Fault::Chip {
                refusal: Refusal::Memory(_),
                ..
            } => "memory",
            Fault::Chip { .. } => "chip",
        }
    }

    // The first bit of the record.
    pub fn bit(self) -> usize
        ensures { result ≡ bit self }
    {
        match self {
            Fault::Log { bit, .. } | Fault::Chip { bit, .. } => bit,
        }
    }

    // The host address, or 0 if there is none.
    pub fn address(self) -> u16
        ensures { result ≡ address self }
    {
        match self {
            Fault::Log { .. } => 0,
            Fault::Chip { address, .. } => address.unwrap_or(0),
        }
    }
}
