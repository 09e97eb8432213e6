// The two sound chips: their names, the bit that stands for each in a log, and the clocks that they bear.
#![tactic(auto)]

ghost use Rattle.std.specs.Prelude.{◌≡◌, Some};
ghost use Rattle.kind.specs.Clocks.{top_clock, clock_fits};
ghost use Rattle.kind.specs.Kinds.{name, bit_of, kind_of};

use std::fmt;

#[derive(Clone, Copy, PartialEq, Eq, Debug)]
pub enum Kind {
    Rf5c68a,
    Rf5c164,
}

impl Kind {
    // The highest clock, in Hz.
    pub fn top_clock(self) -> u32
        ensures { result ≡ top_clock self }
    {
        match self {
            Kind::Rf5c68a => 10_000_000,
            Kind::Rf5c164 => 12_520_000,
        }
    }

    pub fn clock_fits(self, clock: u32) -> bool
        ensures { result ≡ clock_fits self clock }
    {
        (1..=self.top_clock()).contains(&clock)
    }
}

impl fmt::Display for Kind {
    ghost output = { λ kind. Some (name kind) };

    ghost styled_output = { λ kind _. Some (name kind) };

    fn fmt<W: fmt::Write>(&self, f: &mut fmt::Formatter<W>) -> fmt::Result {
        f.write_str(match self {
            Kind::Rf5c68a => "RF5C68A",
            Kind::Rf5c164 => "RF5C164",
        })
    }
}

// The kind that a log's bit stands for.
impl From<bool> for Kind {
    ghost from_gives = { λ bit kind. kind ≡ kind_of bit };

    fn from(bit: bool) -> Kind {
        if bit { Kind::Rf5c164 } else { Kind::Rf5c68a }
    }
}

impl From<Kind> for bool {
    ghost from_gives = { λ kind bit. bit ≡ bit_of kind };

    fn from(kind: Kind) -> bool {
        kind == Kind::Rf5c164
    }
}
