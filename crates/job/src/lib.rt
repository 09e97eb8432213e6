// What `stem` is asked to do: a mute set, and a log to play.
#![tactic(auto)]

ghost use Rattle.std.specs.Prelude.{◌≡◌, Some};
ghost use Rattle.register_log.specs.Header.{header};
ghost use Rattle.job.specs.Job.{number, layer, text, work, values, kind};
ghost use Rattle.job.specs.declared.Refusal.TheVariants.{Log};

use kind::Kind;
use register_log::fault::Fault;
use register_log::header::Header;
use std::fmt;

// The most bytes of a log that `stem` plays.
pub const MOST: usize = 32_768;

// Why `stem` plays nothing.
#[derive(Clone, Copy, PartialEq, Eq, Debug)]
pub enum Refusal {
    Log(Fault),
    // a longer log than `stem` plays
    TooLong,
}

impl Refusal {
    // A case that holds a fault has no number of its own, so these are no discriminants. A recording refuses by two such
    // cases as well, but its second is another cause and has another layer.
    pub fn number(self) -> u8
        ensures { result ≡ number self }
    {
        match self {
            Refusal::Log(fault) => fault.number(),
            Refusal::TooLong => 13,
        }
    }

    // The part of the package that refuses, by the word that is printed.
    pub fn layer(self) -> &'static str
        ensures { result.now ≡ layer self }
    {
        match self {
            Refusal::Log(_) => "log",
            Refusal::TooLong => "program",
        }
    }
}

impl From<Fault> for Refusal {
    ghost from_gives = { λ fault refusal. refusal ≡ Log fault };

    fn from(fault: Fault) -> Refusal {
        Refusal::Log(fault)
    }
}

// The bit and the address of a refusal are 0: nothing has been played.
impl fmt::Display for Refusal {
    ghost output = { λ refusal. Some (text refusal) };

    fn fmt<W: fmt::Write>(&self, f: &mut fmt::Formatter<W>) -> fmt::Result {
        let number = self.number();
        let layer = self.layer();
        write!(f, "fault {number} {layer} 0 0")
    }
}

#[derive(Clone, Copy, PartialEq, Eq, Debug)]
pub struct Job<'a> {
    pub mutes: u8,
    pub log: &'a [u8],
}

impl<'a> Job<'a> {
    // The input: a byte for the mute set, then the log.
    pub fn read(input: &'a [u8]) -> Result<Job<'a>, Refusal>
        ensures { values result ≡ work input.now }
    {
        let (mutes, log) = input.split_first().ok_or(Fault::Length)?;
        if log.len() > MOST {
            return Err(Refusal::TooLong);
        }
        Ok(Job { mutes: *mutes, log })
    }

    // The kind of the chip that plays the log: its header's, or an RF5C68A where the header is refused.
    pub fn kind(self) -> Kind
        ensures { result ≡ kind (header self.entry.log.now) }
    {
        Header::read(self.log).map_or(Kind::Rf5c68a, |header| header.kind)
    }
}
