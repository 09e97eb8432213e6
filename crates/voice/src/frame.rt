// The frame of a tick: what eight voices contribute to each side, their total, and its word.
ghost use Rattle.std.specs.Prelude.{◌≡◌};
ghost use Rattle.voice.specs.Frame.{side_contributions, sum, limited, height, word, side, frame_of, totals};
ghost use Rattle.voice.specs.Frame.{AllBounded, Ranged};

use crate::stereo::{SideName, Stereo};
use crate::voice::Contribution;

// The range of a limited total.
pub(crate) const LOWEST: i32 = -32_768;

pub(crate) const HIGHEST: i32 = 32_767;

// What turns a limited total into a word of so many bits.
#[derive(Clone, Copy, PartialEq, Eq, Debug)]
pub enum Converter {
    Bits16 = 16,
    Bits10 = 10,
    Bits8 = 8,
}

// One side of a frame.
#[derive(Clone, Copy, PartialEq, Eq, Debug, Default)]
pub struct Side {
    // what each voice contributed
    pub contributions: [i16; 8],
    // their exact sum
    pub total: i32,
    // the converter's word of the limited total
    pub word: u16,
}

pub type Frame = Stereo<Side>;

impl Stereo<Side> {
    // The frame of what eight voices contribute: each side's total is the sum of its array.
    pub fn new(contributions: &[Contribution; 8], converter: Converter) -> Frame
        ensures exact { result ≡ frame_of converter contributions.now }
        ensures ranged { AllBounded contributions.now → Ranged result }
    {
        Frame {
            left: new_side(side_contributions(contributions, SideName::Left), converter),
            right: new_side(
                side_contributions(contributions, SideName::Right),
                converter,
            ),
        }
    }

    // The total of each side, before the limiter.
    pub fn totals(&self) -> Stereo<i32>
        ensures { result ≡ totals self.now }
    {
        Stereo {
            left: self.left.total,
            right: self.right.total,
        }
    }
}

fn new_side(contributions: [i16; 8], converter: Converter) -> Side
    ensures { result ≡ side converter contributions }
{
    let total = sum(&contributions);
    Side {
        contributions,
        total,
        word: converter.word(limit(total)),
    }
}

// What eight voices contribute to a side.
pub fn side_contributions(contributions: &[Contribution; 8], name: SideName) -> [i16; 8]
    ensures { result ≡ side_contributions name contributions.now }
{
    contributions.map(|contribution| contribution.of_side(name))
}

// A loop and no `sum()`: that of signed numbers asks a bound which no chain shows, and the loop's invariant does.
fn sum(list: &[i16; 8]) -> i32
    ensures { result ≡ sum list.now }
{
    let mut total = 0;
    for contribution in list {
        total += i32::from(*contribution);
    }
    total
}

// The limiter, which a total passes once.
pub fn limit(total: i32) -> i16
    ensures { result ≡ limited total }
{
    total.clamp(LOWEST, HIGHEST) as i16
}

impl Converter {
    // The word of a limited total.
    pub fn word(self, level: i16) -> u16
        ensures { result ≡ word self level }
    {
        match self {
            Converter::Bits16 => level.cast_unsigned(),
            Converter::Bits10 => height(level) / 64,
            Converter::Bits8 => height(level) / 256,
        }
    }
}

// A level counted from the lowest.
fn height(level: i16) -> u16
    ensures { result ≡ height level }
{
    level.abs_diff(i16::MIN)
}

#[cfg(test)]
mod tests {
    use super::*;

    #[test]
    fn three_loud_voices(rt: HostRuntime) {
        let loud = Contribution {
            left: -15_180,
            right: 0,
        };
        let quiet = Contribution::default();
        let heard = [loud, loud, loud, quiet, quiet, quiet, quiet, quiet];
        let frame = Frame::new(&heard, Converter::Bits16);
        assert_eq!(rt; frame.left.total, -45_540);
        assert_eq!(rt; limit(frame.left.total), -32_768);
        assert_eq!(rt; frame.left.word, 0x8000);
        assert_eq!(rt; frame.right.total, 0);
    }

    #[test]
    fn words_of_silence(rt: HostRuntime) {
        assert_eq!(rt; Converter::Bits16.word(0), 0);
        assert_eq!(rt; Converter::Bits10.word(0), 512);
        assert_eq!(rt; Converter::Bits8.word(0), 128);
    }
}
