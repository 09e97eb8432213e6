// The pitch calculator: which FD plays a cycle of words at a frequency.
#![tactic(auto)]

ghost use Rattle.std.specs.Prelude.{◌≡◌};
ghost use Rattle.pitch.specs.Pitch.{number, fd};

// Steps of a position for each clock of the chip: 2,048 steps are a place, and 384 clocks a tick.
const STEPS: u64 = 2_048 * 384;

const TOP_FREQUENCY: u32 = 2_000_000;

const TOP_CLOCK: u32 = 12_520_000;

const MOST_WORDS: u32 = 65_536;

// Why a tone has no FD, by its number.
#[derive(Clone, Copy, PartialEq, Eq, Debug)]
pub enum Refusal {
    // a frequency above 20,000 Hz, a clock or a count of words that is 0 or too large
    OutOfRange = 14,
    // an FD above 65,535
    TooHigh = 15,
}

impl Refusal {
    pub fn number(self) -> u8
        ensures { result ≡ number self }
    {
        self as u8
    }
}

// A tone that a voice is to play.
#[derive(Clone, Copy, PartialEq, Eq, Debug)]
pub struct Tone {
    // in hundredths of hertz
    pub frequency: u32,
    // of the chip, in hertz
    pub clock: u32,
    // how many words of the wave memory one cycle has
    pub words: u32,
}

impl Tone {
    // The FD that plays the tone, cut to a whole number.
    pub fn fd(self) -> Result<u16, Refusal>
        ensures { result ≡ fd self }
    {
        let Tone {
            frequency,
            clock,
            words,
        } = self;
        if frequency > TOP_FREQUENCY
            || !(1..=TOP_CLOCK).contains(&clock)
            || !(1..=MOST_WORDS).contains(&words)
        {
            return Err(Refusal::OutOfRange);
        }
        let steps = u64::from(frequency) * STEPS * u64::from(words);
        u16::try_from(steps / (100 * u64::from(clock))).map_err(|_| Refusal::TooHigh)
    }
}

#[cfg(test)]
mod tests {
    use super::*;

    // Frequency, clock and words, and the FD or the refusal.
    const TONES: [((u32, u32, u32), Result<u16, Refusal>); 22] = [
        ((44_000, 10_000_000, 256), Ok(8_858)),
        ((3_889, 10_000_000, 256), Ok(782)),
        ((0, 10_000_000, 256), Ok(0)),
        ((0, 1, 1), Ok(0)),
        ((1, 1, 1), Ok(7_864)),
        ((8, 1, 1), Ok(62_914)),
        ((9, 1, 1), Err(Refusal::TooHigh)),
        // a place a tick, and the last FD
        ((100, 384, 1), Ok(2_048)),
        ((3_199, 384, 1), Ok(65_515)),
        ((3_200, 384, 1), Err(Refusal::TooHigh)),
        ((65_535, 786_432, 100), Ok(65_535)),
        ((65_536, 786_432, 100), Err(Refusal::TooHigh)),
        // the ends of the ranges
        ((2_000_000, 12_520_000, 52), Ok(65_326)),
        ((2_000_000, 12_520_000, 53), Err(Refusal::TooHigh)),
        ((1, 12_520_000, 65_536), Ok(41)),
        ((2_000_000, 1, 65_536), Err(Refusal::TooHigh)),
        ((2_000_001, 12_520_000, 1), Err(Refusal::OutOfRange)),
        ((1, 12_520_001, 1), Err(Refusal::OutOfRange)),
        ((1, 0, 1), Err(Refusal::OutOfRange)),
        ((1, 1, 0), Err(Refusal::OutOfRange)),
        ((1, 1, 65_537), Err(Refusal::OutOfRange)),
        ((u32::MAX, u32::MAX, u32::MAX), Err(Refusal::OutOfRange)),
    ];

    #[test]
    fn tones(rt: HostRuntime) {
        for ((frequency, clock, words), fd) in TONES {
            let tone = Tone {
                frequency,
                clock,
                words,
            };
            assert_eq!(rt; tone.fd(), fd);
        }
    }

    #[test]
    fn numbers(rt: HostRuntime) {
        assert_eq!(rt; Refusal::OutOfRange.number(), 14);
        assert_eq!(rt; Refusal::TooHigh.number(), 15);
    }
}
