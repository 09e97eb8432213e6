// The pitch calculator over numbers.
ghost use Rattle.std.specs.Prelude.{◌≡◌};
ghost use Rattle.pitch.specs.Pitch.{fd};
ghost use Rattle.exported.specs.Tones.{fd_answer};

use crate::numbers::NO_REFUSAL;
use pitch::Tone;

// The FD of a tone, or why it has none.
#[repr(C)]
#[derive(Clone, Copy, PartialEq, Eq, Debug)]
pub struct FdAnswer {
    // 0, or the refusal's number
    pub refusal: u8,
    pub fd: u16,
}

// The FD that plays a frequency, in hundredths of hertz, on a chip with a clock, over a cycle of so many words.
pub fn fd(frequency: u32, clock: u32, words: u32) -> FdAnswer
    ensures { result ≡ fd_answer (fd (record { frequency = frequency; clock = clock; words = words })) }
{
    let tone = Tone {
        frequency,
        clock,
        words,
    };
    match tone.fd() {
        Ok(fd) => FdAnswer {
            refusal: NO_REFUSAL,
            fd,
        },
        Err(refusal) => FdAnswer {
            refusal: refusal.number(),
            fd: 0,
        },
    }
}
