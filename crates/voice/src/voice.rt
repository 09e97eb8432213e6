// A voice: its seven register bytes, where it reads in a memory, and what it contributes to the two sides.
ghost use Rattle.std.specs.Prelude.{◌≡◌, ◌<◌, ◌≤◌};
ghost use Rattle.voice.specs.Voice.{positions, step, start, loop_start, position, onward, place, look, landing};
ghost use Rattle.voice.specs.Voice.{product, size, level, heard, loudest, Within, Bounded, fresh, latest, tick};

use crate::stereo::Stereo;
use wave::memory::{Source, byte_at};
use wave::search::STOP;

// How many positions there are: they have 27 bits.
const POSITIONS: u32 = 134_217_728;

// How many of them one place of the memory has: 11 bits are fraction.
const SPAN: u32 = 2_048;

// How many of them lie from one start to the next.
const START_SPAN: u32 = 524_288;

// The seven register bytes of a voice.
#[derive(Clone, Copy, PartialEq, Eq, Debug, Default)]
pub struct Settings {
    // the envelope
    pub env: u8,
    // the share of each side: the low half is the left one's, the high half the right one's
    pub pan: u8,
    // FD, by which a position advances in a tick
    pub fdl: u8,
    pub fdh: u8,
    // the place where a voice goes on after a stop byte
    pub lsl: u8,
    pub lsh: u8,
    // where a voice at rest starts
    pub st: u8,
}

// What a voice contributes to each side. A voice may be made with any contribution, so its range is a promise of the tick
// and no fact of the type.
pub type Contribution = Stereo<i16>;

#[derive(Clone, Copy, PartialEq, Eq, Debug, Default)]
pub struct Voice {
    pub settings: Settings,
    // its position, or none at rest
    pub phase: Option<u32>,
    // what it contributed in the last tick
    pub latest: Contribution,
}

impl Voice {
    // All bytes 0, at rest, and no contribution yet.
    pub fn new() -> Voice
        ensures { result ≡ fresh }
    {
        Voice::default()
    }

    // Where this voice stands.
    pub fn position(&self) -> u32
        ensures exact { result ≡ position self.now.settings self.now.phase }
        ensures bound { result < positions }
    {
        match self.phase {
            None => self.settings.start(),
            Some(p) => p % POSITIONS,
        }
    }

    // The place of the memory where it stands.
    pub fn place(&self) -> u16
        ensures { result ≡ place (position self.now.settings self.now.phase) }
    {
        (self.position() / SPAN) as u16
    }

    // One tick: a voice that is on sounds, any other is put at rest.
    #[tactic(auto, using(crate::proofs::Sounds::ticked_from))]
    pub fn tick<S: Source>(&mut self, memory: &S, on: bool)
        ensures exact { self.new ≡ tick (S.bytes memory.now) on self.old }
        ensures bounded { Bounded self.new.latest }
    {
        if on {
            let (p, byte) = self.settings.land(memory, self.settings.onward(self.phase));
            self.phase = Some(p);
            self.latest = self.settings.heard(byte);
        } else {
            self.phase = None;
            self.latest = Contribution::default();
        }
    }
}

// What each voice contributed in its last tick.
pub fn latest(voices: &[Voice; 8]) -> [Contribution; 8]
    ensures { result ≡ latest voices.now }
{
    voices.map(|voice| voice.latest)
}

impl Settings {
    fn step(self) -> u16
        ensures { result ≡ step self }
    {
        u16::from_be_bytes([self.fdh, self.fdl])
    }

    fn start(self) -> u32
        ensures exact { result ≡ start self }
        ensures bound { result < positions }
    {
        u32::from(self.st) * START_SPAN
    }

    fn loop_start(self) -> u32
        ensures { result ≡ loop_start self }
    {
        u32::from(u16::from_be_bytes([self.lsh, self.lsl])) * SPAN
    }

    // Where a tick reads first.
    fn onward(self, phase: Option<u32>) -> u32
        ensures { result ≡ onward self phase }
    {
        match phase {
            None => self.start(),
            Some(p) => (p % POSITIONS + u32::from(self.step())) % POSITIONS,
        }
    }

    // Where a tick that reads first at `p` ends, and the byte there: each is read once.
    fn land<S: Source>(self, memory: &S, p: u32) -> (u32, u8)
        ensures place { result.0 ≡ landing (S.bytes memory.now) self p }
        ensures byte { result.1 ≡ look (S.bytes memory.now) (landing (S.bytes memory.now) self p) }
    {
        let byte = look(memory, p);
        if byte == STOP {
            let again = self.loop_start();
            (again, look(memory, again))
        } else {
            (p, byte)
        }
    }

    fn heard(self, byte: u8) -> Contribution
        ensures exact { result ≡ heard self byte }
        ensures bounded { Bounded result }
    {
        Contribution {
            left: level(byte, self.env, self.pan % 16),
            right: level(byte, self.env, self.pan / 16),
        }
    }
}

// The byte at a position, 0 past the memory's end.
fn look<S: Source>(memory: &S, p: u32) -> u8
    ensures { result ≡ look (S.bytes memory.now) p }
{
    byte_at(memory, (p / SPAN) as usize)
}

// What a byte gives to a side, in the range that a tick promises. The size is cut to a whole number before it gets its sign.
fn level(byte: u8, env: u8, share: u8) -> i16
    requires { share < 16 }
    ensures exact { result ≡ level byte env share }
    ensures within { Within result }
{
    let size = (product(byte, env, share) / 32) as i32;
    let level = if byte < 128 { -size } else { size };
    level as i16
}

#[tactic(auto, using(crate::proofs::Levels::size_most))]
fn product(byte: u8, env: u8, share: u8) -> u32
    requires { share < 16 }
    ensures exact { result ≡ product byte env share }
    ensures bound { size byte env share ≤ loudest }
{
    u32::from(byte) % 128 * u32::from(env) * u32::from(share)
}

#[cfg(test)]
mod tests {
    use super::*;
    use std::process::Abort;
    use wave::rom::Rom;

    fn check_first(rt: &impl Abort, byte: u8, env: u8, pan: u8, left: i16, right: i16) {
        let mut voice = Voice::new();
        voice.settings.env = env;
        voice.settings.pan = pan;
        voice.tick(&Rom::new(&[byte]), true);
        assert_eq!(rt; voice.latest, Contribution { left, right });
    }

    #[test]
    fn first_contributions(rt: HostRuntime) {
        check_first(&rt, 0xFE, 255, 0xFF, 15_060, 15_060);
        check_first(&rt, 0x7F, 255, 0xFF, -15_180, -15_180);
        check_first(&rt, 0x80, 255, 0xFF, 0, 0);
        check_first(&rt, 0x00, 255, 0xFF, 0, 0);
        check_first(&rt, 0xC0, 128, 0x12, 512, 256);
    }

    #[test]
    fn positions_go_round(rt: HostRuntime) {
        let mut voice = Voice::new();
        voice.settings.fdl = 1;
        voice.phase = Some(134_217_727);
        voice.tick(&Rom::new(&[0]), true);
        assert_eq!(rt; voice.position(), 0);
    }

    #[test]
    fn position_at_rest(rt: HostRuntime) {
        let mut voice = Voice::new();
        voice.settings.st = 0x12;
        assert_eq!(rt; voice.position(), 9_437_184);
    }
}
