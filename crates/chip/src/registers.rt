// All that a chip holds beside its memory.
ghost use Rattle.std.specs.Prelude.{◌≡◌, ◌<◌, slice_index_or};
ghost use Rattle.voice.specs.Voice.{fresh, Bounded};
ghost use Rattle.voice.specs.Frame.{AllBounded, VoicesBounded};
ghost use Rattle.chip.specs.Registers.{made, with_byte, edited, chosen, registered, position_byte, sounds, voice_ticked, ticked, latest};

use crate::control::{Control, bit};
use kind::Kind;
use voice::frame::Converter;
use voice::voice::{Contribution, Settings, Voice, latest};
use wave::memory::Source;

// How a chip is made.
#[derive(Clone, Copy, PartialEq, Eq, Debug)]
pub struct Setup {
    pub kind: Kind,
    pub converter: Converter,
    // the voices that never sound: bit 0 is voice 1
    pub mutes: u8,
}

#[derive(Clone, Copy, PartialEq, Eq, Debug)]
pub struct Registers {
    pub setup: Setup,
    pub control: Control,
    // the channel register: a clear bit switches its voice on
    pub channel: u8,
    pub voices: [Voice; 8],
}

impl Registers {
    pub fn new(setup: Setup) -> Registers
        ensures { result ≡ made setup }
    {
        Registers {
            setup,
            control: Control::default(),
            channel: 0xFF,
            voices: [Voice::new(); 8],
        }
    }

    // Takes a byte for one of the addresses 0 to 8. An address stays the number that a host and a log give: a type of the
    // nine registers alone would ask more of callers.
    pub fn write(&mut self, address: u16, byte: u8)
        ensures { self.new ≡ registered self.old address byte }
    {
        match address {
            0..=6 => write_voice(&mut self.voices, self.control.selected, address, byte),
            7 => self.control.set(byte),
            8 => self.channel = byte | self.setup.mutes,
            _ => {}
        }
    }

    // A byte of the position registers: two to a voice, the low one first; past the last voice, those of a new one.
    pub fn position_byte(&self, index: u16) -> u8
        ensures { result ≡ position_byte self.now.voices index }
    {
        let voice = self.voices.get(usize::from(index / 2)).copied();
        let [low, high] = voice.unwrap_or_default().place().to_le_bytes();
        if index % 2 == 0 { low } else { high }
    }

    // One tick over a memory. Answers what each voice contributes. Each has a line of its own: from a loop the contributions
    // would go through memory, and their sums would have to wait for that.
    pub fn tick<S: Source>(&mut self, memory: &S) -> [Contribution; 8]
        ensures exact { self.new ≡ ticked (S.bytes memory.now) self.old }
        ensures told { result ≡ latest self.new }
        ensures bounded { AllBounded result }
        ensures voices { VoicesBounded self.new.voices }
    {
        [
            self.tick_voice(memory, 0),
            self.tick_voice(memory, 1),
            self.tick_voice(memory, 2),
            self.tick_voice(memory, 3),
            self.tick_voice(memory, 4),
            self.tick_voice(memory, 5),
            self.tick_voice(memory, 6),
            self.tick_voice(memory, 7),
        ]
    }

    // One tick of voice `k`, from 0. Answers what it contributes.
    #[tactic(auto, using(crate::proofs::Each::one_set))]
    fn tick_voice<S: Source>(&mut self, memory: &S, k: usize) -> Contribution
        requires { k < 8 }
        ensures exact { self.new ≡ voice_ticked (S.bytes memory.now) k self.old }
        ensures told { result ≡ (slice_index_or self.new.voices k fresh).latest }
        ensures bounded { Bounded result }
    {
        let on = sounds(self.control.on, self.channel, k);
        self.voices[k].tick(memory, on);
        self.voices[k].latest
    }

    // What each voice contributed in the last tick.
    pub fn latest(&self) -> [Contribution; 8]
        ensures { result ≡ latest self.now }
    {
        latest(&self.voices)
    }
}

#[tactic(auto, using(crate::proofs::Each::one_set, crate::proofs::Each::one_past))]
fn write_voice(voices: &mut [Voice; 8], selected: u8, address: u16, byte: u8)
    ensures { voices.new ≡ chosen selected (edited address byte) voices.old }
{
    // an index: after `get_mut` a proof knows no voice of the array
    let k = usize::from(selected);
    if k < voices.len() {
        write_settings(&mut voices[k].settings, address, byte);
    }
}

fn write_settings(settings: &mut Settings, address: u16, byte: u8)
    ensures { settings.new ≡ with_byte address byte settings.old }
{
    match address {
        0 => settings.env = byte,
        1 => settings.pan = byte,
        2 => settings.fdl = byte,
        3 => settings.fdh = byte,
        4 => settings.lsl = byte,
        5 => settings.lsh = byte,
        6 => settings.st = byte,
        _ => {}
    }
}

fn sounds(on: bool, channel: u8, k: usize) -> bool
    ensures { result ≡ sounds on channel k }
{
    on && !bit(channel, k)
}
