// A chip's registers and a player's stand as numbers, which a caller keeps from one call to the next.
ghost use Rattle.std.specs.Prelude.{◌≡◌, is_some, map};
ghost use Rattle.player.specs.Step.{new, standing};
ghost use Rattle.chip.specs.Registers.{made, reset, latest};
ghost use Rattle.exported.specs.States.{converter_of, voice_of, saved_voice, setup_of, registers_of, saved_chip, chip_refusal_of, log_fault_of, address_of, fault_of, state_of, stand_of, saved_player, saved_stand};
ghost use Rattle.voice.specs.Frame.{side_contributions};
ghost use Rattle.voice.specs.declared.stereo.SideName.TheVariants.{Left, Right};

use crate::logs::{kind_number, kind_of};
use crate::numbers::{NO_REFUSAL, is_set};
use chip::chip::Chip;
use chip::control::Control;
use chip::refusal::Refusal;
use chip::registers::{Registers, Setup};
use player::fault::Fault;
use player::player::State;
use register_log::fault::Fault as LogFault;
use voice::frame::{Converter, side_contributions};
use voice::stereo::SideName;
use voice::voice::{Contribution, Settings, Voice};
use wave::memory::Refusal as MemoryRefusal;

#[repr(C)]
#[derive(Clone, Copy, PartialEq, Eq, Debug)]
pub struct VoiceState {
    // its position, which counts only where it sounds
    pub phase: u32,
    // what it contributed in the last tick
    pub left: i16,
    pub right: i16,
    // 0 at rest
    pub sounding: u8,
    pub env: u8,
    pub pan: u8,
    pub fdl: u8,
    pub fdh: u8,
    pub lsl: u8,
    pub lsh: u8,
    pub st: u8,
}

impl VoiceState {
    fn save(voice: Voice) -> VoiceState
        ensures { result ≡ saved_voice voice }
    {
        let Voice {
            settings,
            phase,
            latest,
        } = voice;
        VoiceState {
            phase: phase.unwrap_or(0),
            left: latest.left,
            right: latest.right,
            sounding: u8::from(phase.is_some()),
            env: settings.env,
            pan: settings.pan,
            fdl: settings.fdl,
            fdh: settings.fdh,
            lsl: settings.lsl,
            lsh: settings.lsh,
            st: settings.st,
        }
    }

    fn voice(self) -> Voice
        ensures { result ≡ voice_of self }
    {
        Voice {
            settings: Settings {
                env: self.env,
                pan: self.pan,
                fdl: self.fdl,
                fdh: self.fdh,
                lsl: self.lsl,
                lsh: self.lsh,
                st: self.st,
            },
            phase: is_set(self.sounding).then_some(self.phase),
            latest: Contribution {
                left: self.left,
                right: self.right,
            },
        }
    }
}

// All that a chip holds beside its memory.
#[repr(C)]
#[derive(Clone, Copy, PartialEq, Eq, Debug)]
pub struct ChipState {
    pub voices: [VoiceState; 8],
    // 0 for an RF5C68A, any other for an RF5C164
    pub kind: u8,
    // the bits of a word: 8, 10, and any other for 16
    pub converter: u8,
    // the voices that never sound: bit 0 is voice 1
    pub mutes: u8,
    // 0 if the chip does not sound
    pub on: u8,
    pub bank: u8,
    pub selected: u8,
    pub channel: u8,
}

// What each voice contributed in the last tick, by side.
#[repr(C)]
#[derive(Clone, Copy, PartialEq, Eq, Debug)]
pub struct Contributions {
    pub left: [i16; 8],
    pub right: [i16; 8],
}

impl ChipState {
    pub fn new(kind: u8, converter: u8, mutes: u8) -> ChipState
        ensures { result ≡ saved_chip (made (setup_of kind converter mutes)) }
    {
        let setup = Setup {
            kind: kind_of(kind),
            converter: converter_of(converter),
            mutes,
        };
        ChipState::save(Registers::new(setup))
    }

    pub fn reset(&mut self)
        ensures { self.new ≡ saved_chip (reset (registers_of self.old)) }
    {
        let mut chip = Chip::resume((), self.registers());
        chip.reset();
        *self = ChipState::save(chip.registers());
    }

    // What each voice contributed in the last granted tick.
    pub fn contributions(&self) -> Contributions
        ensures left { result.left ≡ side_contributions Left (latest (registers_of self.now)) }
        ensures right { result.right ≡ side_contributions Right (latest (registers_of self.now)) }
    {
        let latest = Chip::resume((), self.registers()).contributions();
        Contributions {
            left: side_contributions(&latest, SideName::Left),
            right: side_contributions(&latest, SideName::Right),
        }
    }

    // What is saved is loaded again.
    pub(crate) fn save(registers: Registers) -> ChipState
        ensures saved { result ≡ saved_chip registers }
        ensures loaded { registers_of result ≡ registers }
    {
        numbers_of(registers)
    }

    pub(crate) fn registers(&self) -> Registers
        ensures { result ≡ registers_of self.now }
    {
        Registers {
            setup: Setup {
                kind: kind_of(self.kind),
                converter: converter_of(self.converter),
                mutes: self.mutes,
            },
            control: Control {
                on: is_set(self.on),
                bank: self.bank,
                selected: self.selected,
            },
            channel: self.channel,
            voices: load_voices(&self.voices),
        }
    }
}

fn numbers_of(registers: Registers) -> ChipState
    ensures { result ≡ saved_chip registers }
{
    let Registers {
        setup,
        control,
        channel,
        voices,
    } = registers;
    ChipState {
        voices: voices.map(|voice| VoiceState::save(voice)),
        kind: kind_number(setup.kind),
        converter: setup.converter as u8,
        mutes: setup.mutes,
        on: u8::from(control.on),
        bank: control.bank,
        selected: control.selected,
        channel,
    }
}

fn load_voices(states: &[VoiceState; 8]) -> [Voice; 8]
    ensures { result ≡ map voice_of states.now }
{
    states.map(|state| state.voice())
}

const CONVERTERS: [Converter; 3] = [Converter::Bits16, Converter::Bits10, Converter::Bits8];

// The converter of so many bits, and that of 16 where none has so many.
fn converter_of(bits: u8) -> Converter
    ensures { result ≡ converter_of bits }
{
    CONVERTERS
        .iter()
        .copied()
        .find(|converter| *converter as u8 == bits)
        .unwrap_or(Converter::Bits16)
}

// A player's states, by number.
const BETWEEN: u8 = 0;

const WAITING: u8 = 1;

const ENDED: u8 = 2;

const FAULTED: u8 = 3;

// Where a player stands in its log.
#[repr(C)]
#[derive(Clone, Copy, PartialEq, Eq, Debug)]
pub struct PlayerState {
    // the bit of the log at which it reads next
    pub place: usize,
    // the first bit of the wait, the end or the faulty record
    pub bit: usize,
    // the ticks that are left of a wait
    pub ticks: u16,
    // the host address of a fault
    pub address: u16,
    // 0 between two records, 1 in a wait, 2 at the end, any other for a fault
    pub state: u8,
    // the number of a fault
    pub number: u8,
    // 0 for a fault with no host address
    pub has_address: u8,
}

impl PlayerState {
    // Before the first step.
    pub fn new() -> PlayerState
        ensures { result ≡ saved_stand new }
    {
        PlayerState::save(0, State::Between)
    }

    // What is saved is loaded again.
    #[tactic(auto, using(crate::proofs::Saved::player_loaded))]
    pub(crate) fn save(place: usize, state: State) -> PlayerState
        ensures saved { result ≡ saved_player place state }
        ensures loaded { stand_of result ≡ standing place state }
    {
        let between = PlayerState {
            place,
            bit: 0,
            ticks: 0,
            address: 0,
            state: BETWEEN,
            number: NO_REFUSAL,
            has_address: u8::from(false),
        };
        match state {
            State::Between => between,
            State::Waiting { bit, left } => PlayerState {
                bit,
                ticks: left,
                state: WAITING,
                ..between
            },
            State::Ended(bit) => PlayerState {
                bit,
                state: ENDED,
                ..between
            },
            State::Faulted(fault) => PlayerState {
                bit: fault.bit(),
                address: fault.address(),
                state: FAULTED,
                number: fault.number(),
                has_address: u8::from(has_address(fault)),
                ..between
            },
        }
    }

    pub(crate) fn state(&self) -> State
        ensures { result ≡ state_of self.now }
    {
        match self.state {
            BETWEEN => State::Between,
            WAITING => State::Waiting {
                bit: self.bit,
                left: self.ticks,
            },
            ENDED => State::Ended(self.bit),
            _ => State::Faulted(self.fault()),
        }
    }

    fn fault(&self) -> Fault
        ensures { result ≡ fault_of self.now }
    {
        let bit = self.bit;
        match log_fault_of(self.number) {
            Some(fault) => Fault::Log { fault, bit },
            None => Fault::Chip {
                refusal: chip_refusal_of(self.number).unwrap_or(Refusal::PastWindow),
                bit,
                address: is_set(self.has_address).then_some(self.address),
            },
        }
    }
}

fn has_address(fault: Fault) -> bool
    ensures { result ≡ is_some (address_of fault) }
{
    matches!(
        fault,
        Fault::Chip {
            address: Some(_),
            ..
        }
    )
}

const LOG_FAULTS: [LogFault; 6] = [
    LogFault::Length,
    LogFault::Header,
    LogFault::Cut,
    LogFault::Tag,
    LogFault::Range,
    LogFault::Padding,
];

// The fault of a log that has this number, if one has it.
fn log_fault_of(number: u8) -> Option<LogFault>
    ensures { result ≡ log_fault_of number }
{
    LOG_FAULTS
        .iter()
        .copied()
        .find(|fault| fault.number() == number)
}

const CHIP_REFUSALS: [Refusal; 7] = [
    Refusal::MemorySize,
    Refusal::BeyondPort,
    Refusal::NothingThere,
    Refusal::Sounding,
    Refusal::PastWindow,
    Refusal::Memory(MemoryRefusal::ReadOnly),
    Refusal::Memory(MemoryRefusal::PastEnd),
];

// The refusal of a chip that has this number, if one has it.
fn chip_refusal_of(number: u8) -> Option<Refusal>
    ensures { result ≡ chip_refusal_of number }
{
    CHIP_REFUSALS
        .iter()
        .copied()
        .find(|refusal| refusal.number() == number)
}
