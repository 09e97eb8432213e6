// A sound chip over a wave memory: host port, inspection and tick.
ghost use Rattle.std.specs.Prelude.{◌≡◌, ◌^◌, ◌<◌, ◌≤◌, length, Ok};
ghost use Rattle.outcome.specs.Outcome.{granted, kept};
ghost use Rattle.voice.specs.Frame.{Ranged};
ghost use Rattle.chip.specs.Registers.{made, reset, latest};
ghost use Rattle.chip.specs.Port.{sized, target, shown, write, read, inspect, tick, filled};
ghost use Rattle.chip.specs.Chip.{state};

use crate::control::{Quiet, WINDOW_SIZE};
use crate::port::Target;
use crate::refusal::Refusal;
use crate::registers::{Registers, Setup};
use kind::Kind;
use voice::frame::Frame;
use voice::voice::Contribution;
use wave::memory::{Source, Store, byte_at};

// How many bytes the memory under a chip has.
const MEMORY_SIZE: usize = 65_536;

#[derive(Drop)]
pub struct Chip<M> {
    registers: Registers,
    memory: M,
}

impl<M> Chip<M> {
    pub fn new(memory: M, setup: Setup) -> Chip<M>
        ensures registers { result.registers ≡ made setup }
        ensures memory { result.memory ≡ memory }
    {
        Chip {
            registers: Registers::new(setup),
            memory,
        }
    }

    // A chip whose registers are as they were when another's were asked for.
    pub fn resume(memory: M, registers: Registers) -> Chip<M>
        ensures registers { result.registers ≡ registers }
        ensures memory { result.memory ≡ memory }
    {
        Chip { registers, memory }
    }

    pub fn into_memory(self) -> M
        ensures { result ≡ self.memory }
    {
        let Chip {
            registers: _,
            memory,
        } = self;
        memory
    }

    // All that the chip holds beside its memory.
    pub fn registers(&self) -> Registers
        ensures { result ≡ self.now.registers }
    {
        self.registers
    }

    pub fn kind(&self) -> Kind
        ensures { result ≡ self.now.registers.setup.kind }
    {
        self.registers.setup.kind
    }

    pub fn reset(&mut self)
        ensures registers { self.new.registers ≡ reset self.old.registers }
        ensures memory { self.new.memory ≡ self.old.memory }
    {
        self.registers = Registers::new(self.registers.setup);
    }

    // What each voice contributed in the last granted tick.
    pub fn contributions(&self) -> [Contribution; 8]
        ensures { result ≡ latest self.now.registers }
    {
        self.registers.latest()
    }
}

impl<M: Source> Chip<M> {
    fn check_size(&self) -> Result<(), Refusal>
        ensures { result ≡ sized (M.bytes self.now.memory) (Ok tt) }
    {
        if self.memory.size() == MEMORY_SIZE {
            Ok(())
        } else {
            Err(Refusal::MemorySize)
        }
    }

    // Where a host address leads, over a memory of the right size.
    fn target(&self, address: u16) -> Result<Target, Refusal>
        ensures { result ≡ sized (M.bytes self.now.memory) (target address) }
    {
        self.check_size().and_then(|()| Target::try_from(address))
    }

    // A host's read.
    pub fn read(&self, address: u16) -> Result<u8, Refusal>
        ensures { result ≡ read (M.bytes self.now.memory) self.now.registers address }
    {
        match self.target(address)? {
            Target::Position(index) if self.registers.setup.kind == Kind::Rf5c164 => {
                Ok(self.registers.position_byte(index))
            }
            Target::Register(_) | Target::Position(_) => Err(Refusal::NothingThere),
            Target::Window(_) if self.registers.control.on => Err(Refusal::Sounding),
            Target::Window(offset) => {
                let place = self.registers.control.place_behind(offset);
                Ok(self.memory.read(place as usize)?)
            }
        }
    }

    // Fills a buffer through the window, from an offset on, also while sounding.
    pub fn inspect(&mut self, offset: u16, buffer: &mut [u8]) -> Result<(), Refusal>
        ensures answer { result
            ≡ granted
            (inspect (M.bytes self.old.memory) self.old.registers offset (length buffer.old)) }
        ensures buffer { buffer.new
            ≡ kept buffer.old
            (inspect (M.bytes self.old.memory) self.old.registers offset (length buffer.old)) }
        ensures same { self.new ≡ self.old }
    {
        self.check_size()?;
        if usize::from(offset) + buffer.len() > usize::from(WINDOW_SIZE) {
            return Err(Refusal::PastWindow);
        }
        let quiet = Quiet::new(&mut self.registers.control);
        show(&self.memory, quiet.place_behind(offset), buffer);
        Ok(())
    }

    // One tick, which fills the frame.
    pub fn tick(&mut self, frame: &mut Frame) -> Result<(), Refusal>
        ensures answer { result ≡ granted (tick (M.bytes self.old.memory) self.old.registers) }
        ensures registers { self.new.registers
            ≡ kept self.old.registers (tick (M.bytes self.old.memory) self.old.registers) }
        ensures memory { self.new.memory ≡ self.old.memory }
        ensures frame { frame.new
            ≡ filled frame.old (tick (M.bytes self.old.memory) self.old.registers) }
        ensures ranged { result ≡ Ok tt → Ranged frame.new }
    {
        self.check_size()?;
        let heard = self.registers.tick(&self.memory);
        *frame = Frame::new(&heard, self.registers.setup.converter);
        Ok(())
    }
}

impl<M: Store> Chip<M> {
    // A host's write. A player writes a block byte by byte, and takes half the time for it where no call is made.
    #[inline]
    pub fn write(&mut self, address: u16, byte: u8) -> Result<(), Refusal>
        ensures answer { result ≡ granted (write (state M.bytes M.takes self.old) address byte) }
        ensures after { state M.bytes M.takes self.new
            ≡ kept (state M.bytes M.takes self.old) (write (state M.bytes M.takes self.old) address byte) }
        ensures same_borrows { M.borrows self.new.memory ≡ M.borrows self.old.memory }
    {
        match self.target(address)? {
            Target::Register(register) => self.registers.write(register, byte),
            Target::Position(_) => return Err(Refusal::NothingThere),
            Target::Window(offset) => {
                self.memory
                    .write(self.registers.control.place_behind(offset) as usize, byte)?;
            }
        }
        Ok(())
    }
}

// Fills a buffer with the bytes of a memory from a place on.
#[tactic(auto, using(crate::proofs::Shown::shown_all))]
fn show<S: Source>(memory: &S, place: u32, buffer: &mut [u8])
    ensures { buffer.new ≡ shown (S.bytes memory.now) place (length buffer.old) }
{
    for (i, byte) in buffer.iter_mut().enumerate() {
        *byte = byte_at(memory, place as usize + i);
    }
}
