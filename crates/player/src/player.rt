// A player: it plays a log on a chip, step by step.
ghost use Rattle.std.specs.Prelude.{◌≡◌, ℕ, ◌+◌, ◌<◌, ◌≤◌, true, false, length};
ghost use Rattle.voice.specs.Frame.{Frame as FrameValue};
ghost use Rattle.chip.specs.Chip.{state};
ghost use Rattle.chip.specs.Port.{State as ChipState, tick, filled};
ghost use Rattle.register_log.specs.Header.{header};
ghost use Rattle.register_log.specs.Record.{values, in_window};
ghost use Rattle.player.specs.Left.{stops, left};
ghost use Rattle.player.specs.Step.{standing, stand, new, Stepped, stepped, settled, for_kind, opened, obeyed, waited, put, put_down, step, framed};

use crate::fault::Fault;
use chip::chip::Chip;
use chip::port::WINDOW_START;
use kind::Kind;
use register_log::fault::Fault as LogFault;
use register_log::header::{Header, RECORDS};
use register_log::reader::Reader;
use register_log::record::Record;
use voice::frame::Frame;
use wave::memory::{Source, Store};

// One of four states. A player that has not taken the header yet is between records as well, before the first; one with a
// fault keeps it.
#[derive(Clone, Copy, PartialEq, Eq, Debug)]
pub enum State {
    // before the header, or between two records
    Between,
    // in the wait at a bit, with so many ticks left
    Waiting { bit: usize, left: u16 },
    // at the end tag, which starts at a bit
    Ended(usize),
    Faulted(Fault),
}

// What a step comes to that finds no fault.
#[derive(Clone, Copy, PartialEq, Eq, Debug)]
pub enum Progress {
    // the header or a record was taken
    Taken,
    // a tick was done
    Ticked,
    // the end tag starts at a bit
    Ended(usize),
}

#[derive(Clone, Copy, PartialEq, Eq, Debug)]
pub struct Player<'a> {
    reader: Reader<'a>,
    state: State,
}

impl<'a> Player<'a> {
    // Before the first step.
    pub fn new(log: &'a [u8]) -> Player<'a>
        ensures log { result.reader.log.now ≡ log.now }
        ensures stand { stand result ≡ new }
    {
        Player {
            reader: Reader { log, place: 0 },
            state: State::Between,
        }
    }

    // A player that goes on from where another stood in the log, in bits, and from its state.
    pub fn resume(log: &'a [u8], place: usize, state: State) -> Player<'a>
        ensures log { result.reader.log.now ≡ log.now }
        ensures stand { stand result ≡ standing place state }
    {
        Player {
            reader: Reader { log, place },
            state,
        }
    }

    // Where the player stands in its log, in bits.
    pub fn place(&self) -> usize
        ensures { result ≡ (stand self.now).place }
    {
        self.reader.place
    }

    pub fn state(&self) -> State
        ensures { result ≡ (stand self.now).state }
    {
        self.state
    }

    // One step: the header, a record or a tick, which fills the frame. After a fault or the end it answers the same again.
    pub fn step<M: Store>(
        &mut self,
        chip: &mut Chip<M>,
        frame: &mut Frame,
    ) -> Result<Progress, Fault>
        ensures outcome { stepped (state M.bytes M.takes chip.new) (stand self.new) result
            ≡ step self.old.reader.log.now (state M.bytes M.takes chip.old) (stand self.old) }
        ensures frame { frame.new
            ≡ framed frame.old
            (step self.old.reader.log.now (state M.bytes M.takes chip.old) (stand self.old)) result }
        ensures log { self.new.reader.log.now ≡ self.old.reader.log.now }
        ensures same_borrows { M.borrows chip.new.memory ≡ M.borrows chip.old.memory }
        ensures nearer { stops result ≡ false →
            left self.old.reader.log.now (stand self.new) < left self.old.reader.log.now (stand self.old) }
    {
        let answer = self.advance(chip, frame);
        if let Err(fault) = answer {
            self.state = State::Faulted(fault);
        }
        answer
    }

    // What `step` does before it keeps a fault.
    fn advance<M: Store>(
        &mut self,
        chip: &mut Chip<M>,
        frame: &mut Frame,
    ) -> Result<Progress, Fault>
        ensures outcome { settled (state M.bytes M.takes chip.new) (stand self.new) result
            ≡ step self.old.reader.log.now (state M.bytes M.takes chip.old) (stand self.old) }
        ensures frame { frame.new
            ≡ framed frame.old
            (step self.old.reader.log.now (state M.bytes M.takes chip.old) (stand self.old)) result }
        ensures log { self.new.reader.log.now ≡ self.old.reader.log.now }
        ensures same_borrows { M.borrows chip.new.memory ≡ M.borrows chip.old.memory }
    {
        let bit = self.reader.place;
        let record = match self.state {
            State::Between if bit >= RECORDS => self
                .reader
                .next()
                .map_err(|fault| Fault::Log { fault, bit })?,
            _ => None,
        };
        match (self.state, record) {
            (State::Between, _) if bit < RECORDS => self.open(chip.kind()),
            (State::Between, Some(record)) => self.obey(record, bit, chip),
            (State::Between, None) => {
                self.state = State::Ended(bit);
                Ok(Progress::Ended(bit))
            }
            (State::Waiting { bit, left }, _) => self.wait(bit, left, chip, frame),
            (State::Ended(bit), _) => Ok(Progress::Ended(bit)),
            (State::Faulted(fault), _) => Err(fault),
        }
    }

    // Takes the header.
    fn open(&mut self, kind: Kind) -> Result<Progress, Fault>
        requires { self.old.state ≡ State.Between }
        ensures outcome { (c : ChipState) → c.registers.setup.kind ≡ kind →
            settled c (stand self.new) result ≡ opened c self.old.reader.place (for_kind kind (header self.old.reader.log.now)) }
        ensures log { self.new.reader.log.now ≡ self.old.reader.log.now }
    {
        check_header(self.reader.log, kind).map_err(|fault| Fault::Log { fault, bit: 0 })?;
        self.reader.place = RECORDS;
        Ok(Progress::Taken)
    }

    // Does what a record at a bit asks.
    fn obey<M: Store>(
        &mut self,
        record: Record<'_>,
        bit: usize,
        chip: &mut Chip<M>,
    ) -> Result<Progress, Fault>
        requires { (self.old.state ≡ State.Between) × (in_window (values «record») ≡ true) }
        ensures outcome { settled (state M.bytes M.takes chip.new) (stand self.new) result
            ≡ obeyed (state M.bytes M.takes chip.old) bit self.old.reader.place (values «record».entry) }
        ensures quiet { (before : FrameValue) (s : Stepped) → framed before s result ≡ before }
        ensures log { self.new.reader.log.now ≡ self.old.reader.log.now }
        ensures same_borrows { M.borrows chip.new.memory ≡ M.borrows chip.old.memory }
    {
        match record {
            Record::Register { address, byte } => put(chip, bit, u16::from(address), &[byte])?,
            Record::Window { offset, byte } => put(chip, bit, WINDOW_START + offset, &[byte])?,
            Record::Block { offset, bytes } => put(chip, bit, WINDOW_START + offset, bytes)?,
            Record::Wait { ticks } => self.state = State::Waiting { bit, left: ticks },
        }
        Ok(Progress::Taken)
    }

    // One tick of the wait at a bit that has so many left.
    fn wait<M: Store>(
        &mut self,
        bit: usize,
        left: u16,
        chip: &mut Chip<M>,
        frame: &mut Frame,
    ) -> Result<Progress, Fault>
        ensures outcome { settled (state M.bytes M.takes chip.new) (stand self.new) result
            ≡ waited (state M.bytes M.takes chip.old) self.old.reader.place bit left
            (tick (M.bytes chip.old.memory) chip.old.registers) }
        ensures frame { frame.new ≡ filled frame.old (tick (M.bytes chip.old.memory) chip.old.registers) }
        ensures log { self.new.reader.log.now ≡ self.old.reader.log.now }
        ensures same_borrows { M.borrows chip.new.memory ≡ M.borrows chip.old.memory }
    {
        chip.tick(frame).map_err(|refusal| Fault::Chip {
            refusal,
            bit,
            address: None,
        })?;
        self.state = if left > 1 {
            State::Waiting {
                bit,
                left: left - 1,
            }
        } else {
            State::Between
        };
        Ok(Progress::Ticked)
    }
}

// Whether a log's header is right, and for such a chip.
fn check_header(log: &[u8], kind: Kind) -> Result<(), LogFault>
    ensures { result ≡ for_kind kind (header log.now) }
{
    if Header::read(log)?.kind == kind {
        Ok(())
    } else {
        Err(LogFault::Header)
    }
}

// Writes bytes to the host port from an address upward, up to the first refusal, for the record at a bit.
#[tactic(auto, unfolding(crate::specs::Step::put))]
fn put<M: Store>(chip: &mut Chip<M>, bit: usize, first: u16, bytes: &[u8]) -> Result<(), Fault>
    requires { first + length bytes.now ≤ 65535 }
    ensures put { (place : ℕ) →
        put bytes.now first bit place (state M.bytes M.takes chip.old)
        ≡ put_down result place (state M.bytes M.takes chip.new) }
    ensures same_borrows { M.borrows chip.new.memory ≡ M.borrows chip.old.memory }
{
    // counted by hand: a `zip` with `first..` tests at each byte whether the addresses are at their end, too
    let mut address = first;
    for byte in bytes {
        chip.write(address, *byte).map_err(|refusal| Fault::Chip {
            refusal,
            bit,
            address: Some(address),
        })?;
        address += 1;
    }
    Ok(())
}
