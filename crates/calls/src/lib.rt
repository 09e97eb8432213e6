// The calls of a chip as values, and what holds of every list of them.
#![tactic(auto)]

ghost use Rattle.std.specs.Prelude.{◌≡◌, List, length};
ghost use Rattle.wave.specs.Means.{means};
ghost use Rattle.chip.specs.Chip.{state};
ghost use Rattle.calls.specs.Calls.{answer, after, framed, buffered, after_all, framed_all, buffered_all};
ghost use Rattle.calls.specs.Law.{new, Law};

use chip::chip::Chip;
use chip::refusal::Refusal;
use chip::registers::Setup;
use voice::frame::Frame;
use voice::voice::Contribution;
use wave::memory::{Source, Store};

// What is asked of a chip. A tick fills the lent frame, an inspection from an offset on the lent buffer.
#[derive(Clone, Copy, PartialEq, Eq, Debug)]
pub enum Call {
    Reset,
    Write(u16, u8),
    Read(u16),
    Inspect(u16),
    Tick,
    Tell,
}

// What a chip replies to a granted read, and to a telling.
#[derive(Clone, Copy, PartialEq, Eq, Debug)]
pub enum Reply {
    Byte(u8),
    Contributions([Contribution; 8]),
}

// What a chip answers: its reply, if the call has one, or its refusal.
pub type Answer = Result<Option<Reply>, Refusal>;

// Carries out a call. The frame and the buffer are parameters of their own, since each is lent by itself: a tick alone
// writes the one, an inspection alone the other.
pub fn perform<M: Store>(
    chip: &mut Chip<M>,
    call: Call,
    frame: &mut Frame,
    buffer: &mut [u8],
) -> Answer
    ensures answer { result ≡ answer call (length buffer.old) (state M.bytes M.takes chip.old) }
    ensures after { state M.bytes M.takes chip.new ≡ after call (state M.bytes M.takes chip.old) }
    ensures frame { frame.new ≡ framed call (state M.bytes M.takes chip.old) frame.old }
    ensures buffer { buffer.new ≡ buffered call (state M.bytes M.takes chip.old) buffer.old }
    ensures same_borrows { M.borrows chip.new.memory ≡ M.borrows chip.old.memory }
{
    match call {
        Call::Reset => {
            chip.reset();
            Ok(None)
        }
        Call::Write(address, byte) => chip.write(address, byte).map(|()| None),
        Call::Read(address) => chip.read(address).map(|byte| Some(Reply::Byte(byte))),
        Call::Inspect(offset) => chip.inspect(offset, buffer).map(|()| None),
        Call::Tick => chip.tick(frame).map(|()| None),
        Call::Tell => Ok(Some(Reply::Contributions(chip.contributions()))),
    }
}

// A new chip after a list of calls.
pub fn run<M: Store>(
    memory: M,
    setup: Setup,
    calls: &[Call],
    frame: &mut Frame,
    buffer: &mut [u8],
) -> Chip<M>
    ensures after { state M.bytes M.takes result ≡ after_all calls.now (new (means M.bytes M.takes memory) setup) }
    ensures frame { frame.new
        ≡ framed_all calls.now (new (means M.bytes M.takes memory) setup) frame.old }
    ensures buffer { buffer.new
        ≡ buffered_all calls.now (new (means M.bytes M.takes memory) setup) buffer.old }
    ensures law { Law (new (means M.bytes M.takes memory) setup) calls.now }
    ensures same_borrows { M.borrows result.memory ≡ M.borrows memory }
{
    let mut chip = Chip::new(memory, setup);
    for call in calls {
        let _ = perform(&mut chip, *call, frame, buffer);
    }
    chip
}
