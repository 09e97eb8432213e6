// Calls of a chip, each with the answer that it must have. Each test lends its own bytes to a RAM, since they must outlive
// the chip.
use calls::{Call, Reply};
use chip::chip::Chip;
use chip::refusal::Refusal;
use chip::registers::Setup;
use kind::Kind;
use std::process::Abort;
use std::test::Fail;
use voice::frame::{Converter, Frame, Side};
use voice::voice::Contribution;
use wave::memory::{Refusal as MemoryRefusal, Store};

// What is seen of a granted call, in one word for each line of a table.
#[derive(Clone, Copy, PartialEq, Eq, Debug)]
pub enum Seen {
    Done,
    Byte(u8),
    // of a tick: the left total and the right one
    Totals(i32, i32),
}

pub type Answer = Result<Seen, Refusal>;

pub const READ_ONLY: Answer = Err(Refusal::Memory(MemoryRefusal::ReadOnly));

// Chips with no voice muted.
pub const RF5C68A: Setup = Setup {
    kind: Kind::Rf5c68a,
    converter: Converter::Bits16,
    mutes: 0,
};

pub const RF5C164: Setup = Setup {
    kind: Kind::Rf5c164,
    ..RF5C68A
};

// What eight silent voices contributed.
pub const SILENT: [Contribution; 8] = [Contribution { left: 0, right: 0 }; 8];

// A frame that no tick gives.
pub const UNFILLED: Frame = Frame {
    left: Side {
        contributions: [1, 3, 5, 7, 9, 11, 13, 15],
        total: 17,
        word: 19,
    },
    right: Side {
        contributions: [21, 23, 25, 27, 29, 31, 33, 35],
        total: 37,
        word: 39,
    },
};

pub fn perform<M: Store>(chip: &mut Chip<M>, call: Call) -> Answer {
    let mut frame = UNFILLED;
    let reply = calls::perform(chip, call, &mut frame, &mut [])?;
    Ok(match (call, reply) {
        (Call::Tick, _) => Seen::Totals(frame.left.total, frame.right.total),
        (_, Some(Reply::Byte(byte))) => Seen::Byte(byte),
        (_, Some(Reply::Contributions(_)) | None) => Seen::Done,
    })
}

pub fn next_frame<M: Store>(chip: &mut Chip<M>) -> Result<Frame, Refusal> {
    let mut frame = UNFILLED;
    chip.tick(&mut frame)?;
    Ok(frame)
}

pub fn check_calls<M: Store>(rt: &impl Abort, chip: &mut Chip<M>, calls: &[(Call, Answer)]) {
    for (index, (call, answer)) in calls.iter().enumerate() {
        assert_eq!(rt; perform(chip, *call), *answer, "{}", index);
    }
}

// Calls that all have one answer; a list of pairs would say it at each.
pub fn check_alike<M: Store>(rt: &impl Abort, chip: &mut Chip<M>, calls: &[Call], answer: Answer) {
    for (index, call) in calls.iter().enumerate() {
        assert_eq!(rt; perform(chip, *call), answer, "{}", index);
    }
}

// Writes that are all granted.
pub fn write_all<M: Store>(chip: &mut Chip<M>, writes: &[(u16, u8)]) -> Result<(), Fail> {
    for (address, byte) in writes {
        chip.write(*address, *byte)?;
    }
    Ok(())
}
