// Steps of a player on a chip, each with what it must come to. Each test lends its own bytes to a memory, since they must
// outlive the chip.
use calls::Call;
use chip::chip::Chip;
use chip::registers::Setup;
use kind::Kind;
use player::fault::Fault;
use player::player::{Player, Progress};
use register_log::header::Header;
use register_log::record::Record;
use std::alloc::Global;
use std::process::Abort;
use std::test::Fail;
use voice::frame::{Converter, Frame, Side};
use voice::voice::Contribution;
use wave::memory::Store;

// What a step comes to, in one word for each line of a table.
#[derive(Clone, Copy, PartialEq, Eq, Debug)]
pub enum Seen {
    Taken,
    // of a tick: the left total and the right one
    Totals(i32, i32),
    Ended(usize),
}

// What a fault tells: its number, layer, bit and host address.
#[derive(Clone, Copy, PartialEq, Eq, Debug)]
pub struct Told(pub u8, pub &'static str, pub usize, pub u16);

pub type Answer = Result<Seen, Told>;

pub const TAKEN: Answer = Ok(Seen::Taken);

pub fn totals(left: i32, right: i32) -> Answer {
    Ok(Seen::Totals(left, right))
}

// Chips with no voice muted.
pub const RF5C68A: Setup = Setup {
    kind: Kind::Rf5c68a,
    converter: Converter::Bits16,
    mutes: 0,
};

pub const RF5C164: Setup = Setup {
    kind: Kind::Rf5c164,
    ..RF5C68A
};

// What eight silent voices contributed.
pub const SILENT: [Contribution; 8] = [Contribution { left: 0, right: 0 }; 8];

// A frame that no tick gives.
pub const UNFILLED: Frame = Frame {
    left: Side {
        contributions: [1, 3, 5, 7, 9, 11, 13, 15],
        total: 17,
        word: 19,
    },
    right: Side {
        contributions: [21, 23, 25, 27, 29, 31, 33, 35],
        total: 37,
        word: 39,
    },
};

// Records by their fields.
pub fn register(address: u8, byte: u8) -> Record<'static> {
    Record::Register { address, byte }
}

pub fn window(offset: u16, byte: u8) -> Record<'static> {
    Record::Window { offset, byte }
}

pub fn wait(ticks: u16) -> Record<'static> {
    Record::Wait { ticks }
}

pub fn block(offset: u16, bytes: &'static [u8]) -> Record<'static> {
    Record::Block { offset, bytes }
}

// The log of a list of records, for a kind of chip.
pub fn recorded(heap: Global, kind: Kind, records: &[Record<'_>]) -> Result<Vec<u8>, Fail> {
    let mut log = vec![in heap; 0u8; 4_500]?;
    let clock = 10_000_000;
    let length = whole_log::record(Header { kind, clock }, records, log.as_mut_slice())?;
    log.truncate(length);
    Ok(log)
}

pub fn tell(fault: Fault) -> Told {
    Told(fault.number(), fault.layer(), fault.bit(), fault.address())
}

// One step, lent a frame that it must leave if it is no tick.
pub fn step<M: Store>(rt: &impl Abort, player: &mut Player<'_>, chip: &mut Chip<M>) -> Answer {
    let mut frame = UNFILLED;
    let answer = player.step(chip, &mut frame);
    if answer != Ok(Progress::Ticked) {
        assert_eq!(rt; frame, UNFILLED);
    }
    match answer {
        Ok(Progress::Taken) => Ok(Seen::Taken),
        Ok(Progress::Ticked) => Ok(Seen::Totals(frame.left.total, frame.right.total)),
        Ok(Progress::Ended(bit)) => Ok(Seen::Ended(bit)),
        Err(fault) => Err(tell(fault)),
    }
}

pub fn check_steps<M: Store>(
    rt: &impl Abort,
    player: &mut Player<'_>,
    chip: &mut Chip<M>,
    answers: &[Answer],
) {
    for (index, answer) in answers.iter().enumerate() {
        assert_eq!(rt; step(rt, player, chip), *answer, "{}", index);
    }
}

// How many steps come before an end or a fault, which is answered again and again.
pub fn check_stop<M: Store>(
    rt: &impl Abort,
    player: &mut Player<'_>,
    chip: &mut Chip<M>,
    stop: Answer,
) -> usize {
    for count in 0..100 {
        let answer = step(rt, player, chip);
        if !matches!(answer, Ok(Seen::Taken | Seen::Totals(..))) {
            assert_eq!(rt; answer, stop);
            check_steps(rt, player, chip, &[stop; 3]);
            return count;
        }
    }
    panic!(rt; "no stop")
}

// A call of two chips, which must do the same to both.
fn check_call<M: Store, N: Store>(
    rt: &impl Abort,
    first: &mut Chip<M>,
    second: &mut Chip<N>,
    call: Call,
) {
    let (mut frame, mut other_frame) = (UNFILLED, UNFILLED);
    let (mut buffer, mut other_buffer) = ([0; 4_096], [0; 4_096]);
    let answer = calls::perform(first, call, &mut frame, &mut buffer);
    let other_answer = calls::perform(second, call, &mut other_frame, &mut other_buffer);
    assert_eq!(rt; answer, other_answer);
    assert_eq!(rt; frame, other_frame);
    assert_eq!(rt; buffer, other_buffer);
}

// What tells two chips apart, but for positions and for the banks of their memories: the wave bank shows by a byte that is
// written there, the selected voice by its start, and at last every voice is on.
const PROBES: [Call; 10] = [
    Call::Tell,
    Call::Inspect(0),
    Call::Read(0x1000),
    Call::Tick,
    Call::Write(0x1000, 0x77),
    Call::Write(6, 0x33),
    Call::Write(8, 0x00),
    Call::Write(7, 0x80),
    Call::Tick,
    Call::Tick,
];

fn check_positions<M: Store, N: Store>(rt: &impl Abort, first: &mut Chip<M>, second: &mut Chip<N>) {
    for address in 0x10..0x20 {
        check_call(rt, first, second, Call::Read(address));
    }
}

// Two chips of one kind whose registers and memories are the same.
pub fn check_same<M: Store, N: Store>(rt: &impl Abort, first: &mut Chip<M>, second: &mut Chip<N>) {
    check_positions(rt, first, second);
    for call in PROBES {
        check_call(rt, first, second, call);
        check_positions(rt, first, second);
    }
    for bank in 0..16 {
        check_call(rt, first, second, Call::Write(7, bank));
        check_call(rt, first, second, Call::Inspect(0));
    }
}
