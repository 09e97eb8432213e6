// Logs that end, and logs that do not: all players stop at one step, with one answer.
use crate::rig::{Row, TICK, check_call};
use calls::Call::Inspect;
use kind::Kind;
use player::player::Progress;
use session::call::Answer;
use session::call::Call::{Chip, Step};
use session::session::Session;
use session::station::Station;
use std::process::Abort;
use voice::frame::Converter;
use wave::board::Board;
use wave::memory::Store;
use wave::ram::Ram;
use wave::rom::Rom;

const GROUPS: [u8; 2] = [0x0F, 0xF0];

#[derive(Clone, Copy)]
enum Stop {
    // the bit of the end tag
    Ended(usize),
    // a number, a layer, a bit and a host address
    Fault(u8, &'static str, usize, u16),
}

struct Case {
    log: &'static [u8],
    // before the stop
    steps: usize,
    stop: Stop,
    // what an inspection from 7FFH on then shows
    shown: [u8; 4],
}

// For an RF5C68A, whose memory is RAM of zeros up to 2801H, and ROM of bytes C0H from there on.
const CASES: [Case; 9] = [
    // channel register FEH, a wait of two ticks, and the end
    Case {
        log: &[0x10, 0x98, 0x96, 0x80, 0x31, 0xFC, 0xC0, 0x00, 0x80],
        steps: 5,
        stop: Stop::Ended(66),
        shown: [0; 4],
    },
    // the same with a bit set behind the end
    Case {
        log: &[0x10, 0x98, 0x96, 0x80, 0x31, 0xFC, 0xC0, 0x00, 0x81],
        steps: 5,
        stop: Stop::Fault(12, "log", 66, 0),
        shown: [0; 4],
    },
    // channel register FEH, and tag 5
    Case {
        log: &[0x10, 0x98, 0x96, 0x80, 0x31, 0xFD, 0x40],
        steps: 2,
        stop: Stop::Fault(10, "log", 47, 0),
        shown: [0; 4],
    },
    // control 80H, a tick, and a register of address 9
    Case {
        log: &[
            0x10, 0x98, 0x96, 0x80, 0x2F, 0x00, 0xC0, 0x00, 0x4C, 0x80, 0x00,
        ],
        steps: 4,
        stop: Stop::Fault(11, "log", 66, 0),
        shown: [0; 4],
    },
    // a header alone, for each kind, and a part of one
    Case {
        log: &[0x10, 0x98, 0x96, 0x80],
        steps: 1,
        stop: Stop::Fault(9, "log", 32, 0),
        shown: [0; 4],
    },
    Case {
        log: &[0x18, 0x98, 0x96, 0x80],
        steps: 0,
        stop: Stop::Fault(8, "log", 0, 0),
        shown: [0; 4],
    },
    Case {
        log: &[0x10, 0x98, 0x96],
        steps: 0,
        stop: Stop::Fault(7, "log", 0, 0),
        shown: [0; 4],
    },
    // bank 2, and a block from 800H on, of whose four bytes two are RAM
    Case {
        log: &[
            0x10, 0x98, 0x96, 0x80, 0x2E, 0x05, 0x20, 0x00, 0x00, 0xC0, 0xA1, 0xA2, 0xA3, 0xA4,
            0x00,
        ],
        steps: 2,
        stop: Stop::Fault(5, "memory", 47, 0x1802),
        shown: [0, 0xA1, 0xA2, 0xC0],
    },
    // bank 8, a tick, and a window byte at 5
    Case {
        log: &[
            0x10, 0x98, 0x96, 0x80, 0x2E, 0x10, 0xC0, 0x00, 0x50, 0x02, 0x88, 0x80,
        ],
        steps: 4,
        stop: Stop::Fault(5, "memory", 66, 0x1005),
        shown: [0xC0; 4],
    },
];

fn check_stop(rt: &impl Abort, answer: Option<Answer>, stop: Stop) {
    match (answer, stop) {
        (Some(Answer::Step(Ok(Progress::Ended(found)))), Stop::Ended(bit)) => {
            assert_eq!(rt; found, bit);
        }
        (Some(Answer::Step(Err(fault))), Stop::Fault(number, layer, bit, address)) => {
            assert_eq!(rt; fault.number(), number);
            assert_eq!(rt; fault.layer(), layer);
            assert_eq!(rt; fault.bit(), bit);
            assert_eq!(rt; fault.address(), address);
        }
        _ => panic!(rt; "{:?}", answer),
    }
}

// Steps that go on, and then steps that stop, which answer the same. Each call looks at the stems beside the mix.
fn stop_after<M: Store, S: Row>(
    rt: &impl Abort,
    session: &mut Session<'_, '_, M, S>,
    steps: usize,
) -> Option<Answer> {
    for _ in 0..steps {
        check_call(rt, session, &GROUPS, Step);
        let goes_on = matches!(
            session.mix.answer,
            Some(Answer::Step(Ok(Progress::Taken | Progress::Ticked)))
        );
        assert!(rt; goes_on, "{:?}", session.mix.answer);
    }
    check_call(rt, session, &GROUPS, Step);
    let stop = session.mix.answer;
    for call in [Step, TICK, Step] {
        check_call(rt, session, &GROUPS, call);
    }
    assert_eq!(rt; session.mix.answer, stop);
    stop
}

fn board<'a>(ram: &'a mut [u8], rom: &'a [u8]) -> Board<Ram<'a>, Rom<'a>> {
    Board {
        first: Ram::new(ram),
        second: Rom::new(rom),
    }
}

#[test]
fn at_ends_and_faults(rt: HostRuntime) {
    let (kind, bits) = (Kind::Rf5c68a, Converter::Bits16);
    let [low, high] = GROUPS;
    let rom = [0xC0; 0xD7FE];
    for case in &CASES {
        let mut mix_ram = [0; 0x2802];
        let mut low_ram = [0; 0x2802];
        let mut high_ram = [0; 0x2802];
        let (mut mix_buffer, mut low_buffer, mut high_buffer) = ([0; 4], [0; 4], [0; 4]);
        let mix = board(&mut mix_ram, &rom);
        let low_board = board(&mut low_ram, &rom);
        let high_board = board(&mut high_ram, &rom);
        let mut session = Session {
            mix: Station::new(0xFF, kind, bits, mix, case.log, &mut mix_buffer),
            stems: (
                Station::new(low, kind, bits, low_board, case.log, &mut low_buffer),
                (
                    Station::new(high, kind, bits, high_board, case.log, &mut high_buffer),
                    (),
                ),
            ),
        };
        let answer = stop_after(&rt, &mut session, case.steps);
        check_stop(&rt, answer, case.stop);
        check_call(&rt, &mut session, &GROUPS, Chip(Inspect(0x7FF)));
        assert_eq!(rt; mix_buffer, case.shown);
    }
}
