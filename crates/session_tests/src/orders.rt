// Pauses, a change of the wave bank, restarts and a reset, while voices of three stems sound.
use crate::rig::{RESET, TICK, check_call};
use calls::Call::Write;
use kind::Kind;
use session::call::Call;
use session::call::Call::Chip;
use session::session::Session;
use session::station::Station;
use std::process::Abort;
use voice::frame::{Converter, Frame};
use wave::board::Board;
use wave::memory::Store;
use wave::ram::Ram;
use wave::rom::Rom;

// Voice 1, voice 5, and the others.
const GROUPS: [u8; 3] = [0x01, 0x10, 0xEE];

// The left total and the right one of each stem.
type Totals = [(i32, i32); 3];

const SILENT: Totals = [(0, 0); 3];

const SAMPLES: &[Call] = &[
    Chip(Write(0x1100, 0xC0)),
    Chip(Write(0x1101, 0x40)),
    Chip(Write(0x1102, 0xA0)),
];

// Voices 1 and 5 go one place a tick from 0100H on, and voice 8 stays there.
const VOICES: &[Call] = &[
    Chip(Write(7, 0x40)),
    Chip(Write(0, 128)),
    Chip(Write(1, 0x12)),
    Chip(Write(3, 0x08)),
    Chip(Write(6, 1)),
    Chip(Write(7, 0x44)),
    Chip(Write(0, 64)),
    Chip(Write(1, 0x21)),
    Chip(Write(3, 0x08)),
    Chip(Write(6, 1)),
    Chip(Write(7, 0x47)),
    Chip(Write(0, 32)),
    Chip(Write(1, 0x01)),
    Chip(Write(6, 1)),
];

const ON: &[Call] = &[Chip(Write(8, 0x6E)), Chip(Write(7, 0x80))];

// In a pause: samples from 3000H on, where voice 5 is to start.
const OTHER_START: &[Call] = &[
    Chip(Write(0x1000, 0xA0)),
    Chip(Write(0x1001, 0x60)),
    Chip(Write(0x1002, 0xC0)),
    Chip(Write(0x1003, 0x20)),
    Chip(Write(7, 0x44)),
    Chip(Write(6, 0x30)),
];

// Calls, and the totals of a tick after them.
const ORDER: [(&[Call], Totals); 14] = [
    (SAMPLES, SILENT),
    (VOICES, SILENT),
    (ON, [(512, 256), (128, 256), (64, 0)]),
    (&[], [(-512, -256), (-128, -256), (64, 0)]),
    // a pause in bank 3
    (&[Chip(Write(7, 0x03))], SILENT),
    (OTHER_START, SILENT),
    // voice 1 restarts alone, and the others after it
    (
        &[Chip(Write(8, 0xFE)), Chip(Write(7, 0xC4))],
        [(512, 256), (0, 0), (0, 0)],
    ),
    (&[Chip(Write(8, 0x6E))], [(-512, -256), (64, 128), (64, 0)]),
    // a pause with no tick in it
    (
        &[Chip(Write(7, 0x04)), Chip(Write(7, 0x80))],
        [(256, 128), (-192, -384), (64, 0)],
    ),
    // voice 5 alone goes on
    (&[Chip(Write(8, 0xEF))], [(0, 0), (128, 256), (0, 0)]),
    (ON, [(512, 256), (-64, -128), (64, 0)]),
    (&[RESET], SILENT),
    (VOICES, SILENT),
    (ON, [(512, 256), (128, 256), (64, 0)]),
];

fn totals(frame: &Frame) -> (i32, i32) {
    (frame.left.total, frame.right.total)
}

// The order over four memories, the first of them the mix's.
fn check_order<A: Store + Drop, B: Store + Drop, C: Store + Drop, D: Store + Drop>(
    rt: &impl Abort,
    memories: (A, B, C, D),
) {
    let (mix, first, second, third) = memories;
    let (kind, bits, log) = (Kind::Rf5c164, Converter::Bits16, &[]);
    let [one, five, others] = GROUPS;
    let mut session = Session {
        mix: Station::new(0xFF, kind, bits, mix, log, &mut []),
        stems: (
            Station::new(one, kind, bits, first, log, &mut []),
            (
                Station::new(five, kind, bits, second, log, &mut []),
                (Station::new(others, kind, bits, third, log, &mut []), ()),
            ),
        ),
    };
    for (index, (calls, expected)) in ORDER.into_iter().enumerate() {
        for call in calls {
            check_call(rt, &mut session, &GROUPS, *call);
        }
        check_call(rt, &mut session, &GROUPS, TICK);
        let (one, (five, (others, ()))) = &session.stems;
        let found = [&one.frame, &five.frame, &others.frame].map(totals);
        assert_eq!(rt; found, expected, "{}", index);
    }
}

#[test]
fn over_three_makes(rt: HostRuntime) {
    let mut bytes = [0; 65_536];
    let mut whole = [0; 65_536];
    let mut first = [0; 32_768];
    let mut second = [0; 32_768];
    let mut beside = [0; 65_536];
    let halves = Board {
        first: Ram::new(&mut first),
        second: Ram::new(&mut second),
    };
    let with_rom = Board {
        first: Ram::new(&mut beside),
        second: Rom::new(&[]),
    };
    let (mix, ram) = (Ram::new(&mut bytes), Ram::new(&mut whole));
    check_order(&rt, (mix, ram, halves, with_rom));
}
