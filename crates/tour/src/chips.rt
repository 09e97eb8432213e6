// A voice on a chip, at each converter.
use crate::memories::{START, TRIANGLE, load};
use calls::{Call, run};
use chip::chip::Chip;
use chip::port::WINDOW_START;
use chip::registers::Setup;
use kind::Kind;
use std::io;
use voice::frame::{Converter, Frame};
use wave::memory::Store;
use wave::ram::Ram;

// A voice at the start of the wave, one place a tick, looping; and then its first tick.
const FIRST_TICK: [Call; 8] = [
    Call::Write(0, 128),
    Call::Write(1, 0x12),
    Call::Write(3, 0x08),
    Call::Write(5, 0x12),
    Call::Write(6, 0x12),
    Call::Write(8, 0xFE),
    Call::Write(7, 0x81),
    Call::Tick,
];

// A chip over a memory with the wave, once that voice has done its first tick, which fills the frame.
fn first_tick<M: Store + Drop>(memory: M, converter: Converter, frame: &mut Frame) -> Chip<M> {
    let setup = Setup {
        kind: Kind::Rf5c68a,
        converter,
        mutes: 0,
    };
    run(memory, setup, &FIRST_TICK, frame, &mut [])
}

// What a tick sounds like.
fn show_frame(rt: &HostRuntime, converter: Converter, frame: &Frame) -> io::Result<()> {
    let Frame { left, right } = frame;
    println!(rt;
        "played a voice: totals {} and {}, words of {} bits {} and {}",
        left.total, right.total, converter as u8, left.word, right.word
    )
}

// Looks at the start of the wave while the chip sounds.
fn show_inspection<M: Store>(rt: &HostRuntime, chip: &mut Chip<M>) -> io::Result<()> {
    let mut shown = [0; 4];
    match chip.inspect(START - WINDOW_START, &mut shown) {
        Ok(()) => println!(rt; "inspected the wave while it sounds: {shown:?}")?,
        Err(refusal) => println!(rt; "was refused an inspection: {}", refusal.number())?,
    }
    match chip.read(WINDOW_START) {
        Ok(byte) => println!(rt; "read {byte} through the window"),
        Err(refusal) => println!(rt; "was refused a window read meanwhile: {}", refusal.number()),
    }
}

pub fn show_chip(rt: &HostRuntime) -> io::Result<()> {
    let mut bytes = vec![in rt.alloc(); 0u8; 65_536]?;
    let mut ram = Ram::new(bytes.as_mut_slice());
    if load(&mut ram, START, &TRIANGLE).is_err() {
        return println!(rt; "was refused a wave");
    }
    let mut frame = Frame::default();
    for converter in [Converter::Bits16, Converter::Bits10, Converter::Bits8] {
        let ram = Ram::new(bytes.as_mut_slice());
        let _ = first_tick(ram, converter, &mut frame);
        show_frame(rt, converter, &frame)?;
    }
    let ram = Ram::new(bytes.as_mut_slice());
    let mut chip = first_tick(ram, Converter::Bits16, &mut frame);
    show_inspection(rt, &mut chip)
}
