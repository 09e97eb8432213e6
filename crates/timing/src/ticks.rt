// Ticks over a RAM.
use chip::chip::Chip;
use chip::registers::Setup;
use kind::Kind;
use std::io;
use voice::frame::{Converter, Frame};
use wave::memory::{Source, Store};
use wave::ram::Ram;

// Each voice has a level, a step and a start of its own; all loop to place 0.
const REGISTERS: [[u8; 7]; 8] = [
    [255, 0xFF, 0x00, 0x08, 0, 0, 0x00],
    [200, 0x5A, 0x34, 0x07, 0, 0, 0x10],
    [180, 0xA5, 0x01, 0x0A, 0, 0, 0x20],
    [160, 0x3C, 0x80, 0x05, 0, 0, 0x30],
    [140, 0xC3, 0x77, 0x09, 0, 0, 0x40],
    [120, 0x69, 0x10, 0x0C, 0, 0, 0x50],
    [100, 0x96, 0xF0, 0x03, 0, 0, 0x60],
    [80, 0x1E, 0x0F, 0x10, 0, 0, 0x70],
];

const SETUP: Setup = Setup {
    kind: Kind::Rf5c68a,
    converter: Converter::Bits16,
    mutes: 0,
};

// The first voices sound, so many of them.
fn set_up<M: Store>(chip: &mut Chip<M>, voices: u32) {
    for (voice, registers) in (0x40u8..).zip(REGISTERS) {
        let _ = chip.write(7, voice);
        for (address, byte) in (0..).zip(registers) {
            let _ = chip.write(address, byte);
        }
    }
    let _ = chip.write(8, 0xFFu8.checked_shl(voices).unwrap_or(0));
    let _ = chip.write(7, 0x80);
}

// A sum over the ticks, by which programs are compared.
fn sum_of_ticks<M: Source>(chip: &mut Chip<M>, count: u32) -> i64 {
    let mut frame = Frame::default();
    let mut sum: i64 = 0;
    for _ in 0..count {
        let _ = chip.tick(&mut frame);
        sum = sum.wrapping_add(weighed(&frame));
    }
    sum
}

// Each part of a frame counts, and contributions at a place that the left word names, so that none is left out.
fn weighed(frame: &Frame) -> i64 {
    let (left, right) = (&frame.left, &frame.right);
    let voice = usize::from(left.word % 8);
    let totals = i64::from(left.total) - 3 * i64::from(right.total);
    let items = i64::from(left.contributions[voice]) - 5 * i64::from(right.contributions[voice]);
    let words = i64::from(left.word) - 7 * i64::from(right.word);
    totals.wrapping_add(items).wrapping_add(words)
}

pub fn run(rt: &HostRuntime, voices: u32, count: u32) -> io::Result<()> {
    let mut bytes = vec![in rt.alloc(); 0u8; 65_536]?;
    for (byte, place) in bytes.iter_mut().zip(0u32..) {
        let value = (place.wrapping_mul(2_654_435_761) >> 24) as u8;
        // a stop byte every 4,096 places and no other
        *byte = if place % 4_096 == 4_095 {
            0xFF
        } else {
            value & 0xFE
        };
    }
    let mut chip = Chip::new(Ram::new(bytes.as_mut_slice()), SETUP);
    set_up(&mut chip, voices);
    println!(rt; "{}", sum_of_ticks(&mut chip, count))
}
