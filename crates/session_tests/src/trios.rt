// Totals of a mix and of its two stems over memories of three makes.
use crate::rig::{RESET, TICK};
use calls::Call::Write;
use kind::Kind;
use session::call::Call;
use session::call::Call::{Chip, Step};
use std::alloc::Global;
use std::test::Fail;
use trio::{Totals, tick_over_ram, tick_over_rom};

// The left total and the right one of the mix, of voices 1 to 4, and of voices 5 to 8.
type Sides = [(i32, i32); 3];

const SILENT: Sides = [(0, 0); 3];

// An RF5C68A's, with channel register FEH, a wait of two ticks, and the end.
const LOG: &[u8] = &[0x10, 0x98, 0x96, 0x80, 0x31, 0xFC, 0xC0, 0x00, 0x80];

// Voice 1 goes one place a tick from 0100H on, over C0H, 40H and A0H, and voice 5 stays at 0100H.
const OVER_RAM: &[Call] = &[
    Chip(Write(0x1100, 0xC0)),
    Chip(Write(0x1101, 0x40)),
    Chip(Write(0x1102, 0xA0)),
    Chip(Write(7, 0x40)),
    Chip(Write(0, 128)),
    Chip(Write(1, 0x12)),
    Chip(Write(3, 0x08)),
    Chip(Write(6, 1)),
    Chip(Write(7, 0x44)),
    Chip(Write(0, 64)),
    Chip(Write(1, 0x21)),
    Chip(Write(6, 1)),
    Chip(Write(8, 0xEE)),
    Chip(Write(7, 0x80)),
];

// Further calls, and the totals of a tick after them.
const AFTER_RAM: [(&[Call], Sides); 9] = [
    (&[], [(640, 512), (512, 256), (128, 256)]),
    (&[TICK], [(-384, 0), (-512, -256), (128, 256)]),
    (&[TICK, TICK], [(384, 384), (256, 128), (128, 256)]),
    (&[Chip(Write(8, 0xEF))], [(128, 256), (0, 0), (128, 256)]),
    (&[Chip(Write(7, 0x00))], SILENT),
    (&[TICK, RESET], SILENT),
    // the log's channel register leaves voice 1 alone on
    (&[Step; 2], [(512, 256), (512, 256), (0, 0)]),
    (&[Step; 4], [(-512, -256), (-512, -256), (0, 0)]),
    (&[Step; 7], [(256, 128), (256, 128), (0, 0)]),
];

// Voice 1 stays at 8000H, and voice 5 at C000H; a write there is refused.
const OVER_ROM: &[Call] = &[
    Chip(Write(7, 0x40)),
    Chip(Write(0, 128)),
    Chip(Write(1, 0x12)),
    Chip(Write(6, 0x80)),
    Chip(Write(7, 0x44)),
    Chip(Write(0, 64)),
    Chip(Write(1, 0x21)),
    Chip(Write(6, 0xC0)),
    Chip(Write(8, 0xEE)),
    Chip(Write(7, 0x88)),
    Chip(Write(0x1000, 0xFF)),
];

const AFTER_ROM: [(&[Call], Sides); 3] = [
    (&[], [(64, -256), (256, 128), (-192, -384)]),
    (&[Chip(Write(8, 0xFF))], SILENT),
    (&[Step; 3], [(256, 128), (256, 128), (0, 0)]),
];

fn sides(totals: Totals) -> Sides {
    [totals.mix, totals.low, totals.high].map(|both| (both.left, both.right))
}

fn joined(heap: Global, first: &[Call], then: &[Call]) -> Result<Vec<Call>, Fail> {
    let mut calls = Vec::from_slice(heap, first)?;
    calls.extend_from_slice(then)?;
    Ok(calls)
}

#[test]
fn over_ram(rt: HostRuntime) -> Result<(), Fail> {
    for (index, (further, expected)) in AFTER_RAM.into_iter().enumerate() {
        let calls = joined(rt.alloc(), OVER_RAM, further)?;
        let totals = tick_over_ram(Kind::Rf5c68a, LOG, calls.as_slice());
        assert_eq!(rt; totals.map(sides), Some(expected), "{}", index);
    }
    Ok(())
}

#[test]
fn over_rom(rt: HostRuntime) -> Result<(), Fail> {
    let mut rom = vec![in rt.alloc(); 0xA0u8; 16_384]?;
    rom.extend_from_slice(&[0x60; 16_384])?;
    for (index, (further, expected)) in AFTER_ROM.into_iter().enumerate() {
        let calls = joined(rt.alloc(), OVER_ROM, further)?;
        let totals = tick_over_rom(Kind::Rf5c68a, LOG, rom.as_slice(), calls.as_slice());
        assert_eq!(rt; totals.map(sides), Some(expected), "{}", index);
    }
    Ok(())
}

#[test]
fn over_rom_of_another_size(rt: HostRuntime) -> Result<(), Fail> {
    for size in [0, 32_767, 32_769] {
        let rom = vec![in rt.alloc(); 0xA0u8; size]?;
        assert_eq!(rt;
            tick_over_rom(Kind::Rf5c164, LOG, rom.as_slice(), OVER_ROM),
            None
        );
    }
    Ok(())
}
