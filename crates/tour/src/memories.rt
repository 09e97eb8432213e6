// Wave memories of several makes.
ghost use Rattle.std.specs.Prelude.{◌≡◌, true};

use std::io;
use wave::access::{Access, answer_alike};
use wave::board::Board;
use wave::memory::{Refusal, Source, Store};
use wave::ram::Ram;
use wave::rom::Rom;
use wave::search::first_stop;

// One period of a triangle wave, and the stop byte.
pub const TRIANGLE: [u8; 17] = [
    0x90, 0xB0, 0xD0, 0xF0, 0xF0, 0xD0, 0xB0, 0x90, 0x10, 0x30, 0x50, 0x70, 0x70, 0x50, 0x30, 0x10,
    0xFF,
];

// Where the wave is loaded.
pub const START: u16 = 0x1200;

fn say_refusal(rt: &HostRuntime, call: &str, place: usize, refusal: Refusal) -> io::Result<()> {
    println!(rt; "was refused {call} at place {place}: {}", refusal.number())
}

// Writes the bytes from a place on, up to the first refusal.
pub fn load<M: Store>(memory: &mut M, from: u16, bytes: &[u8]) -> Result<(), Refusal> {
    for (byte, place) in bytes.iter().zip(usize::from(from)..) {
        memory.write(place, *byte)?;
    }
    Ok(())
}

// Whether the memory holds the bytes from a place on.
fn reads_back<M: Source>(memory: &M, from: u16, bytes: &[u8]) -> bool {
    bytes
        .iter()
        .zip(usize::from(from)..)
        .all(|(byte, place)| memory.read(place) == Ok(*byte))
}

// Loads a wave, reads it back and finds its stop byte.
fn show_wave<M: Store>(rt: &HostRuntime, memory: &mut M) -> io::Result<()> {
    let count = TRIANGLE.len();
    match load(memory, START, &TRIANGLE) {
        Ok(()) => println!(rt; "loaded a wave of {count} bytes at place {START}")?,
        Err(refusal) => say_refusal(rt, "a write", usize::from(START), refusal)?,
    }
    if reads_back(memory, START, &TRIANGLE) {
        println!(rt; "read the same wave back")?;
    } else {
        println!(rt; "read another wave back")?;
    }
    match first_stop(memory, usize::from(START)) {
        Some(place) => println!(rt; "found its stop byte at place {place}"),
        None => println!(rt; "found no stop byte"),
    }
}

// Tries a write and a read at a place.
fn show_place<M: Store>(rt: &HostRuntime, memory: &mut M, place: usize) -> io::Result<()> {
    match memory.write(place, 0) {
        Ok(()) => println!(rt; "wrote a byte at place {place}")?,
        Err(refusal) => say_refusal(rt, "a write", place, refusal)?,
    }
    match memory.read(place) {
        Ok(byte) => println!(rt; "read {byte} at place {place}"),
        Err(refusal) => say_refusal(rt, "a read", place, refusal),
    }
}

// A wave in a board of RAM and ROM.
pub fn show_board(rt: &HostRuntime) -> io::Result<()> {
    let mut ram = vec![in rt.alloc(); 0u8; 32_768]?;
    let rom = vec![in rt.alloc(); 0x80u8; 32_768]?;
    let mut board = Board {
        first: Ram::new(ram.as_mut_slice()),
        second: Rom::new(rom.as_slice()),
    };
    let size = board.size();
    println!(rt; "joined RAM and ROM to a board of {size} places")?;
    show_wave(rt, &mut board)?;
    show_place(rt, &mut board, 32_768)?;
    show_place(rt, &mut board, 65_536)
}

// A RAM beside a board of such a RAM with an empty ROM: they mean the same, so no accesses tell them apart.
fn ram_beside_board(one: &mut [u8], other: &mut [u8], accesses: &[Access]) -> bool
    ensures { one.old ≡ other.old → result ≡ true }
{
    let mut ram = Ram::new(one);
    let mut board = Board {
        first: Ram::new(other),
        second: Rom::new(&[]),
    };
    answer_alike(&mut ram, &mut board, accesses)
}

pub fn show_comparison(rt: &HostRuntime) -> io::Result<()> {
    let mut one = vec![in rt.alloc(); 0u8; 65_536]?;
    let mut other = vec![in rt.alloc(); 0u8; 65_536]?;
    let accesses = [
        Access::Read(0),
        Access::Write(40_000, 0xC0),
        Access::Read(40_000),
        Access::Write(65_536, 1),
        Access::Read(65_536),
    ];
    let count = accesses.len();
    if ram_beside_board(one.as_mut_slice(), other.as_mut_slice(), &accesses) {
        println!(rt;
            "a RAM, and a board of such a RAM with an empty ROM, answered {count} accesses alike"
        )
    } else {
        println!(rt; "a RAM, and a board of such a RAM with an empty ROM, can be told apart")
    }
}
