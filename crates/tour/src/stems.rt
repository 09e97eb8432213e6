// The tune's mix and its stems, over memories of different makes.
use crate::tune::{ROM_WAVE, ROM_WAVE_PLACE};
use kind::Kind;
use player::player::Progress;
use session::call::{Answer, Call};
use session::groups::divides;
use session::session::Session;
use session::station::Station;
use std::io;
use trio::{HIGH, LOW, Totals, tick_over_rom};
use voice::frame::Converter;
use voice::stereo::Stereo;
use wave::board::Board;
use wave::memory::Store;
use wave::ram::Ram;
use wave::rom::Rom;

// More steps than the tune has records and ticks.
const STEPS: usize = 64;

fn say_totals(rt: &HostRuntime, when: &str, step: usize, totals: Totals) -> io::Result<()> {
    let Totals { mix, low, high } = totals;
    println!(rt;
        "{when} {step}: {} {} and {} {} sum to {} {}, and the mix has {} {}",
        low.left,
        low.right,
        high.left,
        high.right,
        i64::from(low.left) + i64::from(high.left),
        i64::from(low.right) + i64::from(high.right),
        mix.left,
        mix.right
    )
}

fn say_stop(rt: &HostRuntime, name: &str, answer: Option<Answer>) -> io::Result<()> {
    match answer {
        Some(Answer::Step(Ok(Progress::Ended(bit)))) => {
            println!(rt; "{name}: stopped at the end, bit {bit}")
        }
        Some(Answer::Step(Err(fault))) => {
            println!(rt;
                "{name}: stopped with fault {} at bit {}",
                fault.number(),
                fault.bit()
            )
        }
        _ => println!(rt; "{name}: not stopped"),
    }
}

// The totals in the frames of a mix and its two stems.
fn totals<A: Store, B: Store, C: Store>(
    session: &Session<'_, '_, A, (Station<'_, '_, B>, (Station<'_, '_, C>, ()))>,
) -> Totals {
    Totals {
        mix: session.mix.frame.totals(),
        low: session.stems.0.frame.totals(),
        high: session.stems.1.0.frame.totals(),
    }
}

// Steps of all players, until they stop.
fn play<A: Store, B: Store, C: Store>(
    rt: &HostRuntime,
    session: &mut Session<'_, '_, A, (Station<'_, '_, B>, (Station<'_, '_, C>, ()))>,
) -> io::Result<()> {
    for step in 1..=STEPS {
        session.try_calls(&[Call::Step]);
        match session.mix.answer {
            Some(Answer::Step(Ok(Progress::Ticked))) => {
                say_totals(rt, "step", step, totals(session))?;
            }
            Some(Answer::Step(Ok(Progress::Taken))) => {}
            _ => break,
        }
    }
    say_stop(rt, "the mix", session.mix.answer)?;
    say_stop(rt, "voices 1 to 4", session.stems.0.answer)?;
    say_stop(rt, "voices 5 to 8", session.stems.1.0.answer)
}

fn begin<'a, 'b, M: Store>(
    group: u8,
    memory: M,
    log: &'a [u8],
    buffer: &'b mut [u8],
) -> Station<'a, 'b, M> {
    Station::new(group, Kind::Rf5c68a, Converter::Bits16, memory, log, buffer)
}

// A mix over a board of RAM and ROM, voices 1 to 4 over such a board whose RAM is a board of two, and voices 5 to 8 over
// such a board whose ROM is a board of two.
fn show_play(rt: &HostRuntime, log: &[u8], rom: &[u8]) -> io::Result<()> {
    let mut whole = vec![in rt.alloc(); 0u8; 32_768]?;
    let mut first = vec![in rt.alloc(); 0u8; 16_384]?;
    let mut second = vec![in rt.alloc(); 0u8; 16_384]?;
    let mut beside = vec![in rt.alloc(); 0u8; 32_768]?;
    let (start, rest) = rom.split_at(rom.len() / 2);
    let mix = Board {
        first: Ram::new(whole.as_mut_slice()),
        second: Rom::new(rom),
    };
    let halves = Board {
        first: Ram::new(first.as_mut_slice()),
        second: Ram::new(second.as_mut_slice()),
    };
    let low = Board {
        first: halves,
        second: Rom::new(rom),
    };
    let high = Board {
        first: Ram::new(beside.as_mut_slice()),
        second: Board {
            first: Rom::new(start),
            second: Rom::new(rest),
        },
    };
    let mut session = Session {
        mix: begin(0xFF, mix, log, &mut []),
        stems: (
            begin(LOW, low, log, &mut []),
            (begin(HIGH, high, log, &mut []), ()),
        ),
    };
    play(rt, &mut session)
}

// A tick after so many steps, from `trio`, which promises the sum.
fn show_tick(rt: &HostRuntime, log: &[u8], rom: &[u8]) -> io::Result<()> {
    match tick_over_rom(Kind::Rf5c68a, log, rom, &[Call::Step; 20]) {
        Some(totals) => say_totals(rt, "a tick after step", 20, totals),
        None => println!(rt; "was refused a tick"),
    }
}

pub fn show_stems(rt: &HostRuntime, log: &[u8]) -> io::Result<()> {
    let mut rom = vec![in rt.alloc(); 0u8; 32_768]?;
    for (place, byte) in (ROM_WAVE_PLACE..).zip(ROM_WAVE) {
        if let Some(cell) = rom.get_mut(place) {
            *cell = byte;
        }
    }
    if divides(&[LOW, HIGH]) {
        println!(rt; "divided the eight voices into 1 to 4 and 5 to 8")?;
    }
    show_play(rt, log, rom.as_slice())?;
    show_tick(rt, log, rom.as_slice())
}
