// A mix and two stems, each over a memory of another make.
#![tactic(auto)]

ghost use Rattle.std.specs.Prelude.{◌≡◌, [], ◌∷◌, ◌++◌};
ghost use Rattle.wave.specs.Means.{means};
ghost use Rattle.wave.specs.Lent.{rom as rom-of};
ghost use Rattle.wave.specs.Board.{board};
ghost use Rattle.session.specs.Law.{Law};
ghost use Rattle.trio.specs.Trio.{groups, mix, stems, zeroed, tick, ticked, AddUp};

use kind::Kind;
use session::call::{Answer, Call};
use session::session::Session;
use session::station::Station;
use voice::frame::Converter;
use voice::stereo::Stereo;
use wave::board::Board;
use wave::memory::Store;
use wave::ram::Ram;
use wave::rom::Rom;

// Voices 1 to 4, and voices 5 to 8.
pub const LOW: u8 = 0x0F;

pub const HIGH: u8 = 0xF0;

// The totals of one tick.
#[derive(Clone, Copy, PartialEq, Eq, Debug)]
pub struct Totals {
    pub mix: Stereo<i32>,
    pub low: Stereo<i32>,
    pub high: Stereo<i32>,
}

// The totals of a tick after some calls, or none if it is refused.
fn tick_after<A: Store + Drop, B: Store + Drop, C: Store + Drop>(
    memories: (A, B, C),
    kind: Kind,
    log: &[u8],
    calls: &[Call],
) -> Option<Totals>
    ensures { result
        ≡ ticked (means A.bytes A.takes memories.0) (means B.bytes B.takes memories.1)
        (means C.bytes C.takes memories.2) kind log.now calls.now }
{
    let (mix, low, high) = memories;
    let mut mix_buffer = [0; 16];
    let mut low_buffer = [0; 16];
    let mut high_buffer = [0; 16];
    let mut session = Session {
        mix: Station::new(0xFF, kind, Converter::Bits16, mix, log, &mut mix_buffer),
        stems: (
            Station::new(LOW, kind, Converter::Bits10, low, log, &mut low_buffer),
            (
                Station::new(HIGH, kind, Converter::Bits8, high, log, &mut high_buffer),
                (),
            ),
        ),
    };
    session.try_calls(calls);
    session.try_call(Call::Chip(calls::Call::Tick));
    match session.mix.answer {
        Some(Answer::Chip(Ok(None))) => Some(Totals {
            mix: session.mix.frame.totals(),
            low: session.stems.0.frame.totals(),
            high: session.stems.1.0.frame.totals(),
        }),
        _ => None,
    }
}

// That tick of a mix over a RAM, of voices 1 to 4 over a board of two RAMs, and of voices 5 to 8 over a board of a RAM and
// a ROM of no bytes. All RAM is zero at first.
pub fn tick_over_ram(kind: Kind, log: &[u8], calls: &[Call]) -> Option<Totals>
    ensures adds { AddUp result }
    ensures rules { result ≡ ticked (zeroed 65536) (zeroed 65536) (zeroed 65536) kind log.now calls.now }
    ensures law { Law groups (calls.now ++ tick ∷ []) (mix (zeroed 65536) kind log.now) (stems (zeroed 65536) kind log.now) }
{
    let mut whole = [0; 65_536];
    let mut first = [0; 32_768];
    let mut second = [0; 32_768];
    let mut beside = [0; 65_536];
    let halves = Board {
        first: Ram::new(&mut first),
        second: Ram::new(&mut second),
    };
    let with_rom = Board {
        first: Ram::new(&mut beside),
        second: Rom::new(&[]),
    };
    tick_after((Ram::new(&mut whole), halves, with_rom), kind, log, calls)
}

// That tick of a mix over a board of a RAM of 32,768 zeros and a ROM, of voices 1 to 4 over such a board whose RAM is a
// board of two, and of voices 5 to 8 over such a board whose ROM is a board of two.
pub fn tick_over_rom(kind: Kind, log: &[u8], rom: &[u8], calls: &[Call]) -> Option<Totals>
    ensures adds { AddUp result }
    ensures rules { let m = board (zeroed 32768) (rom-of rom.now) in
        result ≡ ticked m m m kind log.now calls.now }
    ensures law { let m = board (zeroed 32768) (rom-of rom.now) in
        Law groups (calls.now ++ tick ∷ []) (mix m kind log.now) (stems m kind log.now) }
{
    let mut whole = [0; 32_768];
    let mut first = [0; 16_384];
    let mut second = [0; 16_384];
    let mut beside = [0; 32_768];
    let (start, rest) = rom.split_at(rom.len() / 2);
    let board = Board {
        first: Ram::new(&mut whole),
        second: Rom::new(rom),
    };
    let low = Board {
        first: Board {
            first: Ram::new(&mut first),
            second: Ram::new(&mut second),
        },
        second: Rom::new(rom),
    };
    let high = Board {
        first: Ram::new(&mut beside),
        second: Board {
            first: Rom::new(start),
            second: Rom::new(rest),
        },
    };
    tick_after((board, low, high), kind, log, calls)
}
