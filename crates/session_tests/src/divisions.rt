// Divisions of the eight voices, and drawn calls on a mix and the stems of each.
use crate::random::Random;
use crate::rig::{Row, check_call};
use calls::Call::Write;
use kind::Kind;
use register_log::header::Header;
use register_log::record::Record;
use session::call::Call::Chip;
use session::session::Session;
use session::station::Station;
use std::alloc::Global;
use std::process::Abort;
use std::test::Fail;
use voice::frame::Converter;
use wave::board::Board;
use wave::memory::Store;
use wave::ram::Ram;
use wave::rom::Rom;

// One group, two, one for each voice, and some with no voice.
const DIVISIONS: [&[u8]; 6] = [
    &[0xFF],
    &[0x0F, 0xF0],
    &[0xAA, 0x55],
    &[0x01, 0x02, 0x04, 0x08, 0x10, 0x20, 0x40, 0x80],
    &[0x00, 0xFF],
    &[0x81, 0x00, 0x3C, 0x42],
];

const HEADER: Header = Header {
    kind: Kind::Rf5c164,
    clock: 12_500_000,
};

const RECORDS: [Record<'static>; 6] = [
    Record::Register {
        address: 8,
        byte: 0x00,
    },
    Record::Wait { ticks: 4 },
    Record::Block {
        offset: 0x200,
        bytes: &[0xC0, 0x40, 0xFF],
    },
    Record::Window {
        offset: 0x300,
        byte: 0xC0,
    },
    Record::Register {
        address: 7,
        byte: 0x80,
    },
    Record::Wait { ticks: 9 },
];

// Each byte once in 256 places, from a loud one on, and so one stop byte.
fn samples(heap: Global, size: usize) -> Result<Vec<u8>, Fail> {
    let mut bytes = vec![in heap; 0u8; size]?;
    for (place, byte) in bytes.iter_mut().enumerate() {
        *byte = (place % 256) as u8 ^ 0xA5;
    }
    Ok(bytes)
}

// Switches all voices on, each with a start of its own.
fn set_up<M: Store, S: Row>(rt: &impl Abort, session: &mut Session<'_, '_, M, S>, groups: &[u8]) {
    for voice in 0..8u8 {
        for (address, byte) in [(7, voice | 0xC0), (0, voice | 0x90), (1, 0x37), (6, voice)] {
            check_call(rt, session, groups, Chip(Write(address, byte)));
        }
    }
    check_call(rt, session, groups, Chip(Write(8, 0)));
}

// Drawn calls, and all voices set up again now and then, since a reset stops them.
fn check_drawn<M: Store, S: Row>(
    rt: &impl Abort,
    session: &mut Session<'_, '_, M, S>,
    groups: &[u8],
) {
    let mut random = Random::new();
    let mut together = false;
    for index in 0..400u16 {
        if index % 100 == 0 {
            set_up(rt, session, groups);
        }
        check_call(rt, session, groups, random.call());
        together |= session
            .mix
            .frame
            .left
            .contributions
            .iter()
            .all(|level| *level != 0);
    }
    assert!(rt; together, "no tick in which all voices sound");
}

fn check_division(rt: &impl Abort, heap: Global, log: &[u8], groups: &[u8]) -> Result<(), Fail> {
    let mut memories = Vec::new(heap);
    for _ in groups {
        memories.push(samples(heap, 65_536)?)?;
    }
    let mut buffers = [[0; 16]; 8];
    let (kind, bits) = (Kind::Rf5c164, Converter::Bits16);
    let mut stems = Vec::new(heap);
    for ((group, memory), buffer) in groups.iter().zip(memories.iter_mut()).zip(&mut buffers) {
        let ram = Ram::new(memory.as_mut_slice());
        stems.push(Station::new(*group, kind, bits, ram, log, buffer))?;
    }
    let mut bytes = samples(heap, 65_536)?;
    let mut buffer = [0; 16];
    let ram = Ram::new(bytes.as_mut_slice());
    let mut session = Session {
        mix: Station::new(0xFF, kind, bits, ram, log, &mut buffer),
        stems: stems.as_mut_slice(),
    };
    check_drawn(rt, &mut session, groups);
    Ok(())
}

#[test]
fn over_ram(rt: HostRuntime) -> Result<(), Fail> {
    let mut buffer = [0; 64];
    let length = whole_log::record(HEADER, RECORDS.as_slice(), &mut buffer)?;
    let log = buffer.get(..length).unwrap_or(&[]);
    for groups in DIVISIONS {
        check_division(&rt, rt.alloc(), log, groups)?;
    }
    Ok(())
}

// Voices 1 to 4 and voices 5 to 8, each station over a memory of its own make.
fn check_halves<A: Store + Drop, B: Store + Drop, C: Store + Drop>(
    rt: &impl Abort,
    log: &[u8],
    memories: (A, B, C),
) {
    let (mix, low, high) = memories;
    let (kind, bits) = (Kind::Rf5c164, Converter::Bits10);
    let (mut mix_buffer, mut low_buffer, mut high_buffer) = ([0; 16], [0; 16], [0; 16]);
    let mut session = Session {
        mix: Station::new(0xFF, kind, bits, mix, log, &mut mix_buffer),
        stems: (
            Station::new(0x0F, kind, bits, low, log, &mut low_buffer),
            (
                Station::new(0xF0, kind, bits, high, log, &mut high_buffer),
                (),
            ),
        ),
    };
    check_drawn(rt, &mut session, &[0x0F, 0xF0]);
}

// Banks 8 to 15 take no writes.
#[test]
fn over_ram_and_rom(rt: HostRuntime) -> Result<(), Fail> {
    let mut buffer = [0; 64];
    let length = whole_log::record(HEADER, RECORDS.as_slice(), &mut buffer)?;
    let log = buffer.get(..length).unwrap_or(&[]);
    let mut whole = samples(rt.alloc(), 32_768)?;
    let mut first = samples(rt.alloc(), 16_384)?;
    let mut second = samples(rt.alloc(), 16_384)?;
    let mut beside = samples(rt.alloc(), 32_768)?;
    let rom = samples(rt.alloc(), 32_768)?;
    let half = samples(rt.alloc(), 16_384)?;
    let board = Board {
        first: Ram::new(whole.as_mut_slice()),
        second: Rom::new(rom.as_slice()),
    };
    let low = Board {
        first: Board {
            first: Ram::new(first.as_mut_slice()),
            second: Ram::new(second.as_mut_slice()),
        },
        second: Rom::new(rom.as_slice()),
    };
    let high = Board {
        first: Ram::new(beside.as_mut_slice()),
        second: Board {
            first: Rom::new(half.as_slice()),
            second: Rom::new(half.as_slice()),
        },
    };
    check_halves(&rt, log, (board, low, high));
    Ok(())
}
