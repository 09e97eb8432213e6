// A short tune: two voices that loop, a pause, another bank, and a restart.
use kind::Kind;
use register_log::header::Header;
use register_log::record::Record;

pub const HEADER: Header = Header {
    kind: Kind::Rf5c68a,
    clock: 10_000_000,
};

fn register(address: u8, byte: u8) -> Record<'static> {
    Record::Register { address, byte }
}

// Voice 1 plays a wave that the log writes to bank 2, voice 5 one of the ROM, in bank 9; each has four samples and a stop
// byte. A step of 2,048 is one place a tick.
pub fn records() -> [Record<'static>; 26] {
    [
        register(7, 0x02),
        Record::Block {
            offset: 0x200,
            bytes: &[0xC0, 0xE0, 0x40, 0x60],
        },
        Record::Window {
            offset: 0x204,
            byte: 0xFF,
        },
        // voice 1
        register(7, 0x40),
        register(0, 128),
        register(1, 0x12),
        register(3, 0x08),
        register(5, 0x22),
        register(6, 0x22),
        // voice 5
        register(7, 0x44),
        register(0, 64),
        register(1, 0x41),
        register(3, 0x08),
        register(5, 0x92),
        register(6, 0x92),
        // both on, and round their loops
        register(8, 0xEE),
        register(7, 0x80),
        Record::Wait { ticks: 6 },
        // a pause, and another wave for voice 1 meanwhile
        register(7, 0x03),
        Record::Wait { ticks: 2 },
        Record::Block {
            offset: 0x400,
            bytes: &[0x90, 0xA0, 0xFF],
        },
        register(7, 0x40),
        register(5, 0x34),
        register(6, 0x34),
        // a restart
        register(7, 0x80),
        Record::Wait { ticks: 4 },
    ]
}

// Where voice 5's wave stands in the ROM, which is behind 32,768 bytes of RAM.
pub const ROM_WAVE_PLACE: usize = 0x9200 - 0x8000;

pub const ROM_WAVE: [u8; 5] = [0xFE, 0x01, 0x81, 0x7E, 0xFF];
