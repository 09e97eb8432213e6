// Drawn numbers and calls, the same ones from the same seed.
use crate::rig::{RESET, TELL, TICK};
use calls::Call::{Inspect, Read, Write};
use session::call::Call;
use session::call::Call::{Chip, Step};

#[derive(Drop)]
pub struct Random {
    // never 0
    state: u32,
}

impl Random {
    pub fn new() -> Random {
        Random { state: 0x2545_F491 }
    }

    // The next four bytes of an xorshift generator.
    fn bytes(&mut self) -> [u8; 4] {
        self.state ^= self.state << 13;
        self.state ^= self.state >> 17;
        self.state ^= self.state << 5;
        self.state.to_be_bytes()
    }

    // Two calls in five are ticks or steps. A reset is rare, so that voices come to sound.
    pub fn call(&mut self) -> Call {
        let [sort, high, low, byte] = self.bytes();
        match sort {
            0..=1 => RESET,
            2..=89 => TICK,
            90..=109 => Step,
            110..=129 => Chip(Read(0x10 | u16::from(low % 16))),
            130..=134 => Chip(Read(0x1000 | u16::from(low))),
            135..=144 => Chip(Inspect(u16::from_be_bytes([high % 17, low]))),
            145..=154 => TELL,
            155..=159 => Chip(Read(u16::from_be_bytes([high, low]))),
            160..=164 => Chip(Write(u16::from_be_bytes([high, low]), byte)),
            165..=174 => Chip(Write(0x1000 | u16::from(low), byte)),
            175..=184 => Chip(Write(8, byte)),
            185..=199 => Chip(Write(7, byte | 0x80)),
            200..=204 => Chip(Write(7, byte)),
            205.. => Chip(Write(u16::from(low % 7), byte)),
        }
    }
}
