// A memory of a make of its own: anyone can add one who proves the contracts of the two traits.
ghost use Rattle.std.specs.Prelude.{true, []};

use wave::memory::{Refusal, Source, Store};

// The memory of one chip, over bytes that it owns. Every place takes writes.
#[derive(Drop)]
pub struct Bank {
    pub bytes: [u8; 65_536],
}

impl Source for Bank {
    ghost bytes = { λ s. s.bytes };

    fn size(&self) -> usize {
        self.bytes.len()
    }

    fn read(&self, place: usize) -> Result<u8, Refusal> {
        self.bytes.get(place).copied().ok_or(Refusal::PastEnd)
    }
}

impl Store for Bank {
    ghost takes = { λ _ _. true };

    ghost borrows = { λ _. [] };

    #[tactic(auto, using(wave::proofs::Writes::store_inside, wave::proofs::Writes::store_past))]
    fn write(&mut self, place: usize, byte: u8) -> Result<(), Refusal> {
        if place < self.bytes.len() {
            self.bytes[place] = byte;
            Ok(())
        } else {
            Err(Refusal::PastEnd)
        }
    }
}

#[cfg(test)]
mod tests {
    use super::*;
    use crate::cases::{PAST_END, WRITTEN, byte, check_cases};
    use wave::access::Access::{Read, Write};
    use wave::search::first_stop;

    #[test]
    fn of_its_own_bytes(rt: HostRuntime) {
        let mut bank = Bank {
            bytes: [0x40; 65_536],
        };
        assert_eq!(rt; bank.size(), 65_536);
        check_cases(
            &rt,
            &mut bank,
            &[
                (Read(65_535), byte(0x40)),
                (Write(65_535, 0xFF), WRITTEN),
                (Read(65_535), byte(0xFF)),
                (Write(65_536, 1), PAST_END),
                (Read(65_536), PAST_END),
            ],
        );
        assert_eq!(rt; first_stop(&bank, 0), Some(65_535));
    }
}
