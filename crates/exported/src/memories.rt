// The wave memory under a chip: RAM, and then ROM, over lent bytes.
ghost use Rattle.std.specs.Prelude.{◌≡◌};
ghost use Rattle.exported.specs.States.{registers_of};

use crate::states::ChipState;
use chip::chip::Chip;
use wave::board::Board;
use wave::ram::Ram;
use wave::rom::Rom;

// A chip that goes on over a memory that can be written.
pub(crate) fn resume<'a, 'b>(
    chip: &ChipState,
    ram: &'a mut [u8],
    rom: &'b [u8],
) -> Chip<Board<Ram<'a>, Rom<'b>>>
    ensures registers { result.registers ≡ registers_of chip.now }
    ensures ram { (result.memory.first.lent.now ≡ ram.old) × (result.memory.first.lent.ghost_name ≡ ram.entry.ghost_name) }
    ensures rom { result.memory.second.lent.now ≡ rom.now }
{
    let board = Board {
        first: Ram::new(ram),
        second: Rom::new(rom),
    };
    Chip::resume(board, chip.registers())
}

// A chip that goes on over a memory that is only read.
pub(crate) fn resume_reading<'a, 'b>(
    chip: &ChipState,
    ram: &'a [u8],
    rom: &'b [u8],
) -> Chip<Board<Rom<'a>, Rom<'b>>>
    ensures registers { result.registers ≡ registers_of chip.now }
    ensures ram { result.memory.first.lent.now ≡ ram.now }
    ensures rom { result.memory.second.lent.now ≡ rom.now }
{
    let board = Board {
        first: Rom::new(ram),
        second: Rom::new(rom),
    };
    Chip::resume(board, chip.registers())
}
