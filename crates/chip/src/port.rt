// The host port: where each of its addresses leads.
ghost use Rattle.std.specs.Prelude.{◌≡◌};
ghost use Rattle.chip.specs.Port.{target};

use crate::refusal::Refusal;

// The last register that can be written.
const LAST_REGISTER: u16 = 8;

// The position registers: the first, and the last.
const POSITIONS_START: u16 = 0x10;

const POSITIONS_LAST: u16 = 0x1F;

// The address at which the window starts, and the last of all.
pub const WINDOW_START: u16 = 0x1000;

const LAST_ADDRESS: u16 = 0x1FFF;

// Where a host address leads.
#[derive(Clone, Copy, PartialEq, Eq, Debug)]
pub(crate) enum Target {
    // one of the registers 0 to 8, which are written
    Register(u16),
    // a byte of the position registers, which are read
    Position(u16),
    // an offset in the window
    Window(u16),
}

impl TryFrom<u16> for Target {
    type Error = Refusal;

    ghost try_from_gives = { λ address r. r ≡ target address };

    fn try_from(address: u16) -> Result<Target, Refusal> {
        if address > LAST_ADDRESS {
            return Err(Refusal::BeyondPort);
        }
        // before the match: a block is written here byte by byte, and a match tests the low addresses first
        if address >= WINDOW_START {
            return Ok(Target::Window(address - WINDOW_START));
        }
        match address {
            ..=LAST_REGISTER => Ok(Target::Register(address)),
            POSITIONS_START..=POSITIONS_LAST => Ok(Target::Position(address - POSITIONS_START)),
            _ => Err(Refusal::NothingThere),
        }
    }
}
