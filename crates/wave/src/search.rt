// The stop search: where a sample that is being read would meet its stop byte.
ghost use Rattle.std.specs.Prelude.{◌≡◌};
ghost use Rattle.wave.specs.Search.{FirstStop, first_stop};

use crate::memory::{Source, byte_at};

// A voice that reads this byte goes on at its loop start.
pub const STOP: u8 = 0xFF;

// The first place from `from` on that holds the stop byte, or none.
#[tactic(auto, using(crate::proofs::Stops::is_first_stop))]
pub fn first_stop<S: Source>(memory: &S, from: usize) -> Option<usize>
    ensures exact { result ≡ first_stop (S.bytes memory.now) from }
    ensures law { FirstStop (S.bytes memory.now) from result }
{
    find_stop(memory, from)
}

// apart, so that the equality can be proved of what the law says
fn find_stop<S: Source>(memory: &S, from: usize) -> Option<usize>
    ensures { FirstStop (S.bytes memory.now) from result }
{
    (from..memory.size()).find(|place| byte_at(memory, *place) == STOP)
}
