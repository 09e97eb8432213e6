// The first clip of a list of totals: where a sound was first limited.
ghost use Rattle.std.specs.Prelude.{◌≡◌};
ghost use Rattle.voice.specs.Clip.{clips, first_clip, FirstClip};

use crate::frame::{HIGHEST, LOWEST};
use crate::stereo::{SideName, Stereo};

// The first total that the limiter changes, by its pair and its side, or none. In a pair the left one is first.
pub fn first_clip(totals: &[Stereo<i32>]) -> Option<(usize, SideName)>
    ensures exact { result ≡ first_clip totals.now }
    ensures law { FirstClip totals.now result }
{
    // the label leaves both loops with both indices
    'pairs: {
        for (pair, both) in totals.iter().enumerate() {
            for side in [SideName::Left, SideName::Right] {
                if clips(both.of_side(side)) {
                    break 'pairs Some((pair, side));
                }
            }
        }
        None
    }
}

fn clips(total: i32) -> bool
    ensures { result ≡ clips total }
{
    !(LOWEST..=HIGHEST).contains(&total)
}

#[cfg(test)]
mod tests {
    use super::*;

    #[test]
    fn right_of_the_second_pair(rt: HostRuntime) {
        let totals = [(-32_768, 32_767), (0, 32_768), (-32_769, 0)];
        let found = first_clip(&totals.map(|(left, right)| Stereo { left, right }));
        assert_eq!(rt; found, Some((1, SideName::Right)));
    }
}
