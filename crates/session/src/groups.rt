// Groups of voices.
ghost use Rattle.std.specs.Prelude.{◌≡◌, ◌↔◌, IsTrue};
ghost use Rattle.session.specs.Groups.{holds, holders, Divides};

// Whether each of the eight voices is in exactly one of the groups. Bit 0 of a group is voice 1.
pub fn divides(groups: &[u8]) -> bool
    ensures { IsTrue result ↔ Divides groups.now }
{
    for k in 0..8 {
        if holders(groups, k) != 1 {
            return false;
        }
    }
    true
}

// How many of the groups hold voice k, from 0.
fn holders(groups: &[u8], k: usize) -> usize
    ensures { result ≡ holders groups.now k }
{
    groups.iter().filter(|group| holds(**group, k)).count()
}

#[tactic(auto, using(crate::proofs::Bits::bit_past))]
fn holds(group: u8, k: usize) -> bool
    ensures { result ≡ holds group k }
{
    k < 8 && (group >> k) % 2 == 1
}
