// A playback, piece by piece.
use crate::logs::ONE_VOICE;
use chip::chip::Chip;
use chip::registers::Setup;
use kind::Kind;
use render::last::Last;
use render::playback::{Piece, Playback};
use std::test::Fail;
use voice::frame::Converter;
use wave::ram::Ram;

const SETUP: Setup = Setup {
    kind: Kind::Rf5c68a,
    converter: Converter::Bits8,
    mutes: 0,
};

// Buffers of so many bytes, one after another, and the piece that each gets: its length, and whether it has the last line.
const PIECES: [[(usize, usize, bool); 4]; 5] = [
    [(0, 0, false); 4],
    [(23, 0, false); 4],
    [(24, 8, false), (24, 8, false), (24, 0, true), (24, 0, true)],
    [(40, 16, true), (40, 0, true), (40, 0, true), (40, 0, true)],
    // once the player has stopped, no room is needed
    [(40, 16, true), (23, 0, true), (0, 0, true), (40, 0, true)],
];

#[test]
fn pieces(rt: HostRuntime) -> Result<(), Fail> {
    for pieces in PIECES {
        let mut bytes = [0; 65_536];
        let chip = Chip::new(Ram::new(&mut bytes), SETUP);
        let mut playback = Playback::new(chip, &ONE_VOICE[1..]);
        for (size, length, ended) in pieces {
            let mut buffer = vec![in rt.alloc(); 0u8; size]?;
            let last = if ended { Some(Last::End) } else { None };
            assert_eq!(rt;
                playback.fill(buffer.as_mut_slice()),
                Piece { length, last }
            );
        }
    }
    Ok(())
}
