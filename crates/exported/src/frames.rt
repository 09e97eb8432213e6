// What a tick sounds like, as C sees it.
ghost use Rattle.std.specs.Prelude.{◌≡◌};
ghost use Rattle.exported.specs.Frames.{side_of, frame_of, totals_of, words_of};

use voice::frame::{Frame as VoiceFrame, Side as VoiceSide};

#[repr(C)]
#[derive(Clone, Copy, PartialEq, Eq, Debug, Default)]
pub struct Totals {
    pub left: i32,
    pub right: i32,
}

#[repr(C)]
#[derive(Clone, Copy, PartialEq, Eq, Debug, Default)]
pub struct Words {
    pub left: u16,
    pub right: u16,
}

// One side of a frame: what each voice contributed, their sum, and its word.
#[repr(C)]
#[derive(Clone, Copy, PartialEq, Eq, Debug, Default)]
pub struct Side {
    pub contributions: [i16; 8],
    pub total: i32,
    pub word: u16,
}

#[repr(C)]
#[derive(Clone, Copy, PartialEq, Eq, Debug, Default)]
pub struct Frame {
    pub left: Side,
    pub right: Side,
}

impl Side {
    fn new(side: VoiceSide) -> Side
        ensures { result ≡ side_of side }
    {
        let VoiceSide {
            contributions,
            total,
            word,
        } = side;
        Side {
            contributions,
            total,
            word,
        }
    }
}

impl Frame {
    pub(crate) fn new(frame: VoiceFrame) -> Frame
        ensures { result ≡ frame_of frame }
    {
        Frame {
            left: Side::new(frame.left),
            right: Side::new(frame.right),
        }
    }
}

impl Totals {
    pub(crate) fn new(frame: &VoiceFrame) -> Totals
        ensures { result ≡ totals_of frame.now }
    {
        Totals {
            left: frame.left.total,
            right: frame.right.total,
        }
    }
}

impl Words {
    pub(crate) fn new(frame: &VoiceFrame) -> Words
        ensures { result ≡ words_of frame.now }
    {
        Words {
            left: frame.left.word,
            right: frame.right.word,
        }
    }
}
