// Whole outputs.
use crate::logs::{EIGHT_VOICES, ONE_VOICE};
use render::stem::run;
use std::test::Fail;

// Inputs, and the whole text that is printed for each.
const OUTPUTS: [(&'static [u8], &'static [u8]); 22] = [
    (&ONE_VOICE, b"512 256\n512 256\nend\n"),
    (&EIGHT_VOICES, b"-121440 -121440\nend\n"),
    // no byte for the mute set, no log, and a log of three bytes
    (&[], b"fault 7 log 0 0\n"),
    (&[0x00], b"fault 7 log 0 0\n"),
    (&[0x00, 0x10, 0x98, 0x96], b"fault 7 log 0 0\n"),
    // headers: a wrong version, a spare bit, no clock, a clock above the kind's top
    (&[0x00, 0x20, 0x98, 0x96, 0x80, 0x00], b"fault 8 log 0 0\n"),
    (&[0x00, 0x11, 0x98, 0x96, 0x80, 0x00], b"fault 8 log 0 0\n"),
    (&[0x00, 0x10, 0x00, 0x00, 0x00, 0x00], b"fault 8 log 0 0\n"),
    (&[0x00, 0x10, 0x98, 0x96, 0x81, 0x00], b"fault 8 log 0 0\n"),
    (&[0x00, 0x18, 0xBF, 0x0A, 0x41, 0x00], b"fault 8 log 0 0\n"),
    // both kinds, and nothing to play
    (&[0x00, 0x10, 0x98, 0x96, 0x80, 0x00], b"end\n"),
    (&[0x00, 0x18, 0xBF, 0x0A, 0x40, 0x00], b"end\n"),
    // the log ends within a tag, and within a record
    (&[0x00, 0x10, 0x98, 0x96, 0x80], b"fault 9 log 32 0\n"),
    (&[0x00, 0x10, 0x98, 0x96, 0x80, 0x60], b"fault 9 log 32 0\n"),
    // no such tag
    (
        &[0x00, 0x10, 0x98, 0x96, 0x80, 0xA0],
        b"fault 10 log 32 0\n",
    ),
    // a wait of no ticks, a register 9, a block past the window
    (
        &[0x00, 0x10, 0x98, 0x96, 0x80, 0x60, 0x00, 0x00],
        b"fault 11 log 32 0\n",
    ),
    (
        &[0x00, 0x10, 0x98, 0x96, 0x80, 0x32, 0x00, 0x00],
        b"fault 11 log 32 0\n",
    ),
    (
        &[0x00, 0x10, 0x98, 0x96, 0x80, 0x9F, 0xFE, 0x00, 0x20],
        b"fault 11 log 32 0\n",
    ),
    // a set bit and a byte after the end
    (
        &[0x00, 0x10, 0x98, 0x96, 0x80, 0x01],
        b"fault 12 log 32 0\n",
    ),
    (
        &[0x00, 0x10, 0x98, 0x96, 0x80, 0x00, 0x00],
        b"fault 12 log 32 0\n",
    ),
    // faults after ticks
    (
        &[0x00, 0x10, 0x98, 0x96, 0x80, 0x60, 0x00, 0x44],
        b"0 0\n0 0\nfault 9 log 51 0\n",
    ),
    (
        &[0x00, 0x10, 0x98, 0x96, 0x80, 0x60, 0x00, 0x54],
        b"0 0\n0 0\nfault 10 log 51 0\n",
    ),
];

#[test]
fn outputs(rt: HostRuntime) -> Result<(), Fail> {
    for (input, text) in OUTPUTS {
        let mut output = Vec::new(rt.alloc());
        run(rt.alloc(), input, &mut output)?;
        assert_eq!(rt; output.as_slice(), text);
    }
    Ok(())
}

// Mute sets for the eight voices, and what is left.
const MUTED: [(u8, &'static [u8]); 4] = [
    (0x00, b"-121440 -121440\nend\n"),
    (0xFE, b"-15180 -15180\nend\n"),
    (0x81, b"-91080 -91080\nend\n"),
    (0xFF, b"0 0\nend\n"),
];

#[test]
fn muted(rt: HostRuntime) -> Result<(), Fail> {
    for (mutes, text) in MUTED {
        let mut input = EIGHT_VOICES;
        input[0] = mutes;
        let mut output = Vec::new(rt.alloc());
        run(rt.alloc(), input.as_slice(), &mut output)?;
        assert_eq!(rt; output.as_slice(), text);
    }
    Ok(())
}

// The longest log that is looked at, and the shortest that is not; only the first is refused for its header.
#[test]
fn lengths(rt: HostRuntime) -> Result<(), Fail> {
    let inputs = [
        (32_769, b"fault 8 log 0 0\n".as_slice()),
        (32_770, b"fault 13 program 0 0\n".as_slice()),
        (100_000, b"fault 13 program 0 0\n".as_slice()),
    ];
    for (length, text) in inputs {
        let input = vec![in rt.alloc(); 0u8; length]?;
        let mut output = Vec::new(rt.alloc());
        run(rt.alloc(), input.as_slice(), &mut output)?;
        assert_eq!(rt; output.as_slice(), text);
    }
    Ok(())
}
