// What voices sound like: contributions, totals, words, stop bytes.
use crate::rig::Seen::{Byte, Done, Totals};
use crate::rig::{RF5C68A, RF5C164, SILENT, check_calls, next_frame, write_all};
use calls::Call::{Read, Tick, Write};
use chip::chip::Chip;
use chip::registers::Setup;
use std::process::Abort;
use std::test::Fail;
use voice::frame::Converter;
use voice::voice::Contribution;
use wave::memory::Store;
use wave::ram::Ram;

#[test]
fn one_voice(rt: HostRuntime) -> Result<(), Fail> {
    let mut bytes = [0xC0; 65_536];
    let ram = Ram::new(&mut bytes);
    let mut chip = Chip::new(ram, RF5C68A);
    write_all(&mut chip, &[(7, 0xC2), (0, 128), (1, 0x12), (8, 0xFB)])?;
    let frame = next_frame(&mut chip)?;
    assert_eq!(rt; frame.left.contributions, [0, 0, 512, 0, 0, 0, 0, 0]);
    assert_eq!(rt; frame.right.contributions, [0, 0, 256, 0, 0, 0, 0, 0]);
    assert_eq!(rt; (frame.left.total, frame.left.word), (512, 512));
    assert_eq!(rt; (frame.right.total, frame.right.word), (256, 256));
    let mut heard = SILENT;
    heard[2] = Contribution {
        left: 512,
        right: 256,
    };
    assert_eq!(rt; chip.contributions(), heard);
    Ok(())
}

// Voices 1 to 3 at byte 7FH and 4 to 6 at byte FEH, as loud as they can be.
fn set_up_loud<M: Store>(chip: &mut Chip<M>) -> Result<(), Fail> {
    write_all(chip, &[(0x1000, 0x7F), (0x1100, 0xFE)])?;
    for voice in 0..6u8 {
        let start = if voice < 3 { 0 } else { 1 };
        write_all(chip, &[(7, voice | 0xC0), (0, 255), (1, 0xFF), (6, start)])?;
    }
    Ok(())
}

#[test]
fn totals_of_loud_voices(rt: HostRuntime) -> Result<(), Fail> {
    let mut bytes = [0; 65_536];
    let ram = Ram::new(&mut bytes);
    let mut chip = Chip::new(ram, RF5C68A);
    set_up_loud(&mut chip)?;
    let totals = [
        (0xFE, -15_180),
        (0xFC, -30_360),
        (0xF8, -45_540),
        (0xF0, -30_480),
        (0xC7, 45_180),
        (0xC0, -360),
        (0xFF, 0),
    ];
    for (channel, total) in totals {
        let calls = [
            (Write(8, channel), Ok(Done)),
            (Tick, Ok(Totals(total, total))),
        ];
        check_calls(&rt, &mut chip, &calls);
    }
    Ok(())
}

// The words of both sides at some channel bytes.
fn check_words<M: Store>(
    rt: &impl Abort,
    chip: &mut Chip<M>,
    words: [(u8, u16); 5],
) -> Result<(), Fail> {
    set_up_loud(chip)?;
    for (channel, word) in words {
        write_all(chip, &[(8, channel)])?;
        let frame = next_frame(chip)?;
        assert_eq!(rt; (frame.left.word, frame.right.word), (word, word));
    }
    Ok(())
}

// Two, three and four loud voices, three that are high, and none.
const WORDS: [(Converter, [(u8, u16); 5]); 3] = [
    (
        Converter::Bits16,
        [
            (0xFC, 0x8968),
            (0xF8, 0x8000),
            (0xF0, 0x88F0),
            (0xC7, 0x7FFF),
            (0xFF, 0),
        ],
    ),
    (
        Converter::Bits10,
        [(0xFC, 37), (0xF8, 0), (0xF0, 35), (0xC7, 1023), (0xFF, 512)],
    ),
    (
        Converter::Bits8,
        [(0xFC, 9), (0xF8, 0), (0xF0, 8), (0xC7, 255), (0xFF, 128)],
    ),
];

#[test]
fn words_of_loud_voices(rt: HostRuntime) -> Result<(), Fail> {
    let mut bytes = [0; 65_536];
    for (converter, words) in WORDS {
        let ram = Ram::new(&mut bytes);
        let setup = Setup {
            converter,
            ..RF5C164
        };
        check_words(&rt, &mut Chip::new(ram, setup), words)?;
    }
    Ok(())
}

// FFH at 0000H, then a loop of 0203H and 0204H that ends with FFH at 0205H.
#[test]
fn stop_bytes(rt: HostRuntime) -> Result<(), Fail> {
    let mut bytes = [0; 65_536];
    let ram = Ram::new(&mut bytes);
    let mut chip = Chip::new(ram, RF5C164);
    let samples = [
        (0x1000, 0xFF),
        (0x1203, 0xC0),
        (0x1204, 0x40),
        (0x1205, 0xFF),
    ];
    write_all(&mut chip, &samples)?;
    let settings = [(0, 128), (1, 0x12), (3, 0x08), (4, 0x03), (5, 0x02)];
    write_all(&mut chip, &settings)?;
    write_all(&mut chip, &[(8, 0xFE), (7, 0x80)])?;
    for _ in 0..2u8 {
        let calls = [
            (Tick, Ok(Totals(512, 256))),
            (Read(0x10), Ok(Byte(0x03))),
            (Read(0x11), Ok(Byte(0x02))),
            (Tick, Ok(Totals(-512, -256))),
            (Read(0x10), Ok(Byte(0x04))),
        ];
        check_calls(&rt, &mut chip, &calls);
    }
    Ok(())
}

#[test]
fn stop_byte_at_the_loop_start(rt: HostRuntime) -> Result<(), Fail> {
    let mut bytes = [0xFF; 65_536];
    let ram = Ram::new(&mut bytes);
    let mut chip = Chip::new(ram, RF5C164);
    let settings = [
        (0, 128),
        (1, 0x12),
        (3, 0x08),
        (5, 0x20),
        (8, 0xFE),
        (7, 0x80),
    ];
    write_all(&mut chip, &settings)?;
    let calls = [
        (Tick, Ok(Totals(1_016, 508))),
        (Read(0x11), Ok(Byte(0x20))),
        (Tick, Ok(Totals(1_016, 508))),
        (Read(0x10), Ok(Byte(0))),
        (Read(0x11), Ok(Byte(0x20))),
    ];
    check_calls(&rt, &mut chip, &calls);
    Ok(())
}
