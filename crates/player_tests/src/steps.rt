// What each step answers, and what it changes.
use crate::rig::{
    Answer, RF5C68A, RF5C164, SILENT, Seen, TAKEN, UNFILLED, block, check_steps, recorded,
    register, step, totals, wait, window,
};
use chip::chip::Chip;
use kind::Kind;
use player::player::{Player, Progress};
use register_log::record::Record;
use std::process::Abort;
use std::test::Fail;
use voice::voice::Contribution;
use wave::memory::Store;
use wave::ram::Ram;

// Voice 1 goes one place a tick from 0100H on, through bytes C0H, 40H and A0H; the last wait starts at bit 212.
fn sound() -> [Record<'static>; 10] {
    [
        block(0x100, &[0xC0, 0x40, 0xA0]),
        register(0, 128),
        register(1, 0x12),
        register(3, 0x08),
        register(6, 0x01),
        register(8, 0xFE),
        register(7, 0x80),
        wait(2),
        register(1, 0x21),
        wait(1),
    ]
}

const ENDED: Answer = Ok(Seen::Ended(231));

#[test]
fn each_step(rt: HostRuntime) -> Result<(), Fail> {
    let mut bytes = [0; 65_536];
    let log = recorded(rt.alloc(), Kind::Rf5c164, &sound())?;
    let mut chip = Chip::new(Ram::new(&mut bytes), RF5C164);
    let mut player = Player::new(log.as_slice());
    check_steps(&rt, &mut player, &mut chip, &[TAKEN; 9]);
    let answers = [
        totals(512, 256),
        totals(-512, -256),
        TAKEN,
        TAKEN,
        totals(128, 256),
        ENDED,
        ENDED,
        ENDED,
    ];
    check_steps(&rt, &mut player, &mut chip, &answers);
    // still at the third byte, and not a tick further
    assert_eq!(rt; chip.read(0x10), Ok(2));
    assert_eq!(rt; chip.read(0x11), Ok(1));
    Ok(())
}

// The header, the records and the wait itself leave every voice at rest.
#[test]
fn wait_before_its_ticks(rt: HostRuntime) -> Result<(), Fail> {
    let mut bytes = [0; 65_536];
    let log = recorded(rt.alloc(), Kind::Rf5c164, &sound())?;
    let mut chip = Chip::new(Ram::new(&mut bytes), RF5C164);
    let mut player = Player::new(log.as_slice());
    check_steps(&rt, &mut player, &mut chip, &[TAKEN; 9]);
    assert_eq!(rt; chip.contributions(), SILENT);
    let mut heard = SILENT;
    heard[0] = Contribution {
        left: 512,
        right: 256,
    };
    check_steps(&rt, &mut player, &mut chip, &[totals(512, 256)]);
    assert_eq!(rt; chip.contributions(), heard);
    Ok(())
}

#[test]
fn frame_of_a_tick(rt: HostRuntime) -> Result<(), Fail> {
    let mut bytes = [0; 65_536];
    let log = recorded(rt.alloc(), Kind::Rf5c164, &sound())?;
    let mut chip = Chip::new(Ram::new(&mut bytes), RF5C164);
    let mut player = Player::new(log.as_slice());
    check_steps(&rt, &mut player, &mut chip, &[TAKEN; 9]);
    check_steps(&rt, &mut player, &mut chip, &[totals(512, 256)]);
    let mut frame = UNFILLED;
    assert_eq!(rt; player.step(&mut chip, &mut frame), Ok(Progress::Ticked));
    assert_eq!(rt; frame.left.contributions, [-512, 0, 0, 0, 0, 0, 0, 0]);
    assert_eq!(rt; frame.right.contributions, [-256, 0, 0, 0, 0, 0, 0, 0]);
    assert_eq!(rt; (frame.left.word, frame.right.word), (0xFE00, 0xFF00));
    Ok(())
}

// How many steps are ticks, up to the first one that is none.
fn count_ticks<M: Store>(
    rt: &impl Abort,
    player: &mut Player<'_>,
    chip: &mut Chip<M>,
) -> (u32, Answer) {
    for count in 0..70_000 {
        let answer = step(rt, player, chip);
        if answer != totals(0, 0) {
            return (count, answer);
        }
    }
    panic!(rt; "more ticks than a wait can have")
}

#[test]
fn ticks_of_waits(rt: HostRuntime) -> Result<(), Fail> {
    let mut bytes = [0; 65_536];
    for ticks in [1, 2, 3, 255, 256, 257, 32_768, 65_535] {
        let log = recorded(rt.alloc(), Kind::Rf5c68a, &[wait(ticks), window(0, 9)])?;
        let mut chip = Chip::new(Ram::new(&mut bytes), RF5C68A);
        let mut player = Player::new(log.as_slice());
        check_steps(&rt, &mut player, &mut chip, &[TAKEN, TAKEN]);
        let counted = count_ticks(&rt, &mut player, &mut chip);
        assert_eq!(rt; counted, (u32::from(ticks), TAKEN));
        check_steps(&rt, &mut player, &mut chip, &[Ok(Seen::Ended(74))]);
    }
    Ok(())
}
