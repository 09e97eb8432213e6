// Steps on several chips, and chips that others change between the steps.
use crate::rig::{
    RF5C68A, RF5C164, SILENT, Seen, TAKEN, Told, check_steps, recorded, register, totals, wait,
    window,
};
use chip::chip::Chip;
use kind::Kind;
use player::player::Player;
use register_log::record::Record;
use std::test::Fail;
use wave::ram::Ram;

// Over bytes C0H voice 1 sounds alike in every tick, and stands two places further after each.
fn sound() -> [Record<'static>; 8] {
    [
        register(0, 128),
        register(1, 0x12),
        register(3, 0x10),
        register(8, 0xFE),
        register(7, 0x80),
        wait(4),
        register(6, 0x34),
        wait(1),
    ]
}

// The end after them.
const END: usize = 160;

#[test]
fn records_on_two_chips(rt: HostRuntime) -> Result<(), Fail> {
    let mut bytes = [0; 65_536];
    let mut other_bytes = [0; 65_536];
    let records = [window(0, 1), window(1, 2), window(2, 3), window(3, 4)];
    let log = recorded(rt.alloc(), Kind::Rf5c68a, &records)?;
    let mut chip = Chip::new(Ram::new(&mut bytes), RF5C68A);
    let mut other = Chip::new(Ram::new(&mut other_bytes), RF5C68A);
    let mut player = Player::new(log.as_slice());
    check_steps(&rt, &mut player, &mut chip, &[TAKEN, TAKEN]);
    check_steps(&rt, &mut player, &mut other, &[TAKEN, TAKEN]);
    check_steps(&rt, &mut player, &mut chip, &[TAKEN]);
    let end = Ok(Seen::Ended(124));
    check_steps(&rt, &mut player, &mut other, &[end]);
    check_steps(&rt, &mut player, &mut chip, &[end]);
    let mut shown = [0x55; 4];
    assert_eq!(rt; chip.inspect(0, &mut shown), Ok(()));
    assert_eq!(rt; shown, [1, 0, 0, 4]);
    assert_eq!(rt; other.inspect(0, &mut shown), Ok(()));
    assert_eq!(rt; shown, [0, 2, 3, 0]);
    Ok(())
}

// The ticks of one wait: a voice that is off on one chip is heard on the other.
#[test]
fn ticks_on_two_chips(rt: HostRuntime) -> Result<(), Fail> {
    let mut bytes = [0xC0; 65_536];
    let mut other_bytes = [0xC0; 65_536];
    let log = recorded(rt.alloc(), Kind::Rf5c164, &sound())?;
    let mut chip = Chip::new(Ram::new(&mut bytes), RF5C164);
    let mut other = Chip::new(Ram::new(&mut other_bytes), RF5C68A);
    let mut player = Player::new(log.as_slice());
    check_steps(&rt, &mut player, &mut chip, &[TAKEN; 7]);
    check_steps(&rt, &mut player, &mut chip, &[totals(512, 256)]);
    check_steps(&rt, &mut player, &mut other, &[totals(0, 0), totals(0, 0)]);
    let rest = [
        totals(512, 256),
        TAKEN,
        TAKEN,
        totals(512, 256),
        Ok(Seen::Ended(END)),
    ];
    check_steps(&rt, &mut player, &mut chip, &rest);
    // three ticks: at rest, and two places further twice
    assert_eq!(rt; chip.read(0x10), Ok(4));
    Ok(())
}

#[test]
fn reset_in_a_wait(rt: HostRuntime) -> Result<(), Fail> {
    let mut bytes = [0xC0; 65_536];
    let log = recorded(rt.alloc(), Kind::Rf5c164, &sound())?;
    let mut chip = Chip::new(Ram::new(&mut bytes), RF5C164);
    let mut player = Player::new(log.as_slice());
    check_steps(&rt, &mut player, &mut chip, &[TAKEN; 7]);
    check_steps(&rt, &mut player, &mut chip, &[totals(512, 256)]);
    chip.reset();
    let rest = [
        totals(0, 0),
        totals(0, 0),
        totals(0, 0),
        TAKEN,
        TAKEN,
        totals(0, 0),
        Ok(Seen::Ended(END)),
    ];
    check_steps(&rt, &mut player, &mut chip, &rest);
    assert_eq!(rt; chip.contributions(), SILENT);
    // the start from the record after the wait
    assert_eq!(rt; chip.read(0x11), Ok(0x34));
    Ok(())
}

#[test]
fn written_in_a_wait(rt: HostRuntime) -> Result<(), Fail> {
    let mut bytes = [0xC0; 65_536];
    let log = recorded(rt.alloc(), Kind::Rf5c164, &sound())?;
    let mut chip = Chip::new(Ram::new(&mut bytes), RF5C164);
    let mut player = Player::new(log.as_slice());
    check_steps(&rt, &mut player, &mut chip, &[TAKEN; 7]);
    for (channel, answer) in [
        (0xFE, totals(512, 256)),
        (0xFF, totals(0, 0)),
        (0xFE, totals(512, 256)),
        (0xFF, totals(0, 0)),
        (0xFE, TAKEN),
    ] {
        chip.write(8, channel)?;
        check_steps(&rt, &mut player, &mut chip, &[answer]);
    }
    chip.write(0, 64)?;
    let rest = [TAKEN, totals(256, 128), Ok(Seen::Ended(END))];
    check_steps(&rt, &mut player, &mut chip, &rest);
    Ok(())
}

// Once the header is taken, a chip of the other kind serves as well.
#[test]
fn kind_at_the_first_step(rt: HostRuntime) -> Result<(), Fail> {
    let list = [register(6, 0x12), wait(1), window(0, 7)];
    for (setup, other_setup) in [(RF5C68A, RF5C164), (RF5C164, RF5C68A)] {
        let mut bytes = [0; 65_536];
        let mut other_bytes = [0; 65_536];
        let log = recorded(rt.alloc(), setup.kind, &list)?;
        let mut chip = Chip::new(Ram::new(&mut bytes), setup);
        let mut other = Chip::new(Ram::new(&mut other_bytes), other_setup);
        let mut player = Player::new(log.as_slice());
        check_steps(&rt, &mut player, &mut chip, &[TAKEN]);
        let rest = [TAKEN, TAKEN, totals(0, 0), TAKEN, Ok(Seen::Ended(89))];
        check_steps(&rt, &mut player, &mut other, &rest);
        assert_eq!(rt; other.read(0x1000), Ok(7));
        assert_eq!(rt; chip.read(0x1000), Ok(0));
    }
    Ok(())
}

// A header that was refused stays so on a chip of its kind, for a player that has met the other one.
#[test]
fn kind_refused_at_the_first_step(rt: HostRuntime) -> Result<(), Fail> {
    let mut bytes = [0; 65_536];
    let mut other_bytes = [0; 65_536];
    for (setup, other_setup) in [(RF5C68A, RF5C164), (RF5C164, RF5C68A)] {
        let log = recorded(rt.alloc(), setup.kind, &[window(0, 7)])?;
        let mut chip = Chip::new(Ram::new(&mut bytes), setup);
        let mut other = Chip::new(Ram::new(&mut other_bytes), other_setup);
        let mut player = Player::new(log.as_slice());
        let wrong = Err(Told(8, "log", 0, 0));
        check_steps(&rt, &mut player, &mut other, &[wrong]);
        check_steps(&rt, &mut player, &mut chip, &[wrong, wrong]);
        assert_eq!(rt; chip.read(0x1000), Ok(0));
    }
    Ok(())
}
