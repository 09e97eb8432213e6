// Where playing stops, and after how many steps.
use crate::bits::{END, Field, HEADER, REGISTER, WAIT, WINDOW, log_of};
use crate::rig::{Answer, RF5C68A, Seen, Told, check_stop};
use chip::chip::Chip;
use player::player::Player;
use std::test::Fail;
use wave::ram::Ram;

// A log, the steps before it stops, and how it stops.
const LOGS: [(&[Field], usize, Answer); 17] = [
    (&[], 0, Err(Told(7, "log", 0, 0))),
    (&[(32, 0)], 0, Err(Told(8, "log", 0, 0))),
    (&[HEADER], 1, Err(Told(9, "log", 32, 0))),
    (&[HEADER, END], 1, Ok(Seen::Ended(32))),
    (&[HEADER, REGISTER, END], 2, Ok(Seen::Ended(47))),
    (&[HEADER, REGISTER, REGISTER, END], 3, Ok(Seen::Ended(62))),
    (
        &[HEADER, REGISTER, REGISTER, REGISTER, END],
        4,
        Ok(Seen::Ended(77)),
    ),
    (&[HEADER, WINDOW, END], 2, Ok(Seen::Ended(55))),
    (&[HEADER, WAIT, END], 3, Ok(Seen::Ended(51))),
    (&[HEADER, (19, 0x3_0040), END], 66, Ok(Seen::Ended(51))),
    (&[HEADER, WAIT, WAIT, REGISTER, END], 6, Ok(Seen::Ended(85))),
    (
        &[HEADER, (27, 0x400_0000), (5, 0), (8, 9), END],
        2,
        Ok(Seen::Ended(72)),
    ),
    (
        &[HEADER, (27, 0x4FF_E001), (5, 0), (16, 9), END],
        2,
        Ok(Seen::Ended(80)),
    ),
    (
        &[HEADER, WAIT, (27, 0x400_0000), (2, 0), (8, 9), END],
        4,
        Ok(Seen::Ended(88)),
    ),
    (
        &[HEADER, WAIT, WINDOW, (3, 6)],
        4,
        Err(Told(10, "log", 74, 0)),
    ),
    (
        &[HEADER, (19, 0x3_0005), (15, 0x1900)],
        7,
        Err(Told(11, "log", 51, 0)),
    ),
    (
        &[HEADER, REGISTER, END, (6, 1)],
        2,
        Err(Told(12, "log", 47, 0)),
    ),
];

#[test]
fn each_log(rt: HostRuntime) -> Result<(), Fail> {
    let mut bytes = [0; 65_536];
    for (fields, steps, stop) in LOGS {
        let log = log_of(rt.alloc(), fields)?;
        let mut chip = Chip::new(Ram::new(&mut bytes), RF5C68A);
        let mut player = Player::new(log.as_slice());
        let count = check_stop(&rt, &mut player, &mut chip, stop);
        assert_eq!(rt; count, steps, "{:?}", fields);
    }
    Ok(())
}
