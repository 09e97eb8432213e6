// The position registers of an RF5C164.
use crate::rig::Seen::{Byte, Done, Totals};
use crate::rig::{RF5C164, check_calls, write_all};
use calls::Call::{Read, Tick, Write};
use chip::chip::Chip;
use std::test::Fail;
use wave::ram::Ram;

#[test]
fn starts_at_rest(rt: HostRuntime) -> Result<(), Fail> {
    let mut bytes = [0; 65_536];
    let ram = Ram::new(&mut bytes);
    let mut chip = Chip::new(ram, RF5C164);
    for voice in 0..8u8 {
        write_all(&mut chip, &[(7, voice | 0x40), (6, voice | 0x10)])?;
    }
    for voice in 0..8u8 {
        let low = u16::from(voice) * 2 + 0x10;
        let calls = [
            (Read(low), Ok(Byte(0))),
            (Read(low + 1), Ok(Byte(voice | 0x10))),
        ];
        check_calls(&rt, &mut chip, &calls);
    }
    Ok(())
}

#[test]
fn three_places_a_tick(rt: HostRuntime) -> Result<(), Fail> {
    let mut bytes = [0; 65_536];
    let ram = Ram::new(&mut bytes);
    let mut chip = Chip::new(ram, RF5C164);
    write_all(&mut chip, &[(7, 0xC2), (6, 0x12), (3, 0x18), (8, 0xFB)])?;
    for low in [0x00, 0x03, 0x06, 0x09] {
        let calls = [
            (Tick, Ok(Totals(0, 0))),
            (Read(0x14), Ok(Byte(low))),
            (Read(0x15), Ok(Byte(0x12))),
            (Read(0x16), Ok(Byte(0))),
        ];
        check_calls(&rt, &mut chip, &calls);
    }
    Ok(())
}

#[test]
fn parts_of_a_place(rt: HostRuntime) -> Result<(), Fail> {
    let mut bytes = [0; 65_536];
    let ram = Ram::new(&mut bytes);
    let mut chip = Chip::new(ram, RF5C164);
    write_all(&mut chip, &[(3, 0x05), (2, 0x56), (8, 0xFE), (7, 0x80)])?;
    for low in [0, 0, 1, 2, 2, 3, 4] {
        let calls = [(Tick, Ok(Totals(0, 0))), (Read(0x10), Ok(Byte(low)))];
        check_calls(&rt, &mut chip, &calls);
    }
    Ok(())
}

// From FFFFH on to 1FH.
#[test]
fn round_the_end(rt: HostRuntime) -> Result<(), Fail> {
    let mut bytes = [0; 65_536];
    let ram = Ram::new(&mut bytes);
    let mut chip = Chip::new(ram, RF5C164);
    let settings = [(6, 0xFF), (3, 0xFF), (2, 0xFF), (8, 0xFE), (7, 0x80)];
    write_all(&mut chip, &settings)?;
    check_calls(&rt, &mut chip, &[(Tick, Ok(Totals(0, 0))); 9]);
    let calls = [
        (Read(0x10), Ok(Byte(0xFF))),
        (Read(0x11), Ok(Byte(0xFF))),
        (Tick, Ok(Totals(0, 0))),
        (Read(0x10), Ok(Byte(0x1F))),
        (Read(0x11), Ok(Byte(0))),
    ];
    check_calls(&rt, &mut chip, &calls);
    Ok(())
}
