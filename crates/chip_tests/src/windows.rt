// The window: each wave bank's 4,096 places.
use crate::rig::Seen::{Byte, Done};
use crate::rig::{RF5C68A, RF5C164, check_calls, write_all};
use calls::Call::{Read, Write};
use chip::chip::Chip;
use std::test::Fail;
use wave::ram::Ram;

#[test]
fn third_bank(rt: HostRuntime) -> Result<(), Fail> {
    let mut bytes = [0; 65_536];
    let ram = Ram::new(&mut bytes);
    let mut chip = Chip::new(ram, RF5C68A);
    write_all(&mut chip, &[(7, 3), (0x1234, 0xAB)])?;
    for bank in 0..16u8 {
        let byte = if bank == 3 { 0xAB } else { 0 };
        check_calls(
            &rt,
            &mut chip,
            &[(Write(7, bank), Ok(Done)), (Read(0x1234), Ok(Byte(byte)))],
        );
    }
    for (place, byte) in bytes.iter().enumerate() {
        assert_eq!(rt; *byte, if place == 0x3234 { 0xAB } else { 0 });
    }
    Ok(())
}

#[test]
fn each_bank(rt: HostRuntime) -> Result<(), Fail> {
    let mut bytes = [0; 65_536];
    let ram = Ram::new(&mut bytes);
    let mut chip = Chip::new(ram, RF5C68A);
    for bank in 0..16u8 {
        let ends = [
            (7, bank | 0x80),
            (0x1000, bank | 0x40),
            (0x1FFF, bank | 0x60),
        ];
        write_all(&mut chip, &ends)?;
    }
    for bank in 0..16u8 {
        let calls = [
            (Write(7, bank), Ok(Done)),
            (Read(0x1000), Ok(Byte(bank | 0x40))),
            (Read(0x1FFF), Ok(Byte(bank | 0x60))),
            (Read(0x1FFE), Ok(Byte(0))),
        ];
        check_calls(&rt, &mut chip, &calls);
    }
    Ok(())
}

// A control byte sets the bank or selects a voice; bits 5 and 4 mean nothing.
#[test]
fn banks_and_selected_voices(rt: HostRuntime) {
    let mut bytes = [0; 65_536];
    let ram = Ram::new(&mut bytes);
    let mut chip = Chip::new(ram, RF5C164);
    let calls = [
        (Write(7, 0x05), Ok(Done)),
        (Write(0x1000, 0x33), Ok(Done)),
        (Write(7, 0x7A), Ok(Done)),
        (Read(0x1000), Ok(Byte(0x33))),
        (Write(7, 0x34), Ok(Done)),
        (Read(0x1000), Ok(Byte(0))),
        (Write(6, 0x12), Ok(Done)),
        (Read(0x15), Ok(Byte(0x12))),
        (Write(7, 0x35), Ok(Done)),
        (Read(0x1000), Ok(Byte(0x33))),
    ];
    check_calls(&rt, &mut chip, &calls);
}
