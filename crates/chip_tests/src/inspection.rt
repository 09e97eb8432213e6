// Inspections of the window.
use crate::rig::Seen::{Byte, Done, Totals};
use crate::rig::{Answer, RF5C68A, check_alike, check_calls, write_all};
use calls::Call::{Read, Tick, Write};
use chip::chip::Chip;
use chip::refusal::Refusal;
use std::alloc::Global;
use std::process::Abort;
use std::test::Fail;
use wave::memory::Store;
use wave::ram::Ram;

#[test]
fn while_sounding(rt: HostRuntime) -> Result<(), Fail> {
    let mut bytes = [0xC0; 65_536];
    let ram = Ram::new(&mut bytes);
    let mut chip = Chip::new(ram, RF5C68A);
    let samples = [(7, 0x82), (0x1010, 1), (0x1011, 2), (0x1012, 3)];
    write_all(&mut chip, &samples)?;
    write_all(&mut chip, &[(0, 128), (1, 0x12), (8, 0xFE)])?;
    let mut buffer = [0x55; 4];
    assert_eq!(rt; chip.inspect(0x10, &mut buffer), Ok(()));
    assert_eq!(rt; buffer, [1, 2, 3, 0xC0]);
    let calls = [
        (Read(0x1010), Err(Refusal::Sounding)),
        (Tick, Ok(Totals(512, 256))),
        (Write(7, 0x02), Ok(Done)),
        (Read(0x1010), Ok(Byte(1))),
    ];
    check_calls(&rt, &mut chip, &calls);
    Ok(())
}

// What an inspection answers, and the byte that the whole buffer then holds.
fn check_inspection<M: Store>(
    rt: &impl Abort,
    chip: &mut Chip<M>,
    offset: u16,
    buffer: &mut [u8],
    (answer, byte): (Result<(), Refusal>, u8),
) {
    assert_eq!(rt; chip.inspect(offset, buffer), answer);
    for each in buffer.iter() {
        assert_eq!(rt; *each, byte);
    }
}

#[test]
fn of_one_bank_alone(rt: HostRuntime) -> Result<(), Fail> {
    let mut bytes = [0; 65_536];
    let ram = Ram::new(&mut bytes);
    let mut chip = Chip::new(ram, RF5C68A);
    write_all(&mut chip, &[(7, 3), (0x1FFE, 0xAB), (0x1FFF, 0xAB)])?;
    for bank in 0..16u8 {
        write_all(&mut chip, &[(7, bank)])?;
        let shown = if bank == 3 { 0xAB } else { 0 };
        check_inspection(&rt, &mut chip, 4_094, &mut [0x55; 2], (Ok(()), shown));
    }
    Ok(())
}

// Over bytes 40H, with a buffer of bytes 55H.
const FILLED: (Result<(), Refusal>, u8) = (Ok(()), 0x40);

const LEFT: (Result<(), Refusal>, u8) = (Err(Refusal::PastWindow), 0x55);

// An offset, a length, and the outcome.
const REACHES: [(u16, usize, (Result<(), Refusal>, u8)); 12] = [
    (0, 0, FILLED),
    (0, 4_096, FILLED),
    (0, 4_097, LEFT),
    (1, 4_095, FILLED),
    (1, 4_096, LEFT),
    (4_095, 1, FILLED),
    (4_095, 2, LEFT),
    (4_096, 0, FILLED),
    (4_096, 1, LEFT),
    (4_097, 0, LEFT),
    (0xFFFF, 0, LEFT),
    (0xFFFF, 5_000, LEFT),
];

// Each reach, and a window read after it.
fn check_reaches<M: Store>(
    rt: &impl Abort,
    heap: Global,
    chip: &mut Chip<M>,
    read: Answer,
) -> Result<(), Fail> {
    for (offset, length, outcome) in REACHES {
        let mut buffer = vec![in heap; 0x55u8; length]?;
        check_inspection(rt, chip, offset, buffer.as_mut_slice(), outcome);
        check_alike(rt, chip, &[Read(0x1000)], read);
    }
    Ok(())
}

#[test]
fn each_reach(rt: HostRuntime) -> Result<(), Fail> {
    let mut bytes = [0x40; 65_536];
    let ram = Ram::new(&mut bytes);
    let mut chip = Chip::new(ram, RF5C68A);
    for (control, read) in [(0x8F, Err(Refusal::Sounding)), (0x0F, Ok(Byte(0x40)))] {
        write_all(&mut chip, &[(7, control)])?;
        check_reaches(&rt, rt.alloc(), &mut chip, read)?;
    }
    Ok(())
}

#[test]
fn over_a_memory_of_another_size(rt: HostRuntime) -> Result<(), Fail> {
    for size in [0, 65_535, 65_537] {
        let mut bytes = vec![in rt.alloc(); 0x40u8; size]?;
        let ram = Ram::new(&mut bytes);
        let mut chip = Chip::new(ram, RF5C68A);
        for offset in [0, 4_095, 4_096, 0xFFFF] {
            check_inspection(
                &rt,
                &mut chip,
                offset,
                &mut [0x55; 2],
                (Err(Refusal::MemorySize), 0x55),
            );
        }
    }
    Ok(())
}
