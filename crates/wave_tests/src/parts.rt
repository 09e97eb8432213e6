// RAM and ROM by themselves.
use crate::cases::{PAST_END, READ_ONLY, WRITTEN, byte, check_cases};
use std::process::Abort;
use std::test::Fail;
use wave::access::Access::{Read, Write};
use wave::memory::{Refusal, Source, Store};
use wave::ram::Ram;
use wave::rom::Rom;

// How many bytes are lent, and how many of them are used.
const SIZES: [(usize, usize); 6] = [
    (0, 0),
    (1, 1),
    (65_536, 65_536),
    (131_072, 131_072),
    (131_073, 131_072),
    (200_000, 131_072),
];

// The size, and refusals at it and past it.
fn check_end<M: Store>(rt: &impl Abort, memory: &mut M, size: usize) {
    assert_eq!(rt; memory.size(), size);
    check_cases(
        rt,
        memory,
        &[
            (Read(size), PAST_END),
            (Read(usize::MAX), PAST_END),
            (Write(size, 1), PAST_END),
            (Write(usize::MAX, 1), PAST_END),
        ],
    );
}

#[test]
fn ram_of_each_size(rt: HostRuntime) -> Result<(), Fail> {
    for (lent, size) in SIZES {
        let mut bytes = vec![in rt.alloc(); 0x40u8; lent]?;
        let mut ram = Ram::new(bytes.as_mut_slice());
        check_end(&rt, &mut ram, size);
        if size > 0 {
            let last = size - 1;
            check_cases(
                &rt,
                &mut ram,
                &[
                    (Read(last), byte(0x40)),
                    (Write(last, 0x7F), WRITTEN),
                    (Read(last), byte(0x7F)),
                ],
            );
        }
    }
    Ok(())
}

#[test]
fn ram_leaves_what_it_does_not_use(rt: HostRuntime) {
    let mut bytes = [0x40; 131_073];
    let mut ram = Ram::new(&mut bytes);
    check_cases(
        &rt,
        &mut ram,
        &[(Write(131_071, 1), WRITTEN), (Write(131_072, 2), PAST_END)],
    );
    assert_eq!(rt; bytes.get(131_071).copied(), Some(1));
    assert_eq!(rt; bytes.get(131_072).copied(), Some(0x40));
}

#[test]
fn rom_of_each_size(rt: HostRuntime) -> Result<(), Fail> {
    for (lent, size) in SIZES {
        let bytes = vec![in rt.alloc(); 0x40u8; lent]?;
        let mut rom = Rom::new(bytes.as_slice());
        check_end(&rt, &mut rom, size);
        if size > 0 {
            let last = size - 1;
            check_cases(
                &rt,
                &mut rom,
                &[
                    (Write(0, 1), READ_ONLY),
                    (Write(last, 1), READ_ONLY),
                    (Read(last), byte(0x40)),
                ],
            );
        }
    }
    Ok(())
}

#[test]
fn refusals_by_number(rt: HostRuntime) {
    assert_eq!(rt; Refusal::ReadOnly.number(), 5);
    assert_eq!(rt; Refusal::PastEnd.number(), 6);
}
