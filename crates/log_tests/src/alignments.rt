// Records written and copied at each place in a byte: each register before them moves them by 15 bits.
use crate::bits::{Field, HEADER, REGISTER_BITS, check_front, log_of};
use crate::lists::{REGISTER, RF5C68A};
use register_log::record::Record;
use std::alloc::Global;
use std::process::Abort;
use std::test::Fail;

// A log of some registers and then one record by its fields.
fn log_behind(heap: Global, registers: usize, fields: &[Field]) -> Result<Vec<u8>, Fail> {
    let mut all = vec![in heap; HEADER]?;
    for _ in 0..registers {
        all.push(REGISTER_BITS)?;
    }
    all.extend_from_slice(fields)?;
    all.push((3, 0))?;
    log_of(heap, all.as_slice())
}

fn check_behind(
    rt: &impl Abort,
    heap: Global,
    registers: usize,
    fields: &[Field],
    record: Record<'static>,
) -> Result<(), Fail> {
    let log = log_behind(heap, registers, fields)?;
    let mut records = vec![in heap; REGISTER; registers]?;
    records.push(record)?;
    for byte in [0x00, 0xFF] {
        let mut recorded = vec![in heap; byte; log.len()]?;
        let length = whole_log::record(RF5C68A, records.as_slice(), recorded.as_mut_slice());
        assert_eq!(rt; length, Ok(log.len()));
        check_front(rt, recorded.as_slice(), log.as_slice(), byte);
        let mut copied = vec![in heap; byte; log.len()]?;
        let length = whole_log::copy(log.as_slice(), copied.as_mut_slice());
        assert_eq!(rt; length, Ok(log.len()));
        check_front(rt, copied.as_slice(), log.as_slice(), byte);
    }
    Ok(())
}

// Records with their fields in one number.
const RECORDS: [(Field, Record<'static>); 7] = [
    (
        (15, 0x1000),
        Record::Register {
            address: 0,
            byte: 0x00,
        },
    ),
    (
        (15, 0x18FF),
        Record::Register {
            address: 8,
            byte: 0xFF,
        },
    ),
    (
        (23, 0x20_0000),
        Record::Window {
            offset: 0,
            byte: 0x00,
        },
    ),
    (
        (23, 0x28_0181),
        Record::Window {
            offset: 2_049,
            byte: 0x81,
        },
    ),
    (
        (23, 0x2F_FFFF),
        Record::Window {
            offset: 4_095,
            byte: 0xFF,
        },
    ),
    ((19, 0x3_0001), Record::Wait { ticks: 1 }),
    ((19, 0x3_FFFF), Record::Wait { ticks: 65_535 }),
];

#[test]
fn fields_behind_registers(rt: HostRuntime) -> Result<(), Fail> {
    for (field, record) in RECORDS {
        for registers in 0..8 {
            check_behind(&rt, rt.alloc(), registers, &[field], record)?;
        }
    }
    Ok(())
}

// By the number of registers: the bits between the block's length and its bytes.
#[test]
fn blocks_behind_registers(rt: HostRuntime) -> Result<(), Fail> {
    let block = Record::Block {
        offset: 4_094,
        bytes: &[0x80, 0x7F],
    };
    for (registers, gap) in [5, 6, 7, 0, 1, 2, 3, 4].into_iter().enumerate() {
        let fields = [(27, 0x4FF_E001), (gap, 0), (16, 0x807F)];
        check_behind(&rt, rt.alloc(), registers, &fields, block)?;
    }
    Ok(())
}
