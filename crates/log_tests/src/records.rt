// Records at each place in a byte, between ones and between zeros.
use crate::bits::{CUT, Field, GAPS, HEADER, behind, check_answer, check_stays, log_of};
use register_log::reader::Reader;
use register_log::record::Record;
use std::alloc::Global;
use std::process::Abort;
use std::test::Fail;

const fn register(address: u8, byte: u8) -> Record<'static> {
    Record::Register { address, byte }
}

const fn window(offset: u16, byte: u8) -> Record<'static> {
    Record::Window { offset, byte }
}

const fn wait(ticks: u16) -> Record<'static> {
    Record::Wait { ticks }
}

// A log in which a field stands behind some bits, all equal and as those after it, and its place.
fn log_around(
    heap: Global,
    before: u32,
    field: Field,
    around: u32,
) -> Result<(Vec<u8>, usize), Fail> {
    let log = log_of(heap, &[HEADER, (before, around), field, (19, around)])?;
    Ok((log, behind(32, before)))
}

fn check_alone(
    rt: &impl Abort,
    heap: Global,
    field: Field,
    record: Record<'static>,
) -> Result<(), Fail> {
    let (width, _) = field;
    for before in 0..16 {
        for around in [0, 0xFFFF_FFFF] {
            let (log, place) = log_around(heap, before, field, around)?;
            let after = behind(place, width);
            check_answer(rt, log.as_slice(), place, Ok(Some(record)), after);
        }
    }
    Ok(())
}

#[test]
fn fields_of_records(rt: HostRuntime) -> Result<(), Fail> {
    let cases = [
        ((15, 0x1000), register(0, 0x00)),
        ((15, 0x10FF), register(0, 0xFF)),
        ((15, 0x17C0), register(7, 0xC0)),
        ((15, 0x1800), register(8, 0x00)),
        ((15, 0x18FF), register(8, 0xFF)),
        ((15, 0x1581), register(5, 0x81)),
        ((23, 0x20_0000), window(0, 0x00)),
        ((23, 0x20_00FF), window(0, 0xFF)),
        ((23, 0x2F_FF00), window(4_095, 0x00)),
        ((23, 0x2F_FFFF), window(4_095, 0xFF)),
        ((23, 0x28_0181), window(2_049, 0x81)),
        ((19, 0x3_0001), wait(1)),
        ((19, 0x3_0100), wait(256)),
        ((19, 0x3_8001), wait(32_769)),
        ((19, 0x3_FFFF), wait(65_535)),
    ];
    for (field, record) in cases {
        check_alone(&rt, rt.alloc(), field, record)?;
    }
    Ok(())
}

// A block of bytes A5H behind some bits of ones, with a byte FFH after it.
fn log_with_block(
    heap: Global,
    (before, gap): (u32, u32),
    offset: u32,
    length: u32,
) -> Result<Vec<u8>, Fail> {
    let mut fields = vec![in heap; HEADER, (before, 0xFF), (3, 4), (12, offset)]?;
    fields.extend_from_slice(&[(12, length.saturating_sub(1)), (gap, 0)])?;
    for _ in 0..length {
        fields.push((8, 0xA5))?;
    }
    fields.push((8, 0xFF))?;
    log_of(heap, fields.as_slice())
}

// Without the last byte of the block and the byte after it.
fn check_cut(rt: &impl Abort, log: &[u8], place: usize) {
    let length = log.len().saturating_sub(2);
    check_stays(rt, log.get(..length).unwrap_or(&[]), place, CUT);
}

fn check_blocks(rt: &impl Abort, heap: Global, offset: u16, length: u16) -> Result<(), Fail> {
    let bytes = vec![in heap; 0xA5u8; usize::from(length)]?;
    let record = Record::Block {
        offset,
        bytes: bytes.as_slice(),
    };
    for (before, gap) in GAPS {
        let log = log_with_block(heap, (before, gap), u32::from(offset), u32::from(length))?;
        let place = behind(32, before);
        let after = behind(behind(59, before), gap).saturating_add(8 * usize::from(length));
        check_answer(rt, log.as_slice(), place, Ok(Some(record)), after);
        check_cut(rt, log.as_slice(), place);
    }
    Ok(())
}

#[test]
fn blocks(rt: HostRuntime) -> Result<(), Fail> {
    for (offset, length) in [
        (0, 1),
        (0, 2),
        (0, 4_096),
        (1, 4_095),
        (2_048, 2_048),
        (4_094, 2),
        (4_095, 1),
    ] {
        check_blocks(&rt, rt.alloc(), offset, length)?;
    }
    Ok(())
}

// A block's bytes in their order.
#[test]
fn bytes_of_a_block(rt: HostRuntime) -> Result<(), Fail> {
    let log = log_of(rt.alloc(), &[HEADER, (32, 0x8010_0040), (24, 0x01_80FE)])?;
    let block = Record::Block {
        offset: 8,
        bytes: &[1, 0x80, 0xFE],
    };
    check_answer(&rt, log.as_slice(), 32, Ok(Some(block)), 88);
    Ok(())
}

// One after another, with the place after each.
#[test]
fn in_a_row(rt: HostRuntime) {
    let log = [
        0x18, 0xBF, 0x0A, 0x40, 0x20, 0x00, 0xFF, 0xFF, 0xD0, 0x00, 0x7F, 0xC0, 0x01, 0x00, 0x10,
        0x80, 0x01, 0x31, 0xFE, 0x5F, 0x00, 0x00,
    ];
    let block = Record::Block {
        offset: 1,
        bytes: &[0x80, 0x01],
    };
    let records = [
        (Ok(Some(register(0, 0x00))), 47),
        (Ok(Some(wait(65_535))), 66),
        (Ok(Some(window(0, 0xFF))), 89),
        (Ok(Some(block)), 136),
        (Ok(Some(register(8, 0xFF))), 151),
        (Ok(Some(register(7, 0xC0))), 166),
        (Ok(None), 166),
        (Ok(None), 166),
    ];
    let mut reader = Reader::new(&log);
    for (record, place) in records {
        assert_eq!(rt; reader.next(), record);
        assert_eq!(rt; reader.place, place);
    }
}
