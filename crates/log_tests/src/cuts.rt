// Logs that end within a record.
use crate::bits::{
    Answer, CUT, END, Field, NO_SUCH_TAG, OUT_OF_RANGE, bits_of, bytes_of, check_answer,
    check_stays,
};
use register_log::record::Record;
use std::alloc::Global;
use std::process::Abort;
use std::test::Fail;

// Up to where a reader first can tell: the fields, and what it answers once the last of their bits is there. One bit less is
// a cut, whatever the others are.
const TOLD: [(&[Field], Answer); 20] = [
    (&[(3, 0)], END),
    (&[(3, 5)], NO_SUCH_TAG),
    (&[(3, 6)], NO_SUCH_TAG),
    (&[(3, 7)], NO_SUCH_TAG),
    (&[(3, 1), (4, 9), (8, 0x00)], OUT_OF_RANGE),
    (&[(3, 1), (4, 9), (8, 0xFF)], OUT_OF_RANGE),
    (&[(3, 1), (4, 15), (8, 0x00)], OUT_OF_RANGE),
    (&[(3, 1), (4, 15), (8, 0xFF)], OUT_OF_RANGE),
    (&[(3, 3), (16, 0)], OUT_OF_RANGE),
    (&[(3, 4), (12, 1), (12, 4_095)], OUT_OF_RANGE),
    (&[(3, 4), (12, 2), (12, 4_094)], OUT_OF_RANGE),
    (&[(3, 4), (12, 2_048), (12, 2_048)], OUT_OF_RANGE),
    (&[(3, 4), (12, 4_094), (12, 2)], OUT_OF_RANGE),
    (&[(3, 4), (12, 4_095), (12, 1)], OUT_OF_RANGE),
    (&[(3, 4), (12, 4_095), (12, 4_095)], OUT_OF_RANGE),
    (&[(3, 4), (12, 0), (12, 0)], CUT),
    (&[(3, 4), (12, 0), (12, 4_095)], CUT),
    (&[(3, 4), (12, 2_048), (12, 2_047)], CUT),
    (&[(3, 4), (12, 1), (12, 4_094)], CUT),
    (&[(3, 4), (12, 4_095), (12, 0)], CUT),
];

const WHOLE: [(&[Field], Record<'static>); 8] = [
    (
        &[(3, 1), (4, 0), (8, 0x00)],
        Record::Register {
            address: 0,
            byte: 0x00,
        },
    ),
    (
        &[(3, 1), (4, 8), (8, 0xFF)],
        Record::Register {
            address: 8,
            byte: 0xFF,
        },
    ),
    (
        &[(3, 2), (12, 0), (8, 0x00)],
        Record::Window {
            offset: 0,
            byte: 0x00,
        },
    ),
    (
        &[(3, 2), (12, 4_095), (8, 0xFF)],
        Record::Window {
            offset: 4_095,
            byte: 0xFF,
        },
    ),
    (&[(3, 3), (16, 1)], Record::Wait { ticks: 1 }),
    (&[(3, 3), (16, 256)], Record::Wait { ticks: 256 }),
    (&[(3, 3), (16, 32_768)], Record::Wait { ticks: 32_768 }),
    (&[(3, 3), (16, 65_535)], Record::Wait { ticks: 65_535 }),
];

// A log that ends with some bits, before which it has ones up to a byte boundary, and their place.
fn ending_in(heap: Global, bits: &[bool]) -> Result<(Vec<u8>, usize), Fail> {
    let place = 32 + (8 - bits.len() % 8) % 8;
    let mut all = vec![in heap; true; place]?;
    all.extend_from_slice(bits)?;
    Ok((bytes_of(heap, all.as_slice())?, place))
}

// The beginnings of a row of bits, that are all too short.
fn check_beginnings(rt: &impl Abort, heap: Global, bits: &[bool]) -> Result<(), Fail> {
    for count in 0..bits.len() {
        let (log, place) = ending_in(heap, bits.get(..count).unwrap_or(&[]))?;
        check_stays(rt, log.as_slice(), place, CUT);
    }
    Ok(())
}

#[test]
fn told_at_the_last_bit(rt: HostRuntime) -> Result<(), Fail> {
    for (fields, answer) in TOLD {
        let bits = bits_of(rt.alloc(), fields)?;
        check_beginnings(&rt, rt.alloc(), bits.as_slice())?;
        let (log, place) = ending_in(rt.alloc(), bits.as_slice())?;
        check_stays(&rt, log.as_slice(), place, answer);
    }
    Ok(())
}

#[test]
fn whole_at_the_last_bit(rt: HostRuntime) -> Result<(), Fail> {
    for (fields, record) in WHOLE {
        let bits = bits_of(rt.alloc(), fields)?;
        check_beginnings(&rt, rt.alloc(), bits.as_slice())?;
        let (log, place) = ending_in(rt.alloc(), bits.as_slice())?;
        let end = place.saturating_add(bits.len());
        check_answer(&rt, log.as_slice(), place, Ok(Some(record)), end);
    }
    Ok(())
}
