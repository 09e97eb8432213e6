// Padding: before a block's bytes and after the end.
use crate::bits::{
    Answer, CUT, END, Field, GAPS, HEADER, NOT_PADDED, OUT_OF_RANGE, behind, check_answer,
    check_stays, log_of,
};
use register_log::record::Record;
use std::alloc::Global;
use std::process::Abort;
use std::test::Fail;

// A log with a header and some bits of ones, then fields.
fn log_behind(heap: Global, before: u32, fields: &[Field]) -> Result<Vec<u8>, Fail> {
    let mut all = vec![in heap; HEADER, (before, 0xFF)]?;
    all.extend_from_slice(fields)?;
    log_of(heap, all.as_slice())
}

fn check_behind(
    rt: &impl Abort,
    heap: Global,
    before: u32,
    fields: &[Field],
    answer: Answer,
) -> Result<(), Fail> {
    let log = log_behind(heap, before, fields)?;
    check_stays(rt, log.as_slice(), behind(32, before), answer);
    Ok(())
}

// What may follow the padding after the end, and what the reader answers then.
fn check_end(rt: &impl Abort, heap: Global, before: u32, gap: Field) -> Result<(), Fail> {
    let (_, padding) = gap;
    let answer = if padding == 0 { END } else { NOT_PADDED };
    check_behind(rt, heap, before, &[(3, 0), gap], answer)?;
    check_behind(rt, heap, before, &[(3, 0), gap, (8, 0x00)], NOT_PADDED)?;
    check_behind(rt, heap, before, &[(3, 0), gap, (8, 0x01)], NOT_PADDED)?;
    check_behind(rt, heap, before, &[(3, 0), gap, (16, 0x80)], NOT_PADDED)
}

// A block of two bytes behind wrong padding, whole and cut; a wrong range goes before.
fn check_block(rt: &impl Abort, heap: Global, before: u32, gap: Field) -> Result<(), Fail> {
    let head = (27, 0x400_0001);
    check_behind(rt, heap, before, &[head, gap, (16, 0)], NOT_PADDED)?;
    check_behind(rt, heap, before, &[head, gap, (8, 0)], NOT_PADDED)?;
    check_behind(rt, heap, before, &[head, gap], NOT_PADDED)?;
    let past_window = (27, 0x4FF_F001);
    check_behind(rt, heap, before, &[past_window, gap, (16, 0)], OUT_OF_RANGE)?;
    check_behind(rt, heap, before, &[past_window, gap], OUT_OF_RANGE)
}

#[test]
fn after_the_end(rt: HostRuntime) -> Result<(), Fail> {
    for (before, width) in GAPS {
        for padding in 0..1u32.checked_shl(width).unwrap_or(1) {
            check_end(&rt, rt.alloc(), before, (width, padding))?;
        }
    }
    Ok(())
}

#[test]
fn before_a_block(rt: HostRuntime) -> Result<(), Fail> {
    for (before, width) in GAPS {
        for padding in 1..1u32.checked_shl(width).unwrap_or(1) {
            check_block(&rt, rt.alloc(), before, (width, padding))?;
        }
    }
    Ok(())
}

// Blocks of three bytes, whole and with one of them or more missing.
#[test]
fn missing_bytes(rt: HostRuntime) -> Result<(), Fail> {
    for (before, width) in GAPS {
        let (head, gap) = ((27, 0x4FF_D002), (width, 0));
        check_behind(&rt, rt.alloc(), before, &[head, gap], CUT)?;
        check_behind(&rt, rt.alloc(), before, &[head, gap, (8, 1)], CUT)?;
        check_behind(&rt, rt.alloc(), before, &[head, gap, (16, 0x102)], CUT)?;
        let log = log_behind(rt.alloc(), before, &[head, gap, (24, 0x01_0203)])?;
        let block = Record::Block {
            offset: 4_093,
            bytes: &[1, 2, 3],
        };
        check_answer(
            &rt,
            log.as_slice(),
            behind(32, before),
            Ok(Some(block)),
            behind(behind(83, before), width),
        );
    }
    Ok(())
}
