// Logs by their bits, and what a reader answers at a place of one.
use register_log::fault::Fault;
use register_log::reader::Reader;
use register_log::record::Record;
use std::alloc::Global;
use std::process::Abort;
use std::test::Fail;

// A field: its width, and its number.
pub type Field = (u32, u32);

pub type Answer = Result<Option<Record<'static>>, Fault>;

pub const CUT: Answer = Err(Fault::Cut);

pub const NO_SUCH_TAG: Answer = Err(Fault::Tag);

pub const OUT_OF_RANGE: Answer = Err(Fault::Range);

pub const NOT_PADDED: Answer = Err(Fault::Padding);

pub const END: Answer = Ok(None);

// The header of an RF5C68A at 10,000,000 Hz.
pub const HEADER: Field = (32, 0x1098_9680);

// Address 7, byte C0H.
pub const REGISTER_BITS: Field = (15, 0x17C0);

// Offset 4,095, byte A5H.
pub const WINDOW_BITS: Field = (23, 0x2F_FFA5);

// One tick.
pub const WAIT_BITS: Field = (19, 0x3_0001);

// How many bits stand before a tag in its byte, and how many of padding follow: the end's tag has 3 bits, and what stands
// before a block's padding 27, so that both have as many.
pub const GAPS: [(u32, u32); 8] = [
    (0, 5),
    (1, 4),
    (2, 3),
    (3, 2),
    (4, 1),
    (5, 0),
    (6, 7),
    (7, 6),
];

// The place some bits behind another.
pub fn behind(place: usize, bits: u32) -> usize {
    place.saturating_add(bits as usize)
}

// From the highest bit of each field on.
pub fn bits_of(heap: Global, fields: &[Field]) -> Result<Vec<bool>, Fail> {
    let mut bits = Vec::new(heap);
    for (width, number) in fields {
        for shift in (0..*width).rev() {
            bits.push(number.checked_shr(shift).unwrap_or(0) & 1 == 1)?;
        }
    }
    Ok(bits)
}

// With zeros up to the end of the last byte.
pub fn bytes_of(heap: Global, bits: &[bool]) -> Result<Vec<u8>, Fail> {
    let mut bytes = Vec::new(heap);
    for eight in bits.chunks(8) {
        let mut byte = 0;
        for index in 0..8 {
            byte = byte << 1 | u8::from(eight.get(index).copied().unwrap_or(false));
        }
        bytes.push(byte)?;
    }
    Ok(bytes)
}

pub fn log_of(heap: Global, fields: &[Field]) -> Result<Vec<u8>, Fail> {
    let bits = bits_of(heap, fields)?;
    bytes_of(heap, bits.as_slice())
}

// At a place, and the place at which the reader then stands.
pub fn check_answer(
    rt: &impl Abort,
    log: &[u8],
    place: usize,
    answer: Result<Option<Record<'_>>, Fault>,
    after: usize,
) {
    let mut reader = Reader { log, place };
    assert_eq!(rt; reader.next(), answer, "at {}", place);
    assert_eq!(rt; reader.place, after, "from {}", place);
}

// An end or a fault, which is answered again.
pub fn check_stays(rt: &impl Abort, log: &[u8], place: usize, answer: Answer) {
    let mut reader = Reader { log, place };
    for _ in 0..3 {
        assert_eq!(rt; reader.next(), answer, "at {}", place);
        assert_eq!(rt; reader.place, place);
    }
}

// What a buffer of equal bytes has, once some were written to its front.
pub fn check_front(rt: &impl Abort, buffer: &[u8], front: &[u8], byte: u8) {
    for (index, found) in buffer.iter().enumerate() {
        assert_eq!(rt;
            *found,
            front.get(index).copied().unwrap_or(byte),
            "{}",
            index
        );
    }
}
