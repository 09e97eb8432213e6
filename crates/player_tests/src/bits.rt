// Logs by their bits, also those that no recording makes.
use std::alloc::Global;
use std::test::Fail;

// A field: its width, and its number.
pub type Field = (u32, u32);

// The header of an RF5C68A at 10,000,000 Hz.
pub const HEADER: Field = (32, 0x1098_9680);

// Address 7, byte C0H.
pub const REGISTER: Field = (15, 0x17C0);

// Offset 4,095, byte A5H.
pub const WINDOW: Field = (23, 0x2F_FFA5);

// One tick.
pub const WAIT: Field = (19, 0x3_0001);

pub const END: Field = (3, 0);

// From the highest bit of each field on.
fn bits_of(heap: Global, fields: &[Field]) -> Result<Vec<bool>, Fail> {
    let mut bits = Vec::new(heap);
    for (width, number) in fields {
        for shift in (0..*width).rev() {
            bits.push(number.checked_shr(shift).unwrap_or(0) & 1 == 1)?;
        }
    }
    Ok(bits)
}

// With zeros up to the end of the last byte.
pub fn log_of(heap: Global, fields: &[Field]) -> Result<Vec<u8>, Fail> {
    let bits = bits_of(heap, fields)?;
    let mut log = Vec::new(heap);
    for eight in bits.chunks(8) {
        let mut byte = 0;
        for index in 0..8 {
            byte = byte << 1 | u8::from(eight.get(index).copied().unwrap_or(false));
        }
        log.push(byte)?;
    }
    Ok(log)
}
