// A reader of the bits of a log.
ghost use Rattle.std.specs.Prelude.{◌≡◌, ◌==◌, ◌+◌, ◌*◌, ◌/◌, ◌%◌, ◌^◌, ◌<◌, ◌≤◌, true, false, length, take, drop, Ok, Err, IfOk, OnOk, MatchResult};
ghost use Rattle.register_log.specs.Fields.{field, bytes_for};
ghost use Rattle.register_log.specs.Header.{most, length_fits};
ghost use Rattle.register_log.specs.Reading.{decode, whole, padded};
ghost use Rattle.register_log.specs.declared.fault.Fault.TheVariants.{Cut, Padding};

use crate::fault::Fault;
use crate::header::{LENGTH, MOST};

// A log of a right length, and a place in it in bits. Each method says that the log stays: the reader that is made of it
// says so once more. Widths are constants of the callers, so their bound is asked and has no type of its own.
#[derive(Drop)]
pub(crate) struct BitReader<'a> {
    log: &'a [u8],
    pub(crate) place: usize,
    ghost within: { place ≤ 8 * length log.now },
    ghost short: { length log.now ≤ most },
}

impl<'a> BitReader<'a> {
    // At a place of a log.
    pub(crate) fn new(log: &'a [u8], place: usize) -> Result<BitReader<'a>, Fault>
        ensures { MatchResult result
            (λ bits. (length_fits log.now ≡ true) × (bits.log.now ≡ log.now) × (bits.place ≡ place))
            (λ fault. decode log.now place ≡ Err fault) }
    {
        if !(LENGTH..=MOST).contains(&log.len()) {
            return Err(Fault::Length);
        }
        if place > 8 * log.len() {
            return Err(Fault::Cut);
        }
        Ok(BitReader { log, place })
    }

    // The number in the next bits, past which the reader moves.
    pub(crate) fn take(&mut self, width: usize) -> Result<u32, Fault>
        requires { width ≤ 24 }
        ensures number { result
            ≡ whole self.old.log.now (self.old.place + width) (Ok (field self.old.log.now self.old.place width)) }
        ensures below { IfOk result (λ n. n < 2 ^ width) }
        ensures place { OnOk result (self.new.place ≡ self.old.place + width) }
        ensures log { self.new.log.now ≡ self.old.log.now }
    {
        if self.place + width > 8 * self.log.len() {
            return Err(Fault::Cut);
        }
        let number = read(self.log, self.place, width);
        self.place += width;
        Ok(number)
    }

    // Moves to the next byte boundary, over bits that are 0.
    pub(crate) fn align(&mut self) -> Result<(), Fault>
        ensures zeros { MatchResult result
            (λ _. padded self.old.log.now self.old.place ≡ true)
            (λ fault. (padded self.old.log.now self.old.place ≡ false) × (fault ≡ Padding)) }
        ensures place { OnOk result (self.new.place ≡ 8 * bytes_for self.old.place) }
        ensures log { self.new.log.now ≡ self.old.log.now }
    {
        let boundary = self.place.next_multiple_of(8);
        if read(self.log, self.place, boundary - self.place) != 0 {
            return Err(Fault::Padding);
        }
        self.place = boundary;
        Ok(())
    }

    // The next bytes, past which the reader moves.
    pub(crate) fn bytes(&mut self, count: usize) -> Result<&'a [u8], Fault>
        requires aligned { self.old.place % 8 ≡ 0 }
        requires count { count ≤ 4096 }
        ensures bytes { MatchResult result
            (λ bytes. (self.old.place + 8 * count ≤ 8 * length self.old.log.now)
            × (bytes.now ≡ take count (drop (self.old.place / 8) self.old.log.now)))
            (λ fault. (8 * length self.old.log.now < self.old.place + 8 * count) × (fault ≡ Cut)) }
        ensures place { OnOk result (self.new.place ≡ self.old.place + 8 * count) }
        ensures log { self.new.log.now ≡ self.old.log.now }
    {
        let first = self.place / 8;
        let bytes = self.log.get(first..first + count).ok_or(Fault::Cut)?;
        self.place += 8 * count;
        Ok(bytes)
    }

    // Whether no bit follows.
    pub(crate) fn at_end(&self) -> bool
        ensures { result ≡ (self.now.place == 8 * length self.now.log.now) }
    {
        self.place == 8 * self.log.len()
    }
}

// The number in the bits from a place on.
fn read(bytes: &[u8], place: usize, width: usize) -> u32
    requires width { width ≤ 24 }
    requires within { place + width ≤ 8 * length bytes.now }
    requires small { place < 2 ^ 32 }
    ensures value { result ≡ field bytes.now place width }
    ensures below { result < 2 ^ width }
{
    let first = place / 8;
    let end = (place + width).div_ceil(8);
    let bits = number(&bytes[first..end]);
    bits >> (8 * end - place - width) & ((1 << width) - 1)
}

// The number in up to four bytes, the most significant first.
fn number(bytes: &[u8]) -> u32
    requires { length bytes.now ≤ 4 }
    ensures { result ≡ field bytes.now 0 (8 * length bytes.now) }
{
    bytes
        .iter()
        .fold(0, |bits, byte| bits << 8 | u32::from(*byte))
}
