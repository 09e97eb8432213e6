// The text of a number, written without a formatter: a tick has two of them.
ghost use Rattle.std.specs.Prelude.{◌≡◌, ◌+◌, ◌≤◌, ◌<◌, length};
ghost use Rattle.std.specs.Fmt.{decimal, signed_decimal};
ghost use Rattle.lines.specs.Placed.{placed, paired};

// The most bytes of a number.
pub(crate) const LONGEST_NUMBER: usize = 11;

// Writes a number from a place on, and answers the place behind it.
#[tactic(auto, using(crate::proofs::Steps::number_step))]
pub(crate) fn put_number(buffer: &mut [u8], place: usize, number: i32) -> usize
    requires { place + LONGEST_NUMBER ≤ length buffer.old }
    ensures buffer { buffer.new ≡ placed buffer.old place (signed_decimal number) }
    ensures place { result ≡ place + length (signed_decimal number) }
    ensures within { result ≤ place + LONGEST_NUMBER }
{
    if number < 0 {
        buffer[place] = b'-';
        put_digits(buffer, place + 1, number.unsigned_abs())
    } else {
        put_digits(buffer, place, number.unsigned_abs())
    }
}

#[tactic(auto, using(crate::proofs::Steps::digits_step))]
fn put_digits(buffer: &mut [u8], place: usize, number: u32) -> usize
    requires { place + length (decimal number) ≤ length buffer.old }
    ensures buffer { buffer.new ≡ placed buffer.old place (decimal number) }
    ensures place { result ≡ place + length (decimal number) }
{
    let end = place + count_digits(number);
    let mut rest = number;
    let mut last = end - 1;
    // two digits at once: a division takes longer than all else here
    while rest >= 100 {
        put_pair(buffer, last, rest % 100);
        rest /= 100;
        last -= 2;
    }
    put_short(buffer, place, rest);
    end
}

// Writes a number of one or two digits from a place on.
#[tactic(auto, using(crate::proofs::Steps::digits_step))]
fn put_short(buffer: &mut [u8], place: usize, number: u32)
    requires { (number < 100) × (place + length (decimal number) ≤ length buffer.old) }
    ensures { buffer.new ≡ placed buffer.old place (decimal number) }
{
    if number >= 10 {
        put_pair(buffer, place + 1, number);
    } else {
        buffer[place] = digit(number);
    }
}

// Writes both digits of a number, the second to the last place.
fn put_pair(buffer: &mut [u8], last: usize, number: u32)
    requires { (number < 100) × (1 ≤ last) × (last < length buffer.old) }
    ensures { buffer.new ≡ paired buffer.old last number }
{
    buffer[last] = digit(number % 10);
    buffer[last - 1] = digit(number / 10);
}

fn digit(number: u32) -> u8
    requires { number < 10 }
    ensures { result ≡ 48 + number }
{
    b'0' + number as u8
}

#[tactic(auto, using(crate::proofs::Digits::digits_counted))]
fn count_digits(number: u32) -> usize
    ensures { result ≡ length (decimal number) }
{
    match number {
        0..=9 => 1,
        10..=99 => 2,
        100..=999 => 3,
        1_000..=9_999 => 4,
        10_000..=99_999 => 5,
        100_000..=999_999 => 6,
        1_000_000..=9_999_999 => 7,
        10_000_000..=99_999_999 => 8,
        100_000_000..=999_999_999 => 9,
        1_000_000_000.. => 10,
    }
}

#[cfg(test)]
mod tests {
    use super::*;

    const NUMBERS: [(i32, &'static [u8]); 18] = [
        (0, b"0"),
        (1, b"1"),
        (-1, b"-1"),
        (9, b"9"),
        (10, b"10"),
        (-10, b"-10"),
        (99, b"99"),
        (100, b"100"),
        (101, b"101"),
        (-999, b"-999"),
        (1_000, b"1000"),
        (12_345, b"12345"),
        (121_440, b"121440"),
        (-121_440, b"-121440"),
        (9_999_999, b"9999999"),
        (-1_000_000_000, b"-1000000000"),
        (i32::MAX, b"2147483647"),
        (i32::MIN, b"-2147483648"),
    ];

    #[test]
    fn numbers(rt: HostRuntime) {
        for (number, text) in NUMBERS {
            let mut buffer = [b'.'; 13];
            let end = put_number(&mut buffer, 1, number);
            assert_eq!(rt; buffer.get(1..end), Some(text));
            assert_eq!(rt; buffer.get(end), Some(&b'.'));
        }
    }
}
