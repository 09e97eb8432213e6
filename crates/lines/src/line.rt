// The line of a tick.
ghost use Rattle.std.specs.Prelude.{◌≡◌, ◌≤◌, length};
ghost use Rattle.lines.specs.Line.{tick_line, put, behind};

use crate::number::put_number;

// The most bytes of a line: two numbers and what follows each.
pub const LONGEST: usize = 24;

// Writes the line of a tick's two totals from a place on, and answers the place behind it. Where the buffer has no room for
// a longest line there, it writes nothing, and answers the place itself.
pub fn put_tick(buffer: &mut [u8], place: usize, left: i32, right: i32) -> usize
    ensures buffer { buffer.new ≡ put buffer.old place (tick_line left right) }
    ensures place { result ≡ behind buffer.old place (tick_line left right) }
    ensures within { place ≤ length buffer.old → result ≤ length buffer.old }
{
    if buffer.len().saturating_sub(place) < LONGEST {
        return place;
    }
    let after_left = put_number(buffer, place, left);
    buffer[after_left] = b' ';
    let after_right = put_number(buffer, after_left + 1, right);
    buffer[after_right] = b'\n';
    after_right + 1
}

#[cfg(test)]
mod tests {
    use super::*;

    const LINES: [((i32, i32), &'static [u8]); 5] = [
        ((512, 256), b"512 256\n"),
        ((0, 0), b"0 0\n"),
        ((-15_180, 15_180), b"-15180 15180\n"),
        ((121_440, -121_440), b"121440 -121440\n"),
        ((i32::MIN, i32::MIN), b"-2147483648 -2147483648\n"),
    ];

    #[test]
    fn lines(rt: HostRuntime) {
        for ((left, right), line) in LINES {
            let mut buffer = [b'.'; LONGEST + 3];
            let end = put_tick(&mut buffer, 2, left, right);
            assert_eq!(rt; buffer.get(2..end), Some(line));
            assert_eq!(rt; buffer.get(end), Some(&b'.'));
        }
    }

    #[test]
    fn room(rt: HostRuntime) {
        let mut buffer = [b'.'; 30];
        for (place, end) in [
            (6, 10),
            (7, 7),
            (30, 30),
            (31, 31),
            (usize::MAX, usize::MAX),
        ] {
            assert_eq!(rt; put_tick(&mut buffer, place, 0, 0), end);
        }
        assert_eq!(rt; &buffer, b"......0 0\n....................");
    }
}
