// A writer of fields: numbers of some bits, packed into bytes without gaps, the most significant bit first.
ghost use Rattle.std.specs.Prelude.{◌≡◌, ◌+◌, ◌*◌, ◌%◌, ◌^◌, ◌<◌, ◌≤◌, [], ◌∷◌, map, length};
ghost use Rattle.register_log.specs.Fields.{bytes_for, written};
ghost use Rattle.register_log.specs.Record.{octet};
ghost use Rattle.register_log.specs.BitWriter.{Wrote};

// A buffer, and a place in it in bits, up to which it is written. A bound on the place is asked of each call: in the type it
// would have to hold afterwards too, and be asked all the same.
#[derive(Drop)]
pub(crate) struct BitWriter<'a> {
    pub(crate) buffer: &'a mut [u8],
    pub(crate) place: usize,
}

impl BitWriter<'_> {
    // Writes a field, and zeros after it up to the end of its last byte.
    pub(crate) fn put(&mut self, width: usize, value: u32)
        requires width { (1 ≤ width) × (width ≤ 24) }
        requires fits { value < 2 ^ width }
        requires room { self.old.place + width ≤ 8 * length self.old.buffer.now }
        requires small { self.old.place + width < 2 ^ 32 }
        ensures { Wrote self.old self.new ((width, value) ∷ []) }
    {
        write(self.buffer, self.place, width, value);
        self.place += width;
    }

    // Moves to the next byte boundary, over zeros that are there.
    pub(crate) fn align(&mut self)
        requires { self.old.place < 2 ^ 32 }
        ensures buffer { self.new.buffer ≡ self.old.buffer }
        ensures place { self.new.place ≡ 8 * bytes_for self.old.place }
    {
        self.place = self.place.next_multiple_of(8);
    }

    // Writes bytes from a byte boundary on.
    pub(crate) fn bytes(&mut self, bytes: &[u8])
        requires aligned { self.old.place % 8 ≡ 0 }
        requires room { self.old.place + 8 * length bytes.now ≤ 8 * length self.old.buffer.now }
        requires small { self.old.place + 8 * length bytes.now < 2 ^ 32 }
        ensures { Wrote self.old self.new (map octet bytes.now) }
    {
        copy(self.buffer, self.place / 8, bytes);
        self.place += 8 * bytes.len();
    }
}

fn write(buffer: &mut [u8], place: usize, width: usize, value: u32)
    requires width { (1 ≤ width) × (width ≤ 24) }
    requires fits { value < 2 ^ width }
    requires room { place + width ≤ 8 * length buffer.old }
    requires small { place < 2 ^ 32 }
    ensures { buffer.new ≡ written buffer.old place ((width, value) ∷ []) }
{
    let first = place / 8;
    let kept = place % 8;
    let count = (kept + width).div_ceil(8);
    let front = u32::from(buffer[first]) >> (8 - kept);
    let bits = (front << width | value) << (32 - kept - width);
    let bytes = bits.to_be_bytes();
    buffer[first..first + count].copy_from_slice(&bytes[0..count]);
}

fn copy(buffer: &mut [u8], first: usize, bytes: &[u8])
    requires room { first + length bytes.now ≤ length buffer.old }
    requires small { first < 2 ^ 32 }
    ensures { buffer.new ≡ written buffer.old (8 * first) (map octet bytes.now) }
{
    buffer[first..first + bytes.len()].copy_from_slice(bytes);
}
