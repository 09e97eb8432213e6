// Records in a row, of whatever make.
ghost use Rattle.std.specs.Prelude.{◌≡◌, List, map, length};
ghost use Rattle.std.specs.List.{slice_get};
ghost use Rattle.std.specs.Option.{option_map};
ghost use Rattle.register_log.specs.Record.{Entry, values};

use register_log::record::Record;

// A recording goes through the records twice: it looks at all before it writes.
pub trait Records: Copy {
    ghost entries: { Self → List Entry };

    fn count(&self) -> usize
        ensures { result ≡ length (entries self.now) };

    fn at(&self, index: usize) -> Option<Record<'_>>
        ensures { option_map values result ≡ slice_get (entries self.now) index };
}

impl Records for &[Record<'_>] {
    ghost entries = { λ records. map values records.now };

    fn count(&self) -> usize {
        self.len()
    }

    fn at(&self, index: usize) -> Option<Record<'_>> {
        self.get(index).copied()
    }
}
