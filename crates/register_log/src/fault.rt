// What is wrong with a log.
ghost use Rattle.std.specs.Prelude.{◌≡◌};
ghost use Rattle.register_log.specs.Fault.{number};

#[derive(Clone, Copy, PartialEq, Eq, Debug)]
pub enum Fault {
    // fewer bytes than a header has, or more than a log may have
    Length = 7,
    // a wrong header field
    Header = 8,
    // a record that the log's end cuts short
    Cut = 9,
    // a tag that no record has
    Tag = 10,
    // a field out of its range
    Range = 11,
    // a padding bit that is set, or bytes after the end
    Padding = 12,
}

impl Fault {
    pub fn number(self) -> u8
        ensures { result ≡ number self }
    {
        self as u8
    }
}
