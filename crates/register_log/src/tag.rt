// Tags: what a record, or the end, begins with.
ghost use Rattle.register_log.specs.Tag.{Tells};

use crate::fault::Fault;

#[derive(Clone, Copy, PartialEq, Eq, Debug)]
pub enum Tag {
    End = 0,
    Register = 1,
    Window = 2,
    Wait = 3,
    Block = 4,
}

// How many bits a tag has.
pub(crate) const BITS: usize = 3;

impl TryFrom<u32> for Tag {
    type Error = Fault;

    ghost try_from_gives = { Tells };

    fn try_from(number: u32) -> Result<Tag, Fault> {
        match number {
            0 => Ok(Tag::End),
            1 => Ok(Tag::Register),
            2 => Ok(Tag::Window),
            3 => Ok(Tag::Wait),
            4 => Ok(Tag::Block),
            _ => Err(Fault::Tag),
        }
    }
}
