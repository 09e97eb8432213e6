// How a log's playing ended, as the last line says it.
ghost use Rattle.std.specs.Prelude.{Some};
ghost use Rattle.render.specs.Last.{text};

use player::fault::Fault;
use std::fmt;

#[derive(Clone, Copy, PartialEq, Eq, Debug)]
pub enum Last {
    // at the end of the log
    End,
    Fault(Fault),
}

impl fmt::Display for Last {
    ghost output = { λ last. Some (text last) };

    fn fmt<W: fmt::Write>(&self, f: &mut fmt::Formatter<W>) -> fmt::Result {
        match self {
            Last::End => f.write_str("end"),
            Last::Fault(fault) => {
                let number = fault.number();
                let layer = fault.layer();
                let bit = fault.bit();
                let address = fault.address();
                write!(f, "fault {number} {layer} {bit} {address}")
            }
        }
    }
}
