// The lines that `stem` prints for ticks, as bytes in a lent buffer.
#![tactic(auto)]

pub mod line;
pub(crate) mod number;
