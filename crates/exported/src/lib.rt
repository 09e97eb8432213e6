// The package over numbers and lent bytes, as a C interface offers it.
#![tactic(auto)]

pub mod frames;
pub mod logs;
pub(crate) mod memories;
pub(crate) mod numbers;
pub mod plays;
pub mod ports;
pub mod states;
pub mod tones;
