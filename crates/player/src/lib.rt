// Playing a log on a chip.
#![tactic(auto)]

pub mod fault;
pub mod player;
