// The sound chip: its registers, its host port, and its tick.
#![tactic(auto)]

pub mod chip;
pub mod control;
pub mod port;
pub mod refusal;
pub mod registers;
