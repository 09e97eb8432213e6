// Wave memories: what a sound chip reads its samples from, and writes through its window.
#![tactic(auto)]

pub mod access;
pub mod board;
pub mod lent;
pub mod memory;
pub mod ram;
pub mod rom;
pub mod search;
