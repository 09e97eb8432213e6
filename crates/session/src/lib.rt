// Stem sessions: a mix and its stems, on which the same calls are tried.
#![tactic(auto)]

pub mod call;
pub mod groups;
pub mod session;
pub mod station;
pub mod stems;
