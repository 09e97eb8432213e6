// Playing a job: the text that `stem` prints for its input.
#![tactic(auto)]

pub mod last;
pub mod playback;
pub mod stem;
