// Voices of a sound chip: one voice over one tick, the frame of eight voices, and the first clip of a list of totals.
#![tactic(auto)]

pub mod clip;
pub mod frame;
pub mod stereo;
pub mod voice;
