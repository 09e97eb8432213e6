// The calls of a session as values.
use player::fault::Fault;
use player::player::Progress;

#[derive(Clone, Copy, PartialEq, Eq, Debug)]
pub enum Call {
    // a call of the chip
    Chip(calls::Call),
    // a step of the player
    Step,
}

// What a station answers to a call.
#[derive(Clone, Copy, PartialEq, Eq, Debug)]
pub enum Answer {
    Chip(calls::Answer),
    Step(Result<Progress, Fault>),
}
