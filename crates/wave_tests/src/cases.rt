// Accesses, each with the answer that it must have.
use std::process::Abort;
use wave::access::{Access, Answer, perform};
use wave::memory::{Refusal, Store};

pub const WRITTEN: Answer = Ok(None);

pub const PAST_END: Answer = Err(Refusal::PastEnd);

pub const READ_ONLY: Answer = Err(Refusal::ReadOnly);

// The answer to a read.
pub const fn byte(byte: u8) -> Answer {
    Ok(Some(byte))
}

pub fn check_cases<M: Store>(rt: &impl Abort, memory: &mut M, cases: &[(Access, Answer)]) {
    for (access, answer) in cases {
        assert_eq!(rt; perform(memory, *access), *answer);
    }
}
