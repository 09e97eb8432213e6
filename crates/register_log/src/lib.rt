// Register logs: what was written to a sound chip, and when.
#![tactic(auto)]

mod bit_reader;
mod bit_writer;
pub mod fault;
pub mod header;
pub mod layout;
pub mod reader;
pub mod record;
pub mod recording;
pub mod refusal;
pub mod tag;
