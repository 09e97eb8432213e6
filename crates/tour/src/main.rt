// A tour of the package: one task from beginning to end, and a line for each thing that was done.
#![tactic(auto)]

mod chips;
mod logs;
mod memories;
mod pitches;
mod stems;
mod tune;

use std::io;

fn main(rt: HostRuntime) -> io::Result<()> {
    memories::show_board(&rt)?;
    memories::show_comparison(&rt)?;
    chips::show_chip(&rt)?;
    pitches::show_pitches(&rt)?;
    let mut buffer = [0; 128];
    let log = logs::record_tune(&rt, &mut buffer)?;
    logs::show_contents(&rt, log)?;
    stems::show_stems(&rt, log)
}
