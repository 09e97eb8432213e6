// Plays a register log: a byte for the mute set and the log come from standard input.
#![tactic(auto)]

use render::stem;
use std::io;

fn main(rt: HostRuntime) -> io::Result<()> {
    stem::unless_reader_left(stem::run(rt.alloc(), rt.stdin(), &mut io::writer(&rt)))
}
