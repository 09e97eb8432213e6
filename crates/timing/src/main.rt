// Work to be timed from outside. One line of input says what: `ticks`, the voices that sound and how many ticks; or
// `record` or `read`, of `short` records or of `blocks`, and how often a log of the longest length is gone through.
#![tactic(auto)]

mod logs;
mod ticks;

use std::io;

fn main(rt: HostRuntime) -> io::Result<()> {
    let input = io::read_to_string(rt.alloc(), rt.stdin())?;
    let mut words = input.split_whitespace();
    let work = words.next().unwrap_or("");
    let kind = words.next().unwrap_or("");
    let count = words.next().and_then(|word| word.parse().ok()).unwrap_or(0);
    match (work, kind) {
        ("ticks", voices) => ticks::run(&rt, voices.parse().unwrap_or(0), count),
        ("record", "blocks") => logs::record(&rt, &[logs::BLOCK], count),
        ("record", _) => logs::record(&rt, &logs::SHORT, count),
        ("read", "blocks") => logs::read(&rt, &[logs::BLOCK], count),
        ("read", _) => logs::read(&rt, &logs::SHORT, count),
        _ => println!(rt; "nothing to do"),
    }
}
