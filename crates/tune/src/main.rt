// Tunes tones: each line of input has a frequency in hundredths of a hertz, a clock in hertz and a count of words, and each
// line of output the FD that plays it, or `refused` and a number.
#![tactic(auto)]

use pitch::Tone;
use std::io;

// A tone of three numbers; one that is not there, or is none, is 0.
fn parse(line: &str) -> Tone {
    let mut numbers = line
        .split_whitespace()
        .map(|word| word.parse().unwrap_or(0));
    Tone {
        frequency: numbers.next().unwrap_or(0),
        clock: numbers.next().unwrap_or(0),
        words: numbers.next().unwrap_or(0),
    }
}

fn main(rt: HostRuntime) -> io::Result<()> {
    let input = io::read_to_string(rt.alloc(), rt.stdin())?;
    for line in input.lines() {
        match parse(line).fd() {
            Ok(fd) => println!(rt; "{fd}")?,
            Err(refusal) => println!(rt; "refused {}", refusal.number())?,
        }
    }
    Ok(())
}
