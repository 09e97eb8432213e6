// Pitches, and the worked examples.
use pitch::Tone;
use std::io;

// The note A of 440 Hz at 10 MHz, of a cycle of 256 words and of one of 64.
pub fn show_pitches(rt: &HostRuntime) -> io::Result<()> {
    for words in [256, 64] {
        let tone = Tone {
            frequency: 44_000,
            clock: 10_000_000,
            words,
        };
        match tone.fd() {
            Ok(fd) => println!(rt; "tuned a cycle of {words} words to 440 Hz: FD {fd}")?,
            Err(refusal) => println!(rt; "was refused a pitch: {}", refusal.number())?,
        }
    }
    if soundings::hold() {
        println!(rt; "carried out the worked examples, and all came out")
    } else {
        println!(rt; "carried out the worked examples, and not all came out")
    }
}
