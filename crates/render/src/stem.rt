// What `stem` does between its input and its output.
ghost use Rattle.std.specs.Prelude.{◌≡◌, ◌≤◌, ◌^◌, ◌≢◌, length, IfSome, IfOk, IfErr, IsOk, OnOk};
ghost use Rattle.std.specs.Io.KnownBytes.{Appends};
ghost use Rattle.std.specs.IoError.{error_kind};
ghost use Rattle.lines.specs.Line.{longest};
ghost use Rattle.register_log.specs.Header.{header};
ghost use Rattle.job.specs.Job.{Work, kind};
ghost use Rattle.render.specs.Playback.{rest};
ghost use Rattle.render.specs.Stem.{zeros, played, printed};

use crate::playback::Playback;
use chip::chip::Chip;
use chip::registers::Setup;
use job::Job;
use std::alloc::{AllocError, Global};
use std::io;
use std::io::{ErrorKind, Read, Write};
use voice::frame::Converter;
use wave::board::Board;
use wave::memory::Store;
use wave::ram::Ram;

// How many bytes each of the board's two RAMs has.
const RAM_SIZE: usize = 32_768;

// How many bytes of text are written at once, at most.
const BUFFER_SIZE: usize = 65_536;

// Reads an input, and writes what its log sounds like.
pub fn run<R: Read + Drop, W: Write>(alloc: Global, input: R, output: &mut W) -> io::Result<()>
    ensures { OnOk result (IfSome (R.remaining input) (λ bytes.
        Appends (W.contents output.old) (W.contents output.new) (printed bytes))) }
{
    let mut bytes = Vec::new(alloc);
    // one byte more than the longest input that is played tells that there is more
    input.take(job::MOST as u64 + 2).read_to_end(&mut bytes)?;
    answer(alloc, &bytes, output)
}

fn answer<W: Write>(alloc: Global, input: &[u8], output: &mut W) -> io::Result<()>
    ensures { OnOk result (Appends (W.contents output.old) (W.contents output.new) (printed input.now)) }
{
    match Job::read(input) {
        Ok(job) => play(alloc, job, output),
        Err(refusal) => writeln!(output, "{refusal}"),
    }
}

fn play<W: Write>(alloc: Global, job: Job<'_>, output: &mut W) -> io::Result<()>
    ensures { let w : Work = record { mutes = job.entry.mutes; log = job.entry.log.now } in
        OnOk result (Appends (W.contents output.old) (W.contents output.new) (played w)) }
{
    let mut first = new_ram(alloc)?;
    let mut second = new_ram(alloc)?;
    let board = Board {
        first: Ram::new(&mut first),
        second: Ram::new(&mut second),
    };
    let mut buffer = vec![in alloc; 0u8; BUFFER_SIZE]?;
    let mut playback = Playback::new(Chip::new(board, setup(job)), job.log);
    write_out(&mut playback, &mut buffer, output)
}

fn new_ram(alloc: Global) -> Result<Vec<u8>, AllocError>
    ensures { IfOk result (λ ram. ram.items ≡ zeros) }
{
    vec![in alloc; 0u8; RAM_SIZE]
}

fn setup(job: Job<'_>) -> Setup
    ensures { let k = kind (header job.entry.log.now) in
        result ≡ record { kind = k; converter = Converter.Bits16; mutes = job.entry.mutes } }
{
    Setup {
        kind: job.kind(),
        converter: Converter::Bits16,
        mutes: job.mutes,
    }
}

// Writes all that is left of a playback, by way of a buffer.
#[tactic(auto, using(crate::proofs::Outputs::appends_piece))]
fn write_out<M: Store, W: Write>(
    playback: &mut Playback<'_, M>,
    buffer: &mut [u8],
    output: &mut W,
) -> io::Result<()>
    requires { longest ≤ length buffer.old }
    ensures { OnOk result (Appends (W.contents output.old) (W.contents output.new) (rest M.bytes M.takes playback.old)) }
{
    let last = loop {
        let piece = playback.fill(buffer);
        output.write_all(&buffer[..piece.length])?;
        if let Some(last) = piece.last {
            break last;
        }
    };
    writeln!(output, "{last}")
}

// What becomes of a failure to write. A reader of the output that has gone away wants no more of it: that is none.
pub fn unless_reader_left(written: io::Result<()>) -> io::Result<()>
    ensures ok { IsOk written → IsOk result }
    ensures reader_left { IfErr written (λ e. error_kind e ≡ ErrorKind.BrokenPipe → IsOk result) }
    ensures failed { IfErr written (λ e. error_kind e ≢ ErrorKind.BrokenPipe → result ≡ Err e) }
{
    match written {
        Err(error) if error.kind() == ErrorKind::BrokenPipe => Ok(()),
        other => other,
    }
}
