// The calls of a chip over numbers: each loads the chip, carries out the call, and saves it again.
ghost use Rattle.std.specs.Prelude.{◌≡◌, ◌++◌, length};
ghost use Rattle.outcome.specs.Outcome.{granted, kept};
ghost use Rattle.wave.specs.Lent.{beyond};
ghost use Rattle.chip.specs.Port.{write, read, inspect, tick};
ghost use Rattle.exported.specs.States.{registers_of, saved_chip};
ghost use Rattle.exported.specs.Ports.{bytes_of, chip_over, ram_of, refusal_number, read_answer, filled};

use crate::frames::Frame;
use crate::memories::{resume, resume_reading};
use crate::numbers::NO_REFUSAL;
use crate::states::ChipState;
use chip::refusal::Refusal;
use voice::frame::Frame as VoiceFrame;

// The byte of a read, or why it is refused.
#[repr(C)]
#[derive(Clone, Copy, PartialEq, Eq, Debug)]
pub struct ReadAnswer {
    // 0, or the refusal's number
    pub refusal: u8,
    pub byte: u8,
}

fn refusal_number(answer: Result<(), Refusal>) -> u8
    ensures { result ≡ refusal_number answer }
{
    match answer {
        Ok(()) => NO_REFUSAL,
        Err(refusal) => refusal.number(),
    }
}

#[tactic(auto, using(crate::proofs::Boards::as_many))]
pub fn write(chip: &mut ChipState, ram: &mut [u8], rom: &[u8], address: u16, byte: u8) -> u8
    ensures answer { result ≡ refusal_number (granted (write (chip_over chip.old ram.old rom.now) address byte)) }
    ensures registers { let c = chip_over chip.old ram.old rom.now in
        chip.new ≡ saved_chip (kept c (write c address byte)).registers }
    ensures ram { let c = chip_over chip.old ram.old rom.now in
        ram.new ≡ ram_of ram.old (kept c (write c address byte)) ++ beyond ram.old }
{
    let mut answer = Ok(());
    let _ = write_through(chip, ram, rom, address, byte, &mut answer);
    refusal_number(answer)
}

// A write that gives the RAM back.
fn write_through<'a>(
    chip: &mut ChipState,
    ram: &'a mut [u8],
    rom: &[u8],
    address: u16,
    byte: u8,
    answer: &mut Result<(), Refusal>,
) -> &'a mut [u8]
    ensures same_reference { result.ghost_name ≡ ram.entry.ghost_name }
    ensures answer { answer.new ≡ granted (write (chip_over chip.old ram.old rom.now) address byte) }
    ensures registers { let c = chip_over chip.old ram.old rom.now in
        chip.new ≡ saved_chip (kept c (write c address byte)).registers }
    ensures ram { let c = chip_over chip.old ram.old rom.now in
        result.now ≡ ram_of result.now (kept c (write c address byte)) ++ beyond ram.old }
{
    let mut playing = resume(chip, ram, rom);
    *answer = playing.write(address, byte);
    *chip = ChipState::save(playing.registers());
    playing.into_memory().first.into_lent()
}

pub fn read(chip: &ChipState, ram: &[u8], rom: &[u8], address: u16) -> ReadAnswer
    ensures { result ≡ read_answer (read (bytes_of ram.now rom.now) (registers_of chip.now) address) }
{
    match resume_reading(chip, ram, rom).read(address) {
        Ok(byte) => ReadAnswer {
            refusal: NO_REFUSAL,
            byte,
        },
        Err(refusal) => ReadAnswer {
            refusal: refusal.number(),
            byte: 0,
        },
    }
}

// Fills a buffer through the window, from an offset on.
pub fn inspect(chip: &ChipState, ram: &[u8], rom: &[u8], offset: u16, buffer: &mut [u8]) -> u8
    ensures answer { result
        ≡ refusal_number
        (granted (inspect (bytes_of ram.now rom.now) (registers_of chip.now) offset (length buffer.old))) }
    ensures buffer { buffer.new
        ≡ kept buffer.old (inspect (bytes_of ram.now rom.now) (registers_of chip.now) offset (length buffer.old)) }
{
    refusal_number(resume_reading(chip, ram, rom).inspect(offset, buffer))
}

// One tick, which fills the frame.
pub fn tick(chip: &mut ChipState, ram: &[u8], rom: &[u8], frame: &mut Frame) -> u8
    ensures answer { result ≡ refusal_number (granted (tick (bytes_of ram.now rom.now) (registers_of chip.old))) }
    ensures registers { chip.new
        ≡ saved_chip (kept (registers_of chip.old) (tick (bytes_of ram.now rom.now) (registers_of chip.old))) }
    ensures frame { frame.new ≡ filled frame.old (tick (bytes_of ram.now rom.now) (registers_of chip.old)) }
{
    let mut playing = resume_reading(chip, ram, rom);
    let mut ticked = VoiceFrame::default();
    let answer = playing.tick(&mut ticked);
    if answer.is_ok() {
        *frame = Frame::new(ticked);
    }
    *chip = ChipState::save(playing.registers());
    refusal_number(answer)
}
