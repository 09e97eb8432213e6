// Playing a log over numbers, until the player stops or the lent buffers are full.
ghost use Rattle.std.specs.Prelude.{◌≡◌, ◌++◌};
ghost use Rattle.wave.specs.Lent.{beyond};
ghost use Rattle.chip.specs.Chip.{state};
ghost use Rattle.player.specs.Step.{stand};
ghost use Rattle.exported.specs.States.{stand_of, saved_chip, saved_stand};
ghost use Rattle.exported.specs.Ports.{chip_over, ram_of};
ghost use Rattle.exported.specs.Plays.{step_answer, stage, begun, outcome, playing};

use crate::frames::{Totals, Words};
use crate::memories::resume;
use crate::numbers::NO_REFUSAL;
use crate::states::{ChipState, PlayerState};
use chip::chip::Chip;
use player::fault::Fault;
use player::player::{Player, Progress};
use voice::frame::Frame;
use wave::memory::Store;

// What a player's step came to, by number.
const TAKEN: u8 = 0;

const TICKED: u8 = 1;

const ENDED: u8 = 2;

const FAULT: u8 = 3;

// What a player's step came to.
#[repr(C)]
#[derive(Clone, Copy, PartialEq, Eq, Debug)]
pub struct StepAnswer {
    // where the end tag starts, or the faulty record
    pub bit: usize,
    // the host address of a fault, or 0
    pub address: u16,
    // 0 for a header or record, 1 for a tick, 2 at the end, 3 for a fault
    pub progress: u8,
    // the number of a fault, or 0
    pub number: u8,
}

// How many ticks were played, and why it was left off: 0 if the buffers are full, else as of the step that stopped it.
#[repr(C)]
#[derive(Clone, Copy, PartialEq, Eq, Debug)]
pub struct Played {
    pub ticks: usize,
    pub last: StepAnswer,
}

fn step_answer(answer: Result<Progress, Fault>) -> StepAnswer
    ensures { result ≡ step_answer answer }
{
    let taken = StepAnswer {
        bit: 0,
        address: 0,
        progress: TAKEN,
        number: NO_REFUSAL,
    };
    match answer {
        Ok(Progress::Taken) => taken,
        Ok(Progress::Ticked) => StepAnswer {
            progress: TICKED,
            ..taken
        },
        Ok(Progress::Ended(bit)) => StepAnswer {
            bit,
            progress: ENDED,
            ..taken
        },
        Err(fault) => StepAnswer {
            bit: fault.bit(),
            address: fault.address(),
            progress: FAULT,
            number: fault.number(),
        },
    }
}

// Plays on, and fills the buffers from the front.
#[tactic(auto, using(crate::proofs::Boards::as_many))]
pub fn play(
    chip: &mut ChipState,
    player: &mut PlayerState,
    log: &[u8],
    ram: &mut [u8],
    rom: &[u8],
    totals: &mut [Totals],
    words: &mut [Words],
) -> Played
    ensures played { let o = playing log.now (begun (chip_over chip.old ram.old rom.now) (stand_of player.old) totals.old words.old) in
        (result.ticks ≡ o.stage.ticks) × (result.last ≡ step_answer o.last) }
    ensures buffers { let o = playing log.now (begun (chip_over chip.old ram.old rom.now) (stand_of player.old) totals.old words.old) in
        (totals.new ≡ o.stage.totals) × (words.new ≡ o.stage.words) }
    ensures states { let o = playing log.now (begun (chip_over chip.old ram.old rom.now) (stand_of player.old) totals.old words.old) in
        (chip.new ≡ saved_chip o.stage.chip.registers) × (player.new ≡ saved_stand o.stage.player) }
    ensures ram { let o = playing log.now (begun (chip_over chip.old ram.old rom.now) (stand_of player.old) totals.old words.old) in
        ram.new ≡ ram_of ram.old o.stage.chip ++ beyond ram.old }
{
    let mut played = Played {
        ticks: 0,
        last: step_answer(Ok(Progress::Taken)),
    };
    let _ = play_through(chip, player, log, ram, rom, totals, words, &mut played);
    played
}

// Playing that gives the RAM back.
fn play_through<'a>(
    chip: &mut ChipState,
    player: &mut PlayerState,
    log: &[u8],
    ram: &'a mut [u8],
    rom: &[u8],
    totals: &mut [Totals],
    words: &mut [Words],
    played: &mut Played,
) -> &'a mut [u8]
    ensures same_reference { result.ghost_name ≡ ram.entry.ghost_name }
    ensures played { let o = playing log.now (begun (chip_over chip.old ram.old rom.now) (stand_of player.old) totals.old words.old) in
        (played.new.ticks ≡ o.stage.ticks) × (played.new.last ≡ step_answer o.last) }
    ensures buffers { let o = playing log.now (begun (chip_over chip.old ram.old rom.now) (stand_of player.old) totals.old words.old) in
        (totals.new ≡ o.stage.totals) × (words.new ≡ o.stage.words) }
    ensures states { let o = playing log.now (begun (chip_over chip.old ram.old rom.now) (stand_of player.old) totals.old words.old) in
        (chip.new ≡ saved_chip o.stage.chip.registers) × (player.new ≡ saved_stand o.stage.player) }
    ensures ram { let o = playing log.now (begun (chip_over chip.old ram.old rom.now) (stand_of player.old) totals.old words.old) in
        result.now ≡ ram_of result.now o.stage.chip ++ beyond ram.old }
{
    let mut sounding = resume(chip, ram, rom);
    let mut reading = Player::resume(log, player.place, player.state());
    let (ticks, last) = play_on(&mut sounding, &mut reading, totals, words);
    *played = Played {
        ticks,
        last: step_answer(last),
    };
    *chip = ChipState::save(sounding.registers());
    *player = PlayerState::save(reading.place(), reading.state());
    sounding.into_memory().first.into_lent()
}

fn play_on<M: Store>(
    chip: &mut Chip<M>,
    player: &mut Player<'_>,
    totals: &mut [Totals],
    words: &mut [Words],
) -> (usize, Result<Progress, Fault>)
    ensures played { outcome (stage (state M.bytes M.takes chip.new) (stand player.new) result.0 totals.new words.new) result.1
        ≡ playing player.old.reader.log.now (begun (state M.bytes M.takes chip.old) (stand player.old) totals.old words.old) }
    ensures same_borrows { M.borrows chip.new.memory ≡ M.borrows chip.old.memory }
{
    let mut frame = Frame::default();
    let mut ticks = 0;
    while ticks < totals.len() && ticks < words.len() {
        match player.step(chip, &mut frame) {
            Ok(Progress::Taken) => {}
            Ok(Progress::Ticked) => {
                totals[ticks] = Totals::new(&frame);
                words[ticks] = Words::new(&frame);
                ticks += 1;
            }
            Ok(Progress::Ended(bit)) => return (ticks, Ok(Progress::Ended(bit))),
            Err(fault) => return (ticks, Err(fault)),
        }
    }
    (ticks, Ok(Progress::Taken))
}
