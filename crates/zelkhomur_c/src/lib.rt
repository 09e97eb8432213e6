// What C links: each function of `exported` under its name in C.
#![tactic(auto)]

ghost use Rattle.std.specs.Prelude.{◌≡◌, ◌++◌, length, map, None};
ghost use Rattle.outcome.specs.Outcome.{granted, kept};
ghost use Rattle.wave.specs.Lent.{beyond};
ghost use Rattle.voice.specs.Frame.{side_contributions};
ghost use Rattle.voice.specs.declared.stereo.SideName.TheVariants.{Left, Right};
ghost use Rattle.chip.specs.Port.{write, read, inspect, tick};
ghost use Rattle.chip.specs.Registers.{made, reset, latest};
ghost use Rattle.pitch.specs.Pitch.{fd};
ghost use Rattle.player.specs.Step.{new};
ghost use Rattle.register_log.specs.Header.{header};
ghost use Rattle.whole_log.specs.Outcome.{recording, copied};
ghost use Rattle.exported.specs.Tones.{fd_answer};
ghost use Rattle.exported.specs.Logs.{header_answer, header_of, entry_of, recorded_answer};
ghost use Rattle.exported.specs.States.{setup_of, registers_of, saved_chip, stand_of, saved_stand};
ghost use Rattle.exported.specs.Ports.{bytes_of, chip_over, ram_of, refusal_number, read_answer, filled};
ghost use Rattle.exported.specs.Plays.{step_answer, begun, playing};

use exported::frames::{Frame, Totals, Words};
use exported::logs::{self, FlatRecord, HeaderAnswer, Recorded};
use exported::plays::{self, Played};
use exported::ports::{self, ReadAnswer};
use exported::states::{ChipState, Contributions, PlayerState};
use exported::tones::{self, FdAnswer};

#[unsafe(no_mangle)]
pub extern "C" fn zelkhomur_check_header(log: &[u8]) -> HeaderAnswer
    ensures { result ≡ header_answer (header log.now) }
{
    logs::check_header(log)
}

#[unsafe(no_mangle)]
pub extern "C" fn zelkhomur_fd(frequency: u32, clock: u32, words: u32) -> FdAnswer
    ensures { result ≡ fd_answer (fd (record { frequency = frequency; clock = clock; words = words })) }
{
    tones::fd(frequency, clock, words)
}

#[unsafe(no_mangle)]
pub extern "C" fn zelkhomur_record_log(
    kind: u8,
    clock: u32,
    records: &[FlatRecord],
    bytes: &[u8],
    buffer: &mut [u8],
) -> Recorded
    ensures answer { result
        ≡ recorded_answer
        (recording buffer.old (header_of kind clock) (map (entry_of bytes.now) records.now) None).answer }
    ensures buffer { buffer.new
        ≡ (recording buffer.old (header_of kind clock) (map (entry_of bytes.now) records.now) None).buffer }
{
    logs::record_log(kind, clock, records, bytes, buffer)
}

#[unsafe(no_mangle)]
pub extern "C" fn zelkhomur_copy_log(log: &[u8], buffer: &mut [u8]) -> Recorded
    ensures answer { result ≡ recorded_answer (copied log.now buffer.old).answer }
    ensures buffer { buffer.new ≡ (copied log.now buffer.old).buffer }
{
    logs::copy_log(log, buffer)
}

#[unsafe(no_mangle)]
pub extern "C" fn zelkhomur_new_chip(kind: u8, converter: u8, mutes: u8) -> ChipState
    ensures { result ≡ saved_chip (made (setup_of kind converter mutes)) }
{
    ChipState::new(kind, converter, mutes)
}

#[unsafe(no_mangle)]
pub extern "C" fn zelkhomur_reset(chip: &mut ChipState)
    ensures { chip.new ≡ saved_chip (reset (registers_of chip.old)) }
{
    chip.reset();
}

#[unsafe(no_mangle)]
pub extern "C" fn zelkhomur_write(
    chip: &mut ChipState,
    ram: &mut [u8],
    rom: &[u8],
    address: u16,
    byte: u8,
) -> u8
    ensures answer { result ≡ refusal_number (granted (write (chip_over chip.old ram.old rom.now) address byte)) }
    ensures registers { let c = chip_over chip.old ram.old rom.now in
        chip.new ≡ saved_chip (kept c (write c address byte)).registers }
    ensures ram { let c = chip_over chip.old ram.old rom.now in
        ram.new ≡ ram_of ram.old (kept c (write c address byte)) ++ beyond ram.old }
{
    ports::write(chip, ram, rom, address, byte)
}

#[unsafe(no_mangle)]
pub extern "C" fn zelkhomur_read(
    chip: &ChipState,
    ram: &[u8],
    rom: &[u8],
    address: u16,
) -> ReadAnswer
    ensures { result ≡ read_answer (read (bytes_of ram.now rom.now) (registers_of chip.now) address) }
{
    ports::read(chip, ram, rom, address)
}

#[unsafe(no_mangle)]
pub extern "C" fn zelkhomur_inspect(
    chip: &ChipState,
    ram: &[u8],
    rom: &[u8],
    offset: u16,
    buffer: &mut [u8],
) -> u8
    ensures answer { result
        ≡ refusal_number
        (granted (inspect (bytes_of ram.now rom.now) (registers_of chip.now) offset (length buffer.old))) }
    ensures buffer { buffer.new
        ≡ kept buffer.old (inspect (bytes_of ram.now rom.now) (registers_of chip.now) offset (length buffer.old)) }
{
    ports::inspect(chip, ram, rom, offset, buffer)
}

#[unsafe(no_mangle)]
pub extern "C" fn zelkhomur_tick(
    chip: &mut ChipState,
    ram: &[u8],
    rom: &[u8],
    frame: &mut Frame,
) -> u8
    ensures answer { result ≡ refusal_number (granted (tick (bytes_of ram.now rom.now) (registers_of chip.old))) }
    ensures registers { chip.new
        ≡ saved_chip (kept (registers_of chip.old) (tick (bytes_of ram.now rom.now) (registers_of chip.old))) }
    ensures frame { frame.new ≡ filled frame.old (tick (bytes_of ram.now rom.now) (registers_of chip.old)) }
{
    ports::tick(chip, ram, rom, frame)
}

#[unsafe(no_mangle)]
pub extern "C" fn zelkhomur_tell(chip: &ChipState) -> Contributions
    ensures left { result.left ≡ side_contributions Left (latest (registers_of chip.now)) }
    ensures right { result.right ≡ side_contributions Right (latest (registers_of chip.now)) }
{
    chip.contributions()
}

#[unsafe(no_mangle)]
pub extern "C" fn zelkhomur_new_player() -> PlayerState
    ensures { result ≡ saved_stand new }
{
    PlayerState::new()
}

#[unsafe(no_mangle)]
pub extern "C" fn zelkhomur_play(
    chip: &mut ChipState,
    player: &mut PlayerState,
    log: &[u8],
    ram: &mut [u8],
    rom: &[u8],
    totals: &mut [Totals],
    words: &mut [Words],
) -> Played
    ensures played { let o = playing log.now (begun (chip_over chip.old ram.old rom.now) (stand_of player.old) totals.old words.old) in
        (result.ticks ≡ o.stage.ticks) × (result.last ≡ step_answer o.last) }
    ensures buffers { let o = playing log.now (begun (chip_over chip.old ram.old rom.now) (stand_of player.old) totals.old words.old) in
        (totals.new ≡ o.stage.totals) × (words.new ≡ o.stage.words) }
    ensures states { let o = playing log.now (begun (chip_over chip.old ram.old rom.now) (stand_of player.old) totals.old words.old) in
        (chip.new ≡ saved_chip o.stage.chip.registers) × (player.new ≡ saved_stand o.stage.player) }
    ensures ram { let o = playing log.now (begun (chip_over chip.old ram.old rom.now) (stand_of player.old) totals.old words.old) in
        ram.new ≡ ram_of ram.old o.stage.chip ++ beyond ram.old }
{
    plays::play(chip, player, log, ram, rom, totals, words)
}
