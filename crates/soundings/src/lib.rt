// Worked examples: what the rules decide, carried out by the code.
#![tactic(auto)]

ghost use Rattle.std.specs.Prelude.{◌≡◌, ◌↔◌, ◌*◌, true, Some, Ok, IsTrue};
ghost use Rattle.wave.specs.Lent.{used};
ghost use Rattle.voice.specs.Voice.{heard, onward, span, tick};
ghost use Rattle.register_log.specs.Header.{header};
ghost use Rattle.register_log.specs.Reading.{end, found, decode, place_after};
ghost use Rattle.register_log.specs.Record.{register};
ghost use Rattle.pitch.specs.Pitch.{fd};
ghost use Rattle.soundings.specs.Known.{Known, loud, moving, standing, stands_in, heard_at, seven, skipping, both, total, clocked};

use kind::Kind;
use pitch::{Refusal, Tone};
use register_log::header::Header;
use register_log::reader::Reader;
use register_log::record::Record;
use voice::frame::{Converter, Frame, limit};
use voice::stereo::Stereo;
use voice::voice::{Contribution, Voice, latest};
use wave::rom::Rom;

// Whether each example comes to what is known of it. The contract has that the rules give it.
#[tactic(auto, using(crate::proofs::Examples::known))]
pub fn hold() -> bool
    ensures known { Known }
    ensures holds { result ≡ true }
{
    contributions() && totals() && positions() && words() && logs() && pitches()
}

fn contributions() -> bool
    ensures { result ≡ true }
{
    let quiet = Contribution::default();
    heard(0xFE, 255, 0xFF) == both(15_060)
        && heard(0x7F, 255, 0xFF) == both(-15_180)
        && heard(0x80, 255, 0xFF) == quiet
        && heard(0x00, 255, 0xFF) == quiet
        && heard(0xC0, 128, 0x12)
            == Stereo {
                left: 512,
                right: 256,
            }
}

// What a voice contributes that reads a byte.
fn heard(byte: u8, env: u8, pan: u8) -> Contribution
    ensures { result ≡ heard (loud env pan) byte }
{
    let mut voice = Voice::new();
    voice.settings.env = env;
    voice.settings.pan = pan;
    voice.tick(&Rom::new(&[byte]), true);
    voice.latest
}

fn both(size: i16) -> Contribution
    ensures { result ≡ both size }
{
    Stereo {
        left: size,
        right: size,
    }
}

fn totals() -> bool
    ensures { result ≡ true }
{
    let mut lowest = Voice::new();
    lowest.latest = both(-15_180);
    let rest = Voice::new();
    let two = [lowest, lowest, rest, rest, rest, rest, rest, rest];
    let three = [lowest, lowest, lowest, rest, rest, rest, rest, rest];
    let (two, three) = (total(&two), total(&three));
    two == -30_360 && limit(two) == -30_360 && three == -45_540 && limit(three) == -32_768
}

fn total(voices: &[Voice; 8]) -> i32
    ensures { result ≡ total voices.now }
{
    Frame::new(&latest(voices), Converter::Bits16).left.total
}

fn positions() -> bool
    ensures { result ≡ true }
{
    let mut voice = Voice::new();
    voice.settings.st = 0x12;
    voice.position() == 9_437_184
        && voice.place() == 0x1200
        && moved(0, 1, 134_217_727) == 0
        && moved(0x18, 0, 0) == 3 * 2_048
        && moved(0x18, 0, 65_534 * 2_048) == 2_048
        && skips()
}

// Where a voice stands after a tick, over a memory of no bytes.
fn moved(fdh: u8, fdl: u8, from: u32) -> u32
    ensures { result ≡ onward (moving fdh fdl) (Some from) }
{
    let mut voice = Voice::new();
    voice.settings.fdh = fdh;
    voice.settings.fdl = fdl;
    voice.phase = Some(from);
    voice.tick(&Rom::new(&[]), true);
    voice.position()
}

// From place 65,534 round to 1, to 4, to the stop byte in 7 and the loop start, and to 5.
fn skips() -> bool
    ensures { result ≡ true }
{
    skipped()
        == [
            (1, both(239)),
            (4, both(597)),
            (2, both(358)),
            (5, both(717)),
        ]
}

fn skipped() -> [(u16, Contribution); 4]
    ensures { result ≡ heard_at 4 seven (standing skipping (65534 * span)) }
{
    let seven = [0x81, 0x82, 0x83, 0x84, 0x85, 0x86, 0x87, 0xFF];
    let mut voice = Voice::new();
    voice.settings.env = 255;
    voice.settings.pan = 0xFF;
    voice.settings.fdh = 0x18;
    voice.settings.lsl = 2;
    voice.phase = Some(65_534 * 2_048);
    let first = ticked(&mut voice, &seven);
    let second = ticked(&mut voice, &seven);
    let third = ticked(&mut voice, &seven);
    [first, second, third, ticked(&mut voice, &seven)]
}

// Where a voice stands after a tick, and what it contributes.
fn ticked(voice: &mut Voice, bytes: &[u8]) -> (u16, Contribution)
    ensures voice { voice.new ≡ tick (used bytes.now) true voice.old }
    ensures heard { result ≡ (stands_in voice.new, voice.new.latest) }
{
    voice.tick(&Rom::new(bytes), true);
    (voice.place(), voice.latest)
}

fn words() -> bool
    ensures { result ≡ true }
{
    Converter::Bits16.word(0) == 0
        && Converter::Bits10.word(0) == 512
        && Converter::Bits8.word(0) == 128
}

const CLOCKED: Header = Header {
    kind: Kind::Rf5c68a,
    clock: 10_000_000,
};

fn logs() -> bool
    ensures { result ≡ true }
{
    empty_log() && control_log()
}

// A log with nothing but its end.
fn empty_log() -> bool
    ensures { result ≡ true }
{
    let log = [0x10, 0x98, 0x96, 0x80, 0x00];
    let mut reader = Reader::new(&log);
    let clocked = is_clocked(&log);
    let ended = ends(&mut reader);
    clocked & ended
}

// A log that writes C0H to register 7.
fn control_log() -> bool
    ensures { result ≡ true }
{
    let log = [0x10, 0x98, 0x96, 0x80, 0x2F, 0x80, 0x00];
    let mut reader = Reader::new(&log);
    let clocked = is_clocked(&log);
    let written = writes_control(&mut reader);
    let ended = ends(&mut reader);
    clocked & written & ended
}

fn is_clocked(log: &[u8]) -> bool
    ensures { IsTrue result ↔ (header log.now ≡ Ok clocked) }
{
    Header::read(log) == Ok(CLOCKED)
}

// Whether a reader answers a write of C0H to register 7.
fn writes_control(reader: &mut Reader<'_>) -> bool
    ensures written { IsTrue result
        ↔ (decode reader.old.log.now reader.old.place ≡ Ok (found (register 7 192) reader.new.place)) }
    ensures place { reader.new.place
        ≡ place_after reader.old.place (decode reader.old.log.now reader.old.place) }
    ensures log { reader.new.log.now ≡ reader.old.log.now }
{
    matches!(
        reader.next(),
        Ok(Some(Record::Register {
            address: 7,
            byte: 0xC0,
        }))
    )
}

fn ends(reader: &mut Reader<'_>) -> bool
    ensures { IsTrue result ↔ (decode reader.old.log.now reader.old.place ≡ Ok end) }
{
    matches!(reader.next(), Ok(None))
}

fn pitches() -> bool
    ensures { result ≡ true }
{
    fd(44_000) == Ok(8_858) && fd(3_889) == Ok(782)
}

// At 10 MHz, with 256 words a cycle.
fn fd(frequency: u32) -> Result<u16, Refusal>
    ensures { result ≡ fd (record { frequency = frequency; clock = 10000000; words = 256 }) }
{
    let tone = Tone {
        frequency,
        clock: 10_000_000,
        words: 256,
    };
    tone.fd()
}
