// A log that is played on a chip, as the text of its ticks: piece by piece, into a lent buffer.
ghost use Rattle.std.specs.Prelude.{◌≡◌, ◌+◌, ◌<◌, ◌≤◌, ◌++◌, length, take, drop, Some, None, IfSome};
ghost use Rattle.lines.specs.Line.{longest};
ghost use Rattle.player.specs.Step.{stand, new};
ghost use Rattle.chip.specs.Chip.{state};
ghost use Rattle.render.specs.Text.{text, closed};
ghost use Rattle.render.specs.Last.{ending};
ghost use Rattle.render.specs.Playback.{rest, PlaysOn};

use crate::last::Last;
use chip::chip::Chip;
use lines::line::{LONGEST, put_tick};
use player::player::{Player, Progress, State};
use voice::frame::Frame;
use wave::memory::Store;

#[derive(Drop)]
pub struct Playback<'a, M> {
    chip: Chip<M>,
    player: Player<'a>,
}

// A piece of the text: so many bytes of whole lines, and the last line, once the player has stopped.
#[derive(Clone, Copy, PartialEq, Eq, Debug)]
pub struct Piece {
    pub length: usize,
    pub last: Option<Last>,
}

impl<'a, M: Store> Playback<'a, M> {
    pub fn new(chip: Chip<M>, log: &'a [u8]) -> Playback<'a, M>
        ensures chip { result.chip ≡ chip }
        ensures log { result.player.reader.log.now ≡ log.now }
        ensures stand { stand result.player ≡ new }
        ensures text { rest M.bytes M.takes result ≡ text log.now (state M.bytes M.takes chip) new }
        ensures same_borrows { M.borrows result.chip.memory ≡ M.borrows chip.memory }
    {
        Playback {
            chip,
            player: Player::new(log),
        }
    }

    // Plays on, and writes the lines of the ticks to the buffer's front, until the player stops or the buffer has no room
    // for a longest line. Chip and player are then as the player's steps leave them. Once the player has stopped nothing
    // changes any more, and each piece is empty and has the last line again, whatever room the buffer has.
    pub fn fill(&mut self, buffer: &mut [u8]) -> Piece
        ensures text { rest M.bytes M.takes self.old
            ≡ take result.length buffer.new ++ closed result.last (rest M.bytes M.takes self.new) }
        ensures steps { PlaysOn M.bytes M.takes self.old self.new (take result.length buffer.new) }
        ensures log { self.new.player.reader.log.now ≡ self.old.player.reader.log.now }
        ensures beyond { drop result.length buffer.new ≡ drop result.length buffer.old }
        ensures within { result.length ≤ length buffer.old }
        ensures full { result.last ≡ None → length buffer.old < result.length + longest }
        ensures last { result.last ≡ ending self.new.player.state }
        ensures stopped { IfSome (ending self.old.player.state) (λ last.
            (result ≡ record { length = 0; last = Some last }) × (self.new ≡ self.old) × (buffer.new ≡ buffer.old)) }
        ensures same_borrows { M.borrows self.new.chip.memory ≡ M.borrows self.old.chip.memory }
    {
        let mut frame = Frame::default();
        let mut length = 0;
        while self.ending().is_none() && buffer.len() - length >= LONGEST {
            if let Ok(Progress::Ticked) = self.player.step(&mut self.chip, &mut frame) {
                length = put_tick(buffer, length, frame.left.total, frame.right.total);
            }
        }
        Piece {
            length,
            last: self.ending(),
        }
    }

    // How the playing has ended, if it has.
    fn ending(&self) -> Option<Last>
        ensures { result ≡ ending self.now.player.state }
    {
        match self.player.state() {
            State::Between | State::Waiting { .. } => None,
            State::Ended(_) => Some(Last::End),
            State::Faulted(fault) => Some(Last::Fault(fault)),
        }
    }
}
