// A station: a chip with a player of a log, and what their calls fill.
ghost use Rattle.std.specs.Prelude.{◌≡◌, ◌∷◌};
ghost use Rattle.wave.specs.Means.{means};
ghost use Rattle.session.specs.Station.{model, all_of, held, begun, tried};

use crate::call::{Answer, Call};
use calls::perform;
use chip::chip::Chip;
use chip::registers::Setup;
use kind::Kind;
use player::player::Player;
use voice::frame::{Converter, Frame};
use wave::memory::{Source, Store};

#[derive(Drop)]
pub struct Station<'a, 'b, M> {
    chip: Chip<M>,
    player: Player<'a>,
    // what the latest granted tick filled
    pub frame: Frame,
    // what an inspection fills
    pub buffer: &'b mut [u8],
    // the answer to the latest call, if one was tried
    pub answer: Option<Answer>,
}

impl<'a, 'b, M: Store> Station<'a, 'b, M> {
    // A new chip that mutes the voices outside a group, and a player of a log that has taken no step. Bit 0 of a group is
    // voice 1: the mix is the station of the group FFH.
    pub fn new(
        group: u8,
        kind: Kind,
        converter: Converter,
        memory: M,
        log: &'a [u8],
        buffer: &'b mut [u8],
    ) -> Station<'a, 'b, M>
        ensures values { model M.bytes M.takes result
            ≡ begun group kind converter (means M.bytes M.takes memory) log.now buffer.old }
        ensures loans { held M.borrows result ≡ all_of buffer.entry.ghost_name ∷ M.borrows memory }
    {
        let setup = Setup {
            kind,
            converter,
            mutes: group ^ 0xFF,
        };
        Station {
            chip: Chip::new(memory, setup),
            player: Player::new(log),
            frame: Frame::default(),
            buffer,
            answer: None,
        }
    }

    // Tries a call, granted or refused.
    pub fn try_call(&mut self, call: Call)
        ensures values { model M.bytes M.takes self.new ≡ tried call (model M.bytes M.takes self.old) }
        ensures same_loans { held M.borrows self.new ≡ held M.borrows self.old }
    {
        self.answer = Some(match call {
            Call::Chip(call) => {
                Answer::Chip(perform(&mut self.chip, call, &mut self.frame, self.buffer))
            }
            Call::Step => Answer::Step(self.player.step(&mut self.chip, &mut self.frame)),
        });
    }
}
