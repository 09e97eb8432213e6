// Calls on a session, after each of which all stems are looked at beside the mix.
use calls::Call::{Read, Reset, Tell, Tick};
use calls::Reply::{Byte, Contributions};
use session::call::{Answer, Call};
use session::session::Session;
use session::station::Station;
use session::stems::Stems;
use std::process::Abort;
use voice::frame::Side;
use voice::stereo::Stereo;
use voice::voice::Contribution;
use wave::memory::Store;

pub const TICK: Call = Call::Chip(Tick);

pub const RESET: Call = Call::Chip(Reset);

pub const TELL: Call = Call::Chip(Tell);

// A row of stems, each of a group of voices.
pub trait Row: Stems {
    // Looks at each stem beside the mix after a call, and answers the sum of their totals.
    fn check<M: Store>(
        &mut self,
        rt: &impl Abort,
        groups: &[u8],
        call: Call,
        mix: &Station<'_, '_, M>,
    ) -> Stereo<i32>;
}

impl Row for () {
    fn check<M: Store>(
        &mut self,
        rt: &impl Abort,
        groups: &[u8],
        _call: Call,
        _mix: &Station<'_, '_, M>,
    ) -> Stereo<i32> {
        assert!(rt; groups.is_empty());
        Stereo::default()
    }
}

impl<N: Store, R: Row> Row for (Station<'_, '_, N>, R) {
    fn check<M: Store>(
        &mut self,
        rt: &impl Abort,
        groups: &[u8],
        call: Call,
        mix: &Station<'_, '_, M>,
    ) -> Stereo<i32> {
        let [group, others @ ..] = groups else {
            panic!(rt; "a stem of no group");
        };
        let first = check_stem(rt, *group, call, &self.0, mix);
        sum(first, self.1.check(rt, others, call, mix))
    }
}

impl<N: Store> Row for &mut [Station<'_, '_, N>] {
    fn check<M: Store>(
        &mut self,
        rt: &impl Abort,
        groups: &[u8],
        call: Call,
        mix: &Station<'_, '_, M>,
    ) -> Stereo<i32> {
        let mut groups = groups.iter();
        let mut totals = Stereo::default();
        for stem in self.iter_mut() {
            let group = groups.next().expect(rt, "a stem of no group");
            totals = sum(totals, check_stem(rt, *group, call, stem, mix));
        }
        assert!(rt; groups.next().is_none());
        totals
    }
}

fn sum(a: Stereo<i32>, b: Stereo<i32>) -> Stereo<i32> {
    Stereo {
        left: a.left.saturating_add(b.left),
        right: a.right.saturating_add(b.right),
    }
}

// Tries a call. Frames are blank at first and change in granted ticks alone, and buffers in accepted inspections, so that
// totals add up and buffers are equal after every call.
pub fn check_call<M: Store, S: Row>(
    rt: &impl Abort,
    session: &mut Session<'_, '_, M, S>,
    groups: &[u8],
    call: Call,
) {
    session.try_call(call);
    let totals = session.stems.check(rt, groups, call, &session.mix);
    assert_eq!(rt; totals, session.mix.frame.totals(), "{:?}", call);
}

fn check_stem<M: Store, N: Store>(
    rt: &impl Abort,
    group: u8,
    call: Call,
    stem: &Station<'_, '_, N>,
    mix: &Station<'_, '_, M>,
) -> Stereo<i32> {
    assert!(rt; agree(group, call, stem.answer, mix.answer), "{:?}", call);
    check_side(rt, group, stem.frame.left, mix.frame.left);
    check_side(rt, group, stem.frame.right, mix.frame.right);
    assert_eq!(rt; &*stem.buffer, &*mix.buffer);
    stem.frame.totals()
}

// A voice of the group contributes what it does in the mix, any other nothing.
fn check_side(rt: &impl Abort, group: u8, stem: Side, mix: Side) {
    for (voice, (own, all)) in stem.contributions.iter().zip(mix.contributions).enumerate() {
        assert_eq!(rt;
            *own,
            if holds(group, voice) { all } else { 0 },
            "{}",
            voice
        );
    }
}

// Whether a voice, from 0, is in a group.
fn holds(group: u8, voice: usize) -> bool {
    [1, 2, 4, 8, 0x10, 0x20, 0x40, 0x80]
        .get(voice)
        .is_some_and(|bit| group & *bit != 0)
}

// The same answer, but that a voice outside the group stands at its start, of whose place the low byte is 0, and that
// silence is told of it.
fn agree(group: u8, call: Call, stem: Option<Answer>, mix: Option<Answer>) -> bool {
    match (call, stem, mix) {
        (
            Call::Chip(Read(address @ 0x10..=0x1F)),
            Some(Answer::Chip(Ok(Some(Byte(own))))),
            Some(Answer::Chip(Ok(Some(Byte(all))))),
        ) => {
            if holds(group, usize::from(address - 0x10) / 2) {
                own == all
            } else {
                own == 0 || address % 2 == 1
            }
        }
        (
            Call::Chip(Tell),
            Some(Answer::Chip(Ok(Some(Contributions(own))))),
            Some(Answer::Chip(Ok(Some(Contributions(all))))),
        ) => own == told(group, all),
        _ => stem == mix,
    }
}

// What a stem tells where the mix tells so.
fn told(group: u8, mut all: [Contribution; 8]) -> [Contribution; 8] {
    for (voice, each) in all.iter_mut().enumerate() {
        if !holds(group, voice) {
            *each = Contribution::default();
        }
    }
    all
}
