//! The frames of a call: what becomes of each its fate is asked while nobody of the call holds the turn.

ghost use Rattle.std.specs.Prelude.{◌≡◌, []};
ghost use Rattle.cas_board.specs.Changes.{IsCounted};
ghost use Rattle.cas_board_steps.specs.Calls.Changes.{harm_by};
ghost use Rattle.cas_board_steps.specs.Mine.{FrontGoesOn, wanted_by};
ghost use Rattle.cas_board.specs.Passes.{IsPassOf};

use crate::board::{Board, Pass};
use crate::fates::Holds;
use cas_board_steps::{Waiting, let_in};
use cas_disk::Disk;
use cas_fate::{Fate, Verdict};
use std::sync::Wait;

impl<D: Disk> Board<D> {
    /// What becomes of the frame that waits: its fate is asked first whether a late frame strays in. A frame that was repeated is handled
    /// again, and of that its fate is not asked.
    pub(crate) fn verdict_on<R: Wait, F: Fate>(
        &self,
        rt: &R,
        pass: &mut Pass<D>,
        fate: &mut F,
        holds: &mut Holds,
        frame: &Waiting,
        again: bool,
    ) -> Verdict
        requires pass { IsPassOf self.now pass.old }
        ensures pass { pass.new ≡ record pass.old { seen = pass.new.seen } }
        ensures front { FrontGoesOn pass.old.number pass.old.seen pass.new.seen [] }
        ensures wanted { wanted_by pass.old.number pass.new.seen
            ≡ wanted_by pass.old.number pass.old.seen }
        ensures counted { IsCounted (harm_by result)
            (F.harm_count fate.old) (F.harm_count fate.new) }
    {
        self.let_in_once(rt, pass, fate, frame.late);
        if again {
            return Verdict::Deliver;
        }
        holds.verdict(fate, frame.leg, frame.peer)
    }

    /// What becomes of the frame of an exchange that waits, if one does.
    pub(crate) fn verdict_for<R: Wait, F: Fate>(
        &self,
        rt: &R,
        pass: &mut Pass<D>,
        fate: &mut F,
        holds: &mut Holds,
        waits: &Option<Waiting>,
        again: bool,
    ) -> Verdict
        requires pass { IsPassOf self.now pass.old }
        ensures pass { pass.new ≡ record pass.old { seen = pass.new.seen } }
        ensures front { FrontGoesOn pass.old.number pass.old.seen pass.new.seen [] }
        ensures wanted { wanted_by pass.old.number pass.new.seen
            ≡ wanted_by pass.old.number pass.old.seen }
        ensures counted { IsCounted (harm_by result)
            (F.harm_count fate.old) (F.harm_count fate.new) }
    {
        match waits {
            Some(frame) => self.verdict_on(rt, pass, fate, holds, frame, again),
            None => Verdict::Deliver,
        }
    }

    /// A hold in which a late frame strays in, if the fate names one.
    fn let_in_once<R: Wait, F: Fate>(&self, rt: &R, pass: &mut Pass<D>, fate: &mut F, late: usize)
        requires pass { IsPassOf self.now pass.old }
        ensures pass { pass.new ≡ record pass.old { seen = pass.new.seen } }
        ensures front { FrontGoesOn pass.old.number pass.old.seen pass.new.seen [] }
        ensures wanted { wanted_by pass.old.number pass.new.seen
            ≡ wanted_by pass.old.number pass.old.seen }
        ensures harms { F.harm_count fate.new ≡ F.harm_count fate.old }
    {
        let Some(index) = fate.stray(late) else {
            return;
        };
        if index < late {
            let mut shared = self.turn.hold(rt, pass);
            let_in(&mut shared.world, index);
            self.give_back(rt, pass, shared);
        }
    }
}
