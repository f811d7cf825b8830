//! A collection of a deleted key, from the operator's call to its answer.

ghost use Rattle.std.specs.Prelude.{◌≡◌, ◌≤◌, ℕ, [], length, IfOk, IfErr, OnOk, reverse};
ghost use Rattle.cas_record.specs.Legal.{IsLegal};
ghost use Rattle.cas_model_causes.specs.Eras.Tellings.{AreTellingsSo};
ghost use Rattle.cas_model.specs.Collection.Step.{keep_always};
ghost use Rattle.cas_board.specs.Changes.{IsCounted};
ghost use Rattle.cas_board.specs.Operations.{HasOperated, Operates, WasToldLast};
ghost use Rattle.cas_board.specs.Passes.{IsPassOf};
ghost use Rattle.cas_board_steps.specs.Collection.Collecting.{HasCourse, IsTombstoneMark, IsCollectAnswer, IsCollectingMark, most_rounds};
ghost use Rattle.cas_board_steps.specs.Calls.Changes.{IsRefusalBehind, harm_by};
ghost use Rattle.cas_board_steps.specs.Mine.{FrontGoesOn};
ghost use Rattle.cas_board_steps.specs.Calls.Open.{NothingIsOpen, rescanned_in};

use crate::board::{Board, Pass};
use crate::fates::Holds;
use cas_board_steps::{KeyCollection, go_on_collecting, order_collection};
use cas_change::Key;
use cas_disk::Disk;
use cas_fate::{Fate, Verdict};
use cas_record::{Answer, Asked, OpAnswer};
use std::sync::Wait;

impl<D: Disk> Board<D> {
    /// Collects the key, which was deleted, as a call of the operator; gives what the operator is told. The call that buries the key, by a
    /// tombstone, has so many rounds at most, from 1, as a change has, and just so many where it ends with a conflict. The pass is caller 0's.
    /// What becomes of each frame the fate says, and it is asked while this call does not hold the turn.
    ///
    /// What the operator is told is marked last in the front that the pass has seen then: [`OpAnswer::Collected`], [`OpAnswer::NotEmpty`]
    /// where the key holds a state, [`OpAnswer::Busy`] while a change of membership is under way, [`OpAnswer::Absent`],
    /// [`OpAnswer::ProposerDown`], or [`OpAnswer::Stopped`]. A call that is refused with [`Answer::RecordFull`], or with
    /// [`Answer::NoMemory`], may not have been begun: none of caller 0's marks was made then. What a change of membership under way has
    /// counted, a collection leaves.
    pub fn collect<R: Wait, F: Fate>(
        &self,
        rt: &R,
        pass: &mut Pass<D>,
        fate: &mut F,
        key: &Key,
        tries: u32,
    ) -> OpAnswer
        requires pass { IsPassOf self.now pass.old }
        requires operator { pass.old.number ≡ 0 }
        requires free { NothingIsOpen pass.old.own }
        requires some { 1 ≤ tries }
        ensures pass { pass.new ≡ record pass.old { seen = pass.new.seen; own = pass.new.own } }
        ensures free { NothingIsOpen pass.new.own }
        ensures operates { Operates (Asked.Collect key.now) (IsCollectingMark key.now tries)
            (F.harm_count fate.old) (F.harm_count fate.new) pass.old pass.new result }
        ensures answer { IsCollectAnswer key.now result }
        ensures counted { rescanned_in pass.new.own ≡ rescanned_in pass.old.own }
        ensures legal { D.tells → IsLegal (reverse pass.new.seen) }
        ensures tellings { D.tells → AreTellingsSo self.now.seats (reverse pass.new.seen) }
    {
        match self.order_collection_once(rt, pass, key, tries) {
            Ok(ordered) => self.run_collection(rt, pass, fate, ordered),
            Err(refusal) => OpAnswer::Stopped(refusal),
        }
    }

    /// Goes on with the collection until the operator is told.
    fn run_collection<R: Wait, F: Fate>(
        &self,
        rt: &R,
        pass: &mut Pass<D>,
        fate: &mut F,
        first: KeyCollection,
    ) -> OpAnswer
        requires pass { IsPassOf self.now pass.old }
        requires operator { pass.old.number ≡ 0 }
        requires keeps { first.program ≡ keep_always }
        requires at { HasCourse first.key
            (most_rounds first.tries) first.course pass.old.own pass.old.seen }
        ensures pass { pass.new ≡ record pass.old { seen = pass.new.seen; own = pass.new.own } }
        ensures told { (lost : ℕ) × IsCounted lost (F.harm_count fate.old) (F.harm_count fate.new)
            × WasToldLast (Asked.Collect first.key)
            (IsCollectingMark first.key (most_rounds first.tries)) lost pass.old pass.new result }
        ensures answer { IsCollectAnswer first.key result }
        ensures legal { D.tells → IsLegal (reverse pass.new.seen) }
        ensures tellings { D.tells → AreTellingsSo self.now.seats (reverse pass.new.seen) }
    {
        let mut holds = Holds::new();
        let mut collecting = first;
        let mut again = false;
        for _ in rt.forever() {
            let verdict = self.verdict_for(rt, pass, fate, &mut holds, &collecting.waits, again);
            match self.go_on_collecting_once(rt, pass, collecting, verdict) {
                Ok(next) => collecting = next,
                Err(told) => return told,
            }
            again = verdict == Verdict::Twice;
        }
        unreachable!()
    }

    /// A hold in which a collection begins as a call of the operator.
    fn order_collection_once<R: Wait>(
        &self,
        rt: &R,
        pass: &mut Pass<D>,
        key: &Key,
        tries: u32,
    ) -> Result<KeyCollection, Answer>
        requires pass { IsPassOf self.now pass.old }
        requires operator { pass.old.number ≡ 0 }
        requires free { NothingIsOpen pass.old.own }
        ensures pass { pass.new ≡ record pass.old { seen = pass.new.seen; own = pass.new.own } }
        ensures front { FrontGoesOn pass.old.number pass.old.seen pass.new.seen [] }
        ensures counted { rescanned_in pass.new.own ≡ rescanned_in pass.old.own }
        ensures key { IfOk result (λ collecting. collecting.key ≡ key.now) }
        ensures keeps { IfOk result (λ collecting. collecting.program ≡ keep_always) }
        ensures tries { IfOk result (λ collecting. collecting.tries ≡ tries) }
        ensures ordered { IfOk result (λ collecting. HasCourse key.now
            (most_rounds tries) collecting.course pass.new.own pass.new.seen) }
        ensures refused { IfErr result (λ why. IsRefusalBehind (length pass.new.seen) why
            × NothingIsOpen pass.new.own) }
        ensures legal { D.tells → IsLegal (reverse pass.new.seen) }
        ensures tellings { D.tells → AreTellingsSo self.now.seats (reverse pass.new.seen) }
    {
        let mut shared = self.turn.hold(rt, pass);
        let ordered = order_collection(self.alloc, &mut shared.world, key, tries);
        self.give_back(rt, pass, shared);
        ordered
    }

    /// A hold in which the collection goes on.
    fn go_on_collecting_once<R: Wait>(
        &self,
        rt: &R,
        pass: &mut Pass<D>,
        collecting: KeyCollection,
        verdict: Verdict,
    ) -> Result<KeyCollection, OpAnswer>
        requires pass { IsPassOf self.now pass.old }
        requires operator { pass.old.number ≡ 0 }
        requires keeps { collecting.program ≡ keep_always }
        requires at { HasCourse collecting.key
            (most_rounds collecting.tries) collecting.course pass.old.own pass.old.seen }
        ensures pass { pass.new ≡ record pass.old { seen = pass.new.seen; own = pass.new.own } }
        ensures goes_on { OnOk result
            (HasOperated (IsTombstoneMark collecting.key) (harm_by verdict) pass.old pass.new) }
        ensures key { IfOk result (λ next. next.key ≡ collecting.key) }
        ensures tries { IfOk result (λ next. next.tries ≡ collecting.tries) }
        ensures keeps { IfOk result (λ next. next.program ≡ keep_always) }
        ensures at { IfOk result (λ next. HasCourse collecting.key
            (most_rounds collecting.tries) next.course pass.new.own pass.new.seen) }
        ensures told { IfErr result (WasToldLast (Asked.Collect collecting.key) (IsCollectingMark
            collecting.key (most_rounds collecting.tries)) (harm_by verdict) pass.old pass.new) }
        ensures answer { IfErr result (IsCollectAnswer collecting.key) }
        ensures legal { D.tells → IsLegal (reverse pass.new.seen) }
        ensures tellings { D.tells → AreTellingsSo self.now.seats (reverse pass.new.seen) }
    {
        let mut shared = self.turn.hold(rt, pass);
        let next = go_on_collecting(&mut shared.world, collecting, verdict);
        self.give_back(rt, pass, shared);
        next
    }
}
