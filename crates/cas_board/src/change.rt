//! A change, from its call to its answer.

ghost use Rattle.std.specs.Prelude.{◌≡◌, ◌≤◌, ℕ, true, false, if◌then◌else◌, [], Some, IfOk, IfErr, OnOk, reverse};
ghost use Rattle.cas_record.specs.Legal.{IsLegal};
ghost use Rattle.cas_model.specs.Calls.Step.{one_more};
ghost use Rattle.cas_board.specs.Changes.{AnswersChange, HasBegunInHold, HasEndedInHold, HasGoneOnInHold, HasNotBegun, IsCounted};
ghost use Rattle.cas_board_steps.specs.Calls.Changes.{harm_by};
ghost use Rattle.cas_board_steps.specs.Mine.{FrontGoesOn, wanted_by, wants};
ghost use Rattle.cas_board_steps.specs.Calls.Conflicts.{is_conflict};
ghost use Rattle.cas_board_steps.specs.Calls.Open.{HasOpen, NothingIsOpen, is_met_in, rounds_after, rounds_in, beside_in};
ghost use Rattle.cas_board_steps.specs.Calls.Stages.{tells_met};
ghost use Rattle.cas_board.specs.Passes.{IsPassOf};

use crate::board::{Board, Pass, caller_of};
use crate::fates::Holds;
use cas_board_steps::{Begun, Stage, begin, go_on};
use cas_change::{Key, Program};
use cas_disk::Disk;
use cas_fate::{Fate, Verdict};
use cas_record::Answer;
use std::sync::Wait;

impl<D: Disk> Board<D> {
    /// Runs a change as the next call of the pass's caller, and gives its answer, which is marked last in the front that the pass has seen
    /// then. Where a round ends with a conflict another is begun, until there were `tries`: a conflict that is answered had just so many.
    /// What becomes of each frame the fate says, and it is asked while this call does not hold the turn.
    ///
    /// A call that is refused with [`Answer::RecordFull`], or with [`Answer::NoMemory`] before anything was proposed, may not have been
    /// begun: none of its caller's marks was made then. All other answers are those of a call that was begun.
    pub fn change<R: Wait, F: Fate>(
        &self,
        rt: &R,
        pass: &mut Pass<D>,
        fate: &mut F,
        key: &Key,
        program: &Program,
        tries: u32,
    ) -> Answer
        requires pass { IsPassOf self.now pass.old }
        requires free { NothingIsOpen pass.old.own }
        requires some { 1 ≤ tries }
        ensures pass { pass.new ≡ record pass.old { seen = pass.new.seen; own = pass.new.own } }
        ensures own { pass.new.own ≡ pass.old.own }
        ensures free { NothingIsOpen pass.new.own }
        ensures answers { AnswersChange key.now program.now tries
            (F.harm_count fate.old) (F.harm_count fate.new) pass.old pass.new result }
        ensures legal { D.tells → IsLegal (reverse pass.new.seen) }
    {
        let mut holds = Holds::new();
        match self.begin_once(rt, pass, key, program) {
            Ok(begun) => { self.run_call(rt, pass, fate, &mut holds, begun, key, program, tries) }
            Err(answer) => answer,
        }
    }

    /// Goes on with the call that has begun until it ends, and gives its answer. A conflict may be followed by another round until there
    /// were `tries`.
    fn run_call<R: Wait, F: Fate>(
        &self,
        rt: &R,
        pass: &mut Pass<D>,
        fate: &mut F,
        holds: &mut Holds,
        begun: Begun,
        key: &Key,
        program: &Program,
        tries: u32,
    ) -> Answer
        requires pass { IsPassOf self.now pass.old }
        requires called { HasOpen begun.call pass.old.own }
        requires alone { NothingIsOpen (beside_in pass.old.own) }
        requires wanted { wanted_by pass.old.number pass.old.seen
            ≡ Some (wants begun.call key.now program.now) }
        requires some { 1 ≤ tries }
        requires first { rounds_in pass.old.own ≡ 1 }
        requires unmet { is_met_in pass.old.own ≡ false }
        requires fresh { tells_met begun.stage ≡ false }
        ensures pass { pass.new ≡ record pass.old { seen = pass.new.seen; own = pass.new.own } }
        ensures ended { (lost rounds : ℕ) × IsCounted lost (F.harm_count fate.old)
            (F.harm_count fate.new) × HasEndedInHold begun.call rounds lost pass.old pass.new result
            × (is_conflict result ≡ true → rounds ≡ tries) }
        ensures legal { D.tells → IsLegal (reverse pass.new.seen) }
    {
        let Begun { call, mut stage } = begun;
        let mut rounds = 1;
        let mut again = false;
        for _ in rt.forever() {
            let verdict = self.verdict_at(rt, pass, fate, holds, &stage, again);
            rounds = rounds_with(rounds, &stage);
            let more = rounds < tries;
            match self.go_on_once(rt, pass, call, key, program, verdict, more) {
                Ok(next) => stage = next,
                Err(answer) => return answer,
            }
            again = verdict == Verdict::Twice;
        }
        unreachable!()
    }

    /// What becomes of the frame that waits, if one does.
    pub(crate) fn verdict_at<R: Wait, F: Fate>(
        &self,
        rt: &R,
        pass: &mut Pass<D>,
        fate: &mut F,
        holds: &mut Holds,
        stage: &Stage,
        again: bool,
    ) -> Verdict
        requires pass { IsPassOf self.now pass.old }
        ensures pass { pass.new ≡ record pass.old { seen = pass.new.seen } }
        ensures front { FrontGoesOn pass.old.number pass.old.seen pass.new.seen [] }
        ensures wanted { wanted_by pass.old.number pass.new.seen
            ≡ wanted_by pass.old.number pass.old.seen }
        ensures counted { IsCounted (harm_by result)
            (F.harm_count fate.old) (F.harm_count fate.new) }
    {
        match stage {
            Stage::Waits(frame) => self.verdict_on(rt, pass, fate, holds, frame, again),
            Stage::Through | Stage::Met => Verdict::Deliver,
        }
    }

    /// A hold in which a change begins.
    fn begin_once<R: Wait>(
        &self,
        rt: &R,
        pass: &mut Pass<D>,
        key: &Key,
        program: &Program,
    ) -> Result<Begun, Answer>
        requires pass { IsPassOf self.now pass.old }
        requires free { NothingIsOpen pass.old.own }
        ensures pass { pass.new ≡ record pass.old { seen = pass.new.seen; own = pass.new.own } }
        ensures begun { IfOk result
            (λ begun. HasBegunInHold begun.call key.now program.now pass.old pass.new) }
        ensures fresh { IfOk result (λ begun. tells_met begun.stage ≡ false) }
        ensures not_begun { IfErr result (HasNotBegun key.now program.now pass.old pass.new) }
        ensures legal { D.tells → IsLegal (reverse pass.new.seen) }
    {
        let mut shared = self.turn.hold(rt, pass);
        let begun = begin(&mut shared.world, caller_of(pass), key, program);
        self.give_back(rt, pass, shared);
        begun
    }

    /// A hold in which the call goes on.
    fn go_on_once<R: Wait>(
        &self,
        rt: &R,
        pass: &mut Pass<D>,
        call: u32,
        key: &Key,
        program: &Program,
        verdict: Verdict,
        may_repeat: bool,
    ) -> Result<Stage, Answer>
        requires pass { IsPassOf self.now pass.old }
        requires called { HasOpen call pass.old.own }
        requires alone { NothingIsOpen (beside_in pass.old.own) }
        requires wanted { wanted_by pass.old.number pass.old.seen
            ≡ Some (wants call key.now program.now) }
        ensures pass { pass.new ≡ record pass.old { seen = pass.new.seen; own = pass.new.own } }
        ensures goes_on { OnOk result (HasGoneOnInHold call (harm_by verdict) pass.old pass.new) }
        ensures rounds { OnOk result (rounds_in pass.new.own ≡ rounds_after pass.old.own) }
        ensures met { IfOk result (λ stage. is_met_in pass.new.own ≡ tells_met stage) }
        ensures repeats { OnOk result (is_met_in pass.new.own ≡ true → may_repeat ≡ true) }
        ensures ends { IfErr result
            (HasEndedInHold call (rounds_after pass.old.own) (harm_by verdict) pass.old pass.new) }
        ensures last { IfErr result (λ told. is_conflict told ≡ true → may_repeat ≡ false) }
        ensures legal { D.tells → IsLegal (reverse pass.new.seen) }
    {
        let mut shared = self.turn.hold(rt, pass);
        let world = &mut shared.world;
        let caller = caller_of(pass);
        let stage = go_on(world, caller, call, key, program, verdict, may_repeat);
        self.give_back(rt, pass, shared);
        stage
    }
}

/// How many rounds the call has had once it goes on from that stage.
pub(crate) fn rounds_with(rounds: u32, stage: &Stage) -> u32
    ensures { result ≡ (if tells_met stage.now then one_more rounds else rounds) }
{
    match stage {
        Stage::Met => rounds.saturating_add(1),
        Stage::Waits(_) | Stage::Through => rounds,
    }
}
