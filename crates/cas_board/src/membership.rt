//! A change of membership, from the operator's call to its answer.

ghost use Rattle.std.specs.Prelude.{◌≡◌, ◌≢◌, ◌≤◌, ℕ, false, [], length, Some, IfOk, IfErr, OnOk, reverse};
ghost use Rattle.cas_record.specs.Legal.{IsLegal};
ghost use Rattle.cas_model_causes.specs.Eras.Tellings.{AreTellingsSo};
ghost use Rattle.cas_model.specs.Collection.Step.{keep_always};
ghost use Rattle.cas_world.specs.Eras.Plans.{asked_of};
ghost use Rattle.cas_board.specs.Changes.{IsCounted};
ghost use Rattle.cas_board.specs.Operations.{HasOperated, Operates, WasToldLast};
ghost use Rattle.cas_board.specs.Passes.{IsPassOf};
ghost use Rattle.cas_board_steps.specs.Calls.Changes.{IsRefusalBehind, harm_by};
ghost use Rattle.cas_board_steps.specs.Eras.Membership.{HasListing, HasPlan, HasRescan, RoundsAreKept, IsFirstRound, IsListedTo, IsMembersAnswer, IsPlanMark, IsRescanMark, IsRescannedTo, StandsAt};
ghost use Rattle.cas_board_steps.specs.Mine.{FrontGoesOn, wanted_by, wants};
ghost use Rattle.cas_board_steps.specs.Calls.Open.{NothingIsOpen, rescanned_in, rounds_after};
ghost use Rattle.cas_board_steps.specs.Exchanges.Orders.{HasOrder};

use crate::board::{Board, Pass};
use crate::change::rounds_with;
use crate::fates::Holds;
use cas_ballot::AcceptorId;
use cas_board_steps::{
    Begun, Listing, MembersStep, Rescan, Rescanning, Waiting, advance, list_on, order_members,
    rescan_on, take_up,
};
use cas_change::{Key, Program};
use cas_disk::Disk;
use cas_fate::{Fate, Verdict};
use cas_record::{Answer, Asked, OpAnswer};
use cas_world::Target;
use std::sync::Wait;

impl<D: Disk> Board<D> {
    /// The acceptor joins, as a call of the operator; gives what the operator is told. A join of it that stopped before goes on. Each key
    /// that is proposed anew has so many rounds at most, from 1, as a change has, and just so many where that ends with a conflict. The pass
    /// is caller 0's. What becomes of each frame the fate says, and it is asked while this call does not hold the turn.
    ///
    /// What the operator is told is marked last in the front that the pass has seen then: [`OpAnswer::Joined`], [`OpAnswer::Refused`] where
    /// the acceptor may not join, [`OpAnswer::Busy`], [`OpAnswer::ProposerDown`], or [`OpAnswer::Stopped`]. A call that is refused with
    /// [`Answer::RecordFull`], or with [`Answer::NoMemory`], may not have been begun: none of caller 0's marks was made then.
    pub fn join_member<R: Wait, F: Fate>(
        &self,
        rt: &R,
        pass: &mut Pass<D>,
        fate: &mut F,
        id: AcceptorId,
        tries: u32,
    ) -> OpAnswer
        requires pass { IsPassOf self.now pass.old }
        requires operator { pass.old.number ≡ 0 }
        requires free { NothingIsOpen pass.old.own }
        requires some { 1 ≤ tries }
        ensures pass { pass.new ≡ record pass.old { seen = pass.new.seen; own = pass.new.own } }
        ensures free { NothingIsOpen pass.new.own }
        ensures operates { Operates (Asked.Join id) (IsRescanMark tries)
            (F.harm_count fate.old) (F.harm_count fate.new) pass.old pass.new result }
        ensures answer { IsMembersAnswer (Asked.Join id) result }
        ensures legal { D.tells → IsLegal (reverse pass.new.seen) }
        ensures tellings { D.tells → AreTellingsSo self.now.seats (reverse pass.new.seen) }
    {
        self.change_members(rt, pass, fate, &Target::Join(id), tries)
    }

    /// The acceptor leaves, as a call of the operator; gives what the operator is told. All else is as for [`Board::join_member`], but that it is
    /// [`OpAnswer::Left`] that tells of its end.
    pub fn leave_member<R: Wait, F: Fate>(
        &self,
        rt: &R,
        pass: &mut Pass<D>,
        fate: &mut F,
        id: AcceptorId,
        tries: u32,
    ) -> OpAnswer
        requires pass { IsPassOf self.now pass.old }
        requires operator { pass.old.number ≡ 0 }
        requires free { NothingIsOpen pass.old.own }
        requires some { 1 ≤ tries }
        ensures pass { pass.new ≡ record pass.old { seen = pass.new.seen; own = pass.new.own } }
        ensures free { NothingIsOpen pass.new.own }
        ensures operates { Operates (Asked.Leave id) (IsRescanMark tries)
            (F.harm_count fate.old) (F.harm_count fate.new) pass.old pass.new result }
        ensures answer { IsMembersAnswer (Asked.Leave id) result }
        ensures legal { D.tells → IsLegal (reverse pass.new.seen) }
        ensures tellings { D.tells → AreTellingsSo self.now.seats (reverse pass.new.seen) }
    {
        self.change_members(rt, pass, fate, &Target::Leave(id), tries)
    }

    /// Quorums get these sizes, as a call of the operator; gives what the operator is told. All else is as for [`Board::join_member`], but
    /// that it is [`OpAnswer::Resized`] that tells of its end.
    pub fn resize<R: Wait, F: Fate>(
        &self,
        rt: &R,
        pass: &mut Pass<D>,
        fate: &mut F,
        need_prep: u32,
        need_acc: u32,
        tries: u32,
    ) -> OpAnswer
        requires pass { IsPassOf self.now pass.old }
        requires operator { pass.old.number ≡ 0 }
        requires free { NothingIsOpen pass.old.own }
        requires some { 1 ≤ tries }
        ensures pass { pass.new ≡ record pass.old { seen = pass.new.seen; own = pass.new.own } }
        ensures free { NothingIsOpen pass.new.own }
        ensures operates { Operates (Asked.Resize need_prep need_acc) (IsRescanMark tries)
            (F.harm_count fate.old) (F.harm_count fate.new) pass.old pass.new result }
        ensures answer { IsMembersAnswer (Asked.Resize need_prep need_acc) result }
        ensures legal { D.tells → IsLegal (reverse pass.new.seen) }
        ensures tellings { D.tells → AreTellingsSo self.now.seats (reverse pass.new.seen) }
    {
        let target = Target::Resize {
            need_prep,
            need_acc,
        };
        self.change_members(rt, pass, fate, &target, tries)
    }

    /// Runs a change of membership as a call of the operator.
    fn change_members<R: Wait, F: Fate>(
        &self,
        rt: &R,
        pass: &mut Pass<D>,
        fate: &mut F,
        target: &Target,
        tries: u32,
    ) -> OpAnswer
        requires pass { IsPassOf self.now pass.old }
        requires operator { pass.old.number ≡ 0 }
        requires free { NothingIsOpen pass.old.own }
        requires some { 1 ≤ tries }
        ensures pass { pass.new ≡ record pass.old { seen = pass.new.seen; own = pass.new.own } }
        ensures free { NothingIsOpen pass.new.own }
        ensures operates { Operates (asked_of target.now) (IsRescanMark tries)
            (F.harm_count fate.old) (F.harm_count fate.new) pass.old pass.new result }
        ensures answer { IsMembersAnswer (asked_of target.now) result }
        ensures legal { D.tells → IsLegal (reverse pass.new.seen) }
        ensures tellings { D.tells → AreTellingsSo self.now.seats (reverse pass.new.seen) }
    {
        match self.order_members_once(rt, pass, target) {
            Ok(program) => self.carry_out(rt, pass, fate, target, &program, tries),
            Err(refusal) => OpAnswer::Stopped(refusal),
        }
    }

    /// Begins the change unless it is under way, and takes its steps until the operator is told.
    fn carry_out<R: Wait, F: Fate>(
        &self,
        rt: &R,
        pass: &mut Pass<D>,
        fate: &mut F,
        target: &Target,
        program: &Program,
        tries: u32,
    ) -> OpAnswer
        requires pass { IsPassOf self.now pass.old }
        requires operator { pass.old.number ≡ 0 }
        requires ordered { HasOrder (asked_of target.now) pass.old.own }
        requires program { program.now ≡ keep_always }
        requires some { 1 ≤ tries }
        ensures pass { pass.new ≡ record pass.old { seen = pass.new.seen; own = pass.new.own } }
        ensures told { (lost : ℕ) × IsCounted lost (F.harm_count fate.old) (F.harm_count fate.new)
            × WasToldLast (asked_of target.now)
            (IsRescanMark tries) lost pass.old pass.new result }
        ensures answer { IsMembersAnswer (asked_of target.now) result }
        ensures legal { D.tells → IsLegal (reverse pass.new.seen) }
        ensures tellings { D.tells → AreTellingsSo self.now.seats (reverse pass.new.seen) }
    {
        match self.take_up_once(rt, pass, target) {
            Ok(()) => self.take_steps(rt, pass, fate, target, program, tries),
            Err(told) => told,
        }
    }

    /// Takes the steps of the change until the operator is told.
    fn take_steps<R: Wait, F: Fate>(
        &self,
        rt: &R,
        pass: &mut Pass<D>,
        fate: &mut F,
        target: &Target,
        program: &Program,
        tries: u32,
    ) -> OpAnswer
        requires pass { IsPassOf self.now pass.old }
        requires operator { pass.old.number ≡ 0 }
        requires planned { HasPlan (asked_of target.now) pass.old.own }
        requires program { program.now ≡ keep_always }
        requires some { 1 ≤ tries }
        ensures pass { pass.new ≡ record pass.old { seen = pass.new.seen; own = pass.new.own } }
        ensures told { (lost : ℕ) × IsCounted lost (F.harm_count fate.old) (F.harm_count fate.new)
            × WasToldLast (asked_of target.now)
            (IsRescanMark tries) lost pass.old pass.new result }
        ensures answer { IsMembersAnswer (asked_of target.now) result }
        ensures legal { D.tells → IsLegal (reverse pass.new.seen) }
        ensures tellings { D.tells → AreTellingsSo self.now.seats (reverse pass.new.seen) }
    {
        let mut holds = Holds::new();
        for _ in rt.forever() {
            match self.take_step(rt, pass, fate, &mut holds, target, program, tries) {
                Ok(()) => {}
                Err(told) => return told,
            }
        }
        unreachable!()
    }

    /// Takes the next step of the change. An `Err` is what the operator was told, and its call is over.
    fn take_step<R: Wait, F: Fate>(
        &self,
        rt: &R,
        pass: &mut Pass<D>,
        fate: &mut F,
        holds: &mut Holds,
        target: &Target,
        program: &Program,
        tries: u32,
    ) -> Result<(), OpAnswer>
        requires pass { IsPassOf self.now pass.old }
        requires operator { pass.old.number ≡ 0 }
        requires planned { HasPlan (asked_of target.now) pass.old.own }
        requires program { program.now ≡ keep_always }
        requires some { 1 ≤ tries }
        ensures pass { pass.new ≡ record pass.old { seen = pass.new.seen; own = pass.new.own } }
        ensures goes_on { OnOk result ((lost : ℕ) × IsCounted lost (F.harm_count fate.old)
            (F.harm_count fate.new) × HasOperated IsPlanMark lost pass.old pass.new) }
        ensures planned { OnOk result (HasPlan (asked_of target.now) pass.new.own) }
        ensures told { IfErr result (λ told. (lost : ℕ) × IsCounted lost (F.harm_count fate.old)
            (F.harm_count fate.new) × WasToldLast (asked_of target.now)
            (IsRescanMark tries) lost pass.old pass.new told) }
        ensures answer { IfErr result (IsMembersAnswer (asked_of target.now)) }
        ensures legal { D.tells → IsLegal (reverse pass.new.seen) }
        ensures tellings { D.tells → AreTellingsSo self.now.seats (reverse pass.new.seen) }
    {
        match self.advance_once(rt, pass, target, program) {
            Ok(step) => self.finish_step(rt, pass, fate, holds, target, step, program, tries),
            Err(told) => Err(told),
        }
    }

    /// Runs the step that has begun to its end. An `Err` is what the operator was told, and its call is over.
    fn finish_step<R: Wait, F: Fate>(
        &self,
        rt: &R,
        pass: &mut Pass<D>,
        fate: &mut F,
        holds: &mut Holds,
        target: &Target,
        step: MembersStep,
        program: &Program,
        tries: u32,
    ) -> Result<(), OpAnswer>
        requires pass { IsPassOf self.now pass.old }
        requires operator { pass.old.number ≡ 0 }
        requires stands { StandsAt (asked_of target.now) pass.old.own
            (wanted_by 0 pass.old.seen) step }
        requires legal { D.tells → IsLegal (reverse pass.old.seen) }
        requires tellings { D.tells → AreTellingsSo self.now.seats (reverse pass.old.seen) }
        requires program { program.now ≡ keep_always }
        requires some { 1 ≤ tries }
        ensures pass { pass.new ≡ record pass.old { seen = pass.new.seen; own = pass.new.own } }
        ensures goes_on { OnOk result ((lost : ℕ) × IsCounted lost (F.harm_count fate.old)
            (F.harm_count fate.new) × HasOperated IsPlanMark lost pass.old pass.new) }
        ensures planned { OnOk result (HasPlan (asked_of target.now) pass.new.own) }
        ensures told { IfErr result (λ told. (lost : ℕ) × IsCounted lost (F.harm_count fate.old)
            (F.harm_count fate.new) × WasToldLast (asked_of target.now)
            (IsRescanMark tries) lost pass.old pass.new told) }
        ensures answer { IfErr result (IsMembersAnswer (asked_of target.now)) }
        ensures legal { D.tells → IsLegal (reverse pass.new.seen) }
        ensures tellings { D.tells → AreTellingsSo self.now.seats (reverse pass.new.seen) }
    {
        match step {
            MembersStep::Next => Ok(()),
            MembersStep::Lists(waits) => self.run_listing(rt, pass, fate, holds, target, waits),
            MembersStep::Rescans(rescan) => {
                self.run_rescan(rt, pass, fate, holds, target, rescan, program, tries)
            }
        }
    }

    /// Goes on with asking the members for their next keys until what they told is gathered. An `Err` is what the operator was told, and
    /// its call is over.
    fn run_listing<R: Wait, F: Fate>(
        &self,
        rt: &R,
        pass: &mut Pass<D>,
        fate: &mut F,
        holds: &mut Holds,
        target: &Target,
        first: Option<Waiting>,
    ) -> Result<(), OpAnswer>
        requires pass { IsPassOf self.now pass.old }
        requires operator { pass.old.number ≡ 0 }
        requires lists { HasListing (asked_of target.now) pass.old.own }
        ensures pass { pass.new ≡ record pass.old { seen = pass.new.seen; own = pass.new.own } }
        ensures goes_on { OnOk result ((lost : ℕ) × IsCounted lost (F.harm_count fate.old)
            (F.harm_count fate.new) × HasOperated IsPlanMark lost pass.old pass.new) }
        ensures planned { OnOk result (HasPlan (asked_of target.now) pass.new.own) }
        ensures told { IfErr result (λ told. (lost : ℕ)
            × IsCounted lost (F.harm_count fate.old) (F.harm_count fate.new) × WasToldLast
            (asked_of target.now) IsPlanMark lost pass.old pass.new told) }
        ensures answer { IfErr result (IsMembersAnswer (asked_of target.now)) }
        ensures legal { D.tells → IsLegal (reverse pass.new.seen) }
        ensures tellings { D.tells → AreTellingsSo self.now.seats (reverse pass.new.seen) }
    {
        let mut waits = first;
        let mut again = false;
        for _ in rt.forever() {
            let verdict = self.verdict_for(rt, pass, fate, holds, &waits, again);
            match self.list_on_once(rt, pass, target, verdict) {
                Ok(Listing::Waits(next)) => waits = next,
                Ok(Listing::Over) => return Ok(()),
                Err(told) => return Err(told),
            }
            again = verdict == Verdict::Twice;
        }
        unreachable!()
    }

    /// Goes on with the call that proposes a key anew until it is done. A conflict may be followed by another round until there were
    /// `tries`. An `Err` is what the operator was told, and its call is over.
    fn run_rescan<R: Wait, F: Fate>(
        &self,
        rt: &R,
        pass: &mut Pass<D>,
        fate: &mut F,
        holds: &mut Holds,
        target: &Target,
        rescan: Rescan,
        program: &Program,
        tries: u32,
    ) -> Result<(), OpAnswer>
        requires pass { IsPassOf self.now pass.old }
        requires operator { pass.old.number ≡ 0 }
        requires rescans { HasRescan (asked_of target.now)
            rescan.begun.call rescan.key pass.old.own }
        requires wanted { wanted_by 0 pass.old.seen
            ≡ Some (wants rescan.begun.call rescan.key program.now) }
        requires some { 1 ≤ tries }
        requires first { IsFirstRound rescan.begun.stage pass.old.own }
        ensures pass { pass.new ≡ record pass.old { seen = pass.new.seen; own = pass.new.own } }
        ensures goes_on { OnOk result ((lost : ℕ) × IsCounted lost (F.harm_count fate.old)
            (F.harm_count fate.new) × HasOperated IsPlanMark lost pass.old pass.new) }
        ensures planned { OnOk result (HasPlan (asked_of target.now) pass.new.own) }
        ensures told { IfErr result (λ told. (lost : ℕ) × IsCounted lost (F.harm_count fate.old)
            (F.harm_count fate.new) × WasToldLast (asked_of target.now)
            (IsRescanMark tries) lost pass.old pass.new told) }
        ensures answer { IfErr result (IsMembersAnswer (asked_of target.now)) }
        ensures legal { D.tells → IsLegal (reverse pass.new.seen) }
        ensures tellings { D.tells → AreTellingsSo self.now.seats (reverse pass.new.seen) }
    {
        let Rescan { key, begun } = rescan;
        let Begun { call, mut stage } = begun;
        let mut rounds = 1;
        let mut again = false;
        for _ in rt.forever() {
            let verdict = self.verdict_at(rt, pass, fate, holds, &stage, again);
            rounds = rounds_with(rounds, &stage);
            let more = rounds < tries;
            match self.rescan_on_once(rt, pass, target, call, &key, program, verdict, more) {
                Ok(Rescanning::Goes(next)) => stage = next,
                Ok(Rescanning::Counted) => return Ok(()),
                Err(told) => return Err(told),
            }
            again = verdict == Verdict::Twice;
        }
        unreachable!()
    }

    /// A hold in which a change of membership begins as a call of the operator.
    fn order_members_once<R: Wait>(
        &self,
        rt: &R,
        pass: &mut Pass<D>,
        target: &Target,
    ) -> Result<Program, Answer>
        requires pass { IsPassOf self.now pass.old }
        requires operator { pass.old.number ≡ 0 }
        requires free { NothingIsOpen pass.old.own }
        ensures pass { pass.new ≡ record pass.old { seen = pass.new.seen; own = pass.new.own } }
        ensures front { FrontGoesOn pass.old.number pass.old.seen pass.new.seen [] }
        ensures counted { rescanned_in pass.new.own ≡ rescanned_in pass.old.own }
        ensures program { IfOk result (λ program. program ≡ keep_always) }
        ensures ordered { OnOk result (HasOrder (asked_of target.now) pass.new.own) }
        ensures refused { IfErr result (λ why. IsRefusalBehind (length pass.new.seen) why
            × NothingIsOpen pass.new.own) }
        ensures legal { D.tells → IsLegal (reverse pass.new.seen) }
        ensures tellings { D.tells → AreTellingsSo self.now.seats (reverse pass.new.seen) }
    {
        let mut shared = self.turn.hold(rt, pass);
        let ordered = order_members(self.alloc, &mut shared.world, target);
        self.give_back(rt, pass, shared);
        ordered
    }

    /// A hold in which the change of membership begins, unless it is under way.
    fn take_up_once<R: Wait>(
        &self,
        rt: &R,
        pass: &mut Pass<D>,
        target: &Target,
    ) -> Result<(), OpAnswer>
        requires pass { IsPassOf self.now pass.old }
        requires operator { pass.old.number ≡ 0 }
        requires ordered { HasOrder (asked_of target.now) pass.old.own }
        ensures pass { pass.new ≡ record pass.old { seen = pass.new.seen; own = pass.new.own } }
        ensures front { OnOk result (FrontGoesOn pass.old.number pass.old.seen pass.new.seen []) }
        ensures counted { OnOk result (rescanned_in pass.new.own ≡ rescanned_in pass.old.own) }
        ensures planned { OnOk result (HasPlan (asked_of target.now) pass.new.own) }
        ensures told { IfErr result
            (WasToldLast (asked_of target.now) IsPlanMark 0 pass.old pass.new) }
        ensures answer { IfErr result (IsMembersAnswer (asked_of target.now)) }
        ensures legal { D.tells → IsLegal (reverse pass.new.seen) }
        ensures tellings { D.tells → AreTellingsSo self.now.seats (reverse pass.new.seen) }
    {
        let mut shared = self.turn.hold(rt, pass);
        let taken_up = take_up(&mut shared.world, target);
        self.give_back(rt, pass, shared);
        taken_up
    }

    /// A hold in which the next step of the change begins.
    fn advance_once<R: Wait>(
        &self,
        rt: &R,
        pass: &mut Pass<D>,
        target: &Target,
        program: &Program,
    ) -> Result<MembersStep, OpAnswer>
        requires pass { IsPassOf self.now pass.old }
        requires operator { pass.old.number ≡ 0 }
        requires planned { HasPlan (asked_of target.now) pass.old.own }
        requires program { program.now ≡ keep_always }
        ensures pass { pass.new ≡ record pass.old { seen = pass.new.seen; own = pass.new.own } }
        ensures goes_on { OnOk result (HasOperated IsPlanMark 0 pass.old pass.new) }
        ensures step { IfOk result
            (StandsAt (asked_of target.now) pass.new.own (wanted_by 0 pass.new.seen)) }
        ensures told { IfErr result
            (WasToldLast (asked_of target.now) IsPlanMark 0 pass.old pass.new) }
        ensures answer { IfErr result (IsMembersAnswer (asked_of target.now)) }
        ensures legal { D.tells → IsLegal (reverse pass.new.seen) }
        ensures tellings { D.tells → AreTellingsSo self.now.seats (reverse pass.new.seen) }
    {
        let mut shared = self.turn.hold(rt, pass);
        let step = advance(&mut shared.world, target, program);
        self.give_back(rt, pass, shared);
        step
    }

    /// A hold in which members are asked for their next keys, or what they told is gathered.
    fn list_on_once<R: Wait>(
        &self,
        rt: &R,
        pass: &mut Pass<D>,
        target: &Target,
        verdict: Verdict,
    ) -> Result<Listing, OpAnswer>
        requires pass { IsPassOf self.now pass.old }
        requires operator { pass.old.number ≡ 0 }
        requires lists { HasListing (asked_of target.now) pass.old.own }
        ensures pass { pass.new ≡ record pass.old { seen = pass.new.seen; own = pass.new.own } }
        ensures goes_on { OnOk result (HasOperated IsPlanMark (harm_by verdict) pass.old pass.new) }
        ensures listed { IfOk result (IsListedTo (asked_of target.now) pass.new.own) }
        ensures told { IfErr result (WasToldLast (asked_of target.now) IsPlanMark
            (harm_by verdict) pass.old pass.new) }
        ensures answer { IfErr result (IsMembersAnswer (asked_of target.now)) }
        ensures legal { D.tells → IsLegal (reverse pass.new.seen) }
        ensures tellings { D.tells → AreTellingsSo self.now.seats (reverse pass.new.seen) }
    {
        let mut shared = self.turn.hold(rt, pass);
        let listing = list_on(&mut shared.world, target, verdict);
        self.give_back(rt, pass, shared);
        listing
    }

    /// A hold in which the call that proposes a key anew goes on.
    fn rescan_on_once<R: Wait>(
        &self,
        rt: &R,
        pass: &mut Pass<D>,
        target: &Target,
        call: u32,
        key: &Key,
        program: &Program,
        verdict: Verdict,
        may_repeat: bool,
    ) -> Result<Rescanning, OpAnswer>
        requires pass { IsPassOf self.now pass.old }
        requires operator { pass.old.number ≡ 0 }
        requires rescans { HasRescan (asked_of target.now) call key.now pass.old.own }
        requires wanted { wanted_by 0 pass.old.seen ≡ Some (wants call key.now program.now) }
        ensures pass { pass.new ≡ record pass.old { seen = pass.new.seen; own = pass.new.own } }
        ensures goes_on { OnOk result (HasOperated IsPlanMark (harm_by verdict) pass.old pass.new) }
        ensures wanted { IfOk result (λ now. now ≢ Rescanning.Counted
            → wanted_by 0 pass.new.seen ≡ wanted_by 0 pass.old.seen) }
        ensures rescans { IfOk result
            (IsRescannedTo (asked_of target.now) call key.now pass.new.own) }
        ensures rounds { IfOk result (RoundsAreKept may_repeat pass.old.own pass.new.own) }
        ensures told { (tries : ℕ) → (may_repeat ≡ false → rounds_after pass.old.own ≡ tries)
            → IfErr result (WasToldLast (asked_of target.now)
            (IsRescanMark tries) (harm_by verdict) pass.old pass.new) }
        ensures answer { IfErr result (IsMembersAnswer (asked_of target.now)) }
        ensures legal { D.tells → IsLegal (reverse pass.new.seen) }
        ensures tellings { D.tells → AreTellingsSo self.now.seats (reverse pass.new.seen) }
    {
        let mut shared = self.turn.hold(rt, pass);
        let world = &mut shared.world;
        let rescanning = rescan_on(world, target, call, key, program, verdict, may_repeat);
        self.give_back(rt, pass, shared);
        rescanning
    }
}
