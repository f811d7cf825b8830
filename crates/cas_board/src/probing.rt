//! A probe of a key, and a read of it, from the operator's call to its answer.

ghost use Rattle.std.specs.Prelude.{◌≡◌, ◌≤◌, ℕ, List, [], length, take, Some, IfOk, IfErr, OnOk, reverse};
ghost use Rattle.cas_record.specs.Legal.{IsLegal};
ghost use Rattle.cas_board.specs.Changes.{IsCounted};
ghost use Rattle.cas_board.specs.Operations.{HasMarkedHarms, HasOperated, IsSilentSince, Operates, WasToldLast};
ghost use Rattle.cas_board.specs.Passes.{IsPassOf};
ghost use Rattle.cas_ballot.specs.Members.{IsMemberSet};
ghost use Rattle.cas_board_steps.specs.Calls.Changes.{IsRefusalBehind, harm_by};
ghost use Rattle.cas_board_steps.specs.Mine.{FrontGoesOn};
ghost use Rattle.cas_board_steps.specs.Calls.Open.{NothingIsOpen, rescanned_in};
ghost use Rattle.cas_board_steps.specs.Exchanges.Orders.{HasHarms, HasProbe, IsAgreedIn, IsAskingHarm, IsHeardTrue, IsOrderOf, IsProbeAnswer, IsProbeStop, IsSilentAtMost, IsTrueAgreement, IsTrueProbe, WasAskedBehind, asked_for};
ghost use Rattle.cas_board.specs.Looks.{IsLookHeard, told_by_look};

use crate::board::{Board, Pass};
use crate::fates::Holds;
use cas_board_steps::{Heard, Inquiry, ProbeOrder, Probing, ask_probe, go_on_probing, order_probe};
use cas_change::Key;
use cas_disk::Disk;
use cas_fate::{Fate, Verdict};
use cas_record::{Agreement, Answer, Asked, OpAnswer, Probes};
use std::sync::Wait;

/// What was found of a key that was read without a write.
#[derive(Debug, PartialEq, Eq, Drop)]
pub struct Look {
    /// What the members agree on, or why they do not.
    pub agreement: Agreement,
    /// What each of them told, in rising number.
    pub found: Probes,
}

impl<D: Disk> Board<D> {
    /// Asks each member what it keeps for the key, as a call of the operator, and gives what the operator is told. The pass is caller 0's.
    /// What becomes of each frame the fate says, and it is asked while this call does not hold the turn.
    ///
    /// No more members are found to have told nothing than marks of harmed frames were made. Where disks tell what they keep, each other one
    /// tells what it keeps of the key, and that is so in the record: a state that was proposed at that ballot, or the floor with which the key's
    /// history opened, or none. It is at or above each ballot of the key that was acknowledged in the front before the call, and that the member
    /// had confirmed, unless a floor of the key is. And each who confirmed what was acknowledged in the era that the operator's proposer was
    /// marked last as having entered is among those asked. What a change of membership under way has counted, a probe leaves.
    ///
    /// A probe is answered with [`OpAnswer::Probed`], which is not marked, or with [`OpAnswer::Stopped`], which is marked last in the front
    /// that the pass has seen then. One that is refused with [`Answer::RecordFull`], or with [`Answer::NoMemory`], may not have been begun:
    /// none of caller 0's marks was made then.
    pub fn probe<R: Wait, F: Fate>(
        &self,
        rt: &R,
        pass: &mut Pass<D>,
        fate: &mut F,
        key: &Key,
    ) -> OpAnswer
        requires pass { IsPassOf self.now pass.old }
        requires operator { pass.old.number ≡ 0 }
        requires free { NothingIsOpen pass.old.own }
        ensures pass { pass.new ≡ record pass.old { seen = pass.new.seen; own = pass.new.own } }
        ensures free { NothingIsOpen pass.new.own }
        ensures operates { Operates (Asked.Probe key.now) IsAskingHarm
            (F.harm_count fate.old) (F.harm_count fate.new) pass.old pass.new result }
        ensures answer { (members : List ℕ)
            × IsMemberSet members × IsProbeAnswer key.now members result }
        ensures counted { rescanned_in pass.new.own ≡ rescanned_in pass.old.own }
        ensures silent { IsSilentSince 0 pass.old pass.new result }
        ensures truly { D.tells → IsTrueProbe pass.old.seen pass.new.seen result }
        ensures legal { D.tells → IsLegal (reverse pass.new.seen) }
    {
        match self.order_probe_once(rt, pass, Inquiry::Probe, key) {
            Ok(order) => {
                let Heard { told, agreement: _ } = self.ask_and_probe(rt, pass, fate, order);
                told
            }
            Err(refusal) => OpAnswer::Stopped(refusal),
        }
    }

    /// Reads the key without a write, as a call of the operator: asks each member what it keeps for the key, and gives what they agree on. The
    /// pass is caller 0's. What becomes of each frame the fate says, and it is asked while this call does not hold the turn.
    ///
    /// What they agree on is acknowledged by this, if its ballot is above the last of the key that was acknowledged or made a floor. A look
    /// is not marked as told. An `Err` is what stopped it, which is marked last in the front that the pass has seen then. One that is refused
    /// with [`Answer::RecordFull`], or with [`Answer::NoMemory`], may not have been begun: none of caller 0's marks was made then.
    pub fn look<R: Wait, F: Fate>(
        &self,
        rt: &R,
        pass: &mut Pass<D>,
        fate: &mut F,
        key: &Key,
    ) -> Result<Look, Answer>
        requires pass { IsPassOf self.now pass.old }
        requires operator { pass.old.number ≡ 0 }
        requires free { NothingIsOpen pass.old.own }
        ensures pass { pass.new ≡ record pass.old { seen = pass.new.seen; own = pass.new.own } }
        ensures free { NothingIsOpen pass.new.own }
        ensures operates { Operates (Asked.Read key.now) IsAskingHarm
            (F.harm_count fate.old) (F.harm_count fate.new) pass.old pass.new
            (told_by_look key.now result) }
        ensures answer { (members : List ℕ)
            × IsMemberSet members × IsProbeAnswer key.now members (told_by_look key.now result) }
        ensures counted { rescanned_in pass.new.own ≡ rescanned_in pass.old.own }
        ensures silent { IsSilentSince 0 pass.old pass.new (told_by_look key.now result) }
        ensures truly { D.tells → IsTrueProbe
            pass.old.seen pass.new.seen (told_by_look key.now result) }
        ensures agreed { IfOk result (λ look. IsAgreedIn
            D.tells D.tells pass.new.seen look.found look.agreement) }
        ensures reads { D.tells → IfOk result (λ look. IsTrueAgreement
            pass.old.seen pass.new.seen key.now look.found look.agreement) }
        ensures legal { D.tells → IsLegal (reverse pass.new.seen) }
    {
        match self.order_probe_once(rt, pass, Inquiry::Read, key) {
            Ok(order) => look_of(self.ask_and_probe(rt, pass, fate, order)),
            Err(refusal) => Err(refusal),
        }
    }

    /// Asks the members for the probe or the read that was begun, and goes on until the operator is told.
    fn ask_and_probe<R: Wait, F: Fate>(
        &self,
        rt: &R,
        pass: &mut Pass<D>,
        fate: &mut F,
        order: ProbeOrder,
    ) -> Heard
        requires pass { IsPassOf self.now pass.old }
        requires operator { pass.old.number ≡ 0 }
        requires order { IsOrderOf order.inquiry order.key order pass.old.own }
        ensures pass { pass.new ≡ record pass.old { seen = pass.new.seen; own = pass.new.own } }
        ensures told { (lost : ℕ) × IsCounted lost (F.harm_count fate.old) (F.harm_count fate.new)
            × WasToldLast (asked_for order.inquiry order.key) IsAskingHarm lost
            pass.old pass.new result.told }
        ensures answer { (members : List ℕ)
            × IsMemberSet members × IsProbeAnswer order.key members result.told }
        ensures silent { IsSilentSince 0 pass.old pass.new result.told }
        ensures truly { IsHeardTrue
            order.inquiry D.tells D.tells pass.old.seen pass.new.seen result }
        ensures legal { D.tells → IsLegal (reverse pass.new.seen) }
    {
        match self.ask_probe_once(rt, pass, order) {
            Ok(probing) => self.run_probe(rt, pass, fate, probing),
            Err(told) => Heard {
                told,
                agreement: None,
            },
        }
    }

    /// Goes on with the probe or the read, for which the members were asked, until the operator is told.
    fn run_probe<R: Wait, F: Fate>(
        &self,
        rt: &R,
        pass: &mut Pass<D>,
        fate: &mut F,
        first: Probing,
    ) -> Heard
        requires pass { IsPassOf self.now pass.old }
        requires operator { pass.old.number ≡ 0 }
        requires asks { (members : List ℕ)
            × HasProbe first.inquiry first.key members pass.old.own }
        ensures pass { pass.new ≡ record pass.old { seen = pass.new.seen; own = pass.new.own } }
        ensures told { (lost : ℕ) × IsCounted lost (F.harm_count fate.old) (F.harm_count fate.new)
            × WasToldLast (asked_for first.inquiry first.key) IsAskingHarm lost
            pass.old pass.new result.told }
        ensures answer { (members : List ℕ) → HasProbe first.inquiry first.key members pass.old.own
            → IsProbeAnswer first.key members result.told }
        ensures silent { (harms : ℕ)
            → HasHarms harms pass.old.own → IsSilentSince harms pass.old pass.new result.told }
        ensures truly { (many : ℕ) → WasAskedBehind many pass.old.own → IsHeardTrue
            first.inquiry D.tells D.tells (take many pass.new.seen) pass.new.seen result }
        ensures legal { D.tells → IsLegal (reverse pass.new.seen) }
    {
        let mut holds = Holds::new();
        let mut probing = first;
        let mut again = false;
        for _ in rt.forever() {
            let verdict = self.verdict_for(rt, pass, fate, &mut holds, &probing.waits, again);
            match self.go_on_probing_once(rt, pass, probing, verdict) {
                Ok(next) => probing = next,
                Err(heard) => return heard,
            }
            again = verdict == Verdict::Twice;
        }
        unreachable!()
    }

    /// A hold in which a probe or a read begins.
    fn order_probe_once<R: Wait>(
        &self,
        rt: &R,
        pass: &mut Pass<D>,
        inquiry: Inquiry,
        key: &Key,
    ) -> Result<ProbeOrder, Answer>
        requires pass { IsPassOf self.now pass.old }
        requires operator { pass.old.number ≡ 0 }
        requires free { NothingIsOpen pass.old.own }
        ensures pass { pass.new ≡ record pass.old { seen = pass.new.seen; own = pass.new.own } }
        ensures front { FrontGoesOn pass.old.number pass.old.seen pass.new.seen [] }
        ensures counted { rescanned_in pass.new.own ≡ rescanned_in pass.old.own }
        ensures order { IfOk result (λ order. IsOrderOf inquiry key.now order pass.new.own) }
        ensures refused { IfErr result (λ why. IsRefusalBehind (length pass.new.seen) why
            × NothingIsOpen pass.new.own) }
        ensures legal { D.tells → IsLegal (reverse pass.new.seen) }
    {
        let mut shared = self.turn.hold(rt, pass);
        let ordered = order_probe(&mut shared.world, inquiry, key);
        self.give_back(rt, pass, shared);
        ordered
    }

    /// A hold in which the members are asked.
    fn ask_probe_once<R: Wait>(
        &self,
        rt: &R,
        pass: &mut Pass<D>,
        order: ProbeOrder,
    ) -> Result<Probing, OpAnswer>
        requires pass { IsPassOf self.now pass.old }
        requires operator { pass.old.number ≡ 0 }
        requires order { IsOrderOf order.inquiry order.key order pass.old.own }
        ensures pass { pass.new ≡ record pass.old { seen = pass.new.seen; own = pass.new.own } }
        ensures front { OnOk result (FrontGoesOn pass.old.number pass.old.seen pass.new.seen []) }
        ensures counted { OnOk result (rescanned_in pass.new.own ≡ rescanned_in pass.old.own) }
        ensures asks { OnOk result ((members : List ℕ)
            × IsMemberSet members × HasProbe order.inquiry order.key members pass.new.own) }
        ensures inquiry { IfOk result (λ probing. probing.inquiry ≡ order.inquiry) }
        ensures key { IfOk result (λ probing. probing.key ≡ order.key) }
        ensures told { IfErr result (WasToldLast (asked_for order.inquiry order.key)
            IsAskingHarm 0 pass.old pass.new) }
        ensures harms { OnOk result (HasHarms 0 pass.new.own) }
        ensures behind { OnOk result (WasAskedBehind (length pass.old.seen) pass.new.own) }
        ensures stopped { IfErr result IsProbeStop }
        ensures legal { D.tells → IsLegal (reverse pass.new.seen) }
    {
        let mut shared = self.turn.hold(rt, pass);
        let probing = ask_probe(&mut shared.world, order);
        self.give_back(rt, pass, shared);
        probing
    }

    /// A hold in which it goes on.
    fn go_on_probing_once<R: Wait>(
        &self,
        rt: &R,
        pass: &mut Pass<D>,
        probing: Probing,
        verdict: Verdict,
    ) -> Result<Probing, Heard>
        requires pass { IsPassOf self.now pass.old }
        requires operator { pass.old.number ≡ 0 }
        requires asks { (members : List ℕ)
            × HasProbe probing.inquiry probing.key members pass.old.own }
        ensures pass { pass.new ≡ record pass.old { seen = pass.new.seen; own = pass.new.own } }
        ensures goes_on { OnOk result
            (HasOperated IsAskingHarm (harm_by verdict) pass.old pass.new) }
        ensures still { OnOk result ((members : List ℕ)
            → HasProbe probing.inquiry probing.key members pass.old.own
            → HasProbe probing.inquiry probing.key members pass.new.own) }
        ensures harms { OnOk result (HasMarkedHarms pass.old pass.new) }
        ensures behind { OnOk result ((many : ℕ)
            → WasAskedBehind many pass.old.own → WasAskedBehind many pass.new.own) }
        ensures inquiry { IfOk result (λ next. next.inquiry ≡ probing.inquiry) }
        ensures key { IfOk result (λ next. next.key ≡ probing.key) }
        ensures told { IfErr result (λ heard. WasToldLast
            (asked_for probing.inquiry probing.key) IsAskingHarm
            (harm_by verdict) pass.old pass.new heard.told) }
        ensures answer { IfErr result (λ heard. (members : List ℕ)
            → HasProbe probing.inquiry probing.key members pass.old.own
            → IsProbeAnswer probing.key members heard.told) }
        ensures silent { IfErr result (λ heard. (harms : ℕ)
            → HasHarms harms pass.old.own → IsSilentAtMost harms heard.told) }
        ensures truly { IfErr result (λ heard. (many : ℕ) → WasAskedBehind many pass.old.own
            → IsHeardTrue probing.inquiry D.tells D.tells
            (take many pass.new.seen) pass.new.seen heard) }
        ensures legal { D.tells → IsLegal (reverse pass.new.seen) }
    {
        let mut shared = self.turn.hold(rt, pass);
        let next = go_on_probing(&mut shared.world, probing, verdict);
        self.give_back(rt, pass, shared);
        next
    }
}

/// The look that was heard, or what stopped it.
fn look_of(heard: Heard) -> Result<Look, Answer>
    requires { IsLookHeard heard }
    ensures told { (key : List ℕ) (members : List ℕ)
        → IsProbeAnswer key members heard.told → told_by_look key result ≡ heard.told }
    ensures agreement { IfOk result (λ look. heard.agreement ≡ Some look.agreement) }
{
    let Heard { told, agreement } = heard;
    match (told, agreement) {
        (OpAnswer::Probed { found, .. }, Some(agreement)) => Ok(Look { agreement, found }),
        (OpAnswer::Stopped(why), _) => Err(why),
        _ => unreachable!(),
    }
}
