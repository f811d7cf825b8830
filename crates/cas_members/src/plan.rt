ghost use Rattle.std.specs.Prelude.{◌≡◌, ◌≢◌, ◌+◌, ◌<◌, ◌^◌, ◌==◌, ◌∷◌, IfOk, length, option_to_list};
ghost use Rattle.cas_quorum.specs.Era.{era_of_majorities, sized_era};
ghost use Rattle.cas_members.specs.Steps.{steps_left};
ghost use Rattle.cas_members.specs.Plan.{IsLawfulCourse, IsLawfulPlan, HasOneSet, are_sizes, eras_of, greater_of, has_majorities, meets_sizes, next_of, IsEnter, join_of, leave_of, resize_of};

use cas_ballot::{AcceptorId, Members};
use cas_quorum::{Era, PlanFault};
use std::marker::Model;

/// The most members that a cluster has.
pub const MOST_MEMBERS: u32 = 9;

/// What a change of membership does next.
#[derive(Clone, Copy, Debug, PartialEq, Eq)]
pub enum PlanStep {
    /// To settle the era that was entered last: each key is listed by its members, and proposed anew in it.
    Settle,
    /// To enter this era, with all proposers.
    Enter(Era),
    /// Nothing more: the plan is at its end.
    Finished,
}

/// A change of membership or of sizes that is under way, seen as the era that was entered last and the steps that are left.
///
/// In every era that a plan enters, each size is from 1 to the number of members of its set. Each of these eras meets itself
/// and the one before it, and in the last one the same members prepare and accept.
#[derive(Debug, Drop)]
pub struct Plan {
    era: Era,
    settled: bool,
    half: Option<Era>,
    whole: Option<Era>,
}

impl Model for Plan {
    ghost use Rattle.cas_members.specs.Steps.{Progress, steps_left};
    ghost use Rattle.cas_members.specs.Plan.{eras_of, IsLawfulCourse};

    ghost Value = { Progress };

    ghost view = { λ plan. record { era = plan.era; left = steps_left plan.settled (eras_of plan.half plan.whole) } };

    ghost invariant = { λ plan. IsLawfulCourse plan.era (eras_of plan.half plan.whole) };
}

impl Plan {
    /// The plan by which an acceptor joins.
    ///
    /// With an odd number of members the new one first accepts alone, in an era between, and prepares in the next; with
    /// an even number it does both at once. An era above 0 is settled before it is left.
    ///
    /// Refused, by the first of these that holds:
    ///
    /// - [`PlanFault::AlreadyIn`] exactly if the acceptor is a member;
    /// - [`PlanFault::IdUsed`] exactly if it is one of `used`;
    /// - [`PlanFault::TooMany`] exactly if there are [`MOST_MEMBERS`];
    /// - [`PlanFault::NotMajority`] exactly if a size is not the majority of the members.
    pub fn join(era: &Era, used: &Members, id: AcceptorId) -> Result<Plan, PlanFault>
        requires one_set { HasOneSet era.now }
        requires number { era.now.number + 2 < 2 ^ 32 }
        ensures value { result ≡ join_of era.now used.now id }
        ensures lawful { IfOk result IsLawfulPlan }
    {
        let members = era.prep;
        if members.has(id) {
            return Err(PlanFault::AlreadyIn);
        }
        if used.has(id) {
            return Err(PlanFault::IdUsed);
        }
        if members.count() >= MOST_MEMBERS {
            return Err(PlanFault::TooMany);
        }
        if !are_majorities(era) {
            return Err(PlanFault::NotMajority);
        }
        let mut joined = members;
        joined.insert(id);
        if members.count() % 2 == 1 {
            let half = majorities_of(era.number + 1, members, joined);
            let whole = Era::majority(era.number + 2, joined);
            Ok(Plan::over(era, Some(half), whole))
        } else {
            Ok(Plan::over(era, None, Era::majority(era.number + 1, joined)))
        }
    }

    /// The plan by which a member leaves.
    ///
    /// With an even number of members it first accepts alone, in an era between, and then neither; with an odd number it
    /// stops both at once. An era above 0 is settled before it is left.
    ///
    /// Refused, by the first of these that holds:
    ///
    /// - [`PlanFault::NotIn`] exactly if the acceptor is no member;
    /// - [`PlanFault::Last`] exactly if it is the only one;
    /// - [`PlanFault::NotMajority`] exactly if a size is not the majority of the members.
    pub fn leave(era: &Era, id: AcceptorId) -> Result<Plan, PlanFault>
        requires one_set { HasOneSet era.now }
        requires number { era.now.number + 2 < 2 ^ 32 }
        ensures value { result ≡ leave_of era.now id }
        ensures lawful { IfOk result IsLawfulPlan }
    {
        let members = era.prep;
        if !members.has(id) {
            return Err(PlanFault::NotIn);
        }
        if members.count() <= 1 {
            return Err(PlanFault::Last);
        }
        if !are_majorities(era) {
            return Err(PlanFault::NotMajority);
        }
        let mut rest = members;
        rest.remove(id);
        if members.count() % 2 == 0 {
            let half = majorities_of(era.number + 1, rest, members);
            let whole = Era::majority(era.number + 2, rest);
            Ok(Plan::over(era, Some(half), whole))
        } else {
            Ok(Plan::over(era, None, Era::majority(era.number + 1, rest)))
        }
    }

    /// The plan by which quorums get these sizes (flexible quorums: Howard 2016).
    ///
    /// If quorums of these sizes meet those of the era, they come at once. Otherwise an era comes between, in which each
    /// size is the greater of the old and the new one. An era above 0 is settled before it is left.
    ///
    /// Refused: [`PlanFault::BadSize`] exactly if a size is not from 1 to the number of members, or the sizes together are
    /// not above it.
    pub fn resize(era: &Era, need_prep: u32, need_acc: u32) -> Result<Plan, PlanFault>
        requires one_set { HasOneSet era.now }
        requires number { era.now.number + 2 < 2 ^ 32 }
        ensures value { result ≡ resize_of era.now need_prep need_acc }
        ensures lawful { IfOk result IsLawfulPlan }
    {
        if !sizes_fit(era.prep.count(), need_prep, need_acc) {
            return Err(PlanFault::BadSize);
        }
        if sizes_meet(era, need_prep, need_acc) {
            let whole = sized(era.number + 1, era.prep, need_prep, need_acc);
            return Ok(Plan::over(era, None, whole));
        }
        let most_prep = greater(era.need_prep, need_prep);
        let most_acc = greater(era.need_acc, need_acc);
        let half = sized(era.number + 1, era.prep, most_prep, most_acc);
        let whole = sized(era.number + 2, era.prep, need_prep, need_acc);
        Ok(Plan::over(era, Some(half), whole))
    }

    /// The plan from that era over the half step's era, where there is one, to the last.
    fn over(era: &Era, half: Option<Era>, whole: Era) -> Plan
        requires { IsLawfulCourse era.now (eras_of half (Some whole)) }
        ensures value { result ≡ record {
          era = era.now;
          left = steps_left (era.now.number == 0) (eras_of half (Some whole));
        } }
        ensures lawful { IsLawfulPlan result }
    {
        Plan {
            era: *era,
            settled: era.number == 0,
            half,
            whole: Some(whole),
        }
    }

    /// The era that was entered last; before any was, the one from which the plan begins.
    pub fn era(&self) -> Era
        ensures { result ≡ self.now.era }
    {
        self.era
    }

    /// What has to be done next: the first of the steps that are left.
    pub fn next(&self) -> PlanStep
        ensures value { result ≡ next_of self.now.left }
        ensures lawful { IsLawfulPlan self.now }
    {
        let next = match self.half {
            Some(half) => Some(half),
            None => self.whole,
        };
        match next {
            Some(era) if self.settled => PlanStep::Enter(era),
            Some(_) => PlanStep::Settle,
            None => PlanStep::Finished,
        }
    }

    /// The era was settled.
    pub fn settled(&mut self)
        requires { next_of self.old.left ≡ PlanStep.Settle }
        ensures steps { self.old.left ≡ PlanStep.Settle ∷ self.new.left }
        ensures era { self.new.era ≡ self.old.era }
    {
        self.settled = true;
    }

    /// All proposers entered the era that was next.
    pub fn entered(&mut self)
        requires { IsEnter (next_of self.old.left) }
        ensures { self.old.left ≡ PlanStep.Enter self.new.era ∷ self.new.left }
    {
        let entered = match self.half.take() {
            Some(half) => Some(half),
            None => self.whole.take(),
        };
        if let Some(era) = entered {
            self.era = era;
            self.settled = false;
        }
    }
}

/// The era with majorities of these two sets.
fn majorities_of(number: u32, prep: Members, acc: Members) -> Era
    ensures { result ≡ era_of_majorities number prep acc }
{
    Era {
        number,
        prep,
        need_prep: prep.count() / 2 + 1,
        acc,
        need_acc: acc.count() / 2 + 1,
    }
}

/// The era in which these members prepare and accept, in quorums of these sizes.
fn sized(number: u32, members: Members, need_prep: u32, need_acc: u32) -> Era
    ensures { result ≡ sized_era number members need_prep need_acc }
{
    Era {
        number,
        prep: members,
        need_prep,
        acc: members,
        need_acc,
    }
}

/// Whether each size is the majority of the members.
fn are_majorities(era: &Era) -> bool
    ensures { result ≡ has_majorities era.now }
{
    let majority = era.prep.count() / 2 + 1;
    era.need_prep == majority && era.need_acc == majority
}

/// Whether each size is from 1 to the number of members, and together they are above it.
fn sizes_fit(members: u32, need_prep: u32, need_acc: u32) -> bool
    ensures { result ≡ are_sizes members need_prep need_acc }
{
    1 <= need_prep
        && need_prep <= members
        && 1 <= need_acc
        && need_acc <= members
        && u64::from(members) < u64::from(need_prep) + u64::from(need_acc)
}

/// Whether quorums of these sizes meet those of the era.
fn sizes_meet(era: &Era, need_prep: u32, need_acc: u32) -> bool
    ensures { result ≡ meets_sizes era.now need_prep need_acc }
{
    let members = u64::from(era.prep.count());
    members < u64::from(need_prep) + u64::from(era.need_acc)
        && members < u64::from(era.need_prep) + u64::from(need_acc)
}

fn greater(a: u32, b: u32) -> u32
    ensures { result ≡ greater_of a b }
{
    if a <= b { b } else { a }
}
