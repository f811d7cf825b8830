//! A change of membership that is under way: the eras that it leads to, who is marked as in the next one, and the listing of the era that
//! is to be settled.

ghost use Rattle.std.specs.Prelude.{◌≡◌, ◌↔◌, ◌+◌, ◌<◌, ◌^◌, Some, IsTrue, IsSome, IsSomeAnd, IfSome, IfOk, OnErr, option_copied};
ghost use Rattle.cas_model.specs.Council.{with_listing, without_partial};
ghost use Rattle.cas_model.specs.Eras.Course.{entering};
ghost use Rattle.cas_model.specs.Calls.Step.{rescanned_by};
ghost use Rattle.cas_model.specs.Eras.Step.{new_plan, plan_after};
ghost use Rattle.cas_members.specs.Plan.{next_of};
ghost use Rattle.cas_world_calls.specs.Council.{plan_view, due_key, GoesOnBy};

use crate::council::Gathered;
use cas_change::Key;
use cas_members::{Plan, PlanStep};
use cas_quorum::Era;
use cas_record::{Answer, Asked, Probe};
use cas_world_listing::Listing;
use std::alloc::AllocError;

/// A change of membership that is under way.
#[derive(Drop)]
pub struct OpenPlan {
    /// What it was opened for.
    pub asked: Asked,
    /// The era that all entered last, and the steps that are left.
    pub plan: Plan,
    /// The proposers below this number are marked as in the era that is to be entered.
    pub entered: u8,
    /// How many keys it has proposed anew. At the greatest `u32` the count stands still.
    pub rescanned: u32,
    /// What was listed of the era that is to be settled.
    pub listing: Option<Listing>,
}

impl OpenPlan {
    /// A change that just begins.
    pub fn new(asked: Asked, plan: Plan) -> OpenPlan
        ensures { plan_view result ≡ new_plan asked plan }
    {
        OpenPlan {
            asked,
            plan,
            entered: 0,
            rescanned: 0,
            listing: None,
        }
    }

    /// The era that is to be entered, where that is the next step.
    pub fn next(&self) -> Option<Era>
        ensures { result ≡ entering self.now.plan.left }
    {
        match self.plan.next() {
            PlanStep::Enter(era) => Some(era),
            _ => None,
        }
    }

    /// The proposer whose turn it is entered the next era. With the last one, whose number is the greatest, all have.
    pub fn enter(&mut self, last_proposer: u8)
        requires next { IsSome (entering self.old.plan.left) }
        requires few { self.old.entered + 1 < 2 ^ 8 }
        ensures { IfSome (entering self.old.plan.left)
            (λ next. plan_view self.new ≡ plan_after last_proposer (plan_view self.old) next) }
    {
        if self.entered == last_proposer {
            self.plan.entered();
            self.entered = 0;
            self.listing = None;
        } else {
            self.entered += 1;
        }
    }

    /// The key that is to be proposed anew next: the first of a complete listing of the era that is to be settled.
    pub fn due(&self) -> Option<&Key>
        ensures { option_copied result ≡ due_key (plan_view self.now) }
    {
        match (&self.listing, self.plan.next()) {
            (Some(listing), PlanStep::Settle) if listing.is_complete() => listing.first_key(),
            _ => None,
        }
    }

    /// Whether this key is to be proposed anew next.
    pub fn is_due(&self, key: &Key) -> bool
        ensures { IsTrue result ↔ (due_key (plan_view self.now) ≡ Some key.now) }
    {
        match self.due() {
            Some(due) => due == key,
            None => false,
        }
    }

    /// The key that was due was proposed anew.
    pub fn rescan(&mut self)
        requires { IsSome (due_key (plan_view self.old)) }
        ensures { IfSome self.old.listing
            (λ listing. plan_view self.new ≡ rescanned_by (plan_view self.old) listing) }
    {
        self.rescanned = self.rescanned.saturating_add(1);
        if let Some(listing) = &mut self.listing {
            listing.drop_first();
        }
        self.settle_listed();
    }

    /// The listing goes on by what the members told, and with it the change: what came of it, or else why it does not go on.
    pub fn go_on(
        &mut self,
        era: &Era,
        told: &[Probe],
    ) -> Result<Result<Gathered, Answer>, AllocError>
        requires settles { next_of self.old.plan.left ≡ PlanStep.Settle }
        requires listing { IsSome self.old.listing }
        ensures gone_on { IfOk result (λ gathered. IfSome self.old.listing (λ listing.
            GoesOnBy era.now told.now listing (plan_view self.old) gathered (plan_view self.new))) }
        ensures unchanged { OnErr result (plan_view self.new ≡ plan_view self.old) }
    {
        let Some(listing) = &self.listing else {
            unreachable!()
        };
        if let Some(short) = listing.short(era, told) {
            return Ok(Err(short));
        }
        let next = listing.next(era, told)?;
        let gathered = if next.is_complete() {
            Gathered::Listed
        } else {
            Gathered::More
        };
        self.listing = Some(next);
        self.settle_listed();
        Ok(Ok(gathered))
    }

    /// The era is settled where its listing is complete and no key of it is left.
    fn settle_listed(&mut self)
        requires settles { next_of self.old.plan.left ≡ PlanStep.Settle }
        requires listing { IsSome self.old.listing }
        ensures { IfSome self.old.listing
            (λ listing. plan_view self.new ≡ with_listing (plan_view self.old) listing) }
    {
        let is_settled = match &self.listing {
            Some(listing) => listing.is_settled(),
            None => unreachable!(),
        };
        if is_settled {
            self.plan.settled();
            self.listing = None;
        }
    }

    /// A listing that is not complete is dropped.
    pub fn drop_partial(&mut self)
        ensures { plan_view self.new ≡ without_partial (plan_view self.old) }
    {
        let is_partial = match &self.listing {
            Some(listing) => !listing.is_complete(),
            None => false,
        };
        if is_partial {
            self.listing = None;
        }
    }
}
