ghost use Rattle.std.specs.Prelude.{◌≡◌, []};
ghost use Rattle.cas_collect.specs.Order.{IsNext, with_step, step_after};

use cas_change::Key;
use cas_quorum::Era;
use std::marker::Model;

/// What a collection does next.
#[derive(Clone, Copy, Debug, PartialEq, Eq)]
pub enum CollectStep {
    /// To propose the tombstone, and have all who accept in the era confirm it.
    Round,
    /// To renew the proposer of this number: it drops what it holds for the key, and its age rises.
    Renew(u8),
    /// To tell the new ages to all members, so that none takes a frame that was sent before.
    Ages,
    /// To mark the tombstone as the floor of the key's history.
    Floor,
    /// To remove the key's slots at all members.
    Remove,
    /// Nothing more: the collection is at its end.
    End,
}

/// A deletion of one key that is under way, seen as its key, its era, the greatest number of a proposer, the steps
/// that were confirmed and the one that comes next.
///
/// The steps come in one order: [`CollectStep::Round`], [`CollectStep::Renew`] for each proposer from 0 to the greatest,
/// [`CollectStep::Ages`], [`CollectStep::Floor`], [`CollectStep::Remove`], [`CollectStep::End`].
#[derive(Debug, Drop)]
pub struct Collect {
    key: Key,
    era: Era,
    proposers: u8,
    step: CollectStep,
}

impl Model for Collect {
    ghost use Rattle.std.specs.Prelude.{take};
    ghost use Rattle.cas_collect.specs.Order.{Collection, collection_steps, place_of, IsStepOf};

    ghost Value = { Collection };

    ghost view = { λ collect. record {
      key = collect.key;
      era = collect.era;
      proposers = collect.proposers;
      confirmed = take (place_of collect.proposers collect.step) (collection_steps collect.proposers);
      step = collect.step;
    } };

    ghost invariant = { λ collect. IsStepOf collect.proposers collect.step };
}

impl Collect {
    /// The collection of the key in that era, with the proposers 0 to `proposers`, before its first step.
    pub fn begin(key: Key, proposers: u8, era: &Era) -> Collect
        ensures { result ≡ record {
          key = key;
          era = era.now;
          proposers = proposers;
          confirmed = [];
          step = CollectStep.Round;
        } }
    {
        Collect {
            key,
            era: *era,
            proposers,
            step: CollectStep::Round,
        }
    }

    /// The key that is deleted.
    pub fn key(&self) -> &Key
        ensures { result.now ≡ self.now.key }
    {
        &self.key
    }

    /// The era in which the collection began, whose members confirm its steps.
    pub fn era(&self) -> Era
        ensures { result ≡ self.now.era }
    {
        self.era
    }

    /// The step that comes next in the order, where exactly those before it were confirmed.
    pub fn next(&self) -> CollectStep
        ensures next { result ≡ self.now.step }
        ensures order { IsNext self.now.proposers self.now.confirmed result }
    {
        self.step
    }

    /// The step, which was next, was confirmed. The end stays the end.
    pub fn confirm(&mut self, step: CollectStep)
        requires { IsNext self.old.proposers self.old.confirmed step }
        ensures { self.new ≡ record self.old {
          confirmed = with_step self.old.confirmed step;
          step = step_after self.old.proposers step;
        } }
    {
        self.step = step_after(step, self.proposers);
    }

    /// The key back. A collection may be ended at any step: what was not done then stays undone.
    pub fn end(self) -> Key
        ensures { result ≡ self.key }
    {
        let Collect { key, .. } = self;
        key
    }
}

/// The step behind that one, with the proposers 0 to `proposers`.
fn step_after(step: CollectStep, proposers: u8) -> CollectStep
    ensures { result ≡ step_after proposers step }
{
    match step {
        CollectStep::Round => CollectStep::Renew(0),
        CollectStep::Renew(proposer) if proposer < proposers => CollectStep::Renew(proposer + 1),
        CollectStep::Renew(_) => CollectStep::Ages,
        CollectStep::Ages => CollectStep::Floor,
        CollectStep::Floor => CollectStep::Remove,
        CollectStep::Remove | CollectStep::End => CollectStep::End,
    }
}
