//! The rules by which an acceptor answers, as functions of the slot alone.

ghost use Rattle.std.specs.Prelude.{◌≡◌};
ghost use Rattle.std.specs.Option.{option_copied};
ghost use Rattle.cas_slot.specs.Slot.{seen_of, accepted_of};
ghost use Rattle.cas_slot.specs.Rules.{prepare_rule, accept_rule, remove_rule, is_accepted_at, is_tombstone};

use crate::slot::Slot;
use cas_ballot::Ballot;
use cas_change::State;
use std::cmp::Ordering;

/// What an acceptor does with a prepare.
#[derive(Clone, Copy, Debug, PartialEq, Eq)]
pub enum PrepareRule {
    /// It promises the ballot, which is above all that its slot has seen.
    Promise,
    /// It has seen just this ballot, and answers as it did then.
    Again,
    /// It has seen this greater ballot, and refuses.
    Met(Ballot),
}

/// What an acceptor does with an accept.
#[derive(Clone, Copy, Debug, PartialEq, Eq)]
pub enum AcceptRule {
    /// It takes the state.
    Take,
    /// It has accepted at just this ballot, confirms again and changes nothing.
    Repeat,
    /// It has seen this greater ballot, and refuses.
    Met(Ballot),
}

/// What an acceptor does with a removal.
#[derive(Clone, Copy, Debug, PartialEq, Eq)]
pub enum RemoveRule {
    /// It removes the slot, which holds the tombstone and has promised nothing greater.
    Remove,
    /// There is no slot, and nothing to do.
    Absent,
    /// It keeps the slot, which holds something else or has promised a greater ballot.
    Keep,
}

/// What becomes of a prepare at this ballot, where the key has that slot or none.
pub fn on_prepare(slot: Option<&Slot>, ballot: Ballot) -> PrepareRule
    ensures { result ≡ prepare_rule (option_copied slot.entry) ballot }
{
    let seen = seen_at(slot);
    match seen.cmp(&ballot) {
        Ordering::Less => PrepareRule::Promise,
        Ordering::Equal => PrepareRule::Again,
        Ordering::Greater => PrepareRule::Met(seen),
    }
}

/// What becomes of an accept at this ballot, where the key has that slot or none.
pub fn on_accept(slot: Option<&Slot>, ballot: Ballot) -> AcceptRule
    ensures { result ≡ accept_rule (option_copied slot.entry) ballot }
{
    if is_accepted_at(slot, ballot) {
        return AcceptRule::Repeat;
    }
    let seen = seen_at(slot);
    if ballot < seen {
        AcceptRule::Met(seen)
    } else {
        AcceptRule::Take
    }
}

/// What becomes of a removal with the tombstone of this ballot, where the key has that slot or none.
pub fn on_remove(slot: Option<&Slot>, tomb: Ballot) -> RemoveRule
    ensures { result ≡ remove_rule (option_copied slot.entry) tomb }
{
    match slot {
        None => RemoveRule::Absent,
        Some(slot) => {
            if is_tombstone(slot, tomb) {
                RemoveRule::Remove
            } else {
                RemoveRule::Keep
            }
        }
    }
}

/// Whether the slot holds the empty state, accepted at just this ballot, and has promised nothing greater.
fn is_tombstone(slot: &Slot, tomb: Ballot) -> bool
    ensures { result ≡ is_tombstone slot.now tomb }
{
    match &slot.accepted {
        Some(accepted) => {
            matches!(&accepted.state, State::Empty)
                && accepted.ballot == tomb
                && slot.promise <= tomb
        }
        None => false,
    }
}

/// The greatest ballot that the slot has seen; zero where there is no slot.
fn seen_at(slot: Option<&Slot>) -> Ballot
    ensures { result ≡ seen_of (option_copied slot.entry) }
{
    match slot {
        Some(slot) => slot.seen(),
        None => Ballot::ZERO,
    }
}

/// Whether the slot's state was accepted at just this ballot.
fn is_accepted_at(slot: Option<&Slot>, ballot: Ballot) -> bool
    ensures { result ≡ is_accepted_at (accepted_of (option_copied slot.entry)) ballot }
{
    match slot {
        Some(slot) => match &slot.accepted {
            Some(accepted) => accepted.ballot == ballot,
            None => false,
        },
        None => false,
    }
}
