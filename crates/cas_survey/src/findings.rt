//! What members that stopped still hold.

ghost use Rattle.std.specs.Prelude.{◌≡◌, ◌≤◌, ◌^◌, ℕ, List, true, max, length, IfOk, IfSome, OnOk};
ghost use Rattle.std.specs.FinMap.{from_entries};
ghost use Rattle.std.specs.Option.{option_copied};
ghost use Rattle.cas_ballot.specs.Members.{has_member};
ghost use Rattle.cas_slot.specs.Limits.{SlotBallotsFit};
ghost use Rattle.cas_slot.specs.Slot.{accepted_ballot, accepted_of};
ghost use Rattle.cas_slot.specs.Slots.{slot_at};
ghost use Rattle.cas_slot.specs.Table.{seen_at};
ghost use Rattle.cas_survey.specs.Survey.{found_slot, noted, kept_on, AreUp, AreFindings, IsGreatestCounter, FindsMore, GathersKey, CountsOn};

use cas_ballot::{AcceptorId, Ballot, Members};
use cas_change::Key;
use cas_slot::{Accepted, Shelf, Slot};
use std::alloc::{AllocError, Global};
use std::collections::BTreeMap;

/// What members that stopped still hold.
#[derive(Drop)]
pub struct Findings {
    /// For each key of which a member accepted a state above ballot zero, the slot from which its register goes on: the state that was
    /// accepted at the greatest ballot, at that ballot, in era 0, with no promise.
    pub slots: BTreeMap<Key, Slot>,
    /// The greatest counter of the ballots that a member promised or accepted; 0 where there is none.
    pub past: u64,
}

/// Looks through the shelves of the members, each at the place of its number. It changes none of them.
pub fn survey<S: Shelf>(
    alloc: Global,
    shelves: &[S],
    members: Members,
) -> Result<Findings, AllocError>
    requires all { length shelves.now ≡ 64 }
    requires up { AreUp S.is_up members shelves.now }
    ensures slots { IfOk result (λ found. AreFindings members (kept_on S.contents shelves.now)
        (from_entries found.slots.entries)) }
    ensures past { IfOk result
        (λ found. IsGreatestCounter members (kept_on S.contents shelves.now) found.past) }
    ensures fits { IfOk result (λ found. (key : List ℕ)
        → IfSome (slot_at (from_entries found.slots.entries) key) SlotBallotsFit) }
    ensures limit { IfOk result (λ found. found.past ≤ 2 ^ 48) }
{
    let mut found = Findings {
        slots: BTreeMap::new(alloc),
        past: 0,
    };
    for number in 0..members.end() {
        let id = AcceptorId::new(number).unwrap();
        if members.has(id) {
            found.add(&shelves[usize::from(number)])?;
        }
    }
    Ok(found)
}

impl Findings {
    /// Adds what a shelf holds. After an `Err` some of it is added.
    fn add<S: Shelf>(&mut self, shelf: &S) -> Result<(), AllocError>
        ensures slots { OnOk result (FindsMore (S.contents shelf.now)
            (from_entries self.old.slots.entries) (from_entries self.new.slots.entries)) }
        ensures past { OnOk result (CountsOn (S.contents shelf.now) self.old.past self.new.past) }
    {
        let keys = shelf.keys_after(None, usize::MAX)?;
        for key in &keys {
            self.add_key(shelf, key)?;
        }
        Ok(())
    }

    /// Adds what a shelf holds of this key.
    fn add_key<S: Shelf>(&mut self, shelf: &S, key: &Key) -> Result<(), AllocError>
        ensures slots { OnOk result (GathersKey (S.contents shelf.now) key.now
            (from_entries self.old.slots.entries) (from_entries self.new.slots.entries)) }
        ensures past { OnOk result
            (self.new.past ≡ max self.old.past (seen_at (S.contents shelf.now) key.now).counter) }
    {
        let Some(slot) = shelf.get(key)? else {
            return Ok(());
        };
        self.past = self.past.max(slot.seen().counter);
        note(&mut self.slots, key, slot.accepted)
    }
}

/// Notes what was accepted of the key, if its ballot is greater than that of what was noted before.
fn note(
    slots: &mut BTreeMap<Key, Slot>,
    key: &Key,
    accepted: Option<Accepted>,
) -> Result<(), AllocError>
    ensures { OnOk result (from_entries slots.new.entries
        ≡ noted (from_entries slots.old.entries) key.now accepted) }
{
    let Some(accepted) = accepted else {
        return Ok(());
    };
    if accepted_ballot(slots.get(key)) < accepted.ballot {
        slots.insert(key.copy()?, found_slot(accepted))?;
    }
    Ok(())
}

/// The ballot at which the slot accepted a state; zero where there is no slot, or it accepted none.
fn accepted_ballot(slot: Option<&Slot>) -> Ballot
    ensures { result ≡ accepted_ballot (accepted_of (option_copied slot.entry)) }
{
    match slot {
        Some(slot) => match &slot.accepted {
            Some(accepted) => accepted.ballot,
            None => Ballot::ZERO,
        },
        None => Ballot::ZERO,
    }
}

/// The slot from which a register goes on of which this was accepted last.
fn found_slot(accepted: Accepted) -> Slot
    ensures { result ≡ found_slot accepted }
{
    Slot {
        promise: Ballot::ZERO,
        accepted: Some(Accepted {
            ballot: accepted.ballot,
            era: 0,
            state: accepted.state,
        }),
    }
}
