//! A shelf in memory.

ghost use Rattle.std.specs.Prelude.{◌≡◌, IsTrue, IfOk, take};
ghost use Rattle.std.specs.FinMap as map;
ghost use Rattle.std.specs.Option.{option_copied};
ghost use Rattle.cas_slot.specs.Slots.{keys_above, IsFullFor};
ghost use Rattle.cas_slot.specs.Contents.{nothing};
ghost use Rattle.cas_slot.specs.Limits.{AllBallotsFit, SlotBallotsFit};

use crate::ages::Ages;
use crate::fault::ShelfFault;
use crate::shelf::Shelf;
use crate::slot::Slot;
use crate::slots::MOST_SLOTS;
use cas_change::Key;
use std::alloc::{AllocError, Global};
use std::collections::BTreeMap;
use std::marker::Model;
use std::ops::Bound;

/// A shelf in memory, seen as its contents. It is up from the first, and never fails.
///
/// No crash falls within one of its calls, and one between two calls leaves what is there.
#[derive(Drop)]
pub struct MapShelf {
    alloc: Global,
    slots: BTreeMap<Key, Slot>,
    ages: Ages,
}

impl Model for MapShelf {
    ghost use Rattle.std.specs.FinMap as map;
    ghost use Rattle.cas_slot.specs.Contents.{Contents};
    ghost use Rattle.cas_slot.specs.Limits.{AllBallotsFit};
    ghost use Rattle.cas_slot.specs.ContentsCode.{contents_code};

    ghost Value = { Contents };

    ghost coded = { contents_code };

    ghost view = { λ shelf. record { slots = map.from_entries shelf.slots.entries; ages = shelf.ages } };

    ghost invariant = { λ shelf. AllBallotsFit (record { slots = map.from_entries shelf.slots.entries; ages = shelf.ages }) };
}

impl MapShelf {
    /// A shelf with no slot, on which each least age is 0.
    pub fn new(alloc: Global) -> MapShelf
        ensures nothing { result ≡ nothing }
        ensures up { AllBallotsFit result }
    {
        MapShelf {
            alloc,
            slots: BTreeMap::new(alloc),
            ages: Ages::ZERO,
        }
    }
}

impl Shelf for MapShelf {
    ghost use Rattle.std.specs.Prelude.{◌≡◌, ⊤, Ok};
    ghost use Rattle.cas_slot.specs.Limits.{AllBallotsFit};

    ghost tells = { ⊤ };

    ghost contents = { λ shelf. shelf };

    ghost is_up = { λ shelf. AllBallotsFit shelf };

    ghost may_leave = { λ shelf left. left ≡ Ok shelf };

    ghost moment = { λ _. 0 };

    ghost left_since = { λ shelf _ left. left ≡ Ok shelf };

    ghost fault_count = { λ _. 0 };

    ghost up_is_kept = { λ _ _ _ _ left. left };

    ghost ballots_fit = { λ _ up. up };

    ghost counts_now = { λ _ _ _ _ _ left. left };

    ghost only_now = { λ _ _ _ left. left };

    fn start(&mut self) -> Result<(), ShelfFault> {
        self.slots.clear();
        self.ages = Ages::ZERO;
        Ok(())
    }

    fn reopen(&mut self) -> Result<(), ShelfFault> {
        // For the proof alone: the fields are read, so that their invariant is known.
        let _ = &self.slots;
        Ok(())
    }

    fn crash(&mut self) {}

    fn get(&self, key: &Key) -> Result<Option<Slot>, AllocError> {
        match self.slots.get(key) {
            Some(slot) => Ok(Some(slot.copy()?)),
            None => Ok(None),
        }
    }

    fn ages(&self) -> Ages {
        self.ages
    }

    fn keys_after(&self, after: Option<&Key>, most: usize) -> Result<Vec<Key>, AllocError> {
        keys_after(self.alloc, &self.slots, after, most)
    }

    fn put(&mut self, key: &Key, slot: Slot) -> Result<(), ShelfFault> {
        if is_full_for(&self.slots, key) {
            return Err(ShelfFault::Full);
        }
        self.slots.insert(key.copy()?, slot)?;
        Ok(())
    }

    fn drop_slot(&mut self, key: &Key) -> Result<(), ShelfFault> {
        self.slots.remove(key);
        Ok(())
    }

    fn raise_ages(&mut self, least: &Ages) -> Result<(), ShelfFault> {
        self.ages.raise(least);
        Ok(())
    }

    fn faults(&self) -> u64 {
        0
    }
}

/// Whether the key has no slot, and there is no room for one more.
fn is_full_for(slots: &BTreeMap<Key, Slot>, key: &Key) -> bool
    ensures full { IsTrue result → IsFullFor (map.from_entries slots.now.entries) key.now }
    ensures room { IsFullFor (map.from_entries slots.now.entries) key.now → IsTrue result }
{
    slots.len() >= MOST_SLOTS && !slots.contains_key(key)
}

/// The first `most` keys above this one, or the first `most` of all, in the order of their bytes.
pub fn keys_after(
    alloc: Global,
    slots: &BTreeMap<Key, Slot>,
    after: Option<&Key>,
    most: usize,
) -> Result<Vec<Key>, AllocError>
    ensures { IfOk result (λ found. found.items ≡ take most
        (keys_above (map.from_entries slots.now.entries) (option_copied after.entry))) }
{
    let start = match after {
        Some(key) => Bound::Excluded(key),
        None => Bound::Unbounded,
    };
    let mut found = Vec::new(alloc);
    for entry in slots.range((start, Bound::Unbounded)) {
        if found.len() == most {
            break;
        }
        found.push(entry.0.copy()?)?;
    }
    Ok(found)
}
