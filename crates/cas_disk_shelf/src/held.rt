//! What a shelf shows: its slots in the order of their keys, and its least ages, in memory.
ghost use Rattle.std.specs.Prelude.{◌≡◌, ◌+◌, ◌≤◌, IfOk, OnOk, OnErr, IsTrue, None, is_some, take, if◌then◌else◌};
ghost use Rattle.std.specs.Option.{option_copied};
ghost use Rattle.cas_slot.specs.Slots.{keys_above, slot_count};
ghost use Rattle.cas_slot.specs.Contents.{no_ages, kept_at, with_kept, without_kept};
ghost use Rattle.cas_slot.specs.Slots.{no_slots};

use cas_change::Key;
use cas_slot::{Ages, Slot, keys_after};
use std::alloc::{AllocError, Global};
use std::collections::BTreeMap;
use std::marker::Model;

/// The slots and the least ages, seen as the contents of a shelf.
#[derive(Drop)]
pub struct Held {
    alloc: Global,
    slots: BTreeMap<Key, Slot>,
    ages: Ages,
}

impl Model for Held {
    ghost use Rattle.std.specs.FinMap as map;
    ghost use Rattle.cas_slot.specs.Contents.{Contents};
    ghost use Rattle.cas_slot.specs.ContentsCode.{contents_code};

    ghost Value = { Contents };

    ghost coded = { contents_code };

    ghost view = { λ held. record { slots = map.from_entries held.slots.entries; ages = held.ages } };
}

impl Held {
    /// No slots, and these ages.
    pub fn new(alloc: Global, ages: Ages) -> Held
        ensures { result ≡ record { slots = no_slots; ages = ages } }
    {
        Held {
            alloc,
            slots: BTreeMap::new(alloc),
            ages,
        }
    }

    /// A copy of the slot of the key, if there is one.
    pub fn get(&self, key: &Key) -> Result<Option<Slot>, AllocError>
        ensures { IfOk result (λ slot. slot ≡ kept_at self.now key.now) }
    {
        match self.slots.get(key) {
            Some(slot) => Ok(Some(slot.copy()?)),
            None => Ok(None),
        }
    }

    /// Whether the key has a slot.
    pub fn has(&self, key: &Key) -> bool
        ensures { result ≡ is_some (kept_at self.now key.now) }
    {
        self.slots.contains_key(key)
    }

    /// The least ages.
    pub fn ages(&self) -> Ages
        ensures { result ≡ self.now.ages }
    {
        self.ages
    }

    /// How many slots there are.
    pub fn len(&self) -> usize
        ensures { result ≡ slot_count self.now.slots }
    {
        self.slots.len()
    }

    /// The first `most` keys above this one, or the first `most` of all, in the order of their bytes.
    pub fn keys_after(&self, after: Option<&Key>, most: usize) -> Result<Vec<Key>, AllocError>
        ensures { IfOk result (λ keys. keys.items ≡ take most
            (keys_above self.now.slots (option_copied after.entry))) }
    {
        keys_after(self.alloc, &self.slots, after, most)
    }

    /// Puts the slot at the key, in the place of the one that was there. Only a new key may find no memory, and then nothing changes.
    pub fn insert(&mut self, key: Key, slot: Slot) -> Result<(), AllocError>
        ensures ok { OnOk result (self.new ≡ with_kept self.old key slot) }
        ensures len { OnOk result (slot_count self.new.slots
            ≡ slot_count self.old.slots + (if is_some (kept_at self.old key) then 0 else 1)) }
        ensures err { OnErr result (self.new ≡ self.old) }
        ensures absent { OnErr result (kept_at self.old key ≡ None) }
    {
        match self.slots.insert(key, slot) {
            Ok(_) => Ok(()),
            Err(_) => Err(AllocError),
        }
    }

    /// Removes the slot of the key, if there is one.
    pub fn remove(&mut self, key: &Key)
        ensures { self.new ≡ without_kept self.old key.now }
    {
        self.slots.remove(key);
    }

    /// Sets the least ages.
    pub fn set_ages(&mut self, ages: Ages)
        ensures { self.new ≡ record self.old { ages = ages } }
    {
        self.ages = ages;
    }
}
