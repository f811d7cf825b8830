//! One shelf that is brought to given slots.

ghost use Rattle.std.specs.Prelude.{◌≡◌, ◌≤◌, ◌↔◌, Some, None, IsTrue, IsSome, IfOk, OnOk, IsErrOf};
ghost use Rattle.std.specs.BTreeMap.{btree_map_len};
ghost use Rattle.cas_slot.specs.Slots.{Slots, slot_at, IsFullFor};
ghost use Rattle.cas_slot.specs.Contents.{kept_at};
ghost use Rattle.cas_slot.specs.Limits.{SlotBallotsFit};
ghost use Rattle.cas_slot.specs.Shelf.{HasShelfCause, IsNeitherFullNorForeign};
ghost use Rattle.cas_restore.specs.Restored.{slots_of, EachSlotFits, HasNoOthers, HoldsJust, MovesTowards};

use cas_change::Key;
use cas_slot::{MOST_SLOTS, Shelf, ShelfFault, Slot};
use std::alloc::AllocError;
use std::collections::BTreeMap;

/// Makes the shelf hold these slots, at most 4,096, and no others. It drops each slot of another key, and then puts each that
/// differs. The least ages stay, and what agrees already is not written.
///
/// Whatever the answer, the shelf holds for each key what it held or what these slots have, and a crash leaves such a shelf.
/// So after a stop in the middle the same call may be made again, once the shelf is reopened. [`ShelfFault::DiskFault`] comes
/// only where the count of faults rose, and else [`ShelfFault::NoMemory`] alone comes; after that the shelf is still up.
pub fn restore<S: Shelf>(shelf: &mut S, slots: &BTreeMap<Key, Slot>) -> Result<(), ShelfFault>
    requires up { S.is_up shelf.old }
    requires fits { EachSlotFits (slots_of slots.now) }
    requires few { btree_map_len slots.now ≤ MOST_SLOTS }
    ensures ok { OnOk result
        (HoldsJust S.contents S.is_up (slots_of slots.now) shelf.old shelf.new) }
    ensures up_still { IsErrOf result ShelfFault.NoMemory → S.is_up shelf.new }
    ensures untouched { (S.contents shelf.old).slots ≡ slots_of slots.now → shelf.new ≡ shelf.old }
    ensures towards { MovesTowards
        S.tells S.contents S.may_leave (slots_of slots.now) shelf.old shelf.new }
    ensures other { IsNeitherFullNorForeign result }
    ensures cause { HasShelfCause result (S.fault_count shelf.old) (S.fault_count shelf.new) }
{
    drop_others(shelf, slots)?;
    put_all(shelf, slots)
}

/// Drops each slot whose key these slots lack.
fn drop_others<S: Shelf>(shelf: &mut S, slots: &BTreeMap<Key, Slot>) -> Result<(), ShelfFault>
    requires { S.is_up shelf.old }
    ensures dropped { OnOk result (HasNoOthers (slots_of slots.now) (S.contents shelf.new)) }
    ensures up { OnOk result (S.is_up shelf.new) }
    ensures up_still { IsErrOf result ShelfFault.NoMemory → S.is_up shelf.new }
    ensures untouched { (S.contents shelf.old).slots ≡ slots_of slots.now → shelf.new ≡ shelf.old }
    ensures towards { MovesTowards
        S.tells S.contents S.may_leave (slots_of slots.now) shelf.old shelf.new }
    ensures other { IsNeitherFullNorForeign result }
    ensures cause { HasShelfCause result (S.fault_count shelf.old) (S.fault_count shelf.new) }
{
    let keys = shelf.keys_after(None, usize::MAX)?;
    for key in &keys {
        drop_other(shelf, key, slots)?;
    }
    Ok(())
}

/// Drops the slot of the key, unless these slots have the key.
fn drop_other<S: Shelf>(
    shelf: &mut S,
    key: &Key,
    slots: &BTreeMap<Key, Slot>,
) -> Result<(), ShelfFault>
    requires { S.is_up shelf.old }
    ensures dropped { OnOk result (slot_at (slots_of slots.now) key.now ≡ None
        → kept_at (S.contents shelf.new) key.now ≡ None) }
    ensures up { OnOk result (S.is_up shelf.new) }
    ensures up_still { IsErrOf result ShelfFault.NoMemory → S.is_up shelf.new }
    ensures untouched { IsSome (slot_at (slots_of slots.now) key.now) → shelf.new ≡ shelf.old }
    ensures towards { MovesTowards
        S.tells S.contents S.may_leave (slots_of slots.now) shelf.old shelf.new }
    ensures other { IsNeitherFullNorForeign result }
    ensures cause { HasShelfCause result (S.fault_count shelf.old) (S.fault_count shelf.new) }
{
    if slots.contains_key(key) {
        return Ok(());
    }
    shelf.drop_slot(key)
}

/// Puts each of these slots that differs from what stands at its key.
fn put_all<S: Shelf>(shelf: &mut S, slots: &BTreeMap<Key, Slot>) -> Result<(), ShelfFault>
    requires up { S.is_up shelf.old }
    requires fits { EachSlotFits (slots_of slots.now) }
    requires few { btree_map_len slots.now ≤ MOST_SLOTS }
    requires none { HasNoOthers (slots_of slots.now) (S.contents shelf.old) }
    ensures ok { OnOk result
        (HoldsJust S.contents S.is_up (slots_of slots.now) shelf.old shelf.new) }
    ensures up_still { IsErrOf result ShelfFault.NoMemory → S.is_up shelf.new }
    ensures untouched { (S.contents shelf.old).slots ≡ slots_of slots.now → shelf.new ≡ shelf.old }
    ensures towards { MovesTowards
        S.tells S.contents S.may_leave (slots_of slots.now) shelf.old shelf.new }
    ensures other { IsNeitherFullNorForeign result }
    ensures cause { HasShelfCause result (S.fault_count shelf.old) (S.fault_count shelf.new) }
{
    for (key, slot) in slots.iter() {
        put_if_other(shelf, key, slot)?;
    }
    Ok(())
}

/// Puts a copy of the slot at the key, unless an equal one stands there.
fn put_if_other<S: Shelf>(shelf: &mut S, key: &Key, slot: &Slot) -> Result<(), ShelfFault>
    requires up { S.is_up shelf.old }
    requires fits { SlotBallotsFit slot.now }
    requires room { IsFullFor (S.contents shelf.old).slots key.now → ⊥ }
    ensures ok { OnOk result (kept_at (S.contents shelf.new) key.now ≡ Some slot.now) }
    ensures up { OnOk result (S.is_up shelf.new) }
    ensures up_still { IsErrOf result ShelfFault.NoMemory → S.is_up shelf.new }
    ensures untouched { kept_at (S.contents shelf.old) key.now ≡ Some slot.now
        → shelf.new ≡ shelf.old }
    ensures towards { (slots : Slots) → slot_at slots key.now ≡ Some slot.now
        → MovesTowards S.tells S.contents S.may_leave slots shelf.old shelf.new }
    ensures other { IsNeitherFullNorForeign result }
    ensures cause { HasShelfCause result (S.fault_count shelf.old) (S.fault_count shelf.new) }
{
    if is_there(shelf, key, slot)? {
        return Ok(());
    }
    let copy = slot.copy()?;
    shelf.put(key, copy)
}

/// Whether an equal slot stands at the key.
fn is_there<S: Shelf>(shelf: &S, key: &Key, slot: &Slot) -> Result<bool, AllocError>
    ensures { IfOk result
        (λ there. IsTrue there ↔ (kept_at (S.contents shelf.now) key.now ≡ Some slot.now)) }
{
    match shelf.get(key)? {
        Some(kept) => Ok(kept == *slot),
        None => Ok(false),
    }
}
