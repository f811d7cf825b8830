//! Lists of keys in the order of their bytes, each of which is there once.

ghost use Rattle.std.specs.List.{list_any};
ghost use Rattle.std.specs.Option.{option_copied};
ghost use Rattle.std.specs.Prelude.{◌≡◌, None, IfOk, IfSome, OnOk, true};
ghost use Rattle.cas_change.specs.Key.{IsKey};
ghost use Rattle.cas_model.specs.Eras.Remaining.{AreKeys};
ghost use Rattle.cas_record.specs.Histories.Chain.{is_key};
ghost use Rattle.cas_slot.specs.Slots.{is_above, rises};
ghost use Rattle.cas_world_listing.specs.Keys.{Adds};

use cas_change::Key;
use std::alloc::{AllocError, Global};

/// Equal keys, in memory of their own.
pub(crate) fn copy_keys(alloc: Global, keys: &[Key]) -> Result<Vec<Key>, AllocError>
    ensures { IfOk result (λ copies. copies.items ≡ keys.now) }
{
    let mut copies = Vec::with_capacity(alloc, keys.len())?;
    for key in keys {
        copies.push(key.copy()?)?;
    }
    Ok(copies)
}

/// Adds each of these keys where it is not there yet. After an `Err` some of them are added.
pub(crate) fn add_keys(keys: &mut Vec<Key>, more: &[Key]) -> Result<(), AllocError>
    requires { rises None keys.old.items ≡ true }
    ensures { OnOk result
        (Adds (λ key. list_any (is_key key) more.now) keys.old.items keys.new.items) }
{
    for key in more {
        add_key(keys, key)?;
    }
    Ok(())
}

/// Adds the key, where it is not there yet.
fn add_key(keys: &mut Vec<Key>, key: &Key) -> Result<(), AllocError>
    requires { rises None keys.old.items ≡ true }
    ensures { OnOk result (Adds (λ other. is_key other key.now) keys.old.items keys.new.items) }
{
    if let Err(place) = keys.binary_search(key) {
        keys.insert(place, key.copy()?)?;
    }
    Ok(())
}

/// Whether each key is above the one before it, and the first above this one.
pub(crate) fn rises(after: Option<&Key>, keys: &[Key]) -> bool
    ensures rises { result ≡ rises (option_copied after.entry) keys.now }
    ensures keys { result ≡ true → AreKeys (option_copied after.entry) keys.now }
{
    match keys {
        [] => true,
        [key, rest @ ..] => is_above(after, key) && rises(Some(key), rest),
    }
}

/// Whether the key is above this one. Each is above none.
fn is_above(after: Option<&Key>, key: &Key) -> bool
    ensures above { result ≡ is_above (option_copied after.entry) key.now }
    ensures after { IfSome (option_copied after.entry) IsKey }
    ensures key { IsKey key.now }
{
    let bytes = key.bytes();
    match after {
        Some(after) => after.bytes().cmp(bytes).is_lt(),
        None => true,
    }
}
