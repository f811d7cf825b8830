//! The floors with which the histories of a reopened store begin.

ghost use Rattle.std.specs.Option.{option_copied, option_map};
ghost use Rattle.std.specs.Prelude.{◌≡◌, IfOk};
ghost use Rattle.cas_reopen.specs.Floors.{floor_in, AreFloorsOf};
ghost use Rattle.cas_restore.specs.Restored.{slots_of};
ghost use Rattle.cas_world.specs.Openings.OpeningOn.{opening_of, openings_of};

use cas_change::Key;
use cas_slot::Slot;
use cas_world::OpeningFloor;
use std::alloc::{AllocError, Global};
use std::collections::BTreeMap;

/// A floor for each of these slots that accepted a state, in the order of their keys.
pub(crate) fn floors_of(
    alloc: Global,
    slots: &BTreeMap<Key, Slot>,
) -> Result<Vec<OpeningFloor>, AllocError>
    ensures { IfOk result
        (λ floors. AreFloorsOf (slots_of slots.now) (openings_of floors.items)) }
{
    let mut floors = Vec::new(alloc);
    for (key, slot) in slots.iter() {
        if let Some(floor) = floor_of(key, slot)? {
            floors.push(floor)?;
        }
    }
    Ok(floors)
}

/// The floor of the key, if the slot accepted a state.
fn floor_of(key: &Key, slot: &Slot) -> Result<Option<OpeningFloor>, AllocError>
    ensures { IfOk result (λ floor. option_map opening_of floor ≡ floor_in key.now slot.now) }
{
    let Some(accepted) = &slot.accepted else {
        return Ok(None);
    };
    Ok(Some(OpeningFloor {
        key: key.copy()?,
        ballot: accepted.ballot,
        state: accepted.state.copy()?,
    }))
}
