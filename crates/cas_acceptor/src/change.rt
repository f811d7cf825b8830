//! What an answer does to the shelf.

ghost use Rattle.std.specs.Prelude.{◌≡◌, ◌↔◌, ℕ, Ok, OnOk, OnErr, IsErrOf};
ghost use Rattle.cas_slot.specs.Shelf.{IsOldOrNew, ShelfLeavesOnly, HasShelfCause};
ghost use Rattle.cas_acceptor.specs.Change.{changed, HasNoRoomForChange, ChangeBallotsFit};

use cas_change::Key;
use cas_slot::{Ages, Shelf, ShelfFault, Slot};

/// What an answer does to the shelf.
#[derive(Drop)]
pub(crate) enum Change<'a> {
    Nothing,
    Put(&'a Key, Slot),
    Remove(&'a Key),
    Raise(&'a Ages),
}

/// Makes the change. A crash within the call leaves what was there before or what is there after it, and after `Ok` only the
/// latter. Whatever the error, the shelf holds what it held.
pub(crate) fn carry_out<S: Shelf>(shelf: &mut S, change: Change<'_>) -> Result<(), ShelfFault>
    requires up { S.is_up shelf.old }
    requires fits { ChangeBallotsFit change }
    ensures ok { OnOk result (S.contents shelf.new ≡ changed (S.contents shelf.old) change.entry) }
    ensures err { OnErr result (S.contents shelf.new ≡ S.contents shelf.old) }
    ensures up { OnOk result (S.is_up shelf.new) }
    ensures up_still { IsErrOf result ShelfFault.NoMemory → S.is_up shelf.new }
    ensures full { IsErrOf result ShelfFault.Full ↔ HasNoRoomForChange
        (S.contents shelf.old) change.entry }
    ensures up_when_full { IsErrOf result ShelfFault.Full → S.is_up shelf.new }
    ensures untouched_when_full { S.tells
        → IsErrOf result ShelfFault.Full → ShelfLeavesOnly S.moment S.left_since shelf.old shelf.new
        (λ left. left ≡ Ok (S.contents shelf.old)) }
    ensures not_foreign { (at : ℕ) → IsErrOf result (ShelfFault.Foreign at) → ⊥ }
    ensures any_moment { S.tells → ShelfLeavesOnly S.moment S.left_since shelf.old shelf.new
        (IsOldOrNew (S.contents shelf.old) (changed (S.contents shelf.old) change.entry)) }
    ensures cause { HasShelfCause result (S.fault_count shelf.old) (S.fault_count shelf.new) }
{
    match change {
        Change::Nothing => Ok(()),
        Change::Put(key, slot) => shelf.put(key, slot),
        Change::Remove(key) => shelf.drop_slot(key),
        Change::Raise(least) => shelf.raise_ages(least),
    }
}
