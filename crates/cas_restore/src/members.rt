//! The shelves of all members, which are brought to given slots.

ghost use Rattle.std.specs.Prelude.{◌≡◌, ◌≤◌, ◌<◌, ℕ, true, Some, slice_get, vec_len, OnOk, IfErr};
ghost use Rattle.std.specs.BTreeMap.{btree_map_len};
ghost use Rattle.cas_ballot.specs.Members.{has_member};
ghost use Rattle.cas_restore.specs.Restored.{slots_of, EachSlotFits, HoldsJust};
ghost use Rattle.cas_restore.specs.Members.{MembersBecome, GoesTowards, OneMemberFails, FailsAt, ChangesAt};

use crate::shelf::restore;
use cas_ballot::{AcceptorId, Members};
use cas_change::Key;
use cas_slot::{MOST_SLOTS, Shelf, ShelfFault, Slot};
use std::collections::BTreeMap;

/// How many identities of acceptors there are.
pub(crate) const ACCEPTORS: u8 = 64;

/// Why not all members' shelves were taken up, or brought to the slots.
#[derive(Clone, Copy, Debug, PartialEq, Eq)]
pub struct RestoreFault {
    /// The number of the member whose shelf failed.
    pub member: u8,
    /// [`ShelfFault::DiskFault`] or [`ShelfFault::NoMemory`]; [`ShelfFault::Foreign`] only where shelves are taken up.
    pub fault: ShelfFault,
}

/// Makes the shelf of each member hold these slots, at most 4,096, and no others, in the order of the members' numbers. There is
/// a shelf for each identity of an acceptor, and those of the members are up.
///
/// At the first fault it stops. Then each shelf holds for each key what it held or what these slots have, and a crash leaves
/// such a shelf; those of all other members are up. Shelves of others than members stay as they are.
/// [`ShelfFault::DiskFault`] comes only where the count of faults of that member's shelf rose, and else
/// [`ShelfFault::NoMemory`] alone comes.
pub fn restore_members<S: Shelf>(
    shelves: &mut Vec<S>,
    members: Members,
    slots: &BTreeMap<Key, Slot>,
) -> Result<(), RestoreFault>
    requires all { vec_len shelves.old ≡ ACCEPTORS }
    requires up { (id : ℕ) (shelf : S) → has_member members id ≡ true
        → slice_get shelves.old.items id ≡ Some shelf → S.is_up shelf }
    requires fits { EachSlotFits (slots_of slots.now) }
    requires few { btree_map_len slots.now ≤ MOST_SLOTS }
    ensures ok { OnOk result (MembersBecome members
        (HoldsJust S.contents S.is_up (slots_of slots.now)) shelves.old.items shelves.new.items) }
    ensures err { IfErr result (λ fault. OneMemberFails
        S.is_up S.fault_count members fault shelves.old.items shelves.new.items) }
    ensures towards { MembersBecome members (GoesTowards S.tells S.contents S.may_leave
        S.fault_count (slots_of slots.now)) shelves.old.items shelves.new.items }
{
    for number in 0..ACCEPTORS {
        let id = AcceptorId::new(number).unwrap();
        if members.has(id) {
            restore_at(shelves, number, slots)?;
        }
    }
    Ok(())
}

/// Makes the shelf of this number hold these slots and no others.
fn restore_at<S: Shelf>(
    shelves: &mut Vec<S>,
    number: u8,
    slots: &BTreeMap<Key, Slot>,
) -> Result<(), RestoreFault>
    requires within { number < vec_len shelves.old }
    requires up { (shelf : S) → slice_get shelves.old.items number ≡ Some shelf → S.is_up shelf }
    requires fits { EachSlotFits (slots_of slots.now) }
    requires few { btree_map_len slots.now ≤ MOST_SLOTS }
    ensures ok { OnOk result (ChangesAt number
        (HoldsJust S.contents S.is_up (slots_of slots.now)) shelves.old.items shelves.new.items) }
    ensures err { IfErr result (λ fault. (fault.member ≡ number) × ChangesAt number
        (FailsAt S.is_up S.fault_count fault) shelves.old.items shelves.new.items) }
    ensures towards { ChangesAt number (GoesTowards S.tells S.contents S.may_leave
        S.fault_count (slots_of slots.now)) shelves.old.items shelves.new.items }
{
    match restore(&mut shelves[usize::from(number)], slots) {
        Ok(()) => Ok(()),
        Err(fault) => Err(RestoreFault {
            member: number,
            fault,
        }),
    }
}
