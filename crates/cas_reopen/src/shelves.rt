//! The shelves of members that go on from what stood on them.

ghost use Rattle.std.specs.Prelude.{◌≡◌, ◌≤◌, vec_len, IfOk, IfErr};
ghost use Rattle.cas_reopen.specs.Faults.{IsWhyNotRestored, IsWhyNotSettled};
ghost use Rattle.cas_reopen.specs.Shelves.{AreFoundOn, AreRestored, AreSettled, StopsWithinGiving, StaysWithin};
ghost use Rattle.cas_reopen.specs.Ready.{OthersStay};
ghost use Rattle.cas_restore.specs.Restored.{slots_of};
ghost use Rattle.cas_survey.specs.Survey.{kept_on, AreUp};
ghost use Rattle.cas_world.specs.Openings.OpeningOn.{openings_of, greatest_counter};

use crate::fault::{ReopenFault, fault_of};
use crate::floors::floors_of;
use cas_ballot::Members;
use cas_restore::{restore_members, take_up_members};
use cas_slot::{MOST_SLOTS, Shelf};
use cas_survey::{Findings, survey};
use cas_world::OpeningFloor;
use std::alloc::Global;

/// What a world is opened from that goes on from what stood before.
#[derive(Drop)]
pub struct Restored {
    /// The floors with which the histories of its keys open, in the order of the keys.
    pub floors: Vec<OpeningFloor>,
    /// The greatest counter in any promise or accepted ballot that was found, or 0.
    pub past: u64,
}

/// Takes up the shelves of the members, and gives each of them what they hold together: for each key the state of the greatest ballot
/// that one of them accepted. There is a shelf for each identity of an acceptor. Only slots that differ are written, and the shelves of
/// others stay as they are.
///
/// After an `Err` nothing that was settled is lost, and the same call may be made again. [`ReopenFault::Foreign`] tells that what was
/// left of a member's shelf is none; [`ReopenFault::TooManyKeys`] comes exactly where the members accepted states of more than 4,096
/// keys, if no shelf is refused before; [`ReopenFault::DiskFault`] only where the count of faults of that member's shelf rose.
pub fn restore_shelves<S: Shelf>(
    alloc: Global,
    shelves: &mut Vec<S>,
    members: Members,
) -> Result<Restored, ReopenFault>
    requires all { vec_len shelves.old ≡ 64 }
    ensures ok { IfOk result (λ restored. AreRestored S.tells S.is_up S.contents S.may_leave members
        shelves.old.items shelves.new.items (openings_of restored.floors.items) restored.past) }
    ensures counters { IfOk result
        (λ restored. greatest_counter restored.floors.items ≤ restored.past) }
    ensures err { IfErr result (λ fault. IsWhyNotRestored S.tells S.contents S.may_leave
        S.fault_count members shelves.old.items shelves.new.items fault) }
    ensures stops { S.tells → StopsWithinGiving S.may_leave members
        shelves.old.items shelves.new.items }
    ensures others { OthersStay members shelves.old.items shelves.new.items }
    ensures places { vec_len shelves.new ≡ vec_len shelves.old }
{
    if let Err(fault) = take_up_members(shelves, members) {
        return Err(fault_of(fault));
    }
    settle(alloc, shelves, members)
}

/// Gives the shelf of each member, which is up, what they hold together.
fn settle<S: Shelf>(
    alloc: Global,
    shelves: &mut Vec<S>,
    members: Members,
) -> Result<Restored, ReopenFault>
    requires all { vec_len shelves.old ≡ 64 }
    requires up { AreUp S.is_up members shelves.old.items }
    ensures ok { IfOk result (λ restored. AreSettled S.is_up S.contents members
        shelves.old.items shelves.new.items (openings_of restored.floors.items) restored.past) }
    ensures counters { IfOk result
        (λ restored. greatest_counter restored.floors.items ≤ restored.past) }
    ensures err { IfErr result (λ fault. IsWhyNotSettled S.contents
        S.fault_count members shelves.old.items shelves.new.items fault) }
    ensures stops { S.tells → StaysWithin S.contents S.may_leave members
        shelves.old.items shelves.new.items }
    ensures others { OthersStay members shelves.old.items shelves.new.items }
    ensures places { vec_len shelves.new ≡ vec_len shelves.old }
{
    let found = survey(alloc, shelves, members)?;
    give(alloc, shelves, members, &found)
}

/// Gives the shelf of each member, which is up, what was found on them.
fn give<S: Shelf>(
    alloc: Global,
    shelves: &mut Vec<S>,
    members: Members,
    found: &Findings,
) -> Result<Restored, ReopenFault>
    requires all { vec_len shelves.old ≡ 64 }
    requires up { AreUp S.is_up members shelves.old.items }
    requires found { AreFoundOn members (kept_on S.contents shelves.old.items)
        (slots_of found.now.slots) found.now.past }
    ensures ok { IfOk result (λ restored. AreSettled S.is_up S.contents members
        shelves.old.items shelves.new.items (openings_of restored.floors.items) restored.past) }
    ensures counters { IfOk result
        (λ restored. greatest_counter restored.floors.items ≤ restored.past) }
    ensures err { IfErr result (λ fault. IsWhyNotSettled S.contents
        S.fault_count members shelves.old.items shelves.new.items fault) }
    ensures stops { S.tells → StaysWithin S.contents S.may_leave members
        shelves.old.items shelves.new.items }
    ensures others { OthersStay members shelves.old.items shelves.new.items }
    ensures places { vec_len shelves.new ≡ vec_len shelves.old }
{
    let keys = found.slots.len();
    if keys > MOST_SLOTS {
        let keys = u32::try_from(keys).unwrap_or(u32::MAX);
        return Err(ReopenFault::TooManyKeys { keys });
    }
    if let Err(fault) = restore_members(shelves, members, &found.slots) {
        return Err(fault_of(fault));
    }
    Ok(Restored {
        floors: floors_of(alloc, &found.slots)?,
        past: found.past,
    })
}
