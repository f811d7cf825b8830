//! Shelves that are made ready for a world, and the world that is opened on them.

ghost use Rattle.std.specs.Prelude.{◌≡◌, ◌<◌, ◌≤◌, [], false, length, vec_len, IsTrue, IfOk, OnOk, IfErr};
ghost use Rattle.cas_model.specs.View.{meaning};
ghost use Rattle.cas_restore.specs.Members.{MembersBecome, ChangesAt};
ghost use Rattle.cas_world.specs.Openings.OpeningOn.{openings_of, greatest_counter};
ghost use Rattle.cas_reopen.specs.Faults.{IsWhyNotRestored};
ghost use Rattle.cas_reopen.specs.Ready.{AreReadyFor, OthersStay, IsOpenOnShelves, IsNotOpenOnShelves};
ghost use Rattle.cas_reopen.specs.Shelves.{AreRestored, StopsWithinGiving};
ghost use Rattle.cas_reopen.specs.Starting.{HasBegun, HasNotBegun, OneDoesNotBegin, CountsFaults};

use crate::fault::{ReopenFault, fault_of, fault_of_opening};
use crate::shelves::{Restored, restore_shelves};
use cas_ballot::{AcceptorId, Members};
use cas_disk::Disk;
use cas_restore::RestoreFault;
use cas_slot::Shelf;
use cas_store::ACCEPTORS;
use cas_world::{Config, World};
use std::alloc::Global;

/// Opens a world on these shelves and vaults, of which those of the members are started, where all are new, and else restored. Who was
/// used never joins. After an `Err` all come back in their places.
pub(crate) fn open_on_shelves<S: Shelf, V: Disk>(
    alloc: Global,
    config: Config,
    members: Members,
    used: Members,
    is_new: bool,
    mut shelves: Vec<S>,
    vaults: Vec<V>,
) -> Result<World<S, V>, (ReopenFault, Vec<S>, Vec<V>)>
    requires some { 0 < config.acceptors }
    requires few { config.acceptors ≤ 9 }
    requires count { length members ≡ config.acceptors }
    requires proposers { config.proposers ≤ 16 }
    requires shelves { vec_len shelves ≡ 64 }
    requires vaults { vec_len vaults ≡ 17 }
    ensures ok { IfOk result (λ world. IsOpenOnShelves (meaning S.Shelf V.Disk) S.is_up V.seen
        members used config.proposers is_new shelves.items vaults.items world) }
    ensures err { IfErr result (λ back. IsNotOpenOnShelves (meaning S.Shelf V.Disk) V.seen members
        config.proposers shelves.items vaults.items back.0 back.1.items back.2.items) }
    ensures stops { is_new ≡ false → S.tells → IfErr result
        (λ back. StopsWithinGiving S.may_leave members shelves.items back.1.items) }
    ensures others { IfErr result (λ back. OthersStay members shelves.items back.1.items) }
    ensures back { IfErr result (λ back. (vec_len back.1 ≡ 64) × (vec_len back.2 ≡ 17)) }
{
    let Restored { floors, past } = match make_ready(alloc, &mut shelves, members, is_new) {
        Ok(restored) => restored,
        Err(fault) => return Err((fault, shelves, vaults)),
    };
    match World::open_on(alloc, config, members, used, floors, shelves, vaults, past) {
        Ok(world) => Ok(world),
        Err((fault, shelves, vaults)) => Err((fault_of_opening(fault), shelves, vaults)),
    }
}

/// Starts the shelves of the members, where all are new, and else gives them what they hold together.
fn make_ready<S: Shelf>(
    alloc: Global,
    shelves: &mut Vec<S>,
    members: Members,
    is_new: bool,
) -> Result<Restored, ReopenFault>
    requires all { vec_len shelves.old ≡ 64 }
    ensures ok { IfOk result (λ restored. AreReadyFor S.is_up S.contents members
        shelves.old.items shelves.new.items (openings_of restored.floors.items) restored.past) }
    ensures counters { IfOk result
        (λ restored. greatest_counter restored.floors.items ≤ restored.past) }
    ensures none { IsTrue is_new → IfOk result
        (λ restored. (openings_of restored.floors.items ≡ []) × (restored.past ≡ 0)) }
    ensures restored { is_new ≡ false → IfOk result (λ restored. AreRestored S.tells S.is_up
        S.contents S.may_leave members shelves.old.items shelves.new.items
        (openings_of restored.floors.items) restored.past) }
    ensures err { IfErr result (λ fault. IsWhyNotRestored S.tells S.contents S.may_leave
        S.fault_count members shelves.old.items shelves.new.items fault) }
    ensures stops { is_new ≡ false → S.tells → StopsWithinGiving S.may_leave members
        shelves.old.items shelves.new.items }
    ensures others { OthersStay members shelves.old.items shelves.new.items }
    ensures places { vec_len shelves.new ≡ vec_len shelves.old }
{
    if !is_new {
        return restore_shelves(alloc, shelves, members);
    }
    if let Err(fault) = start_members(shelves, members) {
        return Err(fault_of(fault));
    }
    Ok(Restored {
        floors: Vec::new(alloc),
        past: 0,
    })
}

/// Starts the shelf of each member, in the order of their numbers, up to the first that does not start.
fn start_members<S: Shelf>(shelves: &mut Vec<S>, members: Members) -> Result<(), RestoreFault>
    requires all { vec_len shelves.old ≡ 64 }
    ensures ok { OnOk result (MembersBecome members
        (HasBegun S.contents S.is_up) shelves.old.items shelves.new.items) }
    ensures err { IfErr result (λ fault. OneDoesNotBegin
        S.fault_count members fault shelves.old.items shelves.new.items) }
    ensures others { OthersStay members shelves.old.items shelves.new.items }
    ensures places { vec_len shelves.new ≡ vec_len shelves.old }
{
    for number in 0..ACCEPTORS {
        let id = AcceptorId::new(number).unwrap();
        if members.has(id) {
            start_at(shelves, number)?;
        }
    }
    Ok(())
}

/// Starts the shelf of this number.
fn start_at<S: Shelf>(shelves: &mut Vec<S>, number: u8) -> Result<(), RestoreFault>
    requires within { number < vec_len shelves.old }
    ensures ok { OnOk result (ChangesAt number
        (HasBegun S.contents S.is_up) shelves.old.items shelves.new.items) }
    ensures err { IfErr result (λ fault. (fault.member ≡ number) × ChangesAt number
        (HasNotBegun S.fault_count fault) shelves.old.items shelves.new.items) }
    ensures any { ChangesAt number
        (CountsFaults S.fault_count) shelves.old.items shelves.new.items }
{
    match shelves[usize::from(number)].start() {
        Ok(()) => Ok(()),
        Err(fault) => Err(RestoreFault {
            member: number,
            fault,
        }),
    }
}
