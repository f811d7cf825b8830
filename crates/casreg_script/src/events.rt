//! Stops, restarts, late frames and slots, as event lines ask for them.

ghost use Rattle.std.specs.Prelude.{◌≡◌, ◌≤◌, IfOk};
ghost use Rattle.cas_model.specs.View.{meaning};
ghost use Rattle.casreg_script.specs.Events.{CrashesAcceptor, RestartsAcceptor, RestartsProposer, AnswersStray, IsShownSlot, shelf_answer, vault_answer, shown_of};

use cas_ballot::AcceptorId;
use cas_change::Key;
use cas_disk::Disk;
use cas_lines::answer::{EventAnswer, Shown};
use cas_slot::{Shelf, ShelfFault, Slot};
use cas_vault::VaultError;
use cas_world::{StrayFault, World};
use std::alloc::AllocError;

/// The acceptor crashes, if it is or was a member.
pub(crate) fn crash_acceptor<S: Shelf, V: Disk>(
    world: &mut World<S, V>,
    id: AcceptorId,
) -> EventAnswer
    ensures { CrashesAcceptor (meaning S.Shelf V.Disk) world.old id result world.new }
{
    match world.acceptor_up(id) {
        Some(_) => {
            world.crash_acceptor(id);
            EventAnswer::Ok
        }
        None => EventAnswer::Absent,
    }
}

/// The acceptor is up again or stays down, if it is or was a member.
pub(crate) fn restart_acceptor<S: Shelf, V: Disk>(
    world: &mut World<S, V>,
    id: AcceptorId,
) -> EventAnswer
    ensures { RestartsAcceptor (meaning S.Shelf V.Disk) world.old id result world.new }
{
    match world.acceptor_up(id) {
        Some(_) => shelf_answer(world.restart_acceptor(id)),
        None => EventAnswer::Absent,
    }
}

/// What is answered to a restart of an acceptor. There is always room for what is there.
fn shelf_answer(restarted: Result<(), ShelfFault>) -> EventAnswer
    ensures { result ≡ shelf_answer restarted }
{
    match restarted {
        Ok(()) => EventAnswer::Ok,
        Err(ShelfFault::DiskFault) => EventAnswer::Fault,
        Err(ShelfFault::Foreign { at }) => EventAnswer::Foreign { at },
        Err(ShelfFault::Full | ShelfFault::NoMemory) => EventAnswer::NoMemory,
    }
}

/// The proposer is up again or stays down.
pub(crate) fn restart_proposer<S: Shelf, V: Disk>(
    world: &mut World<S, V>,
    proposer: u8,
) -> EventAnswer
    requires { proposer ≤ world.old.last_proposer }
    ensures { RestartsProposer (meaning S.Shelf V.Disk) world.old proposer result world.new }
{
    vault_answer(world.restart_proposer(proposer))
}

/// What is answered to a restart of a proposer. It draws no number.
fn vault_answer(restarted: Result<(), VaultError>) -> EventAnswer
    ensures { result ≡ vault_answer restarted }
{
    match restarted {
        Ok(()) => EventAnswer::Ok,
        Err(VaultError::VaultFault) => EventAnswer::Fault,
        Err(VaultError::Foreign { at }) => EventAnswer::Foreign { at },
        Err(VaultError::Spent | VaultError::NoMemory) => EventAnswer::NoMemory,
    }
}

/// The late frame of that place strays in, if there is one.
pub(crate) fn stray<S: Shelf, V: Disk>(world: &mut World<S, V>, index: u64) -> EventAnswer
    ensures { AnswersStray (meaning S.Shelf V.Disk) world.old index result world.new }
{
    let late = world.late() as u64;
    if index >= late {
        return EventAnswer::Absent;
    }
    match world.stray(index as usize) {
        Ok(_) => EventAnswer::Ok,
        Err(StrayFault::RecordFull) => EventAnswer::RecordFull,
        Err(StrayFault::NoMemory) => EventAnswer::NoMemory,
    }
}

/// What the acceptor keeps for the key, if it is or was a member and is up.
pub(crate) fn show<S: Shelf, V: Disk>(
    world: &World<S, V>,
    id: AcceptorId,
    key: &Key,
) -> Result<Shown, AllocError>
    ensures { IfOk result (IsShownSlot (meaning S.Shelf V.Disk) world.now id key.now) }
{
    match world.acceptor_up(id) {
        Some(true) => Ok(shown(world.slot_of(id, key)?)),
        Some(false) => Ok(Shown::Down),
        None => Ok(Shown::Nothing),
    }
}

/// What is shown of an acceptor that is up.
fn shown(slot: Option<Slot>) -> Shown
    ensures { result ≡ shown_of slot }
{
    match slot {
        Some(slot) => Shown::Kept(slot),
        None => Shown::Nothing,
    }
}
