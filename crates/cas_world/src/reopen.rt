//! What a world that goes on from what stood before is opened from: the floors with which the histories of its keys open, the shelves
//! that hold them, and the vaults of an earlier life.

ghost use Rattle.std.specs.Prelude.{◌≡◌, ◌+◌, ◌<◌, ◌≤◌, ◌^◌, ℕ, true, [], map, drop, reverse, vec_len, vec_capacity, IsTrue, IfOk, IfErr, OnOk};
ghost use Rattle.cas_ballot.specs.Members.{has_member};
ghost use Rattle.cas_vault.specs.Error.{HasVaultCause};
ghost use Rattle.cas_vault.specs.Vault.{disk_of, VaultStands};
ghost use Rattle.cas_model.specs.Openings.{mark_of};
ghost use Rattle.cas_model.specs.View.{IsAt, disk_meaning};
ghost use Rattle.cas_world.specs.Openings.OpeningOn.{opening_of, placed_as, placed, GoesOnPast, VaultIsRefused, VaultIsTakenUp, IsTakenUpOver, AreTakenUpBelow, AVaultIsNotTakenUp, IsFaultOfVault, fault_of_vault};

use crate::fault::OpenFault;
use crate::open::ACCEPTORS;
use cas_acceptor::Acceptor;
use cas_ballot::{AcceptorId, Ballot, Members, ProposerId};
use cas_change::{Key, State};
use cas_disk::{Disk, DiskFault};
use cas_proposer::Desk;
use cas_record::{Mark, Record};
use cas_slot::Shelf;
use cas_vault::{Vault, VaultError};
use std::alloc::{AllocError, Global};

/// A floor with which the history of its key opens: each member holds this state of the key, as accepted at the ballot in era 0.
#[derive(Drop)]
pub struct OpeningFloor {
    pub key: Key,
    pub ballot: Ballot,
    pub state: State,
}

/// Makes acceptors over the shelves, numbered from 0 on: those of the members, whose shelves are up, run, and all others are down.
/// Leaves the list of shelves empty with its room.
pub(crate) fn place_shelves<S: Shelf>(
    acceptors: &mut Vec<Acceptor<S>>,
    shelves: &mut Vec<S>,
    members: Members,
)
    requires none { acceptors.old.items ≡ [] }
    requires few { vec_len shelves.old ≤ 64 }
    requires room { 64 ≤ vec_capacity acceptors.old }
    requires up { (id : ℕ) (shelf : S)
        → has_member members id ≡ true → IsAt shelves.old.items id shelf → S.is_up shelf }
    ensures acceptors { acceptors.new.items ≡ placed members 0 shelves.old.items }
    ensures taken { vec_len shelves.new ≡ 0 }
    ensures capacity { vec_capacity shelves.new ≡ vec_capacity shelves.old }
{
    shelves.reverse();
    while let Some(shelf) = shelves.pop() {
        let id = AcceptorId::new(acceptors.len() as u8).unwrap();
        acceptors.push_reserved(place(id, shelf, members.has(id)));
    }
}

/// An acceptor over the shelf: that of a member, whose shelf is up, runs, and any other is down.
fn place<S: Shelf>(id: AcceptorId, shelf: S, is_member: bool) -> Acceptor<S>
    requires { IsTrue is_member → S.is_up shelf }
    ensures { result ≡ placed_as is_member id shelf }
{
    if is_member {
        Acceptor::running(id, shelf)
    } else {
        Acceptor::new(id, shelf)
    }
}

/// A record that begins with a mark for each floor, in their order.
pub(crate) fn record_of(alloc: Global, mut floors: Vec<OpeningFloor>) -> Result<Record, AllocError>
    ensures { IfOk result
        (λ book. book.marks ≡ map (λ floor. mark_of (opening_of floor)) floors.items) }
{
    let mut record = Record::new(alloc);
    record.reserve(floors.len())?;
    floors.reverse();
    while let Some(floor) = floors.pop() {
        record.push(Mark::Floor {
            key: floor.key,
            ballot: floor.ballot,
            state: floor.state,
        });
    }
    Ok(record)
}

/// Makes the desks of the proposers from 0 to this one, each over a vault that is past this counter, older by one, and in era 0.
pub(crate) fn take_up_desks<V: Disk>(
    alloc: Global,
    desks: &mut Vec<Desk<V>>,
    disks: &mut Vec<V>,
    proposers: u8,
    past: u64,
) -> Result<(), OpenFault>
    requires proposers { proposers ≤ 16 }
    requires past { past ≤ 2 ^ 48 }
    requires disks { proposers < vec_len disks.old }
    requires none { desks.old.items ≡ [] }
    requires room { proposers + 1 ≤ vec_capacity desks.old }
    ensures ok { OnOk result (AreTakenUpBelow (disk_meaning V.Disk) V.seen V.fault_count past
        (reverse disks.old.items) (proposers + 1) desks.new.items) }
    ensures left { OnOk result
        (reverse disks.new.items ≡ drop (proposers + 1) (reverse disks.old.items)) }
    ensures err { IfErr result
        (λ fault. AVaultIsNotTakenUp (disk_meaning V.Disk) V.seen V.fault_count past
        (reverse disks.old.items) proposers fault desks.new.items (reverse disks.new.items)) }
    ensures capacity { vec_capacity disks.new ≡ vec_capacity disks.old }
{
    for number in 0..=proposers {
        let id = ProposerId::new(number).unwrap();
        let disk = disks.pop().unwrap();
        match take_up_desk(alloc, id, disk, past) {
            Ok(desk) => desks.push_reserved(desk),
            Err((fault, disk)) => {
                disks.push_reserved(disk);
                return Err(fault);
            }
        }
    }
    Ok(())
}

/// The desk of a proposer over its vault, which is started where its disk is empty and reopened where it is not. After an `Err` the
/// disk comes back.
fn take_up_desk<V: Disk>(
    alloc: Global,
    id: ProposerId,
    mut disk: V,
    past: u64,
) -> Result<Desk<V>, (OpenFault, V)>
    requires { past ≤ 2 ^ 48 }
    ensures desk { IfOk result
        (IsTakenUpOver (disk_meaning V.Disk) V.seen V.fault_count past id disk) }
    ensures fault { IfErr result (λ back. IsFaultOfVault (disk_meaning V.Disk) V.seen
        (64 + id) (V.fault_count disk) (V.fault_count back.1) back.1 back.0) }
    ensures never_falls { IfErr result (λ back. V.fault_count disk ≤ V.fault_count back.1) }
{
    let number = ACCEPTORS + id.number();
    let length = match disk.len() {
        Ok(length) => length,
        Err(DiskFault::Failed) => return Err((OpenFault::DiskFault { disk: number }, disk)),
        Err(DiskFault::NoMemory) => return Err((OpenFault::NoMemory, disk)),
    };
    let mut vault = Vault::over(alloc, disk);
    match take_up(&mut vault, length == 0, past) {
        Ok(()) => match Desk::new(alloc, id, vault) {
            Ok(desk) => Ok(desk),
            Err((_, vault)) => Err((OpenFault::NoMemory, vault.into_disk())),
        },
        Err(error) => Err((fault_of_vault(number, error), vault.into_disk())),
    }
}

/// Starts a vault that is new and reopens any other, and moves it on: its counter to this one at least, its age by one, and to era 0.
/// `Spent` comes exactly where its age is 2^48.
fn take_up<V: Disk>(vault: &mut Vault<V>, is_new: bool, past: u64) -> Result<(), VaultError>
    requires { past ≤ 2 ^ 48 }
    ensures ok { OnOk result (VaultIsTakenUp (disk_meaning V.Disk) past vault.new) }
    ensures goes_on { OnOk result
        (GoesOnPast (disk_meaning V.Disk) past is_new (disk_of vault.old) vault.new) }
    ensures stands { OnOk result (VaultStands V.tells V.seen V.may_leave vault.new) }
    ensures err { IfErr result (VaultIsRefused (disk_meaning V.Disk) V.seen vault.new) }
    ensures cause { HasVaultCause result
        (V.fault_count (disk_of vault.old)) (V.fault_count (disk_of vault.new)) }
{
    if is_new {
        vault.start()?;
    } else {
        vault.reopen()?;
    }
    vault.forward(past);
    vault.raise_age()?;
    vault.enter_era(0)?;
    Ok(())
}

/// Why a world is not opened where the vault of this disk was not taken up for that reason.
fn fault_of_vault(disk: u8, error: VaultError) -> OpenFault
    ensures { result ≡ fault_of_vault disk error }
{
    match error {
        VaultError::VaultFault => OpenFault::DiskFault { disk },
        VaultError::Foreign { at } => OpenFault::Foreign { disk, at },
        VaultError::Spent => OpenFault::Spent { disk },
        VaultError::NoMemory => OpenFault::NoMemory,
    }
}
