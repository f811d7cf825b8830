//! What a world is opened from, and hands back.

ghost use Rattle.std.specs.Prelude.{◌≡◌, ◌+◌, ◌<◌, ◌≤◌, [], ◌++◌, drop, reverse, replicate, vec_len, vec_capacity, IfOk, IfErr, OnOk};
ghost use Rattle.cas_flow.specs.Flow.{empty_flow};
ghost use Rattle.cas_model.specs.View.{meaning, disk_meaning, shelf_meaning};
ghost use Rattle.cas_world.specs.Openings.Opening.{unbegun, members_to, unstarted, NoneStarted, shelves_of, disks_of, IsFaultOf, fault_of_shelf, AreStartedBelow, AMemberFails, IsDeskOver, AreDesksBelow, AVaultFails, AllStart, SomeDiskFails};

use crate::fault::OpenFault;
use crate::world::Config;
use cas_acceptor::Acceptor;
use cas_ballot::{AcceptorId, Members, ProposerId};
use cas_disk::Disk;
use cas_flow::Flow;
use cas_proposer::Desk;
use cas_slot::{Shelf, ShelfFault};
use cas_vault::{Vault, VaultError};
use cas_world_calls::call::Caller;
use std::alloc::{AllocError, Global};

/// How many identities of acceptors there are. The disks of the proposers are numbered from there on.
pub(crate) const ACCEPTORS: u8 = 64;

/// How many proposers of clients a world has, and the lists that its shelves and the disks of its vaults came in, so that all can be
/// handed back without taking memory.
#[derive(Drop)]
pub(crate) struct Setup<S: Shelf, V: Disk> {
    pub proposers: u8,
    /// Empty.
    pub shelves: Vec<S>,
    /// Those that no proposer uses, the last one first.
    pub disks: Vec<V>,
    ghost no_shelf: { vec_len shelves ≡ 0 },
    ghost shelf_room: { 64 ≤ vec_capacity shelves },
    ghost disks_left: { vec_len disks + proposers ≡ 16 },
    ghost disk_room: { 17 ≤ vec_capacity disks },
}

/// The lists of a world that is to be opened, with their room.
pub(crate) struct Lists<S: Shelf, V: Disk> {
    pub acceptors: Vec<Acceptor<S>>,
    pub desks: Vec<Desk<V>>,
    pub callers: Vec<Caller>,
    pub flow: Flow,
}

impl<S: Shelf, V: Disk> Lists<S, V> {
    /// Callers that have not begun any call, no frame, and room for all acceptors and for the desks of the proposers from 0 to this
    /// one.
    pub fn new(alloc: Global, proposers: u8) -> Result<Lists<S, V>, AllocError>
        requires { proposers ≤ 16 }
        ensures acceptors { IfOk result (λ lists. lists.acceptors.items ≡ []) }
        ensures acceptor_room { IfOk result (λ lists. 64 ≤ vec_capacity lists.acceptors) }
        ensures desks { IfOk result (λ lists. lists.desks.items ≡ []) }
        ensures desk_room { IfOk result (λ lists. proposers + 1 ≤ vec_capacity lists.desks) }
        ensures callers { IfOk result
            (λ lists. lists.callers.items ≡ replicate (proposers + 1) unbegun) }
        ensures flow { IfOk result (λ lists. lists.flow ≡ empty_flow) }
    {
        let flow = Flow::new(alloc)?;
        let callers = new_callers(alloc, proposers)?;
        let acceptors = Vec::with_capacity(alloc, usize::from(ACCEPTORS))?;
        match Vec::with_capacity(alloc, usize::from(proposers) + 1) {
            Ok(desks) => Ok(Lists {
                acceptors,
                desks,
                callers,
                flow,
            }),
            Err(error) => {
                acceptors.destroy_empty();
                Err(error)
            }
        }
    }
}

/// Callers of these numbers, from 0 on.
fn new_callers(alloc: Global, proposers: u8) -> Result<Vec<Caller>, AllocError>
    requires { proposers ≤ 16 }
    ensures { IfOk result (λ callers. callers.items ≡ replicate (proposers + 1) unbegun) }
{
    let mut callers = Vec::with_capacity(alloc, usize::from(proposers) + 1)?;
    for _number in 0..=proposers {
        callers.push_reserved(Caller::new());
    }
    Ok(callers)
}

/// The members of the first era: the acceptors from 1 to this one.
pub(crate) fn first_members(count: u8) -> Members
    requires { count ≤ 63 }
    ensures { result ≡ members_to count }
{
    let mut members = Members::new();
    for number in 1..=count {
        members.insert(AcceptorId::new(number).unwrap());
    }
    members
}

/// Makes acceptors over the shelves, numbered from 0 on and all down, and leaves the list of shelves empty with its room.
pub(crate) fn take_shelves<S: Shelf>(acceptors: &mut Vec<Acceptor<S>>, shelves: &mut Vec<S>)
    requires none { acceptors.old.items ≡ [] }
    requires few { vec_len shelves.old ≤ 64 }
    requires room { 64 ≤ vec_capacity acceptors.old }
    ensures acceptors { acceptors.new.items ≡ unstarted 0 shelves.old.items }
    ensures taken { vec_len shelves.new ≡ 0 }
    ensures capacity { vec_capacity shelves.new ≡ vec_capacity shelves.old }
{
    shelves.reverse();
    while let Some(shelf) = shelves.pop() {
        let id = AcceptorId::new(acceptors.len() as u8).unwrap();
        acceptors.push_reserved(Acceptor::new(id, shelf));
    }
}

/// Puts the shelves of the acceptors into their list, in the order of their numbers.
pub(crate) fn give_shelves<S: Shelf>(mut acceptors: Vec<Acceptor<S>>, shelves: &mut Vec<S>)
    requires none { vec_len shelves.old ≡ 0 }
    requires room { vec_len acceptors ≤ vec_capacity shelves.old }
    ensures { shelves.new.items ≡ shelves_of acceptors.items }
{
    while let Some(acceptor) = acceptors.pop() {
        shelves.push_reserved(acceptor.into_shelf());
    }
    shelves.reverse();
    acceptors.destroy_empty();
}

/// Puts the disks of the desks into their list, which has those that no desk uses, the last one first; then all are in the order of
/// their numbers.
pub(crate) fn give_disks<V: Disk>(mut desks: Vec<Desk<V>>, disks: &mut Vec<V>)
    requires { vec_len desks + vec_len disks.old ≤ vec_capacity disks.old }
    ensures { disks.new.items ≡ disks_of desks.items ++ reverse disks.old.items }
{
    while let Some(desk) = desks.pop() {
        disks.push_reserved(desk.into_vault().into_disk());
    }
    disks.reverse();
    desks.destroy_empty();
}

/// Starts the shelves of the members, and then the vaults of the proposers, whose disks are in their list, the last one first. After
/// an `Err` the desks that were made and the disks that are left are all that there were.
pub(crate) fn start<S: Shelf, V: Disk>(
    alloc: Global,
    config: Config,
    acceptors: &mut Vec<Acceptor<S>>,
    desks: &mut Vec<Desk<V>>,
    disks: &mut Vec<V>,
) -> Result<(), OpenFault>
    requires acceptors { config.acceptors < vec_len acceptors.old }
    requires identities { vec_len acceptors.old ≤ 64 }
    requires fresh { NoneStarted acceptors.old.items }
    requires proposers { config.proposers ≤ 16 }
    requires disks { config.proposers < vec_len disks.old }
    requires none { desks.old.items ≡ [] }
    requires room { config.proposers + 1 ≤ vec_capacity desks.old }
    ensures ok { OnOk result (AllStart (meaning S.Shelf V.Disk)
        S.fault_count V.fault_count config.acceptors config.proposers acceptors.old.items
        (reverse disks.old.items) acceptors.new.items desks.new.items (reverse disks.new.items)) }
    ensures err { IfErr result (λ fault. SomeDiskFails (meaning S.Shelf V.Disk)
        S.fault_count V.fault_count config.acceptors config.proposers acceptors.old.items (reverse
        disks.old.items) fault acceptors.new.items desks.new.items (reverse disks.new.items)) }
    ensures capacity { vec_capacity disks.new ≡ vec_capacity disks.old }
{
    start_members(acceptors, config.acceptors)?;
    start_desks(alloc, desks, disks, config.proposers)
}

/// Starts the shelves of the acceptors from 1 to this one.
fn start_members<S: Shelf>(acceptors: &mut Vec<Acceptor<S>>, count: u8) -> Result<(), OpenFault>
    requires few { count < vec_len acceptors.old }
    requires identities { vec_len acceptors.old ≤ 64 }
    requires fresh { NoneStarted acceptors.old.items }
    ensures ok { OnOk result (AreStartedBelow (shelf_meaning S.Shelf)
        S.fault_count acceptors.old.items (count + 1) acceptors.new.items) }
    ensures err { IfErr result (λ fault. AMemberFails (shelf_meaning S.Shelf)
        S.fault_count acceptors.old.items count fault acceptors.new.items) }
{
    for number in 1..=count {
        match acceptors[usize::from(number)].restart() {
            Ok(()) => {}
            Err(fault) => return Err(fault_of_shelf(number, fault)),
        }
    }
    Ok(())
}

/// Why a world is not opened where the shelf of this number did not start for that fault.
fn fault_of_shelf(number: u8, fault: ShelfFault) -> OpenFault
    ensures { result ≡ fault_of_shelf number fault }
{
    match fault {
        ShelfFault::DiskFault => OpenFault::DiskFault { disk: number },
        _ => OpenFault::NoMemory,
    }
}

/// Makes the desks of the proposers from 0 to this one.
fn start_desks<V: Disk>(
    alloc: Global,
    desks: &mut Vec<Desk<V>>,
    disks: &mut Vec<V>,
    proposers: u8,
) -> Result<(), OpenFault>
    requires proposers { proposers ≤ 16 }
    requires disks { proposers < vec_len disks.old }
    requires none { desks.old.items ≡ [] }
    requires room { proposers + 1 ≤ vec_capacity desks.old }
    ensures ok { OnOk result (AreDesksBelow (disk_meaning V.Disk) V.fault_count
        (reverse disks.old.items) (proposers + 1) desks.new.items) }
    ensures left { OnOk result
        (reverse disks.new.items ≡ drop (proposers + 1) (reverse disks.old.items)) }
    ensures err { IfErr result (λ fault. AVaultFails (disk_meaning V.Disk) V.fault_count
        (reverse disks.old.items) proposers fault desks.new.items (reverse disks.new.items)) }
    ensures capacity { vec_capacity disks.new ≡ vec_capacity disks.old }
{
    for number in 0..=proposers {
        let id = ProposerId::new(number).unwrap();
        let disk = disks.pop().unwrap();
        match start_desk(alloc, id, disk) {
            Ok(desk) => desks.push_reserved(desk),
            Err((fault, disk)) => {
                disks.push_reserved(disk);
                return Err(fault);
            }
        }
    }
    Ok(())
}

/// The desk of a proposer over a vault that is started. After an `Err` the disk comes back. `DiskFault` names it by its number, and
/// comes only where its count of faults rose.
fn start_desk<V: Disk>(alloc: Global, id: ProposerId, disk: V) -> Result<Desk<V>, (OpenFault, V)>
    ensures desk { IfOk result (IsDeskOver (disk_meaning V.Disk) V.fault_count id disk) }
    ensures fault { IfErr result
        (λ back. IsFaultOf (64 + id) (V.fault_count disk) (V.fault_count back.1) back.0) }
    ensures never_falls { IfErr result (λ back. V.fault_count disk ≤ V.fault_count back.1) }
{
    let mut vault = Vault::over(alloc, disk);
    match vault.start() {
        Ok(()) => match Desk::new(alloc, id, vault) {
            Ok(desk) => Ok(desk),
            Err((_, vault)) => Err((OpenFault::NoMemory, vault.into_disk())),
        },
        Err(VaultError::VaultFault) => {
            let disk = ACCEPTORS + id.number();
            Err((OpenFault::DiskFault { disk }, vault.into_disk()))
        }
        Err(_) => Err((OpenFault::NoMemory, vault.into_disk())),
    }
}
