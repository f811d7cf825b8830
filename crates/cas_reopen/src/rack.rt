//! A store over the disks of a rack, which is new where all of them are empty, and goes on from what stands on them where they are not.

ghost use Rattle.std.specs.Prelude.{◌≡◌, ◌<◌, ◌≤◌, ℕ, true, false, length, vec_len, IsNone, IfSome, IfOk, IfErr};
ghost use Rattle.cas_ballot.specs.Members.{has_member};
ghost use Rattle.cas_model.specs.View.{meaning};
ghost use Rattle.cas_disk_shelf.specs.declared.shelf.DiskShelf.{DiskShelf};
ghost use Rattle.cas_store.specs.Rack.{rack_meaning};
ghost use Rattle.cas_world.specs.Openings.Opening.{members_to};
ghost use Rattle.cas_reopen.specs.Closed.{IsLeastLost, NoneIsLost, IsWhyClosed, IsWhyNotOpened, ComesInOrder, StopsWithinOpening, OthersAreAsked};
ghost use Rattle.cas_reopen.specs.Opened.{IsNewOver, IsOpenedOver, leaves_of};
ghost use Rattle.cas_reopen.specs.Ready.{GoesOnFromDisks, OthersStay};
ghost use Rattle.cas_reopen.specs.Shelves.{StopsWithinGiving};

use crate::fault::{ReopenFault, fault_of_opening};
use crate::lengths::{FilledDisks, lengths_of};
use crate::ready::open_on_shelves;
use cas_ballot::{AcceptorId, Members};
use cas_disk::Disk;
use cas_disk_shelf::DiskShelf;
use cas_slot::Shelf;
use cas_store::{ACCEPTORS, Rack, Store, put_on_shelves, take_off_shelves};
use cas_world::Config;
use std::alloc::Global;

/// A store over the rack, with these members, of which there are as many as the configuration says. All disks are asked for their
/// lengths first, in the order of their numbers.
///
/// If all are empty, the store is new: its members are started and hold nothing. Otherwise it goes on from what stands on the disks:
/// the members are given what they hold together, each proposer goes on above all that it ever drew and one age older, and acceptors
/// whose disks are not empty never join. The disks of other acceptors than the members are asked for their lengths, and not reached
/// otherwise.
///
/// The first of these that holds is the fault:
///
/// - [`ReopenFault::DiskFault`] where a disk gives no length. It comes only where that disk's count of faults rose, also below.
/// - [`ReopenFault::LostDisk`] where some disk is not empty, and that of a member or of the vault of proposer 0 is. It names the least
///   such.
/// - [`ReopenFault::Foreign`] where what a member's disk has left is no shelf.
/// - [`ReopenFault::TooManyKeys`] where the members have accepted states of more than 4,096 keys.
/// - [`ReopenFault::Foreign`] or [`ReopenFault::Spent`] where a disk shows no vault, or the age of the vault on it is 2^48.
///
/// [`ReopenFault::NoMemory`] may come at any time. After an `Err` the disks come back in their places. If not all were empty, nothing
/// that was settled is lost: a crash leaves of each member's disk what it might have left before, or what is between that and its floors.
pub fn open_rack<D: Disk>(
    alloc: Global,
    config: Config,
    members: Members,
    mut rack: Rack<D>,
) -> Result<Store<D>, (ReopenFault, Rack<D>)>
    requires some { 0 < config.acceptors }
    requires few { config.acceptors ≤ 9 }
    requires count { length members ≡ config.acceptors }
    requires proposers { config.proposers ≤ 16 }
    requires acceptors { vec_len rack.acceptors ≡ 64 }
    requires vaults { vec_len rack.vaults ≡ 17 }
    ensures opened { IfOk result (λ store. IsOpenedOver (meaning ⟦<DiskShelf<D> as Shelf>⟧ D.Disk)
        (rack_meaning D.Disk) config.acceptors config.proposers members rack store.world) }
    ensures fault { IfErr result
        (λ back. IsWhyClosed (rack_meaning D.Disk) members rack back.1 back.0) }
    ensures order { IfErr result
        (λ back. ComesInOrder (rack_meaning D.Disk) members rack back.0) }
    ensures stops { D.tells → IfErr result
        (λ back. StopsWithinOpening (rack_meaning D.Disk) members rack back.1) }
    ensures others { IfErr result (λ back. OthersAreAsked
        (rack_meaning D.Disk) members rack.acceptors.items back.1.acceptors.items) }
    ensures back { IfErr result (λ back. (vec_len back.1.acceptors ≡ 64)
        × (vec_len back.1.vaults ≡ 17)) }
{
    let filled = match lengths_of(&mut rack) {
        Ok(filled) => filled,
        Err(fault) => return Err((fault, rack)),
    };
    if !filled.are_zero() {
        if let Some(disk) = least_lost(members, &filled) {
            return Err((ReopenFault::LostDisk { disk }, rack));
        }
        return go_on(alloc, config, members, filled.acceptors, false, rack);
    }
    if members == first_members(config.acceptors) {
        return open_new(alloc, config, rack);
    }
    go_on(alloc, config, members, Members::new(), true, rack)
}

/// The acceptors from 1 to this one.
pub fn first_members(count: u8) -> Members
    requires { count ≤ 63 }
    ensures { result ≡ members_to count }
{
    let mut members = Members::new();
    for number in 1..=count {
        members.insert(AcceptorId::new(number).unwrap());
    }
    members
}

/// The least disk that is lost: that of a member, or of the vault of proposer 0, which is empty.
fn least_lost(members: Members, filled: &FilledDisks) -> Option<u8>
    ensures none { IsNone result → NoneIsLost members filled.now.acceptors filled.now.vaults }
    ensures some { IfSome result
        (λ disk. IsLeastLost members filled.now.acceptors filled.now.vaults disk) }
{
    for number in 0..members.end() {
        let id = AcceptorId::new(number).unwrap();
        if members.has(id) && !filled.acceptors.has(id) {
            return Some(number);
        }
    }
    if filled.vaults.has(AcceptorId::new(0).unwrap()) {
        return None;
    }
    Some(ACCEPTORS)
}

/// A new store over a rack whose disks are empty, of which the acceptors from 1 on are members.
fn open_new<D: Disk>(
    alloc: Global,
    config: Config,
    rack: Rack<D>,
) -> Result<Store<D>, (ReopenFault, Rack<D>)>
    requires some { 0 < config.acceptors }
    requires few { config.acceptors ≤ 9 }
    requires proposers { config.proposers ≤ 16 }
    requires acceptors { vec_len rack.acceptors ≡ 64 }
    requires vaults { vec_len rack.vaults ≡ 17 }
    ensures ok { IfOk result (λ store. IsNewOver (meaning ⟦<DiskShelf<D> as Shelf>⟧ D.Disk)
        config.acceptors config.proposers rack store.world) }
    ensures err { IfErr result (λ back. IsWhyNotOpened (rack_meaning D.Disk)
        (members_to config.acceptors) rack back.1 back.0) }
    ensures others { IfErr result (λ back. OthersStay (members_to config.acceptors)
        rack.acceptors.items back.1.acceptors.items) }
    ensures back { IfErr result (λ back. (vec_len back.1.acceptors ≡ 64)
        × (vec_len back.1.vaults ≡ 17)) }
{
    match Store::open(alloc, config, rack) {
        Ok(store) => Ok(store),
        Err((fault, rack)) => Err((fault_of_opening(fault), rack)),
    }
}

/// A store over the disks of a rack: new with these members, where all are empty, and else as it goes on from what stands on them. Who
/// was used never joins.
fn go_on<D: Disk>(
    alloc: Global,
    config: Config,
    members: Members,
    used: Members,
    is_new: bool,
    rack: Rack<D>,
) -> Result<Store<D>, (ReopenFault, Rack<D>)>
    requires some { 0 < config.acceptors }
    requires few { config.acceptors ≤ 9 }
    requires count { length members ≡ config.acceptors }
    requires proposers { config.proposers ≤ 16 }
    requires acceptors { vec_len rack.acceptors ≡ 64 }
    requires vaults { vec_len rack.vaults ≡ 17 }
    ensures ok { IfOk result (λ store. GoesOnFromDisks (meaning ⟦<DiskShelf<D> as Shelf>⟧ D.Disk)
        (rack_meaning D.Disk) members used config.proposers is_new rack store.world) }
    ensures err { IfErr result
        (λ back. IsWhyNotOpened (rack_meaning D.Disk) members rack back.1 back.0) }
    ensures stops { is_new ≡ false → D.tells → IfErr result (λ back. StopsWithinGiving
        (leaves_of D.may_leave) members rack.acceptors.items back.1.acceptors.items) }
    ensures others { IfErr result
        (λ back. OthersStay members rack.acceptors.items back.1.acceptors.items) }
    ensures back { IfErr result (λ back. (vec_len back.1.acceptors ≡ 64)
        × (vec_len back.1.vaults ≡ 17)) }
{
    let Rack {
        mut acceptors,
        vaults,
    } = rack;
    let count = members.count();
    prove!(count == u32::from(config.acceptors));
    let mut shelves = match Vec::with_capacity(alloc, usize::from(ACCEPTORS)) {
        Ok(shelves) => shelves,
        Err(_) => return Err((ReopenFault::NoMemory, Rack { acceptors, vaults })),
    };
    put_on_shelves(alloc, &mut acceptors, &mut shelves);
    match open_on_shelves(alloc, config, members, used, is_new, shelves, vaults) {
        Ok(world) => Ok(Store::over(world, acceptors)),
        Err((fault, shelves, vaults)) => {
            take_off_shelves(shelves, &mut acceptors);
            Err((fault, Rack { acceptors, vaults }))
        }
    }
}
