//! A world over the disks of a rack.

ghost use Rattle.std.specs.Prelude.{◌≡◌, ℕ, ◌+◌, ◌<◌, ◌≤◌, true, false, [], map, take, reverse, vec_len, vec_capacity, IfOk, IfErr};
ghost use Rattle.cas_acceptor.specs.Acceptor.{AcceptorView};
ghost use Rattle.cas_ballot.specs.Members.{has_member};
ghost use Rattle.cas_model.specs.Exchanges.Tellings.{AreWritable};
ghost use Rattle.cas_model.specs.SafeLaws.{HasPlaces};
ghost use Rattle.cas_model.specs.Step.{IsOpening};
ghost use Rattle.cas_model.specs.View.{IsAt, meaning, disk_meaning};
ghost use Rattle.cas_disk_shelf.specs.Shelf.{disk_of};
ghost use Rattle.cas_disk_shelf.specs.declared.shelf.DiskShelf.{DiskShelf};
ghost use Rattle.cas_record.specs.Legal.{IsLegal};
ghost use Rattle.cas_world.specs.Openings.Opening.{members_to, disks_of, AreDesksBelow};
ghost use Rattle.cas_store.specs.Kept.{AreHeld, AreKept};
ghost use Rattle.cas_store.specs.Store.{acceptor_disks, AreReached, StaysClosed};

use crate::rack::{ACCEPTORS, Rack};
use cas_disk::Disk;
use cas_disk_shelf::DiskShelf;
use cas_record::Record;
use cas_slot::Shelf;
use cas_world::{Config, OpenFault, World};
use std::alloc::Global;

/// A world over the disks of a rack: each acceptor on a shelf on its own, and each proposer on a vault on its own.
#[derive(Drop)]
pub struct Store<D: Disk> {
    pub world: World<DiskShelf<D>, D>,
    /// Where the disks of the acceptors are put when the store is closed.
    pub room: Room<D>,
}

/// The list in which the disks of the acceptors came, emptied, so that they can be handed back without taking memory.
#[derive(Drop)]
pub struct Room<D> {
    acceptors: Vec<D>,
    ghost none: { vec_len acceptors ≡ 0 },
    ghost room: { 64 ≤ vec_capacity acceptors },
}

impl<D: Disk> Store<D> {
    /// A world in which nothing has happened, over the disks of the rack: those of the members and those of the vaults of the
    /// proposers are started, in the order of their numbers, and no other is reached. What was on them is lost. The members are up.
    ///
    /// After an `Err` the disks come back in their places, those that were not reached as they were. [`OpenFault::DiskFault`] tells
    /// the first that failed, and comes only where its count of faults rose.
    pub fn open(
        alloc: Global,
        config: Config,
        rack: Rack<D>,
    ) -> Result<Store<D>, (OpenFault, Rack<D>)>
        requires some { 0 < config.acceptors }
        requires few { config.acceptors ≤ 9 }
        requires proposers { config.proposers ≤ 16 }
        requires acceptors { vec_len rack.acceptors ≡ 64 }
        requires vaults { vec_len rack.vaults ≡ 17 }
        ensures opening { IfOk result (λ store. IsOpening (meaning ⟦<DiskShelf<D> as Shelf>⟧ D.Disk)
            (members_to config.acceptors) store.world) }
        ensures places { IfOk result (λ store. HasPlaces store.world) }
        ensures up { IfOk result (λ store. (id : ℕ) (acceptor : AcceptorView (DiskShelf D))
            → IsAt store.world.acceptors id acceptor
            → has_member (members_to config.acceptors) id ≡ true → acceptor.down ≡ false) }
        ensures last_proposer { IfOk result
            (λ store. store.world.last_proposer ≡ config.proposers) }
        ensures acceptors { IfOk result (λ store. AreReached D.fault_count 1
            (config.acceptors + 1) rack.acceptors.items (acceptor_disks store.world.acceptors)) }
        ensures vaults { IfOk result (λ store. AreDesksBelow (disk_meaning D.Disk)
            D.fault_count rack.vaults.items (config.proposers + 1) store.world.desks) }
        ensures fault { IfErr result (λ back.
            StaysClosed D.fault_count config.acceptors config.proposers rack.acceptors.items
            rack.vaults.items back.0 back.1.acceptors.items back.1.vaults.items) }
        ensures back { IfErr result (λ back. (vec_len back.1.acceptors ≡ 64)
            × (vec_len back.1.vaults ≡ 17)) }
    {
        let Rack {
            mut acceptors,
            vaults,
        } = rack;
        let mut shelves = match Vec::with_capacity(alloc, usize::from(ACCEPTORS)) {
            Ok(shelves) => shelves,
            Err(_) => return Err((OpenFault::NoMemory, Rack { acceptors, vaults })),
        };
        put_on_shelves(alloc, &mut acceptors, &mut shelves);
        match World::open(alloc, config, shelves, vaults) {
            Ok(world) => Ok(Store {
                world,
                room: Room { acceptors },
            }),
            Err((fault, shelves, vaults)) => {
                take_off_shelves(shelves, &mut acceptors);
                Err((fault, Rack { acceptors, vaults }))
            }
        }
    }

    /// This world with this list, in which the disks of its acceptors are put when the store is closed.
    pub fn over(world: World<DiskShelf<D>, D>, list: Vec<D>) -> Store<D>
        requires none { vec_len list ≡ 0 }
        requires room { 64 ≤ vec_capacity list }
        ensures { result.world ≡ world }
    {
        Store {
            world,
            room: Room { acceptors: list },
        }
    }

    /// Hands back the record and the rack, with each disk in its place. It takes no memory. The record is legal, as that of
    /// [`World::record`]; and what is acknowledged in it stands on the disks of the acceptors that confirmed it, whatever a crash of them
    /// leaves, until a floor is made at or above it. Members of an era in which a proposer works hold what is settled of each key on their
    /// disks, whatever a crash leaves of these, if a prepare quorum of that era is among them.
    pub fn close(self) -> (Record, Rack<D>)
        ensures marks { result.0.marks ≡ self.world.marks }
        ensures legal { D.tells → IsLegal (reverse result.0.marks) }
        ensures writable { AreWritable result.0.marks }
        ensures kept { D.tells
            → AreKept D.may_leave (reverse result.0.marks) result.1.acceptors.items }
        ensures held { D.tells → AreHeld D.may_leave self.world result.1.acceptors.items }
        ensures acceptors { result.1.acceptors.items ≡ acceptor_disks self.world.acceptors }
        ensures vaults { take (self.world.last_proposer + 1) result.1.vaults.items
            ≡ disks_of self.world.desks }
        ensures all_acceptors { vec_len result.1.acceptors ≡ 64 }
        ensures all_vaults { vec_len result.1.vaults ≡ 17 }
    {
        let Store { world, room } = self;
        let Room { mut acceptors } = room;
        let (record, shelves, vaults) = world.parts();
        take_off_shelves(shelves, &mut acceptors);
        (record, Rack { acceptors, vaults })
    }
}

/// Makes shelves over the disks, in their order, and leaves the list of the disks empty with its room. No disk is reached.
pub fn put_on_shelves<D: Disk>(alloc: Global, disks: &mut Vec<D>, shelves: &mut Vec<DiskShelf<D>>)
    requires none { shelves.old.items ≡ [] }
    requires room { vec_len disks.old ≤ vec_capacity shelves.old }
    ensures shelves { map disk_of shelves.new.items ≡ disks.old.items }
    ensures taken { vec_len disks.new ≡ 0 }
    ensures capacity { vec_capacity disks.new ≡ vec_capacity disks.old }
{
    disks.reverse();
    while let Some(disk) = disks.pop() {
        shelves.push_reserved(DiskShelf::over(alloc, disk));
    }
}

/// Puts the disks of the shelves into their list, in their order. It takes no memory, and reaches no disk.
pub fn take_off_shelves<D: Disk>(mut shelves: Vec<DiskShelf<D>>, disks: &mut Vec<D>)
    requires none { vec_len disks.old ≡ 0 }
    requires room { vec_len shelves ≤ vec_capacity disks.old }
    ensures disks { disks.new.items ≡ map disk_of shelves.items }
    ensures capacity { vec_capacity disks.new ≡ vec_capacity disks.old }
{
    while let Some(shelf) = shelves.pop() {
        disks.push_reserved(shelf.into_disk());
    }
    disks.reverse();
    shelves.destroy_empty();
}
