//! Why a store that is reopened loses nothing that was settled.

ghost use Rattle.cas_model.specs.View.{meaning};
ghost use Rattle.cas_disk_shelf.specs.declared.shelf.DiskShelf.{DiskShelf};
ghost use Rattle.cas_store.specs.Rack.{rack_meaning};
ghost use Rattle.cas_reopen.specs.Again.{ReopenedStoresGoOn};
ghost use Rattle.cas_reopen.specs.Standing.{ClosedStoresGoOn, SettledStandsAtFloors, SettledIsHeldBetween};

use cas_disk::Disk;
use cas_disk_shelf::DiskShelf;
use cas_slot::Shelf;

/// What members that stopped hold of what is settled stands at the floors with which the store is reopened: the history of each floor's
/// ballot begins with what is settled of its key, and the floor's state is the one that this history leaves. A register without a floor is
/// left empty by what is settled of it.
pub fn settled_stands_at_floors()
    ensures { SettledStandsAtFloors }
{}

/// Members hold what is settled still, wherever giving them the floors stops: each holds for each key what it held, or its floor.
pub fn settled_is_held_between()
    ensures { SettledIsHeldBetween }
{}

/// What was settled when a store was closed stands at the floors of what the named members' disks hold, whatever a crash left of these, if a
/// prepare quorum of an era in which a proposer worked is among the members. This joins what `Store::close` says of the disks with the
/// floors that are found on them.
pub fn closed_stores_go_on<D: Disk>()
    ensures { ClosedStoresGoOn D.may_leave }
{}

/// What was settled when a store was closed stands at the floors with which [`crate::open_rack`] opens a store again over its rack, whatever a
/// crash left of that. The members that are named are of an era in which a proposer worked, have a prepare quorum of it, and had started. This
/// joins what `Store::close` says with what `open_rack` does.
pub fn reopened_stores_go_on<D: Disk>()
    ensures { ReopenedStoresGoOn (meaning ⟦<DiskShelf<D> as Shelf>⟧ D.Disk) (rack_meaning D.Disk) }
{}
