//! The store that callers hold in turns.

use cas_board_world::SteadyWorld;
use cas_disk::Disk;
use cas_disk_shelf::DiskShelf;
use cas_record::Mark;
use cas_store::Room;
use cas_turn::Grows;
use std::marker::Model;

/// The store that the callers of a board hold in turns. Contracts see its world.
///
/// What grows are the marks of its record. A mark that bears a caller is that caller's, one that tells what an operator was answered is
/// caller 0's, and every other mark is nobody's. A caller's own part has the number of its open call, its rounds, and whether it has proposed
/// something; caller 0's also has what the operator has under way.
#[derive(Drop)]
pub struct Shared<D: Disk> {
    /// The world of the store, in which no call stops anybody.
    pub(crate) world: SteadyWorld<DiskShelf<D>, D>,
    /// Where the disks are put when the board is closed.
    pub(crate) room: Room<D>,
}

impl<D: Disk> Model for Shared<D> {
    ghost use Rattle.std.specs.Coded.{codes};
    ghost use Rattle.cas_disk_shelf.specs.contracts.memory.Memory as memory;
    ghost use Rattle.cas_board_steps.specs.Kept.{IsKept};
    ghost use Rattle.cas_model.specs.View.{View};
    ghost use Rattle.cas_disk_shelf.specs.declared.shelf.DiskShelf.{DiskShelf};

    ghost Value = { View (DiskShelf D) D };

    ghost coded = { Prim.hlevel (codes, memory.the_row.coded) };

    ghost view = { λ s. s.world };

    ghost invariant = { λ s. IsKept s.world };
}

impl<D: Disk> Grows for Shared<D> {
    type Item = Mark;

    ghost use Rattle.std.specs.Prelude.{suc};
    ghost use Rattle.cas_board_steps.specs.Owners.{owner_of, MayAdd};
    ghost use Rattle.cas_board_steps.specs.OwnParts.{own_part};

    ghost list = { λ s. s.marks };

    ghost owner = { owner_of };

    ghost part = { own_part };

    ghost seats = { λ s. suc s.last_proposer };

    ghost may_add = { MayAdd };

    fn items(&self) -> u64 {
        self.world.record().marks().len() as u64
    }
}
