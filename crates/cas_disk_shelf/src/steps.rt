//! The change of one cell, and that of a head of the old form.
ghost use Rattle.std.specs.Prelude.{◌≡◌, ◌≤◌, Ok, Some, OnOk, OnErr, IsErrOf, slice_set};
ghost use Rattle.cas_slot.specs.Shelf.{HasShelfCause, IsNeitherFullNorForeign};
ghost use Rattle.cas_disk.specs.Disk.{ContinuesOnly};
ghost use Rattle.cas_cells.specs.Cells.{CellsStand, cells_of, disk_of};
ghost use Rattle.cas_cells.specs.Fault.{IsFaultOfDisk};
ghost use Rattle.cas_cells.specs.Format.{count_in, narrow_in, FitsCell, TellsSame, IsBeforeOrAfter};
ghost use Rattle.cas_cells.specs.Length.{NotLonger};
ghost use Rattle.cas_disk_shelf.specs.FaultOf.{fault_of};
ghost use Rattle.cas_disk_shelf.specs.Image.{left_on};
ghost use Rattle.cas_disk_shelf.specs.Memory.{IsMoving, IsReadFrom};

use crate::codec::{Head, is_old, spell_head};
use crate::memory::Loaded;
use cas_cells::{CellFault, Cells};
use cas_disk::Disk;
use cas_slot::ShelfFault;
use std::alloc::Global;

/// What a fault of the cells is to a shelf.
pub fn fault_of(fault: CellFault) -> ShelfFault
    ensures { result ≡ fault_of fault }
{
    match fault {
        CellFault::DiskFault => ShelfFault::DiskFault,
        CellFault::Foreign { at } => ShelfFault::Foreign { at },
        CellFault::NoMemory => ShelfFault::NoMemory,
    }
}

/// Changes a cell in its three steps. A crash within the call leaves the old payload or the new, and after `Ok` the new. After an
/// `Err` the cells show what they showed.
pub fn change<D: Disk>(cells: &mut Cells<D>, cell: u32, payload: &[u8]) -> Result<(), ShelfFault>
    requires stands { CellsStand D.tells D.seen D.may_leave cells.old }
    requires within { cell ≤ count_in (cells_of cells.old) }
    requires fits { FitsCell (cells_of cells.old) cell payload.now }
    requires same_count { (cell ≡ 0) → TellsSame payload.now (cells_of cells.old) }
    ensures changed { OnOk result
        (cells_of cells.new ≡ slice_set (cells_of cells.old) cell (Some payload.now)) }
    ensures same { OnErr result (cells_of cells.new ≡ cells_of cells.old) }
    ensures stands { OnOk result (CellsStand D.tells D.seen D.may_leave cells.new) }
    ensures after_no_memory { IsErrOf result ShelfFault.NoMemory
        → CellsStand D.tells D.seen D.may_leave cells.new }
    ensures any_moment { D.tells → ContinuesOnly D.moment D.left_since
        (disk_of cells.old) (disk_of cells.new) (IsBeforeOrAfter (cells_of cells.old)
        (slice_set (cells_of cells.old) cell (Some payload.now))) }
    ensures length { D.tells
        → NotLonger D.moment D.left_since D.may_leave (disk_of cells.old) (disk_of cells.new) 0 }
    ensures other { IsNeitherFullNorForeign result }
    ensures cause { HasShelfCause result
        (D.fault_count (disk_of cells.old)) (D.fault_count (disk_of cells.new)) }
{
    match change_in_steps(cells, cell, payload) {
        Ok(()) => Ok(()),
        Err(fault) => Err(fault_of(fault)),
    }
}

fn change_in_steps<D: Disk>(
    cells: &mut Cells<D>,
    cell: u32,
    payload: &[u8],
) -> Result<(), CellFault>
    requires stands { CellsStand D.tells D.seen D.may_leave cells.old }
    requires within { cell ≤ count_in (cells_of cells.old) }
    requires fits { FitsCell (cells_of cells.old) cell payload.now }
    requires same_count { (cell ≡ 0) → TellsSame payload.now (cells_of cells.old) }
    ensures changed { OnOk result
        (cells_of cells.new ≡ slice_set (cells_of cells.old) cell (Some payload.now)) }
    ensures same { OnErr result (cells_of cells.new ≡ cells_of cells.old) }
    ensures stands { OnOk result (CellsStand D.tells D.seen D.may_leave cells.new) }
    ensures after_no_memory { IsErrOf result CellFault.NoMemory
        → CellsStand D.tells D.seen D.may_leave cells.new }
    ensures any_moment { D.tells → ContinuesOnly D.moment D.left_since
        (disk_of cells.old) (disk_of cells.new) (IsBeforeOrAfter (cells_of cells.old)
        (slice_set (cells_of cells.old) cell (Some payload.now))) }
    ensures length { D.tells
        → NotLonger D.moment D.left_since D.may_leave (disk_of cells.old) (disk_of cells.new) 0 }
    ensures cause { IsFaultOfDisk result
        (D.fault_count (disk_of cells.old)) (D.fault_count (disk_of cells.new)) }
{
    cells.close_spare(cell)?;
    cells.write_spare(cell, payload)?;
    cells.open_spare(cell)
}

/// Makes a head of the old form one of the new. A crash within the call leaves what the cells hold; after an `Err` they show what they
/// showed.
pub fn renew<D: Disk>(
    alloc: Global,
    cells: &mut Cells<D>,
    loaded: &Loaded,
) -> Result<(), ShelfFault>
    requires stands { CellsStand D.tells D.seen D.may_leave cells.old }
    requires read { IsReadFrom (cells_of cells.old) loaded.now }
    ensures stands { OnOk result (CellsStand D.tells D.seen D.may_leave cells.new) }
    ensures moving { OnOk result (IsMoving (cells_of cells.new) loaded.now) }
    ensures narrow { narrow_in (cells_of cells.new) ≡ narrow_in (cells_of cells.old) }
    ensures any_moment { D.tells → ContinuesOnly D.moment D.left_since
        (disk_of cells.old) (disk_of cells.new) (λ c. left_on c ≡ Ok loaded.now.memory.held) }
    ensures length { D.tells
        → NotLonger D.moment D.left_since D.may_leave (disk_of cells.old) (disk_of cells.new) 0 }
    ensures other { IsNeitherFullNorForeign result }
    ensures cause { HasShelfCause result
        (D.fault_count (disk_of cells.old)) (D.fault_count (disk_of cells.new)) }
{
    let old = match cells.payload(0) {
        Some(payload) => is_old(payload),
        None => unreachable!(),
    };
    if !old {
        return Ok(());
    }
    let head = Head {
        narrow: cells.narrow_count(),
        count: cells.wide_count(),
        ages: loaded.memory.held.ages(),
    };
    let payload = spell_head(alloc, &head)?;
    change(cells, 0, &payload)?;
    Ok(())
}
