//! The move of slots from narrow cells to wide ones, each by a change of one cell: first a wide cell gets the payload, and then the
//! narrow cell becomes free. So a key stands in a cell at every moment.
ghost use Rattle.std.specs.Prelude.{◌≡◌, ◌+◌, ◌-◌, ◌*◌, ◌<◌, ◌≤◌, ℕ, None, Ok, Some, true, OnOk, IfOk};
ghost use Rattle.indexmap.specs.IndexMap.{index_map_len};
ghost use Rattle.cas_slot.specs.declared.slot.Slot.{Slot};
ghost use Rattle.cas_slot.specs.Shelf.{HasShelfCause, IsNeitherFullNorForeign};
ghost use Rattle.cas_slot.specs.Slots.{slot_count};
ghost use Rattle.cas_disk.specs.Disk.{ContinuesOnly};
ghost use Rattle.cas_cells.specs.Cells.{CellsStand, cells_of, disk_of};
ghost use Rattle.cas_cells.specs.Format.{narrow_in, wide_in};
ghost use Rattle.cas_cells.specs.Length.{NotLonger};
ghost use Rattle.cas_disk_shelf.specs.Cell.{entry_in};
ghost use Rattle.cas_disk_shelf.specs.Image.{cell_in, left_on};
ghost use Rattle.cas_disk_shelf.specs.Memory.{alone_in, is_free, AreCleared, IsMoving};

use crate::codec::{FREE, Found, read_cell};
use crate::memory::Loaded;
use crate::steps::{change, fault_of};
use cas_cells::Cells;
use cas_change::Key;
use cas_disk::Disk;
use cas_slot::ShelfFault;
use std::alloc::Global;

/// Moves the slot of each narrow cell to a wide one, in rising order. A crash within the call leaves the slots and ages that were there
/// before; after `Ok` no narrow cell holds a slot.
pub fn move_slots<D: Disk>(
    alloc: Global,
    cells: &mut Cells<D>,
    loaded: &mut Loaded,
) -> Result<(), ShelfFault>
    requires stands { CellsStand D.tells D.seen D.may_leave cells.old }
    requires moving { IsMoving (cells_of cells.old) loaded.old }
    ensures stands { OnOk result (CellsStand D.tells D.seen D.may_leave cells.new) }
    ensures moving { OnOk result (IsMoving (cells_of cells.new) loaded.new) }
    ensures cleared { OnOk result
        (AreCleared (cells_of cells.new) (narrow_in (cells_of cells.new))) }
    ensures narrow { narrow_in (cells_of cells.new) ≡ narrow_in (cells_of cells.old) }
    ensures held { loaded.new.memory.held ≡ loaded.old.memory.held }
    ensures any_moment { D.tells → ContinuesOnly D.moment D.left_since
        (disk_of cells.old) (disk_of cells.new) (λ c. left_on c ≡ Ok loaded.old.memory.held) }
    ensures length { D.tells → NotLonger D.moment D.left_since D.may_leave (disk_of cells.old)
        (disk_of cells.new) (1024 * (1 + narrow_in (cells_of cells.old)) + 9216 *
        (slot_count loaded.old.memory.held.slots + 1)) }
    ensures other { IsNeitherFullNorForeign result }
    ensures cause { HasShelfCause result
        (D.fault_count (disk_of cells.old)) (D.fault_count (disk_of cells.new)) }
{
    for i in 0..cells.narrow_count() {
        move_slot(alloc, cells, loaded, i + 1)?;
    }
    Ok(())
}

/// Moves the slot of a narrow cell, if it holds one, where those before it are cleared.
fn move_slot<D: Disk>(
    alloc: Global,
    cells: &mut Cells<D>,
    loaded: &mut Loaded,
    narrow: u32,
) -> Result<(), ShelfFault>
    requires stands { CellsStand D.tells D.seen D.may_leave cells.old }
    requires moving { IsMoving (cells_of cells.old) loaded.old }
    requires behind { 0 < narrow }
    requires within { narrow ≤ narrow_in (cells_of cells.old) }
    requires cleared { AreCleared (cells_of cells.old) (narrow - 1) }
    ensures stands { OnOk result (CellsStand D.tells D.seen D.may_leave cells.new) }
    ensures moving { OnOk result (IsMoving (cells_of cells.new) loaded.new) }
    ensures cleared { OnOk result (AreCleared (cells_of cells.new) narrow) }
    ensures narrow { narrow_in (cells_of cells.new) ≡ narrow_in (cells_of cells.old) }
    ensures held { loaded.new.memory.held ≡ loaded.old.memory.held }
    ensures any_moment { D.tells → ContinuesOnly D.moment D.left_since
        (disk_of cells.old) (disk_of cells.new) (λ c. left_on c ≡ Ok loaded.old.memory.held) }
    ensures length { D.tells → NotLonger D.moment D.left_since D.may_leave (disk_of cells.old)
        (disk_of cells.new) (1024 * (1 + narrow_in (cells_of cells.old)) + 9216 *
        (slot_count loaded.old.memory.held.slots + 1)) }
    ensures other { IsNeitherFullNorForeign result }
    ensures cause { HasShelfCause result
        (D.fault_count (disk_of cells.old)) (D.fault_count (disk_of cells.new)) }
{
    let Some(payload) = cells.payload(narrow) else {
        return Ok(());
    };
    match read_cell(alloc, payload)? {
        Found::Free => Ok(()),
        Found::Kept { key, slot: _slot } => {
            let copy = payload.to_vec(alloc)?;
            copy_slot(cells, loaded, narrow, key, &copy)?;
            change(cells, narrow, &FREE)?;
            Ok(())
        }
        Found::Wrong { at: _at } => unreachable!(),
    }
}

/// Puts the payload of a narrow cell in a wide cell too, where its key stands in none.
fn copy_slot<D: Disk>(
    cells: &mut Cells<D>,
    loaded: &mut Loaded,
    narrow: u32,
    key: Key,
    payload: &[u8],
) -> Result<(), ShelfFault>
    requires stands { CellsStand D.tells D.seen D.may_leave cells.old }
    requires moving { IsMoving (cells_of cells.old) loaded.old }
    requires behind { 0 < narrow }
    requires within { narrow ≤ narrow_in (cells_of cells.old) }
    requires own { cell_in (cells_of cells.old) narrow ≡ Some payload.now }
    requires holds { (slot : Slot) × (entry_in payload.now ≡ Ok (Some (key, slot))) }
    ensures stands { OnOk result (CellsStand D.tells D.seen D.may_leave cells.new) }
    ensures moving { OnOk result (IsMoving (cells_of cells.new) loaded.new) }
    ensures wide { OnOk result (alone_in loaded.new key ≡ None) }
    ensures narrow { narrow_in (cells_of cells.new) ≡ narrow_in (cells_of cells.old) }
    ensures others { OnOk result ((i : ℕ) → 0 < i → i ≤ narrow_in (cells_of cells.old)
        → cell_in (cells_of cells.new) i ≡ cell_in (cells_of cells.old) i) }
    ensures held { loaded.new.memory.held ≡ loaded.old.memory.held }
    ensures any_moment { D.tells → ContinuesOnly D.moment D.left_since
        (disk_of cells.old) (disk_of cells.new) (λ c. left_on c ≡ Ok loaded.old.memory.held) }
    ensures length { D.tells → NotLonger D.moment D.left_since D.may_leave (disk_of cells.old)
        (disk_of cells.new) (1024 * (1 + narrow_in (cells_of cells.old)) + 9216 *
        (slot_count loaded.old.memory.held.slots + 1)) }
    ensures other { IsNeitherFullNorForeign result }
    ensures cause { HasShelfCause result
        (D.fault_count (disk_of cells.old)) (D.fault_count (disk_of cells.new)) }
{
    let Some(_from) = loaded.alone_in(&key) else {
        return Ok(());
    };
    let cell = unused_cell(cells, loaded)?;
    change(cells, cell, payload)?;
    loaded.memory.free.remove(&cell);
    loaded.settle(key, cell)?;
    Ok(())
}

/// The wide cell of the least number that holds no slot; where there is none, one that the disk is grown by.
fn unused_cell<D: Disk>(cells: &mut Cells<D>, loaded: &mut Loaded) -> Result<u32, ShelfFault>
    requires stands { CellsStand D.tells D.seen D.may_leave cells.old }
    requires moving { IsMoving (cells_of cells.old) loaded.old }
    requires some { 0 < index_map_len loaded.old.alone }
    ensures stands { OnOk result (CellsStand D.tells D.seen D.may_leave cells.new) }
    ensures moving { OnOk result (IsMoving (cells_of cells.new) loaded.new) }
    ensures free { IfOk result (λ cell. is_free loaded.new.memory cell ≡ true) }
    ensures index { loaded.new.memory.index ≡ loaded.old.memory.index }
    ensures alone { loaded.new.alone ≡ loaded.old.alone }
    ensures narrow { narrow_in (cells_of cells.new) ≡ narrow_in (cells_of cells.old) }
    ensures others { OnOk result ((i : ℕ) → 0 < i → i ≤ narrow_in (cells_of cells.old)
        → cell_in (cells_of cells.new) i ≡ cell_in (cells_of cells.old) i) }
    ensures held { loaded.new.memory.held ≡ loaded.old.memory.held }
    ensures any_moment { D.tells → ContinuesOnly D.moment D.left_since
        (disk_of cells.old) (disk_of cells.new) (λ c. left_on c ≡ Ok loaded.old.memory.held) }
    ensures length { D.tells → NotLonger D.moment D.left_since D.may_leave (disk_of cells.old)
        (disk_of cells.new) (1024 * (1 + narrow_in (cells_of cells.old)) + 9216 *
        (slot_count loaded.old.memory.held.slots + 1)) }
    ensures other { IsNeitherFullNorForeign result }
    ensures cause { HasShelfCause result
        (D.fault_count (disk_of cells.old)) (D.fault_count (disk_of cells.new)) }
{
    match loaded.memory.free.first() {
        Some(cell) => Ok(*cell),
        None => grow(cells, loaded),
    }
}

/// Grows the disk by a cell, and answers its number.
fn grow<D: Disk>(cells: &mut Cells<D>, loaded: &mut Loaded) -> Result<u32, ShelfFault>
    requires stands { CellsStand D.tells D.seen D.may_leave cells.old }
    requires moving { IsMoving (cells_of cells.old) loaded.old }
    requires room { wide_in (cells_of cells.old) < slot_count loaded.old.memory.held.slots }
    ensures stands { OnOk result (CellsStand D.tells D.seen D.may_leave cells.new) }
    ensures moving { OnOk result (IsMoving (cells_of cells.new) loaded.new) }
    ensures free { IfOk result (λ cell. is_free loaded.new.memory cell ≡ true) }
    ensures index { loaded.new.memory.index ≡ loaded.old.memory.index }
    ensures alone { loaded.new.alone ≡ loaded.old.alone }
    ensures narrow { narrow_in (cells_of cells.new) ≡ narrow_in (cells_of cells.old) }
    ensures others { OnOk result ((i : ℕ) → 0 < i → i ≤ narrow_in (cells_of cells.old)
        → cell_in (cells_of cells.new) i ≡ cell_in (cells_of cells.old) i) }
    ensures held { loaded.new.memory.held ≡ loaded.old.memory.held }
    ensures any_moment { D.tells → ContinuesOnly D.moment D.left_since
        (disk_of cells.old) (disk_of cells.new) (λ c. left_on c ≡ Ok loaded.old.memory.held) }
    ensures length { D.tells → NotLonger D.moment D.left_since D.may_leave (disk_of cells.old)
        (disk_of cells.new) (1024 * (1 + narrow_in (cells_of cells.old)) + 9216 *
        (slot_count loaded.old.memory.held.slots + 1)) }
    ensures other { IsNeitherFullNorForeign result }
    ensures cause { HasShelfCause result
        (D.fault_count (disk_of cells.old)) (D.fault_count (disk_of cells.new)) }
{
    let cell = cells.count() + 1;
    loaded.memory.free.insert(cell)?;
    if let Err(fault) = cells.grow() {
        return Err(fault_of(fault));
    }
    Ok(cell)
}
