//! The three steps of a change of one cell, on the disk and in memory.
ghost use Rattle.std.specs.Prelude.{◌≡◌, ◌<◌, ◌≤◌, ◌+◌, ◌^◌, ◌⊎◌, true, false, drop, OnOk, OnErr, IsErrOf, is_some, Some, None};
ghost use Rattle.cas_disk.specs.Disk.{Only, Keeps, ContinuesOnly, HasCause};
ghost use Rattle.cas_disk.specs.declared.disk.DiskFault.TheVariants.{NoMemory};
ghost use Rattle.cas_cells.specs.Format.{frame_at, half_size, next, IsPayload};
ghost use Rattle.cas_cells.specs.Torn.{Others};
ghost use Rattle.cas_cells.specs.Held.{frame_of, place_on, other, payload_held, IsNew, CellHeld, HoldsTail, Shuts, Writes, IsAsBefore, OpensSpare, LeavesPayload, MayOpen, Still};

use crate::cell::{Cell, Side};
use crate::frame::{WIDE_FRAME, half_size, next, tail_of};
use crate::settled::{write_gate, write_tail};
use cas_disk::{Disk, DiskFault};
use std::alloc::Global;

/// The number of the spare frame of a cell.
pub fn spare_frame(cell: &Cell, index: u32) -> u64
    ensures frame { result ≡ frame_of index (other cell.now.side) }
    ensures small { result < 2 ^ 34 }
{
    match cell.side {
        Side::First => 2 * u64::from(index) + 1,
        Side::Second => 2 * u64::from(index),
    }
}

/// Where the payload of a frame on this side begins in its cell.
pub fn payload_place(size: usize, side: Side) -> u64
    requires { size ≤ 4608 }
    ensures { result ≡ place_on size side }
{
    match side {
        Side::First => 4,
        Side::Second => size as u64 + 4,
    }
}

/// Closes the spare of a cell where it is open. Where it is closed nothing is written: a closed gate that is written again could
/// open over torn bytes.
pub fn shut_spare<D: Disk>(
    disk: &mut D,
    cell: &mut Cell,
    narrow: u32,
    index: u32,
) -> Result<(), DiskFault>
    requires held { D.tells → CellHeld narrow (D.seen disk.old) index cell.old }
    requires durable { D.tells → Only (D.seen disk.old) (D.may_leave disk.old) }
    ensures shut { OnOk result (Shuts cell.old cell.new) }
    ensures same { OnErr result (cell.new ≡ cell.old) }
    ensures held { D.tells → OnOk result (CellHeld narrow (D.seen disk.new) index cell.new) }
    ensures others { D.tells → OnOk result
        (Others narrow (frame_of index (other cell.old.side)) (D.seen disk.old) (D.seen disk.new)) }
    ensures tail { D.tells → OnOk result
        (drop 1 (frame_at narrow (D.seen disk.new) (frame_of index (other cell.old.side)))
        ≡ drop 1 (frame_at narrow (D.seen disk.old) (frame_of index (other cell.old.side)))) }
    ensures durable { D.tells → OnOk result (Only (D.seen disk.new) (D.may_leave disk.new)) }
    ensures any_moment { D.tells
        → ContinuesOnly D.moment D.left_since disk.old disk.new (LeavesPayload narrow
        (frame_of index (other cell.old.side)) (D.seen disk.old) index (payload_held cell.old)) }
    ensures unchanged { D.tells → IsErrOf result NoMemory
        → Keeps (D.seen disk.old) (D.seen disk.new) (D.may_leave disk.old) (D.may_leave disk.new) }
    ensures cause { HasCause result (D.fault_count disk.old) (D.fault_count disk.new) }
{
    if !cell.spare_open {
        return Ok(());
    }
    write_gate(disk, narrow, spare_frame(cell, index), 0)?;
    cell.spare_open = false;
    Ok(())
}

/// Writes a payload into the closed spare of a cell, behind its gate, and zeros behind that as far as other bytes may stand there.
pub fn write_spare<D: Disk>(
    disk: &mut D,
    alloc: Global,
    cell: &mut Cell,
    narrow: u32,
    index: u32,
    payload: &[u8],
) -> Result<(), DiskFault>
    requires fits { IsPayload (half_size narrow index) payload.now }
    requires held { D.tells → CellHeld narrow (D.seen disk.old) index cell.old }
    requires shut { D.tells → cell.old.spare_open ≡ false }
    requires durable { D.tells → Only (D.seen disk.old) (D.may_leave disk.old) }
    ensures written { OnOk result (Writes payload.now cell.old cell.new) }
    ensures same { OnErr result (cell.new ≡ cell.old) }
    ensures held { D.tells → OnOk result (CellHeld narrow (D.seen disk.new) index cell.new) }
    ensures others { D.tells → OnOk result
        (Others narrow (frame_of index (other cell.old.side)) (D.seen disk.old) (D.seen disk.new)) }
    ensures staged { D.tells
        → OnOk result (HoldsTail narrow (D.seen disk.new) index cell.new payload.now) }
    ensures durable { D.tells → OnOk result (Only (D.seen disk.new) (D.may_leave disk.new)) }
    ensures any_moment { D.tells
        → ContinuesOnly D.moment D.left_since disk.old disk.new (LeavesPayload narrow
        (frame_of index (other cell.old.side)) (D.seen disk.old) index (payload_held cell.old)) }
    ensures unchanged { D.tells → IsErrOf result NoMemory
        → Keeps (D.seen disk.old) (D.seen disk.new) (D.may_leave disk.old) (D.may_leave disk.new) }
    ensures cause { HasCause result (D.fault_count disk.old) (D.fault_count disk.new) }
{
    let used = payload.len() + 3;
    let reach = reach(half_size(narrow, index), cell.spare_used, used);
    let tail = tail_of(alloc, reach + 1, next(cell.number), payload)?;
    write_tail(disk, narrow, spare_frame(cell, index), &tail)?;
    cell.spare_used = used;
    Ok(())
}

/// How many bytes are written behind the gate of a spare of this size, where so many may be other than zero and so many are to be.
fn reach(size: usize, used: usize, needed: usize) -> usize
    requires fits { needed < size }
    ensures needed { needed ≤ result }
    ensures within { result < size }
    ensures used { (used ≤ result) ⊎ (size ≡ result + 1) }
{
    used.max(needed).min(size - 1)
}

/// Writes a payload into the closed spare of a cell again, where it was not kept there.
pub fn keep_staged<D: Disk>(
    disk: &mut D,
    alloc: Global,
    cell: &mut Cell,
    narrow: u32,
    index: u32,
    payload: &[u8],
    kept: &mut bool,
) -> Result<(), DiskFault>
    requires fits { IsPayload (half_size narrow index) payload.now }
    requires held { D.tells → CellHeld narrow (D.seen disk.old) index cell.old }
    requires shut { D.tells → cell.old.spare_open ≡ false }
    requires staged { D.tells
        → kept.old ≡ true → HoldsTail narrow (D.seen disk.old) index cell.old payload.now }
    requires durable { D.tells → Only (D.seen disk.old) (D.may_leave disk.old) }
    ensures stays { IsAsBefore cell.old cell.new }
    ensures same { OnErr result (cell.new ≡ cell.old) }
    ensures held { D.tells → OnOk result (CellHeld narrow (D.seen disk.new) index cell.new) }
    ensures others { D.tells → OnOk result
        (Others narrow (frame_of index (other cell.old.side)) (D.seen disk.old) (D.seen disk.new)) }
    ensures staged { D.tells
        → OnOk result (HoldsTail narrow (D.seen disk.new) index cell.new payload.now) }
    ensures durable { D.tells → OnOk result (Only (D.seen disk.new) (D.may_leave disk.new)) }
    ensures any_moment { D.tells
        → ContinuesOnly D.moment D.left_since disk.old disk.new (LeavesPayload narrow
        (frame_of index (other cell.old.side)) (D.seen disk.old) index (payload_held cell.old)) }
    ensures unchanged { D.tells → IsErrOf result NoMemory
        → Keeps (D.seen disk.old) (D.seen disk.new) (D.may_leave disk.old) (D.may_leave disk.new) }
    ensures kept { OnErr result (kept.new ≡ kept.old) }
    ensures cause { HasCause result (D.fault_count disk.old) (D.fault_count disk.new) }
{
    if *kept {
        return Ok(());
    }
    write_spare(disk, alloc, cell, narrow, index, payload)?;
    *kept = true;
    Ok(())
}

/// Opens the spare of a cell on the disk. Where its payload was not kept there, it is written again before.
pub fn open_spare<D: Disk>(
    disk: &mut D,
    alloc: Global,
    cell: &mut Cell,
    narrow: u32,
    index: u32,
    payload: &[u8],
    kept: &mut bool,
) -> Result<(), DiskFault>
    requires fits { IsPayload (half_size narrow index) payload.now }
    requires held { D.tells → CellHeld narrow (D.seen disk.old) index cell.old }
    requires shut { D.tells → cell.old.spare_open ≡ false }
    requires staged { D.tells
        → kept.old ≡ true → HoldsTail narrow (D.seen disk.old) index cell.old payload.now }
    requires durable { D.tells → Only (D.seen disk.old) (D.may_leave disk.old) }
    ensures stays { IsAsBefore cell.old cell.new }
    ensures opened { D.tells → OnOk result ((after : Cell)
        → OpensSpare payload.now cell.new after → CellHeld narrow (D.seen disk.new) index after) }
    ensures others { D.tells → OnOk result
        (Others narrow (frame_of index (other cell.old.side)) (D.seen disk.old) (D.seen disk.new)) }
    ensures durable { D.tells → OnOk result (Only (D.seen disk.new) (D.may_leave disk.new)) }
    ensures any_moment { D.tells
        → ContinuesOnly D.moment D.left_since disk.old disk.new (MayOpen narrow (frame_of index
        (other cell.old.side)) (D.seen disk.old) index (payload_held cell.old) payload.now) }
    ensures still { D.tells → IsErrOf result NoMemory → Still narrow
        (D.seen disk.old) (D.seen disk.new) (D.may_leave disk.new) index cell.old cell.new }
    ensures staged { D.tells → IsErrOf result NoMemory
        → kept.new ≡ true → HoldsTail narrow (D.seen disk.new) index cell.new payload.now }
    ensures cause { HasCause result (D.fault_count disk.old) (D.fault_count disk.new) }
{
    keep_staged(disk, alloc, cell, narrow, index, payload, kept)?;
    write_gate(disk, narrow, spare_frame(cell, index), 1)
}

/// Changes a cell by the three steps. After `NoMemory` it holds its old payload.
pub fn change_cell<D: Disk>(
    disk: &mut D,
    alloc: Global,
    cell: &mut Cell,
    narrow: u32,
    index: u32,
    payload: Vec<u8>,
) -> Result<(), DiskFault>
    requires fits { IsPayload (half_size narrow index) payload.items }
    requires held { D.tells → CellHeld narrow (D.seen disk.old) index cell.old }
    requires durable { D.tells → Only (D.seen disk.old) (D.may_leave disk.old) }
    ensures changed { OnOk result (payload_held cell.new ≡ Some payload.items) }
    ensures held { D.tells → OnOk result (CellHeld narrow (D.seen disk.new) index cell.new) }
    ensures others { D.tells → OnOk result
        (Others narrow (frame_of index (other cell.old.side)) (D.seen disk.old) (D.seen disk.new)) }
    ensures durable { D.tells → OnOk result (Only (D.seen disk.new) (D.may_leave disk.new)) }
    ensures any_moment { D.tells
        → ContinuesOnly D.moment D.left_since disk.old disk.new (MayOpen narrow (frame_of index
        (other cell.old.side)) (D.seen disk.old) index (payload_held cell.old) payload.items) }
    ensures same { OnErr result (payload_held cell.new ≡ payload_held cell.old) }
    ensures shut { OnErr result (cell.old.spare_open ≡ false → cell.new.spare_open ≡ false) }
    ensures still { D.tells → IsErrOf result NoMemory → Still narrow
        (D.seen disk.old) (D.seen disk.new) (D.may_leave disk.new) index cell.old cell.new }
    ensures cause { HasCause result (D.fault_count disk.old) (D.fault_count disk.new) }
{
    shut_spare(disk, cell, narrow, index)?;
    write_spare(disk, alloc, cell, narrow, index, &payload)?;
    write_gate(disk, narrow, spare_frame(cell, index), 1)?;
    turn(cell, payload);
    Ok(())
}

/// Makes the spare of a cell current, with this payload.
pub fn turn(cell: &mut Cell, payload: Vec<u8>)
    requires { IsPayload 4608 payload.items }
    ensures { OpensSpare payload.items cell.old cell.new }
{
    let spare_open = cell.payload.is_some();
    let spare_used = match &cell.payload {
        Some(payload) => payload.len() + 3,
        None => WIDE_FRAME,
    };
    let side = match cell.side {
        Side::First => Side::Second,
        Side::Second => Side::First,
    };
    *cell = Cell {
        payload: Some(payload),
        side,
        number: next(cell.number),
        spare_open,
        spare_used,
    };
}

/// A blank cell.
pub fn blank() -> Cell
    ensures new { IsNew result }
    ensures none { payload_held result ≡ None }
{
    Cell {
        payload: None,
        side: Side::Second,
        number: 2,
        spare_open: false,
        spare_used: WIDE_FRAME,
    }
}
