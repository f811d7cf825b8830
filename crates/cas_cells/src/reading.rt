//! Reads cells from a disk, and finds the first byte that is not as the format demands. Nothing here writes.
ghost use Rattle.std.specs.Prelude.{◌≡◌, ◌<◌, ◌≤◌, ◌+◌, ◌*◌, ◌==◌, true, false, ℕ, List, Some, None, length, map, take, IfOk, IfSome, OnOk, IsErrOf, MatchOption};
ghost use Rattle.cas_disk.specs.Disk.{Only, Keeps, ContinuesOnly};
ghost use Rattle.cas_cells.specs.Fault.{HasCellCause};
ghost use Rattle.cas_cells.specs.Format.{wrong_in_cell, wrong_at, wrong_from, foreign_at, narrow_told, narrow_in, wide_told, head_in, is_open, number_of, next, payload_in, cell_place, half_size, IsPayload};
ghost use Rattle.cas_cells.specs.Reading.{OnlyRead};
ghost use Rattle.cas_cells.specs.Held.{IsFrame, HeldIn, HoldsWithin, CellHeld, OnDisk, IsRow, payload_held};

use crate::CellFault;
use crate::cell::{Cell, Side};
use crate::frame::{
    follows, frame_place, half_size, is_open, length_told, narrow_told, number_of, wide_told,
    wrong_in_cell,
};
use crate::steps::blank;
use cas_disk::Disk;
use std::alloc::{AllocError, Global};

/// The cell whose current frame this is.
fn current(
    alloc: Global,
    size: usize,
    side: Side,
    frame: &[u8],
    spare_open: bool,
) -> Result<Cell, AllocError>
    requires small { size ≤ 4608 }
    requires frame { IsFrame size (number_of frame.now) (payload_in frame.now) frame.now }
    ensures payload { IfOk result (λ cell. payload_held cell ≡ Some (payload_in frame.now)) }
    ensures side { IfOk result (λ cell. cell.side ≡ side) }
    ensures number { IfOk result (λ cell. cell.number ≡ number_of frame.now) }
    ensures spare { IfOk result (λ cell. cell.spare_open ≡ spare_open) }
    ensures used { IfOk result (λ cell. cell.spare_used ≡ size) }
{
    let payload = frame[4..4 + length_told(frame)].to_vec(alloc)?;
    Ok(Cell {
        payload: Some(payload),
        side,
        number: number_of(frame),
        spare_open,
        spare_used: size,
    })
}

/// The side of the current frame: the only open one, or of two the one whose number follows the other's.
fn current_side(first: &[u8], second: &[u8]) -> Option<Side>
    ensures none { result ≡ None → (is_open first.now ≡ false) × (is_open second.now ≡ false) }
    ensures first { result ≡ Some Side.First → (is_open first.now ≡ true) × ((is_open second.now
        ≡ true) → (number_of second.now == next (number_of first.now)) ≡ false) }
    ensures second { result ≡ Some Side.Second → (is_open second.now ≡ true) × ((is_open first.now
        ≡ true) → (number_of second.now == next (number_of first.now)) ≡ true) }
{
    if !is_open(second) {
        return if is_open(first) {
            Some(Side::First)
        } else {
            None
        };
    }
    if is_open(first) && !follows(number_of(second), number_of(first)) {
        return Some(Side::First);
    }
    Some(Side::Second)
}

/// The cell of two frames of this size in which nothing is wrong.
fn cell_of(alloc: Global, size: usize, first: &[u8], second: &[u8]) -> Result<Cell, AllocError>
    requires least { 512 ≤ size }
    requires most { size ≤ 4608 }
    requires sound { wrong_in_cell size first.now second.now ≡ 2 * size }
    requires first_size { length first.now ≤ size }
    requires second_size { length second.now ≤ size }
    ensures { IfOk result (HeldIn size first.now second.now) }
{
    match current_side(first, second) {
        Some(Side::First) => current(alloc, size, Side::First, first, is_open(second)),
        Some(Side::Second) => current(alloc, size, Side::Second, second, is_open(first)),
        None => Ok(blank()),
    }
}

/// Reads a cell. `Foreign` tells the first byte in it that is wrong or missing.
fn read_cell<D: Disk>(
    disk: &mut D,
    alloc: Global,
    narrow: u32,
    index: u32,
) -> Result<Cell, CellFault>
    requires small { index ≤ 8192 }
    ensures within { IfOk result (HoldsWithin (half_size narrow index)) }
    ensures held { D.tells → IfOk result (CellHeld narrow (D.seen disk.old) index) }
    ensures foreign { D.tells → (at : ℕ) → IsErrOf result (CellFault.Foreign at)
        → (wrong_at narrow (D.seen disk.old) index < 2 * half_size narrow index)
        × (at ≡ cell_place narrow index + wrong_at narrow (D.seen disk.old) index) }
    ensures kept { D.tells
        → Keeps (D.seen disk.old) (D.seen disk.new) (D.may_leave disk.old) (D.may_leave disk.new) }
    ensures any_moment { D.tells → Only (D.seen disk.old) (D.may_leave disk.old)
        → ContinuesOnly D.moment D.left_since disk.old disk.new (λ c. c ≡ D.seen disk.old) }
    ensures cause { HasCellCause result (D.fault_count disk.old) (D.fault_count disk.new) }
{
    if index > narrow {
        read_frames(disk, alloc, narrow, index, &mut [0; 9_216])
    } else {
        read_frames(disk, alloc, narrow, index, &mut [0; 1_024])
    }
}

/// Reads a cell into bytes that have its size.
fn read_frames<D: Disk>(
    disk: &mut D,
    alloc: Global,
    narrow: u32,
    index: u32,
    bytes: &mut [u8],
) -> Result<Cell, CellFault>
    requires small { index ≤ 8192 }
    requires size { length bytes.old ≡ 2 * half_size narrow index }
    ensures within { IfOk result (HoldsWithin (half_size narrow index)) }
    ensures held { D.tells → IfOk result (CellHeld narrow (D.seen disk.old) index) }
    ensures foreign { D.tells → (at : ℕ) → IsErrOf result (CellFault.Foreign at)
        → (wrong_at narrow (D.seen disk.old) index < 2 * half_size narrow index)
        × (at ≡ cell_place narrow index + wrong_at narrow (D.seen disk.old) index) }
    ensures kept { D.tells
        → Keeps (D.seen disk.old) (D.seen disk.new) (D.may_leave disk.old) (D.may_leave disk.new) }
    ensures any_moment { D.tells → Only (D.seen disk.old) (D.may_leave disk.old)
        → ContinuesOnly D.moment D.left_since disk.old disk.new (λ c. c ≡ D.seen disk.old) }
    ensures cause { HasCellCause result (D.fault_count disk.old) (D.fault_count disk.new) }
{
    let place = frame_place(narrow, 2 * u64::from(index));
    let size = half_size(narrow, index);
    let count = disk.read(place, bytes)?;
    let (first, second) = bytes[..count].split_at(count.min(size));
    let wrong = wrong_in_cell(size, first, second);
    if wrong < 2 * size {
        let at = place + wrong as u64;
        return Err(CellFault::Foreign { at });
    }
    Ok(cell_of(alloc, size, first, second)?)
}

/// How many narrow and how many wide cells a cell 0 tells, or `None` where it is blank.
fn head_counts(cell: &Cell) -> Option<(u32, u32)>
    ensures counts { MatchOption result (payload_held cell.now ≡ None) (λ counts. (head : List ℕ)
        × (payload_held cell.now ≡ Some head)
        × (counts.0 ≡ narrow_told head) × (counts.1 ≡ wide_told head)) }
    ensures small { IfSome result (λ counts. (counts.0 ≤ 4096) × (counts.1 ≤ 4096)) }
{
    let payload = cell.payload.as_ref()?;
    Some((narrow_told(payload), wide_told(payload)))
}

/// Reads the cells after cell 0 and puts them behind it. `Foreign` tells the first byte in them that is wrong or missing.
fn read_rest<D: Disk>(
    disk: &mut D,
    alloc: Global,
    cells: &mut Vec<Cell>,
    narrow: u32,
    count: u32,
) -> Result<(), CellFault>
    requires small { count ≤ 8192 }
    requires one { length cells.old.items ≡ 1 }
    requires held { D.tells → OnDisk narrow (D.seen disk.old) cells.old.items }
    requires durable { D.tells → Only (D.seen disk.old) (D.may_leave disk.old) }
    ensures length { OnOk result (length cells.new.items ≡ 1 + count) }
    ensures first { take 1 cells.new.items ≡ cells.old.items }
    ensures held { D.tells → OnOk result (OnDisk narrow (D.seen disk.old) cells.new.items) }
    ensures foreign { D.tells → (at : ℕ) → IsErrOf result (CellFault.Foreign at)
        → wrong_from narrow count 1 (D.seen disk.old) ≡ Some at }
    ensures read { D.tells → OnlyRead D.moment D.left_since D.seen D.may_leave disk.old disk.new }
    ensures cause { HasCellCause result (D.fault_count disk.old) (D.fault_count disk.new) }
{
    for index in 0..count {
        let cell = read_cell(disk, alloc, narrow, index + 1)?;
        cells.push(cell)?;
    }
    Ok(())
}

/// Reads cell 0 and as many cells as it tells, and how many of them are narrow. `Foreign` tells the first byte that is not as the format
/// demands.
pub fn read_row<D: Disk>(disk: &mut D, alloc: Global) -> Result<(u32, Vec<Cell>), CellFault>
    requires { D.tells → Only (D.seen disk.old) (D.may_leave disk.old) }
    ensures row { IfOk result (λ read. IsRow (map payload_held read.1.items)) }
    ensures narrow { IfOk result (λ read. read.0 ≡ narrow_in (map payload_held read.1.items)) }
    ensures head { IfOk result (λ read. IsPayload 512 (head_in (map payload_held read.1.items))) }
    ensures held { D.tells → IfOk result (λ read. OnDisk read.0 (D.seen disk.old) read.1.items) }
    ensures foreign { D.tells → (at : ℕ)
        → IsErrOf result (CellFault.Foreign at) → foreign_at (D.seen disk.old) ≡ Some at }
    ensures read { D.tells → OnlyRead D.moment D.left_since D.seen D.may_leave disk.old disk.new }
    ensures cause { HasCellCause result (D.fault_count disk.old) (D.fault_count disk.new) }
{
    let first = read_cell(disk, alloc, 0, 0)?;
    let Some((narrow, wide)) = head_counts(&first) else {
        return Err(CellFault::Foreign { at: 0 });
    };
    let mut cells = Vec::new(alloc);
    cells.push(first)?;
    read_rest(disk, alloc, &mut cells, narrow, narrow + wide)?;
    Ok((narrow, cells))
}
