//! A row of cells on a disk.
ghost use Rattle.std.specs.Prelude.{◌≡◌, ◌≢◌, ◌<◌, ◌≤◌, ◌+◌, ◌*◌, ◌∷◌, ◌++◌, [], ℕ, List, IsTrue, IfSome, IfOk, vec_len, vec_capacity, map, length, slice_get, slice_set, Some, None, OnOk, OnErr, IsErrOf};
ghost use Rattle.std.specs.Option.{option_copied};
ghost use Rattle.cas_disk.specs.Disk.{ContinuesOnly, Only, Keeps, Elapses};
ghost use Rattle.cas_cells.specs.Fault.{HasCellCause, IsFaultOfDisk};
ghost use Rattle.cas_cells.specs.Format.{narrow_in, narrow_told, wide_in, wide_told, count_in, count_told, is_head, head_in, with_count, grown, foreign_at, cell_place, payload_place, IsPayload, FitsCell, TellsSame, IsImageOf, IsBeforeOrAfter};
ghost use Rattle.cas_cells.specs.Length.{NotLonger};
ghost use Rattle.cas_cells.specs.Reading.{OnlyRead};
ghost use Rattle.cas_cells.specs.Held.{payload_held, IsNew};
ghost use Rattle.cas_cells.specs.declared.cell.Cell.{Cell};

use crate::cell::Cell;
use crate::change::{Change, Staged, Step, take_staged, write_over};
use crate::reading::read_row;
use crate::settled::write_blank;
use crate::steps::{self, blank};
use crate::{CellFault, frame};
use cas_disk::Disk;
use std::alloc::{AllocError, Global};

/// A row of cells on a disk, each of which is blank or holds a payload, and the change of a cell that is under way.
///
/// Cell 0 is narrow: its payload has 1 to 508 bytes. Behind it stand the narrow cells and then the wide ones that a head in cell 0
/// tells; a payload of a wide cell has 1 to 4,604 bytes. A head of the old form, which begins with 2, tells narrow cells alone.
///
/// A cell is changed in three steps, `close_spare`, `write_spare` and `open_spare`. Until the third a crash leaves the old
/// payload, within it the old or the new, and after its `Ok` the new. The cells are formatted or recovered before they are used,
/// and again after `DiskFault`.
///
/// Only `format` and `grow` may make the disk longer, and no longer than to the end of the last cell: of cell 0, and of the cell that
/// `grow` appends. That holds where the call fails too, and of what a crash at any moment leaves.
#[derive(Drop)]
pub struct Cells<D: Disk> {
    disk: D,
    alloc: Global,
    narrow: u32,
    cells: Vec<Cell>,
    change: Option<Change>,
}

impl<D: Disk> Cells<D> {
    ghost use Rattle.cas_cells.specs.Cells.{disk_of, cells_of, change_of, staged_of, CellsStand};

    /// Cells on this disk, none of them known. It touches nothing.
    pub fn over(alloc: Global, disk: D) -> Cells<D>
        ensures disk { disk_of result ≡ disk }
        ensures cells { cells_of result ≡ [] }
        ensures change { change_of result ≡ None }
    {
        Cells {
            disk,
            alloc,
            narrow: 0,
            cells: Vec::new(alloc),
            change: None,
        }
    }

    /// The payload of a cell. A blank cell, and one that is not there, has none.
    pub fn payload(&self, cell: u32) -> Option<&[u8]>
        ensures blank { (slice_get (cells_of self.now) cell ≡ Some None)
            → option_copied result ≡ None }
        ensures held { (payload : List ℕ) → slice_get (cells_of self.now) cell ≡ Some (Some payload)
            → option_copied result ≡ Some payload }
        ensures absent { length (cells_of self.now) ≤ cell → option_copied result ≡ None }
    {
        let cell = self.cells.get(cell as usize)?;
        let payload = cell.payload.as_ref()?;
        Some(payload.as_slice())
    }

    /// Where the payload of a cell begins on the disk. A blank cell has none.
    pub fn payload_place(&self, cell: u32) -> Option<u64>
        requires stands { CellsStand D.tells D.seen D.may_leave self.now }
        requires within { cell ≤ count_in (cells_of self.now) }
        ensures place { D.tells → result
            ≡ payload_place (narrow_in (cells_of self.now)) (D.seen (disk_of self.now)) cell }
        ensures small { IfSome result (λ place. place ≤ 9216 * (cell + 1)) }
    {
        let held = &self.cells[cell as usize];
        if held.payload.is_none() {
            return None;
        }
        let start = frame::frame_place(self.narrow, 2 * u64::from(cell));
        let size = frame::half_size(self.narrow, cell);
        Some(start + steps::payload_place(size, held.side))
    }

    /// Where a cell begins on the disk.
    pub fn place(&self, cell: u32) -> u64
        requires stands { CellsStand D.tells D.seen D.may_leave self.now }
        requires within { cell ≤ count_in (cells_of self.now) }
        ensures place { result ≡ cell_place (narrow_in (cells_of self.now)) cell }
        ensures small { result ≤ 9216 * cell }
    {
        frame::frame_place(self.narrow, 2 * u64::from(cell))
    }

    /// How many cells stand after cell 0: as many as a head in cell 0 tells, and none under any other payload.
    pub fn count(&self) -> u32
        ensures { result ≡ count_in (cells_of self.now) }
    {
        self.narrow_count() + self.wide_count()
    }

    /// How many of the cells after cell 0 are narrow. They stand before the wide ones.
    pub fn narrow_count(&self) -> u32
        ensures count { result ≡ narrow_in (cells_of self.now) }
        ensures small { result ≤ 4096 }
    {
        match self.head() {
            Some(head) => frame::narrow_told(head),
            None => 0,
        }
    }

    /// How many of the cells after cell 0 are wide.
    pub fn wide_count(&self) -> u32
        ensures count { result ≡ wide_in (cells_of self.now) }
        ensures small { result ≤ 4096 }
    {
        match self.head() {
            Some(head) => frame::wide_told(head),
            None => 0,
        }
    }

    /// Begins a change of a cell anew: closes the spare of the cell. Where it is closed already nothing is written. After
    /// `NoMemory` all that is seen is as before.
    pub fn close_spare(&mut self, cell: u32) -> Result<(), CellFault>
        requires stands { CellsStand D.tells D.seen D.may_leave self.old }
        requires within { cell ≤ count_in (cells_of self.old) }
        ensures closed { OnOk result (change_of self.new ≡ Some (cell, None)) }
        ensures same { OnErr result (change_of self.new ≡ change_of self.old) }
        ensures cells { cells_of self.new ≡ cells_of self.old }
        ensures stands { OnOk result (CellsStand D.tells D.seen D.may_leave self.new) }
        ensures after_no_memory { IsErrOf result CellFault.NoMemory
            → CellsStand D.tells D.seen D.may_leave self.new }
        ensures any_moment { D.tells → ContinuesOnly D.moment D.left_since
            (disk_of self.old) (disk_of self.new) (IsImageOf (cells_of self.old)) }
        ensures length { D.tells
            → NotLonger D.moment D.left_since D.may_leave (disk_of self.old) (disk_of self.new) 0 }
        ensures cause { IsFaultOfDisk result
            (D.fault_count (disk_of self.old)) (D.fault_count (disk_of self.new)) }
    {
        let held = &mut self.cells[cell as usize];
        steps::shut_spare(&mut self.disk, held, self.narrow, cell)?;
        self.change = Some(Change {
            cell,
            step: Step::Closed,
        });
        Ok(())
    }

    /// Writes a payload into the closed spare of the cell under change: of 1 to 508 bytes where the cell is narrow, and of 1 to 4,604
    /// where it is wide. One for cell 0 tells the same numbers of cells. After `NoMemory` all that is seen is as before.
    pub fn write_spare(&mut self, cell: u32, payload: &[u8]) -> Result<(), CellFault>
        requires stands { CellsStand D.tells D.seen D.may_leave self.old }
        requires within { cell ≤ count_in (cells_of self.old) }
        requires closed { change_of self.old ≡ Some (cell, None) }
        requires fits { FitsCell (cells_of self.old) cell payload.now }
        requires same_count { (cell ≡ 0) → TellsSame payload.now (cells_of self.old) }
        ensures written { OnOk result (change_of self.new ≡ Some (cell, Some payload.now)) }
        ensures same { OnErr result (change_of self.new ≡ change_of self.old) }
        ensures cells { cells_of self.new ≡ cells_of self.old }
        ensures stands { OnOk result (CellsStand D.tells D.seen D.may_leave self.new) }
        ensures after_no_memory { IsErrOf result CellFault.NoMemory
            → CellsStand D.tells D.seen D.may_leave self.new }
        ensures any_moment { D.tells → ContinuesOnly D.moment D.left_since
            (disk_of self.old) (disk_of self.new) (IsImageOf (cells_of self.old)) }
        ensures length { D.tells
            → NotLonger D.moment D.left_since D.may_leave (disk_of self.old) (disk_of self.new) 0 }
        ensures cause { IsFaultOfDisk result
            (D.fault_count (disk_of self.old)) (D.fault_count (disk_of self.new)) }
    {
        let staged = payload.to_vec(self.alloc)?;
        let held = &mut self.cells[cell as usize];
        steps::write_spare(&mut self.disk, self.alloc, held, self.narrow, cell, payload)?;
        let step = Step::Written(Staged {
            payload: staged,
            kept: true,
        });
        self.change = Some(Change { cell, step });
        Ok(())
    }

    /// Opens the written spare of the cell under change, which then holds the payload that was written. After `NoMemory` all that is
    /// seen is as before.
    pub fn open_spare(&mut self, cell: u32) -> Result<(), CellFault>
        requires stands { CellsStand D.tells D.seen D.may_leave self.old }
        requires within { cell ≤ count_in (cells_of self.old) }
        requires written { change_of self.old ≡ Some (cell, Some (staged_of self.old)) }
        ensures changed { OnOk result
            (cells_of self.new ≡ slice_set (cells_of self.old) cell (Some (staged_of self.old))) }
        ensures done { OnOk result (change_of self.new ≡ None) }
        ensures same { OnErr result (change_of self.new ≡ change_of self.old) }
        ensures cells { OnErr result (cells_of self.new ≡ cells_of self.old) }
        ensures stands { OnOk result (CellsStand D.tells D.seen D.may_leave self.new) }
        ensures after_no_memory { IsErrOf result CellFault.NoMemory
            → CellsStand D.tells D.seen D.may_leave self.new }
        ensures any_moment { D.tells → ContinuesOnly D.moment D.left_since
            (disk_of self.old) (disk_of self.new) (IsBeforeOrAfter (cells_of self.old)
            (slice_set (cells_of self.old) cell (Some (staged_of self.old)))) }
        ensures length { D.tells
            → NotLonger D.moment D.left_since D.may_leave (disk_of self.old) (disk_of self.new) 0 }
        ensures cause { IsFaultOfDisk result
            (D.fault_count (disk_of self.old)) (D.fault_count (disk_of self.new)) }
    {
        let mut staged = take_staged(&mut self.change, cell);
        let held = &mut self.cells[cell as usize];
        let answer = steps::open_spare(
            &mut self.disk,
            self.alloc,
            held,
            self.narrow,
            cell,
            &staged.payload,
            &mut staged.kept,
        );
        if let Err(fault) = answer {
            let step = Step::Written(staged);
            self.change = Some(Change { cell, step });
            return Err(CellFault::from(fault));
        }
        steps::turn(held, staged.payload);
        Ok(())
    }

    /// Appends a blank wide cell and raises the number of wide cells that the head in cell 0 tells by one. No change is then under way.
    /// After `NoMemory` all that is seen is as before.
    pub fn grow(&mut self) -> Result<(), CellFault>
        requires stands { CellsStand D.tells D.seen D.may_leave self.old }
        requires head { IsTrue (is_head (head_in (cells_of self.old))) }
        requires room { wide_in (cells_of self.old) < 4096 }
        ensures grown { OnOk result (cells_of self.new ≡ grown (cells_of self.old)) }
        ensures done { OnOk result (change_of self.new ≡ None) }
        ensures same { OnErr result (change_of self.new ≡ change_of self.old) }
        ensures cells { OnErr result (cells_of self.new ≡ cells_of self.old) }
        ensures stands { OnOk result (CellsStand D.tells D.seen D.may_leave self.new) }
        ensures after_no_memory { IsErrOf result CellFault.NoMemory
            → CellsStand D.tells D.seen D.may_leave self.new }
        ensures any_moment { D.tells → ContinuesOnly D.moment D.left_since (disk_of self.old)
            (disk_of self.new) (IsBeforeOrAfter (cells_of self.old) (grown (cells_of self.old))) }
        ensures length { D.tells → NotLonger D.moment D.left_since D.may_leave
            (disk_of self.old) (disk_of self.new) (1024 *
            (narrow_in (cells_of self.old) + 1) + 9216 * (wide_in (cells_of self.old) + 1)) }
        ensures cause { IsFaultOfDisk result
            (D.fault_count (disk_of self.old)) (D.fault_count (disk_of self.new)) }
    {
        let behind = self.count() + 1;
        let head = self.head_with(self.wide_count() + 1)?;
        self.cells.reserve(1)?;
        write_blank(&mut self.disk, self.narrow, behind)?;
        write_over(&mut self.change, 0);
        let first = &mut self.cells[0];
        steps::change_cell(&mut self.disk, self.alloc, first, self.narrow, 0, head)?;
        push_blank(&mut self.cells);
        self.change = None;
        Ok(())
    }

    /// Reads the cells of the disk, on which nothing is pending, as after a crash. No change is then under way. `Foreign` tells the
    /// first byte that is not as the format demands: first the frames of all cells that cell 0 tells, in rising order, then cell 0,
    /// which may not be blank. After an `Err` what is seen is as before. The disk is only read.
    pub fn recover(&mut self) -> Result<(), CellFault>
        requires { D.tells → Only (D.seen (disk_of self.old)) (D.may_leave (disk_of self.old)) }
        ensures recovered { D.tells
            → OnOk result (IsImageOf (cells_of self.new) (D.seen (disk_of self.old))) }
        ensures foreign { D.tells → (at : ℕ) → IsErrOf result (CellFault.Foreign at)
            → foreign_at (D.seen (disk_of self.old)) ≡ Some at }
        ensures done { OnOk result (change_of self.new ≡ None) }
        ensures same { OnErr result (change_of self.new ≡ change_of self.old) }
        ensures cells { OnErr result (cells_of self.new ≡ cells_of self.old) }
        ensures stands { OnOk result (CellsStand D.tells D.seen D.may_leave self.new) }
        ensures read { D.tells → OnlyRead D.moment D.left_since D.seen D.may_leave
            (disk_of self.old) (disk_of self.new) }
        ensures length { D.tells
            → NotLonger D.moment D.left_since D.may_leave (disk_of self.old) (disk_of self.new) 0 }
        ensures cause { HasCellCause result
            (D.fault_count (disk_of self.old)) (D.fault_count (disk_of self.new)) }
    {
        let (narrow, cells) = read_row(&mut self.disk, self.alloc)?;
        self.narrow = narrow;
        self.cells = cells;
        self.change = None;
        Ok(())
    }

    /// Makes cell 0 the only cell, with this payload of 1 to 508 bytes; one that is a head tells no cells. No change is then under
    /// way. After an `Err` what is seen is as before, but the disk may no longer hold it: format or recover again.
    pub fn format(&mut self, payload: &[u8]) -> Result<(), CellFault>
        requires fits { IsPayload 512 payload.now }
        requires no_cells { count_told payload.now ≡ 0 }
        ensures formatted { OnOk result (cells_of self.new ≡ Some payload.now ∷ []) }
        ensures done { OnOk result (change_of self.new ≡ None) }
        ensures same { OnErr result (change_of self.new ≡ change_of self.old) }
        ensures cells { OnErr result (cells_of self.new ≡ cells_of self.old) }
        ensures stands { OnOk result (CellsStand D.tells D.seen D.may_leave self.new) }
        ensures length { D.tells → NotLonger D.moment D.left_since D.may_leave
            (disk_of self.old) (disk_of self.new) 1024 }
        ensures cause { IsFaultOfDisk result
            (D.fault_count (disk_of self.old)) (D.fault_count (disk_of self.new)) }
    {
        let payload = payload.to_vec(self.alloc)?;
        let mut cells = Vec::with_capacity(self.alloc, 1)?;
        let mut cell = blank();
        write_blank(&mut self.disk, 0, 0)?;
        steps::change_cell(&mut self.disk, self.alloc, &mut cell, 0, 0, payload)?;
        push_cell(&mut cells, cell);
        self.narrow = 0;
        self.cells = cells;
        self.change = None;
        Ok(())
    }

    /// Crashes the disk. The cells are recovered before they are used again.
    pub fn crash(&mut self)
        ensures image { D.tells → D.may_leave (disk_of self.old) (D.seen (disk_of self.new)) }
        ensures settled { D.tells
            → Only (D.seen (disk_of self.new)) (D.may_leave (disk_of self.new)) }
        ensures time { D.tells → Elapses (D.moment (disk_of self.old))
            (D.moment (disk_of self.new)) (D.left_since (disk_of self.old))
            (D.left_since (disk_of self.new)) (D.may_leave (disk_of self.new)) }
        ensures length { D.tells
            → NotLonger D.moment D.left_since D.may_leave (disk_of self.old) (disk_of self.new) 0 }
        ensures cells { cells_of self.new ≡ cells_of self.old }
        ensures change { change_of self.new ≡ change_of self.old }
        ensures never_falls { D.fault_count (disk_of self.old) ≤ D.fault_count (disk_of self.new) }
    {
        self.disk.crash();
    }

    /// Tells the disk that nobody will ask of moments before this one. All that is seen is as before.
    pub fn forget_past(&mut self)
        ensures kept { D.tells → Keeps (D.seen (disk_of self.old)) (D.seen (disk_of self.new))
            (D.may_leave (disk_of self.old)) (D.may_leave (disk_of self.new)) }
        ensures now { D.tells → D.moment (disk_of self.new) ≡ D.moment (disk_of self.old) }
        ensures cells { cells_of self.new ≡ cells_of self.old }
        ensures change { change_of self.new ≡ change_of self.old }
        ensures stands { CellsStand D.tells D.seen D.may_leave self.old
            → CellsStand D.tells D.seen D.may_leave self.new }
        ensures faults { D.fault_count (disk_of self.new) ≡ D.fault_count (disk_of self.old) }
    {
        self.disk.forget_past();
    }

    // The payload of cell 0, if there is one.
    fn head(&self) -> Option<&[u8]>
        ensures none { option_copied result ≡ None → (narrow_in (cells_of self.now) ≡ 0)
            × (wide_in (cells_of self.now) ≡ 0) × (head_in (cells_of self.now) ≡ []) }
        ensures some { (head : List ℕ) → option_copied result ≡ Some head
            → (narrow_in (cells_of self.now) ≡ narrow_told head) × (wide_in (cells_of self.now)
            ≡ wide_told head) × (head_in (cells_of self.now) ≡ head) }
    {
        let first = self.cells.first()?;
        let payload = first.payload.as_ref()?;
        Some(payload.as_slice())
    }

    // The head in cell 0, telling this number of wide cells.
    fn head_with(&self, count: u32) -> Result<Vec<u8>, AllocError>
        requires head { IsTrue (is_head (head_in (cells_of self.now))) }
        requires fits { IsPayload 512 (head_in (cells_of self.now)) }
        requires small { count ≤ 4096 }
        ensures head { IfOk result
            (λ head. head.items ≡ with_count (head_in (cells_of self.now)) count) }
        ensures fits { IfOk result (λ head. IsPayload 512 head.items) }
    {
        match self.head() {
            Some(head) => frame::with_count(self.alloc, head, count),
            None => unreachable!(),
        }
    }

    /// How often the disk has failed.
    pub fn faults(&self) -> u64
        ensures { result ≡ D.fault_count (disk_of self.now) }
    {
        self.disk.faults()
    }

    /// The disk, without its cells.
    pub fn into_disk(self) -> D
        ensures { result ≡ disk_of self }
    {
        self.disk
    }
}

/// Appends a blank cell, for which there is room.
fn push_blank(cells: &mut Vec<Cell>)
    requires { vec_len cells.old < vec_capacity cells.old }
    ensures { (cell : Cell) × (cells.new.items ≡ cells.old.items ++ cell ∷ [])
        × IsNew cell × (payload_held cell ≡ None) }
{
    push_cell(cells, blank());
}

/// Appends a cell, for which there is room.
fn push_cell(cells: &mut Vec<Cell>, cell: Cell)
    requires { vec_len cells.old < vec_capacity cells.old }
    ensures { cells.new.items ≡ cells.old.items ++ cell ∷ [] }
{
    let pushed = cells.push(cell).is_ok();
    prove!(pushed);
}
