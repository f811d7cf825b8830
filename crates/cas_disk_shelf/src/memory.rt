//! What a shelf keeps in memory beside its disk: what it shows, the cell of each key, and the cells that hold no slot; and how that is
//! read of its cells, of which narrow ones too may hold slots.
ghost use Rattle.std.specs.Prelude.{◌≡◌, ◌+◌, ◌-◌, ◌*◌, ◌^◌, ◌<◌, ◌≤◌, ℕ, List, length, None, Some, Ok, Err, false, OnOk, IfOk, IsErrOf};
ghost use Rattle.cas_slot.specs.Contents.{kept_at, with_kept};
ghost use Rattle.cas_slot.specs.Limits.{AllBallotsFit, SlotBallotsFit};
ghost use Rattle.std.specs.BTreeSet.{btree_set_len};
ghost use Rattle.cas_slot.specs.Slots.{no_slots};
ghost use Rattle.cas_cells.specs.Cells.{CellsStand, cells_of, disk_of};
ghost use Rattle.cas_cells.specs.Format.{count_in, narrow_in};
ghost use Rattle.cas_disk_shelf.specs.Image.{cell_in, entry_held, is_twin, left_in, moved, place_on, read_cells, removed, same_payload};
ghost use Rattle.cas_disk_shelf.specs.Memory.{alone_in, cell_of, is_free, freed, AreCounted, CellsAreCounted, IsLoadedFrom, IsReadFrom};
ghost use Rattle.cas_disk_shelf.specs.Loading.{IsHeadOf, IsOfLoading, IsReadTo};

use crate::codec::{Found, Head, read_cell, read_head};
use crate::held::Held;
use cas_cells::Cells;
use cas_change::Key;
use cas_disk::Disk;
use cas_slot::{Ages, MOST_SLOTS, ShelfFault, Slot};
use indexmap::IndexMap;
use std::alloc::{AllocError, Global};
use std::collections::BTreeSet;

/// What a shelf shows, the cell of each key that has a slot, and the numbers of the cells that hold none.
#[derive(Drop)]
pub struct Memory {
    pub held: Held,
    pub index: IndexMap<Key, u32>,
    pub free: BTreeSet<u32>,
}

impl Memory {
    /// The memory of a shelf of no cells, with these ages.
    pub fn new(alloc: Global, ages: Ages) -> Memory
        ensures held { result.held ≡ record { slots = no_slots; ages = ages } }
        ensures index { (key : List ℕ) → cell_of result key ≡ None }
        ensures free { (i : ℕ) → is_free result i ≡ false }
        ensures counted { CellsAreCounted result 0 }
    {
        Memory {
            held: Held::new(alloc, ages),
            index: IndexMap::new(alloc),
            free: BTreeSet::new(alloc),
        }
    }

    /// The cell of a key, if it has a slot.
    pub fn cell_of(&self, key: &Key) -> Option<u32>
        ensures { result ≡ cell_of self.now key.now }
    {
        self.index.get(key).copied()
    }

    /// Notes that one cell more holds no slot.
    fn add_free(&mut self, cell: u32) -> Result<(), AllocError>
        requires new { is_free self.old cell ≡ false }
        ensures held { self.new.held ≡ self.old.held }
        ensures index { self.new.index ≡ self.old.index }
        ensures free { OnOk result ((i : ℕ)
            → is_free self.new i ≡ freed (is_free self.old) cell i) }
        ensures len { OnOk result (btree_set_len self.new.free ≡ btree_set_len self.old.free + 1) }
    {
        match self.free.insert(cell) {
            Ok(_) => Ok(()),
            Err(_) => Err(AllocError),
        }
    }
}

/// What is loaded of cells: the memory, which shows the slots in narrow cells too and has the wide cell of each key, and the narrow
/// cell of each key that stands in no wide one.
#[derive(Drop)]
pub struct Loaded {
    pub memory: Memory,
    pub alone: IndexMap<Key, u32>,
}

impl Loaded {
    /// What is loaded of no cells, with these ages.
    fn new(alloc: Global, ages: Ages) -> Loaded
        ensures held { result.memory.held ≡ record { slots = no_slots; ages = ages } }
        ensures index { (key : List ℕ) → cell_of result.memory key ≡ None }
        ensures free { (i : ℕ) → is_free result.memory i ≡ false }
        ensures alone { (key : List ℕ) → alone_in result key ≡ None }
        ensures counted { AreCounted result 0 }
    {
        Loaded {
            memory: Memory::new(alloc, ages),
            alone: IndexMap::new(alloc),
        }
    }

    /// The narrow cell of a key that stands in no wide one, if it stands in one.
    pub fn alone_in(&self, key: &Key) -> Option<u32>
        ensures { result ≡ alone_in self.now key.now }
    {
        self.alone.get(key).copied()
    }

    /// Notes that a wide cell holds the slot of a new key.
    fn add_wide(&mut self, key: Key, slot: Slot, cell: u32) -> Result<(), AllocError>
        requires new { cell_of self.old.memory key ≡ None }
        requires empty { kept_at self.old.memory.held key ≡ None }
        ensures held { OnOk result
            (self.new.memory.held ≡ with_kept self.old.memory.held key slot) }
        ensures index { OnOk result ((q : List ℕ)
            → cell_of self.new.memory q ≡ moved (cell_of self.old.memory) key cell q) }
        ensures free { self.new.memory.free ≡ self.old.memory.free }
        ensures alone { self.new.alone ≡ self.old.alone }
        ensures counted { OnOk result ((wide : ℕ)
            → AreCounted self.old wide → AreCounted self.new (wide + 1)) }
    {
        self.memory.held.insert(key.copy()?, slot)?;
        match self.memory.index.insert(key, cell) {
            Ok(_) => Ok(()),
            Err(_) => Err(AllocError),
        }
    }

    /// Notes that a narrow cell holds the slot of a new key.
    fn add_narrow(&mut self, key: Key, slot: Slot, cell: u32) -> Result<(), AllocError>
        requires new { alone_in self.old key ≡ None }
        requires empty { kept_at self.old.memory.held key ≡ None }
        ensures held { OnOk result
            (self.new.memory.held ≡ with_kept self.old.memory.held key slot) }
        ensures index { self.new.memory.index ≡ self.old.memory.index }
        ensures free { self.new.memory.free ≡ self.old.memory.free }
        ensures alone { OnOk result ((q : List ℕ)
            → alone_in self.new q ≡ moved (alone_in self.old) key cell q) }
        ensures counted { OnOk result ((wide : ℕ)
            → AreCounted self.old wide → AreCounted self.new wide) }
    {
        self.memory.held.insert(key.copy()?, slot)?;
        match self.alone.insert(key, cell) {
            Ok(_) => Ok(()),
            Err(_) => Err(AllocError),
        }
    }

    /// Notes that a wide cell holds a key that stood in a narrow cell alone.
    pub fn settle(&mut self, key: Key, cell: u32) -> Result<(), AllocError>
        requires new { cell_of self.old.memory key ≡ None }
        requires alone { (n : ℕ) × (alone_in self.old key ≡ Some n) }
        ensures held { self.new.memory.held ≡ self.old.memory.held }
        ensures index { OnOk result ((q : List ℕ)
            → cell_of self.new.memory q ≡ moved (cell_of self.old.memory) key cell q) }
        ensures free { self.new.memory.free ≡ self.old.memory.free }
        ensures alone { OnOk result ((q : List ℕ)
            → alone_in self.new q ≡ removed (alone_in self.old) key q) }
        ensures counted { OnOk result ((wide : ℕ)
            → AreCounted self.old wide → AreCounted self.new (wide + 1)) }
    {
        self.alone.swap_remove(&key);
        match self.memory.index.insert(key, cell) {
            Ok(_) => Ok(()),
            Err(_) => Err(AllocError),
        }
    }
}

/// What is loaded of the cells of a shelf. `Foreign` tells the first byte of their payloads, in rising order, that is not as the
/// format demands.
pub fn load<D: Disk>(alloc: Global, cells: &Cells<D>) -> Result<Loaded, ShelfFault>
    requires { CellsStand D.tells D.seen D.may_leave cells.now }
    ensures read { IfOk result (IsReadFrom (cells_of cells.now)) }
    ensures fits { IfOk result (λ loaded. AllBallotsFit loaded.memory.held) }
    ensures foreign { D.tells → (at : ℕ) → IsErrOf result (ShelfFault.Foreign at)
        → left_in (place_on (D.seen (disk_of cells.now))) (cells_of cells.now) ≡ Err at }
    ensures other { IsOfLoading result }
{
    let head = load_head(cells)?;
    let mut loaded = Loaded::new(alloc, head.ages);
    for i in 0..cells.count() {
        load_cell(alloc, &mut loaded, cells, i)?;
    }
    Ok(loaded)
}

/// The head in cell 0.
fn load_head<D: Disk>(cells: &Cells<D>) -> Result<Head, ShelfFault>
    requires { CellsStand D.tells D.seen D.may_leave cells.now }
    ensures head { IfOk result (IsHeadOf (cells_of cells.now)) }
    ensures foreign { D.tells → (at : ℕ) → IsErrOf result (ShelfFault.Foreign at)
        → left_in (place_on (D.seen (disk_of cells.now))) (cells_of cells.now) ≡ Err at }
    ensures other { IsOfLoading result }
{
    let Some(payload) = cells.payload(0) else {
        unreachable!();
    };
    match read_head(payload) {
        Ok(head) => Ok(head),
        Err(wrong) => Err(ShelfFault::Foreign {
            at: place_of(cells, 0) + wrong as u64,
        }),
    }
}

/// Where the payload of a cell begins on the disk.
fn place_of<D: Disk>(cells: &Cells<D>, cell: u32) -> u64
    requires stands { CellsStand D.tells D.seen D.may_leave cells.now }
    requires within { cell ≤ count_in (cells_of cells.now) }
    ensures place { D.tells → result ≡ (place_on (D.seen (disk_of cells.now)) cell).1 }
    ensures small { result ≤ 9216 * (cell + 1) }
{
    cells.payload_place(cell).unwrap_or(0)
}

/// Loads one cell more behind so many.
fn load_cell<D: Disk>(
    alloc: Global,
    loaded: &mut Loaded,
    cells: &Cells<D>,
    so_many: u32,
) -> Result<(), ShelfFault>
    requires stands { CellsStand D.tells D.seen D.may_leave cells.now }
    requires within { so_many < count_in (cells_of cells.now) }
    requires loaded { IsLoadedFrom (cells_of cells.now) so_many loaded.old }
    requires read { IsReadTo (cells_of cells.now) so_many loaded.old }
    requires fits { AllBallotsFit loaded.old.memory.held }
    ensures fits { OnOk result (AllBallotsFit loaded.new.memory.held) }
    ensures loaded { OnOk result (IsLoadedFrom (cells_of cells.now) (so_many + 1) loaded.new) }
    ensures read { OnOk result (IsReadTo (cells_of cells.now) (so_many + 1) loaded.new) }
    ensures ages { OnOk result (loaded.new.memory.held.ages ≡ loaded.old.memory.held.ages) }
    ensures foreign { D.tells → (at : ℕ) → IsErrOf result (ShelfFault.Foreign at)
        → read_cells (cells_of cells.now) (place_on (D.seen (disk_of cells.now))) (so_many + 1)
        ≡ Err at }
    ensures other { IsOfLoading result }
{
    let cell = so_many + 1;
    let Some(payload) = cells.payload(cell) else {
        pass(loaded, cells, cell)?;
        return Ok(());
    };
    match read_cell(alloc, payload)? {
        Found::Free => {
            pass(loaded, cells, cell)?;
            Ok(())
        }
        Found::Kept { key, slot } => take_in(loaded, cells, so_many, key, slot),
        Found::Wrong { at } => Err(wrong_in(place_of(cells, cell), payload, at)),
    }
}

/// Notes a cell that holds no slot. A narrow cell is not noted.
fn pass<D: Disk>(loaded: &mut Loaded, cells: &Cells<D>, cell: u32) -> Result<(), AllocError>
    requires new { is_free loaded.old.memory cell ≡ false }
    requires positive { 0 < cell }
    requires nothing { entry_held (cell_in (cells_of cells.now) cell) ≡ Ok None }
    requires loaded { IsLoadedFrom (cells_of cells.now) (cell - 1) loaded.old }
    requires read { IsReadTo (cells_of cells.now) (cell - 1) loaded.old }
    ensures loaded { OnOk result (IsLoadedFrom (cells_of cells.now) cell loaded.new) }
    ensures read { OnOk result (IsReadTo (cells_of cells.now) cell loaded.new) }
    ensures held { loaded.new.memory.held ≡ loaded.old.memory.held }
{
    if cells.narrow_count() < cell {
        loaded.memory.add_free(cell)?;
    }
    Ok(())
}

/// Takes in the slot of a key that the cell behind so many holds.
fn take_in<D: Disk>(
    loaded: &mut Loaded,
    cells: &Cells<D>,
    so_many: u32,
    key: Key,
    slot: Slot,
) -> Result<(), ShelfFault>
    requires stands { CellsStand D.tells D.seen D.may_leave cells.now }
    requires within { so_many < count_in (cells_of cells.now) }
    requires holds { entry_held (cell_in (cells_of cells.now) (so_many + 1))
        ≡ Ok (Some (key, slot)) }
    requires slot_fits { SlotBallotsFit slot }
    requires loaded { IsLoadedFrom (cells_of cells.now) so_many loaded.old }
    requires read { IsReadTo (cells_of cells.now) so_many loaded.old }
    requires fits { AllBallotsFit loaded.old.memory.held }
    ensures fits { OnOk result (AllBallotsFit loaded.new.memory.held) }
    ensures loaded { OnOk result (IsLoadedFrom (cells_of cells.now) (so_many + 1) loaded.new) }
    ensures read { OnOk result (IsReadTo (cells_of cells.now) (so_many + 1) loaded.new) }
    ensures ages { OnOk result (loaded.new.memory.held.ages ≡ loaded.old.memory.held.ages) }
    ensures foreign { D.tells → (at : ℕ) → IsErrOf result (ShelfFault.Foreign at)
        → read_cells (cells_of cells.now) (place_on (D.seen (disk_of cells.now))) (so_many + 1)
        ≡ Err at }
    ensures other { IsOfLoading result }
{
    let cell = so_many + 1;
    if is_twin(loaded, cells, cell, &key) {
        loaded.settle(key, cell)?;
        return Ok(());
    }
    if loaded.memory.held.has(&key) || loaded.memory.held.len() >= MOST_SLOTS {
        return Err(ShelfFault::Foreign {
            at: cells.place(cell),
        });
    }
    if cell <= cells.narrow_count() {
        loaded.add_narrow(key, slot, cell)?;
    } else {
        loaded.add_wide(key, slot, cell)?;
    }
    Ok(())
}

/// Whether a cell is wide and has the payload of the narrow cell in which the key stands alone.
fn is_twin<D: Disk>(loaded: &Loaded, cells: &Cells<D>, cell: u32, key: &Key) -> bool
    ensures { result ≡ is_twin (cells_of cells.now) cell (alone_in loaded.now key.now) }
{
    match loaded.alone.get(key) {
        Some(narrow) => cells.narrow_count() < cell && same_payload(cells, *narrow, cell),
        None => false,
    }
}

/// Whether two cells have the same payload.
fn same_payload<D: Disk>(cells: &Cells<D>, one: u32, other: u32) -> bool
    ensures { result
        ≡ same_payload (cell_in (cells_of cells.now) one) (cell_in (cells_of cells.now) other) }
{
    match (cells.payload(one), cells.payload(other)) {
        (Some(payload), Some(second)) => payload == second,
        _ => false,
    }
}

/// The fault of the byte at this place of a payload, which begins there on the disk.
fn wrong_in(place: u64, payload: &[u8], at: usize) -> ShelfFault
    requires low { place < 2 ^ 48 }
    requires within { at ≤ length payload.now }
    ensures { result ≡ ShelfFault.Foreign (place + at) }
{
    let before = &payload[..at];
    ShelfFault::Foreign {
        at: place + before.len() as u64,
    }
}
