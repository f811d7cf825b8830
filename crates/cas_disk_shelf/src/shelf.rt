//! A shelf on a disk.
ghost use Rattle.std.specs.Prelude.{◌≡◌, ◌≤◌, ◌<◌, ◌+◌, ◌*◌, ◌↔◌, ℕ, List, Ok, Err, Some, None, true, OnOk, OnErr, IsErrOf, IfOk};
ghost use Rattle.cas_slot.specs.Contents.{nothing, kept_at, with_kept, without_kept, with_raised};
ghost use Rattle.cas_slot.specs.Limits.{SlotBallotsFit, AllBallotsFit};
ghost use Rattle.cas_slot.specs.Shelf.{IsOldOrNew, ShelfLeavesOnly, NothingIsPending, HasShelfCause, IsNeitherFullNorForeign};
ghost use Rattle.cas_slot.specs.Slots.{IsFullFor, slot_count};
ghost use Rattle.cas_disk.specs.Disk.{Only, ContinuesOnly as DiskContinuesOnly};
ghost use Rattle.cas_cells.specs.Cells.{cells_of, CellsStand};
ghost use Rattle.cas_cells.specs.Format.{wide_in};
ghost use Rattle.cas_cells.specs.Length.{AllWithin, NotLonger};
ghost use Rattle.cas_disk_shelf.specs.Image.{left_on};
ghost use Rattle.cas_disk_shelf.specs.Length.{HoldsAtMost, IsShort, StaysShort};
ghost use Rattle.cas_disk_shelf.specs.Memory.{cell_of, is_free, IsReadFrom};

use crate::codec::{FREE, Head, spell_head, spell_slot};
use crate::memory::{Loaded, Memory, load};
use crate::moving::move_slots;
use crate::steps::{change, fault_of, renew};
use cas_cells::Cells;
use cas_change::Key;
use cas_disk::Disk;
use cas_slot::{Ages, MOST_SLOTS, Shelf, ShelfFault, Slot};
use std::alloc::{AllocError, Global};

/// A shelf on a disk of its own.
///
/// Each slot has a cell of its own. Beside the disk the slots are in memory too, with an index from their keys to their cells and
/// the cells that hold none.
///
/// A disk of the old form has narrow cells behind the head. `reopen` makes a head of the old form one of the new, and then moves the
/// slot of each narrow cell, in rising order, to a wide cell behind them, and frees the narrow one. So a crash may leave a key in one
/// narrow and one wide cell, with equal payloads; `reopen` then frees the narrow one. Where else two cells hold one key, it answers
/// `Foreign` with the first byte of the later one.
///
/// The disk is never longer than it was when the shelf took it, or than `1024 * (1 + old) + 9216 * (1 + s)` bytes, `old` being the
/// greatest number of narrow cells that its head told, and `s` the greatest number of slots that the shelf, or its disk, ever held at
/// once: `over` begins that, and each call keeps it, whatever it answers.
///
/// Each change and each reopening tells the disk to forget what was before it: what a clause says of any moment holds of the moments
/// since its call began.
#[derive(Drop)]
pub struct DiskShelf<D: Disk> {
    alloc: Global,
    cells: Cells<D>,
    memory: Memory,
}

impl<D: Disk> DiskShelf<D> {
    ghost use Rattle.cas_disk_shelf.specs.Shelf.{disk_of, contents_of, narrow_of, ShelfIsUp, ShelfMayLeave, ShelfContinuesOnly};

    /// A shelf on this disk. It touches nothing, and is started or reopened before it is changed.
    pub fn over(alloc: Global, disk: D) -> DiskShelf<D>
        ensures disk { disk_of result ≡ disk }
        ensures contents { contents_of result ≡ nothing }
        ensures length { (taken most : ℕ) → AllWithin taken (D.may_leave disk)
            → HoldsAtMost D.may_leave most result → IsShort D.may_leave taken 0 most result }
    {
        DiskShelf {
            alloc,
            cells: Cells::over(alloc, disk),
            memory: Memory::new(alloc, Ages::ZERO),
        }
    }

    /// The disk, without its shelf. Each image that a crash of it may leave spells what a crash of the shelf may leave: of a shelf
    /// that is up its contents, and nothing else.
    pub fn into_disk(self) -> D
        ensures disk { result ≡ disk_of self }
        ensures left { (c : List ℕ)
            → D.may_leave result c → ShelfMayLeave D.may_leave self (left_on c) }
        ensures spelled { D.tells → ShelfIsUp D.tells D.seen D.may_leave self
            → (c : List ℕ) → D.may_leave result c → left_on c ≡ Ok (contents_of self) }
    {
        self.cells.into_disk()
    }

    // Puts a slot.
    fn keep(&mut self, key: &Key, slot: Slot) -> Result<(), ShelfFault>
        requires up { ShelfIsUp D.tells D.seen D.may_leave self.old }
        requires fits { SlotBallotsFit slot }
        ensures ok { OnOk result
            (contents_of self.new ≡ with_kept (contents_of self.old) key.now slot) }
        ensures err { OnErr result (contents_of self.new ≡ contents_of self.old) }
        ensures up { OnOk result (ShelfIsUp D.tells D.seen D.may_leave self.new) }
        ensures up_still { IsErrOf result ShelfFault.NoMemory
            → ShelfIsUp D.tells D.seen D.may_leave self.new }
        ensures full { IsErrOf result ShelfFault.Full ↔ IsFullFor
            (contents_of self.old).slots key.now }
        ensures up_when_full { IsErrOf result ShelfFault.Full
            → ShelfIsUp D.tells D.seen D.may_leave self.new }
        ensures untouched_when_full { D.tells
            → IsErrOf result ShelfFault.Full → ShelfContinuesOnly D.moment D.left_since
            (disk_of self.old) (disk_of self.new) (λ left. left ≡ Ok (contents_of self.old)) }
        ensures not_foreign { (at : ℕ) → IsErrOf result (ShelfFault.Foreign at) → ⊥ }
        ensures any_moment { D.tells
            → ShelfContinuesOnly D.moment D.left_since (disk_of self.old) (disk_of self.new)
            (IsOldOrNew (contents_of self.old) (with_kept (contents_of self.old) key.now slot)) }
        ensures length { D.tells → NotLonger D.moment D.left_since D.may_leave
            (disk_of self.old) (disk_of self.new) (1024 *
            (1 + narrow_of self.old) + 9216 * (slot_count (contents_of self.old).slots + 1)) }
        ensures cause { HasShelfCause result
            (D.fault_count (disk_of self.old)) (D.fault_count (disk_of self.new)) }
    {
        match self.memory.cell_of(key) {
            Some(cell) => self.rewrite(cell, key, slot),
            None => {
                if self.memory.held.len() >= MOST_SLOTS {
                    return Err(ShelfFault::Full);
                }
                self.add(key, slot)
            }
        }
    }

    // Puts the slot of a key that has one.
    fn rewrite(&mut self, cell: u32, key: &Key, slot: Slot) -> Result<(), ShelfFault>
        requires up { ShelfIsUp D.tells D.seen D.may_leave self.old }
        requires own { cell_of self.old.memory key.now ≡ Some cell }
        requires fits { SlotBallotsFit slot }
        ensures ok { OnOk result
            (contents_of self.new ≡ with_kept (contents_of self.old) key.now slot) }
        ensures err { OnErr result (contents_of self.new ≡ contents_of self.old) }
        ensures up { OnOk result (ShelfIsUp D.tells D.seen D.may_leave self.new) }
        ensures up_still { IsErrOf result ShelfFault.NoMemory
            → ShelfIsUp D.tells D.seen D.may_leave self.new }
        ensures any_moment { D.tells
            → ShelfContinuesOnly D.moment D.left_since (disk_of self.old) (disk_of self.new)
            (IsOldOrNew (contents_of self.old) (with_kept (contents_of self.old) key.now slot)) }
        ensures length { D.tells
            → NotLonger D.moment D.left_since D.may_leave (disk_of self.old) (disk_of self.new) 0 }
        ensures other { IsNeitherFullNorForeign result }
        ensures cause { HasShelfCause result
            (D.fault_count (disk_of self.old)) (D.fault_count (disk_of self.new)) }
    {
        let payload = spell_slot(self.alloc, key, &slot)?;
        let own = key.copy()?;
        change(&mut self.cells, cell, &payload)?;
        let put = self.memory.held.insert(own, slot).is_ok();
        prove!(put);
        Ok(())
    }

    // Puts the slot of a key that has none.
    fn add(&mut self, key: &Key, slot: Slot) -> Result<(), ShelfFault>
        requires up { ShelfIsUp D.tells D.seen D.may_leave self.old }
        requires new { cell_of self.old.memory key.now ≡ None }
        requires room { slot_count (contents_of self.old).slots < 4096 }
        requires fits { SlotBallotsFit slot }
        ensures ok { OnOk result
            (contents_of self.new ≡ with_kept (contents_of self.old) key.now slot) }
        ensures err { OnErr result (contents_of self.new ≡ contents_of self.old) }
        ensures up { OnOk result (ShelfIsUp D.tells D.seen D.may_leave self.new) }
        ensures up_still { IsErrOf result ShelfFault.NoMemory
            → ShelfIsUp D.tells D.seen D.may_leave self.new }
        ensures any_moment { D.tells
            → ShelfContinuesOnly D.moment D.left_since (disk_of self.old) (disk_of self.new)
            (IsOldOrNew (contents_of self.old) (with_kept (contents_of self.old) key.now slot)) }
        ensures length { D.tells → NotLonger D.moment D.left_since D.may_leave
            (disk_of self.old) (disk_of self.new) (1024 *
            (1 + narrow_of self.old) + 9216 * (slot_count (contents_of self.old).slots + 1)) }
        ensures other { IsNeitherFullNorForeign result }
        ensures cause { HasShelfCause result
            (D.fault_count (disk_of self.old)) (D.fault_count (disk_of self.new)) }
    {
        let cell = self.unused_cell()?;
        self.add_at(cell, key, slot)
    }

    // Puts the slot of a key that has none into a cell that holds none.
    fn add_at(&mut self, cell: u32, key: &Key, slot: Slot) -> Result<(), ShelfFault>
        requires up { ShelfIsUp D.tells D.seen D.may_leave self.old }
        requires new { cell_of self.old.memory key.now ≡ None }
        requires room { slot_count (contents_of self.old).slots < 4096 }
        requires free { is_free self.old.memory cell ≡ true }
        requires fits { SlotBallotsFit slot }
        ensures ok { OnOk result
            (contents_of self.new ≡ with_kept (contents_of self.old) key.now slot) }
        ensures err { OnErr result (contents_of self.new ≡ contents_of self.old) }
        ensures up { OnOk result (ShelfIsUp D.tells D.seen D.may_leave self.new) }
        ensures up_still { IsErrOf result ShelfFault.NoMemory
            → ShelfIsUp D.tells D.seen D.may_leave self.new }
        ensures any_moment { D.tells
            → ShelfContinuesOnly D.moment D.left_since (disk_of self.old) (disk_of self.new)
            (IsOldOrNew (contents_of self.old) (with_kept (contents_of self.old) key.now slot)) }
        ensures length { D.tells
            → NotLonger D.moment D.left_since D.may_leave (disk_of self.old) (disk_of self.new) 0 }
        ensures other { IsNeitherFullNorForeign result }
        ensures cause { HasShelfCause result
            (D.fault_count (disk_of self.old)) (D.fault_count (disk_of self.new)) }
    {
        let payload = spell_slot(self.alloc, key, &slot)?;
        let own = key.copy()?;
        self.memory.index.reserve(1)?;
        self.memory.held.insert(key.copy()?, slot)?;
        if let Err(fault) = change(&mut self.cells, cell, &payload) {
            self.memory.held.remove(key);
            return Err(fault);
        }
        let noted = self.memory.index.insert(own, cell).is_ok();
        prove!(noted);
        self.memory.free.remove(&cell);
        Ok(())
    }

    // The cell of the least number that holds no slot; where there is none, one that the disk is grown by.
    fn unused_cell(&mut self) -> Result<u32, ShelfFault>
        requires up { ShelfIsUp D.tells D.seen D.may_leave self.old }
        requires room { slot_count (contents_of self.old).slots < 4096 }
        ensures contents { contents_of self.new ≡ contents_of self.old }
        ensures index { self.new.memory.index ≡ self.old.memory.index }
        ensures free { IfOk result (λ cell. is_free self.new.memory cell ≡ true) }
        ensures least { IfOk result (λ cell. (other : ℕ)
            → is_free self.old.memory other ≡ true → cell ≤ other) }
        ensures up { OnOk result (ShelfIsUp D.tells D.seen D.may_leave self.new) }
        ensures up_still { IsErrOf result ShelfFault.NoMemory
            → ShelfIsUp D.tells D.seen D.may_leave self.new }
        ensures any_moment { D.tells → ShelfContinuesOnly D.moment D.left_since
            (disk_of self.old) (disk_of self.new) (λ left. left ≡ Ok (contents_of self.old)) }
        ensures length { D.tells → NotLonger D.moment D.left_since D.may_leave
            (disk_of self.old) (disk_of self.new) (1024 *
            (1 + narrow_of self.old) + 9216 * (slot_count (contents_of self.old).slots + 1)) }
        ensures other { IsNeitherFullNorForeign result }
        ensures cause { HasShelfCause result
            (D.fault_count (disk_of self.old)) (D.fault_count (disk_of self.new)) }
    {
        match self.memory.free.first() {
            Some(cell) => Ok(*cell),
            None => self.grow(),
        }
    }

    // Grows the disk by a cell, and answers its number.
    fn grow(&mut self) -> Result<u32, ShelfFault>
        requires up { ShelfIsUp D.tells D.seen D.may_leave self.old }
        requires room { wide_in (cells_of self.old.cells) < 4096 }
        ensures contents { contents_of self.new ≡ contents_of self.old }
        ensures index { self.new.memory.index ≡ self.old.memory.index }
        ensures free { IfOk result (λ cell. is_free self.new.memory cell ≡ true) }
        ensures up { OnOk result (ShelfIsUp D.tells D.seen D.may_leave self.new) }
        ensures up_still { IsErrOf result ShelfFault.NoMemory
            → ShelfIsUp D.tells D.seen D.may_leave self.new }
        ensures any_moment { D.tells → ShelfContinuesOnly D.moment D.left_since
            (disk_of self.old) (disk_of self.new) (λ left. left ≡ Ok (contents_of self.old)) }
        ensures length { D.tells
            → NotLonger D.moment D.left_since D.may_leave (disk_of self.old) (disk_of self.new)
            (1024 * (1 + narrow_of self.old) + 9216 * (wide_in (cells_of self.old.cells) + 1)) }
        ensures other { IsNeitherFullNorForeign result }
        ensures cause { HasShelfCause result
            (D.fault_count (disk_of self.old)) (D.fault_count (disk_of self.new)) }
    {
        let cell = self.cells.count() + 1;
        self.memory.free.insert(cell)?;
        if let Err(fault) = self.cells.grow() {
            self.memory.free.remove(&cell);
            return Err(fault_of(fault));
        }
        Ok(cell)
    }

    // Removes the slot of a key, if it has one.
    fn release(&mut self, key: &Key) -> Result<(), ShelfFault>
        requires { ShelfIsUp D.tells D.seen D.may_leave self.old }
        ensures ok { OnOk result
            (contents_of self.new ≡ without_kept (contents_of self.old) key.now) }
        ensures err { OnErr result (contents_of self.new ≡ contents_of self.old) }
        ensures up { OnOk result (ShelfIsUp D.tells D.seen D.may_leave self.new) }
        ensures up_still { IsErrOf result ShelfFault.NoMemory
            → ShelfIsUp D.tells D.seen D.may_leave self.new }
        ensures other { IsNeitherFullNorForeign result }
        ensures any_moment { D.tells
            → ShelfContinuesOnly D.moment D.left_since (disk_of self.old) (disk_of self.new)
            (IsOldOrNew (contents_of self.old) (without_kept (contents_of self.old) key.now)) }
        ensures length { D.tells
            → NotLonger D.moment D.left_since D.may_leave (disk_of self.old) (disk_of self.new) 0 }
        ensures cause { HasShelfCause result
            (D.fault_count (disk_of self.old)) (D.fault_count (disk_of self.new)) }
    {
        match self.memory.cell_of(key) {
            Some(cell) => self.free(cell, key),
            None => Ok(()),
        }
    }

    // Removes the slot of a key that has one.
    fn free(&mut self, cell: u32, key: &Key) -> Result<(), ShelfFault>
        requires up { ShelfIsUp D.tells D.seen D.may_leave self.old }
        requires own { cell_of self.old.memory key.now ≡ Some cell }
        ensures ok { OnOk result
            (contents_of self.new ≡ without_kept (contents_of self.old) key.now) }
        ensures err { OnErr result (contents_of self.new ≡ contents_of self.old) }
        ensures up { OnOk result (ShelfIsUp D.tells D.seen D.may_leave self.new) }
        ensures up_still { IsErrOf result ShelfFault.NoMemory
            → ShelfIsUp D.tells D.seen D.may_leave self.new }
        ensures any_moment { D.tells
            → ShelfContinuesOnly D.moment D.left_since (disk_of self.old) (disk_of self.new)
            (IsOldOrNew (contents_of self.old) (without_kept (contents_of self.old) key.now)) }
        ensures length { D.tells
            → NotLonger D.moment D.left_since D.may_leave (disk_of self.old) (disk_of self.new) 0 }
        ensures other { IsNeitherFullNorForeign result }
        ensures cause { HasShelfCause result
            (D.fault_count (disk_of self.old)) (D.fault_count (disk_of self.new)) }
    {
        self.memory.free.insert(cell)?;
        if let Err(fault) = change(&mut self.cells, cell, &FREE) {
            self.memory.free.remove(&cell);
            return Err(fault);
        }
        self.memory.held.remove(key);
        self.memory.index.swap_remove(key);
        Ok(())
    }

    // Sets the least ages.
    fn set_ages(&mut self, ages: Ages) -> Result<(), ShelfFault>
        requires { ShelfIsUp D.tells D.seen D.may_leave self.old }
        ensures ok { OnOk result
            (contents_of self.new ≡ record (contents_of self.old) { ages = ages }) }
        ensures err { OnErr result (contents_of self.new ≡ contents_of self.old) }
        ensures up { OnOk result (ShelfIsUp D.tells D.seen D.may_leave self.new) }
        ensures up_still { IsErrOf result ShelfFault.NoMemory
            → ShelfIsUp D.tells D.seen D.may_leave self.new }
        ensures any_moment { D.tells
            → ShelfContinuesOnly D.moment D.left_since (disk_of self.old) (disk_of self.new)
            (IsOldOrNew (contents_of self.old) (record (contents_of self.old) { ages = ages })) }
        ensures length { D.tells
            → NotLonger D.moment D.left_since D.may_leave (disk_of self.old) (disk_of self.new) 0 }
        ensures other { IsNeitherFullNorForeign result }
        ensures cause { HasShelfCause result
            (D.fault_count (disk_of self.old)) (D.fault_count (disk_of self.new)) }
    {
        let head = Head {
            narrow: self.cells.narrow_count(),
            count: self.cells.wide_count(),
            ages,
        };
        let payload = spell_head(self.alloc, &head)?;
        change(&mut self.cells, 0, &payload)?;
        self.memory.held.set_ages(ages);
        Ok(())
    }

    // Recovers the cells of a disk that was crashed, and loads what they hold.
    fn recover(&mut self) -> Result<Loaded, ShelfFault>
        requires { D.tells → Only (D.seen (disk_of self.old)) (D.may_leave (disk_of self.old)) }
        ensures recovered { D.tells
            → IfOk result (λ loaded. left_on (D.seen (disk_of self.old)) ≡ Ok loaded.memory.held) }
        ensures memory { self.new.memory ≡ self.old.memory }
        ensures foreign { D.tells → (at : ℕ) → IsErrOf result (ShelfFault.Foreign at)
            → left_on (D.seen (disk_of self.old)) ≡ Err at }
        ensures stands { OnOk result (CellsStand D.tells D.seen D.may_leave self.new.cells) }
        ensures read { IfOk result (IsReadFrom (cells_of self.new.cells)) }
        ensures fits { IfOk result (λ loaded. AllBallotsFit loaded.memory.held) }
        ensures any_moment { D.tells → DiskContinuesOnly D.moment D.left_since
            (disk_of self.old) (disk_of self.new) (λ c. c ≡ D.seen (disk_of self.old)) }
        ensures not_full { IsErrOf result ShelfFault.Full → ⊥ }
        ensures cause { HasShelfCause result
            (D.fault_count (disk_of self.old)) (D.fault_count (disk_of self.new)) }
    {
        if let Err(fault) = self.cells.recover() {
            return Err(fault_of(fault));
        }
        load(self.alloc, &self.cells)
    }
}

impl<D: Disk> Shelf for DiskShelf<D> {
    ghost use Rattle.cas_disk_shelf.specs.Shelf.{disk_of, contents_of, moment_of, ShelfIsUp, ShelfMayLeave, ShelfLeftSince};
    ghost use Rattle.cas_disk_shelf.specs.ShelfLaws.{up_is_left};

    ghost tells = { D.tells };

    ghost contents = { λ shelf. contents_of shelf };

    ghost is_up = { λ shelf. ShelfIsUp D.tells D.seen D.may_leave shelf };

    ghost may_leave = { λ shelf left. ShelfMayLeave D.may_leave shelf left };

    ghost moment = { λ shelf. D.moment (disk_of shelf) };

    ghost left_since = { λ shelf t left. ShelfLeftSince D.left_since shelf t left };

    ghost fault_count = { λ shelf. D.fault_count (disk_of shelf) };

    ghost up_is_kept = { λ shelf t up left may. up_is_left D.tells D.seen D.may_leave shelf up t left may };

    ghost ballots_fit = { λ shelf up. up.fits };

    ghost counts_now = { λ shelf t left tells le may. (may.0, D.counts_now (disk_of shelf) t may.0 tells le may.1, may.2) };

    ghost only_now = { λ shelf left tells since. (since.0, D.only_now (disk_of shelf) since.0 tells since.1, since.2) };

    fn start(&mut self) -> Result<(), ShelfFault>
        ensures started { OnOk result (contents_of self.new ≡ nothing) }
        ensures err { OnErr result (contents_of self.new ≡ contents_of self.old) }
        ensures up { OnOk result (ShelfIsUp D.tells D.seen D.may_leave self.new) }
        ensures other { IsNeitherFullNorForeign result }
        ensures length { D.tells → StaysShort D.moment D.left_since D.may_leave self.old self.new }
        ensures cause { HasShelfCause result
            (D.fault_count (disk_of self.old)) (D.fault_count (disk_of self.new)) }
    {
        self.cells.crash();
        let head = Head {
            narrow: 0,
            count: 0,
            ages: Ages::ZERO,
        };
        let payload = spell_head(self.alloc, &head)?;
        if let Err(fault) = self.cells.format(&payload) {
            return Err(fault_of(fault));
        }
        self.memory = Memory::new(self.alloc, Ages::ZERO);
        Ok(())
    }

    fn reopen(&mut self) -> Result<(), ShelfFault>
        ensures reopened { D.tells
            → OnOk result (ShelfMayLeave D.may_leave self.old (Ok (contents_of self.new))) }
        ensures err { OnErr result (contents_of self.new ≡ contents_of self.old) }
        ensures foreign { D.tells → (at : ℕ)
            → IsErrOf result (ShelfFault.Foreign at) → ShelfMayLeave D.may_leave self.old (Err at) }
        ensures up { OnOk result (ShelfIsUp D.tells D.seen D.may_leave self.new) }
        ensures any_moment { D.tells → ShelfLeavesOnly (moment_of D.moment)
            (ShelfLeftSince D.left_since) self.old self.new (ShelfMayLeave D.may_leave self.old) }
        ensures not_full { IsErrOf result ShelfFault.Full → ⊥ }
        ensures length { D.tells → StaysShort D.moment D.left_since D.may_leave self.old self.new }
        ensures cause { HasShelfCause result
            (D.fault_count (disk_of self.old)) (D.fault_count (disk_of self.new)) }
    {
        self.cells.forget_past();
        self.cells.crash();
        let mut loaded = self.recover()?;
        renew(self.alloc, &mut self.cells, &loaded)?;
        move_slots(self.alloc, &mut self.cells, &mut loaded)?;
        self.memory = loaded.memory;
        Ok(())
    }

    fn crash(&mut self)
        ensures settled { D.tells → NothingIsPending (ShelfMayLeave D.may_leave self.old)
            (ShelfMayLeave D.may_leave self.new) }
        ensures any_moment { D.tells → ShelfLeavesOnly (moment_of D.moment)
            (ShelfLeftSince D.left_since) self.old self.new (ShelfMayLeave D.may_leave self.old) }
        ensures length { D.tells → StaysShort D.moment D.left_since D.may_leave self.old self.new }
        ensures never_falls { D.fault_count (disk_of self.old) ≤ D.fault_count (disk_of self.new) }
    {
        self.cells.crash();
    }

    fn get(&self, key: &Key) -> Result<Option<Slot>, AllocError> {
        self.memory.held.get(key)
    }

    fn ages(&self) -> Ages {
        self.memory.held.ages()
    }

    fn keys_after(&self, after: Option<&Key>, most: usize) -> Result<Vec<Key>, AllocError> {
        self.memory.held.keys_after(after, most)
    }

    fn put(&mut self, key: &Key, slot: Slot) -> Result<(), ShelfFault>
        requires up { ShelfIsUp D.tells D.seen D.may_leave self.old }
        requires fits { SlotBallotsFit slot }
        ensures ok { OnOk result
            (contents_of self.new ≡ with_kept (contents_of self.old) key.now slot) }
        ensures err { OnErr result (contents_of self.new ≡ contents_of self.old) }
        ensures up { OnOk result (ShelfIsUp D.tells D.seen D.may_leave self.new) }
        ensures up_still { IsErrOf result ShelfFault.NoMemory
            → ShelfIsUp D.tells D.seen D.may_leave self.new }
        ensures full { IsErrOf result ShelfFault.Full ↔ IsFullFor
            (contents_of self.old).slots key.now }
        ensures up_when_full { IsErrOf result ShelfFault.Full
            → ShelfIsUp D.tells D.seen D.may_leave self.new }
        ensures untouched_when_full { D.tells → IsErrOf result ShelfFault.Full
            → ShelfLeavesOnly (moment_of D.moment) (ShelfLeftSince D.left_since) self.old self.new
            (λ left. left ≡ Ok (contents_of self.old)) }
        ensures not_foreign { (at : ℕ) → IsErrOf result (ShelfFault.Foreign at) → ⊥ }
        ensures any_moment { D.tells
            → ShelfLeavesOnly (moment_of D.moment) (ShelfLeftSince D.left_since) self.old self.new
            (IsOldOrNew (contents_of self.old) (with_kept (contents_of self.old) key.now slot)) }
        ensures length { D.tells → StaysShort D.moment D.left_since D.may_leave self.old self.new }
        ensures cause { HasShelfCause result
            (D.fault_count (disk_of self.old)) (D.fault_count (disk_of self.new)) }
    {
        self.cells.forget_past();
        self.keep(key, slot)
    }

    fn drop_slot(&mut self, key: &Key) -> Result<(), ShelfFault>
        requires { ShelfIsUp D.tells D.seen D.may_leave self.old }
        ensures ok { OnOk result
            (contents_of self.new ≡ without_kept (contents_of self.old) key.now) }
        ensures err { OnErr result (contents_of self.new ≡ contents_of self.old) }
        ensures up { OnOk result (ShelfIsUp D.tells D.seen D.may_leave self.new) }
        ensures up_still { IsErrOf result ShelfFault.NoMemory
            → ShelfIsUp D.tells D.seen D.may_leave self.new }
        ensures other { IsNeitherFullNorForeign result }
        ensures any_moment { D.tells
            → ShelfLeavesOnly (moment_of D.moment) (ShelfLeftSince D.left_since) self.old self.new
            (IsOldOrNew (contents_of self.old) (without_kept (contents_of self.old) key.now)) }
        ensures length { D.tells → StaysShort D.moment D.left_since D.may_leave self.old self.new }
        ensures cause { HasShelfCause result
            (D.fault_count (disk_of self.old)) (D.fault_count (disk_of self.new)) }
    {
        self.cells.forget_past();
        self.release(key)
    }

    fn raise_ages(&mut self, least: &Ages) -> Result<(), ShelfFault>
        requires { ShelfIsUp D.tells D.seen D.may_leave self.old }
        ensures ok { OnOk result
            (contents_of self.new ≡ with_raised (contents_of self.old) least.now) }
        ensures err { OnErr result (contents_of self.new ≡ contents_of self.old) }
        ensures up { OnOk result (ShelfIsUp D.tells D.seen D.may_leave self.new) }
        ensures up_still { IsErrOf result ShelfFault.NoMemory
            → ShelfIsUp D.tells D.seen D.may_leave self.new }
        ensures other { IsNeitherFullNorForeign result }
        ensures any_moment { D.tells
            → ShelfLeavesOnly (moment_of D.moment) (ShelfLeftSince D.left_since) self.old self.new
            (IsOldOrNew (contents_of self.old) (with_raised (contents_of self.old) least.now)) }
        ensures length { D.tells → StaysShort D.moment D.left_since D.may_leave self.old self.new }
        ensures cause { HasShelfCause result
            (D.fault_count (disk_of self.old)) (D.fault_count (disk_of self.new)) }
    {
        self.cells.forget_past();
        let mut ages = self.memory.held.ages();
        ages.raise(least);
        self.set_ages(ages)
    }

    fn faults(&self) -> u64 {
        self.cells.faults()
    }
}
