//! A vault on a disk.
ghost use Rattle.std.specs.Prelude.{◌≡◌, ◌+◌, ◌^◌, ◌≤◌, ◌↔◌, ℕ, List, max, IfOk, OnOk, OnErr, IsErrOf};
ghost use Rattle.cas_disk.specs.Disk.{LeavesOnly, ContinuesOnly, Only, Elapses};
ghost use Rattle.cas_vault.specs.Codec.{RecordFits};
ghost use Rattle.cas_vault.specs.Error.{HasVaultCause, IsNotForeign};
ghost use Rattle.cas_vault.specs.declared.kept.Kept.{Kept};

use crate::VaultError;
use crate::codec::{read, spell};
use crate::kept::Kept;
use cas_ballot::LAST_COUNTER;
use cas_cells::Cells;
use cas_disk::Disk;
use std::alloc::Global;

/// How many numbers a bound lies above the number for which it was written.
const AHEAD: u64 = 99;

/// The vault of one proposer on a disk of its own: a counter, a bound, an age and an era.
///
/// The counter is in memory alone. No number is drawn above the bound, which is on the disk, so after a crash the counter goes on
/// from there. The vault is started or reopened before it is used, and reopened again after `VaultFault`.
///
/// Each call that changes the disk, and `reopen`, tells the disk to forget what was before it: what a clause says of any moment
/// holds of the moments since its call began.
#[derive(Drop)]
pub struct Vault<V: Disk> {
    cells: Cells<V>,
    counter: u64,
    kept: Kept,
}

impl<V: Disk> Vault<V> {
    ghost use Rattle.cas_vault.specs.Vault.{disk_of, counter_of, kept_of, fresh, kept_to_draw, kept_one_older, kept_in_era, KeptOn, KeepsBeforeOrAfter, VaultStands, IsPast, IsForeignAt};

    /// A vault on this disk. It touches nothing, and is started or reopened before it is used.
    pub fn over(alloc: Global, disk: V) -> Vault<V>
        ensures disk { disk_of result ≡ disk }
        ensures counter { counter_of result ≡ 0 }
        ensures kept { kept_of result ≡ fresh }
    {
        Vault {
            cells: Cells::over(alloc, disk),
            counter: 0,
            kept: Kept {
                bound: 0,
                age: 0,
                era: 0,
            },
        }
    }

    /// Makes the disk that of a new vault, of which all numbers are 0. It crashes the disk first, so that nothing is pending on it.
    /// After an `Err` what is seen is as before, and it may be called again.
    ///
    /// The counter begins at 0 again, so this must be called only where no number was drawn yet, by no vault of this proposer on any
    /// disk: for a proposer whose name is new, and until `start` has answered `Ok` and a number was drawn. Anything else would draw
    /// numbers a second time. A vault whose disk holds a record is reopened instead.
    pub fn start(&mut self) -> Result<(), VaultError>
        ensures counter { OnOk result (counter_of self.new ≡ 0) }
        ensures kept { OnOk result (kept_of self.new ≡ fresh) }
        ensures same_counter { OnErr result (counter_of self.new ≡ counter_of self.old) }
        ensures same { OnErr result (kept_of self.new ≡ kept_of self.old) }
        ensures stands { OnOk result (VaultStands V.tells V.seen V.may_leave self.new) }
        ensures not_spent { IsErrOf result VaultError.Spent → ⊥ }
        ensures not_foreign { IsNotForeign result }
        ensures cause { HasVaultCause result
            (V.fault_count (disk_of self.old)) (V.fault_count (disk_of self.new)) }
    {
        let kept = Kept {
            bound: 0,
            age: 0,
            era: 0,
        };
        self.cells.crash();
        self.cells.format(&spell(&kept))?;
        self.kept = kept;
        self.counter = 0;
        Ok(())
    }

    /// Reads what the disk keeps, and goes on with the counter at the bound. It crashes the disk first, so that nothing is pending on
    /// it and one that stopped answers again. `Foreign` tells the first byte that is not as the format demands: first in the
    /// frames of the cells, then in the record. After an `Err` what is seen is as before.
    pub fn reopen(&mut self) -> Result<(), VaultError>
        // A crash at any moment leaves what a crash might leave before, and what is read is one of these.
        ensures image { V.tells → V.may_leave (disk_of self.old) (V.seen (disk_of self.new)) }
        ensures any_moment { V.tells → LeavesOnly V.moment V.left_since
            (disk_of self.old) (disk_of self.new) (V.may_leave (disk_of self.old)) }
        ensures settled { V.tells
            → Only (V.seen (disk_of self.new)) (V.may_leave (disk_of self.new)) }

        ensures counter { OnOk result (counter_of self.new ≡ (kept_of self.new).bound) }
        ensures reopened { V.tells
            → OnOk result (KeptOn (kept_of self.new) (V.seen (disk_of self.new))) }
        ensures stands { OnOk result (VaultStands V.tells V.seen V.may_leave self.new) }
        ensures past { V.tells
            → (n : ℕ) → IsPast V.may_leave n self.old → IsPast V.may_leave n self.new }

        ensures foreign { V.tells → (at : ℕ)
            → IsErrOf result (VaultError.Foreign at) → IsForeignAt (V.seen (disk_of self.new)) at }
        ensures not_spent { IsErrOf result VaultError.Spent → ⊥ }
        ensures same_counter { OnErr result (counter_of self.new ≡ counter_of self.old) }
        ensures same { OnErr result (kept_of self.new ≡ kept_of self.old) }
        ensures cause { HasVaultCause result
            (V.fault_count (disk_of self.old)) (V.fault_count (disk_of self.new)) }
    {
        self.cells.forget_past();
        self.cells.crash();
        self.cells.recover()?;
        let Some(payload) = self.cells.payload(0) else {
            unreachable!();
        };
        match read(payload) {
            Ok(kept) => {
                self.counter = kept.bound;
                self.kept = kept;
                Ok(())
            }
            Err(wrong) => {
                let place = self.cells.payload_place(0).unwrap_or(0);
                Err(VaultError::Foreign {
                    at: place + wrong as u64,
                })
            }
        }
    }

    /// Draws the next number, which was never drawn before and is never drawn again. Where it is above the bound, a bound that is 99
    /// above it, or 2^48, is on the disk before it is given. `Spent` comes exactly where the counter is 2^48. After an `Err` what is
    /// seen is as before.
    pub fn draw(&mut self) -> Result<u64, VaultError>
        requires { VaultStands V.tells V.seen V.may_leave self.old }
        ensures number { IfOk result (λ n. n ≡ counter_of self.old + 1) }
        ensures counter { OnOk result (counter_of self.new ≡ counter_of self.old + 1) }
        ensures kept { OnOk result
            (kept_of self.new ≡ kept_to_draw (counter_of self.old) (kept_of self.old)) }
        ensures stands { OnOk result (VaultStands V.tells V.seen V.may_leave self.new) }

        // The vault is then past the number, and still past each number that it was past.
        ensures past { V.tells → IfOk result (λ n. IsPast V.may_leave n self.new) }
        ensures still_past { V.tells
            → (n : ℕ) → IsPast V.may_leave n self.old → IsPast V.may_leave n self.new }
        ensures any_moment { V.tells → LeavesOnly V.moment V.left_since
            (disk_of self.old) (disk_of self.new) (KeepsBeforeOrAfter (kept_of self.old)
            (kept_to_draw (counter_of self.old) (kept_of self.old))) }

        ensures spent { IsErrOf result VaultError.Spent ↔ (counter_of self.old ≡ 2 ^ 48) }
        ensures after_spent { IsErrOf result VaultError.Spent
            → VaultStands V.tells V.seen V.may_leave self.new }
        ensures after_no_memory { IsErrOf result VaultError.NoMemory
            → VaultStands V.tells V.seen V.may_leave self.new }
        ensures not_foreign { IsNotForeign result }
        ensures same_counter { OnErr result (counter_of self.new ≡ counter_of self.old) }
        ensures same { OnErr result (kept_of self.new ≡ kept_of self.old) }
        ensures cause { HasVaultCause result
            (V.fault_count (disk_of self.old)) (V.fault_count (disk_of self.new)) }
    {
        if self.counter == LAST_COUNTER {
            return Err(VaultError::Spent);
        }
        let number = self.counter + 1;
        self.cover(number)?;
        self.counter = number;
        Ok(number)
    }

    /// Moves the counter up to this number, which is at most 2^48. It does not fall. The disk is not touched.
    pub fn forward(&mut self, counter: u64)
        requires { counter ≤ 2 ^ 48 }
        ensures counter { counter_of self.new ≡ max (counter_of self.old) counter }
        ensures kept { kept_of self.new ≡ kept_of self.old }
        ensures disk { disk_of self.new ≡ disk_of self.old }
        ensures stands { VaultStands V.tells V.seen V.may_leave self.old
            → VaultStands V.tells V.seen V.may_leave self.new }
        ensures still_past { (n : ℕ)
            → IsPast V.may_leave n self.old → IsPast V.may_leave n self.new }
    {
        self.counter = self.counter.max(counter);
    }

    /// Raises the age by one, and answers it. In the same change the bound rises to the counter, where that is above it. `Spent` comes
    /// exactly where the age is 2^48. After an `Err` what is seen is as before.
    pub fn raise_age(&mut self) -> Result<u64, VaultError>
        requires { VaultStands V.tells V.seen V.may_leave self.old }
        ensures age { IfOk result (λ age. age ≡ (kept_of self.old).age + 1) }
        ensures kept { OnOk result
            (kept_of self.new ≡ kept_one_older (counter_of self.old) (kept_of self.old)) }
        ensures counter { counter_of self.new ≡ counter_of self.old }
        ensures stands { OnOk result (VaultStands V.tells V.seen V.may_leave self.new) }

        // The vault is then past its counter, and still past each number that it was past.
        ensures past { V.tells → OnOk result (IsPast V.may_leave (counter_of self.old) self.new) }
        ensures still_past { V.tells
            → (n : ℕ) → IsPast V.may_leave n self.old → IsPast V.may_leave n self.new }
        ensures any_moment { V.tells → LeavesOnly V.moment V.left_since
            (disk_of self.old) (disk_of self.new) (KeepsBeforeOrAfter (kept_of self.old)
            (kept_one_older (counter_of self.old) (kept_of self.old))) }

        ensures spent { IsErrOf result VaultError.Spent ↔ ((kept_of self.old).age ≡ 2 ^ 48) }
        ensures after_spent { IsErrOf result VaultError.Spent
            → VaultStands V.tells V.seen V.may_leave self.new }
        ensures after_no_memory { IsErrOf result VaultError.NoMemory
            → VaultStands V.tells V.seen V.may_leave self.new }
        ensures not_foreign { IsNotForeign result }
        ensures same { OnErr result (kept_of self.new ≡ kept_of self.old) }
        ensures cause { HasVaultCause result
            (V.fault_count (disk_of self.old)) (V.fault_count (disk_of self.new)) }
    {
        if self.kept.age == LAST_COUNTER {
            return Err(VaultError::Spent);
        }
        let kept = Kept {
            bound: self.kept.bound.max(self.counter),
            age: self.kept.age + 1,
            era: self.kept.era,
        };
        self.keep(kept)?;
        Ok(kept.age)
    }

    /// Enters the era of this number. After an `Err` what is seen is as before.
    pub fn enter_era(&mut self, number: u32) -> Result<(), VaultError>
        requires { VaultStands V.tells V.seen V.may_leave self.old }
        ensures kept { OnOk result (kept_of self.new ≡ kept_in_era number (kept_of self.old)) }
        ensures counter { counter_of self.new ≡ counter_of self.old }
        ensures stands { OnOk result (VaultStands V.tells V.seen V.may_leave self.new) }
        ensures still_past { V.tells
            → (n : ℕ) → IsPast V.may_leave n self.old → IsPast V.may_leave n self.new }
        ensures any_moment { V.tells
            → LeavesOnly V.moment V.left_since (disk_of self.old) (disk_of self.new)
            (KeepsBeforeOrAfter (kept_of self.old) (kept_in_era number (kept_of self.old))) }
        ensures not_spent { IsErrOf result VaultError.Spent → ⊥ }
        ensures after_no_memory { IsErrOf result VaultError.NoMemory
            → VaultStands V.tells V.seen V.may_leave self.new }
        ensures not_foreign { IsNotForeign result }
        ensures same { OnErr result (kept_of self.new ≡ kept_of self.old) }
        ensures cause { HasVaultCause result
            (V.fault_count (disk_of self.old)) (V.fault_count (disk_of self.new)) }
    {
        let kept = Kept {
            era: number,
            ..self.kept
        };
        self.keep(kept)
    }

    /// Crashes the disk. The vault is reopened before it is used again.
    pub fn crash(&mut self)
        ensures image { V.tells → V.may_leave (disk_of self.old) (V.seen (disk_of self.new)) }
        ensures settled { V.tells
            → Only (V.seen (disk_of self.new)) (V.may_leave (disk_of self.new)) }
        ensures time { V.tells → Elapses (V.moment (disk_of self.old))
            (V.moment (disk_of self.new)) (V.left_since (disk_of self.old))
            (V.left_since (disk_of self.new)) (V.may_leave (disk_of self.new)) }
        ensures still_past { V.tells
            → (n : ℕ) → IsPast V.may_leave n self.old → IsPast V.may_leave n self.new }
        ensures counter { counter_of self.new ≡ counter_of self.old }
        ensures kept { kept_of self.new ≡ kept_of self.old }
        ensures never_falls { V.fault_count (disk_of self.old) ≤ V.fault_count (disk_of self.new) }
    {
        self.cells.crash();
    }

    /// The last number that was drawn or forwarded to; after `reopen` the bound.
    pub fn counter(&self) -> u64
        ensures { result ≡ counter_of self.now }
    {
        self.counter
    }

    /// How often the age was raised.
    pub fn age(&self) -> u64
        ensures { result ≡ (kept_of self.now).age }
    {
        self.kept.age
    }

    /// The number of the era.
    pub fn era(&self) -> u32
        ensures { result ≡ (kept_of self.now).era }
    {
        self.kept.era
    }

    /// How often the disk has failed.
    pub fn faults(&self) -> u64
        ensures { result ≡ V.fault_count (disk_of self.now) }
    {
        self.cells.faults()
    }

    /// The disk, without its vault.
    pub fn into_disk(self) -> V
        ensures { result ≡ disk_of self }
    {
        self.cells.into_disk()
    }

    // Sees to it that the bound is not below this number, which comes next.
    fn cover(&mut self, number: u64) -> Result<(), VaultError>
        requires stands { VaultStands V.tells V.seen V.may_leave self.old }
        requires next { number ≡ counter_of self.old + 1 }
        requires fits { number ≤ 2 ^ 48 }
        ensures kept { OnOk result
            (kept_of self.new ≡ kept_to_draw (counter_of self.old) (kept_of self.old)) }
        ensures counter { counter_of self.new ≡ counter_of self.old }
        ensures stands { OnOk result (VaultStands V.tells V.seen V.may_leave self.new) }
        ensures any_moment { V.tells → LeavesOnly V.moment V.left_since
            (disk_of self.old) (disk_of self.new) (KeepsBeforeOrAfter (kept_of self.old)
            (kept_to_draw (counter_of self.old) (kept_of self.old))) }
        ensures after_no_memory { IsErrOf result VaultError.NoMemory
            → VaultStands V.tells V.seen V.may_leave self.new }
        ensures not_spent { IsErrOf result VaultError.Spent → ⊥ }
        ensures not_foreign { IsNotForeign result }
        ensures same { OnErr result (kept_of self.new ≡ kept_of self.old) }
        ensures cause { HasVaultCause result
            (V.fault_count (disk_of self.old)) (V.fault_count (disk_of self.new)) }
    {
        if number <= self.kept.bound {
            return Ok(());
        }
        let kept = Kept {
            bound: (number + AHEAD).min(LAST_COUNTER),
            ..self.kept
        };
        self.keep(kept)
    }

    // Changes what is kept. The disk need not keep what was before this.
    fn keep(&mut self, kept: Kept) -> Result<(), VaultError>
        requires stands { VaultStands V.tells V.seen V.may_leave self.old }
        requires fits { RecordFits kept }
        ensures kept { OnOk result (kept_of self.new ≡ kept) }
        ensures counter { counter_of self.new ≡ counter_of self.old }
        ensures stands { OnOk result (VaultStands V.tells V.seen V.may_leave self.new) }
        ensures any_moment { V.tells → LeavesOnly V.moment V.left_since
            (disk_of self.old) (disk_of self.new) (KeepsBeforeOrAfter (kept_of self.old) kept) }
        ensures after_no_memory { IsErrOf result VaultError.NoMemory
            → VaultStands V.tells V.seen V.may_leave self.new }
        ensures not_spent { IsErrOf result VaultError.Spent → ⊥ }
        ensures not_foreign { IsNotForeign result }
        ensures same { OnErr result (kept_of self.new ≡ kept_of self.old) }
        ensures cause { HasVaultCause result
            (V.fault_count (disk_of self.old)) (V.fault_count (disk_of self.new)) }
    {
        self.cells.forget_past();
        self.write(kept)
    }

    // Changes what is kept, in the three steps of a cell.
    fn write(&mut self, kept: Kept) -> Result<(), VaultError>
        requires stands { VaultStands V.tells V.seen V.may_leave self.old }
        requires fits { RecordFits kept }
        ensures kept { OnOk result (kept_of self.new ≡ kept) }
        ensures counter { counter_of self.new ≡ counter_of self.old }
        ensures stands { OnOk result (VaultStands V.tells V.seen V.may_leave self.new) }
        ensures any_moment { V.tells → ContinuesOnly V.moment V.left_since
            (disk_of self.old) (disk_of self.new) (KeepsBeforeOrAfter (kept_of self.old) kept) }
        ensures after_no_memory { IsErrOf result VaultError.NoMemory
            → VaultStands V.tells V.seen V.may_leave self.new }
        ensures not_spent { IsErrOf result VaultError.Spent → ⊥ }
        ensures not_foreign { IsNotForeign result }
        ensures same { OnErr result (kept_of self.new ≡ kept_of self.old) }
        ensures cause { HasVaultCause result
            (V.fault_count (disk_of self.old)) (V.fault_count (disk_of self.new)) }
    {
        self.cells.close_spare(0)?;
        self.cells.write_spare(0, &spell(&kept))?;
        self.cells.open_spare(0)?;
        self.kept = kept;
        Ok(())
    }
}
