//! What a disk is to its users: its calls, what a read gives, and what a crash may leave. No disk lives here.
ghost use Rattle.std.specs.Prelude.{◌≡◌, ◌-◌, ◌≤◌, List, ℕ, min, length, take, drop, IfOk, OnOk, IfErr, IsErrOf};
ghost use Rattle.cas_base.specs.Faults.{FailsByCount};
ghost use Rattle.cas_disk.specs.declared.disk.DiskFault.TheVariants.{NoMemory};
ghost use Rattle.cas_disk.specs.Disk.{HoldsBytes, Torn, OutcomesFollow, Only, Keeps, Elapses, HasCause};

use std::alloc::{AllocError, AllocFailed};

/// Why a disk did not do what it was asked.
#[derive(Clone, Copy, Debug, PartialEq, Eq)]
pub enum DiskFault {
    /// The disk failed, and its count of faults rose.
    Failed,
    /// No memory was found. Nothing changed.
    NoMemory,
}

impl From<AllocError> for DiskFault {
    ghost from_gives = { λ _ e. e ≡ NoMemory };

    fn from(_: AllocError) -> Self {
        DiskFault::NoMemory
    }
}

impl<T: Drop> From<AllocFailed<T>> for DiskFault {
    ghost from_gives = { λ _ e. e ≡ NoMemory };

    fn from(_: AllocFailed<T>) -> Self {
        DiskFault::NoMemory
    }
}

/// A row of bytes that outlives a crash.
///
/// A disk that keeps the model of crashes tells its content, and each clause on content holds for such a disk. A disk that
/// tells nothing, as a real file of which no proof can speak, meets this trait too. Every disk counts its faults.
pub trait Disk {
    /// The disk keeps the model: what it tells of its content and of crashes is so.
    ghost tells: { Type 0 };

    /// The bytes that a read gives.
    ghost seen: { Self → List ℕ };

    /// What a crash at this moment may leave.
    ghost may_leave: { Self → List ℕ → Type 0 };

    /// The moment, as a number that does not fall.
    ghost moment: { Self → ℕ };

    /// What a crash at some moment from that one on might have left, during a call or between two. Nothing is known of a moment before
    /// the last `forget_past`: it may be everything.
    ghost left_since: { Self → ℕ → List ℕ → Type 0 };

    /// How often the disk has failed. At the greatest `u64` the count stands still.
    ghost fault_count: { Self → ℕ };

    /// How many bytes there are. `Failed` comes only where the count of faults rose. Whatever the answer, the content stays.
    fn len(&mut self) -> Result<u64, DiskFault>
        ensures told { tells → IfOk result (λ n. n ≡ length (seen self.old)) }
        ensures kept { tells
            → Keeps (seen self.old) (seen self.new) (may_leave self.old) (may_leave self.new) }
        ensures time { tells → Elapses (moment self.old)
            (moment self.new) (left_since self.old) (left_since self.new) (may_leave self.new) }
        ensures cause { HasCause result (fault_count self.old) (fault_count self.new) };

    /// Puts the bytes from `at` on into the front of `buf` and answers how many: as many as there are, or as `buf` has room
    /// for. `Failed` comes only where the count of faults rose. Whatever the answer, the content stays.
    fn read(&mut self, at: u64, buf: &mut [u8]) -> Result<usize, DiskFault>
        ensures within { IfOk result (λ n. n ≤ length buf.old) }
        ensures all { tells
            → IfOk result (λ n. n ≡ min (length buf.old) (length (seen self.old) - at)) }
        ensures bytes { tells
            → IfOk result (λ n. take n buf.new ≡ take n (drop at (seen self.old))) }
        ensures kept { tells
            → Keeps (seen self.old) (seen self.new) (may_leave self.old) (may_leave self.new) }
        ensures time { tells → Elapses (moment self.old)
            (moment self.new) (left_since self.old) (left_since self.new) (may_leave self.new) }
        ensures cause { HasCause result (fault_count self.old) (fault_count self.new) };

    /// Writes over what is there, and past the end. Until a sync a crash may leave any bytes in the range and past the old
    /// end, also where the call failed. `Failed` comes only where the count of faults rose. After `NoMemory` nothing changed.
    fn write_at(&mut self, at: u64, bytes: &[u8]) -> Result<(), DiskFault>
        requires { tells → at ≤ length (seen self.old) }
        ensures written { tells
            → OnOk result (HoldsBytes (seen self.old) at bytes.now (seen self.new)) }
        ensures unchanged { tells → IsErrOf result NoMemory
            → Keeps (seen self.old) (seen self.new) (may_leave self.old) (may_leave self.new) }
        ensures crash { tells → OutcomesFollow (Torn at (length bytes.now))
            (may_leave self.old) (may_leave self.new) }
        ensures time { tells → Elapses (moment self.old)
            (moment self.new) (left_since self.old) (left_since self.new) (may_leave self.new) }
        ensures cause { HasCause result (fault_count self.old) (fault_count self.new) };

    /// After it a crash leaves what a read gives. Its only error is `Failed`, which comes only where the count of faults rose.
    fn sync(&mut self) -> Result<(), DiskFault>
        ensures durable { tells → OnOk result (Only (seen self.new) (may_leave self.new)) }
        ensures same { tells → OnOk result (seen self.new ≡ seen self.old) }
        ensures crash { tells → (c : List ℕ) → may_leave self.new c → may_leave self.old c }
        ensures time { tells → Elapses (moment self.old)
            (moment self.new) (left_since self.old) (left_since self.new) (may_leave self.new) }
        ensures failed { IsErrOf result NoMemory → ⊥ }
        ensures cause { FailsByCount result (fault_count self.old) (fault_count self.new) };

    /// Crashes. Afterwards a read gives one of the contents that a crash might leave, and nothing is pending.
    fn crash(&mut self)
        ensures image { tells → may_leave self.old (seen self.new) }
        ensures settled { tells → Only (seen self.new) (may_leave self.new) }
        ensures time { tells → Elapses (moment self.old)
            (moment self.new) (left_since self.old) (left_since self.new) (may_leave self.new) }
        ensures never_falls { fault_count self.old ≤ fault_count self.new };

    /// Tells that nobody will ask of moments before this one, so that the disk need not keep what speaks of them. The content, what
    /// a crash may leave and the moment stay.
    fn forget_past(&mut self)
        ensures kept { tells
            → Keeps (seen self.old) (seen self.new) (may_leave self.old) (may_leave self.new) }
        ensures now { tells → moment self.new ≡ moment self.old }
        ensures faults { fault_count self.new ≡ fault_count self.old };

    /// How often the disk has failed.
    fn faults(&self) -> u64
        ensures { result ≡ fault_count self.now };

    /// What a read gives is one of the contents that a crash may leave.
    ghost seen_may_stay: { (disk : Self) → tells → may_leave disk (seen disk) };

    /// This moment is one of those since an earlier one.
    ghost counts_now: { (disk : Self) (t : ℕ) (c : List ℕ) → tells → t ≤ moment disk → may_leave disk c → left_since disk t c };

    /// Since this moment there is no other.
    ghost only_now: { (disk : Self) (c : List ℕ) → tells → left_since disk (moment disk) c → may_leave disk c };
}
