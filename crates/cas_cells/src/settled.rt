//! Writes that are on the disk when they return: some bytes, the gate of a frame, and what stands behind a gate.
ghost use Rattle.std.specs.Prelude.{◌≡◌, ◌≤◌, ◌+◌, ◌*◌, ◌^◌, ◌<◌, ◌∷◌, ◌++◌, [], ℕ, length, drop, slice_index, OnOk, IsErrOf};
ghost use Rattle.cas_disk.specs.Disk.{HoldsBytes, Torn, Only, Keeps, ContinuesOnly, HasCause};
ghost use Rattle.cas_disk.specs.declared.disk.DiskFault.TheVariants.{NoMemory};
ghost use Rattle.cas_cells.specs.Format.{frame_at, frame_size, cell_place, half_size};
ghost use Rattle.cas_cells.specs.Torn.{Others, GateTorn, TailTorn, SameBelow};
ghost use Rattle.cas_cells.specs.Held.{IsShut};
ghost use Rattle.cas_cells.specs.Length.{NotLonger};

use crate::frame::frame_place;
use cas_disk::{Disk, DiskFault};

/// Writes bytes and syncs. Where all was on the disk before, a crash in it leaves that with any bytes in the range.
pub fn put<D: Disk>(disk: &mut D, at: u64, bytes: &[u8]) -> Result<(), DiskFault>
    requires room { D.tells → at ≤ length (D.seen disk.old) }
    ensures held { D.tells
        → OnOk result (HoldsBytes (D.seen disk.old) at bytes.now (D.seen disk.new)) }
    ensures durable { D.tells → OnOk result (Only (D.seen disk.new) (D.may_leave disk.new)) }
    ensures any_moment { D.tells → Only (D.seen disk.old) (D.may_leave disk.old)
        → ContinuesOnly D.moment D.left_since disk.old disk.new
        (Torn at (length bytes.now) (D.seen disk.old)) }
    ensures length { D.tells
        → NotLonger D.moment D.left_since D.may_leave disk.old disk.new (at + length bytes.now) }
    ensures unchanged { D.tells → IsErrOf result NoMemory
        → Keeps (D.seen disk.old) (D.seen disk.new) (D.may_leave disk.old) (D.may_leave disk.new) }
    ensures cause { HasCause result (D.fault_count disk.old) (D.fault_count disk.new) }
{
    disk.write_at(at, bytes)?;
    disk.sync()?;
    Ok(())
}

/// Writes the gate of a frame and syncs.
pub fn write_gate<D: Disk>(disk: &mut D, narrow: u32, frame: u64, gate: u8) -> Result<(), DiskFault>
    requires small { frame < 2 ^ 34 }
    requires whole { D.tells
        → length (frame_at narrow (D.seen disk.old) frame) ≡ frame_size narrow frame }
    requires durable { D.tells → Only (D.seen disk.old) (D.may_leave disk.old) }
    ensures held { D.tells → OnOk result (frame_at narrow (D.seen disk.new) frame
        ≡ gate ∷ drop 1 (frame_at narrow (D.seen disk.old) frame)) }
    ensures others { D.tells
        → OnOk result (Others narrow frame (D.seen disk.old) (D.seen disk.new)) }
    ensures durable { D.tells → OnOk result (Only (D.seen disk.new) (D.may_leave disk.new)) }
    ensures any_moment { D.tells → ContinuesOnly D.moment D.left_since disk.old disk.new
        (GateTorn narrow frame (D.seen disk.old)) }
    ensures unchanged { D.tells → IsErrOf result NoMemory
        → Keeps (D.seen disk.old) (D.seen disk.new) (D.may_leave disk.old) (D.may_leave disk.new) }
    ensures cause { HasCause result (D.fault_count disk.old) (D.fault_count disk.new) }
{
    put(disk, frame_place(narrow, frame), &[gate])
}

/// Writes a front of what stands behind the gate of a frame and syncs. Behind that the frame stays.
pub fn write_tail<D: Disk>(
    disk: &mut D,
    narrow: u32,
    frame: u64,
    tail: &[u8],
) -> Result<(), DiskFault>
    requires small { frame < 2 ^ 34 }
    requires size { length tail.now + 1 ≤ frame_size narrow frame }
    requires whole { D.tells
        → length (frame_at narrow (D.seen disk.old) frame) ≡ frame_size narrow frame }
    requires durable { D.tells → Only (D.seen disk.old) (D.may_leave disk.old) }
    ensures held { D.tells → OnOk result (drop 1 (frame_at narrow (D.seen disk.new) frame)
        ≡ tail.now ++ drop (length tail.now + 1) (frame_at narrow (D.seen disk.old) frame)) }
    ensures torn { D.tells
        → OnOk result (TailTorn narrow frame (D.seen disk.old) (D.seen disk.new)) }
    ensures durable { D.tells → OnOk result (Only (D.seen disk.new) (D.may_leave disk.new)) }
    ensures any_moment { D.tells → ContinuesOnly D.moment D.left_since disk.old disk.new
        (TailTorn narrow frame (D.seen disk.old)) }
    ensures unchanged { D.tells → IsErrOf result NoMemory
        → Keeps (D.seen disk.old) (D.seen disk.new) (D.may_leave disk.old) (D.may_leave disk.new) }
    ensures cause { HasCause result (D.fault_count disk.old) (D.fault_count disk.new) }
{
    put(disk, frame_place(narrow, frame) + 1, tail)
}

/// Writes zeros over a cell and syncs. The cell is then blank.
pub fn write_blank<D: Disk>(disk: &mut D, narrow: u32, index: u32) -> Result<(), DiskFault>
    requires room { D.tells → cell_place narrow index ≤ length (D.seen disk.old) }
    ensures blank { D.tells → OnOk result
        (IsShut (half_size narrow index) (frame_at narrow (D.seen disk.new) (2 * index))
        × IsShut (half_size narrow index) (frame_at narrow (D.seen disk.new) (2 * index + 1))) }
    ensures below { D.tells
        → OnOk result (SameBelow narrow (2 * index) (D.seen disk.old) (D.seen disk.new)) }
    ensures durable { D.tells → OnOk result (Only (D.seen disk.new) (D.may_leave disk.new)) }
    ensures any_moment { D.tells → Only (D.seen disk.old) (D.may_leave disk.old)
        → ContinuesOnly D.moment D.left_since disk.old disk.new
        (SameBelow narrow (2 * index) (D.seen disk.old)) }
    ensures length { D.tells → NotLonger D.moment D.left_since D.may_leave disk.old disk.new
        (cell_place narrow index + 2 * half_size narrow index) }
    ensures unchanged { D.tells → IsErrOf result NoMemory
        → Keeps (D.seen disk.old) (D.seen disk.new) (D.may_leave disk.old) (D.may_leave disk.new) }
    ensures cause { HasCause result (D.fault_count disk.old) (D.fault_count disk.new) }
{
    if index > narrow {
        write_zeros(disk, narrow, index, &[0; 9_216])
    } else {
        write_zeros(disk, narrow, index, &[0; 1_024])
    }
}

/// Writes these zeros over a cell and syncs.
fn write_zeros<D: Disk>(
    disk: &mut D,
    narrow: u32,
    index: u32,
    zeros: &[u8],
) -> Result<(), DiskFault>
    requires size { length zeros.now ≡ 2 * half_size narrow index }
    requires zeros { (k : ℕ) → k < length zeros.now → slice_index zeros.now k ≡ 0 }
    requires room { D.tells → cell_place narrow index ≤ length (D.seen disk.old) }
    ensures blank { D.tells → OnOk result
        (IsShut (half_size narrow index) (frame_at narrow (D.seen disk.new) (2 * index))
        × IsShut (half_size narrow index) (frame_at narrow (D.seen disk.new) (2 * index + 1))) }
    ensures below { D.tells
        → OnOk result (SameBelow narrow (2 * index) (D.seen disk.old) (D.seen disk.new)) }
    ensures durable { D.tells → OnOk result (Only (D.seen disk.new) (D.may_leave disk.new)) }
    ensures any_moment { D.tells → Only (D.seen disk.old) (D.may_leave disk.old)
        → ContinuesOnly D.moment D.left_since disk.old disk.new
        (SameBelow narrow (2 * index) (D.seen disk.old)) }
    ensures length { D.tells → NotLonger D.moment D.left_since D.may_leave disk.old disk.new
        (cell_place narrow index + 2 * half_size narrow index) }
    ensures unchanged { D.tells → IsErrOf result NoMemory
        → Keeps (D.seen disk.old) (D.seen disk.new) (D.may_leave disk.old) (D.may_leave disk.new) }
    ensures cause { HasCause result (D.fault_count disk.old) (D.fault_count disk.new) }
{
    put(disk, frame_place(narrow, 2 * u64::from(index)), zeros)
}
