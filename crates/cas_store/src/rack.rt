//! The disks of a cluster, and whether they are empty.

ghost use Rattle.std.specs.Prelude.{◌≡◌, ◌+◌, ◌≤◌, vec_len, IfErr, OnOk};
ghost use Rattle.cas_store.specs.Rack.{rack_meaning, IsFoundEmpty, IsWhyNot, AreFoundEmptyBelow, OneIsNot, IsAllEmpty, IsNotEmpty};

use cas_disk::{Disk, DiskFault};
use thiserror::Error;

/// How many disks of acceptors a rack has. The disks of the vaults are numbered from there on.
pub const ACCEPTORS: u8 = 64;

/// How many disks of vaults a rack has.
pub const VAULTS: u8 = 17;

/// The disks of a cluster: 64 of acceptors and 17 of vaults, each at the place of its number. In faults the disks of the acceptors
/// are 0 to 63, and 64 to 80 are those of the vaults of the proposers from 0 to 16.
#[derive(Drop)]
pub struct Rack<D> {
    /// One for each acceptor that there may be.
    pub acceptors: Vec<D>,
    /// One for the vault of each proposer that there may be.
    pub vaults: Vec<D>,
}

/// Why the disks of a rack are not known to be empty.
#[derive(Clone, Copy, Debug, PartialEq, Eq, Error)]
pub enum RackFault {
    /// The length of the disk of this number, from 0 to 80, is not 0.
    #[error("disk {disk} is not empty")]
    NotEmpty { disk: u8 },
    /// The disk of this number, from 0 to 80, failed.
    #[error("disk {disk} failed")]
    DiskFault { disk: u8 },
    /// There was no memory.
    #[error("there is no memory")]
    NoMemory,
}

impl<D: Disk> Rack<D> {
    /// Whether all disks are empty: they are asked for their lengths in the order of their numbers, up to the first that is not empty
    /// or gives none. Whatever the answer, their contents stay, and those behind that one are not reached.
    ///
    /// [`RackFault::NotEmpty`] comes exactly where a length is not 0 and no disk before it failed, with the least such number;
    /// [`RackFault::DiskFault`] only where that disk's count of faults rose.
    pub fn expect_empty(&mut self) -> Result<(), RackFault>
        requires acceptors { vec_len self.old.acceptors ≡ 64 }
        requires vaults { vec_len self.old.vaults ≡ 17 }
        ensures ok { OnOk result (IsAllEmpty (rack_meaning D.Disk) self.old self.new) }
        ensures err { IfErr result
            (λ fault. IsNotEmpty (rack_meaning D.Disk) self.old fault self.new) }
        ensures all_acceptors { vec_len self.new.acceptors ≡ 64 }
        ensures all_vaults { vec_len self.new.vaults ≡ 17 }
    {
        expect_all_empty(&mut self.acceptors, 0, ACCEPTORS)?;
        expect_all_empty(&mut self.vaults, ACCEPTORS, VAULTS)
    }
}

/// Asks so many disks for their lengths, which are numbered from this number on.
fn expect_all_empty<D: Disk>(disks: &mut Vec<D>, first: u8, count: u8) -> Result<(), RackFault>
    requires all { vec_len disks.old ≡ count }
    requires numbers { first + count ≤ 81 }
    ensures ok { OnOk result
        (AreFoundEmptyBelow (rack_meaning D.Disk) disks.old.items count disks.new.items) }
    ensures err { IfErr result
        (λ fault. OneIsNot (rack_meaning D.Disk) first disks.old.items fault disks.new.items) }
{
    for place in 0..count {
        expect_one_empty(&mut disks[usize::from(place)], first + place)?;
    }
    Ok(())
}

/// Asks the disk of this number for its length.
fn expect_one_empty<D: Disk>(disk: &mut D, number: u8) -> Result<(), RackFault>
    ensures ok { OnOk result (IsFoundEmpty (rack_meaning D.Disk) disk.old disk.new) }
    ensures err { IfErr result
        (λ fault. IsWhyNot (rack_meaning D.Disk) number disk.old fault disk.new) }
{
    match disk.len() {
        Ok(length) => {
            if length > 0 {
                return Err(RackFault::NotEmpty { disk: number });
            }
            Ok(())
        }
        Err(DiskFault::Failed) => Err(RackFault::DiskFault { disk: number }),
        Err(DiskFault::NoMemory) => Err(RackFault::NoMemory),
    }
}
