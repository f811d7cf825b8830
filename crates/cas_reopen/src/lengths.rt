//! Which disks are not empty.

ghost use Rattle.std.specs.Prelude.{◌≡◌, ◌+◌, ◌≤◌, ℕ, true, false, vec_len, IsTrue, IfOk, IfErr};
ghost use Rattle.cas_ballot.specs.Members.{has_member};
ghost use Rattle.cas_store.specs.Rack.{rack_meaning};
ghost use Rattle.cas_reopen.specs.Filled.{IsFoundFilled, GivesNoLength, AreFoundFilled, OneGivesNoLength, AreLengthsOf, RackGivesNoLength};
ghost use Rattle.cas_reopen.specs.Closed.{IsSomeFilled};

use crate::fault::{ReopenFault, fault_of_asking};
use cas_ballot::{AcceptorId, Members};
use cas_disk::{Disk, DiskFault};
use cas_store::{ACCEPTORS, Rack};

/// Why it is not known which disks are empty.
#[derive(Clone, Copy, Debug, PartialEq, Eq)]
pub struct FilledFault {
    /// The number of the disk that gave no length.
    pub disk: u8,
    /// [`DiskFault::Failed`] comes only where the count of faults of that disk rose.
    pub fault: DiskFault,
}

/// At which places the disks of a rack are not empty.
#[derive(Clone, Copy, Debug)]
pub(crate) struct FilledDisks {
    /// Among the disks of the acceptors.
    pub acceptors: Members,
    /// Among those of the vaults.
    pub vaults: Members,
}

impl FilledDisks {
    /// Whether all disks are empty.
    pub fn are_zero(&self) -> bool
        ensures none { IsTrue result → (id : ℕ) → (has_member self.now.acceptors id ≡ false)
            × (has_member self.now.vaults id ≡ false) }
        ensures some { result ≡ false → IsSomeFilled self.now.acceptors self.now.vaults }
    {
        self.acceptors.end() == 0 && self.vaults.end() == 0
    }
}

/// Asks all disks of a rack for their lengths, in the order of their numbers, up to the first that gives none. Their contents stay.
pub(crate) fn lengths_of<D: Disk>(rack: &mut Rack<D>) -> Result<FilledDisks, ReopenFault>
    requires acceptors { vec_len rack.old.acceptors ≡ 64 }
    requires vaults { vec_len rack.old.vaults ≡ 17 }
    ensures ok { IfOk result (λ lengths. AreLengthsOf (rack_meaning D.Disk)
        lengths.acceptors lengths.vaults rack.old rack.new) }
    ensures err { IfErr result
        (λ fault. RackGivesNoLength (rack_meaning D.Disk) rack.old rack.new fault) }
    ensures all_acceptors { vec_len rack.new.acceptors ≡ 64 }
    ensures all_vaults { vec_len rack.new.vaults ≡ 17 }
{
    let acceptors = match filled(&mut rack.acceptors, 0) {
        Ok(acceptors) => acceptors,
        Err(fault) => return Err(fault_of_asking(fault)),
    };
    match filled(&mut rack.vaults, ACCEPTORS) {
        Ok(vaults) => Ok(FilledDisks { acceptors, vaults }),
        Err(fault) => Err(fault_of_asking(fault)),
    }
}

/// At which places of a row these disks, which are numbered from `first` on, are not empty: each is asked for its length, in the order
/// of their numbers, up to the first that gives none. There are 64 disks at most.
///
/// Whatever the answer, the contents of all disks stay. A fault names the disk that gave no length, and those behind it are not
/// reached.
pub fn filled<D: Disk>(disks: &mut Vec<D>, first: u8) -> Result<Members, FilledFault>
    requires few { vec_len disks.old ≤ 64 }
    requires numbers { first + vec_len disks.old ≤ 256 }
    ensures ok { IfOk result (λ found. AreFoundFilled
        (rack_meaning D.Disk) found disks.old.items disks.new.items) }
    ensures err { IfErr result (λ fault. OneGivesNoLength
        (rack_meaning D.Disk) first fault disks.old.items disks.new.items) }
{
    let mut found = Members::EMPTY;
    let count = disks.len() as u8;
    for place in 0..count {
        let id = AcceptorId::new(place).unwrap();
        if is_filled(&mut disks[usize::from(place)], first + place)? {
            found.insert(id);
        }
    }
    Ok(found)
}

/// Whether the disk of this number is not empty.
fn is_filled<D: Disk>(disk: &mut D, number: u8) -> Result<bool, FilledFault>
    ensures ok { IfOk result
        (λ some. IsFoundFilled (rack_meaning D.Disk) some disk.old disk.new) }
    ensures err { IfErr result (λ fault. (fault.disk ≡ number)
        × GivesNoLength (rack_meaning D.Disk) fault.fault disk.old disk.new) }
{
    match disk.len() {
        Ok(length) => Ok(length > 0),
        Err(fault) => Err(FilledFault {
            disk: number,
            fault,
        }),
    }
}
