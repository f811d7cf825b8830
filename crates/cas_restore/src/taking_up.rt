//! The shelves of all members, which are taken up as they were left.

ghost use Rattle.std.specs.Prelude.{◌≡◌, ◌<◌, vec_len, OnOk, IfErr};
ghost use Rattle.cas_restore.specs.Members.{MembersBecome, ChangesAt};
ghost use Rattle.cas_restore.specs.TakingUp.{IsShelfTakenUp, LeavesNoMore, IsNotTakenUp, OneIsRefused};

use crate::members::{ACCEPTORS, RestoreFault};
use cas_ballot::{AcceptorId, Members};
use cas_slot::Shelf;

/// Takes up what was left on the shelf of each member, in the order of their numbers, up to the first that is refused. There is a
/// shelf for each identity of an acceptor.
///
/// Whatever the answer, a crash leaves nothing of a shelf that it might not have left before. [`ShelfFault::Foreign`] tells that what
/// was left of that member's shelf is none, and [`ShelfFault::DiskFault`] comes only where its count of faults rose; else
/// [`ShelfFault::NoMemory`] alone comes. The same call may be made again.
///
/// [`ShelfFault::Foreign`]: cas_slot::ShelfFault::Foreign
/// [`ShelfFault::DiskFault`]: cas_slot::ShelfFault::DiskFault
/// [`ShelfFault::NoMemory`]: cas_slot::ShelfFault::NoMemory
pub fn take_up_members<S: Shelf>(shelves: &mut Vec<S>, members: Members) -> Result<(), RestoreFault>
    requires all { vec_len shelves.old ≡ ACCEPTORS }
    ensures ok { OnOk result (MembersBecome members
        (IsShelfTakenUp S.tells S.contents S.is_up S.may_leave)
        shelves.old.items shelves.new.items) }
    ensures err { IfErr result (λ fault. OneIsRefused S.tells S.may_leave
        S.fault_count members fault shelves.old.items shelves.new.items) }
    ensures leaves { MembersBecome members (LeavesNoMore S.tells S.may_leave
        S.fault_count) shelves.old.items shelves.new.items }
{
    for number in 0..ACCEPTORS {
        let id = AcceptorId::new(number).unwrap();
        if members.has(id) {
            take_up_at(shelves, number)?;
        }
    }
    Ok(())
}

/// Takes up what was left on the shelf of this number.
fn take_up_at<S: Shelf>(shelves: &mut Vec<S>, number: u8) -> Result<(), RestoreFault>
    requires within { number < vec_len shelves.old }
    ensures ok { OnOk result (ChangesAt number
        (IsShelfTakenUp S.tells S.contents S.is_up S.may_leave)
        shelves.old.items shelves.new.items) }
    ensures err { IfErr result (λ fault. (fault.member ≡ number) × ChangesAt number
        (IsNotTakenUp S.tells S.may_leave S.fault_count fault)
        shelves.old.items shelves.new.items) }
    ensures leaves { ChangesAt number (LeavesNoMore S.tells S.may_leave
        S.fault_count) shelves.old.items shelves.new.items }
{
    match shelves[usize::from(number)].reopen() {
        Ok(()) => Ok(()),
        Err(fault) => Err(RestoreFault {
            member: number,
            fault,
        }),
    }
}
