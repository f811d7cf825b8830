//! One read, from its key to its answer.

ghost use Rattle.std.specs.Prelude.{◌≡◌, ◌⊎◌, reverse};
ghost use Rattle.cas_record.specs.Legal.{IsLegal};
ghost use Rattle.cas_board.specs.Passes.{IsPassOf};
ghost use Rattle.cas_board_steps.specs.Calls.Open.{NothingIsOpen, rescanned_in};
ghost use Rattle.cas_read.specs.Read.{HasReadByLook, IsAnswerSo};

use cas_board::{Board, Look, Pass};
use cas_change::Key;
use cas_disk::Disk;
use cas_fate::Fate;
use cas_record::{Answer, ReadAnswer};
use std::sync::Wait;

/// Reads the key as a call of the operator: asks each member what it keeps for it, and answers what they agree on, or why they agree on
/// nothing. No member writes anything. The pass is caller 0's. What becomes of each frame the fate says, and it is asked while this call does
/// not hold the turn.
///
/// What is answered is made from a look of the board ([`Board::look`]), and an answer [`ReadAnswer::Stopped`] is what stopped that. If there is no
/// memory for the key, it is [`Answer::NoMemory`], and nothing happened. Where disks tell what they keep, a state at a ballot above zero is what
/// the history up to that ballot leaves. This history goes on from what was settled in the front before the call, and begins what is settled in
/// the front then. At ballot zero, what was settled in the front before the call leaves the empty state.
pub fn read<R: Wait, D: Disk, F: Fate>(
    board: &Board<D>,
    rt: &R,
    pass: &mut Pass<D>,
    fate: &mut F,
    key: &Key,
) -> ReadAnswer
    requires pass { IsPassOf board.now pass.old }
    requires operator { pass.old.number ≡ 0 }
    requires free { NothingIsOpen pass.old.own }
    ensures pass { pass.new ≡ record pass.old { seen = pass.new.seen; own = pass.new.own } }
    ensures free { NothingIsOpen pass.new.own }
    ensures reads { HasReadByLook D.tells key.now
        (F.harm_count fate.old) (F.harm_count fate.new) pass.old pass.new result }
    ensures truly { D.tells → IsAnswerSo pass.old.seen pass.new.seen result }
    ensures counted { rescanned_in pass.new.own ≡ rescanned_in pass.old.own }
    ensures legal { D.tells → (pass.new ≡ pass.old) ⊎ IsLegal (reverse pass.new.seen) }
{
    let Ok(named) = key.copy() else {
        return ReadAnswer::Stopped(Answer::NoMemory { proposed: false });
    };
    match board.look(rt, pass, fate, key) {
        Ok(Look { agreement, found }) => ReadAnswer::of(named, agreement, found),
        Err(why) => ReadAnswer::Stopped(why),
    }
}
