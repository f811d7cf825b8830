//! Where an acceptor keeps its slots and its least ages.

ghost use Rattle.std.specs.Prelude.{◌≡◌, ◌≤◌, ◌↔◌, ℕ, Ok, Err, None, Option, IfOk, OnOk, OnErr, IsErrOf, take};
ghost use Rattle.std.specs.Option.{option_copied};
ghost use Rattle.cas_slot.specs.Slots.{keys_above, IsFullFor};
ghost use Rattle.cas_slot.specs.Contents.{Contents, nothing, kept_at, with_kept, without_kept, with_raised};
ghost use Rattle.cas_slot.specs.Limits.{SlotBallotsFit, AllBallotsFit};
ghost use Rattle.cas_slot.specs.Shelf.{Left, OnlyLeaves, IsOldOrNew, ShelfLeavesOnly, NothingIsPending, HasShelfCause, IsNeitherFullNorForeign};

use crate::ages::Ages;
use crate::fault::ShelfFault;
use crate::slot::Slot;
use cas_change::Key;
use std::alloc::AllocError;

/// A store of slots by key and of least ages, which outlives a crash.
///
/// A shelf is started or reopened before it is changed, and again after a crash and after [`ShelfFault::DiskFault`]. What it
/// tells of crashes is so where its disk keeps the model of crashes; all else holds on every disk.
pub trait Shelf {
    /// What the shelf tells of crashes is so.
    ghost tells: { Type 0 };

    /// The slots and the least ages.
    ghost contents: { Self → Contents };

    /// The shelf was started or reopened, and neither crashed nor failed since.
    ghost is_up: { Self → Type 0 };

    /// What a crash at this moment may leave.
    ghost may_leave: { Self → Left → Type 0 };

    /// The moment, as a number that does not fall.
    ghost moment: { Self → ℕ };

    /// What a crash at some moment from that one on might have left, during a call or between two. Each change of a shelf lets
    /// go of the moments before it began; of them nothing is told.
    ghost left_since: { Self → ℕ → Left → Type 0 };

    /// How often the shelf's disk has failed. At the greatest `u64` the count stands still.
    ghost fault_count: { Self → ℕ };

    /// Makes the shelf anew: it has no slot, and each least age is 0. It crashes its disk first, so that nothing is pending
    /// there. After an `Err` what is seen is as before, and it may be called again. [`ShelfFault::DiskFault`] comes only where
    /// the count of faults rose, and else [`ShelfFault::NoMemory`] alone comes. What a crash within this call leaves is not
    /// said.
    fn start(&mut self) -> Result<(), ShelfFault>
        ensures started { OnOk result (contents self.new ≡ nothing) }
        ensures err { OnErr result (contents self.new ≡ contents self.old) }
        ensures up { OnOk result (is_up self.new) }
        ensures other { IsNeitherFullNorForeign result }
        ensures cause { HasShelfCause result (fault_count self.old) (fault_count self.new) };

    /// Takes up what a crash left. It crashes its disk first, so that nothing is pending there. [`ShelfFault::Foreign`] tells
    /// that what was left is no shelf; [`ShelfFault::DiskFault`] comes only where the count of faults rose;
    /// [`ShelfFault::Full`] never comes. After an `Err` what is seen is as before, a crash leaves nothing that it might not
    /// leave before, and it may be called again.
    fn reopen(&mut self) -> Result<(), ShelfFault>
        ensures reopened { tells → OnOk result (may_leave self.old (Ok (contents self.new))) }
        ensures err { OnErr result (contents self.new ≡ contents self.old) }
        ensures foreign { tells
            → (at : ℕ) → IsErrOf result (ShelfFault.Foreign at) → may_leave self.old (Err at) }
        ensures up { OnOk result (is_up self.new) }
        ensures any_moment { tells
            → ShelfLeavesOnly moment left_since self.old self.new (may_leave self.old) }
        ensures not_full { IsErrOf result ShelfFault.Full → ⊥ }
        ensures cause { HasShelfCause result (fault_count self.old) (fault_count self.new) };

    /// Crashes. Nothing is pending then: it left one of those that a crash might leave, and a further crash leaves that again.
    /// The shelf is reopened before it is changed.
    fn crash(&mut self)
        ensures settled { tells → NothingIsPending (may_leave self.old) (may_leave self.new) }
        ensures any_moment { tells
            → ShelfLeavesOnly moment left_since self.old self.new (may_leave self.old) }
        ensures never_falls { fault_count self.old ≤ fault_count self.new };

    /// A copy of the slot of the key, if there is one.
    fn get(&self, key: &Key) -> Result<Option<Slot>, AllocError>
        ensures { IfOk result (λ slot. slot ≡ kept_at (contents self.now) key.now) };

    /// The least ages.
    fn ages(&self) -> Ages
        ensures { result ≡ (contents self.now).ages };

    /// The first `most` keys above this one that have a slot, or the first `most` of all, in the order of their bytes.
    fn keys_after(&self, after: Option<&Key>, most: usize) -> Result<Vec<Key>, AllocError>
        ensures { IfOk result (λ keys. keys.items ≡ take most
            (keys_above (contents self.now).slots (option_copied after.entry))) };

    /// Puts the slot, whose ballots have counters up to 2^48 and proposers up to 16, at the key, in the place of the one that
    /// was there. A crash within the call leaves what was there before or what is there after it, and after `Ok` only the
    /// latter. [`ShelfFault::Full`] comes exactly where there are 4,096 slots and none of them has the key;
    /// [`ShelfFault::DiskFault`] only where the count of faults rose.
    fn put(&mut self, key: &Key, slot: Slot) -> Result<(), ShelfFault>
        requires up { is_up self.old }
        requires fits { SlotBallotsFit slot }
        ensures ok { OnOk result (contents self.new ≡ with_kept (contents self.old) key.now slot) }
        ensures err { OnErr result (contents self.new ≡ contents self.old) }
        ensures up { OnOk result (is_up self.new) }
        ensures up_still { IsErrOf result ShelfFault.NoMemory → is_up self.new }
        ensures full { IsErrOf result ShelfFault.Full ↔ IsFullFor
            (contents self.old).slots key.now }
        ensures up_when_full { IsErrOf result ShelfFault.Full → is_up self.new }
        ensures untouched_when_full { tells
            → IsErrOf result ShelfFault.Full → ShelfLeavesOnly moment left_since self.old self.new
            (λ left. left ≡ Ok (contents self.old)) }
        ensures not_foreign { (at : ℕ) → IsErrOf result (ShelfFault.Foreign at) → ⊥ }
        ensures any_moment { tells → ShelfLeavesOnly moment left_since self.old self.new
            (IsOldOrNew (contents self.old) (with_kept (contents self.old) key.now slot)) }
        ensures cause { HasShelfCause result (fault_count self.old) (fault_count self.new) };

    /// Removes the slot of the key; where there is none, nothing changes. A crash within the call leaves what was there before
    /// or what is there after it, and after `Ok` only the latter. [`ShelfFault::DiskFault`] comes only where the count of
    /// faults rose, and else [`ShelfFault::NoMemory`] alone comes.
    fn drop_slot(&mut self, key: &Key) -> Result<(), ShelfFault>
        requires { is_up self.old }
        ensures ok { OnOk result (contents self.new ≡ without_kept (contents self.old) key.now) }
        ensures err { OnErr result (contents self.new ≡ contents self.old) }
        ensures up { OnOk result (is_up self.new) }
        ensures up_still { IsErrOf result ShelfFault.NoMemory → is_up self.new }
        ensures other { IsNeitherFullNorForeign result }
        ensures any_moment { tells → ShelfLeavesOnly moment left_since self.old self.new
            (IsOldOrNew (contents self.old) (without_kept (contents self.old) key.now)) }
        ensures cause { HasShelfCause result (fault_count self.old) (fault_count self.new) };

    /// Raises each proposer's least age to the greater of the two. A crash within the call leaves what was there before or
    /// what is there after it, and after `Ok` only the latter. [`ShelfFault::DiskFault`] comes only where the count of faults
    /// rose, and else [`ShelfFault::NoMemory`] alone comes.
    fn raise_ages(&mut self, least: &Ages) -> Result<(), ShelfFault>
        requires { is_up self.old }
        ensures ok { OnOk result (contents self.new ≡ with_raised (contents self.old) least.now) }
        ensures err { OnErr result (contents self.new ≡ contents self.old) }
        ensures up { OnOk result (is_up self.new) }
        ensures up_still { IsErrOf result ShelfFault.NoMemory → is_up self.new }
        ensures other { IsNeitherFullNorForeign result }
        ensures any_moment { tells → ShelfLeavesOnly moment left_since self.old self.new
            (IsOldOrNew (contents self.old) (with_raised (contents self.old) least.now)) }
        ensures cause { HasShelfCause result (fault_count self.old) (fault_count self.new) };

    /// How often the shelf's disk has failed.
    fn faults(&self) -> u64
        ensures { result ≡ fault_count self.now };

    /// A crash of a shelf that is up leaves what it holds and nothing else.
    ghost up_is_kept: { (shelf : Self) → tells → is_up shelf → OnlyLeaves (contents shelf) (may_leave shelf) };

    /// The ballots of each slot are within their limits, if the shelf is up.
    ghost ballots_fit: { (shelf : Self) → is_up shelf → AllBallotsFit (contents shelf) };

    /// This moment is one of those since an earlier one.
    ghost counts_now: { (shelf : Self) (t : ℕ) (left : Left) → tells → t ≤ moment shelf → may_leave shelf left → left_since shelf t left };

    /// Since this moment there is no other.
    ghost only_now: { (shelf : Self) (left : Left) → tells → left_since shelf (moment shelf) left → may_leave shelf left };
}
