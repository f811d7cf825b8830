//! A collection that is under way: the steps that lead to the removal of a deleted key's slots, and what came of them.

ghost use Rattle.std.specs.Prelude.{◌≡◌, ◌≤◌, ◌∷◌, ◌++◌, [], length};
ghost use Rattle.cas_model.specs.Collection.State.{new_collection, confirmed_step, called, tomb_of, ages_of, FoundHeld as HeldView, Acknowledged as AcknowledgedView};
ghost use Rattle.cas_world_calls.specs.Collection.{tombstone_view};
ghost use Rattle.cas_collect.specs.declared.collect.CollectStep.TheVariants.{Floor as FloorStep};

use cas_ballot::{Ballot, Members};
use cas_change::Key;
use cas_collect::{Collect, CollectStep};
use cas_quorum::Era;
use cas_slot::Ages;
use std::marker::Model;

/// What became of the round that proposes the tombstone.
#[derive(Clone, Copy)]
pub enum Tombstone {
    /// None was acknowledged yet, and the key was not read as held.
    Sought,
    /// The key holds a state of this version, and nothing was proposed.
    FoundHeld { version: u64 },
    /// The empty state was acknowledged at this ballot, by these acceptors.
    Acknowledged { ballot: Ballot, by: Members },
}

/// A deletion of one key that is under way.
#[derive(Drop)]
pub struct OpenCollection {
    course: Collect,
    calling: bool,
    tombstone: Tombstone,
    /// The new age of each proposer that was renewed, and 0 for the others.
    least: Ages,
    /// The proposers below this number were renewed.
    renewed: u8,
    removed: u32,
    kept: u32,
    reserved: usize,
    /// The key that the mark of its floor is to bear, until that is made.
    for_floor: Option<Key>,
}

impl Model for OpenCollection {
    ghost use Rattle.std.specs.Prelude.{take};
    ghost use Rattle.cas_model.specs.Collection.State.{CollectionView};
    ghost use Rattle.cas_world_calls.specs.Collection.{tombstone_view, IsOpenCollection};

    ghost Value = { CollectionView };

    ghost view = { λ c. record {
      course = c.course;
      calling = c.calling;
      tombstone = tombstone_view c.tombstone;
      ages = take c.renewed c.least.0;
      removed = c.removed;
      kept = c.kept;
      reserved = c.reserved;
    } };

    ghost invariant = { λ c. IsOpenCollection c.renewed c.least c.course c.for_floor };
}

impl OpenCollection {
    /// The collection of the key in that era, with the proposers 0 to `proposers`, whose call begins. The mark of its floor is to bear
    /// the second key, which is the same.
    pub fn begin(key: Key, for_floor: Key, era: &Era, proposers: u8) -> OpenCollection
        requires { for_floor ≡ key }
        ensures { result ≡ new_collection key era.now proposers }
    {
        OpenCollection {
            course: Collect::begin(key, proposers, era),
            calling: true,
            tombstone: Tombstone::Sought,
            least: Ages::ZERO,
            renewed: 0,
            removed: 0,
            kept: 0,
            reserved: 0,
            for_floor: Some(for_floor),
        }
    }

    /// The key that is collected.
    pub fn key(&self) -> &Key
        ensures { result.now ≡ self.now.course.key }
    {
        self.course.key()
    }

    /// The step that comes next.
    pub fn next(&self) -> CollectStep
        ensures { result ≡ self.now.course.step }
    {
        self.course.next()
    }

    /// What became of its round.
    pub fn tombstone(&self) -> Tombstone
        ensures { tombstone_view result ≡ self.now.tombstone }
    {
        self.tombstone
    }

    /// The ballot of its tombstone, or zero where none was acknowledged.
    pub fn tomb(&self) -> Ballot
        ensures { result ≡ tomb_of self.now.tombstone }
    {
        match self.tombstone {
            Tombstone::Acknowledged { ballot, .. } => ballot,
            _ => Ballot::ZERO,
        }
    }

    /// The least ages that all members are told: of each proposer the one to which it was renewed.
    pub fn least(&self) -> Ages
        ensures { result ≡ ages_of self.now.ages }
    {
        self.least
    }

    /// How many members removed their slot at the end, and how many kept it for a later change.
    pub fn removals(&self) -> (u32, u32)
        ensures { result ≡ (self.now.removed, self.now.kept) }
    {
        (self.removed, self.kept)
    }

    /// How many marks are reserved for it still: that of its floor.
    pub fn reserved(&self) -> usize
        ensures { result ≡ self.now.reserved }
    {
        self.reserved
    }

    /// Its round read a held state of this version, and its call is over.
    pub fn read_held(&mut self, version: u64)
        ensures { self.new ≡ record (called self.old) { tombstone = HeldView version } }
    {
        self.calling = false;
        self.tombstone = Tombstone::FoundHeld { version };
    }

    /// Its round acknowledged a held state of this version.
    pub fn find_held(&mut self, version: u64)
        ensures { self.new ≡ record self.old { tombstone = HeldView version } }
    {
        self.tombstone = Tombstone::FoundHeld { version };
    }

    /// The empty state was acknowledged in its round at this ballot, by these acceptors. From now on a mark is reserved for its floor.
    pub fn acknowledge(&mut self, ballot: Ballot, by: Members)
        ensures { self.new ≡ record self.old {
          tombstone = AcknowledgedView ballot by;
          reserved = 1;
        } }
    {
        self.tombstone = Tombstone::Acknowledged { ballot, by };
        self.reserved = 1;
    }

    /// Its call is over.
    pub fn end_call(&mut self)
        ensures { self.new ≡ called self.old }
    {
        self.calling = false;
    }

    /// The step that was due is confirmed, and the next one is due.
    pub fn confirm(&mut self)
        ensures { self.new ≡ confirmed_step self.old }
    {
        let step = self.course.next();
        self.course.confirm(step);
    }

    /// The proposer whose turn it is was renewed to this age, and the next step is due.
    pub fn renew(&mut self, age: u64)
        requires { length self.old.ages ≤ 16 }
        ensures { self.new ≡ record (confirmed_step self.old) { ages = self.old.ages ++ age ∷ [] } }
    {
        self.least.0[usize::from(self.renewed)] = age;
        self.renewed += 1;
        self.confirm();
    }

    /// All members confirmed what they were asked, so many by a removal and so many by keeping their slot, and the next step is due.
    pub fn gather(&mut self, removed: u32, kept: u32)
        ensures { self.new ≡ record (confirmed_step self.old) { removed = removed; kept = kept } }
    {
        self.removed = removed;
        self.kept = kept;
        self.confirm();
    }

    /// Its floor is marked, and the next step is due. Gives the key that the mark bears.
    pub fn mark_floor(&mut self) -> Key
        requires { self.old.course.step ≡ FloorStep }
        ensures key { result ≡ self.old.course.key }
        ensures marked { self.new ≡ record (confirmed_step self.old) { reserved = 0 } }
    {
        self.reserved = 0;
        let step = self.course.next();
        self.course.confirm(step);
        match self.for_floor.take() {
            Some(key) => key,
            None => unreachable!(),
        }
    }

    /// Its key. A collection may be over at any step: what was not done then stays undone.
    pub fn into_key(self) -> Key
        ensures { result ≡ self.course.key }
    {
        self.course.end()
    }
}
