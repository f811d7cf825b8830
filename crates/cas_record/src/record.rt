//! The record: the list of all marks.

ghost use Rattle.std.specs.Prelude.{◌≡◌, ◌+◌, ◌<◌, ◌≤◌, [], ◌∷◌, ◌++◌, ℕ, List, reverse, option_copied, IfSome, MatchOption, IfOk, OnOk, OnErr};
ghost use Rattle.cas_record.specs.Book.{Book};
ghost use Rattle.cas_record.specs.Histories.Chain.{settled_of};
ghost use Rattle.cas_record.specs.Kept.Index.{top_at, IsAfter, HasEntryOrFloor, KeyLess};
ghost use Rattle.cas_record.specs.Histories.Replay.{opening_state, replay_from};

use crate::entry::Entry;
use crate::history;
use crate::mark::Mark;
use crate::row::key_at;
use crate::rows::first_after;
use crate::tables::Tables;
use cas_ballot::Ballot;
use cas_change::{Key, State};
use std::alloc::{AllocError, Global};
use std::marker::Model;

/// For how many more marks room is made than was asked for.
const AHEAD: usize = 256;

/// How many marks a record holds at most.
pub const MOST_MARKS: usize = 1_000_000;

/// The marks in the order in which they were made. It is seen as those, and as the number of marks that can still be
/// made without taking memory.
#[derive(Drop)]
pub struct Record {
    marks: Vec<Mark>,
    tables: Tables,
    room: usize,
}

impl Model for Record {
    ghost use Rattle.std.specs.Prelude.{◌+◌, ◌≤◌, vec_len, vec_capacity};
    ghost use Rattle.cas_record.specs.Book.{Book};

    ghost Value = { Book };

    ghost view = { λ record_. record { marks = record_.marks.items; room = record_.room } };

    ghost use Rattle.cas_record.specs.Kept.Tables.{IsTablesOf, HasRoomFor};

    ghost invariant = { λ record_. IsTablesOf record_.tables record_.marks.items × HasRoomFor record_.room record_.tables × (vec_len record_.marks + record_.room ≤ vec_capacity record_.marks) };
}

impl Record {
    /// A record with no mark and no room.
    pub fn new(alloc: Global) -> Record
        ensures { result.marks ≡ [] }
    {
        Record {
            marks: Vec::new(alloc),
            tables: Tables::new(alloc),
            room: 0,
        }
    }

    /// Makes room for so many further marks in all, and for what is kept beside them: room that was there counts. Where that is too little,
    /// it makes room for 256 more, so that few calls make any.
    ///
    /// After an `Err` all is as before.
    pub fn reserve(&mut self, marks: usize) -> Result<(), AllocError>
        ensures same { self.new.marks ≡ self.old.marks }
        ensures ok { OnOk result (marks ≤ self.new.room) }
        ensures grows { self.old.room ≤ self.new.room }
        ensures err { OnErr result (self.new ≡ self.old) }
    {
        if marks <= self.room {
            return Ok(());
        }
        let ample = marks.saturating_add(AHEAD);
        self.tables.reserve(ample)?;
        self.marks.reserve(ample)?;
        self.room = ample;
        Ok(())
    }

    /// Makes a mark, in the room that was reserved. It takes no memory.
    pub fn push(&mut self, mark: Mark)
        requires { 0 < self.old.room }
        ensures marks { self.new.marks ≡ self.old.marks ++ mark ∷ [] }
        ensures room { self.new.room + 1 ≡ self.old.room }
    {
        self.tables.note(&self.marks, &mark);
        self.marks.push_reserved(mark);
        self.room -= 1;
    }

    /// The marks, the oldest first.
    pub fn marks(&self) -> &[Mark]
        ensures { result.now ≡ self.now.marks }
    {
        &self.marks
    }

    /// The greatest ballot of the key that was acknowledged or made a floor. `None` where there is none.
    pub fn top(&self, key: &Key) -> Option<Ballot>
        ensures { result ≡ top_at key.now (reverse self.now.marks) }
    {
        match self.tables.row_of(&self.marks, key) {
            Some(row) => row.top,
            None => None,
        }
    }

    /// The least key after this one, or the least of all where none is given, that has an entry that stands or a floor. `None` where
    /// there is none. It takes no memory.
    pub fn next_key(&self, after: Option<&Key>) -> Option<&Key>
        ensures next { IfSome result (λ key. HasEntryOrFloor key.now (reverse self.now.marks)
            × IsAfter (option_copied after.entry) key.now) }
        ensures least { (key : List ℕ)
            → HasEntryOrFloor key (reverse self.now.marks) → IsAfter (option_copied after.entry) key
            → MatchOption result ⊥ (λ next. KeyLess key next.now → ⊥) }
    {
        let from = first_after(&self.tables.rows, &self.marks, after, &self.tables.hints);
        match self.tables.next_listed(from) {
            Some(at) => key_at(&self.marks, self.tables.rows[at].home),
            None => None,
        }
    }

    /// The history of the key that stands, the oldest entry first: what the greatest ballot that was acknowledged or
    /// made a floor goes on from, and its entry. It is empty where there is none such, and where that is the floor with
    /// which the key opens. In memory from the record's allocator; an `Err` comes where there is none.
    pub fn settled(&self, key: &Key) -> Result<Vec<Entry>, AllocError>
        ensures { IfOk result
            (λ entries. entries.items ≡ settled_of key.now (reverse self.now.marks)) }
    {
        self.tables
            .settled(*self.marks.allocator(), &self.marks, key)
    }

    /// The state with which the key's history starts: that of its opening floor, made before any call began, or the empty
    /// state. In memory from the state's allocator; an `Err` comes where there is none.
    pub fn start(&self, key: &Key) -> Result<State, AllocError>
        ensures { IfOk result (λ state. state ≡ opening_state key.now (reverse self.now.marks)) }
    {
        match self.tables.row_of(&self.marks, key) {
            Some(row) => history::state_at(&self.marks, row.opening),
            None => Ok(State::Empty),
        }
    }

    /// The state after the programs of the entries have acted in turn on this one. An `Err` comes where there is no memory.
    pub fn replay(start: &State, entries: &[Entry]) -> Result<State, AllocError>
        ensures { IfOk result (λ state. state ≡ replay_from start.now entries.now) }
    {
        history::replay(start, entries)
    }
}
