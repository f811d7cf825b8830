//! The tables that a record keeps beside its marks: rows by key, links by key and ballot, and where calls began.
//!
//! A key stands in them by its home, the place of the first mark that names it.

ghost use Rattle.std.specs.Prelude.{◌≡◌, ◌+◌, ◌<◌, ◌≤◌, ℕ, List, [], ◌∷◌, ◌++◌, length, reverse, Some, None, IsTrue, ◌↔◌, MatchOption, IfOk, OnOk, OnErr};
ghost use Rattle.cas_record.specs.declared.mark.Mark.{Mark};
ghost use Rattle.cas_change.specs.declared.program.Clause.{Clause};
ghost use Rattle.cas_change.specs.declared.state.State.{State};
ghost use Rattle.cas_record.specs.Histories.Chain.{floor_below, settled_of};
ghost use Rattle.cas_record.specs.Kept.Index.{floor_at, link_by, next_at, standing_at, HasEntryOrFloor, IsRowOf};
ghost use Rattle.cas_record.specs.Kept.Tables.{AreUnlisted, IsNextListed, IsRowFor, IsTablesOf, HasRoomFor};

use crate::entry::Entry;
use crate::first::keep_first;
use crate::history::{self, entry_at};
use crate::mark::{Acknowledgment, Mark, Proposal};
use crate::row::{Link, Row, later_of};
use crate::rows::{hint_of, keep_hint, note_key, row_at, search};
use cas_ballot::Ballot;
use cas_change::Key;
use indexmap::IndexMap;
use std::alloc::{AllocError, Global};

/// The greatest floor of the row's key.
fn floor_of(row: Option<Row>) -> Option<Ballot>
    ensures { (key : List ℕ) (marks : List Mark)
        → IsRowFor key marks row → result ≡ floor_at key (reverse marks) }
{
    match row {
        Some(row) => row.floor,
        None => None,
    }
}

/// The greatest floor of the key below the ballot, or zero, by its greatest floor. The marks are read where that is not below.
fn floor_below(floor: Option<Ballot>, marks: &[Mark], key: &Key, ballot: Ballot) -> Ballot
    requires { floor ≡ floor_at key.now (reverse marks.now) }
    ensures { result ≡ floor_below key.now ballot (reverse marks.now) }
{
    match floor {
        None => Ballot::ZERO,
        Some(floor) => {
            if floor.cmp(&ballot).is_lt() {
                floor
            } else {
                history::floor_below(marks, key, ballot)
            }
        }
    }
}

/// What is kept beside the marks.
#[derive(Drop)]
pub struct Tables {
    /// The row of each key that a mark names, in the order of the keys.
    pub rows: Vec<Row>,
    /// The link of each key's first proposal at a ballot.
    pub links: IndexMap<(usize, Ballot), Link>,
    /// The place of each key's first opening floor at a ballot.
    pub openings: IndexMap<(usize, Ballot), usize>,
    /// The place at which each call of a caller began.
    pub calls: IndexMap<(u8, u32), usize>,
    /// Whether any call began.
    pub has_calls: bool,
    /// Places of rows by slots that keys pick, each to be looked at before a search. They may be stale, or of another key.
    pub hints: Vec<usize>,
}

impl Tables {
    /// The tables of no marks, with no room.
    pub fn new(alloc: Global) -> Tables
        ensures { IsTablesOf result [] }
    {
        Tables {
            rows: Vec::new(alloc),
            links: IndexMap::new(alloc),
            openings: IndexMap::new(alloc),
            calls: IndexMap::new(alloc),
            has_calls: false,
            hints: Vec::new(alloc),
        }
    }

    /// Makes room for what so many further marks add. Nothing else changes, also after an `Err`, and room stays.
    pub fn reserve(&mut self, marks: usize) -> Result<(), AllocError>
        ensures room { OnOk result (HasRoomFor marks self.new) }
        ensures grows { (n : ℕ) → HasRoomFor n self.old → HasRoomFor n self.new }
        ensures same { (marks : List Mark) → IsTablesOf self.old marks → IsTablesOf self.new marks }
    {
        let slots = self.rows.len().saturating_mul(8).max(64);
        if self.hints.len() < slots {
            self.hints.resize(slots.saturating_mul(2), 0)?;
        }
        self.rows.reserve(marks)?;
        let places = marks.saturating_mul(2);
        self.links.reserve(places)?;
        self.openings.reserve(places)?;
        self.calls.reserve(places)
    }

    /// The row of the key, if a mark names it.
    pub fn row_of(&self, marks: &[Mark], key: &Key) -> Option<Row>
        requires { IsTablesOf self.now marks.now }
        ensures { IsRowFor key.now marks.now result }
    {
        row_at(
            &self.rows,
            search(&self.rows, marks, key, hint_of(&self.hints, key)),
        )
    }

    /// The ballot, where the history of the row's key up to it has an entry.
    pub fn standing(&self, row: Option<Row>, ballot: Ballot) -> Option<Ballot>
        ensures { (key : List ℕ) (marks : List Mark) → IsTablesOf self.now marks
            → IsRowFor key marks row → result ≡ standing_at key ballot (reverse marks) }
    {
        let Some(row) = row else {
            return None;
        };
        let spot = (row.home, ballot);
        let found = self.links.contains_key(&spot);
        let shut = self.openings.contains_key(&spot);
        if found && !shut { Some(ballot) } else { None }
    }

    /// What these marks tell of a proposal that is made next, of the row's key.
    fn link_by(&self, row: Option<Row>, marks: &[Mark], proposal: &Proposal) -> Link
        requires tables { IsTablesOf self.now marks.now }
        requires row { IsRowFor proposal.now.key marks.now row }
        ensures { result ≡ link_by proposal.now (reverse marks.now) }
    {
        let floor = floor_below(floor_of(row), marks, &proposal.key, proposal.ballot);
        let from = later_of(proposal.read, Some(floor));
        Link {
            place: marks.len(),
            begun: self.calls.get(&(proposal.caller, proposal.call)).copied(),
            from: self.standing(row, from),
        }
    }

    fn note_call(&mut self, marks: &[Mark], mark: &Mark, caller: u8, call: u32)
        requires tables { IsTablesOf self.old marks.now }
        requires room { HasRoomFor 1 self.old }
        requires mark { (key : List ℕ)
            × ((program : List Clause) × (mark.now ≡ Mark.Begun caller call key program)) }
        ensures tables { IsTablesOf self.new (marks.now ++ mark.now ∷ []) }
        ensures room { (n : ℕ) → HasRoomFor (n + 1) self.old → HasRoomFor n self.new }
    {
        keep_first(&mut self.calls, (caller, call), marks.len());
        self.has_calls = true;
    }

    fn note_proposal(&mut self, marks: &[Mark], mark: &Mark, proposal: &Proposal)
        requires tables { IsTablesOf self.old marks.now }
        requires room { HasRoomFor 1 self.old }
        requires mark { mark.now ≡ Mark.Proposed proposal.now }
        ensures tables { IsTablesOf self.new (marks.now ++ mark.now ∷ []) }
        ensures room { (n : ℕ) → HasRoomFor (n + 1) self.old → HasRoomFor n self.new }
    {
        let key = &proposal.key;
        let found = search(&self.rows, marks, key, hint_of(&self.hints, key));
        let link = self.link_by(row_at(&self.rows, found), marks, proposal);
        let home = note_key(
            &mut self.rows,
            found,
            marks,
            &proposal.key,
            mark,
            self.has_calls,
        );
        keep_hint(&mut self.hints, key, found);
        if !history::is_ballot(proposal.ballot, Ballot::ZERO) {
            keep_first(&mut self.links, (home, proposal.ballot), link);
        }
    }

    fn note_acknowledgment(&mut self, marks: &[Mark], mark: &Mark, acknowledgment: &Acknowledgment)
        requires tables { IsTablesOf self.old marks.now }
        requires room { HasRoomFor 1 self.old }
        requires mark { mark.now ≡ Mark.Acked acknowledgment.now }
        ensures tables { IsTablesOf self.new (marks.now ++ mark.now ∷ []) }
        ensures room { (n : ℕ) → HasRoomFor (n + 1) self.old → HasRoomFor n self.new }
    {
        let key = &acknowledgment.key;
        let found = search(&self.rows, marks, key, hint_of(&self.hints, key));
        note_key(&mut self.rows, found, marks, key, mark, self.has_calls);
        keep_hint(&mut self.hints, key, found);
    }

    fn note_floor(&mut self, marks: &[Mark], mark: &Mark, key: &Key, ballot: Ballot)
        requires tables { IsTablesOf self.old marks.now }
        requires room { HasRoomFor 1 self.old }
        requires mark { (state : State) × (mark.now ≡ Mark.Floor key.now ballot state) }
        ensures tables { IsTablesOf self.new (marks.now ++ mark.now ∷ []) }
        ensures room { (n : ℕ) → HasRoomFor (n + 1) self.old → HasRoomFor n self.new }
    {
        let found = search(&self.rows, marks, key, hint_of(&self.hints, key));
        let home = note_key(&mut self.rows, found, marks, key, mark, self.has_calls);
        keep_hint(&mut self.hints, key, found);
        if !self.has_calls {
            keep_first(&mut self.openings, (home, ballot), marks.len());
        }
    }

    /// Notes a mark that is made after these marks, in the room that was reserved.
    pub fn note(&mut self, marks: &[Mark], mark: &Mark)
        requires tables { IsTablesOf self.old marks.now }
        requires room { HasRoomFor 1 self.old }
        ensures tables { IsTablesOf self.new (marks.now ++ mark.now ∷ []) }
        ensures room { (n : ℕ) → HasRoomFor (n + 1) self.old → HasRoomFor n self.new }
    {
        match mark {
            Mark::Begun { caller, call, .. } => self.note_call(marks, mark, *caller, *call),
            Mark::Proposed(proposal) => self.note_proposal(marks, mark, proposal),
            Mark::Acked(acknowledgment) => self.note_acknowledgment(marks, mark, acknowledgment),
            Mark::Floor { key, ballot, .. } => self.note_floor(marks, mark, key, *ballot),
            _ => {}
        }
    }

    /// The link at a ballot of the row's key, where there is one.
    fn link_at(&self, row: Row, from: Option<Ballot>) -> Option<Link>
        ensures { (key : List ℕ) (marks : List Mark) → IsTablesOf self.now marks
            → IsRowOf key (reverse marks) row → result ≡ next_at key from (reverse marks) }
    {
        match from {
            Some(ballot) => self.links.get(&(row.home, ballot)).copied(),
            None => None,
        }
    }

    /// The history of the key that stands, the oldest entry first. It goes along the links from the key's top, and reads no other mark.
    pub fn settled(
        &self,
        alloc: Global,
        marks: &[Mark],
        key: &Key,
    ) -> Result<Vec<Entry>, AllocError>
        requires { IsTablesOf self.now marks.now }
        ensures { IfOk result (λ entries. entries.items ≡ settled_of key.now (reverse marks.now)) }
    {
        let mut entries = Vec::new(alloc);
        let Some(row) = self.row_of(marks, key) else {
            return Ok(entries);
        };
        let top = row.top.unwrap_or(Ballot::ZERO);
        let mut next = self.link_at(row, self.standing(Some(row), top));
        while let Some(link) = next {
            entries.push(entry_at(alloc, marks, link)?)?;
            next = self.link_at(row, link.from);
        }
        entries.reverse();
        Ok(entries)
    }

    /// Whether the row's key has an entry that stands, or a floor.
    fn is_listed(&self, row: Row) -> bool
        ensures { (key : List ℕ) (marks : List Mark) → IsTablesOf self.now marks → IsRowOf key
            (reverse marks) row → IsTrue result ↔ HasEntryOrFloor key (reverse marks) }
    {
        let top = row.top.unwrap_or(Ballot::ZERO);
        row.floor.is_some() || self.standing(Some(row), top).is_some()
    }

    /// The place of the first row from this one on whose key has an entry that stands, or a floor.
    pub fn next_listed(&self, from: usize) -> Option<usize>
        ensures { (marks : List Mark) → IsTablesOf self.now marks
            → MatchOption result (AreUnlisted self.now.rows.items marks from
            (length self.now.rows.items)) (IsNextListed self.now.rows.items marks from) }
    {
        for at in from..self.rows.len() {
            if self.is_listed(self.rows[at]) {
                return Some(at);
            }
        }
        None
    }
}
