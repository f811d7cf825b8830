//! The tables that an audit keeps of the marks so far, so that none of them is read anew.
//!
//! A place counts the marks before one, or the entries of a history before one.

ghost use Rattle.std.specs.Prelude.{◌≡◌, ◌<◌, ℕ, List, [], ◌∷◌, Some, length, option_copied, unwrap_or, if◌then◌else◌, IfOk, OnOk, OnErr};
ghost use Rattle.indexmap.specs.IndexMap.{get, spare};
ghost use Rattle.cas_record.specs.declared.mark.Mark.{Mark};
ghost use Rattle.cas_record.specs.Legal.{calls_of};
ghost use Rattle.cas_record.specs.Histories.Chain.{settled_of};
ghost use Rattle.cas_audit.specs.Told.{call_of, row_of, opening_of, node_of, spot_of};
ghost use Rattle.cas_audit.specs.Tables.{AreTables, HasRoomInTables, IsFoundAt};

use crate::told::{Call, Node, Opening, Row, Spot};
use cas_ballot::{Ballot, Members};
use cas_change::Key;
use indexmap::IndexMap;
use std::alloc::{AllocError, Global};
use std::collections::BTreeSet;
use std::hash::Hash;

/// What is kept of the marks.
#[derive(Drop)]
pub struct Tables {
    /// How many calls each caller began.
    pub counts: IndexMap<u8, u32>,
    pub calls: IndexMap<(u8, u32), Call>,
    pub rows: IndexMap<Key, Row>,
    /// The floors with which keys open.
    pub openings: IndexMap<Key, Opening>,
    /// The floors of each key, in the order of their ballots.
    pub floors: IndexMap<Key, BTreeSet<Ballot>>,
    /// The proposal of each key at a ballot.
    pub nodes: IndexMap<(Key, Ballot), Node>,
    pub spots: IndexMap<(Key, Ballot), Spot>,
    /// The ballot of the change that is settled at each place of a key. Past the settled changes it may hold anything.
    pub settled: IndexMap<(Key, usize), Ballot>,
    /// Whether any call began.
    pub has_calls: bool,
}

/// Gives the key this value, in place of one that it had, in the room that was reserved.
pub fn put<K: Eq + Hash + Drop, V: Drop>(table: &mut IndexMap<K, V>, key: K, value: V)
    requires { 0 < spare table.old }
    ensures { (q : K)
        → get K.eq table.new q ≡ (if K.eq key q then Some value else get K.eq table.old q) }
{
    drop(table.insert(key, value));
}

impl Tables {
    /// The tables of no marks.
    pub fn new(alloc: Global) -> Tables
        ensures { AreTables result [] }
    {
        Tables {
            counts: IndexMap::new(alloc),
            calls: IndexMap::new(alloc),
            rows: IndexMap::new(alloc),
            openings: IndexMap::new(alloc),
            floors: IndexMap::new(alloc),
            nodes: IndexMap::new(alloc),
            spots: IndexMap::new(alloc),
            settled: IndexMap::new(alloc),
            has_calls: false,
        }
    }

    /// Makes room for what one mark more adds. The tables stay those of the same marks, also after an `Err`.
    pub fn reserve(&mut self) -> Result<(), AllocError>
        ensures room { OnOk result (HasRoomInTables self.new) }
        ensures same { (marks : List Mark) → AreTables self.old marks → AreTables self.new marks }
    {
        self.counts.reserve(1)?;
        self.calls.reserve(1)?;
        self.rows.reserve(1)?;
        self.openings.reserve(1)?;
        self.floors.reserve(1)?;
        self.nodes.reserve(1)?;
        self.spots.reserve(1)
    }

    /// How many calls the caller began.
    pub fn count_of(&self, caller: u8) -> u32
        ensures { (marks : List Mark) → AreTables self.now marks → result ≡ calls_of caller marks }
    {
        self.counts.get(&caller).copied().unwrap_or(0)
    }

    /// What the marks tell of a call.
    pub fn call_of(&self, caller: u8, call: u32) -> Call
        ensures { (marks : List Mark)
            → AreTables self.now marks → result ≡ call_of caller call marks }
    {
        self.calls.get(&(caller, call)).copied().unwrap_or(Call {
            begun: None,
            seen: 0,
            proposed: None,
            ended: false,
            harms: 0,
        })
    }

    /// What the marks tell of a key.
    pub fn row_of(&self, key: &Key) -> Row
        ensures { (marks : List Mark) → AreTables self.now marks → result ≡ row_of key.now marks }
    {
        self.rows.get(key).copied().unwrap_or(Row {
            top: Ballot::ZERO,
            settled: 0,
            floor: None,
        })
    }

    /// The floor with which the key opens.
    pub fn opening_of(&self, key: &Key) -> Option<&Opening>
        ensures { (marks : List Mark)
            → AreTables self.now marks → option_copied result ≡ opening_of key.now marks }
    {
        self.openings.get(key)
    }

    /// What the marks tell of the key's proposal at the ballot.
    pub fn node_of(&self, key: &Key, ballot: Ballot) -> Result<Option<&Node>, AllocError>
        ensures { IfOk result (λ node. (marks : List Mark)
            → AreTables self.now marks → option_copied node ≡ node_of key.now ballot marks) }
    {
        let spot = (key.copy()?, ballot);
        Ok(self.nodes.get(&spot))
    }

    /// What the marks tell of the votes for the key's ballot.
    pub fn spot_of(&self, key: &Key, ballot: Ballot) -> Result<Spot, AllocError>
        ensures { IfOk result (λ spot. (marks : List Mark)
            → AreTables self.now marks → spot ≡ spot_of key.now ballot marks) }
    {
        let spot = (key.copy()?, ballot);
        Ok(
            self.spots.get(&spot).copied().unwrap_or(Spot {
                voters: Members::new(),
                acked: false,
            }),
        )
    }

    /// The ballot of the change that is settled at the place.
    pub fn settled_at(&self, key: &Key, place: usize) -> Result<Option<Ballot>, AllocError>
        ensures { IfOk result (λ found. (marks : List Mark) → AreTables self.now marks
            → place < length (settled_of key.now marks) → IsFoundAt key.now marks place found) }
    {
        let spot = (key.copy()?, place);
        Ok(self.settled.get(&spot).copied())
    }
}
