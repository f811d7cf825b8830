//! What one mark more adds to the tables.

ghost use Rattle.std.specs.Prelude.{◌≡◌, ◌<◌, Some, ◌≤◌, ◌^◌, ℕ, suc, Bool, List, ◌∷◌, length, reverse, option_copied, if◌then◌else◌, IfOk, OnOk, OnErr};
ghost use Rattle.std.specs.BTreeSet.{insert_key};
ghost use Rattle.cas_ballot.specs.Ballot.{ballot_cmp, greater_of};
ghost use Rattle.cas_change.specs.declared.program.Clause.{Clause};
ghost use Rattle.cas_record.specs.declared.answer.Answer.{Answer};
ghost use Rattle.cas_record.specs.Kept.Index.{later_of};
ghost use Rattle.cas_record.specs.declared.entry.Entry.{Entry};
ghost use Rattle.cas_record.specs.declared.mark.Mark.{Mark};
ghost use Rattle.cas_record.specs.declared.mark.Mark.TheVariants.{Begun, Proposed, Voted, Acked, Floor, Ended, Harmed};
ghost use Rattle.cas_change.specs.Outcome.{outcome_of};
ghost use Rattle.cas_record.specs.Histories.Chain.{floor_below, is_key, has_opening, link_of, program_of, chain_of, top_of, settled_of};
ghost use Rattle.cas_record.specs.Places.{IsPrefix};
ghost use Rattle.cas_record.specs.Legal.{IsBegun, IsLegal};
ghost use Rattle.cas_record.specs.Histories.Replay.{replay_from, opening_state};
ghost use Rattle.cas_audit.specs.Told.{opening_of, start_of, most_below, node_by, raised_row, Reaches};
ghost use Rattle.cas_audit.specs.Tables.{AreTables, ballots_in, IsAudit, IsFoundIn, HasRoomInTables, program_at, same_place};
ghost use Rattle.indexmap.specs.IndexMap.{get, spare};

use crate::tables::{Tables, put};
use crate::told::{Call, Node, Opening, Row, Spot};
use cas_ballot::{AcceptorId, Ballot};
use cas_change::{Key, Outcome, Program, State, apply};
use cas_record::{Acknowledgment, Mark, Proposal};
use indexmap::IndexMap;
use std::alloc::AllocError;
use std::collections::BTreeSet;

impl Tables {
    /// Notes that a call began, by the mark at this place.
    fn note_begun(&mut self, place: usize, caller: u8, call: u32, key: &Key)
        requires { HasRoomInTables self.old }
        ensures { (marks : List Mark) (program : List Clause) → AreTables self.old marks
            → place ≡ length marks → IsLegal (Begun caller call key.now program ∷ marks)
            → AreTables self.new (Begun caller call key.now program ∷ marks) }
    {
        let told = self.call_of(caller, call);
        let seen = self.row_of(key).settled;
        put(&mut self.counts, caller, call);
        put(
            &mut self.calls,
            (caller, call),
            Call {
                begun: Some(place),
                seen,
                proposed: told.proposed,
                ended: told.ended,
                harms: told.harms,
            },
        );
        self.has_calls = true;
    }

    /// Notes that a call was answered.
    fn note_ended(&mut self, caller: u8, call: u32)
        requires { HasRoomInTables self.old }
        ensures { (marks : List Mark) (rounds : ℕ) (answer : Answer)
            → AreTables self.old marks → IsLegal (Ended caller call rounds answer ∷ marks)
            → AreTables self.new (Ended caller call rounds answer ∷ marks) }
    {
        let told = self.call_of(caller, call);
        put(
            &mut self.calls,
            (caller, call),
            Call {
                begun: told.begun,
                seen: told.seen,
                proposed: told.proposed,
                ended: true,
                harms: told.harms,
            },
        );
    }

    /// Notes that a frame of a call was harmed.
    fn note_harmed(&mut self, marks: &[Mark], caller: u8, call: u32)
        requires room { HasRoomInTables self.old }
        requires tables { AreTables self.old (reverse marks.now) }
        requires few { length marks.now < 2 ^ 32 }
        ensures { (down : Bool) → IsLegal (Harmed caller call down ∷ reverse marks.now)
            → AreTables self.new (Harmed caller call down ∷ reverse marks.now) }
    {
        let told = self.call_of(caller, call);
        put(
            &mut self.calls,
            (caller, call),
            Call {
                begun: told.begun,
                seen: told.seen,
                proposed: told.proposed,
                ended: told.ended,
                harms: told.harms + 1,
            },
        );
    }

    /// Notes a vote. After an `Err` all is as before.
    fn note_voted(
        &mut self,
        acceptor: AcceptorId,
        key: &Key,
        ballot: Ballot,
    ) -> Result<(), AllocError>
        requires { HasRoomInTables self.old }
        ensures ok { OnOk result ((marks : List Mark)
            → AreTables self.old marks → IsLegal (Voted acceptor key.now ballot ∷ marks)
            → AreTables self.new (Voted acceptor key.now ballot ∷ marks)) }
        ensures err { OnErr result (self.new ≡ self.old) }
    {
        let spot = self.spot_of(key, ballot)?;
        let mut voters = spot.voters;
        voters.insert(acceptor);
        let at = (key.copy()?, ballot);
        put(
            &mut self.spots,
            at,
            Spot {
                voters,
                acked: spot.acked,
            },
        );
        Ok(())
    }

    /// The state with which the key's history starts.
    fn start_of(&self, key: &Key) -> Result<State, AllocError>
        ensures { IfOk result (λ state. (marks : List Mark)
            → IsAudit self.now marks → state ≡ start_of (opening_of key.now marks)) }
    {
        match self.opening_of(key) {
            Some(opening) => opening.state.copy(),
            None => Ok(State::Empty),
        }
    }

    /// The state of the key's register after the history up to the ballot.
    fn state_at(&self, key: &Key, ballot: Ballot) -> Result<State, AllocError>
        ensures { IfOk result (λ state. (marks : List Mark) → IsAudit self.now marks
            → state ≡ replay_from (opening_state key.now marks) (chain_of key.now ballot marks)) }
    {
        match self.node_of(key, ballot)? {
            Some(node) => {
                if node.length > 0 {
                    node.outcome.state.copy()
                } else {
                    self.start_of(key)
                }
            }
            None => self.start_of(key),
        }
    }

    /// Whether the key's history opens at the ballot.
    fn opens_with(&self, key: &Key, ballot: Ballot) -> bool
        ensures { (marks : List Mark)
            → IsAudit self.now marks → result ≡ has_opening key.now ballot marks }
    {
        match self.opening_of(key) {
            Some(opening) => opening.ballot.cmp(&ballot).is_eq(),
            None => false,
        }
    }

    /// The greatest floor of the key below the ballot, or zero.
    fn floor_below(&self, key: &Key, ballot: Ballot) -> Ballot
        ensures { (marks : List Mark)
            → IsAudit self.now marks → result ≡ floor_below key.now ballot marks }
    {
        match self.floors.get(key) {
            Some(floors) => most_below(floors, ballot),
            None => Ballot::ZERO,
        }
    }

    /// What the program of the proposal's call makes of the state.
    fn outcome_by(&self, marks: &[Mark], p: &Proposal, state: &State) -> Result<Outcome, AllocError>
        requires audit { IsAudit self.now (reverse marks.now) }
        requires begun { IsBegun p.now.caller p.now.call p.now.key (reverse marks.now) }
        ensures { IfOk result (λ outcome. outcome ≡ outcome_of (program_of p.now.caller p.now.call
            (reverse marks.now)) state.now) }
    {
        match program_at(marks, self.call_of(p.caller, p.call).begun) {
            Some(program) => apply(program, state),
            None => unreachable!(),
        }
    }

    /// How many entries the history up to the proposal has, where that from which it goes on has so many.
    fn length_by(&self, p: &Proposal, before: usize) -> usize
        requires { before < 2 ^ 32 }
        ensures { (marks : List Mark) → IsAudit self.now marks → IsLegal (Proposed p.now ∷ marks)
            → before ≡ length (chain_of p.now.key (link_of marks p.now) marks)
            → result ≡ length (chain_of p.now.key p.now.ballot (Proposed p.now ∷ marks)) }
    {
        if p.ballot.cmp(&Ballot::ZERO).is_eq() {
            return 0;
        }
        if self.opens_with(&p.key, p.ballot) {
            return 0;
        }
        before + 1
    }

    /// What the marks tell of a proposal that is made next.
    fn node_by(&self, marks: &[Mark], p: &Proposal) -> Result<Node, AllocError>
        requires audit { IsAudit self.now (reverse marks.now) }
        requires legal { IsLegal (Proposed p.now ∷ reverse marks.now) }
        requires few { length marks.now < 2 ^ 32 }
        ensures { IfOk result (λ node. node ≡ node_by p.now (reverse marks.now)) }
    {
        let link = later_of(p.read, self.floor_below(&p.key, p.ballot));
        let before = self.length_of(&p.key, link)?;
        let state = self.state_at(&p.key, link)?;
        let outcome = self.outcome_by(marks, p, &state)?;
        Ok(Node {
            era: p.era,
            from: if before == 0 { None } else { Some(link) },
            length: self.length_by(p, before),
            outcome,
        })
    }

    /// Notes a proposal. After an `Err` all is as before.
    fn note_proposed(&mut self, marks: &[Mark], p: &Proposal) -> Result<(), AllocError>
        requires room { HasRoomInTables self.old }
        requires audit { IsAudit self.old (reverse marks.now) }
        requires legal { IsLegal (Proposed p.now ∷ reverse marks.now) }
        requires few { length marks.now < 2 ^ 32 }
        ensures ok { OnOk result (AreTables self.new (Proposed p.now ∷ reverse marks.now)) }
        ensures err { OnErr result (self.new ≡ self.old) }
    {
        let node = self.node_by(marks, p)?;
        let at = (p.key.copy()?, p.ballot);
        let told = self.call_of(p.caller, p.call);
        put(
            &mut self.calls,
            (p.caller, p.call),
            Call {
                begun: told.begun,
                seen: told.seen,
                proposed: Some(p.ballot),
                ended: told.ended,
                harms: told.harms,
            },
        );
        put(&mut self.nodes, at, node);
        Ok(())
    }

    /// Keeps the ballot of the change that is settled at the place.
    fn keep_settled(&mut self, key: &Key, place: usize, ballot: Ballot) -> Result<(), AllocError>
        ensures tables { (marks : List Mark) → AreTables self.old marks
            → length (settled_of key.now marks) ≤ place → AreTables self.new marks }
        ensures room { HasRoomInTables self.old → HasRoomInTables self.new }
        ensures put { OnOk result ((q : List ℕ × ℕ)
            → get same_place self.new.settled q ≡ (if same_place
            (key.now, place) q then Some ballot else get same_place self.old.settled q)) }
    {
        keep(&mut self.settled, key, place, ballot)?;
        Ok(())
    }

    /// Keeps the ballot that was found at the place, and answers the one before it.
    fn settle_one(
        &mut self,
        key: &Key,
        place: usize,
        found: Option<Ballot>,
    ) -> Result<Option<Ballot>, AllocError>
        ensures tables { (marks : List Mark) → AreTables self.old marks
            → length (settled_of key.now marks) ≤ place → AreTables self.new marks }
        ensures room { HasRoomInTables self.old → HasRoomInTables self.new }
        ensures next { IfOk result (λ next. (marks : List Mark) → IsAudit self.old marks
            → (entries : List Entry) (count : ℕ) → Reaches key.now found marks entries (suc count)
            → Reaches key.now next marks entries count) }
        ensures here { OnOk result ((marks : List Mark) (entries : List Entry)
            → Reaches key.now found marks entries (suc place) → IsFoundIn key.now
            marks entries place (get same_place self.new.settled (key.now, place))) }
        ensures others { OnOk result ((p : ℕ) → place < p → get same_place self.new.settled
            (key.now, p) ≡ get same_place self.old.settled (key.now, p)) }
    {
        let next = self.before(key, found)?;
        let Some(own) = found else {
            return Ok(next);
        };
        self.keep_settled(key, place, own)?;
        Ok(next)
    }

    /// Keeps the ballots of the changes up to this ballot from this place on, the last first: those before are settled. Answers how
    /// many there are in all.
    fn settle(&mut self, key: &Key, ballot: Ballot, settled: usize) -> Result<usize, AllocError>
        ensures tables { (marks : List Mark) → IsAudit self.old marks
            → settled ≡ length (settled_of key.now marks) → AreTables self.new marks }
        ensures room { HasRoomInTables self.old → HasRoomInTables self.new }
        ensures long { IfOk result (λ long. (marks : List Mark)
            → IsAudit self.old marks → long ≡ length (chain_of key.now ballot marks)) }
        ensures found { IfOk result (λ long. (marks : List Mark) → IsAudit self.old marks
            → settled ≡ length (settled_of key.now marks) → (place : ℕ) → settled ≤ place
            → place < long → IsFoundIn key.now marks (chain_of key.now ballot marks) place
            (get same_place self.new.settled (key.now, place))) }
    {
        let long = self.length_of(key, ballot)?;
        let mut found = Some(ballot);
        for step in settled..long {
            found = self.settle_one(key, long - 1 - (step - settled), found)?;
        }
        Ok(long)
    }

    /// The row of the key once the ballot is acknowledged or made a floor, but for its floor.
    fn raise(&mut self, key: &Key, ballot: Ballot) -> Result<Row, AllocError>
        ensures tables { (marks : List Mark) → IsAudit self.old marks → AreTables self.new marks }
        ensures room { HasRoomInTables self.old → HasRoomInTables self.new }
        ensures row { IfOk result (λ row. (marks : List Mark)
            → IsAudit self.old marks → row ≡ raised_row key.now ballot marks) }
        ensures found { IfOk result (λ row. (marks : List Mark)
            → IsAudit self.old marks → IsPrefix (settled_of key.now marks) (chain_of key.now
            (greater_of ballot (top_of key.now marks)) marks) → (place : ℕ) → place < row.settled
            → IsFoundIn key.now marks (chain_of key.now (greater_of ballot (top_of key.now marks))
            marks) place (get same_place self.new.settled (key.now, place))) }
    {
        let row = self.row_of(key);
        if !row.top.cmp(&ballot).is_lt() {
            return Ok(row);
        }
        let settled = self.settle(key, ballot, row.settled)?;
        Ok(Row {
            top: ballot,
            settled,
            floor: row.floor,
        })
    }

    /// Notes one mark more, which the record may have.
    pub fn note(&mut self, marks: &[Mark], mark: &Mark) -> Result<(), AllocError>
        requires audit { IsAudit self.old (reverse marks.now) }
        requires legal { IsLegal (mark.now ∷ reverse marks.now) }
        requires few { length marks.now < 2 ^ 32 }
        ensures ok { OnOk result (AreTables self.new (mark.now ∷ reverse marks.now)) }
        ensures err { OnErr result (AreTables self.new (reverse marks.now)) }
    {
        self.reserve()?;
        match mark {
            Mark::Begun {
                caller,
                call,
                key,
                ..
            } => {
                self.note_begun(marks.len(), *caller, *call, key);
                Ok(())
            }
            Mark::Proposed(p) => self.note_proposed(marks, p),
            Mark::Voted {
                acceptor,
                key,
                ballot,
            } => self.note_voted(*acceptor, key, *ballot),
            Mark::Acked(a) => self.note_acked(a),
            Mark::Floor { key, ballot, state } => self.note_floor(key, *ballot, state),
            Mark::EraEntered { .. } => Ok(()),
            Mark::Ended { caller, call, .. } => {
                self.note_ended(*caller, *call);
                Ok(())
            }
            Mark::Harmed { caller, call, .. } => {
                self.note_harmed(marks, *caller, *call);
                Ok(())
            }
            Mark::Told { .. } => Ok(()),
        }
    }

    /// Notes an acknowledgment.
    fn note_acked(&mut self, a: &Acknowledgment) -> Result<(), AllocError>
        requires { HasRoomInTables self.old }
        ensures ok { OnOk result ((marks : List Mark) → IsAudit self.old marks
            → IsLegal (Acked a.now ∷ marks) → AreTables self.new (Acked a.now ∷ marks)) }
        ensures err { OnErr result ((marks : List Mark)
            → IsAudit self.old marks → AreTables self.new marks) }
    {
        let spot = self.spot_of(&a.key, a.ballot)?;
        let at = (a.key.copy()?, a.ballot);
        let own = a.key.copy()?;
        let row = self.raise(&a.key, a.ballot)?;
        put(
            &mut self.spots,
            at,
            Spot {
                voters: spot.voters,
                acked: true,
            },
        );
        put(&mut self.rows, own, row);
        Ok(())
    }

    /// Notes a floor.
    fn note_floor(&mut self, key: &Key, ballot: Ballot, state: &State) -> Result<(), AllocError>
        requires { HasRoomInTables self.old }
        ensures ok { OnOk result ((marks : List Mark)
            → IsAudit self.old marks → IsLegal (Floor key.now ballot state.now ∷ marks)
            → AreTables self.new (Floor key.now ballot state.now ∷ marks)) }
        ensures err { OnErr result ((marks : List Mark)
            → IsAudit self.old marks → AreTables self.new marks) }
    {
        let at = key.copy()?;
        let own = key.copy()?;
        let opening = Opening {
            ballot,
            state: state.copy()?,
        };
        let row = self.raise(key, ballot)?;
        add_floor(&mut self.floors, key, ballot)?;
        let raised = Row {
            top: row.top,
            settled: row.settled,
            floor: Some(later_floor(ballot, row.floor)),
        };
        if self.has_calls {
            put(&mut self.rows, own, raised);
            return Ok(());
        }
        put(&mut self.openings, at, opening);
        put(&mut self.rows, own, raised);
        Ok(())
    }
}

/// Gives the key's place this ballot. After an `Err` the table tells the same as before.
fn keep(
    table: &mut IndexMap<(Key, usize), Ballot>,
    key: &Key,
    place: usize,
    ballot: Ballot,
) -> Result<(), AllocError>
    ensures ok { OnOk result ((q : List ℕ × ℕ) → get same_place table.new q
        ≡ (if same_place (key.now, place) q then Some ballot else get same_place table.old q)) }
    ensures err { OnErr result ((q : List ℕ × ℕ)
        → get same_place table.new q ≡ get same_place table.old q) }
{
    table.reserve(1)?;
    let at = (key.copy()?, place);
    put(table, at, ballot);
    Ok(())
}

/// Adds a ballot to the floors of the key. After an `Err` the floors of each key are what they were.
fn add_floor(
    table: &mut IndexMap<Key, BTreeSet<Ballot>>,
    key: &Key,
    ballot: Ballot,
) -> Result<(), AllocError>
    requires { 0 < spare table.old }
    ensures ok { OnOk result ((k : List ℕ)
        → ballots_in (get is_key table.new k) ≡ (if is_key key.now k then insert_key ballot_cmp
        (ballots_in (get is_key table.old k)) ballot else ballots_in (get is_key table.old k))) }
    ensures err { OnErr result ((k : List ℕ)
        → ballots_in (get is_key table.new k) ≡ ballots_in (get is_key table.old k)) }
{
    if let Some(floors) = table.get_mut(key) {
        floors.insert(ballot)?;
        return Ok(());
    }
    let at = key.copy()?;
    let mut floors = BTreeSet::new(*table.allocator());
    floors.insert(ballot)?;
    put(table, at, floors);
    Ok(())
}

/// The later of a ballot and a floor that may be there.
fn later_floor(ballot: Ballot, floor: Option<Ballot>) -> Ballot
    ensures { result ≡ later_of ballot floor }
{
    match floor {
        Some(other) => later_of(ballot, other),
        None => ballot,
    }
}

/// The later of two ballots.
fn later_of(a: Ballot, b: Ballot) -> Ballot
    ensures { result ≡ greater_of a b }
{
    if a.cmp(&b).is_lt() { b } else { a }
}

/// The program of the call that began at the place.
fn program_at(marks: &[Mark], begun: Option<usize>) -> Option<&Program>
    ensures { option_copied result ≡ program_at marks.now begun }
{
    match marks.get(begun?) {
        Some(Mark::Begun { program, .. }) => Some(program),
        _ => None,
    }
}

/// The greatest of these ballots that is below that one, or zero.
fn most_below(floors: &BTreeSet<Ballot>, ballot: Ballot) -> Ballot
    ensures { result ≡ most_below ballot floors.now.keys }
{
    match floors.range(..ballot).next_back() {
        Some(floor) => *floor,
        None => Ballot::ZERO,
    }
}
