//! What one mark more owes each rule of a legal record, looked up in the tables.

ghost use Rattle.std.specs.Prelude.{◌≡◌, ◌≤◌, true, ℕ, List, ◌∷◌, Some, None, length, reverse, option_copied, suc, IsTrue, ◌↔◌, IfOk};
ghost use Rattle.std.specs.Option.{option_and_then};
ghost use Rattle.cas_ballot.specs.Ballot.{greater_of};
ghost use Rattle.cas_ballot.specs.Members.{has_member, IsMemberSet};
ghost use Rattle.cas_record.specs.declared.entry.Entry.{Entry};
ghost use Rattle.cas_record.specs.declared.mark.Mark.{Mark};
ghost use Rattle.cas_record.specs.Histories.Chain.{chain_of, top_of, settled_of};
ghost use Rattle.cas_record.specs.Legal.{IsFirstProposal, IsFirstEnd, IsBegun, DoesStand, HasVotes, IsOpeningFloor, IsFloor, harms_due, tells_refused};
ghost use Rattle.cas_record.specs.Places.{IsPrefix};
ghost use Rattle.cas_audit.specs.Told.{node_of, chain_from, Reaches};
ghost use Rattle.cas_audit.specs.Tables.{AreTables, IsAudit, ChangeAt, IsChangeAt, key_at};
ghost use Rattle.cas_audit.specs.Keeping.{KeepsNumbers, KeepsStanding, KeepsRefusals, KeepsRealTime, KeepsSettled, KeepsVotes, KeepsFloors, KeepsHarms, AnswerStands, AnswerIsLate, StandsLate, TellsTruly};

use crate::tables::Tables;
use cas_ballot::{Ballot, Members};
use cas_change::{Key, Outcome, State, Took};
use cas_record::{Acknowledgment, Answer, Cause, Mark, Proposal};
use std::alloc::AllocError;

/// The key of the call that began at the place.
pub fn key_at(marks: &[Mark], begun: Option<usize>) -> Option<&Key>
    ensures { option_copied result ≡ key_at marks.now begun }
{
    match marks.get(begun?) {
        Some(Mark::Begun { key, .. }) => Some(key),
        _ => None,
    }
}

/// Whether an answer tells that the change was never proposed.
fn tells_refused(answer: &Answer) -> bool
    ensures { result ≡ tells_refused answer.now }
{
    match answer {
        Answer::Done { .. } | Answer::Unsettled { .. } => false,
        Answer::NoMemory { proposed } => !*proposed,
        _ => true,
    }
}

/// How many harms an answer must be explained by.
fn harms_due(answer: &Answer) -> u32
    ensures { result ≡ harms_due answer.now }
{
    match answer {
        Answer::Short { got, need } => need.saturating_sub(*got),
        Answer::Unsettled {
            why: Cause::Short { got, need },
        } => need.saturating_sub(*got),
        _ => 0,
    }
}

/// Whether the two ballots are one.
fn is_ballot(a: Ballot, b: Ballot) -> bool
    ensures { IsTrue result ↔ (a ≡ b) }
{
    a.cmp(&b).is_eq()
}

/// Whether this is the ballot that was found.
fn is_found(found: Option<Ballot>, ballot: Ballot) -> bool
    ensures { IsTrue result ↔ (found ≡ Some ballot) }
{
    match found {
        Some(other) => is_ballot(other, ballot),
        None => false,
    }
}

/// Whether the outcome is this state, left by this clause.
fn is_outcome(outcome: &Outcome, state: &State, took: Took) -> bool
    ensures { IsTrue result ↔ (outcome.now ≡ record { state = state.now; took = took }) }
{
    outcome.state == *state && outcome.took == took
}

/// Whether the first set has each acceptor of the second.
fn has_all(voters: &Members, by: &Members) -> bool
    ensures all { IsTrue result ↔ ((acceptor : ℕ)
        → has_member by.now acceptor ≡ true → has_member voters.now acceptor ≡ true) }
    ensures set { IsMemberSet by.now }
{
    by.count() == 0 || by.intersection(voters) == *by
}

/// The key of the call, where it began.
fn key_of<'a>(tables: &Tables, marks: &'a [Mark], caller: u8, call: u32) -> Option<&'a Key>
    requires { IsAudit tables.now (reverse marks.now) }
    ensures { (key : List ℕ)
        → (option_copied result ≡ Some key) ↔ IsBegun caller call key (reverse marks.now) }
{
    key_at(marks, tables.call_of(caller, call).begun)
}

impl Tables {
    /// Whether the call began, for the key.
    fn is_begun(&self, marks: &[Mark], caller: u8, call: u32, key: &Key) -> bool
        requires { IsAudit self.now (reverse marks.now) }
        ensures { IsTrue result ↔ IsBegun caller call key.now (reverse marks.now) }
    {
        match key_of(self, marks, caller, call) {
            Some(own) => own == key,
            None => false,
        }
    }

    /// Whether the proposal is the first of its call, after that began and before it is answered, and at a ballot that is new
    /// for its key.
    fn is_first_proposal(&self, marks: &[Mark], p: &Proposal) -> Result<bool, AllocError>
        requires { IsAudit self.now (reverse marks.now) }
        ensures { IfOk result (λ first. IsTrue first ↔ IsFirstProposal p.now (reverse marks.now)) }
    {
        let call = self.call_of(p.caller, p.call);
        if call.ended {
            return Ok(false);
        }
        if call.proposed.is_some() {
            return Ok(false);
        }
        if !self.is_begun(marks, p.caller, p.call, &p.key) {
            return Ok(false);
        }
        Ok(self.node_of(&p.key, p.ballot)?.is_none())
    }

    /// Whether the call began, and was not answered.
    fn is_first_end(&self, caller: u8, call: u32) -> bool
        ensures { (marks : List Mark)
            → IsAudit self.now marks → IsTrue result ↔ IsFirstEnd caller call marks }
    {
        let told = self.call_of(caller, call);
        told.begun.is_some() && !told.ended
    }

    /// Whether the calls stay numbered.
    pub fn keeps_numbers(&self, marks: &[Mark], mark: &Mark) -> Result<bool, AllocError>
        requires { IsAudit self.now (reverse marks.now) }
        ensures { IfOk result (λ kept. IsTrue kept ↔ KeepsNumbers mark.now (reverse marks.now)) }
    {
        match mark {
            Mark::Begun { caller, call, .. } => {
                Ok(self.count_of(*caller).checked_add(1) == Some(*call))
            }
            Mark::Proposed(p) => self.is_first_proposal(marks, p),
            Mark::Ended { caller, call, .. } => Ok(self.is_first_end(*caller, *call)),
            _ => Ok(true),
        }
    }

    /// How many entries the history up to the key's ballot has.
    pub fn length_of(&self, key: &Key, ballot: Ballot) -> Result<usize, AllocError>
        ensures { IfOk result (λ count. (marks : List Mark)
            → IsAudit self.now marks → count ≡ length (chain_of key.now ballot marks)) }
    {
        match self.node_of(key, ballot)? {
            Some(node) => Ok(node.length),
            None => Ok(0),
        }
    }

    /// The ballot from whose history that of the ballot goes on, where one with an entry left does.
    pub fn before(&self, key: &Key, ballot: Option<Ballot>) -> Result<Option<Ballot>, AllocError>
        ensures { IfOk result (λ found. (marks : List Mark) → IsAudit self.now marks
            → (entries : List Entry) (count : ℕ) → Reaches key.now ballot marks entries (suc count)
            → Reaches key.now found marks entries count) }
    {
        let Some(ballot) = ballot else {
            return Ok(None);
        };
        match self.node_of(key, ballot)? {
            Some(node) => Ok(node.from),
            None => Ok(None),
        }
    }

    /// The ballot whose history is the front of that many entries of the history up to this ballot, which has `long`.
    fn front_of(
        &self,
        key: &Key,
        ballot: Ballot,
        long: usize,
        count: usize,
    ) -> Result<Option<Ballot>, AllocError>
        requires { count ≤ long }
        ensures { IfOk result (λ found. (marks : List Mark)
            → IsAudit self.now marks → long ≡ length (chain_of key.now ballot marks)
            → Reaches key.now found marks (chain_of key.now ballot marks) count) }
    {
        let mut found = Some(ballot);
        for _step in count..long {
            found = self.before(key, found)?;
        }
        Ok(found)
    }

    /// Whether all that is settled of the key stays so once the ballot is acknowledged or made a floor.
    fn stays_settled(&self, key: &Key, ballot: Ballot) -> Result<bool, AllocError>
        ensures { IfOk result (λ kept. (marks : List Mark)
            → IsAudit self.now marks → IsTrue kept ↔ IsPrefix (settled_of key.now marks)
            (chain_of key.now (greater_of ballot (top_of key.now marks)) marks)) }
    {
        let row = self.row_of(key);
        if !row.top.cmp(&ballot).is_lt() {
            return Ok(true);
        }
        let long = self.length_of(key, ballot)?;
        if long < row.settled {
            return Ok(false);
        }
        if row.settled == 0 {
            return Ok(true);
        }
        let found = self.front_of(key, ballot, long, row.settled)?;
        Ok(is_found(found, row.top))
    }

    /// Whether what is settled only grows.
    pub fn keeps_settled(&self, mark: &Mark) -> Result<bool, AllocError>
        ensures { IfOk result (λ kept. (marks : List Mark)
            → IsAudit self.now marks → IsTrue kept ↔ KeepsSettled mark.now marks) }
    {
        match mark {
            Mark::Acked(a) => self.stays_settled(&a.key, a.ballot),
            Mark::Floor { key, ballot, .. } => self.stays_settled(key, *ballot),
            _ => Ok(true),
        }
    }

    /// The place of the call's change in the settled history of its key, where it stands.
    fn change_at(&self, marks: &[Mark], caller: u8, call: u32) -> Result<Option<usize>, AllocError>
        requires { IsAudit self.now (reverse marks.now) }
        ensures { IfOk result (IsChangeAt caller call (reverse marks.now)) }
    {
        let Some(key) = key_of(self, marks, caller, call) else {
            return Ok(None);
        };
        let Some(ballot) = self.call_of(caller, call).proposed else {
            return Ok(None);
        };
        let long = self.length_of(key, ballot)?;
        if long == 0 {
            return Ok(None);
        }
        if long > self.row_of(key).settled {
            return Ok(None);
        }
        if !is_found(self.settled_at(key, long - 1)?, ballot) {
            return Ok(None);
        }
        Ok(Some(long - 1))
    }

    /// Whether the change of the call, which stands, was proposed at this ballot and has this outcome.
    fn has_outcome(
        &self,
        marks: &[Mark],
        caller: u8,
        call: u32,
        state: &State,
        took: Took,
        ballot: Ballot,
    ) -> Result<bool, AllocError>
        requires { IsAudit self.now (reverse marks.now) }
        ensures { IfOk result (λ has. (place : ℕ) → ChangeAt caller call place (reverse marks.now)
            → IsTrue has ↔ DoesStand caller call state.now took ballot (reverse marks.now)) }
    {
        if !is_found(self.call_of(caller, call).proposed, ballot) {
            return Ok(false);
        }
        let Some(key) = key_of(self, marks, caller, call) else {
            return Ok(false);
        };
        match self.node_of(key, ballot)? {
            Some(node) => Ok(is_outcome(&node.outcome, state, took)),
            None => Ok(false),
        }
    }

    /// Whether a change that is answered Done stands, as the answer tells.
    fn answer_stands(
        &self,
        marks: &[Mark],
        caller: u8,
        call: u32,
        answer: &Answer,
    ) -> Result<bool, AllocError>
        requires { IsAudit self.now (reverse marks.now) }
        ensures { IfOk result
            (λ kept. IsTrue kept ↔ AnswerStands caller call answer.now (reverse marks.now)) }
    {
        let Answer::Done {
            state,
            took,
            ballot,
        } = answer
        else {
            return Ok(true);
        };
        match self.change_at(marks, caller, call)? {
            Some(_) => self.has_outcome(marks, caller, call, state, *took, *ballot),
            None => Ok(false),
        }
    }

    /// Whether a change that is answered Done stands.
    pub fn keeps_standing(&self, marks: &[Mark], mark: &Mark) -> Result<bool, AllocError>
        requires { IsAudit self.now (reverse marks.now) }
        ensures { IfOk result (λ kept. IsTrue kept ↔ KeepsStanding mark.now (reverse marks.now)) }
    {
        match mark {
            Mark::Ended {
                caller,
                call,
                answer,
                ..
            } => self.answer_stands(marks, *caller, *call, answer),
            _ => Ok(true),
        }
    }

    /// Whether the answer, where it tells that its call was proposed or that it was not, tells the truth.
    fn tells_truly(&self, caller: u8, call: u32, answer: &Answer) -> bool
        ensures { (marks : List Mark)
            → IsAudit self.now marks → IsTrue result ↔ TellsTruly answer.now caller call marks }
    {
        if self.call_of(caller, call).proposed.is_some() {
            !tells_refused(answer)
        } else {
            !answer.tells_unsettled()
        }
    }

    /// Whether an answer that tells whether its call was proposed tells the truth.
    pub fn keeps_refusals(&self, mark: &Mark) -> bool
        ensures { (marks : List Mark)
            → IsAudit self.now marks → IsTrue result ↔ KeepsRefusals mark.now marks }
    {
        match mark {
            Mark::Ended {
                caller,
                call,
                answer,
                ..
            } => self.tells_truly(*caller, *call, answer),
            _ => true,
        }
    }

    /// Whether the change of the call, wherever it stands, stands after all that was settled when the call began.
    fn stands_late(&self, marks: &[Mark], caller: u8, call: u32) -> Result<bool, AllocError>
        requires { IsAudit self.now (reverse marks.now) }
        ensures { IfOk result (λ late. IsTrue late ↔ StandsLate caller call (reverse marks.now)) }
    {
        match self.change_at(marks, caller, call)? {
            Some(place) => Ok(self.call_of(caller, call).seen <= place),
            None => Ok(true),
        }
    }

    /// Whether a change that is answered Done stands after all that was settled when its call began.
    fn answer_is_late(
        &self,
        marks: &[Mark],
        caller: u8,
        call: u32,
        answer: &Answer,
    ) -> Result<bool, AllocError>
        requires { IsAudit self.now (reverse marks.now) }
        ensures { IfOk result
            (λ kept. IsTrue kept ↔ AnswerIsLate caller call answer.now (reverse marks.now)) }
    {
        match answer {
            Answer::Done { .. } => self.stands_late(marks, caller, call),
            _ => Ok(true),
        }
    }

    /// Whether a change that is answered Done stands after all that was settled when its call began.
    pub fn keeps_real_time(&self, marks: &[Mark], mark: &Mark) -> Result<bool, AllocError>
        requires { IsAudit self.now (reverse marks.now) }
        ensures { IfOk result (λ kept. IsTrue kept ↔ KeepsRealTime mark.now (reverse marks.now)) }
    {
        match mark {
            Mark::Ended {
                caller,
                call,
                answer,
                ..
            } => self.answer_is_late(marks, *caller, *call, answer),
            _ => Ok(true),
        }
    }

    /// Whether the acknowledgment has its proposal, of the same era, and the vote of each of its acceptors.
    fn has_votes(&self, a: &Acknowledgment) -> Result<bool, AllocError>
        ensures { IfOk result (λ has. (marks : List Mark)
            → IsAudit self.now marks → IsTrue has ↔ HasVotes a.now marks) }
    {
        let Some(node) = self.node_of(&a.key, a.ballot)? else {
            return Ok(false);
        };
        if node.era != a.era {
            return Ok(false);
        }
        Ok(has_all(&self.spot_of(&a.key, a.ballot)?.voters, &a.by))
    }

    /// Whether an acknowledgment has its votes.
    pub fn keeps_votes(&self, mark: &Mark) -> Result<bool, AllocError>
        ensures { IfOk result (λ kept. (marks : List Mark)
            → IsAudit self.now marks → IsTrue kept ↔ KeepsVotes mark.now marks) }
    {
        match mark {
            Mark::Acked(a) => self.has_votes(a),
            _ => Ok(true),
        }
    }

    /// Whether a floor that is made next opens the key's history.
    fn may_open(&self, key: &Key) -> bool
        ensures { (marks : List Mark)
            → IsAudit self.now marks → IsTrue result ↔ IsOpeningFloor key.now marks }
    {
        !self.has_calls && self.row_of(key).floor.is_none()
    }

    /// Whether the floor opens the key's history, or is a tombstone.
    fn is_floor(&self, key: &Key, ballot: Ballot, state: &State) -> Result<bool, AllocError>
        ensures { IfOk result (λ is. (marks : List Mark)
            → IsAudit self.now marks → IsTrue is ↔ IsFloor key.now ballot state.now marks) }
    {
        if self.may_open(key) {
            return Ok(true);
        }
        match state {
            State::Empty => Ok(self.spot_of(key, ballot)?.acked),
            State::Held { .. } => Ok(false),
        }
    }

    /// Whether a floor opens its key's history, or is a tombstone.
    pub fn keeps_floors(&self, mark: &Mark) -> Result<bool, AllocError>
        ensures { IfOk result (λ kept. (marks : List Mark)
            → IsAudit self.now marks → IsTrue kept ↔ KeepsFloors mark.now marks) }
    {
        match mark {
            Mark::Floor { key, ballot, state } => self.is_floor(key, *ballot, state),
            _ => Ok(true),
        }
    }

    /// Whether an answer that tells a shortfall has its harms.
    pub fn keeps_harms(&self, mark: &Mark) -> bool
        ensures { (marks : List Mark)
            → IsAudit self.now marks → IsTrue result ↔ KeepsHarms mark.now marks }
    {
        match mark {
            Mark::Ended {
                caller,
                call,
                answer,
                ..
            } => harms_due(answer) as usize <= self.call_of(*caller, *call).harms,
            _ => true,
        }
    }
}
