//! What members agree on of a key that is read, and the marks by which that is acknowledged.

ghost use Rattle.std.specs.Prelude.{◌≡◌, ◌+◌, ◌++◌, ◌≤◌, ℕ, map, length, reverse, option_copied, unwrap_or, IfOk};
ghost use Rattle.cas_ballot.specs.Ballot.{zero_ballot};
ghost use Rattle.cas_model.specs.Exchanges.Read.{tells_ballot, holders_of, marks_of_holders, MarksRead};
ghost use Rattle.cas_world_calls.specs.Council.{exchange_view};
ghost use Rattle.cas_world_calls.specs.Read.{agrees, agreed_by, first_agreed, vote_of, IsProbeRead, IsReadFound};

use crate::council::{OpenExchange, Question, probed};
use cas_ballot::{AcceptorId, Ballot, Members};
use cas_change::Key;
use cas_quorum::Era;
use cas_record::{Acknowledgment, Mark, OpAnswer, Probe, Record};
use cas_slot::{Accepted, Tell};
use cas_world_listing::told_by;
use std::alloc::{AllocError, Global};

/// How many identities of acceptors there are.
const IDENTITIES: u8 = 64;

/// What a read found: what the open call is told, and the marks that are made.
#[derive(Drop)]
pub struct Reading {
    /// What the open call is told, from lists of its own.
    pub told: OpAnswer,
    /// The votes of those that hold what members agree on, and its acknowledgment; or none.
    pub marks: Vec<Mark>,
}

/// What the exchange found that reads a key, of proposer 0's era when it asked.
pub(crate) fn read_found(
    record: &Record,
    era: &Era,
    exchange: &OpenExchange,
) -> Result<Reading, AllocError>
    requires { IsProbeRead (exchange_view exchange.now).question }
    ensures { IfOk result
        (IsReadFound era.now (exchange_view exchange.now) (reverse «record».now.marks)) }
{
    match &exchange.question {
        Question::Probe(key) => Ok(Reading {
            told: probed(key, exchange)?,
            marks: marks_to_count(*exchange.told.allocator(), record, era, key, &exchange.told)?,
        }),
        _ => unreachable!(),
    }
}

/// Makes these marks, in the room that was reserved.
pub(crate) fn push_marks(book: &mut Record, marks: Vec<Mark>)
    requires { length marks.items ≤ book.old.room }
    ensures marks { book.new.marks ≡ book.old.marks ++ marks.items }
    ensures room { book.new.room + length marks.items ≡ book.old.room }
{
    for mark in marks {
        book.push(mark);
    }
}

/// The marks that acknowledge what members agree on, where its ballot is above the last of the key that was acknowledged or made a floor.
fn marks_to_count(
    alloc: Global,
    record: &Record,
    era: &Era,
    key: &Key,
    told: &[Probe],
) -> Result<Vec<Mark>, AllocError>
    ensures { IfOk result
        (λ marks. MarksRead era.now key.now told.now (reverse «record».now.marks) marks.items) }
{
    let top = or_zero(record.top(key));
    match agreed(era, told, top) {
        Some(accepted) => { marks_of_holders(alloc, key, accepted, holders(told, accepted.ballot)) }
        None => Ok(Vec::new(alloc)),
    }
}

/// The ballot, or zero where there is none.
fn or_zero(ballot: Option<Ballot>) -> Ballot
    ensures { result ≡ unwrap_or ballot zero_ballot }
{
    match ballot {
        Some(ballot) => ballot,
        None => Ballot::ZERO,
    }
}

/// The state that a prepare quorum and an accept quorum of the era told at one ballot above this one, accepted in that era. `None` where
/// there is none.
fn agreed<'a>(era: &Era, told: &'a [Probe], above: Ballot) -> Option<&'a Accepted>
    ensures { option_copied result ≡ first_agreed era.now told.now above told.now }
{
    for probe in told {
        if let Some(accepted) = agreed_by(era, told, above, probe) {
            return Some(accepted);
        }
    }
    None
}

/// The state that this one told, if they agree on it and its ballot is above this one.
fn agreed_by<'a>(era: &Era, told: &[Probe], above: Ballot, one: &'a Probe) -> Option<&'a Accepted>
    ensures { option_copied result ≡ agreed_by era.now told.now above one.now.told }
{
    match &one.told {
        Some(
            Tell::Probed {
                accepted: Some(accepted),
                ..
            },
        ) if agrees(era, told, above, accepted) => Some(accepted),
        _ => None,
    }
}

/// Whether its ballot is above this one, a prepare quorum and an accept quorum of the era told it, and it was accepted in that era.
fn agrees(era: &Era, told: &[Probe], above: Ballot, accepted: &Accepted) -> bool
    ensures { result ≡ agrees era.now told.now above accepted.now }
{
    let by = holders(told, accepted.ballot);
    above.cmp(&accepted.ballot).is_lt()
        && accepted.era == era.number
        && era.holds_prep(&by)
        && era.holds_acc(&by)
}

/// The acceptors that told that they accepted this ballot; zero is the ballot of one that accepted nothing.
fn holders(told: &[Probe], ballot: Ballot) -> Members
    ensures { result ≡ holders_of ballot told.now }
{
    let mut those = Members::new();
    for number in 0..IDENTITIES {
        let id = AcceptorId::new(number).unwrap();
        if tells_ballot(told_by(told, id), ballot) {
            those.insert(id);
        }
    }
    those
}

/// Whether that tells that this ballot was accepted.
fn tells_ballot(told: Option<&Tell>, ballot: Ballot) -> bool
    ensures { result ≡ tells_ballot ballot (option_copied told.entry) }
{
    match told {
        Some(
            Tell::Probed {
                accepted: Some(accepted),
                ..
            },
        ) => accepted.ballot.cmp(&ballot).is_eq(),
        Some(Tell::Probed { accepted: None, .. }) => Ballot::ZERO.cmp(&ballot).is_eq(),
        _ => false,
    }
}

/// The votes of these acceptors for what they accepted, and its acknowledgment by them.
fn marks_of_holders(
    alloc: Global,
    key: &Key,
    accepted: &Accepted,
    by: Members,
) -> Result<Vec<Mark>, AllocError>
    ensures { IfOk result (λ marks. marks.items ≡ marks_of_holders key.now accepted.now by) }
{
    let mut marks = votes(alloc, key, accepted.ballot, &by)?;
    marks.push(Mark::Acked(Acknowledgment {
        key: key.copy()?,
        ballot: accepted.ballot,
        era: accepted.era,
        by,
    }))?;
    Ok(marks)
}

/// The vote of each of these acceptors for the ballot, in rising number.
fn votes(alloc: Global, key: &Key, ballot: Ballot, by: &Members) -> Result<Vec<Mark>, AllocError>
    ensures { IfOk result (λ marks. marks.items ≡ map (vote_of key.now ballot) by.now) }
{
    let mut marks = Vec::with_capacity(alloc, by.count() as usize + 1)?;
    for number in 0..IDENTITIES {
        let id = AcceptorId::new(number).unwrap();
        if by.has(id) {
            marks.push(Mark::Voted {
                acceptor: id,
                key: key.copy()?,
                ballot,
            })?;
        }
    }
    Ok(marks)
}
