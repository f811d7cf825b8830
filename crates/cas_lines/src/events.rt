//! Reading the lines that are events, behind their first word.

ghost use Rattle.std.specs.Prelude.{◌≡◌, Ok, Err};
ghost use Rattle.cas_change_text.specs.Reading.{Reads, GivesInMemory};
ghost use Rattle.cas_lines.specs.Reading.{ended, event_name, leg_name, verdict_name, party_name, halt_point_name, leg_in, leg_at, who_in, who_at, verdict_at, party_at, halt_point_at, acceptor_of, acceptor_at, proposer_at, net_at, crash_of, restart_of, halt_of, halt_at, show_at, event_at};

use crate::command::Command;
use crate::parts::{read_key, within};
use cas_ballot::AcceptorId;
use cas_change_text::decimal::read_u64;
use cas_change_text::{TextRefusal, Why, Words, next_word, read_end, read_version, says};
use cas_fate::{Leg, Verdict};
use std::alloc::Global;

/// The first word of an event.
#[derive(Clone, Copy, Debug, PartialEq, Eq)]
pub enum EventName {
    Net,
    Crash,
    Restart,
    Halt,
    Stray,
    Show,
}

/// Which of the two kinds of party crashes or restarts.
#[derive(Clone, Copy, Debug, PartialEq, Eq)]
pub enum Party {
    Acceptor,
    Proposer,
}

/// Where a halt strikes a round.
#[derive(Clone, Copy, Debug, PartialEq, Eq)]
pub enum HaltPoint {
    /// Once a quorum has promised.
    Prepared,
    /// Right after it has proposed.
    Proposed,
}

/// The event that a word names.
pub fn event_name(word: &[u8]) -> Option<EventName>
    ensures { result ≡ event_name word.now }
{
    if says(word, "net") {
        Some(EventName::Net)
    } else if says(word, "crash") {
        Some(EventName::Crash)
    } else if says(word, "restart") {
        Some(EventName::Restart)
    } else if says(word, "halt") {
        Some(EventName::Halt)
    } else if says(word, "stray") {
        Some(EventName::Stray)
    } else if says(word, "show") {
        Some(EventName::Show)
    } else {
        None
    }
}

/// The leg that a word names.
fn leg_name(word: &[u8]) -> Option<Leg>
    ensures { result ≡ leg_name word.now }
{
    if says(word, "prepare") {
        Some(Leg::Prepare)
    } else if says(word, "accept") {
        Some(Leg::Accept)
    } else if says(word, "ages") {
        Some(Leg::Ages)
    } else if says(word, "remove") {
        Some(Leg::Remove)
    } else if says(word, "list") {
        Some(Leg::List)
    } else if says(word, "probe") {
        Some(Leg::Probe)
    } else if says(word, "reply") {
        Some(Leg::Reply)
    } else {
        None
    }
}

/// The verdict that a word names. No word names [`Verdict::Hold`].
fn verdict_name(word: &[u8]) -> Option<Verdict>
    ensures { result ≡ verdict_name word.now }
{
    if says(word, "deliver") {
        Some(Verdict::Deliver)
    } else if says(word, "lose") {
        Some(Verdict::Lose)
    } else if says(word, "twice") {
        Some(Verdict::Twice)
    } else if says(word, "late") {
        Some(Verdict::Late)
    } else {
        None
    }
}

/// The kind of party that a word names.
fn party_name(word: &[u8]) -> Option<Party>
    ensures { result ≡ party_name word.now }
{
    if says(word, "acceptor") {
        Some(Party::Acceptor)
    } else if says(word, "proposer") {
        Some(Party::Proposer)
    } else {
        None
    }
}

/// The point of a round that a word names.
fn halt_point_name(word: &[u8]) -> Option<HaltPoint>
    ensures { result ≡ halt_point_name word.now }
{
    if says(word, "after-prepare") {
        Some(HaltPoint::Prepared)
    } else if says(word, "after-propose") {
        Some(HaltPoint::Proposed)
    } else {
        None
    }
}

/// The acceptor whose number a word says.
fn acceptor_of(word: &[u8]) -> Option<AcceptorId>
    ensures { result ≡ acceptor_of word.now }
{
    match within(0, 63, read_u64(word)) {
        Some(number) => AcceptorId::new(number),
        None => None,
    }
}

/// The leg that a word says, which stands at this place, and nothing where it says all of them.
fn leg_in(at: usize, word: &[u8]) -> Result<Option<Leg>, TextRefusal>
    ensures { result ≡ leg_in at word.now }
{
    if says(word, "all") {
        return Ok(None);
    }
    match leg_name(word) {
        Some(leg) => Ok(Some(leg)),
        None => Err(TextRefusal {
            why: Why::UnknownWord,
            word: at,
        }),
    }
}

/// The acceptor that a word says, which stands at this place, and nothing where it says all of them.
fn who_in(at: usize, word: &[u8]) -> Result<Option<AcceptorId>, TextRefusal>
    ensures { result ≡ who_in at word.now }
{
    if says(word, "*") {
        return Ok(None);
    }
    match acceptor_of(word) {
        Some(id) => Ok(Some(id)),
        None => Err(TextRefusal {
            why: Why::BadNumber,
            word: at,
        }),
    }
}

/// The leg that the next word says.
#[tactic(auto, unfolding(crate::specs::Reading::leg_at))]
fn read_leg(words: &mut Words<'_>) -> Result<Option<Leg>, TextRefusal>
    ensures { Reads result words.new (leg_at words.old) }
{
    let at = words.taken();
    let word = next_word(words)?;
    leg_in(at, word)
}

/// Which acceptors the next word says.
#[tactic(auto, unfolding(crate::specs::Reading::who_at))]
fn read_who(words: &mut Words<'_>) -> Result<Option<AcceptorId>, TextRefusal>
    ensures { Reads result words.new (who_at words.old) }
{
    let at = words.taken();
    let word = next_word(words)?;
    who_in(at, word)
}

/// The verdict that the next word names.
#[tactic(auto, unfolding(crate::specs::Reading::verdict_at))]
fn read_verdict(words: &mut Words<'_>) -> Result<Verdict, TextRefusal>
    ensures { Reads result words.new (verdict_at words.old) }
{
    let at = words.taken();
    let word = next_word(words)?;
    verdict_name(word).ok_or(TextRefusal {
        why: Why::UnknownWord,
        word: at,
    })
}

/// The kind of party that the next word names.
#[tactic(auto, unfolding(crate::specs::Reading::party_at))]
fn read_party(words: &mut Words<'_>) -> Result<Party, TextRefusal>
    ensures { Reads result words.new (party_at words.old) }
{
    let at = words.taken();
    let word = next_word(words)?;
    party_name(word).ok_or(TextRefusal {
        why: Why::UnknownWord,
        word: at,
    })
}

/// The point of a round that the next word names.
#[tactic(auto, unfolding(crate::specs::Reading::halt_point_at))]
fn read_halt_point(words: &mut Words<'_>) -> Result<HaltPoint, TextRefusal>
    ensures { Reads result words.new (halt_point_at words.old) }
{
    let at = words.taken();
    let word = next_word(words)?;
    halt_point_name(word).ok_or(TextRefusal {
        why: Why::UnknownWord,
        word: at,
    })
}

/// The acceptor whose number the next word says.
#[tactic(auto, unfolding(crate::specs::Reading::acceptor_at))]
pub fn read_acceptor(words: &mut Words<'_>) -> Result<AcceptorId, TextRefusal>
    ensures { Reads result words.new (acceptor_at words.old) }
{
    let at = words.taken();
    let word = next_word(words)?;
    acceptor_of(word).ok_or(TextRefusal {
        why: Why::BadNumber,
        word: at,
    })
}

/// The proposer whose number the next word says, from 0.
#[tactic(auto, unfolding(crate::specs::Reading::proposer_at))]
fn read_proposer(proposers: u8, words: &mut Words<'_>) -> Result<u8, TextRefusal>
    ensures { Reads result words.new (proposer_at proposers words.old) }
{
    let at = words.taken();
    let word = next_word(words)?;
    within(0, proposers, read_u64(word)).ok_or(TextRefusal {
        why: Why::BadNumber,
        word: at,
    })
}

/// The acceptor whose number the last word says.
pub fn last_acceptor(words: &mut Words<'_>) -> Result<AcceptorId, TextRefusal>
    ensures { result ≡ ended (acceptor_at words.old) }
{
    let id = read_acceptor(words)?;
    read_end(words)?;
    Ok(id)
}

/// The proposer whose number the last word says.
fn last_proposer(proposers: u8, words: &mut Words<'_>) -> Result<u8, TextRefusal>
    ensures { result ≡ ended (proposer_at proposers words.old) }
{
    let proposer = read_proposer(proposers, words)?;
    read_end(words)?;
    Ok(proposer)
}

/// What follows `net`.
#[tactic(auto, unfolding(crate::specs::Reading::net_at))]
fn net_in(words: &mut Words<'_>) -> Result<Command, TextRefusal>
    ensures { result ≡ net_at words.old }
{
    let leg = read_leg(words)?;
    let who = read_who(words)?;
    let verdict = read_verdict(words)?;
    read_end(words)?;
    Ok(Command::Net { leg, who, verdict })
}

/// The crash of a party of this kind, by what follows it.
#[tactic(auto, unfolding(crate::specs::Reading::crash_of))]
fn crash_of(party: Party, proposers: u8, words: &mut Words<'_>) -> Result<Command, TextRefusal>
    ensures { result ≡ crash_of party proposers words.old }
{
    match party {
        Party::Acceptor => {
            let id = last_acceptor(words)?;
            Ok(Command::CrashAcceptor { id })
        }
        Party::Proposer => {
            let proposer = last_proposer(proposers, words)?;
            Ok(Command::CrashProposer { proposer })
        }
    }
}

/// The restart of a party of this kind, by what follows it.
#[tactic(auto, unfolding(crate::specs::Reading::restart_of))]
fn restart_of(party: Party, proposers: u8, words: &mut Words<'_>) -> Result<Command, TextRefusal>
    ensures { result ≡ restart_of party proposers words.old }
{
    match party {
        Party::Acceptor => {
            let id = last_acceptor(words)?;
            Ok(Command::RestartAcceptor { id })
        }
        Party::Proposer => {
            let proposer = last_proposer(proposers, words)?;
            Ok(Command::RestartProposer { proposer })
        }
    }
}

/// The halt of a proposer at this point.
fn halt_of(point: HaltPoint, proposer: u8) -> Command
    ensures { result ≡ halt_of point proposer }
{
    match point {
        HaltPoint::Prepared => Command::HaltPrepared { proposer },
        HaltPoint::Proposed => Command::HaltProposed { proposer },
    }
}

/// What follows `halt`.
#[tactic(auto, unfolding(crate::specs::Reading::halt_at))]
fn halt_in(proposers: u8, words: &mut Words<'_>) -> Result<Command, TextRefusal>
    ensures { result ≡ halt_at proposers words.old }
{
    let proposer = read_proposer(proposers, words)?;
    let point = read_halt_point(words)?;
    read_end(words)?;
    Ok(halt_of(point, proposer))
}

/// What follows `show`.
#[tactic(auto, unfolding(crate::specs::Reading::show_at))]
fn show_in(alloc: Global, words: &mut Words<'_>) -> Result<Command, TextRefusal>
    ensures { GivesInMemory result (show_at words.old) }
{
    let id = read_acceptor(words)?;
    let key = read_key(alloc, words)?;
    read_end(words)?;
    Ok(Command::Show { id, key })
}

/// The event of this name, by what follows it.
#[tactic(auto, unfolding(crate::specs::Reading::event_at))]
pub fn event_in(
    alloc: Global,
    name: EventName,
    proposers: u8,
    words: &mut Words<'_>,
) -> Result<Command, TextRefusal>
    ensures { GivesInMemory result (event_at name proposers words.old) }
{
    match name {
        EventName::Net => net_in(words),
        EventName::Crash => {
            let party = read_party(words)?;
            crash_of(party, proposers, words)
        }
        EventName::Restart => {
            let party = read_party(words)?;
            restart_of(party, proposers, words)
        }
        EventName::Halt => halt_in(proposers, words),
        EventName::Stray => {
            let index = read_version(words)?;
            read_end(words)?;
            Ok(Command::Stray { index })
        }
        EventName::Show => show_in(alloc, words),
    }
}
