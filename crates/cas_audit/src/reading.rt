//! Marks, read word by word.

ghost use Rattle.std.specs.Prelude.{◌≡◌, ◌≢◌, true, Ok, Err, IfOk, MatchResult};
ghost use Rattle.cas_change_text.specs.Reading.{Reads, ReadsInMemory, GivesInMemory};
ghost use Rattle.cas_change_text.specs.Words.{words_of};
ghost use Rattle.cas_lines.specs.Reading.{ended};
ghost use Rattle.cas_audit.specs.Spelling.Lines.{IsMarkLine};
ghost use Rattle.cas_audit.specs.Spelling.Printing.{is_told, has_text, mark_text};
ghost use Rattle.cas_audit.specs.Spelling.Ranges.{MarkFits};
ghost use Rattle.cas_record.specs.declared.mark.Mark.{Mark};
ghost use Rattle.cas_audit.specs.Spelling.Reading.{named_at, harm_name, mark_name, mark_at, mark_of, begun_at, quorum_at, proposal_at, acknowledgment_at, voted_at, floor_at, entered_at, ended_at, harmed_at, told_mark_at, cause_of, cause_at, proposed_at, stop_of, stop_in, took_of, took_at, done_at, answer_at, asked_of, asked_at, finished_at, resized_at, collected_at, not_in, not_at, told_of, told_by, told_at, line_mark};

use crate::names::{
    AskedName, CauseName, MarkName, StopName, ToldName, TookName, asked_name, cause_name,
    harm_name, mark_name, stop_name, told_name, took_name,
};
use crate::words::{
    read_ballot, read_call, read_marked_version, read_members, read_numbered, read_u8, read_u32,
    take_name,
};
use cas_ballot::{AcceptorId, Members};
use cas_change::Took;
use cas_change_text::{
    TextRefusal, Why, Words, next_word, program_in, read_end, read_version, says, state_in,
};
use cas_lines::{read_acceptor, read_key};
use cas_quorum::PlanFault;
use cas_record::{Acknowledgment, Answer, Asked, Cause, Mark, OpAnswer, Proposal};
use std::alloc::Global;

/// The refusal of the word at this place, which is none of those that may stand there.
fn unknown_word(at: usize) -> TextRefusal
    ensures { result ≡ record { why = Why.UnknownWord; word = at } }
{
    TextRefusal {
        why: Why::UnknownWord,
        word: at,
    }
}

/// Why a change is unsettled.
#[tactic(auto, unfolding(crate::specs::Spelling::Reading::cause_at, crate::specs::Spelling::Reading::named_at))]
fn read_cause(words: &mut Words<'_>) -> Result<Cause, TextRefusal>
    ensures { Reads result words.new (cause_at words.old) }
{
    let at = words.taken();
    match cause_name(next_word(words)?) {
        Some(name) => cause_of(name, words),
        None => Err(unknown_word(at)),
    }
}

/// The cause of this name, by what follows it.
#[tactic(auto, unfolding(crate::specs::Spelling::Reading::cause_of))]
fn cause_of(name: CauseName, words: &mut Words<'_>) -> Result<Cause, TextRefusal>
    ensures { Reads result words.new (cause_of name words.old) }
{
    match name {
        CauseName::Met => Ok(Cause::Met(read_ballot(words)?)),
        CauseName::Aged => Ok(Cause::Aged(read_version(words)?)),
        CauseName::Full => Ok(Cause::Full(read_acceptor(words)?)),
        CauseName::Short => {
            let got = read_u32(words)?;
            let need = read_u32(words)?;
            Ok(Cause::Short { got, need })
        }
        CauseName::Moved => Ok(Cause::Moved(read_u32(words)?)),
        CauseName::Crashed => Ok(Cause::Crashed),
    }
}

/// Whether the last word says that the change was proposed. No other word may follow.
fn read_proposed(words: &mut Words<'_>) -> Result<bool, TextRefusal>
    ensures { Reads result words.new (proposed_at words.old) }
{
    let at = words.taken();
    let Some(word) = words.next() else {
        return Ok(false);
    };
    if says(word, "proposed") {
        Ok(true)
    } else {
        Err(unknown_word(at))
    }
}

/// The answer of this name, by what follows it.
#[tactic(auto, unfolding(crate::specs::Spelling::Reading::stop_of))]
fn stop_of(name: StopName, words: &mut Words<'_>) -> Result<Answer, TextRefusal>
    ensures exact { Reads result words.new (stop_of name words.old) }
    ensures written { IfOk result (λ answer. is_told (OpAnswer.Stopped answer) ≡ true) }
{
    match name {
        StopName::Conflict => Ok(Answer::Conflict {
            met: read_ballot(words)?,
        }),
        StopName::Aged => Ok(Answer::Aged {
            least: read_version(words)?,
        }),
        StopName::Full => Ok(Answer::Full {
            acceptor: read_acceptor(words)?,
        }),
        StopName::Short => {
            let got = read_u32(words)?;
            let need = read_u32(words)?;
            Ok(Answer::Short { got, need })
        }
        StopName::Moved => Ok(Answer::Moved {
            era: read_u32(words)?,
        }),
        StopName::Crashed => Ok(Answer::Crashed),
        StopName::Unsettled => Ok(Answer::Unsettled {
            why: read_cause(words)?,
        }),
        StopName::Down => Ok(Answer::Down),
        StopName::Vault => {
            take_name(words, "fault")?;
            Ok(Answer::VaultFault)
        }
        StopName::Spent => Ok(Answer::Spent),
        StopName::Record => {
            take_name(words, "full")?;
            Ok(Answer::RecordFull)
        }
        StopName::No => {
            take_name(words, "memory")?;
            Ok(Answer::NoMemory {
                proposed: read_proposed(words)?,
            })
        }
    }
}

/// The answer, but for that a change is done, that this word begins, which stands at this place.
#[tactic(auto, unfolding(crate::specs::Spelling::Reading::stop_in))]
fn stop_in(at: usize, word: &[u8], words: &mut Words<'_>) -> Result<Answer, TextRefusal>
    ensures exact { Reads result words.new (stop_in at word.now words.old) }
    ensures written { IfOk result (λ answer. is_told (OpAnswer.Stopped answer) ≡ true) }
{
    match stop_name(word) {
        Some(name) => stop_of(name, words),
        None => Err(unknown_word(at)),
    }
}

/// Which clause acted.
#[tactic(auto, unfolding(crate::specs::Spelling::Reading::took_at, crate::specs::Spelling::Reading::named_at))]
fn read_took(words: &mut Words<'_>) -> Result<Took, TextRefusal>
    ensures { Reads result words.new (took_at words.old) }
{
    let at = words.taken();
    match took_name(next_word(words)?) {
        Some(name) => took_of(name, words),
        None => Err(unknown_word(at)),
    }
}

/// Which clause acted, by the name and what follows it.
#[tactic(auto, unfolding(crate::specs::Spelling::Reading::took_of))]
fn took_of(name: TookName, words: &mut Words<'_>) -> Result<Took, TextRefusal>
    ensures { Reads result words.new (took_of name words.old) }
{
    match name {
        TookName::Clause => Ok(Took::Clause(read_u8(words)?)),
        TookName::No => {
            take_name(words, "clause")?;
            Ok(Took::Nothing)
        }
        TookName::Unfit => Ok(Took::Unfit(read_u8(words)?)),
    }
}

/// What follows the first word of an answer that a change is done.
#[tactic(auto, unfolding(crate::specs::Spelling::Reading::done_at))]
fn read_done(alloc: Global, words: &mut Words<'_>) -> Result<Answer, TextRefusal>
    ensures { ReadsInMemory result words.new (done_at words.old) }
{
    let state = state_in(alloc, words)?;
    take_name(words, "at")?;
    let ballot = read_ballot(words)?;
    let took = read_took(words)?;
    Ok(Answer::Done {
        state,
        took,
        ballot,
    })
}

/// What a call was answered.
#[tactic(auto, unfolding(crate::specs::Spelling::Reading::answer_at))]
fn read_answer(alloc: Global, words: &mut Words<'_>) -> Result<Answer, TextRefusal>
    ensures { ReadsInMemory result words.new (answer_at words.old) }
{
    let at = words.taken();
    let word = next_word(words)?;
    if says(word, "done") {
        read_done(alloc, words)
    } else {
        stop_in(at, word, words)
    }
}

/// What an operator asked for.
#[tactic(auto, unfolding(crate::specs::Spelling::Reading::asked_at, crate::specs::Spelling::Reading::named_at))]
fn read_asked(alloc: Global, words: &mut Words<'_>) -> Result<Asked, TextRefusal>
    ensures { ReadsInMemory result words.new (asked_at words.old) }
{
    let at = words.taken();
    match asked_name(next_word(words)?) {
        Some(name) => asked_of(alloc, name, words),
        None => Err(unknown_word(at)),
    }
}

/// What an operator asked for, by the name and what follows it.
#[tactic(auto, unfolding(crate::specs::Spelling::Reading::asked_of))]
fn asked_of(alloc: Global, name: AskedName, words: &mut Words<'_>) -> Result<Asked, TextRefusal>
    ensures { ReadsInMemory result words.new (asked_of name words.old) }
{
    match name {
        AskedName::Join => Ok(Asked::Join(read_acceptor(words)?)),
        AskedName::Leave => Ok(Asked::Leave(read_acceptor(words)?)),
        AskedName::Collect => Ok(Asked::Collect(read_key(alloc, words)?)),
        AskedName::Probe => Ok(Asked::Probe(read_key(alloc, words)?)),
        AskedName::Resize => {
            let need_prep = read_u32(words)?;
            let need_acc = read_u32(words)?;
            Ok(Asked::Resize {
                need_prep,
                need_acc,
            })
        }
        AskedName::Read => Ok(Asked::Read(read_key(alloc, words)?)),
    }
}

/// The acceptor, the era and how many keys were proposed anew, where a plan is finished.
#[tactic(auto, unfolding(crate::specs::Spelling::Reading::finished_at))]
fn read_finished(words: &mut Words<'_>) -> Result<(AcceptorId, u32, u32), TextRefusal>
    ensures { Reads result words.new (finished_at words.old) }
{
    let id = read_acceptor(words)?;
    let era = read_numbered(words, "era")?;
    let rescanned = read_numbered(words, "rescanned")?;
    Ok((id, era, rescanned))
}

/// What follows the first word of a resize's answer.
#[tactic(auto, unfolding(crate::specs::Spelling::Reading::resized_at))]
fn read_resized(words: &mut Words<'_>) -> Result<OpAnswer, TextRefusal>
    ensures exact { Reads result words.new (resized_at words.old) }
    ensures written { IfOk result (λ answer. is_told answer ≡ true) }
{
    let need_prep = read_u32(words)?;
    let need_acc = read_u32(words)?;
    let era = read_numbered(words, "era")?;
    let rescanned = read_numbered(words, "rescanned")?;
    Ok(OpAnswer::Resized {
        need_prep,
        need_acc,
        era,
        rescanned,
    })
}

/// What follows the first word of a collection's answer.
#[tactic(auto, unfolding(crate::specs::Spelling::Reading::collected_at))]
fn read_collected(alloc: Global, words: &mut Words<'_>) -> Result<OpAnswer, TextRefusal>
    ensures exact { ReadsInMemory result words.new (collected_at words.old) }
    ensures written { IfOk result (λ answer. is_told answer ≡ true) }
{
    let key = read_key(alloc, words)?;
    take_name(words, "at")?;
    let ballot = read_ballot(words)?;
    let removed = read_numbered(words, "removed")?;
    let kept = read_numbered(words, "kept")?;
    Ok(OpAnswer::Collected {
        key,
        ballot,
        removed,
        kept,
    })
}

/// What follows the word `not` in an operator's answer.
#[tactic(auto, unfolding(crate::specs::Spelling::Reading::not_at, crate::specs::Spelling::Reading::not_in))]
fn read_not(words: &mut Words<'_>) -> Result<OpAnswer, TextRefusal>
    ensures exact { Reads result words.new (not_at words.old) }
    ensures written { IfOk result (λ answer. is_told answer ≡ true) }
{
    let at = words.taken();
    let word = next_word(words)?;
    if says(word, "in") {
        Ok(OpAnswer::Refused(PlanFault::NotIn))
    } else if says(word, "empty") {
        Ok(OpAnswer::NotEmpty {
            version: read_marked_version(words)?,
        })
    } else if says(word, "majority") {
        Ok(OpAnswer::Refused(PlanFault::NotMajority))
    } else {
        Err(unknown_word(at))
    }
}

/// The operator's answer of this name, by what follows it.
#[tactic(auto, unfolding(crate::specs::Spelling::Reading::told_of))]
fn told_of(alloc: Global, name: ToldName, words: &mut Words<'_>) -> Result<OpAnswer, TextRefusal>
    ensures exact { ReadsInMemory result words.new (told_of name words.old) }
    ensures written { IfOk result (λ answer. is_told answer ≡ true) }
{
    match name {
        ToldName::Joined => {
            let (id, era, rescanned) = read_finished(words)?;
            Ok(OpAnswer::Joined { id, era, rescanned })
        }
        ToldName::Left => {
            let (id, era, rescanned) = read_finished(words)?;
            Ok(OpAnswer::Left { id, era, rescanned })
        }
        ToldName::Resized => read_resized(words),
        ToldName::Already => {
            take_name(words, "in")?;
            Ok(OpAnswer::Refused(PlanFault::AlreadyIn))
        }
        ToldName::Not => read_not(words),
        ToldName::Id => {
            take_name(words, "used")?;
            Ok(OpAnswer::Refused(PlanFault::IdUsed))
        }
        ToldName::Too => {
            take_name(words, "many")?;
            Ok(OpAnswer::Refused(PlanFault::TooMany))
        }
        ToldName::Last => Ok(OpAnswer::Refused(PlanFault::Last)),
        ToldName::Bad => {
            take_name(words, "size")?;
            Ok(OpAnswer::Refused(PlanFault::BadSize))
        }
        ToldName::Busy => Ok(OpAnswer::Busy {
            era: read_u32(words)?,
        }),
        ToldName::Collected => read_collected(alloc, words),
        ToldName::Absent => Ok(OpAnswer::Absent {
            acceptor: read_acceptor(words)?,
        }),
        ToldName::Proposer => {
            take_name(words, "down")?;
            Ok(OpAnswer::ProposerDown {
                proposer: read_u8(words)?,
            })
        }
    }
}

/// What an operator was answered.
#[tactic(auto, unfolding(crate::specs::Spelling::Reading::told_at, crate::specs::Spelling::Reading::told_by))]
fn read_told(alloc: Global, words: &mut Words<'_>) -> Result<OpAnswer, TextRefusal>
    ensures exact { ReadsInMemory result words.new (told_at words.old) }
    ensures written { IfOk result (λ answer. is_told answer ≡ true) }
{
    let at = words.taken();
    let word = next_word(words)?;
    match told_name(word) {
        Some(name) => told_of(alloc, name, words),
        None => Ok(OpAnswer::Stopped(stop_in(at, word, words)?)),
    }
}

/// An era, and the acceptors of a quorum in it.
#[tactic(auto, unfolding(crate::specs::Spelling::Reading::quorum_at))]
fn read_quorum(words: &mut Words<'_>) -> Result<(u32, Members), TextRefusal>
    ensures { Reads result words.new (quorum_at words.old) }
{
    let era = read_numbered(words, "era")?;
    take_name(words, "by")?;
    let members = read_members(words)?;
    Ok((era, members))
}

/// What follows the first word of a call's begin.
#[tactic(auto, unfolding(crate::specs::Spelling::Reading::begun_at))]
fn begun_in(alloc: Global, words: &mut Words<'_>) -> Result<Mark, TextRefusal>
    ensures exact { GivesInMemory result (begun_at words.old) }
    ensures written { IfOk result (λ mark. has_text mark ≡ true) }
{
    let (caller, call) = read_call(words)?;
    let key = read_key(alloc, words)?;
    let program = program_in(alloc, words)?;
    Ok(Mark::Begun {
        caller,
        call,
        key,
        program,
    })
}

/// What follows the first word of a proposal.
#[tactic(auto, unfolding(crate::specs::Spelling::Reading::proposal_at))]
fn read_proposal(alloc: Global, words: &mut Words<'_>) -> Result<Proposal, TextRefusal>
    ensures { ReadsInMemory result words.new (proposal_at words.old) }
{
    let (caller, call) = read_call(words)?;
    let key = read_key(alloc, words)?;
    let ballot = read_ballot(words)?;
    take_name(words, "read")?;
    let read = read_ballot(words)?;
    let (era, prepared_by) = read_quorum(words)?;
    Ok(Proposal {
        caller,
        call,
        key,
        ballot,
        read,
        era,
        prepared_by,
    })
}

/// What follows the first word of an acknowledgment.
#[tactic(auto, unfolding(crate::specs::Spelling::Reading::acknowledgment_at))]
fn read_acknowledgment(alloc: Global, words: &mut Words<'_>) -> Result<Acknowledgment, TextRefusal>
    ensures { ReadsInMemory result words.new (acknowledgment_at words.old) }
{
    let key = read_key(alloc, words)?;
    let ballot = read_ballot(words)?;
    let (era, by) = read_quorum(words)?;
    Ok(Acknowledgment {
        key,
        ballot,
        era,
        by,
    })
}

/// What follows the first word of a vote.
#[tactic(auto, unfolding(crate::specs::Spelling::Reading::voted_at))]
fn voted_in(alloc: Global, words: &mut Words<'_>) -> Result<Mark, TextRefusal>
    ensures exact { GivesInMemory result (voted_at words.old) }
    ensures written { IfOk result (λ mark. has_text mark ≡ true) }
{
    let acceptor = read_acceptor(words)?;
    let key = read_key(alloc, words)?;
    let ballot = read_ballot(words)?;
    read_end(words)?;
    Ok(Mark::Voted {
        acceptor,
        key,
        ballot,
    })
}

/// What follows the first word of a floor.
#[tactic(auto, unfolding(crate::specs::Spelling::Reading::floor_at))]
fn floor_in(alloc: Global, words: &mut Words<'_>) -> Result<Mark, TextRefusal>
    ensures exact { GivesInMemory result (floor_at words.old) }
    ensures written { IfOk result (λ mark. has_text mark ≡ true) }
{
    let key = read_key(alloc, words)?;
    let ballot = read_ballot(words)?;
    let state = state_in(alloc, words)?;
    read_end(words)?;
    Ok(Mark::Floor { key, ballot, state })
}

/// What follows the first word of an era that was entered.
#[tactic(auto, unfolding(crate::specs::Spelling::Reading::entered_at))]
fn entered_in(words: &mut Words<'_>) -> Result<Mark, TextRefusal>
    ensures exact { result ≡ entered_at words.old }
    ensures written { IfOk result (λ mark. has_text mark ≡ true) }
{
    let proposer = read_u8(words)?;
    let number = read_u32(words)?;
    read_end(words)?;
    Ok(Mark::EraEntered { proposer, number })
}

/// What follows the first word of a call's end.
#[tactic(auto, unfolding(crate::specs::Spelling::Reading::ended_at))]
fn ended_in(alloc: Global, words: &mut Words<'_>) -> Result<Mark, TextRefusal>
    ensures exact { GivesInMemory result (ended_at words.old) }
    ensures written { IfOk result (λ mark. has_text mark ≡ true) }
{
    let (caller, call) = read_call(words)?;
    let rounds = read_u32(words)?;
    let answer = read_answer(alloc, words)?;
    read_end(words)?;
    Ok(Mark::Ended {
        caller,
        call,
        rounds,
        answer,
    })
}

/// Whether the acceptor of a harmed frame was down.
#[tactic(auto, unfolding(crate::specs::Spelling::Reading::named_at))]
fn read_harm(words: &mut Words<'_>) -> Result<bool, TextRefusal>
    ensures { Reads result words.new (named_at harm_name words.old) }
{
    let at = words.taken();
    let word = next_word(words)?;
    harm_name(word).ok_or(unknown_word(at))
}

/// What follows the first word of a harm.
#[tactic(auto, unfolding(crate::specs::Spelling::Reading::harmed_at))]
fn harmed_in(words: &mut Words<'_>) -> Result<Mark, TextRefusal>
    ensures exact { result ≡ harmed_at words.old }
    ensures written { IfOk result (λ mark. has_text mark ≡ true) }
{
    let (caller, call) = read_call(words)?;
    let down = read_harm(words)?;
    read_end(words)?;
    Ok(Mark::Harmed { caller, call, down })
}

/// What follows the first word of an operator's answer.
#[tactic(auto, unfolding(crate::specs::Spelling::Reading::told_mark_at))]
fn told_in(alloc: Global, words: &mut Words<'_>) -> Result<Mark, TextRefusal>
    ensures exact { GivesInMemory result (told_mark_at words.old) }
    ensures written { IfOk result (λ mark. has_text mark ≡ true) }
{
    let asked = read_asked(alloc, words)?;
    take_name(words, "->")?;
    let answer = read_told(alloc, words)?;
    read_end(words)?;
    Ok(Mark::Told { asked, answer })
}

/// The mark of this name, by all that follows it.
#[tactic(auto, unfolding(crate::specs::Spelling::Reading::mark_of))]
fn mark_of(alloc: Global, name: MarkName, words: &mut Words<'_>) -> Result<Mark, TextRefusal>
    ensures exact { GivesInMemory result (mark_of name words.old) }
    ensures written { IfOk result (λ mark. has_text mark ≡ true) }
{
    match name {
        MarkName::Begun => begun_in(alloc, words),
        MarkName::Proposed => {
            let proposal = read_proposal(alloc, words)?;
            read_end(words)?;
            Ok(Mark::Proposed(proposal))
        }
        MarkName::Voted => voted_in(alloc, words),
        MarkName::Acked => {
            let acknowledgment = read_acknowledgment(alloc, words)?;
            read_end(words)?;
            Ok(Mark::Acked(acknowledgment))
        }
        MarkName::Floor => floor_in(alloc, words),
        MarkName::Entered => entered_in(words),
        MarkName::Ended => ended_in(alloc, words),
        MarkName::Harmed => harmed_in(words),
        MarkName::Told => told_in(alloc, words),
    }
}

/// The mark that all words that are left say.
#[tactic(auto, unfolding(crate::specs::Spelling::Reading::mark_at, crate::specs::Spelling::Reading::named_at))]
fn mark_in(alloc: Global, words: &mut Words<'_>) -> Result<Mark, TextRefusal>
    ensures exact { GivesInMemory result (mark_at words.old) }
    ensures written { IfOk result (λ mark. has_text mark ≡ true) }
{
    let at = words.taken();
    match mark_name(next_word(words)?) {
        Some(name) => mark_of(alloc, name, words),
        None => Err(unknown_word(at)),
    }
}

/// The mark that the words of a line say.
fn line_mark(alloc: Global, line: &[u8]) -> Result<Mark, TextRefusal>
    ensures exact { GivesInMemory result (line_mark line.now) }
    ensures written { IfOk result (λ mark. has_text mark ≡ true) }
{
    mark_in(alloc, &mut Words::of(line))
}

/// The mark that a line says, word by word.
///
/// The line stands without its ending. Blanks at either end mean nothing, and a line without a word is refused as one that ends too
/// soon. A caller and a proposer are at most 255, the number of a call, an era and each count below 2^32, the counter of a ballot below
/// 2^64, and an acceptor at most 63; acceptors stand in rising order. A call, a ballot and a set of acceptors are one word each, and one
/// that is broken is a bad number.
///
/// A line that says a mark is refused for want of memory alone. Any other is refused at the first word that does not fit.
pub fn read_mark(alloc: Global, line: &[u8]) -> Result<Mark, TextRefusal>
    // What is read is what the line says.
    ensures found { IfOk result (λ mark. IsMarkLine (words_of line.now) mark) }
    // What the line says is read, unless memory runs out.
    ensures only { (mark : Mark) → IsMarkLine (words_of line.now) mark
        → MatchResult result (λ read. read ≡ mark) (λ refusal. refusal.why ≡ Why.NoMemory) }
    // Which mark or refusal it is, word by word.
    ensures exact { GivesInMemory result (line_mark line.now) }
    // What is read is a mark that a record's text can have.
    ensures written { IfOk result (λ mark. has_text mark ≡ true) }
    // The line that is printed for a mark is read as that mark, unless memory runs out.
    ensures again { (mark : Mark) → has_text mark ≡ true → MarkFits mark → line.now ≡ mark_text mark
        → MatchResult result (λ read. read ≡ mark) (λ refusal. refusal.why ≡ Why.NoMemory) }
{
    line_mark(alloc, line)
}
