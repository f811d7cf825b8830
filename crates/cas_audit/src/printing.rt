//! Marks, as they are written.

ghost use Rattle.std.specs.Prelude.{◌≡◌, ◌^◌, ◌<◌, ◌++◌, ◌∷◌, [], true, cond, string_bytes, codes, decimal, Ok, OnOk, IfOk};
ghost use Rattle.std.specs.List.{flat_map};
ghost use Rattle.cas_ballot.specs.Members.{has_member, IsMemberSet};
ghost use Rattle.cas_change.specs.Key.{IsKey};
ghost use Rattle.cas_ballot.specs.Ballot.{ballot_text};
ghost use Rattle.cas_change_text.specs.Words.{words_of};
ghost use Rattle.cas_lines.specs.Answers.{answer_text, cause_text};
ghost use Rattle.cas_audit.specs.Spelling.Lines.{IsMarkLine};
ghost use Rattle.cas_audit.specs.Spelling.Printing.{ballots_text, next_number_text, numbers_text, clause_note, harm_note, full_answer_text, asked_text, told_text, is_told, has_text, mark_text};
ghost use Rattle.cas_audit.specs.Spelling.Ranges.{BallotFits, TookFits, CauseFits, AnswerFits, AskedFits, FinishFits, ToldFits, BallotsFit, MarkFits};
ghost use Rattle.cas_audit.specs.Spelling.Reading.{line_mark};

use cas_ballot::{AcceptorId, Ballot, Members};
use cas_change::{Key, Program, State, Took};
use cas_change_text::{print_program, push_state};
use cas_record::{Acknowledgment, Answer, Asked, Cause, Mark, OpAnswer, Proposal};
use std::alloc::{AllocError, Global};

/// Whether a record's text can have the mark: an operator's answer to a probe is never written, nor is one that says that a
/// step was stopped by being done.
pub fn has_text(mark: &Mark) -> bool
    ensures { result ≡ has_text mark.now }
{
    match mark {
        Mark::Told { answer, .. } => is_told(answer),
        _ => true,
    }
}

/// Whether the answer is written in a record.
fn is_told(answer: &OpAnswer) -> bool
    ensures { result ≡ is_told answer.now }
{
    match answer {
        OpAnswer::Probed { .. } => false,
        OpAnswer::Stopped(Answer::Done { .. }) => false,
        _ => true,
    }
}

/// The line of the mark, without a newline. Read again, it is the same mark. An `Err` comes where there is no memory.
pub fn print_mark(alloc: Global, mark: &Mark) -> Result<Vec<u8>, AllocError>
    requires { has_text mark.now ≡ true }
    ensures text { IfOk result (λ line. line.items ≡ mark_text mark.now) }
    // What the line says is the mark.
    ensures says { IfOk result (λ line. IsMarkLine (words_of line.items) mark.now) }
    // What is read of it is the mark.
    ensures again { IfOk result (λ line. line_mark line.items ≡ Ok mark.now) }
{
    mark_line(alloc, mark)
}

/// The line of the mark, whose numbers, keys and sets are what they can be.
fn mark_line(alloc: Global, mark: &Mark) -> Result<Vec<u8>, AllocError>
    requires { has_text mark.now ≡ true }
    ensures text { IfOk result (λ line. line.items ≡ mark_text mark.now) }
    ensures fits { IfOk result (λ _. MarkFits mark.now) }
{
    match mark {
        Mark::Begun {
            caller,
            call,
            key,
            program,
        } => print_begun(alloc, *caller, *call, key, program),
        Mark::Proposed(proposal) => print_proposal(alloc, proposal),
        Mark::Voted {
            acceptor,
            key,
            ballot,
        } => print_voted(alloc, *acceptor, key, *ballot),
        Mark::Acked(acknowledgment) => print_acknowledgment(alloc, acknowledgment),
        Mark::Floor { key, ballot, state } => print_floor(alloc, key, *ballot, state),
        Mark::EraEntered { proposer, number } => print_entered(alloc, *proposer, *number),
        Mark::Ended {
            caller,
            call,
            rounds,
            answer,
        } => print_ended(alloc, *caller, *call, *rounds, answer),
        Mark::Harmed { caller, call, down } => print_harmed(alloc, *caller, *call, *down),
        Mark::Told { asked, answer } => print_told(alloc, asked, answer),
    }
}

/// The line of a call's begin.
fn print_begun(
    alloc: Global,
    caller: u8,
    call: u32,
    key: &Key,
    program: &Program,
) -> Result<Vec<u8>, AllocError>
    ensures text { IfOk result
        (λ line. line.items ≡ mark_text (Mark.Begun caller call key.now program.now)) }
    ensures fits { IfOk result (λ _. MarkFits (Mark.Begun caller call key.now program.now)) }
{
    let mut head = String::new(alloc);
    write!(head, "begun {caller}.{call} ")?;
    let program = print_program(alloc, program)?;
    around_key(head, key, " ", &program)
}

/// The line of a vote.
fn print_voted(
    alloc: Global,
    acceptor: AcceptorId,
    key: &Key,
    ballot: Ballot,
) -> Result<Vec<u8>, AllocError>
    ensures text { IfOk result
        (λ line. line.items ≡ mark_text (Mark.Voted acceptor key.now ballot)) }
    ensures fits { IfOk result (λ _. MarkFits (Mark.Voted acceptor key.now ballot)) }
{
    let acceptor = acceptor.number();
    let head = format!(in alloc; "voted {acceptor} ")?;
    let tail = format!(in alloc; "{ballot}")?;
    around_key(head, key, " ", tail.as_bytes())
}

/// The line of a floor.
fn print_floor(
    alloc: Global,
    key: &Key,
    ballot: Ballot,
    state: &State,
) -> Result<Vec<u8>, AllocError>
    ensures text { IfOk result
        (λ line. line.items ≡ mark_text (Mark.Floor key.now ballot state.now)) }
    ensures fits { IfOk result (λ _. MarkFits (Mark.Floor key.now ballot state.now)) }
{
    let head = String::from_str(alloc, "floor ")?;
    let mut tail = String::new(alloc);
    write!(tail, "{ballot} ")?;
    push_state(&mut tail, state)?;
    around_key(head, key, " ", tail.as_bytes())
}

/// The line of an era that was entered.
fn print_entered(alloc: Global, proposer: u8, number: u32) -> Result<Vec<u8>, AllocError>
    ensures text { IfOk result (λ line. line.items ≡ mark_text (Mark.EraEntered proposer number)) }
    ensures fits { IfOk result (λ _. MarkFits (Mark.EraEntered proposer number)) }
{
    let mut line = String::new(alloc);
    write!(line, "entered {proposer} {number}")?;
    Ok(line.into_bytes())
}

/// The line of a call's end.
fn print_ended(
    alloc: Global,
    caller: u8,
    call: u32,
    rounds: u32,
    answer: &Answer,
) -> Result<Vec<u8>, AllocError>
    ensures text { IfOk result
        (λ line. line.items ≡ mark_text (Mark.Ended caller call rounds answer.now)) }
    ensures fits { IfOk result (λ _. MarkFits (Mark.Ended caller call rounds answer.now)) }
{
    let mut line = String::new(alloc);
    write!(line, "ended {caller}.{call} {rounds} ")?;
    push_answer(&mut line, answer)?;
    Ok(line.into_bytes())
}

/// The line of a harm.
fn print_harmed(alloc: Global, caller: u8, call: u32, down: bool) -> Result<Vec<u8>, AllocError>
    ensures text { IfOk result (λ line. line.items ≡ mark_text (Mark.Harmed caller call down)) }
    ensures fits { IfOk result (λ _. MarkFits (Mark.Harmed caller call down)) }
{
    let mut line = String::new(alloc);
    write!(line, "harmed {caller}.{call}")?;
    line.push_str(harm_note(down))?;
    Ok(line.into_bytes())
}

/// What harmed a frame.
fn harm_note(down: bool) -> &'static str
    ensures { result.now ≡ harm_note down }
{
    if down { " down" } else { " fate" }
}

/// A line with a key between its head and what follows.
fn around_key(head: String, key: &Key, blank: &str, tail: &[u8]) -> Result<Vec<u8>, AllocError>
    ensures text { IfOk result
        (λ line. line.items ≡ string_bytes head ++ key.now ++ blank.now ++ tail.now) }
    ensures key { IfOk result (λ _. IsKey key.now) }
{
    let mut line = head.into_bytes();
    line.extend_from_slice(key.bytes())?;
    line.extend_from_slice(blank.as_bytes())?;
    line.extend_from_slice(tail)?;
    Ok(line)
}

/// The line of a proposal.
fn print_proposal(alloc: Global, proposal: &Proposal) -> Result<Vec<u8>, AllocError>
    ensures text { IfOk result (λ line. line.items ≡ mark_text (Mark.Proposed proposal.now)) }
    ensures fits { IfOk result (λ _. MarkFits (Mark.Proposed proposal.now)) }
{
    let caller = proposal.caller;
    let call = proposal.call;
    let mut head = String::new(alloc);
    write!(head, "proposed {caller}.{call} ")?;
    let tail = ballots_of(alloc, proposal)?;
    around_key(head, &proposal.key, " ", tail.as_bytes())
}

/// What follows the key in the line of a proposal.
#[tactic(auto, unfolding(crate::specs::Spelling::Printing::ballots_text))]
fn ballots_of(alloc: Global, proposal: &Proposal) -> Result<String, AllocError>
    ensures text { IfOk result (λ text. string_bytes text ≡ ballots_text proposal.now) }
    ensures fits { IfOk result (λ _. BallotsFit proposal.now) }
{
    let mut text = String::new(alloc);
    push_ballot(&mut text, proposal.ballot)?;
    text.push_str(" read ")?;
    push_ballot(&mut text, proposal.read)?;
    push_quorum(&mut text, proposal.era, &proposal.prepared_by)?;
    Ok(text)
}

/// Writes a ballot.
fn push_ballot(text: &mut String, ballot: Ballot) -> Result<(), AllocError>
    ensures text { OnOk result
        (string_bytes text.new ≡ string_bytes text.old ++ ballot_text ballot) }
    ensures fits { BallotFits ballot }
{
    write!(text, "{ballot}")
}

/// Writes a number.
fn push_number(text: &mut String, number: u32) -> Result<(), AllocError>
    ensures text { OnOk result (string_bytes text.new ≡ string_bytes text.old ++ decimal number) }
    ensures fits { number < 2 ^ 32 }
{
    write!(text, "{number}")
}

/// Writes a number that may be greater.
fn push_long_number(text: &mut String, number: u64) -> Result<(), AllocError>
    ensures text { OnOk result (string_bytes text.new ≡ string_bytes text.old ++ decimal number) }
    ensures fits { number < 2 ^ 64 }
{
    write!(text, "{number}")
}

/// Writes how few acceptors confirmed, and how many were needed.
fn push_short(text: &mut String, got: u32, need: u32) -> Result<(), AllocError>
    ensures text { OnOk result (string_bytes text.new
        ≡ string_bytes text.old ++ codes "short " ++ decimal got ++ codes " " ++ decimal need) }
    ensures got { got < 2 ^ 32 }
    ensures need { need < 2 ^ 32 }
{
    write!(text, "short {got} {need}")
}

/// Writes an era, and the acceptors of a quorum in it.
fn push_quorum(text: &mut String, era: u32, by: &Members) -> Result<(), AllocError>
    ensures text { OnOk result (string_bytes text.new ≡ string_bytes text.old ++ codes
        " era " ++ decimal era ++ codes " by " ++ numbers_text by.now) }
    ensures era { era < 2 ^ 32 }
    ensures set { OnOk result (IsMemberSet by.now) }
{
    write!(text, " era {era} by ")?;
    push_members(text, by)
}

/// The line of an acknowledgment.
fn print_acknowledgment(
    alloc: Global,
    acknowledgment: &Acknowledgment,
) -> Result<Vec<u8>, AllocError>
    ensures text { IfOk result (λ line. line.items ≡ mark_text (Mark.Acked acknowledgment.now)) }
    ensures fits { IfOk result (λ _. MarkFits (Mark.Acked acknowledgment.now)) }
{
    print_quorum(
        alloc,
        &acknowledgment.key,
        acknowledgment.ballot,
        acknowledgment.era,
        &acknowledgment.by,
    )
}

/// The line that tells which acceptors confirmed the key's proposal at this ballot.
fn print_quorum(
    alloc: Global,
    key: &Key,
    ballot: Ballot,
    era: u32,
    by: &Members,
) -> Result<Vec<u8>, AllocError>
    ensures text { IfOk result
        (λ line. line.items ≡ codes "acked " ++ key.now ++ codes " " ++ ballot_text
        ballot ++ codes " era " ++ decimal era ++ codes " by " ++ numbers_text by.now) }
    ensures fits { IfOk result (λ _. IsKey key.now
        × BallotFits ballot × (era < 2 ^ 32) × IsMemberSet by.now) }
{
    let head = String::from_str(alloc, "acked ")?;
    let mut tail = String::new(alloc);
    write!(tail, "{ballot} era {era} by ")?;
    push_members(&mut tail, by)?;
    around_key(head, key, " ", tail.as_bytes())
}

/// The numbers of the acceptors, in rising order.
fn numbers_of(alloc: Global, members: &Members) -> Result<Vec<u8>, AllocError>
    ensures numbers { IfOk result (λ numbers. numbers.items ≡ members.now) }
    ensures set { IfOk result (λ _. IsMemberSet members.now) }
{
    let _count = members.count();
    let mut numbers = Vec::new(alloc);
    for number in 0..64 {
        push_if_member(&mut numbers, members, number)?;
    }
    Ok(numbers)
}

/// Adds the number at the end where the acceptor of that number is a member.
fn push_if_member(numbers: &mut Vec<u8>, members: &Members, number: u8) -> Result<(), AllocError>
    requires { number < 64 }
    ensures { OnOk result (numbers.new.items ≡ numbers.old.items ++ cond
        (has_member members.now number) (number ∷ []) []) }
{
    match AcceptorId::new(number) {
        Some(id) if members.has(id) => Ok(numbers.push(number)?),
        _ => Ok(()),
    }
}

/// Writes the numbers of the acceptors, in rising order and with commas, and a dash where there is none.
fn push_members(text: &mut String, members: &Members) -> Result<(), AllocError>
    ensures text { OnOk result
        (string_bytes text.new ≡ string_bytes text.old ++ numbers_text members.now) }
    ensures set { OnOk result (IsMemberSet members.now) }
{
    let numbers = numbers_of(*text.allocator(), members)?;
    push_numbers(text, &numbers)
}

/// Writes the numbers with commas, and a dash where there is none.
fn push_numbers(text: &mut String, numbers: &[u8]) -> Result<(), AllocError>
    ensures { OnOk result
        (string_bytes text.new ≡ string_bytes text.old ++ numbers_text numbers.now) }
{
    match numbers {
        [] => text.push('-'),
        [first, others @ ..] => {
            write!(text, "{first}")?;
            push_next_numbers(text, others)
        }
    }
}

/// Writes each number behind a comma.
fn push_next_numbers(text: &mut String, numbers: &[u8]) -> Result<(), AllocError>
    ensures { OnOk result
        (string_bytes text.new ≡ string_bytes text.old ++ flat_map next_number_text numbers.now) }
{
    for number in numbers {
        write!(text, ",{number}")?;
    }
    Ok(())
}

/// Writes what a call was answered, with the number of the clause that acted.
fn push_answer(line: &mut String, answer: &Answer) -> Result<(), AllocError>
    ensures text { OnOk result
        (string_bytes line.new ≡ string_bytes line.old ++ full_answer_text answer.now) }
    ensures fits { OnOk result (AnswerFits answer.now) }
{
    match answer {
        Answer::Done {
            state,
            took,
            ballot,
        } => push_done(line, state, *took, *ballot),
        Answer::Conflict { met } => {
            line.push_str("conflict ")?;
            push_ballot(line, *met)
        }
        Answer::Aged { least } => {
            line.push_str("aged ")?;
            push_long_number(line, *least)
        }
        Answer::Full { acceptor } => {
            let acceptor = acceptor.number();
            write!(line, "full {acceptor}")
        }
        Answer::Short { got, need } => push_short(line, *got, *need),
        Answer::Moved { era } => {
            line.push_str("moved ")?;
            push_number(line, *era)
        }
        Answer::Crashed => line.push_str("crashed"),
        Answer::Unsettled { why } => {
            line.push_str("unsettled ")?;
            push_cause(line, why)
        }
        Answer::Down => line.push_str("down"),
        Answer::VaultFault => line.push_str("vault fault"),
        Answer::Spent => line.push_str("spent"),
        Answer::RecordFull => line.push_str("record full"),
        Answer::NoMemory { proposed } => line.push_str(memory_note(*proposed)),
    }
}

/// That memory ran out, and whether the change had been proposed.
fn memory_note(proposed: bool) -> &'static str
    ensures { result.now ≡ answer_text (Answer.NoMemory proposed) }
{
    if proposed {
        "no memory proposed"
    } else {
        "no memory"
    }
}

/// Writes that a change is done, with the number of the clause that acted.
fn push_done(line: &mut String, state: &State, took: Took, ballot: Ballot) -> Result<(), AllocError>
    ensures text { OnOk result (string_bytes line.new
        ≡ string_bytes line.old ++ full_answer_text (Answer.Done state.now took ballot)) }
    ensures fits { OnOk result (AnswerFits (Answer.Done state.now took ballot)) }
{
    line.push_str("done ")?;
    push_state(line, state)?;
    write!(line, " at {ballot}")?;
    push_clause_note(line, took)
}

/// Writes which clause acted.
fn push_clause_note(line: &mut String, took: Took) -> Result<(), AllocError>
    ensures text { OnOk result (string_bytes line.new ≡ string_bytes line.old ++ clause_note took) }
    ensures fits { OnOk result (TookFits took) }
{
    match took {
        Took::Clause(number) => write!(line, " clause {number}"),
        Took::Nothing => line.push_str(" no clause"),
        Took::Unfit(number) => write!(line, " unfit {number}"),
    }
}

/// Writes why a proposed change is not known to stand.
fn push_cause(line: &mut String, why: &Cause) -> Result<(), AllocError>
    ensures text { OnOk result
        (string_bytes line.new ≡ string_bytes line.old ++ cause_text why.now) }
    ensures fits { OnOk result (CauseFits why.now) }
{
    match why {
        Cause::Met(ballot) => {
            line.push_str("met ")?;
            push_ballot(line, *ballot)
        }
        Cause::Aged(least) => {
            line.push_str("aged ")?;
            push_long_number(line, *least)
        }
        Cause::Full(acceptor) => {
            let acceptor = acceptor.number();
            write!(line, "full {acceptor}")
        }
        Cause::Short { got, need } => push_short(line, *got, *need),
        Cause::Moved(era) => {
            line.push_str("moved ")?;
            push_number(line, *era)
        }
        Cause::Crashed => line.push_str("crashed"),
    }
}

/// The line of an operator's answer.
fn print_told(alloc: Global, asked: &Asked, answer: &OpAnswer) -> Result<Vec<u8>, AllocError>
    requires { is_told answer.now ≡ true }
    ensures text { IfOk result (λ line. line.items ≡ mark_text (Mark.Told asked.now answer.now)) }
    ensures fits { IfOk result (λ _. MarkFits (Mark.Told asked.now answer.now)) }
{
    let mut line = Vec::from_slice(alloc, b"told ")?;
    line.extend_from_slice(&print_asked(alloc, asked)?)?;
    line.extend_from_slice(b" -> ")?;
    line.extend_from_slice(&print_op_answer(alloc, answer)?)?;
    Ok(line)
}

/// What an operator asked for.
fn print_asked(alloc: Global, asked: &Asked) -> Result<Vec<u8>, AllocError>
    ensures text { IfOk result (λ text. text.items ≡ asked_text asked.now) }
    ensures fits { IfOk result (λ _. AskedFits asked.now) }
{
    match asked {
        Asked::Join(id) => {
            let id = id.number();
            Ok(format!(in alloc; "join {id}")?.into_bytes())
        }
        Asked::Leave(id) => {
            let id = id.number();
            Ok(format!(in alloc; "leave {id}")?.into_bytes())
        }
        Asked::Collect(key) => around_key(String::from_str(alloc, "collect ")?, key, "", b""),
        Asked::Probe(key) => around_key(String::from_str(alloc, "probe ")?, key, "", b""),
        Asked::Resize {
            need_prep,
            need_acc,
        } => print_resize(alloc, *need_prep, *need_acc),
        Asked::Read(key) => around_key(String::from_str(alloc, "read ")?, key, "", b""),
    }
}

/// The request that quorums have these sizes.
fn print_resize(alloc: Global, need_prep: u32, need_acc: u32) -> Result<Vec<u8>, AllocError>
    ensures text { IfOk result (λ text. text.items ≡ asked_text (Asked.Resize need_prep need_acc)) }
    ensures fits { AskedFits (Asked.Resize need_prep need_acc) }
{
    Ok(format!(in alloc; "resize {need_prep} {need_acc}")?.into_bytes())
}

/// What an operator was answered.
fn print_op_answer(alloc: Global, answer: &OpAnswer) -> Result<Vec<u8>, AllocError>
    requires { is_told answer.now ≡ true }
    ensures text { IfOk result (λ text. text.items ≡ told_text answer.now) }
    ensures fits { IfOk result (λ _. ToldFits answer.now) }
{
    match answer {
        OpAnswer::Joined { id, era, rescanned } => {
            print_finished(alloc, "joined ", *id, *era, *rescanned)
        }
        OpAnswer::Left { id, era, rescanned } => {
            print_finished(alloc, "left ", *id, *era, *rescanned)
        }
        OpAnswer::Resized {
            need_prep,
            need_acc,
            era,
            rescanned,
        } => print_resized(alloc, "resized ", *need_prep, *need_acc, *era, *rescanned),
        OpAnswer::Refused(fault) => Ok(format!(in alloc; "{fault}")?.into_bytes()),
        OpAnswer::Busy { era } => {
            let mut text = String::from_str(alloc, "busy ")?;
            push_number(&mut text, *era)?;
            Ok(text.into_bytes())
        }
        OpAnswer::Collected {
            key,
            ballot,
            removed,
            kept,
        } => print_collected(alloc, key, *ballot, *removed, *kept),
        OpAnswer::NotEmpty { version } => {
            let mut text = String::from_str(alloc, "not empty v")?;
            push_long_number(&mut text, *version)?;
            Ok(text.into_bytes())
        }
        OpAnswer::Absent { acceptor } => {
            let acceptor = acceptor.number();
            Ok(format!(in alloc; "absent {acceptor}")?.into_bytes())
        }
        OpAnswer::ProposerDown { proposer } => print_proposer_down(alloc, *proposer),
        OpAnswer::Probed { .. } => unreachable!(),
        OpAnswer::Stopped(answer) => {
            let mut text = String::new(alloc);
            push_answer(&mut text, answer)?;
            Ok(text.into_bytes())
        }
    }
}

/// The answer that a plan is finished, behind the name of what it did.
fn print_finished(
    alloc: Global,
    name: &str,
    id: AcceptorId,
    era: u32,
    rescanned: u32,
) -> Result<Vec<u8>, AllocError>
    ensures text { IfOk result (λ text. text.items ≡ name.now ++ decimal
        id ++ codes " era " ++ decimal era ++ codes " rescanned " ++ decimal rescanned) }
    ensures fits { IfOk result (λ _. FinishFits id era rescanned) }
{
    let number = id.number();
    let mut text = String::from_str(alloc, name)?;
    write!(text, "{number} era {era}")?;
    write!(text, " rescanned {rescanned}")?;
    Ok(text.into_bytes())
}

/// The answer that quorums have these sizes, behind the name of what was done.
fn print_resized(
    alloc: Global,
    name: &str,
    need_prep: u32,
    need_acc: u32,
    era: u32,
    rescanned: u32,
) -> Result<Vec<u8>, AllocError>
    ensures text { IfOk result (λ text. text.items ≡ name.now ++ decimal need_prep ++ codes " "
        ++ decimal need_acc ++ codes " era " ++ decimal era
        ++ codes " rescanned " ++ decimal rescanned) }
    ensures fits { ToldFits (OpAnswer.Resized need_prep need_acc era rescanned) }
{
    let mut text = String::from_str(alloc, name)?;
    write!(text, "{need_prep} {need_acc}")?;
    write!(text, " era {era}")?;
    write!(text, " rescanned {rescanned}")?;
    Ok(text.into_bytes())
}

/// The answer that a step of this proposer is due, which is down.
fn print_proposer_down(alloc: Global, proposer: u8) -> Result<Vec<u8>, AllocError>
    ensures text { IfOk result (λ text. text.items ≡ told_text (OpAnswer.ProposerDown proposer)) }
    ensures fits { proposer < 2 ^ 8 }
{
    Ok(format!(in alloc; "proposer down {proposer}")?.into_bytes())
}

/// The answer that a key was collected.
fn print_collected(
    alloc: Global,
    key: &Key,
    ballot: Ballot,
    removed: u32,
    kept: u32,
) -> Result<Vec<u8>, AllocError>
    ensures text { IfOk result
        (λ text. text.items ≡ told_text (OpAnswer.Collected key.now ballot removed kept)) }
    ensures fits { IfOk result (λ _. ToldFits (OpAnswer.Collected key.now ballot removed kept)) }
{
    let head = String::from_str(alloc, "collected ")?;
    let mut tail = String::new(alloc);
    write!(tail, " at {ballot} removed {removed} kept {kept}")?;
    around_key(head, key, "", tail.as_bytes())
}
