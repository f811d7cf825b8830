//! Frames to the members of an era.

ghost use Rattle.std.specs.Prelude.{◌≡◌, ◌*◌, ◌<◌, ◌≤◌, length, map, true, Some, IfOk, OnOk, OnErr};
ghost use Rattle.cas_flow.specs.Flow.{queue_at};
ghost use Rattle.cas_flow.specs.declared.message.Message.TheVariants as message;
ghost use Rattle.cas_flow.specs.Queue.{all_bear, messages_of};
ghost use Rattle.cas_slot.specs.Limits.{AskBallotsFit};
ghost use Rattle.cas_ballot.specs.Ballot.{FitsBallot};
ghost use Rattle.cas_model.specs.Council.{exchange_place};
ghost use Rattle.cas_model.specs.Calls.Step.{Sends};
ghost use Rattle.cas_model.specs.Exchanges.Step.{question_to, questions_to};
ghost use Rattle.cas_world_calls.specs.Council.{question_view};
ghost use Rattle.cas_world_calls.specs.Sending.{requests_to};

use crate::council::{EXCHANGE_PLACE, Question};
use cas_ballot::{AcceptorId, Ballot, Members};
use cas_flow::{Flow, Frame};
use cas_slot::{Ask, Request};
use std::alloc::{AllocError, Global};

/// Asks each of these members by frames in that queue, in rising number: all of them or, after an `Err`, none. There is room then for all replies to
/// them, of which each request may have two.
pub fn send_to(
    alloc: Global,
    flow: &mut Flow,
    queue: u8,
    members: &Members,
    proposer: u8,
    age: u64,
    ask: Ask,
) -> Result<(), AllocError>
    requires proposer { proposer ≤ 16 }
    requires place { queue ≤ 17 }
    requires queue { queue < length flow.old.own }
    requires ballots { AskBallotsFit ask }
    ensures sent { OnOk result
        (Sends flow.old queue (requests_to proposer age ask members.now) flow.new) }
    ensures not_sent { OnErr result (flow.new ≡ flow.old) }
{
    let frames = frames_to(alloc, flow, members, proposer, age, ask)?;
    flow.reserve_own(queue, 2 * frames.len())?;
    push_all(flow, queue, frames);
    Ok(())
}

/// The frames that ask each of these members, in rising number. They are blank frames of the flow, in which nothing else changes.
fn frames_to(
    alloc: Global,
    flow: &mut Flow,
    members: &Members,
    proposer: u8,
    age: u64,
    ask: Ask,
) -> Result<Vec<Frame>, AllocError>
    requires proposer { proposer ≤ 16 }
    requires ballots { AskBallotsFit ask }
    ensures same { flow.new ≡ flow.old }
    ensures each { IfOk result
        (λ frames. frames.items ≡ map Some (requests_to proposer age ask members.now)) }
    ensures few { IfOk result (λ frames. length frames.items ≤ 64) }
{
    let mut frames = Vec::with_capacity(alloc, members.count() as usize)?;
    let mut request = Request {
        to: AcceptorId::new(0).unwrap(),
        from: proposer,
        age,
        ask,
    };
    for number in 0..members.end() {
        let id = AcceptorId::new(number).unwrap();
        if members.has(id) {
            request.to = id;
            let mut frame = flow.blank(alloc)?;
            frame.ask(&request);
            frames.push(frame)?;
        }
    }
    Ok(frames)
}

/// Asks each of these members the question of an exchange, in rising number: all of them or, after an `Err`, none. There is room then for
/// all replies to them, of which each request may have two.
pub fn send_questions(
    alloc: Global,
    flow: &mut Flow,
    members: &Members,
    age: u64,
    tag: Ballot,
    question: &Question,
) -> Result<(), AllocError>
    requires queue { exchange_place < length flow.old.own }
    requires tag { FitsBallot tag }
    ensures sent { OnOk result (Sends flow.old exchange_place
        (questions_to age tag (question_view question.now) members.now) flow.new) }
    ensures not_sent { OnErr result (flow.new ≡ flow.old) }
{
    let frames = questions_to(alloc, members, age, tag, question)?;
    flow.reserve_own(EXCHANGE_PLACE, 2 * frames.len())?;
    push_all(flow, EXCHANGE_PLACE, frames);
    Ok(())
}

/// The frames that ask each of these members the question, in rising number.
fn questions_to(
    alloc: Global,
    members: &Members,
    age: u64,
    tag: Ballot,
    question: &Question,
) -> Result<Vec<Frame>, AllocError>
    requires tag { FitsBallot tag }
    ensures each { IfOk result (λ frames. frames.items ≡ map Some
        (questions_to age tag (question_view question.now) members.now)) }
    ensures few { IfOk result (λ frames. length frames.items ≤ 64) }
{
    let mut frames = Vec::with_capacity(alloc, members.count() as usize)?;
    for number in 0..members.end() {
        let id = AcceptorId::new(number).unwrap();
        if members.has(id) {
            frames.push(question_to(alloc, id, age, tag, question)?)?;
        }
    }
    Ok(frames)
}

/// The frame that asks the member the question.
fn question_to(
    alloc: Global,
    to: AcceptorId,
    age: u64,
    tag: Ballot,
    question: &Question,
) -> Result<Frame, AllocError>
    requires tag { FitsBallot tag }
    ensures { IfOk result (λ frame.
        frame ≡ Some (message.Request (question_to age tag (question_view question.now) to))) }
{
    let request = Request {
        to,
        from: 0,
        age,
        ask: question.ask(tag, to)?,
    };
    Frame::request(alloc, &request)
}

/// Puts the frames, none of which is blank, behind the queue's others. There is room for twice as many.
fn push_all(flow: &mut Flow, queue: u8, frames: Vec<Frame>)
    requires place { queue ≤ 17 }
    requires queue { queue < length flow.old.own }
    requires bear { all_bear frames.items ≡ true }
    requires room { 2 * length frames.items ≤ (queue_at flow.old queue).room }
    ensures { Sends flow.old queue (messages_of frames.items) flow.new }
{
    for frame in frames {
        flow.push_own(queue, frame);
    }
}
