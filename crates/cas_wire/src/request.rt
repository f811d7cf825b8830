//! The frames of requests.

ghost use Rattle.std.specs.Prelude.{◌≡◌, ℕ, ◌+◌, ◌≤◌, List, [], ◌++◌, length, Some, IfOk, IfSome, vec_len, vec_capacity};
ghost use Rattle.cas_slot.specs.declared.message.Request.{Request};
ghost use Rattle.cas_slot.specs.Limits.{AskBallotsFit};
ghost use Rattle.cas_wire.specs.Frame.{IsRequestFrame, CanBeAsked, FitsAsk, FitsRequest, ask_spelling, request_spelling};
ghost use Rattle.cas_wire.specs.FrameReading.{named_at, accept_at, ages_at, ask_at, request_head_at, request_at};
ghost use Rattle.cas_wire.specs.Kinds.{phases};
ghost use Rattle.cas_wire.specs.Part.{Gives};
ghost use Rattle.cas_wire.specs.Room.{ask_room};
ghost use Rattle.cas_wire.specs.Writing.{Puts};

use crate::frame::{FORMAT, LONGEST_FRAME, acceptor_at, format_at, phase_at, whole};
use crate::reading::{self, ReadError};
use crate::{kinds, writing};
use cas_ballot::AcceptorId;
use cas_change::Key;
use cas_slot::{Ages, Ask, PROPOSERS, Phase, Request};
use std::alloc::{AllocError, Global};

/// What stands before the question.
#[derive(Drop)]
struct RequestHead {
    phase: Phase,
    to: AcceptorId,
    from: u8,
    age: u64,
}

fn ages_at(bytes: &[u8]) -> Result<(Ages, &[u8]), ReadError>
    ensures { Gives (λ x. (x.0.0, x.1.now)) result (ages_at bytes.now) }
{
    let mut least = Ages::ZERO;
    let mut rest = bytes;
    for i in 0..PROPOSERS {
        let (age, after) = reading::u64_at(rest)?;
        least.0[i] = age;
        rest = after;
    }
    Ok((least, rest))
}

#[tactic(auto, unfolding(crate::specs::FrameReading::accept_at))]
fn accept_at<'a>(
    alloc: Global,
    bytes: &'a [u8],
    known: Option<&Key>,
) -> Result<(Ask, &'a [u8]), ReadError>
    ensures { Gives (λ x. (x.0, x.1.now)) result (accept_at bytes.now) }
{
    let (key, rest) = reading::key_at(alloc, bytes, known)?;
    let (ballot, rest) = reading::ballot_at(rest)?;
    let (era, rest) = reading::u32_at(rest)?;
    let (ride, rest) = reading::ballot_or_none_at(rest)?;
    let (state, rest) = reading::state_at(alloc, rest)?;
    let ask = Ask::Accept {
        key,
        ballot,
        era,
        ride,
        state,
    };
    Ok((ask, rest))
}

/// The question of that kind.
#[tactic(auto, unfolding(crate::specs::FrameReading::ask_at))]
fn ask_at<'a>(
    alloc: Global,
    phase: Phase,
    bytes: &'a [u8],
    known: Option<&Key>,
) -> Result<(Ask, &'a [u8]), ReadError>
    ensures { Gives (λ x. (x.0, x.1.now)) result (ask_at phase bytes.now) }
{
    match phase {
        Phase::Prepare => {
            let (key, rest) = reading::key_at(alloc, bytes, known)?;
            let (ballot, rest) = reading::ballot_at(rest)?;
            Ok((Ask::Prepare { key, ballot }, rest))
        }
        Phase::Accept => accept_at(alloc, bytes, known),
        Phase::Ages => {
            let (tag, rest) = reading::ballot_at(bytes)?;
            let (least, rest) = ages_at(rest)?;
            Ok((Ask::Ages { tag, least }, rest))
        }
        Phase::Remove => {
            let (key, rest) = reading::key_at(alloc, bytes, known)?;
            let (tomb, rest) = reading::ballot_at(rest)?;
            Ok((Ask::Remove { key, tomb }, rest))
        }
        Phase::List => {
            let (tag, rest) = reading::ballot_at(bytes)?;
            let (after, rest) = reading::key_or_none_at(alloc, rest)?;
            Ok((Ask::List { tag, after }, rest))
        }
        Phase::Probe => {
            let (tag, rest) = reading::ballot_at(bytes)?;
            let (key, rest) = reading::key_at(alloc, rest, known)?;
            Ok((Ask::Probe { tag, key }, rest))
        }
    }
}

#[tactic(auto, unfolding(crate::specs::FrameReading::request_head_at))]
fn request_head_at(bytes: &[u8]) -> Result<(RequestHead, &[u8]), ReadError>
    ensures { Gives (λ x. (x.0, x.1.now)) result (request_head_at bytes.now) }
{
    let (_, rest) = format_at(bytes)?;
    let (phase, rest) = phase_at(rest)?;
    let (to, rest) = match acceptor_at(rest) {
        Ok(found) => found,
        Err(error) => return Err(error),
    };
    let (from, rest) = reading::proposer_at(rest)?;
    let (age, rest) = reading::u64_at(rest)?;
    let head = RequestHead {
        phase,
        to,
        from,
        age,
    };
    Ok((head, rest))
}

#[tactic(auto, unfolding(crate::specs::FrameReading::request_at))]
fn request_at<'a>(
    alloc: Global,
    bytes: &'a [u8],
    known: Option<&Key>,
) -> Result<(Request, &'a [u8]), ReadError>
    ensures { Gives (λ x. (x.0, x.1.now)) result (request_at bytes.now) }
{
    let (head, rest) = match request_head_at(bytes) {
        Ok(found) => found,
        Err(error) => return Err(error),
    };
    let (ask, rest) = ask_at(alloc, head.phase, rest, known)?;
    let request = Request {
        to: head.to,
        from: head.from,
        age: head.age,
        ask,
    };
    Ok((request, rest))
}

/// The request whose frame these bytes are. `None` comes exactly where they are no request's frame.
pub fn decode_request(alloc: Global, bytes: &[u8]) -> Result<Option<Request>, AllocError>
    ensures found { IfOk result (λ found. IfSome found (IsRequestFrame bytes.now)) }
    ensures only { (request : Request)
        → IsRequestFrame bytes.now request → IfOk result (λ found. found ≡ Some request) }
{
    decode_request_knowing(alloc, bytes, None)
}

/// The same as `decode_request`. Where the request names the key `known`, which may be any, it gets a copy of that, which takes no memory of its own.
pub fn decode_request_knowing(
    alloc: Global,
    bytes: &[u8],
    known: Option<&Key>,
) -> Result<Option<Request>, AllocError>
    ensures found { IfOk result (λ found. IfSome found (IsRequestFrame bytes.now)) }
    ensures only { (request : Request)
        → IsRequestFrame bytes.now request → IfOk result (λ found. found ≡ Some request) }
{
    match request_at(alloc, bytes, known) {
        Ok((request, rest)) => Ok(whole(request, rest)),
        Err(ReadError::Wrong { .. }) => Ok(None),
        Err(ReadError::NoMemory) => Err(AllocError),
    }
}

/// How much room the text of a question takes.
fn ask_room(ask: &Ask) -> usize
    ensures room { result ≡ ask_room ask.now }
    ensures small { result ≤ 4000 }
{
    match ask {
        Ask::Accept { state, .. } => writing::state_room(state),
        Ask::Prepare { .. }
        | Ask::Ages { .. }
        | Ask::Remove { .. }
        | Ask::List { .. }
        | Ask::Probe { .. } => 0,
    }
}

#[tactic(auto, unfolding(crate::specs::Frame::ask_spelling))]
fn put_ask(out: &mut Vec<u8>, ask: &Ask)
    requires room { vec_len out.old + (145 + ask_room ask.now) ≤ vec_capacity out.old }
    requires ballots { AskBallotsFit ask.now }
    ensures spelling { Puts out.old out.new (ask_spelling ask.now) (145 + ask_room ask.now) }
    ensures fits { FitsAsk ask.now }
{
    match ask {
        Ask::Prepare { key, ballot } => {
            writing::put_key(out, key);
            writing::put_ballot(out, *ballot);
        }
        Ask::Accept {
            key,
            ballot,
            era,
            ride,
            state,
        } => {
            writing::put_key(out, key);
            writing::put_ballot(out, *ballot);
            writing::put_u32(out, *era);
            writing::put_ballot_or_none(out, *ride);
            writing::put_state(out, state);
        }
        Ask::Ages { tag, least } => {
            writing::put_ballot(out, *tag);
            writing::put_numbers(out, &least.0);
        }
        Ask::Remove { key, tomb } => {
            writing::put_key(out, key);
            writing::put_ballot(out, *tomb);
        }
        Ask::List { tag, after } => {
            writing::put_ballot(out, *tag);
            writing::put_key_or_none(out, after.as_ref());
        }
        Ask::Probe { tag, key } => {
            writing::put_ballot(out, *tag);
            writing::put_key(out, key);
        }
    }
}

#[tactic(auto, unfolding(crate::specs::Frame::request_spelling))]
fn put_request(out: &mut Vec<u8>, request: &Request)
    requires room { vec_len out.old + (157 + ask_room request.now.ask) ≤ vec_capacity out.old }
    requires ask { CanBeAsked request.now }
    ensures spelling { Puts out.old out.new
        (request_spelling request.now) (157 + ask_room request.now.ask) }
    ensures fits { FitsRequest request.now }
{
    writing::put_byte(out, FORMAT);
    writing::put_byte(out, kinds::phase_byte(request.ask.phase()));
    writing::put_byte(out, request.to.number());
    writing::put_byte(out, request.from);
    writing::put_u64(out, request.age);
    put_ask(out, &request.ask);
}

/// The frame of a request, which begins no other request's frame.
pub fn encode_request(alloc: Global, request: &Request) -> Result<Vec<u8>, AllocError>
    requires { CanBeAsked request.now }
    ensures frame { IfOk result (λ frame. IsRequestFrame frame.items request.now) }
    ensures short { IfOk result (λ frame. length frame.items ≤ LONGEST_FRAME) }
    ensures alone { IfOk result (λ frame. (more : List ℕ) (other : Request)
        → IsRequestFrame (frame.items ++ more) other → (more ≡ []) × (other ≡ request.now)) }
{
    let mut frame = Vec::with_capacity(alloc, 157 + ask_room(&request.ask))?;
    put_request(&mut frame, request);
    Ok(frame)
}

/// Puts the frame of a request into an empty buffer with room for every frame. It takes no memory.
pub fn encode_request_into(request: &Request, out: &mut Vec<u8>)
    requires asked { CanBeAsked request.now }
    requires empty { out.old.items ≡ [] }
    requires room { LONGEST_FRAME ≤ vec_capacity out.old }
    ensures frame { IsRequestFrame out.new.items request.now }
    ensures short { length out.new.items ≤ LONGEST_FRAME }
    ensures alone { (more : List ℕ) (other : Request)
        → IsRequestFrame (out.new.items ++ more) other → (more ≡ []) × (other ≡ request.now) }
    ensures room_stays { vec_capacity out.old ≤ vec_capacity out.new }
{
    put_request(out, request);
}
