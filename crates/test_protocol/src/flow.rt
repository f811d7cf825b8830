//! Frames in flight.

ghost use Rattle.std.specs.Prelude.{IfOk, IsSome};
ghost use Rattle.cas_wire.specs.Frame.{CanBeAsked, CanBeTold};

use cas_ballot::{AcceptorId, Ballot};
use cas_fate::{Leg, Verdict};
use cas_flow::{Flow, Frame, MOST_LATE, Message};
use cas_slot::{Ages, Ask, Phase, Reply, Request, Tell};
use std::alloc::{AllocError, Global};
use std::test::Fail;

const TAG: Ballot = Ballot {
    counter: 3,
    proposer: 1,
};

fn acceptor(number: u8) -> Result<AcceptorId, Fail> {
    Ok(AcceptorId::new(number).ok_or("no acceptor")?)
}

fn request(to: u8) -> Result<Request, Fail>
    ensures { IfOk result CanBeAsked }
{
    Ok(Request {
        to: acceptor(to)?,
        from: 1,
        age: 0,
        ask: Ask::Ages {
            tag: TAG,
            least: Ages::ZERO,
        },
    })
}

fn reply(from: u8) -> Result<Reply, Fail>
    ensures { IfOk result CanBeTold }
{
    Ok(Reply {
        from: acceptor(from)?,
        to: 1,
        phase: Phase::Ages,
        tag: TAG,
        tell: Tell::AgesSet,
    })
}

fn asked(alloc: Global, to: u8) -> Result<Frame, Fail>
    ensures { IfOk result IsSome }
{
    Ok(Frame::request(alloc, &request(to)?)?)
}

fn told(alloc: Global, from: u8) -> Result<Frame, Fail>
    ensures { IfOk result IsSome }
{
    let mut frame = Frame::blank(alloc)?;
    frame.fill(&reply(from)?);
    Ok(frame)
}

// The leg and the acceptor's number of the first own frame of proposer 1.
fn first(flow: &Flow) -> Option<(Leg, u8)> {
    match flow.front(1) {
        Some((leg, peer)) => Some((leg, peer.number())),
        None => None,
    }
}

// The acceptor's number of a frame, and 0 where it is blank.
fn peer_of(alloc: Global, frame: &Frame) -> Result<u8, AllocError> {
    if frame.is_blank() {
        return Ok(0);
    }
    let peer = match frame.read(alloc)? {
        Message::Request(request) => request.to,
        Message::Reply(reply) => reply.from,
    };
    Ok(peer.number())
}

// Whether these are the acceptors' numbers of the late frames.
fn are_late(alloc: Global, flow: &Flow, want: &[u8]) -> Result<bool, AllocError> {
    let mut same = flow.late() == want.len();
    for index in 0..flow.late() {
        let peer = peer_of(alloc, flow.look_late(index))?;
        same = same && want.get(index) == Some(&peer);
    }
    Ok(same)
}

// Whether the frame bears this message and no other.
fn bears(alloc: Global, frame: &Frame, want: &Message) -> Result<bool, AllocError> {
    if frame.is_blank() {
        return Ok(false);
    }
    let found = frame.read(alloc)?;
    Ok(found == *want)
}

// Whether a request, and a reply, come out of a frame as they went in.
fn bears_request(alloc: Global) -> Result<bool, Fail> {
    let frame = asked(alloc, 2)?;
    let want = Message::Request(request(2)?);
    Ok(bears(alloc, &frame, &want)?)
}

fn bears_reply(alloc: Global) -> Result<bool, Fail> {
    let frame = told(alloc, 3)?;
    let want = Message::Reply(reply(3)?);
    Ok(bears(alloc, &frame, &want)?)
}

#[test]
fn a_frame_comes_out_as_it_went_in(rt: HostRuntime) -> Result<(), Fail> {
    let alloc = rt.alloc();
    let blank = Frame::blank(alloc)?.is_blank();
    let found = (bears_request(alloc)?, bears_reply(alloc)?, blank);
    assert_eq!(rt; found, (true, true, true));
    Ok(())
}

// Requests in rising number, then each reply behind.
#[test]
fn own_frames_keep_their_order(rt: HostRuntime) -> Result<(), Fail> {
    let alloc = rt.alloc();
    let mut flow = Flow::new(alloc)?;
    flow.reserve_own(1, 4)?;
    flow.push_own(1, asked(alloc, 1)?);
    flow.push_own(1, asked(alloc, 2)?);
    let one = first(&flow);
    flow.take(1, Verdict::Deliver);
    flow.push_own(1, told(alloc, 1)?);
    let two = first(&flow);
    if flow.front(1).is_some() {
        flow.take(1, Verdict::Lose);
    }
    let want = [
        Some((Leg::Ages, 1)),
        Some((Leg::Ages, 2)),
        Some((Leg::Reply, 1)),
    ];
    assert_eq!(rt; [one, two, first(&flow)], want);
    assert_eq!(rt; (flow.front(2).is_some(), flow.late()), (false, 0));
    Ok(())
}

fn push_late(alloc: Global, flow: &mut Flow, to: u8) -> Result<(), Fail> {
    flow.push_late(asked(alloc, to)?);
    Ok(())
}

#[test]
fn a_taken_late_frame_closes_the_gap(rt: HostRuntime) -> Result<(), Fail> {
    let alloc = rt.alloc();
    let mut flow = Flow::new(alloc)?;
    for peer in 1..4 {
        push_late(alloc, &mut flow, peer)?;
    }
    let all = are_late(alloc, &flow, &[1, 2, 3])?;
    if flow.late() == 3 {
        flow.take_late(1);
    }
    let left = are_late(alloc, &flow, &[1, 3])?;
    assert_eq!(rt; (all, left), (true, true));
    Ok(())
}

#[test]
fn a_late_frame_into_a_full_pool_is_lost(rt: HostRuntime) -> Result<(), Fail> {
    let mut flow = Flow::new(rt.alloc())?;
    for _ in 0..MOST_LATE {
        push_late(rt.alloc(), &mut flow, 1)?;
    }
    let full = flow.late();
    push_late(rt.alloc(), &mut flow, 2)?;
    assert_eq!(rt; (full, flow.late()), (MOST_LATE, MOST_LATE));
    Ok(())
}
