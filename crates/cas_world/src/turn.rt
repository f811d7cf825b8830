//! The turn of a proposer's first frame.

ghost use Rattle.std.specs.Prelude.{◌≡◌, ◌≢◌, ◌≤◌, ◌<◌, ◌^◌, ◌++◌, [], Some, None, false, true, IsSome, IfSome, IfOk, OnOk, OnErr, length, slice_get, is_some};
ghost use Rattle.cas_flow.specs.Flow.{queue_at, taken};
ghost use Rattle.cas_flow.specs.Message.{head_of, FitsMessage, CanBeSent};
ghost use Rattle.cas_flow.specs.declared.message.Message.{Message as AMessage};
ghost use Rattle.cas_flow.specs.declared.message.Message.TheVariants as message;
ghost use Rattle.cas_proposer.specs.Desk.{met_counter};
ghost use Rattle.cas_round.specs.Replies.{met_by};
ghost use Rattle.cas_world.specs.Exchanges.Exchange.{place_of, turn_of, refusal_of};
ghost use Rattle.cas_world.specs.Frames.Serve.{KeepsAll, AreNumbered};
ghost use Rattle.cas_world.specs.Frames.Turn.{HasReservedMark, MakesInRoom, Harms, Asks, Arrives, HandlesFrame};
ghost use Rattle.cas_model.specs.Step.{Step, Turn, RefuseTurn};
ghost use Rattle.cas_model.specs.View.{meaning, shelf_meaning};
ghost use Rattle.cas_slot.specs.declared.message.Request.{Request as ARequest};

use crate::serve::{Served, serve_by};
use crate::world::World;
use cas_acceptor::Acceptor;
use cas_ballot::AcceptorId;
use cas_change::Key;
use cas_disk::Disk;
use cas_fate::Verdict;
use cas_flow::{Fall, Flow, Message};
use cas_proposer::Desk;
use cas_record::{Answer, Record};
use cas_slot::{Reply, Request, Shelf};
use cas_world_calls::call::Caller;
use std::alloc::{AllocError, Global};

impl<S: Shelf, V: Disk> World<S, V> {
    /// The first of the proposer's own frames has its turn, and this becomes of it: an acceptor handles the request that it bears, or
    /// its reply arrives, or it is lost, made late or held back. A frame to an acceptor that is down is gone.
    ///
    /// In each phase of a round the first frame of an acceptor that is harmed is marked, and no other. After an `Err` all is as before
    /// and the frame waits, and the caller is told that no memory was found.
    ///
    /// While an exchange is open, its frames are those of proposer 0; the operator's call is then told that no memory was found.
    pub fn turn(&mut self, proposer: u8, verdict: Verdict) -> Result<(), AllocError>
        requires proposer { proposer ≤ self.old.last_proposer }
        requires waits { (queue_at self.old.flow (place_of self.old proposer)).messages ≢ [] }
        ensures ok { OnOk result
            (Step (meaning S.Shelf V.Disk) self.old (turn_of self.old proposer verdict) self.new) }
        ensures err { OnErr result
            (Step (meaning S.Shelf V.Disk) self.old (refusal_of self.old proposer) self.new) }
    {
        if self.asks_as(proposer) {
            self.turn_exchange(verdict)
        } else {
            self.turn_round(proposer, verdict)
        }
    }

    /// The first frame of the proposer's round has its turn.
    fn turn_round(&mut self, proposer: u8, verdict: Verdict) -> Result<(), AllocError>
        requires proposer { proposer ≤ self.old.last_proposer }
        requires waits { (queue_at self.old.flow proposer).messages ≢ [] }
        ensures ok { OnOk result
            (Step (meaning S.Shelf V.Disk) self.old (Turn proposer verdict) self.new) }
        ensures err { OnErr result
            (Step (meaning S.Shelf V.Disk) self.old (RefuseTurn proposer) self.new) }
    {
        let alloc = *self.acceptors.allocator();
        let place = usize::from(proposer);
        let done = match self.flow.falls(proposer, verdict) {
            Fall::Held => return Ok(()),
            Fall::Gone => {
                lose(
                    &mut self.flow,
                    &mut self.callers[place],
                    &mut self.record,
                    proposer,
                    verdict,
                );
                return Ok(());
            }
            Fall::Handle => handle(
                alloc,
                &mut self.acceptors,
                &mut self.desks[place],
                &mut self.callers[place],
                &mut self.flow,
                &mut self.record,
                proposer,
                verdict,
            ),
        };
        match done {
            Ok(()) => Ok(()),
            Err(error) => {
                tell_no_memory(&mut self.callers[place]);
                Err(error)
            }
        }
    }
}

/// The caller is told that no memory was found, and whether its change was proposed.
fn tell_no_memory(caller: &mut Caller)
    requires { IsSome caller.old.call }
    ensures { IfSome caller.old.call (λ call. caller.new ≡ record caller.old {
      call = Some
          (record call { told = Some (Answer.NoMemory (is_some call.proposed)) });
    }) }
{
    let proposed = caller.has_proposed();
    caller.tell(&Answer::NoMemory { proposed });
}

/// The first frame is lost or made late.
fn lose(flow: &mut Flow, caller: &mut Caller, record: &mut Record, proposer: u8, verdict: Verdict)
    requires proposer { proposer ≤ 16 }
    requires waits { (queue_at flow.old proposer).messages ≢ [] }
    requires mark { HasReservedMark caller.old «record».old.room }
    ensures flow { flow.new ≡ taken flow.old proposer verdict }
    ensures harms { (front : AMessage)
        → slice_get (queue_at flow.old proposer).messages 0 ≡ Some front
        → Harms proposer caller.old caller.new «record».old «record».new (head_of front).1 false }
{
    let peer = peer_of(flow, proposer);
    flow.take(proposer, verdict);
    caller.harm(record, proposer, peer, false);
}

/// The acceptor at the other end of the queue's first frame.
pub(crate) fn peer_of(flow: &Flow, queue: u8) -> AcceptorId
    requires place { queue ≤ 17 }
    requires waits { (queue_at flow.now queue).messages ≢ [] }
    ensures { (front : AMessage)
        → slice_get (queue_at flow.now queue).messages 0 ≡ Some front → result ≡ (head_of front).1 }
{
    match flow.front(queue) {
        Some((_, peer)) => peer,
        None => unreachable!(),
    }
}

/// What the first frame bears is handled.
fn handle<S: Shelf, V: Disk>(
    alloc: Global,
    acceptors: &mut Vec<Acceptor<S>>,
    desk: &mut Desk<V>,
    caller: &mut Caller,
    flow: &mut Flow,
    record: &mut Record,
    proposer: u8,
    verdict: Verdict,
) -> Result<(), AllocError>
    requires proposer { proposer ≤ 16 }
    requires numbered { AreNumbered acceptors.old.items (length acceptors.old.items) }
    requires waits { (queue_at flow.old proposer).messages ≢ [] }
    requires room { (request : ARequest)
        → slice_get (queue_at flow.old proposer).messages 0 ≡ Some (message.Request request)
        → 0 < (queue_at (taken flow.old proposer verdict) proposer).room }
    requires mark { HasReservedMark caller.old «record».old.room }
    ensures ok { OnOk result (HandlesFrame (shelf_meaning S.Shelf)
        proposer verdict acceptors.old.items acceptors.new.items
        desk.old desk.new caller.old caller.new flow.old flow.new «record».old «record».new) }
    ensures err { OnErr result
        (KeepsAll (shelf_meaning S.Shelf) acceptors.old.items acceptors.new.items) }
    ensures same { OnErr result ((desk.new ≡ desk.old)
        × (caller.new ≡ caller.old) × (flow.new ≡ flow.old) × («record».new ≡ «record».old)) }
{
    match first(alloc, flow, proposer, own_key(caller))? {
        Message::Request(request) => ask(
            alloc, acceptors, caller, flow, record, proposer, verdict, &request,
        ),
        Message::Reply(reply) => {
            arrive(desk, caller, flow, proposer, verdict, reply);
            Ok(())
        }
    }
}

/// What the first frame of the queue bears. Where a request names the key `known`, which may be any, it gets a copy of that.
pub(crate) fn first(
    alloc: Global,
    flow: &Flow,
    queue: u8,
    known: Option<&Key>,
) -> Result<Message, AllocError>
    requires place { queue ≤ 17 }
    requires waits { (queue_at flow.now queue).messages ≢ [] }
    ensures message { IfOk result
        (λ message. slice_get (queue_at flow.now queue).messages 0 ≡ Some message) }
    ensures fits { IfOk result FitsMessage }
    ensures sent { IfOk result CanBeSent }
{
    match flow.look(queue) {
        Some(frame) => frame.read_knowing(alloc, known),
        None => unreachable!(),
    }
}

/// The key of the caller's open call, if one is open.
fn own_key(caller: &Caller) -> Option<&Key> {
    match &caller.call {
        Some(call) => Some(&call.key),
        None => None,
    }
}

/// The acceptor that is asked answers, and its reply waits behind the proposer's other frames; or it is down.
fn ask<S: Shelf>(
    alloc: Global,
    acceptors: &mut Vec<Acceptor<S>>,
    caller: &mut Caller,
    flow: &mut Flow,
    record: &mut Record,
    proposer: u8,
    verdict: Verdict,
    request: &Request,
) -> Result<(), AllocError>
    requires proposer { proposer ≤ 16 }
    requires numbered { AreNumbered acceptors.old.items (length acceptors.old.items) }
    requires asked { CanBeSent (message.Request request.now) }
    requires waits { (queue_at flow.old proposer).messages ≢ [] }
    requires room { 0 < (queue_at (taken flow.old proposer verdict) proposer).room }
    requires mark { HasReservedMark caller.old «record».old.room }
    ensures ok { OnOk result
        (Asks (shelf_meaning S.Shelf) proposer verdict request.now acceptors.old.items
        acceptors.new.items caller.old caller.new flow.old flow.new «record».old «record».new) }
    ensures err { OnErr result
        (KeepsAll (shelf_meaning S.Shelf) acceptors.old.items acceptors.new.items) }
    ensures same { OnErr result ((caller.new ≡ caller.old)
        × (flow.new ≡ flow.old) × («record».new ≡ «record».old)) }
{
    let frame = flow.blank(alloc)?;
    let served = serve_by(acceptors, request, frame)?;
    flow.take(proposer, verdict);
    match served {
        Served::Replied { frame, vote } => {
            flow.push_own(proposer, frame);
            caller.silence();
            if let Some(mark) = vote {
                caller.mark(record, mark);
            }
        }
        Served::Down => caller.harm(record, proposer, request.to, true),
    }
    Ok(())
}

/// A reply arrives at the desk.
fn arrive<V: Disk>(
    desk: &mut Desk<V>,
    caller: &mut Caller,
    flow: &mut Flow,
    proposer: u8,
    verdict: Verdict,
    reply: Reply,
)
    requires proposer { proposer ≤ 16 }
    requires waits { (queue_at flow.old proposer).messages ≢ [] }
    requires fits { met_counter (met_by reply.tell) ≤ 2 ^ 48 }
    requires open { IsSome caller.old.call }
    ensures desk { Arrives desk.old desk.new reply }
    ensures caller { IfSome caller.old.call
        (λ call. caller.new ≡ record caller.old { call = Some (record call { told = None }) }) }
    ensures flow { flow.new ≡ taken flow.old proposer verdict }
{
    flow.take(proposer, verdict);
    desk.arrive(reply);
    caller.silence();
}
