//! A late frame that strays in.

ghost use Rattle.std.specs.Prelude.{◌≡◌, ◌+◌, ◌<◌, ◌≤◌, ◌^◌, ◌↔◌, IsErrOf, IfOk, IfSome, OnOk, OnErr, length, slice_get};
ghost use Rattle.cas_flow.specs.Message.{head_of, CanBeSent};
ghost use Rattle.cas_flow.specs.declared.message.Message.TheVariants as message;
ghost use Rattle.cas_proposer.specs.Desk.{met_counter};
ghost use Rattle.cas_round.specs.Replies.{met_by};
ghost use Rattle.cas_model.specs.Step.{Step, Stray, RefuseStray};
ghost use Rattle.cas_model.specs.Calls.Step.{most_marks};
ghost use Rattle.cas_model.specs.View.{meaning, reserved_in_all as seen_in_all, shelf_meaning};
ghost use Rattle.cas_world.specs.Frames.Serve.{KeepsAll, AreNumbered};
ghost use Rattle.cas_world.specs.Frames.Stray.{AsksLate, ArrivesAt, LetsIn};

use crate::fault::StrayFault;
use crate::serve::{Served, serve};
use crate::world::World;
use cas_acceptor::Acceptor;
use cas_ballot::AcceptorId;
use cas_disk::Disk;
use cas_flow::{Flow, Message};
use cas_proposer::Desk;
use cas_record::{MOST_MARKS, Record};
use cas_slot::{Reply, Request, Shelf};
use cas_world_calls::council::reserved_in_all;
use std::alloc::{AllocError, Global};

impl<S: Shelf, V: Disk> World<S, V> {
    /// How many late frames there are.
    pub fn late(&self) -> usize
        ensures { result ≡ length self.now.flow.late }
    {
        self.flow.late()
    }

    /// The late frame at that place, from 0 on, strays in. A request is handled, and its reply joins the late frames; one to an
    /// acceptor that is down is gone. A reply arrives at its proposer's open round, and is dropped where none is open. Answers the
    /// acceptor at the other end of the frame.
    ///
    /// [`StrayFault::RecordFull`] comes exactly where the marks that are made and those that are reserved are as many as a record
    /// holds, and all is as before. So it is after [`StrayFault::NoMemory`], where an acceptor that was asked keeps what it kept.
    pub fn stray(&mut self, index: usize) -> Result<AcceptorId, StrayFault>
        requires { index < length self.old.flow.late }
        ensures ok { OnOk result (Step (meaning S.Shelf V.Disk) self.old (Stray index) self.new) }
        ensures peer { IfOk result (λ peer. IfSome (slice_get self.old.flow.late index)
            (λ late. peer ≡ (head_of late).1)) }
        ensures full { IsErrOf result StrayFault.RecordFull ↔
            (length self.old.marks + seen_in_all self.old ≡ most_marks) }
        ensures unchanged { IsErrOf result StrayFault.RecordFull → self.new ≡ self.old }
        ensures err { OnErr result (Step (meaning S.Shelf V.Disk) self.old RefuseStray self.new) }
    {
        let alloc = *self.acceptors.allocator();
        let reserved = reserved_in_all(&self.callers, &self.council);
        if self.record.marks().len() + reserved >= MOST_MARKS {
            return Err(StrayFault::RecordFull);
        }
        let done = let_in(
            alloc,
            &mut self.acceptors,
            &mut self.desks,
            &mut self.flow,
            &mut self.record,
            index,
            reserved + 1,
        );
        match done {
            Ok(peer) => Ok(peer),
            Err(_) => Err(StrayFault::NoMemory),
        }
    }
}

/// The late frame strays in, where there is room for so many marks. Answers the acceptor at its other end. After an `Err` no mark is
/// made.
fn let_in<S: Shelf, V: Disk>(
    alloc: Global,
    acceptors: &mut Vec<Acceptor<S>>,
    desks: &mut Vec<Desk<V>>,
    flow: &mut Flow,
    record: &mut Record,
    index: usize,
    marks: usize,
) -> Result<AcceptorId, AllocError>
    requires numbered { AreNumbered acceptors.old.items (length acceptors.old.items) }
    requires late { index < length flow.old.late }
    requires marks { 0 < marks }
    ensures ok { IfOk result (λ peer.
        LetsIn (shelf_meaning S.Shelf) index marks peer acceptors.old.items acceptors.new.items
        desks.old.items desks.new.items flow.old flow.new «record».old «record».new) }
    ensures err { OnErr result
        (KeepsAll (shelf_meaning S.Shelf) acceptors.old.items acceptors.new.items) }
    ensures same { OnErr result ((desks.new.items ≡ desks.old.items) × (flow.new ≡ flow.old)
        × («record».new.marks ≡ «record».old.marks) × («record».old.room ≤ «record».new.room)) }
{
    record.reserve(marks)?;
    match flow.look_late(index).read(alloc)? {
        Message::Request(request) => {
            ask(alloc, acceptors, flow, record, index, &request)?;
            Ok(request.to)
        }
        Message::Reply(reply) => {
            let peer = reply.from;
            flow.take_late(index);
            arrive(desks, reply);
            Ok(peer)
        }
    }
}

/// The acceptor that is asked answers, and its reply joins the late frames; or it is down.
fn ask<S: Shelf>(
    alloc: Global,
    acceptors: &mut Vec<Acceptor<S>>,
    flow: &mut Flow,
    record: &mut Record,
    index: usize,
    request: &Request,
) -> Result<(), AllocError>
    requires numbered { AreNumbered acceptors.old.items (length acceptors.old.items) }
    requires asked { CanBeSent (message.Request request.now) }
    requires late { index < length flow.old.late }
    requires room { 0 < «record».old.room }
    ensures ok { OnOk result (AsksLate (shelf_meaning S.Shelf) index request.now
        acceptors.old.items acceptors.new.items flow.old flow.new «record».old «record».new) }
    ensures err { OnErr result
        (KeepsAll (shelf_meaning S.Shelf) acceptors.old.items acceptors.new.items) }
    ensures same { OnErr result ((flow.new ≡ flow.old) × («record».new ≡ «record».old)) }
{
    let served = serve(alloc, acceptors, request)?;
    flow.take_late(index);
    if let Served::Replied { frame, vote } = served {
        flow.push_late(frame);
        if let Some(mark) = vote {
            record.push(mark);
        }
    }
    Ok(())
}

/// A reply arrives at the desk of its proposer, if there is one.
fn arrive<V: Disk>(desks: &mut Vec<Desk<V>>, reply: Reply)
    requires { met_counter (met_by reply.tell) ≤ 2 ^ 48 }
    ensures { ArrivesAt reply desks.old.items desks.new.items }
{
    let place = usize::from(reply.to);
    if place < desks.len() {
        desks[place].arrive(reply);
    } else {
        drop(reply);
    }
}
