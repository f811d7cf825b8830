//! The frames under way.
ghost use Rattle.std.specs.Prelude.{◌≡◌, ◌≢◌, ◌+◌, ◌<◌, ◌≤◌, [], ◌++◌, Some, length, take, drop, slice_get, option_map, IfSome, IfOk, IsSome, OnOk, OnErr, MatchOption};
ghost use Rattle.cas_flow.specs.Message.{head_of};
ghost use Rattle.cas_flow.specs.Queue.{fall_of, joined, pushed};

use crate::fall::{Fall, fall_of};
use crate::frame::Frame;
use crate::pool::Pool;
use crate::queue::{Queue, empty_queues};
use crate::settle;
use crate::spares::Spares;
use cas_ballot::AcceptorId;
use cas_fate::{Leg, Verdict};
use std::alloc::{AllocError, Global};
use std::marker::Model;

/// For each proposer, 0 to 16, the queue of its own frames, in place 17 that of the exchange with all members, and one pool of late frames,
/// whose room is taken at once.
///
/// It is seen as lists of messages. Only the calls that answer `AllocError` take memory.
#[derive(Drop)]
pub struct Flow {
    own: Vec<Queue>,
    late: Pool,
    spare: Spares,
}

impl Model for Flow {
    ghost use Rattle.std.specs.Prelude.{◌≡◌, vec_len};
    ghost use Rattle.cas_flow.specs.Flow.{FlowView};

    ghost Value = { FlowView };

    ghost view = { λ flow. record { own = flow.own.items; late = flow.late } };

    // Each proposer has a queue, and so has the exchange.
    ghost invariant = { λ flow. vec_len flow.own ≡ 18 };
}

impl Flow {
    ghost use Rattle.cas_flow.specs.Flow.{empty_flow, queue_at, with_queue, taken, abandoned};

    /// No frame is under way, and the late ones have their room.
    pub fn new(alloc: Global) -> Result<Flow, AllocError>
        ensures { IfOk result (λ flow. flow ≡ empty_flow) }
    {
        Ok(Flow {
            own: empty_queues(alloc)?,
            late: Pool::new(alloc)?,
            spare: Spares::new(alloc)?,
        })
    }

    /// A frame without a message, with room for the longest: that of a frame which has left, where one is kept.
    pub fn blank(&mut self, alloc: Global) -> Result<Frame, AllocError>
        ensures same { self.new ≡ self.old }
        ensures blank { IfOk result (λ frame. frame ≡ None) }
    {
        match self.spare.pop() {
            Some(frame) => Ok(frame),
            None => Frame::blank(alloc),
        }
    }

    /// Makes room for so many more own frames of the proposer. All frames stay, and after an `Err` all is as before.
    pub fn reserve_own(&mut self, proposer: u8, frames: usize) -> Result<(), AllocError>
        requires { proposer ≤ 17 }
        ensures same { self.new ≡ with_queue self.old proposer
            (record (queue_at self.old proposer) { room = (queue_at self.new proposer).room }) }
        ensures ok { OnOk result (frames ≤ (queue_at self.new proposer).room) }
        ensures grows { (queue_at self.old proposer).room ≤ (queue_at self.new proposer).room }
        ensures err { OnErr result (self.new ≡ self.old) }
    {
        self.own[usize::from(proposer)].reserve(frames)
    }

    /// One more own frame of the proposer, behind its others. There is room for it, and it is not blank.
    pub fn push_own(&mut self, proposer: u8, frame: Frame)
        requires proposer { proposer ≤ 17 }
        requires room { 0 < (queue_at self.old proposer).room }
        requires bears { IsSome frame }
        ensures { IfSome frame (λ message. self.new ≡ with_queue self.old proposer
            (pushed (queue_at self.old proposer) message)) }
    {
        self.own[usize::from(proposer)].push(frame);
    }

    /// The frame, which is not blank, joins the late ones, or is lost where there are [`MOST_LATE`](crate::MOST_LATE).
    pub fn push_late(&mut self, frame: Frame)
        requires { IsSome frame }
        ensures { IfSome frame
            (λ message. self.new ≡ record self.old { late = joined self.old.late message }) }
    {
        self.late.push(frame);
    }

    /// The leg of the proposer's first frame, and the acceptor at its other end. `None` comes exactly where the proposer has no
    /// own frame.
    pub fn front(&self, proposer: u8) -> Option<(Leg, AcceptorId)>
        requires { proposer ≤ 17 }
        ensures { result ≡ option_map head_of (slice_get (queue_at self.now proposer).messages 0) }
    {
        match self.own[usize::from(proposer)].front() {
            Some(frame) => frame.head(),
            None => None,
        }
    }

    /// The proposer's first frame, which is not blank. `None` comes exactly where the proposer has no own frame.
    pub fn look(&self, proposer: u8) -> Option<&Frame>
        requires { proposer ≤ 17 }
        ensures { MatchOption result ((queue_at self.now proposer).messages ≡ []) (λ frame.
            (frame.now ≡ slice_get (queue_at self.now proposer).messages 0) × IsSome frame.now) }
    {
        self.own[usize::from(proposer)].front()
    }

    /// What the verdict means for the proposer's first frame. In its second turn it is handled whatever the verdict.
    pub fn falls(&self, proposer: u8, verdict: Verdict) -> Fall
        requires proposer { proposer ≤ 17 }
        requires front { (queue_at self.now proposer).messages ≢ [] }
        ensures { result ≡ fall_of (queue_at self.now proposer).again verdict }
    {
        fall_of(self.own[usize::from(proposer)].is_again(), verdict)
    }

    /// Carries out what [`Flow::falls`] tells. A frame that is handled leaves, unless a second turn follows; one that is gone
    /// leaves, and joins the late ones or is lost; one that is held stays.
    pub fn take(&mut self, proposer: u8, verdict: Verdict)
        requires proposer { proposer ≤ 17 }
        requires front { (queue_at self.old proposer).messages ≢ [] }
        ensures { self.new ≡ taken self.old proposer verdict }
    {
        let queue = &mut self.own[usize::from(proposer)];
        if let Some(frame) = settle::settle(queue, &mut self.late, verdict) {
            self.spare.push(frame);
        }
    }

    /// How many late frames there are, at most [`MOST_LATE`](crate::MOST_LATE).
    pub fn late(&self) -> usize
        ensures count { result ≡ length self.now.late }
        ensures few { result ≤ 65536 }
    {
        self.late.len()
    }

    /// The late frame at that place, from 0 on.
    pub fn look_late(&self, index: usize) -> &Frame
        requires { index < length self.now.late }
        ensures { result.now ≡ slice_get self.now.late index }
    {
        self.late.look(index)
    }

    /// The late frame at that place leaves, and those behind it close the gap.
    pub fn take_late(&mut self, index: usize)
        requires { index < length self.old.late }
        ensures { self.new ≡ record self.old {
          late = take index self.old.late ++ drop
              (index + 1) self.old.late;
        } }
    {
        self.late.take(index);
    }

    /// The proposer's own frames join the late ones, in their order. Those that find no room are lost.
    pub fn abandon(&mut self, proposer: u8)
        requires { proposer ≤ 17 }
        ensures { self.new ≡ abandoned self.old proposer }
    {
        settle::abandon(&mut self.own[usize::from(proposer)], &mut self.late);
    }
}
