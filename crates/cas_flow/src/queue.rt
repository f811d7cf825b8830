//! The own frames of one proposer.
ghost use Rattle.std.specs.Prelude.{◌≡◌, ◌+◌, ◌<◌, ◌≤◌, [], Some, None, slice_get, IfSome, IsSome, IsNone, MatchOption, OnOk, OnErr, IfOk, replicate, true, false};
ghost use Rattle.cas_flow.specs.Queue.{empty_queue};

use crate::frame::Frame;
use std::alloc::{AllocError, Global};
use std::collections::VecDeque;
use std::marker::Model;

/// How many queues there are: one for each proposer, from 0 on, and that of the exchange.
const QUEUES: usize = 18;

/// The own frames of one proposer, in the order in which they are handled. They are seen as their messages, with whether the first
/// was handled once of two times, and how many more frames have room.
#[derive(Drop)]
pub(crate) struct Queue {
    frames: VecDeque<Frame>,
    again: bool,
}

impl Model for Queue {
    ghost use Rattle.std.specs.Prelude.{◌-◌, ◌≤◌, IsTrue};
    ghost use Rattle.std.specs.VecDeque.{deque_len, deque_capacity};
    ghost use Rattle.cas_flow.specs.Queue.{QueueView, messages_of, all_bear};

    ghost Value = { QueueView };

    ghost view = { λ queue. record { messages = messages_of queue.frames.items; again = queue.again; room = deque_capacity queue.frames - deque_len queue.frames } };

    // No frame is blank.
    ghost invariant = { λ queue. IsTrue (all_bear queue.frames.items) };
}

impl Queue {
    ghost use Rattle.cas_flow.specs.Queue.{popped, pushed};

    pub fn new(alloc: Global) -> Queue
        ensures { result ≡ empty_queue }
    {
        Queue {
            frames: VecDeque::with_capacity(alloc, 0).unwrap(),
            again: false,
        }
    }

    /// Makes room for so many more frames. The frames stay, and after an `Err` all is as before.
    pub fn reserve(&mut self, frames: usize) -> Result<(), AllocError>
        ensures same { self.new ≡ record self.old { room = self.new.room } }
        ensures ok { OnOk result (frames ≤ self.new.room) }
        ensures grows { self.old.room ≤ self.new.room }
        ensures err { OnErr result (self.new ≡ self.old) }
    {
        self.frames.reserve_exact(frames)
    }

    /// One more frame, behind the others.
    pub fn push(&mut self, frame: Frame)
        requires room { 0 < self.old.room }
        requires bears { IsSome frame }
        ensures { IfSome frame (λ message. self.new ≡ pushed self.old message) }
    {
        self.frames.push_back_reserved(frame);
    }

    /// The first frame.
    pub fn front(&self) -> Option<&Frame>
        ensures { MatchOption result (self.now.messages ≡ []) (λ frame.
            (frame.now ≡ slice_get self.now.messages 0) × IsSome frame.now) }
    {
        self.frames.front()
    }

    /// Whether the first frame was handled once of two times.
    pub fn is_again(&self) -> bool
        ensures { result ≡ self.now.again }
    {
        self.again
    }

    /// The first frame leaves.
    pub fn pop(&mut self) -> Option<Frame>
        ensures left { IsSome result → self.new ≡ popped self.old }
        ensures none { IsNone result → self.new ≡ record self.old { again = false } }
        ensures first { MatchOption result ((self.old.messages ≡ [])
            × (self.new.messages ≡ [])) (λ frame. (frame ≡ slice_get self.old.messages 0)
            × IsSome frame) }
    {
        self.again = false;
        self.frames.pop_front()
    }

    /// The first frame stays for a second turn.
    pub fn handle_again(&mut self)
        ensures { self.new ≡ record self.old { again = true } }
    {
        self.again = true;
    }
}

/// An empty queue for each proposer, and one for the exchange.
pub(crate) fn empty_queues(alloc: Global) -> Result<Vec<Queue>, AllocError>
    ensures { IfOk result (λ queues. queues.items ≡ replicate 18 empty_queue) }
{
    let mut queues = Vec::with_capacity(alloc, QUEUES)?;
    for _ in 0..QUEUES {
        queues.push_reserved(Queue::new(alloc));
    }
    Ok(queues)
}
