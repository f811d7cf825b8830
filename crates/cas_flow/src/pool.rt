//! The late frames.
ghost use Rattle.std.specs.Prelude.{◌≡◌, ◌+◌, ◌<◌, ◌≤◌, [], ◌++◌, Some, None, length, take, drop, slice_get, IfSome, IfOk, IsSome};
ghost use Rattle.cas_flow.specs.Queue.{joined};

use crate::frame::Frame;
use std::alloc::{AllocError, Global};
use std::marker::Model;

/// How many late frames there are at most.
pub const MOST_LATE: usize = 65_536;

/// The late frames, whose room is taken at once. They are seen as their messages.
#[derive(Drop)]
pub(crate) struct Pool {
    frames: Vec<Frame>,
}

impl Model for Pool {
    ghost use Rattle.std.specs.Prelude.{List, IsTrue, ◌≤◌, vec_len, vec_capacity};
    ghost use Rattle.cas_flow.specs.declared.message.Message.{Message as AMessage};
    ghost use Rattle.cas_flow.specs.Queue.{messages_of, all_bear};

    ghost Value = { List AMessage };

    ghost view = { λ pool. messages_of pool.frames.items };

    // No frame is blank, and there is room for as many as there may be.
    ghost invariant = { λ pool. IsTrue (all_bear pool.frames.items) × (65536 ≤ vec_capacity pool.frames) × (vec_len pool.frames ≤ 65536) };
}

impl Pool {
    pub fn new(alloc: Global) -> Result<Pool, AllocError>
        ensures { IfOk result (λ pool. pool ≡ []) }
    {
        Ok(Pool {
            frames: Vec::with_capacity(alloc, MOST_LATE)?,
        })
    }

    /// How many there are.
    pub fn len(&self) -> usize
        ensures count { result ≡ length self.now }
        ensures few { result ≤ MOST_LATE }
    {
        self.frames.len()
    }

    /// The frame joins the others, or is lost where there are [`MOST_LATE`].
    pub fn push(&mut self, frame: Frame)
        requires { IsSome frame }
        ensures { IfSome frame (λ message. self.new ≡ joined self.old message) }
    {
        if self.frames.len() < MOST_LATE {
            self.frames.push_reserved(frame);
        } else {
            drop(frame);
        }
    }

    /// The late frame at that place.
    pub fn look(&self, index: usize) -> &Frame
        requires { index < length self.now }
        ensures { result.now ≡ slice_get self.now index }
    {
        &self.frames[index]
    }

    /// The frame at that place leaves, and those behind it close the gap.
    pub fn take(&mut self, index: usize)
        requires { index < length self.old }
        ensures { self.new ≡ take index self.old ++ drop (index + 1) self.old }
    {
        drop(self.frames.remove(index));
    }
}
