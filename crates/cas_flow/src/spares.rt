//! Blank frames that wait to be filled again.
ghost use Rattle.std.specs.Prelude.{◌≡◌, Some, None, IfOk, IfSome};

use crate::frame::Frame;
use std::alloc::{AllocError, Global};
use std::marker::Model;

/// How many are kept at most: one for each member of a cluster that asks all members twice.
const MOST_SPARE: usize = 18;

/// The room of frames that have left, which the next ones take up. It is seen as nothing.
#[derive(Drop)]
pub(crate) struct Spares {
    frames: Vec<Frame>,
}

impl Model for Spares {
    ghost use Rattle.std.specs.Prelude.{◌≡◌, ⊤, All, None, ◌≤◌, vec_capacity};

    ghost Value = { ⊤ };

    ghost view = { λ spares. tt };

    // Each is blank, and there is room for as many as are kept.
    ghost invariant = { λ spares. All (λ frame. frame ≡ None) spares.frames.items × (18 ≤ vec_capacity spares.frames) };
}

impl Spares {
    /// No frame is spared yet, and there is room for as many as may be.
    pub fn new(alloc: Global) -> Result<Spares, AllocError> {
        Ok(Spares {
            frames: Vec::with_capacity(alloc, MOST_SPARE)?,
        })
    }

    /// Keeps the room of the frame, unless it is too small or enough are kept.
    pub fn push(&mut self, frame: Frame) {
        if self.frames.len() < MOST_SPARE {
            if let Some(blank) = frame.emptied() {
                self.frames.push_reserved(blank);
            }
        }
    }

    /// One of them, where there is one.
    pub fn pop(&mut self) -> Option<Frame>
        ensures { IfSome result (λ frame. frame ≡ None) }
    {
        self.frames.pop()
    }
}
