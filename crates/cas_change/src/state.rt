//! States of registers: empty, or a body with a version.

ghost use Rattle.std.specs.Prelude.{◌≡◌, IfOk};
ghost use Rattle.cas_change.specs.State.{after_put, after_add};

use crate::text::Text;
use std::alloc::AllocError;

/// What a register that is not empty holds.
#[derive(Debug, PartialEq, Eq, Drop)]
pub enum Body {
    /// A number.
    Number(i64),
    /// A text.
    Text(Text),
}

impl Body {
    /// An equal body, in memory from the same allocator.
    pub fn copy(&self) -> Result<Body, AllocError>
        ensures { IfOk result (λ copy. copy ≡ self.now) }
    {
        match self {
            Body::Number(number) => Ok(Body::Number(*number)),
            Body::Text(text) => Ok(Body::Text(text.copy()?)),
        }
    }
}

/// The state of a register.
#[derive(Debug, PartialEq, Eq, Drop)]
pub enum State {
    /// Nothing is held.
    Empty,
    /// A body is held. The version is 0 for the first put on an empty state, and one more for each later put or addition.
    Held { version: u64, body: Body },
}

impl State {
    /// An equal state, in memory from the same allocator.
    pub fn copy(&self) -> Result<State, AllocError>
        ensures { IfOk result (λ copy. copy ≡ self.now) }
    {
        match self {
            State::Empty => Ok(State::Empty),
            State::Held { version, body } => Ok(State::Held {
                version: *version,
                body: body.copy()?,
            }),
        }
    }

    /// The state that holds `body` next. `None` where the version is the greatest `u64`.
    pub fn put(&self, body: Body) -> Option<State>
        ensures { result ≡ after_put body self.now }
    {
        match self {
            State::Empty => Some(State::Held { version: 0, body }),
            State::Held { version, .. } => Some(State::Held {
                version: version.checked_add(1)?,
                body,
            }),
        }
    }

    /// The state with `addend` added to its number, or put where it is empty.
    ///
    /// `None` where it holds a text, the sum is outside `i64`, or the version is the greatest `u64`.
    pub fn add(&self, addend: i64) -> Option<State>
        ensures { result ≡ after_add addend self.now }
    {
        match self {
            State::Empty => self.put(Body::Number(addend)),
            State::Held {
                body: Body::Text(_),
                ..
            } => None,
            State::Held {
                body: Body::Number(number),
                ..
            } => self.put(Body::Number(number.checked_add(addend)?)),
        }
    }
}
