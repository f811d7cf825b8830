//! A seat: one user's token, with what it has seen.
ghost use Rattle.std.specs.Prelude.{◌≡◌};

use crate::grows::Grows;
use crate::rule::Place;
use std::marker::Model;

/// One user's seat at a turn. It cannot be copied. Contracts see a `Sitting`: the turn, the seat's number, what it
/// holds, what it has seen of the list, and its own part.
#[derive(Drop)]
pub struct Seat<V: Grows> {
    pub(crate) place: Place<V>,
    pub(crate) number: u32,
}

impl<V: Grows> Model for Seat<V> {
    ghost use Rattle.std.specs.Prelude.{◌≡◌, ℕ};
    ghost use Rattle.cas_turn.specs.Sitting.{Sitting};
    ghost use Rattle.cas_turn.specs.Seated.{sitting_at, IsSeated};
    ghost use Rattle.cas_turn.specs.Steps.{known_of};

    ghost Value = { Sitting V V.Item };

    ghost view = { λ s. sitting_at s.place };

    ghost invariant = { λ s. IsSeated s.place.me × (s.number ≡ (known_of s.place.me.0).number) };
}

impl<V: Grows> Seat<V> {
    /// The number that the seat was given, from 0 on.
    pub fn number(&self) -> u32
        ensures { result ≡ self.now.number }
    {
        self.number
    }
}
