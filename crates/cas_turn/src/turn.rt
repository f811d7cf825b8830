//! The turn itself.
mod closing;
mod holding;
mod meeting;
mod opening;

use crate::grows::Grows;
use crate::rule::Board;
use std::marker::Model;

/// A value that its seats hold in turns.
///
/// Contracts see a `Turning`: which turn it is, and how many seats it gave. A turn is not dropped: [`Turn::close`] takes
/// it apart.
pub struct Turn<V: Grows> {
    pub(crate) board: Board<V>,
}

impl<V: Grows> Model for Turn<V> {
    ghost use Rattle.std.specs.Prelude.{◌≡◌, ◌<◌, ◌^◌};
    ghost use Rattle.cas_turn.specs.Sitting.{Turning};

    ghost Value = { Turning };

    ghost view = { λ t. record { id = t.board.shared.table_id; seats = t.board.shared.key.seats } };

    ghost invariant = { λ t. (t.board.shared.table_id.words ≡ 3) × (t.board.shared.table_id.slots ≡ 1) × (0 < t.board.shared.key.seats) × (t.board.shared.key.seats < 2 ^ 32) };
}
