//! What each step on the table tells, and how views are cut and joined.
ghost use Rattle.std.specs.Prelude.{[]};
ghost use Rattle.cas_turn.specs.declared.view.View.TheVariants.{Tells, Gathers};
ghost use Rattle.cas_turn.specs.Steps.{drew, looked, measured, published, left_turn, settled, without_next, next_seat, note_of, told, gathered};

use crate::grows::Grows;
use crate::view::View;
use atomic_table::{Join, Play, Split};

/// Draws a ticket.
pub(crate) struct Draw;

impl<V: Grows> Play<Option<V>, View<V, V::Item>> for Draw {
    ghost then = { drew };
}

/// Looks whether the ticket is served, and takes the value if so.
pub(crate) struct Look;

impl<V: Grows> Play<Option<V>, View<V, V::Item>> for Look {
    ghost then = { looked V.list V.owner V.part V.seats };
}

/// Finds the length of the list.
pub(crate) struct Measure;

impl<V: Grows> Play<Option<V>, View<V, V::Item>> for Measure {
    ghost then = { measured V.list V.owner V.part V.seats };
}

/// Publishes the list of the value that is given back.
pub(crate) struct Publish;

impl<V: Grows> Play<Option<V>, View<V, V::Item>> for Publish {
    ghost then = { published V.list V.owner V.part V.seats };
}

/// Serves the next ticket, and leaves the value at home.
pub(crate) struct Leave;

impl<V: Grows> Play<Option<V>, View<V, V::Item>> for Leave {
    ghost then = { left_turn };
}

/// Learns what a note brought.
pub(crate) struct Settle;

impl<V: Grows> Play<Option<V>, View<V, V::Item>> for Settle {
    ghost then = { settled V.list V.owner V.part V.seats };
}

/// Makes the next numbered seat.
pub(crate) struct Number;

impl<V, I> Split<View<V, I>> for Number {
    ghost left = { without_next };

    ghost right = { next_seat };
}

/// Makes a note of what was seen.
pub(crate) struct Note;

impl<V, I> Split<View<V, I>> for Note {
    ghost left = { λ v. v };

    ghost right = { note_of };
}

impl<V, I> Join<View<V, I>> for Note {
    ghost both = { told };

    ghost spent = { Tells [] };
}

/// Makes the seat that closes the turn, and lets it take in another.
pub(crate) struct Gather;

impl<V, I> Split<View<V, I>> for Gather {
    ghost left = { λ v. v };

    ghost right = { λ _. Gathers [] };
}

impl<V, I> Join<View<V, I>> for Gather {
    ghost both = { gathered };

    ghost spent = { Tells [] };
}
