//! The table that the seats share. Word 0 is the number of tickets drawn, word 1 the number of those served, both
//! modulo 2^64, and word 2 the length of the list. The one slot has the value.
use crate::grows::Grows;
use crate::view::View;
use atomic_table::{Seat, Shared, Table, TableRule};
use std::alloc::Global;
use std::marker::PhantomData;
use std::snapshot::Snapshot;

pub(crate) const TICKET: usize = 0;

pub(crate) const SERVING: usize = 1;

pub(crate) const FRONT: usize = 2;

pub(crate) const VALUE: usize = 0;

/// The key of a table: how many seats it has, and the value that it was opened with, as clauses see that.
#[derive(Drop)]
pub struct Start<V> {
    pub seats: u32,
    pub opened: Snapshot<V>,
}

/// What holds of the table between any two steps.
pub struct Law<V> {
    value: PhantomData<V>,
}

impl<V: Grows> TableRule<Option<V>, View<V, V::Item>, Start<V>> for Law<V> {
    ghost use Rattle.cas_turn.specs.Rule.{Kept};
    ghost use Rattle.cas_turn.specs.declared.view.View.TheVariants.{Opens};

    ghost holds = { λ key. Kept V.list V.owner V.part V.seats key.seats };

    ghost first = { λ key. Opens 0 key.seats (V.list key.opened.value) };
}

/// What all seats share.
pub(crate) type Top<V> = Shared<Option<V>, View<V, <V as Grows>::Item>, Start<V>, Law<V>>;

/// One place at the table.
pub(crate) type Place<V> = Seat<Option<V>, View<V, <V as Grows>::Item>>;

/// The table with its memory.
pub(crate) type Board<V> = Table<Option<V>, View<V, <V as Grows>::Item>, Start<V>, Law<V>, Global>;
