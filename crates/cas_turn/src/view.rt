//! What a seat knows at the table. No value of these types is made.
use std::collections::LinkedList;

/// How far a seat is on its way to the value.
pub enum Stage<V> {
    Idle,
    /// It waits with a ticket. Tickets are counted without end.
    Waiting(u64),
    /// It holds the value, and had this ticket.
    Holding(u64, V),
}

/// What a seat knows for its number.
pub struct Known<I> {
    pub number: u64,
    /// How many seats the turn has.
    pub seats: u64,
    /// What it has seen of the list.
    pub seen: LinkedList<I>,
    /// The part of the value that is its number's own.
    pub own: LinkedList<u64>,
}

pub enum View<V, I> {
    /// The seat that makes the numbered ones, and has all numbers from the first on, of so many. Each of them has seen this.
    Opens(u64, u64, LinkedList<I>),
    /// A note, which tells another seat what was seen. It has no number.
    Tells(LinkedList<I>),
    /// A seat with a number. After it took in a note it has the two lists that it then knew, its own first.
    Sits(Known<I>, Stage<V>, Option<(LinkedList<I>, LinkedList<I>)>),
    /// The seat that closes the turn, and has the numbers of those that it took in, each with what that knew.
    Gathers(LinkedList<Known<I>>),
}
