//! What an operator's open call asks for. It stands outside of the tests, since the definitions of a play name it.

use cas_ballot::AcceptorId;
use cas_change::Key;
use cas_world::PlanKind;

/// A change of membership that the operator's open call asks for.
#[derive(Clone, Copy, Debug, PartialEq, Eq)]
pub struct Plan {
    /// Whether an acceptor joins or leaves.
    pub kind: PlanKind,
    /// The acceptor.
    pub id: AcceptorId,
}

/// What the operator's open call asks for, and is under way.
#[derive(Debug, PartialEq, Eq, Drop)]
pub enum Task {
    /// A change of membership.
    Change(Plan),
    /// The collection of this key, whose tombstone is acknowledged. Proposers are to be renewed, or are renewed.
    Collection(Key),
}
