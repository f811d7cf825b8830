//! How a round begins.

use cas_ballot::Ballot;
use cas_cache::Ready;

/// How a round begins.
#[derive(Debug, PartialEq, Eq, Drop)]
pub enum Began {
    /// In its prepare phase, at a ballot that was drawn for it.
    Prepare(Ballot),
    /// In its accept phase, at the ballot of a promise that rode on an earlier accept (Rystsov 2018, section 2.2.1).
    Accept(Ready),
}
