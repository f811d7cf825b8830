use cas_ballot::{AcceptorId, Ballot};

/// How a phase ends by the replies that arrived: the first of these that holds.
#[derive(Clone, Copy, Debug, PartialEq, Eq)]
pub enum RoundVerdict {
    /// A quorum confirmed.
    Quorum,
    /// No quorum, and a greater ballot was met: the greatest that was told.
    Met(Ballot),
    /// None of these, and an acceptor found the age of the proposer too low: the greatest age that was told.
    Aged(u64),
    /// None of these, and an acceptor had no room for a slot: the acceptor of the least number.
    Full(AcceptorId),
    /// None of these: so many members confirmed, and so many were needed.
    Short { got: u32, need: u32 },
}
