//! Where a proposer is to halt.

/// Where the proposer's next round is to crash it. Each of the two stays until it strikes.
#[derive(Clone, Copy, Debug, PartialEq, Eq)]
pub struct Halt {
    /// At the end of a prepare phase that has a quorum, before anything is proposed.
    pub after_prepare: bool,
    /// Right after the proposal, before any acceptor is asked to accept it.
    pub after_propose: bool,
}

impl Halt {
    /// It is to halt nowhere.
    pub const NOWHERE: Halt = Halt {
        after_prepare: false,
        after_propose: false,
    };
}
