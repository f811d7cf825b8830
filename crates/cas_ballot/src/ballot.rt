ghost use Rattle.std.specs.Prelude.{Some};
ghost use Rattle.std.proofs.Common.{rules};
ghost use Rattle.std.specs.Cmp.{partial_order_from_own_ties};
ghost use Rattle.std.specs.Cmp.Rules.{comparing};
ghost use Rattle.std.specs.Ordering.{as_partial_cmp};
ghost use Rattle.cas_ballot.specs.Ballot.{ballot_cmp, ballot_text};

use std::cmp::Ordering;
use std::fmt;

/// The end of counters, and of the ages that go with them: no proposer draws a number above it.
pub const LAST_COUNTER: u64 = 1 << 48;

/// The name of a round: a counter that its proposer drew, and that proposer's number (Rystsov 2018, section 2.1).
///
/// Ballots are ordered by counter, and by proposer where the counters are equal. They are printed `counter.proposer`.
#[derive(Clone, Copy, Debug, PartialEq, Eq, Hash)]
pub struct Ballot {
    /// From 1 on for a ballot that was drawn.
    pub counter: u64,
    /// The number of the proposer that drew it.
    pub proposer: u8,
}

impl Ballot {
    /// Below every ballot that is ever drawn, and no proposer's.
    pub const ZERO: Ballot = Ballot {
        counter: 0,
        proposer: 0,
    };
}

impl Ord for Ballot {
    ghost cmp = { ballot_cmp };

    ghost total = { Prim.search (comparing, rules) };

    ghost matches_partial_cmp = { Prim.search (comparing, rules) };

    ghost matches_eq = { Prim.search (comparing, rules) };

    fn cmp(&self, other: &Ballot) -> Ordering {
        self.counter
            .cmp(&other.counter)
            .then(self.proposer.cmp(&other.proposer))
    }
}

impl PartialOrd for Ballot {
    ghost partial_cmp = { as_partial_cmp (ballot_cmp) };

    ghost laws = { partial_order_from_own_ties (Prim.search (comparing, rules)) (Prim.search (comparing, rules)) };

    fn partial_cmp(&self, other: &Ballot) -> Option<Ordering> {
        Some(self.cmp(other))
    }
}

impl fmt::Display for Ballot {
    ghost output = { λ ballot. Some (ballot_text ballot) };

    fn fmt<W: fmt::Write>(&self, f: &mut fmt::Formatter<W>) -> fmt::Result {
        let counter = self.counter;
        let proposer = self.proposer;
        write!(f, "{counter}.{proposer}")
    }
}
