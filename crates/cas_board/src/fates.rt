//! How a call asks its fate.

ghost use Rattle.cas_board.specs.Changes.{IsCounted};
ghost use Rattle.cas_board_steps.specs.Calls.Changes.{harm_by};

use cas_ballot::AcceptorId;
use cas_fate::{Fate, Leg, Verdict};

/// How often the fate of one call may hold a frame back. Each further time the frame is late instead.
const MOST_HOLDS: u32 = 16_777_216;

/// How often the fate of a call held a frame back.
#[derive(Debug, Drop)]
pub(crate) struct Holds {
    made: u32,
}

impl Holds {
    /// It held none back.
    pub(crate) fn new() -> Holds {
        Holds { made: 0 }
    }

    /// What becomes of the frame of this leg, at whose other end this acceptor is.
    pub(crate) fn verdict<F: Fate>(&mut self, fate: &mut F, leg: Leg, peer: AcceptorId) -> Verdict
        ensures { IsCounted (harm_by result) (F.harm_count fate.old) (F.harm_count fate.new) }
    {
        match fate.verdict(leg, peer) {
            Verdict::Hold => {
                if self.made >= MOST_HOLDS {
                    return Verdict::Late;
                }
                self.made += 1;
                Verdict::Hold
            }
            verdict => verdict,
        }
    }
}
