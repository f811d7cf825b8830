//! A fate that is a table.
ghost use Rattle.std.specs.Prelude.{◌≡◌, ◌≢◌, ◌⊎◌, ◌<◌, ◌≤◌, ℕ, None};
ghost use Rattle.cas_fate.specs.Harms.{HarmsByCount, counted};
ghost use Rattle.cas_fate.specs.Legs.{row_of};
ghost use Rattle.cas_fate.specs.declared.fate.Leg.{Leg};

use crate::{Fate, Leg, Verdict};
use cas_ballot::AcceptorId;
use cas_base::raised;

/// A table of verdicts: one for each leg and acceptor. No late frame is ever let in.
#[derive(Debug, Drop)]
pub struct Links {
    rows: [[Verdict; 64]; 7],
    harms: u64,
}

impl Links {
    ghost use Rattle.cas_fate.specs.Links.{verdict_at, harms_of};

    /// A table in which each frame is delivered.
    pub fn new() -> Links
        ensures all { (leg : Leg) (peer : ℕ) → verdict_at result leg peer ≡ Verdict.Deliver }
        ensures harms { harms_of result ≡ 0 }
    {
        Links {
            rows: [[Verdict::Deliver; 64]; 7],
            harms: 0,
        }
    }

    /// From now on this becomes of the frames of this leg to or from this acceptor.
    pub fn set(&mut self, leg: Leg, peer: AcceptorId, verdict: Verdict)
        ensures here { verdict_at self.new leg peer ≡ verdict }
        ensures others { (l : Leg) (p : ℕ)
            → (l ≢ leg) ⊎ (p ≢ peer) → verdict_at self.new l p ≡ verdict_at self.old l p }
        ensures harms { harms_of self.new ≡ harms_of self.old }
    {
        self.rows[row_of(leg)][peer.number() as usize] = verdict;
    }
}

/// The row of a leg in the table.
fn row_of(leg: Leg) -> usize
    ensures row { result ≡ row_of leg }
    ensures within { result < 7 }
{
    leg as usize
}

impl Fate for Links {
    ghost use Rattle.cas_fate.specs.Links.{verdict_at, harms_of};

    ghost harm_count = { harms_of };

    fn verdict(&mut self, leg: Leg, peer: AcceptorId) -> Verdict
        ensures by_count { HarmsByCount result (harms_of self.old) (harms_of self.new) }
        ensures value { result ≡ verdict_at self.old leg peer }
        ensures table { (l : Leg) (p : ℕ) → verdict_at self.new l p ≡ verdict_at self.old l p }
        ensures harms { harms_of self.new ≡ counted result (harms_of self.old) }
    {
        let verdict = self.rows[row_of(leg)][peer.number() as usize];
        if verdict.is_harm() {
            self.harms = raised(self.harms);
        }
        verdict
    }

    fn harms(&self) -> u64 {
        self.harms
    }

    fn stray(&mut self, _late: usize) -> Option<usize>
        ensures none { result ≡ None }
        ensures same { self.new ≡ self.old }
    {
        None
    }
}
