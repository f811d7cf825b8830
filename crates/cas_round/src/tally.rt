//! What the replies of one phase come to, whatever their order.

ghost use Rattle.std.specs.Prelude.{◌≡◌, [], None, Some};
ghost use Rattle.cas_quorum.specs.Quorum.{count_in};
ghost use Rattle.cas_ballot.specs.Members.{with_member};
ghost use Rattle.cas_round.specs.Tally.{no_tally, greatest_met, greatest_age, least_full, refused_after, verdict_by};

use crate::verdict::RoundVerdict;
use cas_ballot::{AcceptorId, Ballot, Members};
use cas_slot::Tell;

/// Who confirmed, and what the others told.
#[derive(Clone, Copy, Debug)]
pub struct Tally {
    /// The acceptors that confirmed.
    pub confirmed: Members,
    /// The greatest ballot that was met.
    pub met: Option<Ballot>,
    /// The greatest age that was told.
    pub aged: Option<u64>,
    /// The least acceptor that was full.
    pub full: Option<AcceptorId>,
}

impl Tally {
    /// That of no reply.
    pub fn new() -> Tally
        ensures { result ≡ no_tally }
    {
        Tally {
            confirmed: Members::new(),
            met: None,
            aged: None,
            full: None,
        }
    }

    /// One more acceptor confirmed, or the same again.
    pub fn confirm(&mut self, from: AcceptorId)
        ensures { self.new ≡ record self.old { confirmed = with_member self.old.confirmed from } }
    {
        self.confirmed.insert(from);
    }

    /// One more acceptor told why it does not confirm. What is no such cause changes nothing.
    pub fn refuse(&mut self, from: AcceptorId, tell: &Tell)
        ensures { self.new ≡ refused_after self.old from tell.now }
    {
        match tell {
            Tell::Met(ballot) => self.met = Some(greatest_met(self.met, *ballot)),
            Tell::Aged(least) => self.aged = Some(greatest_age(self.aged, *least)),
            Tell::Full => self.full = Some(least_full(self.full, from)),
            _ => {}
        }
    }

    /// The verdict, of a phase for which so many of those members are needed and in which there is a quorum or not.
    pub fn verdict(&self, quorum: bool, members: &Members, need: u32) -> RoundVerdict
        ensures { result ≡ verdict_by self.now quorum members.now need }
    {
        if quorum {
            RoundVerdict::Quorum
        } else if let Some(met) = self.met {
            RoundVerdict::Met(met)
        } else if let Some(aged) = self.aged {
            RoundVerdict::Aged(aged)
        } else if let Some(full) = self.full {
            RoundVerdict::Full(full)
        } else {
            let got = members.intersection(&self.confirmed).count();
            RoundVerdict::Short { got, need }
        }
    }
}

/// The greater of the ballot that is kept, if any, and the one that was told.
fn greatest_met(met: Option<Ballot>, told: Ballot) -> Ballot
    ensures { result ≡ greatest_met met told }
{
    match met {
        Some(met) => met.max(told),
        None => told,
    }
}

/// The greater of the age that is kept, if any, and the one that was told.
fn greatest_age(aged: Option<u64>, told: u64) -> u64
    ensures { result ≡ greatest_age aged told }
{
    match aged {
        Some(aged) => aged.max(told),
        None => told,
    }
}

/// The lesser of the acceptor that is kept, if any, and the one that told.
fn least_full(full: Option<AcceptorId>, told: AcceptorId) -> AcceptorId
    ensures { result ≡ least_full full told }
{
    match full {
        Some(full) => {
            if full.number() <= told.number() {
                full
            } else {
                told
            }
        }
        None => told,
    }
}
