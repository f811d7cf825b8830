//! An open round.
ghost use Rattle.std.specs.Prelude.{◌≡◌, ◌↔◌, ◌&&◌, not, true, [], None, option_copied};
ghost use Rattle.cas_proposer.specs.Round.{is_of, is_preparing, IsAbout, IsPreparing, IsAccepting, Hears, is_heard_at, met_after, TurnsToAccept, IsReadOf, IsVerdictOf, IsConfirmersOf, confirmed_in, latest_in, has_quorum, rode, is_own, may_keep};

use cas_ballot::{Ballot, Members};
use cas_cache::Ready;
use cas_change::Key;
use cas_quorum::Era;
use cas_round::{AcceptRound, PrepareRound, RoundVerdict};
use cas_slot::{Accepted, Phase, Reply, Tell};
use std::mem;

/// A round of a desk, from its first phase on.
#[derive(Debug, Drop)]
pub struct Round {
    /// The key that it is for.
    pub key: Key,
    /// The era in which it began.
    pub era: Era,
    /// The ballot that its requests bear, in both phases.
    pub ballot: Ballot,
    /// The ballot that rides on its accepts, once one is drawn.
    pub ride: Option<Ballot>,
    /// The greatest ballot that was met, in either phase.
    pub met: Option<Ballot>,
    /// The phase that it is in, with the replies that arrived in it.
    pub phase: OpenPhase,
}

/// The phase that a round is in.
#[derive(Debug, Drop)]
pub enum OpenPhase {
    /// Promises are asked for.
    Prepare(PrepareRound),
    /// The acceptors are asked to accept.
    Accept(AcceptRound),
}

impl OpenPhase {
    /// Whether it is the phase of such requests.
    fn is_of(&self, phase: Phase) -> bool
        ensures { result ≡ is_of self.now phase }
    {
        match self {
            OpenPhase::Prepare(_) => matches!(phase, Phase::Prepare),
            OpenPhase::Accept(_) => matches!(phase, Phase::Accept),
        }
    }
}

impl Round {
    /// A round in its prepare phase, before any reply.
    pub fn preparing(key: Key, era: &Era, ballot: Ballot) -> Round
        ensures about { IsAbout key era.now ballot result }
        ensures phase { IsPreparing [] result }
    {
        let phase = OpenPhase::Prepare(PrepareRound::new(*era, ballot));
        Round::in_phase(key, era, ballot, phase)
    }

    /// A round that begins in its accept phase, before any reply.
    pub fn accepting(key: Key, era: &Era, ballot: Ballot) -> Round
        ensures about { IsAbout key era.now ballot result }
        ensures phase { IsAccepting [] [] result }
    {
        let phase = OpenPhase::Accept(AcceptRound::new(*era, ballot));
        Round::in_phase(key, era, ballot, phase)
    }

    /// A round in that phase, at which no ballot was met.
    fn in_phase(key: Key, era: &Era, ballot: Ballot, phase: OpenPhase) -> Round
        ensures { result ≡ record {
          key = key;
          era = era.now;
          ballot = ballot;
          ride = None;
          met = None;
          phase = phase;
        } }
    {
        Round {
            key,
            era: *era,
            ballot,
            ride: None,
            met: None,
            phase,
        }
    }

    /// One more reply arrived.
    pub fn arrive(&mut self, reply: Reply)
        ensures { Hears self.old reply self.new }
    {
        self.met = met_after(self.is_heard(&reply), self.met, &reply.tell);
        match &mut self.phase {
            OpenPhase::Prepare(phase) => phase.arrive(reply),
            OpenPhase::Accept(phase) => phase.arrive(reply),
        }
    }

    /// Ends the prepare phase and opens the accept phase. Answers what was read.
    pub fn read(&mut self) -> Option<Accepted>
        requires { is_preparing self.old.phase ≡ true }
        ensures turns { TurnsToAccept self.old self.new }
        ensures read { IsReadOf self.old result }
    {
        let accept = AcceptRound::new(self.era, self.ballot);
        match mem::replace(&mut self.phase, OpenPhase::Accept(accept)) {
            OpenPhase::Prepare(prepare) => prepare.into_read(),
            OpenPhase::Accept(_) => unreachable!(),
        }
    }

    /// What would be read, should the prepare phase end now. `None` comes in the accept phase, too.
    pub fn latest(&self) -> Option<&Accepted>
        ensures read { IsReadOf self.now (option_copied result) }
        ensures shown { option_copied result ≡ latest_in self.now.phase }
    {
        match &self.phase {
            OpenPhase::Prepare(phase) => phase.latest(),
            OpenPhase::Accept(_) => None,
        }
    }

    /// How the open phase ends, should no other reply arrive.
    pub fn verdict(&self) -> RoundVerdict
        ensures verdict { IsVerdictOf self.now result }
        ensures quorum { (result ≡ RoundVerdict.Quorum) ↔ (has_quorum self.now.phase ≡ true) }
    {
        match &self.phase {
            OpenPhase::Prepare(phase) => phase.verdict(),
            OpenPhase::Accept(phase) => phase.verdict(),
        }
    }

    /// The acceptors that confirmed in the open phase.
    pub fn confirmers(&self) -> Members
        ensures confirmers { IsConfirmersOf self.now result }
        ensures shown { result ≡ confirmed_in self.now.phase }
    {
        match &self.phase {
            OpenPhase::Prepare(phase) => phase.confirmers(),
            OpenPhase::Accept(phase) => phase.confirmers(),
        }
    }

    /// Whether the promise that the round offers is kept: an accept quorum accepted, the promise is the round's own, and those that
    /// hold it are a prepare quorum.
    pub fn may_keep(&self, ready: &Ready) -> bool
        ensures { result ≡ may_keep self.now ready.now }
    {
        self.is_settled() && self.is_own(ready) && self.era.holds_prep(&ready.by)
    }

    /// Whether it is in its accept phase, and an accept quorum accepted.
    fn is_settled(&self) -> bool
        ensures { result ≡ (not (is_preparing self.now.phase) && has_quorum self.now.phase) }
    {
        match &self.phase {
            OpenPhase::Prepare(_) => false,
            OpenPhase::Accept(phase) => phase.verdict() == RoundVerdict::Quorum,
        }
    }

    /// Whether a promise is the one that rode along: at its ballot, with what was accepted as what is to be read, and held by those
    /// that accepted.
    fn is_own(&self, ready: &Ready) -> bool
        ensures { result ≡ is_own self.now ready.now }
    {
        rode(self.ride, ready.ballot) && ready.read == self.ballot && ready.by == self.confirmers()
    }

    /// Whether a reply answers a request of the open phase.
    fn is_heard(&self, reply: &Reply) -> bool
        ensures { result ≡ is_heard_at self.now reply.now }
    {
        self.phase.is_of(reply.phase) && reply.tag == self.ballot
    }
}

/// Whether a ballot rode along, and it is this one.
fn rode(ride: Option<Ballot>, ballot: Ballot) -> bool
    ensures { result ≡ rode ride ballot }
{
    match ride {
        Some(ride) => ride == ballot,
        None => false,
    }
}

/// The greatest ballot that was met, after a reply that is heard or not.
fn met_after(heard: bool, met: Option<Ballot>, tell: &Tell) -> Option<Ballot>
    ensures { result ≡ met_after heard met tell.now }
{
    match tell {
        Tell::Met(ballot) if heard => Some(match met {
            Some(met) => met.max(*ballot),
            None => *ballot,
        }),
        _ => met,
    }
}
