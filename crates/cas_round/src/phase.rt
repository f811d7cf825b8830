//! The prepare phase and the accept phase of a round (Rystsov 2018, section 2.2).

ghost use Rattle.std.specs.Prelude.{◌≡◌, ◌↔◌, true, false, List, [], ◌∷◌, option_copied};
ghost use Rattle.cas_quorum.specs.declared.era.Era.{Era as AnEra};
ghost use Rattle.cas_ballot.specs.declared.ballot.Ballot.{Ballot as ABallot};
ghost use Rattle.cas_slot.specs.declared.message.Reply.{Reply as AReply};
ghost use Rattle.cas_round.specs.Replies.{is_prepare, is_accept, is_heard, promisers_of, accepters_of, is_promise, is_acceptance, accepted_by};
ghost use Rattle.cas_round.specs.Round.{IsPrepareAfter, IsAcceptAfter, IsPrepareVerdict, IsAcceptVerdict, IsRead, latest_of, promised_in, read_in, is_promised, accepted_in, is_accepted};

use crate::tally::Tally;
use crate::verdict::RoundVerdict;
use cas_ballot::{Ballot, Members};
use cas_quorum::Era;
use cas_slot::{Accepted, Phase, Reply, Tell};

/// The prepare phase of a round: which of the replies to its requests arrived.
///
/// Only the replies of its ballot that bear [`Phase::Prepare`] count, in whatever order and however often they arrive. A
/// reply confirms where it is [`Tell::Promised`].
#[derive(Debug, Drop)]
pub struct PrepareRound {
    era: Era,
    ballot: Ballot,
    tally: Tally,
    read: Option<Accepted>,
}

impl PrepareRound {
    /// The phase at that ballot in that era, before any reply.
    pub fn new(era: Era, ballot: Ballot) -> PrepareRound
        ensures { IsPrepareAfter era ballot [] result }
    {
        PrepareRound {
            era,
            ballot,
            tally: Tally::new(),
            read: None,
        }
    }

    /// One more reply arrived.
    pub fn arrive(&mut self, reply: Reply)
        ensures after { (era : AnEra) (ballot : ABallot) (replies : List AReply)
            → IsPrepareAfter era ballot replies self.old
            → IsPrepareAfter era ballot (reply ∷ replies) self.new }
        // A reply of another phase or another ballot changes nothing.
        ensures other { (era : AnEra) (ballot : ABallot) (replies : List AReply)
            → IsPrepareAfter era ballot replies self.old
            → is_heard is_prepare ballot reply ≡ false → self.new ≡ self.old }
    {
        if reply.phase != Phase::Prepare || reply.tag != self.ballot {
            return;
        }
        if is_promise(&reply.tell) {
            self.tally.confirm(reply.from);
        } else {
            self.tally.refuse(reply.from, &reply.tell);
        }
        self.read = latest(self.read.take(), told_as_accepted(reply.tell));
    }

    /// How the phase ends, should no other reply arrive.
    pub fn verdict(&self) -> RoundVerdict
        ensures verdict { (era : AnEra) (ballot : ABallot) (replies : List AReply)
            → IsPrepareAfter era ballot replies self.now
            → IsPrepareVerdict era ballot replies result }
        ensures quorum { (result ≡ RoundVerdict.Quorum) ↔ (is_promised self.now ≡ true) }
    {
        let quorum = self.era.holds_prep(&self.tally.confirmed);
        self.tally
            .verdict(quorum, &self.era.prep, self.era.need_prep)
    }

    /// The acceptors that confirmed.
    pub fn confirmers(&self) -> Members
        ensures confirmers { (era : AnEra) (ballot : ABallot) (replies : List AReply)
            → IsPrepareAfter era ballot replies self.now → result ≡ promisers_of ballot replies }
        ensures shown { result ≡ promised_in self.now }
    {
        self.tally.confirmed
    }

    /// What would be read, should no other reply arrive, as [`PrepareRound::into_read`] tells it.
    pub fn latest(&self) -> Option<&Accepted>
        ensures read { (era : AnEra) (ballot : ABallot) (replies : List AReply)
            → IsPrepareAfter era ballot replies self.now
            → IsRead ballot replies (option_copied result) }
        ensures shown { option_copied result ≡ read_in self.now }
    {
        self.read.as_ref()
    }

    /// What was read: of all that the confirmations told as accepted, that of the greatest ballot. `None` where none of
    /// them told any.
    pub fn into_read(self) -> Option<Accepted>
        ensures { (era : AnEra) (ballot : ABallot) (replies : List AReply)
            → IsPrepareAfter era ballot replies self → IsRead ballot replies result }
    {
        self.read
    }
}

/// The accept phase of a round: which of the replies to its requests arrived.
///
/// Only the replies of its ballot that bear [`Phase::Accept`] count, in whatever order and however often they arrive. A
/// reply confirms where it is [`Tell::Accepted`].
#[derive(Debug, Drop)]
pub struct AcceptRound {
    era: Era,
    ballot: Ballot,
    tally: Tally,
}

impl AcceptRound {
    /// The phase at that ballot in that era, before any reply.
    pub fn new(era: Era, ballot: Ballot) -> AcceptRound
        ensures { IsAcceptAfter era ballot [] result }
    {
        AcceptRound {
            era,
            ballot,
            tally: Tally::new(),
        }
    }

    /// One more reply arrived.
    pub fn arrive(&mut self, reply: Reply)
        ensures after { (era : AnEra) (ballot : ABallot) (replies : List AReply)
            → IsAcceptAfter era ballot replies self.old
            → IsAcceptAfter era ballot (reply ∷ replies) self.new }
        // A reply of another phase or another ballot changes nothing.
        ensures other { (era : AnEra) (ballot : ABallot) (replies : List AReply)
            → IsAcceptAfter era ballot replies self.old
            → is_heard is_accept ballot reply ≡ false → self.new ≡ self.old }
    {
        if reply.phase != Phase::Accept || reply.tag != self.ballot {
            return;
        }
        if is_acceptance(&reply.tell) {
            self.tally.confirm(reply.from);
        } else {
            self.tally.refuse(reply.from, &reply.tell);
        }
    }

    /// How the phase ends, should no other reply arrive.
    pub fn verdict(&self) -> RoundVerdict
        ensures verdict { (era : AnEra) (ballot : ABallot) (replies : List AReply)
            → IsAcceptAfter era ballot replies self.now
            → IsAcceptVerdict era ballot replies result }
        ensures quorum { (result ≡ RoundVerdict.Quorum) ↔ (is_accepted self.now ≡ true) }
    {
        let quorum = self.era.holds_acc(&self.tally.confirmed);
        self.tally.verdict(quorum, &self.era.acc, self.era.need_acc)
    }

    /// The acceptors that confirmed.
    pub fn confirmers(&self) -> Members
        ensures confirmers { (era : AnEra) (ballot : ABallot) (replies : List AReply)
            → IsAcceptAfter era ballot replies self.now → result ≡ accepters_of ballot replies }
        ensures shown { result ≡ accepted_in self.now }
    {
        self.tally.confirmed
    }
}

/// The one with the greater ballot, if two were told as accepted.
fn latest(read: Option<Accepted>, told: Option<Accepted>) -> Option<Accepted>
    ensures { result ≡ latest_of read told }
{
    match (read, told) {
        (Some(read), Some(told)) => Some(if read.ballot < told.ballot {
            told
        } else {
            read
        }),
        (Some(read), None) => Some(read),
        (None, told) => told,
    }
}

/// Whether a prepare was confirmed.
fn is_promise(tell: &Tell) -> bool
    ensures { result ≡ is_promise tell.now }
{
    matches!(tell, Tell::Promised { .. })
}

/// Whether an accept was confirmed.
fn is_acceptance(tell: &Tell) -> bool
    ensures { result ≡ is_acceptance tell.now }
{
    matches!(tell, Tell::Accepted)
}

/// What a promise tells as accepted before.
fn told_as_accepted(tell: Tell) -> Option<Accepted>
    ensures { result ≡ accepted_by tell }
{
    match tell {
        Tell::Promised { accepted } => accepted,
        _ => None,
    }
}
