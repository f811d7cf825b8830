//! Why a round ends as it does: by the replies that arrived at it, and by nothing else; and that it is done where nothing disturbs it.
//!
//! Definitions and laws, and no code that runs. A law is the contract of a function that does nothing.
#![tactic(auto)]

ghost use Rattle.cas_model.specs.View.{meaning};
ghost use Rattle.cas_model_causes.specs.Exchanges.Answering.{ClustersAnswer, SilentAreHarmed};
ghost use Rattle.cas_model_causes.specs.Calls.Causes.{StepsPassOrBring, RoundsBeginAfresh, PreparesEndByReplies, AcceptsEndByReplies};
ghost use Rattle.cas_model_causes.specs.Collection.Collects.{CollectionsHaveCauses, CollectionsBeginToAsk, UndisturbedCollectionsAreDone};
ghost use Rattle.cas_model_causes.specs.Exchanges.Confirmed.{ErasAreMarked, ConfirmersAreAsked, ProbesAskAll, ConfirmersAreProbed};
ghost use Rattle.cas_model_causes.specs.Exchanges.Current.{ProbesAreCurrent};
ghost use Rattle.cas_model_causes.specs.Exchanges.Probed.{ProbesTellSo};
ghost use Rattle.cas_model_causes.specs.Eras.Tellings.{StepsTellTruly};
ghost use Rattle.cas_model_causes.specs.Calls.Told.{AnswersHaveCauses, WhatIsMetIsAbove};
ghost use Rattle.cas_model_causes.specs.Exchanges.Unaged.{ProbesAreUnaged, ProbesAreToldSo};
ghost use Rattle.cas_model_causes.specs.Calls.Undisturbed.{RoundsBeginToAsk, UndisturbedPreparesPropose, UndisturbedAcceptsAreDone, UndisturbedRoundsAreDone};

use cas_disk::Disk;
use cas_slot::Shelf;

/// Whatever others do, and whatever strays in, a proposer's open round hears a reply that was under way to it, or stays as it is.
pub fn steps_pass_or_bring<S: Shelf, V: Disk>()
    ensures { StepsPassOrBring (meaning S.Shelf V.Disk) }
{}

/// A round begins with no reply: in its prepare phase, or by a promise in its accept phase. A call that begins none is told why.
pub fn rounds_begin_afresh<S: Shelf, V: Disk>()
    ensures { RoundsBeginAfresh (meaning S.Shelf V.Disk) }
{}

/// A prepare phase ends by the replies that arrived since it began, each acceptor's confirmation counted once: with a quorum of promises
/// the round proposes, unless its vault fails or no memory is found. Otherwise its caller is told of a conflict with the greatest ballot
/// that was met, if one was; else of the greatest age that was told; else of the least acceptor that was full; else how many of the
/// members confirmed.
pub fn prepares_end_by_replies<S: Shelf, V: Disk>()
    ensures { PreparesEndByReplies (meaning S.Shelf V.Disk) }
{}

/// An accept phase ends by the replies that arrived since it began, likewise: with a quorum of acceptances the change is done, and
/// otherwise it is unsettled by the first of those causes.
pub fn accepts_end_by_replies<S: Shelf, V: Disk>()
    ensures { AcceptsEndByReplies (meaning S.Shelf V.Disk) }
{}

/// What a call's step tells its caller has its cause: a round that does not begin, one that ends before it proposed, and one that is
/// counted.
pub fn answers_have_causes<S: Shelf, V: Disk>()
    ensures { AnswersHaveCauses (meaning S.Shelf V.Disk) }
{}

/// Where shelves and disks tell what they keep, a ballot that a round met is above its own.
pub fn what_is_met_is_above<S: Shelf, V: Disk>()
    ensures { WhatIsMetIsAbove (meaning S.Shelf V.Disk) }
{}

/// A round that begins asks each member of its phase, and no other frame waits at its proposer.
pub fn rounds_begin_to_ask<S: Shelf, V: Disk>()
    ensures { RoundsBeginToAsk (meaning S.Shelf V.Disk) }
{}

/// A prepare phase proposes where a prepare quorum of its era is undisturbed: no frame to or from those acceptors is lost or late, and
/// each of their requests is handled by an acceptor that is up, that keeps no greater age of the proposer and no greater ballot for the
/// key, that has room for it, and whose shelf has no fault. Whatever befalls the others, the accept phase begins then, with no reply, and
/// with its requests and no other frame of the proposer's own; unless the vault fails in that very step, or no memory is found.
pub fn undisturbed_prepares_propose<S: Shelf, V: Disk>()
    ensures { UndisturbedPreparesPropose (meaning S.Shelf V.Disk) }
{}

/// An accept phase is done where an accept quorum of its era is undisturbed likewise: once it is counted, its caller is told so, with
/// what its call proposed and at the ballot of its round. No vault and no want of memory is an exception.
pub fn undisturbed_accepts_are_done<S: Shelf, V: Disk>()
    ensures { UndisturbedAcceptsAreDone (meaning S.Shelf V.Disk) }
{}

/// So a round that begins to prepare, proposes and is counted, and that is undisturbed with a quorum in each phase, is done with what it
/// proposed: its count tells nothing else.
pub fn undisturbed_rounds_are_done<S: Shelf, V: Disk>()
    ensures { UndisturbedRoundsAreDone (meaning S.Shelf V.Disk) }
{}

/// What is told of a collection's own round has its cause, as with a change: its call or its round does not begin, or its round is counted;
/// and a held state is found only by a quorum of promises.
pub fn collections_have_causes<S: Shelf, V: Disk>()
    ensures { CollectionsHaveCauses (meaning S.Shelf V.Disk) }
{}

/// A collection's round that begins asks each member of its phase, and no other frame waits at proposer 0.
pub fn collections_begin_to_ask<S: Shelf, V: Disk>()
    ensures { CollectionsBeginToAsk (meaning S.Shelf V.Disk) }
{}

/// A collection's round that begins to prepare, proposes and is counted, and that is undisturbed with a quorum in each phase, is done with
/// what it proposed: its count tells nothing else. One that reads a held state proposes nothing.
pub fn undisturbed_collections_are_done<S: Shelf, V: Disk>()
    ensures { UndisturbedCollectionsAreDone (meaning S.Shelf V.Disk) }
{}

/// What the operator is told of a change of membership and of a collection is so in the record, and each step leaves it so: each proposer,
/// that of the operator among them, entered the era that is told of a join or a leave; and a key that is told to be collected has its
/// tombstone as a floor, with the empty state.
pub fn steps_tell_truly<S: Shelf, V: Disk>()
    ensures { StepsTellTruly (meaning S.Shelf V.Disk) }
{}

/// For each acceptor that an exchange asks, and that told nothing yet, a frame waits or was harmed, until proposer 0 crashes within the
/// exchange. This holds of a cluster that has just opened, and whatever is called on it.
pub fn clusters_answer<S: Shelf, V: Disk>()
    ensures { ClustersAnswer (meaning S.Shelf V.Disk) }
{}

/// Once no frame of an exchange waits any more, those that told nothing are no more than those of which a frame was harmed: everyone was
/// asked.
pub fn silent_are_harmed<S: Shelf, V: Disk>()
    ensures { SilentAreHarmed S V }
{}

/// Where shelves and disks tell what they keep, each that tells what it keeps of a key that is probed tells a state that was proposed, or
/// the floor with which the key's history opened; or that the request is too old.
pub fn probes_tell_so<S: Shelf, V: Disk>()
    ensures { ProbesTellSo (meaning S.Shelf V.Disk) }
{}

/// Where shelves and disks tell what they keep, proposer 0 works in the era that it was marked last as having entered. Or a change of
/// membership is under way, whose next era its disk kept before it stopped, and it works in that one and is not marked so yet.
pub fn eras_are_marked<S: Shelf, V: Disk>()
    ensures { ErasAreMarked (meaning S.Shelf V.Disk) }
{}

/// Where shelves and disks tell what they keep, all who confirmed what was acknowledged in the era in which proposer 0 works are among those
/// that an exchange of it asks.
pub fn confirmers_are_asked<S: Shelf, V: Disk>()
    ensures { ConfirmersAreAsked (meaning S.Shelf V.Disk) }
{}

/// A probe asks everyone, and until a change of membership has marked proposer 0 in its next era, proposer 0 works in the one that all entered
/// last: so it is of a cluster that has just opened, and whatever is called on it, but that a proposer that stopped is started again.
pub fn probes_ask_all<S: Shelf, V: Disk>()
    ensures { ProbesAskAll (meaning S.Shelf V.Disk) }
{}

/// Where shelves and disks tell what they keep, and no proposer was started again, a probe asks each who confirmed what was acknowledged in
/// the era that proposer 0 was marked last as having entered.
pub fn confirmers_are_probed<S: Shelf, V: Disk>()
    ensures { ConfirmersAreProbed (meaning S.Shelf V.Disk) }
{}

/// Where shelves and disks tell what they keep, no member finds a probe too old: no acceptor asks proposer 0 for more than the age that its
/// vault keeps. So it is of a cluster that opens with no floors, or whose acceptors ask for no age, and whatever is called on it.
pub fn probes_are_unaged<S: Shelf, V: Disk>()
    ensures { ProbesAreUnaged (meaning S.Shelf V.Disk) }
{}

/// So whoever tells anything to a probe tells what it keeps of the key; and what it accepted of it is a state that was proposed, or that of the
/// floor with which the key's history opened.
pub fn probes_are_told_so<S: Shelf, V: Disk>()
    ensures { ProbesAreToldSo (meaning S.Shelf V.Disk) }
{}

/// Where shelves and disks tell what they keep, whoever tells a probe what it keeps of the key tells no less than it had confirmed: what it
/// accepted is at or above each ballot of the key that was acknowledged when the members were asked, and that it had confirmed, until a floor of
/// the key is.
pub fn probes_are_current<S: Shelf, V: Disk>()
    ensures { ProbesAreCurrent (meaning S.Shelf V.Disk) }
{}
