//! What is true of every cluster as it is seen, with acceptors on shelves of any kind and proposers on disks of any kind. Each law is
//! the contract of a function that does nothing.

ghost use Rattle.cas_model.specs.View.{meaning};
ghost use Rattle.cas_model.specs.SafeLaws.{OpeningsAreSafe, OpeningsOnAreSafe, StepsAreSafe, LittleIsReserved, FullForRounds, FullForExchanges, FinishedAreAsAsked, FinishedHaveEntered};
ghost use Rattle.cas_model.specs.Laws.{OpeningsAreRemembered, OpeningsOnAreRemembered, StepsAreRemembered, HistoriesAreLegal, WhatIsDoneIsKept, DonesStand, FloorsArePassed, MembersAreClear};
ghost use Rattle.cas_model.specs.Collection.Laws.{RequestsAreAged, RemovalsAreDone, CollectedHaveFloors};
ghost use Rattle.cas_model.specs.Eras.Entering.{ErasAreLawful};
ghost use Rattle.cas_model.specs.Exchanges.ReadLaws.{ReadsAreSo, ReadsOfNothingAreSo};
ghost use Rattle.cas_model.specs.Witness.{ShownHistory};

use cas_disk::Disk;
use cas_slot::Shelf;
use cas_vault::Vault;

/// A cluster that has just opened is remembered: there is a log of all that happened in it that tells what each of its parties keeps
/// and knows, and what the frames under way bear.
pub fn openings_are_remembered<S: Shelf, V: Disk>()
    ensures { OpeningsAreRemembered (meaning S.Shelf V.Disk) }
{}

/// And so is one that has just opened on what stood before: with floors that its members hold, at ballots below all that its proposers
/// may draw, and with acceptors that were used before and are never to join.
pub fn openings_on_are_remembered<S: Shelf, V: Disk>()
    ensures { OpeningsOnAreRemembered (meaning S.Shelf V.Disk) }
{}

/// Whatever is called on a cluster that is remembered, it is remembered then: a call begins by a draw or by a promise that rode along, a
/// frame has its turn with any verdict or strays in late, a round proposes, is counted or ends short, a call ends, acceptors and
/// proposers stop within whatever they write and are up again, and memory is found nowhere.
pub fn steps_are_remembered<S: Shelf, V: Disk>()
    ensures { StepsAreRemembered (meaning S.Shelf V.Disk) }
{}

/// Whatever was called on a cluster since it opened, its record is legal: each register has one history, each change that was answered
/// Done stands in it once, after all that was settled when its call began, an unsettled one at most once, and a refused one never.
pub fn histories_are_legal<S: Shelf, V: Disk>()
    ensures { HistoriesAreLegal (meaning S.Shelf V.Disk) }
{}

/// What is acknowledged stands on the shelves of those that confirmed it, who are an accept quorum, whatever a crash now leaves of each,
/// until a floor is made at or above it.
pub fn what_is_done_is_kept<S: Shelf, V: Disk>()
    ensures { WhatIsDoneIsKept (meaning S.Shelf V.Disk) }
{}

/// What a count tells its caller is done, is acknowledged at the ballot that it tells, which is above each floor of its key. It stands on the
/// shelves of those that confirmed it, who are an accept quorum of the proposer's era, whatever a crash now leaves of each.
pub fn what_is_told_done_stands<S: Shelf, V: Disk>()
    ensures { DonesStand (meaning S.Shelf V.Disk) }
{}

/// All proposers are past each floor: none draws a ballot at or below it, whatever a crash now leaves of its vault, and the promise that one
/// holds of the key, the round that it has open for the key and the ballot that rides with that are above it.
pub fn floors_are_passed<S: Shelf, V: Disk>()
    ensures { FloorsArePassed (meaning S.Shelf V.Disk) }
{}

/// An acceptor that is up, and a member of an era in which a proposer works, accepted nothing of a key below a floor of it, whatever a crash
/// now leaves of its shelf: it has no state of the key, or one at or above the floor.
pub fn members_are_clear<S: Shelf, V: Disk>()
    ensures { MembersAreClear (meaning S.Shelf V.Disk) }
{}

/// What members agree on when a read of a key is gathered is so: its state is what the history up to its ballot leaves, which goes on from
/// all that was settled of the key when the members were asked. Once the read is gathered, that history begins what is settled.
pub fn reads_are_so<S: Shelf, V: Disk>()
    ensures { ReadsAreSo (meaning S.Shelf V.Disk) }
{}

/// If they agree that they accepted nothing of the key, nothing is marked, and its register was empty at some time since they were asked.
pub fn reads_of_nothing_are_so<S: Shelf, V: Disk>()
    ensures { ReadsOfNothingAreSo (meaning S.Shelf V.Disk) }
{}

/// Whoever is marked as in an era above the first was allowed to enter it: all proposers were in the era before it, unless that is the first,
/// and each key that had been proposed in an earlier era was rescanned there, or has a floor at or above all its proposals of earlier eras.
/// Whatever eras two proposers work in, a prepare quorum of the one and an accept quorum of the other share an acceptor.
pub fn eras_are_lawful<S: Shelf, V: Disk>()
    ensures { ErasAreLawful (meaning S.Shelf V.Disk) }
{}

/// What is under way to such a member for the key, at a ballot at or below a floor of it, is too old for the member: its age is below the
/// least age that the member asks its proposer for, whatever a crash now leaves of its shelf.
pub fn requests_are_aged<S: Shelf, V: Disk>()
    ensures { RequestsAreAged (meaning S.Shelf V.Disk) }
{}

/// Where what the members told brings a collection to its end, each removed its slot of the key or kept it, and so many did the one and the
/// other; and none that is up has seen anything of the key but above the tombstone, whatever a crash now leaves of its shelf.
pub fn removals_are_done<S: Shelf, V: Disk>()
    ensures { RemovalsAreDone (meaning S.Shelf V.Disk) }
{}

/// Where a collection is at its end and the operator is told so, its tombstone is a floor of the key, with the empty state.
pub fn collected_keys_have_floors<S: Shelf, V: Disk>()
    ensures { CollectedHaveFloors (meaning S.Shelf V.Disk) }
{}

/// A cluster that has just opened, with a place for each party, is safe, whatever its shelves and disks tell: each mark that may still
/// be made is reserved, there is room for the reply to each request that waits, and each frame that waits is to or from a member that
/// the open round of its proposer asks.
pub fn openings_are_safe<S: Shelf, V: Disk>()
    ensures { OpeningsAreSafe (meaning S.Shelf V.Disk) }
{}

/// And so is one that has just opened on what stood before.
pub fn openings_on_are_safe<S: Shelf, V: Disk>()
    ensures { OpeningsOnAreSafe (meaning S.Shelf V.Disk) }
{}

/// Whatever is called on a cluster that is safe, it is safe then. So no call finds the record full but where it begins, nor a late
/// frame but before it is let in.
pub fn steps_are_safe<S: Shelf, V: Disk>()
    ensures { StepsAreSafe (meaning S.Shelf V.Disk) }
{}

/// All that is reserved for the calls, the operator's call, the exchange and the collection of a cluster that is safe is less than 1,000
/// marks.
pub fn little_is_reserved<S: Shelf, V: Disk>()
    ensures { LittleIsReserved S V }
{}

/// So the marks of a round do not fit only where more than 999,000 are made.
pub fn full_for_rounds<S: Shelf, V: Disk>()
    ensures { FullForRounds S V }
{}

/// And so it is with the marks of an exchange.
pub fn full_for_exchanges<S: Shelf, V: Disk>()
    ensures { FullForExchanges S V }
{}

/// Where a change of membership is at its end and the operator is told so, each proposer is marked as having entered the era that is told.
pub fn finished_changes_are_entered<S: Shelf, V: Disk>()
    ensures { FinishedHaveEntered S V }
{}

/// And the era in which proposer 0 works is as it was asked for: the acceptor is a member of it, or none, or quorums have the sizes.
pub fn finished_changes_are_as_asked<S: Shelf, V: Disk>()
    ensures { FinishedAreAsAsked S V }
{}

/// There is a history in which a call is Done and the next one is proposed by the promise that rode along. In the one that is shown an
/// acceptor stops within its write and is up again with it, its accept is late and strays in after the call ended, and a second proposer
/// meets a ballot, crashes in its round and is up again. The proposers' vaults have the memory of this one.
pub fn some_history_is_shown<V: Disk>(vault: &Vault<V>)
    ensures { ShownHistory }
{}
