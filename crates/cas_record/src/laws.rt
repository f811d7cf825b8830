//! What is true of every record and every log of happenings. Each law is the contract of a function that does nothing.
//!
//! A log is the list of all that happens in the store, also of what leaves no mark: promises, acceptances, removals of
//! slots, entries into eras. It is lawful where each happening was allowed by those before it, and orderly where each had
//! its reason: a ballot was drawn, a request asked for it, an acceptor did what it was asked. Both lists are read newest
//! first.

ghost use Rattle.cas_record.specs.Laws.{ChainsExtend, OpeningsAreEmpty, SettledGrows, LawfulIsLegal, EarlierIsLegal, DrawnOnce, AnswersAboveRemovals, DrawsAreGranted, FloorsAreTold, LinksAreRead, OpeningsAreRead, ListingsGiveStones, ListingsGiveOpeningStones, LeavingStays, WiderStaysLawful};
ghost use Rattle.cas_record.specs.Logs.Witness.{WitnessStands, WitnessIsOrderly};

/// Agreement: in a lawful log the history of a ballot that an accept quorum of its era took begins the history of each
/// greater proposal of the key, whatever promises rode along, floors were made and eras entered, provided that the
/// quorums of each era meet those of the same and of the next.
pub fn chains_extend()
    ensures { ChainsExtend }
{}

/// The history up to the floor of a key that was made before any call began is empty, whatever else is marked at its
/// ballot.
pub fn openings_are_empty()
    ensures { OpeningsAreEmpty }
{}

/// In a lawful log what was settled of a key at any earlier time begins what is settled.
pub fn settled_grows()
    ensures { SettledGrows }
{}

/// The marks of a lawful log are a legal record.
pub fn lawful_is_legal()
    ensures { LawfulIsLegal }
{}

/// A legal record was legal at each earlier time.
pub fn earlier_is_legal()
    ensures { EarlierIsLegal }
{}

/// In an orderly log a ballot was drawn for one key, and in one era.
pub fn a_ballot_has_one_key_and_one_era()
    ensures { DrawnOnce }
{}

/// In an orderly log a request of a round that an acceptor may answer is above each tombstone at which the acceptor
/// removed the key's slot: what is asked anew cannot be taken for what was collected.
pub fn answers_are_above_removals()
    ensures { AnswersAboveRemovals }
{}

/// In an orderly log a proposer that drew a ballot, and got a promise of it or a ride for it, was granted it: it was in
/// the era of the draw before.
pub fn draws_are_granted()
    ensures { DrawsAreGranted }
{}

/// In a lawful and orderly log an acceptor that took a floor, or was never asked at or below it, tells nothing below the
/// floor to a ballot above it.
pub fn floors_are_told()
    ensures { FloorsAreTold }
{}

/// In a lawful and orderly log a proposal goes on from the ballot that it read; where it read nothing it may go on from a
/// floor of its key.
pub fn links_are_read()
    ensures { LinksAreRead }
{}

/// In a lawful and orderly log a proposal that read nothing does not go on from a floor with which the history of its key
/// opened and that a quorum of the first era took: one of them told it what it took, or something later.
pub fn openings_are_read()
    ensures { OpeningsAreRead }
{}

/// In a lawful log, once all proposers are in an era, a listing by an accept quorum of it gives each key that was proposed
/// in an earlier era its stepping stone: the key was shown and rescanned, or some acceptor had it removed.
pub fn a_complete_listing_gives_stones()
    ensures { ListingsGiveStones }
{}

/// And so it does each key whose history opened with a floor that a quorum of the first era took: the key was rescanned, or
/// a later floor stands.
pub fn a_complete_listing_gives_opening_stones()
    ensures { ListingsGiveOpeningStones }
{}

/// A proposer that may leave an era may leave it later, whatever happens meanwhile.
pub fn leaving_stays_allowed()
    ensures { LeavingStays }
{}

/// When eras are added, or members and quorums to an era, nothing that happened becomes unlawful or loses its reason.
pub fn more_eras_stay_lawful()
    ensures { WiderStaysLawful }
{}

/// The laws speak of something: a log with a promise that rode along, a floor, removed slots, a key that was used again
/// and two changes of era is lawful, in a cluster whose quorums meet.
pub fn a_log_is_lawful()
    ensures { WitnessStands }
{}

/// The same log is orderly: its ballots are drawn, its requests asked, its answers true, among them those of a listing, of
/// a probe, of ages raised and of slots removed.
pub fn a_log_is_orderly()
    ensures { WitnessIsOrderly }
{}
