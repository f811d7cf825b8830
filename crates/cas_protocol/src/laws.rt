//! What is true of every cluster. Each law is the contract of a function that does nothing.

ghost use Rattle.cas_protocol.specs.Laws.{AcceptorsAnswerLawfully, AcceptorsStopLawfully, OthersChangeNothing, WhatWasTakenStays, ProposersDrawLawfully, ProposersProposeLawfully, ProposalsMakeStates, RidersProposeLawfully, PromisesRideLawfully, ProposersCountLawfully, CallsAreDoneLawfully, RepliesAreTrue, WhatIsKnownStays, TombstonesAreFloors, WhatIsAckedIsHeld, WhatIsSettledIsHeld};
ghost use Rattle.cas_protocol.specs.Protocol.{EventsKeepHistory, RunsAreLegal, SomeRunIsDone};
ghost use Rattle.cas_protocol.specs.Reads.{ReadsGoOn, ReadsOfNothing, ReadsOfNothingWereEmpty, ReadsStand, ReadsMayCount, WhatIsReadStays, SomeReadIsCounted};

/// An acceptor that keeps what the log tells, and answers a request that it was asked, keeps what the log tells then: what it
/// promised, took, raised or removed, its vote and its reply go on with the log lawfully, and each has its reason.
pub fn acceptors_answer_lawfully()
    ensures { AcceptorsAnswerLawfully }
{}

/// What others do changes nothing of what the log tells of an acceptor, be it up or stopped.
pub fn others_change_nothing()
    ensures { OthersChangeNothing }
{}

/// An acceptor that stops within a request leaves what it kept, or what the answer would make of it. Whichever a later crash leaves,
/// the log goes on with it lawfully, although nobody was answered.
pub fn acceptors_stop_lawfully()
    ensures { AcceptorsStopLawfully }
{}

/// What an acceptor took for a key stays until it removes the slot at a tombstone at or above it.
pub fn what_was_taken_stays()
    ensures { WhatWasTakenStays }
{}

/// A proposer whose prepare phase has a quorum may propose at its ballot what it makes of the state that it read. Whatever replies
/// were lost, repeated or late, and whatever floors were made and slots removed meanwhile, that state is the one that the history
/// leaves from which the proposal goes on.
pub fn proposers_propose_lawfully()
    ensures { ProposersProposeLawfully }
{}

/// A proposer whose accept phase has a quorum may have its proposal acknowledged by those that accepted: each of them voted.
pub fn proposers_count_lawfully()
    ensures { ProposersCountLawfully }
{}

/// The ballot after its counter is one that a proposer may draw, whatever it drew before and wherever it stopped.
pub fn proposers_draw_lawfully()
    ensures { ProposersDrawLawfully }
{}

/// A proposer with a promise that rode along may propose at its ballot what it makes of the state that was accepted with it, and asks
/// nobody first. That state is the one that the history leaves from which the proposal goes on.
pub fn riders_propose_lawfully()
    ensures { RidersProposeLawfully }
{}

/// A call whose proposal is acknowledged may be answered Done, with what its program made of the state from which its proposal went
/// on.
pub fn calls_are_done_lawfully()
    ensures { CallsAreDoneLawfully }
{}

/// The reply of an acceptor that keeps what the log tells is true, and a state that it tells is that of a proposal.
pub fn replies_are_true()
    ensures { RepliesAreTrue }
{}

/// Whatever happens lawfully, and however late a frame arrives, what it bears is still so: the state that a request asks for or a
/// reply tells is that of a proposal. A promise that rode along stays good unless a floor is made above what it read.
pub fn what_is_known_stays()
    ensures { WhatIsKnownStays }
{}

/// What a proposal makes of the state from which it goes on is the state of its ballot, the one that acceptors may be asked to accept.
pub fn proposals_make_states()
    ensures { ProposalsMakeStates }
{}

/// Where whoever was asked to accept a proposal was asked to promise a later ballot by the same act, and a prepare quorum accepted, a
/// round may begin at that ballot without asking anybody.
pub fn promises_ride_lawfully()
    ensures { PromisesRideLawfully }
{}

/// The empty state that was acknowledged may be made a floor of its key, and whoever took it is clear of what was below.
pub fn tombstones_are_floors()
    ensures { TombstonesAreFloors }
{}

/// A ballot that was acknowledged is held by an accept quorum until a floor is made at or above it. Whatever a crash leaves of what
/// each of them keeps, the key's accepted ballot is at least that, and its history goes on from it.
pub fn what_is_acknowledged_is_held()
    ensures { WhatIsAckedIsHeld }
{}

/// What is settled of a key stands on the shelves of an accept quorum: whatever a crash leaves of what each of them keeps, the state
/// is that of a history which the settled one begins.
pub fn what_is_settled_is_held()
    ensures { WhatIsSettledIsHeld }
{}

/// What a read tells goes on from all that was settled when it began. A proposer asks the members of its era what they accepted for a
/// key, and writes nothing. If a prepare quorum told one ballot, the history up to that ballot begins with what was settled before the
/// question was asked, in this era or in any other. The state that was told is the one that this history leaves.
pub fn reads_go_on()
    ensures { ReadsGoOn }
{}

/// If each of a prepare quorum told a read that it accepted nothing, the register was empty when the read began: what was settled leaves
/// the empty state. Slots may be removed while it is read, but no floor of the key is made.
pub fn reads_of_nothing_are_so()
    ensures { ReadsOfNothing }
{}

/// If floors may have been made while it was read, the register was empty at some time since the read began: after all that was settled
/// then, and before all that was settled later.
pub fn reads_of_nothing_were_empty()
    ensures { ReadsOfNothingWereEmpty }
{}

/// What a read tells stands if those who told it are an accept quorum of the era in which it was proposed. The history up to it begins
/// what is settled as soon as the last that settled is at or above it, when they told it or whenever later.
pub fn reads_stand()
    ensures { ReadsStand }
{}

/// If what they told is above the last that settled, their votes may be marked, although they may have told nobody before. Then it may be
/// acknowledged by them, and the history up to it is what is settled.
pub fn reads_may_count()
    ensures { ReadsMayCount }
{}

/// Whatever happens lawfully while a read is under way, what it was told stays told, and true.
pub fn what_is_read_stays()
    ensures { WhatIsReadStays }
{}

/// Whatever happens, a cluster with a history has one after it: each request that was ever made may be answered at any time, any
/// number of times or never, and proposers go by whichever replies were ever made to them; acceptors stop within any request;
/// promises ride along, tombstones become floors, slots are removed, and proposers enter new eras.
pub fn events_keep_the_history()
    ensures { EventsKeepHistory }
{}

/// After whatever happened from the opening on, a cluster has a history, and its record is legal: each register has one history,
/// each change that was answered Done stands in it once, after all that was settled when its call began, and a refused one never.
/// The quorums of each era must meet those of the same and of the next.
pub fn runs_are_legal()
    ensures { RunsAreLegal }
{}

/// There is such a run: a call is answered Done with the number that it added, and the next one is proposed by a promise that rode
/// along. In the one that is shown an acceptor stops within its accept and is asked the same again, another takes what is long Done,
/// and a second proposer's ballot is met.
pub fn some_run_is_done()
    ensures { SomeRunIsDone }
{}

/// There is a run with such a read: two acceptors take a ballot, and each stops within its write and answers nobody. Nothing is settled
/// then. A read finds what they took, their votes are marked, and it is acknowledged.
pub fn some_read_is_counted()
    ensures { SomeReadIsCounted }
{}
