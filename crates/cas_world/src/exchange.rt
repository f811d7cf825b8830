//! The operator's calls, and the exchange in which proposer 0 asks all members.

ghost use Rattle.std.specs.Prelude.{◌≡◌, ◌≢◌, ◌⊎◌, ◌↔◌, ◌+◌, ◌<◌, ◌≤◌, ◌++◌, [], None, Some, Ok, false, length, IsSome, IsErrOf, IfOk, IfErr, IfSome, OnOk, OnErr, option_copied, reverse};
ghost use Rattle.cas_flow.specs.Flow.{queue_at};
ghost use Rattle.cas_flow.specs.Message.{CanBeSent};
ghost use Rattle.cas_flow.specs.Queue.{fall_of};
ghost use Rattle.cas_flow.specs.declared.message.Message.TheVariants as message;
ghost use Rattle.cas_model.specs.Council.{exchange_place};
ghost use Rattle.cas_model.specs.Step.{Step, Order as Orders, RefuseOrder, Tell, AskAll, TurnExchange, RefuseTurnExchange, Gather};
ghost use Rattle.cas_model.specs.Frames.Step.{FindsNoRoom};
ghost use Rattle.cas_model.specs.View.{era_at, meaning, reserved_in_all, disk_meaning};
ghost use Rattle.cas_ballot.specs.Ballot.{FitsBallot};
ghost use Rattle.cas_model.specs.Calls.Step.{Sends};
ghost use Rattle.cas_model.specs.Exchanges.Step.{new_exchange, questions_to, told_marks, HasTag};
ghost use Rattle.cas_world_calls.specs.Council.{exchange_view, question_view, left_to_list};
ghost use Rattle.cas_world.specs.Exchanges.Exchange.{MayAskQuery, MayAskThis, MayGather, MayGatherMembers, HasGathered, asking_of, gathering_of, WasToldOrder, IsAsked, OpensExchange, FailsToAsk, FailsToTag, IsStopped, question_in, question_from, asked_from, begins_with, era_for, marks_to_ask};
ghost use Rattle.cas_model.specs.Collection.Laws.{HasItsFloor};
ghost use Rattle.cas_model.specs.SafeLaws.{HaveEnteredIts, IsEraTold};
ghost use Rattle.cas_world.specs.Collection.Collect.{AreRemovalsDone};
ghost use Rattle.cas_world.specs.Eras.Plans.{HasCollectedAll, HasFinished, MayTell};

use crate::serve::{Served, serve};
use crate::turn::{first, peer_of};
use crate::world::World;
use cas_ballot::{Ballot, Members};
use cas_change::Key;
use cas_disk::Disk;
use cas_fate::Verdict;
use cas_flow::{Fall, Flow, Message};
use cas_proposer::Desk;
use cas_quorum::Era;
use cas_record::{Answer, Asked, MOST_MARKS, Mark, OpAnswer, Record};
use cas_slot::{Request, Shelf};
use cas_vault::VaultError;
use cas_world_calls::answers::copy_of;
use cas_world_calls::council::{
    EXCHANGE_PLACE, EndedOrder, Gathered, OpenExchange, Opened, Order, Query, Question,
    marks_of_read, no_memory, reserved_in_all, unanswered,
};
use cas_world_calls::send::send_questions;
use cas_world_listing::{Listing, Places};
use std::alloc::{AllocError, Global};

/// What proposer 0 asks all members.
#[derive(Debug, PartialEq, Eq, Drop)]
pub enum Exchange {
    /// For a collection, to answer nothing that a proposer asked before it was renewed.
    Ages,
    /// For a collection, to remove their slot of its key.
    Remove,
    /// The next keys of which each keeps a slot, for the listing of the era that is to be settled. Members whose listing has ended are not
    /// asked.
    List,
    /// What each keeps for the key.
    Probe(Key),
    /// The same, to read the key: what they agree on may be acknowledged.
    Read(Key),
}

impl<S: Shelf, V: Disk> World<S, V> {
    /// Opens a call of the operator, and reserves its mark.
    ///
    /// [`Answer::RecordFull`] comes exactly where the marks that are made and all that are reserved are as many as a record holds, and
    /// then more than 999,000 are made; [`Answer::NoMemory`] alone comes beside it. After an `Err` all is as before.
    pub fn order(&mut self, asked: &Asked) -> Result<(), Answer>
        requires { self.old.council.order ≡ None }
        ensures full { IsErrOf result Answer.RecordFull ↔
            (length self.old.marks + reserved_in_all self.old ≡ 1000000) }
        ensures long { IsErrOf result Answer.RecordFull → 999000 < length self.old.marks }
        ensures cause { IfErr result (λ told. (told ≡ Answer.RecordFull)
            ⊎ (told ≡ Answer.NoMemory false)) }
        ensures ok { OnOk result
            (Step (meaning S.Shelf V.Disk) self.old (Orders asked.now) self.new) }
        ensures err { OnErr result (Step (meaning S.Shelf V.Disk) self.old RefuseOrder self.new) }
    {
        let reserved = reserved_in_all(&self.callers, &self.council);
        if self.record.marks().len() + reserved >= MOST_MARKS {
            return Err(Answer::RecordFull);
        }
        match to_order(&mut self.record, reserved, asked) {
            Ok(order) => {
                self.council.order = Some(order);
                Ok(())
            }
            Err(_) => Err(Answer::NoMemory { proposed: false }),
        }
    }

    /// Ends the operator's call: with the answer that its last step told; or, where that told nothing and the change of membership that
    /// was asked for is at its end, with [`OpAnswer::Joined`], [`OpAnswer::Left`] or [`OpAnswer::Resized`], and the change is no longer under
    /// way then; or, where the
    /// collection that was asked for is at its end, with [`OpAnswer::Collected`]. It is marked, but for what a probe found, and handed back.
    /// An exchange that is open is over, and its frames join the late ones; so is a collection, and a listing that is not complete is
    /// dropped. It takes no memory. A key that is told to be collected has its tombstone as a floor, with the empty state; and each proposer
    /// has entered the era that is told of a join, a leave or a resize. That is the era in which proposer 0 works: the acceptor is one of
    /// those who prepare in it, or none of them, or its quorums have the sizes that are told.
    pub fn tell(&mut self, answer: OpAnswer) -> OpAnswer
        requires { MayTell self.old answer }
        ensures same { result ≡ answer }
        ensures step { Step (meaning S.Shelf V.Disk) self.old (Tell answer) self.new }
        ensures floor { S.tells → V.tells
            → HasCollectedAll self.old answer → HasItsFloor answer (reverse self.old.marks) }
        ensures entered { HasFinished self.old answer
            → HaveEnteredIts self.old.last_proposer answer (reverse self.old.marks) }
        ensures as_asked { HasFinished self.old answer → IsEraTold answer (era_at self.new 0) }
    {
        self.flow.abandon(EXCHANGE_PLACE);
        let EndedOrder {
            order: Order { asked, told },
            collected,
        } = self.council.close();
        let told = self.council.conclude(told, collected, &answer);
        mark_told(&mut self.record, asked, told);
        answer
    }

    /// Proposer 0, whose caller has no open call, asks this, for which the operator's call was opened: of all members what they keep for
    /// a key, or of those whose listing has not ended their next keys; or the step of the collection that is due asks all members. A tag is
    /// drawn, but that a listing goes on with the one that it began with, and that a collection's is the ballot of its tombstone. The marks
    /// of the harms are reserved.
    ///
    /// The refusals, each of which the call is told, come in this order: [`Answer::Down`] exactly where proposer 0 is down;
    /// [`Answer::RecordFull`] exactly where the marks that are made, all that are reserved and one for each member that is asked, and for a
    /// read another for each and one beside, would be more than a record holds, and then more than 999,000 are made; [`Answer::NoMemory`], after which the tag may be drawn, [`Answer::Spent`], and [`Answer::VaultFault`],
    /// after which proposer 0 is down.
    pub fn ask_all(&mut self, what: Exchange) -> Result<(), OpAnswer>
        requires { MayAskThis self.old what }
        ensures step { Step (meaning S.Shelf V.Disk) self.old (asking_of self.old what) self.new }
        ensures ok { OnOk result (IsSome self.new.council.exchange) }
        ensures none { OnErr result (self.new.council.exchange ≡ None) }
        ensures err { IfErr result (WasToldOrder self.new) }
        ensures long { IsErrOf result (OpAnswer.Stopped Answer.RecordFull)
            → 999000 < length self.old.marks }
    {
        match what {
            Exchange::Ages | Exchange::Remove => self.ask_collect(),
            Exchange::List => self.ask_members(Query::List),
            Exchange::Probe(key) => self.ask_members(Query::Probe(key)),
            Exchange::Read(key) => self.ask_members(Query::Read(key)),
        }
    }

    /// Proposer 0 asks this of all members, or of those whose listing has not ended.
    fn ask_members(&mut self, what: Query) -> Result<(), OpAnswer>
        requires { MayAskQuery self.old what }
        ensures step { Step (meaning S.Shelf V.Disk) self.old
            (AskAll (question_in self.old what)) self.new }
        ensures ok { OnOk result (IsSome self.new.council.exchange) }
        ensures none { OnErr result (self.new.council.exchange ≡ None) }
        ensures err { IfErr result (WasToldOrder self.new) }
        ensures long { IsErrOf result (OpAnswer.Stopped Answer.RecordFull)
            → 999000 < length self.old.marks }
    {
        let alloc = *self.acceptors.allocator();
        let era = self.era();
        let everyone = era.everyone();
        let reads = read_in(era, &what);
        let reserved = reserved_in_all(&self.callers, &self.council);
        let goes_on = self.council.listing_for(&what);
        let opened = open_exchange(
            alloc,
            &mut self.desks[0],
            &mut self.flow,
            &mut self.record,
            reserved,
            everyone,
            reads,
            goes_on,
            what,
        );
        match opened {
            Ok(opened) => {
                self.council.begin_exchange(opened);
                Ok(())
            }
            Err(refusal) => {
                self.council.tell(OpAnswer::Stopped(copy_of(&refusal)));
                Err(OpAnswer::Stopped(refusal))
            }
        }
    }

    /// Ends the exchange that is open, or the round of a collection, whose call is over, and tells what came of it.
    ///
    /// Where proposer 0 crashed within an exchange the operator's call is told [`Answer::Crashed`], before all else. A listing goes on by
    /// the next keys that members told; where those whose listing has ended and those whose next keys arrived are no prepare quorum or no
    /// accept quorum, the call is told [`Answer::Aged`] with the greatest age that a member told, or else [`Answer::Short`] with how many of
    /// the quorum that is missing they are. After [`Answer::NoMemory`] such an exchange stays open.
    ///
    /// A collection goes on where all who accept acknowledged its tombstone, and where all members confirmed what they were asked; otherwise
    /// the call is told [`OpAnswer::Absent`] of the least that did not. Where the round read a held state it is told [`OpAnswer::NotEmpty`].
    /// Once all members confirmed the removal, each removed its slot or kept a later one, as many as are counted did the one and the other,
    /// and none that is up has seen anything of the key but above the tombstone, whatever a crash leaves of its shelf.
    pub fn gather(&mut self) -> Result<Gathered, OpAnswer>
        requires { MayGather self.old }
        ensures step { Step (meaning S.Shelf V.Disk) self.old (gathering_of self.old) self.new }
        ensures removed { S.tells
            → V.tells → AreRemovalsDone (meaning S.Shelf V.Disk) self.old self.new }
        ensures ok { IfOk result (λ found. HasGathered self.old found self.new) }
        ensures less { result ≡ Ok Gathered.More
            → left_to_list self.new.council.plan < left_to_list self.old.council.plan }
        ensures err { IfErr result (WasToldOrder self.new) }
        ensures stopped { MayGatherMembers self.old → IfErr result IsStopped }
    {
        if self.council.exchange.is_none() {
            return self.gather_round();
        }
        if self.council.asks_for_collection() {
            return self.gather_collection();
        }
        self.gather_members()
    }

    /// The exchange that is open is a probe or a listing, and is over.
    fn gather_members(&mut self) -> Result<Gathered, OpAnswer>
        requires may { MayGatherMembers self.old }
        ensures step { Step (meaning S.Shelf V.Disk) self.old Gather self.new }
        ensures ok { IfOk result (λ found. HasGathered self.old found self.new) }
        ensures less { result ≡ Ok Gathered.More
            → left_to_list self.new.council.plan < left_to_list self.old.council.plan }
        ensures err { IfErr result (WasToldOrder self.new) }
        ensures stopped { IfErr result IsStopped }
    {
        self.council.gather(&mut self.record)
    }

    /// The first frame of the exchange that is open has its turn.
    pub(crate) fn turn_exchange(&mut self, verdict: Verdict) -> Result<(), AllocError>
        requires open { IsSome self.old.council.exchange }
        requires waits { (queue_at self.old.flow exchange_place).messages ≢ [] }
        ensures ok { OnOk result
            (Step (meaning S.Shelf V.Disk) self.old (TurnExchange verdict) self.new) }
        ensures err { OnErr result
            (Step (meaning S.Shelf V.Disk) self.old RefuseTurnExchange self.new) }
    {
        match self.flow.falls(EXCHANGE_PLACE, verdict) {
            Fall::Held => Ok(()),
            Fall::Gone => {
                self.lose_asked(verdict);
                Ok(())
            }
            Fall::Handle => match self.handle_asked(verdict) {
                Ok(()) => Ok(()),
                Err(error) => {
                    self.council.tell(no_memory());
                    Err(error)
                }
            },
        }
    }

    /// The first frame of the exchange is lost or made late.
    fn lose_asked(&mut self, verdict: Verdict)
        requires open { IsSome self.old.council.exchange }
        requires waits { (queue_at self.old.flow exchange_place).messages ≢ [] }
        requires gone { fall_of (queue_at self.old.flow exchange_place).again verdict ≡ Fall.Gone }
        ensures { Step (meaning S.Shelf V.Disk) self.old (TurnExchange verdict) self.new }
    {
        let member = peer_of(&self.flow, EXCHANGE_PLACE);
        self.flow.take(EXCHANGE_PLACE, verdict);
        self.council.harm(&mut self.record, member, false);
    }

    /// What the first frame of the exchange bears is handled. After an `Err` the acceptors keep what they kept, and the frame waits.
    fn handle_asked(&mut self, verdict: Verdict) -> Result<(), AllocError>
        requires open { IsSome self.old.council.exchange }
        requires waits { (queue_at self.old.flow exchange_place).messages ≢ [] }
        requires handled { fall_of (queue_at self.old.flow exchange_place).again verdict
            ≡ Fall.Handle }
        ensures ok { OnOk result
            (Step (meaning S.Shelf V.Disk) self.old (TurnExchange verdict) self.new) }
        ensures err { OnErr result (FindsNoRoom (meaning S.Shelf V.Disk) self.old self.new) }
    {
        let alloc = *self.acceptors.allocator();
        match first(alloc, &self.flow, EXCHANGE_PLACE, None)? {
            Message::Request(request) => self.serve_asked(verdict, &request),
            Message::Reply(reply) => {
                self.flow.take(EXCHANGE_PLACE, verdict);
                self.council.hear(reply);
                Ok(())
            }
        }
    }

    /// The member that is asked answers, and its reply waits behind the other frames; or it is down.
    fn serve_asked(&mut self, verdict: Verdict, request: &Request) -> Result<(), AllocError>
        requires open { IsSome self.old.council.exchange }
        requires waits { IsAsked self.old request.now }
        requires handled { fall_of (queue_at self.old.flow exchange_place).again verdict
            ≡ Fall.Handle }
        requires sent { CanBeSent (message.Request request.now) }
        ensures ok { OnOk result
            (Step (meaning S.Shelf V.Disk) self.old (TurnExchange verdict) self.new) }
        ensures err { OnErr result (FindsNoRoom (meaning S.Shelf V.Disk) self.old self.new) }
    {
        let alloc = *self.acceptors.allocator();
        let served = serve(alloc, &mut self.acceptors, request)?;
        self.flow.take(EXCHANGE_PLACE, verdict);
        match served {
            Served::Replied { frame, .. } => {
                self.flow.push_own(EXCHANGE_PLACE, frame);
                Ok(())
            }
            Served::Down => {
                self.council.harm(&mut self.record, request.to, true);
                Ok(())
            }
        }
    }
}

/// Marks what the operator's call was told, but for what a probe found.
fn mark_told(record: &mut Record, asked: Asked, told: OpAnswer)
    requires { 0 < «record».old.room }
    ensures marks { «record».new.marks ≡ «record».old.marks ++ told_marks asked told }
    ensures room { «record».old.room ≤ «record».new.room + 1 }
{
    match told {
        OpAnswer::Probed { .. } => (),
        answer => record.push(Mark::Told { asked, answer }),
    }
}

/// The operator's call that is asked for, with room for its mark beside those that are reserved. After an `Err` all is as before.
fn to_order(record: &mut Record, reserved: usize, asked: &Asked) -> Result<Order, AllocError>
    requires { reserved ≤ 1000000 }
    ensures order { IfOk result (λ order. order ≡ record { asked = asked.now; told = None }) }
    ensures room { OnOk result (reserved + 1 ≤ «record».new.room) }
    ensures marks { «record».new.marks ≡ «record».old.marks }
    ensures grows { «record».old.room ≤ «record».new.room }
{
    record.reserve(reserved + 1)?;
    Ok(Order {
        asked: asked.copy()?,
        told: None,
    })
}

/// Reserves the marks of an exchange, beside those that are reserved, and asks this of those members that are to be asked, with the tag of
/// the listing that goes on or, where none does, with one that is drawn. After an `Err` nothing is asked.
fn open_exchange<V: Disk>(
    alloc: Global,
    desk: &mut Desk<V>,
    flow: &mut Flow,
    record: &mut Record,
    reserved: usize,
    everyone: Members,
    reads: Option<Era>,
    goes_on: Option<&Listing>,
    what: Query,
) -> Result<Opened, Answer>
    requires idle { desk.old.round ≡ None }
    requires proposer { desk.old.id ≤ 16 }
    requires queue { exchange_place < length flow.old.own }
    requires few { length «record».old.marks + reserved ≤ 1000000 }
    requires tag { IfSome (option_copied goes_on) (λ listing. FitsBallot listing.tag) }
    ensures ok { IfOk result
        (λ opened. OpensExchange (disk_meaning V.Disk) desk.old desk.new flow.old flow.new everyone
        (option_copied goes_on.entry) what (length «record».old.marks) reads opened) }
    ensures room { OnOk result (reserved + marks_to_ask reads
        (asked_from everyone (option_copied goes_on.entry)) ≤ «record».new.room) }
    ensures fits { OnOk result (length «record».old.marks + reserved + marks_to_ask reads
        (asked_from everyone (option_copied goes_on.entry)) ≤ 1000000) }
    ensures refused { IfErr result (FailsToAsk (disk_meaning V.Disk) desk.old desk.new
        (option_copied goes_on.entry) (length «record».old.marks + reserved + marks_to_ask reads
        (asked_from everyone (option_copied goes_on.entry)))) }
    ensures not_sent { OnErr result (flow.new ≡ flow.old) }
    ensures marks { «record».new.marks ≡ «record».old.marks }
    ensures grows { «record».old.room ≤ «record».new.room }
{
    if desk.is_down() {
        return Err(Answer::Down);
    }
    let members = members_asked(everyone, goes_on);
    let count = members.count() as usize + marks_of_read(&reads, &members);
    let since = record.marks().len();
    if since + reserved + count > MOST_MARKS {
        return Err(Answer::RecordFull);
    }
    if record.reserve(reserved + count).is_err() {
        return Err(Answer::NoMemory { proposed: false });
    }
    let age = desk.age();
    match tag_for(desk, goes_on) {
        Ok(tag) => match ask_members(alloc, flow, age, tag, since, everyone, reads, goes_on, what) {
            Ok(opened) => Ok(opened),
            Err(_) => Err(Answer::NoMemory { proposed: false }),
        },
        Err(VaultError::VaultFault) => Err(Answer::VaultFault),
        Err(VaultError::Spent) => Err(Answer::Spent),
        Err(VaultError::NoMemory) => Err(Answer::NoMemory { proposed: false }),
        Err(VaultError::Foreign { .. }) => unreachable!(),
    }
}

/// The era in which the key is read, where that is asked.
fn read_in(era: &Era, what: &Query) -> Option<Era>
    ensures { result ≡ era_for era.now what.now }
{
    match what {
        Query::Read(_) => Some(*era),
        _ => None,
    }
}

/// The members that are asked: in a listing that goes on, those whose listing has not ended.
fn members_asked(everyone: Members, goes_on: Option<&Listing>) -> Members
    ensures { result ≡ asked_from everyone (option_copied goes_on.entry) }
{
    match goes_on {
        Some(listing) => listing.places().asked(&everyone),
        None => everyone,
    }
}

/// Asks each of these members this, with the tag, behind so many marks: all of them or, after an `Err`, none.
fn ask_members(
    alloc: Global,
    flow: &mut Flow,
    age: u64,
    tag: Ballot,
    since: usize,
    everyone: Members,
    reads: Option<Era>,
    goes_on: Option<&Listing>,
    what: Query,
) -> Result<Opened, AllocError>
    requires queue { exchange_place < length flow.old.own }
    requires tag { FitsBallot tag }
    ensures exchange { IfOk result (λ opened. exchange_view opened.exchange
        ≡ new_exchange (question_from everyone (option_copied goes_on.entry) what) tag
        (asked_from everyone (option_copied goes_on.entry)) since reads) }
    ensures begun { IfOk result
        (λ opened. opened.begun ≡ begins_with everyone (option_copied goes_on.entry) what tag) }
    ensures sent { OnOk result (Sends flow.old exchange_place
        (questions_to age tag (question_from everyone (option_copied goes_on.entry) what)
        (asked_from everyone (option_copied goes_on.entry))) flow.new) }
    ensures not_sent { OnErr result (flow.new ≡ flow.old) }
{
    let members = members_asked(everyone, goes_on);
    let begun = begin_listing(alloc, tag, &everyone, goes_on, &what)?;
    let question = question_for(alloc, &everyone, goes_on, what)?;
    let exchange = ask_each(alloc, flow, age, tag, since, members, reads, question)?;
    Ok(Opened { exchange, begun })
}

/// Asks each of these members this, with the tag, behind so many marks: all of them or, after an `Err`, none.
pub(crate) fn ask_each(
    alloc: Global,
    flow: &mut Flow,
    age: u64,
    tag: Ballot,
    since: usize,
    members: Members,
    reads: Option<Era>,
    question: Question,
) -> Result<OpenExchange, AllocError>
    requires queue { exchange_place < length flow.old.own }
    requires tag { FitsBallot tag }
    ensures exchange { IfOk result (λ exchange. exchange_view exchange
        ≡ new_exchange (question_view question) tag members since reads) }
    ensures sent { OnOk result (Sends flow.old exchange_place
        (questions_to age tag (question_view question) members) flow.new) }
    ensures not_sent { OnErr result (flow.new ≡ flow.old) }
{
    let told = unanswered(alloc, &members)?;
    send_questions(alloc, flow, &members, age, tag, &question)?;
    Ok(OpenExchange {
        question,
        tag,
        members,
        since,
        told,
        harmed: Members::new(),
        reserved: members.count() as usize,
        crashed: false,
        reads,
    })
}

/// What is asked, with the places of the listing that goes on or begins.
fn question_for(
    alloc: Global,
    everyone: &Members,
    goes_on: Option<&Listing>,
    what: Query,
) -> Result<Question, AllocError>
    ensures { IfOk result (λ question. question_view question
        ≡ question_from everyone.now (option_copied goes_on.entry) what) }
{
    match (what, goes_on) {
        (Query::Probe(key) | Query::Read(key), _) => Ok(Question::Probe(key)),
        (Query::List, Some(listing)) => Ok(Question::NextKeys(listing.places().copy()?)),
        (Query::List, None) => Ok(Question::NextKeys(Places::first(alloc, everyone)?)),
    }
}

/// The listing that begins, where none goes on and the next keys are asked for.
fn begin_listing(
    alloc: Global,
    tag: Ballot,
    everyone: &Members,
    goes_on: Option<&Listing>,
    what: &Query,
) -> Result<Option<Listing>, AllocError>
    ensures { IfOk result
        (λ begun. begun ≡ begins_with everyone.now (option_copied goes_on.entry) what.now tag) }
{
    match (what, goes_on) {
        (Query::List, None) => {
            let places = Places::first(alloc, everyone)?;
            Ok(Some(Listing::begin(alloc, tag, places)))
        }
        _ => Ok(None),
    }
}

/// The tag of the listing that goes on, or one that is drawn.
fn tag_for<V: Disk>(desk: &mut Desk<V>, goes_on: Option<&Listing>) -> Result<Ballot, VaultError>
    requires up { desk.old.down ≡ false }
    requires idle { desk.old.round ≡ None }
    requires proposer { desk.old.id ≤ 16 }
    requires fits { IfSome (option_copied goes_on) (λ listing. FitsBallot listing.tag) }
    ensures tag { IfOk result (λ tag. HasTag (disk_meaning V.Disk)
        (option_copied goes_on.entry) desk.old desk.new tag × FitsBallot tag) }
    ensures desk { OnOk result (desk.new ≡ record desk.old { vault = desk.new.vault }) }
    ensures failed { IfErr result
        (FailsToTag (disk_meaning V.Disk) (option_copied goes_on.entry) desk.old desk.new) }
{
    match goes_on {
        Some(listing) => Ok(listing.tag()),
        None => desk.tag(),
    }
}
