//! What the operator has under way: the eras in which the proposers work, its call that is open, the exchange in which proposer 0 asks
//! all members, and the change of membership.

ghost use Rattle.std.specs.Prelude.{slice_set, ◌≤◌, ◌≡◌, ◌+◌, ◌<◌, ◌^◌, ◌++◌, Some, None, IsSome, IsSomeAnd, IfSome, IfOk, length, map, position, sum_by, false, IsTrue, option_copied, option_map, unwrap_or, true};
ghost use Rattle.cas_ballot.specs.Members.{has_member};
ghost use Rattle.cas_model.specs.Council.{ask_of, marks_of_read, reserved_by, at_rest, telling, hushed, crashed_in};
ghost use Rattle.std.specs.Option.{option_map_or};
ghost use Rattle.cas_quorum.specs.Era.{Meet};
ghost use Rattle.cas_model.specs.Safe.{is_of_collection};
ghost use Rattle.cas_model.specs.Eras.Course.{entering, next_era, era_shown};
ghost use Rattle.cas_model.specs.View.{era_in};
ghost use Rattle.cas_model.specs.Calls.Step.{Rescans};
ghost use Rattle.cas_model.specs.Exchanges.Step.{awaits, hears, harmed_exchange, harm_marks};
ghost use Rattle.cas_model.specs.Eras.Step.{plan_after};
ghost use Rattle.cas_world_calls.specs.Call.{reserved_of};
ghost use Rattle.cas_world_calls.specs.Read.{IsProbeRead, MarksFit, GathersIn};
ghost use Rattle.cas_world_calls.specs.Council.{council_view, exchange_view, question_view, plan_view, opening_council, unanswered, heard_in, harmed_in, harms_in, RescanIsDue, IsProbed, IsFoundByProbe, IsOfKeys, EraIsListed, MayList, GathersAs, goes_on_in, with_begun, concluded, MayConclude};

use crate::answers::{copy_of, copy_of_op, is_done};
use crate::call::{Caller, reserved_by};
use crate::collection::OpenCollection;
use crate::eras::Eras;
use crate::plan::OpenPlan;
use crate::read::{Reading, push_marks, read_found};
use cas_ballot::{AcceptorId, Ballot, Members};
use cas_change::Key;
use cas_quorum::Era;
use cas_record::{Agreement, Answer, Asked, Mark, OpAnswer, Probe, Probes, Record, agree};
use cas_slot::{Ages, Ask, Reply};
use cas_world_listing::{Listing, Places};
use std::alloc::{AllocError, Global};

/// The place of the queue in which the frames of an exchange wait.
pub const EXCHANGE_PLACE: u8 = 17;

/// How many identities of acceptors there are.
const IDENTITIES: u8 = 64;

/// What proposer 0 asks all members beside a collection.
#[derive(Debug, PartialEq, Eq, Drop)]
pub enum Query {
    /// What each keeps for the key.
    Probe(Key),
    /// The same, to read the key: what they agree on may be acknowledged.
    Read(Key),
    /// The next keys of which each keeps a slot, for the listing of the era that is to be settled. Members whose listing has ended are not
    /// asked.
    List,
}

/// What came of asking all members.
#[derive(Debug, PartialEq, Eq, Drop)]
pub enum Gathered {
    /// What each of them told, in rising number.
    Probed(Probes),
    /// What all members agree on of the key that is read, by the era in which it is read, and what each of them told, in rising number.
    /// It is marked as acknowledged, if its ballot is above the last of the key that was acknowledged or made a floor.
    Read { agreement: Agreement, found: Probes },
    /// The listing goes on: the next keys are to be asked for.
    More,
    /// The listing is complete.
    Listed,
    /// All confirmed what a collection asked: so many removed their slot or had none, and so many kept it for a later change. Both numbers
    /// are 0 but for what was told of a removal.
    All { removed: u32, kept: u32 },
}

impl Gathered {
    /// What each member told of the key that was probed.
    pub fn into_probes(self) -> Probes
        requires { IsProbed self }
        ensures { self ≡ Gathered.Probed result }
    {
        match self {
            Gathered::Probed(found) => found,
            _ => unreachable!(),
        }
    }
}

/// A call of the operator that has not been told its answer yet.
#[derive(Drop)]
pub struct Order {
    /// What it was opened for.
    pub asked: Asked,
    /// What its last step told.
    pub told: Option<OpAnswer>,
}

/// What is asked in an exchange.
#[derive(Drop)]
pub enum Question {
    /// What each member keeps for the key.
    Probe(Key),
    /// The next keys behind these places.
    NextKeys(Places),
    /// To answer no request of a proposer that is older than these ages, for the collection of the key.
    NewAges { key: Key, least: Ages },
    /// To remove the key's slot, where it keeps the tombstone of the tag's ballot.
    Removal(Key),
}

/// An exchange with these members that has not been gathered yet.
#[derive(Drop)]
pub struct OpenExchange {
    /// What its members are asked.
    pub question: Question,
    /// The tag that its requests bear, and the replies to them.
    pub tag: Ballot,
    /// Who is asked.
    pub members: Members,
    /// How many marks had been made when they were asked.
    pub since: usize,
    /// What each of them told in its first reply, in rising number.
    pub told: Vec<Probe>,
    /// The members of which a frame was harmed.
    pub harmed: Members,
    /// How many marks are still reserved for it.
    pub reserved: usize,
    /// Whether proposer 0 crashed within it.
    pub crashed: bool,
    /// The era of proposer 0 when they were asked, if the operator's call is to read the key.
    pub reads: Option<Era>,
}

/// An exchange that opens, and the listing that begins with it, where one does.
#[derive(Drop)]
pub struct Opened {
    /// The exchange, as it is at first.
    pub exchange: OpenExchange,
    /// The listing that begins with it.
    pub begun: Option<Listing>,
}

/// A call of the operator that is over.
#[derive(Drop)]
pub struct EndedOrder {
    /// What it was opened for, and what its last step told.
    pub order: Order,
    /// The key of the collection that was under way for it.
    pub collected: Option<Key>,
}

/// All that the operator has under way.
#[derive(Drop)]
pub struct Council {
    /// The era in which each proposer works.
    pub eras: Eras,
    /// The call of the operator that is open.
    pub order: Option<Order>,
    /// The exchange that is open for it.
    pub exchange: Option<OpenExchange>,
    /// The change of membership that is under way.
    pub plan: Option<OpenPlan>,
    /// Who was a member since the opening.
    pub used: Members,
    /// The collection that is under way.
    pub collection: Option<OpenCollection>,
}

impl Question {
    /// The question of the request to the member.
    pub fn ask(&self, tag: Ballot, member: AcceptorId) -> Result<Ask, AllocError>
        ensures { IfOk result (λ ask. ask ≡ ask_of tag (question_view self.now) member) }
    {
        match self {
            Question::Probe(key) => Ok(Ask::Probe {
                tag,
                key: key.copy()?,
            }),
            Question::NextKeys(places) => places.ask(tag, member),
            Question::NewAges { least, .. } => Ok(Ask::Ages { tag, least: *least }),
            Question::Removal(key) => Ok(Ask::Remove {
                key: key.copy()?,
                tomb: tag,
            }),
        }
    }
}

impl OpenExchange {
    /// A reply arrives. The first one of each member counts.
    fn hear(&mut self, reply: Reply)
        ensures { exchange_view self.new
            ≡ record (exchange_view self.old) { told = hears reply (exchange_view self.old).told } }
    {
        if let Some(place) = awaiting(&self.told, reply.from) {
            self.told[place] = Probe {
                acceptor: reply.from,
                told: Some(reply.tell),
            };
        }
    }

    /// A frame of the member was lost or made late or, where `down` is true, found it down or brought it down. The first harm of a
    /// member is marked, and no other.
    fn harm(&mut self, record: &mut Record, member: AcceptorId, down: bool)
        requires reserved { has_member self.old.harmed member ≡ false → 0 < self.old.reserved }
        requires room { has_member self.old.harmed member ≡ false → 0 < «record».old.room }
        ensures exchange { exchange_view self.new
            ≡ harmed_exchange (exchange_view self.old) member }
        ensures marks { «record».new.marks
            ≡ «record».old.marks ++ harm_marks (exchange_view self.old) member down }
        ensures room_left { «record».new.room + length
            (harm_marks (exchange_view self.old) member down) ≡ «record».old.room }
    {
        if !self.harmed.has(member) {
            self.harmed.insert(member);
            self.reserved -= 1;
            record.push(Mark::Harmed {
                caller: 0,
                call: 0,
                down,
            });
        }
    }

    /// What each member told, in a list of its own.
    fn found(&self) -> Result<Probes, AllocError>
        ensures { IfOk result (λ found. found.probes.items ≡ (exchange_view self.now).told) }
    {
        let mut found = Vec::with_capacity(*self.told.allocator(), self.told.len())?;
        for probe in &self.told {
            found.push(probe.copy()?)?;
        }
        Ok(Probes::new(found))
    }
}

impl Council {
    /// All proposers work in this era, whose members are these, and nothing is under way.
    pub fn new(era: Era, members: Members) -> Council
        ensures { result ≡ opening_council era members }
    {
        Council {
            eras: Eras::all_in(era),
            order: None,
            exchange: None,
            plan: None,
            used: members,
            collection: None,
        }
    }

    /// How many marks are reserved for the open call, for the exchange and for the collection.
    pub fn reserved(&self) -> usize
        requires { reserved_by (council_view self.now) < 2 ^ 64 }
        ensures { result ≡ reserved_by (council_view self.now) }
    {
        let exchange = match &self.exchange {
            Some(exchange) => exchange.reserved + marks_of_read(&exchange.reads, &exchange.members),
            None => 0,
        };
        let collection = match &self.collection {
            Some(collection) => collection.reserved(),
            None => 0,
        };
        match &self.order {
            Some(_) => 1 + exchange + collection,
            None => exchange + collection,
        }
    }

    /// The open call, if there is one, is told this.
    pub fn tell(&mut self, answer: OpAnswer)
        ensures told { council_view self.new ≡ telling (council_view self.old) answer }
        ensures eras { self.new.eras ≡ self.old.eras }
    {
        if let Some(order) = &mut self.order {
            order.told = Some(answer);
        }
    }

    /// The proposer, whose number is 0 to 16, is up again, and its vault shows this number: it works in the next era if that is its number,
    /// and else where it worked.
    pub fn show(&mut self, proposer: u8, number: u32)
        requires { proposer ≤ 16 }
        ensures eras { self.new.eras.0 ≡ slice_set self.old.eras.0 proposer
            (era_shown (council_view self.old).plan (era_in self.old.eras.0 proposer) number) }
        ensures council { council_view self.new ≡ council_view self.old }
    {
        match self.next_era() {
            Some(era) if era.number == number => self.eras.put(proposer, era),
            _ => (),
        }
    }

    /// The open call is over, and so are an exchange that is open and a collection; a listing that is not complete is dropped. Answers the
    /// call, and the key of the collection.
    pub fn close(&mut self) -> EndedOrder
        requires { IsSome self.old.order }
        ensures order { self.old.order ≡ Some result.order }
        ensures collected { result.collected ≡ option_map (λ c. c.course.key) self.old.collection }
        ensures closed { council_view self.new ≡ at_rest (council_view self.old) }
        ensures eras { self.new.eras ≡ self.old.eras }
    {
        self.exchange = None;
        if let Some(plan) = &mut self.plan {
            plan.drop_partial();
        }
        let collected = match self.collection.take() {
            Some(collection) => Some(collection.into_key()),
            None => None,
        };
        match self.order.take() {
            Some(order) => EndedOrder { order, collected },
            None => unreachable!(),
        }
    }

    /// What the operator's call is told in the end: what its last step told; or, where that told nothing, that the change of membership is
    /// at its end, which is no longer under way then, or that the key is collected.
    pub fn conclude(
        &mut self,
        told: Option<OpAnswer>,
        collected: Option<Key>,
        answer: &OpAnswer,
    ) -> OpAnswer
        requires { told ≡ None → MayConclude collected answer.now }
        ensures answer { result ≡ unwrap_or told answer.now }
        ensures concluded { council_view self.new ≡ concluded told (council_view self.old) }
        ensures eras { self.new.eras ≡ self.old.eras }
    {
        match told {
            Some(told) => told,
            None => {
                self.plan = None;
                concluding(collected, answer)
            }
        }
    }

    /// What the open call was told last is no longer so: its last step told nothing.
    pub fn hush(&mut self)
        ensures hushed { council_view self.new ≡ hushed (council_view self.old) }
        ensures eras { self.new.eras ≡ self.old.eras }
    {
        if let Some(order) = &mut self.order {
            order.told = None;
        }
    }

    /// The change of membership is under way, for which these were members since the opening.
    pub fn begin_plan(&mut self, plan: OpenPlan, used: Members)
        ensures opened { council_view self.new
            ≡ record (hushed (council_view self.old)) {
              plan = Some (plan_view plan);
              used = used;
            } }
        ensures eras { self.new.eras ≡ self.old.eras }
    {
        self.hush();
        self.plan = Some(plan);
        self.used = used;
    }

    /// The proposer whose turn it is works in the next era of the change of membership, and is marked so. With the last one, whose
    /// number is the greatest, all do.
    pub fn enter(&mut self, last_proposer: u8, next: Era)
        requires plan { IsSomeAnd (council_view self.old).plan
            (λ plan. (entering plan.progress.left ≡ Some next) × (plan.entered ≤ 16)) }
        ensures entered { IfSome (council_view self.old).plan
            (λ plan. council_view self.new ≡ record (hushed (council_view self.old)) {
              plan = Some
                  (plan_after last_proposer plan next);
            }) }
        ensures eras { IfSome (council_view self.old).plan
            (λ plan. self.new.eras.0 ≡ slice_set self.old.eras.0 plan.entered next) }
    {
        self.hush();
        if let Some(plan) = &mut self.plan {
            self.eras.put(plan.entered, next);
            plan.enter(last_proposer);
        }
    }

    /// Whether the open call asks for the change of membership that is under way, and this key is to be proposed anew next for it.
    fn is_due(&self, key: &Key) -> bool
        ensures due { IsTrue result → RescanIsDue (council_view self.now) key.now }
        ensures only { RescanIsDue (council_view self.now) key.now → IsTrue result }
    {
        match (&self.order, &self.plan) {
            (Some(order), Some(plan)) => plan.asked == order.asked && plan.is_due(key),
            _ => false,
        }
    }

    /// The era that is to be entered next.
    pub fn next_era(&self) -> Option<Era>
        ensures { result ≡ next_era (council_view self.now).plan }
    {
        match &self.plan {
            Some(plan) => plan.next(),
            None => None,
        }
    }

    /// The listing that goes on, where the next keys are asked for.
    pub fn listing_for(&self, what: &Query) -> Option<&Listing>
        ensures { option_copied result ≡ goes_on_in (council_view self.now) what.now }
    {
        match (what, &self.plan) {
            (Query::List, Some(plan)) => plan.listing.as_ref(),
            _ => None,
        }
    }

    /// An exchange is open from now on, and a listing that begins with it.
    pub fn begin_exchange(&mut self, opened: Opened)
        ensures opened { council_view self.new
            ≡ record (council_view self.old) {
              exchange = Some (exchange_view opened.exchange);
              plan = option_map (with_begun opened.begun) (council_view self.old).plan;
            } }
        ensures eras { self.new.eras ≡ self.old.eras }
    {
        self.exchange = Some(opened.exchange);
        if let (Some(plan), Some(listing)) = (&mut self.plan, opened.begun) {
            plan.listing = Some(listing);
        }
    }

    /// The caller's call for this key ended with the answer, or was refused with it as it would begin. Where it is caller 0's and the key
    /// is the one that is to be proposed anew, that is counted if it is done, and the next one is due; if not, the open call is told that
    /// it stopped, and why.
    pub fn end(&mut self, caller: u8, key: &Key, answer: &Answer)
        ensures rescans { Rescans (council_view self.old) caller key.now answer.now
            (council_view self.new) }
        ensures eras { self.new.eras ≡ self.old.eras }
    {
        if caller != 0 || !self.is_due(key) {
            return;
        }
        if !is_done(answer) {
            self.tell(OpAnswer::Stopped(copy_of(answer)));
            return;
        }
        if let Some(plan) = &mut self.plan {
            plan.rescan();
        }
    }

    /// Whether an exchange is open that asks for a collection.
    pub fn asks_for_collection(&self) -> bool
        ensures { result ≡ option_map_or (λ exchange. is_of_collection exchange.question)
            (council_view self.now).exchange false }
    {
        match &self.exchange {
            Some(exchange) => matches!(
                exchange.question,
                Question::NewAges { .. } | Question::Removal(_)
            ),
            None => false,
        }
    }

    /// A reply to the exchange that is open arrives.
    pub fn hear(&mut self, reply: Reply)
        ensures heard { council_view self.new ≡ heard_in (council_view self.old) reply }
        ensures eras { self.new.eras ≡ self.old.eras }
    {
        if let Some(exchange) = &mut self.exchange {
            exchange.hear(reply);
        }
    }

    /// A frame of the member was harmed in the exchange that is open.
    pub fn harm(&mut self, record: &mut Record, member: AcceptorId, down: bool)
        requires reserved { IfSome self.old.exchange
            (λ exchange. has_member exchange.harmed member ≡ false → 0 < exchange.reserved) }
        requires room { IfSome self.old.exchange
            (λ exchange. has_member exchange.harmed member ≡ false → 0 < «record».old.room) }
        ensures harmed { council_view self.new ≡ harmed_in (council_view self.old) member }
        ensures marks { «record».new.marks
            ≡ «record».old.marks ++ harms_in (council_view self.old) member down }
        ensures room_left { «record».new.room + length
            (harms_in (council_view self.old) member down) ≡ «record».old.room }
        ensures eras { self.new.eras ≡ self.old.eras }
    {
        if let Some(exchange) = &mut self.exchange {
            exchange.harm(record, member, down);
        }
    }

    /// Proposer 0 crashed within the exchange that is open.
    pub fn break_off(&mut self)
        ensures broken { council_view self.new ≡ crashed_in (council_view self.old) }
        ensures eras { self.new.eras ≡ self.old.eras }
    {
        if let Some(exchange) = &mut self.exchange {
            exchange.crashed = true;
        }
    }

    /// The exchange that is open is over, and the open call is told what came of it, or a listing goes on. Where no memory is found the
    /// exchange stays open, and the call is told so.
    pub fn gather(&mut self, record: &mut Record) -> Result<Gathered, OpAnswer>
        requires open { IsSome self.old.exchange }
        requires lists { IfSome self.old.exchange
            (λ exchange. MayList (exchange_view exchange).question (council_view self.old).plan) }
        requires room { IfSome self.old.exchange
            (λ exchange. MarksFit (exchange_view exchange) «record».old) }
        requires meets { IfSome self.old.exchange
            (λ exchange. IfSome exchange.reads (λ era. Meet era era)) }
        ensures gathers { IfSome self.old.exchange (λ exchange. GathersIn (era_in self.old.eras.0 0)
            (exchange_view exchange) (council_view self.old) «record».old «record».new result
            (council_view self.new)) }
        ensures eras { self.new.eras ≡ self.old.eras }
    {
        let Some(exchange) = self.exchange.take() else {
            unreachable!()
        };
        if exchange.crashed {
            self.tell(OpAnswer::Stopped(Answer::Crashed));
            return Err(OpAnswer::Stopped(Answer::Crashed));
        }
        match (&exchange.question, exchange.reads) {
            (Question::Probe(_), Some(era)) => self.gather_read(record, &era, exchange),
            (Question::Probe(key), None) => match probed(key, &exchange) {
                Ok(told) => {
                    self.tell(told);
                    Ok(Gathered::Probed(Probes::new(exchange.told)))
                }
                Err(_) => Err(self.keep(exchange)),
            },
            (Question::NextKeys(_), _) => self.gather_keys(exchange),
            _ => unreachable!(),
        }
    }

    /// What the members told of the key that is read is marked, if they agree on what is above all that settled, and the open call is told
    /// it. Where no memory is found the exchange stays open, and nothing is marked.
    fn gather_read(
        &mut self,
        record: &mut Record,
        era: &Era,
        exchange: OpenExchange,
    ) -> Result<Gathered, OpAnswer>
        requires up { exchange.crashed ≡ false }
        requires asked { IsProbeRead (exchange_view exchange).question }
        requires reads { exchange.reads ≡ Some era.now }
        requires room { MarksFit (exchange_view exchange) «record».old }
        requires meets { Meet era.now era.now }
        requires taken { self.old.exchange ≡ None }
        ensures gathers { GathersIn (era_in self.old.eras.0 0) (exchange_view exchange)
            (council_view self.old) «record».old «record».new result (council_view self.new) }
        ensures eras { self.new.eras ≡ self.old.eras }
    {
        match read_found(record, era, &exchange) {
            Ok(Reading { told, marks }) => {
                push_marks(record, marks);
                self.tell(told);
                let agreement = agree(era, &exchange.told);
                Ok(Gathered::Read {
                    agreement,
                    found: Probes::new(exchange.told),
                })
            }
            Err(_) => Err(self.keep(exchange)),
        }
    }

    /// The next keys that the members told are listed, or the open call is told why the listing cannot go on. Where no memory is found
    /// the exchange stays open.
    fn gather_keys(&mut self, exchange: OpenExchange) -> Result<Gathered, OpAnswer>
        requires up { exchange.crashed ≡ false }
        requires asked { IsOfKeys (exchange_view exchange).question }
        requires lists { EraIsListed (council_view self.old).plan }
        requires taken { self.old.exchange ≡ None }
        ensures gathers { GathersAs (era_in self.old.eras.0 0)
            (exchange_view exchange) (council_view self.old) result (council_view self.new) }
        ensures eras { self.new.eras ≡ self.old.eras }
    {
        let era = *self.eras.of(0);
        let Some(plan) = &mut self.plan else {
            unreachable!()
        };
        match plan.go_on(&era, &exchange.told) {
            Ok(Ok(gathered)) => {
                self.hush();
                Ok(gathered)
            }
            Ok(Err(short)) => {
                self.tell(OpAnswer::Stopped(copy_of(&short)));
                Err(OpAnswer::Stopped(short))
            }
            Err(_) => Err(self.keep(exchange)),
        }
    }

    /// No memory was found for what came of the exchange: it stays open, and the open call is told so.
    fn keep(&mut self, exchange: OpenExchange) -> OpAnswer
        ensures answer { result ≡ OpAnswer.Stopped (Answer.NoMemory false) }
        ensures kept { council_view self.new ≡ record (telling (council_view self.old)
            (OpAnswer.Stopped (Answer.NoMemory false))) {
              exchange = Some
                  (exchange_view exchange);
            } }
        ensures eras { self.new.eras ≡ self.old.eras }
    {
        self.exchange = Some(exchange);
        self.tell(no_memory());
        no_memory()
    }
}

/// An equal answer, with that key where it tells of a collection.
fn concluding(collected: Option<Key>, answer: &OpAnswer) -> OpAnswer
    requires { MayConclude collected answer.now }
    ensures { result ≡ answer.now }
{
    match (answer, collected) {
        (
            OpAnswer::Collected {
                ballot,
                removed,
                kept,
                ..
            },
            Some(key),
        ) => OpAnswer::Collected {
            key,
            ballot: *ballot,
            removed: *removed,
            kept: *kept,
        },
        _ => copy_of_op(answer),
    }
}

/// What the open call is told of the key, from lists of its own.
pub(crate) fn probed(key: &Key, exchange: &OpenExchange) -> Result<OpAnswer, AllocError>
    ensures { IfOk result (IsFoundByProbe (exchange_view exchange.now) key.now) }
{
    Ok(OpAnswer::Probed {
        key: key.copy()?,
        found: exchange.found()?,
    })
}

/// How many marks a read may make beside those of its harms: a vote of each of these members, and an acknowledgment.
pub fn marks_of_read(reads: &Option<Era>, members: &Members) -> usize
    ensures { result ≡ marks_of_read reads.now members.now }
{
    match reads {
        Some(_) => members.count() as usize + 1,
        None => 0,
    }
}

/// What an operator's call is told that found no memory.
pub fn no_memory() -> OpAnswer
    ensures { result ≡ OpAnswer.Stopped (Answer.NoMemory false) }
{
    OpAnswer::Stopped(Answer::NoMemory { proposed: false })
}

/// The place of the member's probe, where nothing was told in it yet.
fn awaiting(told: &[Probe], member: AcceptorId) -> Option<usize>
    ensures { result ≡ position (awaits member) told.now }
{
    told.iter()
        .position(|probe| probe.acceptor == member && probe.told.is_none())
}

/// A probe of each of these members, in rising number, in which nothing was told yet.
pub fn unanswered(alloc: Global, members: &Members) -> Result<Vec<Probe>, AllocError>
    ensures { IfOk result (λ probes. probes.items ≡ map unanswered members.now) }
{
    let mut probes = Vec::with_capacity(alloc, members.count() as usize)?;
    for number in 0..IDENTITIES {
        let id = AcceptorId::new(number).unwrap();
        if members.has(id) {
            probes.push(Probe {
                acceptor: id,
                told: None,
            })?;
        }
    }
    Ok(probes)
}

/// How many marks are reserved in all: for the calls of these callers, and for what the operator has under way.
pub fn reserved_in_all(callers: &[Caller], council: &Council) -> usize
    requires { sum_by reserved_of callers.now + reserved_by (council_view council.now) < 2 ^ 64 }
    ensures { result ≡ sum_by reserved_of callers.now + reserved_by (council_view council.now) }
{
    reserved_by(callers) + council.reserved()
}
