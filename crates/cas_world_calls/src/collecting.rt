//! How a collection goes on: its own call, the renewal of each proposer, and what the members told of it.

ghost use Rattle.std.specs.Prelude.{◌≡◌, ℕ, ◌≤◌, ◌++◌, ◌∷◌, [], true, false, Some, None, IsSome, IsSomeAnd, IfSome, IfNone, IfOk, length, option_copied};
ghost use Rattle.cas_ballot.specs.Members.{has_member};
ghost use Rattle.cas_model.specs.Collection.State.{new_collection, confirmed_step};
ghost use Rattle.cas_model.specs.Council.{hushed, telling};
ghost use Rattle.cas_model.specs.Collection.Step.{IsLeastWithout, IsQuestionOf, confirms, those_telling};
ghost use Rattle.cas_model.specs.View.{era_in};
ghost use Rattle.cas_world_calls.specs.Answers.{is_plain};
ghost use Rattle.cas_world_calls.specs.Collecting.{asks_at, is_sought, counted_in, ended_in, found_held, says, with_collection, GathersRoundAs, GathersCollectAs};
ghost use Rattle.cas_world_calls.specs.Council.{council_view, exchange_view, question_view};
ghost use Rattle.cas_collect.specs.declared.collect.CollectStep.TheVariants.{Floor as FloorStep};

use crate::answers::{copy_of, copy_of_op, is_done};
use crate::collection::{OpenCollection, Tombstone};
use crate::council::{Council, Gathered, OpenExchange, Question};
use cas_ballot::{AcceptorId, Members};
use cas_change::{Key, State};
use cas_collect::CollectStep;
use cas_record::{Answer, OpAnswer};
use cas_slot::Tell;
use cas_world_listing::told_by;
use std::alloc::AllocError;

/// How many identities of acceptors there are.
const IDENTITIES: u8 = 64;

/// What a member may say to the question of a collection.
#[derive(Clone, Copy, Debug, PartialEq, Eq)]
pub enum Saying {
    /// It confirms what it was asked.
    Confirmed,
    /// It removed its slot, or had none.
    Removed,
    /// It kept its slot for a later change.
    Kept,
}

impl Council {
    /// The collection of the key is under way, in the era in which proposer 0 works and with the proposers 0 to `greatest`, and its call is
    /// open. The mark of its floor is to bear the second key, which is the same.
    pub fn begin_collection(&mut self, key: Key, for_floor: Key, last_proposer: u8)
        requires { for_floor ≡ key }
        ensures begun { council_view self.new ≡ record (hushed (council_view self.old)) {
          collection = Some (new_collection key (era_in self.old.eras.0 0) last_proposer);
        } }
        ensures eras { self.new.eras ≡ self.old.eras }
    {
        self.hush();
        let era = *self.eras.of(0);
        self.collection = Some(OpenCollection::begin(key, for_floor, &era, last_proposer));
    }

    /// Its round read a held state of this version, and its call is over.
    pub fn read_held(&mut self, version: u64)
        ensures read { council_view self.new ≡ with_collection (hushed (council_view self.old))
            (λ c. record (found_held version c) { calling = false }) }
        ensures eras { self.new.eras ≡ self.old.eras }
    {
        self.hush();
        if let Some(collection) = &mut self.collection {
            collection.read_held(version);
        }
    }

    /// Its round was counted with this answer, and these acceptors confirmed it.
    pub fn count_round(&mut self, answer: &Answer, by: Members)
        ensures counted { council_view self.new ≡ counted_in (council_view self.old) answer.now by }
        ensures eras { self.new.eras ≡ self.old.eras }
    {
        let Answer::Done { state, ballot, .. } = answer else {
            return;
        };
        self.hush();
        if let Some(collection) = &mut self.collection {
            match state {
                State::Empty => collection.acknowledge(*ballot, by),
                State::Held { version, .. } => collection.find_held(*version),
            }
        }
    }

    /// Its call ended with this answer. Where that is not done the open call is told why.
    pub fn end_round(&mut self, answer: &Answer)
        ensures ended { council_view self.new ≡ ended_in (council_view self.old) answer.now }
        ensures eras { self.new.eras ≡ self.old.eras }
    {
        if is_done(answer) {
            self.hush();
        } else {
            self.tell(OpAnswer::Stopped(copy_of(answer)));
        }
        if let Some(collection) = &mut self.collection {
            collection.end_call();
        }
    }

    /// What became of its round, whose call is over: all who accept in the era acknowledged the tombstone, and the next step is due; or the
    /// open call is told who did not, or that a held state was read.
    pub fn gather_round(&mut self) -> Result<Gathered, OpAnswer>
        requires { IsSomeAnd self.old.collection (λ c. is_sought c.tombstone ≡ false) }
        ensures gathers { GathersRoundAs (era_in self.old.eras.0 0).acc
            (council_view self.old) result (council_view self.new) }
        ensures eras { self.new.eras ≡ self.old.eras }
    {
        let acc = self.eras.of(0).acc;
        let tombstone = match &self.collection {
            Some(collection) => collection.tombstone(),
            None => unreachable!(),
        };
        match tombstone {
            Tombstone::Acknowledged { by, .. } => match least_without(&acc, &by) {
                Some(acceptor) => Err(self.refuse(OpAnswer::Absent { acceptor })),
                None => {
                    self.confirm_round();
                    Ok(Gathered::All {
                        removed: 0,
                        kept: 0,
                    })
                }
            },
            Tombstone::FoundHeld { version } => Err(self.refuse(OpAnswer::NotEmpty { version })),
            Tombstone::Sought => unreachable!(),
        }
    }
    /// The step that is due is confirmed, and the open call goes on.
    fn confirm_round(&mut self)
        ensures confirmed { council_view self.new
            ≡ with_collection (hushed (council_view self.old)) confirmed_step }
        ensures eras { self.new.eras ≡ self.old.eras }
    {
        self.hush();
        if let Some(collection) = &mut self.collection {
            collection.confirm();
        }
    }

    /// The proposer whose turn it is was renewed to this age, and the next step is due.
    pub fn renew(&mut self, age: u64)
        requires { IfSome self.old.collection (λ c. length c.ages ≤ 16) }
        ensures renewed { council_view self.new ≡ with_collection (hushed (council_view self.old))
            (λ c. record (confirmed_step c) { ages = c.ages ++ age ∷ [] }) }
        ensures eras { self.new.eras ≡ self.old.eras }
    {
        self.hush();
        if let Some(collection) = &mut self.collection {
            collection.renew(age);
        }
    }

    /// What the step that is due asks all members.
    pub fn collect_question(&self) -> Result<Question, AllocError>
        requires { IsSomeAnd self.now.collection (λ c. asks_at c.course.step ≡ true) }
        ensures { IfSome self.now.collection
            (λ c. IfOk result (λ question. IsQuestionOf c (question_view question))) }
    {
        let Some(collection) = &self.collection else {
            unreachable!()
        };
        let key = collection.key().copy()?;
        match collection.next() {
            CollectStep::Ages => Ok(Question::NewAges {
                key,
                least: collection.least(),
            }),
            CollectStep::Remove => Ok(Question::Removal(key)),
            _ => unreachable!(),
        }
    }

    /// The exchange that is open for it is over: each member confirmed what it was asked, and the next step is due; or the open call is told
    /// who did not, or that proposer 0 crashed within it.
    pub fn gather_collection(&mut self) -> Result<Gathered, OpAnswer>
        requires open { IsSome self.old.exchange }
        requires under_way { IsSome self.old.collection }
        ensures gathers { IfSome self.old.exchange (λ exchange. GathersCollectAs
            (exchange_view exchange) (council_view self.old) result (council_view self.new)) }
        ensures eras { self.new.eras ≡ self.old.eras }
    {
        let Some(exchange) = self.exchange.take() else {
            unreachable!()
        };
        if exchange.crashed {
            return Err(self.refuse(OpAnswer::Stopped(Answer::Crashed)));
        }
        let confirmed = exchange.saying(Saying::Confirmed);
        if let Some(acceptor) = least_without(&exchange.members, &confirmed) {
            return Err(self.refuse(OpAnswer::Absent { acceptor }));
        }
        let removed = exchange.saying(Saying::Removed).count();
        let kept = exchange.saying(Saying::Kept).count();
        self.hush();
        if let Some(collection) = &mut self.collection {
            collection.gather(removed, kept);
        }
        Ok(Gathered::All { removed, kept })
    }

    /// The floor of its key is marked, and the next step is due. Gives the key that the mark bears.
    pub fn mark_floor(&mut self) -> Key
        requires { IsSomeAnd self.old.collection (λ c. c.course.step ≡ FloorStep) }
        ensures key { IfSome self.old.collection (λ c. result ≡ c.course.key) }
        ensures marked { council_view self.new ≡ with_collection (hushed (council_view self.old))
            (λ c. record (confirmed_step c) { reserved = 0 }) }
        ensures eras { self.new.eras ≡ self.old.eras }
    {
        self.hush();
        match &mut self.collection {
            Some(collection) => collection.mark_floor(),
            None => unreachable!(),
        }
    }

    /// The open call is told this, which holds no memory.
    fn refuse(&mut self, refusal: OpAnswer) -> OpAnswer
        requires { is_plain refusal ≡ true }
        ensures answer { result ≡ refusal }
        ensures told { council_view self.new ≡ telling (council_view self.old) refusal }
        ensures eras { self.new.eras ≡ self.old.eras }
    {
        self.tell(copy_of_op(&refusal));
        refusal
    }
}

impl OpenExchange {
    /// The acceptors whose first reply says so.
    fn saying(&self, saying: Saying) -> Members
        ensures { result
            ≡ those_telling (says (question_view self.now.question) saying) self.now.told.items }
    {
        let mut those = Members::new();
        for number in 0..IDENTITIES {
            let id = AcceptorId::new(number).unwrap();
            if says(&self.question, saying, told_by(&self.told, id)) {
                those.insert(id);
            }
        }
        those
    }
}

/// Whether that says so to the question.
fn says(question: &Question, saying: Saying, told: Option<&Tell>) -> bool
    ensures { result ≡ says (question_view question.now) saying (option_copied told.entry) }
{
    match (saying, told) {
        (Saying::Removed, Some(Tell::Removed)) => true,
        (Saying::Kept, Some(Tell::Kept)) => true,
        (Saying::Confirmed, Some(tell)) => confirms(question, tell),
        _ => false,
    }
}

/// Whether that confirms the question.
fn confirms(question: &Question, tell: &Tell) -> bool
    ensures { result ≡ confirms (question_view question.now) (Some tell.now) }
{
    match question {
        Question::NewAges { .. } => matches!(tell, Tell::AgesSet),
        Question::Removal(_) => matches!(tell, Tell::Removed | Tell::Kept),
        _ => false,
    }
}

/// The least of these acceptors that is none of those.
fn least_without(all: &Members, some: &Members) -> Option<AcceptorId>
    ensures least { IfSome result (IsLeastWithout all.now some.now) }
    ensures none { IfNone result ((acceptor : ℕ)
        → has_member all.now acceptor ≡ true → has_member some.now acceptor ≡ true) }
{
    if all.count() == 0 {
        return None;
    }
    for number in 0..IDENTITIES {
        let id = AcceptorId::new(number).unwrap();
        if all.has(id) && !some.has(id) {
            return Some(id);
        }
    }
    None
}
