//! Callers and their calls.

ghost use Rattle.std.specs.Prelude.{◌≡◌, ◌+◌, ◌-◌, ◌<◌, ◌^◌, None, Some, [], ◌∷◌, ◌++◌, length, sum_by, if◌then◌else◌, true, false, is_some, IsSome, IsSomeAnd, IfSome};
ghost use Rattle.cas_ballot.specs.Members.{has_member};
ghost use Rattle.cas_protocol.specs.Protocol.{is_done};
ghost use Rattle.cas_world_calls.specs.Call.{reserved_of, again, over, with_proposal, harmed_by, harms_marked};

use crate::answers::copy_of;
use crate::proposal::{Copies, Proposing};
use cas_ballot::{AcceptorId, Members};
use cas_change::{Key, Outcome, Program};
use cas_record::{Answer, Mark, Record};

/// A caller: the number of its last call, and that call while it is open.
#[derive(Drop)]
pub struct Caller {
    /// The number of its last call; 0 before its first.
    pub number: u32,
    /// That call, while it is open.
    pub call: Option<OpenCall>,
}

/// What is left of a call that is over.
#[derive(Drop)]
pub struct EndedCall {
    /// The key that it was to change.
    pub key: Key,
    /// How many rounds were begun for it.
    pub rounds: u32,
    /// What it was told last.
    pub told: Answer,
}

/// A call that has begun and was not ended.
#[derive(Drop)]
pub struct OpenCall {
    /// The key that it is to change.
    pub key: Key,
    /// The change that it asks for.
    pub program: Program,
    /// How many rounds were begun for it, those that were refused among them.
    pub rounds: u32,
    /// How many marks are still reserved for it.
    pub reserved: usize,
    /// What was proposed, once something was.
    pub proposed: Option<Outcome>,
    /// What the end of the accept phase needs, from the proposal on until it is counted.
    pub copies: Option<Copies>,
    /// The acceptors of which a frame was harmed in the open phase.
    pub harmed: Members,
    /// What its last step told the caller.
    pub told: Option<Answer>,
    /// Whether its round was closed by another.
    pub is_closed: bool,
}

impl Caller {
    /// A caller that has not begun any call.
    pub fn new() -> Caller
        ensures { result ≡ record { number = 0; call = None } }
    {
        Caller {
            number: 0,
            call: None,
        }
    }

    /// The number of its next call.
    pub fn next(&self) -> u32
        requires { self.now.number + 1 < 2 ^ 32 }
        ensures { result ≡ self.now.number + 1 }
    {
        self.number + 1
    }

    /// How many marks are reserved for its call.
    pub fn reserved(&self) -> usize
        ensures { result ≡ reserved_of self.now }
    {
        match &self.call {
            Some(call) => call.reserved,
            None => 0,
        }
    }

    /// A new call begins, whose mark is made.
    pub fn open(&mut self, call: OpenCall)
        requires { self.old.number + 1 < 2 ^ 32 }
        ensures { self.new ≡ record { number = self.old.number + 1; call = Some call } }
    {
        self.number += 1;
        self.call = Some(call);
    }

    /// Another round of its call begins, with so many marks reserved in all.
    pub fn try_again(&mut self, reserved: usize)
        requires { IsSome self.old.call }
        ensures { IfSome self.old.call
            (λ call. self.new ≡ record self.old { call = Some (again call reserved) }) }
    {
        match &mut self.call {
            Some(call) => call.try_again(reserved),
            None => unreachable!(),
        }
    }

    /// Whether its call proposed something.
    pub fn has_proposed(&self) -> bool
        ensures { IfSome self.now.call (λ call. result ≡ is_some call.proposed) }
    {
        match &self.call {
            Some(call) => call.proposed.is_some(),
            None => false,
        }
    }

    /// It is told nothing in this step.
    pub fn silence(&mut self)
        requires { IsSome self.old.call }
        ensures { IfSome self.old.call
            (λ call. self.new ≡ record self.old { call = Some (record call { told = None }) }) }
    {
        match &mut self.call {
            Some(call) => call.told = None,
            None => unreachable!(),
        }
    }

    /// It is told this, while its round stays open.
    pub fn tell(&mut self, answer: &Answer)
        requires open { IsSome self.old.call }
        requires copied { is_done answer.now ≡ false }
        ensures { IfSome self.old.call (λ call. self.new ≡ record self.old {
          call = Some
              (record call { told = Some answer.now });
        }) }
    {
        match &mut self.call {
            Some(call) => call.told = Some(copy_of(answer)),
            None => unreachable!(),
        }
    }

    /// It is told how its round ended. The reserve keeps one mark, that of the call's end.
    pub fn end_round(&mut self, answer: &Answer)
        requires open { IsSome self.old.call }
        requires copied { is_done answer.now ≡ false }
        ensures { IfSome self.old.call
            (λ call. self.new ≡ record self.old { call = Some (over call answer.now) }) }
    {
        match &mut self.call {
            Some(call) => call.end_round(copy_of(answer)),
            None => unreachable!(),
        }
    }

    /// Its change is done, and it is told so. The reserve keeps one mark, that of the call's end.
    pub fn done(&mut self, told: Answer)
        requires { IsSome self.old.call }
        ensures { IfSome self.old.call
            (λ call. self.new ≡ record self.old { call = Some (over call told) }) }
    {
        match &mut self.call {
            Some(call) => call.end_round(told),
            None => unreachable!(),
        }
    }

    /// Its round was closed by another, and it is told this.
    pub fn close_round(&mut self, answer: Answer)
        requires { IsSome self.old.call }
        ensures { IfSome self.old.call (λ call. self.new ≡ record self.old {
          call = Some
              (record (over call answer) { is_closed = true });
        }) }
    {
        match &mut self.call {
            Some(call) => {
                call.end_round(answer);
                call.is_closed = true;
            }
            None => unreachable!(),
        }
    }

    /// Its call is over. Answers its key, how many rounds were begun for it, and what it was told last.
    pub fn end_call(&mut self) -> EndedCall
        requires { IsSomeAnd self.old.call (λ call. IsSome call.told) }
        ensures told { IfSome self.old.call (λ call. IfSome call.told
            (λ told. result ≡ record { key = call.key; rounds = call.rounds; told = told })) }
        ensures caller { self.new ≡ record self.old { call = None } }
    {
        let (key, rounds, told) = match self.call.take() {
            Some(ended) => (ended.key, ended.rounds, ended.told),
            None => unreachable!(),
        };
        match told {
            Some(told) => EndedCall { key, rounds, told },
            None => unreachable!(),
        }
    }

    /// Its call is left without an answer, and what was reserved for it is free.
    pub fn leave(&mut self)
        ensures { self.new ≡ record self.old { call = None } }
    {
        self.call = None;
    }

    /// Makes a mark that was reserved for its call.
    pub fn mark(&mut self, record: &mut Record, mark: Mark)
        requires open { IsSome self.old.call }
        requires reserved { IfSome self.old.call (λ call. 0 < call.reserved) }
        requires room { 0 < «record».old.room }
        ensures call { IfSome self.old.call (λ call. self.new ≡ record self.old {
          call = Some
              (record call { reserved = call.reserved - 1 });
        }) }
        ensures marks { «record».new.marks ≡ «record».old.marks ++ mark ∷ [] }
        ensures room { «record».new.room + 1 ≡ «record».old.room }
    {
        match &mut self.call {
            Some(call) => call.mark(record, mark),
            None => unreachable!(),
        }
    }

    /// Its outcome is proposed and marked, and the accept phase begins.
    pub fn propose(&mut self, record: &mut Record, proposing: Proposing)
        requires open { IsSome self.old.call }
        requires reserved { IfSome self.old.call (λ call. 0 < call.reserved) }
        requires room { 0 < «record».old.room }
        ensures call { IfSome self.old.call
            (λ call. self.new ≡ record self.old { call = Some (with_proposal call proposing) }) }
        ensures marks { «record».new.marks ≡ «record».old.marks ++ proposing.mark ∷ [] }
        ensures room { «record».new.room + 1 ≡ «record».old.room }
    {
        match &mut self.call {
            Some(call) => call.propose(record, proposing),
            None => unreachable!(),
        }
    }

    /// A frame to or from the acceptor was lost or made late or, where `down` is true, found it down or brought it down. The first
    /// harm of an acceptor in a phase is marked, and no other.
    pub fn harm(&mut self, record: &mut Record, caller: u8, acceptor: AcceptorId, down: bool)
        requires open { IsSome self.old.call }
        requires reserved { IfSome self.old.call (λ call. has_member call.harmed acceptor ≡ false
            → 0 < call.reserved) }
        requires room { IfSome self.old.call (λ call. has_member call.harmed acceptor ≡ false
            → 0 < «record».old.room) }
        ensures call { IfSome self.old.call
            (λ call. self.new ≡ record self.old { call = Some (harmed_by call acceptor) }) }
        ensures marks { IfSome self.old.call (λ call. «record».new.marks
            ≡ «record».old.marks ++ harms_marked caller self.old.number call acceptor down) }
        ensures room_left { IfSome self.old.call (λ call. «record».new.room + length
            (harms_marked caller self.old.number call acceptor down) ≡ «record».old.room) }
    {
        let call = self.number;
        let mark = Mark::Harmed { caller, call, down };
        match &mut self.call {
            Some(call) => call.harm(record, acceptor, mark),
            None => unreachable!(),
        }
    }
}

impl OpenCall {
    /// A call whose first round begins, with so many marks reserved.
    pub fn new(key: Key, program: Program, reserved: usize) -> OpenCall
        ensures { result ≡ record {
          key = key;
          program = program;
          rounds = 1;
          reserved = reserved;
          proposed = None;
          copies = None;
          harmed = [];
          told = None;
          is_closed = false;
        } }
    {
        OpenCall {
            key,
            program,
            rounds: 1,
            reserved,
            proposed: None,
            copies: None,
            harmed: Members::new(),
            told: None,
            is_closed: false,
        }
    }

    /// Another round of it begins, with so many marks reserved in all.
    fn try_again(&mut self, reserved: usize)
        ensures { self.new ≡ again self.old reserved }
    {
        self.rounds = self.rounds.saturating_add(1);
        self.reserved = reserved;
        self.harmed = Members::new();
        self.told = None;
        self.is_closed = false;
    }

    /// Its round ended, and this is told. The reserve keeps one mark, that of its end.
    pub fn end_round(&mut self, told: Answer)
        ensures { self.new ≡ over self.old told }
    {
        self.told = Some(told);
        self.copies = None;
        self.reserved = 1;
    }

    /// Makes a mark that was reserved for it.
    pub fn mark(&mut self, record: &mut Record, mark: Mark)
        requires reserved { 0 < self.old.reserved }
        requires room { 0 < «record».old.room }
        ensures call { self.new ≡ record self.old { reserved = self.old.reserved - 1 } }
        ensures marks { «record».new.marks ≡ «record».old.marks ++ mark ∷ [] }
        ensures room { «record».new.room + 1 ≡ «record».old.room }
    {
        record.push(mark);
        self.reserved -= 1;
    }

    /// Its outcome is proposed and marked, and the accept phase begins.
    fn propose(&mut self, record: &mut Record, proposing: Proposing)
        requires reserved { 0 < self.old.reserved }
        requires room { 0 < «record».old.room }
        ensures call { self.new ≡ with_proposal self.old proposing }
        ensures marks { «record».new.marks ≡ «record».old.marks ++ proposing.mark ∷ [] }
        ensures room { «record».new.room + 1 ≡ «record».old.room }
    {
        let Proposing {
            outcome,
            copies,
            mark,
        } = proposing;
        self.mark(record, mark);
        self.proposed = Some(outcome);
        self.copies = Some(copies);
        self.harmed = Members::new();
        self.told = None;
    }

    /// A frame of the acceptor was harmed, of which this is the mark where it is the first in the phase.
    fn harm(&mut self, record: &mut Record, acceptor: AcceptorId, mark: Mark)
        requires reserved { has_member self.old.harmed acceptor ≡ false → 0 < self.old.reserved }
        requires room { has_member self.old.harmed acceptor ≡ false → 0 < «record».old.room }
        ensures call { self.new ≡ harmed_by self.old acceptor }
        ensures marks { «record».new.marks ≡ «record».old.marks ++ (if has_member
            self.old.harmed acceptor then [] else mark ∷ []) }
        ensures room_left { «record».new.room + length
            (if has_member self.old.harmed acceptor then [] else mark ∷ []) ≡ «record».old.room }
    {
        self.told = None;
        if self.harmed.has(acceptor) {
            drop(mark);
        } else {
            self.harmed.insert(acceptor);
            self.mark(record, mark);
        }
    }
}

/// How many marks are reserved for the calls of these callers.
pub fn reserved_by(callers: &[Caller]) -> usize
    requires { sum_by reserved_of callers.now < 2 ^ 64 }
    ensures { result ≡ sum_by reserved_of callers.now }
{
    let mut all = 0;
    for caller in callers {
        all += caller.reserved();
    }
    all
}
