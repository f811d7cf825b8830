//! One attempt to serve a request: the register is read, and changed where the request is next.

ghost use Rattle.std.specs.Prelude.{◌≡◌, ◌≤◌, [], ◌∷◌, List, ℕ, IfOk, MatchOption};
ghost use Rattle.cas_record.specs.Legal.{IsLegal};
ghost use Rattle.cas_session_text.specs.Contents.{SessionContents, IsContents, IsLastReply, StandsFor, after_reply, contents_text};
ghost use Rattle.cas_session.specs.Request.{request_of, one_clause, guard_for, change_to};
ghost use Rattle.cas_session.specs.Serving.{HasGoneOn, WasTried, may_follow, ends_by, ends_with, without_memory};

use crate::changer::Changer;
use crate::decision::{Decision, decide};
use crate::request::{SessionAct, SessionAnswer};
use cas_change::{Act, Body, Clause, Guard, Key, Program, State, Text, TextFault, Took};
use cas_record::Answer;
use cas_session_text::{LastReply, Session};
use std::alloc::{AllocError, Global};

/// How an attempt ends.
#[derive(Debug, PartialEq, Eq, Drop)]
pub enum Ending {
    /// The request is answered.
    Ends(SessionAnswer),
    /// The attempt came to nothing by this answer, and another may follow. `pending` is true where a change of the request may yet act.
    Again { last: Answer, pending: bool },
}

/// Makes one attempt to serve the caller's request of that number: reads the register, and changes it where the request is next. `pending`
/// tells whether an earlier change of the request may yet act.
pub fn attempt<C: Changer>(
    alloc: Global,
    changer: &mut C,
    key: &Key,
    number: u64,
    act: SessionAct,
    pending: bool,
) -> Ending
    requires { 1 ≤ number }
    ensures caller { C.caller_of changer.new ≡ C.caller_of changer.old }
    ensures tried { WasTried (request_of (C.caller_of changer.old) number act) key.now pending
        (C.seen changer.old) (C.seen changer.new) result }
    ensures legal { C.tells → IsLegal (C.seen changer.old) → IsLegal (C.seen changer.new) }
{
    let Ok(program) = one_clause(alloc, Guard::Always, Act::Keep) else {
        return without_memory(pending);
    };
    match changer.change(key, &program) {
        Answer::Done { state, .. } => { go_on(alloc, changer, key, number, act, pending, &state) }
        answer => ends_by(answer, pending),
    }
}

/// Goes on with an attempt that read this state.
fn go_on<C: Changer>(
    alloc: Global,
    changer: &mut C,
    key: &Key,
    number: u64,
    act: SessionAct,
    pending: bool,
    state: &State,
) -> Ending
    requires { 1 ≤ number }
    ensures caller { C.caller_of changer.new ≡ C.caller_of changer.old }
    ensures gone_on { HasGoneOn (request_of (C.caller_of changer.old) number act) key.now pending
        state.now (C.seen changer.old) (C.seen changer.new) result }
    ensures legal { C.tells → IsLegal (C.seen changer.old) → IsLegal (C.seen changer.new) }
{
    let Ok(found) = session_of(alloc, state) else {
        return without_memory(pending);
    };
    let Some(session) = found else {
        return Ending::Ends(SessionAnswer::NotSession);
    };
    let caller = changer.caller();
    match decide(&session, caller, number, act) {
        Decision::Answered(answer) => Ending::Ends(answer),
        Decision::Proposes(left) => {
            let reply = LastReply {
                caller,
                number,
                reply: left,
            };
            let Ok(program) = change_to(alloc, state, session, reply) else {
                return without_memory(pending);
            };
            let answer = changer.change(key, &program);
            ends_with(&reply, answer, pending)
        }
    }
}

/// The session that the state stands for. `Ok(None)` comes exactly where it stands for none. Only memory can fail.
fn session_of(alloc: Global, state: &State) -> Result<Option<Session>, AllocError>
    ensures { IfOk result (λ found. MatchOption found
        ((contents : SessionContents) → StandsFor state.now contents → ⊥)
        (λ session. IsContents session × StandsFor state.now session)) }
{
    match state {
        State::Empty => Ok(Some(Session::new(alloc))),
        State::Held {
            body: Body::Text(text),
            ..
        } => Session::read(alloc, text.bytes()),
        State::Held {
            body: Body::Number(_),
            ..
        } => Ok(None),
    }
}

/// The program that changes exactly that state to what the session is after this reply. Only memory can fail.
fn change_to(
    alloc: Global,
    state: &State,
    mut session: Session,
    reply: LastReply,
) -> Result<Program, AllocError>
    requires { IsLastReply reply }
    ensures { IfOk result (λ program. program ≡ change_to state.now (after_reply reply session)) }
{
    session.tell(reply)?;
    session.set_value(reply.reply);
    one_clause(
        alloc,
        guard_for(state)?,
        Act::PutText(text_of(alloc, &session)?),
    )
}

/// What a register must hold, still, for a change that is made for this state.
fn guard_for(state: &State) -> Result<Guard, AllocError>
    ensures { IfOk result (λ guard. guard ≡ guard_for state.now) }
{
    match state {
        State::Held {
            body: Body::Text(text),
            ..
        } => Ok(Guard::TextIs(text.copy()?)),
        _ => Ok(Guard::IsEmpty),
    }
}

/// The text of the session, which is never too long for a register. Only memory can fail.
fn text_of(alloc: Global, session: &Session) -> Result<Text, AllocError>
    ensures { IfOk result (λ text. text ≡ contents_text session.now) }
{
    let printed = session.print(alloc)?;
    match Text::read(alloc, &printed) {
        Ok(text) => Ok(text),
        Err(TextFault::NoMemory) => Err(AllocError),
        Err(TextFault::TooLong) => unreachable!(),
    }
}

/// The program of this clause alone. Only memory can fail.
fn one_clause(alloc: Global, guard: Guard, act: Act) -> Result<Program, AllocError>
    ensures { IfOk result (λ program. program ≡ one_clause guard act) }
{
    let mut clauses = Vec::with_capacity(alloc, 1)?;
    clauses.push(Clause { guard, act })?;
    match Program::new(clauses) {
        Ok(program) => Ok(program),
        Err(_) => unreachable!(),
    }
}

/// Whether another attempt may follow a call that was answered so and not done.
fn may_follow(answer: &Answer) -> bool
    ensures { result ≡ may_follow answer.now }
{
    matches!(answer, Answer::Conflict { .. } | Answer::Unsettled { .. })
}

/// How an attempt ends by a call that was not done.
fn ends_by(answer: Answer, pending: bool) -> Ending
    ensures { result ≡ ends_by answer pending }
{
    if may_follow(&answer) {
        Ending::Again {
            last: answer,
            pending,
        }
    } else {
        Ending::Ends(SessionAnswer::Stopped { answer, pending })
    }
}

/// How an attempt ends by the answer to its change, by which its caller was to be told this.
fn ends_with(reply: &LastReply, answer: Answer, pending: bool) -> Ending
    ensures { result ≡ ends_with reply.now.reply answer pending }
{
    match answer {
        Answer::Done {
            took: Took::Clause(_),
            ..
        } => Ending::Ends(SessionAnswer::Done {
            reply: reply.reply,
            fresh: true,
        }),
        Answer::Done { .. } => Ending::Again {
            last: answer,
            pending,
        },
        _ => {
            let may_stand = pending || answer.tells_unsettled();
            ends_by(answer, may_stand)
        }
    }
}

/// How an attempt ends that finds no memory.
fn without_memory(pending: bool) -> Ending
    ensures { result ≡ without_memory pending }
{
    Ending::Ends(SessionAnswer::Stopped {
        answer: Answer::NoMemory { proposed: false },
        pending,
    })
}
