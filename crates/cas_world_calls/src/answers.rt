//! Answers by their causes, and copies of those that hold no memory.

ghost use Rattle.std.specs.Prelude.{◌≡◌, true, false};
ghost use Rattle.cas_model.specs.Calls.Step.{refusal_by, cause_by};
ghost use Rattle.cas_protocol.specs.Protocol.{is_done};
ghost use Rattle.cas_world_calls.specs.Answers.{is_plain, aged_answer, crash_answer, moved_answer};

use cas_record::{Answer, Cause, OpAnswer};
use cas_round::RoundVerdict;

/// How a phase without a quorum ends a call that proposed nothing. `None` comes exactly for a quorum.
pub fn refusal_by(verdict: RoundVerdict) -> Option<Answer>
    ensures { result ≡ refusal_by verdict }
{
    match verdict {
        RoundVerdict::Quorum => None,
        RoundVerdict::Met(met) => Some(Answer::Conflict { met }),
        RoundVerdict::Aged(least) => Some(Answer::Aged { least }),
        RoundVerdict::Full(acceptor) => Some(Answer::Full { acceptor }),
        RoundVerdict::Short { got, need } => Some(Answer::Short { got, need }),
    }
}

/// Why a phase without a quorum leaves a call unsettled that proposed something. `None` comes exactly for a quorum.
pub fn cause_by(verdict: RoundVerdict) -> Option<Cause>
    ensures { result ≡ cause_by verdict }
{
    match verdict {
        RoundVerdict::Quorum => None,
        RoundVerdict::Met(met) => Some(Cause::Met(met)),
        RoundVerdict::Aged(least) => Some(Cause::Aged(least)),
        RoundVerdict::Full(acceptor) => Some(Cause::Full(acceptor)),
        RoundVerdict::Short { got, need } => Some(Cause::Short { got, need }),
    }
}

/// What a call is told whose proposer crashed while its round was open.
pub fn crash_answer(proposed: bool) -> Answer
    ensures { result ≡ crash_answer proposed }
{
    if proposed {
        Answer::Unsettled {
            why: Cause::Crashed,
        }
    } else {
        Answer::Crashed
    }
}

/// What a call is told whose proposer entered this era while its round was open.
pub fn moved_answer(proposed: bool, era: u32) -> Answer
    ensures { result ≡ moved_answer proposed era }
{
    if proposed {
        Answer::Unsettled {
            why: Cause::Moved(era),
        }
    } else {
        Answer::Moved { era }
    }
}

/// What a call is told whose proposer was renewed to this age while its round was open.
pub fn aged_answer(proposed: bool, least: u64) -> Answer
    ensures { result ≡ aged_answer proposed least }
{
    if proposed {
        Answer::Unsettled {
            why: Cause::Aged(least),
        }
    } else {
        Answer::Aged { least }
    }
}

/// Whether it tells that the change is done.
pub fn is_done(answer: &Answer) -> bool
    ensures { result ≡ is_done answer.now }
{
    matches!(answer, Answer::Done { .. })
}

/// An equal answer. It takes no memory: of all answers `Done` alone holds some, and is not copied here.
pub fn copy_of(answer: &Answer) -> Answer
    requires { is_done answer.now ≡ false }
    ensures { result ≡ answer.now }
{
    match answer {
        Answer::Conflict { met } => Answer::Conflict { met: *met },
        Answer::Aged { least } => Answer::Aged { least: *least },
        Answer::Full { acceptor } => Answer::Full {
            acceptor: *acceptor,
        },
        Answer::Short { got, need } => Answer::Short {
            got: *got,
            need: *need,
        },
        Answer::Moved { era } => Answer::Moved { era: *era },
        Answer::Crashed => Answer::Crashed,
        Answer::Unsettled { why } => Answer::Unsettled { why: cause_of(why) },
        Answer::Down => Answer::Down,
        Answer::VaultFault => Answer::VaultFault,
        Answer::Spent => Answer::Spent,
        Answer::RecordFull => Answer::RecordFull,
        Answer::NoMemory { proposed } => Answer::NoMemory {
            proposed: *proposed,
        },
        Answer::Done { .. } => unreachable!(),
    }
}

/// An equal answer to the operator. It takes no memory: what was collected or probed holds some, and is not copied here.
pub fn copy_of_op(answer: &OpAnswer) -> OpAnswer
    requires { is_plain answer.now ≡ true }
    ensures { result ≡ answer.now }
{
    match answer {
        OpAnswer::Joined { id, era, rescanned } => OpAnswer::Joined {
            id: *id,
            era: *era,
            rescanned: *rescanned,
        },
        OpAnswer::Left { id, era, rescanned } => OpAnswer::Left {
            id: *id,
            era: *era,
            rescanned: *rescanned,
        },
        OpAnswer::Resized {
            need_prep,
            need_acc,
            era,
            rescanned,
        } => OpAnswer::Resized {
            need_prep: *need_prep,
            need_acc: *need_acc,
            era: *era,
            rescanned: *rescanned,
        },
        OpAnswer::Refused(fault) => OpAnswer::Refused(*fault),
        OpAnswer::Busy { era } => OpAnswer::Busy { era: *era },
        OpAnswer::ProposerDown { proposer } => OpAnswer::ProposerDown {
            proposer: *proposer,
        },
        OpAnswer::NotEmpty { version } => OpAnswer::NotEmpty { version: *version },
        OpAnswer::Absent { acceptor } => OpAnswer::Absent {
            acceptor: *acceptor,
        },
        OpAnswer::Stopped(answer) => OpAnswer::Stopped(copy_of(answer)),
        OpAnswer::Collected { .. } | OpAnswer::Probed { .. } => unreachable!(),
    }
}

/// An equal cause.
fn cause_of(cause: &Cause) -> Cause
    ensures { result ≡ cause.now }
{
    match cause {
        Cause::Met(met) => Cause::Met(*met),
        Cause::Aged(least) => Cause::Aged(*least),
        Cause::Full(acceptor) => Cause::Full(*acceptor),
        Cause::Short { got, need } => Cause::Short {
            got: *got,
            need: *need,
        },
        Cause::Moved(era) => Cause::Moved(*era),
        Cause::Crashed => Cause::Crashed,
    }
}
