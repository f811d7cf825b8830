//! What one hold does for a call of the operator: one call on the world, with the end of the operator's call where that told its answer.

ghost use Rattle.std.specs.Prelude.{◌≡◌, ◌≢◌, ℕ, List, [], length, take, IfOk, IfErr, OnOk};
ghost use Rattle.cas_model.specs.Council.{exchange_place};
ghost use Rattle.cas_model.specs.Exchanges.Step.{everyone};
ghost use Rattle.cas_flow.specs.Flow.{queue_at};
ghost use Rattle.cas_record.specs.declared.mark.Mark.{Mark};
ghost use Rattle.cas_world.specs.Eras.Plans.{rescanned_of};
ghost use Rattle.cas_board_steps.specs.Calls.Changes.{IsRefusalBehind, harm_by};
ghost use Rattle.cas_board_steps.specs.Kept.{IsKept, Makes};
ghost use Rattle.cas_board_steps.specs.Calls.Open.{NothingIsOpen};
ghost use Rattle.cas_board_steps.specs.Exchanges.Orders.{HasHarms, HasOrder, HasParts, HasProbe, IsAskingHarm, IsHeardTrue, IsOfKey, IsOrderOf, IsProbeAnswer, IsProbeStop, IsSilentAtMost, IsToldIn, MarksHarms, OperatesIn, WasAskedBehind, asked_for, order_for};
ghost use Rattle.cas_board_steps.specs.OwnParts.{own_part};
ghost use Rattle.cas_board_steps.specs.Calls.Stages.{HasFirst};

use crate::changes::{Waiting, first_frame};
use cas_board_world::SteadyWorld;
use cas_change::Key;
use cas_disk::Disk;
use cas_fate::Verdict;
use cas_record::{Agreement, Answer, Asked, OpAnswer, Probes};
use cas_slot::Shelf;
use cas_world::{Exchange, Gathered};
use cas_world_calls::council::no_memory;
use std::alloc::AllocError;

/// What the operator asks all members of a key.
#[derive(Clone, Copy, Debug, PartialEq, Eq)]
pub enum Inquiry {
    /// What each keeps for it.
    Probe,
    /// The same, to read it: what they agree on may be acknowledged.
    Read,
}

/// A probe or a read that the operator's call was opened for, before the members are asked.
#[derive(Debug, PartialEq, Eq, Drop)]
pub struct ProbeOrder {
    pub inquiry: Inquiry,
    /// What the members are to be asked.
    pub question: Exchange,
    /// The key that is told.
    pub key: Key,
}

/// A probe or a read for which the members were asked.
#[derive(Debug, PartialEq, Eq, Drop)]
pub struct Probing {
    pub inquiry: Inquiry,
    pub key: Key,
    /// The first frame of its exchange that waits.
    pub waits: Option<Waiting>,
}

/// What the operator was told of the key, with its call over.
#[derive(Debug, PartialEq, Eq, Drop)]
pub struct Heard {
    pub told: OpAnswer,
    /// What the members agree on, if they told it to a read.
    pub agreement: Option<Agreement>,
}

/// Begins a call of the operator for this. After an `Err`, which is [`Answer::RecordFull`] or [`Answer::NoMemory`], it was not begun.
pub(crate) fn open_order<S: Shelf, V: Disk>(
    world: &mut SteadyWorld<S, V>,
    asked: &Asked,
) -> Result<(), Answer>
    requires kept { IsKept world.old }
    requires free { NothingIsOpen (own_part world.old 0) }
    ensures kept { IsKept world.new }
    ensures last_proposer { world.new.last_proposer ≡ world.old.last_proposer }
    ensures makes { Makes 0 world.old world.new [] }
    ensures counted { rescanned_of world.new.council.plan ≡ rescanned_of world.old.council.plan }
    ensures ordered { OnOk result (HasOrder asked.now (own_part world.new 0)) }
    ensures refused { IfErr result (λ why. IsRefusalBehind (length world.new.marks) why
        × NothingIsOpen (own_part world.new 0)) }
{
    match world.order(asked) {
        Ok(()) => Ok(()),
        Err(refusal) => Err(refusal),
    }
}

/// Begins this of the key, as a call of the operator. After an `Err`, which is [`Answer::RecordFull`] or [`Answer::NoMemory`], it was not
/// begun.
pub fn order_probe<S: Shelf, V: Disk>(
    world: &mut SteadyWorld<S, V>,
    inquiry: Inquiry,
    key: &Key,
) -> Result<ProbeOrder, Answer>
    requires kept { IsKept world.old }
    requires free { NothingIsOpen (own_part world.old 0) }
    ensures kept { IsKept world.new }
    ensures last_proposer { world.new.last_proposer ≡ world.old.last_proposer }
    ensures makes { Makes 0 world.old world.new [] }
    ensures counted { rescanned_of world.new.council.plan ≡ rescanned_of world.old.council.plan }
    ensures order { IfOk result
        (λ order. IsOrderOf inquiry key.now order (own_part world.new 0)) }
    ensures refused { IfErr result (λ why. IsRefusalBehind (length world.new.marks) why
        × NothingIsOpen (own_part world.new 0)) }
{
    match copies_for(inquiry, key) {
        Ok((asked, order)) => match open_order(world, &asked) {
            Ok(()) => Ok(order),
            Err(refusal) => Err(refusal),
        },
        Err(_) => Err(Answer::NoMemory { proposed: false }),
    }
}

/// The copies of its key that it needs.
fn copies_for(inquiry: Inquiry, key: &Key) -> Result<(Asked, ProbeOrder), AllocError>
    ensures asked { IfOk result (λ copies. copies.0 ≡ asked_for inquiry key.now) }
    ensures order { IfOk result (λ copies. copies.1 ≡ order_for inquiry key.now) }
{
    let (asked, question) = match inquiry {
        Inquiry::Probe => (Asked::Probe(key.copy()?), Exchange::Probe(key.copy()?)),
        Inquiry::Read => (Asked::Read(key.copy()?), Exchange::Read(key.copy()?)),
    };
    let order = ProbeOrder {
        inquiry,
        question,
        key: key.copy()?,
    };
    Ok((asked, order))
}

/// Asks all members what they keep for the key. An `Err` is what the operator was told, and its call is over.
pub fn ask_probe<S: Shelf, V: Disk>(
    world: &mut SteadyWorld<S, V>,
    order: ProbeOrder,
) -> Result<Probing, OpAnswer>
    requires kept { IsKept world.old }
    requires order { IsOrderOf order.inquiry order.key order (own_part world.old 0) }
    ensures kept { IsKept world.new }
    ensures last_proposer { world.new.last_proposer ≡ world.old.last_proposer }
    ensures makes { OnOk result (Makes 0 world.old world.new []) }
    ensures counted { OnOk result
        (rescanned_of world.new.council.plan ≡ rescanned_of world.old.council.plan) }
    ensures asks { OnOk result
        (HasProbe order.inquiry order.key (everyone world.old) (own_part world.new 0)) }
    ensures harms { OnOk result (HasHarms 0 (own_part world.new 0)) }
    ensures behind { OnOk result (WasAskedBehind (length world.old.marks) (own_part world.new 0)) }
    ensures inquiry { IfOk result (λ probing. probing.inquiry ≡ order.inquiry) }
    ensures key { IfOk result (λ probing. probing.key ≡ order.key) }
    ensures waits { IfOk result (λ probing. HasFirst world.new 0 probing.waits) }
    ensures told { IfErr result (IsToldIn
        (asked_for order.inquiry order.key) IsAskingHarm 0 world.old world.new) }
    ensures stopped { IfErr result IsProbeStop }
{
    let ProbeOrder {
        inquiry,
        question,
        key,
    } = order;
    match world.ask_all(question) {
        Ok(()) => Ok(Probing {
            inquiry,
            key,
            waits: first_frame(world, 0),
        }),
        Err(told) => Err(world.tell(told)),
    }
}

/// Goes on with it: the first frame of its exchange has its turn, of which this becomes; or, where none waits, the operator is told what the
/// members told. An `Err` is what the operator was told, and its call is over.
pub fn go_on_probing<S: Shelf, V: Disk>(
    world: &mut SteadyWorld<S, V>,
    probing: Probing,
    verdict: Verdict,
) -> Result<Probing, Heard>
    requires kept { IsKept world.old }
    requires asks { (members : List ℕ)
        × HasProbe probing.inquiry probing.key members (own_part world.old 0) }
    ensures kept { IsKept world.new }
    ensures last_proposer { world.new.last_proposer ≡ world.old.last_proposer }
    ensures goes_on { OnOk result (OperatesIn IsAskingHarm (harm_by verdict) world.old world.new) }
    ensures still { OnOk result ((members : List ℕ) → HasProbe probing.inquiry probing.key members
        (own_part world.old 0)
        → HasProbe probing.inquiry probing.key members (own_part world.new 0)) }
    ensures harms { OnOk result (MarksHarms world.old world.new) }
    ensures behind { OnOk result ((many : ℕ)
        → WasAskedBehind many (own_part world.old 0) → WasAskedBehind many (own_part world.new 0)) }
    ensures inquiry { IfOk result (λ next. next.inquiry ≡ probing.inquiry) }
    ensures key { IfOk result (λ next. next.key ≡ probing.key) }
    ensures waits { IfOk result (λ next. HasFirst world.new 0 next.waits) }
    ensures told { IfErr result (λ heard. IsToldIn (asked_for probing.inquiry probing.key)
        IsAskingHarm (harm_by verdict) world.old world.new heard.told) }
    ensures answer { IfErr result (λ heard. (members : List ℕ)
        → HasProbe probing.inquiry probing.key members (own_part world.old 0)
        → IsProbeAnswer probing.key members heard.told) }
    ensures silent { IfErr result (λ heard. (harms : ℕ)
        → HasHarms harms (own_part world.old 0) → IsSilentAtMost harms heard.told) }
    ensures truly { IfErr result
        (λ heard. (many : ℕ) → WasAskedBehind many (own_part world.old 0)
        → IsHeardTrue probing.inquiry S.tells V.tells
        (take many world.new.marks) world.new.marks heard) }
{
    let Probing {
        inquiry,
        key,
        waits: _,
    } = probing;
    if world.front(0).is_none() {
        return Err(gather_probe(world, inquiry, key));
    }
    match take_probe_turn(world, inquiry, &key, verdict) {
        Ok(waits) => Ok(Probing {
            inquiry,
            key,
            waits,
        }),
        Err(told) => Err(Heard {
            told,
            agreement: None,
        }),
    }
}

/// The first frame of its exchange has its turn. Gives the next one that waits. An `Err` is what the operator was told, and its call is over.
fn take_probe_turn<S: Shelf, V: Disk>(
    world: &mut SteadyWorld<S, V>,
    inquiry: Inquiry,
    key: &Key,
    verdict: Verdict,
) -> Result<Option<Waiting>, OpAnswer>
    requires kept { IsKept world.old }
    requires asks { (members : List ℕ)
        × HasProbe inquiry key.now members (own_part world.old 0) }
    requires waits { (queue_at world.old.flow exchange_place).messages ≢ [] }
    ensures kept { IsKept world.new }
    ensures last_proposer { world.new.last_proposer ≡ world.old.last_proposer }
    ensures goes_on { OnOk result (OperatesIn IsAskingHarm (harm_by verdict) world.old world.new) }
    ensures still { OnOk result ((members : List ℕ) → HasProbe inquiry key.now members
        (own_part world.old 0) → HasProbe inquiry key.now members (own_part world.new 0)) }
    ensures harms { OnOk result (MarksHarms world.old world.new) }
    ensures behind { OnOk result ((many : ℕ)
        → WasAskedBehind many (own_part world.old 0) → WasAskedBehind many (own_part world.new 0)) }
    ensures first { IfOk result (HasFirst world.new 0) }
    ensures told { IfErr result (IsToldIn
        (asked_for inquiry key.now) IsAskingHarm (harm_by verdict) world.old world.new) }
    ensures stopped { IfErr result IsProbeStop }
{
    match world.turn(0, verdict) {
        Ok(()) => Ok(first_frame(world, 0)),
        Err(_) => Err(world.tell(no_memory())),
    }
}

/// Tells the operator what the members told of the key. Its call is over.
fn gather_probe<S: Shelf, V: Disk>(
    world: &mut SteadyWorld<S, V>,
    inquiry: Inquiry,
    key: Key,
) -> Heard
    requires kept { IsKept world.old }
    requires asks { (members : List ℕ) × HasProbe inquiry key members (own_part world.old 0) }
    requires through { (queue_at world.old.flow exchange_place).messages ≡ [] }
    ensures kept { IsKept world.new }
    ensures last_proposer { world.new.last_proposer ≡ world.old.last_proposer }
    ensures told { (most : ℕ) → IsToldIn
        (asked_for inquiry key) IsAskingHarm most world.old world.new result.told }
    ensures answer { (members : List ℕ) → HasProbe inquiry key members (own_part world.old 0)
        → IsProbeAnswer key members result.told }
    ensures silent { (harms : ℕ)
        → HasHarms harms (own_part world.old 0) → IsSilentAtMost harms result.told }
    ensures truly { (many : ℕ) → WasAskedBehind many (own_part world.old 0)
        → IsHeardTrue inquiry S.tells V.tells
        (take many world.new.marks) world.new.marks result }
{
    match world.gather() {
        Ok(gathered) => {
            let (found, agreement) = parts_of(gathered);
            Heard {
                told: world.tell(OpAnswer::Probed { key, found }),
                agreement,
            }
        }
        Err(told) => Heard {
            told: world.tell(told),
            agreement: None,
        },
    }
}

/// What the members told of the key, and what they agree on if it was read.
fn parts_of(gathered: Gathered) -> (Probes, Option<Agreement>)
    requires { IsOfKey gathered }
    ensures { HasParts gathered result.0 result.1 }
{
    match gathered {
        Gathered::Probed(found) => (found, None),
        Gathered::Read { agreement, found } => (found, Some(agreement)),
        _ => unreachable!(),
    }
}
