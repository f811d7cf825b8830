//! The texts of what an operator is answered.
//!
//! Only memory can fail, and a `push_` may then have written a part of its text.

ghost use Rattle.std.specs.Prelude.{◌≡◌, [], ◌∷◌, ◌++◌, string_bytes, OnOk, IfOk};
ghost use Rattle.std.specs.List.{flat_map};
ghost use Rattle.cas_change.specs.Key.{IsKeyByte};
ghost use Rattle.cas_lines.specs.Answers.{kept_text, told_text, probe_text, plan_text, sizes_text, op_text, op_line, read_text, read_line};

use crate::answer::push_answer;
use cas_ballot::AcceptorId;
use cas_change::Key;
use cas_change_text::push_state;
use cas_record::{OpAnswer, Probe, ReadAnswer};
use cas_slot::{Accepted, Tell};
use std::alloc::{AllocError, Global};

/// The line that answers an operator, with its newline.
pub fn print_op(alloc: Global, answer: &OpAnswer) -> Result<Vec<u8>, AllocError>
    ensures { IfOk result (λ line. line.items ≡ op_line answer.now) }
{
    let mut line = String::from_str(alloc, "op: ")?;
    push_op(&mut line, answer)?;
    line.push('\n')?;
    Ok(line.into_bytes())
}

/// The line that answers an operator who read a key, with its newline.
pub fn print_read(alloc: Global, answer: &ReadAnswer) -> Result<Vec<u8>, AllocError>
    ensures { IfOk result (λ line. line.items ≡ read_line answer.now) }
{
    let mut line = String::from_str(alloc, "op: ")?;
    push_read(&mut line, answer)?;
    line.push('\n')?;
    Ok(line.into_bytes())
}

/// Writes behind `line` what an operator is answered.
pub fn push_op(line: &mut String, answer: &OpAnswer) -> Result<(), AllocError>
    ensures { OnOk result (string_bytes line.new ≡ string_bytes line.old ++ op_text answer.now) }
{
    match answer {
        OpAnswer::Joined { id, era, rescanned } => {
            line.push_str("joined ")?;
            push_plan(line, *id, *era, *rescanned)
        }
        OpAnswer::Left { id, era, rescanned } => {
            line.push_str("left ")?;
            push_plan(line, *id, *era, *rescanned)
        }
        OpAnswer::Resized {
            need_prep,
            need_acc,
            era,
            rescanned,
        } => {
            line.push_str("resized ")?;
            push_sizes(line, *need_prep, *need_acc, *era, *rescanned)
        }
        OpAnswer::Refused(fault) => write!(line, "{fault}"),
        OpAnswer::Busy { era } => write!(line, "busy {era}"),
        OpAnswer::Collected {
            key,
            ballot,
            removed,
            kept,
        } => {
            line.push_str("collected ")?;
            push_key(line, key)?;
            write!(line, " at {ballot} removed {removed} kept {kept}")
        }
        OpAnswer::NotEmpty { version } => write!(line, "not empty v{version}"),
        OpAnswer::Absent { acceptor } => {
            let acceptor = acceptor.number();
            write!(line, "absent {acceptor}")
        }
        OpAnswer::ProposerDown { proposer } => write!(line, "proposer down {proposer}"),
        OpAnswer::Probed { key, found } => {
            line.push_str("probe ")?;
            push_key(line, key)?;
            push_probes(line, found.probes())
        }
        OpAnswer::Stopped(answer) => push_answer(line, answer),
    }
}

/// Writes behind `line` what an operator is answered who read a key.
pub fn push_read(line: &mut String, answer: &ReadAnswer) -> Result<(), AllocError>
    ensures { OnOk result (string_bytes line.new ≡ string_bytes line.old ++ read_text answer.now) }
{
    match answer {
        ReadAnswer::Value { key, state, ballot } => {
            line.push_str("read ")?;
            push_key(line, key)?;
            line.push_str(" ")?;
            push_state(line, state)?;
            write!(line, " at {ballot}")
        }
        ReadAnswer::Short { got, need } => write!(line, "short {got} {need}"),
        ReadAnswer::NotAgreed { low, high } => write!(line, "not agreed {low} {high}"),
        ReadAnswer::OldEra { ballot, era } => write!(line, "old era {era} at {ballot}"),
        ReadAnswer::Stopped(answer) => push_answer(line, answer),
    }
}

/// Whose plan is finished, in which era, and how many keys were proposed anew for it.
fn push_plan(line: &mut String, id: AcceptorId, era: u32, rescanned: u32) -> Result<(), AllocError>
    ensures { OnOk result
        (string_bytes line.new ≡ string_bytes line.old ++ plan_text id era rescanned) }
{
    let id = id.number();
    write!(line, "{id} era {era} rescanned {rescanned}")
}

/// The sizes of quorums, the era in which their plan is finished, and how many keys were proposed anew for it.
fn push_sizes(
    line: &mut String,
    need_prep: u32,
    need_acc: u32,
    era: u32,
    rescanned: u32,
) -> Result<(), AllocError>
    ensures { OnOk result (string_bytes line.new
        ≡ string_bytes line.old ++ sizes_text need_prep need_acc era rescanned) }
{
    write!(
        line,
        "{need_prep} {need_acc} era {era} rescanned {rescanned}"
    )
}

/// Writes a key behind `line`.
pub fn push_key(line: &mut String, key: &Key) -> Result<(), AllocError>
    ensures { OnOk result (string_bytes line.new ≡ string_bytes line.old ++ key.now) }
{
    for byte in key.bytes() {
        push_key_byte(line, *byte)?;
    }
    Ok(())
}

/// Writes a byte of a key.
fn push_key_byte(line: &mut String, byte: u8) -> Result<(), AllocError>
    requires { IsKeyByte byte }
    ensures { OnOk result (string_bytes line.new ≡ string_bytes line.old ++ byte ∷ []) }
{
    line.push(char::from(byte))
}

/// What members told when they were probed, in their order.
fn push_probes(line: &mut String, probes: &[Probe]) -> Result<(), AllocError>
    ensures { OnOk result
        (string_bytes line.new ≡ string_bytes line.old ++ flat_map probe_text probes.now) }
{
    for probe in probes {
        push_probe(line, probe)?;
    }
    Ok(())
}

/// What one member told when it was probed.
fn push_probe(line: &mut String, probe: &Probe) -> Result<(), AllocError>
    ensures { OnOk result (string_bytes line.new ≡ string_bytes line.old ++ probe_text probe.now) }
{
    let acceptor = probe.acceptor.number();
    write!(line, " {acceptor}=")?;
    push_told(line, &probe.told)
}

/// What a member told, where it told what it keeps.
fn push_told(line: &mut String, told: &Option<Tell>) -> Result<(), AllocError>
    ensures { OnOk result (string_bytes line.new ≡ string_bytes line.old ++ told_text told.now) }
{
    match told {
        Some(Tell::Probed { accepted, .. }) => push_kept(line, accepted),
        _ => line.push('?'),
    }
}

/// At which ballot, and in which era, what a member keeps was accepted.
fn push_kept(line: &mut String, accepted: &Option<Accepted>) -> Result<(), AllocError>
    ensures { OnOk result
        (string_bytes line.new ≡ string_bytes line.old ++ kept_text accepted.now) }
{
    match accepted {
        Some(accepted) => {
            let ballot = accepted.ballot;
            let era = accepted.era;
            write!(line, "{ballot}/{era}")
        }
        None => line.push_str("none"),
    }
}
