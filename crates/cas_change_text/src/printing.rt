//! Programs and states, as they are written.

ghost use Rattle.std.specs.Prelude.{◌≡◌, ◌^◌, ◌<◌, ◌++◌, decimal, FitsSigned, All, string_bytes, take, IfOk, OnOk};
ghost use Rattle.std.specs.Fmt.{signed_decimal};
ghost use Rattle.std.specs.Int.{w64};
ghost use Rattle.std.specs.List.{flat_map, AllByRecursion};
ghost use Rattle.cas_change_text.specs.Escapes.{escaped};
ghost use Rattle.std.specs.String.{string_vec};
ghost use Rattle.cas_change_text.specs.Grammar.{IsProgram, IsState};
ghost use Rattle.cas_change_text.specs.Printing.{guard_text, act_text, clause_text, next_clause_text, program_text, body_text, state_text};
ghost use Rattle.cas_change_text.specs.Ranges.{TextFits, GuardFits, ActFits, ClauseFits, BodyFits, StateFits};
ghost use Rattle.cas_change_text.specs.Words.{words_of};

use crate::escapes::push_escaped;
use cas_change::{Act, Body, Clause, Guard, Program, State, Text};
use itoa::Buffer;
use std::alloc::{AllocError, Global};

/// Writes a number behind the text, in decimal.
pub fn push_decimal(text: &mut String, number: u64) -> Result<(), AllocError>
    ensures { OnOk result (string_bytes text.new ≡ string_bytes text.old ++ decimal number) }
{
    let mut digits = Buffer::new();
    text.push_str(digits.format(number))
}

/// Writes a name and a number.
fn push_number(text: &mut String, name: &str, number: i64) -> Result<(), AllocError>
    ensures ok { OnOk result
        (string_bytes text.new ≡ string_bytes text.old ++ name.now ++ signed_decimal number) }
    ensures fits { FitsSigned w64 number }
{
    let mut digits = Buffer::new();
    text.push_str(name)?;
    text.push_str(digits.format(number))
}

/// Writes a name and a number.
fn push_version(text: &mut String, name: &str, version: u64) -> Result<(), AllocError>
    ensures ok { OnOk result
        (string_bytes text.new ≡ string_bytes text.old ++ name.now ++ decimal version) }
    ensures fits { version < 2 ^ 64 }
{
    text.push_str(name)?;
    push_decimal(text, version)
}

/// Writes a name and a text.
fn push_text(text: &mut String, name: &str, bytes: &Text) -> Result<(), AllocError>
    ensures ok { OnOk result
        (string_bytes text.new ≡ string_bytes text.old ++ name.now ++ escaped bytes.now) }
    ensures fits { OnOk result (TextFits bytes.now) }
{
    text.push_str(name)?;
    push_escaped(text, bytes.bytes())
}

fn push_guard(text: &mut String, guard: &Guard) -> Result<(), AllocError>
    ensures ok { OnOk result
        (string_bytes text.new ≡ string_bytes text.old ++ guard_text guard.now) }
    ensures fits { OnOk result (GuardFits guard.now) }
{
    match guard {
        Guard::Always => text.push_str("always"),
        Guard::IsEmpty => text.push_str("empty"),
        Guard::VersionIs(version) => push_version(text, "version ", *version),
        Guard::NumberBelow(number) => push_number(text, "below ", *number),
        Guard::TextIs(bytes) => push_text(text, "is ", bytes),
    }
}

fn push_act(text: &mut String, act: &Act) -> Result<(), AllocError>
    ensures ok { OnOk result (string_bytes text.new ≡ string_bytes text.old ++ act_text act.now) }
    ensures fits { OnOk result (ActFits act.now) }
{
    match act {
        Act::Keep => text.push_str("keep"),
        Act::PutText(bytes) => push_text(text, "text ", bytes),
        Act::PutNumber(number) => push_number(text, "num ", *number),
        Act::Add(number) => push_number(text, "add ", *number),
        Act::Clear => text.push_str("clear"),
    }
}

fn push_clause(text: &mut String, clause: &Clause) -> Result<(), AllocError>
    ensures ok { OnOk result
        (string_bytes text.new ≡ string_bytes text.old ++ clause_text clause.now) }
    ensures fits { OnOk result (ClauseFits clause.now) }
{
    push_guard(text, &clause.guard)?;
    text.push(' ')?;
    push_act(text, &clause.act)
}

/// Writes each clause behind a semicolon.
fn push_next_clauses(text: &mut String, clauses: &[Clause]) -> Result<(), AllocError>
    ensures ok { OnOk result
        (string_bytes text.new ≡ string_bytes text.old ++ flat_map next_clause_text clauses.now) }
    ensures fits { OnOk result (All ClauseFits clauses.now) }
{
    for clause in clauses {
        text.push_str(" ; ")?;
        push_clause(text, clause)?;
    }
    Ok(())
}

/// Writes clauses behind the text, with a semicolon between any two.
fn push_clauses(text: &mut String, clauses: &[Clause]) -> Result<(), AllocError>
    ensures ok { OnOk result
        (string_bytes text.new ≡ string_bytes text.old ++ program_text clauses.now) }
    ensures fits { OnOk result (AllByRecursion ClauseFits clauses.now) }
{
    match clauses {
        [] => Ok(()),
        [first, others @ ..] => {
            push_clause(text, first)?;
            push_next_clauses(text, others)
        }
    }
}

fn push_body(text: &mut String, body: &Body) -> Result<(), AllocError>
    ensures ok { OnOk result (string_bytes text.new ≡ string_bytes text.old ++ body_text body.now) }
    ensures fits { OnOk result (BodyFits body.now) }
{
    match body {
        Body::Number(number) => push_number(text, "num ", *number),
        Body::Text(bytes) => push_text(text, "text ", bytes),
    }
}

/// Writes a state behind the text: `empty`, or `v` and its version, and `num` or `text` and what it holds.
pub fn push_state(text: &mut String, state: &State) -> Result<(), AllocError>
    ensures ok { OnOk result
        (string_bytes text.new ≡ string_bytes text.old ++ state_text state.now) }
    ensures fits { OnOk result (StateFits state.now) }
{
    match state {
        State::Empty => text.push_str("empty"),
        State::Held { version, body } => {
            push_version(text, "v", *version)?;
            text.push(' ')?;
            push_body(text, body)
        }
    }
}

/// The program as text: its words, with one space between any two. Read again, it is the same program.
pub fn print_program(alloc: Global, program: &Program) -> Result<Vec<u8>, AllocError>
    ensures text { IfOk result (λ text. text.items ≡ program_text program.now) }
    ensures spelled { IfOk result (λ text. IsProgram (words_of text.items) program.now) }
{
    let mut text = String::new(alloc);
    push_clauses(&mut text, program.clauses())?;
    Ok(text.into_bytes())
}

/// The state as text: its words, with one space between any two. Read again, it is the same state.
pub fn print_state(alloc: Global, state: &State) -> Result<Vec<u8>, AllocError>
    ensures text { IfOk result (λ text. text.items ≡ state_text state.now) }
    ensures spelled { IfOk result (λ text. IsState (words_of text.items) state.now) }
{
    let mut text = String::new(alloc);
    push_state(&mut text, state)?;
    Ok(text.into_bytes())
}
