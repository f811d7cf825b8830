//! Programs of change, as the body of a POST spells them in JSON.
//!
//! A program is an array of 1 to 8 objects, each with exactly the keys `guard` and `act`:
//!
//! - a guard is `"always"`, `"empty"`, `{"version":v}`, `{"below":n}` or `{"is":text}`;
//! - an act is `"keep"`, `"clear"`, `{"text":text}`, `{"num":n}` or `{"add":n}`.
//!
//! `v` is an integer of `u64`, `n` one of `i64`, and a text a string of at most 4,000 bytes. Where an object has a key twice, the last
//! one counts.

ghost use Rattle.std.specs.Prelude.{◌≡◌, ◌==◌, nat_le, if◌then◌else◌, length, codes, Some, None, IfOk, option_map, option_and_then};
ghost use Rattle.serde_json.specs.Find.{get, as_array};
ghost use Rattle.serde_json.specs.View.{view, items_view};
ghost use Rattle.cas_http.specs.Programs.{version_in, number_in, if_text, text_in, only_member, member_count, guard_word, guard_member, guard_in, act_word, act_member, act_in, clause_in, clauses_in, program_in, program_of_body};

use cas_change::{Act, Clause, Guard, Program, Text, TextFault};
use serde_json::Value;
use std::alloc::{AllocError, Global};

/// The program that the body spells. `Ok(None)` comes exactly where it spells none. Only memory can fail.
pub(crate) fn read_program(alloc: Global, body: &[u8]) -> Result<Option<Program>, AllocError>
    ensures { IfOk result (λ program. program ≡ program_of_body body.now) }
{
    match Value::from_slice(alloc, body) {
        Ok(value) => program_in(alloc, &value),
        Err(error) => if error.is_memory() {
            Err(AllocError)
        } else {
            Ok(None)
        },
    }
}

/// The program that a value is.
fn program_in(alloc: Global, value: &Value) -> Result<Option<Program>, AllocError>
    ensures { IfOk result (λ program. program ≡ program_in (view value.now)) }
{
    let Some(items) = value.as_array() else {
        return Ok(None);
    };
    match clauses_in(alloc, items)? {
        Some(clauses) => Ok(Program::new(clauses).ok()),
        None => Ok(None),
    }
}

/// The clauses that the values are, where each is one.
fn clauses_in(alloc: Global, items: &[Value]) -> Result<Option<Vec<Clause>>, AllocError>
    ensures { IfOk result (λ clauses. option_map (λ all. all.items) clauses
        ≡ clauses_in (items_view items.now)) }
{
    let mut clauses = Vec::new(alloc);
    for item in items {
        match clause_in(alloc, item)? {
            Some(clause) => clauses.push(clause)?,
            None => return Ok(None),
        }
    }
    Ok(Some(clauses))
}

/// The clause that a value is.
fn clause_in(alloc: Global, value: &Value) -> Result<Option<Clause>, AllocError>
    ensures { IfOk result (λ clause. clause ≡ clause_in (view value.now)) }
{
    if member_count(value) != 2 {
        return Ok(None);
    }
    let Some(guard) = guard_at(alloc, value.get("guard"))? else {
        return Ok(None);
    };
    let Some(act) = act_at(alloc, value.get("act"))? else {
        return Ok(None);
    };
    Ok(Some(Clause { guard, act }))
}

/// The guard that a value is, where there is one.
fn guard_at(alloc: Global, value: Option<&Value>) -> Result<Option<Guard>, AllocError>
    ensures { IfOk result (λ guard. guard
        ≡ option_and_then guard_in (option_map (λ v. view v.now) value.entry)) }
{
    match value {
        Some(value) => guard_in(alloc, value),
        None => Ok(None),
    }
}

/// The act that a value is, where there is one.
fn act_at(alloc: Global, value: Option<&Value>) -> Result<Option<Act>, AllocError>
    ensures { IfOk result (λ act. act
        ≡ option_and_then act_in (option_map (λ v. view v.now) value.entry)) }
{
    match value {
        Some(value) => act_in(alloc, value),
        None => Ok(None),
    }
}

/// The guard that a value is: a word, or an object of one member.
fn guard_in(alloc: Global, value: &Value) -> Result<Option<Guard>, AllocError>
    ensures { IfOk result (λ guard. guard ≡ guard_in (view value.now)) }
{
    if let Some(word) = value.as_str() {
        return Ok(guard_word(word));
    }
    match only_member(value) {
        Some((name, value)) => guard_member(alloc, name, value),
        None => Ok(None),
    }
}

/// The act that a value is: a word, or an object of one member.
fn act_in(alloc: Global, value: &Value) -> Result<Option<Act>, AllocError>
    ensures { IfOk result (λ act. act ≡ act_in (view value.now)) }
{
    if let Some(word) = value.as_str() {
        return Ok(act_word(word));
    }
    match only_member(value) {
        Some((name, value)) => act_member(alloc, name, value),
        None => Ok(None),
    }
}

/// The guard that is this word.
fn guard_word(word: &str) -> Option<Guard>
    ensures { result ≡ guard_word word.now }
{
    match word {
        "always" => Some(Guard::Always),
        "empty" => Some(Guard::IsEmpty),
        _ => None,
    }
}

/// The act that is this word.
fn act_word(word: &str) -> Option<Act>
    ensures { result ≡ act_word word.now }
{
    match word {
        "keep" => Some(Act::Keep),
        "clear" => Some(Act::Clear),
        _ => None,
    }
}

/// The guard that has this name, with this value.
fn guard_member(alloc: Global, name: &str, value: &Value) -> Result<Option<Guard>, AllocError>
    ensures { IfOk result (λ guard. guard ≡ guard_member name.now (view value.now)) }
{
    match name {
        "version" => Ok(value.as_u64().map(Guard::VersionIs)),
        "below" => Ok(value.as_i64().map(Guard::NumberBelow)),
        "is" => Ok(text_in(alloc, value)?.map(Guard::TextIs)),
        _ => Ok(None),
    }
}

/// The act that has this name, with this value.
fn act_member(alloc: Global, name: &str, value: &Value) -> Result<Option<Act>, AllocError>
    ensures { IfOk result (λ act. act ≡ act_member name.now (view value.now)) }
{
    match name {
        "text" => Ok(text_in(alloc, value)?.map(Act::PutText)),
        "num" => Ok(value.as_i64().map(Act::PutNumber)),
        "add" => Ok(value.as_i64().map(Act::Add)),
        _ => Ok(None),
    }
}

/// The text that a value is: a string of at most 4,000 bytes.
fn text_in(alloc: Global, value: &Value) -> Result<Option<Text>, AllocError>
    ensures { IfOk result (λ text. text ≡ text_in (view value.now)) }
{
    match value.as_str() {
        Some(text) => if_text(alloc, text.as_bytes()),
        None => Ok(None),
    }
}

/// The text of these bytes, where they are not too many.
fn if_text(alloc: Global, bytes: &[u8]) -> Result<Option<Text>, AllocError>
    ensures { IfOk result (λ text. text ≡ if_text bytes.now) }
{
    match Text::read(alloc, bytes) {
        Ok(text) => Ok(Some(text)),
        Err(TextFault::TooLong) => Ok(None),
        Err(TextFault::NoMemory) => Err(AllocError),
    }
}

/// The name and the value of an object's only member.
fn only_member(value: &Value) -> Option<(&str, &Value)>
    ensures { option_map (λ only. (only.0.now, view only.1.now)) result
        ≡ only_member (view value.now) }
{
    let members = value.as_object()?;
    if members.len() != 1 {
        return None;
    }
    let (name, value) = members.first_key_value()?;
    Some((name.as_str(), value))
}

/// How many members an object has. Another value has none.
fn member_count(value: &Value) -> usize
    ensures { result ≡ member_count (view value.now) }
{
    match value.as_object() {
        Some(members) => members.len(),
        None => 0,
    }
}
