//! Programs and states, read word by word.

ghost use Rattle.std.specs.Prelude.{List, ◌≡◌, ◌≢◌, ◌+◌, ◌∷◌, ◌++◌, [], Ok, Err, IfOk, IfErr, OnOk, MatchResult, vec_len};
ghost use Rattle.cas_change.specs.Program.{IsProgramLength};
ghost use Rattle.cas_change_text.specs.Reading.{Reads, ReadsInMemory, GivesInMemory, word_at, version_at, number_at, text_at, guard_at, guard_of, act_at, act_of, clause_at, semicolon_at, clauses_at, program_at, end_at};
ghost use Rattle.cas_change_text.specs.Grammar.{IsProgram};
ghost use Rattle.cas_change_text.specs.Misfit.{AreClauses, AreProgram, IsFirstMisfit};
ghost use Rattle.cas_change_text.specs.Words.{words_of, all_of};
ghost use Rattle.cas_change.specs.declared.program.Clause.{Clause};

use crate::decimal::{read_i64, read_u64};
use crate::escapes::text_in;
use crate::names::{ActName, GuardName, act_name, guard_name, says};
use crate::refusal::{TextRefusal, Why};
use crate::words::Words;
use cas_change::{Act, Clause, Guard, MOST_CLAUSES, Program, Text};
use std::alloc::{AllocFailed, Global};

/// The next word. A refusal says that there is none.
pub fn next_word<'a>(words: &mut Words<'a>) -> Result<&'a [u8], TextRefusal>
    ensures { MatchResult result (λ word. word_at words.old ≡ Ok (word.now, words.new))
        (λ refusal. word_at words.old ≡ Err refusal) }
{
    match words.next() {
        Some(word) => Ok(word),
        None => Err(TextRefusal {
            why: Why::NoWord,
            word: words.taken(),
        }),
    }
}

/// Nothing, where no word is left. A word that is left is the refusal: it is one too many.
pub fn read_end(words: &mut Words<'_>) -> Result<(), TextRefusal>
    ensures { MatchResult result
        (λ _. words.old.words ≡ []) (λ refusal. end_at words.old ≡ Err refusal) }
{
    let at = words.taken();
    match words.next() {
        None => Ok(()),
        Some(_) => Err(TextRefusal {
            why: Why::UnknownWord,
            word: at,
        }),
    }
}

/// The unsigned number that the next word says.
#[tactic(auto, unfolding(crate::specs::Reading::version_at))]
pub fn read_version(words: &mut Words<'_>) -> Result<u64, TextRefusal>
    ensures { Reads result words.new (version_at words.old) }
{
    let at = words.taken();
    let word = next_word(words)?;
    match read_u64(word) {
        Some(version) => Ok(version),
        None => Err(TextRefusal {
            why: Why::BadNumber,
            word: at,
        }),
    }
}

/// The signed number that the next word says.
#[tactic(auto, unfolding(crate::specs::Reading::number_at))]
pub fn read_number(words: &mut Words<'_>) -> Result<i64, TextRefusal>
    ensures { Reads result words.new (number_at words.old) }
{
    let at = words.taken();
    let word = next_word(words)?;
    match read_i64(word) {
        Some(number) => Ok(number),
        None => Err(TextRefusal {
            why: Why::BadNumber,
            word: at,
        }),
    }
}

/// The text that the next word spells.
#[tactic(auto, unfolding(crate::specs::Reading::text_at))]
pub fn read_text(alloc: Global, words: &mut Words<'_>) -> Result<Text, TextRefusal>
    ensures { ReadsInMemory result words.new (text_at words.old) }
{
    let at = words.taken();
    let word = next_word(words)?;
    text_in(alloc, at, word)
}

/// The guard that the next words say.
#[tactic(auto, unfolding(crate::specs::Reading::guard_at))]
fn read_guard(alloc: Global, words: &mut Words<'_>) -> Result<Guard, TextRefusal>
    ensures { ReadsInMemory result words.new (guard_at words.old) }
{
    let at = words.taken();
    let word = next_word(words)?;
    match guard_name(word) {
        Some(name) => read_guard_of(alloc, name, words),
        None => Err(TextRefusal {
            why: Why::UnknownWord,
            word: at,
        }),
    }
}

/// The guard of this name, by what follows the name.
#[tactic(auto, unfolding(crate::specs::Reading::guard_of))]
fn read_guard_of(
    alloc: Global,
    name: GuardName,
    words: &mut Words<'_>,
) -> Result<Guard, TextRefusal>
    ensures { ReadsInMemory result words.new (guard_of name words.old) }
{
    match name {
        GuardName::Always => Ok(Guard::Always),
        GuardName::Empty => Ok(Guard::IsEmpty),
        GuardName::Version => Ok(Guard::VersionIs(read_version(words)?)),
        GuardName::Below => Ok(Guard::NumberBelow(read_number(words)?)),
        GuardName::Is => Ok(Guard::TextIs(read_text(alloc, words)?)),
    }
}

/// The act that the next words say.
#[tactic(auto, unfolding(crate::specs::Reading::act_at))]
fn read_act(alloc: Global, words: &mut Words<'_>) -> Result<Act, TextRefusal>
    ensures { ReadsInMemory result words.new (act_at words.old) }
{
    let at = words.taken();
    let word = next_word(words)?;
    match act_name(word) {
        Some(name) => read_act_of(alloc, name, words),
        None => Err(TextRefusal {
            why: Why::UnknownWord,
            word: at,
        }),
    }
}

/// The act of this name, by what follows the name.
#[tactic(auto, unfolding(crate::specs::Reading::act_of))]
fn read_act_of(alloc: Global, name: ActName, words: &mut Words<'_>) -> Result<Act, TextRefusal>
    ensures { ReadsInMemory result words.new (act_of name words.old) }
{
    match name {
        ActName::Keep => Ok(Act::Keep),
        ActName::Text => Ok(Act::PutText(read_text(alloc, words)?)),
        ActName::Num => Ok(Act::PutNumber(read_number(words)?)),
        ActName::Add => Ok(Act::Add(read_number(words)?)),
        ActName::Clear => Ok(Act::Clear),
    }
}

/// The clause that the next words say.
#[tactic(auto, unfolding(crate::specs::Reading::clause_at))]
fn read_clause(alloc: Global, words: &mut Words<'_>) -> Result<Clause, TextRefusal>
    ensures { ReadsInMemory result words.new (clause_at words.old) }
{
    let guard = read_guard(alloc, words)?;
    let act = read_act(alloc, words)?;
    Ok(Clause { guard, act })
}

/// Whether a clause follows: a semicolon says that it does, and the end that none does.
fn read_semicolon(words: &mut Words<'_>) -> Result<bool, TextRefusal>
    ensures { Reads result words.new (semicolon_at words.old) }
{
    let at = words.taken();
    let Some(word) = words.next() else {
        return Ok(false);
    };
    if says(word, ";") {
        Ok(true)
    } else {
        Err(TextRefusal {
            why: Why::UnknownWord,
            word: at,
        })
    }
}

/// The clauses that all words that are left say.
fn read_clauses(alloc: Global, words: &mut Words<'_>) -> Result<Vec<Clause>, TextRefusal>
    ensures clauses { MatchResult result (λ clauses. program_at words.old ≡ Ok clauses.items)
        (λ refusal. refusal.why ≢ Why.NoMemory → program_at words.old ≡ Err refusal) }
    ensures count { IfOk result (λ clauses. IsProgramLength (vec_len clauses)) }
{
    let mut clauses = Vec::new(alloc);
    for _clause in 0..MOST_CLAUSES {
        let clause = read_clause(alloc, words)?;
        push_clause(&mut clauses, clause)?;
        if !read_semicolon(words)? {
            return Ok(clauses);
        }
    }
    Err(too_many(words))
}

/// Adds a clause at the end.
fn push_clause(clauses: &mut Vec<Clause>, clause: Clause) -> Result<(), TextRefusal>
    ensures ok { OnOk result (clauses.new.items ≡ clauses.old.items ++ clause ∷ []) }
    ensures len { OnOk result (vec_len clauses.new ≡ vec_len clauses.old + 1) }
    ensures err { IfErr result (λ refusal. refusal.why ≡ Why.NoMemory) }
{
    match clauses.push(clause) {
        Ok(()) => Ok(()),
        Err(AllocFailed { .. }) => Err(TextRefusal {
            why: Why::NoMemory,
            word: 0,
        }),
    }
}

/// The refusal where one clause too many begins, or a word is missing there.
#[tactic(auto, unfolding(crate::specs::Reading::clauses_at))]
fn too_many(words: &mut Words<'_>) -> TextRefusal
    ensures { clauses_at 0 words.old ≡ Err result }
{
    let at = words.taken();
    let why = match words.next() {
        Some(_) => Why::TooManyClauses,
        None => Why::NoWord,
    };
    TextRefusal { why, word: at }
}

/// The program that all words that are left say.
pub fn program_in(alloc: Global, words: &mut Words<'_>) -> Result<Program, TextRefusal>
    ensures { GivesInMemory result (program_at words.old) }
{
    match Program::new(read_clauses(alloc, words)?) {
        Ok(program) => Ok(program),
        Err(_) => unreachable!(),
    }
}

/// The program that a text says, word by word.
///
/// A text of the grammar is refused for want of memory alone. Any other is refused at the first word that does not fit.
pub fn read_program(alloc: Global, text: &[u8]) -> Result<Program, TextRefusal>
    // What is read is what the words say.
    ensures found { IfOk result (λ program. IsProgram (words_of text.now) program) }
    // What the words say is read, unless memory runs out.
    ensures only { (program : List Clause) → IsProgram (words_of text.now) program
        → MatchResult result (λ read. read ≡ program) (λ refusal. refusal.why ≡ Why.NoMemory) }
    // A refusal names the first word that does not fit.
    ensures first { IfErr result (λ refusal. refusal.why ≢ Why.NoMemory
        → IsFirstMisfit AreClauses AreProgram (words_of text.now) refusal.word) }
    // Which refusal it is, word by word.
    ensures exact { GivesInMemory result (program_at (all_of (words_of text.now))) }
{
    program_in(alloc, &mut Words::of(text))
}
