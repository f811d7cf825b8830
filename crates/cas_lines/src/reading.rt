//! Reading lines as commands.
//!
//! A line is read word by word, and refused at the first word that does not fit. Its first word decides of which kind it
//! is: a number is the caller of a change, `op` is an operator's, and another name is that of an event.

ghost use Rattle.std.specs.Prelude.{◌≡◌, ◌≢◌, ◌≤◌, length, Option, Some, None, Ok, Err, IfOk, IfErr, IfSome, MatchResult};
ghost use Rattle.cas_change_text.specs.Misfit.{IsFirstMisfit};
ghost use Rattle.cas_change_text.specs.Reading.{Reads, GivesInMemory};
ghost use Rattle.cas_change_text.specs.Words.{words_of};
ghost use Rattle.cas_lines.specs.Command.{AreCommand, AreUnlimited, IsKnown, IsLine, asks_nobody, is_event, is_remark};
ghost use Rattle.cas_lines.specs.Reading.{begins_with_digit, head_in, head_at, command_behind, command_at, words_in, line_in};
ghost use Rattle.cas_lines.specs.declared.command.Command.{Command};

use crate::changes::change_in;
use crate::command::Command;
use crate::events::{EventName, event_in, event_name};
use crate::operator::op_in;
use crate::parts::within;
use cas_change_text::decimal::read_u64;
use cas_change_text::{TextRefusal, Why, Words, next_word, says};
use std::alloc::Global;

/// How many bytes a line may have that is read as a command.
pub const LONGEST_LINE: usize = 16_384;

/// What the first word of a line says.
#[derive(Clone, Copy, Debug, PartialEq, Eq)]
pub enum LineHead {
    /// The line is a change of this caller.
    Caller(u8),
    /// The line is an operator's.
    Operator,
    /// The line is an event.
    Event(EventName),
}

/// Whether the first byte is a decimal digit.
fn begins_with_digit(word: &[u8]) -> bool
    ensures { result ≡ begins_with_digit word.now }
{
    match word {
        [byte, ..] => byte.is_ascii_digit(),
        [] => false,
    }
}

/// What a first word says, which stands at this place.
#[tactic(auto, unfolding(crate::specs::Reading::head_in))]
fn head_in(proposers: u8, at: usize, word: &[u8]) -> Result<LineHead, TextRefusal>
    ensures { result ≡ head_in proposers at word.now }
{
    if begins_with_digit(word) {
        return match within(1, proposers, read_u64(word)) {
            Some(caller) => Ok(LineHead::Caller(caller)),
            None => Err(TextRefusal {
                why: Why::BadNumber,
                word: at,
            }),
        };
    }
    if says(word, "op") {
        return Ok(LineHead::Operator);
    }
    match event_name(word) {
        Some(name) => Ok(LineHead::Event(name)),
        None => Err(TextRefusal {
            why: Why::UnknownWord,
            word: at,
        }),
    }
}

/// What the first word says.
#[tactic(auto, unfolding(crate::specs::Reading::head_at))]
fn read_head(proposers: u8, words: &mut Words<'_>) -> Result<LineHead, TextRefusal>
    ensures { Reads result words.new (head_at proposers words.old) }
{
    let at = words.taken();
    let word = next_word(words)?;
    head_in(proposers, at, word)
}

/// The command that all words behind the first say.
fn command_behind(
    alloc: Global,
    proposers: u8,
    head: LineHead,
    words: &mut Words<'_>,
) -> Result<Command, TextRefusal>
    ensures { GivesInMemory result (command_behind proposers head words.old) }
{
    match head {
        LineHead::Caller(caller) => change_in(alloc, caller, words),
        LineHead::Operator => op_in(alloc, words),
        LineHead::Event(name) => event_in(alloc, name, proposers, words),
    }
}

/// The command that all words that are left say.
#[tactic(auto, unfolding(crate::specs::Reading::command_at))]
fn command_in(alloc: Global, proposers: u8, words: &mut Words<'_>) -> Result<Command, TextRefusal>
    ensures { GivesInMemory result (command_at proposers words.old) }
{
    let head = read_head(proposers, words)?;
    command_behind(alloc, proposers, head, words)
}

/// Whether a line has no word, or a first word that begins with a number sign.
fn is_remark(line: &[u8]) -> bool
    ensures { result ≡ is_remark (words_of line.now) }
{
    match Words::of(line).next() {
        Some([b'#', ..]) => true,
        Some(_) => false,
        None => true,
    }
}

/// Whether a line is an event's: whether its first word is `net`, `crash`, `restart`, `halt`, `stray` or `show`, whatever follows.
pub fn is_event(line: &[u8]) -> bool
    ensures { result ≡ is_event (words_of line.now) }
{
    match Words::of(line).next() {
        Some(word) => event_name(word).is_some(),
        None => false,
    }
}

/// What the words of a line ask for, and nothing where it is a remark.
#[tactic(auto, unfolding(crate::specs::Reading::words_in))]
fn words_in(alloc: Global, line: &[u8], proposers: u8) -> Result<Option<Command>, TextRefusal>
    ensures { GivesInMemory result (words_in proposers (words_of line.now)) }
{
    if is_remark(line) {
        return Ok(None);
    }
    match command_in(alloc, proposers, &mut Words::of(line)) {
        Ok(command) => Ok(Some(command)),
        Err(refusal) => Err(refusal),
    }
}

/// What a line asks for, and nothing where it is a remark.
#[tactic(auto, unfolding(crate::specs::Reading::line_in))]
fn line_in(alloc: Global, line: &[u8], proposers: u8) -> Result<Option<Command>, TextRefusal>
    ensures { GivesInMemory result (line_in proposers line.now) }
{
    if line.len() > LONGEST_LINE {
        return Err(TextRefusal {
            why: Why::TooLong,
            word: 0,
        });
    }
    words_in(alloc, line, proposers)
}

/// What a line asks for, and nothing where it is a remark: a line without a word, or whose first word begins with `#`.
///
/// The line stands without its ending. A caller is 1 to `proposers`, a proposer 0 to `proposers`, and an acceptor 0 to 63. A line of the forms is refused for want of memory
/// alone. Any other is refused at the first word that does not fit, and one of more than 16,384 bytes before all else, at
/// word 0.
pub fn read_command(
    alloc: Global,
    line: &[u8],
    proposers: u8,
) -> Result<Option<Command>, TextRefusal>
    // What is read is what the line says.
    ensures found { IfOk result (λ read. IsLine proposers line.now read) }
    // What the line says is read, unless memory runs out.
    ensures only { (said : Option Command) → IsLine proposers line.now said
        → MatchResult result (λ read. read ≡ said) (λ refusal. refusal.why ≡ Why.NoMemory) }
    // What is read is within its limits.
    ensures known { IfOk result (λ read. IfSome read (IsKnown proposers)) }
    // What is read is an event where the first word is an event's, and nowhere else.
    ensures event { IfOk result
        (λ read. IfSome read (λ command. asks_nobody command ≡ is_event (words_of line.now))) }
    // A line whose length fits is refused at the first word with which it begins no command.
    ensures first { length line.now ≤ LONGEST_LINE → IfErr result
        (λ refusal. refusal.why ≢ Why.NoMemory → IsFirstMisfit (AreUnlimited proposers)
        (AreCommand proposers) (words_of line.now) refusal.word) }
    // Which refusal it is, word by word.
    ensures exact { GivesInMemory result (line_in proposers line.now) }
{
    line_in(alloc, line, proposers)
}
