//! The names with which marks and the parts of them begin.

ghost use Rattle.std.specs.Prelude.{◌≡◌};
ghost use Rattle.cas_audit.specs.Spelling.Reading.{mark_name, stop_name, cause_name, took_name, asked_name, told_name, harm_name};

use cas_change_text::says;

/// The first word of a mark.
#[derive(Clone, Copy, Debug, PartialEq, Eq)]
pub enum MarkName {
    Begun,
    Proposed,
    Voted,
    Acked,
    Floor,
    Entered,
    Ended,
    Harmed,
    Told,
}

/// The mark that a word begins.
pub fn mark_name(word: &[u8]) -> Option<MarkName>
    ensures { result ≡ mark_name word.now }
{
    if says(word, "begun") {
        Some(MarkName::Begun)
    } else if says(word, "proposed") {
        Some(MarkName::Proposed)
    } else if says(word, "voted") {
        Some(MarkName::Voted)
    } else if says(word, "acked") {
        Some(MarkName::Acked)
    } else if says(word, "floor") {
        Some(MarkName::Floor)
    } else if says(word, "entered") {
        Some(MarkName::Entered)
    } else if says(word, "ended") {
        Some(MarkName::Ended)
    } else if says(word, "harmed") {
        Some(MarkName::Harmed)
    } else if says(word, "told") {
        Some(MarkName::Told)
    } else {
        None
    }
}

/// The first word of an answer that does not tell that a change is done.
#[derive(Clone, Copy, Debug, PartialEq, Eq)]
pub enum StopName {
    Conflict,
    Aged,
    Full,
    Short,
    Moved,
    Crashed,
    Unsettled,
    Down,
    Vault,
    Spent,
    Record,
    No,
}

/// The answer, but for that a change is done, that a word begins.
pub fn stop_name(word: &[u8]) -> Option<StopName>
    ensures { result ≡ stop_name word.now }
{
    if says(word, "conflict") {
        Some(StopName::Conflict)
    } else if says(word, "aged") {
        Some(StopName::Aged)
    } else if says(word, "full") {
        Some(StopName::Full)
    } else if says(word, "short") {
        Some(StopName::Short)
    } else if says(word, "moved") {
        Some(StopName::Moved)
    } else if says(word, "crashed") {
        Some(StopName::Crashed)
    } else if says(word, "unsettled") {
        Some(StopName::Unsettled)
    } else if says(word, "down") {
        Some(StopName::Down)
    } else if says(word, "vault") {
        Some(StopName::Vault)
    } else if says(word, "spent") {
        Some(StopName::Spent)
    } else if says(word, "record") {
        Some(StopName::Record)
    } else if says(word, "no") {
        Some(StopName::No)
    } else {
        None
    }
}

/// The first word of why a change is unsettled.
#[derive(Clone, Copy, Debug, PartialEq, Eq)]
pub enum CauseName {
    Met,
    Aged,
    Full,
    Short,
    Moved,
    Crashed,
}

/// The cause that a word begins.
pub fn cause_name(word: &[u8]) -> Option<CauseName>
    ensures { result ≡ cause_name word.now }
{
    if says(word, "met") {
        Some(CauseName::Met)
    } else if says(word, "aged") {
        Some(CauseName::Aged)
    } else if says(word, "full") {
        Some(CauseName::Full)
    } else if says(word, "short") {
        Some(CauseName::Short)
    } else if says(word, "moved") {
        Some(CauseName::Moved)
    } else if says(word, "crashed") {
        Some(CauseName::Crashed)
    } else {
        None
    }
}

/// The first word of which clause acted.
#[derive(Clone, Copy, Debug, PartialEq, Eq)]
pub enum TookName {
    Clause,
    No,
    Unfit,
}

/// What a word begins to tell of the clauses.
pub fn took_name(word: &[u8]) -> Option<TookName>
    ensures { result ≡ took_name word.now }
{
    if says(word, "clause") {
        Some(TookName::Clause)
    } else if says(word, "no") {
        Some(TookName::No)
    } else if says(word, "unfit") {
        Some(TookName::Unfit)
    } else {
        None
    }
}

/// The first word of what an operator asked for.
#[derive(Clone, Copy, Debug, PartialEq, Eq)]
pub enum AskedName {
    Join,
    Leave,
    Collect,
    Probe,
    Resize,
    Read,
}

/// What a word begins that an operator asked for.
pub fn asked_name(word: &[u8]) -> Option<AskedName>
    ensures { result ≡ asked_name word.now }
{
    if says(word, "join") {
        Some(AskedName::Join)
    } else if says(word, "leave") {
        Some(AskedName::Leave)
    } else if says(word, "collect") {
        Some(AskedName::Collect)
    } else if says(word, "probe") {
        Some(AskedName::Probe)
    } else if says(word, "resize") {
        Some(AskedName::Resize)
    } else if says(word, "read") {
        Some(AskedName::Read)
    } else {
        None
    }
}

/// The first word of an answer that an operator alone is told.
#[derive(Clone, Copy, Debug, PartialEq, Eq)]
pub enum ToldName {
    Joined,
    Left,
    Resized,
    Already,
    Not,
    Id,
    Too,
    Last,
    Bad,
    Busy,
    Collected,
    Absent,
    Proposer,
}

/// The operator's answer that a word begins.
pub fn told_name(word: &[u8]) -> Option<ToldName>
    ensures { result ≡ told_name word.now }
{
    if says(word, "joined") {
        Some(ToldName::Joined)
    } else if says(word, "left") {
        Some(ToldName::Left)
    } else if says(word, "resized") {
        Some(ToldName::Resized)
    } else if says(word, "already") {
        Some(ToldName::Already)
    } else if says(word, "not") {
        Some(ToldName::Not)
    } else if says(word, "id") {
        Some(ToldName::Id)
    } else if says(word, "too") {
        Some(ToldName::Too)
    } else if says(word, "last") {
        Some(ToldName::Last)
    } else if says(word, "bad") {
        Some(ToldName::Bad)
    } else if says(word, "busy") {
        Some(ToldName::Busy)
    } else if says(word, "collected") {
        Some(ToldName::Collected)
    } else if says(word, "absent") {
        Some(ToldName::Absent)
    } else if says(word, "proposer") {
        Some(ToldName::Proposer)
    } else {
        None
    }
}

/// Whether the word tells that a harmed frame's acceptor was down (`down`) or not (`fate`).
pub fn harm_name(word: &[u8]) -> Option<bool>
    ensures { result ≡ harm_name word.now }
{
    if says(word, "fate") {
        Some(false)
    } else if says(word, "down") {
        Some(true)
    } else {
        None
    }
}
