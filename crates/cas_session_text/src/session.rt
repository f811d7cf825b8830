//! What a register holds that serves numbered requests, and its text.

ghost use Rattle.std.specs.Prelude.{◌≡◌, ◌≤◌, length, ◌++◌, ◌∷◌, ℕ, List, true, IfOk, OnOk, OnErr, IfSome, IsTrue, MatchOption, string_bytes, not, ◌==◌, nat_lt};
ghost use Rattle.std.specs.Fmt.{signed_decimal};
ghost use Rattle.std.specs.List.{flat_map, prefix_len};
ghost use Rattle.cas_session_text.specs.declared.reply.LastReply.{LastReply};
ghost use Rattle.cas_session_text.specs.Contents.{SessionContents, IsLastReply, IsContents, reply_word, next_reply_text, contents_text, lacks, no_requests, reply_of, told_at, with_reply};

use crate::reply::{LastReply, MOST_CALLERS};
use cas_change_text::decimal::{read_i64, read_u64};
use cas_change_text::push_decimal;
use itoa::Buffer;
use std::alloc::{AllocError, Global};
use std::marker::Model;

/// What a register holds that serves numbered requests: a value, and what each caller was told last.
///
/// Its text is the value in decimal, then for each caller that was told something, callers rising, a space and
/// `<caller>:<number>:<reply>`. No number has a needless zero, and 0 has no minus.
#[derive(Debug, Drop)]
pub struct Session {
    value: i64,
    /// By rising callers.
    replies: Vec<LastReply>,
}

impl Model for Session {
    ghost use Rattle.cas_session_text.specs.Contents.{SessionContents, IsContents};

    ghost Value = { SessionContents };

    ghost view = { λ session. record { value = session.value; replies = session.replies.items } };

    ghost invariant = { λ session. IsContents (record { value = session.value; replies = session.replies.items }) };
}

impl Session {
    /// What an empty register stands for: the value 0, and no caller was told anything.
    pub fn new(alloc: Global) -> Session
        ensures { result ≡ no_requests }
    {
        Session {
            value: 0,
            replies: Vec::new(alloc),
        }
    }

    /// The value.
    pub fn value(&self) -> i64
        ensures { result ≡ self.now.value }
    {
        self.value
    }

    /// What the caller was told last, if it was told anything.
    pub fn last_reply(&self, caller: u8) -> Option<LastReply>
        ensures { result ≡ reply_of caller self.now.replies }
    {
        find_reply(&self.replies, caller)
    }

    /// Takes this for what its caller was told last, in place of what that was before.
    ///
    /// Only memory can fail, and then nothing changes.
    pub fn tell(&mut self, reply: LastReply) -> Result<(), AllocError>
        requires { IsLastReply reply }
        ensures told { OnOk result
            (self.new ≡ record self.old { replies = with_reply reply self.old.replies }) }
        ensures unchanged { OnErr result (self.new ≡ self.old) }
    {
        put_reply(&mut self.replies, reply)
    }

    /// Sets the value.
    pub fn set_value(&mut self, value: i64)
        ensures { self.new ≡ record self.old { value = value } }
    {
        self.value = value;
    }

    /// The text. Read again, it is the same session. Only memory can fail.
    pub fn print(&self, alloc: Global) -> Result<Vec<u8>, AllocError>
        ensures text { IfOk result (λ text. text.items ≡ contents_text self.now) }
        ensures lawful { IsContents self.now }
    {
        let mut text = String::new(alloc);
        push_signed(&mut text, self.value)?;
        push_replies(&mut text, &self.replies)?;
        Ok(text.into_bytes())
    }

    /// The session that this text tells. `Ok(None)` comes exactly where no session has this text. Only memory can fail.
    pub fn read(alloc: Global, text: &[u8]) -> Result<Option<Session>, AllocError>
        // What was read has this text, and is all that has it.
        ensures found { IfOk result (λ read. MatchOption read ((contents : SessionContents)
            → IsContents contents → contents_text contents ≡ text.now
            → ⊥) (λ session. IsContents session × (contents_text session ≡ text.now))) }
    {
        let Some(session) = read_loosely(alloc, text)? else {
            return Ok(None);
        };
        let printed = session.print(alloc)?;
        if printed.as_slice() == text {
            Ok(Some(session))
        } else {
            Ok(None)
        }
    }
}

/// Writes a number behind the text, in decimal.
fn push_signed(text: &mut String, number: i64) -> Result<(), AllocError>
    ensures { OnOk result (string_bytes text.new ≡ string_bytes text.old ++ signed_decimal number) }
{
    let mut digits = Buffer::new();
    text.push_str(digits.format(number))
}

/// Writes a space and what a caller was told last.
fn push_reply(text: &mut String, reply: LastReply) -> Result<(), AllocError>
    ensures { OnOk result (string_bytes text.new ≡ string_bytes text.old ++ next_reply_text reply) }
{
    text.push(' ')?;
    push_decimal(text, u64::from(reply.caller))?;
    text.push(':')?;
    push_decimal(text, reply.number)?;
    text.push(':')?;
    push_signed(text, reply.reply)
}

/// Writes what each caller was told last.
fn push_replies(text: &mut String, replies: &[LastReply]) -> Result<(), AllocError>
    ensures { OnOk result (string_bytes text.new ≡ string_bytes text.old
        ++ flat_map next_reply_text replies.now) }
{
    for reply in replies {
        push_reply(text, *reply)?;
    }
    Ok(())
}

/// Puts this in place of what its caller was told before, or behind those of all lesser callers.
fn put_reply(replies: &mut Vec<LastReply>, reply: LastReply) -> Result<(), AllocError>
    ensures told { OnOk result (replies.new.items ≡ with_reply reply replies.old.items) }
    ensures unchanged { OnErr result (replies.new.items ≡ replies.old.items) }
{
    let at = count_below(replies, reply.caller);
    if is_at(replies, at, reply.caller) {
        replies[at] = reply;
    } else {
        replies.insert(at, reply)?;
    }
    Ok(())
}

/// Whether the reply to this caller stands at that place.
fn is_at(replies: &[LastReply], at: usize, caller: u8) -> bool
    ensures { result ≡ told_at replies.now at caller }
{
    match replies.get(at) {
        Some(reply) => reply.caller == caller,
        None => false,
    }
}

/// How many of the first are of callers below this one.
fn count_below(replies: &[LastReply], caller: u8) -> usize
    ensures count { result ≡ prefix_len (λ reply. nat_lt reply.caller caller) replies.now }
    ensures within { result ≤ length replies.now }
{
    replies
        .iter()
        .take_while(|reply| reply.caller < caller)
        .count()
}

/// How many bytes stand before the first such byte.
fn count_before(bytes: &[u8], stop: u8) -> usize
    ensures count { result ≡ prefix_len (λ byte. not (byte == stop)) bytes.now }
    ensures within { result ≤ length bytes.now }
{
    bytes.iter().take_while(|byte| **byte != stop).count()
}

/// What stands before the first colon, and what behind it. Where there is none, nothing stands behind it.
fn split_at_colon(bytes: &[u8]) -> (&[u8], &[u8])
    ensures { (front back : List ℕ) → lacks 58 front ≡ true → front ++ 58 ∷ back ≡ bytes.now
        → (result.0.now ≡ front) × (result.1.now ≡ back) }
{
    let (front, rest) = bytes.split_at(count_before(bytes, b':'));
    let (_, back) = rest.split_at(rest.len().min(1));
    (front, back)
}

/// What a word tells that a caller was told last. The numbers may have needless zeros.
fn read_reply(word: &[u8]) -> Option<LastReply>
    ensures lawful { IfSome result IsLastReply }
    ensures again { (reply : LastReply) → IsLastReply reply → reply_word reply ≡ word.now
        → result ≡ Some reply }
{
    let (caller, rest) = split_at_colon(word);
    let (number, reply) = split_at_colon(rest);
    let caller = read_u64(caller)?;
    let number = read_u64(number)?;
    let reply = read_i64(reply)?;
    reply_by(caller, number, reply)
}

/// The reply that one word of a number each tells, where they are in range.
fn reply_by(caller: u64, number: u64, reply: i64) -> Option<LastReply>
    ensures lawful { IfSome result IsLastReply }
    ensures again { (told : LastReply) → IsLastReply told → told.caller ≡ caller
        → told.number ≡ number → told.reply ≡ reply → result ≡ Some told }
{
    if 1 <= caller && caller <= u64::from(MOST_CALLERS) && 1 <= number {
        Some(LastReply {
            caller: caller as u8,
            number,
            reply,
        })
    } else {
        None
    }
}

/// The first reply to this caller.
fn find_reply(replies: &[LastReply], caller: u8) -> Option<LastReply>
    ensures { result ≡ reply_of caller replies.now }
{
    match replies {
        [] => None,
        [first, others @ ..] => {
            if first.caller == caller {
                Some(*first)
            } else {
                find_reply(others, caller)
            }
        }
    }
}

/// Takes each word of this text, behind one byte each, for what a caller was told last. `Ok(false)` comes where that fails, and the
/// session may then have taken some. Only memory can fail.
fn tell_words(session: &mut Session, text: &[u8]) -> Result<bool, AllocError>
    ensures { IfOk result (λ all. (replies : List LastReply)
        → flat_map next_reply_text replies ≡ text.now
        → IsContents (record session.old { replies = session.old.replies ++ replies }) → IsTrue all
        × (session.new ≡ record session.old { replies = session.old.replies ++ replies })) }
{
    let mut rest = text;
    while !rest.is_empty() {
        let (_, words) = rest.split_at(1);
        let (word, behind) = words.split_at(count_before(words, b' '));
        let Some(reply) = read_reply(word) else {
            return Ok(false);
        };
        session.tell(reply)?;
        rest = behind;
    }
    Ok(true)
}

/// The session that this text tells, where its numbers may have needless zeros and its callers may stand in any order. The text of a
/// session is read as that session.
fn read_loosely(alloc: Global, text: &[u8]) -> Result<Option<Session>, AllocError>
    ensures { IfOk result (λ read. (contents : SessionContents) → IsContents contents
        → contents_text contents ≡ text.now
        → read ≡ Some contents) }
{
    let (value, words) = text.split_at(count_before(text, b' '));
    let Some(value) = read_i64(value) else {
        return Ok(None);
    };
    let mut session = Session::new(alloc);
    session.set_value(value);
    if tell_words(&mut session, words)? {
        Ok(Some(session))
    } else {
        Ok(None)
    }
}
