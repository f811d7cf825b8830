//! The frames of replies.

ghost use Rattle.std.specs.Prelude.{◌≡◌, ℕ, ◌+◌, ◌≤◌, List, [], ◌++◌, length, Some, IfOk, IfSome, vec_len, vec_capacity};
ghost use Rattle.std.specs.Option.{option_copied};
ghost use Rattle.cas_slot.specs.declared.message.Reply.{Reply};
ghost use Rattle.cas_slot.specs.Slots.{is_above};
ghost use Rattle.cas_slot.specs.Limits.{CanBeListed, TellFits};
ghost use Rattle.cas_slot.specs.Slots.{rises};
ghost use Rattle.cas_wire.specs.Frame.{IsReplyFrame, CanBeTold, FitsListing, FitsTell, FitsReply, listing_spelling, tell_spelling, reply_spelling};
ghost use Rattle.cas_wire.specs.FrameReading.{is_count, is_listing, list_at, named_at, keys_at, listing_at, tell_at, reply_head_at, reply_at};
ghost use Rattle.cas_wire.specs.Kinds.{kinds, flags};
ghost use Rattle.cas_wire.specs.Part.{Gives};
ghost use Rattle.cas_wire.specs.Reading.{byte_where, key_at};
ghost use Rattle.cas_wire.specs.Writing.{Puts};

use crate::frame::{FORMAT, LONGEST_FRAME, acceptor_at, format_at, phase_at, whole};
use crate::kinds::{self, TellKind};
use crate::reading::{self, ReadError, wrong};
use crate::writing;
use cas_ballot::{AcceptorId, Ballot};
use cas_change::Key;
use cas_slot::{MOST_KEYS, Page, Phase, Reply, Tell};
use std::alloc::{AllocError, Global};

/// What stands before the answer.
#[derive(Drop)]
struct ReplyHead {
    kind: TellKind,
    from: AcceptorId,
    to: u8,
    phase: Phase,
    tag: Ballot,
}

/// What a listing tells.
#[derive(Drop)]
struct Listing {
    after: Option<Key>,
    keys: Page,
    more: bool,
}

/// The kind of a reply.
fn kind_at(bytes: &[u8]) -> Result<(TellKind, &[u8]), ReadError>
    ensures { Gives (λ x. (x.0, x.1.now)) result (named_at kinds bytes.now) }
{
    match bytes {
        [] => wrong(0),
        [byte, rest @ ..] => match kinds::kind_named(*byte) {
            Some(kind) => Ok((kind, rest)),
            None => wrong(bytes.len()),
        },
    }
}

fn flag_at(bytes: &[u8]) -> Result<(bool, &[u8]), ReadError>
    ensures { Gives (λ x. (x.0, x.1.now)) result (named_at flags bytes.now) }
{
    match bytes {
        [] => wrong(0),
        [byte, rest @ ..] => match kinds::flag_named(*byte) {
            Some(flag) => Ok((flag, rest)),
            None => wrong(bytes.len()),
        },
    }
}

fn is_above(after: Option<&Key>, key: &Key) -> bool
    ensures { result ≡ is_above (option_copied after.entry) key.now }
{
    match after {
        Some(after) => after < key,
        None => true,
    }
}

/// Whether each key is above the one before it, and the first above this one.
fn rises(after: Option<&Key>, keys: &[Key]) -> bool
    ensures { result ≡ rises (option_copied after.entry) keys.now }
{
    match keys {
        [] => true,
        [key, rest @ ..] => is_above(after, key) && rises(Some(key), rest),
    }
}

fn count_at(bytes: &[u8]) -> Result<(u8, &[u8]), ReadError>
    ensures { Gives (λ x. (x.0, x.1.now)) result (byte_where is_count bytes.now) }
{
    match bytes {
        [] => wrong(0),
        [count, rest @ ..] if *count <= 4 => Ok((*count, rest)),
        [_, ..] => wrong(bytes.len()),
    }
}

/// So many keys.
fn some_keys_at(alloc: Global, count: u8, bytes: &[u8]) -> Result<(Vec<Key>, &[u8]), ReadError>
    ensures { Gives (λ x. (x.0.items, x.1.now)) result (list_at key_at count bytes.now) }
{
    let mut keys = Vec::new(alloc);
    let mut rest = bytes;
    for _ in 0..count {
        let (key, after) = reading::key_at(alloc, rest, None)?;
        keys.push(key)?;
        rest = after;
    }
    Ok((keys, rest))
}

/// At most four keys, behind their number.
#[tactic(auto, unfolding(crate::specs::FrameReading::keys_at))]
fn keys_at(alloc: Global, bytes: &[u8]) -> Result<(Page, &[u8]), ReadError>
    ensures { Gives (λ x. (x.0, x.1.now)) result (keys_at bytes.now) }
{
    let (count, rest) = count_at(bytes)?;
    let (keys, rest) = some_keys_at(alloc, count, rest)?;
    Ok((Page::new(keys), rest))
}

fn is_listing(after: Option<&Key>, keys: &[Key], more: bool) -> bool
    ensures { result ≡ is_listing (option_copied after.entry, (keys.now, more)) }
{
    rises(after, keys) && (!more || keys.len() == MOST_KEYS)
}

#[tactic(auto, unfolding(crate::specs::FrameReading::listing_at))]
fn listing_at(alloc: Global, bytes: &[u8]) -> Result<(Listing, &[u8]), ReadError>
    ensures { Gives (λ x. ((x.0.after, (x.0.keys, x.0.more)), x.1.now)) result
        (listing_at bytes.now) }
{
    let (after, rest) = reading::key_or_none_at(alloc, bytes)?;
    let (keys, rest) = keys_at(alloc, rest)?;
    let (more, rest) = flag_at(rest)?;
    if is_listing(after.as_ref(), keys.keys(), more) {
        Ok((Listing { after, keys, more }, rest))
    } else {
        wrong(bytes.len())
    }
}

/// The answer of that kind.
#[tactic(auto, unfolding(crate::specs::FrameReading::tell_at))]
fn tell_at(alloc: Global, kind: TellKind, bytes: &[u8]) -> Result<(Tell, &[u8]), ReadError>
    ensures { Gives (λ x. (x.0, x.1.now)) result (tell_at kind bytes.now) }
{
    match kind {
        TellKind::Promised => {
            let (accepted, rest) = reading::accepted_or_none_at(alloc, bytes)?;
            Ok((Tell::Promised { accepted }, rest))
        }
        TellKind::Accepted => Ok((Tell::Accepted, bytes)),
        TellKind::Met => {
            let (ballot, rest) = reading::ballot_at(bytes)?;
            Ok((Tell::Met(ballot), rest))
        }
        TellKind::Aged => {
            let (least, rest) = reading::u64_at(bytes)?;
            Ok((Tell::Aged(least), rest))
        }
        TellKind::Full => Ok((Tell::Full, bytes)),
        TellKind::AgesSet => Ok((Tell::AgesSet, bytes)),
        TellKind::Removed => Ok((Tell::Removed, bytes)),
        TellKind::Kept => Ok((Tell::Kept, bytes)),
        TellKind::Listed => {
            let (listing, rest) = listing_at(alloc, bytes)?;
            let Listing { after, keys, more } = listing;
            Ok((Tell::Listed { after, keys, more }, rest))
        }
        TellKind::Probed => {
            let (promise, rest) = reading::ballot_at(bytes)?;
            let (accepted, rest) = reading::accepted_or_none_at(alloc, rest)?;
            Ok((Tell::Probed { promise, accepted }, rest))
        }
    }
}

#[tactic(auto, unfolding(crate::specs::FrameReading::reply_head_at))]
fn reply_head_at(bytes: &[u8]) -> Result<(ReplyHead, &[u8]), ReadError>
    ensures { Gives (λ x. (x.0, x.1.now)) result (reply_head_at bytes.now) }
{
    let (_, rest) = format_at(bytes)?;
    let (kind, rest) = kind_at(rest)?;
    let (from, rest) = match acceptor_at(rest) {
        Ok(found) => found,
        Err(error) => return Err(error),
    };
    let (to, rest) = reading::proposer_at(rest)?;
    let (phase, rest) = phase_at(rest)?;
    let (tag, rest) = reading::ballot_at(rest)?;
    if !kinds::may_get(phase, kind) {
        return wrong(bytes.len());
    }
    let head = ReplyHead {
        kind,
        from,
        to,
        phase,
        tag,
    };
    Ok((head, rest))
}

#[tactic(auto, unfolding(crate::specs::FrameReading::reply_at))]
fn reply_at(alloc: Global, bytes: &[u8]) -> Result<(Reply, &[u8]), ReadError>
    ensures { Gives (λ x. (x.0, x.1.now)) result (reply_at bytes.now) }
{
    let (head, rest) = match reply_head_at(bytes) {
        Ok(found) => found,
        Err(error) => return Err(error),
    };
    let (tell, rest) = tell_at(alloc, head.kind, rest)?;
    let reply = Reply {
        from: head.from,
        to: head.to,
        phase: head.phase,
        tag: head.tag,
        tell,
    };
    Ok((reply, rest))
}

/// The reply whose frame these bytes are. `None` comes exactly where they are no reply's frame.
pub fn decode_reply(alloc: Global, bytes: &[u8]) -> Result<Option<Reply>, AllocError>
    ensures found { IfOk result (λ found. IfSome found (IsReplyFrame bytes.now)) }
    ensures only { (reply : Reply)
        → IsReplyFrame bytes.now reply → IfOk result (λ found. found ≡ Some reply) }
{
    match reply_at(alloc, bytes) {
        Ok((reply, rest)) => Ok(whole(reply, rest)),
        Err(ReadError::Wrong { .. }) => Ok(None),
        Err(ReadError::NoMemory) => Err(AllocError),
    }
}

#[tactic(auto, unfolding(crate::specs::Frame::listing_spelling))]
fn put_listing(out: &mut Vec<u8>, after: Option<&Key>, keys: &[Key], more: bool)
    requires room { vec_len out.old + 328 ≤ vec_capacity out.old }
    requires few { length keys.now ≤ 4 }
    requires listed { CanBeListed (option_copied after) keys.now more }
    ensures spelling { Puts out.old out.new
        (listing_spelling (option_copied after.entry) keys.now more) 328 }
    ensures fits { FitsListing (option_copied after.entry) keys.now more }
{
    writing::put_key_or_none(out, after);
    writing::put_byte(out, keys.len() as u8);
    writing::put_keys(out, keys);
    writing::put_byte(out, u8::from(more));
}

#[tactic(auto, using(crate::proofs::Rooms::accepted_small), unfolding(crate::specs::Frame::tell_spelling))]
fn put_tell(out: &mut Vec<u8>, tell: &Tell)
    requires room { vec_len out.old + 4040 ≤ vec_capacity out.old }
    requires tell { TellFits tell.now }
    ensures spelling { Puts out.old out.new (tell_spelling tell.now) 4040 }
    ensures fits { FitsTell tell.now }
{
    match tell {
        Tell::Promised { accepted } => writing::put_accepted_or_none(out, accepted.as_ref()),
        Tell::Met(ballot) => writing::put_ballot(out, *ballot),
        Tell::Aged(least) => writing::put_u64(out, *least),
        Tell::Accepted | Tell::Full | Tell::AgesSet | Tell::Removed | Tell::Kept => {}
        Tell::Listed { after, keys, more } => {
            put_listing(out, after.as_ref(), keys.keys(), *more);
        }
        Tell::Probed { promise, accepted } => {
            writing::put_ballot(out, *promise);
            writing::put_accepted_or_none(out, accepted.as_ref());
        }
    }
}

#[tactic(auto, unfolding(crate::specs::Frame::reply_spelling))]
fn put_reply(out: &mut Vec<u8>, reply: &Reply)
    requires room { vec_len out.old + 4054 ≤ vec_capacity out.old }
    requires told { CanBeTold reply.now }
    ensures spelling { Puts out.old out.new (reply_spelling reply.now) 4054 }
    ensures fits { FitsReply reply.now }
{
    writing::put_byte(out, FORMAT);
    writing::put_byte(out, kinds::kind_byte(kinds::kind_of(&reply.tell)));
    writing::put_byte(out, reply.from.number());
    writing::put_byte(out, reply.to);
    writing::put_byte(out, kinds::phase_byte(reply.phase));
    writing::put_ballot(out, reply.tag);
    put_tell(out, &reply.tell);
}

/// The frame of a reply, which begins no other reply's frame.
pub fn encode_reply(alloc: Global, reply: &Reply) -> Result<Vec<u8>, AllocError>
    requires { CanBeTold reply.now }
    ensures frame { IfOk result (λ frame. IsReplyFrame frame.items reply.now) }
    ensures short { IfOk result (λ frame. length frame.items ≤ LONGEST_FRAME) }
    ensures alone { IfOk result (λ frame. (more : List ℕ) (other : Reply)
        → IsReplyFrame (frame.items ++ more) other → (more ≡ []) × (other ≡ reply.now)) }
{
    let mut frame = Vec::with_capacity(alloc, LONGEST_FRAME)?;
    put_reply(&mut frame, reply);
    Ok(frame)
}

/// Puts the frame of a reply into an empty buffer with room for every frame. It takes no memory.
pub fn encode_reply_into(reply: &Reply, out: &mut Vec<u8>)
    requires told { CanBeTold reply.now }
    requires empty { out.old.items ≡ [] }
    requires room { LONGEST_FRAME ≤ vec_capacity out.old }
    ensures frame { IsReplyFrame out.new.items reply.now }
    ensures short { length out.new.items ≤ LONGEST_FRAME }
    ensures alone { (more : List ℕ) (other : Reply)
        → IsReplyFrame (out.new.items ++ more) other → (more ≡ []) × (other ≡ reply.now) }
    ensures room_stays { vec_capacity out.old ≤ vec_capacity out.new }
{
    put_reply(out, reply);
}
