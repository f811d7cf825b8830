//! Writers of parts, into room that is there.

ghost use Rattle.std.specs.Prelude.{◌≡◌, ◌+◌, ◌*◌, ◌^◌, ◌<◌, ◌≤◌, ◌++◌, [], ◌∷◌, length, FitsSigned, IfSome, vec_len, vec_capacity};
ghost use Rattle.std.specs.List.{flat_map, AllByRecursion};
ghost use Rattle.std.specs.Int.{w16, w32, w64, to_be_bytes, cast_unsigned};
ghost use Rattle.std.specs.Option.{option_copied};
ghost use Rattle.cas_ballot.specs.Ballot.{FitsBallot};
ghost use Rattle.cas_change.specs.Key.{IsKey};
ghost use Rattle.cas_wire.specs.Room.{body_room, state_room, accepted_room};
ghost use Rattle.cas_wire.specs.Spelling.{FitsBody, FitsState, FitsAccepted, key_spelling, ballot_spelling, body_kind, body_spelling, state_spelling, accepted_spelling, optional_spelling};
ghost use Rattle.cas_wire.specs.Writing.{Puts};

use byteorder::{BigEndian, ByteOrder};
use cas_ballot::Ballot;
use cas_change::{Body, Key, State};
use cas_slot::Accepted;

/// Appends bytes, for which there is room.
pub(crate) fn put(out: &mut Vec<u8>, bytes: &[u8])
    requires { vec_len out.old + length bytes.now ≤ vec_capacity out.old }
    ensures { Puts out.old out.new bytes.now (length bytes.now) }
{
    let put = out.extend_from_slice(bytes).is_ok();
    prove!(put);
}

pub(crate) fn put_byte(out: &mut Vec<u8>, byte: u8)
    requires { vec_len out.old + 1 ≤ vec_capacity out.old }
    ensures { Puts out.old out.new (byte ∷ []) 1 }
{
    out.push_reserved(byte);
}

pub(crate) fn put_u16(out: &mut Vec<u8>, number: u16)
    requires { vec_len out.old + 2 ≤ vec_capacity out.old }
    ensures { Puts out.old out.new (to_be_bytes w16 number) 2 }
{
    let mut bytes = [0; 2];
    BigEndian::write_u16(&mut bytes, number);
    put(out, &bytes);
}

pub(crate) fn put_u32(out: &mut Vec<u8>, number: u32)
    requires { vec_len out.old + 4 ≤ vec_capacity out.old }
    ensures spelling { Puts out.old out.new (to_be_bytes w32 number) 4 }
    ensures fits { number < 2 ^ 32 }
{
    let mut bytes = [0; 4];
    BigEndian::write_u32(&mut bytes, number);
    put(out, &bytes);
}

pub(crate) fn put_u64(out: &mut Vec<u8>, number: u64)
    requires { vec_len out.old + 8 ≤ vec_capacity out.old }
    ensures spelling { Puts out.old out.new (to_be_bytes w64 number) 8 }
    ensures fits { number < 2 ^ 64 }
{
    let mut bytes = [0; 8];
    BigEndian::write_u64(&mut bytes, number);
    put(out, &bytes);
}

pub(crate) fn put_i64(out: &mut Vec<u8>, number: i64)
    requires { vec_len out.old + 8 ≤ vec_capacity out.old }
    ensures spelling { Puts out.old out.new (to_be_bytes w64 (cast_unsigned w64 number)) 8 }
    ensures fits { FitsSigned w64 number }
{
    put_u64(out, number.cast_unsigned());
}

#[tactic(auto, unfolding(crate::specs::Spelling::key_spelling))]
pub(crate) fn put_key(out: &mut Vec<u8>, key: &Key)
    requires { vec_len out.old + 65 ≤ vec_capacity out.old }
    ensures spelling { Puts out.old out.new (key_spelling key.now) 65 }
    ensures fits { IsKey key.now }
{
    let bytes = key.bytes();
    put_byte(out, bytes.len() as u8);
    put(out, bytes);
}

#[tactic(auto, unfolding(crate::specs::Spelling::ballot_spelling))]
pub(crate) fn put_ballot(out: &mut Vec<u8>, ballot: Ballot)
    requires { vec_len out.old + 9 ≤ vec_capacity out.old }
    ensures { Puts out.old out.new (ballot_spelling ballot) 9 }
{
    put_u64(out, ballot.counter);
    put_byte(out, ballot.proposer);
}

const fn kind_of(body: &Body) -> u8
    ensures { result ≡ body_kind body.now }
{
    match body {
        Body::Number(_) => 1,
        Body::Text(_) => 2,
    }
}

/// How much room the text of a body takes.
fn body_room(body: &Body) -> usize
    ensures room { result ≡ body_room body.now }
    ensures small { result ≤ 4000 }
{
    match body {
        Body::Number(_) => 0,
        Body::Text(text) => text.bytes().len(),
    }
}

/// How much room the text of a state takes.
pub(crate) fn state_room(state: &State) -> usize
    ensures room { result ≡ state_room state.now }
    ensures small { result ≤ 4000 }
{
    match state {
        State::Empty => 0,
        State::Held { body, .. } => body_room(body),
    }
}

/// How much room the text of what was accepted takes, if anything was.
pub(crate) fn accepted_room(accepted: Option<&Accepted>) -> usize
    ensures room { result ≡ accepted_room (option_copied accepted.entry) }
    ensures small { result ≤ 4000 }
{
    match accepted {
        Some(accepted) => state_room(&accepted.state),
        None => 0,
    }
}

fn put_body(out: &mut Vec<u8>, body: &Body)
    requires { vec_len out.old + (8 + body_room body.now) ≤ vec_capacity out.old }
    ensures spelling { Puts out.old out.new (body_spelling body.now) (8 + body_room body.now) }
    ensures fits { FitsBody body.now }
{
    match body {
        Body::Number(number) => put_i64(out, *number),
        Body::Text(text) => {
            let bytes = text.bytes();
            put_u16(out, bytes.len() as u16);
            put(out, bytes);
        }
    }
}

#[tactic(auto, using(crate::proofs::Fitting::held_fits), unfolding(crate::specs::Spelling::state_spelling))]
pub(crate) fn put_state(out: &mut Vec<u8>, state: &State)
    requires { vec_len out.old + (17 + state_room state.now) ≤ vec_capacity out.old }
    ensures spelling { Puts out.old out.new (state_spelling state.now) (17 + state_room state.now) }
    ensures fits { FitsState state.now }
{
    match state {
        State::Empty => put_byte(out, 0),
        State::Held { version, body } => {
            put_byte(out, kind_of(body));
            put_u64(out, *version);
            put_body(out, body);
        }
    }
}

#[tactic(auto, unfolding(crate::specs::Spelling::accepted_spelling))]
pub(crate) fn put_accepted(out: &mut Vec<u8>, accepted: &Accepted)
    requires { vec_len out.old + (30 + state_room accepted.now.state) ≤ vec_capacity out.old }
    ensures spelling { Puts out.old out.new
        (accepted_spelling accepted.now) (30 + state_room accepted.now.state) }
    ensures fits { FitsBallot accepted.now.ballot → FitsAccepted accepted.now }
{
    put_ballot(out, accepted.ballot);
    put_u32(out, accepted.era);
    put_state(out, &accepted.state);
}

pub(crate) fn put_accepted_or_none(out: &mut Vec<u8>, accepted: Option<&Accepted>)
    requires { vec_len out.old + (31 + accepted_room (option_copied accepted))
        ≤ vec_capacity out.old }
    ensures spelling { Puts out.old out.new (optional_spelling accepted_spelling
        (option_copied accepted.entry)) (31 + accepted_room (option_copied accepted.entry)) }
    ensures fits { IfSome (option_copied accepted.entry) (λ a. FitsBallot a.ballot
        → FitsAccepted a) }
{
    match accepted {
        Some(accepted) => {
            put_byte(out, 1);
            put_accepted(out, accepted);
        }
        None => put_byte(out, 0),
    }
}

pub(crate) fn put_ballot_or_none(out: &mut Vec<u8>, ballot: Option<Ballot>)
    requires { vec_len out.old + 10 ≤ vec_capacity out.old }
    ensures { Puts out.old out.new (optional_spelling ballot_spelling ballot) 10 }
{
    match ballot {
        Some(ballot) => {
            put_byte(out, 1);
            put_ballot(out, ballot);
        }
        None => put_byte(out, 0),
    }
}

pub(crate) fn put_key_or_none(out: &mut Vec<u8>, key: Option<&Key>)
    requires { vec_len out.old + 66 ≤ vec_capacity out.old }
    ensures spelling { Puts out.old out.new
        (optional_spelling key_spelling (option_copied key.entry)) 66 }
    ensures fits { IfSome (option_copied key.entry) IsKey }
{
    match key {
        Some(key) => {
            put_byte(out, 1);
            put_key(out, key);
        }
        None => put_byte(out, 0),
    }
}

/// Each key, one behind the other.
pub(crate) fn put_keys(out: &mut Vec<u8>, keys: &[Key])
    requires { vec_len out.old + 65 * length keys.now ≤ vec_capacity out.old }
    ensures spelling { Puts out.old out.new
        (flat_map key_spelling keys.now) (65 * length keys.now) }
    ensures fits { AllByRecursion IsKey keys.now }
{
    for key in keys {
        put_key(out, key);
    }
}

/// Each number, one behind the other.
pub(crate) fn put_numbers(out: &mut Vec<u8>, numbers: &[u64])
    requires { vec_len out.old + 8 * length numbers.now ≤ vec_capacity out.old }
    ensures spelling { Puts out.old out.new
        (flat_map (to_be_bytes w64) numbers.now) (8 * length numbers.now) }
    ensures fits { AllByRecursion (λ number. number < 2 ^ 64) numbers.now }
{
    for number in numbers {
        put_u64(out, *number);
    }
}
