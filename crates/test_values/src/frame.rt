//! Frames and their bytes.

ghost use Rattle.std.specs.Prelude.{IfOk};
ghost use Rattle.cas_wire.specs.Frame.{CanBeAsked, CanBeTold};

use cas_ballot::{AcceptorId, Ballot};
use cas_change::{Body, Key, State};
use cas_slot::{Ask, Phase, Reply, Request, Tell};
use cas_wire::{
    LONGEST_FRAME, decode_reply, decode_request, encode_reply, encode_reply_into, encode_request,
};
use std::alloc::{AllocError, Global};
use std::process::Abort;
use std::test::Fail;

// Prepare `a` at 1.1, to acceptor 2, from proposer 1, at age 0.
const PREPARE: [u8; 23] = [
    2, 1, 2, 1, 0, 0, 0, 0, 0, 0, 0, 0, 1, 0x61, 0, 0, 0, 0, 0, 0, 0, 1, 1,
];

// Accept `a` at 1.1 in era 0, riding 2.1: the number 5 at version 0. The ends are the same.
const ACCEPT: [u8; 54] = [
    2, 2, 2, 1, 0, 0, 0, 0, 0, 0, 0, 0, 1, 0x61, 0, 0, 0, 0, 0, 0, 0, 1, 1, 0, 0, 0, 0, 1, 0, 0, 0,
    0, 0, 0, 0, 2, 1, 1, 0, 0, 0, 0, 0, 0, 0, 0, 0, 0, 0, 0, 0, 0, 0, 5,
];

// Promised with nothing accepted, from acceptor 2 to proposer 1, with the tag 1.1.
const PROMISED: [u8; 15] = [2, 0x81, 2, 1, 1, 0, 0, 0, 0, 0, 0, 0, 1, 1, 0];

// Met 3.1 in the prepare phase, from acceptor 3 to proposer 2, with the tag 1.2.
const MET: [u8; 23] = [
    2, 0x83, 3, 2, 1, 0, 0, 0, 0, 0, 0, 0, 1, 2, 0, 0, 0, 0, 0, 0, 0, 3, 1,
];

const FIRST: Ballot = Ballot {
    counter: 1,
    proposer: 1,
};

fn acceptor(number: u8) -> Result<AcceptorId, Fail> {
    Ok(AcceptorId::new(number).ok_or("no acceptor")?)
}

fn prepare(alloc: Global) -> Result<Request, Fail>
    ensures { IfOk result CanBeAsked }
{
    Ok(Request {
        to: acceptor(2)?,
        from: 1,
        age: 0,
        ask: Ask::Prepare {
            key: Key::read(alloc, b"a")?,
            ballot: FIRST,
        },
    })
}

fn accept(alloc: Global) -> Result<Request, Fail>
    ensures { IfOk result CanBeAsked }
{
    Ok(Request {
        to: acceptor(2)?,
        from: 1,
        age: 0,
        ask: Ask::Accept {
            key: Key::read(alloc, b"a")?,
            ballot: FIRST,
            era: 0,
            ride: Some(Ballot {
                counter: 2,
                proposer: 1,
            }),
            state: State::Held {
                version: 0,
                body: Body::Number(5),
            },
        },
    })
}

fn promised() -> Result<Reply, Fail>
    ensures { IfOk result CanBeTold }
{
    Ok(Reply {
        from: acceptor(2)?,
        to: 1,
        phase: Phase::Prepare,
        tag: FIRST,
        tell: Tell::Promised { accepted: None },
    })
}

fn met() -> Result<Reply, Fail>
    ensures { IfOk result CanBeTold }
{
    Ok(Reply {
        from: acceptor(3)?,
        to: 2,
        phase: Phase::Prepare,
        tag: Ballot {
            counter: 1,
            proposer: 2,
        },
        tell: Tell::Met(Ballot {
            counter: 3,
            proposer: 1,
        }),
    })
}

// Whether the request has this frame and comes back from it.
fn is_asked(alloc: Global, request: &Request, want: &[u8]) -> Result<bool, AllocError>
    requires { CanBeAsked request.now }
{
    let frame = encode_request(alloc, request)?;
    let found = decode_request(alloc, &frame)?;
    Ok(frame.as_slice() == want && found.as_ref() == Some(request))
}

#[test]
fn requests_have_their_frames(rt: HostRuntime) -> Result<(), Fail> {
    let alloc = rt.alloc();
    assert!(rt; is_asked(alloc, &prepare(alloc)?, &PREPARE)?);
    assert!(rt; is_asked(alloc, &accept(alloc)?, &ACCEPT)?);
    Ok(())
}

// Whether the reply has this frame, by either call, and comes back from it.
fn is_told(alloc: Global, reply: &Reply, want: &[u8]) -> Result<bool, AllocError>
    requires { CanBeTold reply.now }
{
    let frame = encode_reply(alloc, reply)?;
    let mut out = Vec::with_capacity(alloc, LONGEST_FRAME)?;
    encode_reply_into(reply, &mut out);
    let found = decode_reply(alloc, &out)?;
    Ok(frame == out && out.as_slice() == want && found.as_ref() == Some(reply))
}

#[test]
fn replies_have_their_frames(rt: HostRuntime) -> Result<(), Fail> {
    let alloc = rt.alloc();
    assert!(rt; is_told(alloc, &promised()?, &PROMISED)?);
    assert!(rt; is_told(alloc, &met()?, &MET)?);
    Ok(())
}

// Which of the two a frame is read as.
#[derive(Clone, Copy, Debug)]
enum Sort {
    Request,
    Reply,
}

fn is_frame(alloc: Global, sort: Sort, bytes: &[u8]) -> Result<bool, AllocError> {
    Ok(match sort {
        Sort::Request => decode_request(alloc, bytes)?.is_some(),
        Sort::Reply => decode_reply(alloc, bytes)?.is_some(),
    })
}

// Whether these bytes with those behind them are a frame.
fn is_frame_of(alloc: Global, sort: Sort, front: &[u8], parts: &[u8]) -> Result<bool, AllocError> {
    let mut bytes = front.to_vec(alloc)?;
    bytes.extend_from_slice(parts)?;
    is_frame(alloc, sort, &bytes)
}

const FRAMES: [(Sort, &[u8]); 4] = [
    (Sort::Request, &PREPARE),
    (Sort::Request, &ACCEPT),
    (Sort::Reply, &PROMISED),
    (Sort::Reply, &MET),
];

#[test]
fn a_cut_or_longer_frame_is_none(rt: HostRuntime) -> Result<(), Fail> {
    let alloc = rt.alloc();
    for (sort, frame) in FRAMES {
        for len in 0..frame.len() {
            assert!(rt; !is_frame(alloc, sort, &frame[..len])?, "{sort:?} {len}");
        }
        assert!(rt; !is_frame_of(alloc, sort, frame, &[0])?, "{sort:?}");
    }
    Ok(())
}

// Whether the frame with this byte at the place is a frame.
fn is_frame_with(alloc: Global, sort: Sort, place: usize, byte: u8) -> Result<bool, AllocError> {
    let mut bytes = match sort {
        Sort::Request => ACCEPT.to_vec(alloc)?,
        Sort::Reply => MET.to_vec(alloc)?,
    };
    if let Some(at) = bytes.get_mut(place) {
        *at = byte;
    }
    is_frame(alloc, sort, &bytes)
}

// Of each row the place, the byte put there, and whether that is a frame.
fn has_ranges(
    rt: &impl Abort,
    alloc: Global,
    sort: Sort,
    rows: &[(usize, u8, bool)],
) -> Result<(), Fail> {
    for (place, byte, fits) in rows {
        assert_eq!(rt;
            is_frame_with(alloc, sort, *place, *byte)?,
            *fits,
            "{byte} at {place}"
        );
    }
    Ok(())
}

const OF_A_REQUEST: [(usize, u8, bool); 33] = [
    (0, 0, false),
    (0, 1, false),
    (1, 0, false),
    (1, 1, false),
    (1, 7, false),
    (1, 0x82, false),
    (2, 63, true),
    (2, 64, false),
    (3, 16, true),
    (3, 17, false),
    (4, 255, true),
    (12, 0, false),
    (12, 2, false),
    (12, 65, false),
    (13, 0x20, false),
    (13, 0x21, true),
    (13, 0x7E, true),
    (13, 0x7F, false),
    (14, 1, false),
    (15, 1, false),
    (16, 255, true),
    (22, 16, true),
    (22, 17, false),
    (23, 255, true),
    (27, 0, false),
    (27, 2, false),
    (29, 1, false),
    (36, 17, false),
    (37, 0, false),
    (37, 2, false),
    (37, 3, false),
    (38, 255, true),
    (46, 255, true),
];

#[test]
fn each_part_of_a_request_has_its_range(rt: HostRuntime) -> Result<(), Fail> {
    has_ranges(&rt, rt.alloc(), Sort::Request, &OF_A_REQUEST)
}

const OF_A_REPLY: [(usize, u8, bool); 21] = [
    (0, 1, false),
    (1, 0x01, false),
    (1, 0x80, false),
    (1, 0x81, false),
    (1, 0x84, false),
    (1, 0x8A, false),
    (1, 0x8B, false),
    (2, 63, true),
    (2, 64, false),
    (3, 16, true),
    (3, 17, false),
    (4, 0, false),
    (4, 2, true),
    (4, 3, false),
    (4, 7, false),
    (6, 1, false),
    (13, 16, true),
    (13, 17, false),
    (15, 1, false),
    (22, 16, true),
    (22, 17, false),
];

#[test]
fn each_part_of_a_reply_has_its_range(rt: HostRuntime) -> Result<(), Fail> {
    has_ranges(&rt, rt.alloc(), Sort::Reply, &OF_A_REPLY)
}

// Whether a reply of this kind to that kind of request, with these parts behind its head, is a frame.
fn is_reply(alloc: Global, kind: u8, phase: u8, parts: &[u8]) -> Result<bool, AllocError> {
    let head = [2, kind, 2, 1, phase, 0, 0, 0, 0, 0, 0, 0, 1, 1];
    is_frame_of(alloc, Sort::Reply, &head, parts)
}

// The kind, the kinds of request that may get it, and its parts.
const KINDS: [(u8, &[u8], &[u8]); 10] = [
    (0x81, &[1], &[0]),
    (0x82, &[2], &[]),
    (0x83, &[1, 2], &[0, 0, 0, 0, 0, 0, 0, 1, 1]),
    (0x84, &[1, 2, 3, 4, 5, 6], &[0, 0, 0, 0, 0, 0, 0, 1]),
    (0x85, &[1, 2], &[]),
    (0x86, &[3], &[]),
    (0x87, &[4], &[]),
    (0x88, &[4], &[]),
    (0x89, &[5], &[0, 0, 0]),
    (0x8A, &[6], &[0, 0, 0, 0, 0, 0, 0, 1, 1, 0]),
];

#[test]
fn each_kind_of_reply_has_its_requests(rt: HostRuntime) -> Result<(), Fail> {
    for (kind, phases, parts) in KINDS {
        for phase in 0..8 {
            let fits = phases.contains(&phase);
            assert_eq!(rt;
                is_reply(rt.alloc(), kind, phase, parts)?,
                fits,
                "{kind} to {phase}"
            );
        }
    }
    Ok(())
}

// What stands behind the head, and whether that is a frame.
const LISTINGS: [(&[u8], bool); 13] = [
    (b"\x00\x00\x00", true),
    (b"\x01\x01a\x00\x00", true),
    (b"\x00\x02\x01a\x02ab\x00", true),
    (b"\x01\x01a\x02\x02aa\x01b\x00", true),
    (b"\x00\x04\x01a\x01b\x01c\x01d\x00", true),
    (b"\x00\x04\x01a\x01b\x01c\x01d\x01", true),
    // More follow three keys, and none.
    (b"\x00\x03\x01a\x01b\x01c\x01", false),
    (b"\x00\x00\x01", false),
    (b"\x00\x04\x01a\x01b\x01c\x01d\x02", false),
    (b"\x00\x05\x01a\x01b\x01c\x01d\x01e\x00", false),
    // The keys fall, are equal, or are not above the one gone on after.
    (b"\x00\x02\x02ab\x01a\x00", false),
    (b"\x00\x02\x01a\x01a\x00", false),
    (b"\x01\x01b\x01\x01b\x00", false),
];

#[test]
fn listed_keys_rise(rt: HostRuntime) -> Result<(), Fail> {
    for (parts, fits) in LISTINGS {
        assert_eq!(rt; is_reply(rt.alloc(), 0x89, 5, parts)?, fits, "{parts:?}");
    }
    Ok(())
}

// The kind, what stands behind its ballot, and whether that is a frame.
const ASKS: [(u8, &[u8], bool); 8] = [
    (3, &[7; 136], true),
    (3, &[7; 135], false),
    (3, &[7; 137], false),
    (5, &[0], true),
    (5, &[1, 1, 0x61], true),
    (5, &[2, 1, 0x61], false),
    (6, &[1, 0x61], true),
    (6, &[0], false),
];

#[test]
fn each_kind_of_request_has_its_parts(rt: HostRuntime) -> Result<(), Fail> {
    for (kind, parts, fits) in ASKS {
        let head = [
            2, kind, 0, 0, 0, 0, 0, 0, 0, 0, 0, 0, 0, 0, 0, 0, 0, 0, 0, 1, 1,
        ];
        let found = is_frame_of(rt.alloc(), Sort::Request, &head, parts)?;
        assert_eq!(rt; found, fits, "{kind} with {parts:?}");
    }
    Ok(())
}
