//! One frame as bytes.
ghost use Rattle.std.specs.Prelude.{◌≡◌, Some, None, IfOk, IfSome, IsSome, is_none, option_map};
ghost use Rattle.cas_wire.specs.Frame.{CanBeAsked, CanBeTold};
ghost use Rattle.cas_flow.specs.Message.{head_of, FitsMessage, CanBeSent};
ghost use Rattle.cas_flow.specs.declared.message.Message.TheVariants as message;

use crate::message::{Message, leg_of_phase};
use cas_ballot::AcceptorId;
use cas_change::Key;
use cas_fate::Leg;
use cas_slot::{Reply, Request};
use cas_wire::{
    LONGEST_FRAME, decode_reply, decode_request_knowing, encode_reply_into, encode_request,
    encode_request_into,
};
use std::alloc::{AllocError, Global};
use std::marker::Model;

/// What is known of a frame without reading its bytes.
#[derive(Clone, Copy)]
enum Head {
    /// It bears no message yet.
    Blank,
    /// It bears a request of that leg to that acceptor.
    Asked { leg: Leg, to: AcceptorId },
    /// It bears a reply from that acceptor.
    Told { from: AcceptorId },
}

/// The bytes of one request or one reply. It is seen as that message, or as `None` while it is blank.
#[derive(Drop)]
pub struct Frame {
    bytes: Vec<u8>,
    head: Head,
}

impl Model for Frame {
    ghost use Rattle.std.specs.Prelude.{Option, vec_capacity};
    ghost use Rattle.cas_flow.specs.declared.message.Message.{Message as AMessage};

    ghost Value = { Option AMessage };

    ghost use Rattle.cas_flow.specs.Frame.{message_in, BearsMessage};

    ghost view = { λ frame. message_in frame.head frame.bytes.items };

    // A blank frame has no byte and room for the longest; another bears the message of its head.
    ghost invariant = { λ frame. BearsMessage frame.head frame.bytes.items (vec_capacity frame.bytes) };
}

impl Frame {
    /// The frame of a request.
    pub fn request(alloc: Global, request: &Request) -> Result<Frame, AllocError>
        requires { CanBeAsked request.now }
        ensures { IfOk result (λ frame. frame ≡ Some (message.Request request.now)) }
    {
        let bytes = encode_request(alloc, request)?;
        let head = Head::Asked {
            leg: leg_of_phase(request.ask.phase()),
            to: request.to,
        };
        Ok(Frame { bytes, head })
    }

    /// A frame without a message, with room for the longest.
    pub fn blank(alloc: Global) -> Result<Frame, AllocError>
        ensures { IfOk result (λ frame. frame ≡ None) }
    {
        Ok(Frame {
            bytes: Vec::with_capacity(alloc, LONGEST_FRAME)?,
            head: Head::Blank,
        })
    }

    /// A blank frame in the room of one that is not needed any more. `None` comes where that has no room for the longest.
    pub(crate) fn emptied(self) -> Option<Frame>
        ensures { IfSome result (λ frame. frame ≡ None) }
    {
        let mut bytes = self.bytes;
        if bytes.capacity() < LONGEST_FRAME {
            return None;
        }
        bytes.clear();
        Some(Frame {
            bytes,
            head: Head::Blank,
        })
    }

    /// Whether it bears no message yet.
    pub fn is_blank(&self) -> bool
        ensures { result ≡ is_none self.now }
    {
        matches!(self.head, Head::Blank)
    }

    /// Fills a blank frame with a request. It takes no memory.
    pub fn ask(&mut self, request: &Request)
        requires blank { self.old ≡ None }
        requires asked { CanBeAsked request.now }
        ensures { self.new ≡ Some (message.Request request.now) }
    {
        encode_request_into(request, &mut self.bytes);
        self.head = Head::Asked {
            leg: leg_of_phase(request.ask.phase()),
            to: request.to,
        };
    }

    /// Fills a blank frame with a reply. It takes no memory.
    pub fn fill(&mut self, reply: &Reply)
        requires blank { self.old ≡ None }
        requires told { CanBeTold reply.now }
        ensures { self.new ≡ Some (message.Reply reply.now) }
    {
        encode_reply_into(reply, &mut self.bytes);
        self.head = Head::Told { from: reply.from };
    }

    /// The message of a frame that is not blank. It is within its limits, so it may be handed on, and sent again. The frame stays.
    pub fn read(&self, alloc: Global) -> Result<Message, AllocError>
        requires { IsSome self.now }
        ensures message { IfOk result (λ message. Some message ≡ self.now) }
        ensures fits { IfOk result FitsMessage }
        ensures sent { IfOk result CanBeSent }
    {
        self.read_knowing(alloc, None)
    }

    /// The same as `read`. Where a request names the key `known`, which may be any, it gets a copy of that, which takes no memory of its own.
    pub fn read_knowing(&self, alloc: Global, known: Option<&Key>) -> Result<Message, AllocError>
        requires { IsSome self.now }
        ensures message { IfOk result (λ message. Some message ≡ self.now) }
        ensures fits { IfOk result FitsMessage }
        ensures sent { IfOk result CanBeSent }
    {
        match self.head {
            Head::Asked { .. } => match decode_request_knowing(alloc, &self.bytes, known)? {
                Some(request) => Ok(Message::Request(request)),
                None => unreachable!(),
            },
            Head::Told { .. } => match decode_reply(alloc, &self.bytes)? {
                Some(reply) => Ok(Message::Reply(reply)),
                None => unreachable!(),
            },
            Head::Blank => unreachable!(),
        }
    }

    /// The leg that it is on, and the acceptor at its other end. `None` comes exactly for a blank frame.
    pub(crate) fn head(&self) -> Option<(Leg, AcceptorId)>
        ensures { result ≡ option_map head_of self.now }
    {
        match self.head {
            Head::Blank => None,
            Head::Asked { leg, to } => Some((leg, to)),
            Head::Told { from } => Some((Leg::Reply, from)),
        }
    }
}
