//! An acceptor that is asked by a frame.

ghost use Rattle.std.specs.Prelude.{◌≡◌, IfOk, None, OnErr, length};
ghost use Rattle.cas_flow.specs.Message.{CanBeSent};
ghost use Rattle.cas_flow.specs.declared.message.Message.TheVariants as message;
ghost use Rattle.cas_world.specs.Frames.Serve.{voted_key, vote_by, Serves, KeepsAll, AreNumbered};
ghost use Rattle.cas_model.specs.View.{shelf_meaning};

use cas_acceptor::{Acceptor, HandleFault};
use cas_change::Key;
use cas_flow::Frame;
use cas_record::Mark;
use cas_slot::{Ask, Reply, Request, Shelf, Tell};
use std::alloc::{AllocError, Global};

/// What an acceptor did with a request.
#[derive(Drop)]
pub(crate) enum Served {
    /// It answered by this frame, and gave this vote, if any.
    Replied { frame: Frame, vote: Option<Mark> },
    /// It was down, or went down.
    Down,
}

/// Lets the acceptor that is asked answer by this frame. All memory is taken before it handles the request; after an `Err` it keeps what it kept.
pub(crate) fn serve_by<S: Shelf>(
    acceptors: &mut Vec<Acceptor<S>>,
    request: &Request,
    mut frame: Frame,
) -> Result<Served, AllocError>
    requires numbered { AreNumbered acceptors.old.items (length acceptors.old.items) }
    requires asked { CanBeSent (message.Request request.now) }
    requires blank { frame ≡ None }
    ensures ok { IfOk result (λ served.
        Serves (shelf_meaning S.Shelf) acceptors.old.items request.now served acceptors.new.items) }
    ensures err { OnErr result
        (KeepsAll (shelf_meaning S.Shelf) acceptors.old.items acceptors.new.items) }
{
    let key = key_to_vote(&request.ask)?;
    match acceptors[usize::from(request.to.number())].handle(request) {
        Ok(reply) => {
            frame.fill(&reply);
            let vote = vote_of(key, &reply);
            Ok(Served::Replied { frame, vote })
        }
        Err(HandleFault::Down) => Ok(Served::Down),
        Err(HandleFault::NoMemory) => Err(AllocError),
    }
}

/// Lets the acceptor that is asked answer by a new frame, likewise.
pub(crate) fn serve<S: Shelf>(
    alloc: Global,
    acceptors: &mut Vec<Acceptor<S>>,
    request: &Request,
) -> Result<Served, AllocError>
    requires numbered { AreNumbered acceptors.old.items (length acceptors.old.items) }
    requires asked { CanBeSent (message.Request request.now) }
    ensures ok { IfOk result (λ served.
        Serves (shelf_meaning S.Shelf) acceptors.old.items request.now served acceptors.new.items) }
    ensures err { OnErr result
        (KeepsAll (shelf_meaning S.Shelf) acceptors.old.items acceptors.new.items) }
{
    let frame = Frame::blank(alloc)?;
    serve_by(acceptors, request, frame)
}

/// A copy of the key for the mark of a vote, where one may be given.
fn key_to_vote(ask: &Ask) -> Result<Option<Key>, AllocError>
    ensures { IfOk result (λ key. key ≡ voted_key ask.now) }
{
    match ask {
        Ask::Accept { key, .. } => Ok(Some(key.copy()?)),
        _ => Ok(None),
    }
}

/// The mark of the vote that a reply gives for the key, if it gives one.
fn vote_of(key: Option<Key>, reply: &Reply) -> Option<Mark>
    ensures { result ≡ vote_by key reply.now reply.now.tell }
{
    match (&reply.tell, key) {
        (Tell::Accepted, Some(key)) => Some(Mark::Voted {
            acceptor: reply.from,
            key,
            ballot: reply.tag,
        }),
        _ => None,
    }
}
