//! One acceptor over its shelf.

ghost use Rattle.std.specs.Prelude.{◌≡◌, ◌⊎◌, ◌≤◌, ◌↔◌, ℕ, true, false, Ok, Err, IsTrue, IfOk, OnOk, OnErr, IsErrOf};
ghost use Rattle.cas_base.specs.Faults.{Rose};
ghost use Rattle.cas_slot.specs.Contents.{nothing};
ghost use Rattle.cas_slot.specs.Limits.{AskBallotsFit, TellFits};
ghost use Rattle.cas_slot.specs.Shelf.{OnlyLeaves, ShelfLeavesOnly, NothingIsPending, HasShelfCause};
ghost use Rattle.cas_slot.specs.Table.{IsReplyByTable, Handles};
ghost use Rattle.cas_acceptor.specs.Acceptor.{LeavesByTable};

use crate::change::carry_out;
use crate::decide::decide;
use crate::fault::HandleFault;
use cas_ballot::AcceptorId;
use cas_slot::{Reply, Request, Shelf, ShelfFault, Tell};
use std::marker::Model;

/// An acceptor, seen as its identity, whether a start of its shelf ever succeeded, whether it is down, and its shelf. Where it
/// is not down, its shelf is up.
#[derive(Drop)]
pub struct Acceptor<S: Shelf> {
    id: AcceptorId,
    started: bool,
    down: bool,
    shelf: S,
}

impl<S: Shelf> Model for Acceptor<S> {
    ghost use Rattle.std.specs.Prelude.{◌≡◌, false, IsTrue};
    ghost use Rattle.cas_acceptor.specs.Acceptor.{AcceptorView};

    ghost Value = { AcceptorView S };

    ghost view = { λ a. record { id = a.id; started = a.started; down = a.down; shelf = a.shelf } };

    ghost invariant = { λ a. a.down ≡ false → IsTrue a.started × S.is_up a.shelf };
}

impl<S: Shelf> Acceptor<S> {
    /// An acceptor over a shelf that was never started. It is down until [`Acceptor::restart`].
    pub fn new(id: AcceptorId, shelf: S) -> Acceptor<S>
        ensures { result ≡ record { id = id; started = false; down = true; shelf = shelf } }
    {
        Acceptor {
            id,
            started: false,
            down: true,
            shelf,
        }
    }

    /// An acceptor over a shelf that is up.
    pub fn running(id: AcceptorId, shelf: S) -> Acceptor<S>
        requires { S.is_up shelf }
        ensures { result ≡ record { id = id; started = true; down = false; shelf = shelf } }
    {
        Acceptor {
            id,
            started: true,
            down: false,
            shelf,
        }
    }

    /// Its identity.
    pub fn id(&self) -> AcceptorId
        ensures { result ≡ self.now.id }
    {
        self.id
    }

    /// Whether it is down: it answers nothing until it is restarted.
    pub fn is_down(&self) -> bool
        ensures { result ≡ self.now.down }
    {
        self.down
    }

    /// Its shelf.
    pub fn shelf(&self) -> &S
        ensures { result.now ≡ self.now.shelf }
    {
        &self.shelf
    }

    /// Hands back the shelf.
    pub fn into_shelf(self) -> S
        ensures { result ≡ self.shelf }
    {
        let Acceptor {
            id: _,
            started: _,
            down: _,
            shelf,
        } = self;
        shelf
    }

    /// Answers a request by the acceptor's table. The request's proposer is at most 16, and its ballots have counters up to 2^48
    /// and proposers up to 16; so have those of the reply, whose listing is in order.
    ///
    /// What a reply says is so in what any crash from then on leaves, until a further request changes it: of an acceptor that is
    /// up, also after [`HandleFault::NoMemory`], a crash leaves what its shelf holds and nothing else. A crash within the
    /// call leaves what was kept before, or what the table makes of that. [`HandleFault::Down`] comes only where the acceptor
    /// was down, or its shelf's count of faults rose; the acceptor is down then, and is restarted before it answers again.
    /// Whatever the error, the shelf holds what it held.
    pub fn handle(&mut self, request: &Request) -> Result<Reply, HandleFault>
        requires known { request.now.from ≤ 16 }
        requires fits { AskBallotsFit request.now.ask }
        ensures table { IfOk result (λ reply. IsReplyByTable self.old.id
            (S.contents self.old.shelf) request.now reply (S.contents self.new.shelf)) }
        ensures told { IfOk result (λ reply. TellFits reply.tell) }
        ensures kept { S.tells → self.new.down ≡ false
            → OnlyLeaves (S.contents self.new.shelf) (S.may_leave self.new.shelf) }
        ensures any_moment { S.tells → self.old.down ≡ false → ShelfLeavesOnly S.moment S.left_since
            self.old.shelf self.new.shelf (LeavesByTable (S.contents self.old.shelf) request.now) }
        ensures err { OnErr result (S.contents self.new.shelf ≡ S.contents self.old.shelf) }
        ensures was_down { IsTrue self.old.down
            → (result ≡ Err HandleFault.Down) × (self.new ≡ self.old) }
        ensures down { IsErrOf result HandleFault.Down ↔ IsTrue self.new.down }
        ensures up { self.new.down ≡ false → S.is_up self.new.shelf }
        ensures cause { IsErrOf result HandleFault.Down → IsTrue self.old.down
            ⊎ Rose (S.fault_count self.old.shelf) (S.fault_count self.new.shelf) }
        ensures never_falls { S.fault_count self.old.shelf ≤ S.fault_count self.new.shelf }
        ensures same { (self.new.id ≡ self.old.id) × (self.new.started ≡ self.old.started) }
    {
        if self.down {
            return Err(HandleFault::Down);
        }
        let answer = tell(&mut self.shelf, request);
        self.down = matches!(&answer, Err(HandleFault::Down));
        Ok(Reply {
            from: self.id,
            to: request.from,
            phase: request.ask.phase(),
            tag: request.ask.tag(),
            tell: answer?,
        })
    }

    /// Crashes. The acceptor is down until it is restarted, and nothing is pending on its shelf's disk.
    pub fn crash(&mut self)
        ensures down { IsTrue self.new.down }
        ensures settled { S.tells
            → NothingIsPending (S.may_leave self.old.shelf) (S.may_leave self.new.shelf) }
        ensures any_moment { S.tells → ShelfLeavesOnly S.moment
            S.left_since self.old.shelf self.new.shelf (S.may_leave self.old.shelf) }
        ensures never_falls { S.fault_count self.old.shelf ≤ S.fault_count self.new.shelf }
        ensures same { (self.new.id ≡ self.old.id) × (self.new.started ≡ self.old.started) }
    {
        self.shelf.crash();
        self.down = true;
    }

    /// Starts the shelf where no start ever succeeded, and reopens it otherwise. One that is up stays as it is.
    ///
    /// The acceptor is up after `Ok`, and a crash leaves what its shelf holds and nothing else. After an error it stays down,
    /// its shelf holds what it held, and of one that was started nothing is lost: a crash leaves nothing that it might not leave
    /// before. [`ShelfFault::DiskFault`] comes only where the shelf's count of faults rose; [`ShelfFault::Foreign`] only from a
    /// reopening, where a crash may leave what is no shelf, with its first wrong byte there; [`ShelfFault::Full`] never.
    pub fn restart(&mut self) -> Result<(), ShelfFault>
        ensures up { OnOk result (self.new.down ≡ false) }
        ensures shelf_up { self.new.down ≡ false → S.is_up self.new.shelf }
        ensures kept { S.tells → self.new.down ≡ false
            → OnlyLeaves (S.contents self.new.shelf) (S.may_leave self.new.shelf) }
        ensures still_down { OnErr result (IsTrue self.new.down) }
        ensures unchanged { self.old.down ≡ false → (result ≡ Ok tt) × (self.new ≡ self.old) }
        ensures started { OnOk result (IsTrue self.new.started) }
        ensures not_started { OnErr result (self.new.started ≡ self.old.started) }
        ensures afresh { IsTrue self.old.down
            → self.old.started ≡ false → OnOk result (S.contents self.new.shelf ≡ nothing) }
        ensures reopened { S.tells → IsTrue self.old.down → IsTrue self.old.started
            → OnOk result (S.may_leave self.old.shelf (Ok (S.contents self.new.shelf))) }
        ensures any_moment { S.tells → IsTrue self.old.started → ShelfLeavesOnly S.moment
            S.left_since self.old.shelf self.new.shelf (S.may_leave self.old.shelf) }
        ensures err { OnErr result (S.contents self.new.shelf ≡ S.contents self.old.shelf) }
        ensures foreign { S.tells → (at : ℕ)
            → IsErrOf result (ShelfFault.Foreign at) → S.may_leave self.old.shelf (Err at) }
        ensures start_not_foreign { self.old.started ≡ false
            → (at : ℕ) → IsErrOf result (ShelfFault.Foreign at) → ⊥ }
        ensures not_full { IsErrOf result ShelfFault.Full → ⊥ }
        ensures cause { HasShelfCause result
            (S.fault_count self.old.shelf) (S.fault_count self.new.shelf) }
        ensures same { self.new.id ≡ self.old.id }
    {
        if !self.down {
            return Ok(());
        }
        if self.started {
            self.shelf.reopen()?;
        } else {
            self.shelf.start()?;
        }
        self.started = true;
        self.down = false;
        Ok(())
    }
}

/// What a request is told, by the table. After [`HandleFault::Down`] the shelf is reopened before it is used.
fn tell<S: Shelf>(shelf: &mut S, request: &Request) -> Result<Tell, HandleFault>
    requires up { S.is_up shelf.old }
    requires known { request.now.from ≤ 16 }
    requires fits { AskBallotsFit request.now.ask }
    ensures table { IfOk result
        (λ tell. Handles (S.contents shelf.old) request.now tell (S.contents shelf.new)) }
    ensures told { IfOk result TellFits }
    ensures any_moment { S.tells → ShelfLeavesOnly S.moment S.left_since shelf.old shelf.new
        (LeavesByTable (S.contents shelf.old) request.now) }
    ensures err { OnErr result (S.contents shelf.new ≡ S.contents shelf.old) }
    ensures up { OnOk result (S.is_up shelf.new) }
    ensures up_still { IsErrOf result HandleFault.NoMemory → S.is_up shelf.new }
    ensures cause { IsErrOf result HandleFault.Down
        → Rose (S.fault_count shelf.old) (S.fault_count shelf.new) }
    ensures never_falls { S.fault_count shelf.old ≤ S.fault_count shelf.new }
{
    let least = shelf.ages().least(request.from);
    if request.age < least {
        return Ok(Tell::Aged(least));
    }
    let (tell, change) = match decide(shelf, &request.ask) {
        Ok(decided) => decided,
        Err(_) => return Err(HandleFault::NoMemory),
    };
    match carry_out(shelf, change) {
        Ok(()) => Ok(tell),
        Err(ShelfFault::Full) => Ok(Tell::Full),
        Err(ShelfFault::NoMemory) => Err(HandleFault::NoMemory),
        Err(ShelfFault::DiskFault) => Err(HandleFault::Down),
        Err(ShelfFault::Foreign { .. }) => unreachable!(),
    }
}
