//! The board: how it is opened and closed, and where two callers meet.

ghost use Rattle.std.specs.Prelude.{◌≡◌, ◌≢◌, ◌⊎◌, ◌≤◌, ◌<◌, ◌+◌, ℕ, List, [], suc, take, reverse, vec_len, vec_capacity, All, None, IsSome, IfOk, IfErr};
ghost use Rattle.std.specs.Option.{ForSome};
ghost use Rattle.cas_record.specs.Legal.{IsLegal};
ghost use Rattle.cas_model.specs.Exchanges.Tellings.{AreWritable};
ghost use Rattle.cas_model.specs.Openings.{Opening, IsOpeningOn};
ghost use Rattle.cas_model.specs.SafeLaws.{HasPlaces};
ghost use Rattle.cas_model.specs.View.{meaning};
ghost use Rattle.cas_model_causes.specs.Eras.Tellings.{AreTellingsSo};
ghost use Rattle.cas_turn.specs.Seen.{Begins};
ghost use Rattle.cas_turn.specs.Sitting.{fresh_seats};
ghost use Rattle.cas_board_steps.specs.Kept.{IsHeldBy};
ghost use Rattle.cas_board_steps.specs.Mine.{mine};
ghost use Rattle.cas_board_steps.specs.Calls.Open.{NothingIsOpen};
ghost use Rattle.cas_board_steps.specs.OwnParts.{own_part};
ghost use Rattle.cas_store.specs.Kept.{AreKept};
ghost use Rattle.cas_store.specs.Store.{StaysClosed, acceptor_disks};
ghost use Rattle.cas_world.specs.Openings.Opening.{disks_of};
ghost use Rattle.cas_board_world.specs.Blame.{AreDeserved};
ghost use Rattle.cas_board_world.specs.Steady.{AreMembersUp, AreDesksUp, AreAgesCovered};
ghost use Rattle.cas_board.specs.Passes.{IsPassOf};

use crate::shared::Shared;
use cas_board_world::SteadyWorld;
use cas_disk::Disk;
use cas_disk_shelf::DiskShelf;
use cas_record::Record;
use cas_slot::Shelf;
use cas_store::{Rack, Store};
use cas_turn::{Seat, Turn};
use cas_world::{Config, OpenFault};
use std::alloc::{AllocError, Global};
use std::marker::Model;

/// A store whose callers are in threads of their own.
///
/// A board is not dropped: [`Board::close`] takes it apart.
pub struct Board<D: Disk> {
    pub(crate) turn: Turn<Shared<D>>,
    /// What the memory of the operator's calls comes from.
    pub(crate) alloc: Global,
}

impl<D: Disk> Model for Board<D> {
    ghost use Rattle.cas_turn.specs.Sitting.{Turning};

    ghost Value = { Turning };

    ghost view = { λ b. b.turn };
}

/// One caller's token, whose number is the caller's. It knows the front of the record that the caller has seen. It cannot be copied.
pub type Pass<D> = Seat<Shared<D>>;

/// What a board was when it was closed.
#[derive(Drop)]
pub struct Closed<D> {
    /// The record of all that happened.
    pub book: Record,
    /// The 64 disks of acceptors and the 17 of vaults.
    pub rack: Rack<D>,
}

impl<D: Disk> Board<D> {
    /// A board over the disks of the rack, in which nothing has happened, and a pass for each caller, from that of the operator on, whose
    /// number is 0. The disks of the members and those of the vaults of the proposers are started, in the order of their numbers.
    ///
    /// After an `Err` the disks come back. [`OpenFault::DiskFault`] tells the first that failed, whose count of faults rose, and then each disk
    /// is in its place; [`OpenFault::NoMemory`] may also come once all have started.
    pub fn open(
        alloc: Global,
        config: Config,
        rack: Rack<D>,
    ) -> Result<(Board<D>, Vec<Pass<D>>), (OpenFault, Rack<D>)>
        requires some { 0 < config.acceptors }
        requires few { config.acceptors ≤ 9 }
        requires proposers { config.proposers ≤ 16 }
        requires acceptors { vec_len rack.acceptors ≡ 64 }
        requires vaults { vec_len rack.vaults ≡ 17 }
        ensures callers { IfOk result (λ opened. opened.0.seats ≡ config.proposers + 1) }
        ensures passes { IfOk result
            (λ opened. opened.1.items ≡ fresh_seats opened.0.id (config.proposers + 1) []) }
        ensures count { IfOk result (λ opened. (vec_len opened.1 ≡ config.proposers + 1)
            × (vec_capacity opened.1 ≡ config.proposers + 1)) }
        ensures idle { IfOk result (λ opened. All (λ p. IsPassOf opened.0 p
            × NothingIsOpen p.own) opened.1.items) }
        ensures fault { IfErr result (λ back. (back.0 ≡ OpenFault.NoMemory)
            ⊎ StaysClosed D.fault_count config.acceptors config.proposers rack.acceptors.items
            rack.vaults.items back.0 back.1.acceptors.items back.1.vaults.items) }
        ensures back { IfErr result (λ back. (vec_len back.1.acceptors ≡ 64)
            × (vec_len back.1.vaults ≡ 17)) }
    {
        let store = Store::open(alloc, config, rack)?;
        match Board::over(alloc, store, config.proposers) {
            Ok(opened) => Ok(opened),
            Err((_, rack)) => Err((OpenFault::NoMemory, rack)),
        }
    }

    /// A board over a store with so many proposers beside the operator's, in which nothing has happened, or nothing but that floors were
    /// marked. It has a pass for each caller, from that of the operator on, whose number is 0. Each pass has seen the store's record.
    ///
    /// An `Err` comes only where there is no memory. The disks of the store come back then, those of acceptors in their order, and those
    /// of the vaults of its proposers before all others.
    pub fn over(
        alloc: Global,
        store: Store<D>,
        proposers: u8,
    ) -> Result<(Board<D>, Vec<Pass<D>>), (AllocError, Rack<D>)>
        requires proposers { proposers ≡ store.world.last_proposer }
        requires opening { (members used : List ℕ) × (floors : List Opening)
            × IsOpeningOn (meaning ⟦<DiskShelf<D> as Shelf>⟧ D.Disk) members used floors store.world
            × AreMembersUp members store.world.acceptors }
        requires places { HasPlaces store.world }
        requires desks { AreDesksUp store.world.desks }
        requires ages { D.tells
            → AreAgesCovered (meaning ⟦<DiskShelf<D> as Shelf>⟧ D.Disk) store.world }
        ensures callers { IfOk result (λ opened. opened.0.seats ≡ suc store.world.last_proposer) }
        ensures passes { IfOk result (λ opened. opened.1.items ≡ fresh_seats opened.0.id
            (suc store.world.last_proposer) store.world.marks) }
        ensures count { IfOk result (λ opened. (vec_len opened.1 ≡ suc store.world.last_proposer)
            × (vec_capacity opened.1 ≡ suc store.world.last_proposer)) }
        ensures idle { IfOk result (λ opened. All (λ p. IsPassOf opened.0 p
            × NothingIsOpen p.own) opened.1.items) }
        ensures acceptors { IfErr result (λ back. back.1.acceptors.items
            ≡ acceptor_disks store.world.acceptors) }
        ensures vaults { IfErr result (λ back. take (store.world.last_proposer + 1)
            back.1.vaults.items ≡ disks_of store.world.desks) }
        ensures back { IfErr result (λ back. (vec_len back.1.acceptors ≡ 64)
            × (vec_len back.1.vaults ≡ 17)) }
    {
        let Store { world, room } = store;
        let shared = Shared {
            world: SteadyWorld::over(world),
            room,
        };
        let callers = u32::from(proposers) + 1;
        match Turn::new(alloc, shared, callers) {
            Ok((turn, passes)) => Ok((Board { turn, alloc }, passes)),
            Err((error, shared)) => Err((error, shared.into_closed().rack)),
        }
    }

    /// Gives the store back behind a hold. The pass has then seen its record. Where disks tell what they keep, the record is legal, and what
    /// it tells of changes of membership and of collections is so in it.
    pub(crate) fn give_back<R>(&self, rt: &R, pass: &mut Pass<D>, shared: Shared<D>)
        requires turn { pass.old.turn ≡ self.now.id }
        requires seats { pass.old.seats ≡ self.now.seats }
        requires holds { IsSome pass.old.holds }
        requires makes { ForSome pass.old.holds (λ before. IsHeldBy pass.old.number before shared) }
        ensures pass { pass.new ≡ record pass.old {
          holds = None;
          seen = shared.marks;
          own = own_part shared pass.old.number;
        } }
        ensures legal { D.tells → IsLegal (reverse pass.new.seen) }
        ensures tellings { D.tells → AreTellingsSo self.now.seats (reverse pass.new.seen) }
    {
        // The front that its caller has seen then is the whole record, which is legal and tells what is so, where disks tell.
        let _record = shared.world.record();
        self.turn.give_back(rt, pass, shared);
    }

    /// Both passes have then seen one front, which begins with what each had seen. It takes no memory, and waits for nobody.
    pub fn meet(&self, a: &mut Pass<D>, b: &mut Pass<D>)
        requires a_pass { IsPassOf self.now a.old }
        requires b_pass { IsPassOf self.now b.old }
        ensures a_pass { a.new ≡ record a.old { seen = a.new.seen } }
        ensures b_pass { b.new ≡ record b.old { seen = b.new.seen } }
        ensures one_front { a.new.seen ≡ b.new.seen }
        ensures fronts { Begins a.old.seen a.new.seen × Begins b.old.seen b.new.seen }
        ensures a_mine { mine a.old.number a.new.seen ≡ mine a.old.number a.old.seen }
        ensures b_mine { mine b.old.number b.new.seen ≡ mine b.old.number b.old.seen }
    {
        self.turn.meet(a, b);
    }

    /// Takes the board apart, with all its passes. It takes no memory, and waits for nobody. What is acknowledged in the record stands on
    /// the disks of the acceptors that confirmed it, whatever a crash of them leaves, until a floor is made at or above it.
    ///
    /// Where disks tell what they keep, what the record tells of changes of membership and of collections is so in it: each proposer
    /// of the board, the operator's among them, had entered the era that is told of a join or a leave; and the key that is told to be
    /// collected had its tombstone as a floor, with the empty state.
    ///
    /// Nobody stops an acceptor or a proposer of a board. So whom a mark blames has a disk whose count of faults is above 0: some acceptor,
    /// where a frame found its acceptor down or brought it down; and a proposer's vault, where the proposer is told to be down or to have
    /// failed.
    pub fn close(self, passes: Vec<Pass<D>>) -> Closed<D>
        requires turn { All (λ p. p.turn ≡ self.id) passes.items }
        requires all { vec_len passes ≡ self.seats }
        requires idle { All (λ p. p.holds ≡ None) passes.items }
        ensures legal { D.tells → IsLegal (reverse result.book.marks) }
        ensures writable { AreWritable result.book.marks }
        ensures tellings { D.tells → AreTellingsSo self.seats (reverse result.book.marks) }
        ensures fronts { All (λ p. Begins p.seen result.book.marks) passes.items }
        ensures mine { All (λ p. mine p.number result.book.marks
            ≡ mine p.number p.seen) passes.items }
        ensures kept { D.tells
            → AreKept D.may_leave (reverse result.book.marks) result.rack.acceptors.items }
        ensures deserved { AreDeserved D.fault_count
            result.rack.acceptors.items result.rack.vaults.items result.book.marks }
        ensures all_acceptors { vec_len result.rack.acceptors ≡ 64 }
        ensures all_vaults { vec_len result.rack.vaults ≡ 17 }
    {
        let Board { turn, alloc: _ } = self;
        turn.close(passes).into_closed()
    }
}

impl<D: Disk> Shared<D> {
    /// The record and the rack.
    fn into_closed(self) -> Closed<D>
        ensures marks { result.book.marks ≡ self.marks }
        ensures acceptors { result.rack.acceptors.items ≡ acceptor_disks self.acceptors }
        ensures vaults { take (self.last_proposer + 1) result.rack.vaults.items
            ≡ disks_of self.desks }
        ensures legal { D.tells → IsLegal (reverse result.book.marks) }
        ensures writable { AreWritable result.book.marks }
        ensures tellings { D.tells
            → AreTellingsSo (suc self.last_proposer) (reverse result.book.marks) }
        ensures kept { D.tells
            → AreKept D.may_leave (reverse result.book.marks) result.rack.acceptors.items }
        ensures deserved { AreDeserved D.fault_count
            result.rack.acceptors.items result.rack.vaults.items result.book.marks }
        ensures all_acceptors { vec_len result.rack.acceptors ≡ 64 }
        ensures all_vaults { vec_len result.rack.vaults ≡ 17 }
    {
        let Shared { world, room } = self;
        let store = Store {
            world: world.into_world(),
            room,
        };
        let (book, rack) = store.close();
        Closed { book, rack }
    }
}

/// The number of the pass's caller.
pub(crate) fn caller_of<D: Disk>(pass: &Pass<D>) -> u8
    requires { pass.now.number ≤ 16 }
    ensures { result ≡ pass.now.number }
{
    pass.number() as u8
}
