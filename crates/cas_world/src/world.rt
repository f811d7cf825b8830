//! The world: all acceptors and proposers, the frames between them, the callers' calls, and the record of what happened.

ghost use Rattle.std.specs.Prelude.{◌≡◌, ◌+◌, ◌<◌, ◌≤◌, ◌^◌, length, take, slice_get, option_map, reverse, vec_len, Some, IfOk, IfErr};
ghost use Rattle.cas_acceptor.specs.Acceptor.{AcceptorView};
ghost use Rattle.cas_model.specs.Exchanges.Tellings.{AreWritable};
ghost use Rattle.cas_model.specs.SafeLaws.{HasPlaces};
ghost use Rattle.cas_model.specs.Step.{IsOpening};
ghost use Rattle.cas_model.specs.View.{CallerView, IsAt, era_at, meaning, disk_meaning, shelf_meaning};
ghost use Rattle.cas_model_stops.specs.Stopped.{SettledIsHeld};
ghost use Rattle.cas_model.specs.Laws.{AcknowledgedIsKept};
ghost use Rattle.cas_ballot.specs.Members.{union_of};
ghost use Rattle.cas_model.specs.Openings.{AreOpenings, IsOpeningOn};
ghost use Rattle.cas_model.specs.Calls.Step.{most_marks};
ghost use Rattle.cas_world.specs.Openings.OpeningOn.{openings_of, greatest_counter, placed, MembersHold, AreTakenUpBelow, DoesNotGoOn};
ghost use Rattle.cas_world.specs.Openings.Opening.{members_to, unstarted, shelves_of, disks_of, AreStartedBelow, AreDesksBelow, DoesNotOpen};
ghost use Rattle.cas_world.specs.Readers.{next_number, told_if, closed_in, IsVerdictIn};
ghost use Rattle.cas_world.specs.Exchanges.Exchange.{asks_as, place_of};
ghost use Rattle.cas_flow.specs.Flow.{queue_at};
ghost use Rattle.cas_flow.specs.Message.{head_of};
ghost use Rattle.cas_proposer.specs.Desk.{DeskView};
ghost use Rattle.cas_slot.specs.Contents.{kept_at};
ghost use Rattle.cas_record.specs.declared.mark.Acknowledgment.{Acknowledgment as AnAcknowledgment};
ghost use Rattle.cas_record.specs.declared.mark.Mark.TheVariants.{Acked};
ghost use Rattle.cas_record.specs.Legal.{IsLegal};
ghost use Rattle.cas_record.specs.Logs.Orderly.{IsAboveFloors};
ghost use Rattle.cas_record.specs.Places.{Stands};

use crate::fault::OpenFault;
use crate::open::{Lists, Setup, first_members, give_disks, give_shelves, start, take_shelves};
use crate::reopen::{OpeningFloor, place_shelves, record_of, take_up_desks};
use cas_acceptor::Acceptor;
use cas_ballot::{AcceptorId, Members};
use cas_change::Key;
use cas_disk::Disk;
use cas_fate::Leg;
use cas_flow::Flow;
use cas_proposer::Desk;
use cas_quorum::Era;
use cas_record::{Answer, Record};
use cas_round::RoundVerdict;
use cas_slot::{Shelf, Slot};
use cas_world_calls::answers::{copy_of, is_done};
use cas_world_calls::call::{Caller, OpenCall};
use cas_world_calls::council::{Council, EXCHANGE_PLACE};
use std::alloc::{AllocError, Global};
use std::marker::Model;

/// How large a world is.
#[derive(Clone, Copy, Debug, PartialEq, Eq)]
pub struct Config {
    /// How many acceptors are members at first, from 1 to 9. They are numbered from 1.
    pub acceptors: u8,
    /// How many proposers of clients there are, from 1 to 16. They are numbered from 1, and 0 is the operator's.
    pub proposers: u8,
}

/// The whole store: its acceptors over their shelves, its proposers over their vaults, the frames between them, the calls of the
/// callers, each of which has a proposer of its own number, and the record of what happened.
#[derive(Drop)]
pub struct World<S: Shelf, V: Disk> {
    /// How many proposers there are, and the lists in which all is handed back.
    pub(crate) setup: Setup<S, V>,
    pub(crate) council: Council,
    /// The acceptors, each at the place of its number.
    pub(crate) acceptors: Vec<Acceptor<S>>,
    /// The desks of the proposers, likewise.
    pub(crate) desks: Vec<Desk<V>>,
    /// The callers, likewise.
    pub(crate) callers: Vec<Caller>,
    pub(crate) flow: Flow,
    pub(crate) record: Record,
}

impl<S: Shelf, V: Disk> Model for World<S, V> {
    ghost use Rattle.std.specs.Prelude.{vec_len, vec_capacity};
    ghost use Rattle.cas_model.specs.View.{View, meaning};
    ghost use Rattle.cas_world.specs.World.{view_of, IsWorld};

    ghost Value = { View S V };

    ghost view = { λ w. view_of w.setup.proposers w.council w.acceptors.items w.desks.items w.callers.items w.flow w.«record» };

    ghost invariant = { λ w. IsWorld (meaning S.Shelf V.Disk) (view_of w.setup.proposers w.council w.acceptors.items w.desks.items w.callers.items w.flow w.«record») w.callers.items w.«record».room };
}

impl<S: Shelf, V: Disk> World<S, V> {
    /// A world in which nothing has happened: the shelves of the members and the vaults of the proposers are started, in the order of
    /// their numbers. There are 64 shelves and 17 disks of vaults, each at the place of its number.
    ///
    /// After an `Err` the shelves and the disks come back in their places. [`OpenFault::DiskFault`] tells the first that failed.
    pub fn open(
        alloc: Global,
        config: Config,
        mut shelves: Vec<S>,
        mut vaults: Vec<V>,
    ) -> Result<World<S, V>, (OpenFault, Vec<S>, Vec<V>)>
        requires some { 0 < config.acceptors }
        requires few { config.acceptors ≤ 9 }
        requires proposers { config.proposers ≤ 16 }
        requires shelves { vec_len shelves ≡ 64 }
        requires vaults { vec_len vaults ≡ 17 }
        ensures opening { IfOk result
            (IsOpening (meaning S.Shelf V.Disk) (members_to config.acceptors)) }
        ensures places { IfOk result HasPlaces }
        ensures last_proposer { IfOk result (λ world. world.last_proposer ≡ config.proposers) }
        ensures shelves { IfOk result (λ world. AreStartedBelow (shelf_meaning S.Shelf)
            S.fault_count (unstarted 0 shelves.items) (config.acceptors + 1) world.acceptors) }
        ensures vaults { IfOk result (λ world. AreDesksBelow (disk_meaning V.Disk)
            V.fault_count vaults.items (config.proposers + 1) world.desks) }
        ensures fault { IfErr result (λ back.
            DoesNotOpen (meaning S.Shelf V.Disk) S.fault_count V.fault_count config.acceptors
            config.proposers shelves.items vaults.items back.0 back.1.items back.2.items) }
        ensures back { IfErr result (λ back. (vec_len back.1 ≡ 64) × (vec_len back.2 ≡ 17)) }
    {
        let Lists {
            mut acceptors,
            mut desks,
            callers,
            flow,
        } = match Lists::new(alloc, config.proposers) {
            Ok(lists) => lists,
            Err(_) => return Err((OpenFault::NoMemory, shelves, vaults)),
        };
        take_shelves(&mut acceptors, &mut shelves);
        vaults.reverse();
        let members = first_members(config.acceptors);
        match start(alloc, config, &mut acceptors, &mut desks, &mut vaults) {
            Ok(()) => Ok(World {
                setup: Setup {
                    proposers: config.proposers,
                    shelves,
                    disks: vaults,
                },
                council: Council::new(Era::majority(0, members), members),
                acceptors,
                desks,
                callers,
                flow,
                record: Record::new(alloc),
            }),
            Err(fault) => {
                give_shelves(acceptors, &mut shelves);
                give_disks(desks, &mut vaults);
                Err((fault, shelves, vaults))
            }
        }
    }

    /// A world that goes on from what stood before. The history of each key opens with its floor, which the shelf of each member holds
    /// and of which the record has a mark, in the order of the list. The vaults of the proposers are started where their disks are empty
    /// and reopened where they are not; each proposer goes on above all that it ever drew and above `past`, which is at least
    /// the counter of each floor, one age older, and in era 0 over the members. Acceptors that were used before never join.
    ///
    /// After an `Err` the shelves and the disks come back in their places. [`OpenFault::DiskFault`], [`OpenFault::Foreign`] and
    /// [`OpenFault::Spent`] tell the first vault that was not taken up: its disk failed, it is no vault, or its age is 2^48.
    pub fn open_on(
        alloc: Global,
        config: Config,
        members: Members,
        used: Members,
        floors: Vec<OpeningFloor>,
        mut shelves: Vec<S>,
        mut vaults: Vec<V>,
        past: u64,
    ) -> Result<World<S, V>, (OpenFault, Vec<S>, Vec<V>)>
        requires some { 0 < config.acceptors }
        requires few { config.acceptors ≤ 9 }
        requires count { length members ≡ config.acceptors }
        requires proposers { config.proposers ≤ 16 }
        requires floors { AreOpenings (openings_of floors.items) }
        requires counters { greatest_counter floors.items ≤ past }
        requires past { past ≤ 2 ^ 48 }
        requires marks { vec_len floors ≤ most_marks }
        requires shelves { vec_len shelves ≡ 64 }
        requires vaults { vec_len vaults ≡ 17 }
        requires held { MembersHold S.is_up S.contents members
            (openings_of floors.items) shelves.items }
        ensures opening { IfOk result (IsOpeningOn (meaning S.Shelf V.Disk) members
            (union_of used members) (openings_of floors.items)) }
        ensures places { IfOk result HasPlaces }
        ensures last_proposer { IfOk result (λ world. world.last_proposer ≡ config.proposers) }
        ensures shelves { IfOk result (λ world. world.acceptors ≡ placed members 0 shelves.items) }
        ensures vaults { IfOk result (λ world. AreTakenUpBelow (disk_meaning V.Disk)
            V.seen V.fault_count past vaults.items (config.proposers + 1) world.desks) }
        ensures fault { IfErr result (λ back. DoesNotGoOn (disk_meaning V.Disk) V.seen V.fault_count
            past config.proposers shelves.items vaults.items back.0 back.1.items back.2.items) }
        ensures back { IfErr result (λ back. (vec_len back.1 ≡ 64) × (vec_len back.2 ≡ 17)) }
    {
        let record = match record_of(alloc, floors) {
            Ok(record) => record,
            Err(_) => return Err((OpenFault::NoMemory, shelves, vaults)),
        };
        let Lists {
            mut acceptors,
            mut desks,
            callers,
            flow,
        } = match Lists::new(alloc, config.proposers) {
            Ok(lists) => lists,
            Err(_) => return Err((OpenFault::NoMemory, shelves, vaults)),
        };
        place_shelves(&mut acceptors, &mut shelves, members);
        vaults.reverse();
        match take_up_desks(alloc, &mut desks, &mut vaults, config.proposers, past) {
            Ok(()) => Ok(World {
                setup: Setup {
                    proposers: config.proposers,
                    shelves,
                    disks: vaults,
                },
                council: Council::new(Era::majority(0, members), used.union(&members)),
                acceptors,
                desks,
                callers,
                flow,
                record,
            }),
            Err(fault) => {
                give_shelves(acceptors, &mut shelves);
                give_disks(desks, &mut vaults);
                Err((fault, shelves, vaults))
            }
        }
    }

    /// Hands back the record, the shelves and the disks of the vaults, each at the place of its number. The record is legal, as that of
    /// [`World::record`], and what is acknowledged in it stands on the shelves of those that confirmed it, whatever a crash then leaves,
    /// until a floor is made at or above it. Members of an era in which a proposer works hold what is settled of each key, whatever a crash
    /// then leaves of their shelves, if a prepare quorum of that era is among them.
    pub fn parts(self) -> (Record, Vec<S>, Vec<V>)
        ensures marks { result.0.marks ≡ self.marks }
        ensures legal { S.tells → V.tells → IsLegal (reverse result.0.marks) }
        ensures writable { AreWritable result.0.marks }
        ensures shelves { result.1.items ≡ shelves_of self.acceptors }
        ensures all_shelves { vec_len result.1 ≡ 64 }
        ensures disks { take (self.last_proposer + 1) result.2.items ≡ disks_of self.desks }
        ensures all { vec_len result.2 ≡ 17 }
        ensures kept { S.tells → V.tells → (a : AnAcknowledgment) → Stands (Acked a)
            (reverse self.marks) → IsAboveFloors (reverse self.marks) a.key a.ballot
            → AcknowledgedIsKept (meaning S.Shelf V.Disk) self a }
        ensures held { S.tells → V.tells → SettledIsHeld (meaning S.Shelf V.Disk) self }
    {
        let World {
            setup,
            council: _,
            acceptors,
            desks,
            callers: _,
            flow: _,
            record,
        } = self;
        let Setup {
            proposers: _,
            mut shelves,
            mut disks,
        } = setup;
        give_shelves(acceptors, &mut shelves);
        give_disks(desks, &mut disks);
        (record, shelves, disks)
    }

    /// The record of all that has happened. It is legal, where the shelves and the disks tell what they keep: each register has one
    /// history, in which every change that was answered done stands once, after all that was settled when its call began, one that was
    /// left unsettled at most once, and one that was refused never. Each mark of what the operator was told bears an answer that a record can
    /// bear: not what a probe found, and none by which a change that is done stops its call.
    pub fn record(&self) -> &Record
        ensures marks { result.now.marks ≡ self.now.marks }
        ensures legal { S.tells → V.tells → IsLegal (reverse result.now.marks) }
        ensures writable { AreWritable result.now.marks }
    {
        &self.record
    }

    /// The era in which the operator's proposer works.
    pub fn era(&self) -> &Era
        ensures { result.now ≡ era_at self.now 0 }
    {
        self.council.eras.of(0)
    }

    /// The number of the caller's next call.
    pub fn next_call(&self, caller: u8) -> u32
        requires { caller ≤ self.now.last_proposer }
        ensures { option_map next_number (slice_get self.now.callers caller) ≡ Some result }
    {
        self.callers[usize::from(caller)].next()
    }

    /// The leg of the proposer's first frame, and the acceptor at its other end. `None` comes exactly where no own frame waits. While an
    /// exchange is open, its frames are those of proposer 0.
    pub fn front(&self, proposer: u8) -> Option<(Leg, AcceptorId)>
        requires { proposer ≤ self.now.last_proposer }
        ensures { result ≡ option_map head_of
            (slice_get (queue_at self.now.flow (place_of self.now proposer)).messages 0) }
    {
        let place = if self.asks_as(proposer) {
            EXCHANGE_PLACE
        } else {
            proposer
        };
        self.flow.front(place)
    }

    /// Whether the proposer's frames are those of an exchange that is open.
    pub(crate) fn asks_as(&self, proposer: u8) -> bool
        ensures { result ≡ asks_as self.now.council.exchange proposer }
    {
        proposer == 0 && self.council.exchange.is_some()
    }

    /// How the caller's open call was closed by another. `None` comes where it was not; `Done` never comes.
    pub fn closed(&self, proposer: u8) -> Option<Answer>
        requires { proposer ≤ self.now.last_proposer }
        ensures { (caller : CallerView)
            → IsAt self.now.callers proposer caller → result ≡ closed_in caller.call }
    {
        match &self.callers[usize::from(proposer)].call {
            Some(call) => closed_by(call),
            None => None,
        }
    }

    /// How the open phase of the proposer's round ends, should no other reply arrive. `None` comes exactly where no round is open.
    pub fn verdict(&self, proposer: u8) -> Option<RoundVerdict>
        requires { proposer ≤ self.now.last_proposer }
        ensures { (desk : DeskView V)
            → IsAt self.now.desks proposer desk → IsVerdictIn desk.round result }
    {
        match self.desks[usize::from(proposer)].round() {
            Some(round) => Some(round.verdict()),
            None => None,
        }
    }

    /// What the acceptor, which is up, keeps for the key.
    pub fn slot_of(&self, id: AcceptorId, key: &Key) -> Result<Option<Slot>, AllocError>
        ensures { IfOk result (λ slot. (acceptor : AcceptorView S) → IsAt self.now.acceptors
            id acceptor → slot ≡ kept_at (S.contents acceptor.shelf) key.now) }
    {
        self.acceptors[usize::from(id.number())].shelf().get(key)
    }
}

/// What the call was told, where its round was closed by another. It is never told then that its change is done.
fn closed_by(call: &OpenCall) -> Option<Answer>
    ensures { result ≡ told_if call.now.is_closed call.now.told }
{
    match &call.told {
        Some(told) => {
            if call.is_closed && !is_done(told) {
                Some(copy_of(told))
            } else {
                None
            }
        }
        None => None,
    }
}
