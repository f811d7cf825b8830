//! Acceptors and proposers that stop, and are up again.

ghost use Rattle.std.specs.Prelude.{◌≡◌, ◌≤◌, slice_get};
ghost use Rattle.cas_world.specs.Readers.{up_in};
ghost use Rattle.cas_model.specs.Stops.Step.{CrashesDesk, broken_off_view};
ghost use Rattle.cas_model.specs.Step.{Step, CrashAcceptor, RestartAcceptor, CrashProposer, RestartProposer};
ghost use Rattle.cas_model.specs.View.{IsAt, meaning, disk_meaning, shelf_meaning};
ghost use Rattle.cas_acceptor.specs.Acceptor.{AcceptorView};
ghost use Rattle.cas_proposer.specs.Desk.{DeskView};
ghost use Rattle.cas_world.specs.Stops.Restarting.{TellsOfAcceptor, TellsOfDesk};

use crate::world::World;
use cas_ballot::AcceptorId;
use cas_disk::Disk;
use cas_slot::{Shelf, ShelfFault};
use cas_vault::VaultError;
use cas_world_calls::answers::crash_answer;
use cas_world_calls::council::EXCHANGE_PLACE;

impl<S: Shelf, V: Disk> World<S, V> {
    /// Whether the acceptor is up. `None` comes exactly where it was never a member since the opening.
    pub fn acceptor_up(&self, id: AcceptorId) -> Option<bool>
        ensures { result ≡ up_in self.now.council.used id (slice_get self.now.acceptors id) }
    {
        if self.council.used.has(id) {
            Some(!self.acceptors[usize::from(id.number())].is_down())
        } else {
            None
        }
    }

    /// The acceptor crashes.
    pub fn crash_acceptor(&mut self, id: AcceptorId)
        ensures { Step (meaning S.Shelf V.Disk) self.old (CrashAcceptor id) self.new }
    {
        self.acceptors[usize::from(id.number())].crash();
    }

    /// The acceptor is up again, or stays down by this fault. One that is up stays as it is.
    ///
    /// [`ShelfFault::DiskFault`] comes only where the count of faults of its shelf rose, [`ShelfFault::Foreign`] only where a crash left
    /// bytes that are no shelf from that place on, and [`ShelfFault::Full`] never.
    pub fn restart_acceptor(&mut self, id: AcceptorId) -> Result<(), ShelfFault>
        ensures step { Step (meaning S.Shelf V.Disk) self.old (RestartAcceptor id) self.new }
        ensures tells { (was now : AcceptorView S)
            → IsAt self.old.acceptors id was → IsAt self.new.acceptors id now
            → TellsOfAcceptor (shelf_meaning S.Shelf) was now result }
    {
        self.acceptors[usize::from(id.number())].restart()
    }

    /// The proposer crashes: its open round is closed, its caller is told so, and the frames of the round join the late ones. So do those of
    /// an exchange of proposer 0, which ends then with what it was told.
    pub fn crash_proposer(&mut self, proposer: u8)
        requires { proposer ≤ self.old.last_proposer }
        ensures { Step (meaning S.Shelf V.Disk) self.old (CrashProposer proposer) self.new }
    {
        self.crash_desk(proposer);
        if proposer == 0 {
            self.break_off();
        }
    }

    /// The proposer's desk crashes, within a round or beside one.
    fn crash_desk(&mut self, proposer: u8)
        requires { proposer ≤ self.old.last_proposer }
        ensures { CrashesDesk (meaning S.Shelf V.Disk) self.old proposer self.new }
    {
        let place = usize::from(proposer);
        let closes = self.desks[place].round().is_some();
        self.desks[place].crash();
        self.flow.abandon(proposer);
        if closes {
            let proposed = self.callers[place].has_proposed();
            self.callers[place].close_round(crash_answer(proposed));
        }
    }

    /// The exchange of proposer 0, if one is open, ends with what it was told, and its frames join the late ones.
    fn break_off(&mut self)
        ensures { self.new ≡ broken_off_view self.old }
    {
        self.flow.abandon(EXCHANGE_PLACE);
        self.council.break_off();
    }

    /// The proposer is up again, with its counter at the bound of its vault, or stays down by this error. One that is up stays as it
    /// is.
    ///
    /// [`VaultError::VaultFault`] comes only where the count of faults of its vault's disk rose, [`VaultError::Foreign`] only where a
    /// crash left bytes that are no vault from that place on, and [`VaultError::Spent`] never.
    pub fn restart_proposer(&mut self, proposer: u8) -> Result<(), VaultError>
        requires { proposer ≤ self.old.last_proposer }
        ensures step { Step (meaning S.Shelf V.Disk) self.old (RestartProposer proposer) self.new }
        ensures tells { (was now : DeskView V) → IsAt self.old.desks proposer was
            → IsAt self.new.desks proposer now → TellsOfDesk (disk_meaning V.Disk) was now result }
    {
        let desk = &mut self.desks[usize::from(proposer)];
        let was_down = desk.is_down();
        let restarted = desk.restart();
        if !was_down {
            return restarted;
        }
        if restarted.is_err() {
            return restarted;
        }
        let number = desk.era();
        self.council.show(proposer, number);
        restarted
    }
}
