//! A script runs, line by line.

ghost use Rattle.std.specs.Prelude.{◌≡◌, ◌≢◌, ◌≤◌, ℕ, List, Some, true, vec_items, IfOk, OnErr};
ghost use Rattle.cas_model.specs.Council.{IsAtRest};
ghost use Rattle.cas_model.specs.View.{meaning};
ghost use Rattle.cas_lines.specs.Answers.{bad_line};
ghost use Rattle.cas_lines.specs.Command.{IsLine, IsKnown, AskedChange, change_of};
ghost use Rattle.cas_lines.specs.declared.command.Command.{Command as ACommand};
ghost use Rattle.cas_world.specs.Eras.Plans.{asked_of};
ghost use Rattle.casreg_script.specs.Stage.{AllIdle};
ghost use Rattle.casreg_script.specs.Script.{State, IsInState, AnswersLine, RanOrNot, RunsChange, RunsEvent, RunsProbe, RunsRead, RunsCollection, RunsMembership, Runs, is_event, opening_state};

use crate::changes::change;
use crate::collect::collect;
use crate::events::{crash_acceptor, restart_acceptor, restart_proposer, show, stray};
use crate::halt::Halt;
use crate::membership::change_members;
use crate::network::Network;
use crate::probe::probe;
use crate::read::read;
use crate::script::{PROPOSERS, Script};
use cas_ballot::AcceptorId;
use cas_change::Key;
use cas_change_text::{TextRefusal, Why};
use cas_disk::Disk;
use cas_lines::answer::{
    EventAnswer, print_answer, print_bad, print_event, print_op, print_read, print_shown,
};
use cas_lines::command::{Change, Command, read_command};
use cas_lines::lines::Line;
use cas_record::{Answer, OpAnswer, ReadAnswer};
use cas_slot::Shelf;
use cas_world::{Target, World};
use std::alloc::{AllocError, Global};

impl<S: Shelf, V: Disk> Script<S, V> {
    /// A script over this world, which has so many proposers of clients, and in which no call is open. A change has so many rounds at most.
    pub fn new(world: World<S, V>, proposers: u8, tries: u8) -> Script<S, V>
        requires known { world.last_proposer ≡ proposers }
        requires few { proposers ≤ 16 }
        requires some { 1 ≤ tries }
        requires idle { AllIdle world }
        requires quiet { IsAtRest world.council }
        ensures state { IsInState result (opening_state world) }
        ensures tries { result.tries ≡ tries }
    {
        Script {
            world,
            network: Network::ruled(),
            halts: [Halt::NOWHERE; PROPOSERS],
            proposers,
            tries,
        }
    }

    /// The world, without its script. No call is open.
    pub fn into_world(self) -> World<S, V>
        ensures { result ≡ self.world }
    {
        self.world
    }

    /// Runs the line, and gives the text of its answer, which is empty for a remark. Only memory can fail, and the line was run then,
    /// or was not.
    pub fn answer(&mut self, alloc: Global, line: &Line) -> Result<Vec<u8>, AllocError>
        ensures answers { (state : State _ _)
            → IsInState self.old state → IfOk result (λ text. AnswersLine (meaning S.Shelf V.Disk)
            self.old.tries state line.now.bytes line.now.number (vec_items text) self.new) }
        ensures err { (state : State _ _) → IsInState self.old state → OnErr result
            (RanOrNot (meaning S.Shelf V.Disk) self.old.tries state line.now.bytes self.new) }
        ensures tries { self.new.tries ≡ self.old.tries }
    {
        match read_command(alloc, line.bytes(), self.proposers) {
            Ok(Some(command)) => self.answer_command(alloc, &command),
            Ok(None) => Ok(Vec::new(alloc)),
            Err(refusal) => answer_refusal(alloc, line.number(), refusal),
        }
    }

    /// Runs what a line asks for, and gives the text of its answer.
    fn answer_command(&mut self, alloc: Global, command: &Command) -> Result<Vec<u8>, AllocError>
        requires { IsKnown self.old.world.last_proposer command.now }
        ensures answers { (state : State _ _) (line : List ℕ) (number : ℕ)
            → IsInState self.old state → IsLine self.old.world.last_proposer line (Some command.now)
            → IfOk result (λ text. AnswersLine (meaning S.Shelf V.Disk)
            self.old.tries state line number (vec_items text) self.new) }
        ensures err { (state : State _ _) (line : List ℕ)
            → IsInState self.old state → IsLine self.old.world.last_proposer line (Some command.now)
            → OnErr result (RanOrNot (meaning S.Shelf V.Disk) self.old.tries state line self.new) }
        ensures tries { self.new.tries ≡ self.old.tries }
    {
        if let Command::Show { id, key } = command {
            let shown = show(&self.world, *id, key)?;
            return print_shown(alloc, *id, key, &shown);
        }
        if let Command::Probe { key } = command {
            let answer = self.run_probe(key)?;
            return print_op(alloc, &answer);
        }
        if let Command::Read { key } = command {
            let answer = self.run_read(key)?;
            return print_read(alloc, &answer);
        }
        if let Command::Collect { key } = command {
            let answer = self.run_collection(alloc, key)?;
            return print_op(alloc, &answer);
        }
        if let Command::Join { id } = command {
            let answer = self.run_membership(alloc, &Target::Join(*id))?;
            return print_op(alloc, &answer);
        }
        if let Command::Leave { id } = command {
            let answer = self.run_membership(alloc, &Target::Leave(*id))?;
            return print_op(alloc, &answer);
        }
        if let Command::Resize {
            need_prep,
            need_acc,
        } = command
        {
            let answer = self.run_membership(
                alloc,
                &Target::Resize {
                    need_prep: *need_prep,
                    need_acc: *need_acc,
                },
            )?;
            return print_op(alloc, &answer);
        }
        match command.change(alloc)? {
            Some(asked) => {
                let answer = self.run_change(&asked);
                print_answer(alloc, asked.caller, &answer)
            }
            None => {
                let answer = self.run_event(command);
                print_event(alloc, &answer)
            }
        }
    }

    /// Runs a change, and gives its answer.
    fn run_change(&mut self, asked: &Change<'_>) -> Answer
        requires { asked.now.caller ≤ self.old.world.last_proposer }
        ensures runs { (state : State _ _) → IsInState self.old state → Runs (λ new. RunsChange
            (meaning S.Shelf V.Disk) self.old.tries state (record {
              caller = asked.now.caller;
              key = asked.now.key.now;
              program = asked.now.program;
            }) result new) self.new }
        ensures tries { self.new.tries ≡ self.old.tries }
    {
        let halt = &mut self.halts[usize::from(asked.caller)];
        change(
            &mut self.world,
            &mut self.network,
            halt,
            self.tries,
            asked.caller,
            asked.key,
            &asked.program,
        )
    }

    /// Runs a probe, and gives what the operator is told. After an `Err` it was not run.
    fn run_probe(&mut self, key: &Key) -> Result<OpAnswer, AllocError>
        ensures runs { (state : State _ _) → IsInState self.old state → IfOk result (λ answer.
            Runs (λ new. RunsProbe (meaning S.Shelf V.Disk) state key.now answer new) self.new) }
        ensures err { OnErr result (self.new ≡ self.old) }
        ensures tries { self.new.tries ≡ self.old.tries }
    {
        probe(&mut self.world, &mut self.network, key)
    }

    /// Runs a read, and gives what the operator is answered. After an `Err` it was not run.
    fn run_read(&mut self, key: &Key) -> Result<ReadAnswer, AllocError>
        ensures runs { (state : State _ _) → IsInState self.old state → IfOk result (λ answer.
            Runs (λ new. RunsRead (meaning S.Shelf V.Disk) state key.now answer new) self.new) }
        ensures err { OnErr result (self.new ≡ self.old) }
        ensures tries { self.new.tries ≡ self.old.tries }
    {
        read(&mut self.world, &mut self.network, key)
    }

    /// Runs a change of membership, and gives what the operator is told. After an `Err` it was not run.
    fn run_membership(&mut self, alloc: Global, target: &Target) -> Result<OpAnswer, AllocError>
        ensures runs { (state : State _ _) → IsInState self.old state
            → IfOk result (λ answer. Runs (λ new. RunsMembership (meaning S.Shelf V.Disk)
            self.old.tries state (asked_of target.now) answer new) self.new) }
        ensures err { OnErr result (self.new ≡ self.old) }
        ensures tries { self.new.tries ≡ self.old.tries }
    {
        change_members(
            alloc,
            &mut self.world,
            &mut self.network,
            &mut self.halts[0],
            self.tries,
            target,
        )
    }

    /// Runs a collection, and gives what the operator is told. After an `Err` it was not run.
    fn run_collection(&mut self, alloc: Global, key: &Key) -> Result<OpAnswer, AllocError>
        ensures runs { (state : State _ _) → IsInState self.old state
            → IfOk result (λ answer. Runs (λ new. RunsCollection (meaning S.Shelf V.Disk)
            self.old.tries state key.now answer new) self.new) }
        ensures err { OnErr result (self.new ≡ self.old) }
        ensures tries { self.new.tries ≡ self.old.tries }
    {
        collect(
            alloc,
            &mut self.world,
            &mut self.network,
            &mut self.halts[0],
            self.tries,
            key,
        )
    }

    /// Runs an event line, and gives its answer.
    fn run_event(&mut self, command: &Command) -> EventAnswer
        requires known { IsKnown self.old.world.last_proposer command.now }
        requires event { is_event command.now ≡ true }
        ensures runs { (state : State _ _) → IsInState self.old state → Runs (λ new.
            RunsEvent (meaning S.Shelf V.Disk) state command.now result new) self.new }
        ensures tries { self.new.tries ≡ self.old.tries }
    {
        match command {
            Command::Net { leg, who, verdict } => {
                self.network.set(*leg, *who, *verdict);
                EventAnswer::Ok
            }
            Command::CrashAcceptor { id } => crash_acceptor(&mut self.world, *id),
            Command::RestartAcceptor { id } => restart_acceptor(&mut self.world, *id),
            Command::CrashProposer { proposer } => {
                self.world.crash_proposer(*proposer);
                EventAnswer::Ok
            }
            Command::RestartProposer { proposer } => restart_proposer(&mut self.world, *proposer),
            Command::HaltPrepared { proposer } => {
                self.halts[usize::from(*proposer)].after_prepare = true;
                EventAnswer::Ok
            }
            Command::HaltProposed { proposer } => {
                self.halts[usize::from(*proposer)].after_propose = true;
                EventAnswer::Ok
            }
            Command::Stray { index } => stray(&mut self.world, *index),
            _ => unreachable!(),
        }
    }
}

/// The text that says why the line of that number is bad. What is refused for want of memory alone is no bad line.
fn answer_refusal(alloc: Global, number: u32, refusal: TextRefusal) -> Result<Vec<u8>, AllocError>
    ensures { IfOk result (λ text. (refusal.why ≢ Why.NoMemory)
        × (vec_items text ≡ bad_line number refusal.why)) }
{
    match refusal.why {
        Why::NoMemory => Err(AllocError),
        why => print_bad(alloc, number, why),
    }
}
