//! A load over a world: lines that a generator draws, over links that a seeded fate disturbs, with stops and collections between them.

ghost use Rattle.std.specs.Prelude.{◌≡◌, ◌<◌, ◌%◌, Some, length, slice_get, IfOk, OnOk, OnErr};
ghost use Rattle.cas_ballot.specs.Members.{IsMemberSet};
ghost use Rattle.cas_model.specs.Council.{IsAtRest};
ghost use Rattle.cas_model.specs.View.{meaning};
ghost use Rattle.cas_world.specs.Calls.Beginning.{HasNoCall};
ghost use Rattle.casreg_script.specs.Frames.Conditions.{NetworkView};
ghost use Rattle.casreg_script.specs.Load.{AnswersDrawn, LoadBreaksOff, CollectsBehind, IsLoad, StopsBehind, SumsUp, command_of, key_of, text_of};
ghost use Rattle.casreg_script.specs.Frames.Network.{IsNetwork, Through};
ghost use Rattle.casreg_script.specs.Exchanges.Orders.{KeepsIdle};
ghost use Rattle.casreg_script.specs.Stage.{AllIdle};

use crate::changes::change;
use crate::collect::collect;
use crate::events::{crash_acceptor, restart_acceptor};
use crate::halt::Halt;
use crate::network::Network;
use cas_ballot::{AcceptorId, Members};
use cas_change::{Key, Text};
use cas_disk::Disk;
use cas_fate::{Drawn, Generator};
use cas_lines::command::Command;
use cas_lines::summary::Summary;
use cas_record::Answer;
use cas_slot::Shelf;
use cas_world::World;
use std::alloc::{AllocError, Global};

/// An acceptor stops and starts again behind each line that ends so many.
const LINES_TO_A_STOP: u32 = 64;

/// A key is collected behind each line that ends so many.
const LINES_TO_A_COLLECTION: u32 = 100;

/// How many keys a load has.
const KEYS: u32 = 32;

/// Which load is run: over how large a cluster, how often its callers try, and which lines are drawn.
#[derive(Clone, Copy, Debug, PartialEq, Eq)]
pub struct Load {
    /// The acceptors that are members at first: 1 to 9 of them.
    pub members: Members,
    /// How many proposers of clients there are, from 1 to 16.
    pub proposers: u8,
    /// How many rounds a change has at most, from 1.
    pub tries: u8,
    /// What the lines are drawn by.
    pub seed: u64,
    /// How many lines there are.
    pub lines: u32,
}

/// Runs the load over a world of these members and as many proposers, in which no call is open: draws its lines and runs them one after
/// another, and counts their answers. Only memory can fail, and some of the lines were run then.
pub fn run_load<S: Shelf, V: Disk>(
    alloc: Global,
    world: &mut World<S, V>,
    load: Load,
) -> Result<Summary, AllocError>
    requires load { IsLoad load }
    requires known { world.old.last_proposer ≡ load.proposers }
    requires idle { AllIdle world.old }
    requires quiet { IsAtRest world.old.council }
    ensures runs { IfOk result
        (λ summary. SumsUp (meaning S.Shelf V.Disk) load world.old summary world.new) }
    ensures breaks_off { OnErr result
        (LoadBreaksOff (meaning S.Shelf V.Disk) load world.old world.new) }
{
    let mut network = Network::seeded(load.seed.wrapping_add(1));
    let mut generator = Generator::new(load.seed);
    let mut summary = Summary::new();
    for line in 0..load.lines {
        let answer = answer_line(alloc, world, &mut network, &mut generator, load, line)?;
        summary.count(&answer);
        stop_behind(world, &load, line);
        collect_behind(alloc, world, &mut network, load, line)?;
    }
    Ok(summary)
}

/// Draws and runs the line of that number, and gives its answer. After an `Err` it was not run.
fn answer_line<S: Shelf, V: Disk>(
    alloc: Global,
    world: &mut World<S, V>,
    network: &mut Network,
    generator: &mut Generator,
    load: Load,
    line: u32,
) -> Result<Answer, AllocError>
    requires load { IsLoad load }
    requires known { world.old.last_proposer ≡ load.proposers }
    requires idle { AllIdle world.old }
    requires quiet { IsAtRest world.old.council }
    requires network { (by : NetworkView) × IsNetwork network.old by }
    ensures answers { IfOk result (λ answer. Through network.old network.new
        (λ by next. AnswersDrawn (meaning S.Shelf V.Disk) load line (record {
          world = world.old;
          network = by;
          lines = generator.old;
        }) answer (record {
          world = world.new;
          network = next;
          lines = generator.new;
        }))) }
    ensures err { OnErr result (world.new ≡ world.old) }
    ensures idle { AllIdle world.new }
    ensures quiet { IsAtRest world.new.council }
    ensures network { (by : NetworkView)
        → IsNetwork network.old by → (next : NetworkView) × IsNetwork network.new next }
    ensures last_proposer { world.new.last_proposer ≡ world.old.last_proposer }
{
    let drawn = generator.next(load.proposers);
    let command = draw_command(alloc, drawn, line)?;
    match command.change(alloc)? {
        Some(asked) => {
            let mut halt = Halt::NOWHERE;
            Ok(change(
                world,
                network,
                &mut halt,
                load.tries,
                asked.caller,
                asked.key,
                &asked.program,
            ))
        }
        None => unreachable!(),
    }
}

/// Behind each 64th line a member crashes and is restarted, one after another.
fn stop_behind<S: Shelf, V: Disk>(world: &mut World<S, V>, load: &Load, line: u32)
    requires { IsLoad load.now }
    ensures { StopsBehind (meaning S.Shelf V.Disk) load.now line world.old world.new }
{
    if line % LINES_TO_A_STOP == LINES_TO_A_STOP - 1 {
        let place = line / LINES_TO_A_STOP % load.members.count();
        let id = member_at(load.members, place);
        crash_acceptor(world, id);
        restart_acceptor(world, id);
    }
}

/// The member at that place among them, in rising order from 0 on.
fn member_at(members: Members, place: u32) -> AcceptorId
    requires set { IsMemberSet members }
    requires within { place < length members }
    ensures { slice_get members place ≡ Some result }
{
    let mut left = place;
    for number in 0..64 {
        let id = AcceptorId::new(number).unwrap();
        if members.has(id) {
            if left == 0 {
                return id;
            }
            left -= 1;
        }
    }
    unreachable!()
}

/// Behind each 100th line a key is collected, one after another. After an `Err` it was due, and was not.
fn collect_behind<S: Shelf, V: Disk>(
    alloc: Global,
    world: &mut World<S, V>,
    network: &mut Network,
    load: Load,
    line: u32,
) -> Result<(), AllocError>
    requires load { IsLoad load }
    requires idle { HasNoCall world.old 0 }
    requires quiet { IsAtRest world.old.council }
    requires network { (by : NetworkView) × IsNetwork network.old by }
    ensures collects { OnOk result (Through network.old network.new (λ by next.
        CollectsBehind (meaning S.Shelf V.Disk) load line by world.old next world.new)) }
    ensures err { OnErr result ((world.new ≡ world.old) × (line % 100 ≡ 99)) }
    ensures idle { KeepsIdle world.old world.new }
    ensures quiet { IsAtRest world.new.council }
    ensures network { (by : NetworkView)
        → IsNetwork network.old by → (next : NetworkView) × IsNetwork network.new next }
{
    if line % LINES_TO_A_COLLECTION == LINES_TO_A_COLLECTION - 1 {
        let key = draw_key(alloc, line / LINES_TO_A_COLLECTION % KEYS)?;
        let mut halt = Halt::NOWHERE;
        collect(alloc, world, network, &mut halt, load.tries, &key)?;
    }
    Ok(())
}

/// What the line of that number asks for, which was drawn so: of ten kinds five add 1, two get, and one each puts a text, clears and puts a
/// number.
fn draw_command(alloc: Global, drawn: Drawn, line: u32) -> Result<Command, AllocError>
    requires { drawn.kind < 10 }
    ensures { IfOk result (λ command. command ≡ command_of line drawn) }
{
    let caller = drawn.caller;
    let key = draw_key(alloc, u32::from(drawn.key))?;
    match drawn.kind {
        0..=4 => Ok(Command::Add {
            caller,
            key,
            number: 1,
        }),
        5 | 6 => Ok(Command::Get { caller, key }),
        7 => Ok(Command::Set {
            caller,
            key,
            text: draw_text(alloc, line)?,
        }),
        8 => Ok(Command::Del { caller, key }),
        _ => Ok(Command::Num {
            caller,
            key,
            number: i64::from(line),
        }),
    }
}

/// The key of that number: `k` and the number.
fn draw_key(alloc: Global, number: u32) -> Result<Key, AllocError>
    ensures { IfOk result (λ key. key ≡ key_of number) }
{
    let word = format!(in alloc; "k{number}")?;
    match Key::read(alloc, word.as_bytes()) {
        Ok(key) => Ok(key),
        Err(_) => Err(AllocError),
    }
}

/// The text that the line of that number puts: `t` and the number.
fn draw_text(alloc: Global, line: u32) -> Result<Text, AllocError>
    ensures { IfOk result (λ text. text ≡ text_of line) }
{
    let word = format!(in alloc; "t{line}")?;
    match Text::read(alloc, word.as_bytes()) {
        Ok(text) => Ok(text),
        Err(_) => Err(AllocError),
    }
}
