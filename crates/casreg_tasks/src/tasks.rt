//! What the lines of a race ask its callers for. All lines are read before any is run.

ghost use Rattle.std.specs.Prelude.{◌≡◌, ◌≢◌, ◌+◌, ◌≤◌, ◌∷◌, [], ◌++◌, ℕ, List, length, map, vec_items, vec_len, IfOk, IfSome, IsSome, OnOk, IsErrOf, Some};
ghost use Rattle.std.specs.Io.KnownBytes.{IsAtEnd};
ghost use Rattle.cas_base.specs.Faults.{Rose};
ghost use Rattle.cas_change_text.specs.Reading.{GivesInMemory};
ghost use Rattle.cas_lines.specs.Answers.{bad_line};
ghost use Rattle.cas_lines.specs.Command.{IsKnown};
ghost use Rattle.cas_lines.specs.Lines.{TooLong, TooMany, Whole, ending_of};
ghost use Rattle.casreg_tasks.specs.Tasks.{AreAllLines, AreParted, race_line_in, task_of};

use cas_ballot::AcceptorId;
use cas_change::{Key, Program};
use cas_change_text::{TextRefusal, Why};
use cas_lines::answer::print_bad;
use cas_lines::command::{Change, Command, LONGEST_LINE, read_command};
use cas_lines::is_event;
use cas_lines::lines::{Line, LineFault, Lines};
use cas_lines::source::Source;
use std::alloc::{AllocError, Global};

/// What a line asks its caller for.
#[derive(Debug, Drop)]
pub enum Task {
    /// A change of the key's register.
    Change { key: Key, program: Program },
    /// The acceptor becomes a member.
    Join { id: AcceptorId },
    /// The acceptor is a member no longer.
    Leave { id: AcceptorId },
    /// Quorums get these sizes.
    Resize { need_prep: u32, need_acc: u32 },
    /// What is kept for the key, whose register is empty, is removed.
    Collect { key: Key },
    /// Each member is asked what it keeps for the key.
    Probe { key: Key },
    /// The key is read, and no member writes anything.
    Read { key: Key },
}

/// The lines of a race, each where it belongs.
#[derive(Debug, Drop)]
pub struct Sheet {
    /// The answers to the lines that are bad, in the order of the lines.
    pub bad: Vec<u8>,
    /// What each caller is asked for, in the order of its lines, at the place of its number. The operator is caller 0.
    pub tasks: Vec<Vec<Task>>,
}

/// Reads all lines of the source, whose callers are 1 to `proposers`. An `Err` is as for [`Lines::next`], and `NoMemory` comes also where there is
/// none for a task or an answer.
pub fn read_sheet<S: Source>(
    alloc: Global,
    source: &mut S,
    proposers: u8,
) -> Result<Sheet, LineFault>
    ensures parted { IfOk result (λ sheet. (lines : List (List ℕ))
        × AreAllLines (S.remaining source.old) lines
        × AreParted proposers lines sheet.bad.items (map vec_items sheet.tasks.items)) }
    ensures read { OnOk result (IsAtEnd (S.remaining source.new)) }
    ensures whole { OnOk result
        (IfSome (S.remaining source.old) (λ input. ending_of input ≡ Whole)) }
    ensures read_fault { IsErrOf result LineFault.ReadFault
        → Rose (S.faults_of source.old) (S.faults_of source.new) }
    ensures too_many { IsErrOf result LineFault.TooManyLines
        → IfSome (S.remaining source.old) (λ input. ending_of input ≡ TooMany) }
    ensures endless { (line : ℕ) → IsErrOf result (LineFault.Endless line)
        → IfSome (S.remaining source.old) (λ input. ending_of input ≡ TooLong line) }
{
    let mut sheet = Sheet::blank(alloc, proposers)?;
    let mut lines = Lines::new(alloc);
    while let Some(line) = lines.next(source)? {
        sheet.add(alloc, &line, proposers)?;
    }
    Ok(sheet)
}

impl Sheet {
    /// A sheet on which no caller is asked for anything.
    fn blank(alloc: Global, proposers: u8) -> Result<Sheet, AllocError>
        ensures { IfOk result
            (λ sheet. AreParted proposers [] sheet.bad.items (map vec_items sheet.tasks.items)) }
    {
        let callers = usize::from(proposers) + 1;
        let mut tasks = Vec::with_capacity(alloc, callers)?;
        for _caller in 0..callers {
            tasks.push_reserved(Vec::new(alloc));
        }
        Ok(Sheet {
            bad: Vec::new(alloc),
            tasks,
        })
    }

    /// Puts one line more on the sheet, where it belongs.
    fn add(&mut self, alloc: Global, line: &Line, proposers: u8) -> Result<(), AllocError>
        requires callers { vec_len self.old.tasks ≡ proposers + 1 }
        ensures callers { vec_len self.new.tasks ≡ proposers + 1 }
        ensures parted { (lines : List (List ℕ)) → line.now.number ≡ length lines + 1
            → AreParted proposers lines self.old.bad.items (map vec_items self.old.tasks.items)
            → OnOk result (AreParted proposers (lines ++ line.now.bytes ∷ []) self.new.bad.items
            (map vec_items self.new.tasks.items)) }
    {
        match read_race_line(alloc, line.bytes(), proposers) {
            Ok(Some(command)) => {
                let (caller, task) = assign(alloc, command)?;
                self.tasks[usize::from(caller)].push(task)?;
                Ok(())
            }
            Ok(None) => Ok(()),
            Err(refusal) => self.refuse(alloc, line.number(), refusal),
        }
    }

    /// Answers the line of that number, which is bad. What is refused for want of memory alone is no bad line.
    fn refuse(&mut self, alloc: Global, number: u32, refusal: TextRefusal) -> Result<(), AllocError>
        ensures why { OnOk result (refusal.why ≢ Why.NoMemory) }
        ensures bad { OnOk result
            (self.new.bad.items ≡ self.old.bad.items ++ bad_line number refusal.why) }
        ensures tasks { self.new.tasks ≡ self.old.tasks }
    {
        match refusal.why {
            Why::NoMemory => Err(AllocError),
            why => {
                let answer = print_bad(alloc, number, why)?;
                self.bad.extend_from_slice(&answer)
            }
        }
    }
}

/// What a line of a race asks for, and nothing where it is a remark. It is read as a line of a script, but that an event's is refused at its
/// first word.
fn read_race_line(alloc: Global, line: &[u8], proposers: u8) -> Result<Option<Command>, TextRefusal>
    ensures exact { GivesInMemory result (race_line_in proposers line.now) }
    ensures known { IfOk result (λ said. IfSome said (IsKnown proposers)) }
    ensures asks { IfOk result (λ said. IfSome said (λ command. IsSome (task_of command))) }
{
    if line.len() <= LONGEST_LINE && is_event(line) {
        return Err(TextRefusal {
            why: Why::UnknownWord,
            word: 0,
        });
    }
    read_command(alloc, line, proposers)
}

/// Whom a command asks, and for what. It is none of an event.
fn assign(alloc: Global, command: Command) -> Result<(u8, Task), AllocError>
    requires { IsSome (task_of command) }
    ensures { IfOk result (λ asked. task_of command ≡ Some asked) }
{
    match command {
        Command::Join { id } => Ok((0, Task::Join { id })),
        Command::Leave { id } => Ok((0, Task::Leave { id })),
        Command::Resize {
            need_prep,
            need_acc,
        } => Ok((
            0,
            Task::Resize {
                need_prep,
                need_acc,
            },
        )),
        Command::Collect { key } => Ok((0, Task::Collect { key })),
        Command::Probe { key } => Ok((0, Task::Probe { key })),
        Command::Read { key } => Ok((0, Task::Read { key })),
        command => match command.change(alloc)? {
            Some(
                Change {
                    caller,
                    key,
                    program,
                },
            ) => {
                let key = key.copy()?;
                Ok((caller, Task::Change { key, program }))
            }
            None => unreachable!(),
        },
    }
}
