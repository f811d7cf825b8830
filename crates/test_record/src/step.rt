//! Steps of a store as plain data, and the marks that each of them leaves.

use cas_ballot::{AcceptorId, Ballot, Members};
use cas_change::{Act, Body, Clause, Guard, Key, Program, State, Text, Took};
use cas_record::{Acknowledgment, Answer, Cause, Mark, Proposal, Record};
use std::alloc::Global;
use std::test::Fail;

/// What a change does.
#[derive(Clone, Copy)]
pub enum Does {
    Keeps,
    PutsX,
    Adds(i64),
    Clears,
}

impl Does {
    fn program(self, alloc: Global) -> Result<Program, Fail> {
        let act = match self {
            Does::Keeps => Act::Keep,
            Does::PutsX => Act::PutText(Text::read(alloc, b"x")?),
            Does::Adds(number) => Act::Add(number),
            Does::Clears => Act::Clear,
        };
        let guard = Guard::Always;
        Ok(Program::new(vec![in alloc; Clause { guard, act }]?)?)
    }
}

/// What a register holds.
#[derive(Clone, Copy)]
pub enum Holds {
    Nothing,
    /// The text `x` at version 0.
    X,
    /// A number at that version.
    Number(u64, i64),
}

impl Holds {
    pub fn state(self, alloc: Global) -> Result<State, Fail> {
        Ok(match self {
            Holds::Nothing => State::Empty,
            Holds::X => State::Held {
                version: 0,
                body: Body::Text(Text::read(alloc, b"x")?),
            },
            Holds::Number(version, number) => State::Held {
                version,
                body: Body::Number(number),
            },
        })
    }
}

/// Some of the acceptors 1 to 3.
#[derive(Clone, Copy)]
pub enum By {
    All,
    First,
    FirstTwo,
    LastTwo,
}

impl By {
    fn ids(self) -> &'static [u8] {
        match self {
            By::All => &[1, 2, 3],
            By::First => &[1],
            By::FirstTwo => &[1, 2],
            By::LastTwo => &[2, 3],
        }
    }

    fn members(self) -> Members {
        let mut members = Members::EMPTY;
        for id in self.ids() {
            if let Some(id) = AcceptorId::new(*id) {
                members.insert(id);
            }
        }
        members
    }
}

/// A caller, and the number of its call.
pub type Call = (u8, u32);

/// The ballot with that counter and that proposer.
#[derive(Clone, Copy)]
pub struct At(pub u64, pub u8);

impl At {
    pub fn ballot(self) -> Ballot {
        Ballot {
            counter: self.0,
            proposer: self.1,
        }
    }
}

/// One step, of the key `a` where it names none.
#[derive(Clone, Copy)]
pub enum Step {
    /// The call begins.
    Begins(Call, Does),
    /// Of that key, at the first of these ballots, over what was accepted at the second, which is zero where nothing was.
    Proposes(u8, Call, At, At, By),
    /// These acceptors accepted the proposal at that ballot.
    Votes(At, By),
    /// So they did, the votes are acknowledged, and the call ends with that state.
    Settles(Call, At, Holds, By),
    /// A frame of the call is lost.
    Harms(Call),
    /// The call ends before it proposed, since it met that ballot.
    Conflicts(Call, At),
    /// The call ends unsettled, since its proposal met that ballot.
    MeetsAtLast(Call, At),
    /// The call ends unsettled, with one vote where two are needed.
    FallsShort(Call),
    /// What that key had up to that ballot was collected, and left that state.
    Floor(u8, At, Holds),
}

fn push(record: &mut Record, mark: Mark) -> Result<(), Fail> {
    record.reserve(1)?;
    record.push(mark);
    Ok(())
}

fn end(record: &mut Record, (caller, call): Call, answer: Answer) -> Result<(), Fail> {
    push(
        record,
        Mark::Ended {
            caller,
            call,
            rounds: 1,
            answer,
        },
    )
}

fn vote(alloc: Global, record: &mut Record, ballot: Ballot, by: By) -> Result<(), Fail> {
    for id in by.ids() {
        if let Some(acceptor) = AcceptorId::new(*id) {
            let key = Key::read(alloc, b"a")?;
            let mark = Mark::Voted {
                acceptor,
                key,
                ballot,
            };
            push(record, mark)?;
        }
    }
    Ok(())
}

fn settle(
    alloc: Global,
    record: &mut Record,
    call: Call,
    at: At,
    leaves: Holds,
    by: By,
) -> Result<(), Fail> {
    let ballot = at.ballot();
    let state = leaves.state(alloc)?;
    vote(alloc, record, ballot, by)?;
    push(
        record,
        Mark::Acked(Acknowledgment {
            key: Key::read(alloc, b"a")?,
            ballot,
            era: 0,
            by: by.members(),
        }),
    )?;
    let took = Took::Clause(0);
    let answer = Answer::Done {
        state,
        took,
        ballot,
    };
    end(record, call, answer)
}

fn proposal(
    alloc: Global,
    key: u8,
    (caller, call): Call,
    at: At,
    read: At,
    by: By,
) -> Result<Mark, Fail> {
    Ok(Mark::Proposed(Proposal {
        caller,
        call,
        key: Key::read(alloc, &[key])?,
        ballot: at.ballot(),
        read: read.ballot(),
        era: 0,
        prepared_by: by.members(),
    }))
}

fn begun(alloc: Global, (caller, call): Call, does: Does) -> Result<Mark, Fail> {
    Ok(Mark::Begun {
        caller,
        call,
        key: Key::read(alloc, b"a")?,
        program: does.program(alloc)?,
    })
}

fn floor(alloc: Global, key: u8, at: At, leaves: Holds) -> Result<Mark, Fail> {
    Ok(Mark::Floor {
        key: Key::read(alloc, &[key])?,
        ballot: at.ballot(),
        state: leaves.state(alloc)?,
    })
}

fn unsettled(record: &mut Record, call: Call, why: Cause) -> Result<(), Fail> {
    end(record, call, Answer::Unsettled { why })
}

fn harmed((caller, call): Call) -> Mark {
    Mark::Harmed {
        caller,
        call,
        down: false,
    }
}

/// Makes the marks of the step.
pub fn make(alloc: Global, record: &mut Record, step: Step) -> Result<(), Fail> {
    match step {
        Step::Begins(call, does) => push(record, begun(alloc, call, does)?),
        Step::Proposes(key, call, at, read, by) => {
            push(record, proposal(alloc, key, call, at, read, by)?)
        }
        Step::Votes(at, by) => vote(alloc, record, at.ballot(), by),
        Step::Settles(call, at, leaves, by) => settle(alloc, record, call, at, leaves, by),
        Step::Harms(call) => push(record, harmed(call)),
        Step::Conflicts(call, met) => end(record, call, Answer::Conflict { met: met.ballot() }),
        Step::MeetsAtLast(call, met) => unsettled(record, call, Cause::Met(met.ballot())),
        Step::FallsShort(call) => unsettled(record, call, Cause::Short { got: 1, need: 2 }),
        Step::Floor(key, at, leaves) => push(record, floor(alloc, key, at, leaves)?),
    }
}
