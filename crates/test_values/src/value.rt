//! Guards, acts and states as plain data.

use cas_change::{Act, Body, Clause, Guard, Program, State, Text, TextFault};
use std::alloc::Global;
use std::test::Fail;

#[derive(Clone, Copy, Debug)]
pub enum When {
    Always,
    IsEmpty,
    VersionIs(u64),
    NumberBelow(i64),
    TextIs(&'static [u8]),
}

impl When {
    pub fn guard(self, alloc: Global) -> Result<Guard, TextFault> {
        Ok(match self {
            When::Always => Guard::Always,
            When::IsEmpty => Guard::IsEmpty,
            When::VersionIs(version) => Guard::VersionIs(version),
            When::NumberBelow(number) => Guard::NumberBelow(number),
            When::TextIs(text) => Guard::TextIs(Text::read(alloc, text)?),
        })
    }
}

#[derive(Clone, Copy, Debug)]
pub enum Does {
    Keeps,
    PutsText(&'static [u8]),
    PutsNumber(i64),
    Adds(i64),
    Clears,
}

impl Does {
    pub fn act(self, alloc: Global) -> Result<Act, TextFault> {
        Ok(match self {
            Does::Keeps => Act::Keep,
            Does::PutsText(text) => Act::PutText(Text::read(alloc, text)?),
            Does::PutsNumber(number) => Act::PutNumber(number),
            Does::Adds(number) => Act::Add(number),
            Does::Clears => Act::Clear,
        })
    }
}

/// What a register holds, at some version.
#[derive(Clone, Copy, Debug)]
pub enum Holds {
    Nothing,
    Number(u64, i64),
    Text(u64, &'static [u8]),
}

impl Holds {
    pub fn state(self, alloc: Global) -> Result<State, TextFault> {
        let (version, body) = match self {
            Holds::Nothing => return Ok(State::Empty),
            Holds::Number(version, number) => (version, Body::Number(number)),
            Holds::Text(version, text) => (version, Body::Text(Text::read(alloc, text)?)),
        };
        Ok(State::Held { version, body })
    }
}

/// The program of these clauses.
pub fn program_of(alloc: Global, rows: &[(When, Does)]) -> Result<Program, Fail> {
    let mut clauses = Vec::new(alloc);
    for (when, does) in rows {
        let guard = when.guard(alloc)?;
        let act = does.act(alloc)?;
        clauses.push(Clause { guard, act })?;
    }
    Ok(Program::new(clauses)?)
}
