//! Tests of the record's public calls: which calls stand in a history, where it starts, which keys have one, what an operator was
//! told, and what members agree on. They stand in a crate of their own, so that the record is proved once.
//!
//! Nothing here runs in the program.
#![tactic(auto)]

#[cfg(test)]
mod agreement;
#[cfg(test)]
mod operator;
#[cfg(test)]
mod record;
#[cfg(test)]
mod step;
