//! Tests of the public calls of the parts that hold values: ballots, eras and plans, changes and their text, slots and their shelf in
//! memory, and frames. They stand in a crate of their own, so that each part is proved once.
//!
//! Nothing here runs in the program, and no disk and no round is tested here.
#![tactic(auto)]

#[cfg(test)]
mod ages;
#[cfg(test)]
mod ballot;
#[cfg(test)]
mod base;
#[cfg(test)]
mod collect;
#[cfg(test)]
mod decimal;
#[cfg(test)]
mod era;
#[cfg(test)]
mod frame;
#[cfg(test)]
mod grammar;
#[cfg(test)]
mod identity;
#[cfg(test)]
mod key;
#[cfg(test)]
mod map_shelf;
#[cfg(test)]
mod member_sets;
#[cfg(test)]
mod outcome;
#[cfg(test)]
mod parts;
#[cfg(test)]
mod plan;
#[cfg(test)]
mod plan_fault;
#[cfg(test)]
mod rules;
#[cfg(test)]
mod text;
#[cfg(test)]
mod value;
