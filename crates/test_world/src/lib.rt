//! Tests of a world that is played call by call, so that the rounds of several proposers, changes of membership and stops fall between
//! one another. They stand in a crate of their own, so that the world is proved once.
//!
//! Nothing here runs in the program.
#![tactic(auto)]

#[cfg(test)]
mod collection;
#[cfg(test)]
mod collections;
#[cfg(test)]
mod openings;
#[cfg(test)]
mod player;
#[cfg(test)]
mod rows;
#[cfg(test)]
mod steps;
#[cfg(test)]
mod stops;
pub mod task;
