//! Tests of the public calls that read requests of HTTP and write their answers. They stand in a crate of their own, so that the part is
//! proved once.
//!
//! Nothing here runs in the program.
#![tactic(auto)]

#[cfg(test)]
mod answers;
#[cfg(test)]
mod connections;
#[cfg(test)]
mod heads;
#[cfg(test)]
mod programs;
#[cfg(test)]
mod requests;
