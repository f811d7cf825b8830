//! Tests of the public calls of the parts that run a whole store in memory: listings, racks of disks, and scripts. They stand in a
//! crate of their own, so that each part is proved once.
//!
//! Nothing here runs in the program.
#![tactic(auto)]

#[cfg(test)]
mod listing;
#[cfg(test)]
mod rack;
#[cfg(test)]
mod script;
