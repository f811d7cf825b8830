//! The store as a model: a cluster as it is seen, with its desks, frames and calls, what each call does to it, and why it has a
//! history after any of them.
//!
//! No code of the store lives here, and none runs: the definitions are in `specs/`, and each law is the contract of a function
//! that does nothing.
#![tactic(auto)]

pub mod laws;
