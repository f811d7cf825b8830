//! The protocol over logs: what an acceptor, a proposer and a reply are to the log of all that happened, what may happen next, and
//! why the log goes on lawfully whatever does.
//!
//! No code of the store lives here, and none runs: the definitions are in `specs/`, and each law is the contract of a function
//! that does nothing.
#![tactic(auto)]

pub mod laws;
