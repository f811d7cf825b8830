//! What the acceptors of a store that stopped still hold: for each key the state of the greatest ballot that one of them accepted.
//!
//! What a shelf is is said in `cas_slot`. Who writes what was found lives in `cas_restore`.
#![tactic(auto)]

mod findings;

pub use findings::{Findings, survey};
