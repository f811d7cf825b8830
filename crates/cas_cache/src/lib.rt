//! The promises that ride on a proposer's accepts: for each key at most one, the most recently used first, and at most 64 of them.
//!
//! When a promise may be used, and for what, is decided in `cas_proposer` and `cas_world`.
#![tactic(auto)]

mod cache;
mod ready;

pub use cache::{Cache, KEPT};
pub use ready::Ready;
