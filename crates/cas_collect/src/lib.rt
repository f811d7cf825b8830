//! The order of a deletion: what has to be done, and confirmed, before a deleted key's slots may be removed.
//!
//! A collection is pure: it says what comes next and is told what was confirmed. Whoever plays it sends the messages and
//! sees who answered.
#![tactic(auto)]

mod collect;

pub use collect::{Collect, CollectStep};
