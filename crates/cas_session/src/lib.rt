//! Requests that act exactly once: a caller numbers its requests on a key, and may send one again after any answer that leaves it in
//! doubt.
//!
//! The register holds a text that tells the last reply of each caller, so a request that comes again finds its reply there. No line
//! of a script is read here, and no answer is printed.
#![tactic(auto)]

mod attempts;
mod changer;
mod decision;
mod request;
mod serving;

pub use changer::Changer;
pub use request::{SessionAct, SessionAnswer};
pub use serving::submit;
