//! One connection of HTTP: its requests are read from a source, and their answers are written to a sink.
//!
//! What runs a change is told by a trait, so that nothing here knows of a store.
#![tactic(auto)]

mod changer;
mod connection;
mod fault;
mod reading;

pub use changer::Changer;
pub use connection::{MOST_REQUESTS, serve};
pub use fault::ConnectionFault;
