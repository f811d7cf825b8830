//! Scripts and loads over a world: changes with their tries, links that lose, repeat and delay frames, stops, halts, and late frames that
//! stray in.
//!
//! A line is run here, and its answer is given as bytes. Lines are read from a source and answers written to a sink in `casreg`, by what
//! `cas_lines` has for it; the calls of the protocol live in `cas_world`.
#![tactic(auto)]

mod changes;
mod collect;
mod events;
mod exchange;
mod halt;
mod load;
mod membership;
mod network;
mod probe;
mod read;
mod run;
mod script;
mod strays;

pub use changes::change;
pub use halt::Halt;
pub use load::{Load, run_load};
pub use network::Network;
pub use script::Script;
