//! The commands of the program: a script, a race and a load over a store, from their words to the status with which they end.
//!
//! The top call is [`cluster::cluster`]. Its real words, input, output and disks are those of `casreg`. What a line does is in `casreg_script`, and how
//! callers race in `casreg_race`.
#![tactic(auto)]

mod audit;
pub mod cluster;
mod fates;
mod load;
mod marks;
mod race;
mod status;
mod words;

pub use fates::seeded_fates;
pub use status::Status;
pub use words::{LoadOptions, Options, Request, read_words};
