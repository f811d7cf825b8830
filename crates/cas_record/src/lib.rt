//! What happened in the store: the record of marks that is kept for audit, and the answers that it bears.
//!
//! No proposer and no acceptor reads the record, and nothing here decides anything.
#![tactic(auto)]

mod agreement;
mod answer;
mod entry;
mod first;
mod history;
pub mod laws;
mod mark;
mod operator;
mod read_answer;
mod record;
mod row;
mod rows;
mod tables;

pub use agreement::{Agreement, agree};
pub use answer::{Answer, Cause};
pub use entry::Entry;
pub use history::keep_always;
pub use mark::{Acknowledgment, Mark, Proposal};
pub use operator::{Asked, OpAnswer, Probe, Probes};
pub use read_answer::ReadAnswer;
pub use record::{MOST_MARKS, Record};
