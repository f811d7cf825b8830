//! Where the program's input comes from, where its output goes, how the input falls into lines, which commands the
//! lines are, and what is written for an answer.
//!
//! Sources and sinks count their own faults. Nothing here runs a command.
#![tactic(auto)]

pub mod answer;
mod changes;
pub mod command;
mod events;
pub mod lines;
mod op_answer;
mod operator;
mod parts;
mod reading;
pub mod sink;
pub mod source;
pub mod summary;

pub use events::read_acceptor;
pub use parts::{read_key, within};
pub use reading::is_event;
