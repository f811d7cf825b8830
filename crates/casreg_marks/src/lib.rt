//! The text of a record, written line by line: what an audit reads.
//!
//! What the words of a line say is in `cas_audit`. Nothing here makes a mark or reads one.
#![tactic(auto)]

mod marks;
#[cfg(test)]
mod tests;

pub use marks::{MarksFault, write_marks};
