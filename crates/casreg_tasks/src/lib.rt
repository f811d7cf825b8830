//! What a race asks its callers for, and the settled histories that are written behind it, as text.
//!
//! A race gives the lines of its input to callers, each of which runs its own. Nothing here runs a line, starts a thread or waits.
#![tactic(auto)]

pub mod histories;
pub mod tasks;
#[cfg(test)]
mod tests;
