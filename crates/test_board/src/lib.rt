//! Tests of the public calls of a board, over disks in memory. They stand in a crate of their own, so that the board is proved once.
//!
//! Nothing here runs in the program.
#![tactic(auto)]

#[cfg(test)]
mod callers;
#[cfg(test)]
mod collecting;
#[cfg(test)]
mod many;
#[cfg(test)]
mod meeting;
#[cfg(test)]
mod operating;
