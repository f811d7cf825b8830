//! Tests of the commands of the program, over input, output and disks in memory. They stand in a crate of their own, so that the commands
//! are proved once.
//!
//! Nothing here runs in the program.
#![tactic(auto)]

#[cfg(test)]
mod faults;
#[cfg(test)]
mod racing;
#[cfg(test)]
mod reading;
#[cfg(test)]
mod records;
#[cfg(test)]
mod reopening;
#[cfg(test)]
mod rows;
#[cfg(test)]
mod words;
