//! Tests of the public calls of the parts that play the protocol: fates and flows of frames, rounds, acceptors, and proposers and their
//! promises. They stand in a crate of their own, so that each part is proved once.
//!
//! Nothing here runs in the program, and nothing here tells what a value or a disk is.
#![tactic(auto)]

#[cfg(test)]
mod acceptor;
#[cfg(test)]
mod cache;
#[cfg(test)]
mod fate;
#[cfg(test)]
mod flow;
#[cfg(test)]
mod proposer;
#[cfg(test)]
mod round;
