//! How many slots there are at most.

/// How many keys have a slot at one acceptor at most.
pub const MOST_SLOTS: usize = 4096;
