//! What a stopped cluster still holds. Each law is the contract of a function that does nothing.
#![tactic(auto)]

pub mod laws;
