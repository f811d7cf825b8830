//! A proposer's vault: its counter in memory, and on a disk of its own the bound of the numbers that it may draw, its age and
//! its era. A number that was drawn is never drawn again, wherever the disk crashes.
//!
//! What a number is for is decided in `cas_proposer`, an age in `cas_acceptor`, and an era in `cas_world`.
#![tactic(auto)]

mod codec;
mod error;
mod kept;
mod vault;

pub use error::VaultError;
pub use vault::Vault;
