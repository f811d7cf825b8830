//! Eras: which acceptors prepare and which accept, how many of each make a quorum, and when the quorums of two eras must
//! share an acceptor.
//!
//! Nothing here allocates, and nothing is refused. Which era follows which lives in `cas_members`; why a step to another era is
//! refused is named here, since the answers of the store name it too.
#![tactic(auto)]

mod era;
mod fault;
pub mod laws;

pub use era::{Era, meet};
pub use fault::PlanFault;
