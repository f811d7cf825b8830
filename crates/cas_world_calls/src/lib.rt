//! The calls that are open: what each caller was told and proposed, and what the operator has under way, which is its own call, the
//! exchange in which all members are asked, the change of membership with its listing, and the collection of a deleted key.
//!
//! Each part is seen as the model of the store sees it. The world that holds them, its acceptors and its proposers do not live here.
#![tactic(auto)]

pub mod answers;
pub mod call;
pub mod collecting;
pub mod collection;
pub mod council;
pub mod eras;
pub mod plan;
pub mod proposal;
pub mod read;
pub mod send;
