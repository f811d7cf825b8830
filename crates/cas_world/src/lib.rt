//! The core: all acceptors and proposers, the frames between them, the callers' calls, and the record of what happened.
//!
//! Each call of [`World`] is one step of the whole store. Threads, texts, files and the network do not live here.
#![tactic(auto)]

mod begin;
mod collect;
mod collecting;
mod end;
mod exchange;
mod fault;
mod open;
mod parties;
mod plans;
mod propose;
mod proposing;
mod renewal;
mod reopen;
mod serve;
mod stray;
mod turn;
mod world;

pub use cas_world_calls::council::Gathered;
pub use collect::Reading;
pub use exchange::Exchange;
pub use fault::{OpenFault, StrayFault};
pub use plans::{PlanKind, Target};
pub use reopen::OpeningFloor;
pub use world::{Config, World};
