//! A proposer's desk: its vault, its cache of promises, and at most one open round.
//!
//! Whom a round asks, what it proposes and what its caller is answered is decided in `cas_world_calls` and `cas_world`, and what becomes of
//! frames in `cas_fate` and `casreg_script`.
#![tactic(auto)]

mod began;
mod desk;
mod round;

pub use began::Began;
pub use desk::Desk;
pub use round::{OpenPhase, Round};
