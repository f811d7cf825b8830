//! A world in which no call stops anybody. Whoever is down there failed by its own disk, and whoever the record blames did.
//!
//! Each call is that of the world below, with its contract.
#![tactic(auto)]

mod calls;
mod collecting;
mod operator;
mod reading;
mod world;

pub use world::SteadyWorld;
