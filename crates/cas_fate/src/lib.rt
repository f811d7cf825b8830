//! Fates: what becomes of the frames under way. A fate answers for each frame whether it is delivered, lost, repeated, late or
//! held back, and counts those that it harmed.
//!
//! Nothing here knows a frame's content, and nothing here moves one.
#![tactic(auto)]

mod fate;
mod generator;
mod links;
mod seeded;

pub use fate::{Fate, Leg, Verdict};
pub use generator::{Drawn, Generator};
pub use links::Links;
pub use seeded::Seeded;
