//! A ticket lock round one value with a list that only grows, and seats that know how much of the list they have seen.
//!
//! A [`Turn`] has the value, and gives a seat to each of its users. Who holds the turn has the value. Each seat has a
//! number, which owns some items of the list and a part of the value. Nobody else can add items of that number or
//! change that part, so what a hold gives begins with what the seat has seen, and has nothing of the seat's own behind
//! that. What the items mean, and when a new one is lawful, is said by the value's type.
//!
//! No clause says that a hold gets its turn, nor in which order seats get it.
#![tactic(auto)]

mod grows;
mod plays;
mod rule;
mod seat;
mod steps;
#[cfg(test)]
mod tests;
mod turn;
mod view;

pub use grows::Grows;
pub use seat::Seat;
pub use turn::Turn;
