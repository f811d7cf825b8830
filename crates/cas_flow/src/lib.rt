//! The frames under way: for each proposer a queue of its own frames, and one pool of late ones.
//!
//! A frame is bytes here, and a message to contracts. Who handles it is decided in `cas_world`, and what becomes of it in `cas_fate` and
//! `casreg_script`.
#![tactic(auto)]

mod fall;
mod flow;
mod frame;
mod message;
mod pool;
mod queue;
mod settle;
mod spares;

pub use fall::Fall;
pub use flow::Flow;
pub use frame::Frame;
pub use message::Message;
pub use pool::MOST_LATE;
