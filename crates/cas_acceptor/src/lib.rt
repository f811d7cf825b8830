//! An acceptor over a shelf: it answers requests by the acceptor's table, crashes, and is restarted.
//!
//! The table stands with the slots, and how a shelf keeps them is the shelf's own. Nothing here sends a message.
#![tactic(auto)]

mod acceptor;
mod change;
mod decide;
mod fault;

pub use acceptor::Acceptor;
pub use fault::HandleFault;
