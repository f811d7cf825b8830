//! One acceptor's side of a round, as values: what it keeps for a key, the rules by which it answers, the messages
//! that pass between it and a proposer, and where it keeps its slots.
//!
//! The rules by which a ballot is promised and a state is accepted are those of Rystsov 2018, section 2.2. Ages, removals,
//! listings and probes are this store's own. Nothing here sends a message, and no proposer lives here.
#![tactic(auto)]

mod ages;
mod fault;
mod map_shelf;
mod message;
mod page;
mod rules;
mod shelf;
mod slot;
mod slots;

pub use ages::{Ages, PROPOSERS};
pub use fault::ShelfFault;
pub use map_shelf::{MapShelf, keys_after};
pub use message::{Ask, Phase, Reply, Request, Tell};
pub use page::{MOST_KEYS, Page};
pub use rules::{AcceptRule, PrepareRule, RemoveRule, on_accept, on_prepare, on_remove};
pub use shelf::Shelf;
pub use slot::{Accepted, Slot};
pub use slots::MOST_SLOTS;
