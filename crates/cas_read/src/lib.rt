//! A read of a key that writes nothing, over a board whose callers are in threads of their own.
//!
//! How the members are asked is in `cas_board`, and what they agree on in `cas_record`. Here stands what an operator is answered who reads.
#![tactic(auto)]

mod reading;

pub use cas_record::ReadAnswer;
pub use reading::read;
