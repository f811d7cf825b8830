//! What a register holds that serves numbered requests, and its text: a value, and the last reply of each caller.
//!
//! The text is canonical: no two sessions have one text, and what is printed of a session that was read is what was read. Nothing here
//! decides on a request.
#![tactic(auto)]

mod reply;
mod session;

pub use reply::{LastReply, MOST_CALLERS};
pub use session::Session;
