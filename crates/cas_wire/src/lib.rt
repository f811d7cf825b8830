//! The frames of requests and replies as bytes, and the parts that they share with the cells of a disk.
//!
//! Each value has one spelling, and no spelling begins another. No cell lives here, and nothing is sent or kept.
#![tactic(auto)]

mod frame;
mod kinds;
pub mod parts;
mod reading;
mod reply;
mod request;
mod writing;

pub use frame::LONGEST_FRAME;
pub use reply::{decode_reply, encode_reply, encode_reply_into};
pub use request::{decode_request, decode_request_knowing, encode_request, encode_request_into};
