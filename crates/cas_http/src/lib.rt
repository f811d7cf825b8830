//! The store over HTTP, as far as it is values: what a request asks for, the program that its body spells, and the bytes of an answer.
//!
//! Heads are read by `httparse`, and bodies by `serde_json`. Nothing here reads or writes a stream, and nothing runs a change.
#![tactic(auto)]

mod answer;
mod code;
mod fields;
mod head;
pub mod laws;
mod method;
mod outcome;
mod program;
mod request;

pub use answer::print_answer;
pub use code::Code;
pub use head::{Asks, Front, Head, MOST_BODY, MOST_FIELDS, MOST_HEAD, read_front};
pub use method::Method;
pub use outcome::{code_of, print_body, print_reply};
pub use request::{Request, Spelled, read_request};
