//! States and programs of change as text, as a client writes them and reads them.
//!
//! A text is read word by word, and refused at the first word that does not fit. Lines, callers, keys and answers are no
//! matter of this crate.
#![tactic(auto)]

pub mod decimal;
mod escapes;
mod names;
mod printing;
mod reading;
mod refusal;
mod states;
mod words;

pub use names::says;
pub use printing::{print_program, print_state, push_decimal, push_state};
pub use reading::{
    next_word, program_in, read_end, read_number, read_program, read_text, read_version,
};
pub use refusal::{TextRefusal, Why};
pub use states::{read_state, state_in};
pub use words::Words;
