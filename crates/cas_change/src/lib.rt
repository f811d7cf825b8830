//! Registers as a client sees them: keys, states, programs of change, and what a program does to a state.
//!
//! Nothing here speaks of ballots, quorums or disks, and no text is parsed or printed.
#![tactic(auto)]

mod key;
mod outcome;
mod program;
mod state;
mod text;

pub use key::{Key, KeyFault, LONGEST_KEY};
pub use outcome::{Outcome, Took, apply};
pub use program::{Act, Clause, Guard, MOST_CLAUSES, Program};
pub use state::{Body, State};
pub use text::{LONGEST_TEXT, Text, TextFault};
