//! The entries of a register's history.

use cas_change::Program;

/// One change of a register's history: the program of that call of that caller.
#[derive(Debug, PartialEq, Eq, Drop)]
pub struct Entry {
    pub caller: u8,
    pub call: u32,
    pub program: Program,
}
