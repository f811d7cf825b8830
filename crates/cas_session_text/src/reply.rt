//! What a caller was told last.

/// How many callers a register can serve. They are numbered from 1.
pub const MOST_CALLERS: u8 = 16;

/// What a caller was told of its last request on a key.
#[derive(Clone, Copy, Debug, PartialEq, Eq)]
pub struct LastReply {
    /// The caller, 1 to [`MOST_CALLERS`].
    pub caller: u8,
    /// The number of its last request, from 1 on.
    pub number: u64,
    /// The value of the register after that request.
    pub reply: i64,
}
