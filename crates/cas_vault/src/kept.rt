//! What a vault keeps on its disk.

/// What a vault keeps on its disk.
#[derive(Clone, Copy, Debug, PartialEq, Eq)]
pub struct Kept {
    /// No number above it was drawn. At most 2^48.
    pub bound: u64,
    /// How often the age was raised. At most 2^48.
    pub age: u64,
    /// The number of the era.
    pub era: u32,
}
