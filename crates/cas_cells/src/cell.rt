//! A cell in memory.
ghost use Rattle.std.specs.Prelude.{◌≡◌, ◌<◌, ◌≤◌, length};
ghost use Rattle.std.specs.Option.{ForSome};

/// One of the two frames of a cell.
#[derive(Clone, Copy, Debug, PartialEq, Eq)]
pub enum Side {
    First,
    Second,
}

/// A cell in memory: the payload, number and side of its current frame, and whether its other frame, the spare, is open. Behind the
/// gate of the spare and `spare_used` bytes there are zeros alone. A blank cell has no current frame, and is as if its second frame
/// were current with number 2.
#[derive(Drop)]
pub struct Cell {
    pub payload: Option<Vec<u8>>,
    pub side: Side,
    pub number: u8,
    pub spare_open: bool,
    pub spare_used: usize,
    ghost small: { number < 3 },
    ghost fits: { ForSome payload (λ v. (1 ≤ length v.items) × (length v.items ≤ 4604)) },
}
