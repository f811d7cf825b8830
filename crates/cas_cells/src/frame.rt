//! The frames of a cell as bytes: what is wrong in them, and what they hold. Nothing here reads a disk.
ghost use Rattle.std.specs.Prelude.{◌≡◌, ◌==◌, ◌<◌, ◌≤◌, ◌+◌, ◌*◌, ◌^◌, IfOk, length, slice_index};
ghost use Rattle.cas_cells.specs.Format.{is_open, number_of, length_told, next, zeros_in_front, is_wrong_number, wrong_in_open, first_wrong, wrong_in_cell, number_told, is_old_head, is_head, narrow_told, wide_told, with_count, IsPayload, frame_place, half_size};
ghost use Rattle.cas_cells.specs.Held.{tail_of};

use std::alloc::{AllocError, Global};

/// How many bytes a frame of cell 0 and of a narrow cell has.
pub const NARROW_FRAME: usize = 512;

/// How many bytes a frame of a wide cell has.
pub const WIDE_FRAME: usize = 4_608;

/// Where a frame begins on a disk with so many narrow cells behind cell 0.
#[tactic(auto, unfolding(crate::specs::Format::frame_place))]
pub fn frame_place(narrow: u32, frame: u64) -> u64
    requires { frame < 2 ^ 34 }
    ensures place { result ≡ frame_place narrow frame }
    ensures small { result ≤ 4608 * frame }
{
    let wide = frame.saturating_sub(2 * (u64::from(narrow) + 1));
    512 * frame + 4096 * wide
}

/// How many bytes each of the two frames of a cell has.
pub fn half_size(narrow: u32, cell: u32) -> usize
    ensures size { result ≡ half_size narrow cell }
    ensures least { 512 ≤ result }
    ensures most { result ≤ 4608 }
{
    if cell > narrow {
        WIDE_FRAME
    } else {
        NARROW_FRAME
    }
}

/// The byte at this place, or 0 past the end.
fn byte_at(bytes: &[u8], place: usize) -> u8
    ensures { result ≡ slice_index bytes.now place }
{
    bytes.get(place).copied().unwrap_or(0)
}

/// Whether a frame is open.
pub fn is_open(frame: &[u8]) -> bool
    ensures { result ≡ is_open frame.now }
{
    byte_at(frame, 0) == 1
}

/// The number of a frame.
pub fn number_of(frame: &[u8]) -> u8
    ensures { result ≡ number_of frame.now }
{
    byte_at(frame, 1)
}

/// The length that a frame tells of its payload.
pub fn length_told(frame: &[u8]) -> usize
    ensures { result ≡ length_told frame.now }
{
    256 * byte_at(frame, 2) as usize + byte_at(frame, 3) as usize
}

/// The number that follows this one.
pub fn next(number: u8) -> u8
    requires { number < 3 }
    ensures value { result ≡ next number }
    ensures small { result < 3 }
{
    if number == 2 { 0 } else { number + 1 }
}

/// Whether a number follows another.
pub fn follows(after: u8, before: u8) -> bool
    ensures { result ≡ (after == next before) }
{
    if before == 2 {
        after == 0
    } else {
        u16::from(after) == u16::from(before) + 1
    }
}

/// How many zeros stand in front.
fn zeros_in_front(bytes: &[u8]) -> usize
    ensures value { result ≡ zeros_in_front bytes.now }
    ensures within { result ≤ length bytes.now }
{
    let mut zeros = 0;
    for byte in bytes {
        if *byte != 0 {
            return zeros;
        }
        zeros += 1;
    }
    zeros
}

/// Whether a number is told that no frame has, or that the cell's other open frame has.
fn is_wrong_number(taken: Option<u8>, number: u8) -> bool
    ensures { result ≡ is_wrong_number taken number }
{
    match taken {
        None => number > 2,
        Some(taken) => number > 2 || number == taken,
    }
}

/// The place of the first byte that an open frame of this size may not have there, or its size and more where each of its bytes is
/// right.
fn wrong_in_open(size: usize, taken: Option<u8>, frame: &[u8]) -> usize
    ensures { result ≡ wrong_in_open size taken frame.now }
{
    if is_wrong_number(taken, number_of(frame)) {
        return 1;
    }
    if 256 * byte_at(frame, 2) as usize + 4 > size {
        return 2;
    }
    let told = length_told(frame);
    if told == 0 || told + 4 > size {
        return 3;
    }
    let start = 4 + told;
    if start < frame.len() {
        start + zeros_in_front(&frame[start..])
    } else {
        start
    }
}

/// The place of the first wrong or missing byte of a frame of this size, or the size where there is none.
pub fn first_wrong(size: usize, taken: Option<u8>, frame: &[u8]) -> usize
    ensures { result ≡ first_wrong size taken frame.now }
{
    let wrong = if is_open(frame) {
        wrong_in_open(size, taken, frame)
    } else {
        size
    };
    wrong.min(frame.len())
}

/// The place of the first wrong or missing byte of a cell of these frames, which have at most this size, or twice the size where there is
/// none.
pub fn wrong_in_cell(size: usize, first: &[u8], second: &[u8]) -> usize
    requires small { size ≤ 4608 }
    requires fits { length second.now ≤ size }
    ensures place { result ≡ wrong_in_cell size first.now second.now }
    ensures most { result ≤ 2 * size }
{
    let wrong = first_wrong(size, None, first);
    if wrong < size {
        return wrong;
    }
    let taken = if is_open(first) {
        Some(number_of(first))
    } else {
        None
    };
    size + first_wrong(size, taken, second)
}

/// How many narrow cells stand behind a cell 0 of this payload.
pub fn narrow_told(payload: &[u8]) -> u32
    ensures value { result ≡ narrow_told payload.now }
    ensures small { result ≤ 4096 }
{
    if is_old_head(payload) || is_head(payload) {
        number_told(payload, 9)
    } else {
        0
    }
}

/// How many wide cells stand behind the narrow ones.
pub fn wide_told(payload: &[u8]) -> u32
    ensures value { result ≡ wide_told payload.now }
    ensures small { result ≤ 4096 }
{
    if is_head(payload) {
        number_told(payload, 13)
    } else {
        0
    }
}

/// Whether a payload is a head of the old form, which tells narrow cells alone.
fn is_old_head(payload: &[u8]) -> bool
    ensures { result ≡ is_old_head payload.now }
{
    byte_at(payload, 0) == 2 && payload.len() >= 13 && number_told(payload, 9) <= 4096
}

/// Whether a payload is a head that tells narrow and wide cells.
fn is_head(payload: &[u8]) -> bool
    ensures { result ≡ is_head payload.now }
{
    byte_at(payload, 0) == 4
        && payload.len() >= 17
        && number_told(payload, 9) <= 4096
        && number_told(payload, 13) <= 4096
}

/// The number in four bytes from this place on.
fn number_told(payload: &[u8], at: usize) -> u32
    requires { at < 2 ^ 32 }
    ensures { result ≡ number_told at payload.now }
{
    let high = byte_at(payload, at) as u32 * 256 + byte_at(payload, at + 1) as u32;
    (high * 256 + byte_at(payload, at + 2) as u32) * 256 + byte_at(payload, at + 3) as u32
}

/// The bytes of a frame of this size behind its gate.
pub fn tail_of(
    alloc: Global,
    size: usize,
    number: u8,
    payload: &[u8],
) -> Result<Vec<u8>, AllocError>
    requires small { size ≤ 4608 }
    requires fits { IsPayload size payload.now }
    ensures { IfOk result (λ tail. tail.items ≡ tail_of size number payload.now) }
{
    let mut tail = Vec::with_capacity(alloc, size - 1)?;
    tail.push(number)?;
    tail.push((payload.len() / 256) as u8)?;
    tail.push((payload.len() % 256) as u8)?;
    tail.extend_from_slice(payload)?;
    tail.resize(size - 1, 0)?;
    Ok(tail)
}

/// A head that tells another number of wide cells.
pub fn with_count(alloc: Global, head: &[u8], count: u32) -> Result<Vec<u8>, AllocError>
    requires long { 17 ≤ length head.now }
    requires small { count ≤ 4096 }
    ensures value { IfOk result (λ changed. changed.items ≡ with_count head.now count) }
    ensures size { IfOk result (λ changed. length changed.items ≡ length head.now) }
{
    let mut changed = head[..13].to_vec(alloc)?;
    changed.extend_from_slice(&[0, 0, (count / 256) as u8, (count % 256) as u8])?;
    changed.extend_from_slice(&head[17..])?;
    Ok(changed)
}
