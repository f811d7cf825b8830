//! The rows of a record, in the order of their keys.

ghost use Rattle.std.specs.Prelude.{◌≡◌, ◌⊎◌, ◌+◌, ◌<◌, ◌≤◌, ℕ, List, [], ◌∷◌, ◌++◌, length, reverse, vec_len, vec_capacity, Some, None, option_copied, slice_set, Contains};
ghost use Rattle.cas_record.specs.declared.mark.Mark.{Mark};
ghost use Rattle.cas_record.specs.Histories.Chain.{has_calls};
ghost use Rattle.cas_record.specs.Kept.Index.{named_by, home_of, IsRowOf};
ghost use Rattle.cas_record.specs.Kept.Tables.{row_cmp, place_in, IsRowFor, HasRows, IsFirstAfter, IsSearched};

use crate::mark::Mark;
use crate::row::{Row, empty_row, key_at, row_after};
use cas_change::Key;
use std::cmp::Ordering;

/// What the hash FNV-1a of 32 bits starts from.
const FNV_BASIS: u32 = 0x811c_9dc5;

/// What the hash FNV-1a of 32 bits multiplies by.
const FNV_PRIME: u32 = 0x0100_0193;

/// A slot of so many, picked by a hash of the key. Nothing rests on which it is.
fn slot_of(key: &Key, slots: usize) -> usize {
    let mut mixed = FNV_BASIS;
    for byte in key.bytes() {
        mixed = (mixed ^ u32::from(*byte)).wrapping_mul(FNV_PRIME);
    }
    let spread = (mixed ^ (mixed >> 15)) as usize;
    if slots == 0 { 0 } else { spread % slots }
}

/// Where the key's row was when it was noted last, or that of another key, or 0.
pub fn hint_of(hints: &[usize], key: &Key) -> usize
    ensures { result ≡ 0 ⊎ Contains hints.now result }
{
    match hints.get(slot_of(key, hints.len())) {
        Some(hint) => *hint,
        None => 0,
    }
}

/// Keeps where the key's row is, in place of one hint, where there is any.
pub fn keep_hint(hints: &mut Vec<usize>, key: &Key, found: Result<usize, usize>)
    ensures { (slot : ℕ) × (hints.new.items ≡ slice_set hints.old.items slot (place_in found)) }
{
    let slot = slot_of(key, hints.len());
    if slot < hints.len() {
        hints[slot] = place_in(found);
    }
}

/// The place that was found, or where it would be.
fn place_in(found: Result<usize, usize>) -> usize
    ensures { result ≡ place_in found }
{
    match found {
        Ok(at) => at,
        Err(at) => at,
    }
}

fn compare(marks: &[Mark], row: &Row, key: &Key) -> Ordering
    ensures { result ≡ row_cmp marks.now key.now row.now }
{
    match key_at(marks, row.home) {
        Some(own) => own.cmp(key),
        None => Ordering::Less,
    }
}

/// The place of the key's row, or where it would be. The row at `hint` is looked at first, if there is one.
pub fn search(rows: &[Row], marks: &[Mark], key: &Key, hint: usize) -> Result<usize, usize>
    requires { HasRows rows.now marks.now }
    ensures { IsSearched key.now rows.now marks.now result }
{
    if hint < rows.len() && compare(marks, &rows[hint], key).is_eq() {
        return Ok(hint);
    }
    rows.binary_search_by(|row| compare(marks, row, key))
}

/// The row that a search found.
pub fn row_at(rows: &[Row], found: Result<usize, usize>) -> Option<Row>
    ensures { (key : List ℕ) (marks : List Mark)
        → IsSearched key rows.now marks found → IsRowFor key marks result }
{
    match found {
        Ok(at) => rows.get(at).copied(),
        Err(_) => None,
    }
}

/// Notes a mark that names the key, whose place was searched, in the room that was reserved, and answers the key's home.
pub fn note_key(
    rows: &mut Vec<Row>,
    found: Result<usize, usize>,
    marks: &[Mark],
    key: &Key,
    mark: &Mark,
    begun: bool,
) -> usize
    requires rows { HasRows rows.old.items marks.now }
    requires found { IsSearched key.now rows.old.items marks.now found }
    requires named { named_by mark.now ≡ Some key.now }
    requires begun { has_calls (reverse marks.now) ≡ begun }
    requires room { vec_len rows.old < vec_capacity rows.old }
    ensures rows { HasRows rows.new.items (marks.now ++ mark.now ∷ []) }
    ensures home { home_of key.now (mark.now ∷ reverse marks.now) ≡ Some result }
    ensures room { (n : ℕ) → vec_len rows.old + (n + 1) ≤ vec_capacity rows.old
        → vec_len rows.new + n ≤ vec_capacity rows.new }
{
    match found {
        Ok(at) => {
            rows[at] = row_after(rows[at], key, mark, begun, marks.len());
            rows[at].home
        }
        Err(at) => {
            let home = marks.len();
            drop(rows.insert(at, row_after(empty_row(home), key, mark, begun, home)));
            home
        }
    }
}

/// The place of the first row whose key comes after this one, or that of the first of all where there is none.
pub fn first_after(rows: &[Row], marks: &[Mark], after: Option<&Key>, hints: &[usize]) -> usize
    requires { HasRows rows.now marks.now }
    ensures { IsFirstAfter (option_copied after.entry) rows.now marks.now result }
{
    let Some(key) = after else {
        return 0;
    };
    match search(rows, marks, key, hint_of(hints, key)) {
        Ok(at) => at + 1,
        Err(at) => at,
    }
}
