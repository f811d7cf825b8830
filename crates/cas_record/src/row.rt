//! What is kept of a key, and of a proposal, so that the marks need not be searched for them.
//!
//! A place is the number of marks before one.

ghost use Rattle.std.specs.Prelude.{◌≡◌, ◌≤◌, ℕ, List, ◌∷◌, length, Some, None, option_copied};
ghost use Rattle.cas_change.specs.declared.program.Clause.{Clause};
ghost use Rattle.cas_record.specs.declared.mark.Mark.{Mark};
ghost use Rattle.cas_record.specs.Histories.Chain.{has_calls};
ghost use Rattle.cas_record.specs.Kept.Index.{named_by, key_at, later_of, top_at, floor_at, opening_at, TellsOf};

use crate::mark::Mark;
use cas_ballot::Ballot;
use cas_change::Key;

/// What the marks tell of a key that a proposal, an acknowledgment or a floor names.
#[derive(Clone, Copy)]
pub struct Row {
    /// The place of the first mark that names the key.
    pub home: usize,
    /// The greatest ballot of the key that was acknowledged or made a floor.
    pub top: Option<Ballot>,
    /// The greatest floor of the key.
    pub floor: Option<Ballot>,
    /// The place of the key's latest opening floor.
    pub opening: Option<usize>,
}

/// What the marks before a proposal tell of it.
#[derive(Clone, Copy)]
pub struct Link {
    /// The place of the proposal.
    pub place: usize,
    /// The place at which its call began.
    pub begun: Option<usize>,
    /// The ballot from whose history the proposal goes on, where that history has an entry.
    pub from: Option<Ballot>,
}

/// The key that a proposal, an acknowledgment or a floor names.
pub fn named_by(mark: &Mark) -> Option<&Key>
    ensures { option_copied result ≡ named_by mark.now }
{
    match mark {
        Mark::Proposed(proposal) => Some(&proposal.key),
        Mark::Acked(acknowledgment) => Some(&acknowledgment.key),
        Mark::Floor { key, .. } => Some(key),
        _ => None,
    }
}

/// The key that the mark at a place names.
pub fn key_at(marks: &[Mark], place: usize) -> Option<&Key>
    ensures { option_copied result ≡ key_at marks.now place }
{
    match marks.get(place) {
        Some(mark) => named_by(mark),
        None => None,
    }
}

/// The later of a ballot and one that may be there.
pub fn later_of(ballot: Ballot, so_far: Option<Ballot>) -> Ballot
    ensures { result ≡ later_of ballot so_far }
{
    match so_far {
        Some(other) if ballot.cmp(&other).is_lt() => other,
        _ => ballot,
    }
}

fn top_after(top: Option<Ballot>, key: &Key, mark: &Mark) -> Option<Ballot>
    ensures { (older : List Mark)
        → top ≡ top_at key.now older → result ≡ top_at key.now (mark.now ∷ older) }
{
    match mark {
        Mark::Acked(acknowledgment) if acknowledgment.key == *key => {
            Some(later_of(acknowledgment.ballot, top))
        }
        Mark::Floor {
            key: other,
            ballot,
            ..
        } if other == key => Some(later_of(*ballot, top)),
        _ => top,
    }
}

fn floor_after(floor: Option<Ballot>, key: &Key, mark: &Mark) -> Option<Ballot>
    ensures { (older : List Mark)
        → floor ≡ floor_at key.now older → result ≡ floor_at key.now (mark.now ∷ older) }
{
    match mark {
        Mark::Floor {
            key: other,
            ballot,
            ..
        } if other == key => Some(later_of(*ballot, floor)),
        _ => floor,
    }
}

fn opening_after(
    opening: Option<usize>,
    key: &Key,
    mark: &Mark,
    begun: bool,
    place: usize,
) -> Option<usize>
    ensures { (older : List Mark) → length older ≡ place → has_calls older ≡ begun
        → opening ≡ opening_at key.now older → result ≡ opening_at key.now (mark.now ∷ older) }
{
    match mark {
        Mark::Floor { key: other, .. } if other == key && !begun => Some(place),
        _ => opening,
    }
}

/// The row of a key that no mark has named yet, with this home.
pub fn empty_row(home: usize) -> Row
    ensures { result ≡ record { home = home; top = None; floor = None; opening = None } }
{
    Row {
        home,
        top: None,
        floor: None,
        opening: None,
    }
}

/// The row after one mark more, which stands at this place; `begun` says whether a call began before it.
pub fn row_after(row: Row, key: &Key, mark: &Mark, begun: bool, place: usize) -> Row
    ensures home { result.home ≡ row.home }
    ensures told { (older : List Mark) → length older ≡ place → has_calls older ≡ begun
        → TellsOf key.now older row → TellsOf key.now (mark.now ∷ older) result }
{
    Row {
        home: row.home,
        top: top_after(row.top, key, mark),
        floor: floor_after(row.floor, key, mark),
        opening: opening_after(row.opening, key, mark, begun, place),
    }
}
