//! What several crates say in the same words: what it means that a count of faults rose, and small lemmas on tests and bytes.
//!
//! No type of the store and no rule of the protocol lives here.
#![tactic(auto)]

ghost use Rattle.std.specs.Prelude.{◌+◌, ◌≤◌};
ghost use Rattle.cas_base.specs.Faults.{Rose};

/// The count of faults after one more fault. It stands still at the greatest `u64`.
pub fn raised(faults: u64) -> u64
    ensures rose { Rose faults result }
    ensures never_falls { faults ≤ result }
    ensures by_one { result ≤ faults + 1 }
{
    faults.saturating_add(1)
}
