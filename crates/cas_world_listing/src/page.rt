//! The next keys of a member, as it told them.

ghost use Rattle.std.specs.Prelude.{◌≡◌, true, IfOk, IfSome, option_map};
ghost use Rattle.std.specs.Option.{option_copied};
ghost use Rattle.cas_record.specs.Logs.Orderly.{last_of};
ghost use Rattle.cas_model.specs.Eras.Listings.{is_after, can_follow, told_by, page_from};
ghost use Rattle.cas_model.specs.Eras.Remaining.{AreKeys};
ghost use Rattle.cas_world_listing.specs.Page.{page_view};

use crate::keys::rises;
use cas_ballot::AcceptorId;
use cas_change::Key;
use cas_record::Probe;
use cas_slot::Tell;
use std::alloc::AllocError;

/// The next keys of a member, in the order of their bytes.
#[derive(Clone, Copy)]
pub(crate) struct NextKeys<'a> {
    pub keys: &'a [Key],
    /// Whether more follow.
    pub more: bool,
}

/// What the member told, in its first probe of these. `None` comes where it told nothing, or none of them is its own.
pub fn told_by(told: &[Probe], member: AcceptorId) -> Option<&Tell>
    ensures { option_copied result ≡ told_by told.now member }
{
    for probe in told {
        if probe.acceptor == member {
            return probe.told.as_ref();
        }
    }
    None
}

/// The page that was told, where it goes on behind this key and its keys can follow.
pub(crate) fn page_from<'a>(after: &Option<Key>, told: Option<&'a Tell>) -> Option<NextKeys<'a>>
    ensures page { option_map page_view result ≡ page_from after.now (option_copied told.entry) }
    ensures keys { IfSome (page_from after.now (option_copied told.entry))
        (λ page. AreKeys after.now page.keys) }
{
    match told {
        Some(
            Tell::Listed {
                after: from,
                keys,
                more,
            },
        ) => {
            if is_after(from, after) && can_follow(after, keys.keys(), *more) {
                Some(NextKeys {
                    keys: keys.keys(),
                    more: *more,
                })
            } else {
                None
            }
        }
        _ => None,
    }
}

/// Whether both are the same place.
fn is_after(after: &Option<Key>, other: &Option<Key>) -> bool
    ensures { result ≡ is_after after.now other.now }
{
    match (after, other) {
        (None, None) => true,
        (Some(key), Some(other)) => key == other,
        _ => false,
    }
}

/// Whether these can be the next keys behind this one: they rise behind it, and where more follow there are some.
fn can_follow(after: &Option<Key>, keys: &[Key], more: bool) -> bool
    ensures follows { result ≡ can_follow after.now keys.now more }
    ensures keys { result ≡ true → AreKeys after.now keys.now }
{
    rises(after.as_ref(), keys) && (!more || !keys.is_empty())
}

/// The last of these keys, in memory of its own.
pub(crate) fn copy_last(keys: &[Key]) -> Result<Option<Key>, AllocError>
    ensures { IfOk result (λ last. last ≡ last_of keys.now) }
{
    match keys.last() {
        Some(key) => Ok(Some(key.copy()?)),
        None => Ok(None),
    }
}
