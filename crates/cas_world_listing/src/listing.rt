//! A listing of the keys that the members of an era keep a slot of.

ghost use Rattle.std.specs.Option.{option_copied};
ghost use Rattle.std.specs.Prelude.{◌≡◌, ◌==◌, ◌&&◌, None, IfOk, drop, length, option_map, slice_get};
ghost use Rattle.cas_model.specs.Eras.Listings.{ListsOn, counted, missing, greater_age, greatest_age, why_short};
ghost use Rattle.cas_model.specs.Eras.Remaining.{LeavesLess};
ghost use Rattle.cas_model.specs.Exchanges.Step.{begun_listing};

use crate::keys::copy_keys;
use crate::places::Places;
use cas_ballot::{Ballot, Members};
use cas_change::Key;
use cas_quorum::Era;
use cas_record::{Answer, Probe};
use cas_slot::Tell;
use std::alloc::{AllocError, Global};
use std::marker::Model;

/// A listing of all keys that the members of an era keep a slot of.
///
/// Each member is asked for its next keys until so many have come to their end that a prepare quorum and an accept quorum are among
/// them: the listing is complete. A key that was told is listed until it is proposed anew.
#[derive(Debug, Drop)]
pub struct Listing {
    tag: Ballot,
    places: Places,
    keys: Vec<Key>,
    complete: bool,
}

impl Model for Listing {
    ghost use Rattle.std.specs.Prelude.{◌≡◌, None, true};
    ghost use Rattle.cas_model.specs.Council.{ListingView};
    ghost use Rattle.cas_slot.specs.Slots.{rises};

    ghost Value = { ListingView };

    ghost view = { λ listing. record { tag = listing.tag; places = listing.places; keys = listing.keys.items; complete = listing.complete } };

    ghost invariant = { λ listing. rises None listing.keys.items ≡ true };
}

impl Listing {
    /// A listing of nothing yet, whose requests bear this tag and go on from these places.
    pub fn begin(alloc: Global, tag: Ballot, places: Places) -> Listing
        ensures { result ≡ begun_listing places tag None }
    {
        Listing {
            tag,
            places,
            keys: Vec::new(alloc),
            complete: false,
        }
    }

    /// The tag of its requests.
    pub fn tag(&self) -> Ballot
        ensures { result ≡ self.now.tag }
    {
        self.tag
    }

    /// Where the listing of each member stands.
    pub fn places(&self) -> &Places
        ensures { result.now ≡ self.now.places }
    {
        &self.places
    }

    /// Whether so many members have come to their end that no key is missing.
    pub fn is_complete(&self) -> bool
        ensures { result ≡ self.now.complete }
    {
        self.complete
    }

    /// Whether nothing is left to be listed, nor to be proposed anew.
    pub fn is_settled(&self) -> bool
        ensures { result ≡ (self.now.complete && (length self.now.keys == 0)) }
    {
        self.complete && self.keys.is_empty()
    }

    /// The first key that is still to be proposed anew, in the order of their bytes.
    pub fn first_key(&self) -> Option<&Key>
        ensures { option_copied result ≡ slice_get self.now.keys 0 }
    {
        self.keys.first()
    }

    /// The first key was proposed anew: it is no longer listed. Where no key is left all stays as it is.
    pub fn drop_first(&mut self)
        ensures { self.new ≡ record self.old { keys = drop 1 self.old.keys } }
    {
        if !self.keys.is_empty() {
            self.keys.remove(0);
        }
    }

    /// How the listing goes on by what the members told. This one stays as it is.
    ///
    /// What counts of a member is its first probe, and only where its keys can follow behind the place of the member. So where enough
    /// members count, the next listing is complete, or less of it is left.
    pub fn next(&self, era: &Era, told: &[Probe]) -> Result<Listing, AllocError>
        ensures goes_on { IfOk result (λ next. ListsOn era.now told.now self.now next) }
        ensures less { IfOk result (λ next. LeavesLess era.now told.now self.now next) }
    {
        let places = self.places.moved(told)?;
        let mut keys = copy_keys(*self.keys.allocator(), &self.keys)?;
        self.places.add_pages(&mut keys, told)?;
        let ended = places.ended();
        let complete = era.holds_prep(&ended) && era.holds_acc(&ended);
        Ok(Listing {
            tag: self.tag,
            places,
            keys,
            complete,
        })
    }

    /// Why the listing cannot go on where the members that count are too few for a prepare quorum or an accept quorum, and `None` where
    /// they are not: [`Answer::Aged`] with the greatest age that was told, and where none was [`Answer::Short`] with how many of the
    /// first quorum that is missing count, and how many are needed.
    pub fn short(&self, era: &Era, told: &[Probe]) -> Option<Answer>
        ensures { result
            ≡ option_map (why_short told.now) (missing era.now (counted told.now self.now.places)) }
    {
        let short = missing(era, &self.places.counted(told))?;
        match greatest_age(told) {
            Some(least) => Some(Answer::Aged { least }),
            None => Some(short),
        }
    }
}

/// How many of a quorum these are where one is missing, first a prepare quorum.
fn missing(era: &Era, by: &Members) -> Option<Answer>
    ensures { result ≡ missing era.now by.now }
{
    if !era.holds_prep(by) {
        return Some(Answer::Short {
            got: era.prep.intersection(by).count(),
            need: era.need_prep,
        });
    }
    if !era.holds_acc(by) {
        return Some(Answer::Short {
            got: era.acc.intersection(by).count(),
            need: era.need_acc,
        });
    }
    None
}

/// The greatest age that was told.
fn greatest_age(told: &[Probe]) -> Option<u64>
    ensures { result ≡ greatest_age told.now }
{
    let mut greatest = None;
    for probe in told {
        greatest = greater_age(&probe.told, greatest);
    }
    greatest
}

/// The age that was told, where it is greater than this one.
fn greater_age(told: &Option<Tell>, greatest: Option<u64>) -> Option<u64>
    ensures { result ≡ greater_age told.now greatest }
{
    match told {
        Some(Tell::Aged(least)) => Some(greatest.unwrap_or(0).max(*least)),
        _ => greatest,
    }
}
