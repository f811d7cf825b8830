//! Where the listing of one member stands.

ghost use Rattle.std.specs.Prelude.{◌≡◌, None, IfOk, option_map};
ghost use Rattle.cas_model.specs.Council.{GoesOn, after_of, has_ended};
ghost use Rattle.cas_model.specs.Eras.Listings.{page_of, place_after, moved};
ghost use Rattle.cas_model.specs.Eras.Remaining.{IsPageOfKeys};
ghost use Rattle.cas_world_listing.specs.Page.{page_view};
ghost use Rattle.cas_world_listing.specs.Place.{place_view};

use crate::page::{NextKeys, copy_last, page_from, told_by};
use cas_ballot::AcceptorId;
use cas_change::Key;
use cas_record::Probe;
use std::alloc::AllocError;
use std::marker::Model;

/// How far a listing has come.
#[derive(Debug, Drop)]
pub(crate) enum Place {
    /// It goes on behind this key; before any was told, with the first one.
    GoesOn(Option<Key>),
    /// It has come to its end.
    Ended,
}

impl Place {
    /// The same, in memory of its own.
    fn copy(&self) -> Result<Place, AllocError>
        ensures { IfOk result (λ copy. copy ≡ self.now) }
    {
        match self {
            Place::GoesOn(Some(key)) => Ok(Place::GoesOn(Some(key.copy()?))),
            Place::GoesOn(None) => Ok(Place::GoesOn(None)),
            Place::Ended => Ok(Place::Ended),
        }
    }
}

/// A member, and how far its listing has come.
#[derive(Debug, Drop)]
pub(crate) struct MemberPlace {
    member: AcceptorId,
    place: Place,
}

impl Model for MemberPlace {
    ghost use Rattle.cas_model.specs.Council.{MemberPlace as Standing};
    ghost use Rattle.cas_world_listing.specs.Place.{place_view};

    ghost Value = { Standing };

    ghost view = { λ one. record { member = one.member; place = place_view one.place } };
}

impl MemberPlace {
    /// Nothing of this member is listed yet.
    pub fn first(member: AcceptorId) -> MemberPlace
        ensures { result ≡ record { member = member; place = GoesOn None } }
    {
        MemberPlace {
            member,
            place: Place::GoesOn(None),
        }
    }

    /// The member.
    pub fn member(&self) -> AcceptorId
        ensures { result ≡ self.now.member }
    {
        self.member
    }

    /// Whether its listing has come to its end.
    pub fn has_ended(&self) -> bool
        ensures { result ≡ has_ended self.now.place }
    {
        match &self.place {
            Place::GoesOn(_) => false,
            Place::Ended => true,
        }
    }

    /// The key behind which its listing goes on, in memory of its own.
    pub fn after(&self) -> Result<Option<Key>, AllocError>
        ensures { IfOk result (λ after. after ≡ after_of self.now.place) }
    {
        match &self.place {
            Place::GoesOn(Some(key)) => Ok(Some(key.copy()?)),
            Place::GoesOn(None) | Place::Ended => Ok(None),
        }
    }

    /// An equal one, in memory of its own.
    pub fn copy(&self) -> Result<MemberPlace, AllocError>
        ensures { IfOk result (λ copy. copy ≡ self.now) }
    {
        Ok(MemberPlace {
            member: self.member,
            place: self.place.copy()?,
        })
    }

    /// Its next keys, where they were told and go on from its place.
    pub fn page<'a>(&self, told: &'a [Probe]) -> Option<NextKeys<'a>>
        ensures page { option_map page_view result
            ≡ page_of told.now self.now.member self.now.place }
        ensures keys { IsPageOfKeys told.now self.now }
    {
        match &self.place {
            Place::GoesOn(after) => page_from(after, told_by(told, self.member)),
            Place::Ended => None,
        }
    }

    /// Where it stands once its next keys are listed, in memory of its own.
    pub fn moved(&self, told: &[Probe]) -> Result<MemberPlace, AllocError>
        ensures next { IfOk result (λ next. next ≡ moved told.now self.now) }
        ensures keys { IfOk result (λ _. IsPageOfKeys told.now self.now) }
    {
        Ok(MemberPlace {
            member: self.member,
            place: place_after(self.page(told), &self.place)?,
        })
    }
}

/// The place to which a page leads: its last key or, where no more follow, the end. With no page it stays.
fn place_after(page: Option<NextKeys<'_>>, place: &Place) -> Result<Place, AllocError>
    ensures { IfOk result (λ next. place_view next
        ≡ place_after (option_map page_view page.entry) (place_view place.now)) }
{
    match page {
        Some(page) if page.more => Ok(Place::GoesOn(copy_last(page.keys)?)),
        Some(_) => Ok(Place::Ended),
        None => place.copy(),
    }
}
