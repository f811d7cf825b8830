//! Where the listing of each member stands.

ghost use Rattle.std.specs.Option.{option_copied, option_map_or};
ghost use Rattle.std.specs.Prelude.{◌≡◌, ◌&&◌, None, not, is_some, IfOk, IfSome, OnOk, All, map, true};
ghost use Rattle.cas_ballot.specs.Members.{members_where, has_member};
ghost use Rattle.cas_model.specs.Council.{GoesOn, NextKeys, ask_of, place_in, has_ended};
ghost use Rattle.cas_model.specs.Eras.Listings.{moved, ended_in, stands_in, counts, counted, is_listed};
ghost use Rattle.cas_model.specs.Eras.Remaining.{IsPageOfKeys};
ghost use Rattle.cas_model.specs.Exchanges.Step.{places_from};
ghost use Rattle.cas_slot.specs.Slots.{rises};
ghost use Rattle.cas_world_listing.specs.Keys.{Adds};

use crate::keys::add_keys;
use crate::place::MemberPlace;
use cas_ballot::{AcceptorId, Ballot, Members};
use cas_change::Key;
use cas_record::Probe;
use cas_slot::Ask;
use std::alloc::{AllocError, Global};
use std::marker::Model;

/// How many identities of acceptors there are.
const IDENTITIES: u8 = 64;

/// Where the listing of each member stands: behind a key, before the first one, or at its end. A member that is not among them stands
/// before the first key.
#[derive(Debug, Drop)]
pub struct Places {
    places: Vec<MemberPlace>,
}

impl Model for Places {
    ghost use Rattle.std.specs.Prelude.{List};
    ghost use Rattle.cas_model.specs.Council.{MemberPlace as Standing};

    ghost Value = { List Standing };

    ghost view = { λ places. places.places.items };
}

impl Places {
    /// Nothing of these members is listed yet.
    pub fn first(alloc: Global, members: &Members) -> Result<Places, AllocError>
        ensures { IfOk result (λ places. places ≡ places_from members.now None) }
    {
        let mut places = Vec::with_capacity(alloc, members.count() as usize)?;
        for number in 0..IDENTITIES {
            let id = AcceptorId::new(number).unwrap();
            if members.has(id) {
                places.push(MemberPlace::first(id))?;
            }
        }
        Ok(Places { places })
    }

    /// Equal places, in memory of their own.
    pub fn copy(&self) -> Result<Places, AllocError>
        ensures { IfOk result (λ copy. copy ≡ self.now) }
    {
        let mut copies = Vec::with_capacity(*self.places.allocator(), self.places.len())?;
        for place in &self.places {
            copies.push(place.copy()?)?;
        }
        Ok(Places { places: copies })
    }

    /// What the member is asked: its next keys behind its place.
    pub fn ask(&self, tag: Ballot, member: AcceptorId) -> Result<Ask, AllocError>
        ensures { IfOk result (λ ask. ask ≡ ask_of tag (NextKeys self.now) member) }
    {
        let after = match place_of(&self.places, member) {
            Some(place) => place.after()?,
            None => None,
        };
        Ok(Ask::List { tag, after })
    }

    /// Those of these members whose listing has not come to its end.
    pub fn asked(&self, everyone: &Members) -> Members
        ensures { result ≡ members_where (λ member. has_member everyone.now member && not
            (has_ended (place_in self.now member))) }
    {
        let mut asked = Members::new();
        for number in 0..IDENTITIES {
            let id = AcceptorId::new(number).unwrap();
            if self.is_asked(everyone, id) {
                asked.insert(id);
            }
        }
        asked
    }

    /// The members whose listing has come to its end.
    pub(crate) fn ended(&self) -> Members
        ensures { result ≡ ended_in self.now }
    {
        let mut ended = Members::new();
        for number in 0..IDENTITIES {
            let id = AcceptorId::new(number).unwrap();
            if self.has_ended(id) {
                ended.insert(id);
            }
        }
        ended
    }

    /// Those of the members that count: their listing has come to its end, or their next keys were told.
    pub(crate) fn counted(&self, told: &[Probe]) -> Members
        ensures { result ≡ counted told.now self.now }
    {
        let mut counted = Members::new();
        for number in 0..IDENTITIES {
            let id = AcceptorId::new(number).unwrap();
            if self.counts(told, id) {
                counted.insert(id);
            }
        }
        counted
    }

    /// The places to which what was told leads, in memory of their own.
    pub(crate) fn moved(&self, told: &[Probe]) -> Result<Places, AllocError>
        ensures places { IfOk result (λ places. places ≡ map (moved told.now) self.now) }
        ensures keys { IfOk result (λ _. All (IsPageOfKeys told.now) self.now) }
    {
        let mut places = Vec::with_capacity(*self.places.allocator(), self.places.len())?;
        for place in &self.places {
            places.push(place.moved(told)?)?;
        }
        Ok(Places { places })
    }

    /// Adds each key that the members told, where it is not there yet. After an `Err` some of them are added.
    pub(crate) fn add_pages(&self, keys: &mut Vec<Key>, told: &[Probe]) -> Result<(), AllocError>
        requires { rises None keys.old.items ≡ true }
        ensures { OnOk result (Adds (is_listed told.now self.now) keys.old.items keys.new.items) }
    {
        for place in &self.places {
            if let Some(page) = place.page(told) {
                add_keys(keys, page.keys)?;
            }
        }
        Ok(())
    }

    /// Whether the member is one of these, and its listing has not come to its end.
    fn is_asked(&self, everyone: &Members, member: AcceptorId) -> bool
        ensures { result
            ≡ (has_member everyone.now member && not (has_ended (place_in self.now member))) }
    {
        everyone.has(member) && !self.has_ended(member)
    }

    /// Whether the member stands here, and its listing has come to its end or its next keys were told.
    fn counts(&self, told: &[Probe], member: AcceptorId) -> bool
        ensures { result ≡ counts told.now self.now member }
    {
        match place_of(&self.places, member) {
            Some(place) => place.has_ended() || place.page(told).is_some(),
            None => false,
        }
    }

    /// Whether the listing of the member has come to its end.
    fn has_ended(&self, member: AcceptorId) -> bool
        ensures { result ≡ has_ended (place_in self.now member) }
    {
        match place_of(&self.places, member) {
            Some(place) => place.has_ended(),
            None => false,
        }
    }
}

/// The first of these places that is the member's.
fn place_of(places: &[MemberPlace], member: AcceptorId) -> Option<&MemberPlace>
    ensures found { is_some result ≡ stands_in places.now member }
    ensures place { option_map_or (λ one. one.place) (option_copied result) (GoesOn None)
        ≡ place_in places.now member }
    ensures member { IfSome result (λ one. one.now.member ≡ member) }
{
    for place in places {
        if place.member() == member {
            return Some(place);
        }
    }
    None
}
