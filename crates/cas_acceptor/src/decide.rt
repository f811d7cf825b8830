//! What a request is answered, and what the answer changes.

ghost use Rattle.std.specs.Prelude.{◌≡◌, IfOk};
ghost use Rattle.cas_slot.specs.Limits.{AskBallotsFit, AllBallotsFit};
ghost use Rattle.cas_slot.specs.Rules.{prepare_rule, accept_rule, tell_by_prepare, tell_by_accept};
ghost use Rattle.cas_slot.specs.Table.{Answers};
ghost use Rattle.cas_slot.specs.declared.message.Ask.TheVariants as asked;
ghost use Rattle.cas_acceptor.specs.Change.{Decides, ChangeBallotsFit};
ghost use Rattle.cas_acceptor.specs.Decide.{put_by_prepare, put_by_accept, put_of, tell_by_probe, IsListing};

use crate::change::Change;
use cas_ballot::Ballot;
use cas_change::Key;
use cas_slot::{
    AcceptRule, Accepted, Ask, MOST_KEYS, Page, PrepareRule, RemoveRule, Shelf, Slot, Tell,
    on_accept, on_prepare, on_remove,
};
use std::alloc::AllocError;

/// What a request is told, and what is changed for it, by the table. The ballots of what is put are within their limits, where
/// those of the shelf and of the request are.
pub(crate) fn decide<'a, S: Shelf>(
    shelf: &S,
    ask: &'a Ask,
) -> Result<(Tell, Change<'a>), AllocError>
    ensures table { IfOk result (λ done. Decides (S.contents shelf.now) ask.now done.0 done.1) }
    ensures fits { AllBallotsFit (S.contents shelf.now)
        → AskBallotsFit ask.now → IfOk result (λ done. ChangeBallotsFit done.1) }
{
    match ask {
        Ask::Prepare { key, ballot } => {
            let slot = shelf.get(key)?;
            let (tell, put) = prepared(slot, *ballot)?;
            Ok((tell, put_of(key, put)))
        }
        Ask::Accept {
            key,
            ballot,
            era,
            ride,
            state,
        } => {
            let proposal = Accepted {
                ballot: *ballot,
                era: *era,
                state: state.copy()?,
            };
            let slot = shelf.get(key)?;
            let (tell, put) = accepted(slot, *ride, proposal);
            Ok((tell, put_of(key, put)))
        }
        Ask::Ages { least, .. } => Ok((Tell::AgesSet, Change::Raise(least))),
        Ask::Remove { key, tomb } => {
            let slot = shelf.get(key)?;
            match on_remove(slot.as_ref(), *tomb) {
                RemoveRule::Remove => Ok((Tell::Removed, Change::Remove(key))),
                RemoveRule::Absent => Ok((Tell::Removed, Change::Nothing)),
                RemoveRule::Keep => Ok((Tell::Kept, Change::Nothing)),
            }
        }
        Ask::List { after, .. } => {
            let tell = listed(shelf, after)?;
            Ok((tell, Change::Nothing))
        }
        Ask::Probe { key, .. } => {
            let slot = shelf.get(key)?;
            Ok((probed(slot), Change::Nothing))
        }
    }
}

/// The change that puts the slot at the key, if there is one.
fn put_of(key: &Key, put: Option<Slot>) -> Change<'_>
    ensures { result ≡ put_of key.entry put }
{
    match put {
        Some(slot) => Change::Put(key, slot),
        None => Change::Nothing,
    }
}

/// What a prepare is told, and the slot that is put in the place of this one, if another is.
fn prepared(slot: Option<Slot>, ballot: Ballot) -> Result<(Tell, Option<Slot>), AllocError>
    ensures tell { IfOk result (λ done. done.0 ≡ tell_by_prepare (prepare_rule slot ballot) slot) }
    ensures put { IfOk result
        (λ done. done.1 ≡ put_by_prepare (prepare_rule slot ballot) slot ballot) }
{
    let rule = on_prepare(slot.as_ref(), ballot);
    let accepted = slot.and_then(|slot| slot.accepted);
    match rule {
        PrepareRule::Promise => {
            let told = match &accepted {
                Some(accepted) => Some(accepted.copy()?),
                None => None,
            };
            let slot = Slot {
                promise: ballot,
                accepted,
            };
            Ok((Tell::Promised { accepted: told }, Some(slot)))
        }
        PrepareRule::Again => Ok((Tell::Promised { accepted }, None)),
        PrepareRule::Met(seen) => Ok((Tell::Met(seen), None)),
    }
}

/// What an accept is told, and the slot that is put in the place of this one, if another is.
fn accepted(slot: Option<Slot>, ride: Option<Ballot>, accepted: Accepted) -> (Tell, Option<Slot>)
    ensures tell { result.0 ≡ tell_by_accept (accept_rule slot accepted.ballot) }
    ensures put { result.1 ≡ put_by_accept (accept_rule slot accepted.ballot) accepted ride }
{
    match on_accept(slot.as_ref(), accepted.ballot) {
        AcceptRule::Take => {
            let slot = Slot {
                promise: ride.unwrap_or(Ballot::ZERO),
                accepted: Some(accepted),
            };
            (Tell::Accepted, Some(slot))
        }
        AcceptRule::Repeat => (Tell::Accepted, None),
        AcceptRule::Met(seen) => (Tell::Met(seen), None),
    }
}

/// What a probe of a key with this slot is told.
fn probed(slot: Option<Slot>) -> Tell
    ensures { result ≡ tell_by_probe slot }
{
    match slot {
        Some(slot) => Tell::Probed {
            promise: slot.promise,
            accepted: slot.accepted,
        },
        None => Tell::Probed {
            promise: Ballot::ZERO,
            accepted: None,
        },
    }
}

/// What a listing after this key is told.
fn listed<S: Shelf>(shelf: &S, after: &Option<Key>) -> Result<Tell, AllocError>
    ensures { IfOk result (IsListing (S.contents shelf.now) after.now) }
{
    let mut keys = shelf.keys_after(after.as_ref(), MOST_KEYS + 1)?;
    let more = keys.len() > MOST_KEYS;
    keys.truncate(MOST_KEYS);
    let told = match after {
        Some(key) => Some(key.copy()?),
        None => None,
    };
    Ok(Tell::Listed {
        after: told,
        keys: Page::new(keys),
        more,
    })
}
