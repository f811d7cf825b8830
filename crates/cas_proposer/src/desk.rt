//! The desk of one proposer.
ghost use Rattle.std.specs.Prelude.{◌≡◌, ◌⊎◌, ◌+◌, ◌^◌, ◌≤◌, ◌↔◌, ℕ, max, true, false, Ok, Some, None, is_none, is_some, [], IsTrue, IsSome, IsSomeAnd, IfOk, IfErr, OnOk, OnErr, IsErrOf, MatchOption};
ghost use Rattle.cas_disk.specs.Disk.{LeavesOnly, Only, Elapses};
ghost use Rattle.cas_ballot.specs.declared.ballot.Ballot.{Ballot as ABallot};
ghost use Rattle.cas_round.specs.Replies.{met_by};
ghost use Rattle.cas_cache.specs.Cache.{promises_of, place_of};
ghost use Rattle.cas_cache.specs.Entries.{promise_at, without};
ghost use Rattle.cas_vault.specs.Error.{HasVaultCause, IsNotForeign};
ghost use Rattle.cas_vault.specs.Vault.{disk_of, counter_of, kept_of, kept_to_draw, kept_one_older, kept_in_era, KeptOn, KeepsBeforeOrAfter, VaultStands, IsPast, IsForeignAt};

use crate::began::Began;
use crate::round::Round;
use cas_ballot::{Ballot, LAST_COUNTER, Members, ProposerId};
use cas_cache::{Cache, Ready};
use cas_change::Key;
use cas_disk::Disk;
use cas_quorum::Era;
use cas_round::RoundVerdict;
use cas_slot::{Accepted, Reply};
use cas_vault::{Vault, VaultError};
use std::alloc::{AllocError, Global};
use std::marker::Model;

/// The desk of one proposer (Rystsov 2018, sections 2.1 and 2.2): its vault, its cache of promises, and at most one open round.
///
/// It is up or down. It goes down where its vault's disk fails and where it crashes, and is up again after [`Desk::restart`].
/// While it is down no round is open. No ballot is drawn twice, wherever the vault crashes.
#[derive(Drop)]
pub struct Desk<V: Disk> {
    id: ProposerId,
    vault: Vault<V>,
    // Its open place is that of the open round's key.
    cache: Cache,
    round: Option<Round>,
    down: bool,
}

impl<V: Disk> Model for Desk<V> {
    ghost use Rattle.cas_cache.specs.Cache.{promises_of};
    ghost use Rattle.cas_proposer.specs.Desk.{DeskView, IsDesk};

    ghost Value = { DeskView V };

    ghost view = { λ d. record { id = d.id; vault = d.vault; cache = promises_of d.cache; round = d.round; down = d.down } };

    ghost invariant = { λ d. IsDesk V.tells V.seen V.may_leave d.vault d.cache d.round d.down };
}

impl<V: Disk> Desk<V> {
    ghost use Rattle.cas_proposer.specs.Desk.{cache_after, cache_without, counter_without, promise_used, IsOpened, is_in_prepare, may_read, may_ride, with_ride, met_counter, Draws, DrawsFor, ShowsTheSame, GoesDownInDraw, IsCrashed};
    ghost use Rattle.cas_proposer.specs.declared.round.Round.{Round as ARound};
    ghost use Rattle.cas_proposer.specs.Round.{Hears, IsVerdictOf, IsConfirmersOf, confirmed_in, has_quorum, TurnsToAccept, IsReadOf};

    /// The desk of that proposer over a vault that is in use, with an empty cache and no open round. It is up. Where no memory was
    /// found the vault comes back.
    pub fn new(
        alloc: Global,
        id: ProposerId,
        vault: Vault<V>,
    ) -> Result<Desk<V>, (AllocError, Vault<V>)>
        requires { VaultStands V.tells V.seen V.may_leave vault }
        ensures desk { IfOk result (λ desk. desk ≡ record {
          id = id;
          vault = vault;
          cache = [];
          round = None;
          down = false;
        }) }
        ensures back { IfErr result (λ back. back.1 ≡ vault) }
    {
        match Cache::new(alloc) {
            Ok(cache) => Ok(Desk {
                id,
                vault,
                cache,
                round: None,
                down: false,
            }),
            Err(error) => Err((error, vault)),
        }
    }

    /// Opens a round of the key in this era: in its accept phase exactly where the key has a promise, which is then used up, and
    /// otherwise in its prepare phase at a ballot that is drawn. `Spent` comes exactly where there is no promise and the counter is
    /// 2^48, if memory is found. The desk is down after `VaultFault`, which comes only where the key has no promise; after each error no
    /// round is open and the promises are as before. While the desk is up, a crash of its vault leaves bound, age and era as they are.
    pub fn begin(&mut self, era: &Era, key: &Key) -> Result<Began, VaultError>
        requires up { self.old.down ≡ false }
        requires idle { self.old.round ≡ None }
        ensures by_promise { IfOk result
            (λ began. promise_used began ≡ promise_at key.now self.old.cache) }
        ensures opened { IfOk result
            (λ began. IsSomeAnd self.new.round (IsOpened key.now era.now began)) }
        ensures phase { IfOk result
            (λ began. is_in_prepare self.new.round ≡ is_none (promise_used began)) }
        ensures vault { IfOk result (DrawsFor self.old.id self.old.vault self.new.vault) }
        ensures desk { OnOk result (self.new ≡ record self.old {
          vault = self.new.vault;
          cache = without key.now self.old.cache;
          round = self.new.round;
        }) }
        ensures gone { OnOk result (promise_at key.now self.new.cache ≡ None) }
        ensures stands { self.new.down ≡ false
            → VaultStands V.tells V.seen V.may_leave self.new.vault }

        // The vault is then past the ballot that was drawn, and still past each number that it was past.
        ensures past { V.tells → IfOk result (λ began. promise_used began ≡ None
            → IsPast V.may_leave (counter_of self.new.vault) self.new.vault) }
        ensures still_past { V.tells
            → (n : ℕ) → IsPast V.may_leave n self.old.vault → IsPast V.may_leave n self.new.vault }
        ensures any_moment { V.tells → LeavesOnly V.moment V.left_since (disk_of self.old.vault)
            (disk_of self.new.vault) (KeepsBeforeOrAfter (kept_of self.old.vault)
            (kept_to_draw (counter_of self.old.vault) (kept_of self.old.vault))) }

        ensures spent { IsErrOf result VaultError.Spent
            → (promise_at key.now self.old.cache ≡ None) × (counter_of self.old.vault ≡ 2 ^ 48) }
        ensures spent_or_no_memory { promise_at key.now self.old.cache ≡ None
            → counter_of self.old.vault ≡ 2 ^ 48
            → IsErrOf result VaultError.Spent ⊎ IsErrOf result VaultError.NoMemory }
        ensures not_foreign { IsNotForeign result }
        ensures faulted { IsErrOf result VaultError.VaultFault
            → promise_at key.now self.old.cache ≡ None }
        ensures refused { OnErr result (self.new ≡ record self.old {
          vault = self.new.vault;
          down = self.new.down;
        }) }
        ensures same_vault { OnErr result (ShowsTheSame self.old.vault self.new.vault) }
        ensures down { IsErrOf result VaultError.VaultFault ↔ IsTrue self.new.down }
        ensures cause { HasVaultCause result
            (V.fault_count (disk_of self.old.vault)) (V.fault_count (disk_of self.new.vault)) }
    {
        let id = self.id;
        let Ok(own) = key.copy() else {
            return Err(VaultError::NoMemory);
        };
        let Ok(promise) = self.cache.take(key) else {
            return Err(VaultError::NoMemory);
        };
        match promise {
            Some(ready) => {
                self.round = Some(Round::accepting(own, era, ready.ballot));
                Ok(Began::Accept(ready))
            }
            None => match draw(&mut self.vault, id) {
                Ok(ballot) => {
                    self.round = Some(Round::preparing(own, era, ballot));
                    Ok(Began::Prepare(ballot))
                }
                Err(error) => {
                    self.cache.forget(key);
                    self.down = matches!(error, VaultError::VaultFault);
                    Err(error)
                }
            },
        }
    }

    /// A reply arrives at the open round. One of another phase or another ballot changes nothing there, and where no round is open
    /// none does. A ballot that it tells as met has a counter of at most 2^48.
    pub fn arrive(&mut self, reply: Reply)
        requires { met_counter (met_by reply.tell) ≤ 2 ^ 48 }
        ensures desk { self.new ≡ record self.old { round = self.new.round } }
        ensures open { is_some self.new.round ≡ is_some self.old.round }
        ensures phase { is_in_prepare self.new.round ≡ is_in_prepare self.old.round }
        ensures heard { (old : ARound)
            → self.old.round ≡ Some old → IsSomeAnd self.new.round (Hears old reply) }
    {
        match &mut self.round {
            Some(round) => round.arrive(reply),
            None => drop(reply),
        }
    }

    /// How the open phase ends, should no other reply arrive.
    pub fn verdict(&self) -> RoundVerdict
        requires { IsSome self.now.round }
        ensures verdict { (round : ARound)
            → self.now.round ≡ Some round → IsVerdictOf round result }
        ensures quorum { (round : ARound) → self.now.round ≡ Some round
            → ((result ≡ RoundVerdict.Quorum) ↔ (has_quorum round.phase ≡ true)) }
    {
        match &self.round {
            Some(round) => round.verdict(),
            None => unreachable!(),
        }
    }

    /// The acceptors that confirmed in the open phase.
    pub fn confirmers(&self) -> Members
        requires { IsSome self.now.round }
        ensures confirmers { (round : ARound)
            → self.now.round ≡ Some round → IsConfirmersOf round result }
        ensures shown { (round : ARound)
            → self.now.round ≡ Some round → result ≡ confirmed_in round.phase }
    {
        match &self.round {
            Some(round) => round.confirmers(),
            None => unreachable!(),
        }
    }

    /// Ends the prepare phase of the open round and opens its accept phase. Answers what was read: of all that was told as accepted,
    /// that of the greatest ballot. It is called once the prepare phase has a quorum, which [`Desk::verdict`] tells.
    pub fn read(&mut self) -> Option<Accepted>
        requires { IsTrue (may_read self.old.round) }
        ensures desk { self.new ≡ record self.old { round = self.new.round } }
        ensures turns { (old : ARound)
            → self.old.round ≡ Some old → IsSomeAnd self.new.round (TurnsToAccept old) }
        ensures may_ride { IsTrue (may_ride self.new.round) }
        ensures read { (old : ARound) → self.old.round ≡ Some old → IsReadOf old result }
    {
        match &mut self.round {
            Some(round) => round.read(),
            None => unreachable!(),
        }
    }

    /// Draws the ballot that rides on the accepts of the open round. There is none for proposer 0, and none where the counter is
    /// 2^48. After `VaultFault` the desk is down, and its round is ended; after `NoMemory` all is as before.
    pub fn ride(&mut self) -> Result<Option<Ballot>, VaultError>
        requires up { self.old.down ≡ false }
        requires accepting { IsTrue (may_ride self.old.round) }
        ensures none { result ≡ Ok None
            → ((self.old.id ≡ 0) ⊎ (counter_of self.old.vault ≡ 2 ^ 48)) × (self.new ≡ self.old) }
        ensures drawn { (ballot : ABallot)
            → result ≡ Ok (Some ballot) → Draws self.old.id self.old.vault self.new.vault ballot }
        ensures rides { (ballot : ABallot) → result ≡ Ok (Some ballot) → self.new
            ≡ record self.old { vault = self.new.vault; round = with_ride self.old.round ballot } }
        ensures not_drawn { (self.old.id ≡ 0)
            ⊎ (counter_of self.old.vault ≡ 2 ^ 48) → result ≡ Ok None }
        ensures stands { self.new.down ≡ false
            → VaultStands V.tells V.seen V.may_leave self.new.vault }

        // The vault is then past the ballot that was drawn, and still past each number that it was past.
        ensures past { V.tells → (ballot : ABallot)
            → result ≡ Ok (Some ballot) → IsPast V.may_leave ballot.counter self.new.vault }
        ensures still_past { V.tells
            → (n : ℕ) → IsPast V.may_leave n self.old.vault → IsPast V.may_leave n self.new.vault }
        ensures any_moment { V.tells → LeavesOnly V.moment V.left_since (disk_of self.old.vault)
            (disk_of self.new.vault) (KeepsBeforeOrAfter (kept_of self.old.vault)
            (kept_to_draw (counter_of self.old.vault) (kept_of self.old.vault))) }

        ensures not_spent { IsErrOf result VaultError.Spent → ⊥ }
        ensures not_foreign { IsNotForeign result }
        ensures no_memory { IsErrOf result VaultError.NoMemory
            → (self.new ≡ record self.old { vault = self.new.vault })
            × ShowsTheSame self.old.vault self.new.vault }
        ensures fault { IsErrOf result VaultError.VaultFault → GoesDownInDraw self.old self.new }
        ensures cause { HasVaultCause result
            (V.fault_count (disk_of self.old.vault)) (V.fault_count (disk_of self.new.vault)) }
    {
        if self.id.number() == 0 || self.vault.counter() == LAST_COUNTER {
            return Ok(None);
        }
        let ballot = self.tag()?;
        if let Some(round) = &mut self.round {
            round.ride = Some(ballot);
        }
        Ok(Some(ballot))
    }

    /// Ends the open round, and moves the counter up to that of the greatest ballot that was met in either phase. Once its change is
    /// acknowledged, a round offers the promise that rode along. It is kept exactly where an accept quorum accepted, its ballot was
    /// drawn for this round, it names the round's ballot as read and those that accepted as the ones that hold it, and these are a
    /// prepare quorum. It takes no memory.
    pub fn end(&mut self, kept: Option<Ready>)
        requires { IsSome self.old.round }
        ensures desk { (round : ARound)
            → self.old.round ≡ Some round → self.new ≡ record self.old {
              vault = self.new.vault;
              cache = cache_after round kept self.old.cache;
              round = None;
            } }
        ensures counter { counter_of self.new.vault
            ≡ counter_without self.old.round (counter_of self.old.vault) }
        ensures kept { kept_of self.new.vault ≡ kept_of self.old.vault }
        ensures disk { disk_of self.new.vault ≡ disk_of self.old.vault }
        ensures stands { self.new.down ≡ false
            → VaultStands V.tells V.seen V.may_leave self.new.vault }
        ensures still_past { (n : ℕ)
            → IsPast V.may_leave n self.old.vault → IsPast V.may_leave n self.new.vault }
    {
        let Some(round) = self.round.take() else {
            unreachable!();
        };
        finish(&mut self.vault, &mut self.cache, round, kept);
    }

    /// Renews the proposer before a key's tombstone at this ballot is removed: its open round is closed, the key's promise is taken out, the
    /// counter becomes at least the tombstone's, and the age rises by one. In the same change the bound rises to the counter, where
    /// that is above it. Answers the new age.
    ///
    /// `Spent` comes exactly where the age is 2^48, and all is as before then. After `NoMemory` the counter has become at least the
    /// tombstone's, too; all else is as before. `VaultFault` is a crash: the desk is down, its round is closed and its cache is empty.
    pub fn renew(&mut self, key: &Key, tomb: Ballot) -> Result<u64, VaultError>
        requires up { self.old.down ≡ false }
        requires within { tomb.counter ≤ 2 ^ 48 }
        ensures age { IfOk result (λ age. age ≡ (kept_of self.old.vault).age + 1) }
        ensures desk { OnOk result (self.new ≡ record self.old {
          vault = self.new.vault;
          cache = without key.now (cache_without self.old.round self.old.cache);
          round = None;
        }) }
        ensures counter { IsErrOf result VaultError.Spent
            ⊎ (counter_of self.new.vault ≡ max (counter_of self.old.vault) tomb.counter) }
        ensures kept { OnOk result (kept_of self.new.vault ≡ kept_one_older
            (max (counter_of self.old.vault) tomb.counter) (kept_of self.old.vault)) }
        ensures stands { self.new.down ≡ false
            → VaultStands V.tells V.seen V.may_leave self.new.vault }

        // The vault is then past the tombstone, and still past each number that it was past.
        ensures past { V.tells → OnOk result (IsPast V.may_leave tomb.counter self.new.vault) }
        ensures still_past { V.tells
            → (n : ℕ) → IsPast V.may_leave n self.old.vault → IsPast V.may_leave n self.new.vault }
        ensures any_moment { V.tells → LeavesOnly V.moment V.left_since (disk_of self.old.vault)
            (disk_of self.new.vault) (KeepsBeforeOrAfter (kept_of self.old.vault) (kept_one_older
            (max (counter_of self.old.vault) tomb.counter) (kept_of self.old.vault))) }

        ensures spent { IsErrOf result VaultError.Spent ↔ ((kept_of self.old.vault).age ≡ 2 ^ 48) }
        ensures after_spent { IsErrOf result VaultError.Spent → self.new ≡ self.old }
        ensures no_memory { IsErrOf result VaultError.NoMemory
            → self.new ≡ record self.old { vault = self.new.vault } }
        ensures fault { IsErrOf result VaultError.VaultFault → IsCrashed self.old self.new }
        ensures same_kept { OnErr result (kept_of self.new.vault ≡ kept_of self.old.vault) }
        ensures not_foreign { IsNotForeign result }
        ensures cause { HasVaultCause result
            (V.fault_count (disk_of self.old.vault)) (V.fault_count (disk_of self.new.vault)) }
    {
        if self.vault.age() == LAST_COUNTER {
            return Err(VaultError::Spent);
        }
        match grow_older(&mut self.vault, tomb.counter) {
            Ok(age) => {
                close(&mut self.cache, &self.round, key);
                drop(self.round.take());
                Ok(age)
            }
            Err(VaultError::VaultFault) => {
                fall(&mut self.cache, &mut self.round, &mut self.down);
                Err(VaultError::VaultFault)
            }
            Err(error) => Err(error),
        }
    }

    /// Enters an era: the open round is closed and the cache is empty then. After `NoMemory` all is as before. `VaultFault` is a crash:
    /// the desk is down, its round is closed and its cache is empty.
    pub fn move_to(&mut self, era: &Era) -> Result<(), VaultError>
        requires up { self.old.down ≡ false }
        ensures desk { OnOk result (self.new ≡ record self.old {
          vault = self.new.vault;
          cache = [];
          round = None;
        }) }
        ensures counter { counter_of self.new.vault ≡ counter_of self.old.vault }
        ensures kept { OnOk result
            (kept_of self.new.vault ≡ kept_in_era era.now.number (kept_of self.old.vault)) }
        ensures stands { self.new.down ≡ false
            → VaultStands V.tells V.seen V.may_leave self.new.vault }
        ensures still_past { V.tells
            → (n : ℕ) → IsPast V.may_leave n self.old.vault → IsPast V.may_leave n self.new.vault }
        ensures any_moment { V.tells → LeavesOnly V.moment V.left_since (disk_of self.old.vault)
            (disk_of self.new.vault) (KeepsBeforeOrAfter (kept_of self.old.vault)
            (kept_in_era era.now.number (kept_of self.old.vault))) }
        ensures not_spent { IsErrOf result VaultError.Spent → ⊥ }
        ensures not_foreign { IsNotForeign result }
        ensures no_memory { IsErrOf result VaultError.NoMemory
            → self.new ≡ record self.old { vault = self.new.vault } }
        ensures fault { IsErrOf result VaultError.VaultFault → IsCrashed self.old self.new }
        ensures same_kept { OnErr result (kept_of self.new.vault ≡ kept_of self.old.vault) }
        ensures cause { HasVaultCause result
            (V.fault_count (disk_of self.old.vault)) (V.fault_count (disk_of self.new.vault)) }
    {
        match self.vault.enter_era(era.number) {
            Ok(()) => {
                self.cache.clear();
                self.round = None;
                Ok(())
            }
            Err(VaultError::VaultFault) => {
                fall(&mut self.cache, &mut self.round, &mut self.down);
                Err(VaultError::VaultFault)
            }
            Err(error) => Err(error),
        }
    }

    /// Draws a ballot, as the tag of a listing or a probe. `Spent` comes exactly where the counter is 2^48. After `VaultFault` the desk is
    /// down, and an open round is ended; after another error all is as before.
    pub fn tag(&mut self) -> Result<Ballot, VaultError>
        requires up { self.old.down ≡ false }
        ensures drawn { IfOk result (Draws self.old.id self.old.vault self.new.vault) }
        ensures desk { OnOk result (self.new ≡ record self.old { vault = self.new.vault }) }
        ensures stands { self.new.down ≡ false
            → VaultStands V.tells V.seen V.may_leave self.new.vault }

        // The vault is then past the ballot that was drawn, and still past each number that it was past.
        ensures past { V.tells
            → IfOk result (λ ballot. IsPast V.may_leave ballot.counter self.new.vault) }
        ensures still_past { V.tells
            → (n : ℕ) → IsPast V.may_leave n self.old.vault → IsPast V.may_leave n self.new.vault }
        ensures any_moment { V.tells → LeavesOnly V.moment V.left_since (disk_of self.old.vault)
            (disk_of self.new.vault) (KeepsBeforeOrAfter (kept_of self.old.vault)
            (kept_to_draw (counter_of self.old.vault) (kept_of self.old.vault))) }

        ensures spent { IsErrOf result VaultError.Spent ↔ (counter_of self.old.vault ≡ 2 ^ 48) }
        ensures not_foreign { IsNotForeign result }
        ensures refused { OnErr result (self.new.down ≡ false
            → (self.new ≡ record self.old { vault = self.new.vault })
            × ShowsTheSame self.old.vault self.new.vault) }
        ensures fault { IsErrOf result VaultError.VaultFault → GoesDownInDraw self.old self.new }
        ensures down { IsErrOf result VaultError.VaultFault ↔ IsTrue self.new.down }
        ensures cause { HasVaultCause result
            (V.fault_count (disk_of self.old.vault)) (V.fault_count (disk_of self.new.vault)) }
    {
        match draw(&mut self.vault, self.id) {
            Err(VaultError::VaultFault) => {
                give_up(&mut self.vault, &mut self.cache, self.round.take());
                self.down = true;
                Err(VaultError::VaultFault)
            }
            Err(error) => Err(error),
            Ok(ballot) => Ok(ballot),
        }
    }

    /// Crashes: the desk is down, its round is closed and its cache is empty.
    pub fn crash(&mut self)
        ensures crashed { IsCrashed self.old self.new }
        ensures vault { ShowsTheSame self.old.vault self.new.vault }
        ensures image { V.tells
            → V.may_leave (disk_of self.old.vault) (V.seen (disk_of self.new.vault)) }
        ensures settled { V.tells
            → Only (V.seen (disk_of self.new.vault)) (V.may_leave (disk_of self.new.vault)) }
        ensures time { V.tells → Elapses (V.moment (disk_of self.old.vault))
            (V.moment (disk_of self.new.vault)) (V.left_since (disk_of self.old.vault))
            (V.left_since (disk_of self.new.vault)) (V.may_leave (disk_of self.new.vault)) }
        ensures still_past { V.tells
            → (n : ℕ) → IsPast V.may_leave n self.old.vault → IsPast V.may_leave n self.new.vault }
        ensures never_falls { V.fault_count (disk_of self.old.vault)
            ≤ V.fault_count (disk_of self.new.vault) }
    {
        self.vault.crash();
        fall(&mut self.cache, &mut self.round, &mut self.down);
    }

    /// Reads what the vault's disk keeps, and is up again: in the era that it keeps, with the counter at its bound. The promises are as
    /// before. A desk that is up stays as it is. After an error it is down as before; `Foreign` tells the first byte of the disk that
    /// is not as a vault's format demands.
    pub fn restart(&mut self) -> Result<(), VaultError>
        ensures up { self.old.down ≡ false → (result ≡ Ok tt) × (self.new ≡ self.old) }
        ensures desk { OnOk result (self.new ≡ record self.old {
          vault = self.new.vault;
          down = false;
        }) }
        ensures stands { self.new.down ≡ false
            → VaultStands V.tells V.seen V.may_leave self.new.vault }
        ensures counter { IsTrue self.old.down
            → OnOk result (counter_of self.new.vault ≡ (kept_of self.new.vault).bound) }
        ensures image { V.tells → IsTrue self.old.down
            → V.may_leave (disk_of self.old.vault) (V.seen (disk_of self.new.vault)) }
        ensures reopened { V.tells → IsTrue self.old.down
            → OnOk result (KeptOn (kept_of self.new.vault) (V.seen (disk_of self.new.vault))) }
        ensures any_moment { V.tells
            → IsTrue self.old.down → LeavesOnly V.moment V.left_since (disk_of self.old.vault)
            (disk_of self.new.vault) (V.may_leave (disk_of self.old.vault)) }
        ensures still_past { V.tells
            → (n : ℕ) → IsPast V.may_leave n self.old.vault → IsPast V.may_leave n self.new.vault }
        ensures foreign { V.tells → (at : ℕ) → IsErrOf result (VaultError.Foreign at)
            → IsForeignAt (V.seen (disk_of self.new.vault)) at }
        ensures not_spent { IsErrOf result VaultError.Spent → ⊥ }
        ensures refused { OnErr result (self.new ≡ record self.old { vault = self.new.vault }) }
        ensures same_vault { OnErr result (ShowsTheSame self.old.vault self.new.vault) }
        ensures cause { HasVaultCause result
            (V.fault_count (disk_of self.old.vault)) (V.fault_count (disk_of self.new.vault)) }
    {
        if !self.down {
            return Ok(());
        }
        self.vault.reopen()?;
        self.down = false;
        Ok(())
    }

    /// The open round. `None` comes exactly where none is open.
    pub fn round(&self) -> Option<&Round>
        ensures { MatchOption result
            (self.now.round ≡ None) (λ round. self.now.round ≡ Some round.now) }
    {
        self.round.as_ref()
    }

    /// Whether it is down.
    pub fn is_down(&self) -> bool
        ensures { result ≡ self.now.down }
    {
        self.down
    }

    /// How often it was renewed. While the desk is up, whatever a crash leaves of its vault was renewed as often.
    pub fn age(&self) -> u64
        ensures age { result ≡ (kept_of self.now.vault).age }
        ensures stands { self.now.down ≡ false
            → VaultStands V.tells V.seen V.may_leave self.now.vault }
    {
        self.vault.age()
    }

    /// The number of the era that it is in.
    pub fn era(&self) -> u32
        ensures { result ≡ (kept_of self.now.vault).era }
    {
        self.vault.era()
    }

    /// Hands back the vault.
    pub fn into_vault(self) -> Vault<V>
        ensures { result ≡ self.vault }
    {
        let Desk {
            id: _,
            vault,
            cache: _,
            round: _,
            down: _,
        } = self;
        vault
    }
}

ghost use Rattle.cas_proposer.specs.Desk.{cache_after, counter_after, cache_without, counter_without, met_counter, key_of, IsOut, MetIsWithin, Draws, ShowsTheSame};

// Draws a ballot of this proposer.
fn draw<V: Disk>(vault: &mut Vault<V>, id: ProposerId) -> Result<Ballot, VaultError>
    requires { VaultStands V.tells V.seen V.may_leave vault.old }
    ensures drawn { IfOk result (Draws id vault.old vault.new) }
    ensures stands { OnOk result (VaultStands V.tells V.seen V.may_leave vault.new) }
    ensures past { V.tells → IfOk result (λ ballot. IsPast V.may_leave ballot.counter vault.new) }
    ensures still_past { V.tells
        → (n : ℕ) → IsPast V.may_leave n vault.old → IsPast V.may_leave n vault.new }
    ensures any_moment { V.tells → LeavesOnly V.moment V.left_since
        (disk_of vault.old) (disk_of vault.new) (KeepsBeforeOrAfter (kept_of vault.old)
        (kept_to_draw (counter_of vault.old) (kept_of vault.old))) }
    ensures spent { IsErrOf result VaultError.Spent ↔ (counter_of vault.old ≡ 2 ^ 48) }
    ensures stands_still { OnErr result (IsErrOf result VaultError.VaultFault
        ⊎ VaultStands V.tells V.seen V.may_leave vault.new) }
    ensures not_foreign { IsNotForeign result }
    ensures same { OnErr result (ShowsTheSame vault.old vault.new) }
    ensures cause { HasVaultCause result
        (V.fault_count (disk_of vault.old)) (V.fault_count (disk_of vault.new)) }
{
    let counter = vault.draw()?;
    Ok(Ballot {
        counter,
        proposer: id.number(),
    })
}

// Moves the counter up to this one and raises the age, by one change of the disk.
fn grow_older<V: Disk>(vault: &mut Vault<V>, counter: u64) -> Result<u64, VaultError>
    requires stands { VaultStands V.tells V.seen V.may_leave vault.old }
    requires within { counter ≤ 2 ^ 48 }
    ensures age { IfOk result (λ age. age ≡ (kept_of vault.old).age + 1) }
    ensures counter { counter_of vault.new ≡ max (counter_of vault.old) counter }
    ensures kept { OnOk result (kept_of vault.new
        ≡ kept_one_older (max (counter_of vault.old) counter) (kept_of vault.old)) }
    ensures stands { OnOk result (VaultStands V.tells V.seen V.may_leave vault.new) }
    ensures past { V.tells → OnOk result (IsPast V.may_leave counter vault.new) }
    ensures still_past { V.tells
        → (n : ℕ) → IsPast V.may_leave n vault.old → IsPast V.may_leave n vault.new }
    ensures any_moment { V.tells → LeavesOnly V.moment V.left_since
        (disk_of vault.old) (disk_of vault.new) (KeepsBeforeOrAfter (kept_of vault.old)
        (kept_one_older (max (counter_of vault.old) counter) (kept_of vault.old))) }
    ensures spent { IsErrOf result VaultError.Spent → (kept_of vault.old).age ≡ 2 ^ 48 }
    ensures after_no_memory { IsErrOf result VaultError.NoMemory
        → VaultStands V.tells V.seen V.may_leave vault.new }
    ensures not_foreign { IsNotForeign result }
    ensures same { OnErr result (kept_of vault.new ≡ kept_of vault.old) }
    ensures cause { HasVaultCause result
        (V.fault_count (disk_of vault.old)) (V.fault_count (disk_of vault.new)) }
{
    vault.forward(counter);
    vault.raise_age()
}

// Closes the round, if one is open, and takes the key's promise out.
fn close(cache: &mut Cache, round: &Option<Round>, key: &Key)
    requires { place_of cache.old ≡ key_of round.now }
    ensures promises { promises_of cache.new
        ≡ without key.now (cache_without round.now (promises_of cache.old)) }
    ensures place { place_of cache.new ≡ None }
{
    match round {
        Some(closed) => {
            cache.forget(&closed.key);
            cache.forget(key);
        }
        None => cache.forget(key),
    }
}

// What a crash leaves beside the vault.
fn fall(cache: &mut Cache, round: &mut Option<Round>, down: &mut bool)
    ensures promises { promises_of cache.new ≡ [] }
    ensures place { place_of cache.new ≡ None }
    ensures round { round.new ≡ None }
    ensures down { down.new ≡ true }
{
    cache.clear();
    *round = None;
    *down = true;
}

// Ends the round, if one is open, which offers no promise.
fn give_up<V: Disk>(vault: &mut Vault<V>, cache: &mut Cache, round: Option<Round>)
    requires place { place_of cache.old ≡ key_of round }
    requires out { IsOut round (promises_of cache.old) }
    requires within { MetIsWithin round }
    ensures promises { promises_of cache.new ≡ cache_without round (promises_of cache.old) }
    ensures place { place_of cache.new ≡ None }
    ensures counter { counter_of vault.new ≡ counter_without round (counter_of vault.old) }
    ensures kept { kept_of vault.new ≡ kept_of vault.old }
    ensures disk { disk_of vault.new ≡ disk_of vault.old }
    ensures still_past { (n : ℕ) → IsPast V.may_leave n vault.old → IsPast V.may_leave n vault.new }
{
    if let Some(round) = round {
        finish(vault, cache, round, None);
    }
}

// Ends a round that offers this promise, or none.
fn finish<V: Disk>(vault: &mut Vault<V>, cache: &mut Cache, round: Round, kept: Option<Ready>)
    requires place { place_of cache.old ≡ Some round.key }
    requires out { promise_at round.key (promises_of cache.old) ≡ None }
    requires within { met_counter round.met ≤ 2 ^ 48 }
    ensures promises { promises_of cache.new ≡ cache_after round kept (promises_of cache.old) }
    ensures place { place_of cache.new ≡ None }
    ensures counter { counter_of vault.new ≡ counter_after (counter_of vault.old) round.met }
    ensures kept { kept_of vault.new ≡ kept_of vault.old }
    ensures disk { disk_of vault.new ≡ disk_of vault.old }
    ensures stands { VaultStands V.tells V.seen V.may_leave vault.old
        → VaultStands V.tells V.seen V.may_leave vault.new }
    ensures still_past { (n : ℕ) → IsPast V.may_leave n vault.old → IsPast V.may_leave n vault.new }
{
    if let Some(met) = round.met {
        vault.forward(met.counter);
    }
    match kept {
        Some(ready) if round.may_keep(&ready) => cache.keep(&round.key, ready),
        _ => cache.forget(&round.key),
    }
}
