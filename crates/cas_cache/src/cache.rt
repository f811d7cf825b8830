//! The cache of promises.
ghost use Rattle.std.specs.Prelude.{◌≡◌, ◌≤◌, ◌∷◌, [], ℕ, IsTrue, Some, None, length, take, IfOk, OnOk, OnErr};
ghost use Rattle.cas_cache.specs.Entries.{promises_in, is_row, promise_at, without};

use crate::ready::Ready;
use cas_change::Key;
use lru::LruCache;
use std::alloc::{AllocError, Global};
use std::num::NonZeroUsize;

/// How many promises are kept at most.
pub const KEPT: usize = 64;

/// Promises by key, the most recently used first, at most [`KEPT`] of them, and at most one open place.
///
/// A round opens the place of its key with `take`, and closes it with `keep` or `forget`. The place stands beside the promises, so
/// `keep` takes no memory and cannot be refused.
#[derive(Drop)]
pub struct Cache {
    // The entry without a promise is the open place.
    entries: LruCache<Key, Option<Ready>>,
    ghost capacity: { entries.cap ≡ 65 },
    ghost row: { IsTrue (is_row entries.entries) },
    ghost few: { length (promises_in entries.entries) ≤ 64 },
}

impl Cache {
    ghost use Rattle.cas_cache.specs.Cache.{promises_of, place_of};

    /// An empty cache with no open place.
    pub fn new(alloc: Global) -> Result<Cache, AllocError>
        ensures promises { IfOk result (λ cache. promises_of cache ≡ []) }
        ensures place { IfOk result (λ cache. place_of cache ≡ None) }
    {
        let capacity = NonZeroUsize::new(KEPT + 1).unwrap();
        Ok(Cache {
            entries: LruCache::new(alloc, capacity)?,
        })
    }

    /// Takes the promise of the key out, if there is one, and opens the key's place. No place may be open before. After an `Err` all
    /// is as before.
    pub fn take(&mut self, key: &Key) -> Result<Option<Ready>, AllocError>
        requires { place_of self.old ≡ None }
        ensures ready { IfOk result (λ ready. ready ≡ promise_at key.now (promises_of self.old)) }
        ensures promises { OnOk result
            (promises_of self.new ≡ without key.now (promises_of self.old)) }
        ensures place { OnOk result (place_of self.new ≡ Some key.now) }
        ensures gone { OnOk result (promise_at key.now (promises_of self.new) ≡ None) }
        ensures same { OnErr result (promises_of self.new ≡ promises_of self.old) }
        ensures no_place { OnErr result (place_of self.new ≡ None) }
    {
        prove!(self.entries.len() <= KEPT + 1);
        if !self.entries.promote(key) {
            self.entries.put(key.copy()?, None)?;
            return Ok(None);
        }
        match self.entries.peek_mut(key) {
            Some(place) => Ok(place.take()),
            None => unreachable!(),
        }
    }

    /// Puts a promise into the open place, which is the key's: it then stands first, and no place is open. Where there are too many
    /// promises the least recently used goes.
    pub fn keep(&mut self, key: &Key, ready: Ready)
        requires { place_of self.old ≡ Some key.now }
        ensures promises { promises_of self.new
            ≡ take KEPT ((key.now, ready) ∷ promises_of self.old) }
        ensures place { place_of self.new ≡ None }
    {
        match self.entries.peek_mut(key) {
            Some(place) => *place = Some(ready),
            None => unreachable!(),
        }
        if self.entries.len() > KEPT {
            self.entries.pop_lru();
        }
    }

    /// Takes the promise of the key out, if there is one, and closes its place, if that is open.
    pub fn forget(&mut self, key: &Key)
        ensures promises { promises_of self.new ≡ without key.now (promises_of self.old) }
        ensures gone { promise_at key.now (promises_of self.new) ≡ None }
        ensures closed { place_of self.old ≡ Some key.now → place_of self.new ≡ None }
        ensures other_place { (place_of self.old ≡ Some key.now → ⊥)
            → place_of self.new ≡ place_of self.old }
    {
        prove!(self.entries.len() <= KEPT + 1);
        self.entries.pop(key);
    }

    /// Takes all promises out and closes the place.
    pub fn clear(&mut self)
        ensures promises { promises_of self.new ≡ [] }
        ensures place { place_of self.new ≡ None }
    {
        self.entries.clear();
    }
}
