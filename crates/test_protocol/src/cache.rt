ghost use Rattle.std.specs.Prelude.{◌≡◌, None, OnOk};
ghost use Rattle.cas_cache.specs.Cache.{place_of};

use Then::{Forget, Keep, KeepAndClear};
use cas_ballot::{Ballot, Members};
use cas_cache::{Cache, Ready};
use cas_change::{Body, Key, State};
use std::alloc::{AllocError, Global};
use std::test::Fail;

// The key that is spelled by this number.
fn key_of(alloc: Global, number: u8) -> Result<Key, Fail> {
    let bytes = [b'k', b'0' + number / 10, b'0' + number % 10];
    Ok(Key::read(alloc, &bytes)?)
}

// A promise at the ballot of this counter.
fn ready_at(counter: u64) -> Ready {
    Ready {
        ballot: Ballot {
            counter,
            proposer: 1,
        },
        state: State::Held {
            version: counter,
            body: Body::Number(5),
        },
        read: Ballot::ZERO,
        by: Members::EMPTY,
    }
}

// Uses a key: takes its promise, and keeps that or another. Answers whether there was one.
fn used(alloc: Global, cache: &mut Cache, number: u8) -> Result<bool, Fail>
    requires { place_of cache.old ≡ None }
    ensures { OnOk result (place_of cache.new ≡ None) }
{
    let key = key_of(alloc, number)?;
    let found = cache.take(&key)?;
    let there = found.is_some();
    cache.keep(&key, found.unwrap_or(ready_at(1)));
    Ok(there)
}

/// What is done once a promise was taken.
#[derive(Clone, Copy)]
enum Then {
    /// The promise at the ballot of this counter is kept.
    Keep(u64),
    Forget,
    /// The same is kept, and all is cleared.
    KeepAndClear(u64),
}

// Takes the promise of a key. Answers whether it is the one at the ballot of this counter, or none.
fn takes(cache: &mut Cache, key: &Key, want: Option<u64>, then: Then) -> Result<bool, AllocError>
    requires { place_of cache.old ≡ None }
    ensures { OnOk result (place_of cache.new ≡ None) }
{
    let want = match want {
        Some(counter) => Some(ready_at(counter)),
        None => None,
    };
    let found = cache.take(key)?;
    match then {
        Keep(counter) => cache.keep(key, ready_at(counter)),
        Forget => cache.forget(key),
        KeepAndClear(counter) => {
            cache.keep(key, ready_at(counter));
            cache.clear();
        }
    }
    Ok(found == want)
}

// The key, the promise that is taken, and what is done then.
const TAKEN: [(u8, Option<u64>, Then); 6] = [
    (1, None, Keep(7)),
    (2, None, Keep(8)),
    (1, Some(7), Forget),
    (1, None, Forget),
    (2, Some(8), KeepAndClear(9)),
    (2, None, Forget),
];

#[test]
fn a_promise_is_taken_once(rt: HostRuntime) -> Result<(), Fail> {
    let mut cache = Cache::new(rt.alloc())?;
    for row in TAKEN {
        let (number, want, then) = row;
        let key = key_of(rt.alloc(), number)?;
        assert!(rt; takes(&mut cache, &key, want, then)?, "{key:?} {want:?}");
    }
    Ok(())
}

#[test]
fn the_least_recent_of_65_promises_goes(rt: HostRuntime) -> Result<(), Fail> {
    let alloc = rt.alloc();
    // How many keys are kept, whether the first is used again before the last, and which of the first two has a promise then.
    for (count, again, first, second) in [
        (63, false, true, true),
        (64, false, true, true),
        (65, false, false, true),
        (65, true, true, false),
        (66, false, false, false),
    ] {
        let mut cache = Cache::new(alloc)?;
        for number in 0..count {
            if again && number == 64 {
                assert!(rt; used(alloc, &mut cache, 0)?);
            }
            assert!(rt; !used(alloc, &mut cache, number)?, "{count} {number}");
        }
        assert_eq!(rt; used(alloc, &mut cache, 1)?, second, "{count}");
        assert_eq!(rt; used(alloc, &mut cache, 0)?, first, "{count}");
    }
    Ok(())
}
