//! A listing of three members, by tables of what they told.

use Said::{Aged, Keys, Nothing};
use cas_ballot::{AcceptorId, Ballot, Members};
use cas_change::{Key, KeyFault};
use cas_quorum::Era;
use cas_record::{Answer, Probe};
use cas_slot::{Ask, Page, Tell};
use cas_world_listing::{Listing, Places};
use std::alloc::{AllocError, Global};
use std::process::Abort;
use std::test::Fail;

/// The tag of the listing.
const TAG: Ballot = Ballot {
    counter: 7,
    proposer: 0,
};

/// What a member tells, for short. Each key is one byte.
#[derive(Clone, Copy, Debug)]
enum Said<'a> {
    /// Its next keys behind a key, or the first ones, and whether more follow.
    Keys(Option<u8>, &'a [u8], bool),
    /// That the age is too low.
    Aged(u64),
    /// No reply of it arrived.
    Nothing,
}

/// What members told, and how the listing stands then: its keys, whether it is complete, and who is asked next.
#[derive(Clone, Copy, Debug)]
struct Round<'a> {
    told: &'a [(u8, Said<'a>)],
    keys: &'a [u8],
    complete: bool,
    asked: &'a [u8],
}

/// What members told, and why the listing cannot go on by it.
#[derive(Debug, Drop)]
struct Lack<'a> {
    told: &'a [(u8, Said<'a>)],
    why: Option<Answer>,
}

/// The set of these acceptors.
fn members(numbers: &[u8]) -> Members {
    let mut members = Members::new();
    for number in numbers {
        if let Some(id) = AcceptorId::new(*number) {
            members.insert(id);
        }
    }
    members
}

/// The key of one byte.
fn key(alloc: Global, byte: u8) -> Result<Key, KeyFault> {
    Key::read(alloc, &[byte])
}

/// The page of these keys, of which the first four count.
fn page(alloc: Global, bytes: &[u8]) -> Result<Page, Fail> {
    let mut keys = Vec::new(alloc);
    for byte in bytes {
        keys.push(key(alloc, *byte)?)?;
    }
    keys.truncate(4);
    Ok(Page::new(keys))
}

/// The reply that says so.
fn tell(alloc: Global, said: Said<'_>) -> Result<Option<Tell>, Fail> {
    match said {
        Keys(after, keys, more) => {
            let after = match after {
                Some(byte) => Some(key(alloc, byte)?),
                None => None,
            };
            Ok(Some(Tell::Listed {
                after,
                keys: page(alloc, keys)?,
                more,
            }))
        }
        Aged(least) => Ok(Some(Tell::Aged(least))),
        Nothing => Ok(None),
    }
}

/// A probe for each member that said so.
fn probes(alloc: Global, said: &[(u8, Said<'_>)]) -> Result<Vec<Probe>, Fail> {
    let mut probes = Vec::new(alloc);
    for (number, said) in said {
        if let Some(acceptor) = AcceptorId::new(*number) {
            probes.push(Probe {
                acceptor,
                told: tell(alloc, *said)?,
            })?;
        }
    }
    Ok(probes)
}

/// A listing of acceptors 1, 2 and 3 that has not begun.
fn begin(alloc: Global) -> Result<Listing, AllocError> {
    Ok(Listing::begin(alloc, TAG, Places::first(alloc, &members(&[1, 2, 3]))?))
}

/// The keys that are left, one byte each, of which there are fewer than nine.
fn keys_left(alloc: Global, mut listing: Listing) -> Result<Vec<u8>, AllocError> {
    let mut left = Vec::new(alloc);
    for _ in 0..9 {
        if let Some(key) = listing.first_key() {
            left.extend_from_slice(key.bytes())?;
        }
        listing.drop_first();
    }
    Ok(left)
}

/// Plays the rounds, and leaves the listing as it stands after them.
fn play(rt: &impl Abort, alloc: Global, rounds: &[Round<'_>]) -> Result<Listing, Fail> {
    let era = Era::majority(0, members(&[1, 2, 3]));
    let mut listing = begin(alloc)?;
    for round in rounds {
        let told = probes(alloc, round.told)?;
        listing = listing.next(&era, &told)?;
        assert_eq!(rt; listing.is_complete(), round.complete);
        assert_eq!(rt;
            listing.places().asked(&era.everyone()),
            members(round.asked)
        );
        let copy = listing.next(&era, &[])?;
        assert_eq!(rt; keys_left(alloc, copy)?.as_slice(), round.keys);
    }
    Ok(listing)
}

#[test]
fn goes_on_by_pages(rt: HostRuntime) -> Result<(), Fail> {
    let alloc = rt.alloc();
    let rounds = [
        // The keys of two members are listed in order, each once. One of the members is at its end.
        Round {
            told: &[
                (1, Keys(None, b"acdf", true)),
                (2, Keys(None, b"bcd", false)),
                (3, Nothing),
            ],
            keys: b"abcdf",
            complete: false,
            asked: &[1, 3],
        },
        // What does not go on from the place of a member is not listed, nor is what is told a second time.
        Round {
            told: &[
                (1, Keys(Some(b'f'), b"g", false)),
                (1, Keys(Some(b'f'), b"h", false)),
                (2, Keys(None, b"x", false)),
                (3, Keys(Some(b'f'), b"y", false)),
            ],
            keys: b"abcdfg",
            complete: true,
            asked: &[3],
        },
    ];
    let mut listing = play(&rt, alloc, &rounds)?;
    assert!(rt; listing.tag() == TAG);
    for _ in 0..6 {
        assert!(rt; !listing.is_settled());
        listing.drop_first();
    }
    assert!(rt; listing.is_settled());
    Ok(())
}

#[test]
fn asks_for_the_next_keys(rt: HostRuntime) -> Result<(), Fail> {
    let alloc = rt.alloc();
    let listing = play(
        &rt,
        alloc,
        &[Round {
            told: &[(1, Keys(None, b"ab", true)), (2, Keys(None, b"", false))],
            keys: b"ab",
            complete: false,
            asked: &[1, 3],
        }],
    )?;
    let places = listing.places().copy()?;
    for (number, after) in [(1, Some(b'b')), (2, None), (3, None)] {
        if let Some(id) = AcceptorId::new(number) {
            let after = match after {
                Some(byte) => Some(key(alloc, byte)?),
                None => None,
            };
            assert!(rt; places.ask(TAG, id)? == Ask::List { tag: TAG, after });
        }
    }
    Ok(())
}

#[test]
fn tells_why_it_is_short(rt: HostRuntime) -> Result<(), Fail> {
    let alloc = rt.alloc();
    let era = Era::majority(0, members(&[1, 2, 3]));
    let first = [Round {
        told: &[(2, Keys(None, b"b", false))],
        keys: b"b",
        complete: false,
        asked: &[1, 3],
    }];
    let listing = play(&rt, alloc, &first)?;
    let lacks = [
        Lack {
            told: &[],
            why: Some(Answer::Short { got: 1, need: 2 }),
        },
        Lack {
            told: &[(1, Nothing), (3, Keys(Some(b'a'), b"c", true))],
            why: Some(Answer::Short { got: 1, need: 2 }),
        },
        // Keys that do not rise do not count, nor do none where more follow.
        Lack {
            told: &[(1, Keys(None, b"ca", false)), (3, Keys(None, b"", true))],
            why: Some(Answer::Short { got: 1, need: 2 }),
        },
        Lack {
            told: &[(1, Aged(3)), (3, Aged(5)), (4, Aged(4))],
            why: Some(Answer::Aged { least: 5 }),
        },
        Lack {
            told: &[(1, Aged(3)), (3, Keys(None, b"c", true))],
            why: None,
        },
    ];
    for lack in &lacks {
        let told = probes(alloc, lack.told)?;
        assert_eq!(rt; listing.short(&era, &told), lack.why);
    }
    Ok(())
}
