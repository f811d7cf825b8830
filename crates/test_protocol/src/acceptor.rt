//! Acceptors over a shelf in memory. A row of a table is what is kept for a key, a question, what it is told, and what is kept then.

ghost use Rattle.std.specs.Prelude.{◌≡◌, ◌≤◌, IsTrue};
ghost use Rattle.cas_ballot.specs.Ballot.{FitsBallot};
ghost use Rattle.cas_slot.specs.Limits.{SlotBallotsFit, AskBallotsFit, AllBallotsFit};

use cas_acceptor::{Acceptor, HandleFault};
use cas_ballot::{AcceptorId, Ballot};
use cas_change::{Body, Key, State};
use cas_slot::{
    Accepted, Ages, Ask, MOST_SLOTS, MapShelf, Phase, Reply, Request, Shelf, Slot, Tell,
};
use std::alloc::{AllocError, Global};
use std::process::Abort;
use std::test::Fail;

const fn at(counter: u64, proposer: u8) -> Ballot {
    Ballot { counter, proposer }
}

// What is kept for a key: its promise, and the ballot that was accepted with the state that it held.
type Kept = Option<(Ballot, Option<(Ballot, State5)>)>;

// An empty state, or the number 5.
#[derive(Clone, Copy)]
enum State5 {
    Empty,
    Five,
}

impl State5 {
    fn state(self) -> State {
        match self {
            State5::Empty => State::Empty,
            State5::Five => State::Held {
                version: 0,
                body: Body::Number(5),
            },
        }
    }
}

fn accepted_of(accepted: Option<(Ballot, State5)>) -> Option<Accepted> {
    let (ballot, state) = accepted?;
    Some(Accepted {
        ballot,
        era: 0,
        state: state.state(),
    })
}

fn slot_of(kept: Kept) -> Option<Slot> {
    let (promise, accepted) = kept?;
    Some(Slot {
        promise,
        accepted: accepted_of(accepted),
    })
}

#[derive(Clone, Copy)]
enum Question {
    Prepare(Ballot),
    Accept(Ballot, Option<Ballot>),
    Remove(Ballot),
    Probe,
}

fn ask_of(key: &Key, question: Question) -> Result<Ask, AllocError> {
    let key = key.copy()?;
    Ok(match question {
        Question::Prepare(ballot) => Ask::Prepare { key, ballot },
        Question::Accept(ballot, ride) => Ask::Accept {
            key,
            ballot,
            era: 0,
            ride,
            state: State5::Five.state(),
        },
        Question::Remove(tomb) => Ask::Remove { key, tomb },
        Question::Probe => Ask::Probe { tag: at(9, 0), key },
    })
}

fn asked(ask: Ask) -> Request
    ensures from { result.from ≡ 1 }
    ensures ask { result.ask ≡ ask }
{
    Request {
        to: AcceptorId::new(3).unwrap(),
        from: 1,
        age: 2,
        ask,
    }
}

fn fits(ballot: Ballot) -> bool
    ensures { IsTrue result → FitsBallot ballot }
{
    ballot.counter <= 1 << 48 && ballot.proposer <= 16
}

fn slot_fits(slot: &Slot) -> bool
    ensures { IsTrue result → SlotBallotsFit slot.now }
{
    let accepted = match &slot.accepted {
        Some(accepted) => fits(accepted.ballot),
        None => true,
    };
    fits(slot.promise) && accepted
}

fn ask_fits(ask: &Ask) -> bool
    ensures { IsTrue result → AskBallotsFit ask.now }
{
    match ask {
        Ask::Accept { ballot, ride, .. } => {
            let rides = match ride {
                Some(ride) => fits(*ride),
                None => true,
            };
            fits(*ballot) && rides
        }
        Ask::Prepare { ballot, .. } => fits(*ballot),
        Ask::Ages { tag, .. } | Ask::List { tag, .. } | Ask::Probe { tag, .. } => fits(*tag),
        Ask::Remove { tomb, .. } => fits(*tomb),
    }
}

// What the acceptor replies. The ballots of each row are within their limits.
fn handle<S: Shelf>(acceptor: &mut Acceptor<S>, ask: Ask) -> Result<Reply, Fail> {
    if !ask_fits(&ask) {
        return Err(Fail::from("a ballot beyond its limits"));
    }
    Ok(acceptor.handle(&asked(ask))?)
}

// What the acceptor tells.
fn tells<S: Shelf>(
    acceptor: &mut Acceptor<S>,
    key: &Key,
    question: Question,
) -> Result<Tell, Fail> {
    Ok(handle(acceptor, ask_of(key, question)?)?.tell)
}

fn running(shelf: MapShelf) -> Acceptor<MapShelf>
    requires { AllBallotsFit shelf }
{
    Acceptor::running(AcceptorId::new(3).unwrap(), shelf)
}

// Ballots by their counters and proposers.
const AT_1_1: Ballot = Ballot {
    counter: 1,
    proposer: 1,
};

const AT_1_9: Ballot = Ballot {
    counter: 1,
    proposer: 9,
};

const AT_2_1: Ballot = Ballot {
    counter: 2,
    proposer: 1,
};

const AT_2_2: Ballot = Ballot {
    counter: 2,
    proposer: 2,
};

const AT_3_1: Ballot = Ballot {
    counter: 3,
    proposer: 1,
};

const AT_3_2: Ballot = Ballot {
    counter: 3,
    proposer: 2,
};

const AT_4_1: Ballot = Ballot {
    counter: 4,
    proposer: 1,
};

const FIVE: Option<(Ballot, State5)> = Some((AT_2_1, State5::Five));

const EMPTY: Option<(Ballot, State5)> = Some((AT_2_1, State5::Empty));

const RIDE: Option<Ballot> = Some(AT_4_1);

fn key_of(alloc: Global, n: usize) -> Result<Key, Fail> {
    let text = format!(in alloc; "k{n}")?;
    Ok(Key::read(alloc, text.as_bytes())?)
}

// An acceptor that keeps this for the key.
fn keeping(alloc: Global, key: &Key, kept: Kept) -> Result<Acceptor<MapShelf>, Fail> {
    let mut shelf = MapShelf::new(alloc);
    if let Some(slot) = slot_of(kept) {
        if !slot_fits(&slot) {
            return Err(Fail::from("a ballot beyond its limits"));
        }
        shelf.put(key, slot)?;
    }
    Ok(running(shelf))
}

// What a question is told.
#[derive(Clone, Copy)]
enum Told {
    Promised(Option<(Ballot, State5)>),
    Accepted,
    Met(Ballot),
    Removed,
    Kept,
    Probed(Ballot, Option<(Ballot, State5)>),
}

impl Told {
    fn tell(self) -> Tell {
        match self {
            Told::Promised(accepted) => Tell::Promised {
                accepted: accepted_of(accepted),
            },
            Told::Accepted => Tell::Accepted,
            Told::Met(ballot) => Tell::Met(ballot),
            Told::Removed => Tell::Removed,
            Told::Kept => Tell::Kept,
            Told::Probed(promise, accepted) => Tell::Probed {
                promise,
                accepted: accepted_of(accepted),
            },
        }
    }
}

type Row = (Kept, Question, Told, Kept);

// Whether the question is told so, and the acceptor keeps that then.
fn answers<S: Shelf>(acceptor: &mut Acceptor<S>, key: &Key, row: Row) -> Result<bool, Fail> {
    let tell = tells(acceptor, key, row.1)?;
    let left = acceptor.shelf().get(key)?;
    Ok(tell == row.2.tell() && left == slot_of(row.3))
}

fn check(rt: &impl Abort, alloc: Global, rows: &[Row]) -> Result<(), Fail> {
    let key = Key::read(alloc, b"a")?;
    for (number, row) in rows.iter().enumerate() {
        let mut acceptor = keeping(alloc, &key, row.0)?;
        assert!(rt; answers(&mut acceptor, &key, *row)?, "row {number}");
    }
    Ok(())
}

const PREPARES: [Row; 7] = [
    (
        None,
        Question::Prepare(AT_1_1),
        Told::Promised(None),
        Some((AT_1_1, None)),
    ),
    (
        Some((AT_2_1, None)),
        Question::Prepare(AT_1_1),
        Told::Met(AT_2_1),
        Some((AT_2_1, None)),
    ),
    (
        Some((AT_2_1, None)),
        Question::Prepare(AT_2_1),
        Told::Promised(None),
        Some((AT_2_1, None)),
    ),
    (
        Some((Ballot::ZERO, FIVE)),
        Question::Prepare(AT_2_1),
        Told::Promised(FIVE),
        Some((Ballot::ZERO, FIVE)),
    ),
    (
        Some((Ballot::ZERO, FIVE)),
        Question::Prepare(AT_1_9),
        Told::Met(AT_2_1),
        Some((Ballot::ZERO, FIVE)),
    ),
    (
        Some((AT_3_1, FIVE)),
        Question::Prepare(AT_2_2),
        Told::Met(AT_3_1),
        Some((AT_3_1, FIVE)),
    ),
    (
        Some((AT_3_1, FIVE)),
        Question::Prepare(AT_3_2),
        Told::Promised(FIVE),
        Some((AT_3_2, FIVE)),
    ),
];

#[test]
fn a_prepare_is_answered_by_the_table(rt: HostRuntime) -> Result<(), Fail> {
    check(&rt, rt.alloc(), &PREPARES)
}

const ACCEPTS: [Row; 8] = [
    (
        None,
        Question::Accept(AT_2_1, None),
        Told::Accepted,
        Some((Ballot::ZERO, FIVE)),
    ),
    (
        None,
        Question::Accept(AT_2_1, RIDE),
        Told::Accepted,
        Some((AT_4_1, FIVE)),
    ),
    (
        Some((AT_2_1, None)),
        Question::Accept(AT_2_1, None),
        Told::Accepted,
        Some((Ballot::ZERO, FIVE)),
    ),
    (
        Some((AT_3_1, None)),
        Question::Accept(AT_2_1, RIDE),
        Told::Met(AT_3_1),
        Some((AT_3_1, None)),
    ),
    (
        Some((AT_3_1, EMPTY)),
        Question::Accept(AT_2_1, RIDE),
        Told::Accepted,
        Some((AT_3_1, EMPTY)),
    ),
    (
        Some((Ballot::ZERO, EMPTY)),
        Question::Accept(AT_2_1, RIDE),
        Told::Accepted,
        Some((Ballot::ZERO, EMPTY)),
    ),
    (
        Some((Ballot::ZERO, Some((AT_1_1, State5::Empty)))),
        Question::Accept(AT_2_1, None),
        Told::Accepted,
        Some((Ballot::ZERO, FIVE)),
    ),
    (
        Some((Ballot::ZERO, FIVE)),
        Question::Accept(AT_1_9, None),
        Told::Met(AT_2_1),
        Some((Ballot::ZERO, FIVE)),
    ),
];

#[test]
fn an_accept_is_answered_by_the_table(rt: HostRuntime) -> Result<(), Fail> {
    check(&rt, rt.alloc(), &ACCEPTS)
}

const AT_2_0: Ballot = Ballot {
    counter: 2,
    proposer: 0,
};

const FIVE_AT_2_0: Option<(Ballot, State5)> = Some((AT_2_0, State5::Five));

const EMPTY_AT_2_0: Option<(Ballot, State5)> = Some((AT_2_0, State5::Empty));

// A removal of the tombstone at 2.0, and then probes.
const REMOVALS: [Row; 12] = [
    (None, Question::Remove(AT_2_0), Told::Removed, None),
    (
        Some((Ballot::ZERO, EMPTY_AT_2_0)),
        Question::Remove(AT_2_0),
        Told::Removed,
        None,
    ),
    (
        Some((AT_2_0, EMPTY_AT_2_0)),
        Question::Remove(AT_2_0),
        Told::Removed,
        None,
    ),
    (
        Some((AT_2_1, EMPTY_AT_2_0)),
        Question::Remove(AT_2_0),
        Told::Kept,
        Some((AT_2_1, EMPTY_AT_2_0)),
    ),
    (
        Some((Ballot::ZERO, FIVE_AT_2_0)),
        Question::Remove(AT_2_0),
        Told::Kept,
        Some((Ballot::ZERO, FIVE_AT_2_0)),
    ),
    (
        Some((AT_2_0, None)),
        Question::Remove(AT_2_0),
        Told::Kept,
        Some((AT_2_0, None)),
    ),
    (
        None,
        Question::Probe,
        Told::Probed(Ballot::ZERO, None),
        None,
    ),
    (
        Some((Ballot::ZERO, EMPTY_AT_2_0)),
        Question::Probe,
        Told::Probed(Ballot::ZERO, EMPTY_AT_2_0),
        Some((Ballot::ZERO, EMPTY_AT_2_0)),
    ),
    (
        Some((AT_2_0, EMPTY_AT_2_0)),
        Question::Probe,
        Told::Probed(AT_2_0, EMPTY_AT_2_0),
        Some((AT_2_0, EMPTY_AT_2_0)),
    ),
    (
        Some((AT_2_1, EMPTY_AT_2_0)),
        Question::Probe,
        Told::Probed(AT_2_1, EMPTY_AT_2_0),
        Some((AT_2_1, EMPTY_AT_2_0)),
    ),
    (
        Some((Ballot::ZERO, FIVE_AT_2_0)),
        Question::Probe,
        Told::Probed(Ballot::ZERO, FIVE_AT_2_0),
        Some((Ballot::ZERO, FIVE_AT_2_0)),
    ),
    (
        Some((AT_2_0, None)),
        Question::Probe,
        Told::Probed(AT_2_0, None),
        Some((AT_2_0, None)),
    ),
];

#[test]
fn a_removal_and_a_probe_are_answered_by_the_table(rt: HostRuntime) -> Result<(), Fail> {
    check(&rt, rt.alloc(), &REMOVALS)
}

#[test]
fn a_reply_bears_its_request(rt: HostRuntime) -> Result<(), Fail> {
    let key = Key::read(rt.alloc(), b"a")?;
    let ask = ask_of(&key, Question::Accept(AT_2_1, None))?;
    let reply = handle(&mut running(MapShelf::new(rt.alloc())), ask)?;
    let want = Reply {
        from: AcceptorId::new(3).unwrap(),
        to: 1,
        phase: Phase::Accept,
        tag: AT_2_1,
        tell: Tell::Accepted,
    };
    assert_eq!(rt; reply, want);
    Ok(())
}

// Raises the least age of proposer 1 in vain where a greater one stands, which is told, or else sets it.
fn raises<S: Shelf>(
    acceptor: &mut Acceptor<S>,
    age: u64,
    greater: Option<u64>,
) -> Result<bool, Fail> {
    let mut least = Ages::ZERO;
    least.0[1] = age;
    let tag = AT_2_0;
    let tell = handle(acceptor, Ask::Ages { tag, least })?.tell;
    Ok(match greater {
        Some(age) => tell == Tell::Aged(age),
        None => tell == Tell::AgesSet,
    })
}

fn refuses_by_age<S: Shelf>(
    acceptor: &mut Acceptor<S>,
    key: &Key,
    question: Question,
) -> Result<bool, Fail> {
    let tell = tells(acceptor, key, question)?;
    let left = acceptor.shelf().get(key)?;
    Ok(tell == Tell::Aged(3) && left == None)
}

#[test]
fn a_low_age_is_refused_first(rt: HostRuntime) -> Result<(), Fail> {
    let key = Key::read(rt.alloc(), b"a")?;
    let mut acceptor = running(MapShelf::new(rt.alloc()));
    for (age, greater) in [(2, None), (3, None), (1, Some(3))] {
        assert!(rt; raises(&mut acceptor, age, greater)?, "{age}");
    }
    for question in [
        Question::Prepare(AT_2_1),
        Question::Accept(AT_2_1, None),
        Question::Remove(AT_2_1),
        Question::Probe,
    ] {
        assert!(rt; refuses_by_age(&mut acceptor, &key, question)?);
    }
    Ok(())
}

// Has an acceptor promise to so many keys, which makes a slot of each.
fn promise_each<S: Shelf>(
    alloc: Global,
    acceptor: &mut Acceptor<S>,
    count: usize,
) -> Result<(), Fail> {
    for n in 0..count {
        tells(acceptor, &key_of(alloc, n)?, Question::Prepare(AT_1_1))?;
    }
    Ok(())
}

// How many keys the acceptor lists behind that key, each of which has the number that comes next; the last of them; and whether more
// follow.
fn listed<S: Shelf>(
    alloc: Global,
    acceptor: &mut Acceptor<S>,
    found: usize,
    after: Option<Key>,
) -> Result<(usize, Option<Key>, bool), Fail> {
    let tag = at(9, 0);
    let Tell::Listed {
        after: _,
        keys,
        more,
    } = handle(acceptor, Ask::List { tag, after })?.tell
    else {
        return Err(Fail::from("no listing"));
    };
    for (place, key) in keys.keys().iter().enumerate() {
        if *key != key_of(alloc, found.saturating_add(place))? {
            return Err(Fail::from("another key"));
        }
    }
    let last = match keys.keys().last() {
        Some(key) => Some(key.copy()?),
        None => None,
    };
    Ok((keys.keys().len(), last, more))
}

#[test]
fn listings_go_on_by_four(rt: HostRuntime) -> Result<(), Fail> {
    let alloc = rt.alloc();
    for (count, pages) in [(0usize, 1usize), (1, 1), (4, 1), (5, 2), (9, 3)] {
        let mut acceptor = running(MapShelf::new(alloc));
        promise_each(alloc, &mut acceptor, count)?;
        let mut after = None;
        let mut found = 0usize;
        for page in 1..=pages {
            let (keys, last, more) = listed(alloc, &mut acceptor, found, after)?;
            assert_eq!(rt; more, page < pages, "{count} {page}");
            found = found.saturating_add(keys);
            after = last;
        }
        assert_eq!(rt; found, count);
    }
    Ok(())
}

// Whether a question of the key of this number is told that the acceptor is full, and whether there is a slot of the key then.
fn finds<S: Shelf>(
    alloc: Global,
    acceptor: &mut Acceptor<S>,
    number: usize,
    question: Question,
) -> Result<(bool, bool), Fail> {
    let key = key_of(alloc, number)?;
    let tell = tells(acceptor, &key, question)?;
    let left = acceptor.shelf().get(&key)?;
    Ok((tell == Tell::Full, left.is_some()))
}

#[test]
fn a_new_key_finds_it_full(rt: HostRuntime) -> Result<(), Fail> {
    let alloc = rt.alloc();
    let mut acceptor = running(MapShelf::new(alloc));
    promise_each(alloc, &mut acceptor, MOST_SLOTS)?;
    let accept = Question::Accept(AT_2_1, None);
    for (number, question, full) in [
        (MOST_SLOTS, Question::Prepare(AT_2_1), true),
        (MOST_SLOTS, accept, true),
        (7, accept, false),
    ] {
        let found = finds(alloc, &mut acceptor, number, question)?;
        assert_eq!(rt; found, (full, !full));
    }
    Ok(())
}

// Whether an acceptor that is down answers nothing, and is restarted.
fn restarts<S: Shelf>(acceptor: &mut Acceptor<S>, request: &Request) -> bool
    requires fits { AskBallotsFit request.now.ask }
    requires known { request.now.from ≤ 16 }
{
    let down = acceptor.is_down() && acceptor.handle(request) == Err(HandleFault::Down);
    let restarted = acceptor.restart().is_ok();
    down && restarted && !acceptor.is_down()
}

// Whether an acceptor that is restarted twice keeps the promise at 2.1 that the request asks for between them.
fn keeps_promise<S: Shelf>(
    acceptor: &mut Acceptor<S>,
    key: &Key,
    request: &Request,
) -> Result<bool, Fail>
    requires fits { AskBallotsFit request.now.ask }
    requires known { request.now.from ≤ 16 }
{
    let first = restarts(acceptor, request);
    acceptor.handle(request)?;
    acceptor.crash();
    let again = restarts(acceptor, request);
    let tell = tells(acceptor, key, Question::Prepare(AT_1_1))?;
    Ok(first && again && tell == Tell::Met(AT_2_1))
}

#[test]
fn a_restart_takes_up_what_was_kept(rt: HostRuntime) -> Result<(), Fail> {
    let key = Key::read(rt.alloc(), b"a")?;
    let prepare = asked(ask_of(&key, Question::Prepare(AT_2_1))?);
    assert!(rt; ask_fits(&prepare.ask));
    let mut acceptor = Acceptor::new(AcceptorId::new(3).unwrap(), MapShelf::new(rt.alloc()));
    assert!(rt; keeps_promise(&mut acceptor, &key, &prepare)?);
    assert_eq!(rt; acceptor.id().number(), 3);
    Ok(())
}
