//! Tables of replies and how a phase ends by them, in every order.

use RoundVerdict::{Quorum, Short};
use Said::{Aged, Full, Late, Met, Nothing, Yes};
use cas_ballot::{AcceptorId, Ballot, Members};
use cas_change::State;
use cas_quorum::Era;
use cas_round::{AcceptRound, PrepareRound, RoundVerdict};
use cas_slot::{Accepted, Phase, Reply, Tell};
use std::test::Fail;

/// All orders of four.
const ORDERS: [[usize; 4]; 24] = [
    [0, 1, 2, 3],
    [0, 1, 3, 2],
    [0, 2, 1, 3],
    [0, 2, 3, 1],
    [0, 3, 1, 2],
    [0, 3, 2, 1],
    [1, 0, 2, 3],
    [1, 0, 3, 2],
    [1, 2, 0, 3],
    [1, 2, 3, 0],
    [1, 3, 0, 2],
    [1, 3, 2, 0],
    [2, 0, 1, 3],
    [2, 0, 3, 1],
    [2, 1, 0, 3],
    [2, 1, 3, 0],
    [2, 3, 0, 1],
    [2, 3, 1, 0],
    [3, 0, 1, 2],
    [3, 0, 2, 1],
    [3, 1, 0, 2],
    [3, 1, 2, 0],
    [3, 2, 0, 1],
    [3, 2, 1, 0],
];

/// The ballot of the phase.
const BALLOT: Ballot = Ballot {
    counter: 5,
    proposer: 1,
};

const fn at(counter: u64) -> Ballot {
    Ballot {
        counter,
        proposer: 1,
    }
}

/// What an acceptor tells, for short.
#[derive(Clone, Copy, Debug)]
enum Said {
    /// It confirms. In a prepare phase it tells what it accepted at this counter, or nothing at 0.
    Yes(u64),
    Met(u64),
    Aged(u64),
    Full,
    /// The same confirmation, of another ballot.
    Late,
    /// Nothing at all.
    Nothing,
}

/// The members of the era.
fn three() -> Members {
    let mut members = Members::new();
    for number in [1, 2, 3] {
        if let Some(id) = AcceptorId::new(number) {
            members.insert(id);
        }
    }
    members
}

fn accepted_at(counter: u64) -> Option<Accepted> {
    if counter == 0 {
        return None;
    }
    Some(Accepted {
        ballot: at(counter),
        era: 0,
        state: State::Empty,
    })
}

/// What the acceptor tells in that phase.
fn reply_of(phase: Phase, from: AcceptorId, said: Said) -> Reply {
    let tag = match said {
        Late => at(4),
        _ => BALLOT,
    };
    let tell = match said {
        Yes(counter) if phase == Phase::Prepare => Tell::Promised {
            accepted: accepted_at(counter),
        },
        Yes(_) | Late => Tell::Accepted,
        Met(counter) => Tell::Met(at(counter)),
        Aged(least) => Tell::Aged(least),
        Full => Tell::Full,
        Nothing => Tell::Kept,
    };
    Reply {
        from,
        to: 1,
        phase,
        tag,
        tell,
    }
}

/// How both phases end by these replies, each of an acceptor of that number, in that order; and what was read.
fn played(
    replies: &[(u8, Said); 4],
    order: &[usize; 4],
) -> (RoundVerdict, RoundVerdict, Option<Ballot>) {
    let mut prepare = PrepareRound::new(Era::majority(0, three()), BALLOT);
    let mut accept = AcceptRound::new(Era::majority(0, three()), BALLOT);
    for at in order {
        if let Some(&(number, said)) = replies.get(*at)
            && let Some(from) = AcceptorId::new(number)
        {
            prepare.arrive(reply_of(Phase::Prepare, from, said));
            accept.arrive(reply_of(Phase::Prepare, from, said));
            prepare.arrive(reply_of(Phase::Accept, from, said));
            accept.arrive(reply_of(Phase::Accept, from, said));
        }
    }
    let prepared = prepare.verdict();
    let accepted = accept.verdict();
    let read = match prepare.into_read() {
        Some(read) => Some(read.ballot),
        None => None,
    };
    (prepared, accepted, read)
}

/// How a phase ends: acceptors and ballots by their numbers, and so many that confirmed of two that are needed.
#[derive(Clone, Copy)]
enum End {
    Quorum,
    Met(u64),
    Aged(u64),
    Full(u8),
    Short(u32),
}

fn verdict_of(end: End) -> Result<RoundVerdict, Fail> {
    Ok(match end {
        End::Quorum => Quorum,
        End::Met(counter) => RoundVerdict::Met(at(counter)),
        End::Aged(least) => RoundVerdict::Aged(least),
        End::Full(number) => RoundVerdict::Full(AcceptorId::new(number).ok_or("below 64")?),
        End::Short(got) => Short { got, need: 2 },
    })
}

/// Four replies, how both phases end, and the counter of what a prepare phase reads.
const ROWS: [([(u8, Said); 4], End, u64); 14] = [
    // No second reply of one acceptor counts.
    (
        [(1, Yes(0)), (1, Yes(0)), (1, Yes(0)), (1, Yes(0))],
        End::Short(1),
        0,
    ),
    (
        [(1, Yes(0)), (1, Yes(2)), (2, Late), (3, Nothing)],
        End::Short(1),
        2,
    ),
    // No stranger counts.
    (
        [(1, Yes(0)), (4, Yes(0)), (5, Yes(0)), (6, Yes(0))],
        End::Short(1),
        0,
    ),
    (
        [(1, Nothing), (2, Late), (3, Late), (1, Late)],
        End::Short(0),
        0,
    ),
    // A quorum, whatever else was told, with the greatest that was accepted.
    (
        [(1, Yes(0)), (2, Yes(0)), (3, Met(9)), (1, Yes(0))],
        End::Quorum,
        0,
    ),
    (
        [(1, Yes(3)), (2, Yes(4)), (3, Yes(2)), (1, Yes(3))],
        End::Quorum,
        4,
    ),
    (
        [(1, Yes(3)), (2, Yes(0)), (3, Aged(2)), (3, Full)],
        End::Quorum,
        3,
    ),
    // Met before Aged before Full before Short, with the greatest or the least.
    (
        [(1, Met(6)), (2, Met(8)), (3, Met(7)), (2, Met(8))],
        End::Met(8),
        0,
    ),
    (
        [(1, Yes(1)), (2, Aged(9)), (3, Met(6)), (2, Full)],
        End::Met(6),
        1,
    ),
    (
        [(1, Aged(2)), (2, Aged(3)), (3, Aged(1)), (1, Aged(2))],
        End::Aged(3),
        0,
    ),
    (
        [(1, Full), (2, Aged(4)), (3, Yes(2)), (1, Full)],
        End::Aged(4),
        2,
    ),
    (
        [(3, Full), (2, Full), (1, Yes(0)), (3, Full)],
        End::Full(2),
        0,
    ),
    (
        [(1, Full), (3, Full), (2, Full), (3, Yes(0))],
        End::Full(1),
        0,
    ),
    (
        [(2, Full), (1, Late), (3, Nothing), (2, Full)],
        End::Full(2),
        0,
    ),
];

#[test]
fn end_alike_in_every_order(rt: HostRuntime) -> Result<(), Fail> {
    for (replies, end, read) in ROWS {
        let verdict = verdict_of(end)?;
        let reads = if read == 0 { None } else { Some(at(read)) };
        for order in ORDERS {
            let (prepared, accepted, counter) = played(&replies, &order);
            assert_eq!(rt; prepared, verdict, "prepare by {replies:?} in {order:?}");
            assert_eq!(rt; accepted, verdict, "accept by {replies:?} in {order:?}");
            assert_eq!(rt; counter, reads, "what {replies:?} read in {order:?}");
        }
    }
    Ok(())
}
