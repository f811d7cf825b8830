//! Worked plays of collections, whose renewals fall between the phases of a round or find a disk that stops, and of accepts that come too
//! late for the key.

use crate::rows::{Row, Stop, play};
use crate::steps::Step::{
    Add, BeginAdd, Clear, Closed, Count, Get, Net, Propose, Remove, Renew, Restart, SetTombstone,
    Stray, Turn, Turns,
};
use cas_disk::Image;
use cas_fate::{Leg, Verdict};
use std::test::Fail;

/// Proposer 1 is renewed while its round is open. The tombstone's first ballots are below what the members promised it.
const RENEWED: [Row; 3] = [
    // Between its prepare phase and its proposal. It goes on above the tombstone.
    Row {
        steps: &[
            BeginAdd(1, "a", 1),
            Turns(1),
            SetTombstone("a"),
            SetTombstone("a"),
            Renew,
            Renew,
            Propose(1),
            Closed(1),
            Renew,
            Remove,
        ],
        lines: "show 1 a\n1 add a 1\n",
        want: "ok\n1: prepare 1 prepare 2 prepare 3 reply 1 reply 2 reply 3\nop: conflict 1.1\nok\nrenewed 0 to 1\nrenewed 1 to 1\nnot now\n1: aged 1\nrenewed 2 to 1\nop: collected a at 2.0 removed 3 kept 0\n1 a: none\n1: done v0 num 1 at 3.1\n",
    },
    // Between its proposal and its count. Its accepts join the late frames, and are aged at all members.
    Row {
        steps: &[
            BeginAdd(1, "a", 1),
            Turns(1),
            Propose(1),
            SetTombstone("a"),
            SetTombstone("a"),
            Renew,
            Renew,
            Count(1),
            Closed(1),
            Renew,
            Remove,
            Stray(0),
            Stray(0),
            Stray(0),
        ],
        lines: "show 1 a\nshow 2 a\nshow 3 a\n1 get a\n",
        want: "ok\n1: prepare 1 prepare 2 prepare 3 reply 1 reply 2 reply 3\nok\nop: conflict 1.1\nok\nrenewed 0 to 1\nrenewed 1 to 1\nnot now\n1: unsettled aged 1\nrenewed 2 to 1\nop: collected a at 2.0 removed 3 kept 0\nok\nok\nok\n1 a: none\n2 a: none\n3 a: none\n1: done empty at 3.1\n",
    },
    // One member accepted its change, and is not read. The change does not stand. That member promised the ballot that rode, so it
    // acknowledges no tombstone below that.
    Row {
        steps: &[
            BeginAdd(1, "a", 1),
            Turns(1),
            Propose(1),
            Turn(1),
            Net(Leg::Prepare, Some(1), Verdict::Lose),
            SetTombstone("a"),
            SetTombstone("a"),
            SetTombstone("a"),
            Renew,
            Renew,
            Count(1),
            Closed(1),
            Renew,
            Remove,
        ],
        lines: "show 1 a\n1 get a\n",
        want: "ok\n1: prepare 1 prepare 2 prepare 3 reply 1 reply 2 reply 3\nok\n1: accept 1\nok\nop: conflict 1.1\nop: absent 1\nok\nrenewed 0 to 1\nrenewed 1 to 1\nnot now\n1: unsettled aged 1\nrenewed 2 to 1\nop: collected a at 3.0 removed 3 kept 0\n1 a: none\n1: done empty at 4.1\n",
    },
];

#[test]
fn renews_a_proposer_whose_round_is_open(rt: HostRuntime) -> Result<(), Fail> {
    for row in RENEWED {
        let written = play(rt.alloc(), 3, None, row.steps, row.lines)?;
        assert_eq!(rt; written.as_str(), row.want);
    }
    Ok(())
}

/// Accepts that the network made late, and that stray in after the floor.
const TOO_LATE: [Row; 3] = [
    // The change was done below the tombstone.
    Row {
        steps: &[
            Net(Leg::Accept, Some(3), Verdict::Late),
            Add(1, "a", 5),
            Net(Leg::Accept, Some(3), Verdict::Deliver),
            Clear(1, "a"),
            SetTombstone("a"),
            SetTombstone("a"),
            Renew,
            Renew,
            Renew,
            Remove,
            Stray(0),
        ],
        lines: "show 3 a\n2 get a\n",
        want: "ok\n1: done v0 num 5 at 1.1\nok\n1: done empty at 2.1\nop: conflict 3.1\nok\nrenewed 0 to 1\nrenewed 1 to 1\nrenewed 2 to 1\nop: collected a at 4.0 removed 3 kept 0\nok\n3 a: none\n2: done empty at 5.2\n",
    },
    // One member did not acknowledge the first tombstone, which is below the one that all did.
    Row {
        steps: &[
            Net(Leg::Accept, Some(3), Verdict::Late),
            SetTombstone("a"),
            Net(Leg::Accept, Some(3), Verdict::Deliver),
            SetTombstone("a"),
            Renew,
            Renew,
            Renew,
            Remove,
            Stray(0),
        ],
        lines: "show 3 a\n1 get a\n",
        want: "ok\nop: absent 3\nok\nok\nrenewed 0 to 1\nrenewed 1 to 1\nrenewed 2 to 1\nop: collected a at 2.0 removed 3 kept 0\nok\n3 a: none\n1: done empty at 3.1\n",
    },
    // The change began after the tombstone, and is above it. The members keep their slots for what they promised, and nothing is accepted.
    Row {
        steps: &[
            SetTombstone("a"),
            BeginAdd(1, "a", 5),
            Turns(1),
            Net(Leg::Accept, None, Verdict::Late),
            Propose(1),
            Turns(1),
            Count(1),
            Renew,
            Renew,
            Renew,
            Remove,
            Stray(0),
            Stray(0),
            Stray(0),
        ],
        lines: "show 1 a\nshow 3 a\n1 get a\n",
        want: "ok\nok\n1: prepare 1 prepare 2 prepare 3 reply 1 reply 2 reply 3\nok\nok\n1: accept 1 accept 2 accept 3\n1: unsettled short 0 2\nrenewed 0 to 1\nrenewed 1 to 1\nrenewed 2 to 1\nop: collected a at 1.0 removed 0 kept 3\nok\nok\nok\n1 a: promise 1.1 accepted 1.0 era 0 empty\n3 a: promise 1.1 accepted 1.0 era 0 empty\n1: done empty at 3.1\n",
    },
];

#[test]
fn takes_no_accept_that_is_older_than_the_floor(rt: HostRuntime) -> Result<(), Fail> {
    for row in TOO_LATE {
        let written = play(rt.alloc(), 3, None, row.steps, row.lines)?;
        assert_eq!(rt; written.as_str(), row.want);
    }
    Ok(())
}

/// A vault makes six calls of its disk at its opening, four as it draws its first number, and six as its age is raised: the last two open
/// the new record, which a crash leaves closed where none of the write is left.
#[test]
fn renews_again_where_a_vault_stopped(rt: HostRuntime) -> Result<(), Fail> {
    let steps = [
        Get(1, "a"),
        SetTombstone("a"),
        SetTombstone("a"),
        Renew,
        Renew,
        Restart(1),
        SetTombstone("a"),
        Renew,
        Renew,
        Renew,
        Remove,
    ];
    for (image, from, to, age) in [
        (Image::Old, 11, 16, 1),
        (Image::New, 11, 14, 1),
        (Image::New, 15, 16, 2),
        (Image::Noise(7), 11, 16, 1),
    ] {
        let want = format!(in rt.alloc();
            "1: done empty at 1.1\nop: conflict 2.1\nok\nrenewed 0 to 1\nop: proposer down 1\nok\nok\nrenewed 0 to 2\nrenewed 1 to {age}\nrenewed 2 to 1\nop: collected a at 4.0 removed 3 kept 0\n1: done empty at 101.1\n"
        )?;
        for call in from..=to {
            let stop = Some(Stop { call, image });
            let written = play(rt.alloc(), 3, stop, &steps, "1 get a\n")?;
            assert_eq!(rt; written.as_str(), want.as_str(), "at call {call}");
        }
    }
    Ok(())
}
