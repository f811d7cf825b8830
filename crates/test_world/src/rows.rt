//! Worked plays over shelves and vaults in memory.

use crate::player::Player;
use crate::steps::Step::{
    Add, BeginAdd, BeginGet, Closed, Count, Crash, Enter, Fill, Get, Gets, Join, Net, Propose,
    Restart, Stray, Turn, Turns,
};
use crate::steps::{Play, Step};
use cas_disk::{Image, MemoryDisk, Trouble};
use cas_fate::{Leg, Verdict};
use cas_lines::lines::Lines;
use cas_lines::source::MemorySource;
use cas_slot::{MapShelf, Shelf};
use cas_world::Config;
use casreg_script::Script;
use std::alloc::{AllocError, Global};
use std::test::Fail;

/// A world with these many acceptors and two proposers of clients.
pub const fn among(acceptors: u8) -> Config {
    Config {
        acceptors,
        proposers: 2,
    }
}

/// Where the disk of number 1 stops, and what a crash leaves of it.
#[derive(Clone, Copy, Debug)]
pub struct Stop {
    pub call: u64,
    pub image: Image,
}

/// A play: steps in a new world, then lines of a script in it, and what is written.
#[derive(Clone, Copy)]
pub struct Row<'a> {
    pub steps: &'a [Step],
    pub lines: &'a str,
    pub want: &'a str,
}

/// Empty shelves in memory.
pub fn shelves(alloc: Global) -> Result<Vec<MapShelf>, AllocError> {
    let mut shelves = Vec::new(alloc);
    for _shelf in 0..64usize {
        shelves.push(MapShelf::new(alloc))?;
    }
    Ok(shelves)
}

/// Empty disks in memory, for vaults.
pub fn vaults(alloc: Global, stop: Option<Stop>) -> Result<Vec<MemoryDisk>, AllocError> {
    let mut vaults = Vec::new(alloc);
    for place in 0..17usize {
        vaults.push(disk(alloc, place, stop)?)?;
    }
    Ok(vaults)
}

/// The empty disk of that place. That of place 1 stops.
pub fn disk(alloc: Global, place: usize, stop: Option<Stop>) -> Result<MemoryDisk, AllocError> {
    let mut troubles = Vec::new(alloc);
    let mut image = Image::New;
    if let Some(stop) = stop
        && place == 1
    {
        troubles.push((stop.call, Trouble::Stop))?;
        image = stop.image;
    }
    Ok(MemoryDisk::new(alloc, Vec::new(alloc), troubles, image))
}

/// A play in a new world of so many acceptors over these shelves.
fn opened<S: Shelf + Drop>(
    alloc: Global,
    acceptors: u8,
    shelves: Vec<S>,
    stop: Option<Stop>,
) -> Result<Play<S, MemoryDisk>, Fail> {
    let vaults = vaults(alloc, stop)?;
    match Player::open(alloc, among(acceptors), shelves, vaults) {
        Some(player) => Ok(Play::new(alloc, player)),
        None => Err(Fail::from("a world in memory opens")),
    }
}

/// What the script answers to the lines.
pub fn answers<S: Shelf + Drop>(
    alloc: Global,
    script: &mut Script<S, MemoryDisk>,
    lines: &str,
) -> Result<Vec<u8>, Fail> {
    let mut source = MemorySource::new(lines.as_bytes().to_vec(alloc)?, 4096, Vec::new(alloc));
    let mut input = Lines::new(alloc);
    let mut written = Vec::new(alloc);
    for _line in 0..1_000 {
        match input.next(&mut source) {
            Ok(Some(line)) => written.extend_from_slice(&script.answer(alloc, &line)?)?,
            Ok(None) => break,
            Err(_) => return Err(Fail::from("the lines are read")),
        }
    }
    Ok(written)
}

/// What is written as the player's world goes on as a script of these lines, with two tries.
fn go_on<S: Shelf + Drop>(
    alloc: Global,
    player: Player<S, MemoryDisk>,
    lines: &str,
) -> Result<Vec<u8>, Fail> {
    if lines.is_empty() {
        return Ok(Vec::new(alloc));
    }
    match player.into_script(2) {
        Some(mut script) => answers(alloc, &mut script, lines),
        None => Err(Fail::from("a call is open")),
    }
}

/// Takes the steps in a new world of so many acceptors, and then runs the lines in it. Gives all that was written.
pub fn play(
    alloc: Global,
    acceptors: u8,
    stop: Option<Stop>,
    steps: &[Step],
    lines: &str,
) -> Result<String, Fail> {
    play_over(alloc, acceptors, shelves(alloc)?, stop, steps, lines)
}

/// The same over these shelves.
pub fn play_over<S: Shelf + Drop>(
    alloc: Global,
    acceptors: u8,
    shelves: Vec<S>,
    stop: Option<Stop>,
    steps: &[Step],
    lines: &str,
) -> Result<String, Fail> {
    let mut play = opened(alloc, acceptors, shelves, stop)?;
    for step in steps {
        play.take(*step)?;
    }
    let (player, mut written) = play.into_parts();
    written.extend_from_slice(&go_on(alloc, player, lines)?)?;
    match String::from_utf8(written) {
        Ok(text) => Ok(text),
        Err(_) => Err(Fail::from("the answers are text")),
    }
}

/// Rounds of two proposers, one between the phases of the other.
const INTERLEAVED: [Row; 4] = [
    // Another proposer runs a whole round between the two phases of a round.
    Row {
        steps: &[
            BeginAdd(1, "a", 1),
            Turns(1),
            Get(2, "a"),
            Propose(1),
            Turns(1),
            Count(1),
        ],
        lines: "1 get a\n",
        want: "ok\n1: prepare 1 prepare 2 prepare 3 reply 1 reply 2 reply 3\n2: done empty at 1.2\nok\n1: accept 1 accept 2 accept 3 reply 1 reply 2 reply 3\n1: unsettled met 2.2\n1: done empty at 3.1\n",
    },
    // It only prepares.
    Row {
        steps: &[
            BeginAdd(1, "a", 1),
            Turns(1),
            BeginAdd(2, "a", 2),
            Turns(2),
            Propose(1),
            Turns(1),
            Count(1),
            Propose(2),
            Turns(2),
            Count(2),
        ],
        lines: "",
        want: "ok\n1: prepare 1 prepare 2 prepare 3 reply 1 reply 2 reply 3\nok\n2: prepare 1 prepare 2 prepare 3 reply 1 reply 2 reply 3\nok\n1: accept 1 accept 2 accept 3 reply 1 reply 2 reply 3\n1: unsettled met 1.2\nok\n2: accept 1 accept 2 accept 3 reply 1 reply 2 reply 3\n2: done v0 num 2 at 1.2\n",
    },
    // It reads what one acceptor accepted, so the change that is unsettled stands.
    Row {
        steps: &[
            Get(2, "b"),
            BeginAdd(1, "a", 1),
            Turns(1),
            Propose(1),
            Turn(1),
            Add(2, "a", 2),
            Turns(1),
            Count(1),
        ],
        lines: "1 get a\n",
        want: "2: done empty at 1.2\nok\n1: prepare 1 prepare 2 prepare 3 reply 1 reply 2 reply 3\nok\n1: accept 1\n2: done v1 num 3 at 3.2\n1: accept 2 accept 3 reply 1 reply 2 reply 3\n1: unsettled met 4.2\n1: done v1 num 3 at 5.1\n",
    },
    // It prepares below the promise that rides, and does not read what that acceptor accepted, so the change does not stand.
    Row {
        steps: &[
            BeginAdd(1, "a", 1),
            Turns(1),
            Propose(1),
            Turn(1),
            Add(2, "a", 2),
            Turns(1),
            Count(1),
        ],
        lines: "1 get a\n",
        want: "ok\n1: prepare 1 prepare 2 prepare 3 reply 1 reply 2 reply 3\nok\n1: accept 1\n2: done v0 num 2 at 1.2\n1: accept 2 accept 3 reply 1 reply 2 reply 3\n1: unsettled met 2.2\n1: done v0 num 2 at 3.1\n",
    },
];

#[test]
fn lets_rounds_interleave(rt: HostRuntime) -> Result<(), Fail> {
    for row in INTERLEAVED {
        let written = play(rt.alloc(), 3, None, row.steps, row.lines)?;
        assert_eq!(rt; written.as_str(), row.want);
    }
    Ok(())
}

/// Era steps while rounds are open.
const MOVED_ON: [Row; 2] = [
    // An era step between the prepare phase and the proposal. The proposer goes on in the new era, and the other in the one before.
    Row {
        steps: &[
            BeginAdd(1, "a", 1),
            Turns(1),
            Join(4),
            Enter,
            Enter,
            Propose(1),
            Closed(1),
            BeginAdd(1, "a", 2),
            Turns(1),
            Propose(1),
            Turns(1),
            Count(1),
            BeginAdd(2, "b", 1),
            Turns(2),
            Propose(2),
            Turns(2),
            Count(2),
            Crash(2),
            Enter,
        ],
        lines: "restart proposer 2\nop join 4\n1 get a\n",
        want: "ok\n1: prepare 1 prepare 2 prepare 3 reply 1 reply 2 reply 3\nok\nentered 0\nentered 1\nnot now\n1: moved 1\nok\n1: prepare 1 prepare 2 prepare 3 reply 1 reply 2 reply 3\nok\n1: accept 1 accept 2 accept 3 accept 4 reply 1 reply 2 reply 3 reply 4\n1: done v0 num 2 at 2.1\nok\n2: prepare 1 prepare 2 prepare 3 reply 1 reply 2 reply 3\nok\n2: accept 1 accept 2 accept 3 reply 1 reply 2 reply 3\n2: done v0 num 1 at 1.2\nok\nop: proposer down 2\nok\nop: joined 4 era 2 rescanned 2\n1: done v0 num 2 at 4.1\n",
    },
    // The same between the proposal and the count. The late accepts of the era before meet another ballot.
    Row {
        steps: &[
            BeginAdd(1, "a", 1),
            Turns(1),
            Propose(1),
            Join(4),
            Enter,
            Enter,
            Count(1),
            Closed(1),
            Crash(2),
            Enter,
        ],
        lines: "restart proposer 2\nop join 4\nstray 0\nstray 0\nstray 0\n1 get a\nshow 1 a\nshow 4 a\n",
        want: "ok\n1: prepare 1 prepare 2 prepare 3 reply 1 reply 2 reply 3\nok\nok\nentered 0\nentered 1\nnot now\n1: unsettled moved 1\nok\nop: proposer down 2\nok\nop: joined 4 era 2 rescanned 1\nok\nok\nok\n1: done empty at 3.1\n1 a: promise 4.1 accepted 3.1 era 2 empty\n4 a: promise 4.1 accepted 3.1 era 2 empty\n",
    },
];

#[test]
fn moves_open_rounds_on(rt: HostRuntime) -> Result<(), Fail> {
    for row in MOVED_ON {
        let written = play(rt.alloc(), 3, None, row.steps, row.lines)?;
        assert_eq!(rt; written.as_str(), row.want);
    }
    Ok(())
}

/// A vault makes six calls of its disk at its opening, four as it draws its first number, and six as it enters an era.
#[test]
fn resumes_where_a_vault_stopped(rt: HostRuntime) -> Result<(), Fail> {
    let steps = [
        BeginAdd(1, "a", 1),
        Turns(1),
        Join(4),
        Enter,
        Enter,
        Closed(1),
        Restart(1),
    ];
    let lines = "op join 4\n1 add a 1\n";
    let want =
        "ok\n1: prepare 1 prepare 2 prepare 3 reply 1 reply 2 reply 3\nok\nentered 0\nop: proposer down 1\n1: crashed\nok\nop: joined 4 era 2 rescanned 1\n1: done v0 num 1 at 101.1\n";
    for image in [Image::Old, Image::New, Image::Noise(7)] {
        for call in 11..=16 {
            let written = play(rt.alloc(), 3, Some(Stop { call, image }), &steps, lines)?;
            assert_eq!(rt; written.as_str(), want, "at call {call}");
        }
    }
    Ok(())
}

/// After the last write of an era step a crash leaves the era before or the new one. The new one is marked as the change is resumed.
#[test]
fn works_in_the_era_of_its_vault(rt: HostRuntime) -> Result<(), Fail> {
    let steps = [
        Join(4),
        Enter,
        Get(1, "b"),
        Enter,
        Restart(1),
        BeginAdd(1, "a", 1),
        Turns(1),
        Propose(1),
        Turns(1),
        Count(1),
    ];
    for (image, want) in [
        (
            Image::Old,
            "ok\nentered 0\n1: done empty at 1.1\nop: proposer down 1\nok\nok\n1: prepare 1 prepare 2 prepare 3 reply 1 reply 2 reply 3\nok\n1: accept 1 accept 2 accept 3 reply 1 reply 2 reply 3\n1: done v0 num 1 at 101.1\nop: joined 4 era 2 rescanned 2\n",
        ),
        (
            Image::New,
            "ok\nentered 0\n1: done empty at 1.1\nop: proposer down 1\nok\nok\n1: prepare 1 prepare 2 prepare 3 reply 1 reply 2 reply 3\nok\n1: accept 1 accept 2 accept 3 accept 4 reply 1 reply 2 reply 3 reply 4\n1: done v0 num 1 at 101.1\nop: joined 4 era 2 rescanned 2\n",
        ),
    ] {
        let stop = Some(Stop { call: 16, image });
        let written = play(rt.alloc(), 3, stop, &steps, "op join 4\n")?;
        assert_eq!(rt; written.as_str(), want);
    }
    Ok(())
}

#[test]
fn rides_on_the_promise_of_the_round_before(rt: HostRuntime) -> Result<(), Fail> {
    for (stop, steps, want) in [
        // The second change on a cached promise sends three frames, and none that prepares.
        (
            None,
            [
                Add(1, "a", 5),
                BeginAdd(1, "a", 2),
                Turns(1),
                Count(1),
                Get(1, "a"),
            ],
            "1: done v0 num 5 at 1.1\nok\n1: accept 1 accept 2 accept 3 reply 1 reply 2 reply 3\n1: done v1 num 7 at 2.1\n1: done v1 num 7 at 3.1\n",
        ),
        // The number of the ballot that is to ride is the first above the bound, and the vault fails as it is drawn.
        (
            Some(Stop {
                call: 11,
                image: Image::New,
            }),
            [
                Gets(99, 1, "a"),
                BeginGet(1, "a"),
                Get(1, "a"),
                Restart(1),
                Get(1, "a"),
            ],
            "1: done empty at 99.1\n1: vault fault\n1: down\nok\n1: done empty at 101.1\n",
        ),
    ] {
        let written = play(rt.alloc(), 3, stop, &steps, "")?;
        assert_eq!(rt; written.as_str(), want);
    }
    Ok(())
}

/// Frames that come twice or late, and those of rounds that are over.
const LATE: [Row; 5] = [
    // A promise that is told twice counts once.
    Row {
        steps: &[
            Net(Leg::Prepare, Some(1), Verdict::Twice),
            Net(Leg::Reply, Some(2), Verdict::Lose),
            Net(Leg::Reply, Some(3), Verdict::Lose),
            BeginAdd(1, "a", 5),
            Turns(1),
            Propose(1),
        ],
        lines: "",
        want: "ok\nok\nok\nok\n1: prepare 1 prepare 1 prepare 2 prepare 3 reply 1 reply 1 reply 2 reply 3\n1: short 1 2\n",
    },
    // Late replies of the open phase count.
    Row {
        steps: &[
            Net(Leg::Reply, None, Verdict::Late),
            BeginAdd(1, "a", 5),
            Turns(1),
            Stray(2),
            Stray(0),
            Net(Leg::Reply, None, Verdict::Deliver),
            Propose(1),
            Turns(1),
            Stray(0),
            Count(1),
        ],
        lines: "",
        want: "ok\nok\n1: prepare 1 prepare 2 prepare 3 reply 1 reply 2 reply 3\nok\nok\nok\nok\n1: accept 1 accept 2 accept 3 reply 1 reply 2 reply 3\nok\n1: done v0 num 5 at 1.1\n",
    },
    // Late replies of a closed round do not count for another.
    Row {
        steps: &[
            Net(Leg::Reply, None, Verdict::Late),
            BeginAdd(1, "a", 5),
            Turns(1),
            Propose(1),
            Net(Leg::Prepare, None, Verdict::Lose),
            BeginAdd(1, "a", 5),
            Stray(0),
            Stray(0),
            Stray(0),
            Stray(0),
            Turns(1),
            Propose(1),
        ],
        lines: "",
        want: "ok\nok\n1: prepare 1 prepare 2 prepare 3 reply 1 reply 2 reply 3\n1: short 0 2\nok\nok\nok\nok\nok\nnone\n1: prepare 1 prepare 2 prepare 3\n1: short 0 2\n",
    },
    // A late request of a round that was done is answered, and the reply is dropped.
    Row {
        steps: &[
            Net(Leg::Accept, Some(3), Verdict::Late),
            BeginAdd(1, "a", 5),
            Turns(1),
            Propose(1),
            Turns(1),
            Count(1),
            Net(Leg::Accept, Some(3), Verdict::Deliver),
        ],
        lines: "show 3 a\nstray 0\nstray 0\nstray 0\nshow 3 a\n",
        want: "ok\nok\n1: prepare 1 prepare 2 prepare 3 reply 1 reply 2 reply 3\nok\n1: accept 1 accept 2 accept 3 reply 1 reply 2\n1: done v0 num 5 at 1.1\nok\n3 a: promise 1.1\nok\nok\nnone\n3 a: promise 2.1 accepted 1.1 era 0 v0 num 5\n",
    },
    // Late requests of a round that another overtook are refused.
    Row {
        steps: &[
            Net(Leg::Accept, None, Verdict::Late),
            BeginAdd(1, "a", 1),
            Turns(1),
            Propose(1),
            Turns(1),
            Count(1),
            Net(Leg::Accept, None, Verdict::Deliver),
            Add(2, "a", 2),
        ],
        lines: "stray 0\nstray 0\nstray 0\nstray 0\nstray 0\nstray 0\nstray 0\nshow 1 a\n1 get a\n",
        want: "ok\nok\n1: prepare 1 prepare 2 prepare 3 reply 1 reply 2 reply 3\nok\n1: accept 1 accept 2 accept 3\n1: unsettled short 0 2\nok\n2: done v0 num 2 at 1.2\nok\nok\nok\nok\nok\nok\nnone\n1 a: promise 2.2 accepted 1.2 era 0 v0 num 2\n1: done v0 num 2 at 3.1\n",
    },
];

#[test]
fn bears_with_repeated_and_late_frames(rt: HostRuntime) -> Result<(), Fail> {
    for row in LATE {
        let written = play(rt.alloc(), 3, None, row.steps, row.lines)?;
        assert_eq!(rt; written.as_str(), row.want);
    }
    Ok(())
}

/// With one acceptor a call that is done makes five marks, one that finds its proposer down or is closed before it proposes two, and a
/// round reserves twelve. So many of each leave room for just two rounds, and with those for no late frame.
#[test]
fn has_room_for_so_many_rounds(rt: HostRuntime) -> Result<(), Fail> {
    let steps = [
        Crash(1),
        Gets(3, 1, "a"),
        Restart(1),
        Gets(199_994, 1, "a"),
        Net(Leg::Prepare, Some(1), Verdict::Late),
        BeginGet(1, "b"),
        BeginGet(2, "b"),
        Turns(1),
        Stray(0),
        Crash(2),
        Closed(2),
        Restart(2),
        Stray(0),
        BeginGet(2, "b"),
    ];
    let want =
        "ok\n1: down\nok\n1: done empty at 199994.1\nok\nok\nok\n1: prepare 1\nrecord full\nok\n2: crashed\nok\nok\n2: record full\n";
    let written = play(rt.alloc(), 1, None, &steps, "")?;
    assert_eq!(rt; written.as_str(), want);
    Ok(())
}

/// A shelf holds 4,096 slots. Each of the changes that fill it draws two numbers: its ballot, and the one that rides.
#[test]
fn finds_a_full_acceptor(rt: HostRuntime) -> Result<(), Fail> {
    let steps = [Fill(1, 4_096), Get(1, "a"), Get(2, "a"), Get(2, "k0")];
    let want = "1: done empty at 8191.1\n1: full 1\n2: full 1\n2: done empty at 2.2\n";
    let written = play(rt.alloc(), 1, None, &steps, "")?;
    assert_eq!(rt; written.as_str(), want);
    Ok(())
}
