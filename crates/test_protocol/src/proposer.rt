//! The ballots that desks draw in worked runs, without acceptors.

ghost use Rattle.std.specs.Prelude.{◌≡◌, ◌≤◌, ◌^◌, false, None, is_some, IsTrue, IfOk, IfSome, OnOk};
ghost use Rattle.cas_round.specs.Replies.{met_by};
ghost use Rattle.cas_proposer.specs.Desk.{is_in_prepare, may_ride, met_counter};

use Step::{Crash, Meet, Move, Renew, Settle, Stop};
use cas_ballot::{AcceptorId, Ballot, Members, ProposerId};
use cas_cache::Ready;
use cas_change::{Key, State};
use cas_disk::{Disk, Image, MemoryDisk, Trouble};
use cas_proposer::{Began, Desk};
use cas_quorum::Era;
use cas_round::RoundVerdict;
use cas_slot::{Phase, Reply, Tell};
use cas_vault::{Vault, VaultError};
use std::alloc::Global;
use std::process::Abort;
use std::test::Fail;

fn at(counter: u64, proposer: u8) -> Ballot
    ensures { result ≡ record { counter = counter; proposer = proposer } }
{
    Ballot { counter, proposer }
}

// One step of a desk's run.
#[derive(Clone, Copy, Debug)]
enum Step {
    /// A round that all three acceptors confirm.
    Settle,
    /// A round in whose first phase all three acceptors tell this greater ballot.
    Meet(u32, u8),
    /// A round that is closed in its first phase by a crash, after which the desk restarts.
    Stop,
    /// A crash without an open round, and a restart.
    Crash,
    /// A renewal for a tombstone at the ballot of this counter.
    Renew(u64),
    /// A step to the next era.
    Move,
}

// The ballot of a round and the one that rode with it.
type Ballots = (Option<Ballot>, Option<Ballot>);

fn three() -> Members {
    let mut members = Members::new();
    for number in [1, 2, 3] {
        if let Some(id) = AcceptorId::new(number) {
            members.insert(id);
        }
    }
    members
}

// Each of the three acceptors replies in that phase: it confirms, or it tells a greater ballot.
fn all_reply<V: Disk>(desk: &mut Desk<V>, phase: Phase, tag: Ballot, met: Option<Ballot>)
    requires { met_counter met ≤ 2 ^ 48 }
    ensures down { desk.new.down ≡ desk.old.down }
    ensures open { is_some desk.new.round ≡ is_some desk.old.round }
    ensures phase { is_in_prepare desk.new.round ≡ is_in_prepare desk.old.round }
{
    for number in [1, 2, 3] {
        let Some(from) = AcceptorId::new(number) else {
            continue;
        };
        desk.arrive(Reply {
            from,
            to: 1,
            phase,
            tag,
            tell: told(phase, met),
        });
    }
}

fn told(phase: Phase, met: Option<Ballot>) -> Tell
    ensures { met_by result ≡ met }
{
    match (met, phase) {
        (Some(met), _) => Tell::Met(met),
        (None, Phase::Prepare) => Tell::Promised { accepted: None },
        (None, _) => Tell::Accepted,
    }
}

// The accept phase of an open round, and its end.
fn accept<V: Disk>(desk: &mut Desk<V>, tag: Ballot, met: Option<Ballot>) -> Result<Ballots, Fail>
    requires up { desk.old.down ≡ false }
    requires open { IsTrue (may_ride desk.old.round) }
    requires within { met_counter met ≤ 2 ^ 48 }
    ensures up { OnOk result (desk.new.down ≡ false) }
    ensures idle { OnOk result (desk.new.round ≡ None) }
{
    let ride = desk.ride()?;
    all_reply(desk, Phase::Accept, tag, met);
    let by = desk.confirmers();
    let kept = match ride {
        Some(ballot) if desk.verdict() == RoundVerdict::Quorum => Some(Ready {
            ballot,
            state: State::Empty,
            read: tag,
            by,
        }),
        _ => None,
    };
    desk.end(kept);
    Ok((Some(tag), ride))
}

// A whole round, whose first phase ends by a ballot that was met, or by a quorum.
fn round<V: Disk>(desk: &mut Desk<V>, key: &Key, met: Option<Ballot>) -> Result<Ballots, Fail>
    requires up { desk.old.down ≡ false }
    requires idle { desk.old.round ≡ None }
    requires within { met_counter met ≤ 2 ^ 48 }
    ensures up { OnOk result (desk.new.down ≡ false) }
    ensures idle { OnOk result (desk.new.round ≡ None) }
{
    match desk.begin(&Era::majority(0, three()), key)? {
        Began::Prepare(ballot) => {
            all_reply(desk, Phase::Prepare, ballot, met);
            if desk.verdict() == RoundVerdict::Quorum {
                desk.read();
                accept(desk, ballot, None)
            } else {
                desk.end(None);
                Ok((Some(ballot), None))
            }
        }
        Began::Accept(ready) => accept(desk, ready.ballot, met),
    }
}

// A round that is closed in its first phase by a crash, after which the desk restarts.
fn stop<V: Disk>(desk: &mut Desk<V>, key: &Key) -> Result<Ballots, Fail>
    requires up { desk.old.down ≡ false }
    requires idle { desk.old.round ≡ None }
    ensures up { OnOk result (desk.new.down ≡ false) }
    ensures idle { OnOk result (desk.new.round ≡ None) }
{
    let ballot = match desk.begin(&Era::majority(0, three()), key)? {
        Began::Prepare(ballot) => ballot,
        Began::Accept(ready) => ready.ballot,
    };
    desk.crash();
    desk.restart()?;
    Ok((Some(ballot), None))
}

fn take<V: Disk>(desk: &mut Desk<V>, key: &Key, step: Step) -> Result<Ballots, Fail>
    requires up { desk.old.down ≡ false }
    requires idle { desk.old.round ≡ None }
    ensures up { OnOk result (desk.new.down ≡ false) }
    ensures idle { OnOk result (desk.new.round ≡ None) }
{
    match step {
        Settle => round(desk, key, None),
        Meet(counter, proposer) => round(desk, key, Some(at(u64::from(counter), proposer))),
        Stop => stop(desk, key),
        Crash => {
            desk.crash();
            desk.restart()?;
            Ok((None, None))
        }
        Renew(counter) => {
            desk.renew(key, at(counter.min(1 << 48), 0))?;
            Ok((None, None))
        }
        Move => {
            desk.move_to(&Era::majority(1, three()))?;
            Ok((None, None))
        }
    }
}

// A desk whose disk fails at the call of that number, where its vault starts all the same. The calls are numbered from 1.
fn failing(alloc: Global, number: u8, call: u64) -> Result<Option<Desk<MemoryDisk>>, Fail>
    ensures up { IfOk result (λ found. IfSome found (λ desk. desk.down ≡ false)) }
    ensures idle { IfOk result (λ found. IfSome found (λ desk. desk.round ≡ None)) }
{
    let id = ProposerId::new(number).ok_or("a number below 17")?;
    let troubles = [(call, Trouble::Fail)].to_vec(alloc)?;
    let disk = MemoryDisk::new(alloc, Vec::new(alloc), troubles, Image::New);
    let mut vault = Vault::over(alloc, disk);
    if vault.start().is_err() {
        return Ok(None);
    }
    match Desk::new(alloc, id, vault) {
        Ok(desk) => Ok(Some(desk)),
        Err(_) => Err(Fail::from("no memory")),
    }
}

fn desk_of(alloc: Global, number: u8) -> Result<Desk<MemoryDisk>, Fail>
    ensures up { IfOk result (λ desk. desk.down ≡ false) }
    ensures idle { IfOk result (λ desk. desk.round ≡ None) }
{
    match failing(alloc, number, 0)? {
        Some(desk) => Ok(desk),
        None => Err(Fail::from("a vault that does not start")),
    }
}

// A step, the counter of its round's ballot and of the one that rode with it, both of the proposer itself.
type Row = (Step, Option<u64>, Option<u64>);

// A crash without an open round, in which nothing is drawn.
const IDLE: Row = (Crash, None, None);

// Worked runs: the proposer, and its steps.
const RUNS: [(u8, [Row; 4]); 9] = [
    // A change rides on the promise of the one before.
    (
        1,
        [
            (Settle, Some(1), Some(2)),
            (Settle, Some(2), Some(3)),
            (Settle, Some(3), Some(4)),
            (Settle, Some(4), Some(5)),
        ],
    ),
    // The counter goes on from a ballot that was met, in either phase.
    (
        2,
        [
            (Meet(3, 1), Some(1), None),
            (Settle, Some(4), Some(5)),
            IDLE,
            IDLE,
        ],
    ),
    (
        1,
        [
            (Settle, Some(1), Some(2)),
            (Settle, Some(2), Some(3)),
            (Meet(5, 2), Some(3), Some(4)),
            (Settle, Some(6), Some(7)),
        ],
    ),
    // After a crash it goes on from the bound.
    (
        1,
        [
            (Stop, Some(1), None),
            (Settle, Some(101), Some(102)),
            IDLE,
            (Settle, Some(201), Some(202)),
        ],
    ),
    // After a renewal the bound is the counter, and the promise is gone.
    (
        2,
        [
            (Renew(4), None, None),
            (Settle, Some(5), Some(6)),
            IDLE,
            (Settle, Some(105), Some(106)),
        ],
    ),
    (
        1,
        [
            (Settle, Some(1), Some(2)),
            (Settle, Some(2), Some(3)),
            (Renew(4), None, None),
            (Settle, Some(5), Some(6)),
        ],
    ),
    // In another era no promise is used.
    (
        1,
        [
            (Settle, Some(1), Some(2)),
            (Move, None, None),
            (Meet(7, 0), Some(3), None),
            (Settle, Some(8), Some(9)),
        ],
    ),
    // Nothing rides with proposer 0, and nothing above the last number.
    (
        0,
        [
            (Meet(3, 1), Some(1), None),
            (Settle, Some(4), None),
            (Settle, Some(5), None),
            IDLE,
        ],
    ),
    (
        1,
        [
            (Renew((1 << 48) - 1), None, None),
            (Settle, Some(1 << 48), None),
            IDLE,
            IDLE,
        ],
    ),
];

fn drawn(counter: Option<u64>, proposer: u8) -> Option<Ballot> {
    match counter {
        Some(counter) => Some(at(counter, proposer)),
        None => None,
    }
}

// Takes the steps of a run, each of which has to draw what stands beside it.
fn follow(rt: &impl Abort, alloc: Global, proposer: u8, steps: [Row; 4]) -> Result<(), Fail> {
    let key = Key::read(alloc, b"a")?;
    let mut desk = desk_of(alloc, proposer)?;
    for (step, ballot, ride) in steps {
        let found = take(&mut desk, &key, step)?;
        let wanted = (drawn(ballot, proposer), drawn(ride, proposer));
        assert_eq!(rt; found, wanted, "{step:?} of proposer {proposer}");
    }
    Ok(())
}

#[test]
fn desks_draw_as_in_worked_runs(rt: HostRuntime) -> Result<(), Fail> {
    for (proposer, steps) in RUNS {
        follow(&rt, rt.alloc(), proposer, steps)?;
    }
    Ok(())
}

// Whether a desk draws, raises its age and goes into another era as it should, where it begins a round.
fn begins<V: Disk>(desk: &mut Desk<V>, key: &Key) -> Result<bool, VaultError>
    requires up { desk.old.down ≡ false }
    requires idle { desk.old.round ≡ None }
{
    let first = desk.tag()?;
    let age = desk.renew(key, at(4, 0))?;
    desk.move_to(&Era::majority(7, three()))?;
    let second = desk.tag()?;
    desk.begin(&Era::majority(7, three()), key)?;
    let open = matches!(desk.round(), Some(round) if round.ballot == at(6, 0));
    Ok(open && (first, age, second) == (at(1, 0), 1, at(5, 0)))
}

// Whether a crash takes a desk down with its round, and a restart takes up its age, its era and its bound.
fn restarts<V: Disk>(desk: &mut Desk<V>) -> Result<bool, VaultError> {
    desk.crash();
    let down = desk.is_down() && desk.round().is_none();
    desk.restart()?;
    let up = !desk.is_down() && (desk.age(), desk.era()) == (1, 7);
    Ok(down && up && desk.tag()? == at(101, 0))
}

#[test]
fn a_restart_keeps_age_and_era(rt: HostRuntime) -> Result<(), Fail> {
    let key = Key::read(rt.alloc(), b"a")?;
    let mut desk = desk_of(rt.alloc(), 0)?;
    let began = begins(&mut desk, &key)?;
    let restarted = restarts(&mut desk)?;
    let counter = desk.into_vault().counter();
    assert_eq!(rt; (began, restarted, counter), (true, true, 101));
    Ok(())
}

// Draws a number. Where the vault fails, the desk is down, and the counter of what it draws after a restart is answered.
fn draws_again<V: Disk>(rt: &impl Abort, desk: &mut Desk<V>) -> Result<Option<u64>, VaultError>
    requires { desk.old.down ≡ false }
{
    match desk.tag() {
        Ok(tag) => {
            assert_eq!(rt; (tag, desk.is_down()), (at(1, 1), false));
            Ok(None)
        }
        Err(fault) => {
            assert_eq!(rt; (fault, desk.is_down()), (VaultError::VaultFault, true));
            desk.restart()?;
            Ok(Some(desk.tag()?.counter))
        }
    }
}

// What a crash leaves of a draw that failed is the bound from before it or the one that it writes.
#[test]
fn a_fault_of_its_vault_takes_a_desk_down(rt: HostRuntime) -> Result<(), Fail> {
    let mut old_bounds = 0u32;
    let mut new_bounds = 0u32;
    for call in 1..=30 {
        let Some(mut desk) = failing(rt.alloc(), 1, call)? else {
            continue;
        };
        match draws_again(&rt, &mut desk)? {
            None => {}
            Some(1) => old_bounds = old_bounds.saturating_add(1),
            Some(101) => new_bounds = new_bounds.saturating_add(1),
            Some(_) => return Err(Fail::from("another counter")),
        }
    }
    assert!(rt; old_bounds > 0 && new_bounds > 0);
    Ok(())
}
