//! Scripts over shelves and vaults in memory.

ghost use Rattle.std.specs.Prelude.{◌≡◌, ◌≤◌, vec_len, IfOk};

use cas_disk::{Image, MemoryDisk};
use cas_lines::lines::Lines;
use cas_lines::source::MemorySource;
use cas_slot::MapShelf;
use cas_world::{Config, World};
use casreg_script::Script;
use std::alloc::{AllocError, Global};
use std::test::Fail;

/// How large a cluster is, and how often a change is tried.
#[derive(Clone, Copy)]
struct Size {
    acceptors: u8,
    proposers: u8,
    tries: u8,
}

const ONE_TRY: Size = Size {
    acceptors: 3,
    proposers: 2,
    tries: 1,
};

const TWO_TRIES: Size = Size {
    acceptors: 3,
    proposers: 2,
    tries: 2,
};

const EIGHT_TRIES: Size = Size {
    acceptors: 5,
    proposers: 2,
    tries: 8,
};

/// Empty shelves in memory.
fn shelves(alloc: Global) -> Result<Vec<MapShelf>, AllocError>
    ensures { IfOk result (λ shelves. vec_len shelves ≡ 64) }
{
    let mut shelves = Vec::new(alloc);
    for _shelf in 0..64usize {
        shelves.push(MapShelf::new(alloc))?;
    }
    Ok(shelves)
}

/// Empty disks in memory, for vaults.
fn vaults(alloc: Global) -> Result<Vec<MemoryDisk>, AllocError>
    ensures { IfOk result (λ vaults. vec_len vaults ≡ 17) }
{
    let mut vaults = Vec::new(alloc);
    for _vault in 0..17usize {
        let disk = MemoryDisk::new(alloc, Vec::new(alloc), Vec::new(alloc), Image::New);
        vaults.push(disk)?;
    }
    Ok(vaults)
}

/// A script in a world in which nothing has happened.
fn opened(alloc: Global, size: Size) -> Result<Script<MapShelf, MemoryDisk>, Fail>
    requires acceptors { (1 ≤ size.acceptors) × (size.acceptors ≤ 9) }
    requires proposers { size.proposers ≤ 16 }
    requires tries { 1 ≤ size.tries }
{
    let config = Config {
        acceptors: size.acceptors,
        proposers: size.proposers,
    };
    match World::open(alloc, config, shelves(alloc)?, vaults(alloc)?) {
        Ok(world) => Ok(Script::new(world, size.proposers, size.tries)),
        Err(_) => Err(Fail::from("a world in memory opens")),
    }
}

/// Runs the lines of the input, and gives all answers.
fn play(
    alloc: Global,
    script: &mut Script<MapShelf, MemoryDisk>,
    input: &[u8],
) -> Result<Vec<u8>, Fail> {
    let mut source = MemorySource::new(input.to_vec(alloc)?, 4096, Vec::new(alloc));
    let mut lines = Lines::new(alloc);
    let mut written = Vec::new(alloc);
    for _line in 0..1_000 {
        match lines.next(&mut source) {
            Ok(Some(line)) => written.extend_from_slice(&script.answer(alloc, &line)?)?,
            Ok(None) => break,
            Err(_) => return Err(Fail::from("the input is read")),
        }
    }
    Ok(written)
}

#[test]
fn plays_worked_scripts(rt: HostRuntime) -> Result<(), Fail> {
    let alloc = rt.alloc();
    for (size, input, output) in [
        (
            ONE_TRY,
            "1 add a 5\n1 add a 2\n2 get a\n2 get a\n1 add a 1\n1 get a\n",
            "1: done v0 num 5 at 1.1\n1: done v1 num 7 at 2.1\n2: conflict 3.1\n2: done v1 num 7 at 4.2\n1: unsettled met 5.2\n1: done v1 num 7 at 6.1\n",
        ),
        (
            TWO_TRIES,
            "1 add a 5\n1 add a 2\n2 get a\n",
            "1: done v0 num 5 at 1.1\n1: done v1 num 7 at 2.1\n2: done v1 num 7 at 4.2\n",
        ),
        (
            ONE_TRY,
            "net prepare 2 lose\nnet prepare 3 lose\n1 add a 1\n",
            "ok\nok\n1: short 1 2\n",
        ),
        (
            ONE_TRY,
            "net accept 2 lose\nnet accept 3 lose\n1 add a 1\nnet accept 2 deliver\nnet prepare 3 lose\n2 get a\nnet accept 3 deliver\n2 get a\n",
            "ok\nok\n1: unsettled short 1 2\nok\nok\n2: conflict 2.1\nok\n2: done v0 num 1 at 3.2\n",
        ),
        (
            ONE_TRY,
            "net all * twice\n1 add a 5\n1 add a 2\n",
            "ok\n1: done v0 num 5 at 1.1\n1: done v1 num 7 at 2.1\n",
        ),
        (
            ONE_TRY,
            "halt 1 after-prepare\n1 add a 1\n1 get a\nrestart proposer 1\n1 get a\n",
            "ok\n1: crashed\n1: down\nok\n1: done empty at 101.1\n",
        ),
        (
            TWO_TRIES,
            "halt 1 after-propose\n1 add a 1\nstray 0\nstray 0\n2 get a\nstray 9\n",
            "ok\n1: unsettled crashed\nok\nok\n2: done v0 num 1 at 3.2\nnone\n",
        ),
    ] {
        let mut script = opened(alloc, size)?;
        let written = play(alloc, &mut script, input.as_bytes())?;
        assert_eq!(rt; written.as_slice(), output.as_bytes(), "{input}");
    }
    Ok(())
}

#[test]
fn probes_what_members_keep(rt: HostRuntime) -> Result<(), Fail> {
    let alloc = rt.alloc();
    for (input, output) in [
        (
            "1 add a 5\nop probe a\ncrash acceptor 2\nop probe b\n",
            "1: done v0 num 5 at 1.1\nop: probe a 1=1.1/0 2=1.1/0 3=1.1/0\nok\nop: probe b 1=none 2=? 3=none\n",
        ),
        (
            "net probe 1 lose\nnet reply 2 lose\nop probe a\nop probe\nop\n",
            "ok\nok\nop: probe a 1=? 2=? 3=none\nbad 4 no word\nbad 5 no word\n",
        ),
        (
            "net all * twice\nop probe a\nnet all * late\nop probe a\nstray 0\nstray 0\nstray 0\nstray 0\n",
            "ok\nop: probe a 1=none 2=none 3=none\nok\nop: probe a 1=? 2=? 3=?\nok\nok\nok\nok\n",
        ),
        (
            "crash proposer 0\nop probe a\nrestart proposer 0\nop probe a\n1 get a\n",
            "ok\nop: down\nok\nop: probe a 1=none 2=none 3=none\n1: done empty at 1.1\n",
        ),
    ] {
        let mut script = opened(alloc, ONE_TRY)?;
        let written = play(alloc, &mut script, input.as_bytes())?;
        assert_eq!(rt; written.as_slice(), output.as_bytes(), "{input}");
    }
    Ok(())
}

#[test]
fn changes_members(rt: HostRuntime) -> Result<(), Fail> {
    let alloc = rt.alloc();
    for (size, input, output) in [
        (
            TWO_TRIES,
            "1 add a 5\nop join 4\nop leave 4\n1 get a\nop join 4\n",
            "1: done v0 num 5 at 1.1\nop: joined 4 era 2 rescanned 1\nop: left 4 era 4 rescanned 2\n1: done v0 num 5 at 8.1\nop: id used\n",
        ),
        (
            ONE_TRY,
            "op join 3\nop leave 9\nop leave 3\nop join 3\nop join 4\n",
            "op: already in\nop: not in\nop: left 3 era 1 rescanned 0\nop: id used\nop: joined 4 era 2 rescanned 0\n",
        ),
        (
            ONE_TRY,
            "net list * lose\nop join 4\nop join 5\nop collect a\nnet list * deliver\nop join 4\n",
            "ok\nop: short 0 2\nop: busy 1\nop: busy 1\nok\nop: joined 4 era 2 rescanned 0\n",
        ),
        (
            TWO_TRIES,
            "1 add a 5\n2 add b 1\nnet accept * lose\nop join 4\nnet list * lose\nnet accept * deliver\nop join 4\n",
            "1: done v0 num 5 at 1.1\n2: done v0 num 1 at 1.2\nok\nop: unsettled short 0 3\nok\nok\nop: joined 4 era 2 rescanned 2\n",
        ),
        (
            TWO_TRIES,
            "1 add a 5\nhalt 0 after-prepare\nop join 4\nop join 4\nrestart proposer 0\nop join 4\n",
            "1: done v0 num 5 at 1.1\nok\nop: crashed\nop: down\nok\nop: joined 4 era 2 rescanned 1\n",
        ),
        (
            ONE_TRY,
            "crash proposer 2\nop join 4\nrestart proposer 2\nop join 4\n",
            "ok\nop: proposer down 2\nok\nop: joined 4 era 2 rescanned 0\n",
        ),
    ] {
        let mut script = opened(alloc, size)?;
        let written = play(alloc, &mut script, input.as_bytes())?;
        assert_eq!(rt; written.as_slice(), output.as_bytes(), "{input}");
    }
    Ok(())
}

#[test]
fn collects_keys(rt: HostRuntime) -> Result<(), Fail> {
    let alloc = rt.alloc();
    for (size, input, output) in [
        (
            TWO_TRIES,
            "1 set a x\n1 del a\nop collect a\n1 add a 9\n",
            "1: done v0 text x at 1.1\n1: done empty at 2.1\nop: collected a at 4.0 removed 3 kept 0\n1: done v0 num 9 at 5.1\n",
        ),
        (
            TWO_TRIES,
            "net accept 3 late\n1 set a x\nnet accept 3 deliver\n1 del a\nop collect a\nstray 0\nshow 3 a\n2 get a\ncrash proposer 2\nrestart proposer 2\n2 get a\n",
            "ok\n1: done v0 text x at 1.1\nok\n1: done empty at 2.1\nop: collected a at 4.0 removed 3 kept 0\nok\n3 a: none\n2: done empty at 5.2\nok\nok\n2: done empty at 105.2\n",
        ),
        (
            TWO_TRIES,
            "1 set a x\nop collect a\n1 get a\n1 get a\n",
            "1: done v0 text x at 1.1\nop: not empty v0\n1: unsettled met 3.0\n1: done v0 text x at 4.1\n",
        ),
        (
            TWO_TRIES,
            "1 set a x\n1 del a\ncrash acceptor 3\nop collect a\nshow 1 a\nshow 3 a\n",
            "1: done v0 text x at 1.1\n1: done empty at 2.1\nok\nop: absent 3\n1 a: promise 0.0 accepted 4.0 era 0 empty\n3 a: down\n",
        ),
        (
            TWO_TRIES,
            "1 set a x\n1 del a\nnet remove 3 late\nop collect a\n1 add a 9\nstray 0\nshow 3 a\n",
            "1: done v0 text x at 1.1\n1: done empty at 2.1\nok\nop: absent 3\n1: done v0 num 9 at 5.1\nok\n3 a: promise 6.1 accepted 5.1 era 0 v0 num 9\n",
        ),
        (
            EIGHT_TRIES,
            "1 init visits 0\n1 add visits 1\n2 set motd hello%20all\ncrash acceptor 5\n1 add visits 1\n2 cas motd 0 closed\nrestart acceptor 5\n1 set tmp x\n1 del tmp\nop collect tmp\n1 add visits 1\n2 get motd\n",
            "1: done v0 num 0 at 1.1\n1: done v1 num 1 at 2.1\n2: done v0 text hello%20all at 1.2\nok\n1: done v2 num 2 at 3.1\n2: done v1 text closed at 2.2\nok\n1: done v0 text x at 5.1\n1: done empty at 6.1\nop: collected tmp at 8.0 removed 5 kept 0\n1: done v3 num 3 at 4.1\n2: done v1 text closed at 3.2\n",
        ),
    ] {
        let mut script = opened(alloc, size)?;
        let written = play(alloc, &mut script, input.as_bytes())?;
        assert_eq!(rt; written.as_slice(), output.as_bytes(), "{input}");
    }
    Ok(())
}

/// A key that is set, deleted and collected ten times: each time its slots are given back, and it begins anew.
#[test]
fn collects_a_key_again_and_again(rt: HostRuntime) -> Result<(), Fail> {
    let alloc = rt.alloc();
    let mut script = opened(alloc, EIGHT_TRIES)?;
    for drawn in [0u32, 4, 8, 12, 16, 20, 24, 28, 32, 36] {
        let written = play(
            alloc,
            &mut script,
            b"1 set a x\n1 del a\nop collect a\nshow 1 a\n",
        )?;
        let drawn = u64::from(drawn);
        let (set, deleted, collected) = (drawn + 1, drawn + 2, drawn + 4);
        let want = format!(in alloc;
            "1: done v0 text x at {set}.1\n1: done empty at {deleted}.1\nop: collected a at {collected}.0 removed 5 kept 0\n1 a: none\n"
        )?;
        assert_eq!(rt; written.as_slice(), want.as_bytes());
    }
    Ok(())
}

#[test]
fn shows_what_acceptors_keep(rt: HostRuntime) -> Result<(), Fail> {
    let alloc = rt.alloc();
    let mut script = opened(alloc, ONE_TRY)?;
    let input =
        b"1 add a 5\nshow 1 a\nshow 1 b\nshow 4 a\ncrash acceptor 1\nshow 1 a\nrestart acceptor 1\nshow 1 a\ncrash acceptor 9\nrestart acceptor 9\ncrash proposer 0\n";
    let want =
        b"1: done v0 num 5 at 1.1\n1 a: promise 2.1 accepted 1.1 era 0 v0 num 5\n1 b: none\n4 a: none\nok\n1 a: down\nok\n1 a: promise 2.1 accepted 1.1 era 0 v0 num 5\nnone\nnone\nok\n";
    let written = play(alloc, &mut script, input)?;
    assert_eq!(rt; written.as_slice(), want.as_slice());
    assert_eq!(rt; script.into_world().record().marks().len(), 7);
    Ok(())
}
