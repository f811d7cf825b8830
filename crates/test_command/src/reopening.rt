//! Stores that go on from what stood on their disks when the run before ended or stopped.

use crate::rows::{Disks, FINE, Finished, NONE_ODD, Odd, Outside, run_over};
use cas_disk::{Image, Trouble};
use cas_fate::Links;
use cas_store::VAULTS;
use casreg_command::Status;
use std::alloc::AllocError;
use std::sync::Wait;
use std::test::Fail;
use std::thread::Threads;

const TWO: &str = "script --proposers 2";

/// Runs the words over the input and these disks. Every frame is delivered.
fn go_on<R: AllocGlobal + Threads + Wait + Sync>(
    rt: &R,
    words: &str,
    input: &str,
    disks: Disks,
) -> Result<(Finished, Disks), AllocError> {
    let mut fates = Vec::new(rt.alloc());
    for _caller in 0..VAULTS {
        fates.push(Links::new())?;
    }
    run_over(rt, words, input.as_bytes(), FINE, &mut fates, disks)
}

/// Two runs over the same disks: the words, the lines and the answers of each.
#[test]
fn a_second_run_goes_on(rt: HostRuntime) -> Result<(), Fail> {
    for (words, lines, answers, words_then, lines_then, answers_then) in [
        (
            TWO,
            "1 add a 5\n",
            "1: done v0 num 5 at 1.1\n",
            TWO,
            "1 add a 2\n",
            "1: done v1 num 7 at 101.1\n",
        ),
        (
            TWO,
            "1 add a 5\n",
            "1: done v0 num 5 at 1.1\n",
            TWO,
            "2 get a\n",
            "2: done v0 num 5 at 3.2\n",
        ),
        (
            "script --proposers 2 --tries 2",
            "1 add a 5\nop join 4\n",
            "1: done v0 num 5 at 1.1\nop: joined 4 era 2 rescanned 1\n",
            "script --proposers 2 --acceptors 4",
            "1 get a\nop join 4\n",
            "1: done v0 num 5 at 101.1\nop: already in\n",
        ),
        (
            "script --proposers 2 --tries 2",
            "1 set a x\n1 del a\nop collect a\n1 add a 9\n",
            "1: done v0 text x at 1.1\n1: done empty at 2.1\nop: collected a at 4.0 removed 3 kept 0\n1: done v0 num 9 at 5.1\n",
            TWO,
            "1 get a\n",
            "1: done v0 num 9 at 101.1\n",
        ),
    ] {
        let disks = Disks::new(rt.alloc(), &NONE_ODD, &NONE_ODD)?;
        let (first, disks) = go_on(&rt, words, lines, disks)?;
        assert_eq!(rt; first.status, Status::Ok, "{lines}");
        assert_eq!(rt; first.written.as_slice(), answers.as_bytes(), "{lines}");
        let (second, _disks) = go_on(&rt, words_then, lines_then, disks)?;
        assert_eq!(rt; second.status, Status::Ok, "{lines_then}");
        assert_eq!(rt;
            second.written.as_slice(),
            answers_then.as_bytes(),
            "{lines_then}"
        );
    }
    Ok(())
}

/// A run over disks of which one member's was lost.
#[test]
fn a_lost_disk_is_told(rt: HostRuntime) -> Result<(), Fail> {
    let disks = Disks::new(rt.alloc(), &NONE_ODD, &NONE_ODD)?;
    let (_first, disks) = go_on(&rt, TWO, "1 add a 5\n", disks)?;
    let (second, disks) = go_on(&rt, "script --acceptors 4", "1 get a\n", disks)?;
    assert_eq!(rt; second.status, Status::LostDisk { disk: 4 });
    let (third, _disks) = go_on(&rt, TWO, "1 get a\n", disks)?;
    assert_eq!(rt; third.status, Status::Ok);
    assert_eq!(rt;
        third.written.as_slice(),
        b"1: done v0 num 5 at 101.1\n".as_slice()
    );
    Ok(())
}

/// The second opening stops at each call of a member's disk, with each image. A third one goes on, and nothing is lost.
#[test]
fn an_opening_may_stop_anywhere(rt: HostRuntime) -> Result<(), Fail> {
    let alloc = rt.alloc();
    let lines = "net accept 2 lose\n1 add a 5\n1 del b\n2 set c x\n";
    let answers = "1: done v1 num 6 at ";
    let disks = Disks::new(alloc, &NONE_ODD, &NONE_ODD)?;
    let (first, left) = go_on(&rt, TWO, lines, disks)?;
    assert_eq!(rt; first.status, Status::Ok);
    for image in [Image::Old, Image::New, Image::Noise(7)] {
        for call in 1..60 {
            let odd = Odd {
                number: 2,
                bytes: b"",
                call,
                trouble: Trouble::Stop,
                image,
            };
            let stopping = left.copied(alloc, &odd, &NONE_ODD)?;
            let (second, stopped) = go_on(&rt, TWO, "", stopping)?;
            if second.status != Status::Ok {
                assert_eq!(rt;
                    second.status,
                    Status::DiskFault { disk: 2 },
                    "at call {call}"
                );
            }
            let again = stopped.crashed(alloc)?;
            let (third, _disks) = go_on(&rt, TWO, "1 add a 1\n", again)?;
            assert_eq!(rt; third.status, Status::Ok, "at call {call}");
            assert!(rt;
                third.written.starts_with(answers.as_bytes()),
                "at call {call}"
            );
        }
    }
    Ok(())
}
