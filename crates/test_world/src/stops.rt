//! Worked plays over shelves on disks in memory, of which one stops.

use crate::rows::{Stop, disk, play_over};
use crate::steps::Step::{Add, BeginAdd, Count, Net, Turns};
use cas_disk::{Image, MemoryDisk};
use cas_disk_shelf::DiskShelf;
use cas_fate::{Leg, Verdict};
use std::alloc::{AllocError, Global};
use std::test::Fail;

/// Shelves on disks, of which that of acceptor 1 stops.
fn shelves(alloc: Global, stop: Stop) -> Result<Vec<DiskShelf<MemoryDisk>>, AllocError> {
    let mut shelves = Vec::new(alloc);
    for place in 0..64usize {
        let disk = disk(alloc, place, Some(stop))?;
        shelves.push(DiskShelf::over(alloc, disk))?;
    }
    Ok(shelves)
}

/// A shelf makes six calls of its disk at its opening, ten as it takes its first slot, four as that is changed first, and then six: the
/// last two open the new slot, which a crash leaves closed where none of the write is left. Just acceptor 1 is asked to accept the second
/// change, and the other proposer reads it and acceptor 2.
#[test]
fn reads_what_the_stop_of_a_shelf_left(rt: HostRuntime) -> Result<(), Fail> {
    let steps = [
        Add(1, "a", 5),
        Net(Leg::Accept, Some(2), Verdict::Lose),
        Net(Leg::Accept, Some(3), Verdict::Lose),
        BeginAdd(1, "a", 2),
        Turns(1),
        Count(1),
    ];
    let lines = "restart acceptor 1\nshow 1 a\ncrash acceptor 3\n2 get a\n";
    let before =
        "1: done v0 num 5 at 1.1\nok\nok\nok\n1: accept 1 accept 2 accept 3\n1: unsettled short 0 2\nok\n1 a: promise 2.1 accepted 1.1 era 0 v0 num 5\nok\n2: done v0 num 5 at 3.2\n";
    let after =
        "1: done v0 num 5 at 1.1\nok\nok\nok\n1: accept 1 accept 2 accept 3\n1: unsettled short 0 2\nok\n1 a: promise 3.1 accepted 2.1 era 0 v1 num 7\nok\n2: done v1 num 7 at 4.2\n";
    for (image, from, to, want) in [
        (Image::Old, 21, 26, before),
        (Image::New, 21, 24, before),
        (Image::New, 25, 26, after),
        (Image::Noise(7), 21, 26, before),
    ] {
        for call in from..=to {
            let stop = Stop { call, image };
            let shelves = shelves(rt.alloc(), stop)?;
            let written = play_over(rt.alloc(), 3, shelves, None, &steps, lines)?;
            assert_eq!(rt; written.as_str(), want, "at call {call}");
        }
    }
    Ok(())
}
