//! Disks in memory and in a file. A run is a table of steps, and what each of them is told.

use Step::{Crashes, Faults, ForgetsPast, Fronts, Measures, Puts, Reads, Syncs, WritesFront};
use cas_disk::{Disk, DiskFault, FileDisk, Image, MemoryDisk, Trouble};
use std::alloc::Global;
use std::fs::{File, OpenOptions};
use std::process::Abort;
use std::test::Fail;

/// What a call is told that answers nothing else.
type Told = Result<(), DiskFault>;

const FAILED: Told = Err(DiskFault::Failed);

/// A step, and what it is told.
enum Step {
    /// These bytes are written at this place, or at the end where that comes first.
    Puts(u64, &'static [u8], Told),
    /// These bytes are written at the front, and no length is asked for.
    WritesFront(&'static [u8], Told),
    Syncs(Told),
    /// The length.
    Measures(Result<u64, DiskFault>),
    /// So many of two bytes are read from there.
    Reads(u64, Result<usize, DiskFault>),
    /// The first eight bytes.
    Fronts(&'static [u8]),
    Crashes,
    ForgetsPast,
    /// How often the disk has failed.
    Faults(u64),
}

fn put<D: Disk>(disk: &mut D, at: u64, bytes: &[u8]) -> Told {
    let at = disk.len()?.min(at);
    disk.write_at(at, bytes)
}

fn fronts<D: Disk>(disk: &mut D, want: &[u8]) -> bool {
    let mut buf = [0u8; 8];
    match disk.read(0, &mut buf) {
        Ok(count) => buf.get(..count) == Some(want),
        Err(_) => false,
    }
}

/// Takes the step, and answers whether it is told what it should be.
fn is_told<D: Disk>(disk: &mut D, step: &Step) -> bool {
    match *step {
        Puts(at, bytes, told) => put(disk, at, bytes) == told,
        WritesFront(bytes, told) => disk.write_at(0, bytes) == told,
        Syncs(told) => disk.sync() == told,
        Measures(told) => disk.len() == told,
        Reads(at, told) => {
            let mut buf = [0u8; 2];
            disk.read(at, &mut buf) == told
        }
        Fronts(want) => fronts(disk, want),
        Crashes => {
            disk.crash();
            true
        }
        ForgetsPast => {
            disk.forget_past();
            true
        }
        Faults(count) => disk.faults() == count,
    }
}

/// Takes the steps, and answers the place of the first that is told something else.
fn first_wrong<D: Disk>(disk: &mut D, steps: &[Step]) -> Option<usize> {
    for (place, step) in steps.iter().enumerate() {
        if !is_told(disk, step) {
            return Some(place);
        }
    }
    None
}

/// A run on a disk in memory that holds 1, 2 and 3, and its bytes at the end.
struct Run {
    image: Image,
    troubles: &'static [(u64, Trouble)],
    steps: &'static [Step],
    bytes: &'static [u8],
}

fn memory(
    alloc: Global,
    troubles: &[(u64, Trouble)],
    image: Image,
) -> Result<MemoryDisk, DiskFault> {
    let bytes = [1u8, 2, 3].to_vec(alloc)?;
    Ok(MemoryDisk::new(alloc, bytes, troubles.to_vec(alloc)?, image))
}

fn plays(rt: &impl Abort, alloc: Global, runs: &[Run]) -> Result<(), Fail> {
    for (number, run) in runs.iter().enumerate() {
        let mut disk = memory(alloc, run.troubles, run.image)?;
        let wrong = first_wrong(&mut disk, run.steps);
        assert!(rt;
            wrong == None && disk.bytes() == run.bytes,
            "run {number}, step {wrong:?}"
        );
    }
    Ok(())
}

const OLD: &[u8] = &[1, 2, 3];

const NEW: &[u8] = &[1, 7, 8, 9];

const PUTS: Step = Puts(1, &[7, 8, 9], Ok(()));

const CRASHED: [Run; 4] = [
    Run {
        image: Image::Old,
        troubles: &[],
        steps: &[PUTS, Fronts(NEW), Crashes, Faults(0)],
        bytes: OLD,
    },
    Run {
        image: Image::New,
        troubles: &[],
        steps: &[PUTS, Fronts(NEW), Crashes, Faults(0)],
        bytes: NEW,
    },
    Run {
        image: Image::Old,
        troubles: &[],
        steps: &[PUTS, Syncs(Ok(())), Fronts(NEW), Crashes, Faults(0)],
        bytes: NEW,
    },
    Run {
        image: Image::Noise(5),
        troubles: &[],
        steps: &[PUTS, Syncs(Ok(())), Fronts(NEW), Crashes, Faults(0)],
        bytes: NEW,
    },
];

#[test]
fn a_crash_leaves_its_image(rt: HostRuntime) -> Result<(), Fail> {
    plays(&rt, rt.alloc(), &CRASHED)
}

const STOPS: &[(u64, Trouble)] = &[(2, Trouble::Stop)];

const FAILS: &[(u64, Trouble)] = &[(2, Trouble::Fail)];

/// The length is the first call, and the write the second.
const STOPPED: [Run; 5] = [
    Run {
        image: Image::Old,
        troubles: STOPS,
        steps: &[Puts(1, &[7, 8, 9], FAILED), Crashes, Faults(1)],
        bytes: OLD,
    },
    Run {
        image: Image::New,
        troubles: STOPS,
        steps: &[Puts(1, &[7, 8, 9], FAILED), Crashes, Faults(1)],
        bytes: NEW,
    },
    Run {
        image: Image::Old,
        troubles: FAILS,
        steps: &[Puts(1, &[7, 8, 9], FAILED), Crashes, Faults(1)],
        bytes: OLD,
    },
    Run {
        image: Image::New,
        troubles: FAILS,
        steps: &[Puts(1, &[7, 8, 9], FAILED), Crashes, Faults(1)],
        bytes: OLD,
    },
    Run {
        image: Image::Noise(5),
        troubles: FAILS,
        steps: &[Puts(1, &[7, 8, 9], FAILED), Crashes, Faults(1)],
        bytes: OLD,
    },
];

#[test]
fn a_disk_that_stops_at_a_write_leaves_its_image(rt: HostRuntime) -> Result<(), Fail> {
    plays(&rt, rt.alloc(), &STOPPED)
}

/// What a crash leaves of the second byte, and `None` where it leaves another length or other bytes beside it.
fn second_byte(disk: &mut MemoryDisk) -> Option<u8> {
    disk.crash();
    match *disk.bytes() {
        [1, byte, 3] => Some(byte),
        _ => None,
    }
}

const TORN: [Step; 2] = [Puts(1, &[7], FAILED), Puts(0, &[9], FAILED)];

#[test]
fn a_write_is_torn_where_the_disk_stops_at_it(rt: HostRuntime) -> Result<(), Fail> {
    let mut differ = false;
    for seed in 0..8 {
        let mut disk = memory(rt.alloc(), STOPS, Image::Noise(seed))?;
        let wrong = first_wrong(&mut disk, &TORN);
        let byte = second_byte(&mut disk);
        assert!(rt; wrong == None && byte.is_some(), "seed {seed}");
        differ = differ || byte != Some(2) && byte != Some(7);
    }
    assert!(rt; differ);
    Ok(())
}

const FORGOTTEN: [Run; 2] = [
    Run {
        image: Image::Old,
        troubles: &[],
        steps: &[
            Puts(0, &[4], Ok(())),
            Syncs(Ok(())),
            Puts(1, &[5], Ok(())),
            ForgetsPast,
        ],
        bytes: &[4, 5, 3],
    },
    Run {
        image: Image::Old,
        troubles: &[],
        steps: &[
            Puts(0, &[4], Ok(())),
            Syncs(Ok(())),
            Puts(1, &[5], Ok(())),
            ForgetsPast,
            Crashes,
        ],
        bytes: &[4, 2, 3],
    },
];

#[test]
fn what_is_pending_outlasts_a_forgotten_past(rt: HostRuntime) -> Result<(), Fail> {
    plays(&rt, rt.alloc(), &FORGOTTEN)
}

/// What a crash leaves of the second and the fourth byte of five, and `None` where it leaves another length or other bytes beside them.
fn two_bytes(disk: &mut MemoryDisk) -> Option<(u8, u8)> {
    disk.crash();
    match *disk.bytes() {
        [1, second, 3, fourth, _] => Some((second, fourth)),
        _ => None,
    }
}

const NOISED: [Step; 2] = [Puts(1, &[7], Ok(())), Puts(9, &[8, 9], Ok(()))];

#[test]
fn noise_stays_in_its_ranges(rt: HostRuntime) -> Result<(), Fail> {
    let mut differ = false;
    for seed in 0..8 {
        let mut disk = memory(rt.alloc(), &[], Image::Noise(seed))?;
        let wrong = first_wrong(&mut disk, &NOISED);
        let bytes = two_bytes(&mut disk);
        assert!(rt; wrong == None && bytes.is_some(), "seed {seed}");
        differ = differ || bytes != Some((7, 8));
    }
    assert!(rt; differ);
    Ok(())
}

/// The put is the third and the fourth call.
const TROUBLED: [Run; 1] = [Run {
    image: Image::New,
    troubles: &[(2, Trouble::Fail), (5, Trouble::Stop)],
    steps: &[
        Measures(Ok(3)),
        Syncs(FAILED),
        Faults(1),
        Puts(0, &[4], Ok(())),
        Measures(Err(DiskFault::Failed)),
        Faults(2),
        Measures(Err(DiskFault::Failed)),
        Faults(3),
        Crashes,
        Fronts(&[4, 2, 3]),
    ],
    bytes: &[4, 2, 3],
}];

#[test]
fn troubles_come_by_number(rt: HostRuntime) -> Result<(), Fail> {
    plays(&rt, rt.alloc(), &TROUBLED)
}

const READ: [Run; 1] = [Run {
    image: Image::Old,
    troubles: &[],
    steps: &[
        Reads(0, Ok(2)),
        Reads(1, Ok(2)),
        Reads(2, Ok(1)),
        Reads(3, Ok(0)),
        Reads(u64::MAX, Ok(0)),
    ],
    bytes: OLD,
}];

#[test]
fn a_read_ends_with_the_disk(rt: HostRuntime) -> Result<(), Fail> {
    plays(&rt, rt.alloc(), &READ)
}

const WRITTEN: [Step; 4] = [
    Puts(0, &[1, 2, 3], Ok(())),
    Puts(2, &[7, 8], Ok(())),
    Syncs(Ok(())),
    Crashes,
];

const REOPENED: [Step; 3] = [Measures(Ok(4)), Fronts(&[1, 2, 7, 8]), Faults(0)];

#[test]
fn a_file_keeps_its_bytes(rt: HostRuntime) -> Result<(), Fail> {
    let path = "cas_disk_file_test";
    let file = OpenOptions::new()
        .read(true)
        .write(true)
        .create(true)
        .truncate(true)
        .open(&rt, path)?;
    let written = first_wrong(&mut FileDisk::over(Some(file)), &WRITTEN);
    let again = OpenOptions::new().read(true).write(true).open(&rt, path)?;
    let reopened = first_wrong(&mut FileDisk::over(Some(again)), &REOPENED);
    assert_eq!(rt; (written, reopened), (None, None));
    std::fs::remove_file(&rt, path)?;
    Ok(())
}

const NO_FILE: [Step; 6] = [
    Measures(Err(DiskFault::Failed)),
    Reads(0, Err(DiskFault::Failed)),
    WritesFront(&[1], FAILED),
    Syncs(FAILED),
    Crashes,
    Faults(4),
];

#[test]
fn no_file_fails_each_call(rt: HostRuntime) {
    let wrong = first_wrong(&mut FileDisk::over(None), &NO_FILE);
    assert_eq!(rt; wrong, None);
}

const STAYS_FAILED: [Step; 8] = [
    Measures(Ok(3)),
    WritesFront(&[1], FAILED),
    Measures(Err(DiskFault::Failed)),
    Reads(0, Err(DiskFault::Failed)),
    Syncs(FAILED),
    Crashes,
    WritesFront(&[1], FAILED),
    Faults(5),
];

/// A file that is open to read alone fails as it is written, and then at each call.
#[test]
fn a_file_that_failed_stays_failed(rt: HostRuntime) -> Result<(), Fail> {
    let path = "cas_disk_failed_file_test";
    std::fs::write(&rt, path, OLD)?;
    let wrong = first_wrong(
        &mut FileDisk::over(Some(File::open(&rt, path)?)),
        &STAYS_FAILED,
    );
    std::fs::remove_file(&rt, path)?;
    assert_eq!(rt; wrong, None);
    Ok(())
}
