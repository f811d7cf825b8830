//! Vaults on a disk in memory. A life of a vault is a table of calls, and what each of them answers.

ghost use Rattle.std.specs.Prelude.{OnOk};
ghost use Rattle.cas_vault.specs.Vault.{VaultStands};

use crate::bytes::{clear_from, set, stand_at};
use Step::{Crashes, Draws, EntersEra, Forwards, RaisesAge, Reopens};
use cas_ballot::LAST_COUNTER;
use cas_disk::{Disk, FileDisk, Image, MemoryDisk, Trouble};
use cas_vault::{Vault, VaultError};
use std::alloc::{AllocError, Global};
use std::process::Abort;
use std::test::Fail;

const IMAGES: [Image; 4] = [Image::Old, Image::New, Image::Noise(1), Image::Noise(7)];

fn over(
    alloc: Global,
    bytes: &[u8],
    troubles: &[(u64, Trouble)],
    image: Image,
) -> Result<Vault<MemoryDisk>, AllocError> {
    let troubles = troubles.to_vec(alloc)?;
    let disk = MemoryDisk::new(alloc, bytes.to_vec(alloc)?, troubles, image);
    Ok(Vault::over(alloc, disk))
}

// The bytes of a vault's disk.
fn bytes_of(alloc: Global, vault: Vault<MemoryDisk>) -> Result<Vec<u8>, AllocError> {
    let disk = vault.into_disk();
    disk.bytes().to_vec(alloc)
}

// Draws so many numbers, and answers the last.
fn draw_last<V: Disk>(vault: &mut Vault<V>, count: u64) -> Result<u64, VaultError>
    requires { VaultStands V.tells V.seen V.may_leave vault.old }
    ensures { OnOk result (VaultStands V.tells V.seen V.may_leave vault.new) }
{
    let mut last = vault.counter();
    for _ in 0..count {
        last = vault.draw()?;
    }
    Ok(last)
}

// Reopens a vault, and does so again where the disk failed in that.
fn reopened<V: Disk>(vault: &mut Vault<V>) -> Result<(), VaultError>
    ensures { OnOk result (VaultStands V.tells V.seen V.may_leave vault.new) }
{
    match vault.reopen() {
        Err(VaultError::VaultFault) => vault.reopen(),
        answer => answer,
    }
}

/// A call of a vault in use. It answers the counter, where nothing else is said.
#[derive(Clone, Copy)]
enum Step {
    /// Draws so many numbers, and answers the last.
    Draws(u64),
    Forwards(u64),
    /// Answers the age.
    RaisesAge,
    /// Answers the era.
    EntersEra(u32),
    Reopens,
    /// Crashes, and is reopened.
    Crashes,
}

fn take<V: Disk>(vault: &mut Vault<V>, step: Step) -> Result<u64, VaultError>
    requires { VaultStands V.tells V.seen V.may_leave vault.old }
    ensures { OnOk result (VaultStands V.tells V.seen V.may_leave vault.new) }
{
    match step {
        Draws(count) => return draw_last(vault, count),
        Forwards(counter) => vault.forward(counter.min(1 << 48)),
        RaisesAge => return vault.raise_age(),
        EntersEra(number) => {
            vault.enter_era(number)?;
            return Ok(u64::from(vault.era()));
        }
        Reopens => reopened(vault)?,
        Crashes => {
            vault.crash();
            reopened(vault)?;
        }
    }
    Ok(vault.counter())
}

/// A life of a vault: whether it is started over no byte, or reopened over the disk that the life before left; its calls; one that
/// comes behind and is told that the counter or the age is spent; its counter, its age and its era then; and bytes of its disk from
/// some place on.
struct Life {
    is_new: bool,
    steps: &'static [(Step, u64)],
    spent: Option<Step>,
    shows: (u64, u64, u32),
    bytes: (usize, &'static [u8]),
}

// Whether each call answers what stands beside it.
fn follow<V: Disk>(vault: &mut Vault<V>, steps: &[(Step, u64)]) -> Result<bool, VaultError>
    requires { VaultStands V.tells V.seen V.may_leave vault.old }
    ensures { OnOk result (VaultStands V.tells V.seen V.may_leave vault.new) }
{
    let mut holds = true;
    for row in steps {
        let (step, want) = *row;
        holds = take(vault, step)? == want && holds;
    }
    Ok(holds)
}

fn live<V: Disk>(vault: &mut Vault<V>, life: &Life) -> Result<bool, VaultError> {
    if life.is_new {
        vault.start()?;
    } else {
        reopened(vault)?;
    }
    let held = follow(vault, life.steps)?;
    let spent = match life.spent {
        Some(step) => take(vault, step) == Err(VaultError::Spent),
        None => true,
    };
    let shown = (vault.counter(), vault.age(), vault.era());
    Ok(held && spent && shown == life.shows && vault.faults() == 0)
}

/// Lives one life after another. After the first the age's second byte becomes 1, in the frame that is current: that is the greatest
/// age.
fn live_all(rt: &impl Abort, alloc: Global, lives: &[Life]) -> Result<(), Fail> {
    let mut bytes = Vec::new(alloc);
    for (number, life) in lives.iter().enumerate() {
        let mut vault = over(alloc, &bytes, &[], Image::Old)?;
        let lived = live(&mut vault, life)?;
        bytes = bytes_of(alloc, vault)?;
        let shown = stand_at(&bytes, life.bytes.0, life.bytes.1);
        assert!(rt; lived && shown && bytes.len() == 1024, "life {number}");
        if life.is_new {
            set(&mut bytes, 512 + 4 + 18, 1);
        }
    }
    Ok(())
}

// The record is in the first frame, behind four bytes of the frame's own, of which the last is its length.
const RECORD: &[u8] = &[
    29, 3, 67, 65, 83, 86, 76, 84, 48, 49, 0, 0, 0, 0, 0, 0, 0, 100, 0, 1, 0, 0, 0, 0, 0, 0, 0, 0,
    1, 2,
];

const RECORDED: [Life; 3] = [
    Life {
        is_new: true,
        steps: &[(Draws(1), 1)],
        spent: None,
        shows: (1, 0, 0),
        bytes: (0, &[]),
    },
    Life {
        is_new: false,
        steps: &[(EntersEra(258), 258)],
        spent: None,
        shows: (100, LAST_COUNTER, 258),
        bytes: (3, RECORD),
    },
    Life {
        is_new: false,
        steps: &[],
        spent: None,
        shows: (100, LAST_COUNTER, 258),
        bytes: (3, RECORD),
    },
];

#[test]
fn a_record_has_its_bytes(rt: HostRuntime) -> Result<(), Fail> {
    live_all(&rt, rt.alloc(), &RECORDED)
}

const BOUNDED: [Life; 1] = [Life {
    is_new: true,
    steps: &[
        (Draws(1), 1),
        (Crashes, 100),
        (Draws(1), 101),
        (Forwards(7), 101),
        (Forwards(250), 250),
        (RaisesAge, 1),
        (EntersEra(5), 5),
        (Reopens, 250),
    ],
    spent: None,
    shows: (250, 1, 5),
    bytes: (0, &[]),
}];

#[test]
fn a_counter_goes_on_from_the_bound(rt: HostRuntime) -> Result<(), Fail> {
    live_all(&rt, rt.alloc(), &BOUNDED)
}

const ENDED: [Life; 2] = [
    Life {
        is_new: true,
        steps: &[
            (Forwards(LAST_COUNTER - 1), LAST_COUNTER - 1),
            (Draws(1), LAST_COUNTER),
        ],
        spent: Some(Draws(1)),
        shows: (LAST_COUNTER, 0, 0),
        bytes: (0, &[]),
    },
    Life {
        is_new: false,
        steps: &[],
        spent: Some(RaisesAge),
        shows: (LAST_COUNTER, LAST_COUNTER, 0),
        bytes: (0, &[]),
    },
];

#[test]
fn a_counter_and_an_age_have_an_end(rt: HostRuntime) -> Result<(), Fail> {
    live_all(&rt, rt.alloc(), &ENDED)
}

// Starts a vault and draws so many numbers, of which the last is answered.
fn begin<V: Disk>(vault: &mut Vault<V>, count: u64) -> Result<u64, VaultError> {
    vault.start()?;
    draw_last(vault, count)
}

// The bytes of the disk of a new vault that has drawn so many numbers.
fn drawn(alloc: Global, count: u64) -> Result<Vec<u8>, Fail> {
    let mut vault = over(alloc, &[], &[], Image::Old)?;
    begin(&mut vault, count)?;
    Ok(bytes_of(alloc, vault)?)
}

#[test]
fn a_bound_is_written_once_for_a_hundred_numbers(rt: HostRuntime) -> Result<(), Fail> {
    let alloc = rt.alloc();
    // The numbers drawn; where the cell's current frame begins; its first bytes, of which the second counts the writes; and the
    // bound's last byte.
    for (count, frame, front, bound) in [
        (0, 0, [1, 0], [0]),
        (1, 512, [1, 1], [100]),
        (2, 512, [1, 1], [100]),
        (100, 512, [1, 1], [100]),
        (101, 0, [1, 2], [200]),
        (200, 0, [1, 2], [200]),
        (201, 512, [1, 0], [44]),
    ] {
        let mut vault = over(alloc, &[], &[], Image::Old)?;
        let shown = (begin(&mut vault, count)?, vault.counter());
        let bytes = bytes_of(alloc, vault)?;
        let written = stand_at(&bytes, frame, &front) && stand_at(&bytes, frame + 20, &bound);
        assert!(rt;
            shown == (count, count) && written && bytes.len() == 1024,
            "{count}"
        );
    }
    Ok(())
}

// Starts a vault whose disk stops in that, and once more. Whether the first start is told of it, and one fault is counted.
fn starts_again<V: Disk>(vault: &mut Vault<V>) -> Result<bool, VaultError> {
    let stopped = vault.start() == Err(VaultError::VaultFault);
    let last = begin(vault, 2)?;
    Ok(stopped && last == 2 && vault.faults() == 1)
}

#[test]
fn a_start_crashes_a_disk_that_stopped(rt: HostRuntime) -> Result<(), Fail> {
    for call in 1..5 {
        let troubles = [(call, Trouble::Stop)];
        let mut vault = over(rt.alloc(), &[], &troubles, Image::Noise(call))?;
        assert!(rt; starts_again(&mut vault)?, "{call}");
    }
    Ok(())
}

// A change of a disk's bytes.
#[derive(Clone, Copy, Debug)]
enum Patch {
    // This byte at that place.
    Byte(usize, u8),
    // These bytes at those places of the record, and this length of it. The record begins at 4.
    Record(&'static [(u8, u8)], u8),
    // Only so many bytes are left.
    Cut(usize),
}

fn set_record(bytes: &mut [u8], changes: &[(u8, u8)], length: u8) {
    set(bytes, 3, length);
    for (place, value) in changes {
        set(bytes, 4 + usize::from(*place), *value);
    }
    clear_from(bytes, 4 + usize::from(length));
}

// What a vault over a disk of these bytes is told when it is reopened.
fn told_over(alloc: Global, bytes: &[u8]) -> Result<Result<(), VaultError>, Fail> {
    let mut vault = over(alloc, bytes, &[], Image::Old)?;
    Ok(vault.reopen())
}

// A new vault has drawn so many numbers. Of each row its disk is changed so, and the vault is told that place, or nothing, when it is
// reopened.
fn tell(
    rt: &impl Abort,
    alloc: Global,
    count: u64,
    rows: &[(Patch, Option<u64>)],
) -> Result<(), Fail> {
    for (patch, want) in rows {
        let mut bytes = drawn(alloc, count)?;
        match *patch {
            Patch::Byte(place, value) => set(&mut bytes, place, value),
            Patch::Record(changes, length) => set_record(&mut bytes, changes, length),
            Patch::Cut(length) => bytes.truncate(length),
        }
        let answer = match *want {
            Some(at) => Err(VaultError::Foreign { at }),
            None => Ok(()),
        };
        assert_eq!(rt; told_over(alloc, &bytes)?, answer, "{patch:?}");
    }
    Ok(())
}

const PATCHED_RECORDS: [(Patch, Option<u64>); 17] = [
    // the head
    (Patch::Record(&[(0, 2)], 29), Some(4)),
    (Patch::Record(&[(8, 50)], 29), Some(12)),
    (Patch::Record(&[(8, 50), (1, 0)], 29), Some(5)),
    // the bound, and then the age
    (Patch::Record(&[(9, 1)], 29), Some(13)),
    (Patch::Record(&[(10, 2)], 29), Some(14)),
    (Patch::Record(&[(10, 1), (11, 1)], 29), Some(15)),
    (Patch::Record(&[(10, 1), (16, 1)], 29), Some(20)),
    (Patch::Record(&[(17, 1)], 29), Some(21)),
    (Patch::Record(&[(18, 2)], 29), Some(22)),
    (Patch::Record(&[(18, 1), (24, 9)], 29), Some(28)),
    // an end that comes too early, also behind a wrong byte; a frame of no byte is told by its length
    (Patch::Record(&[], 0), Some(3)),
    (Patch::Record(&[], 8), Some(12)),
    (Patch::Record(&[], 28), Some(32)),
    (Patch::Record(&[(9, 1)], 12), Some(13)),
    // bytes that are left over
    (Patch::Record(&[], 30), Some(33)),
    (Patch::Record(&[(24, 1)], 31), Some(33)),
    // nothing is changed
    (Patch::Record(&[], 29), None),
];

#[test]
fn the_first_wrong_byte_of_a_record_is_told(rt: HostRuntime) -> Result<(), Fail> {
    tell(&rt, rt.alloc(), 0, &PATCHED_RECORDS)
}

// Both frames are open, the second is current.
const PATCHED_BYTES: [(Patch, Option<u64>); 14] = [
    (Patch::Byte(1, 3), Some(1)),
    (Patch::Byte(512, 0), None),
    (Patch::Byte(513, 0), Some(513)),
    (Patch::Byte(516, 1), Some(516)),
    (Patch::Byte(516, 2), Some(516)),
    (Patch::Byte(525, 1), Some(525)),
    (Patch::Byte(526, 2), Some(526)),
    (Patch::Byte(532, 0), None),
    (Patch::Byte(544, 7), None),
    (Patch::Byte(545, 1), Some(545)),
    (Patch::Byte(4, 1), None),
    (Patch::Cut(0), Some(0)),
    (Patch::Cut(1), Some(1)),
    (Patch::Cut(1023), Some(1023)),
];

#[test]
fn a_foreign_byte_is_told_by_its_place(rt: HostRuntime) -> Result<(), Fail> {
    tell(&rt, rt.alloc(), 1, &PATCHED_BYTES)
}

// Draws a number, which has to be above the last, and becomes it.
fn draw_above<V: Disk>(
    rt: &impl Abort,
    vault: &mut Vault<V>,
    last: &mut u64,
) -> Result<(), VaultError>
    requires { VaultStands V.tells V.seen V.may_leave vault.old }
    ensures { OnOk result (VaultStands V.tells V.seen V.may_leave vault.new) }
{
    let number = vault.draw()?;
    assert!(rt; number > *last);
    *last = number;
    Ok(())
}

// Draws numbers, raises the age and goes into another era.
fn work<V: Disk>(rt: &impl Abort, vault: &mut Vault<V>, last: &mut u64) -> Result<(), VaultError>
    requires { VaultStands V.tells V.seen V.may_leave vault.old }
{
    draw_above(rt, vault, last)?;
    draw_above(rt, vault, last)?;
    vault.forward((*last).min(1000) + 150);
    vault.raise_age()?;
    vault.enter_era(1)?;
    draw_above(rt, vault, last)
}

// Works with a vault whose disk may stop in that, and once more when it is reopened. Whether one fault is counted where the disk stopped.
fn work_twice<V: Disk>(rt: &impl Abort, vault: &mut Vault<V>) -> Result<bool, VaultError> {
    vault.start()?;
    let mut last = 0;
    let counted = work(rt, vault, &mut last).is_ok() || vault.faults() == 1;
    reopened(vault)?;
    work(rt, vault, &mut last)?;
    Ok(counted)
}

#[test]
fn a_stop_at_any_call_repeats_no_number(rt: HostRuntime) -> Result<(), Fail> {
    for image in IMAGES {
        for stop in 7..30 {
            let mut vault = over(rt.alloc(), &[], &[(stop, Trouble::Stop)], image)?;
            assert!(rt; work_twice(&rt, &mut vault)?, "{image:?} {stop}");
        }
    }
    Ok(())
}

#[test]
fn no_file_fails_each_call(rt: HostRuntime) {
    let mut vault = Vault::over(rt.alloc(), FileDisk::over(None));
    let told = (vault.start(), vault.reopen(), vault.faults());
    let fault = Err(VaultError::VaultFault);
    assert_eq!(rt; told, (fault, fault, 2));
}
