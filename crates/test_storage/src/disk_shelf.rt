//! Shelves on a disk in memory. What makes a shelf hands on the bytes of its disk, since each early return beside a shelf lets all its
//! tables go.

ghost use Rattle.std.specs.Prelude.{◌≤◌, IfOk, OnOk};
ghost use Rattle.cas_ballot.specs.Ballot.{FitsBallot};
ghost use Rattle.cas_slot.specs.Limits.{SlotBallotsFit};

use crate::bytes::{clear_from, set, stand_at};
use cas_ballot::Ballot;
use cas_change::{Body, Key, State, Text};
use cas_disk::{FileDisk, Image, MemoryDisk, Trouble};
use cas_disk_shelf::DiskShelf;
use cas_slot::{Accepted, Ages, MapShelf, Shelf, ShelfFault, Slot};
use std::alloc::{AllocError, Global};
use std::process::Abort;
use std::test::Fail;

pub const IMAGES: [Image; 4] = [Image::Old, Image::New, Image::Noise(1), Image::Noise(7)];

pub fn over(
    alloc: Global,
    bytes: &[u8],
    troubles: &[(u64, Trouble)],
    image: Image,
) -> Result<DiskShelf<MemoryDisk>, Fail> {
    let troubles = troubles.to_vec(alloc)?;
    let disk = MemoryDisk::new(alloc, bytes.to_vec(alloc)?, troubles, image);
    Ok(DiskShelf::over(alloc, disk))
}

fn key(alloc: Global, n: u64) -> Result<Key, Fail> {
    let text = format!(in alloc; "k{n}")?;
    Ok(Key::read(alloc, text.as_bytes())?)
}

const fn ballot(counter: u32, proposer: u8) -> Ballot
    requires { proposer ≤ 16 }
    ensures { FitsBallot result }
{
    Ballot {
        counter: counter as u64,
        proposer,
    }
}

// A slot that accepted -5 at version 3, in era 7.
pub fn slot_at(counter: u32) -> Slot
    ensures { SlotBallotsFit result }
{
    Slot {
        promise: ballot(2, 1),
        accepted: Some(Accepted {
            ballot: ballot(counter, 16),
            era: 7,
            state: State::Held {
                version: 3,
                body: Body::Number(-5),
            },
        }),
    }
}

// Reopens a shelf, and does so again where the disk failed in that.
pub fn reopened<S: Shelf>(shelf: &mut S) -> Result<(), ShelfFault>
    ensures { OnOk result (S.is_up shelf.new) }
{
    match shelf.reopen() {
        Err(ShelfFault::DiskFault) => shelf.reopen(),
        answer => answer,
    }
}

// Starts a shelf and puts so many keys.
fn fill<S: Shelf>(alloc: Global, shelf: &mut S, count: u32) -> Result<(), Fail>
    ensures { OnOk result (S.is_up shelf.new) }
{
    shelf.start()?;
    for n in 0..count {
        shelf.put(&key(alloc, u64::from(n))?, slot_at(n))?;
    }
    Ok(())
}

// The bytes of a shelf's disk.
pub fn bytes_of(alloc: Global, shelf: DiskShelf<MemoryDisk>) -> Result<Vec<u8>, AllocError> {
    let disk = shelf.into_disk();
    disk.bytes().to_vec(alloc)
}

// The bytes of a disk of a new shelf with so many keys.
fn filled(alloc: Global, count: u32) -> Result<Vec<u8>, Fail> {
    let mut shelf = over(alloc, &[], &[], Image::Old)?;
    fill(alloc, &mut shelf, count)?;
    Ok(bytes_of(alloc, shelf)?)
}

// What a call does with a shelf over the disk that the one before left.
#[derive(Clone, Copy)]
enum Life {
    // Starts it, and puts a slot at the key.
    Puts,
    // Reopens it, which has that slot, and drops it.
    Drops,
    // Reopens it, which has no slot.
    FindsNone,
    // Reopens it, and raises the ages.
    Raises,
    // Reopens it, which has these ages.
    FindsRaised,
}

// Whether all is found as it should be.
fn lives<S: Shelf>(shelf: &mut S, life: Life, key: &Key) -> Result<bool, ShelfFault> {
    let mut ages = Ages::ZERO;
    ages.0[16] = 258;
    match life {
        Life::Puts => {
            shelf.start()?;
            shelf.put(key, slot_at(1))?;
            Ok(true)
        }
        Life::Drops => {
            reopened(shelf)?;
            let found = shelf.get(key)? == Some(slot_at(1));
            shelf.drop_slot(key)?;
            Ok(found)
        }
        Life::FindsNone => {
            reopened(shelf)?;
            Ok(shelf.get(key)? == None)
        }
        Life::Raises => {
            reopened(shelf)?;
            shelf.raise_ages(&ages)?;
            Ok(true)
        }
        Life::FindsRaised => {
            reopened(shelf)?;
            Ok(shelf.ages() == ages)
        }
    }
}

// Lives one life after another over a disk of these bytes. After each of them the disk has those bytes that are given from there on.
fn live(
    rt: &impl Abort,
    alloc: Global,
    mut bytes: Vec<u8>,
    rows: &[(Life, usize, &[u8])],
) -> Result<Vec<u8>, Fail> {
    let key = Key::read(alloc, b"a")?;
    for (number, (life, at, want)) in rows.iter().enumerate() {
        let mut shelf = over(alloc, &bytes, &[], Image::Old)?;
        let found = lives(&mut shelf, *life, &key)?;
        bytes = bytes_of(alloc, shelf)?;
        assert!(rt; found && stand_at(&bytes, *at, want), "life {number}");
    }
    Ok(bytes)
}

// The slot is in the first frame of cell 1, behind four bytes of the frame's own, of which the last two are its length, and then, in the
// second frame, a cell that holds no slot.
const PAYLOADS: [(Life, usize, &[u8]); 3] = [
    (
        Life::Puts,
        1027,
        &[
            43, 1, 1, 0x61, 0, 0, 0, 0, 0, 0, 0, 2, 1, 1, 0, 0, 0, 0, 0, 0, 0, 1, 16, 0, 0, 0, 7,
            1, 0, 0, 0, 0, 0, 0, 0, 3, 255, 255, 255, 255, 255, 255, 255, 251,
        ],
    ),
    (Life::Drops, 5635, &[1, 0]),
    (Life::FindsNone, 5635, &[1, 0]),
];

#[test]
fn payloads_have_their_bytes(rt: HostRuntime) -> Result<(), Fail> {
    let alloc = rt.alloc();
    live(&rt, alloc, Vec::new(alloc), &PAYLOADS)?;
    Ok(())
}

// The head is in the second frame, behind four bytes of the frame's own, of which the last is its length.
const HEADS: [(Life, usize, &[u8]); 3] = [
    (
        Life::Raises,
        515,
        &[
            153, 4, 67, 65, 83, 82, 69, 71, 48, 50, 0, 0, 0, 0, 0, 0, 1, 0,
        ],
    ),
    (Life::FindsRaised, 666, &[0, 1, 2]),
    (Life::FindsRaised, 515, &[153]),
];

#[test]
fn a_head_has_its_bytes(rt: HostRuntime) -> Result<(), Fail> {
    let alloc = rt.alloc();
    // A new shelf with 256 blank cells.
    let mut bytes = filled(alloc, 0)?;
    if let Some(byte) = bytes.get_mut(4 + 15) {
        *byte = 1;
    }
    for _cell in 0..256 {
        bytes.extend_from_slice(&[0; 9_216])?;
    }
    let bytes = live(&rt, alloc, bytes, &HEADS)?;
    // Each of the cells is looked for.
    let short = bytes.get(..1024 + 9_216 * 255).unwrap_or(&[]);
    let at = 1024 + 9_216 * 255;
    assert_eq!(rt; told_over(alloc, short)?, Err(ShelfFault::Foreign { at }));
    Ok(())
}

// What a shelf over a disk of these bytes is told when it is reopened.
fn told_over(alloc: Global, bytes: &[u8]) -> Result<Result<(), ShelfFault>, Fail> {
    let mut shelf = over(alloc, bytes, &[], Image::Old)?;
    Ok(shelf.reopen())
}

// A change of a disk's bytes.
#[derive(Clone, Copy, Debug)]
enum Patch {
    // This byte at that place.
    Byte(usize, u8),
    // At that place of the head this byte, and this length of the head. The head begins at 4.
    Head(u8, u8, u8),
    // This payload behind the head. It begins at 1028.
    Cell(&'static [u8]),
}

fn apply(bytes: &mut [u8], patch: Patch) {
    match patch {
        Patch::Byte(place, value) => set(bytes, place, value),
        Patch::Head(place, value, length) => {
            set(bytes, 3, length);
            set(bytes, 4 + usize::from(place), value);
            clear_from(bytes, 4 + usize::from(length));
        }
        Patch::Cell(payload) => {
            clear_from(bytes, 1028);
            set(bytes, 1027, u8::try_from(payload.len()).unwrap_or(0));
            for (byte, value) in bytes.iter_mut().skip(1028).zip(payload.iter()) {
                *byte = *value;
            }
        }
    }
}

// Of each row a new shelf has so many keys; its disk is changed so, and the shelf is told that place, or nothing, when it is reopened.
fn tell(rt: &impl Abort, alloc: Global, rows: &[(u32, Patch, Option<u64>)]) -> Result<(), Fail> {
    for (count, change, want) in rows {
        let mut bytes = filled(alloc, *count)?;
        apply(&mut bytes, *change);
        let answer = match *want {
            Some(at) => Err(ShelfFault::Foreign { at }),
            None => Ok(()),
        };
        assert_eq!(rt; told_over(alloc, &bytes)?, answer, "{change:?}");
    }
    Ok(())
}

// A frame of no byte is told by its length.
const PATCHED_PAYLOADS: [(u32, Patch, Option<u64>); 20] = [
    (0, Patch::Head(0, 3, 153), Some(4)),
    (0, Patch::Head(8, 51, 153), Some(12)),
    (0, Patch::Head(9, 1, 153), Some(13)),
    (0, Patch::Head(11, 17, 153), Some(15)),
    (0, Patch::Head(13, 1, 153), Some(17)),
    (0, Patch::Head(15, 17, 153), Some(19)),
    (0, Patch::Head(0, 4, 154), Some(157)),
    (0, Patch::Head(0, 4, 152), Some(156)),
    (0, Patch::Head(0, 4, 16), Some(20)),
    (0, Patch::Head(0, 4, 12), Some(16)),
    (0, Patch::Head(0, 4, 0), Some(3)),
    (1, Patch::Cell(&[]), Some(1027)),
    (1, Patch::Cell(&[2]), Some(1028)),
    (1, Patch::Cell(&[0, 0]), Some(1029)),
    (1, Patch::Cell(&[1]), Some(1029)),
    (1, Patch::Cell(&[1, 0]), Some(1029)),
    (1, Patch::Cell(&[1, 1, 32]), Some(1030)),
    (1, Patch::Cell(&[1, 1, 97, 1]), Some(1031)),
    (
        1,
        Patch::Cell(&[1, 1, 97, 0, 0, 0, 0, 0, 0, 0, 1, 1, 2]),
        Some(1040),
    ),
    (
        1,
        Patch::Cell(&[1, 1, 97, 0, 0, 0, 0, 0, 0, 0, 1, 1, 0, 0]),
        Some(1041),
    ),
];

#[test]
fn the_first_wrong_byte_of_a_payload_is_told(rt: HostRuntime) -> Result<(), Fail> {
    tell(&rt, rt.alloc(), &PATCHED_PAYLOADS)
}

// Both frames of cell 0 are open and the first is current, which tells two cells. Of the others the first is open.
const PATCHED_BYTES: [(u32, Patch, Option<u64>); 13] = [
    (2, Patch::Byte(1, 3), Some(1)),
    (2, Patch::Byte(2, 9), Some(2)),
    (2, Patch::Byte(4, 1), Some(4)),
    (2, Patch::Byte(12, 51), Some(12)),
    (2, Patch::Byte(20, 3), Some(19_456)),
    (2, Patch::Byte(1025, 3), Some(1025)),
    (2, Patch::Byte(1028, 2), Some(1028)),
    (2, Patch::Byte(1028, 0), Some(1029)),
    (2, Patch::Byte(1029, 3), Some(1032)),
    (2, Patch::Byte(1030, 32), Some(1030)),
    (2, Patch::Byte(10_240, 0), None),
    // the second key becomes the first
    (2, Patch::Byte(10_247, 48), Some(10_240)),
    // what comes first in the order: frames, and then payloads
    (2, Patch::Byte(1030, 32), Some(1030)),
];

#[test]
fn a_foreign_byte_is_told_by_its_place(rt: HostRuntime) -> Result<(), Fail> {
    tell(&rt, rt.alloc(), &PATCHED_BYTES)
}

// Drops the oldest key and puts a new one, so often.
fn turn_over<S: Shelf>(alloc: Global, shelf: &mut S, rounds: u32) -> Result<(), Fail>
    requires { S.is_up shelf.old }
{
    for round in 0..rounds {
        shelf.drop_slot(&key(alloc, u64::from(round))?)?;
        shelf.put(&key(alloc, u64::from(round) + 4)?, slot_at(round))?;
    }
    Ok(())
}

#[test]
fn a_disk_stays_short(rt: HostRuntime) -> Result<(), Fail> {
    let alloc = rt.alloc();
    for rounds in [0, 1000] {
        let mut shelf = over(alloc, &[], &[], Image::Old)?;
        fill(alloc, &mut shelf, 4)?;
        turn_over(alloc, &mut shelf, rounds)?;
        let faults = shelf.faults();
        let length = shelf.into_disk().bytes().len();
        assert_eq!(rt; (faults, length), (0, 37_888));
    }
    Ok(())
}

#[test]
fn a_fresh_shelf_after_one_put_has_a_wide_cell(rt: HostRuntime) -> Result<(), Fail> {
    assert_eq!(rt; filled(rt.alloc(), 1)?.len(), 10_240);
    Ok(())
}

// A slot that accepted a text of 4,000 bytes.
fn long_slot(alloc: Global) -> Result<Slot, Fail>
    ensures { IfOk result SlotBallotsFit }
{
    Ok(Slot {
        promise: ballot(2, 1),
        accepted: Some(Accepted {
            ballot: ballot(1, 16),
            era: 7,
            state: State::Held {
                version: 3,
                body: Body::Text(Text::read(alloc, &[b't'; 4_000])?),
            },
        }),
    })
}

// Puts a long text on a shelf and reopens it. Whether it is there.
fn keeps_a_long_text<S: Shelf>(alloc: Global, shelf: &mut S) -> Result<bool, Fail> {
    let key = key(alloc, 0)?;
    shelf.start()?;
    shelf.put(&key, long_slot(alloc)?)?;
    reopened(shelf)?;
    Ok(shelf.get(&key)? == Some(long_slot(alloc)?))
}

#[test]
fn a_long_text_is_kept(rt: HostRuntime) -> Result<(), Fail> {
    let mut shelf = over(rt.alloc(), &[], &[], Image::Old)?;
    assert!(rt; keeps_a_long_text(rt.alloc(), &mut shelf)?);
    Ok(())
}

// Starts a shelf whose disk stops in that, and once more. Whether the first start is told of it, and one fault is counted.
fn starts_again<S: Shelf>(shelf: &mut S, key: &Key) -> Result<bool, ShelfFault> {
    let stopped = shelf.start() == Err(ShelfFault::DiskFault);
    shelf.start()?;
    shelf.put(key, slot_at(0))?;
    Ok(stopped && shelf.faults() == 1)
}

#[test]
fn a_start_crashes_a_disk_that_stopped(rt: HostRuntime) -> Result<(), Fail> {
    let alloc = rt.alloc();
    let key = key(alloc, 0)?;
    for call in 1..5 {
        let mut shelf = over(alloc, &[], &[(call, Trouble::Stop)], Image::Noise(call))?;
        assert!(rt; starts_again(&mut shelf, &key)?, "{call}");
    }
    Ok(())
}

#[test]
fn no_file_fails_each_call(rt: HostRuntime) {
    let mut shelf = DiskShelf::over(rt.alloc(), FileDisk::over(None));
    let told = (shelf.start(), shelf.reopen(), shelf.faults());
    let fault = Err(ShelfFault::DiskFault);
    assert_eq!(rt; told, (fault, fault, 2));
}

// A change of a shelf: of the slot of the first key, a new key that grows the disk, a removal, and a raise of ages.
fn change<S: Shelf>(shelf: &mut S, which: u8, old: &Key, new: &Key) -> Result<(), ShelfFault>
    requires { S.is_up shelf.old }
{
    let mut least = Ages::ZERO;
    least.0[1] = 9;
    match which {
        0 => shelf.put(old, slot_at(5)),
        1 => shelf.put(new, slot_at(6)),
        2 => shelf.drop_slot(old),
        _ => shelf.raise_ages(&least),
    }
}

// Whether two shelves show the same.
fn same<S: Shelf, T: Shelf>(alloc: Global, one: &S, two: &T) -> Result<bool, Fail> {
    let mut same = one.ages() == two.ages() && one.keys_after(None, 9)? == two.keys_after(None, 9)?;
    for n in 0..3 {
        same = same && one.get(&key(alloc, n)?)? == two.get(&key(alloc, n)?)?;
    }
    Ok(same)
}

// What a change should leave: what a shelf in memory shows before it and after it.
#[derive(Drop)]
struct Outcomes {
    before: MapShelf,
    after: MapShelf,
}

fn outcomes_of(alloc: Global, which: u8, old: &Key, new: &Key) -> Result<Outcomes, Fail> {
    let mut before = MapShelf::new(alloc);
    fill(alloc, &mut before, 2)?;
    let mut after = MapShelf::new(alloc);
    fill(alloc, &mut after, 2)?;
    change(&mut after, which, old, new)?;
    Ok(Outcomes { before, after })
}

// Whether a shelf whose disk stops within a change, or before it, shows what it should then and after it is reopened.
fn outlives<S: Shelf>(
    alloc: Global,
    shelf: &mut S,
    which: u8,
    wanted: &Outcomes,
) -> Result<bool, Fail> {
    let (old, new) = (key(alloc, 0)?, key(alloc, 2)?);
    reopened(shelf)?;
    let began = same(alloc, shelf, &wanted.before)?;
    let done = change(shelf, which, &old, &new).is_ok();
    let shown = if done { &wanted.after } else { &wanted.before };
    let showed = same(alloc, shelf, shown)?;
    reopened(shelf)?;
    let changed = same(alloc, shelf, &wanted.after)?;
    let stayed = !done && same(alloc, shelf, &wanted.before)?;
    Ok(began && showed && (changed || stayed))
}

// Whether a change outlives a stop at each of these calls of its disk.
fn outlives_each(
    alloc: Global,
    disk: &[u8],
    image: Image,
    which: u8,
    wanted: &Outcomes,
) -> Result<bool, Fail> {
    for stop in 1..28 {
        let mut shelf = over(alloc, disk, &[(stop, Trouble::Stop)], image)?;
        if !outlives(alloc, &mut shelf, which, wanted)? {
            return Ok(false);
        }
    }
    Ok(true)
}

#[test]
fn a_stop_at_any_call_leaves_the_old_or_the_new(rt: HostRuntime) -> Result<(), Fail> {
    let alloc = rt.alloc();
    let disk = filled(alloc, 2)?;
    let (old, new) = (key(alloc, 0)?, key(alloc, 2)?);
    for which in 0..4 {
        let wanted = outcomes_of(alloc, which, &old, &new)?;
        for image in IMAGES {
            let outlived = outlives_each(alloc, &disk, image, which, &wanted)?;
            assert!(rt; outlived, "{which} {image:?}");
        }
    }
    Ok(())
}
