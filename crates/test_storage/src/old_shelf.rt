//! Shelves on disks of the old form, whose cells are all narrow.

use crate::bytes::stand_at;
use crate::disk_shelf::{IMAGES, bytes_of, over, reopened, slot_at};
use cas_ballot::Ballot;
use cas_change::Key;
use cas_disk::{Image, Trouble};
use cas_slot::{Shelf, ShelfFault, Slot};
use std::alloc::{AllocError, Global};
use std::test::Fail;

// Appends a narrow cell, whose first frame holds this payload. Without a payload it is blank.
fn push_narrow(bytes: &mut Vec<u8>, payload: &[u8]) -> Result<(), AllocError> {
    let mut cell = [0; 1_024];
    if !payload.is_empty() {
        let front = [1, 0, 0, u8::try_from(payload.len()).unwrap_or(0)];
        for (byte, value) in cell.iter_mut().zip(front.iter().chain(payload.iter())) {
            *byte = *value;
        }
    }
    bytes.extend_from_slice(&cell)
}

// The bytes of a disk of the old form with these payloads in its cells, whose last least age is 5.
fn old_disk(alloc: Global, payloads: &[&[u8]]) -> Result<Vec<u8>, AllocError> {
    let mut head = [0; 149];
    for (byte, value) in head.iter_mut().zip(b"\x02CASREG01\0\0\0".iter()) {
        *byte = *value;
    }
    head[12] = u8::try_from(payloads.len()).unwrap_or(0);
    head[148] = 5;
    let mut bytes = Vec::new(alloc);
    push_narrow(&mut bytes, &head)?;
    for payload in payloads.iter() {
        push_narrow(&mut bytes, payload)?;
    }
    Ok(bytes)
}

// Reopens a shelf that has no slot, and puts one. Whether all is found as it should be.
fn takes_a_slot<S: Shelf>(shelf: &mut S, key: &Key) -> Result<bool, Fail> {
    reopened(shelf)?;
    let none = shelf.get(key)? == None && shelf.ages().0[16] == 5;
    shelf.put(key, slot_at(1))?;
    reopened(shelf)?;
    Ok(none && shelf.get(key)? == Some(slot_at(1)))
}

#[test]
fn an_old_shelf_without_slots_becomes_a_new_one(rt: HostRuntime) -> Result<(), Fail> {
    let alloc = rt.alloc();
    let key = Key::read(alloc, b"a")?;
    let mut shelf = over(alloc, &old_disk(alloc, &[&[], &[0]])?, &[], Image::Old)?;
    assert!(rt; takes_a_slot(&mut shelf, &key)?);
    let bytes = bytes_of(alloc, shelf)?;
    assert_eq!(rt; bytes.len(), 12_288);
    assert!(rt; stand_at(&bytes, 4, b"\x04CASREG02\0\0\0\x02\0\0\0\x01"));
    Ok(())
}

#[test]
fn a_stop_while_an_old_shelf_is_reopened_loses_nothing(rt: HostRuntime) -> Result<(), Fail> {
    let alloc = rt.alloc();
    let key = Key::read(alloc, b"a")?;
    let bytes = old_disk(alloc, &[&[0], &[]])?;
    for stop in 1..24 {
        for image in IMAGES {
            let mut shelf = over(alloc, &bytes, &[(stop, Trouble::Stop)], image)?;
            reopened(&mut shelf)?;
            let bytes = bytes_of(alloc, shelf)?;
            let mut shelf = over(alloc, &bytes, &[], Image::Old)?;
            assert!(rt; takes_a_slot(&mut shelf, &key)?, "{stop}");
        }
    }
    Ok(())
}

// The payloads of cells that hold the slots of a, of a with another promise, and of b.
const SLOT_OF_A: [u8; 13] = [1, 1, b'a', 0, 0, 0, 0, 0, 0, 0, 2, 1, 0];

const OTHER_OF_A: [u8; 13] = [1, 1, b'a', 0, 0, 0, 0, 0, 0, 0, 3, 1, 0];

const SLOT_OF_B: [u8; 13] = [1, 1, b'b', 0, 0, 0, 0, 0, 0, 0, 4, 1, 0];

// A slot that promised a ballot of this counter.
const fn promised(counter: u64) -> Slot {
    Slot {
        promise: Ballot {
            counter,
            proposer: 1,
        },
        accepted: None,
    }
}

// Whether a shelf has the slots of a and of b, and no other, and the ages of the old disk.
fn has_both<S: Shelf>(alloc: Global, shelf: &S) -> Result<bool, Fail> {
    let a = shelf.get(&Key::read(alloc, b"a")?)? == Some(promised(2));
    let b = shelf.get(&Key::read(alloc, b"b")?)? == Some(promised(4));
    let two = shelf.keys_after(None, 3)?.len() == 2;
    Ok(a && b && two && shelf.ages().0[16] == 5)
}

#[test]
fn the_slots_of_an_old_shelf_move_to_wide_cells(rt: HostRuntime) -> Result<(), Fail> {
    let alloc = rt.alloc();
    let bytes = old_disk(alloc, &[&SLOT_OF_A, &SLOT_OF_B])?;
    assert_eq!(rt; bytes.len(), 3_072);
    let mut shelf = over(alloc, &bytes, &[], Image::Old)?;
    reopened(&mut shelf)?;
    assert!(rt; has_both(alloc, &shelf)?);
    let bytes = bytes_of(alloc, shelf)?;
    assert_eq!(rt; bytes.len(), 21_504);
    assert!(rt; stand_at(&bytes, 516, b"\x04CASREG02\0\0\0\x02\0\0\0\x02"));
    let mut shelf = over(alloc, &bytes, &[], Image::Old)?;
    reopened(&mut shelf)?;
    assert!(rt; has_both(alloc, &shelf)?);
    assert_eq!(rt; bytes_of(alloc, shelf)?.len(), 21_504);
    Ok(())
}

#[test]
fn a_stop_while_slots_are_moved_loses_nothing(rt: HostRuntime) -> Result<(), Fail> {
    let alloc = rt.alloc();
    let bytes = old_disk(alloc, &[&SLOT_OF_A, &SLOT_OF_B])?;
    for stop in 1..60 {
        for image in IMAGES {
            let mut shelf = over(alloc, &bytes, &[(stop, Trouble::Stop)], image)?;
            reopened(&mut shelf)?;
            assert!(rt; has_both(alloc, &shelf)?, "{stop}");
            let bytes = bytes_of(alloc, shelf)?;
            assert_eq!(rt; bytes.len(), 21_504);
            let mut shelf = over(alloc, &bytes, &[], Image::Old)?;
            reopened(&mut shelf)?;
            assert!(rt; has_both(alloc, &shelf)?, "{stop}");
        }
    }
    Ok(())
}

// The bytes of a disk of the new form, with b in its second narrow cell, and these payloads in its first narrow cell and in its only
// wide one.
fn half_moved(alloc: Global, narrow: &[u8], wide: &[u8]) -> Result<Vec<u8>, AllocError> {
    let mut head = [0; 153];
    for (byte, value) in head
        .iter_mut()
        .zip(b"\x04CASREG02\0\0\0\x02\0\0\0\x01".iter())
    {
        *byte = *value;
    }
    head[152] = 5;
    let mut bytes = Vec::new(alloc);
    push_narrow(&mut bytes, &head)?;
    push_narrow(&mut bytes, narrow)?;
    push_narrow(&mut bytes, &SLOT_OF_B)?;
    push_narrow(&mut bytes, wide)?;
    bytes.extend_from_slice(&[0; 8_192])?;
    Ok(bytes)
}

#[test]
fn a_key_in_a_narrow_and_a_wide_cell_is_one_slot(rt: HostRuntime) -> Result<(), Fail> {
    let alloc = rt.alloc();
    let bytes = half_moved(alloc, &SLOT_OF_A, &SLOT_OF_A)?;
    let mut shelf = over(alloc, &bytes, &[], Image::Old)?;
    reopened(&mut shelf)?;
    assert!(rt; has_both(alloc, &shelf)?);
    let bytes = bytes_of(alloc, shelf)?;
    assert_eq!(rt; bytes.len(), 21_504);
    Ok(())
}

#[test]
fn a_key_with_two_slots_is_told_by_its_later_cell(rt: HostRuntime) -> Result<(), Fail> {
    let alloc = rt.alloc();
    let mut unequal = over(
        alloc,
        &half_moved(alloc, &SLOT_OF_A, &OTHER_OF_A)?,
        &[],
        Image::Old,
    )?;
    assert_eq!(rt; unequal.reopen(), Err(ShelfFault::Foreign { at: 3_072 }));
    let twice: [&[u8]; 3] = [&SLOT_OF_A, &SLOT_OF_B, &SLOT_OF_A];
    let mut twice = over(alloc, &old_disk(alloc, &twice)?, &[], Image::Old)?;
    assert_eq!(rt; twice.reopen(), Err(ShelfFault::Foreign { at: 3_072 }));
    Ok(())
}

// The payload of a cell that holds the slot of the key of this number.
fn numbered_slot(alloc: Global, n: u32) -> Result<Vec<u8>, Fail> {
    let key = format!(in alloc; "k{n}")?;
    let mut payload = Vec::new(alloc);
    payload.push(1)?;
    payload.push(u8::try_from(key.len()).unwrap_or(0))?;
    payload.extend_from_slice(key.as_bytes())?;
    payload.extend_from_slice(&[0, 0, 0, 0, 0, 0, 0, 2, 1, 0])?;
    Ok(payload)
}

#[test]
fn one_key_too_many_is_told_by_its_cell(rt: HostRuntime) -> Result<(), Fail> {
    let alloc = rt.alloc();
    let mut head = [0; 153];
    for (byte, value) in head
        .iter_mut()
        .zip(b"\x04CASREG02\0\0\x10\0\0\0\0\x01".iter())
    {
        *byte = *value;
    }
    let mut bytes = Vec::new(alloc);
    push_narrow(&mut bytes, &head)?;
    for n in 0..4_097 {
        push_narrow(&mut bytes, &numbered_slot(alloc, n)?)?;
    }
    bytes.extend_from_slice(&[0; 8_192])?;
    let mut shelf = over(alloc, &bytes, &[], Image::Old)?;
    assert_eq!(rt; shelf.reopen(), Err(ShelfFault::Foreign { at: 4_195_328 }));
    Ok(())
}
