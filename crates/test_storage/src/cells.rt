//! Rows of cells on a disk in memory and in a file. What makes a row in memory hands on the bytes of its disk, since each early return
//! beside a row lets its disk go.

ghost use Rattle.std.specs.Prelude.{◌≡◌, OnOk};
ghost use Rattle.cas_cells.specs.Format.{IsPayload, TellsSame};
ghost use Rattle.cas_cells.specs.Cells.{cells_of, CellsStand};

use crate::bytes::{set, stand_at};
use cas_cells::{CellFault, Cells};
use cas_disk::{Disk, FileDisk, Image, MemoryDisk, Trouble};
use std::alloc::{AllocError, Global};
use std::fs::OpenOptions;
use std::process::Abort;
use std::test::Fail;

// A head that tells no cells.
const HEAD: [u8; 17] = [4, 67, 65, 83, 82, 69, 71, 48, 50, 0, 0, 0, 0, 0, 0, 0, 0];

const IMAGES: [Image; 4] = [Image::Old, Image::New, Image::Noise(1), Image::Noise(2)];

fn over(
    alloc: Global,
    bytes: &[u8],
    troubles: &[(u64, Trouble)],
    image: Image,
) -> Result<Cells<MemoryDisk>, AllocError> {
    let troubles = troubles.to_vec(alloc)?;
    let disk = MemoryDisk::new(alloc, bytes.to_vec(alloc)?, troubles, image);
    Ok(Cells::over(alloc, disk))
}

// Changes cell 0 by the three steps.
fn change<D: Disk>(cells: &mut Cells<D>, payload: &[u8]) -> Result<(), CellFault>
    requires stands { CellsStand D.tells D.seen D.may_leave cells.old }
    requires fits { IsPayload 512 payload.now }
    requires same_count { TellsSame payload.now (cells_of cells.old) }
{
    cells.close_spare(0)?;
    cells.write_spare(0, payload)?;
    cells.open_spare(0)
}

// Crashes the disk and reads its cells, and does so again where the disk failed in that.
fn recovered<D: Disk>(cells: &mut Cells<D>) -> Result<(), CellFault>
    ensures { OnOk result (CellsStand D.tells D.seen D.may_leave cells.new) }
{
    cells.crash();
    match cells.recover() {
        Err(CellFault::DiskFault) => {
            cells.crash();
            cells.recover()
        }
        answer => answer,
    }
}

// The bytes of the disk of a row.
fn bytes_of(alloc: Global, cells: Cells<MemoryDisk>) -> Result<Vec<u8>, AllocError> {
    let disk = cells.into_disk();
    disk.bytes().to_vec(alloc)
}

// Whether a row has this count, these payloads in the cells 0 and 1, and no fault.
fn shows<D: Disk>(cells: &Cells<D>, count: u32, head: &[u8], next: Option<&[u8]>) -> bool {
    let payloads = (cells.payload(0), cells.payload(1));
    (cells.count(), cells.faults()) == (count, 0) && payloads == (Some(head), next)
}

// Formats a row and changes its cell 0.
fn format_and_change<D: Disk>(cells: &mut Cells<D>) -> Result<bool, CellFault> {
    cells.format(&HEAD)?;
    change(cells, &HEAD)?;
    Ok(shows(cells, 0, &HEAD, None))
}

// The bytes of a disk whose cell 0 was formatted and changed once: both of its frames are open, the second is current.
fn changed_once(rt: &impl Abort, alloc: Global) -> Result<Vec<u8>, Fail> {
    let mut cells = over(alloc, &[], &[], Image::Old)?;
    assert!(rt; format_and_change(&mut cells)?);
    Ok(bytes_of(alloc, cells)?)
}

#[test]
fn a_formatted_disk_and_a_change_have_their_bytes(rt: HostRuntime) -> Result<(), Fail> {
    let bytes = changed_once(&rt, rt.alloc())?;
    assert_eq!(rt; bytes.len(), 1024);
    let rows: [(usize, &[u8]); 4] = [
        (0, &[1, 0, 0, 17, 4, 67]),
        (21, &[0]),
        (512, &[1, 1]),
        (515, &[17, 4]),
    ];
    for (place, want) in rows {
        assert!(rt; stand_at(&bytes, place, want), "at {place}");
    }
    Ok(())
}

// A head that tells one wide cell.
const GROWN: [u8; 17] = [4, 67, 65, 83, 82, 69, 71, 48, 50, 0, 0, 0, 0, 0, 0, 0, 1];

// Formats a row, has it grow, and changes the cell that came.
fn grow<D: Disk>(cells: &mut Cells<D>) -> Result<bool, CellFault> {
    cells.format(&HEAD)?;
    let before = cells.payload_place(0);
    cells.grow()?;
    let places = (before, cells.payload_place(0));
    let grown = shows(cells, 1, &GROWN, None);
    cells.close_spare(1)?;
    cells.write_spare(1, &[7])?;
    cells.open_spare(1)?;
    recovered(cells)?;
    Ok(places == (Some(4), Some(516)) && grown && shows(cells, 1, &GROWN, Some(&[7])))
}

#[test]
fn a_row_grows(rt: HostRuntime) -> Result<(), Fail> {
    let mut cells = over(rt.alloc(), &[], &[], Image::Old)?;
    assert!(rt; grow(&mut cells)?);
    assert_eq!(rt; bytes_of(rt.alloc(), cells)?.len(), 10_240);
    Ok(())
}

// What recovery answers over a disk of these bytes.
fn told_over(alloc: Global, bytes: &[u8]) -> Result<Result<(), CellFault>, Fail> {
    let mut cells = over(alloc, bytes, &[], Image::Old)?;
    Ok(recovered(&mut cells))
}

#[test]
fn a_wrong_byte_is_foreign_at_its_place(rt: HostRuntime) -> Result<(), Fail> {
    let alloc = rt.alloc();
    // What is changed of the bytes, how many are left, and the place that is told.
    let rows: [(&[(usize, u8)], usize, Option<u64>); 19] = [
        // numbers
        (&[(1, 3)], 1024, Some(1)),
        (&[(513, 3)], 1024, Some(513)),
        (&[(513, 0)], 1024, Some(513)),
        // lengths
        (&[(2, 2)], 1024, Some(2)),
        (&[(3, 0)], 1024, Some(3)),
        (&[(2, 1), (3, 253)], 1024, Some(3)),
        (&[(514, 255)], 1024, Some(514)),
        // closing zeros
        (&[(21, 1)], 1024, Some(21)),
        (&[(1023, 1)], 1024, Some(1023)),
        // a disk that is too short
        (&[], 0, Some(0)),
        (&[], 1, Some(1)),
        (&[], 600, Some(600)),
        (&[(0, 0), (512, 0)], 1000, Some(1000)),
        // a blank cell 0
        (&[(0, 0), (512, 0)], 1024, Some(0)),
        // cells that are told and not there
        (&[(532, 1)], 1024, Some(1024)),
        (&[(528, 1)], 1024, Some(1024)),
        // a head of the old form tells narrow cells alone
        (&[(516, 2), (528, 1)], 1024, Some(1024)),
        (&[(516, 2), (532, 1)], 1024, None),
        // nothing is changed
        (&[], 1024, None),
    ];
    for (changes, length, want) in rows {
        let mut bytes = changed_once(&rt, alloc)?;
        for (place, value) in changes {
            set(&mut bytes, *place, *value);
        }
        bytes.truncate(length);
        let answer = match want {
            Some(at) => Err(CellFault::Foreign { at }),
            None => Ok(()),
        };
        assert_eq!(rt; told_over(alloc, &bytes)?, answer, "{changes:?} {length}");
    }
    Ok(())
}

// Recovers a row and closes the spare of cell 0.
fn close<D: Disk>(cells: &mut Cells<D>) -> Result<bool, CellFault> {
    recovered(cells)?;
    cells.close_spare(0)?;
    Ok(shows(cells, 0, &HEAD, None))
}

#[test]
fn a_closed_gate_is_not_written_again(rt: HostRuntime) -> Result<(), Fail> {
    let alloc = rt.alloc();
    let mut bytes = changed_once(&rt, alloc)?;
    // The spare, which is the first frame, is closed over torn bytes.
    for (place, byte) in bytes.iter_mut().enumerate() {
        if place < 512 {
            *byte = if place == 0 { 0 } else { 0xAA };
        }
    }
    // The first call reads the cell.
    let mut cells = over(alloc, &bytes, &[(2, Trouble::Fail)], Image::Old)?;
    let closed = close(&mut cells)?;
    let left = bytes_of(alloc, cells)?;
    assert!(rt; closed && left == bytes);
    Ok(())
}

// Formats a row and has it grow, while its disk may stop. Whether it shows then what was there before or after.
fn outlives_growth<D: Disk>(cells: &mut Cells<D>) -> Result<bool, CellFault> {
    if cells.format(&HEAD).is_ok() {
        let grown = cells.grow().is_ok();
        recovered(cells)?;
        Ok(cells.count() <= 1 && (!grown || cells.count() == 1))
    } else {
        Ok(recovered(cells).is_err() || cells.payload(0) == Some(HEAD.as_slice()))
    }
}

// Formats a row and changes its cell 0, while its disk may stop in that. Whether it shows then what was there before or after.
fn outlives_change<D: Disk>(cells: &mut Cells<D>) -> Result<bool, CellFault> {
    cells.format(&HEAD)?;
    let changed = change(cells, &[9, 8, 7]).is_ok();
    recovered(cells)?;
    let held = cells.payload(0).unwrap_or(&[]);
    Ok(held == [9, 8, 7].as_slice() || (!changed && held == HEAD.as_slice()))
}

#[test]
fn a_stop_leaves_the_row_before_or_after(rt: HostRuntime) -> Result<(), Fail> {
    for image in IMAGES {
        for stop in 1..20 {
            let mut cells = over(rt.alloc(), &[], &[(stop, Trouble::Stop)], image)?;
            assert!(rt; outlives_growth(&mut cells)?, "{image:?} {stop}");
        }
    }
    Ok(())
}

#[test]
fn a_stop_leaves_the_payload_before_or_after(rt: HostRuntime) -> Result<(), Fail> {
    for image in IMAGES {
        for stop in 7..14 {
            let mut cells = over(rt.alloc(), &[], &[(stop, Trouble::Stop)], image)?;
            assert!(rt; outlives_change(&mut cells)?, "{image:?} {stop}");
        }
    }
    Ok(())
}

// Formats a row and changes its cell 0.
fn write<D: Disk>(cells: &mut Cells<D>) -> Result<(), CellFault> {
    cells.format(&HEAD)?;
    change(cells, &[9, 8, 7])
}

// Recovers a row, whose cell 0 was changed so.
fn read<D: Disk>(cells: &mut Cells<D>) -> Result<bool, CellFault> {
    recovered(cells)?;
    Ok(cells.payload(0) == Some([9, 8, 7].as_slice()))
}

#[test]
fn cells_stay_in_a_file(rt: HostRuntime) -> Result<(), Fail> {
    let path = "cas_cells_file_test";
    let file = OpenOptions::new()
        .read(true)
        .write(true)
        .create(true)
        .truncate(true)
        .open(&rt, path)?;
    write(&mut Cells::over(rt.alloc(), FileDisk::over(Some(file))))?;
    let again = OpenOptions::new().read(true).write(true).open(&rt, path)?;
    let held = read(&mut Cells::over(rt.alloc(), FileDisk::over(Some(again))))?;
    assert!(rt; held);
    std::fs::remove_file(&rt, path)?;
    Ok(())
}
