//! Racks and stores over disks in memory.

ghost use Rattle.std.specs.Prelude.{◌≡◌, ◌+◌, ◌≤◌, vec_len, IfOk};

use cas_disk::{Disk, Image, MemoryDisk, Trouble};
use cas_store::{Rack, RackFault, Store};
use cas_world::{Config, OpenFault};
use std::alloc::{AllocError, Global};
use std::test::Fail;

const CONFIG: Config = Config {
    acceptors: 3,
    proposers: 1,
};

// Disks of which one has these bytes and fails at these calls, and the others are empty.
#[derive(Clone, Copy)]
struct Odd<'a> {
    number: u8,
    bytes: &'a [u8],
    troubles: &'a [(u64, Trouble)],
}

fn disk(alloc: Global, number: u8, odd: &Odd<'_>) -> Result<MemoryDisk, AllocError> {
    if number != odd.number {
        return Ok(MemoryDisk::new(alloc, Vec::new(alloc), Vec::new(alloc), Image::Old));
    }
    let bytes = odd.bytes.to_vec(alloc)?;
    let troubles = odd.troubles.to_vec(alloc)?;
    Ok(MemoryDisk::new(alloc, bytes, troubles, Image::Old))
}

fn disks(alloc: Global, first: u8, count: u8, odd: &Odd<'_>) -> Result<Vec<MemoryDisk>, AllocError>
    requires { first + count ≤ 81 }
    ensures { IfOk result (λ disks. vec_len disks ≡ count) }
{
    let mut disks = Vec::new(alloc);
    for place in 0..count {
        disks.push(disk(alloc, first + place, odd)?)?;
    }
    Ok(disks)
}

fn rack(alloc: Global, odd: &Odd<'_>) -> Result<Rack<MemoryDisk>, AllocError>
    ensures acceptors { IfOk result (λ rack. vec_len rack.acceptors ≡ 64) }
    ensures vaults { IfOk result (λ rack. vec_len rack.vaults ≡ 17) }
{
    let acceptors = disks(alloc, 0, 64, odd)?;
    let vaults = disks(alloc, 64, 17, odd)?;
    Ok(Rack { acceptors, vaults })
}

// The numbers of the disks that are not empty, each with its length.
fn lengths(alloc: Global, rack: &Rack<MemoryDisk>) -> Result<Vec<(usize, usize)>, AllocError> {
    let mut found = Vec::new(alloc);
    for (number, disk) in rack.acceptors.iter().chain(rack.vaults.iter()).enumerate() {
        let length = disk.bytes().len();
        if length > 0 {
            found.push((number, length))?;
        }
    }
    Ok(found)
}

#[test]
fn only_the_disks_of_members_and_proposers_are_started(rt: HostRuntime) -> Result<(), Fail> {
    let alloc = rt.alloc();
    let odd = Odd {
        number: 81,
        bytes: &[],
        troubles: &[],
    };
    let mut rack = rack(alloc, &odd)?;
    assert_eq!(rt; rack.expect_empty(), Ok(()));
    match Store::open(alloc, CONFIG, rack) {
        Ok(store) => {
            let (record, rack) = store.close();
            assert_eq!(rt; record.marks().len(), 0);
            assert_eq!(rt;
                lengths(alloc, &rack)?.as_slice(),
                [(1, 1024), (2, 1024), (3, 1024), (64, 1024), (65, 1024)].as_slice()
            );
        }
        Err((fault, _rack)) => assert!(rt; false, "{fault}"),
    }
    Ok(())
}

#[test]
fn a_disk_that_is_not_empty_or_fails_is_told(rt: HostRuntime) -> Result<(), Fail> {
    let alloc = rt.alloc();
    let fails: &[(u64, Trouble)] = &[(1, Trouble::Fail)];
    for (number, bytes, troubles, want) in [
        (2, &[9u8][..], &[][..], RackFault::NotEmpty { disk: 2 }),
        (80, &[9u8][..], &[][..], RackFault::NotEmpty { disk: 80 }),
        (0, &[][..], fails, RackFault::DiskFault { disk: 0 }),
        (64, &[9u8][..], fails, RackFault::DiskFault { disk: 64 }),
    ] {
        let odd = Odd {
            number,
            bytes,
            troubles,
        };
        let mut rack = rack(alloc, &odd)?;
        assert_eq!(rt; rack.expect_empty(), Err(want), "at {number}");
    }
    Ok(())
}

#[test]
fn a_disk_that_fails_comes_back_with_the_others(rt: HostRuntime) -> Result<(), Fail> {
    let alloc = rt.alloc();
    for (number, started) in [(2u8, &[1][..]), (65, &[1, 2, 3, 64][..])] {
        let odd = Odd {
            number,
            bytes: &[],
            troubles: &[(1, Trouble::Fail)],
        };
        match Store::open(alloc, CONFIG, rack(alloc, &odd)?) {
            Ok(_store) => assert!(rt; false, "opened at {number}"),
            Err((fault, rack)) => {
                assert_eq!(rt; fault, OpenFault::DiskFault { disk: number });
                let found: Vec<usize> = lengths(alloc, &rack)?
                    .iter()
                    .map(|disk| disk.0)
                    .collect(alloc)?;
                assert_eq!(rt; found.as_slice(), started, "at {number}");
            }
        }
    }
    Ok(())
}
