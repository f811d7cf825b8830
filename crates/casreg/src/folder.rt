//! A folder whose files are the disks of a store.
ghost use Rattle.std.specs.Prelude.{◌≡◌, vec_len, IfOk};
ghost use Rattle.cas_disk.specs.File.{faults_of};
ghost use Rattle.casreg.specs.Disks.{AreFaultless, CountNoFault};
ghost use Rattle.casreg.specs.declared.folder.FolderFault.TheVariants.{NoMemory};

use cas_disk::FileDisk;
use cas_store::{ACCEPTORS, Rack, VAULTS};
use casreg_command::Status;
use std::alloc::{AllocError, AllocFailed, Global};
use std::fs::{self, DirBuilder, File, Metadata, OpenOptions, TryLockError};
use std::io::{self, ErrorKind};
use std::os::unix::fs::{DirBuilderExt, MetadataExt, OpenOptionsExt};
use std::rt::Files;

/// What its owner alone may do: to read, to write and to search a folder that is made.
const FOLDER_MODE: u32 = 0o700;

/// What its owner alone may do: to read and to write a file that is made.
const FILE_MODE: u32 = 0o600;

/// Why a folder does not serve.
#[derive(Clone, Copy, Debug, PartialEq, Eq)]
pub enum FolderFault {
    /// The folder or one of its files cannot be made, opened, locked or synced, is in use, or is not of its kind.
    Unusable,
    /// No memory was found.
    NoMemory,
}

impl From<io::Error> for FolderFault {
    fn from(error: io::Error) -> FolderFault {
        if error.kind() == ErrorKind::OutOfMemory {
            FolderFault::NoMemory
        } else {
            FolderFault::Unusable
        }
    }
}

impl From<AllocError> for FolderFault {
    ghost from_gives = { λ _ fault. fault ≡ NoMemory };

    fn from(_error: AllocError) -> FolderFault {
        FolderFault::NoMemory
    }
}

impl<T: Drop> From<AllocFailed<T>> for FolderFault {
    ghost from_gives = { λ _ fault. fault ≡ NoMemory };

    fn from(_error: AllocFailed<T>) -> FolderFault {
        FolderFault::NoMemory
    }
}

impl From<TryLockError> for FolderFault {
    fn from(error: TryLockError) -> FolderFault {
        FolderFault::from(io::Error::from(error))
    }
}

/// How a run ends over a folder that does not serve.
impl From<FolderFault> for Status {
    ghost use Rattle.std.specs.Prelude.{◌≡◌};
    ghost use Rattle.casreg.specs.Folder.{status_of_folder};

    ghost from_gives = { λ fault status. status ≡ status_of_folder fault };

    fn from(fault: FolderFault) -> Status {
        match fault {
            FolderFault::Unusable => Status::DiskFault { disk: 0 },
            FolderFault::NoMemory => Status::NoMemory,
        }
    }
}

/// Opens a folder and locks it, so that no other call of this function can until what it gives is closed. A folder that is not there is
/// made where its parent is, and the parent synced.
pub fn lock_folder(
    rt: &impl Files<File = File>,
    alloc: Global,
    path: &str,
) -> Result<File, FolderFault> {
    make_folder(rt, alloc, path)?;
    // What is no folder is not opened: a pipe would wait.
    if !fs::metadata(rt, path)?.is_dir() {
        return Err(FolderFault::Unusable);
    }
    let folder = File::open(rt, path)?;
    folder.try_lock()?;
    Ok(folder)
}

/// Makes a folder where there is none of that name, and syncs its parent then.
fn make_folder(rt: &impl Files<File = File>, alloc: Global, path: &str) -> Result<(), FolderFault> {
    match DirBuilder::new().mode(FOLDER_MODE).create(rt, path) {
        Ok(()) => {
            let parent = format!(in alloc; "{path}/..")?;
            File::open(rt, parent.as_str())?.sync_all()?;
            Ok(())
        }
        Err(error) if error.kind() == ErrorKind::AlreadyExists => Ok(()),
        Err(error) => Err(FolderFault::from(error)),
    }
}

/// The disks over the files of a locked folder: `a0` to `a63` of the acceptors, and `v0` to `v16` of the vaults. Each is locked. Those that
/// are not there are made, once all others are open, and the folder is synced. No disk counts a fault yet.
pub fn file_rack(
    rt: &impl Files<File = File>,
    alloc: Global,
    path: &str,
    folder: &File,
) -> Result<Rack<FileDisk>, FolderFault>
    ensures acceptors { IfOk result (λ rack. vec_len rack.acceptors ≡ 64) }
    ensures vaults { IfOk result (λ rack. vec_len rack.vaults ≡ 17) }
    ensures faultless { IfOk result (λ rack. AreFaultless faults_of rack) }
{
    let found_acceptors = found_files(rt, alloc, path, "a", ACCEPTORS)?;
    let found_vaults = found_files(rt, alloc, path, "v", VAULTS)?;
    let acceptors = file_disks(rt, alloc, path, "a", ACCEPTORS, found_acceptors)?;
    let vaults = file_disks(rt, alloc, path, "v", VAULTS, found_vaults)?;
    // Its name leads to the folder still, so the files stand in it.
    if !is_same(&fs::metadata(rt, path)?, &folder.metadata()?) {
        return Err(FolderFault::Unusable);
    }
    folder.sync_all()?;
    Ok(Rack { acceptors, vaults })
}

/// So many files of a folder, whose names are this one with their numbers, from 0 on, opened and locked where they are there.
fn found_files(
    rt: &impl Files<File = File>,
    alloc: Global,
    folder: &str,
    name: &str,
    count: u8,
) -> Result<Vec<Option<File>>, FolderFault>
    ensures { IfOk result (λ files. vec_len files ≡ count) }
{
    let mut files = Vec::with_capacity(alloc, usize::from(count))?;
    for number in 0..count {
        let path = format!(in alloc; "{folder}/{name}{number}")?;
        files.push(found_file(rt, &path)?)?;
    }
    Ok(files)
}

/// The disks over these files of a folder. Those that were not found are made, and locked.
fn file_disks(
    rt: &impl Files<File = File>,
    alloc: Global,
    folder: &str,
    name: &str,
    count: u8,
    mut found: Vec<Option<File>>,
) -> Result<Vec<FileDisk>, FolderFault>
    requires { vec_len found ≡ count }
    ensures count { IfOk result (λ disks. vec_len disks ≡ count) }
    ensures faultless { IfOk result (λ disks. CountNoFault faults_of disks.items) }
{
    let mut disks = Vec::with_capacity(alloc, usize::from(count))?;
    for number in 0..count {
        let file = match found[usize::from(number)].take() {
            Some(file) => file,
            None => {
                let path = format!(in alloc; "{folder}/{name}{number}")?;
                new_file(rt, &path)?
            }
        };
        disks.push(FileDisk::over(Some(file)))?;
    }
    Ok(disks)
}

/// The file of this path, opened to read and to write, and locked, or nothing where nothing is there. What is no regular file is not opened,
/// as a link, a folder or a device.
fn found_file(rt: &impl Files<File = File>, path: &str) -> Result<Option<File>, FolderFault> {
    let found = match fs::symlink_metadata(rt, path) {
        Ok(found) if found.is_file() => found,
        Ok(_) => return Err(FolderFault::Unusable),
        Err(error) if error.kind() == ErrorKind::NotFound => return Ok(None),
        Err(error) => return Err(FolderFault::from(error)),
    };
    let file = OpenOptions::new().read(true).write(true).open(rt, path)?;
    // What was opened is what was looked at, and no link put there in between.
    if !is_same(&found, &file.metadata()?) {
        return Err(FolderFault::Unusable);
    }
    file.try_lock()?;
    Ok(Some(file))
}

/// A new file of this path, opened to read and to write, and locked. Where anything is there, also a link, none is made.
fn new_file(rt: &impl Files<File = File>, path: &str) -> Result<File, FolderFault> {
    let file = OpenOptions::new()
        .read(true)
        .write(true)
        .create_new(true)
        .mode(FILE_MODE)
        .open(rt, path)?;
    file.try_lock()?;
    Ok(file)
}

/// Whether both tell of one file or folder.
fn is_same(one: &Metadata, other: &Metadata) -> bool {
    one.dev() == other.dev() && one.ino() == other.ino() && one.file_type() == other.file_type()
}
