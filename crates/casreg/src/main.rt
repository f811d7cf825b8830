//! casreg, a store of replicated registers: the program.
//!
//! All that it does is in [`cluster`] of `casreg_command`. Here stand the real words, input and output, and the disks.
#![tactic(auto)]

ghost use Rattle.std.specs.Prelude.{◌≡◌, vec_len, All, IfOk};
ghost use Rattle.std.specs.Process.{exit_status};
ghost use Rattle.cas_disk.specs.Memory.{faults_of};
ghost use Rattle.casreg_command.specs.Status.{number_of};
ghost use Rattle.casreg.specs.Disks.{AreFaultless, AreUnused, CountNoFault, IsUnused};

mod folder;

use cas_disk::{Disk, Image, MemoryDisk};
use cas_lines::sink::StdSink;
use cas_lines::source::StdSource;
use cas_store::{ACCEPTORS, Rack, VAULTS};
use casreg_command::cluster::cluster;
use casreg_command::{Status, read_words, seeded_fates};
use folder::{FolderFault, file_rack, lock_folder};
use std::alloc::{AllocError, Global};
use std::env;
use std::fs::File;
use std::io::{self, ErrorKind};
use std::process::ExitCode;
use std::rt::{Env, Files};
use std::sync::Wait;
use std::thread::Threads;

fn main(rt: HostRuntime) -> ExitCode {
    let status = match run(&rt) {
        Ok(status) => status,
        Err(error) if error.kind() == ErrorKind::OutOfMemory => Status::NoMemory,
        // A word that is no text is none of a command.
        Err(_) => Status::Usage,
    };
    exit_code(status)
}

/// How the process ends after that status: its exit status is the number of it.
fn exit_code(status: Status) -> ExitCode
    ensures { exit_status result ≡ number_of status }
{
    ExitCode::from(status.number())
}

/// Runs the command that the program's words name, over its input and output. Where the first two words are `--files` and a folder,
/// the disks are files in that folder, and the words behind them name the command; else the disks are in memory.
fn run(
    rt: &(impl Env + Input + Print + Files<File = File> + AllocGlobal + Threads + Wait + Sync),
) -> io::Result<Status> {
    let alloc = rt.alloc();
    let words: Vec<String> = env::args(rt)?.skip(1).collect(alloc)?;
    match words.as_slice() {
        [first, folder, command @ ..] if first.as_str() == "--files" => {
            // Words that are none of a command make no file.
            if read_words(alloc, command)?.is_none() {
                return Ok(Status::Usage);
            }
            match run_in_folder(rt, alloc, folder, command) {
                Ok(status) => Ok(status),
                Err(fault) => Ok(Status::from(fault)),
            }
        }
        command => {
            let rack = memory_rack(alloc)?;
            Ok(run_over(rt, alloc, command, rack)?)
        }
    }
}

/// Runs a command over the files of a folder, which is locked until the command has ended.
fn run_in_folder(
    rt: &(impl Input + Print + Files<File = File> + Threads + Wait + Sync),
    alloc: Global,
    path: &str,
    command: &[String],
) -> Result<Status, FolderFault> {
    let folder = lock_folder(rt, alloc, path)?;
    let rack = file_rack(rt, alloc, path, &folder)?;
    Ok(run_over(rt, alloc, command, rack)?)
}

/// Runs a command over these disks, none of which counts a fault yet, and the program's input and output.
fn run_over<D: Disk + Send + Drop>(
    rt: &(impl Input + Print + Threads + Wait + Sync),
    alloc: Global,
    command: &[String],
    rack: Rack<D>,
) -> Result<Status, AllocError>
    requires acceptors { vec_len rack.acceptors ≡ 64 }
    requires vaults { vec_len rack.vaults ≡ 17 }
    requires faultless { AreFaultless D.fault_count rack }
{
    let mut source = StdSource::over(rt.reader());
    let mut sink = StdSink::over(io::writer(rt));
    let mut fates = seeded_fates(alloc)?;
    Ok(cluster(rt, alloc, command, &mut source, &mut sink, rack, &mut fates).0)
}

/// Unused disks in memory: empty, with no trouble before them and no fault counted.
fn memory_rack(alloc: Global) -> Result<Rack<MemoryDisk>, AllocError>
    ensures acceptors { IfOk result (λ rack. vec_len rack.acceptors ≡ 64) }
    ensures vaults { IfOk result (λ rack. vec_len rack.vaults ≡ 17) }
    ensures unused { IfOk result (λ rack. AreUnused rack) }
    ensures faultless { IfOk result (λ rack. AreFaultless faults_of rack) }
{
    let acceptors = memory_disks(alloc, ACCEPTORS)?;
    let vaults = memory_disks(alloc, VAULTS)?;
    Ok(Rack { acceptors, vaults })
}

/// So many unused disks in memory.
fn memory_disks(alloc: Global, count: u8) -> Result<Vec<MemoryDisk>, AllocError>
    ensures count { IfOk result (λ disks. vec_len disks ≡ count) }
    ensures unused { IfOk result (λ disks. All IsUnused disks.items) }
    ensures faultless { IfOk result (λ disks. CountNoFault faults_of disks.items) }
{
    let mut disks = Vec::with_capacity(alloc, usize::from(count))?;
    for _disk in 0..count {
        disks.push(MemoryDisk::new(alloc, Vec::new(alloc), Vec::new(alloc), Image::New))?;
    }
    Ok(disks)
}
