//! A real file as a disk. It tells nothing of its content or of crashes: no proof can speak of what a real file keeps.
ghost use Rattle.std.specs.Prelude.{◌≡◌, ◌≤◌, [], length, Err, IfOk, OnOk, OnErr, MatchOption};

use crate::{Disk, DiskFault};
use cas_base::raised;
use std::fs::File;
use std::io::{self, ErrorKind};
use std::os::unix::fs::FileExt;

/// A disk over a file.
///
/// A write or a sync that fails closes the file, since nothing is known then of what the file keeps. Over no file, and once it
/// has closed its own, each `len`, `read`, `write_at` and `sync` fails, also after a crash. Another disk over the file, opened
/// anew, does not know of the failure. A `len` or a `read` that fails leaves the file open.
///
/// A read or a write that is short, or that a signal interrupts, goes on. A write of which the file takes no byte fails.
#[derive(Drop)]
pub struct FileDisk {
    file: Option<File>,
    faults: u64,
}

impl FileDisk {
    ghost use Rattle.cas_disk.specs.File.{file_of, faults_of, HasFailed, CountsFailure};

    /// A disk over this file, which was opened to read and to write, with no fault so far.
    pub fn over(file: Option<File>) -> FileDisk
        ensures file { file_of result ≡ file }
        ensures faults { faults_of result ≡ 0 }
    {
        FileDisk { file, faults: 0 }
    }

    /// What an answer of the file is as an answer of the disk. An error counts as a fault.
    fn counted<T>(&mut self, answer: Option<T>) -> Result<T, DiskFault>
        ensures answer { MatchOption answer (result ≡ Err DiskFault.Failed) (λ x. result ≡ Ok x) }
        ensures file { file_of self.new ≡ file_of self.old }
        ensures count { CountsFailure result (faults_of self.old) (faults_of self.new) }
    {
        match answer {
            Some(x) => Ok(x),
            None => {
                self.faults = raised(self.faults);
                Err(DiskFault::Failed)
            }
        }
    }

    /// What an answer of the file to a write or a sync is as an answer of the disk. An error closes the file, and counts as a fault.
    fn settled(&mut self, answer: Option<()>) -> Result<(), DiskFault>
        ensures answer { MatchOption answer (result ≡ Err DiskFault.Failed) (λ x. result ≡ Ok x) }
        ensures file { OnOk result (file_of self.new ≡ file_of self.old) }
        ensures fails { OnErr result (HasFailed self.new) }
        ensures count { CountsFailure result (faults_of self.old) (faults_of self.new) }
    {
        if answer.is_none() {
            self.file = None;
        }
        self.counted(answer)
    }
}

/// Reads once from a file, and again where a signal interrupted it.
fn read_some(file: &File, at: u64, buf: &mut [u8]) -> io::Result<usize>
    ensures { IfOk result (λ n. n ≤ length buf.old) }
{
    for _turn in 0..u64::MAX {
        match file.read_at(buf, at) {
            Err(error) if error.kind() == ErrorKind::Interrupted => {}
            answer => return answer,
        }
    }
    Err(io::Error::from(ErrorKind::Interrupted))
}

/// Reads from a file until the buffer is full or the file ends.
fn read_front(file: &File, at: u64, buf: &mut [u8]) -> io::Result<usize>
    ensures { IfOk result (λ n. n ≤ length buf.old) }
{
    let mut filled = 0;
    while filled < buf.len() {
        let from = at.saturating_add(filled as u64);
        let more = read_some(file, from, &mut buf[filled..])?;
        if more == 0 {
            break;
        }
        filled += more;
    }
    Ok(filled)
}

impl Disk for FileDisk {
    ghost use Rattle.cas_disk.specs.File.{file_of, faults_of, HasFailed, CountsFailure};

    ghost tells = { ⊥ };

    ghost seen = { λ _. [] };

    ghost may_leave = { λ _ _. ⊥ };

    ghost moment = { λ _. 0 };

    ghost left_since = { λ _ _ _. ⊥ };

    ghost fault_count = { λ d. d.faults };

    ghost seen_may_stay = { λ _ tells. absurd tells };

    ghost counts_now = { λ _ _ _ tells _ _. absurd tells };

    ghost only_now = { λ _ _ tells _. absurd tells };

    fn len(&mut self) -> Result<u64, DiskFault>
        ensures file { file_of self.new ≡ file_of self.old }
        ensures stays_failed { HasFailed self.old → result ≡ Err DiskFault.Failed }
        ensures count { CountsFailure result (faults_of self.old) (faults_of self.new) }
    {
        let answer = match &self.file {
            Some(file) => file.metadata().ok().map(|about| about.len()),
            None => None,
        };
        self.counted(answer)
    }

    fn read(&mut self, at: u64, buf: &mut [u8]) -> Result<usize, DiskFault>
        ensures within { IfOk result (λ n. n ≤ length buf.old) }
        ensures file { file_of self.new ≡ file_of self.old }
        ensures stays_failed { HasFailed self.old → result ≡ Err DiskFault.Failed }
        ensures count { CountsFailure result (faults_of self.old) (faults_of self.new) }
    {
        let answer = match &self.file {
            Some(file) => read_front(file, at, buf).ok(),
            None => None,
        };
        self.counted(answer)
    }

    fn write_at(&mut self, at: u64, bytes: &[u8]) -> Result<(), DiskFault>
        ensures file { OnOk result (file_of self.new ≡ file_of self.old) }
        ensures fails { OnErr result (HasFailed self.new) }
        ensures stays_failed { HasFailed self.old → result ≡ Err DiskFault.Failed }
        ensures count { CountsFailure result (faults_of self.old) (faults_of self.new) }
    {
        let answer = match &self.file {
            Some(file) => file.write_all_at(bytes, at).ok(),
            None => None,
        };
        self.settled(answer)
    }

    fn sync(&mut self) -> Result<(), DiskFault>
        ensures file { OnOk result (file_of self.new ≡ file_of self.old) }
        ensures fails { OnErr result (HasFailed self.new) }
        ensures stays_failed { HasFailed self.old → result ≡ Err DiskFault.Failed }
        ensures count { CountsFailure result (faults_of self.old) (faults_of self.new) }
    {
        let answer = match &self.file {
            Some(file) => file.sync_data().ok(),
            None => None,
        };
        self.settled(answer)
    }

    /// Does nothing: no call can make a real file crash.
    fn crash(&mut self)
        ensures { self.new ≡ self.old }
    {}

    fn forget_past(&mut self)
        ensures { self.new ≡ self.old }
    {}

    fn faults(&self) -> u64 {
        self.faults
    }
}
