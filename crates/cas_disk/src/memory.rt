//! A disk in memory, which fails at the calls that it was told to fail at and leaves the image of a crash that it was told to
//! leave. It tells its content and what a crash may leave.
ghost use Rattle.std.specs.Prelude.{◌≡◌, ◌≤◌, ◌<◌, ◌-◌, ◌^◌, ⊤, ℕ, List, false, IsTrue, min, length, take, drop, IfOk, OnOk, OnErr, IsErrOf, MatchResult};
ghost use Rattle.cas_base.specs.Faults.{Rose, FailsByCount};
ghost use Rattle.cas_disk.specs.Disk.{HoldsBytes, Torn, OutcomesFollow, Only, Keeps, Elapses, HasCause};
ghost use Rattle.cas_disk.specs.Memory.{trouble_at};

pub use crate::medium::Image;
use crate::medium::Medium;
use crate::{Disk, DiskFault};
use cas_base::raised;
use std::alloc::Global;

/// What goes wrong at a call.
#[derive(Clone, Copy, Debug, PartialEq, Eq)]
pub enum Trouble {
    /// The call fails.
    Fail,
    /// The call fails, and so does each call after it until a crash.
    Stop,
}

/// A disk in memory.
///
/// The calls of `len`, `read`, `write_at` and `sync` are numbered together, from 1. It fails at a call exactly where a trouble
/// stands at its number, or where it is stopped. At a call that fails it does nothing, but for the write at which it stops: that
/// one is under way, so a crash leaves of it what the image says.
///
/// It keeps each write since the last sync, and those before since the last `forget_past`, so that proofs can speak of past
/// moments.
#[derive(Drop)]
pub struct MemoryDisk {
    medium: Medium,
    troubles: Vec<(u64, Trouble)>,
    image: Image,
    calls: u64,
    stopped: bool,
    faults: u64,
}

impl MemoryDisk {
    ghost use Rattle.cas_disk.specs.Memory.{bytes_of, durable_of, troubles_of, image_of, faults_of, calls_of, is_stopped, next_trouble, IsCall};

    /// A disk with these bytes, all of them durable, that has the troubles at the calls of these numbers and leaves this image
    /// at a crash.
    pub fn new(
        alloc: Global,
        bytes: Vec<u8>,
        troubles: Vec<(u64, Trouble)>,
        image: Image,
    ) -> MemoryDisk
        ensures bytes { bytes_of result ≡ bytes.items }
        ensures troubles { troubles_of result ≡ troubles.items }
        ensures image { image_of result ≡ image }
        ensures faults { faults_of result ≡ 0 }
        ensures calls { calls_of result ≡ 0 }
        ensures runs { is_stopped result ≡ false }
        ensures durable { durable_of result ≡ bytes.items }
    {
        MemoryDisk {
            medium: Medium::new(alloc, bytes),
            troubles,
            image,
            calls: 0,
            stopped: false,
            faults: 0,
        }
    }

    /// The bytes that a read gives.
    pub fn bytes(&self) -> &[u8]
        ensures { result.now ≡ bytes_of self.now }
    {
        &self.medium.bytes
    }

    // What goes wrong at the next call.
    fn next_trouble(&self) -> Option<Trouble>
        ensures { result ≡ next_trouble self.now }
    {
        trouble_at(&self.troubles, self.calls.saturating_add(1))
    }

    // Makes the next call, and fails it where it has a trouble or the disk is stopped.
    fn begin(&mut self) -> Result<(), DiskFault>
        ensures call { IsCall result self.old self.new }
        ensures medium { self.new.medium ≡ self.old.medium }
        ensures cause { MatchResult result (λ _. self.new.faults ≡ self.old.faults) (λ e.
            (e ≡ DiskFault.Failed) × Rose self.old.faults self.new.faults) }
        ensures never_falls { self.old.faults ≤ self.new.faults }
    {
        let trouble = self.next_trouble();
        self.calls = self.calls.saturating_add(1);
        self.stopped = self.stopped || trouble == Some(Trouble::Stop);
        if self.stopped || trouble.is_some() {
            self.faults = raised(self.faults);
            return Err(DiskFault::Failed);
        }
        Ok(())
    }
}

/// The first trouble at the call of this number.
fn trouble_at(troubles: &[(u64, Trouble)], call: u64) -> Option<Trouble>
    ensures { result ≡ trouble_at troubles.now call }
{
    let found = troubles.iter().find(|trouble| trouble.0 == call)?;
    Some(found.1)
}

/// Copies the bytes from `at` on into the front of a buffer, and answers how many.
fn copy_front(bytes: &[u8], at: usize, buf: &mut [u8]) -> usize
    ensures all { result ≡ min (length buf.old) (length bytes.now - at) }
    ensures bytes { take result buf.new ≡ take result (drop at bytes.now) }
{
    if at >= bytes.len() {
        return 0;
    }
    let count = buf.len().min(bytes.len() - at);
    buf[..count].copy_from_slice(&bytes[at..at + count]);
    count
}

impl Disk for MemoryDisk {
    ghost use Rattle.cas_disk.specs.MediumLaws.{seen_is_image, after_now};
    ghost use Rattle.cas_disk.specs.Memory.{bytes_of, durable_of, troubles_of, image_of, faults_of, calls_of, is_stopped, stops_next, IsCall};
    ghost use Rattle.cas_disk.specs.Moments.{moment_in, epochs_in, may_leave_in, left_in};
    ghost use Rattle.std.proofs.Common.{inl, inr};

    ghost tells = { ⊤ };

    ghost seen = { λ d. d.medium.bytes.items };

    ghost may_leave = { λ d c. may_leave_in d.medium c };

    ghost moment = { λ d. moment_in d.medium };

    ghost left_since = { λ d t c. left_in d.medium t c };

    ghost fault_count = { λ d. d.faults };

    ghost seen_may_stay = { λ d _. seen_is_image d.medium.pending.items d.medium.bytes.items d.medium.fit };

    ghost counts_now = { λ _ _ _ _ _ now. inr (inl now) };

    ghost only_now = { λ d c _ left. after_now d.medium.forgotten d.medium.past.items d.medium.pending.items d.medium.bytes.items c left };

    fn len(&mut self) -> Result<u64, DiskFault>
        ensures call { IsCall result self.old self.new }
        ensures told { IfOk result (λ n. n ≡ length (bytes_of self.old)) }
        ensures medium { self.new.medium ≡ self.old.medium }
        ensures cause { HasCause result (faults_of self.old) (faults_of self.new) }
    {
        self.begin()?;
        Ok(self.medium.bytes.len() as u64)
    }

    fn read(&mut self, at: u64, buf: &mut [u8]) -> Result<usize, DiskFault>
        ensures call { IsCall result self.old self.new }
        ensures all { IfOk result
            (λ n. n ≡ min (length buf.old) (length (bytes_of self.old) - at)) }
        ensures bytes { IfOk result (λ n. take n buf.new ≡ take n (drop at (bytes_of self.old))) }
        ensures medium { self.new.medium ≡ self.old.medium }
        ensures cause { HasCause result (faults_of self.old) (faults_of self.new) }
    {
        self.begin()?;
        Ok(copy_front(&self.medium.bytes, at as usize, buf))
    }

    fn write_at(&mut self, at: u64, bytes: &[u8]) -> Result<(), DiskFault>
        requires { at ≤ length (bytes_of self.old) }
        ensures call { IsCall result self.old self.new }
        ensures written { OnOk result
            (HoldsBytes (bytes_of self.old) at bytes.now (bytes_of self.new)) }
        ensures unchanged { IsErrOf result DiskFault.NoMemory → Keeps (bytes_of self.old)
            (bytes_of self.new) (may_leave_in self.old.medium) (may_leave_in self.new.medium) }

        // Where it fails nothing is written, unless the disk stops here: then the write is under way.
        ensures failed { IsErrOf result DiskFault.Failed
            → stops_next self.old ≡ false → self.new.medium ≡ self.old.medium }
        ensures under_way { IsErrOf result DiskFault.Failed → IsTrue (stops_next self.old)
            → HoldsBytes (bytes_of self.old) at bytes.now (bytes_of self.new) }
        ensures durable { durable_of self.new ≡ durable_of self.old }

        ensures crash { OutcomesFollow (Torn at (length bytes.now))
            (may_leave_in self.old.medium) (may_leave_in self.new.medium) }
        ensures time { Elapses (moment_in self.old.medium) (moment_in self.new.medium)
            (left_in self.old.medium) (left_in self.new.medium) (may_leave_in self.new.medium) }
        ensures cause { HasCause result (faults_of self.old) (faults_of self.new) }
    {
        let stops = !self.stopped && self.next_trouble() == Some(Trouble::Stop);
        let answer = self.begin();
        if stops || answer.is_ok() {
            self.medium.write(at as usize, bytes)?;
        }
        answer
    }

    fn sync(&mut self) -> Result<(), DiskFault>
        ensures call { IsCall result self.old self.new }
        ensures durable { OnOk result (durable_of self.new ≡ bytes_of self.old) }
        ensures same { bytes_of self.new ≡ bytes_of self.old }
        ensures nothing_pending { OnOk result
            (Only (bytes_of self.new) (may_leave_in self.new.medium)) }
        ensures err { OnErr result (self.new.medium ≡ self.old.medium) }
        ensures crash { (c : List ℕ)
            → may_leave_in self.new.medium c → may_leave_in self.old.medium c }
        ensures time { Elapses (moment_in self.old.medium) (moment_in self.new.medium)
            (left_in self.old.medium) (left_in self.new.medium) (may_leave_in self.new.medium) }
        ensures no_memory { IsErrOf result DiskFault.NoMemory → ⊥ }
        ensures cause { FailsByCount result (faults_of self.old) (faults_of self.new) }
    {
        self.begin()?;
        self.medium.settle();
        Ok(())
    }

    fn crash(&mut self)
        // It leaves what was durable, what a read gave, or of noise one of the contents that a crash may leave.
        ensures old { image_of self.old ≡ Image.Old → bytes_of self.new ≡ durable_of self.old }
        ensures new { image_of self.old ≡ Image.New → bytes_of self.new ≡ bytes_of self.old }
        ensures image { may_leave_in self.old.medium (bytes_of self.new) }
        ensures settled { Only (bytes_of self.new) (may_leave_in self.new.medium) }

        // It runs again, and the calls go on.
        ensures runs { is_stopped self.new ≡ false }
        ensures calls { calls_of self.new ≡ calls_of self.old }
        ensures same_troubles { troubles_of self.new ≡ troubles_of self.old }
        ensures same_image { image_of self.new ≡ image_of self.old }
        ensures faults { faults_of self.new ≡ faults_of self.old }
        ensures time { Elapses (moment_in self.old.medium) (moment_in self.new.medium)
            (left_in self.old.medium) (left_in self.new.medium) (may_leave_in self.new.medium) }
    {
        self.stopped = false;
        self.medium.crash(self.image);
    }

    fn forget_past(&mut self)
        ensures forgotten { moment_in self.old.medium < 2 ^ 64 → epochs_in self.new.medium ≡ 0 }
        ensures bytes { bytes_of self.new ≡ bytes_of self.old }
        ensures outcomes { (c : List ℕ)
            → may_leave_in self.new.medium c → may_leave_in self.old.medium c }
        ensures durable { durable_of self.new ≡ durable_of self.old }
        ensures now { moment_in self.new.medium ≡ moment_in self.old.medium }
        ensures calls { calls_of self.new ≡ calls_of self.old }
        ensures same_stopped { is_stopped self.new ≡ is_stopped self.old }
        ensures same_troubles { troubles_of self.new ≡ troubles_of self.old }
        ensures same_image { image_of self.new ≡ image_of self.old }
        ensures faults { faults_of self.new ≡ faults_of self.old }
    {
        self.medium.forget();
    }

    fn faults(&self) -> u64 {
        self.faults
    }
}
