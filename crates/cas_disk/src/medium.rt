//! What a disk in memory holds: its bytes, the writes since the last sync, and what is needed to say which contents a crash
//! could leave at each moment that is not forgotten. Which calls fail, and when the disk crashes, is decided elsewhere.
ghost use Rattle.std.specs.Prelude.{◌≡◌, ◌⊎◌, [], ◌∷◌, ◌++◌, ◌<◌, ◌≤◌, ◌+◌, ◌^◌, IsTrue, OnOk, OnErr, length, take, drop, vec_len, vec_capacity};
ghost use Rattle.cas_disk.specs.Disk.{HoldsBytes, Torn, OutcomesFollow, Elapses};
ghost use Rattle.cas_disk.specs.Medium.{undo, undone, fits, all_fit, IsImage, started_with, Closes};

use rand_core::SeedableRng;
use rand_core::utils::NextWord;
use rand_pcg::Pcg32;
use std::alloc::{AllocError, Global};
use std::mem;

/// What a crash leaves of the writes since the last sync.
#[derive(Clone, Copy, Debug, PartialEq, Eq)]
pub enum Image {
    /// None of them.
    Old,
    /// All of them.
    New,
    /// Bytes drawn from this seed in the place of theirs.
    Noise(u64),
}

/// A write: where it went, how many bytes it put there, and what stood there before.
#[derive(Drop)]
pub struct Write {
    pub at: usize,
    pub len: usize,
    pub old: Vec<u8>,
}

/// How the content at the start of an epoch comes from the content at its end.
#[derive(Drop)]
pub enum Before {
    /// The writes are undone.
    Undone,
    /// It is the same.
    Same,
    /// It was this.
    Content(Vec<u8>),
}

/// The time from one sync or crash to the next: its writes, the newest first, and the content that it began with.
#[derive(Drop)]
pub struct Epoch {
    pub writes: Vec<Write>,
    pub before: Before,
}

/// Bytes, the writes since the last sync or crash with the newest first, the epochs before with the oldest first, and how many
/// epochs before these were forgotten.
#[derive(Drop)]
pub struct Medium {
    alloc: Global,
    pub bytes: Vec<u8>,
    pub pending: Vec<Write>,
    pub past: Vec<Epoch>,
    pub forgotten: u64,
    ghost fit: { IsTrue (all_fit pending.items bytes.items) },
    ghost room: { 0 < length pending.items → length past.items < vec_capacity past },
}

impl Medium {
    ghost use Rattle.cas_disk.specs.Moments.{durable_in, moment_in, may_leave_in, left_in};

    /// A medium with these bytes, all of them durable.
    pub fn new(alloc: Global, bytes: Vec<u8>) -> Medium
        ensures bytes { result.bytes.items ≡ bytes.items }
        ensures pending { result.pending.items ≡ [] }
        ensures past { result.past.items ≡ [] }
    {
        Medium {
            alloc,
            bytes,
            pending: Vec::new(alloc),
            past: Vec::new(alloc),
            forgotten: 0,
        }
    }

    /// Lets go of the epochs that are over. Where their number would not fit in a `u64`, they are kept.
    pub fn forget(&mut self)
        ensures bytes { self.new.bytes.items ≡ self.old.bytes.items }
        ensures pending { self.new.pending.items ≡ self.old.pending.items }
        ensures moment { moment_in self.new ≡ moment_in self.old }
        ensures forgotten { moment_in self.old < 2 ^ 64 → self.new.past.items ≡ [] }
    {
        if let Some(forgotten) = self.forgotten.checked_add(self.past.len() as u64) {
            self.past.clear();
            self.forgotten = forgotten;
        }
    }

    /// Writes over what is there, and past the end. After an `Err` nothing changed.
    pub fn write(&mut self, at: usize, piece: &[u8]) -> Result<(), AllocError>
        requires { at ≤ length self.old.bytes.items }
        ensures held { OnOk result
            (HoldsBytes self.old.bytes.items at piece.now self.new.bytes.items) }
        ensures crash { OutcomesFollow (Torn at (length piece.now))
            (may_leave_in self.old) (may_leave_in self.new) }
        ensures durable { durable_in self.new ≡ durable_in self.old }
        ensures time { Elapses (moment_in self.old)
            (moment_in self.new) (left_in self.old) (left_in self.new) (may_leave_in self.new) }
        ensures bytes_err { OnErr result (self.new.bytes.items ≡ self.old.bytes.items) }
        ensures pending_err { OnErr result (self.new.pending.items ≡ self.old.pending.items) }
    {
        let over = piece.len().min(self.bytes.len() - at);
        let old = self.bytes[at..at + over].to_vec(self.alloc)?;
        self.past.reserve(1)?;
        self.pending.reserve(1)?;
        put(&mut self.bytes, at, piece)?;
        let write = Write {
            at,
            len: piece.len(),
            old,
        };
        push_newest(&mut self.pending, write);
        Ok(())
    }

    /// Makes all that was written durable.
    pub fn settle(&mut self)
        ensures bytes { self.new.bytes.items ≡ self.old.bytes.items }
        ensures pending { self.new.pending.items ≡ [] }
        ensures time { Elapses (moment_in self.old)
            (moment_in self.new) (left_in self.old) (left_in self.new) (may_leave_in self.new) }
    {
        close(
            self.alloc,
            &mut self.past,
            &mut self.pending,
            Before::Undone,
        );
    }

    /// Leaves of the writes since the last sync what the image says.
    pub fn crash(&mut self, image: Image)
        ensures image { may_leave_in self.old self.new.bytes.items }
        ensures old { image ≡ Image.Old → self.new.bytes.items ≡ durable_in self.old }
        ensures new { image ≡ Image.New → self.new.bytes.items ≡ self.old.bytes.items }
        ensures pending { self.new.pending.items ≡ [] }
        ensures time { Elapses (moment_in self.old)
            (moment_in self.new) (left_in self.old) (left_in self.new) (may_leave_in self.new) }
    {
        let before = redraw(self.alloc, &mut self.bytes, &self.pending, image);
        close(self.alloc, &mut self.past, &mut self.pending, before);
    }
}

/// Ends the epoch of these writes. Where there are none, none is recorded.
fn close(alloc: Global, past: &mut Vec<Epoch>, pending: &mut Vec<Write>, before: Before)
    requires { 0 < length pending.old.items → length past.old.items < vec_capacity past.old }
    ensures pending { pending.new.items ≡ [] }
    ensures past { Closes past.old.items pending.old.items before past.new.items }
{
    if pending.is_empty() {
        return;
    }
    let writes = mem::replace(pending, Vec::new(alloc));
    let closed = past.push(Epoch { writes, before }).is_ok();
    prove!(closed);
}

/// Puts a write in front of the writes so far, for which there is room.
fn push_newest(pending: &mut Vec<Write>, write: Write)
    requires { length pending.old.items < vec_capacity pending.old }
    ensures { pending.new.items ≡ write ∷ pending.old.items }
{
    let added = pending.insert(0, write).is_ok();
    prove!(added);
}

/// Puts bytes over what is there, and past the end. After an `Err` nothing changed.
fn put(bytes: &mut Vec<u8>, at: usize, piece: &[u8]) -> Result<(), AllocError>
    requires { at ≤ length bytes.old.items }
    ensures ok { OnOk result (HoldsBytes bytes.old.items at piece.now bytes.new.items) }
    ensures err { OnErr result (bytes.new.items ≡ bytes.old.items) }
{
    let over = piece.len().min(bytes.len() - at);
    bytes.extend_from_slice(&piece[over..])?;
    bytes[at..at + over].copy_from_slice(&piece[..over]);
    Ok(())
}

/// Undoes a write in place.
fn undo(bytes: &mut Vec<u8>, write: &Write)
    requires { IsTrue (fits write.now bytes.old.items) }
    ensures { bytes.new.items ≡ undo write.now bytes.old.items }
{
    let end = write.at + write.old.len();
    bytes[write.at..end].copy_from_slice(&write.old);
    if write.old.len() < write.len {
        bytes.truncate(end);
    }
}

/// Undoes writes, the newest of them first.
fn undo_all(bytes: &mut Vec<u8>, writes: &[Write])
    requires { IsTrue (all_fit writes.now bytes.old.items) }
    ensures { bytes.new.items ≡ undone writes.now bytes.old.items }
{
    for write in writes {
        undo(bytes, write);
    }
}

/// Puts noise into a range, as far past the end as memory is found.
fn spread(bytes: &mut Vec<u8>, at: usize, len: usize, random: &mut Pcg32)
    ensures { Torn at len bytes.old.items bytes.new.items }
{
    for k in 0..len {
        let noise = random.next_word().to_le_bytes()[0];
        if at < bytes.len() && k < bytes.len() - at {
            bytes[at + k] = noise;
        } else if at <= bytes.len() && k == bytes.len() - at {
            let _ = bytes.push(noise);
        }
    }
}

/// Puts noise into the ranges of these writes, of which the newest is the first.
fn spread_all(bytes: &mut Vec<u8>, writes: &[Write], seed: u64)
    ensures { IsImage bytes.old.items writes.now bytes.new.items }
{
    let mut random = Pcg32::seed_from_u64(seed);
    let count = writes.len();
    for i in 0..count {
        let write = &writes[count - 1 - i];
        spread(bytes, write.at, write.len, &mut random);
    }
}

/// Leaves of these writes, the newest first, what the image says. Noise for which no memory is found leaves none of them.
fn redraw(alloc: Global, bytes: &mut Vec<u8>, writes: &[Write], image: Image) -> Before
    requires { IsTrue (all_fit writes.now bytes.old.items) }
    ensures image { IsImage (undone writes.now bytes.old.items) writes.now bytes.new.items }
    ensures old { image ≡ Image.Old → bytes.new.items ≡ undone writes.now bytes.old.items }
    ensures new { image ≡ Image.New → bytes.new.items ≡ bytes.old.items }
    ensures before { started_with result writes.now bytes.new.items
        ≡ undone writes.now bytes.old.items }
{
    match image {
        Image::New => Before::Undone,
        Image::Old => {
            undo_all(bytes, writes);
            Before::Same
        }
        Image::Noise(seed) => {
            undo_all(bytes, writes);
            match bytes.to_vec(alloc) {
                Ok(durable) => {
                    spread_all(bytes, writes, seed);
                    Before::Content(durable)
                }
                Err(_) => Before::Same,
            }
        }
    }
}
