//! The lines of an input, one by one, as soon as each is there.
//!
//! An input may have 1,000,000 lines, and each of them 65,536 bytes. What a line says is no matter of its reader.

ghost use Rattle.std.specs.Prelude.{◌≡◌, ◌≢◌, ℕ, ◌+◌, ◌-◌, ◌<◌, ◌≤◌, ◌++◌, [], length, take, drop, max, true, false, vec_len, IfOk, IfSome, IfNone, OnSome, OnOk, OnErr, IsErrOf};
ghost use Rattle.std.specs.Io.{StartsWith};
ghost use Rattle.std.specs.Io.KnownBytes.{Keeps, IsAtEnd, prepend_known};
ghost use Rattle.std.specs.Io.BufRead.{take_through};
ghost use Rattle.cas_base.specs.Faults.{Rose};
ghost use Rattle.cas_lines.specs.Source.{Bytes, End, Fault};
ghost use Rattle.cas_lines.specs.Filling.{GrowsBy, StopsFilling, StopsAtEnd};
ghost use Rattle.cas_lines.specs.Lines.{has_newline, text_of, ahead, HandsOut, IsLongLine, HasMore, TellsAtOnce};
ghost use Rattle.cas_lines.specs.declared.lines.LineFault.TheVariants.{ReadFault, NoMemory};

use crate::source::{Failed, Source};
use std::alloc::{AllocError, AllocFailed, Global};
use std::marker::Model;
use thiserror::Error;

/// How many bytes a line may have before its newline, with a carriage return that is dropped.
pub const LINE_LIMIT: usize = 65_536;

/// How many lines an input may have.
pub const MOST_LINES: u32 = 1_000_000;

/// How many bytes are asked of a source at once.
const PIECE: usize = 4_096;

/// Why a line could not be read.
#[derive(Clone, Copy, Debug, PartialEq, Eq, Error)]
pub enum LineFault {
    /// The source failed.
    #[error("the input could not be read")]
    ReadFault,
    /// The input has more than 1,000,000 lines.
    #[error("the input has too many lines")]
    TooManyLines,
    /// The line of this number has more than 65,536 bytes.
    #[error("line {line} is too long")]
    Endless { line: u32 },
    /// There was no memory.
    #[error("there is no memory")]
    NoMemory,
}

impl From<Failed> for LineFault {
    ghost from_gives = { λ _ fault. fault ≡ ReadFault };

    fn from(_failed: Failed) -> LineFault {
        LineFault::ReadFault
    }
}

impl From<AllocError> for LineFault {
    ghost from_gives = { λ _ fault. fault ≡ NoMemory };

    fn from(_error: AllocError) -> LineFault {
        LineFault::NoMemory
    }
}

impl<T: Drop> From<AllocFailed<T>> for LineFault {
    ghost from_gives = { λ _ fault. fault ≡ NoMemory };

    fn from(_failed: AllocFailed<T>) -> LineFault {
        LineFault::NoMemory
    }
}

/// One line of an input.
#[derive(Debug, Drop)]
pub struct Line {
    number: u32,
    bytes: Vec<u8>,
}

impl Model for Line {
    ghost use Rattle.cas_lines.specs.Lines.{LineState};

    ghost Value = { LineState };

    ghost view = { λ l. record { number = l.number; bytes = l.bytes.items } };
}

impl Line {
    /// Which line of the input it is, counted from 1.
    pub fn number(&self) -> u32
        ensures { result ≡ self.now.number }
    {
        self.number
    }

    /// Its text, without the newline and without one carriage return right before that.
    pub fn bytes(&self) -> &[u8]
        ensures { result.now ≡ self.now.bytes }
    {
        self.bytes.as_slice()
    }
}

/// Whether some byte is a newline.
fn contains_newline(bytes: &[u8]) -> bool
    ensures { result ≡ has_newline bytes.now }
{
    bytes.contains(&b'\n')
}

/// Whether some byte from this index on is a newline.
fn has_newline_from(bytes: &[u8], from: usize) -> bool
    requires { from ≤ length bytes.now }
    ensures { result ≡ has_newline (drop from bytes.now) }
{
    contains_newline(&bytes[from..])
}

/// Whether some byte of the first ones is a newline.
fn has_newline_within(bytes: &[u8], room: usize) -> bool
    ensures { result ≡ has_newline (take room bytes.now) }
{
    contains_newline(&bytes[..room.min(bytes.len())])
}

/// Where the first line ends.
#[derive(Clone, Copy, Debug, PartialEq, Eq)]
struct Cut {
    /// How many bytes its text has.
    text: usize,
    /// How many bytes it has with its ending.
    spelled: usize,
}

/// Where the first line of these bytes ends, or its last where no newline comes.
fn first_cut(bytes: &[u8]) -> Cut
    ensures text { take result.text bytes.now ≡ text_of bytes.now }
    ensures spelled { result.spelled ≡ length (take_through 10 bytes.now) }
    ensures order { (result.text ≤ result.spelled) × (result.spelled ≤ length bytes.now) }
    ensures some { 0 < length bytes.now → 0 < result.spelled }
{
    for (at, byte) in bytes.iter().enumerate() {
        if *byte == b'\n' {
            return Cut {
                text: at,
                spelled: at + 1,
            };
        }
        if *byte == b'\r' && at + 1 < bytes.len() && bytes[at + 1] == b'\n' {
            return Cut {
                text: at,
                spelled: at + 2,
            };
        }
    }
    Cut {
        text: bytes.len(),
        spelled: bytes.len(),
    }
}

/// Drops the first bytes.
fn drop_front(bytes: &mut Vec<u8>, count: usize)
    requires { count ≤ vec_len bytes.old }
    ensures items { bytes.new.items ≡ drop count bytes.old.items }
    ensures len { vec_len bytes.new + count ≡ vec_len bytes.old }
{
    bytes.rotate_left(count);
    let left = bytes.len() - count;
    bytes.truncate(left);
}

/// Takes one piece of the source behind the bytes that are held, and answers how many bytes it has. It goes at most
/// up to the room, or one byte beyond where the room is full. After an `Err` no byte was taken.
fn take_piece<S: Source>(
    source: &mut S,
    held: &mut Vec<u8>,
    room: usize,
) -> Result<usize, LineFault>
    requires { vec_len held.old ≤ room }
    ensures ahead { Keeps (prepend_known held.old.items (S.remaining source.old))
        (prepend_known held.new.items (S.remaining source.new)) }
    ensures front { StartsWith held.new.items held.old.items }
    ensures count { IfOk result (λ count. vec_len held.new ≡ vec_len held.old + count) }
    ensures end { IfOk result (λ count. count ≡ 0 → IsAtEnd (S.remaining source.new)) }
    ensures bound { vec_len held.new ≤ max room (vec_len held.old + 1) }
    ensures err { OnErr result (held.new.items ≡ held.old.items) }
    ensures bytes { IfOk result (λ count. count ≢ 0 → S.take_gives source.old
        (Bytes (drop (length held.old.items) held.new.items)) source.new) }
    ensures ended { IfOk result (λ count. count ≡ 0 → S.take_gives source.old End source.new) }
    ensures failed { IsErrOf result LineFault.ReadFault → S.take_gives source.old Fault source.new }
    ensures not_asked { IsErrOf result LineFault.NoMemory → source.new ≡ source.old }
    ensures read_fault { IsErrOf result LineFault.ReadFault
        → Rose (S.faults_of source.old) (S.faults_of source.new) }
    ensures not_endless { (line : ℕ) → result ≢ Err (LineFault.Endless line) }
    ensures not_too_many { result ≢ Err LineFault.TooManyLines }
    ensures never_falls { S.faults_of source.old ≤ S.faults_of source.new }
{
    let wanted = (room - held.len()).min(PIECE).max(1);
    let mut piece = [0; PIECE];
    held.reserve(wanted)?;
    let count = source.take(&mut piece[..wanted])?;
    held.extend_from_slice(&piece[..count]).unwrap();
    Ok(count)
}

/// What came of filling up what is held.
#[derive(Clone, Copy, Debug, PartialEq, Eq)]
enum Supply {
    /// A newline stands within the room.
    Line,
    /// No newline stands there, and the source has ended.
    End,
    /// No newline stands there, and a byte stands beyond it.
    Beyond,
}

/// Takes from the source until a newline stands within the room, and leaves it alone where one stands there already.
fn fill<S: Source>(source: &mut S, held: &mut Vec<u8>, room: usize) -> Result<Supply, LineFault>
    ensures ahead { Keeps (prepend_known held.old.items (S.remaining source.old))
        (prepend_known held.new.items (S.remaining source.new)) }
    ensures front { StartsWith held.new.items held.old.items }
    ensures line { result ≡ Ok Supply.Line → has_newline (take room held.new.items) ≡ true }
    ensures end { result ≡ Ok Supply.End → (has_newline held.new.items ≡ false)
        × (vec_len held.new ≤ room) × IsAtEnd (S.remaining source.new) }
    ensures beyond { result ≡ Ok Supply.Beyond
        → (has_newline (take room held.new.items) ≡ false) × (room < vec_len held.new) }
    ensures bound { vec_len held.new ≤ max (vec_len held.old) (room + 1) }
    ensures ready { has_newline (take room held.old.items) ≡ true → source.new ≡ source.old }
    ensures asks { GrowsBy S.take_gives room held.old.items source.old
        (StopsFilling result) held.new.items source.new }
    ensures read_fault { IsErrOf result LineFault.ReadFault
        → Rose (S.faults_of source.old) (S.faults_of source.new) }
    ensures not_endless { (line : ℕ) → result ≢ Err (LineFault.Endless line) }
    ensures not_too_many { result ≢ Err LineFault.TooManyLines }
    ensures never_falls { S.faults_of source.old ≤ S.faults_of source.new }
{
    if has_newline_within(held, room) {
        return Ok(Supply::Line);
    }
    while held.len() <= room {
        let before = held.len();
        let count = take_piece(source, held, room)?;
        if count == 0 {
            return Ok(Supply::End);
        }
        if held.len() <= room && has_newline_from(held, before) {
            return Ok(Supply::Line);
        }
    }
    Ok(Supply::Beyond)
}

/// A reader of the lines of one source, which each call of `next` is passed.
///
/// What was taken and is not handed out stands in `held` from `at` on. It moves to the front only before more is taken.
#[derive(Debug, Drop)]
pub struct Lines {
    alloc: Global,
    held: Vec<u8>,
    at: usize,
    handed: u32,
}

impl Model for Lines {
    ghost use Rattle.std.specs.Prelude.{◌+◌, ◌≤◌, drop, vec_len};
    ghost use Rattle.cas_lines.specs.Lines.{LinesState};
    ghost use Rattle.cas_lines.specs.declared.lines.TheConstants.{LINE_LIMIT, MOST_LINES};

    ghost Value = { LinesState };

    ghost view = { λ l. record { held = drop l.at l.held.items; handed = l.handed } };

    ghost invariant = { λ l. (l.at ≤ vec_len l.held) × (vec_len l.held ≤ LINE_LIMIT + 1) × (l.handed ≤ MOST_LINES) };
}

impl Lines {
    /// A reader that has taken nothing so far.
    pub fn new(alloc: Global) -> Lines
        ensures held { result.held ≡ [] }
        ensures handed { result.handed ≡ 0 }
    {
        Lines {
            alloc,
            held: Vec::new(alloc),
            at: 0,
            handed: 0,
        }
    }

    /// The bytes that were taken and are not handed out.
    fn rest(&self) -> &[u8]
        ensures { result.now ≡ self.now.held }
    {
        &self.held[self.at..]
    }

    /// Hands out the first line of what is held. After an `Err` all is as before.
    fn hand_out(&mut self) -> Result<Line, AllocError>
        requires some { 0 < length self.old.held }
        requires fits { self.old.handed < MOST_LINES }
        ensures number { IfOk result (λ line. line.number ≡ self.old.handed + 1) }
        ensures text { IfOk result (λ line. line.bytes ≡ text_of self.old.held) }
        ensures held { OnOk result
            (self.new.held ≡ drop (length (take_through 10 self.old.held)) self.old.held) }
        ensures handed { OnOk result (self.new.handed ≡ self.old.handed + 1) }
        ensures err { OnErr result (self.new ≡ self.old) }
    {
        let rest = self.rest();
        let cut = first_cut(rest);
        let bytes = Vec::from_slice(self.alloc, &rest[..cut.text])?;
        self.at += cut.spelled;
        self.handed += 1;
        Ok(Line {
            number: self.handed,
            bytes,
        })
    }

    /// Nothing, where the input ends here, and else the fault that a line more begins.
    fn expect_end<S: Source>(&mut self, source: &mut S) -> Result<(), LineFault>
        ensures end { OnOk result (IsAtEnd (ahead self.old (S.remaining source.old))
            × IsAtEnd (S.remaining source.new)) }
        ensures ended { OnOk result (self.new ≡ self.old) }
        ensures too_many { IsErrOf result LineFault.TooManyLines
            → HasMore self.old (S.remaining source.old) }
        ensures not_endless { (line : ℕ) → result ≢ Err (LineFault.Endless line) }
        ensures read_fault { IsErrOf result LineFault.ReadFault
            → Rose (S.faults_of source.old) (S.faults_of source.new) }
        ensures err { OnErr result (Keeps (ahead self.old (S.remaining source.old))
            (ahead self.new (S.remaining source.new))) }
        ensures handed { self.new.handed ≡ self.old.handed }
        ensures ready { 0 < length self.old.held → source.new ≡ source.old }
        ensures asks { GrowsBy S.take_gives 0 self.old.held source.old
            (StopsAtEnd result) self.new.held source.new }
        ensures never_falls { S.faults_of source.old ≤ S.faults_of source.new }
    {
        if !self.rest().is_empty() {
            return Err(LineFault::TooManyLines);
        }
        drop_front(&mut self.held, self.at);
        self.at = 0;
        if take_piece(source, &mut self.held, LINE_LIMIT)? == 0 {
            Ok(())
        } else {
            Err(LineFault::TooManyLines)
        }
    }

    /// Takes from the source until a newline stands within the longest line, and leaves it alone where one stands there
    /// already.
    fn supply<S: Source>(&mut self, source: &mut S) -> Result<Supply, LineFault>
        ensures ahead { Keeps (ahead self.old (S.remaining source.old))
            (ahead self.new (S.remaining source.new)) }
        ensures line { result ≡ Ok Supply.Line
            → has_newline (take LINE_LIMIT self.new.held) ≡ true }
        ensures end { result ≡ Ok Supply.End → (has_newline self.new.held ≡ false)
            × (length self.new.held ≤ LINE_LIMIT) × IsAtEnd (S.remaining source.new) }
        ensures beyond { result ≡ Ok Supply.Beyond → (has_newline (take LINE_LIMIT self.new.held)
            ≡ false) × (LINE_LIMIT < length self.new.held) }
        ensures handed { self.new.handed ≡ self.old.handed }
        ensures ready { has_newline (take LINE_LIMIT self.old.held) ≡ true
            → source.new ≡ source.old }
        ensures asks { GrowsBy S.take_gives LINE_LIMIT self.old.held source.old
            (StopsFilling result) self.new.held source.new }
        ensures read_fault { IsErrOf result LineFault.ReadFault
            → Rose (S.faults_of source.old) (S.faults_of source.new) }
        ensures not_endless { (line : ℕ) → result ≢ Err (LineFault.Endless line) }
        ensures not_too_many { result ≢ Err LineFault.TooManyLines }
        ensures never_falls { S.faults_of source.old ≤ S.faults_of source.new }
    {
        if has_newline_within(self.rest(), LINE_LIMIT) {
            return Ok(Supply::Line);
        }
        drop_front(&mut self.held, self.at);
        self.at = 0;
        fill(source, &mut self.held, LINE_LIMIT)
    }

    /// Hands out the next line, or `None` where the input has ended and all its lines were handed out. It takes from
    /// `source`, of which each call is passed the same, only until the line is there.
    ///
    /// `ReadFault` comes only where the source's count of faults rose. `TooManyLines` comes exactly where 1,000,000 lines
    /// were handed out and a byte is ahead, and `Endless` where the next line has more than 65,536 bytes. After an `Err`
    /// the same lines and bytes are ahead as before, so that these two come again.
    pub fn next<S: Source>(&mut self, source: &mut S) -> Result<Option<Line>, LineFault>
        // A line is the first of what was ahead, and fits.
        ensures line { IfOk result (λ next. IfSome next (λ line. HandsOut self.old self.new
            (S.remaining source.old) (S.remaining source.new) line.bytes)) }
        ensures number { IfOk result
            (λ next. IfSome next (λ line. line.number ≡ self.old.handed + 1)) }
        ensures handed { IfOk result (λ next. IfSome next (λ line. self.new.handed ≡ line.number)) }
        ensures few { IfOk result (λ next. OnSome next (self.old.handed < MOST_LINES)) }

        // No line comes at the end of the input alone.
        ensures end { IfOk result
            (λ next. IfNone next (IsAtEnd (ahead self.old (S.remaining source.old)))) }
        ensures read { IfOk result (λ next. IfNone next (IsAtEnd (S.remaining source.new))) }
        ensures ended { IfOk result (λ next. IfNone next (self.new ≡ self.old)) }

        // The source is asked only while it is open what comes next. What its calls gave decides what is told.
        ensures at_once { TellsAtOnce S.take_gives self.old source.old result self.new source.new }
        // A line whose newline was taken before is handed out with no call of the source.
        ensures ready { has_newline (take LINE_LIMIT self.old.held) ≡ true
            → source.new ≡ source.old }

        ensures read_fault { IsErrOf result LineFault.ReadFault
            → Rose (S.faults_of source.old) (S.faults_of source.new) }
        ensures too_many { IsErrOf result LineFault.TooManyLines →
            (self.old.handed ≡ MOST_LINES) × HasMore self.old (S.remaining source.old) }
        ensures endless { (line : ℕ)
            → IsErrOf result (LineFault.Endless line) → (line ≡ self.old.handed + 1)
            × (self.old.handed < MOST_LINES) × IsLongLine self.old (S.remaining source.old) }
        ensures err { OnErr result (Keeps (ahead self.old (S.remaining source.old))
            (ahead self.new (S.remaining source.new))) }
        ensures err_kept { OnErr result (self.new.handed ≡ self.old.handed) }
        ensures never_falls { S.faults_of source.old ≤ S.faults_of source.new }
    {
        if self.handed == MOST_LINES {
            self.expect_end(source)?;
            return Ok(None);
        }
        let line = self.handed + 1;
        match self.supply(source)? {
            Supply::Line => Ok(Some(self.hand_out()?)),
            Supply::End if self.rest().is_empty() => Ok(None),
            Supply::End => Ok(Some(self.hand_out()?)),
            Supply::Beyond if self.rest()[LINE_LIMIT] == b'\n' => Ok(Some(self.hand_out()?)),
            Supply::Beyond => Err(LineFault::Endless { line }),
        }
    }
}
