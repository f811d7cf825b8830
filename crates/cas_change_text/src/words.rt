//! The words of a line, one after another.

ghost use Rattle.std.specs.Prelude.{◌≡◌, ◌+◌, ◌∷◌, [], length, take, IfSome, OnSome, IfNone};
ghost use Rattle.std.specs.List.{prefix_len};
ghost use Rattle.std.specs.Prelude.{not};
ghost use Rattle.cas_change_text.specs.Words.{is_blank, words_of, all_of};

use std::marker::Model;

/// What is left of a line: the words that no reader has taken, and how many were taken.
///
/// Words are what stands between blanks, which are spaces and tabs. Blanks at either end mean nothing.
#[derive(Debug, Drop)]
pub struct Words<'a> {
    rest: &'a [u8],
    at: usize,
}

impl<'a> Model for Words<'a> {
    ghost use Rattle.std.specs.Prelude.{◌+◌, ◌^◌, ◌<◌, length};
    ghost use Rattle.cas_change_text.specs.Words.{words_of, WordsLeft};

    ghost Value = { WordsLeft };

    ghost view = { λ w. record { at = w.at; words = words_of w.rest.now } };

    ghost invariant = { λ w. w.at + length w.rest.now < 2 ^ 64 };
}

/// Whether the byte is a space or a tab.
fn is_blank(byte: u8) -> bool
    ensures { result ≡ is_blank byte }
{
    byte == b' ' || byte == b'\t'
}

/// How many blanks stand in front.
fn count_blanks(bytes: &[u8]) -> usize
    ensures { result ≡ prefix_len is_blank bytes.now }
{
    bytes.iter().take_while(|byte| is_blank(**byte)).count()
}

/// How many bytes stand before the first blank.
fn count_before_blank(bytes: &[u8]) -> usize
    ensures { result ≡ prefix_len (λ byte. not (is_blank byte)) bytes.now }
{
    bytes.iter().take_while(|byte| !is_blank(**byte)).count()
}

impl<'a> Words<'a> {
    /// All words of the line.
    pub fn of(line: &'a [u8]) -> Words<'a>
        ensures { result ≡ all_of (words_of line.now) }
    {
        Words { rest: line, at: 0 }
    }

    /// How many words were taken.
    pub fn taken(&self) -> usize
        ensures { result ≡ self.now.at }
    {
        self.at
    }

    /// Takes the next word. `None` where there is none, and then nothing changes.
    pub fn next(&mut self) -> Option<&'a [u8]>
        ensures word { IfSome result (λ word. self.old.words ≡ word.now ∷ self.new.words) }
        ensures taken { OnSome result (self.new.at ≡ self.old.at + 1) }
        ensures none { IfNone result (self.old.words ≡ []) }
        ensures unchanged { IfNone result (self.new ≡ self.old) }
    {
        let (_, from_word) = self.rest.split_at(count_blanks(self.rest));
        let (word, rest) = from_word.split_at(count_before_blank(from_word));
        if word.is_empty() {
            return None;
        }
        self.rest = rest;
        self.at += 1;
        Some(word)
    }
}
