//! The lines of a script, and the words of a line.
ghost use Rattle.std.specs.Prelude.{◌≡◌, ◌+◌, ◌≤◌, [], ◌∷◌, not, position, length, drop, MatchOption};
ghost use Rattle.std.specs.Iterator.{YieldsFirstRef, item_count};
ghost use Rattle.script_text.specs.Text.{lines, words, word, without_return};
ghost use Rattle.script_text.specs.Parts.{is_line_feed, is_blank};

use std::marker::Model;

/// The lines of a script that are left, in order. A line ends at a line feed or at the script's
/// end, and comes without the one carriage return at its end. Contracts see the list of them.
#[derive(Drop)]
pub struct Lines<'a> {
    rest: &'a [u8],
}

impl<'a> Model for Lines<'a> {
    ghost use Rattle.std.specs.Prelude.{ℕ, List};
    ghost use Rattle.script_text.specs.Text.{lines};

    ghost Value = { List (List ℕ) };

    ghost view = { λ s. lines s.rest.now };
}

impl<'a> Lines<'a> {
    /// All lines of a script.
    pub fn of(script: &'a [u8]) -> Lines<'a>
        ensures { result ≡ lines script.now }
    {
        Lines { rest: script }
    }
}

impl<'a> Iterator for Lines<'a> {
    type Item = &'a [u8];

    ghost next_gives = { YieldsFirstRef (λ s. s) };

    ghost remaining = { item_count (λ s. s) };

    fn next(&mut self) -> Option<&'a [u8]> {
        let (line, rest) = first_line(self.rest)?;
        self.rest = rest;
        Some(line)
    }
}

/// The first line, and the bytes after its line feed. None where there are no bytes.
#[tactic(auto, using(crate::proofs::TextLemmas::first_lines))]
fn first_line(bytes: &[u8]) -> Option<(&[u8], &[u8])>
    ensures { MatchOption result (lines bytes.now ≡ [])
        (λ found. lines bytes.now ≡ found.0.now ∷ lines found.1.now) }
{
    if bytes.is_empty() {
        return None;
    }
    match line_feed_in(bytes) {
        Some(at) => Some((trimmed(bytes.split_at(at).0), bytes.split_at(at + 1).1)),
        None => Some((trimmed(bytes), &[])),
    }
}

/// The place of the first line feed.
fn line_feed_in(bytes: &[u8]) -> Option<usize>
    ensures { result ≡ position is_line_feed bytes.now }
{
    bytes.iter().position(|byte| *byte == b'\n')
}

/// A line without the one carriage return at its end.
fn trimmed(line: &[u8]) -> &[u8]
    ensures { result.now ≡ without_return line.now }
{
    match line {
        [front @ .., b'\r'] => front,
        _ => line,
    }
}

/// The words of a line that are left, in order. Spaces and tabs stand between them. Contracts see the
/// list of them.
#[derive(Drop)]
pub struct Words<'a> {
    rest: &'a [u8],
}

impl<'a> Model for Words<'a> {
    ghost use Rattle.std.specs.Prelude.{ℕ, List};
    ghost use Rattle.script_text.specs.Text.{words};

    ghost Value = { List (List ℕ) };

    ghost view = { λ s. words s.rest.now };
}

impl<'a> Words<'a> {
    /// All words of a line.
    pub fn of(line: &'a [u8]) -> Words<'a>
        ensures { result ≡ words line.now }
    {
        Words { rest: line }
    }
}

impl<'a> Iterator for Words<'a> {
    type Item = &'a [u8];

    ghost next_gives = { YieldsFirstRef (λ s. s) };

    ghost remaining = { item_count (λ s. s) };

    fn next(&mut self) -> Option<&'a [u8]> {
        let (word, rest) = first_word(self.rest)?;
        self.rest = rest;
        Some(word)
    }
}

/// The first word, and what stands after it. None where there are blanks alone.
#[tactic(auto, using(crate::proofs::TextLemmas::first_words))]
fn first_word(line: &[u8]) -> Option<(&[u8], &[u8])>
    ensures { MatchOption result (words line.now ≡ [])
        (λ found. words line.now ≡ found.0.now ∷ words found.1.now) }
{
    let text = line.split_at(word_in(line)?).1;
    match blank_in(text) {
        Some(at) => Some(text.split_at(at)),
        None => Some((text, &[])),
    }
}

/// The words of a line from a place on. Places count from 0.
pub fn words_from(line: &[u8], place: usize) -> Words<'_>
    ensures { result ≡ drop place (words line.now) }
{
    let mut words = Words::of(line);
    for _ in 0..place {
        words.next();
    }
    words
}

/// The word at a place, which is empty where there are not so many.
pub fn word_at(line: &[u8], place: usize) -> &[u8]
    ensures { result.now ≡ word (words line.now) place }
{
    match words_from(line, place).next() {
        Some(word) => word,
        None => &[],
    }
}

/// The number of words.
#[tactic(auto, using(crate::proofs::Faults::few_words))]
pub fn word_count(line: &[u8]) -> usize
    ensures count { result ≡ length (words line.now) }
    ensures few { result ≤ length line.now + 1 }
{
    let mut count = 0;
    for _ in Words::of(line) {
        count += 1;
    }
    count
}

/// Whether a byte is a space or a tab.
fn is_blank_byte(byte: u8) -> bool
    ensures { result ≡ is_blank byte }
{
    byte == b' ' || byte == b'\t'
}

/// The place of the first byte of a word.
fn word_in(line: &[u8]) -> Option<usize>
    ensures { result ≡ position (λ byte. not (is_blank byte)) line.now }
{
    line.iter().position(|byte| !is_blank_byte(*byte))
}

/// The place of the first blank.
fn blank_in(text: &[u8]) -> Option<usize>
    ensures { result ≡ position is_blank text.now }
{
    text.iter().position(|byte| is_blank_byte(*byte))
}
