//! One line of a script, looked at alone.
ghost use Rattle.std.specs.Prelude.{◌≡◌, ◌<◌, ◌==◌, true, false, not, drop, find, position};
ghost use Rattle.std.specs.Prelude.{is_some, slice_index, IfSome};
ghost use Rattle.hex.specs.Hex.{is_hex_digit};
ghost use Rattle.decimal_number.specs.Number.{is_number, number};
ghost use Rattle.script_text.specs.Alone.{Says, broken_alone};
ghost use Rattle.script_text.specs.Rules.{has_digits, is_hex, miscounts, misspells, has_bad_hex};
ghost use Rattle.script_text.specs.Rules.{is_outside, is_unknown};
ghost use Rattle.script_text.specs.Settings.{is_name};
ghost use Rattle.script_text.specs.Parts.{is_visible};
ghost use Rattle.script_text.specs.Table.{in_range};
ghost use Rattle.script_text.specs.Text.{words, word};

use crate::rule::ScriptRule;
use crate::table::{Form, Line, Range, line_in};
use crate::text::{Words, word_at, word_count, words_from};
use decimal_number::number_in;
use tk_base::NAME_LIMIT;

/// What the lines before one say that is needed to look at it.
#[derive(Clone, Copy)]
pub struct Context {
    /// The number of buttons.
    pub buttons: u32,
    /// Whether there are time partitions.
    pub is_partitioned: bool,
}

/// Whether a word begins a comment.
fn is_comment(word: &[u8]) -> bool
    ensures { result ≡ (slice_index word.now 0 == 35) }
{
    matches!(word, [b'#', ..])
}

/// Whether a byte is a hex digit.
fn is_hex_byte(byte: u8) -> bool
    ensures { result ≡ is_hex_digit byte }
{
    matches!(byte, b'0'..=b'9' | b'A'..=b'F' | b'a'..=b'f')
}

/// Whether a word has that many digits, or an even number where none is asked for.
fn has_digits(digits: Option<usize>, word: &[u8]) -> bool
    ensures { result ≡ has_digits digits word.now }
{
    match digits {
        Some(digits) => word.len() == digits,
        None => word.len() % 2 == 0,
    }
}

/// The place of the first byte that is no hex digit.
fn other_than_hex_in(word: &[u8]) -> Option<usize>
    ensures { result ≡ position (λ byte. not (is_hex_digit byte)) word.now }
{
    word.iter().position(|byte| !is_hex_byte(*byte))
}

/// Whether a word is hex.
fn is_hex_word(digits: Option<usize>, word: &[u8]) -> bool
    ensures { result ≡ is_hex digits word.now }
{
    match other_than_hex_in(word) {
        Some(_) => false,
        None => has_digits(digits, word),
    }
}

/// Whether some word from a place on is not hex.
fn has_other_than_hex(line: &[u8], place: usize, digits: Option<usize>) -> bool
    ensures { result ≡ is_some (find (λ w. not (is_hex digits w)) (drop place (words line.now))) }
{
    for word in words_from(line, place) {
        if !is_hex_word(digits, word) {
            return true;
        }
    }
    false
}

/// Whether a byte is a visible character of ASCII.
fn is_visible_byte(byte: u8) -> bool
    ensures { result ≡ is_visible byte }
{
    (0x21..=0x7e).contains(&byte)
}

/// The place of the first byte that is no visible character.
fn other_than_visible_in(word: &[u8]) -> Option<usize>
    ensures { result ≡ position (λ byte. not (is_visible byte)) word.now }
{
    word.iter().position(|byte| !is_visible_byte(*byte))
}

/// Whether a word is the name of a process as an operator writes it.
fn is_name(word: &[u8]) -> bool
    ensures { result ≡ is_name word.now }
{
    !word.is_empty() && word.len() <= NAME_LIMIT && other_than_visible_in(word).is_none()
}

impl Line {
    /// Whether it is not known: a line of buttons or of an operator, where there are time
    /// partitions.
    fn is_unknown(self, context: Context) -> bool
        ensures { result ≡ is_unknown context.is_partitioned self }
    {
        match self {
            Line::Buttons | Line::Press | Line::Release | Line::Act => context.is_partitioned,
            _ => false,
        }
    }
}

impl Range {
    /// Whether a number lies in it.
    fn permits(self, number: u64) -> bool
        requires { 0 < self.multiple }
        ensures { result ≡ in_range self number }
    {
        self.least <= number && number <= self.most && number % self.multiple == 0
    }
}

impl Form {
    /// Whether a line's number of words is another one.
    fn miscounts(self, line: &[u8]) -> bool
        ensures { result ≡ miscounts self (words line.now) }
    {
        let count = word_count(line);
        if self.more {
            count < self.words
        } else {
            count != self.words
        }
    }

    /// Whether a line's number, or that of a button, is not written as one.
    fn misspells(self, line: &[u8]) -> bool
        ensures { result ≡ misspells self (words line.now) }
    {
        let number = match self.number {
            Some(number) => is_misspelt(line, number.place),
            None => false,
        };
        let button = match self.button {
            Some(place) => is_misspelt(line, place),
            None => false,
        };
        number || button
    }

    /// Whether a line has a word that has to be hex and is not.
    fn has_bad_hex(self, line: &[u8]) -> bool
        ensures { result ≡ has_bad_hex self (words line.now) }
    {
        match self.hex {
            Some(hex) => has_other_than_hex(line, hex.place, hex.digits),
            None => false,
        }
    }

    /// Whether a line's name is none, its number, which is written as one, is outside its range, or
    /// it has the number of no button.
    fn is_outside(self, context: Context, line: &[u8]) -> bool
        requires spelled { misspells self (words line.now) ≡ false }
        requires some { IfSome self.number (λ n. 0 < n.range.multiple) }
        ensures { result ≡ is_outside context.buttons self (words line.now) }
    {
        let name = match self.name {
            Some(place) => !is_name(word_at(line, place)),
            None => false,
        };
        let number = match self.number {
            Some(number) => !number.range.permits(written_at(line, number.place)),
            None => false,
        };
        let button = match self.button {
            Some(place) => u64::from(context.buttons) <= written_at(line, place),
            None => false,
        };
        name || number || button
    }

    /// The first rule that a line breaks where it is looked at alone in a context.
    pub fn broken_alone(self, context: Context, line: &[u8]) -> Option<ScriptRule>
        requires { IfSome self.number (λ n. 0 < n.range.multiple) }
        ensures { result ≡ broken_alone context self (words line.now) }
    {
        if self.miscounts(line) {
            Some(ScriptRule::Words)
        } else if self.misspells(line) {
            Some(ScriptRule::BadNumber)
        } else if self.has_bad_hex(line) {
            Some(ScriptRule::BadHex)
        } else if self.is_outside(context, line) {
            Some(ScriptRule::OutOfRange)
        } else {
            None
        }
    }
}

/// Whether a word of a line writes no number.
fn is_misspelt(line: &[u8], place: usize) -> bool
    ensures { result ≡ not (is_number (word (words line.now) place)) }
{
    number_in(word_at(line, place)).is_none()
}

/// The number that a word of a line writes.
pub fn written_at(line: &[u8], place: usize) -> u64
    requires { is_number (word (words line.now) place) ≡ true }
    ensures { result ≡ number (word (words line.now) place) }
{
    match number_in(word_at(line, place)) {
        Some(number) => number,
        None => 0,
    }
}

/// The line of the table that a text is where it is looked at alone in a context, or the first
/// rule that it breaks then. None where it is skipped.
#[tactic(auto, using(crate::proofs::Rules::refusals))]
pub fn read_line(text: &[u8], context: Context) -> Result<Option<Line>, ScriptRule>
    ensures { Says context text.now result }
{
    let Some(first) = Words::of(text).next() else {
        return Ok(None);
    };
    if is_comment(first) {
        return Ok(None);
    }
    let Some(line) = line_in(text) else {
        return Err(ScriptRule::UnknownWord);
    };
    if line.is_unknown(context) {
        return Err(ScriptRule::UnknownWord);
    }
    match line.row().form.broken_alone(context, text) {
        Some(rule) => Err(rule),
        None => Ok(Some(line)),
    }
}
