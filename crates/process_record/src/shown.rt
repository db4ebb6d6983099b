//! What is shown of a process in a line.
ghost use Rattle.std.specs.Prelude.{◌≡◌, ◌≤◌, length};
ghost use Rattle.process_record.specs.Lines.{name_text, state_word, wait_word};
ghost use Rattle.process_record.specs.Parts.{line_word};
ghost use Rattle.process_record.specs.Parts.{glyph};

use crate::process::State;
use crate::summary::SlotLine;
use arrayvec::ArrayVec;
use tk_base::{NAME_LIMIT, Wait};

/// A byte of a name, or `?` where it cannot be shown.
fn shown(byte: u8) -> u8
    ensures { result ≡ glyph byte }
{
    if (0x21..=0x7e).contains(&byte) {
        byte
    } else {
        b'?'
    }
}

/// The name of a process, or `-` where it has none.
pub fn shown_name(name: &[u8]) -> ArrayVec<u8, NAME_LIMIT>
    requires { length name.now ≤ 32 }
    ensures { result.items ≡ name_text name.now }
{
    let mut text = ArrayVec::new();
    if name.is_empty() {
        text.push(b'-');
        return text;
    }
    for byte in name {
        text.push(shown(*byte));
    }
    text
}

/// What a process that has yielded waits for, in one word.
fn wait_word(wait: &Wait) -> &'static [u8]
    ensures { result.now ≡ wait_word wait.now }
{
    match wait {
        Wait::No => b"yielded",
        Wait::For(_, _) => b"waiting",
        Wait::Given(_) => b"awaited",
    }
}

/// The state of a process that is not held, in one word.
fn state_word(state: State, wait: &Wait) -> &'static [u8]
    ensures { result.now ≡ state_word state wait.now }
{
    match state {
        State::Running => b"running",
        State::Yielded => wait_word(wait),
        State::Faulted => b"faulted",
        State::Terminated(_) => b"terminated",
    }
}

/// The state of a process, in one word: `running`, `yielded`, `waiting`, `awaited`, `stopped`,
/// `faulted` or `terminated`.
pub fn line_word(line: &SlotLine) -> &'static [u8]
    ensures { result.now ≡ line_word line.now }
{
    if line.held {
        return b"stopped";
    }
    state_word(line.state, &line.wait)
}
