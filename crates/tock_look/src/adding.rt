//! Events that are added while a board runs.
ghost use Rattle.std.specs.Prelude.{◌≡◌, ◌++◌, IfOk, OnErr, OnOk};
ghost use Rattle.tk_base.specs.declared.limits.TheConstants.{BUTTON_LIMIT};
ghost use Rattle.tk_outside.specs.Writes.{Writes};
ghost use Rattle.script_text.specs.Settings.{IsKind};
ghost use Rattle.tock_look.specs.Adding.{added_text, before_line, is_late, line_event, only_event, setting};
ghost use Rattle.tock_look.specs.Adding.{whether_added, with_line};

use board_core::Board;
use itoa::Buffer;
use script_text::{EventList, ScriptError, ScriptRule, TimedEvent, read_script};
use std::alloc::{AllocError, Global};
use tk_base::{NoMemory, SCRIPT_LIMIT};
use tk_outside::{Failed, Sink, put_all, put_pieces};

/// Why a line adds no event.
#[derive(Clone, Copy, Debug, PartialEq, Eq)]
pub enum NotAdded {
    /// Steps were made, and the time of the line is not later than the board's.
    Late,
    /// It breaks a rule of scripts.
    Refused { rule: ScriptRule },
    /// It is no line of an event.
    NoEvent,
}

/// The setting by which a line is read: the windows of the board, or with none its buttons.
fn setting(board: &Board) -> (&'static [u8], u32)
    ensures { (result.0.now, result.1) ≡ setting board.now }
{
    let window = board.window();
    if window == 0 {
        (b"buttons ", board.buttons())
    } else {
        (b"partition ", window)
    }
}

/// A script of that setting and a line.
fn script_with(alloc: Global, board: &Board, line: &[u8]) -> Result<Vec<u8>, AllocError>
    ensures { IfOk result (λ v. v.items ≡ before_line board.now ++ line.now) }
{
    let mut script = Vec::new(alloc);
    let mut digits = Buffer::new();
    let (name, number) = setting(board);
    script.extend_from_slice(name)?;
    script.extend_from_slice(digits.format(number).as_bytes())?;
    script.extend_from_slice(b"\n")?;
    script.extend_from_slice(line)?;
    Ok(script)
}

/// Whether steps were made, and a time is not later than the board's.
fn is_late(board: &Board, time: u32) -> bool
    ensures { result ≡ is_late time board.now }
{
    board.steps() != 0 && u64::from(time) <= board.time()
}

/// The one event that was read, if it is not late.
fn only_event(board: &Board, events: EventList) -> Result<TimedEvent, NotAdded>
    ensures said { result ≡ only_event board.now events }
    ensures kind { IfOk result (λ event. IsKind BUTTON_LIMIT event.kind) }
{
    let _sound = events.as_slice();
    let mut events = events.into_vec();
    let Some(event) = events.pop() else {
        return Err(NotAdded::NoEvent);
    };
    if !events.is_empty() {
        return Err(NotAdded::NoEvent);
    }
    if is_late(board, event.time) {
        return Err(NotAdded::Late);
    }
    Ok(event)
}

/// The event of a line, or why there is none.
fn event_in(
    alloc: Global,
    board: &Board,
    line: &[u8],
) -> Result<Result<TimedEvent, NotAdded>, NoMemory>
    ensures said { IfOk result (λ event. event ≡ line_event board.now line.now) }
    ensures kind { IfOk result (λ event. IfOk event (λ e. IsKind BUTTON_LIMIT e.kind)) }
{
    let Ok(script) = script_with(alloc, board, line) else {
        return Err(NoMemory);
    };
    if script.len() > SCRIPT_LIMIT {
        return Ok(Err(NotAdded::NoEvent));
    }
    match read_script(alloc, &script) {
        Ok(said) => Ok(only_event(board, said.events)),
        Err(ScriptError::Bad { line: _, rule }) => Ok(Err(NotAdded::Refused { rule })),
        Err(ScriptError::Memory) => Err(NoMemory),
    }
}

/// The event of a line is still to come in, if it has one; answers why not. Where there is no
/// memory, nothing changes.
pub fn add_line(
    alloc: Global,
    board: &mut Board,
    line: &[u8],
) -> Result<Result<(), NotAdded>, NoMemory>
    ensures added { IfOk result (λ added. added ≡ whether_added (line_event board.old line.now)) }
    ensures expects { OnOk result (board.new ≡ with_line board.old line.now) }
    ensures memory { OnErr result (board.new ≡ board.old) }
{
    match event_in(alloc, board, line)? {
        Ok(event) => match board.expect(event) {
            Ok(()) => Ok(Ok(())),
            Err(_) => Err(NoMemory),
        },
        Err(why) => Ok(Err(why)),
    }
}

/// Writes whether the event of a line was added.
pub fn write_added<K: Sink>(added: Result<(), NotAdded>, out: &mut K) -> Result<(), Failed>
    ensures { Writes K.tells out.old out.new (added_text added) result }
{
    match added {
        Ok(()) => put_all(out, b"= ok\n"),
        Err(NotAdded::Late) => put_all(out, b"= late\n"),
        Err(NotAdded::Refused { rule }) => put_pieces(out, &[b"= refused ", rule.word(), b"\n"]),
        Err(NotAdded::NoEvent) => put_all(out, b"= words\n"),
    }
}
