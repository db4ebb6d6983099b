//! The program over a shelf and a sink.
ghost use Rattle.std.specs.Prelude.{◌≡◌, Some};
ghost use Rattle.tool_tasks.specs.Causes.{shelf_account};
ghost use Rattle.tool_tasks.specs.RunFiles.{AreWithinLimits, opening_of_files};
ghost use Rattle.tool_words.specs.declared.refusal.Refusal.TheVariants.{Memory};
ghost use Rattle.tool_answers.specs.Parts.{RefusalIs};
ghost use Rattle.tool_answers.specs.Served.{sink_account};
ghost use Rattle.tock_look.specs.Asks.{looking_of};
ghost use Rattle.tock_look.specs.Answers.{answers_text};
ghost use Rattle.tock_look.specs.Lines.{line_account};
ghost use Rattle.tock_look.specs.Looks.{AnswersAll, AnswersLines, IsNoCommand, Looks, LooksAt};

use crate::answers::{Answered, answer, answer_line, board_of};
use crate::asks::{Ask, asks_in};
use crate::keeping::Boards;
use crate::lines::LineSource;
use board_core::Board;
use run_text::Mode;
use std::alloc::Global;
use tk_outside::{Shelf, Sink, put_all, writes_compose};
use tool_answers::{ServeOutcome, refuse};
use tool_tasks::prepare::{RunFiles, load_files};
use tool_words::{Refusal, RunCommand};

/// Answers commands, one after another, on a board before its first step.
fn answer_all<K: Sink>(
    alloc: Global,
    files: &RunFiles,
    board: Board,
    asks: &[Ask],
    out: &mut K,
) -> ServeOutcome
    requires within { AreWithinLimits files.now }
    requires opened { opening_of_files files.now.flash.items files.now.script.items ≡ Some board }
    ensures { AnswersAll (sink_account K.tells out.old out.new) (answers_text board asks.now)
        result }
{
    writes_compose::<K>();
    let kept = Vec::new(alloc);
    let mut boards = Boards { board, kept };
    for ask in asks {
        match answer(alloc, files, &mut boards, ask, out) {
            Answered::Whole => {}
            Answered::SinkFailed => return ServeOutcome::SinkFailed,
            Answered::NoMemory => return refuse(Refusal::Memory, out),
        }
    }
    ServeOutcome::Done
}

/// Ends a session of more lines than can be counted, as where there is no memory.
fn end_long_session<K: Sink>(out: &mut K) -> ServeOutcome
    ensures { RefusalIs (sink_account K.tells out.old out.new) Memory result }
{
    refuse(Refusal::Memory, out)
}

/// Answers the commands of lines, one after another, on a board before its first step, until no line
/// is left.
fn answer_lines<L: LineSource, K: Sink>(
    alloc: Global,
    files: &RunFiles,
    board: Board,
    lines: &mut L,
    out: &mut K,
) -> ServeOutcome
    requires within { AreWithinLimits files.now }
    requires opened { opening_of_files files.now.flash.items files.now.script.items ≡ Some board }
    ensures { AnswersLines (line_account L.lines lines.old lines.new)
        (sink_account K.tells out.old out.new) board result }
{
    writes_compose::<K>();
    let kept = Vec::new(alloc);
    let mut boards = Boards { board, kept };
    for _ in 0..u64::MAX {
        let Some(line) = lines.next_line() else {
            return ServeOutcome::Done;
        };
        match answer_line(alloc, files, &mut boards, line.as_str(), out) {
            Answered::Whole => {}
            Answered::SinkFailed => return ServeOutcome::SinkFailed,
            Answered::NoMemory => return refuse(Refusal::Memory, out),
        }
    }
    end_long_session(out)
}

/// Answers commands on the board of two files: those of words, or where there are none those of
/// lines.
fn look_at<L: LineSource, K: Sink>(
    alloc: Global,
    files: &RunFiles,
    asks: &[Ask],
    lines: &mut L,
    out: &mut K,
) -> ServeOutcome
    requires within { AreWithinLimits files.now }
    ensures { LooksAt (line_account L.lines lines.old lines.new)
        (sink_account K.tells out.old out.new)
        (opening_of_files files.now.flash.items files.now.script.items) asks.now result }
{
    let Ok(board) = board_of(alloc, files) else {
        return refuse(Refusal::Memory, out);
    };
    match asks {
        [] => answer_lines(alloc, files, board, lines, out),
        [_, ..] => answer_all(alloc, files, board, asks, out),
    }
}

/// Writes the line of words that are no command.
fn refuse_words<K: Sink>(out: &mut K) -> ServeOutcome
    ensures { IsNoCommand (sink_account K.tells out.old out.new) result }
{
    match put_all(out, b"usage: tock_look FLASH SCRIPT COMMAND ..\n") {
        Ok(()) => ServeOutcome::Refused(Refusal::Usage),
        Err(_) => ServeOutcome::SinkFailed,
    }
}

/// The program over the words of the command line, the first of which is its own name: the flash
/// file, the script, and commands. Words that are no command are refused before a file is read, and
/// files as those of a run; then the commands are answered, one after another. Where there are none
/// the lines that come in are commands, and what is none is answered so. How it ended is the exit
/// status, by `ServeOutcome::answer`.
pub fn look<H: Shelf, L: LineSource, K: Sink>(
    alloc: Global,
    words: &[String],
    shelf: &mut H,
    lines: &mut L,
    out: &mut K,
) -> ServeOutcome
    ensures { Looks (shelf_account H.tells shelf.old shelf.new)
        (line_account L.lines lines.old lines.new) (sink_account K.tells out.old out.new)
        (looking_of words.now) result }
{
    let [_, flash, script, commands @ ..] = words else {
        return refuse_words(out);
    };
    let Ok(asks) = asks_in(alloc, commands) else {
        return refuse(Refusal::Memory, out);
    };
    let Some(asks) = asks else {
        return refuse_words(out);
    };
    let words = RunCommand {
        mode: Mode::Boot,
        flash: flash.as_str(),
        script: script.as_str(),
        turns: 0,
    };
    match load_files(alloc, words, shelf) {
        Ok(files) => look_at(alloc, &files, &asks, lines, out),
        Err(refusal) => refuse(refusal, out),
    }
}
