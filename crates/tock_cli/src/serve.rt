//! The whole program over a shelf and a sink.
ghost use Rattle.std.specs.Prelude.{◌≡◌, ◌≤◌, length, None};
ghost use Rattle.tk_base.specs.declared.limits.TheConstants.{FLASH_LIMIT};
ghost use Rattle.board_opening.specs.Opening.{opening};
ghost use Rattle.tool_words.specs.declared.words.TheConstants.{MOST_TURNS};
ghost use Rattle.tool_words.specs.Words.{command_of};
ghost use Rattle.tool_tasks.specs.Comes.{Running};
ghost use Rattle.tool_tasks.specs.Causes.{shelf_account};
ghost use Rattle.tool_tasks.specs.Ready.{IsWithinLimits, task_of};
ghost use Rattle.tool_answers.specs.Served.{Serves, sink_account};
ghost use Rattle.tool_answers.specs.Parts.{Happens, TaskEnds, TaskIs};

use crate::run::run_out;
use board_core::Board;
use board_opening::runs_from_boot_are_accounted_for;
use board_partitions::partitions_from_boot_see_themselves_alone;
use run_text::Mode;
use script_text::Script;
use std::alloc::Global;
use tk_outside::{Shelf, Sink};
use tool_answers::{ServeOutcome, finish_image, finish_list, refuse};
use tool_tasks::prepare::{Ready, prepare};
use tool_tasks::{Generator, SoakGenerator};
use tool_words::Refusal;

/// Makes a run of a board, and leaves the board where the whole text was written.
fn finish_run<K: Sink>(
    mut board: Board,
    mode: Mode,
    turns: u32,
    out: &mut K,
    last: &mut Option<Board>,
) -> ServeOutcome
    requires fresh { board.clock.steps ≡ 0 }
    requires within { turns ≤ MOST_TURNS }
    requires none { last.old ≡ None }
    ensures { TaskIs (sink_account K.tells out.old out.new) (Running mode turns board) last.new
        result }
{
    match run_out(&mut board, mode, turns, out) {
        Ok(()) => {
            drop(last.replace(board));
            ServeOutcome::Done
        }
        Err(_) => {
            drop(board);
            ServeOutcome::SinkFailed
        }
    }
}

/// Makes the board of a flash image under a script, and its run.
#[tactic(auto, unfolding(board_opening::specs::Opening::opening))]
fn run<K: Sink>(
    alloc: Global,
    flash: Vec<u8>,
    script: Script,
    mode: Mode,
    turns: u32,
    out: &mut K,
    last: &mut Option<Board>,
) -> ServeOutcome
    requires short { length flash.items ≤ FLASH_LIMIT }
    requires within { turns ≤ MOST_TURNS }
    requires none { last.old ≡ None }
    ensures { TaskEnds (sink_account K.tells out.old out.new)
        (Running mode turns (opening script flash.items)) last.new result }
{
    match Board::boot(alloc, flash, script) {
        Ok(board) => finish_run(board, mode, turns, out, last),
        Err(_) => refuse(Refusal::Memory, out),
    }
}

/// Does what is left to do, and leaves the board of a run.
fn finish<K: Sink>(
    alloc: Global,
    ready: Ready,
    out: &mut K,
    last: &mut Option<Board>,
) -> ServeOutcome
    requires within { IsWithinLimits ready }
    requires none { last.old ≡ None }
    ensures { TaskEnds (sink_account K.tells out.old out.new) (task_of ready) last.new result }
{
    match ready {
        Ready::Run {
            flash,
            script,
            mode,
            turns,
        } => run(alloc, flash, script, mode, turns, out, last),
        Ready::List { flash } => finish_list(&flash, out),
        Ready::Image { flash } => finish_image(&flash, out),
    }
}

/// Does all of it, and says how it ended.
fn act<H: Shelf, K: Sink, G: Generator>(
    alloc: Global,
    words: &[String],
    shelf: &mut H,
    out: &mut K,
    last: &mut Option<Board>,
) -> ServeOutcome
    ensures { Happens G.files (shelf_account H.tells shelf.old shelf.new)
        (sink_account K.tells out.old out.new) (command_of words.now) last.new result }
{
    drop(last.take());
    runs_from_boot_are_accounted_for();
    partitions_from_boot_see_themselves_alone();
    match prepare::<H, G>(alloc, words, shelf) {
        Ok(ready) => finish(alloc, ready, out, last),
        Err(refusal) => refuse(refusal, out),
    }
}

/// The program over the words of the command line, the first of which is its own name. `boot` runs
/// the applications of a flash file on the board of a script, and writes what they print and then
/// the report to `out`; `trace` makes the same run, and writes its system calls and denials beside
/// what is printed; `soak` runs those of the flash image that [`SoakGenerator`] makes of a number, on
/// the board of the script that it makes of it, and writes how many bytes they print and the sum of
/// these; `list` writes the list of the objects of a flash file. Four commands write a flash image
/// and run nothing: `pack` the objects of 1 to 64 flash files one behind another; `enable`,
/// `disable` and `rename` a flash file in which the object at an offset is enabled, disabled or has
/// another package name. Else one line is written. What `last` held is dropped; afterwards it holds
/// a board exactly at answer 0 of `boot`, `trace` and `soak`, and that board shows the last world
/// of the run.
///
/// In the run that is told each byte of a process that changes has its cause. One below its kernel
/// break is changed by an own permitted act, also by the command that has it shown the clock, lies
/// in a buffer that the process then allowed to the driver which answers it, or is zeroed where the
/// process starts again, by an operator, by its exit or by the policy after a denial; one of its
/// grants, above, is changed in its own turn or by an answer to it; one of its storage by a served
/// write of its own. Each access was permitted, and each denial was due and names its address and
/// rule; and the record of a process is what becomes of it alone, by its own turns and answers,
/// whatever others do: an answer is what a device tells it, an edge of a button, or an operator's
/// act on it. Under a script with time partitions even the times of its turns and answers are: with
/// any other image under that script that has the same object in the same place of its slot they
/// are the same, up to each time that both runs have reached.
///
/// So it is with the run of which text is written, whole or in part.
///
/// | Answer | Comes |
/// |---|---|
/// | 0 | each file that the words name was read to its end, and the whole text of the run or list, or the whole image, was written |
/// | 2 | the words are no command |
/// | 3 | a file could not be read: the shelf's count of faults rose, and the line names a file that the words name and that is not sound |
/// | 4 | a file has more bytes than its limit, 1,048,576 for flash, which is read first, and 262,144 for the script |
/// | 5 | the script has no reading: the line names its first bad line and the first rule that this line breaks |
/// | 6 | the sink's count of faults rose; a part of the text, image or line was written that lacks at least one byte |
/// | 7 | `memory` alone was written, of words that are a command; that it comes for want of memory alone is tested |
/// | 8 | no image is made: the line names the first reason in the order of [`ImageFault`](tool_words::ImageFault); the first file that is refused decides |
pub fn serve<H: Shelf, K: Sink>(
    alloc: Global,
    words: &[String],
    shelf: &mut H,
    out: &mut K,
    last: &mut Option<Board>,
) -> u8
    ensures serves { Serves ⟦<SoakGenerator as Generator>⟧.files (record {
      told = shelf_account H.tells shelf.old shelf.new;
      sent = sink_account K.tells out.old out.new;
      words = command_of words.now;
      last = last.new;
      answer = result;
    }) }
{
    act::<H, K, SoakGenerator>(alloc, words, shelf, out, last).answer()
}
