//! A run of a board, and its text.
ghost use Rattle.std.specs.Prelude.{◌≡◌, ◌+◌, ◌≤◌, IfOk, OnOk, OnErr};
ghost use Rattle.tk_base.specs.declared.limits.TheConstants.{STEP_LIMIT};
ghost use Rattle.tk_outside.specs.Writes.{Writes};
ghost use Rattle.gathered_output.specs.Puts.{Puts};
ghost use Rattle.kernel_model.specs.Run.{round, printed};
ghost use Rattle.run_text.specs.RunText.{run_text, ending_text, trace_lines, IsWorldOf};
ghost use Rattle.run_text.specs.Parts.{run_end_of, steps};
ghost use Rattle.tock_cli.specs.RunWriter.{steps_text, telling_of};

use crate::teller::RunWriter;
use board_core::Board;
use board_report::{End, write_report};
use gathered_output::{OutputBuffer, Text, puts_compose};
use kernel_laws::rounds_join;
use kernel_model::devices_answer_one;
use process_record::Emit;
use run_text::Mode;
use tk_outside::{Failed, Sink, put_all, writes_compose};

/// What was told is written after so many steps at the latest, so that whoever watches sees it as
/// it comes.
const FLUSH_STEPS: u32 = 200_000;

/// Makes the run, and tells its steps. Of quiet turns there is nothing to tell: the board makes as
/// many as follow one another at once.
fn run_steps<K: Sink>(
    board: &mut Board,
    mode: Mode,
    turns: u32,
    buffer: &mut OutputBuffer,
    out: &mut K,
) -> Result<RunWriter, Failed>
    requires { board.old.clock.steps + turns ≤ STEP_LIMIT }
    ensures text { Puts K.tells out.old out.new buffer.old buffer.new
        (steps_text mode (steps turns board.old)) result }
    ensures kept { let r = round turns board.old in
        IfOk result (λ telling. telling ≡ telling_of mode r.world (printed r.labels)) }
    ensures last { OnOk result (board.new ≡ (round turns board.old).world) }
    ensures some { OnErr result (IsWorldOf turns board.old board.new) }
{
    puts_compose::<K>();
    rounds_join();
    devices_answer_one();
    let mut emit = Emit::new();
    let mut telling = RunWriter::of(mode, board);
    let (mut made, mut gathered) = (0, 0);
    while made < turns {
        // The last step of the run, and the last one before a flush, are made below.
        let quiet = board.run_quietly((turns - made).min(FLUSH_STEPS - gathered) - 1);
        let steps = quiet.made + 1;
        let next_choice = quiet.next_choice;
        let end = quiet.end;
        telling.pass(board);
        let Some(choice) = next_choice else {
            return Ok(telling);
        };
        let Ok(()) = board.step_with_end(choice, end, &mut emit) else {
            unreachable!()
        };
        telling.tell(board, &emit, buffer, out)?;
        made += steps;
        gathered += steps;
        if gathered == FLUSH_STEPS {
            buffer.flush(out)?;
            gathered = 0;
        }
    }
    Ok(telling)
}

/// How a run that led to this board ended.
#[tactic(auto, unfolding(run_text::specs::Parts::run_end_of))]
fn end_of_run(board: &Board) -> End
    ensures { result ≡ run_end_of board.now }
{
    match board.next_choice() {
        None => End::Done,
        Some(_) => End::Turns,
    }
}

/// Writes the line between what a run printed and its report, and the report.
fn write_end_of_run<K: Sink>(board: &Board, out: &mut K) -> Result<(), Failed>
    ensures { Writes K.tells out.old out.new (ending_text board.now) result }
{
    writes_compose::<K>();
    put_all(out, b"==\n")?;
    write_report(&board.summary(), end_of_run(board), out)
}

/// What is written of a run after its last step.
#[derive(Clone, Copy)]
struct EndOfRun<'a> {
    telling: RunWriter,
    board: &'a Board,
}

impl Text for EndOfRun<'_> {
    ghost use Rattle.std.specs.Prelude.{◌++◌};
    ghost use Rattle.run_text.specs.RunText.{ending_text};
    ghost use Rattle.tock_cli.specs.RunWriter.{total_text};

    ghost bytes = { λ end. total_text end.telling ++ ending_text end.board.now };

    fn write_to<K: Sink>(&self, out: &mut K) -> Result<(), Failed> {
        writes_compose::<K>();
        self.telling.write_total(out)?;
        write_end_of_run(self.board, out)
    }
}

/// Runs the board by the round robin for at most `turns` steps, and writes the text of the run:
/// what its mode tells of it, `==`, and the report. It ends before where no process can go on.
/// Afterwards the board shows the run's last world.
///
/// [`Failed`] comes only where the sink's count of faults rose; a part of the text was written then
/// that lacks at least one byte, and the board shows a world of the run. No memory is taken.
pub fn run_out<K: Sink>(
    board: &mut Board,
    mode: Mode,
    turns: u32,
    out: &mut K,
) -> Result<(), Failed>
    requires { board.old.clock.steps + turns ≤ STEP_LIMIT }
    ensures text { Writes K.tells out.old out.new (run_text mode turns board.old) result }
    ensures last { OnOk result (board.new ≡ (round turns board.old).world) }
    ensures some { OnErr result (IsWorldOf turns board.old board.new) }
{
    writes_compose::<K>();
    puts_compose::<K>();
    let mut buffer = OutputBuffer::new();
    let telling = run_steps(board, mode, turns, &mut buffer, out)?;
    buffer.finish(&EndOfRun { telling, board }, out)
}

/// Runs the board as [`run_out`] does, and writes the lines of the steps alone.
///
/// [`Failed`] comes only where the sink's count of faults rose; a part of the lines was written then
/// that lacks at least one byte, and the board shows a world of the run. No memory is taken.
pub fn trace_out<K: Sink>(board: &mut Board, turns: u32, out: &mut K) -> Result<(), Failed>
    requires { board.old.clock.steps + turns ≤ STEP_LIMIT }
    ensures text { Writes K.tells out.old out.new (trace_lines turns board.old) result }
    ensures last { OnOk result (board.new ≡ (round turns board.old).world) }
    ensures some { OnErr result (IsWorldOf turns board.old board.new) }
{
    writes_compose::<K>();
    puts_compose::<K>();
    let mut buffer = OutputBuffer::new();
    let _telling = run_steps(board, Mode::Trace, turns, &mut buffer, out)?;
    buffer.flush(out)
}
