//! What is told of a run while it goes on.
ghost use Rattle.std.specs.Prelude.{◌≡◌, ◌+◌, ◌<◌, ◌≤◌, ◌^◌, [], OnOk};
ghost use Rattle.tk_base.specs.declared.limits.TheConstants.{PRINT_LIMIT};
ghost use Rattle.tk_outside.specs.Writes.{Writes};
ghost use Rattle.gathered_output.specs.Puts.{Puts};
ghost use Rattle.tock_cli.specs.RunWriter.{counted_bytes, passed_on, telling_of, told_text};
ghost use Rattle.tock_cli.specs.RunWriter.{told_on, total_text};

use board_core::Board;
use board_report::write_trace;
use gathered_output::{OutputBuffer, Text, puts_compose};
use process_record::Emit;
use run_text::{Mode, Tally};
use tk_outside::{Failed, Sink};

/// What is told of a run, with what has to be kept for it from step to step.
#[derive(Clone, Copy, Debug, PartialEq, Eq)]
pub enum RunWriter {
    /// What it prints.
    Boot,
    /// The lines of its steps, and the time at which the next one begins.
    Trace { time: u64 },
    /// How much it printed so far.
    Soak { tally: Tally },
}

/// The lines of a step, which began at a time.
#[derive(Clone, Copy)]
struct StepLines<'a> {
    time: u64,
    step: &'a Emit,
}

impl Text for StepLines<'_> {
    ghost use Rattle.board_report.specs.Trace.{trace_text};

    ghost bytes = { λ lines. trace_text lines.time lines.step.now };

    fn write_to<K: Sink>(&self, out: &mut K) -> Result<(), Failed> {
        write_trace(self.time, self.step, out)
    }
}

impl RunWriter {
    /// What is kept before the first step.
    pub fn of(mode: Mode, board: &Board) -> RunWriter
        ensures { result ≡ telling_of mode board.now [] }
    {
        match mode {
            Mode::Boot => RunWriter::Boot,
            Mode::Trace => RunWriter::Trace { time: board.time() },
            Mode::Soak => RunWriter::Soak {
                tally: Tally::new(),
            },
        }
    }

    /// Tells a step that led to this board: puts its text behind what is gathered for the sink, and
    /// keeps what is asked of it later. A step prints at most [`PRINT_LIMIT`] bytes, and the count
    /// has room for them.
    pub fn tell<K: Sink>(
        &mut self,
        board: &Board,
        step: &Emit,
        buffer: &mut OutputBuffer,
        out: &mut K,
    ) -> Result<(), Failed>
        requires { counted_bytes self.old + PRINT_LIMIT < 2 ^ 64 }
        ensures text { Puts K.tells out.old out.new buffer.old buffer.new
            (told_text self.old step.now) result }
        ensures kept { OnOk result (self.new ≡ told_on self.old board.now step.now) }
        ensures count { OnOk result (counted_bytes self.new
            ≤ counted_bytes self.old + PRINT_LIMIT) }
    {
        puts_compose::<K>();
        match self {
            RunWriter::Boot => {
                // Of most steps nothing is told, and they pay for nothing.
                if step.printed.is_empty() {
                    return Ok(());
                }
                buffer.put_bytes(&step.printed, out)
            }
            RunWriter::Trace { time } => {
                buffer.put(&StepLines { time: *time, step }, out)?;
                *time = board.time();
                Ok(())
            }
            RunWriter::Soak { tally } => {
                tally.add(&step.printed);
                Ok(())
            }
        }
    }

    /// Steps that show nothing led to this board: there is nothing to write, and what is asked of
    /// it later is kept.
    pub fn pass(&mut self, board: &Board)
        ensures { self.new ≡ passed_on self.old board.now }
    {
        if let RunWriter::Trace { time } = self {
            *time = board.time();
        }
    }

    /// Writes what is told after the last step.
    pub fn write_total<K: Sink>(self, out: &mut K) -> Result<(), Failed>
        ensures { Writes K.tells out.old out.new (total_text self) result }
    {
        match self {
            RunWriter::Boot | RunWriter::Trace { .. } => Ok(()),
            RunWriter::Soak { tally } => tally.write_line(out),
        }
    }
}
