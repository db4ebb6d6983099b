//! What is shown of a board in an answer, gathered before it is written.
ghost use Rattle.std.specs.Prelude.{◌≡◌};
ghost use Rattle.tk_outside.specs.Writes.{Writes};
ghost use Rattle.tock_look.specs.Answers.{shown_text, stopped_text, view_text};

use board_core::Board;
use board_views::{
    Found, Stop, write_at, write_board_state, write_found, write_memory, write_stop, write_storage,
};
use gathered_output::{OutputBuffer, Text};
use tk_base::Slot;
use tk_outside::{Failed, Sink, put_all, writes_compose};

/// What is shown.
#[derive(Clone, Copy, Debug, PartialEq, Eq)]
pub enum View {
    /// Nothing.
    Nothing,
    /// All that there is to see.
    State,
    /// Where the process in a slot is.
    Place { slot: Slot },
    /// Why a board stopped, and where.
    Stopped { slot: Slot, stop: Stop },
    /// Bytes of a block.
    Memory { slot: Slot, at: u32, count: u32 },
    /// Bytes of storage.
    Storage { slot: Slot, at: u32, count: u32 },
    /// Where the last place of a way is.
    Last { found: Option<Found> },
}

/// Writes what is shown of a board.
fn write_shown<K: Sink>(board: &Board, view: &View, out: &mut K) -> Result<(), Failed>
    ensures { Writes K.tells out.old out.new (shown_text board.now view.now) result }
{
    writes_compose::<K>();
    match view {
        View::Nothing => Ok(()),
        View::State => write_board_state(board, out),
        View::Place { slot } => write_at(board, *slot, out),
        View::Stopped { slot, stop } => write_stopped(board, *slot, *stop, out),
        View::Memory { slot, at, count } => write_memory(board, *slot, *at, *count, out),
        View::Storage { slot, at, count } => write_storage(board, *slot, *at, *count, out),
        View::Last { found } => write_found(found, out),
    }
}

/// Writes why a board stopped, and where.
#[tactic(auto, unfolding(crate::specs::Answers::stopped_text))]
fn write_stopped<K: Sink>(board: &Board, slot: Slot, stop: Stop, out: &mut K) -> Result<(), Failed>
    ensures { Writes K.tells out.old out.new (stopped_text board.now slot stop) result }
{
    writes_compose::<K>();
    write_stop(stop, out)?;
    write_at(board, slot, out)
}

/// An answer: what is shown of a board, and the line that ends it.
#[derive(Clone, Copy)]
struct Answer<'a> {
    board: &'a Board,
    view: View,
}

impl Text for Answer<'_> {
    ghost use Rattle.tock_look.specs.Answers.{view_text};

    ghost bytes = { λ answer. view_text answer.board.now answer.view };

    fn write_to<K: Sink>(&self, out: &mut K) -> Result<(), Failed> {
        writes_compose::<K>();
        write_shown(self.board, &self.view, out)?;
        put_all(out, b"= ok\n")
    }
}

/// Writes an answer. It fails where the sink does.
pub fn write_view<K: Sink>(board: &Board, view: View, out: &mut K) -> Result<(), Failed>
    ensures { Writes K.tells out.old out.new (view_text board.now view) result }
{
    OutputBuffer::new().finish(&Answer { board, view }, out)
}
