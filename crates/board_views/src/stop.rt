//! The lines that tell why a board stopped.
ghost use Rattle.std.specs.Prelude.{◌≡◌, ◌∷◌, codes};
ghost use Rattle.tk_outside.specs.Writes.{Writes};
ghost use Rattle.board_views.specs.StopLines.{found_text, stop_text, line_of_stop};

use crate::going::Stop;
use crate::lines::write_line;
use crate::searches::Found;
use tk_base::Slot;
use tk_outside::{Failed, Sink, put_all, put_number, writes_compose};

/// Writes why a board stopped, and words.
#[tactic(auto, unfolding(crate::specs::StopLines::line_of_stop))]
fn write_told<K: Sink>(out: &mut K, why: &[u8], words: &[u32]) -> Result<(), Failed>
    ensures { Writes K.tells out.old out.new (line_of_stop why.now words.now) result }
{
    writes_compose::<K>();
    put_all(out, b"stop ")?;
    write_line(out, why, words)
}

/// The number of a slot.
fn slot_word(slot: Slot) -> u32
    ensures { result ≡ slot }
{
    slot.index() as u32
}

/// Writes that a process made an exit.
fn write_exit<K: Sink>(slot: Slot, words: [u32; 4], out: &mut K) -> Result<(), Failed>
    ensures { Writes K.tells out.old out.new (line_of_stop (codes "exit") (slot ∷ words)) result }
{
    let [first, second, third, fourth] = words;
    write_told(
        out,
        b"exit",
        &[slot_word(slot), first, second, third, fourth],
    )
}

/// Writes the line that tells why a board stopped. It fails where the sink does.
pub fn write_stop<K: Sink>(stop: Stop, out: &mut K) -> Result<(), Failed>
    ensures { Writes K.tells out.old out.new (stop_text stop) result }
{
    match stop {
        Stop::Done => write_told(out, b"done", &[]),
        Stop::Most => write_told(out, b"most", &[]),
        Stop::Time => write_told(out, b"time", &[]),
        Stop::Turns => write_told(out, b"turns", &[]),
        Stop::Address { slot } => write_told(out, b"address", &[slot_word(slot)]),
        Stop::Range => write_told(out, b"range", &[]),
        Stop::Changed { at } => write_told(out, b"changed", &[at]),
        Stop::Denied { slot, denial } => write_told(
            out,
            b"denied",
            &[slot_word(slot), denial.cause(), denial.address],
        ),
        Stop::Exit { slot, words } => write_exit(slot, words, out),
        Stop::Act { slot } => write_told(out, b"act", &[slot_word(slot)]),
    }
}

/// Writes where the last place is, if there is one: `last`, after how many steps, and why a goal
/// would stop there; else `none`. It fails where the sink does.
#[tactic(auto, unfolding(crate::specs::StopLines::found_text))]
pub fn write_found<K: Sink>(found: &Option<Found>, out: &mut K) -> Result<(), Failed>
    ensures { Writes K.tells out.old out.new (found_text found.now) result }
{
    writes_compose::<K>();
    let Some(found) = found else {
        return put_all(out, b"none\n");
    };
    put_all(out, b"last ")?;
    put_number(out, found.steps)?;
    put_all(out, b"\n")?;
    write_stop(found.stop, out)
}
