//! The lines that tell the grants of a process.
ghost use Rattle.std.specs.List.{flat_map};
ghost use Rattle.grant_values.specs.Words.{words_of};
ghost use Rattle.grant_model.specs.Encoding.{EncodesGrants, decode_grants};
ghost use Rattle.tk_outside.specs.Writes.{Writes};
ghost use Rattle.board_views.specs.Lines.{slot_line, words_text};
ghost use Rattle.board_views.specs.States.{grant_text, grants_text};

use crate::lines::write_word;
use board_core::Board;
use grant_model::what_is_laid_is_read_back;
use grant_values::{word_at, words_in_bytes};
use tk_base::Slot;
use tk_outside::{Failed, Sink, put_all, put_number, writes_compose};

/// Writes the words that bytes are.
fn write_words_of<K: Sink>(out: &mut K, bytes: &[u8]) -> Result<(), Failed>
    ensures { Writes K.tells out.old out.new (words_text (words_of bytes.now)) result }
{
    writes_compose::<K>();
    words_in_bytes();
    for n in 0..bytes.len() / 4 {
        write_word(out, word_at(bytes, n))?;
    }
    Ok(())
}

/// Writes a line of a slot: what it tells, the slot, and the words of an area.
#[tactic(auto, unfolding(crate::specs::Lines::line_text, crate::specs::Lines::slot_line))]
fn write_area<K: Sink>(out: &mut K, name: &[u8], slot: Slot, area: &[u8]) -> Result<(), Failed>
    ensures { Writes K.tells out.old out.new (slot_line name.now slot (words_of area.now)) result }
{
    writes_compose::<K>();
    put_all(out, name)?;
    put_number(out, slot.index() as u64)?;
    write_words_of(out, area)?;
    put_all(out, b"\n")
}

/// Writes the line of each grant that the kernel's bytes of a block tell, area by area.
fn write_areas<K: Sink>(out: &mut K, slot: Slot, kernel: &[u8]) -> Result<(), Failed>
    requires laid { EncodesGrants kernel.now }
    ensures { Writes K.tells out.old out.new
        (flat_map (grant_text slot) (decode_grants kernel.now)) result }
{
    writes_compose::<K>();
    words_in_bytes();
    what_is_laid_is_read_back();
    let mut rest = kernel;
    while !rest.is_empty() {
        let (area, next) = rest.split_at(word_at(rest, 1) as usize);
        write_area(out, b"grant ", slot, area)?;
        rest = next;
    }
    Ok(())
}

/// Writes the lines of the grants of the process in a slot, if it has one, the last entered first.
#[tactic(auto, unfolding(crate::specs::States::grants_text))]
pub(crate) fn write_grants<K: Sink>(board: &Board, slot: Slot, out: &mut K) -> Result<(), Failed>
    ensures { Writes K.tells out.old out.new (grants_text board.now slot) result }
{
    what_is_laid_is_read_back();
    board.grants_are_sound();
    match board.grants(slot) {
        Some(kernel) => write_areas(out, slot, kernel),
        None => Ok(()),
    }
}
