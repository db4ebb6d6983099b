//! Lines, and words in them.
ghost use Rattle.tk_outside.specs.Writes.{Writes};
ghost use Rattle.board_views.specs.Lines.{line_text, slot_line, word_text, words_text};

use itoa::Buffer;
use tk_base::Slot;
use tk_outside::{Failed, Sink, hex_text, put_all, put_pieces, writes_compose};

/// Writes a word in base 16, after a blank.
pub(crate) fn write_word<K: Sink>(out: &mut K, word: u32) -> Result<(), Failed>
    ensures { Writes K.tells out.old out.new (word_text word) result }
{
    put_pieces(out, &[b" ", &hex_text(word)])
}

/// Writes words.
fn write_words<K: Sink>(out: &mut K, words: &[u32]) -> Result<(), Failed>
    ensures { Writes K.tells out.old out.new (words_text words.now) result }
{
    writes_compose::<K>();
    for word in words {
        write_word(out, *word)?;
    }
    Ok(())
}

/// Writes a line: how it begins, and words.
#[tactic(auto, unfolding(crate::specs::Lines::line_text))]
pub(crate) fn write_line<K: Sink>(out: &mut K, begin: &[u8], words: &[u32]) -> Result<(), Failed>
    ensures { Writes K.tells out.old out.new (line_text begin.now (words_text words.now)) result }
{
    writes_compose::<K>();
    put_all(out, begin)?;
    write_words(out, words)?;
    put_all(out, b"\n")
}

/// Writes a line of a slot: what it tells, the slot, and words.
#[tactic(auto, unfolding(crate::specs::Lines::slot_line))]
pub(crate) fn write_slot_line<K: Sink>(
    out: &mut K,
    name: &[u8],
    slot: Slot,
    words: &[u32],
) -> Result<(), Failed>
    ensures { Writes K.tells out.old out.new (slot_line name.now slot words.now) result }
{
    writes_compose::<K>();
    let mut digits = Buffer::new();
    put_all(out, name)?;
    write_line(out, digits.format(slot.index()).as_bytes(), words)
}
