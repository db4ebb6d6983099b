//! The line of a process that an operator lists.
ghost use Rattle.std.specs.Prelude.{◌≡◌, ◌+◌, ◌≤◌, ◌++◌, length};
ghost use Rattle.tk_base.specs.declared.limits.TheConstants.{PRINT_LIMIT};
ghost use Rattle.process_record.specs.Lines.{listed_line};

use arrayvec::ArrayVec;
use itoa::Buffer;
use process_record::{SlotLine, line_word, shown_name};
use tk_base::{PRINT_LIMIT, Slot};

/// Puts a piece behind a text, which has room for it.
fn put(text: &mut ArrayVec<u8, PRINT_LIMIT>, piece: &[u8])
    requires { length text.old.items + length piece.now ≤ PRINT_LIMIT }
    ensures { text.new.items ≡ text.old.items ++ piece.now }
{
    let Ok(()) = text.try_extend_from_slice(piece) else {
        unreachable!()
    };
}

/// The line of the process in a slot: the slot, its name, its state in one word, and a line feed.
/// It takes at most 47 bytes.
#[tactic(auto, unfolding(process_record::specs::Lines::listed_line))]
pub fn list_line(slot: Slot, line: &SlotLine) -> ArrayVec<u8, PRINT_LIMIT>
    ensures { result.items ≡ listed_line slot line.now }
{
    let mut text = ArrayVec::new();
    let mut digits = Buffer::new();
    put(&mut text, digits.format(slot.index()).as_bytes());
    put(&mut text, b" ");
    put(&mut text, &shown_name(&line.name));
    put(&mut text, b" ");
    put(&mut text, line_word(line));
    put(&mut text, b"\n");
    text
}
