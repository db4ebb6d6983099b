//! Whom an operator means.
ghost use Rattle.std.specs.Prelude.{◌≡◌};
ghost use Rattle.std.specs.List.{position};
ghost use Rattle.std.specs.Str.{bytes_eq};
ghost use Rattle.process_record.specs.Lines.{name_text, slot_named};

use process_record::{SlotLine, Summary, shown_name};
use tk_base::Slot;

/// Whether a line shows a name.
fn shows(line: &SlotLine, name: &[u8]) -> bool
    ensures { result ≡ bytes_eq (name_text line.now.name.items) name.now }
{
    shown_name(&line.name).as_slice() == name
}

/// The place of the first line that shows a name.
fn place_of(lines: &[SlotLine], name: &[u8]) -> Option<usize>
    ensures { result ≡ position (λ line. bytes_eq (name_text line.name.items) name.now) lines.now }
{
    lines.iter().position(|line| shows(line, name))
}

/// The lowest slot whose process has a name, as the report shows it. None exactly where no slot has
/// that name.
#[tactic(auto, unfolding(process_record::specs::Lines::slot_named))]
pub fn find(summary: &Summary, name: &[u8]) -> Option<Slot>
    ensures { result ≡ slot_named name.now summary.now.slots.items }
{
    let place = place_of(&summary.slots, name)?;
    Some(Slot::new(place))
}
