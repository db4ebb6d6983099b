//! The law of texts that are put one behind another.
ghost use Rattle.gathered_output.specs.Laws.{PutsCompose};

use tk_outside::{Sink, writes_compose};

/// Texts that are put one behind another are put as one. A function that puts several calls it,
/// and its own proof then cites what it ensures.
pub fn puts_compose<K: Sink>()
    ensures { PutsCompose K.tells }
{
    writes_compose::<K>();
}
