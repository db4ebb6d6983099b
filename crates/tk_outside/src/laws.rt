//! Laws of the definitions, each the contract of a function that does nothing.
ghost use Rattle.tk_outside.specs.Laws.{WritesCompose};

use crate::sink::Sink;

/// Writes that follow one another make one write of the joined text. A function that makes several
/// writes calls it, and its own proof then cites what it ensures.
pub fn writes_compose<K: Sink>()
    ensures { WritesCompose K.tells }
{}
