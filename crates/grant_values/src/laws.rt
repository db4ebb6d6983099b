//! Laws of the definitions.
ghost use Rattle.grant_values.specs.Words.{WordsInBytes};

/// How words stand in bytes: the words that were written are read back, and each takes four bytes.
/// It does nothing.
pub fn words_in_bytes()
    ensures { WordsInBytes }
{}
