//! What visitors need to know of what they are lent. The functions do nothing.
ghost use Rattle.process_seat.specs.Buffers.{ABufferIsWritten, BuffersAreWhole};
ghost use Rattle.process_seat.specs.Seen.{FramesJoin};

/// A visitor may change nothing of what it is lent, and it may do one thing after another.
pub fn frames_join()
    ensures { FramesJoin }
{}

/// A visitor may write over a buffer that it was lent to be written; the bytes then stand in the
/// process's own bytes, and nothing else has changed.
pub fn a_buffer_is_written()
    ensures { ABufferIsWritten }
{}

/// A buffer that a process has allowed its driver has as many bytes as the process said; and bytes
/// that are put at the start of one that was lent to be written are written there, and no others.
pub fn buffers_are_whole()
    ensures { BuffersAreWhole }
{}
