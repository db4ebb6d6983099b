//! Laws of who waits for a device. The functions do nothing.
ghost use Rattle.driver_model.specs.Answers.{EventsTellSteps, LinesFollowAnswers};
ghost use Rattle.driver_model.specs.Lines.{LinesFollowCommands, OnlyDriversMoveLines};

/// After a command a process keeps a request for a device exactly where it waits for that device
/// after what the command asked of the board, if it did so before; whichever driver took it (TRD
/// 104, "Command"). It begins to wait only where it does not wait already. A request for storage
/// lies in the bytes that a slot has, where one that was kept before did.
pub fn lines_follow_commands()
    ensures { LinesFollowCommands }
{}

/// After a device's answer a process keeps no request for that device if its request completed, and
/// else as it did before; for each other device, and for each after its alarm, it does as before.
/// Its place, its life and that it lives stay, and one upcall more was dropped at most (TRD 104,
/// "Yield").
pub fn lines_follow_answers()
    ensures { LinesFollowAnswers }
{}

/// What a device tells a process makes of it what the device's step did: bytes of its write were
/// taken, or it completed; bytes came in; a random word was drawn, or none.
pub fn events_tell_steps()
    ensures { EventsTellSteps }
{}

/// Drivers alone change what a process asks for: neither what it hands to a driver (TRD 104,
/// "Subscribe", "Read-Only Allow", "Read-Write Allow") nor that a driver is entered does. A process
/// that starts again, or that ended, waits for nothing (TRD 104, "Exit").
pub fn only_drivers_move_lines()
    ensures { OnlyDriversMoveLines }
{}
