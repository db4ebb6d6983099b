//! Laws of the definitions, each the contract of a function that does nothing.
ghost use Rattle.partition_turns.specs.Laws.{ChoiceIsOfTheWindow, NoneExactlyWhereAllIsDone};
ghost use Rattle.partition_turns.specs.Laws.{OtherSlotsDecideNothing, PassEndsInTime};
ghost use Rattle.partition_turns.specs.Laws.{WindowsAreInTurn};
ghost use Rattle.partition_turns.specs.Turns.{EachTickIsATurn, ReadyHasItsWindow};

/// Each time lies in one window, which ends after `n` ticks at most; up to its end the window is
/// the same slot's; and there the window of the next slot begins, which has `n` ticks.
pub fn windows_are_in_turn()
    ensures { WindowsAreInTurn }
{}

/// What [`crate::next_in_window`] chooses can be made, and serves no other slot than that whose
/// window it is: an Event that is ready; or a device step that has work for that slot; or, where
/// none is ready, its turn; or, where it is not ready either, a Pass.
pub fn choice_is_of_the_window()
    ensures { ChoiceIsOfTheWindow }
{}

/// A Pass takes 1 to `n` ticks. It passes neither the window's end nor the next event nor a next
/// time of the slot's alarm or UART, where these lie ahead, and of all times that pass none of
/// these it leads to the last.
pub fn pass_ends_in_time()
    ensures { PassEndsInTime }
{}

/// There is no next choice exactly where nothing is left to do: no event is to come, no slot is
/// ready, and no device has work for any slot, ready or to become so.
pub fn none_exactly_where_all_is_done()
    ensures { NoneExactlyWhereAllIsDone }
{}

/// What there is of other slots decides no choice but whether there is one: in two situations that
/// are alike in time, events and the slot whose window it is, the choices are the same, where there
/// is one in both.
pub fn other_slots_decide_nothing()
    ensures { OtherSlotsDecideNothing }
{}

/// As long as it is the window of a slot that is ready throughout, each tick is a turn of that
/// slot, since a device step takes none; so from a window's first time to its end it has `n` turns.
pub fn ready_has_its_window()
    ensures ticks { EachTickIsATurn }
    ensures window { ReadyHasItsWindow }
{}
