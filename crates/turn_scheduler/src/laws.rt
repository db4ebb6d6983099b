//! Laws of the definitions, each the contract of a function that does nothing.
ghost use Rattle.turn_scheduler.specs.Laws.{ChoiceIsReady, PresentGoesOn};
ghost use Rattle.turn_scheduler.specs.Turns.{ReadyHasTurn};

/// What [`crate::next_choice`] chooses can be made: a device step that is ready; or, where none is,
/// a slot that is ready; or, where nothing is, a Pass of at least one tick to the next time.
pub fn choice_is_ready()
    ensures { ChoiceIsReady }
{}

/// Where no device step is ready, the present slot goes on as long as it is ready and its slice
/// lasts. So who knows that needs no table of the slots.
pub fn present_goes_on()
    ensures { PresentGoesOn }
{}

/// No process that is ready waits for good: in every window of as many turns as all slots have in a
/// slice each, in which a slot is ready throughout, that slot has a turn. The turns are those that
/// [`crate::next_choice`] gives, one after another; whether the other slots are ready may change
/// from each to the next.
pub fn ready_has_turn()
    ensures { ReadyHasTurn }
{}
