//! Processes are told of the edges of buttons (TRD 104, "Subscribe", "Yield").
ghost use Rattle.std.specs.Prelude.{◌≡◌, ◌+◌, ◌<◌, ◌≤◌, ◌^◌, false, All, length, map};
ghost use Rattle.tk_base.specs.declared.limits.TheConstants.{BUTTON_LIMIT, SLOT_COUNT};
ghost use Rattle.grant_enter.specs.Homes.{own_of, ChangesOnly};
ghost use Rattle.driver_requests.specs.Asking.{MayBeTold, in_life};
ghost use Rattle.driver_model.specs.Buttons.{edged};
ghost use Rattle.driver_model.specs.Steps.{own_after};
ghost use Rattle.button_capsule.specs.Edges.{is_queued};

use crate::visits::{Tell, button_grants};
use grant_enter::Home;
use tk_base::{ProcessId, SLOT_COUNT, Slot};

/// Tells the process of an id that a button was pressed, or released: where it lives in that life,
/// and has enabled the button, upcall 0 is scheduled with the button, 1 for pressed and 0 for
/// released, and 0. The answer is whether the process gets the upcall: it is queued, or the process
/// waits for it alone. Nothing else of the process changes, and nothing of another slot.
///
/// It asks that the slot is one of the home's, and that the process's count of dropped upcalls has
/// room for one more.
pub fn edge(home: &mut Home, id: ProcessId, button: u32, state: bool) -> bool
    requires button { button < BUTTON_LIMIT }
    requires told { MayBeTold home.old id }
    ensures answer { let own = own_of home.old id.slot in
        result ≡ in_life id.life own (is_queued button state own) false }
    ensures own { let own = own_of home.old id.slot in
        own_of home.new id.slot ≡ in_life id.life own (own_after (edged button state own)) own }
    ensures rest { ChangesOnly id.slot home.old home.new }
{
    let told = button_grants().visit(home, id, Tell { button, state });
    matches!(told, Ok(true))
}

/// Tells the process that lives in a slot, if one does, that a button was pressed, or released.
#[tactic(auto, unfolding(driver_model::specs::Buttons::edged))]
fn edge_in(home: &mut Home, slot: Slot, button: u32, state: bool)
    requires button { button < BUTTON_LIMIT }
    requires slot { slot < length home.old.owns }
    requires dropped { (own_of home.old slot).inbox.dropped + 1 < 2 ^ 32 }
    ensures own { own_of home.new slot ≡ own_after (edged button state (own_of home.old slot)) }
    ensures rest { ChangesOnly slot home.old home.new }
{
    if let Some(id) = home.id(slot) {
        edge(home, id, button, state);
    }
}

/// Tells all processes that live, of which each is in one of so many slots, that a button was
/// pressed, or released, slot by slot, the lowest first, each as [`edge`] does. Nothing else
/// changes.
///
/// It asks that there are so many slots in the home, and no more than there may be, and that each
/// process's count of dropped upcalls has room for one more.
pub fn edges(home: &mut Home, slots: usize, button: u32, state: bool)
    requires button { button < BUTTON_LIMIT }
    requires slots { slots ≡ length home.old.owns }
    requires few { slots ≤ SLOT_COUNT }
    requires dropped { All (λ own. own.inbox.dropped + 1 < 2 ^ 32) home.old.owns }
    ensures owns { home.new.owns
        ≡ map (λ own. own_after (edged button state own)) home.old.owns }
    ensures flash { home.new.flash ≡ home.old.flash }
{
    for slot in 0..slots {
        edge_in(home, Slot::new(slot), button, state);
    }
}
