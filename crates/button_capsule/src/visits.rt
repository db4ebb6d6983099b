//! What the buttons do with the value that a process keeps for them.
ghost use Rattle.std.specs.Prelude.{◌≡◌};
ghost use Rattle.grant_values.specs.declared.drivers.Driver.TheVariants.{Buttons as ButtonsDriver};
ghost use Rattle.grant_values.specs.Drivers.{counts_by};
ghost use Rattle.driver_model.specs.Buttons.{buttons};

use grant_enter::{Entered, Grant, Visit, frames_join};
use grant_values::{Buttons, Driver};
use tk_base::{has_bit, with_bit};

/// The grants that processes keep for the buttons: one upcall, and no buffers.
pub(crate) type ButtonGrants = Grant<Buttons, 1, 0, 0, 0>;

/// Those that there are.
#[tactic(auto, unfolding(grant_values::specs::Drivers::counts_of, grant_values::specs::Drivers::drivers))]
pub(crate) fn button_grants() -> ButtonGrants
    ensures driver { result.driver ≡ buttons }
    ensures counts { result.counts ≡ counts_by ButtonsDriver }
{
    ButtonGrants::of(Driver::Buttons.number())
}

/// Has a process be told of a button from now on, or no more.
#[derive(Drop)]
pub(crate) struct Enable {
    pub button: u32,
    pub on: bool,
}

impl Visit<Buttons> for Enable {
    ghost use Rattle.std.specs.Prelude.{◌≡◌, ◌<◌};
    ghost use Rattle.tk_base.specs.Bits.{with_bit};

    type Answer = ();

    ghost asks = { λ enable value seen. enable.button < 32 };

    ghost leaves = { λ enable value seen answer value' own.
        (value' ≡ record { enabled = with_bit value.enabled enable.button enable.on })
        × (own ≡ seen.own) };

    fn run(self, value: &mut Buttons, _entered: &mut Entered<'_>) {
        frames_join();
        value.enabled = with_bit(value.enabled, self.button, self.on);
    }
}

/// Tells a process of an edge of a button, where it has enabled the button: upcall 0 is scheduled.
/// It answers whether the process gets it.
#[derive(Drop)]
pub(crate) struct Tell {
    pub button: u32,
    pub state: bool,
}

impl Visit<Buttons> for Tell {
    ghost use Rattle.std.specs.Prelude.{◌≡◌, ◌+◌, ◌<◌, ◌^◌, ◌&&◌, if◌then◌else◌, [], ◌∷◌};
    ghost use Rattle.tk_base.specs.Bits.{bit_of, has_bit};
    ghost use Rattle.upcall_queue.specs.Pending.{is_taken};
    ghost use Rattle.process_model.specs.Served.{own_scheduled, upcall_of};

    type Answer = bool;

    ghost asks = { λ tell value seen. (tell.button < 32) × (0 < seen.counts.upcalls)
        × (seen.own.inbox.dropped + 1 < 2 ^ 32) };

    ghost leaves = { λ tell value seen queued value' own.
        let args = tell.button ∷ bit_of tell.state ∷ 0 ∷ [] in
        (value' ≡ value)
        × (queued ≡ (has_bit value.enabled tell.button
        && is_taken (upcall_of seen.driver 0 args seen.own) seen.own.inbox))
        × (own ≡ (if has_bit value.enabled tell.button
        then own_scheduled seen.driver 0 args seen.own else seen.own)) };

    fn run(self, value: &mut Buttons, entered: &mut Entered<'_>) -> bool {
        frames_join();
        if !has_bit(value.enabled, self.button) {
            return false;
        }
        entered.schedule(0, [self.button, u32::from(self.state), 0])
    }
}
