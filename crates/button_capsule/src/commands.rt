//! Commands to the buttons (TRD 104, "Command").
ghost use Rattle.std.specs.Prelude.{◌≡◌, ◌≤◌, false, true};
ghost use Rattle.tk_base.specs.Bits.{bit_of, has_bit};
ghost use Rattle.tk_base.specs.declared.limits.TheConstants.{BUTTON_LIMIT};
ghost use Rattle.syscall_abi.specs.declared.reply.Reply.TheVariants.{Success, SuccessU32};
ghost use Rattle.process_model.specs.Own.{Own};
ghost use Rattle.grant_enter.specs.Homes.{own_of, ChangesOnly};
ghost use Rattle.driver_requests.specs.Asking.{IsPresent};
ghost use Rattle.driver_model.specs.Commands.{accepting, as_commanded, by_number};
ghost use Rattle.driver_model.specs.Buttons.{commands, enabling, of_button, set_enabled};
ghost use Rattle.driver_model.specs.Replies.{RepliesAlone};

use crate::visits::{Enable, button_grants};
use grant_enter::Home;
use syscall_abi::{Reply, reply_of};
use tk_base::{CallRule, ProcessId, has_bit};

/// Has a process be told of a button from now on; it is refused where there is none of that number,
/// or where there is no room for the driver's grant.
fn enable(home: &mut Home, id: ProcessId, count: u32, button: u32) -> Result<Reply, CallRule>
    requires present { IsPresent home.old id }
    requires count { count ≤ BUTTON_LIMIT }
    ensures answer { let own = own_of home.old id.slot in
        as_commanded result (own_of home.new id.slot)
        ≡ of_button count button own (enabling button own) }
    ensures rest { ChangesOnly id.slot home.old home.new }
{
    if button >= count {
        return Err(CallRule::Range);
    }
    match button_grants().enter(home, id, Enable { button, on: true }) {
        Ok(()) => Ok(Reply::Success),
        Err(_) => Err(CallRule::NoRoom),
    }
}

/// Has a process be told of a button no more; it is refused where there is none of that number.
/// Where the process has not entered the driver it is told of none, and nothing changes.
fn disable(home: &mut Home, id: ProcessId, count: u32, button: u32) -> Result<Reply, CallRule>
    requires present { IsPresent home.old id }
    requires count { count ≤ BUTTON_LIMIT }
    ensures answer { let own = own_of home.old id.slot in
        as_commanded result (own_of home.new id.slot)
        ≡ of_button count button own (accepting Success (set_enabled button false own)) }
    ensures rest { ChangesOnly id.slot home.old home.new }
{
    if button >= count {
        return Err(CallRule::Range);
    }
    let _ = button_grants().visit(home, id, Enable { button, on: false });
    Ok(Reply::Success)
}

/// Whether a button is pressed; it is refused where there is none of that number.
fn state_of(pressed: u32, count: u32, button: u32) -> Result<Reply, CallRule>
    requires { count ≤ BUTTON_LIMIT }
    ensures { (own : Own) → as_commanded result own
        ≡ of_button count button own
        (accepting (SuccessU32 (bit_of (has_bit pressed button))) own) }
{
    if button >= count {
        return Err(CallRule::Range);
    }
    Ok(Reply::SuccessU32(u32::from(has_bit(pressed, button))))
}

/// A command of the process of an id to so many buttons, of which those of a mask are pressed: the
/// reply, or the rule that refuses it.
#[tactic(auto, unfolding(driver_model::specs::Buttons::commands))]
fn obey(
    home: &mut Home,
    id: ProcessId,
    pressed: u32,
    count: u32,
    number: u32,
    a2: u32,
) -> Result<Reply, CallRule>
    requires present { IsPresent home.old id }
    requires count { count ≤ BUTTON_LIMIT }
    ensures answer { as_commanded result (own_of home.new id.slot)
        ≡ by_number (commands count pressed a2) number (own_of home.old id.slot) }
    ensures rest { ChangesOnly id.slot home.old home.new }
{
    match number {
        0 => Ok(Reply::SuccessU32(count)),
        1 => enable(home, id, count, a2),
        2 => disable(home, id, count, a2),
        3 => state_of(pressed, count, a2),
        _ => Err(CallRule::NoCommand),
    }
}

/// Serves a command of the process of an id to so many buttons, of which those of a mask are
/// pressed, bit n for button n (TRD 104, "Command"): the reply, and the rule that refuses it, if
/// one does. 0 asks how many buttons there are. 1 has the process be told of button `a2` from now
/// on, and is refused with [`CallRule::NoRoom`] where there is no room for the driver's grant; 2
/// has it be told of it no more, which succeeds also where it was not told of it, and enters
/// nothing; 3 asks whether it is pressed: 1 where it is, and 0 where it is not. Each of the three
/// is refused with [`CallRule::Range`] where there is no button of that number. Any other number is
/// refused with [`CallRule::NoCommand`]. Nothing of another process changes, and nothing at all
/// where it is refused.
///
/// It asks that the process is there, and that there are no more buttons than there may be.
pub fn command(
    home: &mut Home,
    id: ProcessId,
    pressed: u32,
    count: u32,
    number: u32,
    a2: u32,
) -> (Reply, Option<CallRule>)
    requires present { IsPresent home.old id }
    requires count { count ≤ BUTTON_LIMIT }
    ensures answer { RepliesAlone (by_number (commands count pressed a2) number (own_of home.old id.slot))
        result (own_of home.new id.slot) }
    ensures rest { ChangesOnly id.slot home.old home.new }
{
    reply_of(obey(home, id, pressed, count, number, a2))
}
