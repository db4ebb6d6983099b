//! Which system calls an application may make.
#![tactic(auto)]

ghost use Rattle.std.specs.Prelude.{◌≡◌, Bool, Some, option_map};
ghost use Rattle.syscall_abi.specs.Forms.{form_of};
ghost use Rattle.syscall_filter.specs.Permission.{permission, permitted};
ghost use Rattle.tbf_headers.specs.Shown.{permissions_shown};

use syscall_abi::{Call, CallForm};
use tbf_headers::Perms;
use tk_base::CallRule;

/// Whether an application may make a call, by the Permissions TLV of its header, if it has one
/// (Tock Binary Format, "Permissions"). The error is [`CallRule::Permission`], exactly where it has
/// one and the call is a command that no entry of its driver allows, or a subscribe or an allow of
/// a driver that has no entry; or where it has none, the filter is strict, and the call is a
/// command, a subscribe or an allow. All other calls are permitted, and so is every call without
/// the TLV under a filter that is not strict.
pub fn filter(permissions: Option<Perms<'_>>, strict: bool, call: &Call) -> Result<(), CallRule>
    ensures { result ≡ permission (option_map permissions_shown permissions.entry) strict
        (form_of call.now) }
{
    if is_permitted(permissions, strict, call) {
        Ok(())
    } else {
        Err(CallRule::Permission)
    }
}

/// Whether the call is permitted.
fn is_permitted(permissions: Option<Perms<'_>>, strict: bool, call: &Call) -> bool
    ensures { result ≡ permitted strict (option_map permissions_shown permissions.entry)
        (form_of call.now) }
{
    match permissions {
        Some(permissions) => lists_call(&permissions, call),
        None => !(strict && call.driver().is_some()),
    }
}

/// Whether the entries permit a call.
fn lists_call(perms: &Perms<'_>, call: &Call) -> bool
    ensures { (strict : Bool)
        → result ≡ permitted strict (Some (permissions_shown perms.now)) (form_of call.now) }
{
    match call.form() {
        CallForm::Command {
            driver,
            command,
            ..
        } => perms.allows(driver, command),
        CallForm::Swap(swap) => perms.lists(swap.driver),
        CallForm::Yield { .. } | CallForm::Memop { .. } | CallForm::Exit { .. } => true,
    }
}
