//! What a process asks for by `ecall`.
ghost use Rattle.std.specs.Prelude.{◌≡◌, ◌<◌, ◌↔◌, IsNone, option_map};
ghost use Rattle.syscall_abi.specs.Call.{call_of, class};
ghost use Rattle.syscall_abi.specs.Forms.{driver_in, form_of, swap_form, FormsTellCalls};

use crate::form::{CallForm, Swap};
use tk_base::{PairKind, Regs};

/// A system call with its arguments (TRD 104, "System Call API").
#[derive(Clone, Copy, Debug, PartialEq, Eq)]
pub enum Call {
    /// Class 0: the process gives up the processor, in the way of that number.
    Yield {
        number: u32,
        a1: u32,
        a2: u32,
    },
    /// Class 1: `function` becomes the driver's upcall of that number, and gets `app` with each call.
    Subscribe {
        driver: u32,
        number: u32,
        function: u32,
        app: u32,
    },
    /// Class 2: the driver is to act.
    Command {
        driver: u32,
        command: u32,
        a2: u32,
        a3: u32,
    },
    /// Class 3, Read-Write Allow: the driver may read and write the bytes from `address` on.
    AllowRw {
        driver: u32,
        number: u32,
        address: u32,
        size: u32,
    },
    /// Class 4, Read-Only Allow: the driver may read the bytes from `address` on.
    AllowRo {
        driver: u32,
        number: u32,
        address: u32,
        size: u32,
    },
    /// Class 7, Userspace-Readable Allow: the driver may write the bytes from `address` on, which the process
    /// may read meanwhile.
    AllowUr {
        driver: u32,
        number: u32,
        address: u32,
        size: u32,
    },
    /// Class 5: the process asks about its memory, or moves its break.
    Memop {
        operation: u32,
        argument: u32,
    },
    /// Class 6: the process ends itself, in the way of that kind, with the completion code.
    Exit {
        kind: u32,
        code: u32,
    },
}

impl Call {
    /// The number of the register that holds the class, a4.
    pub const CLASS: u8 = 14;

    /// The driver that the call names, which it may need permission for (Tock Binary Format,
    /// "Permissions"). None of a yield, a memop and an exit, which are every process's to make.
    pub fn driver(&self) -> Option<u32>
        ensures { result ≡ driver_in (form_of self.now) }
    {
        match self.form() {
            CallForm::Swap(Swap { driver, .. }) | CallForm::Command { driver, .. } => Some(driver),
            CallForm::Yield { .. } | CallForm::Memop { .. } | CallForm::Exit { .. } => None,
        }
    }

    /// What the call asks for: a subscribe and the allows have one form, the swap of a pair.
    pub fn form(&self) -> CallForm
        ensures { result ≡ form_of self.now }
    {
        match *self {
            Call::Yield { number, a1, a2 } => CallForm::Yield { number, a1, a2 },
            Call::Subscribe {
                driver,
                number,
                function,
                app,
            } => swap(PairKind::Upcall, driver, number, (function, app)),
            Call::Command {
                driver,
                command,
                a2,
                a3,
            } => CallForm::Command {
                driver,
                command,
                a2,
                a3,
            },
            Call::AllowRw {
                driver,
                number,
                address,
                size,
            } => swap(PairKind::ReadWrite, driver, number, (address, size)),
            Call::AllowRo {
                driver,
                number,
                address,
                size,
            } => swap(PairKind::ReadOnly, driver, number, (address, size)),
            Call::AllowUr {
                driver,
                number,
                address,
                size,
            } => swap(PairKind::Readable, driver, number, (address, size)),
            Call::Memop {
                operation,
                argument,
            } => CallForm::Memop {
                operation,
                argument,
            },
            Call::Exit { kind, code } => CallForm::Exit { kind, code },
        }
    }

    /// The call that the registers make: the class stands in a4, the arguments in a0 to a3. None
    /// exactly for a class above 7 (TRD 104, "System Call API"; Tock's kernel has class 7 beside those).
    /// The contract names it by its form, which is that of no other call ([`forms_tell_calls`]).
    #[tactic(auto, unfolding(crate::specs::Call::call_of, crate::specs::Call::class_table))]
    pub fn of(regs: &Regs) -> Option<Call>
        ensures call { option_map form_of result ≡ call_of regs.now }
        ensures none { IsNone result ↔ (7 < class regs.now) }
    {
        let (a0, a1) = (regs.get(10), regs.get(11));
        let (a2, a3) = (regs.get(12), regs.get(13));
        match regs.get(Call::CLASS) {
            0 => Some(Call::Yield { number: a0, a1, a2 }),
            1 => Some(Call::Subscribe {
                driver: a0,
                number: a1,
                function: a2,
                app: a3,
            }),
            2 => Some(Call::Command {
                driver: a0,
                command: a1,
                a2,
                a3,
            }),
            3 => Some(Call::AllowRw {
                driver: a0,
                number: a1,
                address: a2,
                size: a3,
            }),
            4 => Some(Call::AllowRo {
                driver: a0,
                number: a1,
                address: a2,
                size: a3,
            }),
            5 => Some(Call::Memop {
                operation: a0,
                argument: a1,
            }),
            6 => Some(Call::Exit { kind: a0, code: a1 }),
            7 => Some(Call::AllowUr {
                driver: a0,
                number: a1,
                address: a2,
                size: a3,
            }),
            _ => None,
        }
    }
}

/// Calls with one form are one call.
pub fn forms_tell_calls()
    ensures { FormsTellCalls }
{}

/// The form of a subscribe or an allow.
fn swap(kind: PairKind, driver: u32, number: u32, pair: (u32, u32)) -> CallForm
    ensures { result ≡ swap_form kind driver number pair }
{
    CallForm::Swap(Swap {
        kind,
        driver,
        number,
        pair,
    })
}
