//! What a process gets back for a system call.
ghost use Rattle.std.specs.Prelude.{◌≡◌, []};
ghost use Rattle.kernel_model.specs.Record.{Record};
ghost use Rattle.kernel_model.specs.Parts.{with_process};
ghost use Rattle.kernel_model.specs.Calls.{driver_answered, failure_of, refused_with};
ghost use Rattle.kernel_model.specs.Parts.{failed_swap};
ghost use Rattle.kernel_calls.specs.Given.{given};
ghost use Rattle.kernel_calls.specs.Outcomes.{acts_for, ServingComesTo};

use process_record::{Outcome, Process};
use syscall_abi::{CallForm, Reply};
use tk_base::CallRule;

/// The failure with which a call of a form is refused that breaks a rule (TRD 104, "Return
/// Values"): a subscribe and an allow get back the pair that they passed.
pub(crate) fn failure(form: &CallForm, rule: CallRule) -> Reply
    ensures { result ≡ failure_of form.now rule }
{
    match *form {
        CallForm::Swap(swap) => failed_swap(swap.pair, rule),
        CallForm::Yield { .. }
        | CallForm::Command { .. }
        | CallForm::Memop { .. }
        | CallForm::Exit { .. } => Reply::Failure(rule.error()),
    }
}

/// The failure of a subscribe or an allow that breaks a rule: the passed pair comes back.
pub(crate) fn failed_swap(pair: (u32, u32), rule: CallRule) -> Reply
    ensures { result ≡ failed_swap pair rule }
{
    let (first, second) = pair;
    Reply::FailureU32U32(rule.error(), first, second)
}

/// Refuses the call that a process made, by the rule that it broke, with a failure (TRD 104,
/// "Return Values"). The refusal is recorded.
pub(crate) fn refuse(process: &mut Process, rule: CallRule, failure: Reply) -> Outcome
    ensures refuses { (r : Record)
        → ServingComesTo (refused_with (with_process r process.old) rule failure)
        (with_process r process.new) result }
    ensures acts { acts_for result ≡ [] }
    ensures stays { process.new
        ≡ record process.old { regs = process.new.regs; refusal = process.new.refusal } }
{
    process.refuse(rule, &failure);
    Outcome::Replied(failure, Some(rule))
}

/// Replies to the call that a process made, or refuses it by the rule that it broke, with a failure
/// of that rule's error and nothing else (TRD 104, "Return Values").
pub(crate) fn give(process: &mut Process, answer: Result<Reply, CallRule>) -> Outcome
    ensures gives { (r : Record)
        → ServingComesTo (driver_answered (with_process r process.old) answer)
        (with_process r process.new) result }
    ensures acts { acts_for result ≡ [] }
    ensures stays { process.new
        ≡ record process.old { regs = process.new.regs; refusal = process.new.refusal } }
{
    match answer {
        Ok(reply) => {
            process.reply(&reply);
            Outcome::Replied(reply, None)
        }
        Err(rule) => {
            let failure = Reply::Failure(rule.error());
            refuse(process, rule, failure)
        }
    }
}

/// Gives a process the reply to the call that it made, with the rule that refuses it, if one does.
///
/// A command that [`kernel_call`](crate::kernel_call) left to its driver ([`Outcome::ToDriver`]) is
/// first answered by the driver's capsule, over the home, and that answer is then given here, once,
/// with the process as `kernel_call` left it. The process goes on after the call: the reply is in
/// its registers, pc is past the `ecall`, and a refusal is recorded. What comes back is the outcome
/// to be shown in place of `ToDriver`.
pub fn give_reply(process: &mut Process, reply: Reply, rule: Option<CallRule>) -> Outcome
    ensures gives { (r : Record) → ServingComesTo (given (with_process r process.old) (reply, rule))
        (with_process r process.new) result }
    ensures acts { acts_for result ≡ [] }
    ensures stays { process.new
        ≡ record process.old { regs = process.new.regs; refusal = process.new.refusal } }
{
    match rule {
        None => {
            process.reply(&reply);
            Outcome::Replied(reply, None)
        }
        Some(rule) => refuse(process, rule, reply),
    }
}
