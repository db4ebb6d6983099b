//! How the program ended, and its answer.
ghost use Rattle.std.specs.Prelude.{◌≡◌, ◌≤◌, length, None};
ghost use Rattle.tk_base.specs.declared.limits.TheConstants.{FLASH_LIMIT};
ghost use Rattle.tool_tasks.specs.Comes.{Listing, Making};
ghost use Rattle.tool_answers.specs.Parts.{RefusalIs, TaskIs, exit_status_of};
ghost use Rattle.tool_answers.specs.Served.{sink_account};

use crate::list::list_out;
use tk_outside::{Sink, put_all};
use tool_words::Refusal;

/// How the program ended.
#[derive(Clone, Copy, Debug, PartialEq, Eq)]
pub enum ServeOutcome {
    /// The command's run was made, or its list or image was, and the whole of it written.
    Done,
    /// The command was refused.
    Refused(Refusal),
    /// Text could not be written.
    SinkFailed,
}

impl ServeOutcome {
    /// The answer of the program.
    pub fn answer(self) -> u8
        ensures { result ≡ exit_status_of self }
    {
        match self {
            ServeOutcome::Done => 0,
            ServeOutcome::Refused(refusal) => refusal.status(),
            ServeOutcome::SinkFailed => 6,
        }
    }
}

/// Writes the line of a refusal.
pub fn refuse<K: Sink>(refusal: Refusal, out: &mut K) -> ServeOutcome
    ensures { RefusalIs (sink_account K.tells out.old out.new) refusal result }
{
    match refusal.write_line(out) {
        Ok(()) => ServeOutcome::Refused(refusal),
        Err(_) => ServeOutcome::SinkFailed,
    }
}

/// Writes the list of the objects of a flash image.
pub fn finish_list<K: Sink>(flash: &[u8], out: &mut K) -> ServeOutcome
    requires { length flash.now ≤ FLASH_LIMIT }
    ensures { TaskIs (sink_account K.tells out.old out.new) (Listing flash.now) None result }
{
    match list_out(flash, out) {
        Ok(()) => ServeOutcome::Done,
        Err(_) => ServeOutcome::SinkFailed,
    }
}

/// Writes a flash image.
pub fn finish_image<K: Sink>(flash: &[u8], out: &mut K) -> ServeOutcome
    ensures { TaskIs (sink_account K.tells out.old out.new) (Making flash.now) None result }
{
    match put_all(out, flash) {
        Ok(()) => ServeOutcome::Done,
        Err(_) => ServeOutcome::SinkFailed,
    }
}
