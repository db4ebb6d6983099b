//! Memop: a process asks about its memory, or moves its break (TRD 104, "Memop").
ghost use Rattle.std.specs.Prelude.{◌≡◌, ◌+◌};
ghost use Rattle.process_model.specs.Own.{Own};
ghost use Rattle.kernel_model.specs.Calls.{driver_answered, break_moved, moved_by};
ghost use Rattle.kernel_model.specs.Parts.{region};
ghost use Rattle.kernel_model.specs.Calls.{region_end, memop};
ghost use Rattle.kernel_calls.specs.Own.{Beside, record_in};
ghost use Rattle.process_restart.specs.Own.{HasHeader};
ghost use Rattle.kernel_calls.specs.Called.{Answers, Comes, Keeps, MovesBreak};
ghost use Rattle.kernel_calls.specs.Outcomes.{as_address};

use crate::caller::Caller;
use crate::headers::{region_count_of, region_of};
use process_record::{Outcome, Process};
use syscall_abi::Reply;
use tk_base::CallRule;

/// The place to which a signed number moves a break. None where it is no address.
fn moved(brk: u32, by: u32) -> Option<u32>
    ensures { result ≡ as_address (moved_by brk by) }
{
    u32::try_from(i64::from(brk) + i64::from(by.cast_signed())).ok()
}

/// The address at which region n of a process's object starts, mod 2^32.
fn region_start_of(flash: &[u8], process: &Process, n: u32) -> Result<Reply, CallRule>
    requires { HasHeader flash.now process.now.object }
    ensures { (own : Own) (beside : Beside)
        → let r = record_in flash.now process.now own beside in
        driver_answered r result ≡ region_end r (λ region. region.0) (region r n) }
{
    let (offset, _) = region_of(flash, &process.object, n).ok_or(CallRule::Index)?;
    let start = process.object.address.wrapping_add(offset);
    Ok(Reply::SuccessU32(start))
}

/// The address at which region n of a process's object ends, mod 2^32.
fn region_end_of(flash: &[u8], process: &Process, n: u32) -> Result<Reply, CallRule>
    requires { HasHeader flash.now process.now.object }
    ensures { (own : Own) (beside : Beside)
        → let r = record_in flash.now process.now own beside in
        driver_answered r result ≡ region_end r (λ region. region.0 + region.1) (region r n) }
{
    let (offset, size) = region_of(flash, &process.object, n).ok_or(CallRule::Index)?;
    let start = process.object.address.wrapping_add(offset);
    Ok(Reply::SuccessU32(start.wrapping_add(size)))
}

impl Caller<'_> {
    /// Moves its break to a place, if there is one and the break may be there.
    fn move_break(&mut self, place: Option<u32>, reply: Reply) -> Result<Reply, CallRule>
        ensures answer { Answers (λ r. break_moved r place reply) self.old self.new result }
        ensures stays { MovesBreak self.old self.new }
    {
        match place {
            Some(place) if self.set_break(place) => Ok(reply),
            _ => Err(CallRule::Break),
        }
    }

    /// Does an operation of memop, or says which rule refuses it.
    #[tactic(auto, unfolding(kernel_model::specs::Calls::memop, kernel_model::specs::Calls::memops))]
    fn answer_memop(&mut self, operation: u32, argument: u32) -> Result<Reply, CallRule>
        ensures answer { Answers (λ r. memop r operation argument) self.old self.new result }
        ensures stays { MovesBreak self.old self.new }
    {
        let layout = self.layout();
        let object = self.object();
        match operation {
            0 => self.move_break(Some(argument), Reply::Success),
            1 => {
                let place = moved(layout.brk, argument);
                self.move_break(place, Reply::SuccessU32(layout.brk))
            }
            2 => Ok(Reply::SuccessU32(layout.start)),
            3 => Ok(Reply::SuccessU32(layout.end)),
            4 => Ok(Reply::SuccessU32(object.address)),
            5 => Ok(Reply::SuccessU32(object.address + object.size)),
            6 => Ok(Reply::SuccessU32(layout.kernel_break)),
            7 => Ok(Reply::SuccessU32(region_count_of(self.memory.flash(), &object))),
            8 => region_start_of(self.memory.flash(), self.process, argument),
            9 => region_end_of(self.memory.flash(), self.process, argument),
            10 | 11 => Ok(Reply::Success),
            _ => Err(CallRule::NoOperation),
        }
    }

    /// Does an operation of memop, and replies.
    pub fn memop(&mut self, operation: u32, argument: u32) -> Outcome
        ensures serves { Comes (λ r. memop r operation argument) self.old self.new result }
        ensures keeps { Keeps self.old self.new }
    {
        let answer = self.answer_memop(operation, argument);
        self.give(answer)
    }
}
