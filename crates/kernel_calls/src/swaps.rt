//! Subscribe and the allows: a process hands upcalls and buffers to drivers (TRD 104, "Subscribe",
//! "Read-Only Allow", "Read-Write Allow"; the userspace-readable allow of Tock's kernel).
ghost use Rattle.std.specs.Prelude.{◌≡◌, IfOk, OnOk, OnErr};
ghost use Rattle.process_layout.specs.Bounds.{bounds_of};
ghost use Rattle.process_model.specs.Handed.{may_share};
ghost use Rattle.kernel_model.specs.Calls.{swap_refusal};
ghost use Rattle.kernel_model.specs.Parts.{former_pair, own_swapped, swapped};
ghost use Rattle.kernel_calls.specs.Outcomes.{broken_by};
ghost use Rattle.kernel_calls.specs.Called.{Comes, Keeps};

use crate::caller::Caller;
use crate::replies::failed_swap;
use grant_values::counts;
use process_layout::Layout;
use process_record::Outcome;
use swap_tables::Handover;
use syscall_abi::{Reply, Swap};
use tk_base::{CallRule, PairKind};

/// Whether a process may hand a pair: a null upcall, or a function of which 4 bytes lie in
/// accessible RAM or flash; a buffer without bytes, or one that lies in accessible RAM, or,
/// read-only, in accessible flash.
fn may_share(kind: PairKind, layout: &Layout, pair: (u32, u32)) -> bool
    ensures { result ≡ may_share kind (bounds_of layout.now) pair }
{
    let (at, size) = pair;
    match kind {
        PairKind::Upcall => {
            let function = at / 2 * 2;
            at == 0 || layout.in_ram(function, 4) || layout.in_flash(function, 4)
        }
        PairKind::ReadOnly => size == 0 || layout.in_ram(at, size) || layout.in_flash(at, size),
        PairKind::ReadWrite | PairKind::Readable => size == 0 || layout.in_ram(at, size),
    }
}

impl Caller<'_> {
    /// Hands a pair to a driver and gives the former one, or says which rule refuses it.
    #[tactic(auto, unfolding(kernel_model::specs::Calls::swap_refusal, grant_model::specs::Grants::shape_of))]
    fn share(&mut self, swap: Swap) -> Result<(u32, u32), CallRule>
        ensures refusal { broken_by result ≡ swap_refusal swap self.old.own }
        ensures former { IfOk result (λ former. former ≡ former_pair swap self.old.own) }
        ensures handed { OnOk result
            (self.new ≡ record self.old { own = own_swapped swap self.old.own }) }
        ensures refused { OnErr result (self.new ≡ self.old) }
    {
        let Swap {
            kind,
            driver,
            number,
            pair,
        } = swap;
        let Some(counts) = counts(driver) else {
            return Err(CallRule::NoDriver);
        };
        if number >= kind.count(&counts) {
            return Err(CallRule::NoNumber);
        }
        let layout = self.layout();
        if !may_share(kind, &layout, pair) {
            return Err(CallRule::Outside);
        }
        let handover = Handover {
            kind,
            driver,
            counts,
            number,
            pair,
        };
        match self.hand(handover) {
            Ok(former) => Ok(former),
            Err(_) => Err(CallRule::NoRoom),
        }
    }

    /// Serves a subscribe or an allow: the reply has the former pair, and a refusal the passed one.
    pub fn swap(&mut self, swap: Swap) -> Outcome
        ensures serves { Comes (λ r. swapped r swap) self.old self.new result }
        ensures keeps { Keeps self.old self.new }
    {
        match self.share(swap) {
            Ok((first, second)) => self.give(Ok(Reply::SuccessU32U32(first, second))),
            Err(rule) => self.refuse(rule, failed_swap(swap.pair, rule)),
        }
    }
}
