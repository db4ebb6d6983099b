//! Swaps of the pairs that a process holds.
ghost use Rattle.std.specs.Prelude.{◌≡◌, ◌<◌, ◌^◌, length, IfSome, IfNone, None};
ghost use Rattle.grant_model.specs.Grants.{grant_of};
ghost use Rattle.grant_model.specs.Encoding.{EncodesGrants, decode_grants};
ghost use Rattle.grant_region.specs.Region.{parts_of};
ghost use Rattle.swap_tables.specs.Swaps.{CanHand, CanSwap, SwapOutcome, SwapsHeld};

use crate::handover::Handover;
use crate::pairs::{first_word, pair_at, put_pair};
use grant_model::{areas_are_found, pairs_are_found};
use grant_region::{NoRoom, area, make_area, parts_join};
use grant_values::{cost_of, words_in_bytes};
use process_layout::Layout;

/// Swaps the pair that the process holds with the driver (TRD 104, "Subscribe", "Read-Only Allow",
/// "Read-Write Allow"): an upcall's function and application data, or a buffer's address and size in
/// bytes. The answer is the former pair, at first (0, 0), and the driver is entered. `app` and `kernel`
/// are the block, cut at the kernel break; all that they hold beside this pair is as it was.
///
/// There is [`NoRoom`], and nothing changes, exactly where the driver is not entered and the kernel
/// break less the cost of its grant is below the break.
pub fn swap_pair(
    layout: &mut Layout,
    app: &mut [u8],
    kernel: &mut [u8],
    handover: Handover,
) -> Result<(u32, u32), NoRoom>
    requires { CanSwap handover (parts_of layout.old app.old kernel.old) }
    ensures { SwapOutcome handover (parts_of layout.old app.old kernel.old)
        (parts_of layout.new app.new kernel.new) result }
{
    parts_join();
    if let Some(held) = swap_held(kernel, handover) {
        return Ok(held);
    }
    make_area(layout, app, handover.driver, cost_of(&handover.counts))?;
    let (_, area) = app.split_at_mut((layout.kernel_break - layout.start) as usize);
    // The area is new, and all of its pairs are zero.
    let _ = swap_held(area, handover);
    Ok((0, 0))
}

/// Swaps the pair where the process has entered the driver; where it has not, nothing changes.
fn swap_held(kernel: &mut [u8], handover: Handover) -> Option<(u32, u32)>
    requires laid { EncodesGrants kernel.old }
    requires small { length kernel.old < 2 ^ 32 }
    requires pair { CanHand handover }
    ensures some { IfSome result (SwapsHeld handover kernel.old kernel.new) }
    ensures none { IfNone result
        (grant_of handover.driver (decode_grants kernel.old) ≡ None) }
    ensures unchanged { IfNone result (kernel.new ≡ kernel.old) }
    ensures length { length kernel.new ≡ length kernel.old }
{
    words_in_bytes();
    areas_are_found();
    pairs_are_found();
    let Handover {
        kind,
        driver,
        counts,
        number,
        pair,
    } = handover;
    let found = area(kernel, driver)?;
    let at = first_word(&found, &counts, kind, number);
    let former = pair_at(kernel, at);
    put_pair(kernel, at, pair);
    Some(former)
}
