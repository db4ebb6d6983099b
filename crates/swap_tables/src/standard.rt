//! What the standard's surface has for each kind of pair: a swap and a look-up apiece. The kernel takes
//! [`swap_pair`] and [`pair_held`].
ghost use Rattle.std.specs.Prelude.{◌≡◌};
ghost use Rattle.tk_base.specs.declared.kinds.PairKind.TheVariants.{Upcall, ReadOnly, ReadWrite, Readable};
ghost use Rattle.grant_region.specs.Region.{parts_of};
ghost use Rattle.swap_tables.specs.Swaps.{CanLookUp, CanSwap, SwapOutcome, handing_over, held_pair};

use crate::handover::Handover;
use crate::pairs::pair_held;
use crate::swaps::swap_pair;
use grant_region::NoRoom;
use process_layout::Layout;
use tk_base::{Counts, PairKind};

/// What is handed over in such a swap.
fn handing_over(
    kind: PairKind,
    driver: u32,
    counts: &Counts,
    number: u32,
    pair: (u32, u32),
) -> Handover
    ensures { result ≡ handing_over kind driver counts.now number pair }
{
    Handover {
        kind,
        driver,
        counts: *counts,
        number,
        pair,
    }
}

/// Swaps the read-only buffer of a number that the process has allowed the driver (TRD 104,
/// "Read-Only Allow"): the new one's address, and its size in bytes. The answer is the former one,
/// at first (0, 0), and the driver is entered. `app` and `kernel` are the block, cut at the kernel
/// break, and `counts` are the driver's; all that they hold beside this pair is as it was.
///
/// There is [`NoRoom`], and nothing changes, exactly where the driver is not entered and the kernel
/// break less the cost of its grant is below the break.
pub fn swap_ro(
    layout: &mut Layout,
    app: &mut [u8],
    kernel: &mut [u8],
    driver: u32,
    counts: &Counts,
    number: u32,
    pair: (u32, u32),
) -> Result<(u32, u32), NoRoom>
    requires { CanSwap (handing_over ReadOnly driver counts.now number pair)
        (parts_of layout.old app.old kernel.old) }
    ensures { SwapOutcome (handing_over ReadOnly driver counts.now number pair)
        (parts_of layout.old app.old kernel.old) (parts_of layout.new app.new kernel.new) result }
{
    let handover = handing_over(PairKind::ReadOnly, driver, counts, number, pair);
    swap_pair(layout, app, kernel, handover)
}

/// Swaps the read-write buffer of a number that the process has allowed the driver (TRD 104,
/// "Read-Write Allow"): the new one's address, and its size in bytes. All else is as for [`swap_ro`].
pub fn swap_rw(
    layout: &mut Layout,
    app: &mut [u8],
    kernel: &mut [u8],
    driver: u32,
    counts: &Counts,
    number: u32,
    pair: (u32, u32),
) -> Result<(u32, u32), NoRoom>
    requires { CanSwap (handing_over ReadWrite driver counts.now number pair)
        (parts_of layout.old app.old kernel.old) }
    ensures { SwapOutcome (handing_over ReadWrite driver counts.now number pair)
        (parts_of layout.old app.old kernel.old) (parts_of layout.new app.new kernel.new) result }
{
    let handover = handing_over(PairKind::ReadWrite, driver, counts, number, pair);
    swap_pair(layout, app, kernel, handover)
}

/// Swaps the buffer of a number that the process has allowed the driver and may read while the kernel
/// writes it (the userspace-readable allow of Tock's kernel): the new one's address, and its size in
/// bytes. All else is as for [`swap_ro`].
pub fn swap_ur(
    layout: &mut Layout,
    app: &mut [u8],
    kernel: &mut [u8],
    driver: u32,
    counts: &Counts,
    number: u32,
    pair: (u32, u32),
) -> Result<(u32, u32), NoRoom>
    requires { CanSwap (handing_over Readable driver counts.now number pair)
        (parts_of layout.old app.old kernel.old) }
    ensures { SwapOutcome (handing_over Readable driver counts.now number pair)
        (parts_of layout.old app.old kernel.old) (parts_of layout.new app.new kernel.new) result }
{
    let handover = handing_over(PairKind::Readable, driver, counts, number, pair);
    swap_pair(layout, app, kernel, handover)
}

/// Swaps the upcall of a number that the process has subscribed with the driver (TRD 104,
/// "Subscribe"): the new one's function, and the application data. The former one is at first
/// (0, 0), the null upcall. All else is as for [`swap_ro`].
pub fn swap_upcall(
    layout: &mut Layout,
    app: &mut [u8],
    kernel: &mut [u8],
    driver: u32,
    counts: &Counts,
    number: u32,
    pair: (u32, u32),
) -> Result<(u32, u32), NoRoom>
    requires { CanSwap (handing_over Upcall driver counts.now number pair)
        (parts_of layout.old app.old kernel.old) }
    ensures { SwapOutcome (handing_over Upcall driver counts.now number pair)
        (parts_of layout.old app.old kernel.old) (parts_of layout.new app.new kernel.new) result }
{
    let handover = handing_over(PairKind::Upcall, driver, counts, number, pair);
    swap_pair(layout, app, kernel, handover)
}

/// The read-only buffer of a number that the process has allowed the driver (TRD 104, "Read-Only
/// Allow"): its address, and its size in bytes. It is (0, 0) where the process has not entered the
/// driver. `kernel` is the block from the kernel break on, and `counts` are the driver's.
pub fn buffer_ro(kernel: &[u8], driver: u32, counts: &Counts, number: u32) -> (u32, u32)
    requires { CanLookUp ReadOnly driver counts.now number kernel.now }
    ensures { result ≡ held_pair ReadOnly driver number kernel.now }
{
    pair_held(kernel, driver, counts, PairKind::ReadOnly, number)
}

/// The read-write buffer of a number that the process has allowed the driver (TRD 104, "Read-Write
/// Allow"), as [`buffer_ro`].
pub fn buffer_rw(kernel: &[u8], driver: u32, counts: &Counts, number: u32) -> (u32, u32)
    requires { CanLookUp ReadWrite driver counts.now number kernel.now }
    ensures { result ≡ held_pair ReadWrite driver number kernel.now }
{
    pair_held(kernel, driver, counts, PairKind::ReadWrite, number)
}

/// The buffer of a number that the process has allowed the driver and may read while the kernel writes
/// it (the userspace-readable allow of Tock's kernel), as [`buffer_ro`].
pub fn buffer_ur(kernel: &[u8], driver: u32, counts: &Counts, number: u32) -> (u32, u32)
    requires { CanLookUp Readable driver counts.now number kernel.now }
    ensures { result ≡ held_pair Readable driver number kernel.now }
{
    pair_held(kernel, driver, counts, PairKind::Readable, number)
}

/// The upcall of a number that the process has subscribed with the driver (TRD 104, "Subscribe"):
/// its function, and the application data. It is (0, 0), the null upcall, where the process has not
/// entered the driver. `kernel` and `counts` are those of [`buffer_ro`].
pub fn upcall(kernel: &[u8], driver: u32, counts: &Counts, number: u32) -> (u32, u32)
    requires { CanLookUp Upcall driver counts.now number kernel.now }
    ensures { result ≡ held_pair Upcall driver number kernel.now }
{
    pair_held(kernel, driver, counts, PairKind::Upcall, number)
}
