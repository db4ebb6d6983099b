//! Room for one more area.
ghost use Rattle.std.specs.Prelude.{◌≡◌, ◌-◌, ◌<◌, ◌^◌, length, [], ◌∷◌, is_ok, Some, IfOk, IfErr, OnOk};
ghost use Rattle.grant_model.specs.Grants.{fresh, entered, grant_of};
ghost use Rattle.grant_model.specs.Encoding.{decode_grants, area_of, Tells};
ghost use Rattle.grant_region.specs.Region.{Costs, AreParts, has_space, with_room, fits, roomed};
ghost use Rattle.grant_region.specs.Region.{Leaves, LeavesArea, Refuses, parts_of};

use crate::laws::parts_join;
use crate::region::area;
use grant_model::{Area, areas_are_found, what_is_laid_is_read_back};
use grant_values::{put_word, words_in_bytes};
use process_layout::Layout;
use tk_base::Addr;

/// There is no room for a driver's area: it would begin below the break.
#[derive(Clone, Copy, Debug, PartialEq, Eq)]
pub struct NoRoom {
    /// The break: the end of the RAM that the process may read and write.
    pub brk: Addr,
    /// The kernel break: the lowest address of a grant.
    pub lowest: Addr,
}

/// Makes room for a driver's area, where the process has not entered the driver yet. The area, with
/// all pairs and the value zero, is written into the last `cost` bytes of `app`, which belong to the
/// kernel's bytes of the layout afterwards; the other areas stay. `app` and `kernel` are the block,
/// cut at the kernel break, and `cost` is the driver's, in bytes. The answer is where the area
/// lies from the new kernel break on.
///
/// There is [`NoRoom`], and nothing changes, exactly where the driver is not entered and the kernel
/// break less the cost is below the break.
pub fn make_room(
    layout: &mut Layout,
    app: &mut [u8],
    kernel: &[u8],
    driver: u32,
    cost: u32,
) -> Result<Area, NoRoom>
    requires parts { AreParts (parts_of layout.old app.old kernel.now) }
    requires cost { Costs driver cost }
    ensures room { is_ok result
        ≡ fits layout.old driver (grant_of driver (decode_grants kernel.now)) }
    ensures layout { OnOk result
        (layout.new ≡ roomed driver layout.old (grant_of driver (decode_grants kernel.now))) }
    ensures made { OnOk result
        (Leaves (parts_of layout.old app.old kernel.now) (parts_of layout.new app.new kernel.now)
        (entered driver (decode_grants kernel.now))) }
    ensures area { IfOk result
        (λ a. Some a ≡ area_of driver (entered driver (decode_grants kernel.now))) }
    ensures refused { IfErr result (Refuses layout.old layout.new app.old app.new) }
{
    areas_are_found();
    parts_join();
    if let Some(found) = area(kernel, driver) {
        return Ok(found);
    }
    make_area(layout, app, driver, cost)?;
    Ok(Area { offset: 0, cost })
}

/// Takes room for a driver's area, and writes the area, with all pairs and the value zero, into the
/// last `cost` bytes of `app`, which belong to the kernel's bytes of the layout afterwards. `app` is
/// the block up to the kernel break. [`make_room`] does this where the driver is not entered.
///
/// There is [`NoRoom`], and nothing changes, exactly where the kernel break less the cost is below
/// the break.
pub fn make_area(layout: &mut Layout, app: &mut [u8], driver: u32, cost: u32) -> Result<(), NoRoom>
    requires size { length app.old ≡ layout.old.kernel_break - layout.old.start }
    requires cost { Costs driver cost }
    ensures room { is_ok result ≡ has_space layout.old cost }
    ensures layout { OnOk result (layout.new ≡ with_room cost layout.old) }
    ensures made { OnOk result (LeavesArea layout.new app.old app.new (fresh driver)) }
    ensures refused { IfErr result (Refuses layout.old layout.new app.old app.new) }
{
    let (brk, lowest) = (layout.brk, layout.kernel_break);
    match layout.take_grant(cost) {
        None => Err(NoRoom { brk, lowest }),
        Some(_) => {
            let (_, area) = app.split_at_mut(app.len() - cost as usize);
            lay_fresh(area, driver, cost);
            Ok(())
        }
    }
}

/// Makes bytes the area of a driver, with all pairs and the value zero.
fn lay_fresh(area: &mut [u8], driver: u32, cost: u32)
    requires size { length area.old ≡ cost }
    requires cost { Costs driver cost }
    ensures tells { Tells area.new (fresh driver ∷ []) }
    ensures length { length area.new ≡ length area.old }
{
    words_in_bytes();
    what_is_laid_is_read_back();
    area.fill(0);
    put_word(area, 0, driver);
    put_word(area, 1, cost);
}
