//! Where a driver's value stands in the areas of a process's grants.
ghost use Rattle.std.specs.Prelude.{◌≡◌, ◌+◌, ◌<◌, ◌≤◌, ◌^◌, length, take, drop, Some, None};
ghost use Rattle.std.specs.Prelude.{IfSome, IfNone};
ghost use Rattle.std.specs.List.{AllByRecursion};
ghost use Rattle.grant_values.specs.Drivers.{counts_of};
ghost use Rattle.grant_values.specs.Values.{value_by, value_words};
ghost use Rattle.grant_values.specs.Words.{IsWord, words_of};
ghost use Rattle.grant_model.specs.Grants.{grant_of};
ghost use Rattle.grant_model.specs.Encoding.{EncodesGrants, decode_grants};
ghost use Rattle.grant_model.specs.Laws.{IsValue, value_bytes, value_offset};
ghost use Rattle.process_seat.specs.Places.{FitsMemory};
ghost use Rattle.process_seat.specs.Seats.{HasBlock, kernel_in, value_put, with_value_in};

use crate::handing::in_order;
use board_memory::Memory;
use grant_model::{Area, areas_are_found, values_are_found};
use grant_region::area;
use grant_values::GrantValue;
use process_layout::Layout;
use tk_base::Counts;

/// Where the areas have the value that a process keeps for a driver.
#[derive(Clone, Copy)]
pub(crate) struct ValuePlace {
    /// The driver's number.
    pub driver: u32,
    /// Its counts.
    pub counts: Counts,
    /// At which byte from the kernel break on the value begins.
    pub at: usize,
}

/// At which byte from the kernel break on the value begins in a driver's area.
pub(crate) fn value_offset_in(area: Area, driver: u32, counts: Counts) -> usize
    requires { counts_of driver ≡ Some counts }
    ensures { result ≡ value_offset driver area }
{
    area.offset as usize + 8 + 8 * counts.pairs()
}

/// The place among the areas of the value that is kept for a driver; None where the driver is not entered.
pub(crate) fn value_place(kernel: &[u8], driver: u32, counts: Counts) -> Option<ValuePlace>
    requires laid { EncodesGrants kernel.now }
    requires small { length kernel.now < 2 ^ 32 }
    requires counts { counts_of driver ≡ Some counts }
    ensures place { IfSome result (λ place. (place.driver ≡ driver) × (place.counts ≡ counts)) }
    ensures found { IfSome result (λ place. IsValue kernel.now place.at (value_bytes driver) driver) }
    ensures absent { IfNone result (grant_of driver (decode_grants kernel.now) ≡ None) }
{
    areas_are_found();
    values_are_found();
    let found = area(kernel, driver)?;
    let at = value_offset_in(found, driver, counts);
    Some(ValuePlace { driver, counts, at })
}

/// The value at a place of the areas.
pub(crate) fn value_at<T: GrantValue>(kernel: &[u8], at: usize) -> T
    requires { at + T.SIZE ≤ length kernel.now }
    ensures { T.kept result ≡ value_by (words_of (take T.SIZE (drop at kernel.now))) T.driver }
{
    T::take(kernel.split_at(at).1)
}

/// Keeps a value at its place in the areas of a process's block. All else of memory stays.
pub(crate) fn keep_value<T: GrantValue>(memory: &mut Memory, layout: &Layout, at: usize, value: &T)
    requires settled { FitsMemory (length memory.old.flash) (length memory.old.ram) layout.now }
    requires within { at + T.SIZE ≤ length (kernel_in memory.old.ram layout.now) }
    ensures kept { memory.new ≡ with_value_in memory.old layout.now at T.SIZE (T.kept value.now) }
    ensures long { length (value_put (kernel_in memory.old.ram layout.now) at T.SIZE
        (T.kept value.now))
        ≡ length (kernel_in memory.old.ram layout.now) }
    ensures size { length (value_words (T.kept value.now)) ≡ T.count }
    ensures fits { AllByRecursion IsWord (value_words (T.kept value.now)) }
    ensures back { value_by (value_words (T.kept value.now)) T.driver ≡ T.kept value.now }
{
    in_order(layout);
    let kernel = memory.part_mut(layout.kernel_break, layout.end);
    let (_, rest) = kernel.split_at_mut(at);
    value.put(rest);
}

/// The areas of a process's grants.
pub(crate) fn kernel_of<'a>(memory: &'a Memory, layout: &Layout) -> &'a [u8]
    requires { HasBlock memory.now layout.now }
    ensures bytes { result.now ≡ kernel_in memory.now.ram layout.now }
    ensures laid { EncodesGrants result.now }
    ensures small { length result.now < 2 ^ 32 }
{
    in_order(layout);
    memory.part(layout.kernel_break, layout.end)
}
