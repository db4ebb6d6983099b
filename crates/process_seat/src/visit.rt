//! Visits of a driver to the grants that processes keep for it.
ghost use Rattle.std.specs.Prelude.{◌≡◌, ◌<◌, ◌^◌, true, length, option_map, is_ok};
ghost use Rattle.std.specs.Prelude.{IfOk, OnOk, OnErr, Ok, Some};
ghost use Rattle.grant_values.specs.Drivers.{counts_of};
ghost use Rattle.grant_model.specs.Grants.{grant_of};
ghost use Rattle.grant_model.specs.Encoding.{EncodesGrants, decode_grants};
ghost use Rattle.grant_model.specs.Laws.{IsValue, value_bytes, value_offset};
ghost use Rattle.process_model.specs.Own.{Own, block_of};
ghost use Rattle.process_model.specs.Handed.{own_entering};
ghost use Rattle.process_seat.specs.Seats.{HasBlock, MakesRoom, Reseats, SitsIn};
ghost use Rattle.process_seat.specs.Seats.{fits_in, kernel_in, own_in};
ghost use Rattle.process_seat.specs.Seen.{Seen, Framed, IsLent, IsLentTo, ServesIn, seen};
ghost use Rattle.process_seat.specs.Seen.{own_entered, seen_of};
ghost use Rattle.process_seat.specs.Visits.{Asks, Enters, IsCounted, Peeks, Visited, Visits};
ghost use Rattle.process_seat.specs.Visits.{found_in, grants_of};

use crate::entered::Entered;
use crate::handing::in_order;
use crate::kept::{ValuePlace, keep_value, kernel_of, value_at, value_offset_in, value_place};
use crate::seat::Seat;
use board_memory::{Block, Memory, SplitBlock};
use grant_model::{Area, pairs_stand_by_kind, values_are_found};
use grant_region::{NoRoom, make_room};
use grant_values::{GrantValue, cost_of};
use process_layout::Layout;
use tk_base::Counts;

/// What a driver does with the value that a process keeps for it, and with what the process has
/// handed to it. A visitor says itself what it asks, and what it leaves.
pub trait Visit<T> {
    /// What it answers.
    type Answer;

    /// What it asks of the value and of what it sees.
    ghost asks: { Self → T → Seen → Type 0 };

    /// What it leaves of a value and of what it sees: an answer, a value, and what is the process's
    /// own.
    ghost leaves: { Self → T → Seen → Self.Answer → T → Own → Type 0 };

    /// Visits a process.
    fn run(self, value: &mut T, entered: &mut Entered<'_>) -> Self::Answer
        requires lent { IsLent entered.old }
        requires asks { asks self value.old (seen entered.old) }
        ensures leaves { leaves self value.old (seen entered.old) result value.new
            (own_entered entered.new) }
        ensures framed { Framed entered.old entered.new };
}

/// Why a driver did not enter a process.
#[derive(Clone, Copy, Debug, PartialEq, Eq)]
pub enum EnterError {
    /// The driver is not entered, and the kernel break less the cost of its grant is below the
    /// break.
    NoRoom,
    /// The process has ended, or is in another life, or none was placed in the slot.
    Stale,
}

/// The process of an id is not there: it has ended, or is in another life, or none was placed in
/// the slot.
#[derive(Clone, Copy, Debug, PartialEq, Eq)]
pub struct Stale;

/// A visitor that was not run, as it was given, by why it was not.
#[derive(Drop)]
pub enum Unvisited<V> {
    /// The process has not entered the driver in this life.
    NotEntered(V),
    /// The process has ended, or is in another life, or none was placed in the slot.
    Gone(V),
}

/// Has a visitor run over a process in its seat.
fn run_visit<T, V: Visit<T>>(
    memory: &mut Memory,
    seat: &mut Seat,
    driver: u32,
    counts: Counts,
    value: &mut T,
    visitor: V,
) -> V::Answer
    requires lent { IsLentTo driver counts memory.old seat.old }
    requires asks { V.asks visitor value.old
        (seen_of driver counts memory.old.flash (own_in memory.old.ram seat.old)) }
    ensures left { V.leaves visitor value.old
        (seen_of driver counts memory.old.flash (own_in memory.old.ram seat.old))
        result value.new (own_in memory.new.ram seat.new) }
    ensures serves { ServesIn driver memory.old seat.old memory.new seat.new }
{
    let mut entered = Entered {
        memory,
        seat,
        driver,
        counts,
    };
    visitor.run(value, &mut entered)
}

/// Visits the value that the process in a seat keeps for a driver, at its place.
fn visit_at<T: GrantValue, V: Visit<T>>(
    memory: &mut Memory,
    seat: &mut Seat,
    place: ValuePlace,
    visitor: V,
) -> V::Answer
    requires sits { SitsIn memory.old seat.old }
    requires counted { IsCounted T.driver place.driver place.counts T.SIZE }
    requires stands { IsValue (kernel_in memory.old.ram seat.old.layout) place.at
        (value_bytes place.driver) place.driver }
    requires asks { Asks T.kept (V.asks visitor) (seen_of place.driver place.counts
        memory.old.flash (own_in memory.old.ram seat.old)) }
    ensures visited { Visited (record {
      grants = grants_of place.driver place.counts;
      keeps = T.kept;
      visitor = visitor;
      leaves = V.leaves;
    }) (found_in memory.old seat.old) result (own_in memory.new.ram seat.new) }
    ensures reseats { Reseats memory.old seat.old memory.new seat.new }
{
    let ValuePlace { driver, counts, at } = place;
    let mut value = value_at::<T>(kernel_of(memory, &seat.layout), at);
    let answer = run_visit::<T, V>(memory, seat, driver, counts, &mut value, visitor);
    keep_value::<T>(memory, &seat.layout, at, &value);
    answer
}

/// Makes room in a block of memory for a driver's grant, where the driver is not entered.
fn make_room_in(
    memory: &mut Memory,
    layout: &mut Layout,
    driver: u32,
    counts: &Counts,
) -> Result<Area, NoRoom>
    requires block { HasBlock memory.old layout.old }
    requires counts { counts_of driver ≡ Some counts.now }
    ensures room { is_ok result ≡ fits_in driver memory.old.ram layout.old }
    ensures made { OnOk result (MakesRoom driver memory.old layout.old memory.new layout.new) }
    ensures area { IfOk result (λ area. IsValue (kernel_in memory.new.ram layout.new)
        (value_offset driver area) (value_bytes driver) driver) }
    ensures refused { OnErr result ((memory.new ≡ memory.old) × (layout.new ≡ layout.old)) }
{
    values_are_found();
    let Block { bytes, cut, .. } = memory.lend_block(layout);
    let SplitBlock { app, kernel } = SplitBlock::of(bytes, cut);
    let made = make_room(layout, app, kernel, driver, cost_of(counts));
    in_order(layout);
    made
}

/// A driver enters the process in a seat, which lives.
pub fn enter_seat<T: GrantValue, V: Visit<T> + Drop>(
    memory: &mut Memory,
    seat: &mut Seat,
    driver: u32,
    counts: Counts,
    visitor: V,
) -> Result<V::Answer, EnterError>
    requires sits { SitsIn memory.old seat.old }
    requires lives { seat.old.lives ≡ true }
    requires counted { IsCounted T.driver driver counts T.SIZE }
    requires asks { Asks T.kept (V.asks visitor) (seen_of driver counts memory.old.flash
        (own_entering driver (own_in memory.old.ram seat.old))) }
    ensures enters { Enters (record {
      grants = grants_of driver counts;
      keeps = T.kept;
      visitor = visitor;
      leaves = V.leaves;
    }) (found_in memory.old seat.old) result (own_in memory.new.ram seat.new) }
    ensures reseats { Reseats memory.old seat.old memory.new seat.new }
{
    pairs_stand_by_kind();
    let Ok(area) = make_room_in(memory, &mut seat.layout, driver, &counts) else {
        return Err(EnterError::NoRoom);
    };
    let at = value_offset_in(area, driver, counts);
    let place = ValuePlace { driver, counts, at };
    Ok(visit_at::<T, V>(memory, seat, place, visitor))
}

/// A driver visits the process in a seat, which lives.
pub fn visit_seat<T: GrantValue, V: Visit<T> + Drop>(
    memory: &mut Memory,
    seat: &mut Seat,
    driver: u32,
    counts: Counts,
    visitor: V,
) -> Result<V::Answer, Unvisited<V>>
    requires sits { SitsIn memory.old seat.old }
    requires lives { seat.old.lives ≡ true }
    requires counted { IsCounted T.driver driver counts T.SIZE }
    requires asks { Asks T.kept (V.asks visitor) (seen_of driver counts memory.old.flash
        (own_in memory.old.ram seat.old)) }
    ensures visits { Visits (record {
      grants = grants_of driver counts;
      keeps = T.kept;
      visitor = visitor;
      leaves = V.leaves;
    }) (found_in memory.old seat.old) result (own_in memory.new.ram seat.new) }
    ensures reseats { Reseats memory.old seat.old memory.new seat.new }
{
    match value_place(kernel_of(memory, &seat.layout), driver, counts) {
        Some(place) => Ok(visit_at::<T, V>(memory, seat, place, visitor)),
        None => Err(Unvisited::NotEntered(visitor)),
    }
}

/// The value that the process in a seat, which lives, keeps for a driver.
pub fn peek_seat<T: GrantValue>(
    memory: &Memory,
    seat: &Seat,
    driver: u32,
    counts: Counts,
) -> Option<T>
    requires sits { SitsIn memory.now seat.now }
    requires lives { seat.now.lives ≡ true }
    requires counted { IsCounted T.driver driver counts T.SIZE }
    ensures peeks { Peeks (grants_of driver counts) T.kept (found_in memory.now seat.now)
        (Ok result) }
{
    kept_in::<T>(kernel_of(memory, &seat.layout), driver, &counts)
}

/// The value that is kept for a driver in the areas.
fn kept_in<T: GrantValue>(kernel: &[u8], driver: u32, counts: &Counts) -> Option<T>
    requires laid { EncodesGrants kernel.now }
    requires small { length kernel.now < 2 ^ 32 }
    requires counted { IsCounted T.driver driver counts.now T.SIZE }
    ensures { option_map T.kept result
        ≡ option_map (λ g. g.value) (grant_of driver (decode_grants kernel.now)) }
{
    let place = value_place(kernel, driver, *counts)?;
    Some(value_at::<T>(kernel, place.at))
}

/// The block of the process in a seat.
pub fn block_at<'a>(memory: &'a Memory, seat: &Seat) -> &'a [u8]
    requires { SitsIn memory.now seat.now }
    ensures { result.now ≡ block_of (own_in memory.now.ram seat.now) }
{
    in_order(&seat.layout);
    memory.part(seat.layout.start, seat.layout.end)
}
