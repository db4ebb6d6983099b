//! Where each application is placed.
ghost use Rattle.std.specs.Prelude.{◌≡◌, ◌+◌, ◌%◌, ◌≤◌, ◌<◌, length, count_by, All, AllPairs};
ghost use Rattle.tk_base.specs.declared.limits.TheConstants.{SLOT_COUNT};
ghost use Rattle.flash_walk.specs.Image.{objects};
ghost use Rattle.app_placement.specs.Applications.{applications};
ghost use Rattle.app_placement.specs.Placement.{block_length, is_start_taken};
ghost use Rattle.app_placement.specs.Parts.{block_start};
ghost use Rattle.app_placement.specs.Placement.{share_start, room_of, place_of, filled_after};
ghost use Rattle.app_placement.specs.Placement.{LiesInRam, LiesBefore, LiesInFlash};
ghost use Rattle.app_placement.specs.Parts.{placements};
ghost use Rattle.app_placement.specs.Placement.{IsLaidOut, AreNumbered, is_placed};

use crate::application::{Application, application_at};
use crate::placed::{Filled, Placed, Room};
use arrayvec::ArrayVec;
use flash_walk::{Found, objects_are_found};
use process_layout::Layout;
use tk_base::{
    Addr, FLASH_LIMIT, OBJECT_LIMIT, PlaceFault, RAM_LIMIT, RAM_START, RAM_UNIT, SLOT_COUNT, Slot,
};

/// The length of a block of RAM, in bytes: the minimum RAM and 768 bytes, rounded up to a multiple
/// of 1024.
fn block_length_of(minimum_ram: u32) -> u64
    ensures { result ≡ block_length minimum_ram }
{
    (u64::from(minimum_ram) + 768).next_multiple_of(1024)
}

/// Where the share of a slot starts. The one of the last slot ends where one more would start.
fn share_start_of(ram: u32, slot: usize) -> Addr
    requires ram { ram ≤ RAM_LIMIT }
    requires slot { slot ≤ SLOT_COUNT }
    ensures start { result ≡ share_start ram slot }
    ensures aligned { result % 8 ≡ 0 }
{
    let share = ram / SLOT_COUNT as u32 / RAM_UNIT * RAM_UNIT;
    RAM_START + slot as u32 * share
}

/// Where the next block may lie: in the share of its slot, or, where there are no time partitions,
/// from the last end on.
fn room_of(partition: bool, ram: u32, filled: &Filled) -> Room
    requires ram { ram ≤ RAM_LIMIT }
    requires aligned { filled.now.last_end % 4 ≡ 0 }
    requires free { filled.now.count < SLOT_COUNT }
    ensures room { result ≡ room_of partition ram filled.now }
    ensures aligned { result.from % 4 ≡ 0 }
{
    if partition {
        Room {
            from: share_start_of(ram, filled.count),
            to: share_start_of(ram, filled.count + 1),
        }
    } else {
        Room {
            from: filled.last_end,
            to: RAM_START + ram,
        }
    }
}

/// Whether a fixed RAM start is another one than that of the share; or, where there are no time
/// partitions, is no multiple of 8, or lies below the last end.
fn is_taken_by(partition: bool, from: Addr, fixed_start: Option<Addr>) -> bool
    ensures { result ≡ is_start_taken partition from fixed_start }
{
    match fixed_start {
        None => false,
        Some(start) if partition => start != from,
        Some(start) => start % 8 != 0 || start < from,
    }
}

/// Where a block starts: at the fixed RAM start, or where it may lie first.
fn block_start_of(from: Addr, fixed_start: Option<Addr>) -> Addr
    ensures { result ≡ block_start from fixed_start }
{
    match fixed_start {
        None => from,
        Some(start) => start,
    }
}

/// The place of the next application, or the first cause for which it has none.
#[tactic(auto, unfolding(crate::specs::Placement::place_of))]
fn next_place(
    partition: bool,
    ram: u32,
    filled: &Filled,
    app: &Application,
) -> Result<(Slot, Layout), PlaceFault>
    requires ram { ram ≤ RAM_LIMIT }
    requires aligned { filled.now.last_end % 4 ≡ 0 }
    requires flash { app.now.flash_from ≤ app.now.flash_to }
    ensures { result ≡ place_of partition ram filled.now app.now }
{
    if filled.count >= SLOT_COUNT {
        return Err(PlaceFault::NoSlot);
    }
    let room = room_of(partition, ram, filled);
    if is_taken_by(partition, room.from, app.fixed_start) {
        return Err(PlaceFault::FixedTaken);
    }
    let start = block_start_of(room.from, app.fixed_start);
    let end = u64::from(start) + block_length_of(app.minimum_ram);
    if end > u64::from(room.to) {
        return Err(PlaceFault::NoRoom);
    }
    let (from, to) = (app.flash_from, app.flash_to);
    let layout = Layout::for_start(from, to, start, end as u32, app.minimum_ram);
    Ok((Slot::new(filled.count), layout))
}

/// How far RAM and the slots are filled after an application was placed or was not.
fn next_filled(filled: &Filled, place: &Result<(Slot, Layout), PlaceFault>) -> Filled
    requires { filled.now.count ≤ SLOT_COUNT }
    ensures { result ≡ filled_after filled.now place.now }
{
    match place {
        Err(_) => *filled,
        Ok(place) => Filled {
            last_end: place.1.end,
            count: filled.count + 1,
        },
    }
}

/// Places the applications of a flash image in RAM of this size, in bytes, in the order in which
/// they stand in flash (Levy et al., SOSP 2017: each process has one block of RAM). `found` is what
/// the walk over the flash image finds.
///
/// An application is not placed where each slot is taken already; where it is linked for a RAM
/// start that is no multiple of 8 or lies below the end of the last block; or where its block
/// would pass the end of RAM. The first of these causes is told. It then takes no slot and no RAM.
///
/// Where there are time partitions (`partition`), each slot has a share of RAM: a sixteenth of it,
/// rounded down to a multiple of 1024 bytes. A block starts where the share of its slot does. The
/// second cause is then that the application is linked for any other RAM start, and the third that
/// its block is longer than a share.
pub fn place(
    found: &[Found],
    flash: &[u8],
    ram: u32,
    partition: bool,
) -> ArrayVec<Placed, OBJECT_LIMIT>
    requires found { found.now ≡ objects flash.now }
    requires flash { length flash.now ≤ FLASH_LIMIT }
    requires ram { ram ≤ RAM_LIMIT }
    ensures places { result.items ≡ placements partition ram (applications flash.now) }
    // Each block lies in RAM, apart from the others, and the accessible flash in its object.
    ensures ram { All (LiesInRam ram) result.items }
    ensures apart { AllPairs LiesBefore result.items }
    ensures flash { All (LiesInFlash flash.now) result.items }
    // Each layout is the one for its object, and the slots are taken in order.
    ensures layouts { All (IsLaidOut flash.now) result.items }
    ensures slots { AreNumbered result.items }
    ensures few { count_by is_placed result.items ≤ SLOT_COUNT }
{
    objects_are_found();
    let mut placed = ArrayVec::new();
    let mut filled = Filled {
        last_end: RAM_START,
        count: 0,
    };
    for object in found {
        let Some(app) = application_at(flash, object) else {
            continue;
        };
        let place = next_place(partition, ram, &filled, &app);
        filled = next_filled(&filled, &place);
        placed.push(Placed {
            offset: app.offset,
            place,
        });
    }
    placed
}
