//! The applications of a flash image in their slots, before the first step.
ghost use Rattle.std.specs.Prelude.{◌≡◌, ◌≤◌, ℕ, All, AllPairs, count_by, length, filter_map, Ok};
ghost use Rattle.std.specs.Prelude.{Some, IfOk};
ghost use Rattle.tk_base.specs.declared.limits.TheConstants.{OBJECT_LIMIT, SLOT_COUNT};
ghost use Rattle.process_model.specs.Own.{opened};
ghost use Rattle.app_placement.specs.Placement.{LiesBefore, LiesInFlash, LiesInRam, IsLaidOut};
ghost use Rattle.app_placement.specs.Placement.{is_placed};
ghost use Rattle.board_opening.specs.Opening.{placed_applications, unplaced_at};
ghost use Rattle.board_opening.specs.Parts.{record_with_place};
ghost use Rattle.kernel_calls.specs.Residents.{IsResident};
ghost use Rattle.board_opening.specs.Boot.{at_offset, footprint_of, fresh_record, IsCrew, IsFirst};
ghost use Rattle.board_opening.specs.Boot.{StartsInRam};

use app_placement::{Placed, place};
use arrayvec::ArrayVec;
use flash_walk::walk;
use process_layout::Layout;
use process_model::Footprint;
use process_record::Process;
use std::alloc::Global;
use tbf_headers::{object_at, read_header, word_at};
use tk_base::{FLASH_LIMIT, FLASH_START, OBJECT_LIMIT, PlaceFault, RAM_LIMIT, Slot};
use tk_outside::NoMemory;

/// The applications of a flash image, each with its place in so many bytes of RAM, with time
/// partitions or without, or why it has none.
pub fn placed_in(flash: &[u8], ram: u32, partition: bool) -> ArrayVec<Placed, OBJECT_LIMIT>
    requires flash { length flash.now ≤ FLASH_LIMIT }
    requires ram { ram ≤ RAM_LIMIT }
    ensures places { result.items ≡ placed_applications partition ram flash.now }
    ensures flash { All (LiesInFlash flash.now) result.items }
    ensures ram { All (LiesInRam ram) result.items }
    ensures starts { All StartsInRam result.items }
    ensures apart { AllPairs LiesBefore result.items }
    ensures layouts { All (IsLaidOut flash.now) result.items }
    ensures few { count_by is_placed result.items ≤ SLOT_COUNT }
{
    let mut found = ArrayVec::new();
    walk(flash, &mut found);
    place(&found, flash, ram, partition)
}

/// The processes of the applications that have a place, slot 0 first, and what each takes up of
/// flash and RAM.
#[derive(Drop)]
pub struct LoadedProcesses {
    pub processes: Vec<Process>,
    pub footprints: Vec<Footprint>,
}

/// The process of an application in its place, before its first turn.
fn first_process(flash: &[u8], offset: u32, place: &(Slot, Layout)) -> Process
    requires short { length flash.now ≤ FLASH_LIMIT }
    requires flash { LiesInFlash flash.now (at_offset offset place.now) }
    requires ram { StartsInRam (at_offset offset place.now) }
    requires layout { IsLaidOut flash.now (at_offset offset place.now) }
    ensures shown { (storage : ℕ) →
        Some (fresh_record storage flash.now (result, opened (footprint_of result place.now)))
        ≡ record_with_place storage flash.now offset (Ok place.now) }
    ensures seated { IsResident flash.now 0 (result, opened (footprint_of result place.now)) }
    ensures first { IsFirst (length flash.now) (footprint_of result place.now) }
{
    let size = word_at(flash, offset as usize + 4);
    let Ok(header) = read_header(object_at(flash, offset, size)) else {
        unreachable!()
    };
    let layout = place.1;
    Process::start(
        &header,
        FLASH_START + offset,
        layout.start,
        layout.end - layout.start,
        layout.brk,
    )
}

/// The processes of the applications that have a place, before their first turns.
pub fn first_crew(
    alloc: Global,
    flash: &[u8],
    placed: &[Placed],
) -> Result<LoadedProcesses, NoMemory>
    requires short { length flash.now ≤ FLASH_LIMIT }
    requires flash { All (LiesInFlash flash.now) placed.now }
    requires ram { All StartsInRam placed.now }
    requires layouts { All (IsLaidOut flash.now) placed.now }
    ensures { IfOk result (IsCrew flash.now placed.now) }
{
    let mut crew = LoadedProcesses {
        processes: Vec::new(alloc),
        footprints: Vec::new(alloc),
    };
    for application in placed {
        let Ok(place) = &application.place else {
            continue;
        };
        let process = first_process(flash, application.offset, place);
        let footprint = Footprint {
            object: process.object,
            layout: place.1,
        };
        let Ok(()) = crew.processes.push(process) else {
            return Err(NoMemory);
        };
        let Ok(()) = crew.footprints.push(footprint) else {
            return Err(NoMemory);
        };
    }
    Ok(crew)
}

/// The applications that have no place.
pub fn unplaced(placed: &[Placed]) -> ArrayVec<(u32, PlaceFault), OBJECT_LIMIT>
    requires { length placed.now ≤ OBJECT_LIMIT }
    ensures { result.items ≡ filter_map unplaced_at placed.now }
{
    let mut unplaced = ArrayVec::new();
    for application in placed {
        let Err(fault) = application.place else {
            continue;
        };
        unplaced.push((application.offset, fault));
    }
    unplaced
}
