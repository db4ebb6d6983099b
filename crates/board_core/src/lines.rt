//! What the report says of a board: the lines of its processes, and beside them what it counts.
ghost use Rattle.std.specs.Prelude.{◌≡◌, ◌+◌, ◌≤◌, All, length, map};
ghost use Rattle.std.specs.List.{zip};
ghost use Rattle.tk_base.specs.declared.limits.TheConstants.{OBJECT_LIMIT, SLOT_COUNT};
ghost use Rattle.process_record.specs.Name.{name_of};
ghost use Rattle.process_model.specs.Flash.{object_in};
ghost use Rattle.kernel_model.specs.Shown.{summary_of};
ghost use Rattle.kernel_calls.specs.Residents.{InFlash, resident_line};
ghost use Rattle.board_core.specs.Shows.{IsBoard, world_of};

use crate::state::BoardState;
use arrayvec::ArrayVec;
use grant_enter::Home;
use led_capsule::bits;
use process_model::Object;
use process_record::{Process, SlotLine, Summary, object_name};
use tbf_headers::object_at;
use tk_base::{FLASH_START, OBJECT_LIMIT, PlaceFault, SLOT_COUNT, Slot};

/// The name of the application whose object this is, as its line shows it.
fn name_in(flash: &[u8], object: &Object) -> ArrayVec<u8, 32>
    requires from { FLASH_START ≤ object.now.address }
    requires to { object.now.address + object.now.size ≤ FLASH_START + length flash.now }
    ensures { result.items ≡ name_of (object_in flash.now object.now) }
{
    object_name(object_at(flash, object.address - FLASH_START, object.size))
}

/// The same applications again.
pub(crate) fn copied(unplaced: &[(u32, PlaceFault)]) -> ArrayVec<(u32, PlaceFault), OBJECT_LIMIT>
    requires { length unplaced.now ≤ OBJECT_LIMIT }
    ensures { result.items ≡ unplaced.now }
{
    let mut copy = ArrayVec::new();
    let Ok(()) = copy.try_extend_from_slice(unplaced) else {
        unreachable!()
    };
    copy
}

/// The line of each slot.
fn slot_lines(home: &Home, processes: &[Process]) -> ArrayVec<SlotLine, SLOT_COUNT>
    requires few { length processes.now ≤ SLOT_COUNT }
    requires owns { length home.now.owns ≡ length processes.now }
    requires objects { All (InFlash home.now.flash) processes.now }
    ensures { result.items ≡ map (resident_line home.now.flash) (zip processes.now home.now.owns) }
{
    let mut lines = ArrayVec::new();
    for (place, process) in processes.iter().enumerate() {
        let slot = Slot::new(place);
        lines.push(SlotLine {
            name: name_in(home.flash(), &process.object),
            state: process.state,
            held: process.held,
            wait: home.wait(slot),
            denial: process.denial,
            turns: process.turns,
            restarts: process.restarts,
            dropped: home.dropped(slot),
        });
    }
    lines
}

/// What the report says of the board.
pub(crate) fn summary(state: &BoardState) -> Summary
    requires { IsBoard state.now }
    ensures { result ≡ summary_of (world_of state.now) }
{
    Summary {
        slots: slot_lines(&state.machine.home, &state.processes),
        unplaced: copied(&state.unplaced),
        leds: bits(&state.machine.drivers.leds),
        led_count: state.machine.moment.settings.leds,
        steps: state.machine.moment.steps,
        time: state.machine.moment.time,
    }
}
