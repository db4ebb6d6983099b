//! What the board's surface owes and the tool does not take: what a choice reads of the board, at
//! once. The tool's choice asks for each part where it needs it ([`Board::next_choice`]).
ghost use Rattle.std.specs.Prelude.{◌≡◌, ◌-◌, ◌<◌, ◌^◌, [], IfSome, Some, map};
ghost use Rattle.std.specs.List.{range_with_len};
ghost use Rattle.std.specs.Option.{option_map};
ghost use Rattle.tk_base.specs.declared.limits.TheConstants.{SLOT_COUNT};
ghost use Rattle.partition_turns.specs.Lanes.{lanes_shown};
ghost use Rattle.turn_scheduler.specs.Status.{IsChoiceAhead, choice_by, lanes_told};
ghost use Rattle.turn_scheduler.specs.Status.{situation_shown as status_situation};
ghost use Rattle.kernel_laws.specs.Windows.{due_time, lane_order};
ghost use Rattle.kernel_model.specs.Parts.{work_for};
ghost use Rattle.kernel_model.specs.Turn.{may_turn};
ghost use Rattle.kernel_model.specs.World.{sending_time};
ghost use Rattle.kernel_model.specs.Run.{next, ready_slots, situation_of};
ghost use Rattle.board_core.specs.LanesOf.{lanes_of};
ghost use Rattle.board_core.specs.Makes.{ready_in};
ghost use Rattle.board_core.specs.Shows.{IsBoard, world_of};

use crate::board::Board;
use crate::left::{can_run_alone, is_ready_alone, time_ahead};
use crate::state::BoardState;
use arrayvec::ArrayVec;
use board_drivers::Served;
use kernel_laws::next_is_of_the_window;
use kernel_model::next_is_ready;
use partition_turns::Lanes;
use tk_base::{Dev, SLOT_COUNT, Slot};
use turn_scheduler::{Situated, Status};

/// Which device steps are ready.
fn devices_ready(state: &BoardState) -> ArrayVec<bool, 6>
    requires { IsBoard state.now }
    ensures { result.items ≡ ready_in state.now.machine.moment state.now.machine.home.owns
        state.now.machine.drivers }
{
    let machine = &state.machine;
    let served = machine.moment.served();
    ArrayVec::from([
        machine.is_ready(&served, Dev::Event),
        machine.is_ready(&served, Dev::Alarm),
        machine.is_ready(&served, Dev::Uart),
        machine.is_ready(&served, Dev::Receive),
        machine.is_ready(&served, Dev::Random),
        machine.is_ready(&served, Dev::Store),
    ])
}

/// Which of the devices that serve one slot alone have work for it that is ready.
fn lane(state: &BoardState, slot: Slot) -> ArrayVec<bool, 5>
    requires { IsBoard state.now }
    ensures { result.items ≡ map (work_for (world_of state.now) slot).ready lane_order }
{
    ArrayVec::from([
        is_ready_alone(state, slot, Dev::Alarm),
        is_ready_alone(state, slot, Dev::Uart),
        is_ready_alone(state, slot, Dev::Receive),
        is_ready_alone(state, slot, Dev::Random),
        is_ready_alone(state, slot, Dev::Store),
    ])
}

/// Those of all slots.
fn lane_flags(state: &BoardState) -> ArrayVec<ArrayVec<bool, 5>, SLOT_COUNT>
    requires { IsBoard state.now }
    ensures { map (λ flags. flags.items) result.items
        ≡ map (λ slot. map (work_for (world_of state.now) slot).ready lane_order)
        (range_with_len 0 SLOT_COUNT) }
{
    let mut lanes = ArrayVec::new();
    for slot in 0..SLOT_COUNT {
        lanes.push(lane(state, Slot::new(slot)));
    }
    lanes
}

/// Whether the process in each slot can have a turn, whosever window it is.
fn turns_ready(state: &BoardState) -> ArrayVec<bool, SLOT_COUNT>
    requires { IsBoard state.now }
    ensures { result.items ≡ map may_turn (world_of state.now).records }
{
    let mut ready = ArrayVec::new();
    for slot in 0..state.processes.len() {
        ready.push(can_run_alone(state, Slot::new(slot)));
    }
    ready
}

/// The time at which the alarm of the process in a slot becomes due.
fn due_time(state: &BoardState, slot: Slot) -> Option<u64>
    requires { IsBoard state.now }
    ensures { result ≡ due_time (world_of state.now) slot }
{
    let machine = &state.machine;
    let time = machine.moment.time;
    let tick = machine.moment.tick();
    match machine
        .alarms
        .next_due(&machine.home, tick, time, Some(slot))
    {
        Some(ticks) => Some(time + u64::from(ticks)),
        None => None,
    }
}

/// That of each slot.
fn due_times(state: &BoardState) -> ArrayVec<Option<u64>, SLOT_COUNT>
    requires { IsBoard state.now }
    ensures { result.items ≡ map (due_time (world_of state.now)) (range_with_len 0 SLOT_COUNT) }
{
    let mut times = ArrayVec::new();
    for slot in 0..SLOT_COUNT {
        times.push(due_time(state, Slot::new(slot)));
    }
    times
}

/// The time at which the UART is free for a write of each slot.
fn sending_times(state: &BoardState) -> ArrayVec<Option<u64>, SLOT_COUNT>
    requires { IsBoard state.now }
    ensures { result.items ≡ map (λ slot. sending_time (Some slot) (world_of state.now).devices)
        (range_with_len 0 SLOT_COUNT) }
{
    let mut times = ArrayVec::new();
    for slot in 0..SLOT_COUNT {
        let served = Served {
            only: Some(Slot::new(slot)),
        };
        times.push(state.machine.drivers.sending_time(&served));
    }
    times
}

/// What the choice in a window reads of the board, with time partitions.
fn lanes(state: &BoardState) -> Option<Lanes>
    requires { IsBoard state.now }
    ensures { option_map lanes_shown result ≡ lanes_of (world_of state.now) }
{
    let moment = &state.machine.moment;
    if moment.window == 0 {
        return None;
    }
    Some(Lanes {
        time: moment.time,
        n: moment.window,
        slots: turns_ready(state),
        event_ready: state.machine.drivers.arrivals.is_time(moment.time),
        event_at: state.machine.drivers.arrivals.next_time(),
        devices: lane_flags(state),
        alarm_at: due_times(state),
        uart_at: sending_times(state),
    })
}

impl Board {
    /// Adds for each slot whether it is ready. The table is filled where it lies: moving it would
    /// cost more than filling it.
    fn add_ready(&self, ready: &mut ArrayVec<bool, SLOT_COUNT>)
        requires { ready.old.items ≡ [] }
        ensures { ready.new.items ≡ ready_slots self.now }
    {
        for slot in 0..self.state.processes.len() {
            ready.push(self.slot_is_ready(Slot::new(slot)));
        }
    }

    /// What the next choice reads of the board: for the round robin, and with time partitions, what
    /// there is in each slot's window. What [`turn_scheduler::next_choice`] makes of it is
    /// [`Board::next_choice`].
    #[inline(never)]
    #[tactic(auto, unfolding(kernel_model::specs::Run::ready_devices))]
    pub fn status(&self) -> Status
        ensures status { status_situation result ≡ situation_of self.now }
        ensures lanes { lanes_told result ≡ lanes_of self.now }
        ensures next { choice_by (status_situation result) (lanes_told result) ≡ next self.now }
        ensures ahead { IsChoiceAhead (status_situation result) (lanes_told result) }
        ensures near { IfSome result.next (λ at. at - result.time < 2 ^ 32) }
    {
        next_is_ready();
        next_is_of_the_window();
        let mut status = Status {
            ready: ArrayVec::new(),
            devices: devices_ready(&self.state),
            next: time_ahead(&self.state),
            time: self.state.machine.moment.time,
            present: self.state.present.slot,
            used: self.state.present.used,
            slice: self.state.present.slice,
            lanes: lanes(&self.state),
        };
        self.add_ready(&mut status.ready);
        status
    }
}
