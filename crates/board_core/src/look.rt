//! What there is to see of one process on a board, and of those that wait.
ghost use Rattle.std.specs.Prelude.{◌≡◌, ℕ, ◌-◌, All, IfSome, map, slice_get};
ghost use Rattle.std.specs.List.{AllByRecursion};
ghost use Rattle.grant_model.specs.Encoding.{IsSound, encode_grants};
ghost use Rattle.std.specs.Option.{option_copied, option_map};
ghost use Rattle.process_model.specs.Own.{block_of, layout_of};
ghost use Rattle.grant_enter.specs.Homes.{living};
ghost use Rattle.board_core.specs.Looks.{LivesThere, waiting_for};

use crate::board::Board;
use driver_requests::Waiting;
use process_layout::Layout;
use process_record::Process;
use tk_base::{Dev, ProcessId, Slot, Upcall};

/// How many bytes of a block lie below the kernel break.
fn own_bytes(layout: &Layout) -> usize
    ensures { result ≡ layout.now.kernel_break - layout.now.start }
{
    (layout.kernel_break - layout.start) as usize
}

impl Board {
    /// The time, in ticks.
    pub fn time(&self) -> u64
        ensures { result ≡ self.now.clock.time }
    {
        self.state.machine.moment.time
    }

    /// How many steps were made.
    pub fn steps(&self) -> u64
        ensures { result ≡ self.now.clock.steps }
    {
        self.state.machine.moment.steps
    }

    /// How many buttons the board has.
    pub fn buttons(&self) -> u32
        ensures { result ≡ self.now.settings.buttons }
    {
        self.state.machine.moment.settings.buttons
    }

    /// How many ticks the window of each slot has; 0 without time partitions.
    pub fn window(&self) -> u32
        ensures { result ≡ self.now.pace.window }
    {
        self.state.machine.moment.window
    }

    /// The process in a slot: its registers, its state, its counts, its last denial and its last
    /// refusal. None exactly where the slot has no process, as in each of these functions.
    pub fn process(&self, slot: Slot) -> Option<Process>
        ensures { result ≡ option_map (λ r. r.process) (slice_get self.now.records slot) }
    {
        match self.state.processes.get(slot.index()) {
            Some(process) => Some(*process),
            None => None,
        }
    }

    /// Where the memory of the process in a slot lies.
    pub fn layout(&self, slot: Slot) -> Option<Layout>
        ensures { result ≡ option_map (λ r. layout_of r.own) (slice_get self.now.records slot) }
    {
        if slot.index() >= self.state.processes.len() {
            return None;
        }
        Some(self.state.machine.home.layout(slot))
    }

    /// The block of the process in a slot, as it lies in memory: the bytes of its record, and then
    /// those of its grants, which are its areas one after another. So no byte of it depends on
    /// another process, or on who waits where.
    pub fn block(&self, slot: Slot) -> Option<&[u8]>
        ensures { option_copied result
            ≡ option_map (λ r. block_of r.own) (slice_get self.now.records slot) }
    {
        if slot.index() >= self.state.processes.len() {
            return None;
        }
        Some(self.state.machine.home.block(slot))
    }

    /// The grants of the process in a slot, as they lie in its block from the kernel break on.
    pub fn grants(&self, slot: Slot) -> Option<&[u8]>
        ensures { option_copied result
            ≡ option_map (λ r. encode_grants r.own.grants) (slice_get self.now.records slot) }
    {
        if slot.index() >= self.state.processes.len() {
            return None;
        }
        self.state.machine.home.owns_lie_in_place();
        let layout = self.state.machine.home.layout(slot);
        let below = own_bytes(&layout);
        Some(self.state.machine.home.block(slot).split_at(below).1)
    }

    /// As always, each grant of a process is as the table of drivers has it. The function does
    /// nothing.
    #[inline(always)]
    pub fn grants_are_sound(&self)
        ensures { (slot : ℕ) → IfSome (slice_get self.now.records slot)
            (λ r. AllByRecursion IsSound r.own.grants) }
    {
        self.state.machine.home.owns_lie_in_place();
    }

    /// The bytes of storage of the process in a slot.
    pub fn storage(&self, slot: Slot) -> Option<&[u8]>
        ensures { option_copied result
            ≡ option_map (λ r. r.storage) (slice_get self.now.records slot) }
    {
        if slot.index() >= self.state.processes.len() {
            return None;
        }
        Some(self.state.machine.drivers.stores.bytes(slot))
    }

    /// The upcalls that wait to be delivered to the process in a slot, the first one first.
    pub fn pending(&self, slot: Slot) -> Option<&[Upcall]>
        ensures { option_copied result
            ≡ option_map (λ r. r.own.inbox.pending) (slice_get self.now.records slot) }
    {
        if slot.index() >= self.state.processes.len() {
            return None;
        }
        Some(self.state.machine.home.pending(slot))
    }

    /// How many upcalls of the process in a slot were dropped.
    pub fn dropped(&self, slot: Slot) -> Option<u32>
        ensures { result ≡ option_map (λ r. r.own.inbox.dropped) (slice_get self.now.records slot) }
    {
        if slot.index() >= self.state.processes.len() {
            return None;
        }
        Some(self.state.machine.home.dropped(slot))
    }

    /// The process that lives in a slot, by its present life. None exactly where none lives there.
    pub fn id(&self, slot: Slot) -> Option<ProcessId>
        ensures { result
            ≡ living slot (option_map (λ r. r.own) (slice_get self.now.records slot)) }
    {
        self.state.machine.home.id(slot)
    }

    /// The processes that wait for a device step, the one that waits longest first. Each lives in
    /// its slot, in the life in which it asked. None waits for input that comes in, nor for the
    /// alarm, which each process has for itself.
    pub fn waiting(&self, device: Dev) -> &[Waiting]
        ensures slots { map (λ id. id.slot) result.now ≡ waiting_for self.now.devices device }
        ensures lives { All (LivesThere self.now) result.now }
    {
        match device {
            Dev::Event | Dev::Alarm => &[],
            Dev::Uart => self.state.machine.drivers.console.writes.as_slice(),
            Dev::Receive => self.state.machine.drivers.console.reads.as_slice(),
            Dev::Random => self.state.machine.drivers.random.waiting.as_slice(),
            Dev::Store => self.state.machine.drivers.storage.waiting.as_slice(),
        }
    }
}
