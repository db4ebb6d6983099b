//! The drivers of the board.
ghost use Rattle.std.specs.Prelude.{◌≡◌, ◌+◌, ◌*◌, ◌<◌, ◌≤◌, ◌^◌, ◌↔◌, ℕ, true, false, [], length};
ghost use Rattle.std.specs.Prelude.{All, Err, IfOk, IfSome, None, replicate};
ghost use Rattle.driver_model.specs.Alarm.{alarm_in};
ghost use Rattle.driver_model.specs.Commands.{leaving_all};
ghost use Rattle.grant_enter.specs.Homes.{own_of, ChangesOnly};
ghost use Rattle.process_seat.specs.Visits.{is_stale};
ghost use Rattle.kernel_model.specs.World.{lane_count, sending_time};
ghost use Rattle.board_drivers.specs.Calm.{AlarmsTell};
ghost use Rattle.kernel_calls.specs.Residents.{HasLost};
ghost use Rattle.board_drivers.specs.Tells.{Acts, Arrives, is_alarm, tells_one};
ghost use Rattle.tk_base.specs.declared.limits.TheConstants.{SLOT_COUNT, STEP_LIMIT};
ghost use Rattle.driver_model.specs.Drivers.{handler_of};
ghost use Rattle.syscall_abi.specs.Forms.{form_of};
ghost use Rattle.syscall_abi.specs.Reply.{reply_of};
ghost use Rattle.tk_base.specs.declared.call.CallRule.TheVariants.{NoDriver};
ghost use Rattle.board_drivers.specs.Driven.{AreDriven, AreFresh, Commands, Drives, HasLanes};
ghost use Rattle.board_drivers.specs.Driven.{MayAsk, devices_of, order_in};

use crate::moment::Moment;
use crate::served::Served;
use alarm_capsule::{AlarmCapsule, AlarmTimes};
use arrayvec::ArrayVec;
use board_devices::{Answer, Arrivals, Buttons, Leds, Stores, Uarts, WordLanes};
use console_capsule::ConsoleCapsule;
use driver_model::{
    a_due_slot_is_there, drivers_ask_for_their_own, events_tell_steps, lines_follow_answers,
};
use grant_enter::Home;
use grant_values::Driver;
use process_model::reads_own_flash;
use random_capsule::RandomCapsule;
use script_text::Script;
use std::alloc::Global;
use storage_capsule::StorageCapsule;
use syscall_abi::{Call, Reply, reply_of};
use tk_base::{CallRule, Dev, NotReady, PRINT_LIMIT, ProcessId, SLOT_COUNT};
use tk_outside::NoMemory;

/// The drivers that have processes wait, each with who waits for it, and the devices that they
/// serve.
#[derive(Drop)]
pub struct Drivers {
    pub console: ConsoleCapsule,
    pub random: RandomCapsule,
    pub storage: StorageCapsule,
    /// By lane: of all slots there is one, with time partitions of each.
    pub uarts: Uarts,
    pub leds: Leds,
    pub buttons: Buttons,
    pub arrivals: Arrivals,
    /// By lane.
    pub words: WordLanes,
    pub stores: Stores,
}

/// A command to a driver.
#[derive(Clone, Copy, Debug)]
pub struct Order {
    pub driver: u32,
    pub number: u32,
    pub a2: u32,
    pub a3: u32,
}

impl Order {
    /// The command that a call is; None where it is no command.
    #[inline(always)]
    pub fn of(call: &Call) -> Option<Order>
        ensures { result ≡ order_in (form_of call.now) }
    {
        match *call {
            Call::Command {
                driver,
                command,
                a2,
                a3,
            } => Some(Order {
                driver,
                number: command,
                a2,
                a3,
            }),
            _ => None,
        }
    }
}

/// How many lanes there are, where a window has so many ticks: one without time partitions, else one
/// for each slot.
fn lane_count(window: u32) -> usize
    ensures { result ≡ lane_count window }
{
    if window == 0 { 1 } else { SLOT_COUNT }
}

impl Drivers {
    /// The drivers and devices under a script, before the first step: nobody waits. The one error
    /// is want of memory.
    pub fn new(alloc: Global, script: Script) -> Result<Drivers, NoMemory>
        ensures { IfOk result (AreFresh script) }
    {
        let lanes = lane_count(script.partition.unwrap_or(0));
        let uarts = Uarts::new(alloc, lanes, script.uart)?;
        let words = WordLanes::new(alloc, lanes, script.words)?;
        let stores = Stores::new(alloc, lanes, script.storage, script.faults)?;
        Ok(Drivers {
            console: ConsoleCapsule::default(),
            random: RandomCapsule::default(),
            storage: StorageCapsule::default(),
            uarts,
            leds: Leds::new(script.leds),
            buttons: Buttons::new(script.buttons),
            arrivals: Arrivals::new(script.events),
            words,
            stores,
        })
    }

    /// The same again. The one error is want of memory.
    pub fn copied(&self, alloc: Global) -> Result<Drivers, NoMemory>
        ensures { IfOk result (λ it. it ≡ self.now) }
    {
        let uarts = self.uarts.copied(alloc)?;
        let arrivals = self.arrivals.copied(alloc)?;
        let words = self.words.copied(alloc)?;
        let stores = self.stores.copied(alloc)?;
        Ok(Drivers {
            console: self.console.copied(),
            random: self.random.copied(),
            storage: self.storage.copied(),
            uarts,
            leds: self.leds.copied(),
            buttons: self.buttons.copied(),
            arrivals,
            words,
            stores,
        })
    }

    /// The process of an id ended, or starts again: it waits in no list any more. Its alarm went
    /// with its grant.
    #[inline(always)]
    pub fn gone(&mut self, id: &ProcessId)
        ensures { (life : ℕ)
            → Drives (record { slot = id.now.slot; life = life }) leaving_all self.old self.new }
    {
        self.console.gone(*id);
        self.random.gone(*id);
        self.storage.gone(*id);
    }

    /// The time from which on the UART is free in the lane of whom it serves, if a write waits for it
    /// that is served.
    #[tactic(auto, using(crate::proofs::Waiting::waits_if_first))]
    pub fn sending_time(&self, served: &Served) -> Option<u64>
        ensures { result ≡ sending_time served.now.only (devices_of self.now) }
    {
        if self.console.writes.has_one(served.only) {
            Some(self.uarts.free(served.lane()))
        } else {
            None
        }
    }

    /// The next event comes in, of which it asks that there is one: bytes, which the UART holds
    /// then; or a button is pressed, or released, which each process that lives and enabled it is
    /// told, slot by slot, where that is another state than it had. It asks for the number of slots
    /// that there are.
    pub fn arrive(&mut self, home: &mut Home, slots: usize)
        requires left { 0 < length self.old.arrivals }
        requires slots { slots ≡ length home.old.owns }
        requires few { slots ≤ SLOT_COUNT }
        requires dropped { All (λ own. own.inbox.dropped + 1 < 2 ^ 32) home.old.owns }
        ensures { Arrives home.old self.old home.new self.new }
    {
        if let Some(edge) = self.arrivals.arrive(&mut self.uarts, &mut self.buttons) {
            button_capsule::edges(home, slots, edge.button, edge.state);
        }
    }

    /// Has the driver of a command of the process of an id serve it, when the alarm's clock shows a
    /// tick: the reply, and the rule that refuses it, if one does. Where there is no such driver it is
    /// refused with [`CallRule::NoDriver`], and nothing changes. It asks that the process is there, and
    /// waits only where it has a request.
    pub fn command(
        &mut self,
        home: &mut Home,
        tick: u32,
        id: ProcessId,
        order: &Order,
    ) -> (Reply, Option<CallRule>)
        requires slot { id.slot < length home.old.owns }
        requires present { is_stale id.life (own_of home.old id.slot) ≡ false }
        requires dropped { (own_of home.old id.slot).inbox.dropped + 1 < 2 ^ 32 }
        requires lines { MayAsk self.old id.slot (own_of home.old id.slot) }
        ensures comes { Commands (record {
          tick = tick;
          id = id;
          order = order.now;
          own = own_of home.old id.slot;
          drivers = self.old;
        }) result (own_of home.new id.slot) self.new }
        ensures none { handler_of order.now.driver ≡ None → (result ≡ reply_of (Err NoDriver))
            × (home.new ≡ home.old) × (self.new ≡ self.old) }
        ensures rest { ChangesOnly id.slot home.old home.new }
    {
        drivers_ask_for_their_own();
        let Order {
            driver,
            number,
            a2,
            a3,
        } = *order;
        match Driver::of(driver) {
            Some(Driver::Alarm) => AlarmCapsule.command(home, tick, id, number, a2, a3),
            Some(Driver::Console) => self.console.command(home, id, number, a2),
            Some(Driver::Leds) => led_capsule::command(&mut self.leds, number, a2),
            Some(Driver::Buttons) => {
                let (pressed, count) = (self.buttons.pressed(), self.buttons.count());
                button_capsule::command(home, id, pressed, count, number, a2)
            }
            Some(Driver::Random) => self.random.command(home, id, number, a2),
            Some(Driver::Storage) => {
                let size = self.stores.size();
                self.storage.command(home, size, id, number, a2, a3)
            }
            None => reply_of(Err(CallRule::NoDriver)),
        }
    }
}
