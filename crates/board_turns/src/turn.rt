//! One turn of the process in a slot.
ghost use Rattle.std.specs.Prelude.{◌≡◌, ◌+◌, true, false, None, Some};
ghost use Rattle.process_record.specs.declared.process.State.TheVariants.{Running, Yielded};
ghost use Rattle.process_record.specs.Parts.{after_fault};
ghost use Rattle.grant_enter.specs.Homes.{own_of, ChangesOnly};
ghost use Rattle.driver_model.specs.Commands.{leaving_all};
ghost use Rattle.syscall_abi.specs.Forms.{form_of};
ghost use Rattle.kernel_calls.specs.Outcomes.{is_for_driver};
ghost use Rattle.process_model.specs.Flash.{object_in};
ghost use Rattle.kernel_calls.specs.Own.{Beside, record_in};
ghost use Rattle.board_drivers.specs.Driven.{Drives, MayServe};
ghost use Rattle.kernel_model.specs.Calls.{restart};
ghost use Rattle.kernel_model.specs.Turn.{arguments};
ghost use Rattle.kernel_model.specs.Parts.{unknown_call};
ghost use Rattle.kernel_calls.specs.Residents.{IsResident, id_of, resident};
ghost use Rattle.board_turns.specs.Guards.{IsSetFor};
ghost use Rattle.board_turns.specs.Turning.{Finishes, HasProcess, InTurn, IsKnownEnd, IsMade};
ghost use Rattle.board_turns.specs.Turning.{LeavesMachine, MayTurn, ServesCall};
ghost use Rattle.board_turns.specs.Turning.{Settles, StepsInSlot, Turns, next_instruction};
ghost use Rattle.board_turns.specs.Turning.{answered, asked, machine_instructed, nothing_shown};
ghost use Rattle.board_turns.specs.Turning.{told_in_emit, with_shown};

use crate::machine::Machine;
use board_drivers::Order;
use driver_model::commands_stay_in_place;
use fault_policy::{Action, decide};
use kernel_calls::{deliver, give_reply, kernel_call};
use process_record::{CallMade, Emit, Outcome, Process, State};
use process_restart::restart_process;
use rv32_model::{TurnEnd, stopped_turns_change_nothing, writes_are_listed};
use syscall_abi::Call;
use tk_base::{Access, Denial, ProcessId, Regs, Rule, Slot};

/// What a turn showed: the call that was made, or the denial.
#[derive(Clone, Copy)]
pub struct Shown {
    pub call: Option<CallMade>,
    pub denial: Option<Denial>,
}

/// The arguments of a call, or its reply: a0 to a3.
fn arguments_of(regs: &Regs) -> [u32; 4]
    ensures { result ≡ arguments regs.now }
{
    [regs.get(10), regs.get(11), regs.get(12), regs.get(13)]
}

/// The call that the registers make, as a step shows it where nothing came of it yet.
fn call_asked(regs: &Regs) -> CallMade
    ensures { result ≡ asked regs.now }
{
    CallMade {
        class: regs.get(Call::CLASS),
        args: arguments_of(regs),
        reply: None,
        rule: None,
    }
}

/// That call with what came of it. Its reply stands in the registers after it.
fn call_shown(call: CallMade, outcome: Outcome, after: &Regs) -> CallMade
    ensures { result ≡ answered call outcome after.now }
{
    let (reply, rule) = match outcome {
        Outcome::Replied(_reply, rule) => (Some(arguments_of(after)), rule),
        Outcome::ToDriver
        | Outcome::Waits
        | Outcome::Delivered
        | Outcome::GoesOn
        | Outcome::Ended
        | Outcome::Again => (None, None),
    };
    let args = call.args;
    CallMade {
        class: call.class,
        args,
        reply,
        rule,
    }
}

/// The call that the registers make is of an unknown class.
fn unknown_class(process: &Process) -> Denial
    ensures { result ≡ unknown_call process.now }
{
    Denial {
        access: Access::Fetch,
        address: process.regs.pc(),
        rule: Rule::UnknownClass,
    }
}

impl Machine {
    /// How the next instruction of the process in a slot ends, which counts as a turn. Where it is
    /// known that it does not go, and how it ends, it is not made: it leaves registers and memory as
    /// they are.
    #[inline(always)]
    fn end_instruction(&mut self, process: &mut Process, slot: Slot, known: TurnEnd) -> TurnEnd
        requires turn { MayTurn 1 slot self.old (resident self.old.home slot process.old) }
        requires runs { process.old.state ≡ Running }
        requires known { IsKnownEnd known self.old.home.flash
            (resident self.old.home slot process.old) }
        ensures end { result
            ≡ (next_instruction self.old.home.flash (resident self.old.home slot process.old)).end }
        ensures made { IsMade self.old.home.flash (resident self.old.home slot process.old)
            (resident self.new.home slot process.new) }
        ensures turn { InTurn slot self.new (resident self.new.home slot process.new) }
        ensures rest { self.new
            ≡ machine_instructed slot self.old (own_of self.new.home slot) self.new.guard }
    {
        stopped_turns_change_nothing();
        writes_are_listed();
        self.guard.bring_in(&mut self.home, slot);
        process.count_turn();
        match known {
            TurnEnd::Went => self.home.instruct(slot, &self.guard.pmp, &mut process.regs),
            TurnEnd::Call | TurnEnd::Trap(_) => known,
        }
    }

    /// A denial starts the process in a slot again, and it is protected as its layout is then.
    fn restart_at(&mut self, process: &mut Process, slot: Slot, denial: Denial)
        requires { InTurn slot self.old (resident self.old.home slot process.old) }
        ensures restarted { (beside : Beside) → restart (record_in self.old.home.flash
            (after_fault process.old denial) (own_of self.old.home slot) beside)
            ≡ record_in self.old.home.flash process.new (own_of self.new.home slot) beside }
        ensures leaves { LeavesMachine 1 slot self.old self.new
            (resident self.new.home slot process.new) }
        ensures set { IsSetFor slot self.new.guard self.new.home }
        ensures drivers { self.new.drivers ≡ self.old.drivers }
    {
        process.denial = Some(denial);
        let brk = self.home.layout(slot).brk;
        restart_process(&mut self.home, process, slot);
        self.guard.refresh_break(&self.home, slot, brk);
    }

    /// A denial: the process in a slot faults, and has ended or starts again, as the policy
    /// decides. It is told in `emit`, where nothing was told before.
    fn fault_at(&mut self, process: &mut Process, slot: Slot, denial: Denial, emit: &mut Emit)
        requires turn { InTurn slot self.old (resident self.old.home slot process.old) }
        requires quiet { told_in_emit emit.old ≡ nothing_shown }
        ensures settles { Settles self.old.moment.settings.policy self.old.home.flash denial
            (resident self.old.home slot process.old) (resident self.new.home slot process.new) }
        ensures gone { Drives (id_of slot (own_of self.old.home slot)) leaving_all
            self.old.drivers self.new.drivers }
        ensures leaves { LeavesMachine 1 slot self.old self.new
            (resident self.new.home slot process.new) }
        ensures shown { told_in_emit emit.new ≡ record { call = None; denial = Some denial } }
        ensures emit { emit.new ≡ with_shown emit.old (told_in_emit emit.new) }
    {
        emit.denial = Some(denial);
        let life = process.restarts;
        let id = ProcessId { slot, life };
        self.drivers.gone(&id);
        match decide(self.moment.settings.policy, process.restarts) {
            Action::Stop => {
                process.fault(denial);
                self.home.end(slot);
            }
            Action::Restart => self.restart_at(process, slot, denial),
        }
    }

    /// The driver of a command of the process in a slot, which the kernel left to it, replies to it
    /// or refuses it.
    #[inline(never)]
    fn command_driver(&mut self, process: &mut Process, slot: Slot, call: &Call) -> Outcome
        requires turn { InTurn slot self.old (resident self.old.home slot process.old) }
        requires may { MayServe self.old.moment self.old.drivers slot (own_of self.old.home slot) }
        requires left { is_for_driver self.old.moment.settings.strict
            (object_in self.old.home.flash process.old.object) (form_of call.now) ≡ true }
        ensures serves { Finishes slot self.old self.new (form_of call.now) result
            (resident self.old.home slot process.old) (resident self.new.home slot process.new) }
        ensures seated { IsResident self.old.home.flash (self.old.moment.steps + 1)
            (resident self.new.home slot process.new) }
        ensures only { ChangesOnly slot self.old.home self.new.home }
        ensures rest { self.new
            ≡ record self.old { home = self.new.home; drivers = self.new.drivers } }
    {
        commands_stay_in_place();
        let Some(order) = Order::of(call) else {
            return Outcome::ToDriver;
        };
        let Some(id) = self.home.id(slot) else {
            return Outcome::ToDriver;
        };
        let tick = self.moment.tick();
        let (reply, rule) = self.drivers.command(&mut self.home, tick, id, &order);
        give_reply(process, reply, rule)
    }

    /// Has the kernel serve a system call, and its driver a command that is left to it. The registers
    /// stay as they are.
    #[inline(always)]
    fn finish_call(&mut self, process: &mut Process, slot: Slot, call: &Call) -> Outcome
        requires turn { InTurn slot self.old (resident self.old.home slot process.old) }
        requires may { MayServe self.old.moment self.old.drivers slot (own_of self.old.home slot) }
        ensures serves { Finishes slot self.old self.new (form_of call.now) result
            (resident self.old.home slot process.old) (resident self.new.home slot process.new) }
        ensures seated { IsResident self.old.home.flash (self.old.moment.steps + 1)
            (resident self.new.home slot process.new) }
        ensures only { ChangesOnly slot self.old.home self.new.home }
        ensures rest { self.new
            ≡ record self.old { home = self.new.home; drivers = self.new.drivers } }
    {
        let life = process.restarts;
        let id = ProcessId { slot, life };
        let strict = self.moment.settings.strict;
        match kernel_call(&mut self.home, process, slot, call, strict) {
            Outcome::ToDriver => self.command_driver(process, slot, call),
            gone @ (Outcome::Ended | Outcome::Again) => {
                self.drivers.gone(&id);
                gone
            }
            outcome => outcome,
        }
    }

    /// Serves a system call, and protects the process as its layout is afterwards.
    fn serve(&mut self, process: &mut Process, slot: Slot, call: &Call) -> Outcome
        requires turn { InTurn slot self.old (resident self.old.home slot process.old) }
        requires may { MayServe self.old.moment self.old.drivers slot (own_of self.old.home slot) }
        ensures serves { Finishes slot self.old self.new (form_of call.now) result
            (resident self.old.home slot process.old) (resident self.new.home slot process.new) }
        ensures leaves { LeavesMachine 1 slot self.old self.new
            (resident self.new.home slot process.new) }
    {
        commands_stay_in_place();
        let outcome = self.finish_call(process, slot, call);
        self.guard.refresh_after(call, &self.home, slot);
        outcome
    }

    /// Serves the system call that the registers make. It is told in `emit`, where nothing was told
    /// before.
    fn serve_call(&mut self, process: &mut Process, slot: Slot, emit: &mut Emit)
        requires turn { InTurn slot self.old (resident self.old.home slot process.old) }
        requires may { MayServe self.old.moment self.old.drivers slot (own_of self.old.home slot) }
        requires quiet { told_in_emit emit.old ≡ nothing_shown }
        ensures serves { ServesCall slot self.old self.new (told_in_emit emit.new)
            (resident self.old.home slot process.old) (resident self.new.home slot process.new) }
        ensures leaves { LeavesMachine 1 slot self.old self.new
            (resident self.new.home slot process.new) }
        ensures emit { emit.new ≡ with_shown emit.old (told_in_emit emit.new) }
    {
        let asked = call_asked(&process.regs);
        let Some(call) = Call::of(&process.regs) else {
            let denial = unknown_class(process);
            return self.fault_at(process, slot, denial, emit);
        };
        let outcome = self.serve(process, slot, &call);
        emit.made = Some(call_shown(asked, outcome, &process.regs));
    }

    /// The turn of a process that runs: an instruction of it, and what a system call or a denial
    /// asks for. What it shows is told in `emit`, where nothing was told before: most turns show
    /// nothing, and write nothing there.
    fn run_on(&mut self, process: &mut Process, slot: Slot, known: TurnEnd, emit: &mut Emit)
        requires turn { MayTurn 1 slot self.old (resident self.old.home slot process.old) }
        requires free { process.old.held ≡ false }
        requires runs { process.old.state ≡ Running }
        requires known { IsKnownEnd known self.old.home.flash
            (resident self.old.home slot process.old) }
        requires may { MayServe self.old.moment self.old.drivers slot (own_of self.old.home slot) }
        requires quiet { told_in_emit emit.old ≡ nothing_shown }
        ensures turns { Turns slot self.old self.new (told_in_emit emit.new)
            (resident self.old.home slot process.old) (resident self.new.home slot process.new) }
        ensures leaves { LeavesMachine 1 slot self.old self.new
            (resident self.new.home slot process.new) }
        ensures emit { emit.new ≡ with_shown emit.old (told_in_emit emit.new) }
    {
        let end = self.end_instruction(process, slot, known);
        match end {
            TurnEnd::Went => {}
            TurnEnd::Call => self.serve_call(process, slot, emit),
            TurnEnd::Trap(denial) => self.fault_at(process, slot, denial, emit),
        }
    }

    /// The turn of a process that has yielded: what is due to it is delivered, if anything is. The
    /// registers are set for it, since it is the next to run. It shows nothing.
    fn wake(&mut self, process: &mut Process, slot: Slot)
        requires turn { MayTurn 1 slot self.old (resident self.old.home slot process.old) }
        requires free { process.old.held ≡ false }
        requires waits { process.old.state ≡ Yielded }
        ensures turns { Turns slot self.old self.new nothing_shown
            (resident self.old.home slot process.old) (resident self.new.home slot process.new) }
        ensures leaves { LeavesMachine 1 slot self.old self.new
            (resident self.new.home slot process.new) }
    {
        self.guard.bring_in(&mut self.home, slot);
        if self.home.is_due(slot) {
            process.count_turn();
            deliver(&mut self.home, process, slot);
        }
    }

    /// One turn of the process in a slot of the table, which tells in `emit` what it shows. One that
    /// has ended has none, and nothing changes. Where it is known how the turn's instruction ends, and
    /// it is not `Went`, that is not found out again.
    pub fn turn_at(
        &mut self,
        processes: &mut Vec<Process>,
        slot: Slot,
        known: TurnEnd,
        emit: &mut Emit,
    )
        requires turn { HasProcess slot self.old.home processes.old.items (λ r. MayTurn 1 slot self.old r
            × (r.0.held ≡ false) × IsKnownEnd known self.old.home.flash r) }
        requires may { MayServe self.old.moment self.old.drivers slot (own_of self.old.home slot) }
        requires quiet { told_in_emit emit.old ≡ nothing_shown }
        ensures turn { StepsInSlot 1 slot self.old self.new processes.old.items processes.new.items
            (Turns slot self.old self.new (told_in_emit emit.new)) }
        ensures emit { emit.new ≡ with_shown emit.old (told_in_emit emit.new) }
    {
        let process = &mut processes[slot.index()];
        match process.state {
            State::Running => self.run_on(process, slot, known, emit),
            State::Yielded => self.wake(process, slot),
            State::Faulted | State::Terminated(_) => {}
        }
    }
}
