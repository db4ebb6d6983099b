//! The record of one process, apart from its memory.
ghost use Rattle.std.specs.Prelude.{◌≡◌, ◌+◌, ◌<◌, ◌^◌, Some, IsSome, IfSome};
ghost use Rattle.tbf_headers.specs.Addresses.{after_protected, entry_of};
ghost use Rattle.tbf_headers.specs.Shown.{shown};
ghost use Rattle.process_record.specs.Process.{started, restarted_with_regs};
ghost use Rattle.process_record.specs.Parts.{regs_from, past_call};
ghost use Rattle.process_record.specs.Process.{after_turn, after_reply};
ghost use Rattle.process_record.specs.Parts.{after_fault, after_exit};
ghost use Rattle.process_record.specs.Process.{after_refusal, after_call, waiting, delivered};
ghost use Rattle.process_record.specs.Process.{after_end, delivery_regs, is_alive};
ghost use Rattle.upcall_queue.specs.declared.inbox.Delivery.TheVariants.{Function};
ghost use Rattle.process_record.specs.Parts.{with_held};
ghost use Rattle.syscall_abi.specs.Reply.{with_words};

use process_model::Object;
use syscall_abi::Reply;
use tbf_headers::{AppStart, Header};
use tk_base::{Addr, CallRule, Denial, Regs, Upcall};
use upcall_queue::Delivery;

/// Whether a process runs (TRD 104, "Yield", "Exit"). It lives while it is Running or Yielded.
#[derive(Clone, Copy, Debug, PartialEq, Eq, Default)]
pub enum State {
    /// It executes instructions.
    #[default]
    Running,
    /// It waits for an upcall.
    Yielded,
    /// It was stopped at a denial.
    Faulted,
    /// It ended with a completion code.
    Terminated(u32),
}

/// The last system call that was refused.
#[derive(Clone, Copy, Debug, PartialEq, Eq)]
pub struct RecordedRefusal {
    /// The address of the `ecall`.
    pub address: Addr,
    /// The rule that the call broke.
    pub rule: CallRule,
}

/// One process: its registers, its object, whether it runs, and what happened to it so far.
#[derive(Clone, Copy, Debug, PartialEq, Eq)]
pub struct Process {
    pub regs: Regs,
    pub object: Object,
    pub state: State,
    /// Whether an operator holds it: it has no turns until it is let go.
    pub held: bool,
    /// How often it was started again.
    pub restarts: u32,
    /// How many turns it had: its instructions and deliveries, a faulting one included.
    pub turns: u32,
    /// The last denial.
    pub denial: Option<Denial>,
    /// The last refused system call.
    pub refusal: Option<RecordedRefusal>,
}

impl State {
    /// Whether a process in this state lives: it runs or waits.
    pub fn is_alive(self) -> bool
        ensures { result ≡ is_alive self }
    {
        match self {
            State::Running | State::Yielded => true,
            State::Faulted | State::Terminated(_) => false,
        }
    }
}

impl Process {
    /// A process at its start (TRD 104, "Exit"), for an application whose header stands at the
    /// address `object` and whose block of RAM is `length` bytes from `ram` on. It has the
    /// registers of a start: pc is the entry, a0 the address after the header and the protected
    /// bytes, a1 and sp the start of the RAM, a2 the length, a3 the break; other registers are 0.
    /// It runs, is not held, and nothing happened to it yet. It asks that the header has a Program
    /// or a Main TLV, and that the entry and the address after the header and the protected bytes
    /// are below 2^32.
    pub fn start(header: &Header<'_>, object: Addr, ram: Addr, length: u32, brk: Addr) -> Process
        requires main { IsSome header.now.main }
        requires entry { IfSome header.now.main
            (λ m. entry_of object (shown header.now) m < 2 ^ 32) }
        requires protected { IfSome header.now.main
            (λ m. after_protected object (shown header.now) m < 2 ^ 32) }
        ensures { IfSome header.now.main
            (λ m. result ≡ started object (shown header.now) m ram length brk) }
    {
        let Some(app) = header.app() else {
            unreachable!()
        };
        Process {
            regs: regs_at_start(app.start(object), ram, length, brk),
            object: Object {
                address: object,
                size: header.total_size,
            },
            state: State::Running,
            held: false,
            restarts: 0,
            turns: 0,
            denial: None,
            refusal: None,
        }
    }

    /// Starts the process again (TRD 104, "Exit"), with the registers of a start and a break, and
    /// lets it go where it is held. Its count of restarts rises; its object, its count of turns,
    /// its last denial and its last refusal stay. It asks that the entry and the address after the
    /// header and the protected bytes are below 2^32, and that the count can rise.
    pub fn restart(&mut self, start: AppStart, ram: Addr, length: u32, brk: Addr)
        requires entry { start.entry < 2 ^ 32 }
        requires protected { start.after_protected < 2 ^ 32 }
        requires count { self.old.restarts + 1 < 2 ^ 32 }
        ensures { self.new ≡ restarted_with_regs self.old
            (regs_from start.entry start.after_protected ram length brk) }
    {
        self.regs = regs_at_start(start, ram, length, brk);
        self.state = State::Running;
        self.held = false;
        self.restarts += 1;
    }

    /// Counts a turn.
    pub fn count_turn(&mut self)
        requires { self.old.turns + 1 < 2 ^ 32 }
        ensures { self.new ≡ after_turn self.old }
    {
        self.turns += 1;
    }

    /// Records a denial, and stops the process, which is not held any more.
    pub fn fault(&mut self, denial: Denial)
        ensures { self.new ≡ after_fault self.old denial }
    {
        self.denial = Some(denial);
        self.state = State::Faulted;
        self.held = false;
    }

    /// Ends the process with a completion code (TRD 104, "Exit"). pc goes past the `ecall`.
    pub fn exit(&mut self, code: u32)
        ensures { self.new ≡ after_exit self.old code }
    {
        self.pass_call();
        self.end(code);
    }

    /// Ends the process with a completion code, wherever it is. It is not held any more.
    pub fn end(&mut self, code: u32)
        ensures { self.new ≡ after_end self.old code }
    {
        self.state = State::Terminated(code);
        self.held = false;
    }

    /// Holds the process, or lets it go: while it is held it has no turns.
    pub fn hold(&mut self, held: bool)
        ensures { self.new ≡ with_held held self.old }
    {
        self.held = held;
    }

    /// Replies to a system call (TRD 104, "Return Values"): puts the reply into the registers, and
    /// pc goes past the `ecall`.
    pub fn reply(&mut self, reply: &Reply)
        ensures { self.new ≡ after_reply self.old reply.now }
    {
        reply.put(&mut self.regs);
        self.pass_call();
    }

    /// Records that the system call at pc broke a rule, and replies to it.
    pub fn refuse(&mut self, rule: CallRule, reply: &Reply)
        ensures { self.new ≡ after_refusal self.old rule reply.now }
    {
        self.refusal = Some(RecordedRefusal {
            address: self.regs.pc(),
            rule,
        });
        self.reply(reply);
    }

    /// Goes on after a system call that has no reply (TRD 104, "Yield"): pc goes past the `ecall`,
    /// and nothing else changes.
    pub fn go_on(&mut self)
        ensures { self.new ≡ after_call self.old }
    {
        self.pass_call();
    }

    /// Waits for an upcall (TRD 104, "Yield"), with pc past the `ecall`.
    pub fn wait(&mut self)
        ensures { self.new ≡ waiting self.old }
    {
        self.pass_call();
        self.state = State::Yielded;
    }

    /// Delivers to the process what it waited for (TRD 104, "Yield"), and it runs. Of an upcall
    /// whose function runs a0 to a2 are the arguments and a3 the application data, ra is pc, and
    /// pc the function with bit 0 cleared; where it waited for one upcall alone a0 to a2 are its
    /// arguments. Other registers stay.
    pub fn deliver(&mut self, delivery: &Delivery)
        ensures { self.new ≡ delivered delivery.now self.old }
    {
        match delivery {
            Delivery::Function(upcall) => put_upcall(&mut self.regs, upcall),
            Delivery::Arguments(arguments) => put_arguments(&mut self.regs, *arguments),
        }
        self.state = State::Running;
    }

    /// Moves pc past an `ecall`, which has 4 bytes.
    fn pass_call(&mut self)
        ensures { self.new ≡ record self.old { regs = past_call self.old.regs } }
    {
        self.regs.set_pc(self.regs.pc().wrapping_add(4));
    }
}

/// Puts the arguments of an upcall into a0 to a2.
fn put_arguments(regs: &mut Regs, arguments: [u32; 3])
    ensures { regs.new ≡ with_words 10 arguments regs.old }
{
    let [first, second, third] = arguments;
    regs.set(10, first);
    regs.set(11, second);
    regs.set(12, third);
}

/// Puts an upcall into the registers, with which its function runs, and then goes back to pc.
fn put_upcall(regs: &mut Regs, upcall: &Upcall)
    ensures { regs.new ≡ delivery_regs (Function upcall.now) regs.old }
{
    let back = regs.pc();
    put_arguments(regs, upcall.args);
    regs.set(13, upcall.app);
    regs.set(1, back);
    regs.set_pc(upcall.function / 2 * 2);
}

/// The registers with which a process starts.
fn regs_at_start(start: AppStart, ram: Addr, length: u32, brk: Addr) -> Regs
    requires entry { start.entry < 2 ^ 32 }
    requires protected { start.after_protected < 2 ^ 32 }
    ensures { result ≡ regs_from start.entry start.after_protected ram length brk }
{
    let mut regs = Regs::at(start.entry as u32);
    regs.set(2, ram);
    regs.set(10, start.after_protected as u32);
    regs.set(11, ram);
    regs.set(12, length);
    regs.set(13, brk);
    regs
}
