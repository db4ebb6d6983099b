//! The plain types that every layer of the kernel speaks of: addresses and accesses, denials and
//! their rules, registers, process names, the board's limits, numbers in bytes, want of memory, and
//! the bus between the processor and its memory.
#![tactic(auto)]

mod access;
mod bus;
mod call;
mod kinds;
mod laws;
mod limits;
mod mask;
mod no_memory;
mod numbers;
mod process;
mod regs;
mod upcall;
mod words;

pub use access::{Access, Addr, Denial, FLASH_START, RAM_START, Rule, Width};
pub use bus::Bus;
pub use call::{CallRule, ErrorCode};
pub use kinds::PairKind;
pub use laws::{a_store_is_put, flags_are_bits, one_bit_is_set};
pub use limits::{
    BUTTON_LIMIT, BYTE_TICKS_LIMIT, EVENT_LIMIT, FAULT_LIMIT, FLASH_LIMIT, INPUT_LIMIT, LED_LIMIT,
    NAME_LIMIT, OBJECT_LIMIT, PENDING_LIMIT, PRINT_LIMIT, RAM_LEAST, RAM_LIMIT, RAM_UNIT,
    RING_SIZE, SCRIPT_LIMIT, SENDING_LIMIT, SLICE_LIMIT, SLOT_COUNT, STEP_LIMIT, STORAGE_LIMIT,
    WINDOW_LIMIT, WORD_LIMIT,
};
pub use mask::{has_bit, with_bit};
pub use no_memory::NoMemory;
pub use numbers::{number_in, put_number};
pub use process::{Choice, Dev, NotReady, PlaceFault, ProcessId, Slot, Verb};
pub use regs::Regs;
pub use upcall::{Counts, Upcall, Wait};
pub use words::WordList;
