//! Limits of the board.

/// How many bytes a flash image has at most: 1 MiB.
pub const FLASH_LIMIT: usize = 1_048_576;

/// How many bytes the text of a script has at most.
pub const SCRIPT_LIMIT: usize = 262_144;

/// How many steps a board makes at most.
pub const STEP_LIMIT: u64 = 4_000_000_000;

/// How many bytes of RAM a board has at least.
pub const RAM_LEAST: u32 = 4_096;

/// How many bytes of RAM a board has at most.
pub const RAM_LIMIT: u32 = 262_144;

/// The size of RAM is a multiple of this many bytes.
pub const RAM_UNIT: u32 = 1_024;

/// How many slots there are: a board has so many processes at most.
pub const SLOT_COUNT: usize = 16;

/// How many upcalls of one process wait to be delivered at most.
pub const PENDING_LIMIT: usize = 20;

/// How many objects of a flash image are found at most.
pub const OBJECT_LIMIT: usize = 64;

/// How many bytes the UART takes in one step at most.
pub const PRINT_LIMIT: usize = 64;

/// How many bytes that came in the UART holds at most, until they are read.
pub const RING_SIZE: usize = 256;

/// How many ticks the UART takes to send a byte at most.
pub const BYTE_TICKS_LIMIT: u32 = 1_000;

/// How many ticks the UART takes at most to send what it takes in one step.
pub const SENDING_LIMIT: u64 = PRINT_LIMIT as u64 * BYTE_TICKS_LIMIT as u64;

/// How many LEDs a board has at most.
pub const LED_LIMIT: usize = 16;

/// How many buttons a board has at most.
pub const BUTTON_LIMIT: usize = 16;

/// How many bytes of storage each slot has at most.
pub const STORAGE_LIMIT: u32 = 4_096;

/// How many turns a process has at most before the next one has its turn.
pub const SLICE_LIMIT: u32 = 1_000_000;

/// How many ticks a window has at most.
pub const WINDOW_LIMIT: u32 = 1_000_000;

/// How many storage requests a script has fail at most.
pub const FAULT_LIMIT: usize = 64;

/// How many random words a script gives at most.
pub const WORD_LIMIT: usize = 4_096;

/// How many events a script has at most.
pub const EVENT_LIMIT: usize = 4_096;

/// How many bytes come in with one event at most.
pub const INPUT_LIMIT: usize = 64;

/// How many bytes of a process's name are shown, and may stand in an operator's act, at most.
pub const NAME_LIMIT: usize = 32;
