// The limits of programs, processes and files. Definitions cite the same constants.

/// The frames that a call may have at once.
pub const FRAMES: usize = 128;

/// The ticks of a call of `init`, of a handler or for a delivery.
pub const CALL_TICKS: u32 = 1_000_000;

/// The messages that one delivery may send.
pub const SENDS: usize = 16;

/// The bytes that the live heap objects of a process may have together.
pub const HEAP_BYTES: u64 = 4_194_304;

/// The address of a process's first object.
pub const FIRST_ADDRESS: u64 = 0x1000;

/// The greatest address that the next object may have.
pub const ADDRESS_LIMIT: u64 = 0xf000_0000;

/// The bytes behind an object that no object takes.
pub const GAP: u64 = 16;

/// The greatest size of a type in bytes, and of all globals together.
pub const SIZE: u32 = 1_048_576;

/// How many structs, unions, fields of one, globals, functions and sites there may be, of each kind.
pub const ENTRIES: usize = 4_096;

/// The parameters of a function.
pub const PARAMETERS: usize = 64;

/// The locals of a function, its parameters included.
pub const LOCALS: usize = 256;

/// How deep expressions, statements and types may stand in one another.
pub const DEPTH: u32 = 64;

/// The operators of one level, or the steps of a place, in a row.
pub const CHAIN: u32 = 64;

/// The stars of a pointer type.
pub const STARS: u32 = 8;

/// The state filters of a program.
pub const FILTERS: usize = 64;

/// The basic events of a schedule.
pub const EVENTS: usize = 100_000;

/// The bytes of a plan, and of a source.
pub const TEXT_BYTES: usize = 1_048_576;

/// The bytes of a schedule.
pub const SCHEDULE_BYTES: usize = 8_388_608;

/// The greatest height of an operand stack, in words.
pub const STACK_HEIGHT: u32 = 4_096;

/// The least number of a client.
pub const FIRST_CLIENT: i32 = 100;

/// The greatest number of a client.
pub const LAST_CLIENT: i32 = 999;

/// The bytes of a message in memory.
pub const MESSAGE_BYTES: usize = 32;
