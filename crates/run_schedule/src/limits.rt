// The ranges of a schedule's numbers.

/// The greatest ring: at most this many samples wait to be taken. The least is 1.
pub const MAX_RING: u32 = 1_024;

/// The ring of a run that does not ask for another.
pub const DEFAULT_RING: u32 = 256;

/// The greatest budget of steps. The least is 1.
pub const MAX_BUDGET: u64 = 100_000_000;

/// The least limit of entries: one entry and the end.
pub const MIN_ENTRIES: u32 = 2;

/// The greatest limit of entries.
pub const MAX_ENTRIES: u32 = 1_048_576;

/// The greatest port. Connections have the ports from 1 on, and port 0 is the isolate's own.
pub const MAX_PORT: u8 = 8;
