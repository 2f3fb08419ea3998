// The numbers of the rules that several crates share.

/// The most bytes of a name.
pub const MAX_NAME_BYTES: usize = 32;

/// The fewest links of a path.
pub const MIN_PATH_LINKS: u32 = 2;

/// The most links of a path.
pub const MAX_PATH_LINKS: u32 = 8;

/// How many words a flit carries at most.
pub const WORDS_PER_FLIT: u32 = 2;

/// How many credits a flit carries at most.
pub const CREDITS_PER_FLIT: u32 = 15;

/// The most slots of a slot table.
pub const MAX_SLOTS: u32 = 128;

/// The greatest delay of a link, in cycles.
pub const MAX_LINK_DELAY: u32 = 4;

/// The greatest delay of a path, in cycles.
pub const MAX_PATH_DELAY: u32 = 32;

/// The greatest delay that a receiver declares, in cycles.
pub const MAX_RECEIVER_DELAY: u32 = 4_096;

/// The most words that a receive queue has room for.
pub const MAX_QUEUE_WORDS: u32 = 65_535;

/// The most cycles of a run.
pub const MAX_CYCLES: u32 = 1_000_000;
