//! The greatest number of operations that a build can have open, and the smallest and largest settings for a history's
//! capacity per build.

/// The greatest number of operations that a build can have open at once.
pub const JOURNAL_ROOM: u16 = 512;

/// The smallest allowed setting for a history's capacity per build, in entries.
pub const LEAST_HISTORY: u16 = 16;

/// The largest allowed setting for a history's capacity per build, in entries.
pub const MOST_HISTORY: u16 = 16_384;
