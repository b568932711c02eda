//! The statuses that the program ends with.

/// The job is done, or help was asked for.
pub const DONE: u8 = 0;

/// The program is refused.
pub const PROGRAM: u8 = 1;

/// The words aren't understood, or exclude each other.
pub const WORDS: u8 = 2;

/// The log is refused.
pub const LOG: u8 = 3;

/// Memory ran out.
pub const MEMORY: u8 = 4;

/// A device failed.
pub const DEVICE: u8 = 5;

/// The job is done, but its answer isn't whole.
pub const PARTIAL: u8 = 6;

/// The job is done, and the answer is that an outcome isn't in the list.
pub const REFUTED: u8 = 7;
