//! How much a script may have. The numbers are this project's own.

/// The most documents that a script makes.
pub const MAX_DOCUMENTS: usize = 1_000;

/// The most sessions that do its lines.
pub const MAX_SESSIONS: usize = 256;

/// The greatest step of the clock that a line asks for, in milliseconds.
pub const MAX_TICK: u64 = 1_000_000_000_000;
