//! The numbers of the rules. But for the age of an update they are this project's own.

/// No journal has more entries, 2^61: so many fit into no memory.
pub const MAX_ENTRIES: u64 = 2_305_843_009_213_693_952;

/// The greatest version at which a document may be made: 2^53 - 1.
pub const MAX_BASE: u64 = 9_007_199_254_740_991;

/// The greatest moment of the clock, in milliseconds: 2^62.
pub const MAX_MOMENT: u64 = 4_611_686_018_427_387_904;

/// The greatest age of an update, and of a client that comes back, in versions: Overleaf's
/// document-updater keeps so many operations.
pub const MAX_AGE: u64 = 100;

/// The greatest source of an update that no client sent.
pub const MAX_RAW_SOURCE: u64 = 999_999;

/// The source of a client that joins by the first entry. Each later entry's is higher by one.
pub const FIRST_SOURCE: u64 = 1_000_000;

/// The greatest length of a client's text, in UTF-16 code units.
pub const MAX_CLIENT_UNITS: usize = 4_194_304;
