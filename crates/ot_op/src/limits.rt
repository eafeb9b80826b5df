//! How large operations and texts may be. The numbers are this project's own.

/// The most components that an operation may have when it is sent.
pub const MAX_COMPONENTS: u64 = 1_000;

/// The most UTF-16 code units that the texts of an operation's components may have together when it
/// is sent.
pub const MAX_OPERATION_UNITS: u64 = 65_536;

/// The greatest place, in UTF-16 code units, of a component of an operation when it is sent.
pub const MAX_PLACE: u32 = 1_000_000_000;

/// The greatest length of a document's text, in UTF-16 code units.
pub const MAX_TEXT_UNITS: usize = 2_097_152;
