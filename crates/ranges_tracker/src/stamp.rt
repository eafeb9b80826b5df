//! `Stamp`, what an update says of the changes that it makes.

use ot_units::Name;

/// What an update says of the changes that it makes.
#[derive(Debug, Drop)]
pub struct Stamp {
    /// The version at which the update is applied.
    pub version: u64,
    /// Who made the update.
    pub user: Name,
    /// When, in milliseconds of the script's clock.
    pub ms: u64,
    /// Whether the changes are tracked. Those that aren't leave no mark.
    pub track: bool,
}
