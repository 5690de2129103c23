//! Why a tenant's records are not replayed, and why its part is not extracted.

use cops_script::BadConfig;

/// Why a tenant's records are not replayed.
#[derive(Clone, Copy, Debug, PartialEq, Eq)]
pub enum ReplayRefusal {
    BadConfig(BadConfig),
    /// The head has no tenant of the name.
    UnknownTenant,
    /// A clock of the tenant in a file of layout 1 is above 281474976710654: its first clock, or
    /// one in its records.
    ClockTooGreat,
}

/// Why a tenant's part is not extracted.
#[derive(Clone, Copy, Debug, PartialEq, Eq)]
pub enum PartRefusal {
    BadConfig(BadConfig),
    /// The head has no tenant of the name.
    UnknownTenant,
}
