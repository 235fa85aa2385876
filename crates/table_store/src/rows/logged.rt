//! A version of a row that another one replaced.

use ldv_value::Values;

/// Values that a row had until others took their place.
#[derive(Drop)]
pub(crate) struct Logged {
    /// The slot of the row.
    pub(crate) slot: u32,
    /// Since when the row had the values.
    pub(crate) since: u32,
    /// One more than the place of the row's version before this one; 0 if this is the first one.
    pub(crate) before: usize,
    /// How many versions of the row there are up to this one.
    pub(crate) count: u32,
    pub(crate) values: Values,
}
