//! The law of initial rows. The function has no body: its contract is the theorem.

ghost use Rattle.slicer.specs.InitialRows.{InitialRowsLaw};

/// A run's events read each initial row first in its initial version, and make none of them. `slice` requires
/// this of its events.
pub fn initial_rows_law()
    ensures { InitialRowsLaw }
{}
