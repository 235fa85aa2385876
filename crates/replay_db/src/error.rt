//! The reasons why the run of a world has no outcome.

use std::alloc::AllocError;

/// Why the run of a world has no outcome.
#[derive(Clone, Copy, Debug, PartialEq, Eq)]
pub enum EndStop {
    /// Not all processes have ended after the steps of the budget.
    NotEnded,
    /// Out of memory.
    NoMemory,
}

impl From<AllocError> for EndStop {
    ghost use Rattle.std.specs.Prelude.{◌≡◌};
    ghost use Rattle.replay_db.specs.declared.error.EndStop.TheVariants.{NoMemory};

    ghost from_gives = { λ _ stop. stop ≡ NoMemory };

    fn from(_error: AllocError) -> EndStop {
        EndStop::NoMemory
    }
}
