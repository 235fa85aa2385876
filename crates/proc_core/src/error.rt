//! The reasons why a step isn't made, and why a run stops before its end.

use run_model::ProcName;
use std::alloc::AllocError;

/// Why a step isn't made.
#[derive(Drop)]
pub enum Stopped {
    /// The database had no reply to a statement of `process`, which had `index` replies so far.
    Diverged { process: ProcName, index: u32 },
    /// Out of memory.
    NoMemory,
}

impl From<AllocError> for Stopped {
    ghost use Rattle.std.specs.Prelude.{◌≡◌};
    ghost use Rattle.proc_core.specs.declared.error.Stopped.TheVariants.{NoMemory};

    ghost from_gives = { λ _ stop. stop ≡ NoMemory };

    fn from(_error: AllocError) -> Stopped {
        Stopped::NoMemory
    }
}

/// Why a run stops before its end.
#[derive(Drop)]
pub enum RunStop {
    /// Not all processes have ended after the steps of the budget.
    NotEnded,
    /// The database had no reply to a statement of `process`, which had `index` replies so far.
    Diverged { process: ProcName, index: u32 },
    /// Out of memory.
    NoMemory,
}
