//! Why a line isn't read.

use std::alloc::{AllocError, AllocFailed};

/// Why a part of a line isn't read.
#[derive(Clone, Copy, Debug, PartialEq, Eq)]
pub(crate) enum LineStop {
    /// It has no form.
    Malformed,
    /// Out of memory.
    NoMemory,
}

impl From<AllocError> for LineStop {
    ghost use Rattle.std.specs.Prelude.{◌≡◌};
    ghost use Rattle.script_parse.specs.declared.line_stop.LineStop.TheVariants.{NoMemory};

    ghost from_gives = { λ _ e. e ≡ NoMemory };

    fn from(_error: AllocError) -> Self {
        LineStop::NoMemory
    }
}
