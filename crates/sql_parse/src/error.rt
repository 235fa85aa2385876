//! Errors of the parser.

use std::alloc::AllocError;

/// Why a text wasn't read as a statement.
#[derive(Clone, Copy, Debug, PartialEq, Eq)]
pub enum ParseStop {
    /// The text is no statement with these parameters.
    Syntax,
    /// Out of memory.
    NoMemory,
}

impl From<AllocError> for ParseStop {
    ghost use Rattle.std.specs.Prelude.{◌≡◌};
    ghost use Rattle.sql_parse.specs.declared.error.ParseStop.TheVariants.{NoMemory};

    ghost from_gives = { λ _ stop. stop ≡ NoMemory };

    fn from(_error: AllocError) -> Self {
        ParseStop::NoMemory
    }
}
