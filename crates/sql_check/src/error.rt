//! Errors of the check.

use std::alloc::AllocError;

/// Why a statement is refused. The refusals are tried in this order, each over the whole statement;
/// `docs/SQL.md` says exactly when each comes.
#[derive(Clone, Copy, Debug, PartialEq, Eq)]
pub enum CheckStop {
    /// A named table doesn't exist, or two sources of one SELECT have the same name.
    NoTable,
    /// A column name means no column or two; a column is used ungrouped in a core that groups; a key of ORDER
    /// BY isn't exactly one answer column.
    NoColumn,
    /// Kinds or counts of columns don't fit; an aggregate is in a wrong place, or counts the rows of several
    /// sources; a column is set or named twice; a parameter of LIMIT isn't a number of at least 0.
    TypeClash,
    /// Out of memory.
    NoMemory,
}

impl From<AllocError> for CheckStop {
    ghost use Rattle.std.specs.Prelude.{◌≡◌};
    ghost use Rattle.sql_check.specs.declared.error.CheckStop.TheVariants.{NoMemory};

    ghost from_gives = { λ _ stop. stop ≡ NoMemory };

    fn from(_error: AllocError) -> Self {
        CheckStop::NoMemory
    }
}
