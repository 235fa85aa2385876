//! The reasons why a document is no world.

use std::alloc::AllocError;

/// Why a document is no world. The faults are tried in this order, each over the whole document.
#[derive(Clone, Copy, Debug, PartialEq, Eq)]
pub enum WorldFault {
    /// The bytes are no JSON text.
    NotJson,
    /// A member too many or too few, or of another JSON type.
    Shape,
    /// A path, a table name or a column name that breaks its rule; a name twice; a key or a foreign key that
    /// names no column, or a parent that is no table.
    Name,
    /// A number of things or a length above its limit.
    Limit,
    /// A text in an INT column, or a number in a TEXT column.
    RowType,
    /// A null in a NOT NULL column.
    NotNull,
    /// A key column that may be NULL, or two rows of one key.
    Key,
    /// A foreign key that fits no key of its parent, or a row that refers to no row of the parent.
    Reference,
    /// The first start word is no file.
    NoStart,
    /// The file of the first start word is no script: its first bad line, from 1.
    BadScript(u32),
}

/// Why `world_of` gives no world.
#[derive(Clone, Copy, Debug, PartialEq, Eq)]
pub enum WorldStop {
    /// The bytes describe no world: their first fault.
    Fault(WorldFault),
    /// Out of memory.
    NoMemory,
}

impl From<AllocError> for WorldStop {
    ghost use Rattle.std.specs.Prelude.{◌≡◌};
    ghost use Rattle.world_json.specs.declared.fault.WorldStop.TheVariants.{NoMemory};

    ghost from_gives = { λ _ stop. stop ≡ NoMemory };

    fn from(_refused: AllocError) -> WorldStop {
        WorldStop::NoMemory
    }
}
