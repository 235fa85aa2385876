//! Why a change of rows is refused.

use ldv_value::{Utf8, Values};
use std::alloc::AllocError;

/// Why a change of rows is refused. A refused change changes nothing.
#[derive(Drop)]
pub enum StoreStop {
    /// A row would have NULL in a column that is NOT NULL.
    NotNull,
    /// Two rows would have the same key: `later` is the first row, in the order of numbers, whose key an
    /// earlier row has, and `earlier` is that row. Each is `None` if that row is new.
    KeyTaken {
        earlier: Option<u32>,
        later: Option<u32>,
        key: Values,
    },
    /// The number of the next row would be above 4,294,967,295.
    Full,
    /// A given row would refer to `key`, which no row of the parent `table` would have. `key` is that of the
    /// first such row, in the order of numbers, and of its first such foreign key.
    NoParent {
        table: Utf8,
        key: Values,
    },
    /// Another row would refer to `key`, which the changed table had before but would lose. `row` is the
    /// first such row, by `table` and number.
    HasChild {
        table: Utf8,
        row: u32,
        key: Values,
    },
    /// Out of memory.
    NoMemory,
}

impl From<AllocError> for StoreStop {
    ghost use Rattle.std.specs.Prelude.{◌≡◌};
    ghost use Rattle.table_store.specs.declared.error.StoreStop.TheVariants.{NoMemory};

    ghost from_gives = { λ _ stop. stop ≡ NoMemory };

    fn from(_refused: AllocError) -> StoreStop {
        StoreStop::NoMemory
    }
}
