//! Replies and refusals.

ghost use Rattle.std.specs.Prelude.{◌≡◌};

use ldv_value::{CopyItem, List, RowList, Utf8, Values};
use std::alloc::{AllocError, Global};

/// Why a statement is refused. The refusals are tried in this order, each over the whole statement;
/// `docs/SQL.md` says exactly when each comes.
#[derive(Drop)]
pub enum SqlRefusal {
    /// The text, with its parameters, is no statement.
    Syntax,
    /// A named table doesn't exist, or two sources of one SELECT have the same name.
    NoTable,
    /// A column name means no column or two; a column is used ungrouped in a core that groups; a key of ORDER
    /// BY isn't exactly one answer column.
    NoColumn,
    /// Kinds or counts of columns don't fit; an aggregate is in a wrong place, or counts the rows of several
    /// sources; a column is set or named twice; a parameter of LIMIT isn't a number of at least 0.
    TypeClash,
    /// A row that is inserted or matched would have NULL in a NOT NULL column.
    NotNull,
    /// Two rows of the table would have the same key. `key` is that of the first row, by number, whose
    /// key an earlier row has.
    KeyTaken { table: Utf8, key: Values },
    /// A new row would have a number above 4,294,967,294.
    Full,
    /// A row that is inserted or matched would refer to a key that no row of the parent `table` has. `key` is
    /// that of the first such row, by number, and of its first such foreign key.
    NoParent { table: Utf8, key: Values },
    /// Another row, of `table`, would refer to a key that the statement's table had before but would lose.
    /// `key` is that of the first such row, by table and number, and of its first such foreign key.
    HasChild { table: Utf8, key: Values },
}

/// The reply to a statement.
#[derive(Drop)]
pub enum Reply {
    /// The rows of a query.
    Rows(RowList),
    /// How many rows were inserted or matched.
    Changed(u64),
    /// The statement was refused, and nothing was changed.
    Refused(SqlRefusal),
}

/// Replies.
pub type Replies = List<Reply>;

impl SqlRefusal {
    ghost use Rattle.sql_model.specs.Codes.{code_of};

    /// The refusal's code, 1 to 9, in the order of the refusals.
    pub fn code(&self) -> u8
        ensures { result ≡ code_of self.now }
    {
        match self {
            SqlRefusal::Syntax => 1,
            SqlRefusal::NoTable => 2,
            SqlRefusal::NoColumn => 3,
            SqlRefusal::TypeClash => 4,
            SqlRefusal::NotNull => 5,
            SqlRefusal::KeyTaken { table: _, key: _ } => 6,
            SqlRefusal::Full => 7,
            SqlRefusal::NoParent { table: _, key: _ } => 8,
            SqlRefusal::HasChild { table: _, key: _ } => 9,
        }
    }
}

impl CopyItem for SqlRefusal {
    fn copy_item(&self, _alloc: Global) -> Result<Self, AllocError> {
        match self {
            SqlRefusal::Syntax => Ok(SqlRefusal::Syntax),
            SqlRefusal::NoTable => Ok(SqlRefusal::NoTable),
            SqlRefusal::NoColumn => Ok(SqlRefusal::NoColumn),
            SqlRefusal::TypeClash => Ok(SqlRefusal::TypeClash),
            SqlRefusal::NotNull => Ok(SqlRefusal::NotNull),
            SqlRefusal::KeyTaken { table, key } => Ok(SqlRefusal::KeyTaken {
                table: table.copy()?,
                key: key.copy()?,
            }),
            SqlRefusal::Full => Ok(SqlRefusal::Full),
            SqlRefusal::NoParent { table, key } => Ok(SqlRefusal::NoParent {
                table: table.copy()?,
                key: key.copy()?,
            }),
            SqlRefusal::HasChild { table, key } => Ok(SqlRefusal::HasChild {
                table: table.copy()?,
                key: key.copy()?,
            }),
        }
    }
}

impl CopyItem for Reply {
    fn copy_item(&self, alloc: Global) -> Result<Self, AllocError> {
        match self {
            Reply::Rows(rows) => Ok(Reply::Rows(rows.copy()?)),
            Reply::Changed(count) => Ok(Reply::Changed(*count)),
            Reply::Refused(refusal) => Ok(Reply::Refused(refusal.copy_item(alloc)?)),
        }
    }
}
