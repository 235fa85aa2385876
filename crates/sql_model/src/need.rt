//! Rows of tables at a version, and the rows that a statement needs.

ghost use Rattle.std.specs.Prelude.{◌≡◌};
ghost use Rattle.sql_model.specs.MemberOrder.{row_after_table};

use ldv_value::{CopyItem, List, Precedes, Utf8};
use std::alloc::{AllocError, Global};
use std::cmp::Ordering;

/// Why a statement needs a row. If several variants hold, the first one is the rule.
#[derive(Clone, Copy, Debug, PartialEq, Eq)]
pub enum Rule {
    /// The row is in the lineage of an answer row, or matched by an UPDATE or DELETE.
    L,
    /// The row is in the lineage of a group that HAVING rejected. Or it is in the lineage of a row that LIMIT
    /// cut, and the query groups, has DISTINCT, or has UNION without ALL.
    H,
    /// The row is one of the two rows whose key was refused.
    K,
    /// The row is a parent row: an inserted or matched row refers to its key after the statement.
    P,
    /// The row is the child row that makes a change of its parent's table refused.
    C,
}

/// A row of a table, by its number, at a version: the number of the row's earlier changes.
#[derive(Drop)]
pub struct Member {
    pub table: Utf8,
    pub row: u32,
    pub version: u32,
}

/// A row that a statement needs, and why.
#[derive(Drop)]
pub struct Need {
    pub member: Member,
    pub rule: Rule,
}

/// Members, sorted by table and row, each row once.
pub type Members = List<Member>;
/// Needs, sorted by table and row, each row once.
pub type Needs = List<Need>;

impl CopyItem for Member {
    fn copy_item(&self, _alloc: Global) -> Result<Self, AllocError> {
        Ok(Member {
            table: self.table.copy()?,
            row: self.row,
            version: self.version,
        })
    }
}

impl CopyItem for Need {
    fn copy_item(&self, alloc: Global) -> Result<Self, AllocError> {
        Ok(Need {
            member: self.member.copy_item(alloc)?,
            rule: self.rule,
        })
    }
}

impl Precedes for Member {
    ghost use Rattle.sql_model.specs.MemberOrder.{member_precedes};

    ghost is_before = { member_precedes };

    fn precedes(&self, other: &Member) -> bool {
        let between = self.table.as_str().cmp(other.table.as_str());
        row_after_table(between, self.row, other.row)
    }
}

fn row_after_table(between: Ordering, m: u32, n: u32) -> bool
    ensures { result ≡ row_after_table between m n }
{
    match between {
        Ordering::Less => true,
        Ordering::Equal => m < n,
        Ordering::Greater => false,
    }
}

impl Precedes for Need {
    ghost use Rattle.sql_model.specs.MemberOrder.{need_precedes};

    ghost is_before = { need_precedes };

    fn precedes(&self, other: &Need) -> bool {
        self.member.precedes(&other.member)
    }
}
