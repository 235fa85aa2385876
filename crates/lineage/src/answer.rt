//! Picked combinations and answer rows, each with its lineage.

ghost use Rattle.std.specs.Prelude.{◌≡◌, IfOk, OnErr, OnOk};
ghost use Rattle.lineage.specs.Lineage.{union_of};
ghost use Rattle.lineage.specs.Rows.{with_more};

use crate::lineage_rows::LineageRows;
use ldv_value::{List, Values};
use std::alloc::{AllocError, Global};

/// A picked combination: the values of the joined row, in FROM order, and the rows that it joins. If no
/// lineage is kept, the lineage is empty.
#[derive(Drop)]
pub struct Pick {
    pub values: Values,
    pub lineage: LineageRows,
}

/// A row of an answer: its values, and the rows that it comes from. If no lineage is kept, the lineage is
/// empty.
#[derive(Drop)]
pub struct Answer {
    pub values: Values,
    pub lineage: LineageRows,
}

impl Answer {
    /// Adds the lineage of another answer with the same values. On `AllocError` the answer is as it was.
    pub fn unite(&mut self, other: &Answer) -> Result<(), AllocError>
        ensures ok { OnOk result (self.new ≡ with_more self.old other.now) }
        ensures err { OnErr result (self.new ≡ self.old) }
    {
        unite_rows(&mut self.lineage, &other.lineage)
    }

    /// A copy of the answer.
    pub fn copy(&self) -> Result<Answer, AllocError>
        ensures { IfOk result (λ copy. copy ≡ self.now) }
    {
        Ok(Answer {
            values: self.values.copy()?,
            lineage: copy_of(self.values.allocator(), &self.lineage)?,
        })
    }
}

// Adds the rows of one lineage to another.
fn unite_rows(rows: &mut LineageRows, other: &LineageRows) -> Result<(), AllocError>
    ensures ok { OnOk result (rows.new ≡ union_of rows.old other.now) }
    ensures err { OnErr result (rows.new ≡ rows.old) }
{
    rows.union(other)
}

// A copy of a lineage.
fn copy_of(alloc: Global, rows: &LineageRows) -> Result<LineageRows, AllocError>
    ensures { IfOk result (λ copy. copy ≡ rows.now) }
{
    let mut copy = LineageRows::empty(alloc);
    unite_rows(&mut copy, rows)?;
    Ok(copy)
}

/// Picked combinations, in their order.
pub type Picks = List<Pick>;
/// Rows of an answer, in their order.
pub type Answers = List<Answer>;
