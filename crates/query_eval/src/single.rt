//! The picks of a core with one source: the rows move into the picks, and nothing is joined.

ghost use Rattle.std.specs.Prelude.{◌≡◌, ◌++◌, ◌∷◌, List as Items, IfOk, OnOk};
ghost use Rattle.std.specs.FinMap.{empty};
ghost use Rattle.predicates.specs.Placing.{AreAllPlaced};
ghost use Rattle.lineage.specs.Lineage.{with_version};
ghost use Rattle.query_eval.specs.Picking.{row_lineage, row_pick, row_picks};
ghost use Rattle.query_eval.specs.inner.Slots.{are_met_by};
ghost use Rattle.query_eval.specs.declared.source.SourceRow.{SourceRow as Given};
ghost use Rattle.sql_model.specs.Scope.{InScope};

use crate::source::{SourceRow, SourceRows};
use crate::testing::are_met;
use ldv_value::List;
use lent_cells::Listed;
use lineage::{LineageRows, Pick, Picks};
use predicates::BoundExpr;
use std::alloc::{AllocError, Global};

/// The picks of the rows of a table that meet conditions.
pub(crate) fn picks_alone(
    alloc: Global,
    table: u32,
    rows: SourceRows,
    conds: &List<BoundExpr>,
    keep: bool,
) -> Result<Picks, AllocError>
    ensures { IfOk result (λ picks. (scope : Items InScope) → AreAllPlaced scope conds.now
        → picks ≡ row_picks scope conds.now keep table rows) }
{
    let mut picks = List::with_capacity(alloc, rows.len())?;
    for row in rows.into_vec() {
        pick_row(alloc, &mut picks, table, row, conds, keep)?;
    }
    Ok(picks)
}

// Adds the pick of a row, if the row meets the conditions.
fn pick_row(
    alloc: Global,
    picks: &mut Picks,
    table: u32,
    row: SourceRow,
    conds: &List<BoundExpr>,
    keep: bool,
) -> Result<(), AllocError>
    ensures { OnOk result ((scope : Items InScope) → AreAllPlaced scope conds.now → (rest : Items Given)
        → picks.new ++ row_picks scope conds.now keep table rest
        ≡ picks.old ++ row_picks scope conds.now keep table (row ∷ rest)) }
{
    if meets_all(conds, &row) {
        picks.push(row_pick(alloc, table, row, keep)?)?;
    }
    Ok(())
}

// Whether each condition is True over a row.
fn meets_all(conds: &List<BoundExpr>, row: &SourceRow) -> bool
    ensures { result ≡ are_met_by conds.now row.now.values }
{
    let row = Listed {
        values: &row.values,
    };
    are_met(conds.items(), &row)
}

// The pick of a row alone.
fn row_pick(alloc: Global, table: u32, row: SourceRow, keep: bool) -> Result<Pick, AllocError>
    ensures { IfOk result (λ pick. pick ≡ row_pick keep table row) }
{
    let lineage = row_lineage(alloc, table, &row, keep)?;
    Ok(Pick {
        values: row.values,
        lineage,
    })
}

// The lineage of a row, where it is kept.
fn row_lineage(
    alloc: Global,
    table: u32,
    row: &SourceRow,
    keep: bool,
) -> Result<LineageRows, AllocError>
    ensures { IfOk result (λ lineage. lineage ≡ row_lineage keep table row.now) }
{
    if keep {
        row_alone(alloc, table, row)
    } else {
        Ok(LineageRows::empty(alloc))
    }
}

// The set of one row.
fn row_alone(alloc: Global, table: u32, row: &SourceRow) -> Result<LineageRows, AllocError>
    ensures { IfOk result (λ lineage. lineage ≡ with_version empty (table, row.now.number) row.now.version) }
{
    let mut lineage = LineageRows::empty(alloc);
    lineage.add(table, row.number, row.version)?;
    Ok(lineage)
}
