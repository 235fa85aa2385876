//! Conditions, tested on rows whose cells are lent: nothing is copied before a row passes.

ghost use Rattle.std.specs.Prelude.{◌≡◌, ◌++◌, ◌∷◌, [], Bool, List as Items, ℕ};
ghost use Rattle.query_eval.specs.inner.Slots.{is_met_by, are_met_by, slots_meet};

use crate::slot_row::SlotRow;
use crate::source::Source;
use lent_cells::{CellsAt, truth_over};
use predicates::{BoundExpr, is_certain};

// Whether a condition is True over a row.
fn is_met<R: CellsAt>(cond: &BoundExpr, row: &R) -> bool
    ensures { result ≡ is_met_by cond.now (R.listed row.now) }
{
    is_certain(truth_over(&cond.expr, row, &cond.places))
}

/// Whether each condition is True over a row.
pub(crate) fn are_met<R: CellsAt>(conds: &[BoundExpr], row: &R) -> bool
    ensures { result ≡ are_met_by conds.now (R.listed row.now) }
{
    conds.iter().all(|cond| is_met(cond, row))
}

/// A test of joined rows by slots.
pub(crate) trait SlotTest {
    /// What the test says of the row in some slots.
    ghost test: { Self → Items ℕ → Bool };

    /// Whether a prefix with one slot more passes.
    fn passes(&self, prefix: &[u32], slot: u32) -> bool
        ensures { result ≡ Self.test self.now (prefix.now ++ slot ∷ []) };
}

/// The test whether each condition is True over the rows of sources in some slots.
#[derive(Drop)]
pub(crate) struct RowTest<'a> {
    pub(crate) sources: &'a [Source],
    pub(crate) conds: &'a [BoundExpr],
}

impl<'a> SlotTest for RowTest<'a> {
    ghost test = { λ t. slots_meet t.conds.now t.sources.now };

    fn passes(&self, prefix: &[u32], slot: u32) -> bool {
        let row = SlotRow {
            sources: self.sources,
            slots: prefix,
            last: Some(slot),
        };
        are_met(self.conds, &row)
    }
}

/// Whether each condition is True over the rows of sources in some slots.
pub(crate) fn are_met_in(sources: &[Source], slots: &[u32], conds: &[BoundExpr]) -> bool
    ensures { result ≡ slots_meet conds.now sources.now slots.now }
{
    let row = SlotRow {
        sources,
        slots,
        last: None,
    };
    are_met(conds, &row)
}
