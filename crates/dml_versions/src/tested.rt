//! Tests of single columns from WHERE, which choose rows of a table before WHERE is evaluated.

ghost use Rattle.std.specs.Prelude.{◌≡◌, Some, IfOk, true, false};
ghost use Rattle.predicates.specs.Masking.{AreMasks, AreExact};
ghost use Rattle.dml_versions.specs.inner.Testing.{AreTests, AreExactTests};

use ldv_value::{List, Places};
use predicates::{BoundExpr, conjuncts_of, exact_masks, masks_of};
use sql_model::{ColumnTest, Columns, Expr};
use std::alloc::{AllocError, Global};

/// Tests of columns. Each row for which WHERE is True passes them. If they are exact, WHERE is True for each
/// row that passes them.
#[derive(Drop)]
pub(crate) struct WhereTests {
    pub tests: Vec<ColumnTest>,
    pub exact: bool,
}

/// The tests of columns from WHERE; none if there is no WHERE. `places` has the places of WHERE's columns,
/// from 0.
pub(crate) fn picked_tests(
    alloc: Global,
    columns: &Columns,
    pick: &Option<Expr>,
    places: &Places,
) -> Result<WhereTests, AllocError>
    ensures tests { IfOk result (λ made. AreTests pick.now places.now columns.now made.tests.items) }
    ensures exact { IfOk result (λ made. made.exact ≡ true
        → AreExactTests pick.now places.now made.tests.items) }
{
    match pick {
        None => Ok(WhereTests {
            tests: Vec::new(alloc),
            exact: true,
        }),
        Some(expr) => tests_by(alloc, columns, expr, places),
    }
}

// The tests of columns that a WHERE makes: exact ones, if all of it is tests of single columns.
fn tests_by(
    alloc: Global,
    columns: &Columns,
    expr: &Expr,
    places: &Places,
) -> Result<WhereTests, AllocError>
    ensures tests { IfOk result (λ made.
        AreTests (Some expr.now) places.now columns.now made.tests.items) }
    ensures exact { IfOk result (λ made. made.exact ≡ true
        → AreExactTests (Some expr.now) places.now made.tests.items) }
{
    let conds = conjuncts_of(alloc, expr, places)?;
    let made = tests_of_conjuncts(alloc, columns, &conds)?;
    Ok(made)
}

// The tests that conjuncts are, if each is one, and else those that some of them are.
fn tests_of_conjuncts(
    alloc: Global,
    columns: &Columns,
    conds: &List<BoundExpr>,
) -> Result<WhereTests, AllocError>
    ensures masks { IfOk result (λ made. made.exact ≡ false
        → AreMasks conds.now 0 columns.now made.tests.items) }
    ensures exact { IfOk result (λ made. made.exact ≡ true
        → AreExact conds.now 0 columns.now made.tests.items) }
{
    match exact_masks(alloc, conds.items(), 0, columns)? {
        None => some_tests(alloc, columns, conds),
        Some(tests) => Ok(WhereTests { tests, exact: true }),
    }
}

// Tests that rows may pass for which WHERE isn't True.
fn some_tests(
    alloc: Global,
    columns: &Columns,
    conds: &List<BoundExpr>,
) -> Result<WhereTests, AllocError>
    ensures tests { IfOk result (λ made. AreMasks conds.now 0 columns.now made.tests.items) }
    ensures exact { IfOk result (λ made. made.exact ≡ false) }
{
    let tests = masks_of(alloc, conds.items(), 0, columns)?;
    Ok(WhereTests {
        tests,
        exact: false,
    })
}
