//! Tests of single columns, which choose rows of a source before conditions are evaluated.

ghost use Rattle.std.specs.Prelude.{◌≡◌, ◌++◌, option_to_list, IfOk, IfSome, OnOk, true};
ghost use Rattle.predicates.specs.inner.Constants.{IsConstant};
ghost use Rattle.predicates.specs.Equality.{IsColumn};
ghost use Rattle.predicates.specs.Masking.{AreMasks, AreExact, IsFound, IsTest, commuted_cmp};
ghost use Rattle.predicates.specs.Types.{Compare, Int};
ghost use Rattle.sql_model.specs.ColumnTests.{fits, suits};
ghost use Rattle.sql_model.specs.declared.expr.Expr.TheVariants.{Both, IsNull};

use crate::constants::constant_of;
use crate::equality::is_column;
use crate::placed::{BoundExpr, column_of_source};
use ldv_value::{Cmp, Value};
use sql_model::{CellTest, Column, ColumnTest, Columns, Expr, Operator};
use std::alloc::{AllocError, Global};

/// The masks of a source: tests of single columns that hold in each joined row that meets the conditions. The
/// columns of the source come after `before` values of the joined row. The tests compare only columns of
/// numbers.
pub fn masks_of(
    alloc: Global,
    conds: &[BoundExpr],
    before: u128,
    columns: &Columns,
) -> Result<Vec<ColumnTest>, AllocError>
    ensures { IfOk result (λ masks. AreMasks conds.now before columns.now masks.items) }
{
    let mut masks = Vec::new(alloc);
    for cond in conds {
        let mask = mask_of(alloc, cond, before, columns)?;
        add_mask(&mut masks, mask)?;
    }
    Ok(masks)
}

/// The masks of a source that are equivalent to the conditions: a joined row meets the conditions exactly if
/// it passes the masks. `None` if some condition isn't a mask.
pub fn exact_masks(
    alloc: Global,
    conds: &[BoundExpr],
    before: u128,
    columns: &Columns,
) -> Result<Option<Vec<ColumnTest>>, AllocError>
    ensures { IfOk result (λ found.
        IfSome found (λ masks. AreExact conds.now before columns.now masks.items)) }
{
    let mut masks = Vec::new(alloc);
    for cond in conds {
        let found = mask_of(alloc, cond, before, columns)?;
        match found {
            None => return Ok(None),
            Some(mask) => masks.push(mask)?,
        }
    }
    Ok(Some(masks))
}

// Adds a mask, if there is one.
fn add_mask(masks: &mut Vec<ColumnTest>, mask: Option<ColumnTest>) -> Result<(), AllocError>
    ensures { OnOk result (masks.new.items ≡ masks.old.items ++ option_to_list mask) }
{
    if let Some(mask) = mask {
        masks.push(mask)?;
    }
    Ok(())
}

// The mask of a condition, if it tests a column of the source.
fn mask_of(
    alloc: Global,
    cond: &BoundExpr,
    before: u128,
    columns: &Columns,
) -> Result<Option<ColumnTest>, AllocError>
    ensures { IfOk result (λ found. IfSome found (IsFound cond.now before columns.now)) }
{
    let Some(place) = cond.places.get(0) else {
        return Ok(None);
    };
    let Some(column) = column_of_source(before, *place) else {
        return Ok(None);
    };
    match test_of(alloc, &cond.expr)? {
        None => Ok(None),
        Some(test) => Ok(fitting_mask(columns, ColumnTest { column, test })),
    }
}

// The mask, if its column suits.
fn fitting_mask(columns: &Columns, mask: ColumnTest) -> Option<ColumnTest>
    ensures { IfSome result (λ found. (found ≡ mask) × (fits columns.now mask ≡ true)) }
{
    if fits(columns, mask) {
        Some(mask)
    } else {
        None
    }
}

fn fits(columns: &Columns, mask: ColumnTest) -> bool
    ensures { result ≡ fits columns.now mask }
{
    match columns.get(mask.column) {
        None => false,
        Some(column) => suits(mask.test, column),
    }
}

// Whether a column can be tested so: only numbers are compared.
fn suits(test: CellTest, column: &Column) -> bool
    ensures { result ≡ suits test column.now }
{
    match test {
        CellTest::Compare { .. } => !column.text,
        CellTest::IsNull => true,
        CellTest::IsNotNull => true,
    }
}

// The test of a column that an expression is.
fn test_of(alloc: Global, expr: &Expr) -> Result<Option<CellTest>, AllocError>
    ensures { IfOk result (λ found. IfSome found (IsTest expr.now)) }
{
    match expr {
        Expr::Both(operator, left, right) => match operator {
            Operator::Compare(test) => comparison(alloc, *test, left.get(), right.get()),
            _ => Ok(None),
        },
        Expr::IsNull(inner, negative) => Ok(null_test(inner.get(), *negative)),
        _ => Ok(None),
    }
}

// The test for NULL of what is a column.
#[tactic(auto, using(crate::proofs::MaskLaws::null_tests))]
fn null_test(inner: &Expr, negative: bool) -> Option<CellTest>
    ensures { IfSome result (IsTest (IsNull inner.now negative)) }
{
    if !is_column(inner) {
        return None;
    }
    if negative {
        Some(CellTest::IsNotNull)
    } else {
        Some(CellTest::IsNull)
    }
}

// The comparison of a column with a number, whichever stands first.
fn comparison(
    alloc: Global,
    test: Cmp,
    left: &Expr,
    right: &Expr,
) -> Result<Option<CellTest>, AllocError>
    ensures { IfOk result (λ found. IfSome found (IsTest (Both (Compare test) left.now right.now))) }
{
    if is_column(left) {
        return number_after(alloc, test, left, right);
    }
    if is_column(right) {
        return number_before(alloc, test, left, right);
    }
    Ok(None)
}

#[tactic(auto, using(crate::proofs::MaskLaws::column_number))]
fn number_after(
    alloc: Global,
    test: Cmp,
    left: &Expr,
    right: &Expr,
) -> Result<Option<CellTest>, AllocError>
    requires { IsColumn left.now }
    ensures { IfOk result (λ found. IfSome found (IsTest (Both (Compare test) left.now right.now))) }
{
    match number_of(alloc, right)? {
        None => Ok(None),
        Some(number) => Ok(Some(CellTest::Compare {
            op: test,
            constant: number,
        })),
    }
}

#[tactic(auto, using(crate::proofs::MaskLaws::number_column))]
fn number_before(
    alloc: Global,
    test: Cmp,
    left: &Expr,
    right: &Expr,
) -> Result<Option<CellTest>, AllocError>
    requires { IsColumn right.now }
    ensures { IfOk result (λ found. IfSome found (IsTest (Both (Compare test) left.now right.now))) }
{
    match number_of(alloc, left)? {
        None => Ok(None),
        Some(number) => Ok(Some(CellTest::Compare {
            op: commuted_cmp(test),
            constant: number,
        })),
    }
}

// The number that an expression is over every row.
fn number_of(alloc: Global, expr: &Expr) -> Result<Option<i64>, AllocError>
    ensures { IfOk result (λ found. IfSome found (λ number. IsConstant expr.now (Int number))) }
{
    match constant_of(alloc, expr)? {
        None => Ok(None),
        Some(value) => Ok(number_in(value)),
    }
}

fn number_in(value: Value) -> Option<i64>
    ensures { IfSome result (λ number. value ≡ Int number) }
{
    match value {
        Value::Int(number) => Some(number),
        Value::Null => None,
        Value::Text(_) => None,
    }
}

// The operator with its sides exchanged.
fn commuted_cmp(test: Cmp) -> Cmp
    ensures { result ≡ commuted_cmp test }
{
    match test {
        Cmp::Eq => Cmp::Eq,
        Cmp::Ne => Cmp::Ne,
        Cmp::Lt => Cmp::Gt,
        Cmp::Le => Cmp::Ge,
        Cmp::Gt => Cmp::Lt,
        Cmp::Ge => Cmp::Le,
    }
}
