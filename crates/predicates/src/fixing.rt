//! The constants that conditions fix the columns of a key to.

ghost use Rattle.std.specs.Prelude.{◌≡◌, length, IfOk, IfSome};
ghost use Rattle.ldv_value.specs.declared.value.Cmp.TheVariants.{Eq};
ghost use Rattle.predicates.specs.Fixing.{IsFixing, Fixes, AllFix, FixesColumn, FixesAll, FixesKey};
ghost use Rattle.predicates.specs.inner.Constants.{IsConstant};
ghost use Rattle.predicates.specs.Types.{Compare, Value as Given};
ghost use Rattle.sql_model.specs.declared.expr.Expr.TheVariants.{Both};

use crate::constants::constant_of;
use crate::equality::{is_column, is_equal_test};
use crate::placed::BoundExpr;
use ldv_value::{Cmp, List, Value, Values};
use sql_model::{Expr, Operator, Schema};
use std::alloc::{AllocError, Global};

/// The values that the key columns of a source have in each joined row that meets the conditions, if these
/// compare each key column by `=` with a constant. Otherwise, or if the table has no key, `None`. The columns
/// of the source come after `before` values of the joined row.
pub fn fixed_key(
    alloc: Global,
    conds: &[BoundExpr],
    before: u128,
    schema: &Schema,
) -> Result<Option<Values>, AllocError>
    ensures { IfOk result (λ fixed.
        IfSome fixed (FixesKey conds.now before (length schema.now.columns) schema.now.key)) }
{
    if schema.key.is_empty() {
        return Ok(None);
    }
    fixed_values(
        alloc,
        conds,
        before,
        schema.columns.len(),
        schema.key.items(),
    )
}

// The values of columns, if each is fixed.
#[tactic(auto, using(crate::proofs::FixingLaws::fixed_end))]
fn fixed_values(
    alloc: Global,
    conds: &[BoundExpr],
    before: u128,
    width: usize,
    columns: &[usize],
) -> Result<Option<Values>, AllocError>
    ensures { IfOk result (λ fixed. IfSome fixed (FixesAll conds.now before width columns.now)) }
{
    let mut values = List::new(alloc);
    let mut left = columns;
    'columns: while let [column, others @ ..] = left {
        match fixed_value(alloc, conds, before, width, *column)? {
            None => return Ok(None),
            Some(value) => {
                values.push(value)?;
                left = others;
            }
        }
    }
    Ok(Some(values))
}

// The value of a column of a source, if it is fixed.
fn fixed_value(
    alloc: Global,
    conds: &[BoundExpr],
    before: u128,
    width: usize,
    column: usize,
) -> Result<Option<Value>, AllocError>
    ensures { IfOk result (λ found. IfSome found (FixesColumn conds.now before width column)) }
{
    if column >= width {
        return Ok(None);
    }
    match before.checked_add(column as u128) {
        None => Ok(None),
        Some(at) => constant_at(alloc, conds, at),
    }
}

// The constant at a place of the joined row, by the first condition that says it.
fn constant_at(alloc: Global, conds: &[BoundExpr], at: u128) -> Result<Option<Value>, AllocError>
    ensures { IfOk result (λ found. IfSome found (AllFix conds.now at)) }
{
    for cond in conds {
        let found = constant_by(alloc, cond, at)?;
        if found.is_some() {
            return Ok(found);
        }
    }
    Ok(None)
}

// The constant at a place of the joined row, if a condition says it.
fn constant_by(alloc: Global, cond: &BoundExpr, at: u128) -> Result<Option<Value>, AllocError>
    ensures { IfOk result (λ found. IfSome found (Fixes cond.now at)) }
{
    let Some(place) = cond.places.get(0) else {
        return Ok(None);
    };
    let place = *place as u128;
    if place == at {
        constant_of_equality(alloc, &cond.expr)
    } else {
        Ok(None)
    }
}

// The constant of an equality of a column with a constant.
fn constant_of_equality(alloc: Global, expr: &Expr) -> Result<Option<Value>, AllocError>
    ensures { IfOk result (λ found. IfSome found (IsFixing expr.now)) }
{
    match expr {
        Expr::Both(operator, left, right) => match operator {
            Operator::Compare(test) => constant_between(alloc, *test, left.get(), right.get()),
            _ => Ok(None),
        },
        _ => Ok(None),
    }
}

// The constant of a comparison of two sides, if it is an equality of a column with a constant.
fn constant_between(
    alloc: Global,
    test: Cmp,
    left: &Expr,
    right: &Expr,
) -> Result<Option<Value>, AllocError>
    ensures { IfOk result (λ found. IfSome found (IsFixing (Both (Compare test) left.now right.now))) }
{
    if !is_equal_test(test) {
        return Ok(None);
    }
    constant_beside(alloc, left, right)
}

// The constant on one side of an equality, if a column is on the other.
fn constant_beside(alloc: Global, left: &Expr, right: &Expr) -> Result<Option<Value>, AllocError>
    ensures { IfOk result (λ found. IfSome found (IsFixing (Both (Compare Eq) left.now right.now))) }
{
    match side_beside_column(left, right) {
        None => Ok(None),
        Some(side) => constant_of(alloc, side),
    }
}

// The side of an equality whose other side is a column.
fn side_beside_column<'a>(left: &'a Expr, right: &'a Expr) -> Option<&'a Expr>
    ensures { IfSome result (λ side. (value : Given) → IsConstant side.now value
        → IsFixing (Both (Compare Eq) left.now right.now) value) }
{
    if is_column(left) {
        return Some(right);
    }
    if is_column(right) {
        return Some(left);
    }
    None
}
