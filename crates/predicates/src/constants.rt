//! Expressions that have one value over every row.

ghost use Rattle.std.specs.Prelude.{◌≡◌, [], is_some, IfOk, IfSome};
ghost use Rattle.predicates.specs.inner.Constants.{is_nameless, IsConstant};
ghost use Rattle.sql_model.specs.Evaluation.{IsValue};

use ldv_value::{List, Value};
use sql_model::{Expr, value_of};
use std::alloc::{AllocError, Global};

// Whether an expression names no column.
#[tactic(auto, using(crate::proofs::ConstantLaws::nameless_forms))]
fn is_nameless(expr: &Expr) -> bool
    ensures { result ≡ is_nameless expr.now }
{
    match expr {
        Expr::Constant(_) => true,
        Expr::Column(_) => false,
        Expr::Negate(inner) => is_nameless(inner.get()),
        Expr::Not(inner) => is_nameless(inner.get()),
        Expr::Both(_, left, right) => is_nameless(left.get()) && is_nameless(right.get()),
        Expr::IsNull(inner, _) => is_nameless(inner.get()),
        Expr::Aggregate(_, None) => true,
        Expr::Aggregate(_, Some(inner)) => is_nameless(inner.get()),
    }
}

/// The value of an expression over an empty row. If the expression names no column, this is its value over
/// every row.
pub fn constant_value(alloc: Global, expr: &Expr) -> Result<Value, AllocError>
    ensures { IfOk result (IsValue expr.now [] []) }
{
    let row = List::new(alloc);
    let places = List::new(alloc);
    value_of(alloc, expr, &row, &places)
}

/// The value that an expression without columns, such as a number, a text, `-5` or `2 * 3`, has over every
/// row. It is NULL if it is outside 64 bits. `None` if the expression names a column.
pub(crate) fn constant_of(alloc: Global, expr: &Expr) -> Result<Option<Value>, AllocError>
    ensures found { IfOk result (λ found. is_some found ≡ is_nameless expr.now) }
    ensures value { IfOk result (λ found. IfSome found (IsConstant expr.now)) }
{
    if !is_nameless(expr) {
        return Ok(None);
    }
    let value = constant_value(alloc, expr)?;
    Ok(Some(value))
}
