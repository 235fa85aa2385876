//! The value and the truth of an expression over one row.

ghost use Rattle.std.specs.Prelude.{◌≡◌, ◌∷◌, [], drop, IfOk, OnOk};
ghost use Rattle.ldv_value.specs.Order.{test_of};
ghost use Rattle.sql_model.specs.Evaluation.{eval_at, column_at, IsValue, IsTruth};
ghost use Rattle.sql_model.specs.Meaning.{negation_of, value_both, aggregate_of, known_values};

use crate::arithmetic::{difference, negate, product, sum};
use crate::expr::{Expr, Fold, Operator};
use crate::key::value_at;
use crate::truths::{and_truth, comparison_truth, not_truth, null_truth, or_truth};
use ldv_value::{Cmp, CopyItem, Places, Truth, Value, Values};
use std::alloc::{AllocError, Global};

/// The value of an expression over a row. `places` has the place in the row, from 0, of each column that the
/// expression names, from left to right, as some scope gives them. An aggregate is taken over this one row,
/// and a condition has the value NULL.
pub fn value_of(
    alloc: Global,
    expr: &Expr,
    row: &Values,
    places: &Places,
) -> Result<Value, AllocError>
    ensures { IfOk result (IsValue expr.now row.now places.now) }
{
    let mut at = 0;
    let value = value_in(alloc, expr, row, places, &mut at)?;
    Ok(value)
}

/// The truth of a condition over a row, with `places` as in `value_of`. An expression that isn't a condition
/// has the truth Unknown.
pub fn truth_of(
    alloc: Global,
    expr: &Expr,
    row: &Values,
    places: &Places,
) -> Result<Truth, AllocError>
    ensures { IfOk result (IsTruth expr.now row.now places.now) }
{
    let mut at = 0;
    let truth = truth_in(alloc, expr, row, places, &mut at)?;
    Ok(truth)
}

// The value by the places from `at` on; afterwards `at` is after those of the expression.
fn value_in(
    alloc: Global,
    expr: &Expr,
    row: &Values,
    places: &Places,
    at: &mut usize,
) -> Result<Value, AllocError>
    ensures value { IfOk result (λ value.
        value ≡ (eval_at row.now expr.now (drop at.old places.now)).meaning.value) }
    ensures rest { OnOk result
        (drop at.new places.now ≡ (eval_at row.now expr.now (drop at.old places.now)).rest) }
{
    match expr {
        Expr::Constant(value) => value.copy_item(alloc),
        Expr::Column(_) => next_value(alloc, row, places, at),
        Expr::Negate(inner) => {
            let value = value_in(alloc, inner.get(), row, places, at)?;
            Ok(minus(&value))
        }
        Expr::Not(inner) => {
            let _value = value_in(alloc, inner.get(), row, places, at)?;
            Ok(Value::Null)
        }
        Expr::Both(operator, left, right) => {
            let left = value_in(alloc, left.get(), row, places, at)?;
            let right = value_in(alloc, right.get(), row, places, at)?;
            Ok(calculate(*operator, &left, &right))
        }
        Expr::IsNull(inner, _) => {
            let _value = value_in(alloc, inner.get(), row, places, at)?;
            Ok(Value::Null)
        }
        Expr::Aggregate(_, None) => Ok(Value::Int(1)),
        Expr::Aggregate(fold, Some(inner)) => {
            let value = value_in(alloc, inner.get(), row, places, at)?;
            Ok(folded_one(*fold, value))
        }
    }
}

// The truth by the places from `at` on; afterwards `at` is after those of the expression.
fn truth_in(
    alloc: Global,
    expr: &Expr,
    row: &Values,
    places: &Places,
    at: &mut usize,
) -> Result<Truth, AllocError>
    ensures truth { IfOk result (λ truth.
        truth ≡ (eval_at row.now expr.now (drop at.old places.now)).meaning.truth) }
    ensures rest { OnOk result
        (drop at.new places.now ≡ (eval_at row.now expr.now (drop at.old places.now)).rest) }
{
    match expr {
        Expr::Constant(_) => no_truth(alloc, expr, row, places, at),
        Expr::Column(_) => no_truth(alloc, expr, row, places, at),
        Expr::Negate(_) => no_truth(alloc, expr, row, places, at),
        Expr::Not(inner) => {
            let truth = truth_in(alloc, inner.get(), row, places, at)?;
            Ok(not_truth(truth))
        }
        Expr::Both(operator, left, right) => match operator {
            Operator::Add => no_truth(alloc, expr, row, places, at),
            Operator::Subtract => no_truth(alloc, expr, row, places, at),
            Operator::Multiply => no_truth(alloc, expr, row, places, at),
            Operator::Compare(test) => {
                comparison(alloc, *test, left.get(), right.get(), row, places, at)
            }
            Operator::And => {
                let left = truth_in(alloc, left.get(), row, places, at)?;
                Ok(and_truth(left, truth_in(alloc, right.get(), row, places, at)?))
            }
            Operator::Or => {
                let left = truth_in(alloc, left.get(), row, places, at)?;
                Ok(or_truth(left, truth_in(alloc, right.get(), row, places, at)?))
            }
        },
        Expr::IsNull(inner, negative) => {
            let value = value_in(alloc, inner.get(), row, places, at)?;
            Ok(null_truth(*negative, &value))
        }
        Expr::Aggregate(_, None) => no_truth(alloc, expr, row, places, at),
        Expr::Aggregate(_, Some(_)) => no_truth(alloc, expr, row, places, at),
    }
}

// Unknown, the truth of an expression that has a value. Its places are passed.
fn no_truth(
    alloc: Global,
    expr: &Expr,
    row: &Values,
    places: &Places,
    at: &mut usize,
) -> Result<Truth, AllocError>
    ensures truth { IfOk result (λ truth. truth ≡ Truth.Unknown) }
    ensures rest { OnOk result
        (drop at.new places.now ≡ (eval_at row.now expr.now (drop at.old places.now)).rest) }
{
    let _value = value_in(alloc, expr, row, places, at)?;
    Ok(Truth::Unknown)
}

// The truth of a comparison of two expressions.
fn comparison(
    alloc: Global,
    test: Cmp,
    left: &Expr,
    right: &Expr,
    row: &Values,
    places: &Places,
    at: &mut usize,
) -> Result<Truth, AllocError>
    ensures truth { IfOk result (λ truth.
        let first = eval_at row.now left.now (drop at.old places.now) in
        truth ≡ test_of test first.meaning.value (eval_at row.now right.now first.rest).meaning.value) }
    ensures rest { OnOk result (
        let first = eval_at row.now left.now (drop at.old places.now) in
        drop at.new places.now ≡ (eval_at row.now right.now first.rest).rest) }
{
    let left = value_in(alloc, left, row, places, at)?;
    let right = value_in(alloc, right, row, places, at)?;
    Ok(comparison_truth(test, &left, &right))
}

// The value at the next place.
fn next_value(
    alloc: Global,
    row: &Values,
    places: &Places,
    at: &mut usize,
) -> Result<Value, AllocError>
    ensures value { IfOk result (λ value.
        value ≡ (column_at row.now (drop at.old places.now)).meaning.value) }
    ensures rest { OnOk result (drop at.new places.now ≡ (column_at row.now (drop at.old places.now)).rest) }
{
    match places.get(*at) {
        None => Ok(Value::Null),
        Some(place) => {
            let value = value_at(alloc, row, *place)?;
            *at += 1;
            Ok(value)
        }
    }
}

// Minus a value: NULL where it isn't a number, or the result isn't one of 64 bits.
fn minus(value: &Value) -> Value
    ensures { result ≡ negation_of value.now }
{
    match value {
        Value::Null => Value::Null,
        Value::Int(number) => negate(*number),
        Value::Text(_) => Value::Null,
    }
}

// The value of an operator: NULL for those that have a truth.
fn calculate(operator: Operator, left: &Value, right: &Value) -> Value
    ensures { result ≡ value_both operator left.now right.now }
{
    match operator {
        Operator::Add => sum(left, right),
        Operator::Subtract => difference(left, right),
        Operator::Multiply => product(left, right),
        Operator::Compare(_) => Value::Null,
        Operator::And => Value::Null,
        Operator::Or => Value::Null,
    }
}

// An aggregate over one row.
#[tactic(auto, using(crate::proofs::CheckedNumbers::checked_numbers))]
fn folded_one(fold: Fold, value: Value) -> Value
    ensures { result ≡ aggregate_of fold (known_values (value ∷ [])) }
{
    match value {
        Value::Null => match fold {
            Fold::Count => Value::Int(0),
            Fold::Sum => Value::Null,
            Fold::Min => Value::Null,
            Fold::Max => Value::Null,
        },
        Value::Int(number) => match fold {
            Fold::Count => Value::Int(1),
            Fold::Sum => Value::of_number(number.checked_add(0)),
            Fold::Min => Value::Int(number),
            Fold::Max => Value::Int(number),
        },
        Value::Text(text) => match fold {
            Fold::Count => Value::Int(1),
            Fold::Sum => Value::Int(0),
            Fold::Min => Value::Text(text),
            Fold::Max => Value::Text(text),
        },
    }
}
