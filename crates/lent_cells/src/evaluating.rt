//! The value and the truth of an expression over a row of lent cells. Nothing is allocated, so nothing fails.

ghost use Rattle.std.specs.Prelude.{◌≡◌, drop};
ghost use Rattle.lent_cells.specs.Lending.{cell_value};
ghost use Rattle.ldv_value.specs.Order.{test_of};
ghost use Rattle.sql_model.specs.Evaluation.{eval_at, column_at};
ghost use Rattle.sql_model.specs.Meaning.{truth_and, truth_or, truth_not};

use crate::arithmetic::{calculate, folded_one, minus};
use crate::cell::{Cell, comparison_truth, null_truth};
use crate::row::CellsAt;
use ldv_value::{Cmp, Places, Truth};
use sql_model::{Expr, Operator};

/// The truth of a condition over a row; `places` are those of its columns.
pub fn truth_over<R: CellsAt>(expr: &Expr, row: &R, places: &Places) -> Truth
    ensures { result ≡ (eval_at (R.listed row.now) expr.now (drop 0 places.now)).meaning.truth }
{
    let mut at = 0;
    truth_in(expr, row, places, &mut at)
}

// The value by the places from `at` on; afterwards `at` is after those of the expression.
fn value_in<'a, R: CellsAt>(expr: &'a Expr, row: &'a R, places: &Places, at: &mut usize) -> Cell<'a>
    ensures value { cell_value result
        ≡ (eval_at (R.listed row.now) expr.now (drop at.old places.now)).meaning.value }
    ensures rest { drop at.new places.now
        ≡ (eval_at (R.listed row.now) expr.now (drop at.old places.now)).rest }
{
    match expr {
        Expr::Constant(value) => Cell::of(value),
        Expr::Column(_) => next_value(row, places, at),
        Expr::Negate(inner) => minus(value_in(inner.get(), row, places, at)),
        Expr::Not(inner) => {
            let _value = value_in(inner.get(), row, places, at);
            Cell::Null
        }
        Expr::Both(operator, left, right) => {
            let left = value_in(left.get(), row, places, at);
            let right = value_in(right.get(), row, places, at);
            calculate(*operator, left, right)
        }
        Expr::IsNull(inner, _) => {
            let _value = value_in(inner.get(), row, places, at);
            Cell::Null
        }
        Expr::Aggregate(_, None) => Cell::Int(1),
        Expr::Aggregate(fold, Some(inner)) => {
            let value = value_in(inner.get(), row, places, at);
            folded_one(*fold, value)
        }
    }
}

// The value at the next place.
fn next_value<'a, R: CellsAt>(row: &'a R, places: &Places, at: &mut usize) -> Cell<'a>
    ensures value { cell_value result
        ≡ (column_at (R.listed row.now) (drop at.old places.now)).meaning.value }
    ensures rest { drop at.new places.now ≡ (column_at (R.listed row.now) (drop at.old places.now)).rest }
{
    match places.get(*at) {
        None => Cell::Null,
        Some(place) => {
            *at += 1;
            row.cell(*place)
        }
    }
}

// The truth by the places from `at` on; afterwards `at` is after those of the expression.
fn truth_in<R: CellsAt>(expr: &Expr, row: &R, places: &Places, at: &mut usize) -> Truth
    ensures truth { result ≡ (eval_at (R.listed row.now) expr.now (drop at.old places.now)).meaning.truth }
    ensures rest { drop at.new places.now
        ≡ (eval_at (R.listed row.now) expr.now (drop at.old places.now)).rest }
{
    match expr {
        Expr::Constant(_) => no_truth(expr, row, places, at),
        Expr::Column(_) => no_truth(expr, row, places, at),
        Expr::Negate(_) => no_truth(expr, row, places, at),
        Expr::Not(inner) => not_truth(truth_in(inner.get(), row, places, at)),
        Expr::Both(operator, left, right) => match operator {
            Operator::Add => no_truth(expr, row, places, at),
            Operator::Subtract => no_truth(expr, row, places, at),
            Operator::Multiply => no_truth(expr, row, places, at),
            Operator::Compare(test) => comparison(*test, left.get(), right.get(), row, places, at),
            Operator::And => {
                let left = truth_in(left.get(), row, places, at);
                let right = truth_in(right.get(), row, places, at);
                and_truth(left, right)
            }
            Operator::Or => {
                let left = truth_in(left.get(), row, places, at);
                let right = truth_in(right.get(), row, places, at);
                or_truth(left, right)
            }
        },
        Expr::IsNull(inner, negative) => {
            let value = value_in(inner.get(), row, places, at);
            null_truth(*negative, value)
        }
        Expr::Aggregate(_, None) => no_truth(expr, row, places, at),
        Expr::Aggregate(_, Some(_)) => no_truth(expr, row, places, at),
    }
}

// Unknown, the truth of an expression that has a value. Its places are passed.
fn no_truth<R: CellsAt>(expr: &Expr, row: &R, places: &Places, at: &mut usize) -> Truth
    ensures truth { result ≡ Truth.Unknown }
    ensures rest { drop at.new places.now
        ≡ (eval_at (R.listed row.now) expr.now (drop at.old places.now)).rest }
{
    let _value = value_in(expr, row, places, at);
    Truth::Unknown
}

// The truth of a comparison of two expressions.
fn comparison<R: CellsAt>(
    test: Cmp,
    left: &Expr,
    right: &Expr,
    row: &R,
    places: &Places,
    at: &mut usize,
) -> Truth
    ensures truth { let first = eval_at (R.listed row.now) left.now (drop at.old places.now) in
        let second = eval_at (R.listed row.now) right.now first.rest in
        result ≡ test_of test first.meaning.value second.meaning.value }
    ensures rest { let first = eval_at (R.listed row.now) left.now (drop at.old places.now) in
        drop at.new places.now ≡ (eval_at (R.listed row.now) right.now first.rest).rest }
{
    let left = value_in(left, row, places, at);
    let right = value_in(right, row, places, at);
    comparison_truth(test, left, right)
}

fn not_truth(truth: Truth) -> Truth
    ensures { result ≡ truth_not truth }
{
    match truth {
        Truth::True => Truth::False,
        Truth::False => Truth::True,
        Truth::Unknown => Truth::Unknown,
    }
}

fn and_truth(left: Truth, right: Truth) -> Truth
    ensures { result ≡ truth_and left right }
{
    match left {
        Truth::True => right,
        Truth::False => Truth::False,
        Truth::Unknown => match right {
            Truth::True => left,
            Truth::False => right,
            Truth::Unknown => left,
        },
    }
}

fn or_truth(left: Truth, right: Truth) -> Truth
    ensures { result ≡ truth_or left right }
{
    match left {
        Truth::True => Truth::True,
        Truth::False => right,
        Truth::Unknown => match right {
            Truth::True => right,
            Truth::False => left,
            Truth::Unknown => left,
        },
    }
}
