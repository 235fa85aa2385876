//! Aggregates over the values of a group.

ghost use Rattle.std.specs.Prelude.{◌≡◌, ◌++◌, ◌∷◌, [], List as Items, map, length, pos, IfOk, OnOk};
ghost use Rattle.std.specs.List.{fold};
ghost use Rattle.group_eval.specs.Types.{Value as Seen};
ghost use Rattle.group_eval.specs.inner.Folding.{value_over};
ghost use Rattle.sql_model.specs.Kinds.{names_in};
ghost use Rattle.sql_model.specs.Meaning.{aggregate_of, known_values, lesser_of, greater_of, number_in, number_value};
ghost use Rattle.sql_model.specs.Meaning.{total, or_null};
ghost use Rattle.sql_model.specs.declared.expr.Fold.TheVariants.{Sum, Min, Max};
ghost use Rattle.sql_model.specs.Scope.{InScope, places_in};

use ldv_value::{CopyItem, List, Places, Value, Values};
use lineage::Pick;
use sql_model::{Expr, Fold, value_of};
use std::alloc::{AllocError, Global};

/// A count as a value; NULL if it is above 2^63 - 1.
pub(crate) fn count_value(count: usize) -> Value
    ensures { result ≡ number_value (pos count) }
{
    if count < 0x8000_0000_0000_0000 {
        Value::Int(count as i64)
    } else {
        Value::Null
    }
}

// A sum as a value; NULL where it is no signed number of 64 bits.
fn sum_value(sum: i128) -> Value
    ensures { result ≡ number_value sum }
{
    if sum < -0x8000_0000_0000_0000 {
        return Value::Null;
    }
    if sum > 0x7fff_ffff_ffff_ffff {
        return Value::Null;
    }
    Value::Int(sum as i64)
}

// The number in a value, 0 where there is none.
fn number_in(value: &Value) -> i64
    ensures { result ≡ number_in value.now }
{
    match value {
        Value::Null => 0,
        Value::Int(number) => *number,
        Value::Text(_) => 0,
    }
}

// The exact sum of numbers. That of fewer than 2^64 numbers of 64 bits stays within 128 bits.
fn total(values: &[Value]) -> i128
    ensures { result ≡ total values.now }
{
    let mut sum: i128 = 0;
    for value in values {
        sum += number_in(value) as i128;
    }
    sum
}

fn sum_of(values: &[Value]) -> Value
    ensures { result ≡ aggregate_of Sum values.now }
{
    match values {
        [] => Value::Null,
        [_first, ..] => sum_value(total(values)),
    }
}

fn lesser_of<'a>(a: &'a Value, b: &'a Value) -> &'a Value
    ensures { result.now ≡ lesser_of a.now b.now }
{
    if b.cmp(a).is_lt() { b } else { a }
}

fn greater_of<'a>(a: &'a Value, b: &'a Value) -> &'a Value
    ensures { result.now ≡ greater_of a.now b.now }
{
    if b.cmp(a).is_gt() { b } else { a }
}

// The least of one value and more.
fn minimum_of<'a>(first: &'a Value, others: &'a [Value]) -> &'a Value
    ensures { result.now ≡ fold lesser_of first.now others.now }
{
    let mut best = first;
    for value in others {
        best = lesser_of(best, value);
    }
    best
}

// The greatest of one value and more.
fn maximum_of<'a>(first: &'a Value, others: &'a [Value]) -> &'a Value
    ensures { result.now ≡ fold greater_of first.now others.now }
{
    let mut best = first;
    for value in others {
        best = greater_of(best, value);
    }
    best
}

fn least_of(alloc: Global, values: &[Value]) -> Result<Value, AllocError>
    ensures { IfOk result (λ value. value ≡ aggregate_of Min values.now) }
{
    match values {
        [] => Ok(Value::Null),
        [first, others @ ..] => minimum_of(first, others).copy_item(alloc),
    }
}

fn greatest_of(alloc: Global, values: &[Value]) -> Result<Value, AllocError>
    ensures { IfOk result (λ value. value ≡ aggregate_of Max values.now) }
{
    match values {
        [] => Ok(Value::Null),
        [first, others @ ..] => maximum_of(first, others).copy_item(alloc),
    }
}

/// An aggregate of values, none of which is NULL.
pub(crate) fn fold_known(alloc: Global, fold: Fold, values: &[Value]) -> Result<Value, AllocError>
    ensures { IfOk result (λ value. value ≡ aggregate_of fold values.now) }
{
    match fold {
        Fold::Count => Ok(count_value(values.len())),
        Fold::Sum => Ok(sum_of(values)),
        Fold::Min => least_of(alloc, values),
        Fold::Max => greatest_of(alloc, values),
    }
}

// Appends a value that isn't NULL.
fn push_known(values: &mut Values, value: Value) -> Result<(), AllocError>
    ensures { OnOk result (values.new ≡ values.old ++ known_values (value ∷ [])) }
{
    match value {
        Value::Null => Ok(()),
        Value::Int(number) => values.push(Value::Int(number)),
        Value::Text(text) => values.push(Value::Text(text)),
    }
}

// The values of an expression over the picks of a group, without NULL.
fn values_over(
    alloc: Global,
    expr: &Expr,
    places: &Places,
    group: &[&Pick],
) -> Result<Values, AllocError>
    ensures { IfOk result (λ values. (scope : Items InScope)
        → places_in scope (names_in expr.now) ≡ places.now
        → values ≡ known_values (map (value_over scope expr.now) (map (λ r. r.now) group.now))) }
{
    let mut values = List::new(alloc);
    for pick in group {
        push_known(&mut values, value_of(alloc, expr, &pick.values, places)?)?;
    }
    Ok(values)
}

/// An aggregate of an expression over the picks of a group. `places` has the place in the joined row, from 0,
/// of each column that the expression names, from left to right. NULLs are left out.
pub(crate) fn aggregate(
    alloc: Global,
    fold: Fold,
    expr: &Expr,
    places: &Places,
    group: &[&Pick],
) -> Result<Value, AllocError>
    ensures { IfOk result (λ value. (scope : Items InScope) → places_in scope (names_in expr.now) ≡ places.now
        → value ≡ aggregate_of fold
        (known_values (map (value_over scope expr.now) (map (λ r. r.now) group.now)))) }
{
    let values = values_over(alloc, expr, places, group)?;
    fold_known(alloc, fold, values.items())
}
