//! Answers beside abbreviated keys: what decides most comparisons of a sort without a look at the values.

ghost use Rattle.std.specs.Prelude.{◌≡◌, map, IfOk};
ghost use Rattle.ldv_value.specs.Cells.{value_at};
ghost use Rattle.ldv_value.specs.Order.{order};
ghost use Rattle.query_eval.specs.inner.Abbreviating.{by_keys, first_descends, key_of, key_of_value, with_key};
ghost use Rattle.query_eval.specs.inner.Abbreviating.{value_of_key};
ghost use Rattle.sql_model.specs.QueryAnswer.{order_in_direction};

use crate::sort::{SortColumn, compare_rows, in_direction};
use ldv_value::{List, Value, Values};
use lineage::{Answer, Answers};
use sql_model::value_or;
use std::alloc::{AllocError, Global};
use std::cmp::Ordering;

/// The value of an answer's first sort column, without the bytes of a text. NULL stands for it where there is
/// no column to sort by.
#[derive(Clone, Copy)]
pub(crate) enum AbbreviatedKey {
    Null,
    Int(i64),
    Text,
}

/// An answer beside its key.
#[derive(Drop)]
pub(crate) struct KeyedAnswer {
    pub(crate) key: AbbreviatedKey,
    pub(crate) answer: Answer,
}

/// Answers beside their keys, in the same order.
pub(crate) fn keyed_answers(
    alloc: Global,
    columns: &[SortColumn],
    answers: Answers,
) -> Result<Vec<KeyedAnswer>, AllocError>
    ensures { IfOk result (λ made. made.items ≡ map (with_key columns.now) answers) }
{
    let mut made = Vec::with_capacity(alloc, answers.len())?;
    for answer in answers.into_vec() {
        let key = key_of(columns, &answer.values);
        made.push(KeyedAnswer { key, answer })?;
    }
    Ok(made)
}

/// Answers without their keys, in the same order.
pub(crate) fn without_keys(alloc: Global, keyed: Vec<KeyedAnswer>) -> Result<Answers, AllocError>
    ensures { IfOk result (λ made. made ≡ map (λ (each : KeyedAnswer). each.answer) keyed.items) }
{
    let mut made = List::with_capacity(alloc, keyed.len())?;
    for each in keyed {
        made.push(each.answer)?;
    }
    Ok(made)
}

/// Compares answers by their keys, and by all columns where these are the same.
pub(crate) fn compare_keyed(columns: &[SortColumn], a: &KeyedAnswer, b: &KeyedAnswer) -> Ordering
    ensures { result ≡ by_keys columns.now a.now b.now }
{
    let between = in_direction(first_descends(columns), compare_keys(a.key, b.key));
    if between.is_ne() {
        return between;
    }
    compare_rows(columns, &a.answer.values, &b.answer.values)
}

fn first_descends(columns: &[SortColumn]) -> bool
    ensures { result ≡ first_descends columns.now }
{
    match columns {
        [] => false,
        [column, ..] => column.descending,
    }
}

fn key_of(columns: &[SortColumn], values: &Values) -> AbbreviatedKey
    ensures { result ≡ key_of columns.now values.now }
{
    match columns {
        [] => AbbreviatedKey::Null,
        [column, ..] => key_at(values, column.place),
    }
}

fn key_at(values: &Values, place: usize) -> AbbreviatedKey
    ensures { result ≡ key_of_value (value_at values.now place) }
{
    let null = Value::Null;
    key_of_value(value_or(values, place, &null))
}

fn key_of_value(value: &Value) -> AbbreviatedKey
    ensures { result ≡ key_of_value value.now }
{
    match value {
        Value::Null => AbbreviatedKey::Null,
        Value::Int(number) => AbbreviatedKey::Int(*number),
        Value::Text(_text) => AbbreviatedKey::Text,
    }
}

// The order of values that have the keys: texts aren't told apart.
fn compare_keys(a: AbbreviatedKey, b: AbbreviatedKey) -> Ordering
    ensures { result ≡ order (value_of_key a) (value_of_key b) }
{
    match (a, b) {
        (AbbreviatedKey::Null, AbbreviatedKey::Null) => Ordering::Equal,
        (AbbreviatedKey::Null, AbbreviatedKey::Int(_)) => Ordering::Less,
        (AbbreviatedKey::Null, AbbreviatedKey::Text) => Ordering::Less,
        (AbbreviatedKey::Int(_), AbbreviatedKey::Null) => Ordering::Greater,
        (AbbreviatedKey::Int(m), AbbreviatedKey::Int(n)) => m.cmp(&n),
        (AbbreviatedKey::Int(_), AbbreviatedKey::Text) => Ordering::Less,
        (AbbreviatedKey::Text, AbbreviatedKey::Null) => Ordering::Greater,
        (AbbreviatedKey::Text, AbbreviatedKey::Int(_)) => Ordering::Greater,
        (AbbreviatedKey::Text, AbbreviatedKey::Text) => Ordering::Equal,
    }
}
