//! Sorting by answer columns.

ghost use Rattle.std.specs.Prelude.{◌≡◌, [], map, IfOk};
ghost use Rattle.ldv_value.specs.Order.{order};
ghost use Rattle.query_eval.specs.Finishing.{as_key, sort_columns, by_columns};
ghost use Rattle.query_eval.specs.inner.Abbreviating.{by_keys};
ghost use Rattle.sql_model.specs.QueryAnswer.{order_in_direction, order_by};
ghost use Rattle.ldv_value.specs.Cells.{value_at};
ghost use Rattle.sql_model.specs.Sorting.{sorted_by};

use crate::abbreviated::{KeyedAnswer, compare_keyed, keyed_answers, without_keys};
use ldv_value::{Value, Values};
use lineage::Answers;
use sql_model::{Order, value_or};
use std::alloc::{AllocError, Global};
use std::cmp::Ordering;

/// An answer column by its place, from 0, and whether its order is descending.
#[derive(Clone, Copy)]
pub struct SortColumn {
    pub place: usize,
    pub descending: bool,
}

/// The columns to sort by: the places of the keys of ORDER BY, each with its direction.
pub(crate) fn sort_columns(
    alloc: Global,
    places: &[usize],
    parts: &[Order],
) -> Result<Vec<SortColumn>, AllocError>
    ensures { IfOk result (λ columns. columns.items ≡ sort_columns places.now parts.now) }
{
    let mut columns = Vec::new(alloc);
    let mut left = places;
    let mut right = parts;
    'columns: loop {
        match left {
            [] => return Ok(columns),
            [place, places @ ..] => match right {
                [] => return Ok(columns),
                [part, parts @ ..] => {
                    columns.push(SortColumn {
                        place: *place,
                        descending: part.descending,
                    })?;
                    left = places;
                    right = parts;
                }
            },
        }
    }
}

/// Answers sorted by columns. Answers that are the same in all of these keep their order. Each is sorted
/// beside an abbreviated key, as its values stand elsewhere in memory.
pub(crate) fn sort_answers(columns: &[SortColumn], answers: Answers) -> Result<Answers, AllocError>
    ensures { IfOk result (λ sorted. sorted ≡ sorted_by (by_columns columns.now) answers) }
{
    if columns.is_empty() {
        return Ok(answers);
    }
    sort_beside_keys(columns, answers)
}

// Answers sorted by columns, each beside its key meanwhile.
#[tactic(auto, using(crate::proofs::Abbreviations::sorted_keyed))]
fn sort_beside_keys(columns: &[SortColumn], answers: Answers) -> Result<Answers, AllocError>
    ensures { IfOk result (λ sorted. sorted ≡ sorted_by (by_columns columns.now) answers) }
{
    let alloc = answers.allocator();
    let keyed = keyed_answers(alloc, columns, answers)?;
    let sorted = sort_keyed(columns, keyed)?;
    without_keys(alloc, sorted)
}

fn sort_keyed(
    columns: &[SortColumn],
    keyed: Vec<KeyedAnswer>,
) -> Result<Vec<KeyedAnswer>, AllocError>
    ensures { IfOk result (λ sorted. sorted.items ≡ sorted_by (by_keys columns.now) keyed.items) }
{
    let mut items = keyed;
    items.sort_by(|a, b| compare_keyed(columns, a, b))?;
    Ok(items)
}

/// Compares rows by columns.
pub(crate) fn compare_rows(columns: &[SortColumn], a: &Values, b: &Values) -> Ordering
    ensures { result ≡ order_by (map as_key columns.now) a.now b.now }
{
    let mut left = columns;
    'columns: loop {
        match left {
            [] => return Ordering::Equal,
            [column, rest @ ..] => {
                let between = compare_by(*column, a, b);
                if between.is_ne() {
                    return between;
                }
                left = rest;
            }
        }
    }
}

fn compare_by(column: SortColumn, a: &Values, b: &Values) -> Ordering
    ensures { result
        ≡ order_in_direction column.descending
        (order (value_at a.now column.place) (value_at b.now column.place)) }
{
    let null = Value::Null;
    let between = value_or(a, column.place, &null).cmp(value_or(b, column.place, &null));
    in_direction(column.descending, between)
}

/// The opposite of an order where it is descending.
pub(crate) fn in_direction(descending: bool, between: Ordering) -> Ordering
    ensures { result ≡ order_in_direction descending between }
{
    if descending {
        between.reverse()
    } else {
        between
    }
}
