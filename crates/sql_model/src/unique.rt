//! Whether two rows have one key. No key is copied: rows are sorted by reference.

ghost use Rattle.std.specs.Prelude.{◌≡◌, IfOk, List, [], Some, map, refl};
ghost use Rattle.std.specs.Cmp.Lexicographic.{slice_cmp};
ghost use Rattle.std.specs.Cmp.{eq_by_cmp_equiv, partial_order_from_agreeing_total, partial_equiv_from_equiv};
ghost use Rattle.std.specs.Cmp.Rules.{comparing};
ghost use Rattle.std.specs.Ordering.{eq_by_cmp};
ghost use Rattle.std.proofs.Common.{rules};
ghost use Rattle.ldv_value.specs.Order.{order, values_order, values_total};
ghost use Rattle.ldv_value.specs.declared.value.Value.{Value};
ghost use Rattle.sql_model.specs.Keys.{matches_first, has_same_neighbours, has_two_of_a_key, repeats, values_at};
ghost use Rattle.ldv_value.specs.Cells.{value_at};
ghost use Rattle.ldv_value.specs.declared.value.Value.TheVariants.{Null};

use crate::table::TableRow;
use ldv_value::{Places, Value, Values};
use std::alloc::{AllocError, Global};
use std::cmp::Ordering;
use std::marker::Model;

/// A row: a value for each column of its table.
pub trait HasValues {
    /// The values.
    ghost cells: { Self → List Value };

    /// The values.
    fn values(&self) -> &Values
        ensures { result.now ≡ cells self.now };
}

impl HasValues for Values {
    ghost cells = { λ values. values };

    fn values(&self) -> &Values {
        self
    }
}

impl HasValues for TableRow {
    ghost cells = { λ row. row.values };

    fn values(&self) -> &Values {
        &self.values
    }
}

/// The values of a row at some places, from 0, as a key of a set or a map, without a copy. Keys are ordered
/// value by value, and NULL equals NULL. A place past the end of the row has NULL.
#[derive(Drop)]
pub struct KeyOf<'a> {
    row: &'a Values,
    places: &'a Places,
}

impl<'a> Model for KeyOf<'a> {
    ghost use Rattle.ldv_value.specs.declared.value.Value.{Value as Seen};
    ghost use Rattle.sql_model.specs.Keys.{values_at};
    ghost use Rattle.std.specs.Prelude.{List as Items};

    ghost Value = { Items Seen };

    ghost view = { λ k. values_at k.places.now k.row.now };
}

impl<'a> KeyOf<'a> {
    /// The values of a row at some places.
    pub fn of(row: &'a Values, places: &'a Places) -> KeyOf<'a>
        ensures { result ≡ values_at places.now row.now }
    {
        KeyOf { row, places }
    }
}

impl<'a> PartialEq for KeyOf<'a> {
    ghost eq = { λ x y. eq_by_cmp values_order x y };

    ghost laws = { partial_equiv_from_equiv (eq_by_cmp_equiv values_total) };

    fn eq(&self, other: &KeyOf<'a>) -> bool {
        self.cmp(other).is_eq()
    }
}

impl<'a> Eq for KeyOf<'a> {
    ghost laws = { eq_by_cmp_equiv values_total };
}

impl<'a> PartialOrd for KeyOf<'a> {
    ghost partial_cmp = { λ x y. Some (values_order x y) };

    ghost laws = { partial_order_from_agreeing_total values_order values_total (λ x y. refl) (λ x y. refl) };

    fn partial_cmp(&self, other: &KeyOf<'a>) -> Option<Ordering> {
        Some(self.cmp(other))
    }
}

impl<'a> Ord for KeyOf<'a> {
    ghost cmp = { λ x y. values_order x y };

    ghost total = { values_total };

    ghost matches_partial_cmp = { Prim.search (comparing, rules) };

    ghost matches_eq = { λ x y. refl };

    fn cmp(&self, other: &KeyOf<'a>) -> Ordering {
        compare_keys(
            self.row,
            self.places.items(),
            other.row,
            other.places.items(),
        )
    }
}

fn compare_keys(row: &Values, places: &[usize], other: &Values, others: &[usize]) -> Ordering
    ensures { let key = map (value_at row.now) places.now in
        result ≡ slice_cmp order key (map (value_at other.now) others.now) }
{
    let mut left = places;
    let mut right = others;
    loop {
        match left {
            [] => return compare_length(right),
            [first, rest @ ..] => match right {
                [] => return Ordering::Greater,
                [second, more @ ..] => {
                    let between = compare_at(row, *first, other, *second);
                    if between.is_ne() {
                        return between;
                    }
                    left = rest;
                    right = more;
                }
            },
        }
    }
}

// How no places compare to some.
fn compare_length(places: &[usize]) -> Ordering
    ensures { (row : List Value) → result ≡ slice_cmp order [] (map (value_at row) places.now) }
{
    match places {
        [] => Ordering::Equal,
        [_first, ..] => Ordering::Less,
    }
}

fn compare_at(row: &Values, place: usize, other: &Values, at: usize) -> Ordering
    ensures { result ≡ order (value_at row.now place) (value_at other.now at) }
{
    let null = Value::Null;
    value_or(row, place, &null).cmp(value_or(other, at, &null))
}

/// The value of a row at a place, from 0. If the row has no value there, it is `null`, which the caller gives
/// as NULL.
pub fn value_or<'a>(row: &'a Values, place: usize, null: &'a Value) -> &'a Value
    requires { null.now ≡ Null }
    ensures { result.now ≡ value_at row.now place }
{
    match row.get(place) {
        None => null,
        Some(value) => value,
    }
}

/// Whether two rows have the same values in the key's columns, at the given places, from 0. It is false if
/// there is no key column.
pub fn has_key_twice<R: HasValues>(
    alloc: Global,
    places: &Places,
    rows: &[R],
) -> Result<bool, AllocError>
    ensures { IfOk result (λ twice. twice ≡ has_two_of_a_key places.now (map R.cells rows.now)) }
{
    if places.is_empty() {
        return Ok(false);
    }
    let keys = keys_of(alloc, places, rows)?;
    Ok(has_item_twice(keys))
}

fn keys_of<'a, R: HasValues>(
    alloc: Global,
    places: &'a Places,
    rows: &'a [R],
) -> Result<Vec<KeyOf<'a>>, AllocError>
    ensures { IfOk result (λ keys. keys.items ≡ map (λ row. values_at places.now (R.cells row)) rows.now) }
{
    let mut keys = Vec::with_capacity(alloc, rows.len())?;
    for row in rows {
        keys.push(KeyOf::of(row.values(), places))?;
    }
    Ok(keys)
}

// Whether some item is the same as a later one: the same items are neighbours where they are sorted.
fn has_item_twice<K: Ord + Drop>(items: Vec<K>) -> bool
    ensures { result ≡ repeats (eq_by_cmp K.cmp) items.items }
{
    let mut sorted = items;
    sorted.sort_unstable();
    has_same_neighbours(sorted.as_slice())
}

fn has_same_neighbours<K: Ord>(items: &[K]) -> bool
    ensures { result ≡ has_same_neighbours (eq_by_cmp K.cmp) items.now }
{
    let mut left = items;
    loop {
        match left {
            [] => return false,
            [first, rest @ ..] => {
                if is_first(first, rest) {
                    return true;
                }
                left = rest;
            }
        }
    }
}

fn is_first<K: Ord>(item: &K, rest: &[K]) -> bool
    ensures { result ≡ matches_first (eq_by_cmp K.cmp) item.now rest.now }
{
    match rest {
        [] => false,
        [next, ..] => item.cmp(next).is_eq(),
    }
}
