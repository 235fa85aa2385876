//! The index over the key of a table.

ghost use Rattle.std.specs.Prelude.{◌≡◌, ◌==◌, ℕ, ℤ, ◌+◌, ◌^◌, ◌<◌, ◌≤◌, ◌&&◌, Bool, true, false, List, [], ◌∷◌};
ghost use Rattle.std.specs.Prelude.{◌++◌, cond, if◌then◌else◌, Option, Some, None, find, OnOk, OnErr, IfOk};
ghost use Rattle.std.specs.Prelude.{IsSome, length, map, slice_index_or, unwrap_or};
ghost use Rattle.table_store.specs.Types.{RowKey};
ghost use Rattle.std.specs.BTreeMap.{get, is_at};
ghost use Rattle.std.specs.Option.{option_map, option_to_list, option_or};
ghost use Rattle.std.specs.Ordering.{int_cmp};
ghost use Rattle.ldv_value.specs.Order.{values_order};
ghost use Rattle.sql_model.specs.KeyOrder.{key_order};
ghost use Rattle.ldv_value.specs.Cells.{value_at};
ghost use Rattle.sql_model.specs.Keys.{values_at, key_at};
ghost use Rattle.sql_model.specs.Tables.{are_keys_unique};
ghost use Rattle.sql_model.specs.References.{has_key};
ghost use Rattle.table_store.specs.Histories.{rows_now, row_now, no_history};
ghost use Rattle.table_store.specs.IndexView.{held_as, held_in};
ghost use Rattle.table_store.specs.NewKeys.{new_in, numbers_from, AreBelow};
ghost use Rattle.table_store.specs.KeyIndex.{int_of, int_key, last_under, AreHeld, AreIndexed};

use crate::keys::key_map::KeyMap;
use crate::keys::new_keys::NewKeys;
use crate::rows::Rows;
use ldv_value::{List, Places, Value, Values};
use sql_model::{RowKey, TableRow, value_at};
use std::alloc::{AllocError, Global};

/// The numbers of rows by their keys. A key of one number is stored as that number, in a third of the memory
/// or less.
#[derive(Drop)]
pub(crate) struct Index {
    pub(crate) ints: KeyMap<i64>,
    pub(crate) others: KeyMap<Values>,
}

impl Index {
    /// An index with no key. It takes no memory.
    pub(crate) fn new(alloc: Global) -> Index
        ensures { (q : RowKey) → held_in result q ≡ None }
    {
        Index {
            ints: KeyMap::new(alloc),
            others: KeyMap::new(alloc),
        }
    }

    /// The number under a key.
    pub(crate) fn number(&self, key: &RowKey) -> Option<u32>
        ensures { result ≡ held_in self.now key.now }
    {
        self.number_of(&key.values)
    }

    /// The number under the key of these values. It takes no memory.
    pub(crate) fn number_of(&self, key: &Values) -> Option<u32>
        ensures { result ≡ held_in self.now (record { values = key.now }) }
    {
        match int_key(key.items()) {
            None => self.others.number(key),
            Some(int) => self.ints.number(&int),
        }
    }

    /// Stores a number under a key, and replaces the number that is there.
    pub(crate) fn put(&mut self, key: RowKey, number: u32) -> Result<(), AllocError>
        ensures ok { OnOk result ((q : RowKey)
            → held_in self.new q ≡ cond (is_at (key_order key) q) (Some number) (held_in self.old q)) }
        ensures err { OnErr result ((q : RowKey) → held_in self.new q ≡ held_in self.old q) }
    {
        match int_key(key.values.items()) {
            None => self.others.put(key.values, number),
            Some(int) => self.ints.put(int, number),
        }
    }

    /// Enters the keys of another index with their numbers. A key that has a number here keeps it.
    pub(crate) fn open_all(&mut self, other: &Index) -> Result<(), AllocError>
        ensures kept { (q : RowKey) (n : ℕ) → held_in self.old q ≡ Some n → held_in self.new q ≡ Some n }
        ensures ok { OnOk result ((q : RowKey) → IsSome (held_in other.now q)
            → IsSome (held_in self.new q)) }
    {
        self.ints.open_all(&other.ints)?;
        self.others.open_all(&other.others)?;
        Ok(())
    }

    /// Gives each key of another index the number that it has there. Each of them has a number here already,
    /// so it takes no memory.
    pub(crate) fn set_all(&mut self, other: Index)
        requires { (q : RowKey) → IsSome (held_in other q) → IsSome (held_in self.old q) }
        ensures { (q : RowKey) → held_in self.new q
            ≡ option_or (held_in other q) (held_in self.old q) }
    {
        let Index { ints, others } = other;
        self.ints.set_all(ints);
        self.others.set_all(others);
    }

    /// Gives the keys of new rows the rows' numbers, from `next` on. On `AllocError` some of them may have it
    /// already; no other key has changed.
    pub(crate) fn enter(&mut self, keys: NewKeys, next: u32) -> Result<(), AllocError>
        requires { (bound : ℕ) × AreBelow keys bound × (next + bound ≤ 2 ^ 32) }
        ensures others { (q : RowKey) → new_in keys q ≡ None → held_in self.new q ≡ held_in self.old q }
        ensures ok { OnOk result ((q : RowKey) → held_in self.new q
            ≡ option_or (numbers_from next (new_in keys) q) (held_in self.old q)) }
    {
        let NewKeys { ints, others } = keys;
        self.ints.enter(ints, next)?;
        self.others.enter(others, next)?;
        Ok(())
    }
}

/// The number of a key that is one number; `None` for any other key.
pub(crate) fn int_key(key: &[Value]) -> Option<i64>
    ensures { result ≡ int_key key.now }
{
    match key {
        [] => None,
        [value] => int_of(value),
        [_first, _second, ..] => None,
    }
}

// The number that is the whole key of a row.
fn int_at(places: &Places, values: &Values) -> Option<i64>
    ensures { result ≡ int_key (values_at places.now values.now) }
{
    match places.items() {
        [] => None,
        [place] => match values.get(*place) {
            None => None,
            Some(value) => int_of(value),
        },
        [_first, _second, ..] => None,
    }
}

// The number that a value is.
fn int_of(value: &Value) -> Option<i64>
    ensures { result ≡ int_of value.now }
{
    match value {
        Value::Null => None,
        Value::Int(number) => Some(*number),
        Value::Text(_text) => None,
    }
}

/// The index of rows. It is empty if there are no key columns.
#[tactic(auto, using(crate::proofs::IndexLaws::indexed_by))]
pub(crate) fn index_of(
    alloc: Global,
    places: &Places,
    rows: &[TableRow],
) -> Result<Index, AllocError>
    requires { are_keys_unique places.now (map (λ row. row.values) rows.now) ≡ true }
    ensures { IfOk result (λ index. AreIndexed places.now (λ key. held_in index key) rows.now) }
{
    if places.is_empty() {
        return Ok(Index::new(alloc));
    }
    fill(alloc, places, rows)
}

fn fill(alloc: Global, places: &Places, rows: &[TableRow]) -> Result<Index, AllocError>
    requires unique { are_keys_unique places.now (map (λ row. row.values) rows.now) ≡ true }
    requires key { (length places.now == 0) ≡ false }
    ensures { IfOk result (λ index. AreHeld places.now (λ key. held_in index key) rows.now) }
{
    let mut pairs = Vec::with_capacity(alloc, rows.len())?;
    let mut others = KeyMap::new(alloc);
    for row in rows {
        add_row(alloc, &mut pairs, &mut others, places, row)?;
    }
    let ints = KeyMap::of_pairs(alloc, pairs)?;
    Ok(Index { ints, others })
}

// Adds the key of a row, with the row's number.
fn add_row(
    alloc: Global,
    ints: &mut Vec<(i64, u32)>,
    others: &mut KeyMap<Values>,
    places: &Places,
    row: &TableRow,
) -> Result<(), AllocError>
    ensures { OnOk result ((q : RowKey)
        → held_as (last_under ints.new.items) (get values_order others.new.held q.values) (int_key q.values)
        ≡ cond (is_at (key_order (key_at places.now row.now.values)) q) (Some row.now.number)
        (held_as (last_under ints.old.items) (get values_order others.old.held q.values)
        (int_key q.values))) }
{
    match int_at(places, &row.values) {
        None => {
            let key = key_of(alloc, places, &row.values)?;
            others.put(key.values, row.number)
        }
        Some(int) => add_int(ints, int, row.number),
    }
}

// Adds a key of one number.
fn add_int(ints: &mut Vec<(i64, u32)>, int: i64, number: u32) -> Result<(), AllocError>
    ensures { OnOk result ((n : ℤ) → last_under ints.new.items n
        ≡ cond (is_at (int_cmp int) n) (Some number) (last_under ints.old.items n)) }
{
    ints.push((int, number))?;
    Ok(())
}

/// The key of a row.
pub(crate) fn key_of(alloc: Global, places: &Places, values: &Values) -> Result<RowKey, AllocError>
    ensures { IfOk result (λ key. key ≡ key_at places.now values.now) }
{
    let mut key = Vec::with_capacity(alloc, places.len())?;
    for place in places.items() {
        add_value(alloc, &mut key, values, *place)?;
    }
    Ok(RowKey {
        values: List::of_vec(key),
    })
}

// Adds the value at a place to those of a key.
fn add_value(
    alloc: Global,
    key: &mut Vec<Value>,
    values: &Values,
    place: usize,
) -> Result<(), AllocError>
    ensures { OnOk result (key.new.items ≡ key.old.items ++ value_at values.now place ∷ []) }
{
    let value = value_at(alloc, values, place)?;
    key.push(value)?;
    Ok(())
}

/// Whether the row with a number is live and has a key.
pub(crate) fn has_key_at(rows: &Rows, places: &Places, key: &Values, number: u64) -> bool
    ensures fits { result ≡ true → number < 2 ^ 32 }
    ensures found { option_map (λ row. row.number)
        (find (λ row. (row.number == number) && has_key places.now key.now row) (rows_now rows.now.slots))
        ≡ (if result then Some number else None) }
{
    rows.tell_order();
    if number > 4_294_967_295 {
        return false;
    }
    match rows.find(number as u32) {
        None => false,
        Some(slot) => has_key_in(rows, places, key, slot),
    }
}

/// Whether the row in a slot is live and has a key.
pub(crate) fn has_key_in(rows: &Rows, places: &Places, key: &Values, slot: usize) -> bool
    requires { slot < length rows.now.slots }
    ensures found { find (has_key places.now key.now)
        (option_to_list (row_now (slice_index_or rows.now.slots slot no_history)))
        ≡ (if result then row_now (slice_index_or rows.now.slots slot no_history) else None) }
    ensures stands { result ≡ true → IsSome (row_now (slice_index_or rows.now.slots slot no_history)) }
{
    if !rows.stands(slot) {
        return false;
    }
    rows.compare_key(slot, places, key).is_eq()
}

/// The number of the live row with a key, found by the index; `None` if there is none.
pub(crate) fn held_number(index: &Index, rows: &Rows, places: &Places, key: &RowKey) -> Option<u32>
    requires { AreHeld places.now (λ key. held_in index.now key) (rows_now rows.now.slots) }
    ensures { result ≡ option_map (λ row. row.number)
        (find (has_key places.now key.now.values) (rows_now rows.now.slots)) }
{
    number_of_values(index, rows, places, &key.values)
}

/// The number of the live row with these values as its key, found by the index; `None` if there is none. It
/// takes no memory.
pub(crate) fn number_of_values(
    index: &Index,
    rows: &Rows,
    places: &Places,
    key: &Values,
) -> Option<u32>
    requires { AreHeld places.now (λ key. held_in index.now key) (rows_now rows.now.slots) }
    ensures { result ≡ option_map (λ row. row.number)
        (find (has_key places.now key.now) (rows_now rows.now.slots)) }
{
    match index.number_of(key) {
        None => None,
        Some(number) => {
            if has_key_at(rows, places, key, number as u64) {
                Some(number)
            } else {
                None
            }
        }
    }
}
