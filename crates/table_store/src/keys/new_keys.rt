//! Keys of new rows, held apart from the index until the rows are put.

ghost use Rattle.std.specs.Prelude.{◌≡◌, ℕ, ℤ, ◌<◌, cond, List, None, Some, OnOk, OnErr, is_some};
ghost use Rattle.std.specs.BTreeMap.{get, is_at};
ghost use Rattle.std.specs.Ordering.{int_cmp};
ghost use Rattle.ldv_value.specs.Order.{values_order};
ghost use Rattle.sql_model.specs.KeyOrder.{key_order};
ghost use Rattle.table_store.specs.NewKeys.{new_in, AreBelow};
ghost use Rattle.table_store.specs.Types.{RowKey, Value};

use crate::keys::index::int_key;
use ldv_value::Values;
use sql_model::RowKey;
use std::alloc::{AllocError, Global};
use std::collections::BTreeMap;

/// The places of new rows, from 0, by their keys. A key of one number is stored as that number. A place may
/// be too high for a row's number: such rows are refused, for a key or because the table is full.
#[derive(Drop)]
pub(crate) struct NewKeys {
    pub(crate) ints: BTreeMap<i64, usize>,
    pub(crate) others: BTreeMap<Values, usize>,
}

impl NewKeys {
    /// No key. It takes no memory.
    pub(crate) fn new(alloc: Global) -> NewKeys
        ensures none { (q : RowKey) → new_in result q ≡ None }
        ensures below { (bound : ℕ) → AreBelow result bound }
    {
        NewKeys {
            ints: BTreeMap::new(alloc),
            others: BTreeMap::new(alloc),
        }
    }

    /// Whether a new row has a key.
    pub(crate) fn has(&self, key: &RowKey) -> bool
        ensures { result ≡ is_some (new_in self.now key.now) }
    {
        match int_key(key.values.items()) {
            None => has_other(&self.others, &key.values),
            Some(int) => has_int(&self.ints, &int),
        }
    }

    /// Stores the place of a row under its key.
    pub(crate) fn put(&mut self, key: RowKey, place: usize) -> Result<(), AllocError>
        ensures ok { OnOk result ((q : RowKey)
            → new_in self.new q ≡ cond (is_at (key_order key) q) (Some place) (new_in self.old q)) }
        ensures below { (bound : ℕ) → place < bound → AreBelow self.old bound → AreBelow self.new bound }
        ensures err { OnErr result ((q : RowKey) → new_in self.new q ≡ new_in self.old q) }
    {
        match int_key(key.values.items()) {
            None => put_other(&mut self.others, key.values, place),
            Some(int) => put_int(&mut self.ints, int, place),
        }
    }
}

fn has_other(others: &BTreeMap<Values, usize>, key: &Values) -> bool
    ensures { result ≡ is_some (get values_order others.now key.now) }
{
    others.get(key).is_some()
}

fn has_int(ints: &BTreeMap<i64, usize>, int: &i64) -> bool
    ensures { result ≡ is_some (get int_cmp ints.now int.now) }
{
    ints.get(int).is_some()
}

fn put_other(
    others: &mut BTreeMap<Values, usize>,
    key: Values,
    place: usize,
) -> Result<(), AllocError>
    ensures ok { OnOk result ((q : List Value) → get values_order others.new q
        ≡ cond (is_at (values_order key) q) (Some place) (get values_order others.old q)) }
    ensures err { OnErr result ((q : List Value)
        → get values_order others.new q ≡ get values_order others.old q) }
{
    others.insert(key, place)?;
    Ok(())
}

fn put_int(ints: &mut BTreeMap<i64, usize>, int: i64, place: usize) -> Result<(), AllocError>
    ensures ok { OnOk result ((n : ℤ) → get int_cmp ints.new n
        ≡ cond (is_at (int_cmp int) n) (Some place) (get int_cmp ints.old n)) }
    ensures err { OnErr result ((n : ℤ) → get int_cmp ints.new n ≡ get int_cmp ints.old n) }
{
    ints.insert(int, place)?;
    Ok(())
}
