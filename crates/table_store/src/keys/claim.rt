//! Keys of new rows: the first one that is taken, and else all of them.

ghost use Rattle.std.specs.Prelude.{◌≡◌, ◌==◌, ℕ, ◌+◌, ◌<◌, ◌++◌, List, [], Some, None, find, IfOk, OnOk, IfSome};
ghost use Rattle.std.specs.Prelude.{length, map, take, slice_index_or, false};
ghost use Rattle.std.specs.Option.{option_map};
ghost use Rattle.sql_model.specs.Changes.{clash_after, clash_by, numbered_rows};
ghost use Rattle.sql_model.specs.Keys.{values_at};
ghost use Rattle.sql_model.specs.References.{has_key};
ghost use Rattle.table_store.specs.Claims.{claim_stop, taken_stop};
ghost use Rattle.table_store.specs.Histories.{rows_now};
ghost use Rattle.table_store.specs.IndexView.{held_in};
ghost use Rattle.table_store.specs.NewKeys.{new_in, AddsKey, AreBelow, AreClaimed, AreNewKeys};
ghost use Rattle.table_store.specs.KeyIndex.{AreHeld, AreIndexed};
ghost use Rattle.table_store.specs.Stops.{StopsAs};

use crate::error::StoreStop;
use crate::keys::index::{Index, held_number, key_of};
use crate::keys::new_keys::NewKeys;
use crate::rows::Rows;
use ldv_value::{Places, Values};
use sql_model::RowKey;
use std::alloc::Global;

/// The keys of new rows, numbered from `next` on. `KeyTaken` comes if a live row or an earlier new one has
/// the key of a new row.
pub(crate) fn claim(
    alloc: Global,
    index: &Index,
    stored: &Rows,
    places: &Places,
    values: &[Values],
    next: u32,
) -> Result<NewKeys, StoreStop>
    requires indexed { AreIndexed places.now (λ key. held_in index.now key)
        (rows_now stored.now.slots) }
    requires next { stored.now.next ≡ next }
    ensures ok { IfOk result (λ keys. AreClaimed places.now next (rows_now stored.now.slots) values.now
        (new_in keys)) }
    ensures below { IfOk result (λ keys. AreBelow keys (length values.now)) }
    ensures stop { StopsAs (claim_stop places.now next
        (clash_by places.now (rows_now stored.now.slots ++ numbered_rows next values.now))) result }
{
    if places.is_empty() {
        return Ok(NewKeys::new(alloc));
    }
    stored.tell_order();
    claim_all(alloc, index, stored, places, values, next)
}

// The keys of new rows, where there is a key.
fn claim_all(
    alloc: Global,
    index: &Index,
    stored: &Rows,
    places: &Places,
    values: &[Values],
    next: u32,
) -> Result<NewKeys, StoreStop>
    requires held { AreHeld places.now (λ key. held_in index.now key) (rows_now stored.now.slots) }
    requires next { stored.now.next ≡ next }
    ensures ok { IfOk result (λ keys. AreNewKeys places.now next (rows_now stored.now.slots) values.now
        (new_in keys)) }
    ensures below { IfOk result (λ keys. AreBelow keys (length values.now)) }
    ensures stop { StopsAs (claim_stop places.now next
        (clash_after places.now (rows_now stored.now.slots) (numbered_rows next values.now))) result }
{
    let mut keys = NewKeys::new(alloc);
    for count in 0..values.len() {
        match claim_one(alloc, index, &mut keys, stored, places, values, count, next) {
            Ok(()) => {}
            Err(stop) => return Err(stop),
        }
    }
    Ok(keys)
}

// Adds the key of one more new row to those before it.
fn claim_one(
    alloc: Global,
    index: &Index,
    keys: &mut NewKeys,
    stored: &Rows,
    places: &Places,
    values: &[Values],
    count: usize,
    next: u32,
) -> Result<(), StoreStop>
    requires within { count < length values.now }
    requires held { AreHeld places.now (λ key. held_in index.now key) (rows_now stored.now.slots) }
    requires next { stored.now.next ≡ next }
    requires claimed { AreNewKeys places.now next (rows_now stored.now.slots) (take count values.now)
        (new_in keys.old) }
    ensures ok { OnOk result (AreNewKeys places.now next (rows_now stored.now.slots)
        (take (count + 1) values.now) (new_in keys.new)) }
    ensures below { AreBelow keys.old (length values.now) → AreBelow keys.new (length values.now) }
    ensures stop { StopsAs (taken_stop places.now next (slice_index_or values.now count [])
        (find (has_key places.now (values_at places.now (slice_index_or values.now count [])))
        (rows_now stored.now.slots ++ numbered_rows next (take count values.now)))) result }
{
    stored.tell_order();
    let row = &values[count];
    let key = key_of(alloc, places, row)?;
    match held_number(index, stored, places, &key) {
        Some(number) => Err(StoreStop::KeyTaken {
            earlier: Some(number),
            later: None,
            key: key.values,
        }),
        None => claim_apart(keys, key, count),
    }
}

// Adds a key with the place of its row. KeyTaken: a new row has it.
fn claim_apart(keys: &mut NewKeys, key: RowKey, place: usize) -> Result<(), StoreStop>
    ensures adds { AddsKey key place keys.old keys.new result }
    ensures below { (bound : ℕ) → place < bound → AreBelow keys.old bound → AreBelow keys.new bound }
{
    if keys.has(&key) {
        return Err(StoreStop::KeyTaken {
            earlier: None,
            later: None,
            key: key.values,
        });
    }
    keys.put(key, place)?;
    Ok(())
}
