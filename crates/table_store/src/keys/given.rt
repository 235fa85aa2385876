//! Given rows, which are the rows of a change, by their keys and their numbers.

ghost use Rattle.std.specs.Prelude.{◌≡◌, ◌==◌, ◌+◌, ◌^◌, ◌<◌, IfOk, length, map, true};
ghost use Rattle.std.specs.List.{list_any};
ghost use Rattle.sql_model.specs.Changes.{numbered_rows};
ghost use Rattle.table_store.specs.inner.Judging.{holds, AreGiven};
ghost use Rattle.table_store.specs.inner.ParentRows.{number_in};
ghost use Rattle.table_store.specs.Stops.{are_sorted_numbers};

use crate::keys::index::key_of;
use ldv_value::{Places, Values};
use sql_model::{RowKey, TableRow};
use std::alloc::{AllocError, Global};
use std::collections::BTreeMap;

/// The numbers of given rows by their keys if `asked` is true, and none otherwise.
pub(crate) fn given_if(
    alloc: Global,
    asked: bool,
    key: &Places,
    rows: &[TableRow],
) -> Result<BTreeMap<RowKey, u32>, AllocError>
    ensures { IfOk result (λ given. asked ≡ true → AreGiven given key.now rows.now) }
{
    if !asked {
        return Ok(BTreeMap::new(alloc));
    }
    let given = given_keys(alloc, key, rows)?;
    Ok(given)
}

// The numbers of given rows by their keys.
fn given_keys(
    alloc: Global,
    key: &Places,
    rows: &[TableRow],
) -> Result<BTreeMap<RowKey, u32>, AllocError>
    ensures { IfOk result (λ given. AreGiven given key.now rows.now) }
{
    let mut given = BTreeMap::new(alloc);
    for row in rows {
        let made = key_of(alloc, key, &row.values)?;
        given.insert(made, row.number)?;
    }
    Ok(given)
}

/// The numbers of new rows, the first of which is `next`, by their keys if `asked` is true, and none
/// otherwise.
pub(crate) fn new_numbers_if(
    alloc: Global,
    asked: bool,
    key: &Places,
    rows: &[Values],
    next: u32,
) -> Result<BTreeMap<RowKey, u32>, AllocError>
    requires { next + length rows.now < 2 ^ 32 }
    ensures { IfOk result (λ given. asked ≡ true
        → AreGiven given key.now (numbered_rows next rows.now)) }
{
    if !asked {
        return Ok(BTreeMap::new(alloc));
    }
    let given = new_numbers(alloc, key, rows, next)?;
    Ok(given)
}

// The numbers of new rows by their keys.
fn new_numbers(
    alloc: Global,
    key: &Places,
    rows: &[Values],
    next: u32,
) -> Result<BTreeMap<RowKey, u32>, AllocError>
    requires { next + length rows.now < 2 ^ 32 }
    ensures { IfOk result (λ given. AreGiven given key.now (numbered_rows next rows.now)) }
{
    let mut given = BTreeMap::new(alloc);
    let mut number = next;
    for row in rows {
        let made = key_of(alloc, key, row)?;
        given.insert(made, number)?;
        number += 1;
    }
    Ok(given)
}

/// The number of the last given row that has a key.
pub(crate) fn number_in(given: &BTreeMap<RowKey, u32>, key: &RowKey) -> Option<u32>
    ensures { result ≡ number_in given.now key.now.values }
{
    given.get(key).copied()
}

/// Whether a given row has a key.
pub(crate) fn holds(given: &BTreeMap<RowKey, u32>, key: &RowKey) -> bool
    ensures { result ≡ holds given.now key.now.values }
{
    number_in(given, key).is_some()
}

/// The numbers of given rows.
pub(crate) fn numbers_of(alloc: Global, rows: &[TableRow]) -> Result<Vec<u32>, AllocError>
    ensures { IfOk result (λ numbers. numbers.items ≡ map (λ row. row.number) rows.now) }
{
    let mut numbers = Vec::with_capacity(alloc, rows.len())?;
    for row in rows {
        numbers.push(row.number)?;
    }
    Ok(numbers)
}

/// Whether a number is among those of given rows, which are sorted.
pub(crate) fn is_given(numbers: &[u32], number: u32) -> bool
    requires { are_sorted_numbers numbers.now ≡ true }
    ensures { result ≡ list_any (λ given. given == number) numbers.now }
{
    numbers.binary_search(&number).is_ok()
}
