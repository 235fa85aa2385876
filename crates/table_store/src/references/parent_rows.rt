//! The row of a parent that has a key once rows are given, and rows at their versions.

ghost use Rattle.std.specs.Prelude.{◌≡◌, ◌<◌, IfOk, length, true};
ghost use Rattle.sql_model.specs.Scope.{is_table};
ghost use Rattle.table_store.specs.Histories.{table_now};
ghost use Rattle.table_store.specs.inner.ParentRows.{member_at, number_in, number_of_key};
ghost use Rattle.table_store.specs.inner.ParentRows.{number_put, parent_number, unless_given};
ghost use Rattle.table_store.specs.Stops.{are_sorted_numbers};

use crate::keys::given::{is_given, number_in};
use crate::table::TableStore;
use sql_model::{Member, RowKey};
use std::alloc::AllocError;
use std::collections::BTreeMap;

/// The number of the row of a parent that has a key once rows are given.
pub(crate) fn parent_number(
    parent: &TableStore,
    own: &str,
    given: &BTreeMap<RowKey, u32>,
    numbers: &[u32],
    key: &RowKey,
) -> Option<u32>
    requires sorted { are_sorted_numbers numbers.now ≡ true }
    requires keyed { 0 < length parent.now.schema.key }
    ensures { result ≡ parent_number (number_in given.now) numbers.now own.now (table_now parent.now)
        key.now.values }
{
    if is_own(parent, own) {
        number_put(parent, given, numbers, key)
    } else {
        parent.by_row_key(key)
    }
}

/// Whether a table has a name.
pub(crate) fn is_own(parent: &TableStore, own: &str) -> bool
    ensures { result ≡ is_table own.now (table_now parent.now) }
{
    parent.name() == own
}

// The number of the row of the own table that has a key once rows are given.
fn number_put(
    own: &TableStore,
    given: &BTreeMap<RowKey, u32>,
    numbers: &[u32],
    key: &RowKey,
) -> Option<u32>
    requires sorted { are_sorted_numbers numbers.now ≡ true }
    requires keyed { 0 < length own.now.schema.key }
    ensures { result ≡ number_put (number_in given.now) numbers.now (table_now own.now) key.now.values }
{
    match number_in(given, key) {
        Some(number) => Some(number),
        None => number_kept(own, numbers, key),
    }
}

// The number of the row that has a key, unless it is given.
fn number_kept(own: &TableStore, numbers: &[u32], key: &RowKey) -> Option<u32>
    requires sorted { are_sorted_numbers numbers.now ≡ true }
    requires keyed { 0 < length own.now.schema.key }
    ensures { result ≡ unless_given numbers.now (number_of_key (table_now own.now) key.now.values) }
{
    match own.by_row_key(key) {
        None => None,
        Some(number) => {
            if is_given(numbers, number) {
                None
            } else {
                Some(number)
            }
        }
    }
}

/// The row of a number at its version now, where it stands.
pub(crate) fn member_at(table: &TableStore, row: u32) -> Result<Option<Member>, AllocError>
    ensures { IfOk result (λ member. member ≡ member_at table.now row) }
{
    match table.version(row) {
        None => Ok(None),
        Some(version) => {
            let table = table.copy_name()?;
            Ok(Some(Member {
                table,
                row,
                version,
            }))
        }
    }
}
