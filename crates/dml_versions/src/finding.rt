//! The rows of a table for which WHERE is True.

ghost use Rattle.std.specs.Prelude.{◌≡◌, ◌++◌, ◌^◌, ◌<◌, length, true, IfOk, OnOk};
ghost use Rattle.std.specs.Prelude.{slice_index_or};
ghost use Rattle.dml_versions.specs.inner.Finding.{AllPass, CoverFound, IsPickPlaced, Passes, scope_in};
ghost use Rattle.dml_versions.specs.inner.Finding.{test_in};
ghost use Rattle.dml_versions.specs.inner.Finding.{found_at, found_from};
ghost use Rattle.sql_model.specs.Changes.{is_matched};
ghost use Rattle.sql_model.specs.Scope.{InScope};
ghost use Rattle.sql_model.specs.Tables.{are_keys_unique, row_values};
ghost use Rattle.dml_versions.specs.inner.Fixing.{WhereFixesKey};
ghost use Rattle.dml_versions.specs.inner.Testing.{AreTests, AreExactTests};
ghost use Rattle.table_store.specs.Histories.{table_now, no_history};
ghost use Rattle.std.specs.Prelude.{ℕ, List as Items};

use crate::found::{Found, FoundRows};
use crate::keys::picked_key;
use crate::needs::version_of;
use crate::tested::picked_tests;
use lanes::{after_member, next_one};
use ldv_value::{List, Places, Values};
use predicates::is_certain;
use sql_model::{ColumnTest, Expr, RowKey, truth_of};
use std::alloc::{AllocError, Global};
use table_store::TableStore;

/// The rows of a table for which WHERE is True, or all rows if there is no WHERE, in the order of their
/// numbers. `places` has the places of WHERE's columns, from 0.
pub(crate) fn found_rows(
    alloc: Global,
    table: &TableStore,
    pick: &Option<Expr>,
    places: &Places,
) -> Result<FoundRows, AllocError>
    requires placed { IsPickPlaced (scope_in table.now) pick.now places.now }
    requires unique { are_keys_unique table.now.schema.key (row_values (table_now table.now)) ≡ true }
    ensures { IfOk result (λ found. found ≡ found_from (test_in table.now pick.now) table.now.slots 0) }
{
    let fixed = picked_key(alloc, table.schema(), pick, places)?;
    match fixed {
        None => found_in_slots(alloc, table, pick, places),
        Some(values) => found_by_key(alloc, table, &RowKey { values }, pick, places),
    }
}

// The rows for which WHERE is True, among those that pass the tests of single columns that WHERE makes.
fn found_in_slots(
    alloc: Global,
    table: &TableStore,
    pick: &Option<Expr>,
    places: &Places,
) -> Result<FoundRows, AllocError>
    requires placed { IsPickPlaced (scope_in table.now) pick.now places.now }
    ensures { IfOk result (λ found. found ≡ found_from (test_in table.now pick.now) table.now.slots 0) }
{
    let made = picked_tests(alloc, &table.schema().columns, pick, places)?;
    let found = found_by_tests(
        alloc,
        table,
        made.tests.as_slice(),
        made.exact,
        pick,
        places,
    )?;
    Ok(found)
}

fn found_by_tests(
    alloc: Global,
    table: &TableStore,
    tests: &[ColumnTest],
    exact: bool,
    pick: &Option<Expr>,
    places: &Places,
) -> Result<FoundRows, AllocError>
    requires placed { IsPickPlaced (scope_in table.now) pick.now places.now }
    requires tests { AreTests pick.now places.now table.now.schema.columns tests.now }
    requires exact { exact ≡ true → AreExactTests pick.now places.now tests.now }
    ensures { IfOk result (λ found. found ≡ found_from (test_in table.now pick.now) table.now.slots 0) }
{
    let words = table.choose_slots(alloc, tests)?;
    let found = found_among(alloc, table, words.as_slice(), exact, pick, places)?;
    Ok(found)
}

// The rows for which WHERE is True, all of which are in the slots of a set. Where `exact` is true, the set
// has no other row, and WHERE isn't evaluated.
fn found_among(
    alloc: Global,
    table: &TableStore,
    words: &[u64],
    exact: bool,
    pick: &Option<Expr>,
    places: &Places,
) -> Result<FoundRows, AllocError>
    requires placed { IsPickPlaced (scope_in table.now) pick.now places.now }
    requires few { length words.now < 2 ^ 57 }
    requires cover { CoverFound words.now (test_in table.now pick.now) table.now.slots }
    requires exact { exact ≡ true → AllPass words.now (test_in table.now pick.now) table.now.slots }
    ensures { IfOk result (λ found. found ≡ found_from (test_in table.now pick.now) table.now.slots 0) }
{
    let mut found = List::new(alloc);
    let mut at = 0;
    'slots: loop {
        match next_one(words, at) {
            None => return Ok(found),
            Some(slot) => {
                add_found(alloc, table, slot, exact, pick, places, &mut found)?;
                at = after_member(words, slot);
            }
        }
    }
}

// The row with the key that WHERE fixes, if WHERE is True for it.
fn found_by_key(
    alloc: Global,
    table: &TableStore,
    key: &RowKey,
    pick: &Option<Expr>,
    places: &Places,
) -> Result<FoundRows, AllocError>
    requires placed { IsPickPlaced (scope_in table.now) pick.now places.now }
    requires fixed { WhereFixesKey pick.now places.now table.now.schema.key key.now.values }
    requires unique { are_keys_unique table.now.schema.key (row_values (table_now table.now)) ≡ true }
    ensures { IfOk result (λ found. found ≡ found_from (test_in table.now pick.now) table.now.slots 0) }
{
    table.tell_order();
    let mut found = List::new(alloc);
    match table.by_row_key(key) {
        None => Ok(found),
        Some(number) => match table.slot_of(number) {
            None => unreachable!(),
            Some(slot) => {
                add_found(alloc, table, slot, false, pick, places, &mut found)?;
                Ok(found)
            }
        },
    }
}

// Adds the row in a slot, if it stands and WHERE is True for it, which is known where `known` is true.
fn add_found(
    alloc: Global,
    table: &TableStore,
    slot: u64,
    known: bool,
    pick: &Option<Expr>,
    places: &Places,
    found: &mut FoundRows,
) -> Result<(), AllocError>
    requires placed { IsPickPlaced (scope_in table.now) pick.now places.now }
    requires known { known ≡ true
        → Passes (test_in table.now pick.now) (slice_index_or table.now.slots slot no_history) }
    ensures { OnOk result
        (found.new ≡ found.old ++ found_at (test_in table.now pick.now) table.now.slots slot) }
{
    match table.slot_row(slot) {
        None => Ok(()),
        Some(number) => {
            let values = table.row_values(slot)?;
            if !is_met(alloc, known, pick, &values, places)? {
                return Ok(());
            }
            let version = version_of(table, number);
            found.push(Found {
                number,
                version,
                values,
            })
        }
    }
}

// Whether WHERE is True over a row, or missing. It isn't evaluated where that is known.
fn is_met(
    alloc: Global,
    known: bool,
    pick: &Option<Expr>,
    values: &Values,
    places: &Places,
) -> Result<bool, AllocError>
    ensures { IfOk result (λ is. (scope : Items InScope) (number : ℕ) → IsPickPlaced scope pick.now places.now
        → (known ≡ true
        → is_matched scope pick.now (record { number = number; values = values.now }) ≡ true)
        → is ≡ is_matched scope pick.now (record { number = number; values = values.now })) }
{
    if known {
        return Ok(true);
    }
    let met = meets(alloc, pick, values, places)?;
    Ok(met)
}

// Whether WHERE is True over a row, or missing.
fn meets(
    alloc: Global,
    pick: &Option<Expr>,
    values: &Values,
    places: &Places,
) -> Result<bool, AllocError>
    ensures { IfOk result (λ is. (scope : Items InScope) (number : ℕ) → IsPickPlaced scope pick.now places.now
        → is ≡ is_matched scope pick.now (record { number = number; values = values.now })) }
{
    match pick {
        None => Ok(true),
        Some(expr) => Ok(is_certain(truth_of(alloc, expr, values, places)?)),
    }
}
