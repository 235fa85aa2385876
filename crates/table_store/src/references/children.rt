//! Refusals of changes for child rows that would lose their parents.

ghost use Rattle.std.specs.Prelude.{◌≡◌, ◌==◌, ◌&&◌, ◌||◌, ℕ, List, [], ◌∷◌, true, false, not, Some, IfOk};
ghost use Rattle.std.specs.Prelude.{IsSome, OnOk, slice_index_or};
ghost use Rattle.std.specs.List.{list_any};
ghost use Rattle.std.specs.Option.{option_and_then, option_map, option_map_or};
ghost use Rattle.ldv_value.specs.Options.{first_some};
ghost use Rattle.row_version.specs.History.{current_values};
ghost use Rattle.sql_model.specs.References.{child_of, has_key, orphan_by, reference};
ghost use Rattle.table_store.specs.inner.Afterwards.{in_set, loses, orphan_in_row, orphan_in_slot};
ghost use Rattle.table_store.specs.inner.Afterwards.{orphan_in_table, orphan_in_tables, refers_to};
ghost use Rattle.table_store.specs.inner.ChildPairs.{given_in};
ghost use Rattle.table_store.specs.inner.Judging.{holds};
ghost use Rattle.table_store.specs.Histories.{no_history, row_now, slot_of_row, table_now};
ghost use Rattle.table_store.specs.Referring.{child_stop};
ghost use Rattle.table_store.specs.Stops.{are_sorted_numbers, is_among};
ghost use Rattle.sql_model.specs.Keys.{same_values, values_at};
ghost use Rattle.sql_model.specs.Scope.{is_table, same_text};
ghost use Rattle.table_store.specs.Types.{Value};
ghost use Rattle.table_store.specs.declared.error.StoreStop.TheVariants.{HasChild};

use crate::error::StoreStop;
use crate::keys::given::{holds, is_given};
use crate::keys::index::key_of;
use crate::references::child_rows::first_child_in;
use crate::table::TableStore;
use ldv_value::Values;
use sql_model::{Foreign, RowKey, refers_to_none};
use std::alloc::{AllocError, Global};
use std::collections::{BTreeMap, BTreeSet};

/// Whether some table has a foreign key whose parent is the table with a name.
pub(crate) fn is_parent(tables: &[TableStore], target: &str) -> bool
    ensures { result ≡ list_any (λ table. refers_to target.now (table_now table)) tables.now }
{
    tables.iter().any(|table| refers_to(table, target))
}

/// Whether a table has a foreign key whose parent is the table with a name.
pub(crate) fn refers_to(table: &TableStore, target: &str) -> bool
    ensures { result ≡ refers_to target.now (table_now table.now) }
{
    has_parent(table.schema().foreign.items(), target)
}

// Whether one of some foreign keys has the table of a name for its parent.
fn has_parent(foreigns: &[Foreign], target: &str) -> bool
    ensures { result ≡ list_any (λ foreign. same_text foreign.parent target.now) foreigns.now }
{
    foreigns
        .iter()
        .any(|foreign| foreign.parent.is_text(target))
}

/// The keys that rows, by their numbers, have now, without those of given rows.
pub(crate) fn lost_keys(
    alloc: Global,
    held: &TableStore,
    numbers: &[u32],
    given: &BTreeMap<RowKey, u32>,
) -> Result<BTreeSet<RowKey>, AllocError>
    ensures { IfOk result (λ lost. (key : List Value) → in_set lost key
        ≡ loses (holds given.now) numbers.now (table_now held.now) key) }
{
    let mut lost = BTreeSet::new(alloc);
    for number in numbers {
        add_lost(alloc, held, *number, given, &mut lost)?;
    }
    Ok(lost)
}

// Adds the key of the row of a number, unless it is among those of given rows.
fn add_lost(
    alloc: Global,
    held: &TableStore,
    number: u32,
    given: &BTreeMap<RowKey, u32>,
    lost: &mut BTreeSet<RowKey>,
) -> Result<(), AllocError>
    ensures { OnOk result ((key : List Value) → in_set lost.new key
        ≡ (in_set lost.old key || loses (holds given.now) (number ∷ []) (table_now held.now) key)) }
{
    let found = key_at(alloc, held, number)?;
    match found {
        None => Ok(()),
        Some(key) => put_lost(given, lost, key),
    }
}

// Adds a key, unless it is among those of given rows.
fn put_lost(
    given: &BTreeMap<RowKey, u32>,
    lost: &mut BTreeSet<RowKey>,
    key: RowKey,
) -> Result<(), AllocError>
    ensures { OnOk result ((q : List Value) → in_set lost.new q
        ≡ (in_set lost.old q || (same_values key.values q && not (holds given.now q)))) }
{
    if holds(given, &key) {
        return Ok(());
    }
    lost.insert(key)?;
    Ok(())
}

// The key of the row of a number, where it stands.
fn key_at(alloc: Global, held: &TableStore, number: u32) -> Result<Option<RowKey>, AllocError>
    ensures { IfOk result (λ found. (key : List Value)
        → option_map_or (λ k. same_values k.values key) found false
        ≡ list_any (λ row. is_among (number ∷ []) row && has_key held.now.schema.key key row)
        (table_now held.now).rows) }
{
    held.tell_order();
    match held.slot_of(number) {
        None => Ok(None),
        Some(slot) => {
            let found = key_in(alloc, held, slot)?;
            Ok(found)
        }
    }
}

// The key of the row in a slot, where it stands.
fn key_in(alloc: Global, held: &TableStore, slot: u64) -> Result<Option<RowKey>, AllocError>
    ensures { IfOk result (λ found. option_map (λ key. key.values) found
        ≡ option_map (λ row. values_at held.now.schema.key row.values)
        (row_now (slice_index_or held.now.slots slot no_history))) }
{
    match held.slot_row(slot) {
        None => Ok(None),
        Some(_number) => {
            let key = key_standing(alloc, held, slot)?;
            Ok(Some(key))
        }
    }
}

// The key of the row in a slot, which stands.
fn key_standing(alloc: Global, held: &TableStore, slot: u64) -> Result<RowKey, AllocError>
    requires { IsSome (current_values (slice_index_or held.now.slots slot no_history).changes) }
    ensures { IfOk result (λ key. Some key.values
        ≡ option_map (λ row. values_at held.now.schema.key row.values)
        (row_now (slice_index_or held.now.slots slot no_history))) }
{
    let values = held.row_values(slot)?;
    let key = key_of(alloc, &held.schema().key, &values)?;
    Ok(key)
}

/// The refusal for the first row, by table and number, that refers to one of the lost keys of the target and
/// isn't in `numbers`; `None` if there is none.
pub(crate) fn first_child(
    alloc: Global,
    tables: &[TableStore],
    target: &str,
    numbers: &[u32],
    lost: &BTreeSet<RowKey>,
) -> Result<Option<StoreStop>, AllocError>
    requires { are_sorted_numbers numbers.now ≡ true }
    ensures { IfOk result (λ stop. stop ≡ option_map child_stop
        (orphan_in_tables (is_among numbers.now) target.now (in_set lost.now) tables.now)) }
{
    for table in tables {
        let stop = child_in(alloc, table, target, numbers, lost)?;
        if stop.is_some() {
            return Ok(stop);
        }
    }
    Ok(None)
}

// The same for the first such row of one table.
fn child_in(
    alloc: Global,
    table: &TableStore,
    target: &str,
    numbers: &[u32],
    lost: &BTreeSet<RowKey>,
) -> Result<Option<StoreStop>, AllocError>
    requires { are_sorted_numbers numbers.now ≡ true }
    ensures { IfOk result (λ stop. stop ≡ option_map child_stop
        (orphan_in_table (is_among numbers.now) target.now (in_set lost.now) table.now)) }
{
    table.tell_order();
    let given = given_in(table, target, numbers);
    let first = first_child_in(alloc, table, target, given, lost)?;
    match first {
        None => Ok(None),
        Some(number) => {
            let stop = child_of_number(alloc, table, number, target, numbers, lost)?;
            Ok(stop)
        }
    }
}

// The numbers that are given of a table: those of the target.
fn given_in<'a>(table: &TableStore, target: &str, numbers: &'a [u32]) -> &'a [u32]
    ensures { result.now ≡ given_in (is_table target.now (table_now table.now)) numbers.now }
{
    if table.name() == target { numbers } else { &[] }
}

// What refuses the change for the row of a number, if it stands, isn't given and refers to a lost key.
fn child_of_number(
    alloc: Global,
    table: &TableStore,
    number: u32,
    target: &str,
    numbers: &[u32],
    lost: &BTreeSet<RowKey>,
) -> Result<Option<StoreStop>, AllocError>
    requires sorted { are_sorted_numbers numbers.now ≡ true }
    ensures { IfOk result (λ stop. stop ≡ option_map child_stop (option_and_then
        (λ slot. orphan_in_slot (is_among numbers.now) target.now (in_set lost.now) (table_now table.now)
        (slice_index_or table.now.slots slot no_history)) (slot_of_row number table.now.slots))) }
{
    match table.slot_of(number) {
        None => Ok(None),
        Some(slot) => {
            let stop = child_at(alloc, table, slot, target, numbers, lost)?;
            Ok(stop)
        }
    }
}

// The same for the row in a slot.
fn child_at(
    alloc: Global,
    table: &TableStore,
    slot: u64,
    target: &str,
    numbers: &[u32],
    lost: &BTreeSet<RowKey>,
) -> Result<Option<StoreStop>, AllocError>
    requires { are_sorted_numbers numbers.now ≡ true }
    ensures { IfOk result (λ stop. stop ≡ option_map child_stop
        (orphan_in_slot (is_among numbers.now) target.now (in_set lost.now) (table_now table.now)
        (slice_index_or table.now.slots slot no_history))) }
{
    match table.slot_row(slot) {
        None => Ok(None),
        Some(number) => {
            let stop = child_standing(alloc, table, slot, number, target, numbers, lost)?;
            Ok(stop)
        }
    }
}

// The same for the row of a number in a slot, which stands.
fn child_standing(
    alloc: Global,
    table: &TableStore,
    slot: u64,
    number: u32,
    target: &str,
    numbers: &[u32],
    lost: &BTreeSet<RowKey>,
) -> Result<Option<StoreStop>, AllocError>
    requires sorted { are_sorted_numbers numbers.now ≡ true }
    requires stands { Some number
        ≡ option_map (λ row. row.number) (row_now (slice_index_or table.now.slots slot no_history)) }
    ensures { IfOk result (λ stop. stop ≡ option_map child_stop
        (orphan_in_slot (is_among numbers.now) target.now (in_set lost.now) (table_now table.now)
        (slice_index_or table.now.slots slot no_history))) }
{
    if is_passed(table, target, numbers, number) {
        return Ok(None);
    }
    let values = table.row_values(slot)?;
    let stop = child_by_each(alloc, table, target, lost, number, &values)?;
    Ok(stop)
}

// Whether a row is given.
fn is_passed(table: &TableStore, target: &str, numbers: &[u32], number: u32) -> bool
    requires { are_sorted_numbers numbers.now ≡ true }
    ensures { result ≡ (is_table target.now (table_now table.now)
        && list_any (λ given. given == number) numbers.now) }
{
    table.name() == target && is_given(numbers, number)
}

// What refuses the change for a row of these values, by its first foreign key that refers to a lost key.
fn child_by_each(
    alloc: Global,
    table: &TableStore,
    target: &str,
    lost: &BTreeSet<RowKey>,
    number: u32,
    values: &Values,
) -> Result<Option<StoreStop>, AllocError>
    ensures { IfOk result (λ stop. stop ≡ option_map child_stop
        (orphan_in_row target.now (in_set lost.now) (table_now table.now)
        (record { number = number; values = values.now }))) }
{
    for foreign in table.schema().foreign.items() {
        let stop = child_by(alloc, table, target, lost, number, values, foreign)?;
        if stop.is_some() {
            return Ok(stop);
        }
    }
    Ok(None)
}

// The same by one foreign key.
fn child_by(
    alloc: Global,
    table: &TableStore,
    target: &str,
    lost: &BTreeSet<RowKey>,
    number: u32,
    values: &Values,
    foreign: &Foreign,
) -> Result<Option<StoreStop>, AllocError>
    ensures { IfOk result (λ stop. stop ≡ option_map child_stop
        (orphan_by target.now (in_set lost.now)
        (child_of (table_now table.now) (record { number = number; values = values.now })) foreign.now
        (reference foreign.now values.now))) }
{
    if refers_to_none(foreign, values) {
        return Ok(None);
    }
    let key = key_of(alloc, &foreign.columns, values)?;
    if !is_lost(foreign, target, lost, &key) {
        return Ok(None);
    }
    let stop = child(table, number, key)?;
    Ok(stop)
}

// Whether a foreign key's parent is a table, and this has lost the key.
fn is_lost(foreign: &Foreign, target: &str, lost: &BTreeSet<RowKey>, key: &RowKey) -> bool
    ensures { result ≡ (same_text foreign.now.parent target.now && in_set lost.now key.now.values) }
{
    foreign.parent.is_text(target) && lost.contains(key)
}

// What refuses the change for a child row.
fn child(table: &TableStore, row: u32, key: RowKey) -> Result<Option<StoreStop>, AllocError>
    ensures { IfOk result (λ stop. stop ≡ Some (HasChild table.now.name row key.values)) }
{
    let table = table.copy_name()?;
    Ok(Some(StoreStop::HasChild {
        table,
        row,
        key: key.values,
    }))
}
