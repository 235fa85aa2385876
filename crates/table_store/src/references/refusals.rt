//! Refusals of changes of rows by references between tables.

ghost use Rattle.std.specs.Prelude.{◌≡◌, ◌==◌, None, Some, IfOk, IsTrue, if◌then◌else◌, length, map, true};
ghost use Rattle.std.specs.List.{AllByRecursion, list_any};
ghost use Rattle.std.specs.Option.{option_map, option_or};
ghost use Rattle.table_store.specs.inner.Afterwards.{loses, orphan_in_tables, refers_to};
ghost use Rattle.table_store.specs.inner.Judging.{holds, AreGiven};
ghost use Rattle.table_store.specs.Histories.{history_at, table_now, tables_now};
ghost use Rattle.table_store.specs.Referring.{are_apart, child_stop, is_of, missing_stop, orphan_stop};
ghost use Rattle.table_store.specs.Referring.{parents_now, IsAtVersion};
ghost use Rattle.table_store.specs.Stops.{all_stand, had_rows, are_sorted_numbers, are_sorted_rows};
ghost use Rattle.table_store.specs.Stops.{is_among, with_changed, with_removed, with_replaced};

use crate::error::StoreStop;
use crate::keys::given::{given_if, numbers_of};
use crate::references::children::{first_child, is_parent, lost_keys};
use crate::references::judged::{Judged, judge_values};
use crate::store::Store;
use crate::table::TableStore;
use sql_model::{RowKey, TableRow};
use std::alloc::AllocError;
use std::collections::BTreeMap;

/// What references say of new values of a table's rows: the first parent that is missing, or else the first
/// child that loses its own, and all parents.
pub(crate) fn replace_judged(
    store: &Store,
    own: &TableStore,
    rows: &[TableRow],
    keep: bool,
) -> Result<Judged, AllocError>
    requires there { history_at own.now.name store.now ≡ Some own.now }
    requires sorted { are_sorted_rows rows.now ≡ true }
    requires stand { had_rows rows.now (table_now own.now) ≡ true }
    ensures stop { IfOk result (λ judged. judged.stop ≡ option_or
        (missing_stop own.now.schema.foreign rows.now
        (with_changed own.now.name (with_replaced rows.now) (tables_now store.now)))
        (orphan_stop (is_of rows.now) (table_now own.now) (with_replaced rows.now (table_now own.now))
        (tables_now store.now))) }
    ensures versions { IfOk result (λ judged. IsTrue keep
        → AllByRecursion (IsAtVersion store.now) judged.parents) }
    ensures parents { IfOk result (λ judged. IsTrue keep → are_apart rows.now (table_now own.now) ≡ true
        → judged.parents ≡ parents_now store.now rows.now (table_now own.now)) }
{
    let alloc = own.allocator();
    let referred = is_parent(store.tables(), own.name());
    let given = given_if(alloc, referred, &own.schema().key, rows)?;
    let numbers = numbers_of(alloc, rows)?;
    let judged = judge_given(store, own, &given, numbers.as_slice(), rows, keep)?;
    Ok(judged)
}

// The same, where the numbers of the rows are known, and those by their keys if a foreign key refers to the
// table.
fn judge_given(
    store: &Store,
    own: &TableStore,
    given: &BTreeMap<RowKey, u32>,
    numbers: &[u32],
    rows: &[TableRow],
    keep: bool,
) -> Result<Judged, AllocError>
    requires there { history_at own.now.name store.now ≡ Some own.now }
    requires sorted { are_sorted_rows rows.now ≡ true }
    requires stand { had_rows rows.now (table_now own.now) ≡ true }
    requires given { list_any (λ table. refers_to own.now.name (table_now table)) store.now.tables ≡ true
        → AreGiven given.now own.now.schema.key rows.now }
    requires numbers { numbers.now ≡ map (λ row. row.number) rows.now }
    ensures stop { IfOk result (λ judged. judged.stop ≡ option_or
        (missing_stop own.now.schema.foreign rows.now
        (with_changed own.now.name (with_replaced rows.now) (tables_now store.now)))
        (orphan_stop (is_of rows.now) (table_now own.now) (with_replaced rows.now (table_now own.now))
        (tables_now store.now))) }
    ensures versions { IfOk result (λ judged. IsTrue keep
        → AllByRecursion (IsAtVersion store.now) judged.parents) }
    ensures parents { IfOk result (λ judged. IsTrue keep → are_apart rows.now (table_now own.now) ≡ true
        → judged.parents ≡ parents_now store.now rows.now (table_now own.now)) }
{
    store.tell_formed();
    let judged = judge_values(store, own, given, numbers, rows, keep)?;
    if judged.stop.is_some() {
        return Ok(judged);
    }
    let Judged {
        stop: _none,
        parents,
    } = judged;
    let stop = lost_child(store, own, numbers, given)?;
    Ok(Judged { stop, parents })
}

/// The refusal of a deletion of a table's rows by references; `None` if it is accepted.
pub(crate) fn delete_refusal(
    store: &Store,
    own: &TableStore,
    numbers: &[u32],
) -> Result<Option<StoreStop>, AllocError>
    requires there { history_at own.now.name store.now ≡ Some own.now }
    requires sorted { are_sorted_numbers numbers.now ≡ true }
    requires stand { all_stand numbers.now (table_now own.now) ≡ true }
    ensures { IfOk result (λ stop. stop
        ≡ orphan_stop (is_among numbers.now) (table_now own.now)
        (with_removed numbers.now (table_now own.now)) (tables_now store.now)) }
{
    store.tell_formed();
    let none = BTreeMap::new(own.allocator());
    let lost = lost_child(store, own, numbers, &none)?;
    Ok(lost)
}

// What refuses a change for the first row that isn't given and loses its parent, where the rows of some
// numbers are gone or have other keys.
fn lost_child(
    store: &Store,
    own: &TableStore,
    numbers: &[u32],
    given: &BTreeMap<RowKey, u32>,
) -> Result<Option<StoreStop>, AllocError>
    requires { are_sorted_numbers numbers.now ≡ true }
    ensures { IfOk result (λ stop. stop ≡ (if length own.now.schema.key == 0 then None
        else option_map child_stop
        (orphan_in_tables (is_among numbers.now) own.now.name
        (loses (holds given.now) numbers.now (table_now own.now)) store.now.tables))) }
{
    let tables = store.tables();
    let name = own.name();
    if !is_parent(tables, name) {
        return Ok(None);
    }
    if own.schema().key.is_empty() {
        return Ok(None);
    }
    let alloc = own.allocator();
    let lost = lost_keys(alloc, own, numbers, given)?;
    let child = first_child(alloc, tables, name, numbers, &lost)?;
    Ok(child)
}
