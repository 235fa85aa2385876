//! What references say of given rows. One walk over the rows and their foreign keys, with one look-up each,
//! finds the first parent that is missing and all parents.

ghost use Rattle.std.specs.Prelude.{◌≡◌, ◌++◌, ◌+◌, ◌^◌, ◌<◌, [], None, Some, IfOk, IsTrue, OnOk};
ghost use Rattle.std.specs.Prelude.{length, map, true};
ghost use Rattle.std.specs.List.{AllByRecursion, flat_map, list_all, list_any};
ghost use Rattle.std.specs.Option.{option_map, option_or, option_to_list};
ghost use Rattle.sql_model.specs.Changes.{numbered_rows};
ghost use Rattle.sql_model.specs.Scope.{table_at};
ghost use Rattle.table_store.specs.inner.Afterwards.{is_keyed, missing_in_rows, refers_to};
ghost use Rattle.table_store.specs.inner.Judging.{has_given, stop_of_key, stop_by, stop_in_row, AreGiven};
ghost use Rattle.table_store.specs.inner.ParentRows.{member_at, number_in, parent_by};
ghost use Rattle.table_store.specs.inner.ParentRows.{parent_in, parents_in_row};
ghost use Rattle.table_store.specs.Histories.{history_at, table_now, tables_now};
ghost use Rattle.table_store.specs.Referring.{are_apart, missing_stop, parent_stop, parents_now, IsAtVersion};
ghost use Rattle.table_store.specs.Stops.{are_sorted_numbers, are_sorted_rows, had_rows};
ghost use Rattle.table_store.specs.Stops.{with_changed, with_inserted, with_replaced};
ghost use Rattle.table_store.specs.declared.error.StoreStop.TheVariants.{NoParent};

use crate::error::StoreStop;
use crate::keys::given::new_numbers_if;
use crate::keys::index::key_of;
use crate::references::children::refers_to;
use crate::references::parent_rows::{member_at, parent_number};
use crate::store::Store;
use crate::table::TableStore;
use ldv_value::{List as Listed, RowList, Values};
use sql_model::{Foreign, Foreigns, HasValues, Members, RowKey, TableRow, refers_to_none};
use std::alloc::{AllocError, Global};
use std::collections::BTreeMap;

/// What references say of given rows.
#[derive(Drop)]
pub struct Judged {
    /// The refusal: for the first key to which a row refers and that no row of the parent would have, or else
    /// for the first row that would lose its parent.
    pub stop: Option<StoreStop>,
    /// The live rows, at their versions now, to which the rows would refer. If the caller keeps no lists,
    /// they may be any.
    pub parents: Members,
}

/// What the foreign keys of new rows of a table say, by the tables after the change.
pub(crate) fn judge_new(
    store: &Store,
    own: &TableStore,
    rows: &RowList,
    keep: bool,
) -> Result<Judged, AllocError>
    requires there { history_at own.now.name store.now ≡ Some own.now }
    requires fits { (table_now own.now).next + length rows.now < 2 ^ 32 }
    ensures stop { IfOk result (λ judged. judged.stop
        ≡ missing_stop own.now.schema.foreign (numbered_rows (table_now own.now).next rows.now)
        (with_changed own.now.name (with_inserted rows.now) (tables_now store.now))) }
    ensures versions { IfOk result (λ judged. IsTrue keep
        → AllByRecursion (IsAtVersion store.now) judged.parents) }
    ensures parents { IfOk result (λ judged. IsTrue keep
        → are_apart (numbered_rows (table_now own.now).next rows.now) (table_now own.now) ≡ true
        → judged.parents
        ≡ parents_now store.now (numbered_rows (table_now own.now).next rows.now) (table_now own.now)) }
{
    let alloc = own.allocator();
    store.tell_formed();
    let referred = refers_to(own, own.name());
    let values = rows.items();
    let next = own.next();
    let given = new_numbers_if(alloc, referred, &own.schema().key, values, next)?;
    let judged = judge_rows(alloc, store, own, &given, &[], values, keep)?;
    Ok(judged)
}

/// What the foreign keys of a table's rows say that get other values, by the tables after the change. `given`
/// has the numbers of these rows by their keys, where a foreign key refers to the table, and `numbers` all of
/// them.
pub(crate) fn judge_values(
    store: &Store,
    own: &TableStore,
    given: &BTreeMap<RowKey, u32>,
    numbers: &[u32],
    rows: &[TableRow],
    keep: bool,
) -> Result<Judged, AllocError>
    requires there { history_at own.now.name store.now ≡ Some own.now }
    requires sorted { are_sorted_rows rows.now ≡ true }
    requires stand { had_rows rows.now (table_now own.now) ≡ true }
    requires given { list_any (λ table. refers_to own.now.name (table_now table)) store.now.tables ≡ true
        → AreGiven given.now own.now.schema.key rows.now }
    requires numbers { numbers.now ≡ map (λ row. row.number) rows.now }
    ensures stop { IfOk result (λ judged. judged.stop ≡ missing_stop own.now.schema.foreign rows.now
        (with_changed own.now.name (with_replaced rows.now) (tables_now store.now))) }
    ensures versions { IfOk result (λ judged. IsTrue keep
        → AllByRecursion (IsAtVersion store.now) judged.parents) }
    ensures parents { IfOk result (λ judged. IsTrue keep → are_apart rows.now (table_now own.now) ≡ true
        → judged.parents ≡ parents_now store.now rows.now (table_now own.now)) }
{
    store.tell_formed();
    let judged = judge_rows(own.allocator(), store, own, given, numbers, rows, keep)?;
    Ok(judged)
}

/// What the foreign keys of given rows say: row by row, and for each row in the order of its foreign keys.
/// `given` has the numbers of the given rows by their keys, and `numbers`, sorted, those of the rows that
/// they replace.
pub(crate) fn judge_rows<R: HasValues>(
    alloc: Global,
    store: &Store,
    own: &TableStore,
    given: &BTreeMap<RowKey, u32>,
    numbers: &[u32],
    rows: &[R],
    keep: bool,
) -> Result<Judged, AllocError>
    requires sorted { are_sorted_numbers numbers.now ≡ true }
    requires keyed { list_all (is_keyed (tables_now store.now)) own.now.schema.foreign ≡ true }
    ensures stop { IfOk result (λ judged. judged.stop ≡ option_map parent_stop
        (missing_in_rows (has_given given.now numbers.now own.now.name) (tables_now store.now)
        own.now.schema.foreign (map R.cells rows.now))) }
    ensures versions { IfOk result (λ judged. IsTrue keep
        → AllByRecursion (IsAtVersion store.now) judged.parents) }
    ensures parents { IfOk result (λ judged. IsTrue keep
        → judged.parents ≡ flat_map (λ row. parents_in_row store.now (number_in given.now) numbers.now
        own.now.name own.now.schema.foreign (R.cells row)) rows.now) }
{
    let mut judged = none_judged(alloc);
    for row in rows {
        judge_row(
            alloc,
            store,
            own,
            given,
            numbers,
            row.values(),
            keep,
            &mut judged,
        )?;
    }
    Ok(judged)
}

// What references say of no rows.
fn none_judged(alloc: Global) -> Judged
    ensures stop { result.stop ≡ None }
    ensures parents { result.parents ≡ [] }
{
    Judged {
        stop: None,
        parents: Listed::new(alloc),
    }
}

// Adds what the foreign keys of one row say.
fn judge_row(
    alloc: Global,
    store: &Store,
    own: &TableStore,
    given: &BTreeMap<RowKey, u32>,
    numbers: &[u32],
    values: &Values,
    keep: bool,
    judged: &mut Judged,
) -> Result<(), AllocError>
    requires sorted { are_sorted_numbers numbers.now ≡ true }
    requires keyed { list_all (is_keyed (tables_now store.now)) own.now.schema.foreign ≡ true }
    ensures stop { OnOk result (judged.new.stop ≡ option_or judged.old.stop
        (stop_in_row store.now given.now numbers.now own.now.name own.now.schema.foreign values.now)) }
    ensures versions { OnOk result (IsTrue keep → AllByRecursion (IsAtVersion store.now) judged.old.parents
        → AllByRecursion (IsAtVersion store.now) judged.new.parents) }
    ensures parents { OnOk result (IsTrue keep
        → judged.new.parents ≡ judged.old.parents ++ parents_in_row store.now (number_in given.now)
        numbers.now own.now.name own.now.schema.foreign values.now) }
{
    judge_by_each(
        alloc,
        store,
        own.name(),
        given,
        numbers,
        values,
        &own.schema().foreign,
        keep,
        judged,
    )?;
    Ok(())
}

// Adds what foreign keys say of values, in their order.
fn judge_by_each(
    alloc: Global,
    store: &Store,
    own: &str,
    given: &BTreeMap<RowKey, u32>,
    numbers: &[u32],
    values: &Values,
    foreigns: &Foreigns,
    keep: bool,
    judged: &mut Judged,
) -> Result<(), AllocError>
    requires sorted { are_sorted_numbers numbers.now ≡ true }
    requires keyed { list_all (is_keyed (tables_now store.now)) foreigns.now ≡ true }
    ensures stop { OnOk result (judged.new.stop ≡ option_or judged.old.stop
        (stop_in_row store.now given.now numbers.now own.now foreigns.now values.now)) }
    ensures versions { OnOk result (IsTrue keep → AllByRecursion (IsAtVersion store.now) judged.old.parents
        → AllByRecursion (IsAtVersion store.now) judged.new.parents) }
    ensures parents { OnOk result (IsTrue keep
        → judged.new.parents ≡ judged.old.parents ++ parents_in_row store.now (number_in given.now)
        numbers.now own.now foreigns.now values.now) }
{
    for foreign in foreigns.items() {
        judge_by(
            alloc, store, own, given, numbers, values, foreign, keep, judged,
        )?;
    }
    Ok(())
}

// Adds what one foreign key says of values. Nothing is looked up where the answer is known and no parents
// are wanted.
fn judge_by(
    alloc: Global,
    store: &Store,
    own: &str,
    given: &BTreeMap<RowKey, u32>,
    numbers: &[u32],
    values: &Values,
    foreign: &Foreign,
    keep: bool,
    judged: &mut Judged,
) -> Result<(), AllocError>
    requires sorted { are_sorted_numbers numbers.now ≡ true }
    requires keyed { is_keyed (tables_now store.now) foreign.now ≡ true }
    ensures stop { OnOk result (judged.new.stop ≡ option_or judged.old.stop
        (stop_by store.now given.now numbers.now own.now values.now foreign.now)) }
    ensures versions { OnOk result (IsTrue keep → AllByRecursion (IsAtVersion store.now) judged.old.parents
        → AllByRecursion (IsAtVersion store.now) judged.new.parents) }
    ensures parents { OnOk result (IsTrue keep
        → judged.new.parents ≡ judged.old.parents ++ option_to_list (parent_by store.now
        (number_in given.now) numbers.now own.now values.now foreign.now)) }
{
    if !keep && judged.stop.is_some() {
        return Ok(());
    }
    if refers_to_none(foreign, values) {
        return Ok(());
    }
    let key = key_of(alloc, &foreign.columns, values)?;
    judge_key(store, own, given, numbers, foreign, key, keep, judged)?;
    Ok(())
}

// Adds what a key says to which a row refers: its parent, or that none has it.
fn judge_key(
    store: &Store,
    own: &str,
    given: &BTreeMap<RowKey, u32>,
    numbers: &[u32],
    foreign: &Foreign,
    key: RowKey,
    keep: bool,
    judged: &mut Judged,
) -> Result<(), AllocError>
    requires sorted { are_sorted_numbers numbers.now ≡ true }
    requires keyed { is_keyed (tables_now store.now) foreign.now ≡ true }
    ensures stop { OnOk result (judged.new.stop ≡ option_or judged.old.stop
        (stop_of_key store.now given.now numbers.now own.now foreign.now key.values)) }
    ensures versions { OnOk result (IsTrue keep → AllByRecursion (IsAtVersion store.now) judged.old.parents
        → AllByRecursion (IsAtVersion store.now) judged.new.parents) }
    ensures parents { OnOk result (IsTrue keep
        → judged.new.parents ≡ judged.old.parents ++ option_to_list (parent_in store.now
        (number_in given.now) numbers.now own.now foreign.now
        (table_at foreign.now.parent (tables_now store.now)) (Some key.values))) }
{
    store.tell_formed();
    match store.table(foreign.parent.as_str()) {
        None => note_missing(foreign, key, judged)?,
        Some(parent) => {
            parent.tell_order();
            match parent_number(parent, own, given, numbers, &key) {
                None => note_missing(foreign, key, judged)?,
                Some(number) => note_parent(parent, number, keep, judged)?,
            }
        }
    }
    Ok(())
}

// Notes a key that no row of the parent has, unless an earlier one is noted.
fn note_missing(foreign: &Foreign, key: RowKey, judged: &mut Judged) -> Result<(), AllocError>
    ensures stop { OnOk result (judged.new.stop
        ≡ option_or judged.old.stop (Some (NoParent foreign.now.parent key.values))) }
    ensures parents { OnOk result (judged.new.parents ≡ judged.old.parents) }
{
    if judged.stop.is_some() {
        return Ok(());
    }
    let table = foreign.parent.copy()?;
    judged.stop = Some(StoreStop::NoParent {
        table,
        key: key.values,
    });
    Ok(())
}

// Notes a parent at its version now, where it stands, if parents are wanted.
fn note_parent(
    parent: &TableStore,
    number: u32,
    keep: bool,
    judged: &mut Judged,
) -> Result<(), AllocError>
    ensures stop { OnOk result (judged.new.stop ≡ judged.old.stop) }
    ensures parents { OnOk result (IsTrue keep
        → judged.new.parents ≡ judged.old.parents ++ option_to_list (member_at parent.now number)) }
{
    if !keep {
        return Ok(());
    }
    let member = member_at(parent, number)?;
    judged.parents.push_some(member)?;
    Ok(())
}
