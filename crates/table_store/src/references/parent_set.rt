//! The rows to which given rows would refer once they are put into their table, in order, each once.
//!
//! A row that isn't given keeps its key, so the index finds it. A given row may have any key, which other
//! given rows may have too: its key is looked up among those that are asked for.

ghost use Rattle.std.specs.Prelude.{◌≡◌, ◌||◌, ◌<◌, ℕ, List, [], ◌∷◌, length, map, true};
ghost use Rattle.std.specs.Prelude.{Some, None, IfOk, OnOk};
ghost use Rattle.std.specs.BTreeMap.{get};
ghost use Rattle.std.specs.BTreeSet.{contains, IsOrdered};
ghost use Rattle.std.specs.List.{AllByRecursion, list_all};
ghost use Rattle.std.specs.Option.{option_and_then, option_map_or, option_or};
ghost use Rattle.std.specs.Ordering.{nat_cmp};
ghost use Rattle.sql_model.specs.Scope.{same_text, table_at};
ghost use Rattle.table_store.specs.Histories.{history_at, history_of_row, table_now, tables_now, version_now};
ghost use Rattle.table_store.specs.Referring.{parents_in_order, version_at, IsAtVersion};
ghost use Rattle.table_store.specs.Stops.{has_number};
ghost use Rattle.table_store.specs.Types.{Value};
ghost use Rattle.table_store.specs.inner.Afterwards.{in_set, is_keyed};
ghost use Rattle.table_store.specs.inner.ParentSet.{asks, asks_in_row, asks_in_rows, is_asked, is_kept};
ghost use Rattle.table_store.specs.inner.ParentSet.{is_put, is_row, kept_by, kept_in, kept_in_row};
ghost use Rattle.table_store.specs.inner.ParentSet.{kept_in_rows, kept_number, key_put, name_order};
ghost use Rattle.table_store.specs.inner.ParentSet.{name_stands, named_now, put_at, put_in_rows};
ghost use Rattle.table_store.specs.inner.ParentSet.{unless_put, RowName};

use crate::keys::index::key_of;
use crate::references::parent_rows::is_own;
use crate::store::Store;
use crate::table::TableStore;
use ldv_value::{List as Listed, Places, Utf8, Values};
use sql_model::{Foreign, Foreigns, Member, Members, RowKey, TableRow, refers_to_none};
use std::alloc::{AllocError, Global};
use std::collections::{BTreeMap, BTreeSet};

/// The live rows, at their versions now, to which given rows would refer once they were put into their table:
/// sorted by table and number, each once.
pub(crate) fn parents_in_order(
    store: &Store,
    own: &TableStore,
    rows: &[TableRow],
) -> Result<Members, AllocError>
    requires { history_at own.now.name store.now ≡ Some own.now }
    ensures versions { IfOk result (λ members. AllByRecursion (IsAtVersion store.now) members) }
    ensures parents { IfOk result (λ members.
        members ≡ parents_in_order store.now rows.now (table_now own.now)) }
{
    store.tell_formed();
    let found = found_rows(store, own, rows)?;
    let members = members_of(own.allocator(), store, found)?;
    Ok(members)
}

// The rows to which given rows would refer.
fn found_rows(
    store: &Store,
    own: &TableStore,
    rows: &[TableRow],
) -> Result<BTreeSet<(Utf8, u32)>, AllocError>
    requires { list_all (is_keyed (tables_now store.now)) own.now.schema.foreign ≡ true }
    ensures { IfOk result (λ found. (row : RowName) → contains name_order found row
        ≡ (kept_in_rows (key_put own.now.schema.key rows.now) (tables_now store.now) own.now.name
        own.now.schema.foreign rows.now row
        || put_in_rows (asks_in_rows own.now.name own.now.schema.foreign rows.now)
        (key_put own.now.schema.key rows.now) (table_now own.now) rows.now row)) }
{
    let given = keys_put(own.allocator(), &own.schema().key, rows)?;
    let found = found_among(store, own, &given, rows)?;
    Ok(found)
}

// The rows to which given rows, whose keys are given by their numbers, would refer.
fn found_among(
    store: &Store,
    own: &TableStore,
    given: &BTreeMap<u32, RowKey>,
    rows: &[TableRow],
) -> Result<BTreeSet<(Utf8, u32)>, AllocError>
    requires { list_all (is_keyed (tables_now store.now)) own.now.schema.foreign ≡ true }
    ensures { IfOk result (λ found. (row : RowName) → contains name_order found row
        ≡ (kept_in_rows (get nat_cmp given.now) (tables_now store.now) own.now.name
        own.now.schema.foreign rows.now row
        || put_in_rows (asks_in_rows own.now.name own.now.schema.foreign rows.now) (get nat_cmp given.now)
        (table_now own.now) rows.now row)) }
{
    let alloc = own.allocator();
    let mut found = kept_rows(alloc, store, own.name(), &own.schema().foreign, given, rows)?;
    add_asked(alloc, own, given, rows, &mut found)?;
    Ok(found)
}

// ---- given rows

// The keys of given rows by their numbers. Of rows of one number the first counts.
fn keys_put(
    alloc: Global,
    key: &Places,
    rows: &[TableRow],
) -> Result<BTreeMap<u32, RowKey>, AllocError>
    ensures { IfOk result (λ given. (number : ℕ) → get nat_cmp given number
        ≡ key_put key.now rows.now number) }
{
    let mut given = BTreeMap::new(alloc);
    for row in rows {
        put_first(alloc, key, row, &mut given)?;
    }
    Ok(given)
}

// Stores the key of a row under its number, unless a row before it has the number.
fn put_first(
    alloc: Global,
    key: &Places,
    row: &TableRow,
    given: &mut BTreeMap<u32, RowKey>,
) -> Result<(), AllocError>
    ensures { OnOk result ((number : ℕ) → get nat_cmp given.new number
        ≡ option_or (get nat_cmp given.old number) (key_put key.now (row.now ∷ []) number)) }
{
    if given.contains_key(&row.number) {
        return Ok(());
    }
    let made = key_of(alloc, key, &row.values)?;
    given.insert(row.number, made)?;
    Ok(())
}

// ---- keys of the own table to which given rows refer

fn asked_keys(
    alloc: Global,
    own: &str,
    foreigns: &Foreigns,
    rows: &[TableRow],
) -> Result<BTreeSet<RowKey>, AllocError>
    ensures { IfOk result (λ asked. (key : List Value) → in_set asked key
        ≡ asks_in_rows own.now foreigns.now rows.now key) }
{
    let mut asked = BTreeSet::new(alloc);
    for row in rows {
        ask_in_row(alloc, own, foreigns, &row.values, &mut asked)?;
    }
    Ok(asked)
}

fn ask_in_row(
    alloc: Global,
    own: &str,
    foreigns: &Foreigns,
    values: &Values,
    asked: &mut BTreeSet<RowKey>,
) -> Result<(), AllocError>
    ensures { OnOk result ((key : List Value) → in_set asked.new key
        ≡ (in_set asked.old key || asks_in_row own.now foreigns.now values.now key)) }
{
    for foreign in foreigns.items() {
        ask_by(alloc, own, values, foreign, asked)?;
    }
    Ok(())
}

// Adds the key to which values refer by a foreign key of which the own table is the parent.
fn ask_by(
    alloc: Global,
    own: &str,
    values: &Values,
    foreign: &Foreign,
    asked: &mut BTreeSet<RowKey>,
) -> Result<(), AllocError>
    ensures { OnOk result ((key : List Value) → in_set asked.new key
        ≡ (in_set asked.old key || asks own.now values.now key foreign.now)) }
{
    if !is_parent(foreign, own) {
        return Ok(());
    }
    if refers_to_none(foreign, values) {
        return Ok(());
    }
    let key = key_of(alloc, &foreign.columns, values)?;
    asked.insert(key)?;
    Ok(())
}

fn is_parent(foreign: &Foreign, own: &str) -> bool
    ensures { result ≡ same_text foreign.now.parent own.now }
{
    foreign.parent.as_str() == own
}

// ---- rows that aren't given

fn kept_rows(
    alloc: Global,
    store: &Store,
    own: &str,
    foreigns: &Foreigns,
    given: &BTreeMap<u32, RowKey>,
    rows: &[TableRow],
) -> Result<BTreeSet<(Utf8, u32)>, AllocError>
    requires { list_all (is_keyed (tables_now store.now)) foreigns.now ≡ true }
    ensures { IfOk result (λ found. (row : RowName) → contains name_order found row
        ≡ kept_in_rows (get nat_cmp given.now) (tables_now store.now) own.now foreigns.now rows.now row) }
{
    let mut found = BTreeSet::new(alloc);
    for row in rows {
        add_kept_in_row(alloc, store, own, foreigns, given, &row.values, &mut found)?;
    }
    Ok(found)
}

fn add_kept_in_row(
    alloc: Global,
    store: &Store,
    own: &str,
    foreigns: &Foreigns,
    given: &BTreeMap<u32, RowKey>,
    values: &Values,
    found: &mut BTreeSet<(Utf8, u32)>,
) -> Result<(), AllocError>
    requires { list_all (is_keyed (tables_now store.now)) foreigns.now ≡ true }
    ensures { OnOk result ((row : RowName) → contains name_order found.new row
        ≡ (contains name_order found.old row
        || kept_in_row (get nat_cmp given.now) (tables_now store.now) own.now foreigns.now values.now row)) }
{
    for foreign in foreigns.items() {
        add_kept(alloc, store, own, given, values, foreign, found)?;
    }
    Ok(())
}

// Adds the row that isn't given to which values refer by a foreign key.
fn add_kept(
    alloc: Global,
    store: &Store,
    own: &str,
    given: &BTreeMap<u32, RowKey>,
    values: &Values,
    foreign: &Foreign,
    found: &mut BTreeSet<(Utf8, u32)>,
) -> Result<(), AllocError>
    requires { is_keyed (tables_now store.now) foreign.now ≡ true }
    ensures { OnOk result ((row : RowName) → contains name_order found.new row
        ≡ (contains name_order found.old row
        || is_kept (get nat_cmp given.now) (tables_now store.now) own.now values.now row foreign.now)) }
{
    let kept = kept_by(alloc, store, own, given, values, foreign)?;
    match kept {
        None => Ok(()),
        Some(number) => {
            let table = foreign.parent.copy()?;
            add_row(table, number, found)?;
            Ok(())
        }
    }
}

// The number of the row that isn't given to which values refer by a foreign key.
fn kept_by(
    alloc: Global,
    store: &Store,
    own: &str,
    given: &BTreeMap<u32, RowKey>,
    values: &Values,
    foreign: &Foreign,
) -> Result<Option<u32>, AllocError>
    requires { is_keyed (tables_now store.now) foreign.now ≡ true }
    ensures { IfOk result (λ number. number
        ≡ kept_by (get nat_cmp given.now) (tables_now store.now) own.now values.now foreign.now) }
{
    if refers_to_none(foreign, values) {
        return Ok(None);
    }
    let key = key_of(alloc, &foreign.columns, values)?;
    Ok(kept_in(store, own, given, foreign, &key.values))
}

// The number of the row of a foreign key's parent that has a key and isn't given.
fn kept_in(
    store: &Store,
    own: &str,
    given: &BTreeMap<u32, RowKey>,
    foreign: &Foreign,
    key: &Values,
) -> Option<u32>
    requires { is_keyed (tables_now store.now) foreign.now ≡ true }
    ensures { result ≡ kept_in (get nat_cmp given.now) own.now
        (table_at foreign.now.parent (tables_now store.now)) (Some key.now) }
{
    match store.table(foreign.parent.as_str()) {
        None => None,
        Some(parent) => kept_number(parent, own, given, key),
    }
}

// The number of the row of a table that has a key and isn't given.
fn kept_number(
    parent: &TableStore,
    own: &str,
    given: &BTreeMap<u32, RowKey>,
    key: &Values,
) -> Option<u32>
    requires { 0 < length parent.now.schema.key }
    ensures { result ≡ kept_number (get nat_cmp given.now) own.now (table_now parent.now) key.now }
{
    let number = parent.by_key(key);
    if is_own(parent, own) {
        unless_put(given, number)
    } else {
        number
    }
}

fn unless_put(given: &BTreeMap<u32, RowKey>, number: Option<u32>) -> Option<u32>
    ensures { result ≡ unless_put (get nat_cmp given.now) number }
{
    match number {
        None => None,
        Some(number) => {
            if given.contains_key(&number) {
                None
            } else {
                Some(number)
            }
        }
    }
}

// ---- given rows that are asked for

// Adds the given rows that stand and have a key then to which a given row refers.
fn add_asked(
    alloc: Global,
    own: &TableStore,
    given: &BTreeMap<u32, RowKey>,
    rows: &[TableRow],
    found: &mut BTreeSet<(Utf8, u32)>,
) -> Result<(), AllocError>
    ensures { OnOk result ((row : RowName) → contains name_order found.new row
        ≡ (contains name_order found.old row
        || put_in_rows (asks_in_rows own.now.name own.now.schema.foreign rows.now) (get nat_cmp given.now)
        (table_now own.now) rows.now row)) }
{
    let asked = asked_keys(alloc, own.name(), &own.schema().foreign, rows)?;
    add_put_rows(own, &asked, given, rows, found)?;
    Ok(())
}

fn add_put_rows(
    own: &TableStore,
    asked: &BTreeSet<RowKey>,
    given: &BTreeMap<u32, RowKey>,
    rows: &[TableRow],
    found: &mut BTreeSet<(Utf8, u32)>,
) -> Result<(), AllocError>
    ensures { OnOk result ((row : RowName) → contains name_order found.new row
        ≡ (contains name_order found.old row
        || put_in_rows (in_set asked.now) (get nat_cmp given.now) (table_now own.now) rows.now row)) }
{
    for row in rows {
        add_put(own, asked, given, row.number, found)?;
    }
    Ok(())
}

fn add_put(
    own: &TableStore,
    asked: &BTreeSet<RowKey>,
    given: &BTreeMap<u32, RowKey>,
    number: u32,
    found: &mut BTreeSet<(Utf8, u32)>,
) -> Result<(), AllocError>
    ensures { OnOk result ((row : RowName) → contains name_order found.new row
        ≡ (contains name_order found.old row
        || put_at (in_set asked.now) (get nat_cmp given.now) (table_now own.now) row number)) }
{
    if !is_put(own, asked, given, number) {
        return Ok(());
    }
    let table = own.copy_name()?;
    add_row(table, number, found)?;
    Ok(())
}

// Whether a given row stands and has a key then that is asked for.
fn is_put(
    own: &TableStore,
    asked: &BTreeSet<RowKey>,
    given: &BTreeMap<u32, RowKey>,
    number: u32,
) -> bool
    ensures { result ≡ is_put (in_set asked.now) (get nat_cmp given.now) (table_now own.now) number }
{
    stands(own, number) && is_asked(asked, given, number)
}

// Whether a table has a live row of a number.
fn stands(own: &TableStore, number: u32) -> bool
    ensures { result ≡ has_number (table_now own.now) number }
{
    own.tell_order();
    own.version(number).is_some()
}

// Whether the key that the row of a number has then is asked for.
fn is_asked(asked: &BTreeSet<RowKey>, given: &BTreeMap<u32, RowKey>, number: u32) -> bool
    ensures { result ≡ is_asked (in_set asked.now) (get nat_cmp given.now number) }
{
    match given.get(&number) {
        None => false,
        Some(key) => has_asked(asked, key),
    }
}

fn has_asked(asked: &BTreeSet<RowKey>, key: &RowKey) -> bool
    ensures { result ≡ in_set asked.now key.now.values }
{
    asked.contains(key)
}

// ---- rows by the names of their tables

fn add_row(table: Utf8, number: u32, found: &mut BTreeSet<(Utf8, u32)>) -> Result<(), AllocError>
    ensures { OnOk result ((row : RowName) → contains name_order found.new row
        ≡ (contains name_order found.old row || is_row (table, number) row)) }
{
    found.insert((table, number))?;
    Ok(())
}

// Rows at their versions now, in their order.
fn members_of(
    alloc: Global,
    store: &Store,
    found: BTreeSet<(Utf8, u32)>,
) -> Result<Members, AllocError>
    requires { (row : RowName) → contains name_order found row ≡ true
        → name_stands (tables_now store.now) row ≡ true }
    ensures ordered { OnOk result (IsOrdered name_order found) }
    ensures versions { IfOk result (λ members. AllByRecursion (IsAtVersion store.now) members) }
    ensures members { IfOk result (λ members. members ≡ map (named_now store.now) found.keys) }
{
    let mut members = Listed::with_capacity(alloc, found.len())?;
    let mut left = found;
    while let Some((table, row)) = left.pop_first() {
        let version = version_at(store, table.as_str(), row);
        members.push(Member {
            table,
            row,
            version,
        })?;
    }
    Ok(members)
}

// The version of a row now; 0 where it doesn't stand.
fn version_at(store: &Store, table: &str, row: u32) -> u32
    ensures version { result ≡ version_at store.now table.now row }
    ensures stands { name_stands (tables_now store.now) (table.now, row) ≡ true
        → option_and_then (λ history. version_now (history_of_row row history.slots))
        (history_at table.now store.now) ≡ Some result }
{
    match store.table(table) {
        None => 0,
        Some(held) => version_in(held, row),
    }
}

fn version_in(table: &TableStore, row: u32) -> u32
    ensures version { result ≡ option_map_or (λ version. version)
        (version_now (history_of_row row table.now.slots)) 0 }
    ensures stands { has_number (table_now table.now) row ≡ true
        → version_now (history_of_row row table.now.slots) ≡ Some result }
{
    table.tell_order();
    match table.version(row) {
        None => 0,
        Some(version) => version,
    }
}
