//! Versions, keys and slots of the tables of an engine after changes, by the calls of its store. The expected
//! values were worked out by hand.

ghost use Rattle.std.specs.Prelude.{◌≡◌, ◌+◌, ◌/◌, ◌<◌, IfOk, IfSome, IsSome, IsTrue, Some, false, length};
ghost use Rattle.std.specs.Prelude.{slice_get};
ghost use Rattle.std.specs.Option.{option_map};
ghost use Rattle.sql_model.specs.Scope.{table_at};
ghost use Rattle.table_store.specs.Histories.{history_at, tables_now};

use crate::asked::{Case, ask_all, engine_of_t};
use ldv_value::{Cmp, Value, Values};
use run_model::{Events, ListTracer, NullTracer, Tracer};
use sql_engine::Engine;
use std::alloc::{AllocError, Global};
use std::process::Abort;
use std::test::Fail;
use table_store::{Store, TableStore};

/// Whether a store has a table.
pub(crate) fn is_there(store: &Store, name: &str) -> bool
    ensures { IsTrue result → IsSome (table_at name.now (tables_now store.now)) }
{
    match store.table(name) {
        None => false,
        Some(_held) => true,
    }
}

fn has_key(held: &TableStore) -> bool
    ensures { IsTrue result → 0 < length held.now.schema.key }
{
    !held.schema().key.is_empty()
}

fn is_keyed(store: &Store, name: &str) -> bool
    ensures { IsTrue result → IfSome (table_at name.now (tables_now store.now))
        (λ table. 0 < length table.schema.key) }
{
    match store.table(name) {
        None => false,
        Some(held) => has_key(held),
    }
}

fn is_of_numbers(held: &TableStore, column: usize) -> bool
    ensures { IsTrue result → option_map (λ column. column.text)
        (slice_get held.now.schema.columns column) ≡ Some false }
{
    match held.schema().columns.get(column) {
        None => false,
        Some(found) => !found.text,
    }
}

fn has_numbers(store: &Store, name: &str, column: usize) -> bool
    ensures { IsTrue result → IfSome (history_at name.now store.now)
        (λ history. option_map (λ column. column.text) (slice_get history.schema.columns column)
        ≡ Some false) }
{
    match store.table(name) {
        None => false,
        Some(held) => is_of_numbers(held, column),
    }
}

fn is_version(store: &Store, name: &str, row: u32, want: Option<u32>) -> bool {
    is_there(store, name) && store.version(name, row) == want
}

fn expect_version(rt: &impl Abort, store: &Store, row: u32, want: Option<u32>) {
    assert!(rt; is_version(store, "t", row, want), "version of row {row}");
}

fn expect_versions(rt: &impl Abort, store: &Store, wants: &[(u32, Option<u32>)]) {
    for want in wants {
        expect_version(rt, store, want.0, want.1);
    }
}

fn is_slot(store: &Store, name: &str, slot: u64, want: Option<u32>) -> bool {
    is_there(store, name) && store.slot_row(name, slot) == want
}

fn key_of(alloc: Global, number: i64) -> Result<Values, AllocError> {
    let mut key = Values::new(alloc);
    key.push(Value::Int(number))?;
    Ok(key)
}

fn is_by_key(store: &Store, name: &str, key: &Values, want: Option<u32>) -> bool {
    is_there(store, name) && is_keyed(store, name) && store.by_key(name, key) == want
}

fn is_key(
    alloc: Global,
    store: &Store,
    number: i64,
    want: Option<u32>,
) -> Result<bool, AllocError> {
    let key = key_of(alloc, number)?;
    Ok(is_by_key(store, "t", &key, want))
}

fn expect_key(
    rt: &impl Abort,
    alloc: Global,
    store: &Store,
    number: i64,
    want: Option<u32>,
) -> Result<(), AllocError> {
    assert!(rt; is_key(alloc, store, number, want)?, "key {number}");
    Ok(())
}

fn expect_keys(
    rt: &impl Abort,
    alloc: Global,
    store: &Store,
    wants: &[(i64, Option<u32>)],
) -> Result<(), AllocError> {
    for want in wants {
        expect_key(rt, alloc, store, want.0, want.1)?;
    }
    Ok(())
}

fn changes() -> [Case; 6] {
    [
        ("UPDATE t SET v = v + 1 WHERE k = 2", "changed 1"),
        ("INSERT INTO t VALUES (3, 'z', 1)", "refused 6"),
        ("DELETE FROM t WHERE k = 3", "changed 1"),
        ("INSERT INTO t VALUES (3, 'n', 1)", "changed 1"),
        ("UPDATE t SET k = k + 1", "changed 5"),
        ("SELECT z FROM t", "refused 3"),
    ]
}

fn last_versions() -> [(u32, Option<u32>); 6] {
    [
        (0, Some(1)),
        (1, Some(2)),
        (2, None),
        (3, Some(1)),
        (5, Some(1)),
        (6, None),
    ]
}

// The key of the deleted row is taken again, and then all keys move.
fn last_keys() -> [(i64, Option<u32>); 5] {
    [
        (1, None),
        (2, Some(0)),
        (3, Some(1)),
        (4, Some(5)),
        (7, None),
    ]
}

fn expect_last(rt: &impl Abort, alloc: Global, store: &Store) -> Result<(), AllocError> {
    expect_versions(rt, store, &last_versions());
    expect_keys(rt, alloc, store, &last_keys())
}

fn expect_changes_in<T: Tracer>(
    rt: &impl Abort,
    alloc: Global,
    engine: &mut Engine,
    tracer: &mut T,
) -> Result<(), AllocError>
    requires { engine.old.time ≡ 0 }
{
    ask_all(rt, alloc, engine, &changes(), tracer)?;
    expect_last(rt, alloc, engine.store())
}

// The changes of the table t, and what they leave.
fn expect_changes<T: Tracer>(
    rt: &impl Abort,
    alloc: Global,
    tracer: &mut T,
) -> Result<(), AllocError> {
    let mut engine = engine_of_t(rt, alloc)?;
    expect_changes_in(rt, alloc, &mut engine, tracer)
}

#[test]
fn keeps_versions_and_keys(rt: HostRuntime) -> Result<(), Fail> {
    expect_changes(&rt, rt.alloc(), &mut NullTracer)?;
    Ok(())
}

fn events_of_changes(rt: &impl Abort, alloc: Global) -> Result<Events, AllocError> {
    let mut tracer = ListTracer::new(alloc);
    expect_changes(rt, alloc, &mut tracer)?;
    Ok(tracer.events())
}

// The replies and the tables are the same, and each statement is noted, refused or not.
#[test]
fn keeps_the_same_while_traced(rt: HostRuntime) -> Result<(), Fail> {
    let events = events_of_changes(&rt, rt.alloc())?;
    assert!(rt; events.len() == 6);
    Ok(())
}

// A word for each 64 slots, rounded up.
fn words_for(slots: u64) -> usize
    ensures { result ≡ (slots + 63) / 64 }
{
    let words = (slots / 64) as usize;
    if slots % 64 == 0 { words } else { words + 1 }
}

fn mask_for(alloc: Global, store: &Store, name: &str) -> Result<Vec<u64>, AllocError>
    requires { IsSome (table_at name.now (tables_now store.now)) }
    ensures { IfOk result (λ mask. IfSome (history_at name.now store.now)
        (λ history. length mask.items ≡ (length history.slots + 63) / 64)) }
{
    let count = words_for(store.slots(name));
    let mask = vec![in alloc; 0u64; count]?;
    Ok(mask)
}

fn scan_mask(
    alloc: Global,
    store: &Store,
    name: &str,
    column: usize,
) -> Result<Vec<u64>, AllocError>
    requires there { IsSome (table_at name.now (tables_now store.now)) }
    requires numbers { IfSome (history_at name.now store.now)
        (λ history. option_map (λ column. column.text) (slice_get history.schema.columns column)
        ≡ Some false) }
{
    let mut mask = mask_for(alloc, store, name)?;
    store.scan(name, column as u64, Cmp::Ge, 10, mask.as_mut_slice());
    Ok(mask)
}

// Whether these are the rows with a number from 10 on in a column of INT.
fn is_scan(
    alloc: Global,
    store: &Store,
    name: &str,
    column: usize,
    want: &[u64],
) -> Result<bool, AllocError> {
    if !is_there(store, name) || !has_numbers(store, name, column) {
        return Ok(false);
    }
    let mask = scan_mask(alloc, store, name, column)?;
    Ok(mask.as_slice() == want)
}

fn expect_scan(
    rt: &impl Abort,
    alloc: Global,
    store: &Store,
    first: Option<u32>,
    want: &[u64],
) -> Result<(), AllocError> {
    assert!(rt; is_slot(store, "t", 0, first));
    assert!(rt; is_scan(alloc, store, "t", 2, want)?);
    Ok(())
}

fn deletion() -> [Case; 1] {
    [("DELETE FROM t WHERE k = 1", "changed 1")]
}

fn expect_others(rt: &impl Abort, alloc: Global, engine: &mut Engine) -> Result<(), AllocError>
    requires { engine.old.time ≡ 0 }
{
    ask_all(rt, alloc, engine, &deletion(), &mut NullTracer)?;
    expect_keys(rt, alloc, engine.store(), &[(1, None), (2, Some(1))])?;
    expect_scan(rt, alloc, engine.store(), None, &[18])
}

#[test]
fn scans_rows_that_stand(rt: HostRuntime) -> Result<(), Fail> {
    let mut engine = engine_of_t(&rt, rt.alloc())?;
    expect_scan(&rt, rt.alloc(), engine.store(), Some(0), &[19])?;
    expect_others(&rt, rt.alloc(), &mut engine)?;
    Ok(())
}
