//! The rows of a table to which given rows of it would refer. The expected rows were worked out by hand.

use crate::rows::push_number;
use crate::schemas::schema;
use crate::stored::expect_database;
use crate::times::is_there;
use ldv_value::{Places, Utf8, Values};
use sql_model::{Foreign, Member, Members, Schema, Table, TableRow, TableRows, Tables};
use std::alloc::{AllocError, Global};
use std::process::Abort;
use std::test::Fail;
use table_store::Store;

// The number of a row of p, its k, and the k to which it refers by v.
type Row = (u32, i64, Option<i64>);

// The schema of t, where v refers to p itself.
fn schema_of_p(alloc: Global) -> Result<Schema, AllocError> {
    let mut schema = schema(alloc)?;
    let mut columns = Places::new(alloc);
    columns.push(2)?;
    let parent = Utf8::of(alloc, "p")?;
    schema.foreign.push(Foreign { columns, parent })?;
    Ok(schema)
}

fn values_of(alloc: Global, row: &Row) -> Result<Values, AllocError> {
    let mut values = Values::new(alloc);
    push_number(&mut values, Some(row.1))?;
    push_number(&mut values, None)?;
    push_number(&mut values, row.2)?;
    Ok(values)
}

fn rows_of(alloc: Global, rows: &[Row]) -> Result<TableRows, AllocError> {
    let mut made = TableRows::new(alloc);
    for row in rows {
        let values = values_of(alloc, row)?;
        made.push(TableRow {
            number: row.0,
            values,
        })?;
    }
    Ok(made)
}

fn tables_of_p(alloc: Global) -> Result<Tables, AllocError> {
    let name = Utf8::of(alloc, "p")?;
    let schema = schema_of_p(alloc)?;
    let rows = rows_of(
        alloc,
        &[(0, 1, None), (1, 2, Some(1)), (2, 3, Some(2)), (3, 4, None)],
    )?;
    let mut tables = Tables::new(alloc);
    tables.push(Table {
        name,
        schema,
        rows,
        next: 4,
    })?;
    Ok(tables)
}

fn store_of_p(rt: &impl Abort, alloc: Global) -> Result<Store, AllocError> {
    let tables = tables_of_p(alloc)?;
    expect_database(rt, alloc, tables.items())?;
    Store::of_tables(alloc, tables)
}

fn are_first(members: &Members, rows: &[u32]) -> bool {
    if members.len() != rows.len() {
        return false;
    }
    for (member, row) in members.items().iter().zip(rows) {
        if !is_first(member, *row) {
            return false;
        }
    }
    true
}

// Whether a member is a row of p at version 0.
fn is_first(member: &Member, row: u32) -> bool {
    member.table.as_str() == "p" && member.row == row && member.version == 0
}

fn refer_to(alloc: Global, store: &Store, given: &[Row], rows: &[u32]) -> Result<bool, AllocError> {
    let given = rows_of(alloc, given)?;
    if !is_there(store, "p") {
        return Ok(false);
    }
    let members = store.parents_of("p", &given)?;
    Ok(are_first(&members, rows))
}

fn expect_parents(
    rt: &impl Abort,
    alloc: Global,
    store: &Store,
    given: &[Row],
    rows: &[u32],
) -> Result<(), AllocError> {
    assert!(rt; refer_to(alloc, store, given, rows)?);
    Ok(())
}

// Row 2 takes the key of row 0, which keeps it, and a new row refers to itself. The order of given rows is
// none of the list's.
#[test]
fn lists_rows_that_share_a_key(rt: HostRuntime) -> Result<(), Fail> {
    let alloc = rt.alloc();
    let store = store_of_p(&rt, alloc)?;
    let given = [(4, 9, Some(9)), (2, 1, Some(1)), (0, 1, Some(2))];
    expect_parents(&rt, alloc, &store, &given, &[0, 1, 2])?;
    Ok(())
}

// A key that a given row had before is gone, and one that it gets is there. A row to which two refer is
// listed once.
#[test]
fn lists_rows_by_their_new_keys(rt: HostRuntime) -> Result<(), Fail> {
    let alloc = rt.alloc();
    let store = store_of_p(&rt, alloc)?;
    let given = [
        (3, 7, Some(3)),
        (2, 5, Some(4)),
        (1, 6, Some(7)),
        (0, 8, Some(7)),
    ];
    expect_parents(&rt, alloc, &store, &given, &[3])?;
    Ok(())
}
