//! The results of changes.

ghost use Rattle.std.specs.Prelude.{◌≡◌, ◌+◌, ◌<◌, ◌^◌, Some, IfOk, IfSome, IsSome, length, map};
ghost use Rattle.std.specs.Prelude.{nat_lt, false};
ghost use Rattle.std.specs.List.{AllByRecursion};
ghost use Rattle.ldv_value.specs.Limits.{max_next};
ghost use Rattle.dml_versions.specs.Changing.{matched_change, inserted_change, refused_change};
ghost use Rattle.dml_versions.specs.Changing.{refused_by, reply_alone, change_with_lists, IsChildThere};
ghost use Rattle.dml_versions.specs.inner.Needing.{inserted_member};
ghost use Rattle.dml_versions.specs.Versions.{versions_now};
ghost use Rattle.table_store.specs.Histories.{history_at, tables_now};
ghost use Rattle.sql_model.specs.Changes.{numbered_rows};

use crate::found::FoundRows;
use crate::needs::{inserted_members, made_of, with_child_row, with_key_rows};
use crate::tables::table_of;
use ldv_value::{List, MAX_NEXT, RowList, Utf8};
use sql_model::{Members, Needs, Reply, SqlRefusal};
use std::alloc::{AllocError, Global};
use table_store::{Store, StoreStop, TableStore};

/// The reply to a statement, the versions that it made, and the rows that it needed, at their versions. Both
/// lists are sorted by table and row number. If the caller keeps no lists, they may be anything.
#[derive(Drop)]
pub struct Change {
    pub reply: Reply,
    pub made: Members,
    pub needs: Needs,
}

// A change of which no lists are kept.
fn reply_alone(alloc: Global, reply: Reply) -> Change
    ensures { result ≡ reply_alone reply }
{
    Change {
        reply,
        made: List::new(alloc),
        needs: List::new(alloc),
    }
}

// A change of matched rows with its lists.
fn matched_lists(
    alloc: Global,
    name: &Utf8,
    found: &FoundRows,
    needs: Needs,
) -> Result<Change, AllocError>
    requires { AllByRecursion (λ row. row.version + 1 < 2 ^ 32) found.now }
    ensures { IfOk result (λ change. change ≡ matched_change name.now found.now needs) }
{
    Ok(Change {
        reply: Reply::Changed(found.len() as u64),
        made: made_of(alloc, name, found)?,
        needs,
    })
}

/// The result of an accepted change of matched rows, with its lists if `keep` is true. `needs` has the
/// matched rows and the parents of their new values.
pub(crate) fn matched_change(
    alloc: Global,
    name: &Utf8,
    found: &FoundRows,
    needs: Needs,
    keep: bool,
) -> Result<Change, AllocError>
    requires { AllByRecursion (λ row. row.version + 1 < 2 ^ 32) found.now }
    ensures { IfOk result (λ change. change
        ≡ change_with_lists keep (matched_change name.now found.now needs)) }
{
    if keep {
        matched_lists(alloc, name, found, needs)
    } else {
        Ok(reply_alone(alloc, Reply::Changed(found.len() as u64)))
    }
}

// An INSERT with its lists.
fn inserted_lists(
    alloc: Global,
    name: &Utf8,
    next: u32,
    rows: &RowList,
    needs: Needs,
) -> Result<Change, AllocError>
    ensures { IfOk result (λ change. nat_lt max_next (next + length rows.now) ≡ false
        → change ≡ inserted_change name.now next rows.now needs) }
{
    Ok(Change {
        reply: Reply::Changed(rows.len() as u64),
        made: made_within(alloc, name, next, rows)?,
        needs,
    })
}

/// The result of an accepted INSERT, with its lists if `keep` is true. Its rows are numbered from `next` on,
/// and `needs` has their parents.
pub(crate) fn inserted_change(
    alloc: Global,
    name: &Utf8,
    next: u32,
    rows: &RowList,
    needs: Needs,
    keep: bool,
) -> Result<Change, AllocError>
    ensures { IfOk result (λ change. nat_lt max_next (next + length rows.now) ≡ false
        → change ≡ change_with_lists keep (inserted_change name.now next rows.now needs)) }
{
    if keep {
        inserted_lists(alloc, name, next, rows, needs)
    } else {
        Ok(reply_alone(alloc, Reply::Changed(rows.len() as u64)))
    }
}

// The versions that an INSERT makes, where the numbers of its rows are within the limit.
fn made_within(alloc: Global, name: &Utf8, next: u32, rows: &RowList) -> Result<Members, AllocError>
    ensures { IfOk result (λ made. nat_lt max_next (next + length rows.now) ≡ false
        → made ≡ map (inserted_member name.now) (numbered_rows next rows.now)) }
{
    if rows.len() > (MAX_NEXT - next) as usize {
        return Ok(List::new(alloc));
    }
    inserted_members(alloc, name, next, rows)
}

/// The result of a change that the store refused. `needs` has the rows that the change matches, and `all`
/// these and the parents of new values, which only a refusal by references needs.
pub(crate) fn refused_by_store(
    store: &Store,
    name: &Utf8,
    needs: Needs,
    all: Needs,
    stop: StoreStop,
) -> Result<Change, AllocError>
    requires { IsSome (history_at name.now store.now) }
    ensures { IfOk result (λ refused. IfSome (history_at name.now store.now)
        (λ table. IsChildThere (tables_now store.now) stop
        → refused_change (versions_now store.now) name.now table.slots needs all stop ≡ Some refused)) }
{
    let table = table_of(store, name);
    let refused = refused_change(store, name, table, needs, all, stop)?;
    Ok(refused)
}

// What a change of a table returns that the store refuses. `needs` are the rows that it matches, and `all`
// are these and the parents of new rows.
fn refused_change(
    store: &Store,
    name: &Utf8,
    table: &TableStore,
    needs: Needs,
    all: Needs,
    stop: StoreStop,
) -> Result<Change, AllocError>
    ensures { IfOk result (λ change. IsChildThere (tables_now store.now) stop
        → refused_change (versions_now store.now) name.now table.now.slots needs all stop ≡ Some change) }
{
    let alloc = needs.allocator();
    match stop {
        StoreStop::NotNull => Ok(refused_by(alloc, SqlRefusal::NotNull, needs)),
        StoreStop::KeyTaken {
            earlier,
            later,
            key,
        } => {
            let table_name = name.copy()?;
            let needs = with_key_rows(name, table, earlier, later, needs)?;
            let refusal = SqlRefusal::KeyTaken {
                table: table_name,
                key,
            };
            Ok(refused_by(alloc, refusal, needs))
        }
        StoreStop::Full => Ok(refused_by(alloc, SqlRefusal::Full, List::new(alloc))),
        StoreStop::NoParent { table, key } => {
            Ok(refused_by(alloc, SqlRefusal::NoParent { table, key }, all))
        }
        StoreStop::HasChild { table, row, key } => {
            let needs = with_child_row(store, &table, row, all)?;
            Ok(refused_by(alloc, SqlRefusal::HasChild { table, key }, needs))
        }
        StoreStop::NoMemory => Err(AllocError),
    }
}

fn refused_by(alloc: Global, refusal: SqlRefusal, needs: Needs) -> Change
    ensures { result ≡ refused_by refusal needs }
{
    Change {
        reply: Reply::Refused(refusal),
        made: List::new(alloc),
        needs,
    }
}
