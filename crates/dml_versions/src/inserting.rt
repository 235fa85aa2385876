//! INSERT.

ghost use Rattle.std.specs.Prelude.{◌≡◌, ◌<◌, None, IfOk};
ghost use Rattle.std.specs.Option.{option_and_then};
ghost use Rattle.dml_versions.specs.Changing.{IsInsert, IsCheckedOver, ChangesStore};
ghost use Rattle.dml_versions.specs.Changing.{AreNewRows};
ghost use Rattle.dml_versions.specs.Types.{TheInsert};
ghost use Rattle.sql_model.specs.Scope.{table_at};
ghost use Rattle.table_store.specs.Histories.{tables_now};
ghost use Rattle.table_store.specs.Planning.{IsPlannedInsert};
ghost use Rattle.table_store.specs.Stops.{insert_stop};

use crate::change::{Change, inserted_change, refused_by_store};
use crate::needs::with_parents_if;
use crate::rows::new_rows;
use crate::statements::insert_of;
use crate::tables::table_of;
use ldv_value::{List, RowList};
use sql_model::{Checked, Insert};
use std::alloc::AllocError;
use table_store::{InsertPlan, Judged, Store};

/// Adds the rows of VALUES at a time, numbered from the number of the table's next row on. The statement is
/// an INSERT that was checked against the store's tables, and the time is later than that of the store's last
/// change. The lists are made if `keep` is true. On `AllocError`, or if the statement is refused, the store
/// is as it was.
pub fn insert(
    checked: &Checked,
    store: &mut Store,
    time: u32,
    keep: bool,
) -> Result<Change, AllocError>
    requires kind { IsInsert checked.now.statement }
    requires checked { IsCheckedOver (tables_now store.old) checked.now }
    requires later { store.old.time < time }
    ensures { ChangesStore checked.now.statement keep time store.old store.new result }
{
    let insert = insert_of(checked);
    store.tell_formed();
    let rows = inserted_rows(checked, insert, store)?;
    let name = insert.table.as_str();
    match store.plan_insert(name, rows) {
        Ok(plan) => insert_planned(checked, insert, store, plan, time, keep),
        Err(stop) => {
            let alloc = checked.places.allocator();
            let none = List::new(alloc);
            let all = List::new(alloc);
            let refused = refused_by_store(store, &insert.table, none, all, stop)?;
            Ok(refused)
        }
    }
}

// Adds the planned rows, unless references refuse them.
fn insert_planned(
    checked: &Checked,
    insert: &Insert,
    store: &mut Store,
    plan: InsertPlan,
    time: u32,
    keep: bool,
) -> Result<Change, AllocError>
    requires statement { checked.now.statement ≡ TheInsert insert.now }
    requires checked { IsCheckedOver (tables_now store.old) checked.now }
    requires later { store.old.time < time }
    requires rows { AreNewRows insert.now store.old plan.rows }
    requires plan { IsPlannedInsert store.old insert.now.table plan }
    requires fine { option_and_then (insert_stop plan.rows)
        (table_at insert.now.table (tables_now store.old)) ≡ None }
    ensures { ChangesStore checked.now.statement keep time store.old store.new result }
{
    let alloc = checked.places.allocator();
    store.tell_formed();
    let name = insert.table.as_str();
    let next = store.next_at(name, time);
    let judged = store.judge_insert(name, &plan, keep)?;
    let Judged { stop, parents } = judged;
    let none = List::new(alloc);
    let needs = with_parents_if(&none, parents, keep)?;
    match stop {
        None => {}
        Some(stop) => {
            let refused = refused_by_store(store, &insert.table, none, needs, stop)?;
            return Ok(refused);
        }
    }
    let change = inserted_change(alloc, &insert.table, next, &plan.rows, needs, keep)?;
    store.commit_insert(name, plan, time)?;
    Ok(change)
}

// The values of the new rows.
fn inserted_rows(checked: &Checked, insert: &Insert, store: &Store) -> Result<RowList, AllocError>
    requires statement { checked.now.statement ≡ TheInsert insert.now }
    requires checked { IsCheckedOver (tables_now store.now) checked.now }
    ensures { IfOk result (AreNewRows insert.now store.now) }
{
    let alloc = checked.places.allocator();
    let table = table_of(store, &insert.table);
    let columns = table.schema().columns.items();
    let rows = new_rows(alloc, &insert.columns, columns, &insert.rows)?;
    Ok(rows)
}
