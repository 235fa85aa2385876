//! UPDATE.

ghost use Rattle.std.specs.Prelude.{◌≡◌, ◌<◌, None, IfOk};
ghost use Rattle.std.specs.Option.{option_and_then};
ghost use Rattle.dml_versions.specs.Changing.{IsUpdate, IsCheckedOver, ChangesStore};
ghost use Rattle.dml_versions.specs.Changing.{ArePrepared};
ghost use Rattle.dml_versions.specs.Types.{TheUpdate};
ghost use Rattle.sql_model.specs.Scope.{table_at};
ghost use Rattle.table_store.specs.Histories.{tables_now};
ghost use Rattle.table_store.specs.Planning.{IsPlannedReplace};
ghost use Rattle.table_store.specs.Stops.{replace_stop};

use crate::change::{Change, matched_change, refused_by_store};
use crate::finding::found_rows;
use crate::found::FoundRows;
use crate::needs::{needs_of, with_parents_if};
use crate::places::update_places;
use crate::statements::update_of;
use crate::tables::table_of;
use crate::updates::updated_rows;
use ldv_value::List;
use predicates::column_indexes;
use sql_model::{Checked, TableRows, Update};
use std::alloc::AllocError;
use table_store::{Judged, ReplacePlan, Store};

/// Gives the rows for which WHERE is True, or all rows if there is no WHERE, their new values at a time, each
/// computed from the old row. The statement is an UPDATE that was checked against the store's tables, and the
/// time is later than that of the store's last change. The lists are made if `keep` is true. On `AllocError`,
/// or if the statement is refused, the store is as it was.
pub fn update(
    checked: &Checked,
    store: &mut Store,
    time: u32,
    keep: bool,
) -> Result<Change, AllocError>
    requires kind { IsUpdate checked.now.statement }
    requires checked { IsCheckedOver (tables_now store.old) checked.now }
    requires later { store.old.time < time }
    ensures { ChangesStore checked.now.statement keep time store.old store.new result }
{
    let update = update_of(checked);
    store.tell_formed();
    let prepared = prepare(checked, update, store)?;
    let Prepared { found, rows } = prepared;
    let name = update.table.as_str();
    match store.plan_replace(name, rows) {
        Ok(plan) => update_planned(checked, update, store, &found, plan, time, keep),
        Err(stop) => {
            let alloc = checked.places.allocator();
            let needs = needs_of(alloc, &update.table, &found, keep)?;
            let all = List::new(alloc);
            let refused = refused_by_store(store, &update.table, needs, all, stop)?;
            Ok(refused)
        }
    }
}

// Gives the matched rows their planned values, unless references refuse them.
fn update_planned(
    checked: &Checked,
    update: &Update,
    store: &mut Store,
    found: &FoundRows,
    plan: ReplacePlan,
    time: u32,
    keep: bool,
) -> Result<Change, AllocError>
    requires statement { checked.now.statement ≡ TheUpdate update.now }
    requires checked { IsCheckedOver (tables_now store.old) checked.now }
    requires later { store.old.time < time }
    requires prepared { ArePrepared update.now store.old found.now plan.rows }
    requires plan { IsPlannedReplace store.old update.now.table plan }
    requires fine { option_and_then (replace_stop plan.rows)
        (table_at update.now.table (tables_now store.old)) ≡ None }
    ensures { ChangesStore checked.now.statement keep time store.old store.new result }
{
    let alloc = checked.places.allocator();
    store.tell_formed();
    let name = update.table.as_str();
    let judged = store.judge_replace(name, &plan, keep)?;
    let Judged { stop, parents } = judged;
    let needs = needs_of(alloc, &update.table, found, keep)?;
    let all = with_parents_if(&needs, parents, keep)?;
    match stop {
        None => {}
        Some(stop) => {
            let refused = refused_by_store(store, &update.table, needs, all, stop)?;
            return Ok(refused);
        }
    }
    let change = matched_change(alloc, &update.table, found, all, keep)?;
    store.commit_replace(name, plan, time)?;
    Ok(change)
}

// The rows that an UPDATE matches, and what it makes of them.
#[derive(Drop)]
struct Prepared {
    found: FoundRows,
    rows: TableRows,
}

fn prepare(checked: &Checked, update: &Update, store: &Store) -> Result<Prepared, AllocError>
    requires statement { checked.now.statement ≡ TheUpdate update.now }
    requires checked { IsCheckedOver (tables_now store.now) checked.now }
    ensures { IfOk result (λ made. ArePrepared update.now store.now made.found made.rows) }
{
    let alloc = checked.places.allocator();
    let none = List::new(alloc);
    let places = update_places(alloc, update, column_indexes(checked, 0, &none))?;
    store.tell_formed();
    let table = table_of(store, &update.table);
    let found = found_rows(alloc, table, &update.pick, &places.pick)?;
    let columns = table.schema().columns.items();
    let rows = updated_rows(alloc, columns, update, &places.sets, &found)?;
    Ok(Prepared { found, rows })
}
