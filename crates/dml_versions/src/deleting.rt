//! DELETE.

ghost use Rattle.std.specs.Prelude.{◌≡◌, ◌<◌, IfOk};
ghost use Rattle.dml_versions.specs.Changing.{IsDelete, IsCheckedOver, ChangesStore};
ghost use Rattle.dml_versions.specs.Changing.{AreFound};
ghost use Rattle.dml_versions.specs.Types.{TheDelete};
ghost use Rattle.table_store.specs.Histories.{tables_now};

use crate::change::{Change, matched_change, refused_by_store};
use crate::finding::found_rows;
use crate::found::FoundRows;
use crate::needs::{needs_of, numbers_of};
use crate::places::pick_places;
use crate::statements::delete_of;
use crate::tables::table_of;
use ldv_value::List;
use predicates::column_indexes;
use sql_model::{Checked, Delete};
use std::alloc::AllocError;
use table_store::Store;

/// Deletes the rows for which WHERE is True, or all rows if there is no WHERE, at a time. The statement is a
/// DELETE that was checked against the store's tables, and the time is later than that of the store's last
/// change. The lists are made if `keep` is true. On `AllocError`, or if the statement is refused, the store
/// is as it was.
pub fn delete(
    checked: &Checked,
    store: &mut Store,
    time: u32,
    keep: bool,
) -> Result<Change, AllocError>
    requires kind { IsDelete checked.now.statement }
    requires checked { IsCheckedOver (tables_now store.old) checked.now }
    requires later { store.old.time < time }
    ensures { ChangesStore checked.now.statement keep time store.old store.new result }
{
    let alloc = checked.places.allocator();
    let delete = delete_of(checked);
    store.tell_formed();
    let found = deleted_rows(checked, delete, store)?;
    let numbers = numbers_of(alloc, &found)?;
    let needs = needs_of(alloc, &delete.table, &found, keep)?;
    let change = matched_change(alloc, &delete.table, &found, needs, keep)?;
    let name = delete.table.as_str();
    match store.delete_all(name, &numbers, time) {
        Ok(()) => Ok(change),
        Err(stop) => {
            let none = List::new(alloc);
            let Change {
                reply: _reply,
                made: _made,
                needs: all,
            } = change;
            let refused = refused_by_store(store, &delete.table, none, all, stop)?;
            Ok(refused)
        }
    }
}

// The rows that a DELETE drops.
fn deleted_rows(checked: &Checked, delete: &Delete, store: &Store) -> Result<FoundRows, AllocError>
    requires statement { checked.now.statement ≡ TheDelete delete.now }
    requires checked { IsCheckedOver (tables_now store.now) checked.now }
    ensures { IfOk result (AreFound delete.now.table delete.now.pick store.now) }
{
    let alloc = checked.places.allocator();
    let none = List::new(alloc);
    let places = pick_places(alloc, &delete.pick, column_indexes(checked, 0, &none), 0)?;
    store.tell_formed();
    let table = table_of(store, &delete.table);
    let found = found_rows(alloc, table, &delete.pick, &places)?;
    Ok(found)
}
