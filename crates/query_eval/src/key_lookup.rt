//! The live row of a table with a key.

ghost use Rattle.std.specs.Prelude.{◌≡◌, ◌<◌, length, IfOk, Some};
ghost use Rattle.std.specs.List.{AllByRecursion};
ghost use Rattle.std.specs.Option.{option_and_then};
ghost use Rattle.query_eval.specs.inner.KeyLookup.{keyed_row, keyed_rows};
ghost use Rattle.query_eval.specs.inner.TableScan.{slot_at};
ghost use Rattle.query_eval.specs.StoredSources.{HasVersion};
ghost use Rattle.table_store.specs.Histories.{row_now};

use crate::source::SourceRows;
use crate::table_scan::add_slot;
use ldv_value::List;
use sql_model::RowKey;
use std::alloc::{AllocError, Global};
use table_store::TableStore;

/// The live row of a table with a key, or no row if none has it. The table has a key.
#[tactic(auto, using(crate::proofs::KeyLookupLaws::keyed_known))]
pub(crate) fn rows_of_key(
    alloc: Global,
    table: &TableStore,
    key: &RowKey,
) -> Result<SourceRows, AllocError>
    requires { 0 < length table.now.schema.key }
    ensures rows { IfOk result (λ rows. rows ≡ keyed_rows key.now.values table.now) }
    ensures versions { IfOk result (AllByRecursion (HasVersion (Some table.now))) }
{
    table.tell_order();
    let mut rows = List::new(alloc);
    match slot_of_key(table, key) {
        None => Ok(rows),
        Some(slot) => {
            add_slot(table, &mut rows, slot)?;
            Ok(rows)
        }
    }
}

// The slot of the row that stands with a key.
#[tactic(auto, using(crate::proofs::KeyLookupLaws::slot_rules))]
fn slot_of_key(table: &TableStore, key: &RowKey) -> Option<u64>
    requires { 0 < length table.now.schema.key }
    ensures { keyed_row key.now.values table.now
        ≡ option_and_then (λ slot. row_now (slot_at table.now.slots slot)) result }
{
    table.tell_order();
    match table.by_row_key(key) {
        None => None,
        Some(number) => table.slot_of(number),
    }
}
