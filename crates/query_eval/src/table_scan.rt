//! The rows of a table that pass masks: chosen by bits, and copied only then.

ghost use Rattle.std.specs.Prelude.{◌≡◌, ◌++◌, ◌<◌, ◌^◌, [], ℕ, length, IfOk, OnOk};
ghost use Rattle.std.specs.Prelude.{Some, unwrap_or};
ghost use Rattle.std.specs.List.{AllByRecursion};
ghost use Rattle.std.specs.Option.{option_map, option_to_list};
ghost use Rattle.lanes.specs.Sets.{member};
ghost use Rattle.query_eval.specs.inner.TableScan.{slot_at, slot_passes, rows_at_slots, source_row, rows_in};
ghost use Rattle.query_eval.specs.inner.TableScan.{left_rows};
ghost use Rattle.query_eval.specs.StoredSources.{HasVersion};
ghost use Rattle.table_store.specs.CellTests.{AllFitColumns};
ghost use Rattle.table_store.specs.Histories.{history_of_row, row_now, version_now};

use crate::source::{SourceRow, SourceRows};
use lanes::{after_member, next_one};
use ldv_value::List;
use sql_model::ColumnTest;
use std::alloc::{AllocError, Global};
use table_store::TableStore;

// The slots whose row stands and for which each mask passes, as bits.
fn slots_passing(
    alloc: Global,
    table: &TableStore,
    masks: &[ColumnTest],
) -> Result<Vec<u64>, AllocError>
    requires { AllFitColumns table.now.schema.columns masks.now }
    ensures few { IfOk result (λ words. length words.items < 2 ^ 57) }
    ensures members { IfOk result (λ words. (n : ℕ)
        → member words.items n ≡ slot_passes masks.now (slot_at table.now.slots n)) }
{
    let words = table.choose_slots(alloc, masks)?;
    Ok(words)
}

// The version of the row in a slot, which stands.
#[tactic(auto, using(crate::proofs::TableScanLaws::slot_stands))]
fn version_of(table: &TableStore, slot: u64, number: u32) -> u32
    requires { option_map (λ row. row.number) (row_now (slot_at table.now.slots slot)) ≡ Some number }
    ensures { result ≡ unwrap_or (version_now (history_of_row number table.now.slots)) 0 }
{
    table.tell_order();
    table.version_at(slot)
}

// Adds the row of a slot, which stands.
#[tactic(auto, using(crate::proofs::TableScanLaws::made_rows))]
fn add_row(
    table: &TableStore,
    rows: &mut SourceRows,
    slot: u64,
    number: u32,
) -> Result<(), AllocError>
    requires { option_map (λ row. row.number) (row_now (slot_at table.now.slots slot)) ≡ Some number }
    ensures { OnOk result (rows.new
        ≡ rows.old ++ option_to_list (source_row table.now.slots (slot_at table.now.slots slot))) }
{
    let values = table.row_values(slot)?;
    rows.push(SourceRow {
        number,
        version: version_of(table, slot, number),
        values,
    })
}

/// Adds the row of a slot, if it is live.
#[tactic(auto, using(crate::proofs::TableScanLaws::made_rows))]
pub(crate) fn add_slot(
    table: &TableStore,
    rows: &mut SourceRows,
    slot: u64,
) -> Result<(), AllocError>
    ensures { OnOk result (rows.new
        ≡ rows.old ++ option_to_list (source_row table.now.slots (slot_at table.now.slots slot))) }
{
    match table.slot_row(slot) {
        None => Ok(()),
        Some(number) => add_row(table, rows, slot, number),
    }
}

// The rows of the slots that are set.
#[tactic(auto, using(crate::proofs::TableScanLaws::chosen_next, crate::proofs::TableScanLaws::chosen_end))]
fn rows_chosen(alloc: Global, table: &TableStore, words: &[u64]) -> Result<SourceRows, AllocError>
    requires { length words.now < 2 ^ 57 }
    ensures { IfOk result (λ rows. rows
        ≡ rows_in table.now.slots (rows_at_slots words.now 0 table.now.slots)) }
{
    let mut rows = List::new(alloc);
    let mut at = 0;
    'slots: loop {
        match next_one(words, at) {
            None => return Ok(rows),
            Some(slot) => {
                add_slot(table, &mut rows, slot)?;
                at = after_member(words, slot);
            }
        }
    }
}

// The rows of a table that stand, in the order of their numbers.
#[tactic(auto, using(crate::proofs::TableScanLaws::left_standing))]
fn all_rows(alloc: Global, table: &TableStore) -> Result<SourceRows, AllocError>
    ensures { IfOk result (λ rows. rows ≡ left_rows [] table.now.slots) }
{
    let rows = rows_chosen(alloc, table, table.standing_slots())?;
    Ok(rows)
}

// The rows of a table that stand and for which each mask passes, in the order of their numbers.
#[tactic(auto, using(crate::proofs::TableScanLaws::left_chosen))]
fn rows_passing(
    alloc: Global,
    table: &TableStore,
    masks: &[ColumnTest],
) -> Result<SourceRows, AllocError>
    requires { AllFitColumns table.now.schema.columns masks.now }
    ensures { IfOk result (λ rows. rows ≡ left_rows masks.now table.now.slots) }
{
    let words = slots_passing(alloc, table, masks)?;
    let rows = rows_chosen(alloc, table, words.as_slice())?;
    Ok(rows)
}

fn rows_by(
    alloc: Global,
    table: &TableStore,
    masks: &[ColumnTest],
) -> Result<SourceRows, AllocError>
    requires { AllFitColumns table.now.schema.columns masks.now }
    ensures { IfOk result (λ rows. rows ≡ left_rows masks.now table.now.slots) }
{
    match masks {
        [] => all_rows(alloc, table),
        [_first, ..] => rows_passing(alloc, table, masks),
    }
}

/// The live rows of a table that pass each mask, in the order of their numbers. The masks fit the kinds of
/// their columns.
#[tactic(auto, using(crate::proofs::TableScanLaws::left_known))]
pub(crate) fn rows_left(
    alloc: Global,
    table: &TableStore,
    masks: &[ColumnTest],
) -> Result<SourceRows, AllocError>
    requires { AllFitColumns table.now.schema.columns masks.now }
    ensures rows { IfOk result (λ rows. rows ≡ left_rows masks.now table.now.slots) }
    ensures versions { IfOk result (AllByRecursion (HasVersion (Some table.now))) }
{
    table.tell_order();
    let rows = rows_by(alloc, table, masks)?;
    Ok(rows)
}
