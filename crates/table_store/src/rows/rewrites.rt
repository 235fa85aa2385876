//! Rows that get other values: first the values that they have are copied, then they are replaced one by one,
//! which can't fail.

ghost use Rattle.std.specs.Prelude.{◌≡◌, ℕ, ◌+◌, ◌≤◌, true, [], ◌∷◌, ◌++◌, IfOk, OnOk, IsOk};
ghost use Rattle.std.specs.Prelude.{length, map};
ghost use Rattle.table_store.specs.inner.Grid.{fits_kinds};
ghost use Rattle.table_store.specs.Histories.{changed_by};
ghost use Rattle.table_store.specs.inner.Past.{past, end_in};
ghost use Rattle.table_store.specs.inner.RowHistories.{AreKept, histories_of};
ghost use Rattle.table_store.specs.inner.RowChanges.{changes_given, rewrite_given, row_given};
ghost use Rattle.table_store.specs.inner.RowChanges.{AllFitKinds, AreInSlots, AreReady, HasSlot, IsInSlot};
ghost use Rattle.table_store.specs.inner.RowChanges.{AllHaveSlots, IsReady, RewritesRow, RiseFrom};

use crate::rows::grid::Grid;
use crate::rows::version_log::VersionLog;
use ldv_value::Values;
use sql_model::{TableRow, TableRows};
use std::alloc::{AllocError, Global};

/// A row that gets other values, with its slot and the values that it has.
#[derive(Drop)]
pub(crate) struct RowRewrite {
    pub(crate) slot: usize,
    pub(crate) number: u32,
    pub(crate) old: Values,
    pub(crate) new: Values,
}

/// The rows that get these values, each by its number, with their slots and the values that they have.
pub(crate) fn rewrites_of(
    alloc: Global,
    grid: &Grid,
    rows: TableRows,
) -> Result<Vec<RowRewrite>, AllocError>
    requires { AllHaveSlots grid.now.slots rows }
    ensures rows { IfOk result (λ made. map row_given made.items ≡ rows) }
    ensures slots { IfOk result (λ made. AreInSlots grid.now.slots made.items) }
{
    let mut made = Vec::with_capacity(alloc, rows.len())?;
    for row in rows.into_vec() {
        add_rewrite(alloc, grid, row, &mut made)?;
    }
    Ok(made)
}

// Adds a row that gets other values.
fn add_rewrite(
    alloc: Global,
    grid: &Grid,
    row: TableRow,
    made: &mut Vec<RowRewrite>,
) -> Result<(), AllocError>
    requires there { HasSlot grid.now.slots row.number }
    requires slots { AreInSlots grid.now.slots made.old.items }
    ensures rows { OnOk result (map row_given made.new.items ≡ map row_given made.old.items ++ row ∷ []) }
    ensures slots { OnOk result (AreInSlots grid.now.slots made.new.items) }
{
    let given = rewrite_of(alloc, grid, row)?;
    made.push(given)?;
    Ok(())
}

fn rewrite_of(alloc: Global, grid: &Grid, row: TableRow) -> Result<RowRewrite, AllocError>
    requires { HasSlot grid.now.slots row.number }
    ensures row { IfOk result (λ made. row_given made ≡ row) }
    ensures slot { IfOk result (IsInSlot grid.now.slots) }
{
    let TableRow { number, values } = row;
    match grid.find(number) {
        None => unreachable!(),
        Some(slot) => {
            let old = grid.copy_values(alloc, slot)?;
            Ok(RowRewrite {
                slot,
                number,
                old,
                new: values,
            })
        }
    }
}

/// Gives rows other values at a time. `VersionLog::reserve` has reserved the memory.
pub(crate) fn rewrite_each(
    grid: &mut Grid,
    log: &mut VersionLog,
    given: Vec<RowRewrite>,
    time: u32,
) -> Result<(), AllocError>
    requires kept { AreKept (λ k. past log.old.versions k) (λ k. end_in log.old.ends k) grid.old.slots }
    requires slots { AreInSlots grid.old.slots given.items }
    requires apart { RiseFrom 0 (map rewrite_given given.items) }
    requires ready { AreReady (λ k. past log.old.versions k) (λ k. end_in log.old.ends k) given.items }
    requires fits { AllFitKinds grid.old.kinds (map rewrite_given given.items) }
    requires covered { length grid.old.slots ≤ log.old.slots }
    requires room { length given.items ≤ log.old.spare }
    ensures kept { AreKept (λ k. past log.new.versions k) (λ k. end_in log.new.ends k) grid.new.slots }
    ensures seen { histories_of (λ k. past log.new.versions k) (λ k. end_in log.new.ends k) grid.new.slots
        ≡ map (changed_by (changes_given time (map rewrite_given given.items)))
        (histories_of (λ k. past log.old.versions k) (λ k. end_in log.old.ends k) grid.old.slots) }
    ensures kinds { grid.new.kinds ≡ grid.old.kinds }
    ensures next { grid.new.next ≡ grid.old.next }
    ensures succeeds { IsOk result }
{
    for one in given {
        rewrite_row(grid, log, one, time)?;
    }
    Ok(())
}

// Gives a row other values.
fn rewrite_row(
    grid: &mut Grid,
    log: &mut VersionLog,
    given: RowRewrite,
    time: u32,
) -> Result<(), AllocError>
    requires kept { AreKept (λ k. past log.old.versions k) (λ k. end_in log.old.ends k) grid.old.slots }
    requires slot { IsInSlot grid.old.slots given }
    requires ready { IsReady (past log.old.versions given.slot) (end_in log.old.ends given.slot) }
    requires fits { fits_kinds grid.old.kinds given.new ≡ true }
    requires covered { length grid.old.slots ≤ log.old.slots }
    requires room { 1 ≤ log.old.spare }
    ensures row { RewritesRow time given (λ k. past log.old.versions k) (λ k. past log.new.versions k)
        (λ k. end_in log.old.ends k) grid.old grid.new }
    ensures spare { log.old.spare ≤ log.new.spare + 1 }
    ensures slots { log.new.slots ≡ log.old.slots }
    ensures ends { log.new.ends ≡ log.old.ends }
    ensures succeeds { IsOk result }
{
    let RowRewrite {
        slot,
        number: _number,
        old,
        new,
    } = given;
    let _rows = grid.len();
    grid.tell_order();
    log.push(slot, grid.since(slot), old)?;
    grid.set(slot, new, time);
    Ok(())
}
