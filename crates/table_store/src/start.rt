//! The parts of a table's store at time 0.

ghost use Rattle.std.specs.Prelude.{◌≡◌, ◌^◌, ◌<◌, ◌≤◌, true, [], ◌∷◌, IfOk, length, map};
ghost use Rattle.sql_model.specs.Tables.{are_keys_unique};
ghost use Rattle.table_store.specs.Histories.{history_of_new_row};
ghost use Rattle.table_store.specs.KeyIndex.{AreIndexed};
ghost use Rattle.table_store.specs.TableView.{IsStored, kinds_in};
ghost use Rattle.table_store.specs.inner.ChildPairs.{AreReferred, pair_by};
ghost use Rattle.table_store.specs.inner.Grid.{are_of_kinds, AreNumberedFrom, next_after};
ghost use Rattle.table_store.specs.IndexView.{held_in};
ghost use Rattle.table_store.specs.inner.Nexts.{nexts_of};

use crate::keys::index::{Index, index_of};
use crate::nexts::{NextSince, nexts_at_start};
use crate::references::child_index::{ChildIndex, index_of_rows};
use crate::rows::Rows;
use sql_model::{Columns, Schema, TableRow, TableRows};
use std::alloc::{AllocError, Global};

/// The parts of a table's store that depend on its rows.
#[derive(Drop)]
pub(crate) struct Parts {
    pub(crate) held: Rows,
    pub(crate) index: Index,
    pub(crate) children: ChildIndex,
    pub(crate) nexts: Vec<NextSince>,
}

// Those beside the rows themselves.
#[derive(Drop)]
struct Beside {
    index: Index,
    children: ChildIndex,
    nexts: Vec<NextSince>,
}

/// The parts of a table's store at time 0, made from its schema, its rows and the number of the next row.
pub(crate) fn parts_at_start(
    alloc: Global,
    schema: &Schema,
    rows: TableRows,
    next: u32,
) -> Result<Parts, AllocError>
    requires numbered { AreNumberedFrom 0 rows }
    requires next { next_after 0 rows ≤ next }
    requires few { length rows < 2 ^ 32 }
    requires kinds { are_of_kinds (kinds_in schema.now.columns) rows ≡ true }
    requires unique { are_keys_unique schema.now.key (map (λ row. row.values) rows) ≡ true }
    ensures stored { IfOk result (λ made. IsStored schema.now made.held (λ key. held_in made.index key)
        (pair_by made.children schema.now.foreign) (nexts_of made.nexts.items)) }
    ensures slots { IfOk result (λ made. made.held.slots ≡ map (history_of_new_row 0) rows) }
    ensures nexts { IfOk result (λ made. nexts_of made.nexts.items ≡ record { time = 0; next = next } ∷ []) }
{
    let beside = beside_at_start(alloc, schema, rows.items(), next)?;
    let held = rows_at_start(alloc, &schema.columns, rows, next)?;
    let Beside {
        index,
        children,
        nexts,
    } = beside;
    Ok(Parts {
        held,
        index,
        children,
        nexts,
    })
}

fn beside_at_start(
    alloc: Global,
    schema: &Schema,
    rows: &[TableRow],
    next: u32,
) -> Result<Beside, AllocError>
    requires { are_keys_unique schema.now.key (map (λ row. row.values) rows.now) ≡ true }
    ensures indexed { IfOk result (λ made. AreIndexed schema.now.key (λ key. held_in made.index key)
        rows.now) }
    ensures referred { IfOk result (λ made. AreReferred (pair_by made.children schema.now.foreign)
        schema.now.foreign rows.now) }
    ensures nexts { IfOk result (λ made. nexts_of made.nexts.items ≡ record { time = 0; next = next } ∷ []) }
{
    let index = index_of(alloc, &schema.key, rows)?;
    let children = index_of_rows(alloc, &schema.foreign, rows)?;
    let nexts = nexts_at_start(alloc, next)?;
    Ok(Beside {
        index,
        children,
        nexts,
    })
}

// The rows since time 0.
fn rows_at_start(
    alloc: Global,
    columns: &Columns,
    rows: TableRows,
    next: u32,
) -> Result<Rows, AllocError>
    requires numbered { AreNumberedFrom 0 rows }
    requires next { next_after 0 rows ≤ next }
    requires few { length rows < 2 ^ 32 }
    requires kinds { are_of_kinds (kinds_in columns.now) rows ≡ true }
    ensures { IfOk result (λ made. made ≡ record {
      slots = map (history_of_new_row 0) rows;
      kinds = kinds_in columns.now;
      next = next;
    }) }
{
    let mut held = no_rows(alloc, columns)?;
    held.push_all(rows, 0)?;
    held.set_next(next);
    Ok(held)
}

fn no_rows(alloc: Global, columns: &Columns) -> Result<Rows, AllocError>
    ensures { IfOk result (λ made. made ≡ record { slots = []; kinds = kinds_in columns.now; next = 0 }) }
{
    let texts = texts_of(alloc, columns)?;
    let made = Rows::new(alloc, texts.as_slice())?;
    Ok(made)
}

// Which columns are of TEXT.
fn texts_of(alloc: Global, columns: &Columns) -> Result<Vec<bool>, AllocError>
    ensures { IfOk result (λ texts. texts.items ≡ kinds_in columns.now) }
{
    let mut texts = Vec::with_capacity(alloc, columns.len())?;
    for column in columns.items() {
        texts.push(column.text)?;
    }
    Ok(texts)
}
