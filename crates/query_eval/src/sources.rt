//! The sources of a core, from the tables of a store.

ghost use Rattle.std.specs.Prelude.{◌≡◌, IfOk, Some};
ghost use Rattle.std.specs.List.{AllByRecursion};
ghost use Rattle.std.specs.Option.{option_map};
ghost use Rattle.predicates.specs.Masking.{AreMasks};
ghost use Rattle.query_eval.specs.StoredSources.{AreChosen, AreStored, HasVersion, IsPlace, IsStored, IsTaken};

use crate::key_lookup::rows_of_key;
use crate::source::{Source, SourceRows, Sources, width_with};
use crate::table_scan::rows_left;
use ldv_value::{List, Names};
use predicates::{BoundExpr, fixed_key, masks_of};
use sql_model::{ColumnTest, FromItem, RowKey};
use std::alloc::{AllocError, Global};
use table_store::{Store, TableStore};

// The place of a name; 0 where it isn't there. More than 2^32 names count as out of memory.
fn place_of(names: &Names, name: &str) -> Result<u32, AllocError>
    ensures { IfOk result (IsPlace names.now name.now) }
{
    for (place, other) in names.items().iter().enumerate() {
        if other.is_text(name) {
            return place_as_u32(place);
        }
    }
    Ok(0)
}

fn place_as_u32(place: usize) -> Result<u32, AllocError>
    ensures { IfOk result (λ made. made ≡ place) }
{
    if place > 0xffff_ffff {
        return Err(AllocError);
    }
    Ok(place as u32)
}

// The masks of a source that conditions give.
fn masks_in(
    alloc: Global,
    held: &TableStore,
    conds: &[BoundExpr],
    before: u128,
) -> Result<Vec<ColumnTest>, AllocError>
    ensures { IfOk result (λ masks. AreMasks conds.now before held.now.schema.columns masks.items) }
{
    masks_of(alloc, conds, before, &held.schema().columns)
}

// The rows of a source for which the masks pass that conditions give.
fn rows_by_masks(
    alloc: Global,
    held: &TableStore,
    conds: &[BoundExpr],
    before: u128,
) -> Result<SourceRows, AllocError>
    ensures chosen { IfOk result (AreChosen conds.now before held.now) }
    ensures versions { IfOk result (AllByRecursion (HasVersion (Some held.now))) }
{
    let masks = masks_in(alloc, held, conds, before)?;
    rows_left(alloc, held, masks.as_slice())
}

// The rows of a source: the one with its key, where conditions fix this, or those for which its masks pass.
fn chosen_rows(
    alloc: Global,
    held: &TableStore,
    conds: &[BoundExpr],
    before: u128,
) -> Result<SourceRows, AllocError>
    ensures chosen { IfOk result (AreChosen conds.now before held.now) }
    ensures versions { IfOk result (AllByRecursion (HasVersion (Some held.now))) }
{
    match fixed_key(alloc, conds, before, held.schema())? {
        Some(values) => rows_of_key(alloc, held, &RowKey { values }),
        None => rows_by_masks(alloc, held, conds, before),
    }
}

// A source, from its table, which is there.
fn taken_of(
    alloc: Global,
    held: &TableStore,
    conds: &[BoundExpr],
    before: u128,
    table: u32,
) -> Result<Source, AllocError>
    ensures taken { IfOk result (IsTaken conds.now before (Some held.now)) }
    ensures table { IfOk result (λ source. source.table ≡ table) }
{
    let rows = chosen_rows(alloc, held, conds, before)?;
    Ok(Source {
        table,
        width: held.schema().columns.len(),
        rows,
    })
}

// A source; without a row where its table isn't there.
fn read_source(
    alloc: Global,
    held: Option<&TableStore>,
    conds: &[BoundExpr],
    before: u128,
    table: u32,
) -> Result<Source, AllocError>
    ensures taken { IfOk result (IsTaken conds.now before (option_map (λ h. h.now) held.entry)) }
    ensures table { IfOk result (λ source. source.table ≡ table) }
{
    match held {
        None => Ok(Source {
            table,
            width: 0,
            rows: List::new(alloc),
        }),
        Some(held) => taken_of(alloc, held, conds, before, table),
    }
}

// A source, from a store. Its columns come after `before` values of the joined row.
#[tactic(auto, using(crate::proofs::StoredSourceLaws::stored_is))]
fn source_of(
    alloc: Global,
    store: &Store,
    conds: &[BoundExpr],
    item: &FromItem,
    before: u128,
) -> Result<Source, AllocError>
    ensures { IfOk result (IsStored store.now conds.now item.now before) }
{
    let name = item.table.as_str();
    let table = place_of(&store.catalog().names, name)?;
    let source = read_source(alloc, store.table(name), conds, before, table)?;
    Ok(source)
}

/// The sources of a core, each with the rows that may be in a picked combination.
#[tactic(auto, using(crate::proofs::StoredSourceLaws::sources_end))]
pub(crate) fn sources_of(
    alloc: Global,
    store: &Store,
    conds: &[BoundExpr],
    from: &[FromItem],
) -> Result<Sources, AllocError>
    ensures { IfOk result (AreStored store.now conds.now from.now 0) }
{
    let mut sources = List::with_capacity(alloc, from.len())?;
    let mut left = from;
    let mut before: u128 = 0;
    'sources: while let [item, others @ ..] = left {
        let source = source_of(alloc, store, conds, item, before)?;
        before = width_with(before, source.width);
        sources.push(source)?;
        left = others;
    }
    Ok(sources)
}
