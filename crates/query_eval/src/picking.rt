//! The picked combinations of a core, with their lineages.

ghost use Rattle.std.specs.Prelude.{◌≡◌, ◌++◌, ◌∷◌, [], List as Items, map, IfOk, IfErr, OnOk};
ghost use Rattle.std.specs.FinMap.{empty};
ghost use Rattle.predicates.specs.Checking.{HasCore};
ghost use Rattle.predicates.specs.Placing.{AreAllPlaced};
ghost use Rattle.lineage.specs.Lineage.{with_version};
ghost use Rattle.query_eval.specs.Picking.{rows_added, kept_rows, source_picks, ArePicked};
ghost use Rattle.query_eval.specs.inner.Sources.{SourcesAreWide};
ghost use Rattle.query_eval.specs.inner.Slots.{pick_at, row_at, rows_at, values_at};
ghost use Rattle.sql_model.specs.Scope.{InScope};

use crate::conditions::core_conditions;
use crate::joining::join;
use crate::single::picks_alone;
use crate::source::{Source, SourceRow, Sources};
use crate::sources::sources_of;
use ldv_value::{CopyItem, List, Values};
use lineage::{FlatRows, LineageRows, Pick, Picks, split_row};
use predicates::{BoundExpr, core_of};
use sql_model::Checked;
use std::alloc::{AllocError, Global};
use table_store::Store;

/// The picked combinations of a core over the tables of a store, in their order. `checked` is a query that
/// was checked against the store's catalog, and `core` the place of one of its cores, from 0. A table's place
/// in the lineages is its place, from 0, among the names of all tables of the store. If `keep` is false, the
/// lineages are empty.
#[tactic(auto, using(crate::proofs::StoredSourceLaws::stored_picks))]
pub fn picked(
    checked: &Checked,
    core: usize,
    store: &Store,
    keep: bool,
) -> Result<Picks, AllocError>
    requires { HasCore checked.now core }
    ensures { IfOk result (ArePicked checked.now core store.now keep) }
{
    store.tell_formed();
    let alloc = checked.places.allocator();
    let from = core_of(checked, core).from.items();
    let conds = core_conditions(alloc, checked, core)?;
    let sources = sources_of(alloc, store, conds.items(), from)?;
    let picks = source_picks(alloc, sources, conds, keep)?;
    Ok(picks)
}

// The picks of sources: rows of one alone needn't be joined.
fn source_picks(
    alloc: Global,
    sources: Sources,
    conds: List<BoundExpr>,
    keep: bool,
) -> Result<Picks, AllocError>
    ensures { IfOk result (λ picks. (scope : Items InScope)
        → AreAllPlaced scope conds → SourcesAreWide sources
        → picks ≡ source_picks scope conds keep sources) }
{
    match only_of(sources) {
        Ok(source) => picks_alone(alloc, source.table, source.rows, &conds, keep),
        Err(many) => joined_picks(alloc, &many, conds, keep),
    }
}

// The only source, or the sources back.
fn only_of(sources: Sources) -> Result<Source, Sources>
    ensures one { IfOk result (λ source. sources ≡ source ∷ []) }
    ensures many { IfErr result (λ many. many ≡ sources) }
{
    let mut items = sources.into_vec();
    if items.len() != 1 {
        return Err(List::of_vec(items));
    }
    match items.pop() {
        Some(source) => Ok(source),
        None => unreachable!(),
    }
}

// The picks of the combinations of sources.
fn joined_picks(
    alloc: Global,
    sources: &Sources,
    conds: List<BoundExpr>,
    keep: bool,
) -> Result<Picks, AllocError>
    ensures { IfOk result (λ picks. (scope : Items InScope) → AreAllPlaced scope conds
        → SourcesAreWide sources.now → picks ≡ source_picks scope conds keep sources.now) }
{
    let held = sources.items();
    let rows = join(alloc, held, conds)?;
    let picks = picks_of(alloc, held, &rows, keep)?;
    Ok(picks)
}

// The picks of joined rows, which are copied here and nowhere before.
#[tactic(auto, using(lineage::proofs::FlatLaws::level_rules))]
fn picks_of(
    alloc: Global,
    sources: &[Source],
    rows: &FlatRows,
    keep: bool,
) -> Result<Picks, AllocError>
    ensures { IfOk result (λ picks. picks ≡ map (pick_at keep sources.now) rows.now.rows) }
{
    let width = rows.width();
    let columns = count_columns(sources);
    let mut picks = List::with_capacity(alloc, rows.len())?;
    let mut left = rows.slots();
    let mut count = rows.len();
    'rows: while count > 0 {
        count -= 1;
        let (row, rest) = split_row(left, width);
        picks.push(pick_at(alloc, sources, row, columns, keep)?)?;
        left = rest;
    }
    Ok(picks)
}

// The number of columns of sources, for which room is made.
fn count_columns(sources: &[Source]) -> usize {
    let mut count: usize = 0;
    for source in sources {
        count = count.saturating_add(source.width);
    }
    count
}

// The pick of the rows in some slots.
fn pick_at(
    alloc: Global,
    sources: &[Source],
    slots: &[u32],
    columns: usize,
    keep: bool,
) -> Result<Pick, AllocError>
    ensures { IfOk result (λ pick. pick ≡ pick_at keep sources.now slots.now) }
{
    Ok(Pick {
        values: values_at(alloc, sources, slots, columns)?,
        lineage: lineage_at(alloc, sources, slots, keep)?,
    })
}

// The values of the joined row, in FROM order.
fn values_at(
    alloc: Global,
    sources: &[Source],
    slots: &[u32],
    columns: usize,
) -> Result<Values, AllocError>
    ensures { IfOk result (λ values. values ≡ values_at sources.now slots.now) }
{
    let mut values = List::with_capacity(alloc, columns)?;
    let mut left = sources;
    let mut right = slots;
    'rows: loop {
        match right {
            [] => return Ok(values),
            [slot, slots @ ..] => match left {
                [] => return Ok(values),
                [source, sources @ ..] => {
                    add_row(alloc, &mut values, source, *slot)?;
                    left = sources;
                    right = slots;
                }
            },
        }
    }
}

// Appends copies of the values of the row in a slot.
fn add_row(alloc: Global, values: &mut Values, source: &Source, slot: u32) -> Result<(), AllocError>
    ensures { OnOk result (values.new ≡ values.old ++ (row_at source.now.rows slot).values) }
{
    match source.rows.get(slot as usize) {
        None => Ok(()),
        Some(row) => add_values(alloc, values, row),
    }
}

fn add_values(alloc: Global, values: &mut Values, row: &SourceRow) -> Result<(), AllocError>
    ensures { OnOk result (values.new ≡ values.old ++ row.now.values) }
{
    for value in row.values.items() {
        values.push(value.copy_item(alloc)?)?;
    }
    Ok(())
}

// The lineage of the rows in some slots, where it is kept.
fn lineage_at(
    alloc: Global,
    sources: &[Source],
    slots: &[u32],
    keep: bool,
) -> Result<LineageRows, AllocError>
    ensures { IfOk result (λ lineage. lineage ≡ kept_rows keep sources.now (rows_at sources.now slots.now)) }
{
    if keep {
        rows_added(alloc, sources, slots)
    } else {
        Ok(LineageRows::empty(alloc))
    }
}

// The set of the rows in some slots.
fn rows_added(alloc: Global, sources: &[Source], slots: &[u32]) -> Result<LineageRows, AllocError>
    ensures { IfOk result (λ lineage. lineage
        ≡ rows_added empty sources.now (rows_at sources.now slots.now)) }
{
    let mut lineage = LineageRows::empty(alloc);
    let mut left = sources;
    let mut right = slots;
    'rows: loop {
        match left {
            [] => return Ok(lineage),
            [source, sources @ ..] => match right {
                [] => return Ok(lineage),
                [slot, slots @ ..] => {
                    add_member(&mut lineage, source, *slot)?;
                    left = sources;
                    right = slots;
                }
            },
        }
    }
}

// Adds the row in a slot to a lineage.
fn add_member(lineage: &mut LineageRows, source: &Source, slot: u32) -> Result<(), AllocError>
    ensures { OnOk result (lineage.new ≡ with_version lineage.old
        (source.now.table, (row_at source.now.rows slot).number) (row_at source.now.rows slot).version) }
{
    match source.rows.get(slot as usize) {
        None => lineage.add(source.table, 0, 0),
        Some(row) => lineage.add(source.table, row.number, row.version),
    }
}
