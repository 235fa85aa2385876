//! The joined rows of FROM for which ON and WHERE are True.
//!
//! The sources are joined from left to right, and a joined row is one slot of each source so far. Each
//! condition is tested as soon as the row has its columns, before anything of it is copied. If equalities tie
//! columns of the next source to earlier ones, an index by all these columns gives the slots. Leaving out
//! rows is right if each of them fails a condition.

ghost use Rattle.std.specs.Prelude.{◌≡◌, ◌<◌, ◌≤◌, ◌+◌, ◌^◌, ◌++◌, ◌∷◌, [], ℕ, List as Items, drop, filter};
ghost use Rattle.std.specs.Prelude.{length, map, not, IfOk, OnOk};
ghost use Rattle.query_eval.specs.inner.Joining.{combos, tests, is_ready, ready_conditions, later_conditions};
ghost use Rattle.query_eval.specs.inner.Joining.{extensions_left, extensions_of_all, EachHas};
ghost use Rattle.query_eval.specs.inner.Slots.{combinations_at, extended_by, extended_by_index};
ghost use Rattle.query_eval.specs.inner.Slots.{extended_by_ties, slots_found, slots_meet, values_at};
ghost use Rattle.predicates.specs.Placing.{AreAllPlaced};
ghost use Rattle.query_eval.specs.inner.Sources.{source_rows, AreWide, SourcesAreWide};
ghost use Rattle.query_eval.specs.declared.source.Source.{Source as GivenSource};
ghost use Rattle.query_eval.specs.declared.source.SourceRow.{SourceRow as Given};
ghost use Rattle.sql_model.specs.Scope.{InScope};

use crate::asked::keys_asked;
use crate::extending::{extend_by, scan_level};
use crate::index::{Index, index_of, key_before, slots_under};
use crate::probe::{Probe, ties_of};
use crate::slot_row::slots_of;
use crate::source::{Source, SourceRow, width_with};
use crate::testing::{RowTest, SlotTest, are_met_in};
use ldv_value::List;
use lineage::{FlatRows, split_row};
use predicates::BoundExpr;
use std::alloc::{AllocError, Global};

// Adds the rows of a prefix and each of the slots that are looked up by it that pass.
fn extend_found<'a, T: SlotTest>(
    alloc: Global,
    made: &mut FlatRows,
    prefix: &[u32],
    sources: &'a [Source],
    index: &Index<'a>,
    ties: &[Probe],
    test: &T,
) -> Result<(), AllocError>
    requires { length prefix.now + 1 ≡ made.old.width }
    ensures width { made.new.width ≡ made.old.width }
    ensures rows { OnOk result (made.new.rows ≡ made.old.rows ++ extended_by (T.test test.now) prefix.now
        (slots_found index.now.map ties.now (values_at sources.now prefix.now))) }
{
    let key = key_before(alloc, sources, prefix, ties)?;
    match slots_under(index, key) {
        None => Ok(()),
        Some(found) => {
            extend_by(made, prefix, found.items(), test)?;
            Ok(())
        }
    }
}

// The next level by an index.
#[tactic(auto, using(lineage::proofs::FlatLaws::level_rules))]
fn found_level<'a, T: SlotTest>(
    alloc: Global,
    prefixes: &FlatRows,
    sources: &'a [Source],
    index: &Index<'a>,
    ties: &[Probe],
    test: &T,
) -> Result<FlatRows, AllocError>
    ensures width { IfOk result (λ made. made.width ≡ prefixes.now.width + 1) }
    ensures rows { IfOk result (λ made. made.rows
        ≡ extended_by_index (T.test test.now) sources.now index.now.map ties.now prefixes.now.rows) }
{
    let width = prefixes.width();
    let mut made = prefixes.wider()?;
    let mut left = prefixes.slots();
    let mut count = prefixes.len();
    'rows: while count > 0 {
        count -= 1;
        let (row, rest) = split_row(left, width);
        extend_found(alloc, &mut made, row, sources, index, ties, test)?;
        left = rest;
    }
    Ok(made)
}

// The next level by equalities, which hold for each slot that is looked up and aren't tested again.
fn tied_level<'a, T: SlotTest>(
    alloc: Global,
    prefixes: &FlatRows,
    sources: &'a [Source],
    rows: &'a [SourceRow],
    slots: &'a [u32],
    ties: &[Probe],
    test: &T,
) -> Result<FlatRows, AllocError>
    requires { 0 < length ties.now }
    ensures width { IfOk result (λ made. made.width ≡ prefixes.now.width + 1) }
    ensures rows { IfOk result (λ made. made.rows
        ≡ extended_by_ties (T.test test.now) sources.now ties.now rows.now slots.now prefixes.now.rows) }
{
    let asked = keys_asked(alloc, prefixes, sources, slots.len(), ties)?;
    let index = index_of(alloc, rows, slots, ties, &asked)?;
    let made = found_level(alloc, prefixes, sources, &index, ties, test)?;
    Ok(made)
}

// The next level by ties, or by each slot where there is none.
fn level_by<'a, T: SlotTest>(
    alloc: Global,
    prefixes: &FlatRows,
    sources: &'a [Source],
    rows: &'a [SourceRow],
    slots: &'a [u32],
    ties: &[Probe],
    test: &T,
) -> Result<FlatRows, AllocError>
    ensures width { IfOk result (λ made. made.width ≡ prefixes.now.width + 1) }
    ensures rows { IfOk result (λ made. made.rows
        ≡ extended_by_ties (T.test test.now) sources.now ties.now rows.now slots.now prefixes.now.rows) }
{
    match ties {
        [] => {
            let made = scan_level(prefixes, slots, test)?;
            Ok(made)
        }
        [_tie, ..] => {
            let made = tied_level(alloc, prefixes, sources, rows, slots, ties, test)?;
            Ok(made)
        }
    }
}

// The next level of slots, with the conditions that aren't ties.
fn level_of<'a>(
    alloc: Global,
    prefixes: &FlatRows,
    sources: &'a [Source],
    rows: &'a [SourceRow],
    slots: &'a [u32],
    ties: &[Probe],
    conds: &[BoundExpr],
) -> Result<FlatRows, AllocError>
    ensures width { IfOk result (λ made. made.width ≡ prefixes.now.width + 1) }
    ensures rows { IfOk result (λ made. made.rows
        ≡ extended_by_ties (slots_meet conds.now sources.now) sources.now ties.now rows.now slots.now
        prefixes.now.rows) }
{
    let test = RowTest { sources, conds };
    let made = level_by(alloc, prefixes, sources, rows, slots, ties, &test)?;
    Ok(made)
}

// The next level: each prefix with each row of the next source for which the conditions are True.
fn next_level(
    alloc: Global,
    prefixes: &FlatRows,
    sources: &[Source],
    source: &Source,
    width: u128,
    conds: List<BoundExpr>,
) -> Result<FlatRows, AllocError>
    ensures width { IfOk result (λ made. made.width ≡ prefixes.now.width + 1) }
    ensures rows { IfOk result (λ made. (scope : Items InScope) → AreAllPlaced scope conds
        → (others : Items GivenSource) → drop prefixes.now.width sources.now ≡ source.now ∷ others
        → EachHas width (combinations_at sources.now prefixes.now.rows)
        → combinations_at sources.now made.rows
        ≡ extensions_of_all scope conds (combinations_at sources.now prefixes.now.rows) source.now.rows) }
{
    prefixes.tell_width();
    let rows = source.rows.items();
    let slots = slots_of(alloc, rows)?;
    let tied = ties_of(alloc, conds, width)?;
    let all = slots.as_slice();
    let ties = tied.ties.as_slice();
    let others = tied.others.items();
    let made = level_of(alloc, prefixes, sources, rows, all, ties, others)?;
    Ok(made)
}

// The conditions whose columns are among the first values, and the others.
#[derive(Drop)]
struct Parted {
    ready: List<BoundExpr>,
    later: List<BoundExpr>,
}

fn is_ready(cond: &BoundExpr, width: u128) -> bool
    ensures { result ≡ is_ready width cond.now }
{
    cond.places
        .items()
        .iter()
        .all(|place| (*place as u128) < width)
}

// Parts conditions by whether all their columns are there.
fn part(alloc: Global, conds: List<BoundExpr>, width: u128) -> Result<Parted, AllocError>
    ensures ready { IfOk result (λ parted. parted.ready ≡ ready_conditions width conds) }
    ensures later { IfOk result (λ parted. parted.later ≡ later_conditions width conds) }
{
    let mut ready = List::new(alloc);
    let mut later = List::new(alloc);
    for cond in conds.into_vec() {
        if is_ready(&cond, width) {
            ready.push(cond)?;
        } else {
            later.push(cond)?;
        }
    }
    Ok(Parted { ready, later })
}

// The prefixes so far, the number of values of each, and the conditions that are left to be tested.
#[derive(Drop)]
struct Walk {
    prefixes: FlatRows,
    width: u128,
    left: List<BoundExpr>,
}

// Extends the prefixes by one source, and tests the conditions whose columns are all there then.
fn join_source(
    alloc: Global,
    sources: &[Source],
    walk: Walk,
    source: &Source,
) -> Result<Walk, AllocError>
    requires { walk.width + 2 ^ 64 ≤ 2 ^ 128 }
    ensures width { IfOk result (λ new. new.width < walk.width + 2 ^ 64) }
    ensures slots { IfOk result (λ new. new.prefixes.width ≡ walk.prefixes.width + 1) }
    ensures rows { IfOk result (λ new. (scope : Items InScope) → AreAllPlaced scope walk.left
        → (others : Items GivenSource) → drop walk.prefixes.width sources.now ≡ source.now ∷ others
        → EachHas walk.width (combinations_at sources.now walk.prefixes.rows)
        → AreWide source.now.width source.now.rows
        → AreAllPlaced scope new.left × EachHas new.width (combinations_at sources.now new.prefixes.rows)
        × ((rest : Items (Items Given))
        → extensions_left scope new.left (combinations_at sources.now new.prefixes.rows) rest
        ≡ extensions_left scope walk.left (combinations_at sources.now walk.prefixes.rows)
        (source.now.rows ∷ rest))) }
{
    let Walk {
        prefixes,
        width,
        left,
    } = walk;
    let next = width_with(width, source.width);
    let Parted { ready, later } = part(alloc, left, next)?;
    let prefixes = next_level(alloc, &prefixes, sources, source, width, ready)?;
    Ok(Walk {
        prefixes,
        width: next,
        left: later,
    })
}

// The walk before the first source: one prefix, of no slot.
fn first_prefix(alloc: Global, conds: List<BoundExpr>) -> Walk
    ensures prefixes { result.prefixes ≡ record { width = 0; rows = [] ∷ [] } }
    ensures width { result.width ≡ 0 }
    ensures left { result.left ≡ conds }
{
    Walk {
        prefixes: FlatRows::of_no_source(alloc),
        width: 0,
        left: conds,
    }
}

// After the last source: the prefixes that meet the conditions that are left.
fn last_rows(alloc: Global, sources: &[Source], walk: Walk) -> Result<FlatRows, AllocError>
    ensures { IfOk result (λ rows. (scope : Items InScope) → AreAllPlaced scope walk.left
        → combinations_at sources.now rows.rows
        ≡ filter (tests scope walk.left) (combinations_at sources.now walk.prefixes.rows)) }
{
    let Walk {
        prefixes,
        width: _,
        left,
    } = walk;
    if left.is_empty() {
        return Ok(prefixes);
    }
    let rows = keep_matching(alloc, sources, &prefixes, left.items())?;
    Ok(rows)
}

// Adds a row, if it meets the conditions.
fn keep_one(
    made: &mut FlatRows,
    sources: &[Source],
    row: &[u32],
    conds: &[BoundExpr],
) -> Result<(), AllocError>
    requires { length row.now ≡ made.old.width }
    ensures width { made.new.width ≡ made.old.width }
    ensures rows { OnOk result ((rest : Items (Items ℕ))
        → made.new.rows ++ filter (slots_meet conds.now sources.now) rest
        ≡ made.old.rows ++ filter (slots_meet conds.now sources.now) (row.now ∷ rest)) }
{
    if are_met_in(sources, row, conds) {
        made.push(row)?;
    }
    Ok(())
}

// The rows that meet the conditions.
#[tactic(auto, using(lineage::proofs::FlatLaws::level_rules))]
fn keep_matching(
    alloc: Global,
    sources: &[Source],
    rows: &FlatRows,
    conds: &[BoundExpr],
) -> Result<FlatRows, AllocError>
    ensures { IfOk result (λ made. made.rows ≡ filter (slots_meet conds.now sources.now) rows.now.rows) }
{
    let width = rows.width();
    let mut made = FlatRows::new(alloc, width);
    let mut left = rows.slots();
    let mut count = rows.len();
    'rows: while count > 0 {
        count -= 1;
        let (row, rest) = split_row(left, width);
        keep_one(&mut made, sources, row, conds)?;
        left = rest;
    }
    Ok(made)
}

/// The joined rows, one slot of each source, for which each condition is True.
pub(crate) fn join(
    alloc: Global,
    sources: &[Source],
    conds: List<BoundExpr>,
) -> Result<FlatRows, AllocError>
    ensures { IfOk result (λ rows. (scope : Items InScope) → AreAllPlaced scope conds
        → SourcesAreWide sources.now
        → combinations_at sources.now rows.rows
        ≡ filter (tests scope conds) (combos (map source_rows sources.now))) }
{
    // There are fewer than 2^64 sources, which bounds the number of values.
    let _count = sources.len();
    let mut walk = first_prefix(alloc, conds);
    for source in sources {
        walk = join_source(alloc, sources, walk, source)?;
    }
    last_rows(alloc, sources, walk)
}
