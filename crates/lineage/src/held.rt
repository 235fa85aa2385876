//! Rows that are stored as a list or as a set.

ghost use Rattle.std.specs.Prelude.{◌≡◌, ◌++◌, ◌∷◌, [], IfOk, OnOk, OnErr};
ghost use Rattle.std.specs.FinMap as finmap;
ghost use Rattle.lineage.specs.inner.Held.{rows_held, IsMany};
ghost use Rattle.lineage.specs.Lineage.{with_version, IsUnion};

use crate::blocks::Row;
use crate::set::LineageSet;
use std::alloc::{AllocError, Global};

/// Rows with their versions: a few in a list, or many as a set. If a row is in the list several times, its
/// first entry has its version.
#[derive(Drop)]
pub(crate) enum Held {
    Few(Vec<(Row, u32)>),
    Many(LineageSet),
}

/// The most entries of a list. They take 196,608 bytes, as many as the words for 1,572,864 rows.
const MOST: usize = 16_384;

fn push_row(rows: &mut Vec<(Row, u32)>, row: Row, version: u32) -> Result<(), AllocError>
    ensures ok { OnOk result (rows.new.items ≡ rows.old.items ++ (row, version) ∷ []) }
    ensures err { OnErr result (rows.new.items ≡ rows.old.items) }
{
    rows.push((row, version))?;
    Ok(())
}

/// Adds a row at a version. On `AllocError` the rows are as they were.
#[tactic(auto, using(crate::proofs::Unions::row_pushed_to))]
pub(crate) fn add_to(held: &mut Held, row: Row, version: u32) -> Result<(), AllocError>
    ensures ok { OnOk result (rows_held held.new ≡ with_version (rows_held held.old) row version) }
    ensures err { OnErr result (rows_held held.new ≡ rows_held held.old) }
{
    match held {
        Held::Few(rows) => push_row(rows, row, version),
        Held::Many(set) => set.add(row.0, row.1, version),
    }
}

// The set of the rows of a list.
#[tactic(auto, using(crate::proofs::Unions::union_alone))]
fn set_of(alloc: Global, rows: &[(Row, u32)]) -> Result<LineageSet, AllocError>
    ensures { IfOk result (λ set. set ≡ finmap.from_entries rows.now) }
{
    let mut set = LineageSet::empty(alloc);
    set.add_list(rows)?;
    Ok(set)
}

// Makes a set of a list.
fn make_many(alloc: Global, held: &mut Held) -> Result<(), AllocError>
    ensures same { rows_held held.new ≡ rows_held held.old }
    ensures many { OnOk result (IsMany held.new) }
{
    if let Held::Few(rows) = held {
        let set = set_of(alloc, rows.as_slice())?;
        *held = Held::Many(set);
    }
    Ok(())
}

// Whether a list would have more than `MOST` rows with `count` more.
fn is_full(held: &Held, count: usize) -> bool {
    match held {
        Held::Few(rows) => rows.len() >= MOST || count > MOST - rows.len(),
        Held::Many(_set) => false,
    }
}

// Makes a set of a list that would have more than `MOST` rows with `count` more.
fn make_fit(alloc: Global, held: &mut Held, count: usize) -> Result<(), AllocError>
    ensures { rows_held held.new ≡ rows_held held.old }
{
    if is_full(held, count) {
        make_many(alloc, held)
    } else {
        Ok(())
    }
}

// Adds the rows of a list.
#[tactic(auto, using(crate::proofs::Unions::rows_joined_to))]
fn append(held: &mut Held, rows: &[(Row, u32)]) -> Result<(), AllocError>
    ensures ok { OnOk result (IsUnion (rows_held held.old) (finmap.from_entries rows.now)
        (rows_held held.new)) }
    ensures err { OnErr result (rows_held held.new ≡ rows_held held.old) }
{
    match held {
        Held::Few(few) => few.extend_from_slice(rows),
        Held::Many(set) => set.add_list(rows),
    }
}

// Adds the rows of a list, and makes a set of a list that would get too long.
fn unite_list(alloc: Global, held: &mut Held, rows: &[(Row, u32)]) -> Result<(), AllocError>
    ensures ok { OnOk result (IsUnion (rows_held held.old) (finmap.from_entries rows.now)
        (rows_held held.new)) }
    ensures err { OnErr result (rows_held held.new ≡ rows_held held.old) }
{
    match make_fit(alloc, held, rows.len()) {
        Ok(()) => append(held, rows),
        Err(stop) => Err(stop),
    }
}

// Adds the rows of a set to those of one.
fn unite_many(held: &mut Held, other: &LineageSet) -> Result<(), AllocError>
    requires { IsMany held.old }
    ensures ok { OnOk result (IsUnion (rows_held held.old) other.now (rows_held held.new)) }
    ensures err { OnErr result (rows_held held.new ≡ rows_held held.old) }
{
    match held {
        Held::Few(_) => unreachable!(),
        Held::Many(set) => set.union(other),
    }
}

// Adds the rows of a set, as which they lie from then on.
fn unite_set(alloc: Global, held: &mut Held, other: &LineageSet) -> Result<(), AllocError>
    ensures ok { OnOk result (IsUnion (rows_held held.old) other.now (rows_held held.new)) }
    ensures err { OnErr result (rows_held held.new ≡ rows_held held.old) }
{
    match make_many(alloc, held) {
        Ok(()) => unite_many(held, other),
        Err(stop) => Err(stop),
    }
}

/// Adds other rows. A row that is in both keeps the version that it has here. On `AllocError` the rows are as
/// they were.
pub(crate) fn unite_with(alloc: Global, held: &mut Held, other: &Held) -> Result<(), AllocError>
    ensures ok { OnOk result (IsUnion (rows_held held.old) (rows_held other.now) (rows_held held.new)) }
    ensures err { OnErr result (rows_held held.new ≡ rows_held held.old) }
{
    match other {
        Held::Few(rows) => unite_list(alloc, held, rows.as_slice()),
        Held::Many(set) => unite_set(alloc, held, set),
    }
}
