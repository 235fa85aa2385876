//! The rows that a change needs, and the versions that it makes.

ghost use Rattle.std.specs.Prelude.{◌≡◌, ◌==◌, ◌+◌, ◌<◌, ◌≤◌, ◌^◌, false, map, length, slice_get};
ghost use Rattle.std.specs.Prelude.{IfOk, IsTrue, nat_le};
ghost use Rattle.std.specs.List.{AllByRecursion, position_or_len};
ghost use Rattle.std.specs.Option.{option_map, option_map_or};
ghost use Rattle.sql_model.specs.Changes.{numbered_rows};
ghost use Rattle.dml_versions.specs.inner.Finding.{version_of};
ghost use Rattle.dml_versions.specs.inner.Needing.{need_found, updated_member, inserted_member, number_found};
ghost use Rattle.dml_versions.specs.inner.Needing.{key_need, put_need, put_some, with_key_rows, with_parent_rows};
ghost use Rattle.dml_versions.specs.inner.Needing.{child_need, with_child_row, IsRowThere};
ghost use Rattle.dml_versions.specs.Versions.{versions_now};
ghost use Rattle.table_store.specs.Histories.{tables_now};

use crate::found::FoundRows;
use ldv_value::{List, Numbers, RowList, Utf8};
use lineage::{needed_by, needs_in_order, union_of_needs};
use sql_model::{Member, Members, Need, Needs, Rule};
use std::alloc::{AllocError, Global};
use table_store::{Store, TableStore};

/// The needs of matched rows if `keep` is true, and otherwise none.
pub(crate) fn needs_of(
    alloc: Global,
    name: &Utf8,
    found: &FoundRows,
    keep: bool,
) -> Result<Needs, AllocError>
    ensures { IfOk result (λ needs. IsTrue keep → needs ≡ map (need_found name.now) found.now) }
{
    if keep {
        all_needs_of(alloc, name, found)
    } else {
        Ok(List::new(alloc))
    }
}

fn all_needs_of(alloc: Global, name: &Utf8, found: &FoundRows) -> Result<Needs, AllocError>
    ensures { IfOk result (λ needs. needs ≡ map (need_found name.now) found.now) }
{
    let mut needs = List::with_capacity(alloc, found.len())?;
    for row in found.items() {
        needs.push(Need {
            member: Member {
                table: name.copy()?,
                row: row.number,
                version: row.version,
            },
            rule: Rule::L,
        })?;
    }
    Ok(needs)
}

/// The versions that a change of matched rows makes.
pub(crate) fn made_of(alloc: Global, name: &Utf8, found: &FoundRows) -> Result<Members, AllocError>
    requires { AllByRecursion (λ row. row.version + 1 < 2 ^ 32) found.now }
    ensures { IfOk result (λ made. made ≡ map (updated_member name.now) found.now) }
{
    let mut made = List::with_capacity(alloc, found.len())?;
    let mut left = found.items();
    loop {
        match left {
            [] => return Ok(made),
            [row, rest @ ..] => {
                made.push(Member {
                    table: name.copy()?,
                    row: row.number,
                    version: row.version + 1,
                })?;
                left = rest;
            }
        }
    }
}

/// The numbers of matched rows.
pub(crate) fn numbers_of(alloc: Global, found: &FoundRows) -> Result<Numbers, AllocError>
    ensures { IfOk result (λ numbers. numbers ≡ map number_found found.now) }
{
    let mut numbers = List::with_capacity(alloc, found.len())?;
    for row in found.items() {
        numbers.push(row.number)?;
    }
    Ok(numbers)
}

/// The versions that an INSERT makes: its rows are numbered from `next` on, each at version 0.
pub(crate) fn inserted_members(
    alloc: Global,
    name: &Utf8,
    next: u32,
    rows: &RowList,
) -> Result<Members, AllocError>
    requires { next + length rows.now < 2 ^ 32 }
    ensures { IfOk result (λ made. made ≡ map (inserted_member name.now) (numbered_rows next rows.now)) }
{
    let mut made = List::with_capacity(alloc, rows.len())?;
    let mut row = next;
    for _values in rows.items() {
        made.push(Member {
            table: name.copy()?,
            row,
            version: 0,
        })?;
        row += 1;
    }
    Ok(made)
}

/// The needs with the two rows of a refused key. `earlier` and `later` are their numbers, `None` for a new
/// row.
pub(crate) fn with_key_rows(
    name: &Utf8,
    table: &TableStore,
    earlier: Option<u32>,
    later: Option<u32>,
    needs: Needs,
) -> Result<Needs, AllocError>
    ensures { IfOk result (λ made. made ≡ with_key_rows name.now table.now.slots earlier later needs) }
{
    let needs = with_key_row(name, table, later, needs)?;
    with_key_row(name, table, earlier, needs)
}

fn with_key_row(
    name: &Utf8,
    table: &TableStore,
    number: Option<u32>,
    needs: Needs,
) -> Result<Needs, AllocError>
    ensures { IfOk result (λ made.
        made ≡ put_some (option_map (key_need name.now table.now.slots) number) needs) }
{
    match number {
        None => Ok(needs),
        Some(number) => {
            let need = Need {
                member: Member {
                    table: name.copy()?,
                    row: number,
                    version: version_of(table, number),
                },
                rule: Rule::K,
            };
            put_need(needs, need)
        }
    }
}

/// The version of the row with a number; 0 if it isn't live.
pub(crate) fn version_of(table: &TableStore, number: u32) -> u32
    ensures { result ≡ version_of table.now.slots number }
{
    match table.version(number) {
        None => 0,
        Some(version) => version,
    }
}

// The needs with one more in its place, unless its row is there.
fn put_need(needs: Needs, need: Need) -> Result<Needs, AllocError>
    ensures { IfOk result (λ made. made ≡ put_need need needs) }
{
    let place = place_for(needs.items(), need.member.row);
    if has_row_at(needs.items(), place, need.member.row) {
        return Ok(needs);
    }
    let mut held = needs.into_vec();
    held.insert(place, need)?;
    Ok(List::of_vec(held))
}

// The place of the first need whose row isn't before a row, or their number.
fn place_for(needs: &[Need], row: u32) -> usize
    ensures place { result ≡ position_or_len (λ need. nat_le row need.member.row) needs.now }
    ensures within { result ≤ length needs.now }
{
    for (place, need) in needs.iter().enumerate() {
        if row <= need.member.row {
            return place;
        }
    }
    needs.len()
}

// Whether a need at a place is of a row.
fn has_row_at(needs: &[Need], place: usize, row: u32) -> bool
    ensures { result ≡ option_map_or (λ need. row == need.member.row) (slice_get needs.now place) false }
{
    match needs.get(place) {
        None => false,
        Some(need) => row == need.member.row,
    }
}

/// Needs with the parent rows that are needed beside them if `keep` is true, and otherwise none.
pub(crate) fn with_parents_if(
    needs: &Needs,
    parents: Members,
    keep: bool,
) -> Result<Needs, AllocError>
    ensures { IfOk result (λ all. IsTrue keep → all ≡ with_parent_rows parents needs.now) }
{
    if keep {
        with_parent_rows(needs, parents)
    } else {
        Ok(List::new(needs.allocator()))
    }
}

// Needs with the parent rows that are needed beside them.
fn with_parent_rows(needs: &Needs, parents: Members) -> Result<Needs, AllocError>
    ensures { IfOk result (λ all. all ≡ with_parent_rows parents needs.now) }
{
    let alloc = needs.allocator();
    let wanted = needed_by(Rule::P, parents)?;
    let others = needs_in_order(alloc, wanted)?;
    let all = union_of_needs(alloc, needs.items(), others.items())?;
    Ok(all)
}

/// The given needs and the child row that a refused change needs.
pub(crate) fn with_child_row(
    store: &Store,
    table: &Utf8,
    row: u32,
    needs: Needs,
) -> Result<Needs, AllocError>
    ensures { IfOk result (λ all. IsRowThere (tables_now store.now) table.now row
        → all ≡ with_child_row (versions_now store.now) table.now row needs) }
{
    let alloc = needs.allocator();
    let child = child_need(store, table, row)?;
    let mut others = List::with_capacity(alloc, 1)?;
    others.push(child)?;
    let all = union_of_needs(alloc, needs.items(), others.items())?;
    Ok(all)
}

// The need of a child row.
fn child_need(store: &Store, table: &Utf8, row: u32) -> Result<Need, AllocError>
    ensures { IfOk result (λ need. IsRowThere (tables_now store.now) table.now row
        → need ≡ child_need (versions_now store.now) table.now row) }
{
    Ok(Need {
        member: Member {
            table: table.copy()?,
            row,
            version: version_in(store, table, row),
        },
        rule: Rule::C,
    })
}

// The version of a row of a table.
fn version_in(store: &Store, table: &Utf8, row: u32) -> u32
    ensures { IsRowThere (tables_now store.now) table.now row
        → result ≡ versions_now store.now table.now row }
{
    match store.table(table.as_str()) {
        None => 0,
        Some(held) => {
            held.tell_order();
            version_of(held, row)
        }
    }
}
