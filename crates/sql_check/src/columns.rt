//! Columns that don't exist or are ambiguous, and columns that aren't grouped by.

ghost use Rattle.std.specs.Prelude.{◌≡◌, ◌||◌, ◌&&◌, ◌++◌, IfOk, OnOk, not};
ghost use Rattle.std.specs.List.{list_all, list_any, range_with_len};
ghost use Rattle.sql_model.specs.Kinds.{names_in, outer_names};
ghost use Rattle.sql_model.specs.Refusals.{groups, item_places, having_places, lacks_in_scope};
ghost use Rattle.sql_model.specs.Refusals.{answer_columns, core_lacks_column, is_order_key};
ghost use Rattle.sql_model.specs.Refusals.{query_lacks_column, insert_lacks_column};
ghost use Rattle.sql_model.specs.Refusals.{update_lacks_column, lacks_column};
ghost use Rattle.sql_model.specs.Scope.{has_column, resolves, places_in};
ghost use Rattle.sql_check.specs.inner.Sources.{is_among, all_among, AddsPlace, AreSamePlaces};

use crate::answer_column::{AnswerColumn, answer_columns, is_order_key};
use crate::core_names::{core_resolves, exprs_resolve, groups, names_of, optional_resolves};
use crate::scope::{Entry, columns_of, has_column, own_scope, place_of, scope_of};
use crate::walk::{all_among, all_resolve, is_among};
use ldv_value::Utf8;
use sql_model::{
    Catalog, Column, ColumnName, Core, Expr, Exprs, Insert, Item, Items, Order, Query, Set,
    Statement, Update,
};
use std::alloc::{AllocError, Global};

/// Whether a column doesn't exist, is ambiguous or isn't in GROUP BY although it must be, or a key of ORDER
/// BY isn't exactly one answer column.
pub(crate) fn has_unknown_column(
    alloc: Global,
    statement: &Statement,
    catalog: &Catalog,
) -> Result<bool, AllocError>
    ensures { IfOk result (λ lacks. lacks ≡ lacks_column statement.now catalog.now) }
{
    match statement {
        Statement::Query(query) => query_lacks_column(alloc, query, catalog),
        Statement::Insert(insert) => {
            let columns = columns_of(catalog, &insert.table);
            Ok(insert_lacks_column(insert, columns))
        }
        Statement::Update(update) => {
            let scope = own_scope(alloc, &update.table, catalog)?;
            let columns = columns_of(catalog, &update.table);
            Ok(update_lacks_column(update, columns, &scope))
        }
        Statement::Delete(delete) => {
            let scope = own_scope(alloc, &delete.table, catalog)?;
            Ok(!optional_resolves(&scope, &delete.pick))
        }
    }
}

fn query_lacks_column(alloc: Global, query: &Query, catalog: &Catalog) -> Result<bool, AllocError>
    ensures { IfOk result (λ lacks. lacks ≡ query_lacks_column query.now catalog.now) }
{
    if cores_lack_column(alloc, query.cores.items(), catalog)? {
        return Ok(true);
    }
    lack_order_key(alloc, query.cores.items(), catalog, query.order.items())
}

// Whether a key of ORDER BY is no answer column.
fn lack_order_key(
    alloc: Global,
    cores: &[Core],
    catalog: &Catalog,
    order: &[Order],
) -> Result<bool, AllocError>
    ensures { IfOk result (λ lacks. lacks
        ≡ not (list_all (λ part. is_order_key (answer_columns catalog.now cores.now) part.key) order.now)) }
{
    match order {
        [] => Ok(false),
        _ => {
            let titles = answer_columns(alloc, catalog, cores)?;
            Ok(!are_order_keys(&titles, order))
        }
    }
}

fn cores_lack_column(alloc: Global, cores: &[Core], catalog: &Catalog) -> Result<bool, AllocError>
    ensures { IfOk result (λ lacks. lacks ≡ list_any (core_lacks_column catalog.now) cores.now) }
{
    for core in cores {
        if core_lacks_column(alloc, core, catalog)? {
            return Ok(true);
        }
    }
    Ok(false)
}

// Whether a name in a core isn't one column of its scope, or a column isn't grouped by where it must be.
fn core_lacks_column(alloc: Global, core: &Core, catalog: &Catalog) -> Result<bool, AllocError>
    ensures { IfOk result (λ lacks. lacks ≡ core_lacks_column catalog.now core.now) }
{
    let scope = scope_of(alloc, core.from.items(), catalog)?;
    let grouped = grouped_places(alloc, &scope, core.group.items())?;
    Ok(lacks_in_scope(&scope, core, &grouped))
}

fn lacks_in_scope(scope: &[Entry], core: &Core, grouped: &[usize]) -> bool
    requires { AreSamePlaces grouped.now (places_in scope.now core.now.group) }
    ensures { result ≡ lacks_in_scope scope.now core.now }
{
    !core_resolves(scope, core) || has_ungrouped_column(scope, core, grouped)
}

// The places of column names, each once: there are no more than columns in scope, however many names.
fn grouped_places(
    alloc: Global,
    scope: &[Entry],
    names: &[ColumnName],
) -> Result<Vec<usize>, AllocError>
    ensures { IfOk result (λ places. AreSamePlaces places.items (places_in scope.now names.now)) }
{
    let mut places = Vec::new(alloc);
    for name in names {
        add_place(&mut places, place_of(scope, name))?;
    }
    Ok(places)
}

// Adds a place, unless it is there.
#[tactic(auto, using(crate::proofs::Grouped::place_added, crate::proofs::Grouped::place_there))]
fn add_place(places: &mut Vec<usize>, place: usize) -> Result<(), AllocError>
    ensures { OnOk result (AddsPlace places.old.items place places.new.items) }
{
    if is_among(places, place) {
        return Ok(());
    }
    places.push(place)?;
    Ok(())
}

// Whether a core groups, and a column outside its aggregates isn't grouped by.
#[tactic(auto, using(crate::proofs::Parts::all_both_places))]
fn has_ungrouped_column(scope: &[Entry], core: &Core, grouped: &[usize]) -> bool
    ensures { result
        ≡ (groups core.now && not (list_all (is_among grouped.now) (item_places scope.now core.now.items
        ++ having_places scope.now core.now.having))) }
{
    groups(core)
        && !(items_grouped(scope, grouped, &core.items)
            && is_having_grouped(scope, grouped, &core.having))
}

#[tactic(auto, using(crate::proofs::Parts::all_item_places))]
fn items_grouped(scope: &[Entry], grouped: &[usize], items: &Option<Items>) -> bool
    ensures { result ≡ list_all (is_among grouped.now) (item_places scope.now items.now) }
{
    match items {
        None => are_all_grouped(grouped, scope.len()),
        Some(items) => are_written_grouped(scope, grouped, items.items()),
    }
}

// Whether each place below a number is grouped by.
fn are_all_grouped(grouped: &[usize], count: usize) -> bool
    ensures { result ≡ list_all (is_among grouped.now) (range_with_len 0 count) }
{
    (0..count).all(|place| is_among(grouped, place))
}

fn are_written_grouped(scope: &[Entry], grouped: &[usize], items: &[Item]) -> bool
    ensures { result ≡ list_all (λ item. all_among scope.now grouped.now (outer_names item.expr)) items.now }
{
    items
        .iter()
        .all(|item| all_among(scope, grouped, &item.expr))
}

#[tactic(auto, using(crate::proofs::Parts::all_optional_among))]
fn is_having_grouped(scope: &[Entry], grouped: &[usize], having: &Option<Expr>) -> bool
    ensures { result ≡ list_all (is_among grouped.now) (having_places scope.now having.now) }
{
    match having {
        None => true,
        Some(expr) => all_among(scope, grouped, expr),
    }
}

fn are_order_keys(titles: &[AnswerColumn], order: &[Order]) -> bool
    ensures { result ≡ list_all (λ part. is_order_key titles.now part.key) order.now }
{
    order.iter().all(|part| is_order_key(titles, &part.key))
}

#[tactic(auto, using(crate::proofs::Parts::all_insert_names))]
fn insert_lacks_column(insert: &Insert, columns: &[Column]) -> bool
    ensures { result ≡ insert_lacks_column insert.now columns.now }
{
    !are_columns(columns, names_of(&insert.columns)) || !rows_resolve(&[], insert.rows.items())
}

fn are_columns(columns: &[Column], names: &[Utf8]) -> bool
    ensures { result ≡ list_all (has_column columns.now) names.now }
{
    names.iter().all(|name| has_column(columns, name))
}

fn rows_resolve(scope: &[Entry], rows: &[Exprs]) -> bool
    ensures { result
        ≡ list_all (λ row. list_all (λ expr. list_all (resolves scope.now) (names_in expr)) row) rows.now }
{
    rows.iter().all(|row| exprs_resolve(scope, row.items()))
}

#[tactic(auto, using(crate::proofs::Parts::all_update_names))]
fn update_lacks_column(update: &Update, columns: &[Column], scope: &[Entry]) -> bool
    ensures { result ≡ update_lacks_column update.now columns.now scope.now }
{
    !sets_have_column(columns, update.sets.items())
        || !(sets_resolve(scope, update.sets.items()) && optional_resolves(scope, &update.pick))
}

fn sets_have_column(columns: &[Column], sets: &[Set]) -> bool
    ensures { result ≡ list_all (λ set. has_column columns.now set.column) sets.now }
{
    sets.iter().all(|set| has_column(columns, &set.column))
}

fn sets_resolve(scope: &[Entry], sets: &[Set]) -> bool
    ensures { result ≡ list_all (λ set. list_all (resolves scope.now) (names_in set.expr)) sets.now }
{
    sets.iter().all(|set| all_resolve(scope, &set.expr))
}
