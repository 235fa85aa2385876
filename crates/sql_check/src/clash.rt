//! Kinds and counts that don't fit.

ghost use Rattle.std.specs.Prelude.{◌≡◌, ◌&&◌, IfOk, Some, option_to_list};
ghost use Rattle.std.specs.List.{list_all, list_any};
ghost use Rattle.ldv_value.specs.declared.value.Value.TheVariants.{Int};
ghost use Rattle.sql_model.specs.Kinds.{is_condition};
ghost use Rattle.sql_model.specs.Refusals.{is_pick, is_having, counts, counts_joined, conditions_fit};
ghost use Rattle.sql_model.specs.Refusals.{is_limit, query_clashes, takes, set_fits, pick_fits};
ghost use Rattle.sql_model.specs.Refusals.{update_clashes, clashes};

use crate::aggregate::counts;
use crate::duplicate::has_duplicate;
use crate::kinds::{are_comparable, group_kind, is_logical, kind_of_column, row_kind};
use crate::scope::{Entry, column_at, columns_of, own_scope};
use crate::union::query_kinds;
use crate::values::insert_clashes;
use ldv_value::Value;
use sql_model::{Catalog, Column, Core, Expr, Item, Kind, Query, Set, Statement, Update, items_of};
use std::alloc::{AllocError, Global};

/// Whether kinds or counts don't fit, in an expression, a condition, a UNION, LIMIT or a change.
pub(crate) fn has_type_clash(
    alloc: Global,
    statement: &Statement,
    catalog: &Catalog,
) -> Result<bool, AllocError>
    ensures { IfOk result (λ clash. clash ≡ clashes statement.now catalog.now) }
{
    match statement {
        Statement::Query(query) => query_clashes(alloc, query, catalog),
        Statement::Insert(insert) => {
            insert_clashes(alloc, insert, columns_of(catalog, &insert.table))
        }
        Statement::Update(update) => {
            let scope = own_scope(alloc, &update.table, catalog)?;
            let columns = columns_of(catalog, &update.table);
            update_clashes(alloc, update, columns, &scope)
        }
        Statement::Delete(delete) => {
            let scope = own_scope(alloc, &delete.table, catalog)?;
            Ok(!pick_fits(&scope, &delete.pick))
        }
    }
}

fn query_clashes(alloc: Global, query: &Query, catalog: &Catalog) -> Result<bool, AllocError>
    ensures { IfOk result (λ clash. clash ≡ query_clashes query.now catalog.now) }
{
    match query_kinds(alloc, catalog, query.cores.items())? {
        None => Ok(true),
        Some(_) => Ok(!is_limit(&query.limit)),
    }
}

// Whether LIMIT isn't there or is a number of at least 0.
fn is_limit(limit: &Option<Value>) -> bool
    ensures { result ≡ is_limit limit.now }
{
    match limit {
        None => true,
        Some(Value::Null) => false,
        Some(Value::Int(number)) => is_count(*number),
        Some(Value::Text(_)) => false,
    }
}

fn is_count(number: i64) -> bool
    ensures { result ≡ is_limit (Some (Int number)) }
{
    if number < 0 { false } else { true }
}

fn is_condition(kind: Option<Kind>) -> bool
    ensures { result ≡ is_condition kind }
{
    match kind {
        None => false,
        Some(kind) => is_logical(kind),
    }
}

fn is_pick(scope: &[Entry], expr: &Expr) -> bool
    ensures { result ≡ is_pick scope.now expr.now }
{
    is_condition(row_kind(scope, expr))
}

fn is_having(scope: &[Entry], expr: &Expr) -> bool
    ensures { result ≡ is_having scope.now expr.now }
{
    is_condition(group_kind(scope, expr))
}

/// Whether the conditions of a core are truths, and no aggregate counts the rows of several sources.
pub(crate) fn conditions_fit(scope: &[Entry], core: &Core) -> bool
    ensures { result ≡ conditions_fit scope.now core.now }
{
    picks_fit(scope, core.picks.items())
        && (having_fits(scope, &core.having) && !counts_joined(core))
}

fn picks_fit(scope: &[Entry], picks: &[Expr]) -> bool
    ensures { result ≡ list_all (is_pick scope.now) picks.now }
{
    picks.iter().all(|pick| is_pick(scope, pick))
}

#[tactic(auto, using(crate::proofs::Mapped::last_test))]
fn having_fits(scope: &[Entry], having: &Option<Expr>) -> bool
    ensures { result ≡ list_all (is_having scope.now) (option_to_list having.now) }
{
    match having {
        None => true,
        Some(expr) => is_having(scope, expr),
    }
}

// Whether the rows of several sources are counted: by COUNT, or by a SUM that names no column.
fn counts_joined(core: &Core) -> bool
    ensures { result ≡ counts_joined core.now }
{
    core.from.len() >= 2 && (items_count(items_of(core)) || having_counts(&core.having))
}

fn items_count(items: &[Item]) -> bool
    ensures { result ≡ list_any (λ item. counts item.expr) items.now }
{
    items.iter().any(|item| counts(&item.expr))
}

#[tactic(auto, using(crate::proofs::Mapped::last_test))]
fn having_counts(having: &Option<Expr>) -> bool
    ensures { result ≡ list_any counts (option_to_list having.now) }
{
    match having {
        None => false,
        Some(expr) => counts(expr),
    }
}

/// Whether a column takes values of a kind.
pub(crate) fn takes(column: &Column, kind: Option<Kind>) -> bool
    ensures { result ≡ takes column.now kind }
{
    match kind {
        None => false,
        Some(kind) => are_comparable(kind_of_column(column), kind),
    }
}

fn update_clashes(
    alloc: Global,
    update: &Update,
    columns: &[Column],
    scope: &[Entry],
) -> Result<bool, AllocError>
    ensures { IfOk result (λ clash. clash ≡ update_clashes update.now columns.now scope.now) }
{
    if has_duplicate(alloc, update.sets.items())? {
        return Ok(true);
    }
    Ok(!update_fits(update, columns, scope))
}

fn update_fits(update: &Update, columns: &[Column], scope: &[Entry]) -> bool
    ensures { result ≡ (list_all (set_fits columns.now scope.now) update.now.sets
        && pick_fits scope.now update.now.pick) }
{
    sets_fit(columns, scope, update.sets.items()) && pick_fits(scope, &update.pick)
}

fn sets_fit(columns: &[Column], scope: &[Entry], sets: &[Set]) -> bool
    ensures { result ≡ list_all (set_fits columns.now scope.now) sets.now }
{
    sets.iter().all(|set| set_fits(columns, scope, set))
}

fn set_fits(columns: &[Column], scope: &[Entry], set: &Set) -> bool
    ensures { result ≡ set_fits columns.now scope.now set.now }
{
    let kind = row_kind(scope, &set.expr);
    match column_at(columns, &set.column) {
        None => false,
        Some(column) => takes(column, kind),
    }
}

#[tactic(auto, using(crate::proofs::Mapped::last_test))]
fn pick_fits(scope: &[Entry], pick: &Option<Expr>) -> bool
    ensures { result ≡ pick_fits scope.now pick.now }
{
    match pick {
        None => true,
        Some(expr) => is_pick(scope, expr),
    }
}
