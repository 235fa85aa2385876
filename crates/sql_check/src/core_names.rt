//! Parts of cores, and tests of all the names in them.

ghost use Rattle.std.specs.Prelude.{◌≡◌, ◌&&◌, [], unwrap_or, option_to_list};
ghost use Rattle.std.specs.List.{flat_map, list_all, list_any};
ghost use Rattle.sql_model.specs.Kinds.{has_aggregate, names_in};
ghost use Rattle.sql_model.specs.Refusals.{groups, core_names};
ghost use Rattle.sql_model.specs.Scope.{resolves};

use crate::aggregate::has_aggregate;
use crate::scope::{Entry, resolves};
use crate::walk::all_resolve;
use ldv_value::{Names, Utf8};
use sql_model::{ColumnName, Core, Expr, Item, items_of};

/// The columns that an INSERT names.
pub(crate) fn names_of(columns: &Option<Names>) -> &[Utf8]
    ensures { result.now ≡ unwrap_or columns.now [] }
{
    match columns {
        None => &[],
        Some(names) => names.items(),
    }
}

/// Whether a core has GROUP BY, HAVING, or an aggregate in an item.
pub fn groups(core: &Core) -> bool
    ensures { result ≡ groups core.now }
{
    !core.group.is_empty() || (core.having.is_some() || items_aggregate(items_of(core)))
}

fn items_aggregate(items: &[Item]) -> bool
    ensures { result ≡ list_any (λ item. has_aggregate item.expr) items.now }
{
    items.iter().any(|item| has_aggregate(&item.expr))
}

/// Whether each column name of a core means exactly one column.
#[tactic(auto, using(crate::proofs::Parts::all_core_names))]
pub(crate) fn core_resolves(scope: &[Entry], core: &Core) -> bool
    ensures { result ≡ list_all (resolves scope.now) (core_names core.now) }
{
    items_resolve(scope, items_of(core))
        && (exprs_resolve(scope, core.picks.items())
            && (names_resolve(scope, core.group.items()) && optional_resolves(scope, &core.having)))
}

fn items_resolve(scope: &[Entry], items: &[Item]) -> bool
    ensures { result ≡ list_all (λ item. list_all (resolves scope.now) (names_in item.expr)) items.now }
{
    items.iter().all(|item| all_resolve(scope, &item.expr))
}

/// Whether each column name of some expressions means exactly one column.
pub(crate) fn exprs_resolve(scope: &[Entry], exprs: &[Expr]) -> bool
    ensures { result ≡ list_all (λ expr. list_all (resolves scope.now) (names_in expr)) exprs.now }
{
    exprs.iter().all(|expr| all_resolve(scope, expr))
}

fn names_resolve(scope: &[Entry], names: &[ColumnName]) -> bool
    ensures { result ≡ list_all (resolves scope.now) names.now }
{
    names.iter().all(|name| resolves(scope, name))
}

/// Whether each column name of an expression that may be missing means exactly one column.
#[tactic(auto, using(crate::proofs::Parts::all_optional))]
pub(crate) fn optional_resolves(scope: &[Entry], expr: &Option<Expr>) -> bool
    ensures { result ≡ list_all (resolves scope.now) (flat_map names_in (option_to_list expr.now)) }
{
    match expr {
        None => true,
        Some(expr) => all_resolve(scope, expr),
    }
}
