//! Walks over the column names of expressions.

ghost use Rattle.std.specs.Prelude.{◌≡◌, ◌++◌, OnOk};
ghost use Rattle.std.specs.List.{list_all};
ghost use Rattle.sql_model.specs.Kinds.{names_in, outer_names};
ghost use Rattle.sql_model.specs.Scope.{resolves, place_of, places_in};
ghost use Rattle.sql_check.specs.inner.Sources.{is_among, all_among};

use crate::scope::{Entry, place_of, resolves};
use sql_model::Expr;
use std::alloc::AllocError;

/// Whether each column name of an expression means exactly one column.
#[tactic(auto, using(crate::proofs::Walks::all_forms))]
pub(crate) fn all_resolve(scope: &[Entry], expr: &Expr) -> bool
    ensures { result ≡ list_all (resolves scope.now) (names_in expr.now) }
{
    match expr {
        Expr::Constant(_) => true,
        Expr::Column(name) => resolves(scope, name),
        Expr::Negate(inner) => all_resolve(scope, inner.get()),
        Expr::Not(inner) => all_resolve(scope, inner.get()),
        Expr::Both(_, left, right) => {
            all_resolve(scope, left.get()) && all_resolve(scope, right.get())
        }
        Expr::IsNull(inner, _) => all_resolve(scope, inner.get()),
        Expr::Aggregate(_, None) => true,
        Expr::Aggregate(_, Some(inner)) => all_resolve(scope, inner.get()),
    }
}

/// Whether each column name of an expression outside its aggregates means a column at one of some places.
#[tactic(auto, using(crate::proofs::Walks::among_forms))]
pub(crate) fn all_among(scope: &[Entry], places: &[usize], expr: &Expr) -> bool
    ensures { result ≡ all_among scope.now places.now (outer_names expr.now) }
{
    match expr {
        Expr::Constant(_) => true,
        Expr::Column(name) => is_among(places, place_of(scope, name)),
        Expr::Negate(inner) => all_among(scope, places, inner.get()),
        Expr::Not(inner) => all_among(scope, places, inner.get()),
        Expr::Both(_, left, right) => {
            all_among(scope, places, left.get()) && all_among(scope, places, right.get())
        }
        Expr::IsNull(inner, _) => all_among(scope, places, inner.get()),
        Expr::Aggregate(_, None) => true,
        Expr::Aggregate(_, Some(_)) => true,
    }
}

/// Whether a place is one of some places.
pub(crate) fn is_among(places: &[usize], place: usize) -> bool
    ensures { result ≡ is_among places.now place }
{
    places.iter().any(|p| *p == place)
}

/// Appends the places of the column names of an expression, left to right.
#[tactic(auto, using(crate::proofs::Walks::places_forms))]
pub(crate) fn push_places(
    places: &mut Vec<usize>,
    scope: &[Entry],
    expr: &Expr,
) -> Result<(), AllocError>
    ensures { OnOk result (places.new.items ≡ places.old.items ++ places_in scope.now (names_in expr.now)) }
{
    match expr {
        Expr::Constant(_) => Ok(()),
        Expr::Column(name) => {
            places.push(place_of(scope, name))?;
            Ok(())
        }
        Expr::Negate(inner) => push_places(places, scope, inner.get()),
        Expr::Not(inner) => push_places(places, scope, inner.get()),
        Expr::Both(_, left, right) => {
            push_places(places, scope, left.get())?;
            push_places(places, scope, right.get())
        }
        Expr::IsNull(inner, _) => push_places(places, scope, inner.get()),
        Expr::Aggregate(_, None) => Ok(()),
        Expr::Aggregate(_, Some(inner)) => push_places(places, scope, inner.get()),
    }
}
