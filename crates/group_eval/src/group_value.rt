//! Expressions over a group.
//!
//! Over a group a column outside an aggregate has its value in the first row. So an expression with its
//! aggregates replaced by constants has the same meaning over the first row as the expression has over the
//! group.

ghost use Rattle.std.specs.Prelude.{◌≡◌, List as Items, ℕ, map, drop, IfOk, OnOk, Some};
ghost use Rattle.sql_model.specs.declared.expr.Expr.TheVariants.{Aggregate};
ghost use Rattle.group_eval.specs.inner.Columns.{known_column, IsKnown};
ghost use Rattle.group_eval.specs.inner.Folding.{first_row, group_meaning, value_over};
ghost use Rattle.predicates.specs.Placing.{IsPlaced};
ghost use Rattle.group_eval.specs.inner.BoundAggregates.{BindsTo, IsBound};
ghost use Rattle.sql_model.specs.Kinds.{names_in};
ghost use Rattle.sql_model.specs.Meaning.{aggregate_of, known_values};
ghost use Rattle.sql_model.specs.Scope.{InScope, places_in};

use crate::columns::{KnownColumn, column_place};
use crate::folds::{aggregate, count_value, fold_known};
use ldv_value::{CopyItem, List, Places, Truth, Value, Values};
use lineage::Pick;
use predicates::{BoundExpr, is_column, take_place, take_places};
use sql_model::{Expr, Fold, truth_of, value_of};
use sqlite_items::Boxed;
use std::alloc::{AllocError, Global};

// An aggregate of an expression over a group as a constant. The expression takes its places of those from
// `at` on; afterwards `at` is after them.
fn bind_fold(
    alloc: Global,
    fold: Fold,
    argument: &Expr,
    group: &[&Pick],
    places: &Places,
    at: &mut usize,
) -> Result<Expr, AllocError>
    ensures { IfOk result (λ bound. (own : Items ℕ) → BindsTo (map (λ r. r.now) group.now)
        (Aggregate fold (Some argument.now)) (drop at.old places.now) own
        bound own (drop at.new places.now)) }
{
    let mut taken = List::new(alloc);
    take_places(argument, places, at, &mut taken)?;
    Ok(Expr::Constant(aggregate(alloc, fold, argument, &taken, group)?))
}

// An aggregate over a group as a constant; COUNT(*) has no argument.
fn bind_aggregate(
    alloc: Global,
    fold: Fold,
    argument: &Option<Boxed<Expr>>,
    group: &[&Pick],
    places: &Places,
    at: &mut usize,
) -> Result<Expr, AllocError>
    ensures { IfOk result (λ bound. (own : Items ℕ) → BindsTo (map (λ r. r.now) group.now)
        (Aggregate fold argument.now) (drop at.old places.now) own bound own (drop at.new places.now)) }
{
    match argument {
        None => Ok(Expr::Constant(count_value(group.len()))),
        Some(argument) => bind_fold(alloc, fold, argument.get(), group, places, at),
    }
}

// The expression with its aggregates over a group as constants. It takes its places of those from `at` on,
// and appends to `own` those of the columns outside aggregates; afterwards `at` is after its places.
fn bind_aggregates(
    alloc: Global,
    expr: &Expr,
    group: &[&Pick],
    places: &Places,
    at: &mut usize,
    own: &mut Places,
) -> Result<Expr, AllocError>
    ensures { IfOk result (λ bound. BindsTo (map (λ r. r.now) group.now) expr.now
        (drop at.old places.now) own.old bound own.new (drop at.new places.now)) }
{
    match expr {
        Expr::Constant(value) => Ok(Expr::Constant(value.copy_item(alloc)?)),
        Expr::Column(name) => {
            take_place(places, at, own)?;
            Ok(Expr::Column(name.copy_item(alloc)?))
        }
        Expr::Negate(inner) => {
            let inner = bind_aggregates(alloc, inner.get(), group, places, at, own)?;
            Ok(Expr::Negate(Boxed::new(alloc, inner)?))
        }
        Expr::Not(inner) => {
            let inner = bind_aggregates(alloc, inner.get(), group, places, at, own)?;
            Ok(Expr::Not(Boxed::new(alloc, inner)?))
        }
        Expr::Both(operator, left, right) => {
            let left = bind_aggregates(alloc, left.get(), group, places, at, own)?;
            let right = bind_aggregates(alloc, right.get(), group, places, at, own)?;
            let left = Boxed::new(alloc, left)?;
            Ok(Expr::Both(*operator, left, Boxed::new(alloc, right)?))
        }
        Expr::IsNull(inner, negative) => {
            let inner = bind_aggregates(alloc, inner.get(), group, places, at, own)?;
            Ok(Expr::IsNull(Boxed::new(alloc, inner)?, *negative))
        }
        Expr::Aggregate(fold, argument) => {
            bind_aggregate(alloc, *fold, argument, group, places, at)
        }
    }
}

// The expression with its aggregates over a group as constants.
fn bind_expr(alloc: Global, placed: &BoundExpr, group: &[&Pick]) -> Result<BoundExpr, AllocError>
    ensures { IfOk result (λ bound. (scope : Items InScope)
        → IsPlaced scope placed.now → IsBound scope (map (λ r. r.now) group.now) placed.now.expr bound) }
{
    let mut at = 0;
    let mut own = List::new(alloc);
    let expr = bind_aggregates(
        alloc,
        &placed.expr,
        group,
        &placed.places,
        &mut at,
        &mut own,
    )?;
    Ok(BoundExpr { expr, places: own })
}

// An aggregate of an expression over a group: that of a column by its values there.
fn argument_fold(
    alloc: Global,
    fold: Fold,
    argument: &Expr,
    places: &Places,
    group: &[&Pick],
    known: &mut KnownColumn,
) -> Result<Value, AllocError>
    requires { IsKnown (map (λ r. r.now) group.now) known.old }
    ensures value { IfOk result (λ value. (scope : Items InScope)
        → places_in scope (names_in argument.now) ≡ places.now
        → value ≡ aggregate_of fold (known_values
        (map (value_over scope argument.now) (map (λ r. r.now) group.now)))) }
    ensures known { OnOk result (IsKnown (map (λ r. r.now) group.now) known.new) }
{
    match column_place(argument, places) {
        None => aggregate(alloc, fold, argument, places, group),
        Some(place) => column_fold(alloc, fold, place, group, known),
    }
}

// An aggregate of a column, whose values are gathered once for all aggregates of it that follow one another.
fn column_fold(
    alloc: Global,
    fold: Fold,
    place: usize,
    group: &[&Pick],
    known: &mut KnownColumn,
) -> Result<Value, AllocError>
    requires { IsKnown (map (λ r. r.now) group.now) known.old }
    ensures value { IfOk result (λ value. value
        ≡ aggregate_of fold (known_column place (map (λ r. r.now) group.now))) }
    ensures known { OnOk result (IsKnown (map (λ r. r.now) group.now) known.new) }
{
    known.gather(alloc, place, group)?;
    let value = fold_known(alloc, fold, known.values())?;
    Ok(value)
}

// An aggregate over a group; COUNT(*) has no argument.
fn aggregate_value(
    alloc: Global,
    fold: Fold,
    argument: &Option<Boxed<Expr>>,
    places: &Places,
    group: &[&Pick],
    known: &mut KnownColumn,
) -> Result<Value, AllocError>
    requires { IsKnown (map (λ r. r.now) group.now) known.old }
    ensures value { IfOk result (λ value. (scope : Items InScope)
        → places_in scope (names_in (Aggregate fold argument.now)) ≡ places.now
        → value ≡ (group_meaning scope (map (λ r. r.now) group.now) (Aggregate fold argument.now)).value) }
    ensures known { OnOk result (IsKnown (map (λ r. r.now) group.now) known.new) }
{
    match argument {
        None => Ok(count_value(group.len())),
        Some(argument) => argument_fold(alloc, fold, argument.get(), places, group, known),
    }
}

// The value of an expression over a group, whose aggregates become constants.
fn bound_value(
    alloc: Global,
    placed: &BoundExpr,
    group: &[&Pick],
    first: &Values,
) -> Result<Value, AllocError>
    requires { first.now ≡ first_row (map (λ r. r.now) group.now) }
    ensures { IfOk result (λ value. (scope : Items InScope)
        → IsPlaced scope placed.now
        → value ≡ (group_meaning scope (map (λ r. r.now) group.now) placed.now.expr).value) }
{
    let bound = bind_expr(alloc, placed, group)?;
    value_of(alloc, &bound.expr, first, &bound.places)
}

/// The value of an expression over a group. `first` has the values of the group's first pick. If the
/// expression is a column or an aggregate, it isn't copied.
pub(crate) fn group_value(
    alloc: Global,
    placed: &BoundExpr,
    group: &[&Pick],
    first: &Values,
    known: &mut KnownColumn,
) -> Result<Value, AllocError>
    requires first { first.now ≡ first_row (map (λ r. r.now) group.now) }
    requires known { IsKnown (map (λ r. r.now) group.now) known.old }
    ensures value { IfOk result (λ value. (scope : Items InScope)
        → IsPlaced scope placed.now
        → value ≡ (group_meaning scope (map (λ r. r.now) group.now) placed.now.expr).value) }
    ensures known { OnOk result (IsKnown (map (λ r. r.now) group.now) known.new) }
{
    if is_column(&placed.expr) {
        return value_of(alloc, &placed.expr, first, &placed.places);
    }
    match &placed.expr {
        Expr::Aggregate(fold, argument) => {
            aggregate_value(alloc, *fold, argument, &placed.places, group, known)
        }
        _ => bound_value(alloc, placed, group, first),
    }
}

/// The truth of an expression over a group. `first` has the values of the group's first pick.
pub(crate) fn group_truth(
    alloc: Global,
    placed: &BoundExpr,
    group: &[&Pick],
    first: &Values,
) -> Result<Truth, AllocError>
    requires { first.now ≡ first_row (map (λ r. r.now) group.now) }
    ensures { IfOk result (λ truth. (scope : Items InScope)
        → IsPlaced scope placed.now
        → truth ≡ (group_meaning scope (map (λ r. r.now) group.now) placed.now.expr).truth) }
{
    let bound = bind_expr(alloc, placed, group)?;
    truth_of(alloc, &bound.expr, first, &bound.places)
}
