//! The conjuncts of conditions.

ghost use Rattle.std.specs.Prelude.{◌≡◌, ◌++◌, ◌∷◌, [], List as Items, ℕ, drop, IfOk, OnOk};
ghost use Rattle.std.specs.List.{flat_map};
ghost use Rattle.predicates.specs.Conditions.{Adds, AreConditions};
ghost use Rattle.sql_model.specs.Kinds.{names_in};
ghost use Rattle.sql_model.specs.Scope.{InScope, places_in};

use crate::placed::{BoundExpr, placed_at};
use ldv_value::{List, Places};
use sql_model::{Expr, Operator};
use std::alloc::{AllocError, Global};

/// The conjuncts of conditions, with the places of their columns, which are those in `places` from index
/// `from` on.
pub fn conjuncts(
    alloc: Global,
    picks: &[Expr],
    places: &Places,
    from: usize,
) -> Result<List<BoundExpr>, AllocError>
    ensures { IfOk result (λ conds. (scope : Items InScope) (more : Items ℕ)
        → drop from places.now ≡ places_in scope (flat_map names_in picks.now) ++ more
        → AreConditions scope picks.now conds) }
{
    let mut at = from;
    let mut conds = List::new(alloc);
    for pick in picks {
        add_conjuncts(alloc, &mut conds, pick, places, &mut at)?;
    }
    Ok(conds)
}

/// The conjuncts of one condition, with the places of its columns, which are those in `places`.
pub fn conjuncts_of(
    alloc: Global,
    pick: &Expr,
    places: &Places,
) -> Result<List<BoundExpr>, AllocError>
    ensures { IfOk result (λ conds. (scope : Items InScope)
        → places.now ≡ places_in scope (names_in pick.now)
        → AreConditions scope (pick.now ∷ []) conds) }
{
    let mut at = 0;
    let mut conds = List::new(alloc);
    add_conjuncts(alloc, &mut conds, pick, places, &mut at)?;
    Ok(conds)
}

// Adds the conjuncts of a condition.
fn add_conjuncts(
    alloc: Global,
    conds: &mut List<BoundExpr>,
    expr: &Expr,
    places: &Places,
    at: &mut usize,
) -> Result<(), AllocError>
    ensures { OnOk result
        (Adds conds.old expr.now (drop at.old places.now) conds.new (drop at.new places.now)) }
{
    match expr {
        Expr::Both(operator, left, right) => match operator {
            Operator::And => {
                add_conjuncts(alloc, conds, left.get(), places, at)?;
                add_conjuncts(alloc, conds, right.get(), places, at)?;
                Ok(())
            }
            _ => add_condition(alloc, conds, expr, places, at),
        },
        _ => add_condition(alloc, conds, expr, places, at),
    }
}

// Adds a condition as it is.
fn add_condition(
    alloc: Global,
    conds: &mut List<BoundExpr>,
    expr: &Expr,
    places: &Places,
    at: &mut usize,
) -> Result<(), AllocError>
    ensures { OnOk result
        (Adds conds.old expr.now (drop at.old places.now) conds.new (drop at.new places.now)) }
{
    let placed = placed_at(alloc, expr, places, at)?;
    conds.push(placed)?;
    Ok(())
}
