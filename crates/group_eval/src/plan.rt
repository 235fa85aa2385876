//! The expressions that are evaluated over the groups of a core.

ghost use Rattle.std.specs.Prelude.{◌≡◌, ◌++◌, [], List as Items, ℕ, drop, IfOk};
ghost use Rattle.std.specs.Prelude.{option_to_list, unwrap_or};
ghost use Rattle.std.specs.List.{flat_map};
ghost use Rattle.group_eval.specs.inner.Planning.{AreItems, IsHaving, IsPlan};
ghost use Rattle.sql_model.specs.Kinds.{names_in};
ghost use Rattle.sql_model.specs.Refusals.{core_names, items_of, names_of_items};
ghost use Rattle.sql_model.specs.Scope.{InScope, places_in};

use ldv_value::{List, Places};
use predicates::{BoundExpr, placed_at, placed_items, skip_places, take_place};
use sql_model::{ColumnName, Core, Expr, Items as CoreItems};
use std::alloc::{AllocError, Global};

/// The expressions of a core that groups, and the places of its GROUP BY columns.
#[derive(Drop)]
pub(crate) struct Plan {
    /// The items; `None` means `*`.
    pub items: Option<List<BoundExpr>>,
    /// The places of the GROUP BY columns in the joined row, from 0.
    pub group: Places,
    pub having: Option<BoundExpr>,
}

// The items with the places that they take.
fn planned_items(
    alloc: Global,
    items: &Option<CoreItems>,
    places: &Places,
    at: &mut usize,
) -> Result<Option<List<BoundExpr>>, AllocError>
    ensures { IfOk result (λ planned. (scope : Items InScope) (more : Items ℕ)
        → drop at.old places.now ≡ places_in scope (names_of_items (unwrap_or items.now [])) ++ more
        → (drop at.new places.now ≡ more) × AreItems scope items.now planned) }
{
    match items {
        None => Ok(None),
        Some(items) => Ok(Some(placed_items(alloc, items.items(), places, at)?)),
    }
}

// Passes the places of conditions over.
fn skip_conditions(conditions: &[Expr], places: &Places, at: &mut usize)
    ensures { (scope : Items InScope) (more : Items ℕ)
        → drop at.old places.now ≡ places_in scope (flat_map names_in conditions.now) ++ more
        → drop at.new places.now ≡ more }
{
    for condition in conditions {
        let end = skip_places(condition, places, *at);
        *at = end;
    }
}

// The places of columns.
fn column_places(
    alloc: Global,
    columns: &[ColumnName],
    places: &Places,
    at: &mut usize,
) -> Result<Places, AllocError>
    ensures { IfOk result (λ own. (scope : Items InScope) (more : Items ℕ)
        → drop at.old places.now ≡ places_in scope columns.now ++ more
        → (drop at.new places.now ≡ more) × (own ≡ places_in scope columns.now)) }
{
    let mut own = List::new(alloc);
    for _column in columns {
        take_place(places, at, &mut own)?;
    }
    Ok(own)
}

// HAVING with the places that it takes.
fn plan_having(
    alloc: Global,
    having: &Option<Expr>,
    places: &Places,
    at: &mut usize,
) -> Result<Option<BoundExpr>, AllocError>
    ensures { IfOk result (λ planned. (scope : Items InScope)
        → drop at.old places.now ≡ places_in scope (flat_map names_in (option_to_list having.now))
        → IsHaving scope having.now planned) }
{
    match having {
        None => Ok(None),
        Some(having) => Ok(Some(placed_at(alloc, having, places, at)?)),
    }
}

/// The plan of a core. `places` has the places of its column names, in the order of the core's fields.
pub(crate) fn plan_of(alloc: Global, core: &Core, places: &Places) -> Result<Plan, AllocError>
    ensures { IfOk result (λ plan. (scope : Items InScope)
        → places.now ≡ places_in scope (core_names core.now) → IsPlan scope core.now plan) }
{
    let mut at = 0;
    let items = planned_items(alloc, &core.items, places, &mut at)?;
    skip_conditions(core.picks.items(), places, &mut at);
    let group = column_places(alloc, core.group.items(), places, &mut at)?;
    let having = plan_having(alloc, &core.having, places, &mut at)?;
    Ok(Plan {
        items,
        group,
        having,
    })
}
