//! The conjuncts of ON and WHERE.

ghost use Rattle.std.specs.Prelude.{◌≡◌, ◌++◌, List as Items, ℕ, drop, IfOk};
ghost use Rattle.std.specs.List.{flat_map};
ghost use Rattle.predicates.specs.Checking.{HasCore};
ghost use Rattle.predicates.specs.Conditions.{Adds, AreConditions};
ghost use Rattle.query_eval.specs.inner.Conditions.{AreOfCore};
ghost use Rattle.sql_model.specs.Kinds.{names_in};
ghost use Rattle.sql_model.specs.Refusals.{core_names, names_of_items};
ghost use Rattle.sql_model.specs.Scope.{InScope, places_in};

use ldv_value::{List, Places};
use predicates::{BoundExpr, column_indexes, conjuncts, core_of, skip_places};
use sql_model::{Checked, Core, Item, items_of};
use std::alloc::{AllocError, Global};

// Passes the places of items over.
fn skip_items(items: &[Item], places: &Places, at: &mut usize)
    ensures { (scope : Items InScope) (more : Items ℕ)
        → drop at.old places.now ≡ places_in scope (names_of_items items.now) ++ more
        → drop at.new places.now ≡ more }
{
    for item in items {
        let end = skip_places(&item.expr, places, *at);
        *at = end;
    }
}

// The conjuncts of ON and WHERE of a core, with their places among those of the core.
fn conditions_of(alloc: Global, core: &Core, places: &Places) -> Result<List<BoundExpr>, AllocError>
    ensures { IfOk result (λ conds. (scope : Items InScope)
        → places.now ≡ places_in scope (core_names core.now) → AreConditions scope core.now.picks conds) }
{
    let mut at = 0;
    skip_items(items_of(core), places, &mut at);
    conjuncts(alloc, core.picks.items(), places, at)
}

/// The conjuncts of ON and WHERE of the core at a place, from 0.
pub(crate) fn core_conditions(
    alloc: Global,
    checked: &Checked,
    core: usize,
) -> Result<List<BoundExpr>, AllocError>
    requires { HasCore checked.now core }
    ensures { IfOk result (AreOfCore checked.now core) }
{
    let none = List::new(alloc);
    let places = column_indexes(checked, core, &none);
    conditions_of(alloc, core_of(checked, core), places)
}
