//! The places of the columns of an UPDATE or a DELETE.

ghost use Rattle.std.specs.Prelude.{◌≡◌, ◌++◌, ℕ, List as Items, drop, IfOk};
ghost use Rattle.std.specs.List.{flat_map};
ghost use Rattle.dml_versions.specs.inner.Finding.{IsPickPlaced, pick_names};
ghost use Rattle.dml_versions.specs.inner.Making.{AreSetsPlaced};
ghost use Rattle.sql_model.specs.Kinds.{names_in};
ghost use Rattle.sql_model.specs.Refusals.{update_names};
ghost use Rattle.sql_model.specs.Scope.{InScope, places_in};

use ldv_value::{List, PlaceLists, Places};
use predicates::take_places;
use sql_model::{Expr, Set, Update};
use std::alloc::{AllocError, Global};

/// The places of the columns in each SET and in WHERE, from 0.
#[derive(Drop)]
pub(crate) struct UpdatePlaces {
    pub sets: PlaceLists,
    pub pick: Places,
}

/// The places of an UPDATE, part by part.
pub(crate) fn update_places(
    alloc: Global,
    update: &Update,
    places: &Places,
) -> Result<UpdatePlaces, AllocError>
    ensures { IfOk result (λ made. (scope : Items InScope)
        → places.now ≡ places_in scope (update_names update.now)
        → AreSetsPlaced scope update.now.sets made.sets × IsPickPlaced scope update.now.pick made.pick) }
{
    let mut at = 0;
    let sets = set_places(alloc, update.sets.items(), places, &mut at)?;
    let pick = pick_places(alloc, &update.pick, places, at)?;
    Ok(UpdatePlaces { sets, pick })
}

// The places of the columns of each SET; afterwards `at` is after them.
fn set_places(
    alloc: Global,
    sets: &[Set],
    places: &Places,
    at: &mut usize,
) -> Result<PlaceLists, AllocError>
    ensures { IfOk result (λ lists. (scope : Items InScope) (more : Items ℕ)
        → drop at.old places.now ≡ places_in scope (flat_map (λ set. names_in set.expr) sets.now) ++ more
        → AreSetsPlaced scope sets.now lists × (drop at.new places.now ≡ more)) }
{
    let mut lists = List::new(alloc);
    for set in sets {
        let mut own = List::new(alloc);
        take_places(&set.expr, places, at, &mut own)?;
        lists.push(own)?;
    }
    Ok(lists)
}

/// The places of WHERE's columns, which are those in `places` from index `from` on.
pub(crate) fn pick_places(
    alloc: Global,
    pick: &Option<Expr>,
    places: &Places,
    from: usize,
) -> Result<Places, AllocError>
    ensures { IfOk result (λ own. (scope : Items InScope)
        → drop from places.now ≡ places_in scope (pick_names pick.now)
        → IsPickPlaced scope pick.now own) }
{
    let mut own = List::new(alloc);
    match pick {
        None => Ok(own),
        Some(expr) => {
            let mut at = from;
            take_places(expr, places, &mut at, &mut own)?;
            Ok(own)
        }
    }
}
