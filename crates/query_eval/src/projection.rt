//! The answer rows of a core that doesn't group.

ghost use Rattle.std.specs.Prelude.{◌≡◌, ◌++◌, ℕ, List as Items, map, IfOk};
ghost use Rattle.predicates.specs.Placing.{AreAllPlaced};
ghost use Rattle.predicates.specs.Checking.{HasCore};
ghost use Rattle.query_eval.specs.Projecting.{projected_answer, values_over, answer_of_all_columns, IsProjected};
ghost use Rattle.sql_model.specs.Refusals.{names_of_items};
ghost use Rattle.sql_model.specs.Scope.{InScope, places_in};

use ldv_value::{List, Places, Values};
use lineage::{Answer, Answers, Picks};
use predicates::{BoundExpr, column_indexes, core_of, placed_items};
use sql_model::{Checked, Item, value_of};
use std::alloc::{AllocError, Global};

/// The answer rows of a core that doesn't group, from its picked combinations. `core` is the core's place,
/// from 0.
#[tactic(auto, using(crate::proofs::Projections::projections))]
pub fn project(checked: &Checked, core: usize, picks: Picks) -> Result<Answers, AllocError>
    requires { HasCore checked.now core }
    ensures { IfOk result (IsProjected checked.now core picks) }
{
    let alloc = picks.allocator();
    let none = List::new(alloc);
    let places = column_indexes(checked, core, &none);
    match &core_of(checked, core).items {
        None => project_all(alloc, picks),
        Some(items) => {
            let items = first_items(alloc, items.items(), places)?;
            project_items(alloc, items.items(), picks)
        }
    }
}

// The items of a core with the places that they take, which come first.
fn first_items(
    alloc: Global,
    items: &[Item],
    places: &Places,
) -> Result<List<BoundExpr>, AllocError>
    ensures exprs { IfOk result (λ placed. map (λ p. p.expr) placed ≡ map (λ item. item.expr) items.now) }
    ensures placed { IfOk result (λ placed. (scope : Items InScope) (others : Items ℕ)
        → places.now ≡ places_in scope (names_of_items items.now) ++ others → AreAllPlaced scope placed) }
{
    let mut at = 0;
    placed_items(alloc, items, places, &mut at)
}

// The values of expressions over a row.
fn row_values(alloc: Global, exprs: &[BoundExpr], row: &Values) -> Result<Values, AllocError>
    ensures { IfOk result (λ values. (scope : Items InScope) → AreAllPlaced scope exprs.now
        → values ≡ values_over scope row.now exprs.now) }
{
    let mut values = List::with_capacity(alloc, exprs.len())?;
    for placed in exprs {
        let value = value_of(alloc, &placed.expr, row, &placed.places)?;
        values.push(value)?;
    }
    Ok(values)
}

// The answers with the values of items.
fn project_items(alloc: Global, items: &[BoundExpr], picks: Picks) -> Result<Answers, AllocError>
    ensures { IfOk result (λ answers. (scope : Items InScope) → AreAllPlaced scope items.now
        → answers ≡ map (projected_answer scope items.now) picks) }
{
    let mut answers = List::with_capacity(alloc, picks.len())?;
    for pick in picks.into_vec() {
        answers.push(Answer {
            values: row_values(alloc, items, &pick.values)?,
            lineage: pick.lineage,
        })?;
    }
    Ok(answers)
}

// The answers with all columns.
fn project_all(alloc: Global, picks: Picks) -> Result<Answers, AllocError>
    ensures { IfOk result (λ answers. answers ≡ map answer_of_all_columns picks) }
{
    let mut answers = List::with_capacity(alloc, picks.len())?;
    for pick in picks.into_vec() {
        answers.push(Answer {
            values: pick.values,
            lineage: pick.lineage,
        })?;
    }
    Ok(answers)
}
