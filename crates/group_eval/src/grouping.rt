//! The answer rows of a core that groups.

ghost use Rattle.std.specs.FinMap as finmap;
ghost use Rattle.std.specs.Prelude.{◌≡◌, ◌++◌, ◌∷◌, [], List as Items, map, IfOk, OnOk};
ghost use Rattle.predicates.specs.Checking.{HasCore};
ghost use Rattle.group_eval.specs.Evaluating.{item_values, group_values, group_answer, is_group_kept};
ghost use Rattle.group_eval.specs.Evaluating.{ArePlaced, IsHavingPlaced};
ghost use Rattle.group_eval.specs.Evaluating.{IsPlacedPlan, AddsGroup, IsGroupedBy, IsGrouped};
ghost use Rattle.group_eval.specs.inner.Folding.{first_row};
ghost use Rattle.group_eval.specs.inner.Grouping.{own_picks, pick_groups, keyed_groups};
ghost use Rattle.predicates.specs.Placing.{AreAllPlaced};
ghost use Rattle.sql_model.specs.Scope.{InScope};

use crate::columns::KnownColumn;
use crate::group_value::{group_truth, group_value};
use crate::groups::{KeyedGroup, groups_of};
use crate::lineages::{add_lineages, lineage_of_picks};
use crate::plan::{Plan, plan_of};
use ldv_value::{List, Refs, Values};
use lineage::{Answer, Answers, LineageSet, Pick, Picks};
use predicates::{BoundExpr, column_indexes, core_of, is_certain};
use sql_model::Checked;
use std::alloc::{AllocError, Global};

/// The answer rows of the groups that HAVING keeps, and the lineage of those that it rejects.
#[derive(Drop)]
pub struct Grouped {
    pub answers: Answers,
    pub rejected: LineageSet,
}

// No answer row and no rejected group.
fn no_group(alloc: Global) -> Grouped
    ensures answers { result.answers ≡ [] }
    ensures rejected { result.rejected ≡ finmap.empty }
{
    Grouped {
        answers: List::new(alloc),
        rejected: LineageSet::empty(alloc),
    }
}

// The values of items over a group.
fn values_of_items(
    alloc: Global,
    items: &[BoundExpr],
    group: &[&Pick],
    first: &Values,
) -> Result<Values, AllocError>
    requires { first.now ≡ first_row (map (λ r. r.now) group.now) }
    ensures { IfOk result (λ values. (scope : Items InScope) → AreAllPlaced scope items.now
        → values ≡ item_values scope (map (λ r. r.now) group.now) items.now) }
{
    let mut known = KnownColumn::none(alloc);
    let mut values = List::with_capacity(alloc, items.len())?;
    for item in items {
        values.push(group_value(alloc, item, group, first, &mut known)?)?;
    }
    Ok(values)
}

// The values of the answer row of a group.
fn group_values(
    alloc: Global,
    items: &Option<List<BoundExpr>>,
    group: &[&Pick],
    first: &Values,
) -> Result<Values, AllocError>
    requires { first.now ≡ first_row (map (λ r. r.now) group.now) }
    ensures { IfOk result (λ values. (scope : Items InScope) → ArePlaced scope items.now
        → values ≡ group_values scope items.now (map (λ r. r.now) group.now)) }
{
    match items {
        None => first.copy(),
        Some(items) => values_of_items(alloc, items.items(), group, first),
    }
}

// Whether HAVING is True for a group, or missing.
fn is_kept(
    alloc: Global,
    having: &Option<BoundExpr>,
    group: &[&Pick],
    first: &Values,
) -> Result<bool, AllocError>
    requires { first.now ≡ first_row (map (λ r. r.now) group.now) }
    ensures { IfOk result (λ kept. (scope : Items InScope) → IsHavingPlaced scope having.now
        → kept ≡ is_group_kept scope having.now (map (λ r. r.now) group.now)) }
{
    match having {
        None => Ok(true),
        Some(having) => Ok(is_certain(group_truth(alloc, having, group, first)?)),
    }
}

// The answer row of a group, from all rows of the group.
fn group_answer(
    alloc: Global,
    plan: &Plan,
    group: &[&Pick],
    first: &Values,
) -> Result<Answer, AllocError>
    requires { first.now ≡ first_row (map (λ r. r.now) group.now) }
    ensures { IfOk result (λ answer. (scope : Items InScope) → ArePlaced scope plan.now.items
        → answer ≡ group_answer scope plan.now (map (λ r. r.now) group.now)) }
{
    Ok(Answer {
        values: group_values(alloc, &plan.items, group, first)?,
        lineage: lineage_of_picks(alloc, group)?,
    })
}

// Adds the answer row of a group.
fn add_answer(
    alloc: Global,
    plan: &Plan,
    group: &[&Pick],
    first: &Values,
    answers: &mut Answers,
) -> Result<(), AllocError>
    requires { first.now ≡ first_row (map (λ r. r.now) group.now) }
    ensures { OnOk result ((scope : Items InScope) → ArePlaced scope plan.now.items
        → answers.new ≡ answers.old ++ group_answer scope plan.now (map (λ r. r.now) group.now) ∷ []) }
{
    answers.push(group_answer(alloc, plan, group, first)?)?;
    Ok(())
}

// Adds a group: its answer row, or its lineage to that of the rejected ones. `first` has the values of
// columns outside aggregates.
fn add_group_from(
    alloc: Global,
    plan: &Plan,
    group: &[&Pick],
    first: &Values,
    grouped: &mut Grouped,
) -> Result<(), AllocError>
    requires { first.now ≡ first_row (map (λ r. r.now) group.now) }
    ensures { OnOk result ((scope : Items InScope) → IsPlacedPlan scope plan.now
        → AddsGroup scope plan.now (map (λ r. r.now) group.now) grouped.old grouped.new) }
{
    if is_kept(alloc, &plan.having, group, first)? {
        add_answer(alloc, plan, group, first, &mut grouped.answers)
    } else {
        add_lineages(&mut grouped.rejected, group)
    }
}

// Adds a group, of which the first pick, if there is one, has the values of columns outside aggregates.
fn add_group(
    alloc: Global,
    plan: &Plan,
    group: &[&Pick],
    grouped: &mut Grouped,
) -> Result<(), AllocError>
    ensures { OnOk result ((scope : Items InScope) → IsPlacedPlan scope plan.now
        → AddsGroup scope plan.now (map (λ r. r.now) group.now) grouped.old grouped.new) }
{
    match group {
        [] => {
            let none = List::new(alloc);
            add_group_from(alloc, plan, group, &none, grouped)
        }
        [first, ..] => add_group_from(alloc, plan, group, &first.values, grouped),
    }
}

// References to all picks.
fn refs_of<'a>(alloc: Global, picks: &'a [Pick]) -> Result<Refs<'a, Pick>, AllocError>
    ensures { IfOk result (λ refs. refs ≡ picks.now) }
{
    let mut refs = Refs::new(alloc);
    for pick in picks {
        refs.push(pick)?;
    }
    Ok(refs)
}

// All picks as one group.
fn evaluate_one_group(alloc: Global, plan: &Plan, picks: &[Pick]) -> Result<Grouped, AllocError>
    ensures { IfOk result (λ grouped. (scope : Items InScope) → IsPlacedPlan scope plan.now
        → IsGroupedBy scope plan.now (picks.now ∷ []) grouped) }
{
    let mut grouped = no_group(alloc);
    let all = refs_of(alloc, picks)?;
    add_group(alloc, plan, all.items(), &mut grouped)?;
    Ok(grouped)
}

// Adds the group of some values.
fn add_keyed(
    alloc: Global,
    plan: &Plan,
    group: &KeyedGroup,
    grouped: &mut Grouped,
) -> Result<(), AllocError>
    ensures { OnOk result ((scope : Items InScope) → IsPlacedPlan scope plan.now
        → AddsGroup scope plan.now group.now.picks grouped.old grouped.new) }
{
    add_group(alloc, plan, group.picks.items(), grouped)
}

// Groups one by one.
fn evaluate_groups(alloc: Global, plan: &Plan, groups: &[KeyedGroup]) -> Result<Grouped, AllocError>
    ensures { IfOk result (λ grouped. (scope : Items InScope) → IsPlacedPlan scope plan.now
        → IsGroupedBy scope plan.now (map own_picks groups.now) grouped) }
{
    let mut grouped = no_group(alloc);
    for group in groups {
        add_keyed(alloc, plan, group, &mut grouped)?;
    }
    Ok(grouped)
}

// Groups by the values of the GROUP BY columns.
fn grouped_by_keys(alloc: Global, plan: &Plan, picks: &[Pick]) -> Result<Grouped, AllocError>
    ensures { IfOk result (λ grouped. (scope : Items InScope) → IsPlacedPlan scope plan.now
        → IsGroupedBy scope plan.now (keyed_groups plan.now.group picks.now) grouped) }
{
    let groups = groups_of(alloc, &plan.group, picks)?;
    evaluate_groups(alloc, plan, groups.as_slice())
}

// Evaluates all groups: without GROUP BY all picks are one.
fn grouped_picks(alloc: Global, plan: &Plan, picks: &[Pick]) -> Result<Grouped, AllocError>
    ensures { IfOk result (λ grouped. (scope : Items InScope) → IsPlacedPlan scope plan.now
        → IsGroupedBy scope plan.now (pick_groups plan.now.group picks.now) grouped) }
{
    if plan.group.is_empty() {
        evaluate_one_group(alloc, plan, picks)
    } else {
        grouped_by_keys(alloc, plan, picks)
    }
}

/// The answer rows of a core that groups, from its picked combinations. `core` is the core's place, from 0. A
/// group has the rows with the same values in the GROUP BY columns, and NULL equals NULL. The groups are in
/// order of first appearance. Without GROUP BY there is one group, even if it has no row.
pub fn group(checked: &Checked, core: usize, picks: Picks) -> Result<Grouped, AllocError>
    requires { HasCore checked.now core }
    ensures { IfOk result (IsGrouped checked.now core picks) }
{
    let alloc = picks.allocator();
    let none = List::new(alloc);
    let places = column_indexes(checked, core, &none);
    let plan = plan_of(alloc, core_of(checked, core), places)?;
    grouped_picks(alloc, &plan, picks.items())
}
