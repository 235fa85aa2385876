//! The places of a statement's columns, from 0.

ghost use Rattle.std.specs.Prelude.{◌≡◌, ◌++◌, [], ◌∷◌, IfOk, OnOk, map, option_to_list};
ghost use Rattle.std.specs.List.{flat_map};
ghost use Rattle.sql_model.specs.Kinds.{names_in};
ghost use Rattle.sql_model.specs.Places.{core_places, order_places, query_places, places_of};
ghost use Rattle.sql_model.specs.Refusals.{answer_columns, update_names, delete_names, names_of_items};
ghost use Rattle.sql_model.specs.Scope.{places_in};

use crate::answer_column::{AnswerColumn, answer_columns, key_place};
use crate::scope::{Entry, own_scope, place_of, scope_of};
use crate::walk::push_places;
use ldv_value::{List, PlaceLists, Places};
use sql_model::{
    Catalog, ColumnName, Core, Delete, Expr, Item, Order, Query, Set, Statement, Update, items_of,
};
use std::alloc::{AllocError, Global};

/// The lists of places that a checked statement has.
pub(crate) fn places_of(
    alloc: Global,
    statement: &Statement,
    catalog: &Catalog,
) -> Result<PlaceLists, AllocError>
    ensures { IfOk result (λ places. places ≡ places_of statement.now catalog.now) }
{
    match statement {
        Statement::Query(query) => query_places(alloc, query, catalog),
        Statement::Insert(_) => one_list(alloc, List::new(alloc)),
        Statement::Update(update) => {
            let scope = own_scope(alloc, &update.table, catalog)?;
            one_list(alloc, update_places(alloc, &scope, update)?)
        }
        Statement::Delete(delete) => {
            let scope = own_scope(alloc, &delete.table, catalog)?;
            one_list(alloc, delete_places(alloc, &scope, delete)?)
        }
    }
}

fn one_list(alloc: Global, places: Places) -> Result<PlaceLists, AllocError>
    ensures { IfOk result (λ lists. lists ≡ places ∷ []) }
{
    let mut lists = List::new(alloc);
    lists.push(places)?;
    Ok(lists)
}

fn query_places(alloc: Global, query: &Query, catalog: &Catalog) -> Result<PlaceLists, AllocError>
    ensures { IfOk result (λ lists. lists ≡ query_places query.now catalog.now) }
{
    let mut lists = all_core_places(alloc, query.cores.items(), catalog)?;
    let keys = key_places(alloc, query.cores.items(), catalog, query.order.items())?;
    lists.push(keys)?;
    Ok(lists)
}

// The places of the keys of ORDER BY.
fn key_places(
    alloc: Global,
    cores: &[Core],
    catalog: &Catalog,
    order: &[Order],
) -> Result<Places, AllocError>
    ensures { IfOk result (λ places. places
        ≡ order_places (answer_columns catalog.now cores.now) order.now) }
{
    match order {
        [] => Ok(List::new(alloc)),
        _ => {
            let titles = answer_columns(alloc, catalog, cores)?;
            order_places(alloc, &titles, order)
        }
    }
}

fn all_core_places(
    alloc: Global,
    cores: &[Core],
    catalog: &Catalog,
) -> Result<PlaceLists, AllocError>
    ensures { IfOk result (λ lists. lists ≡ map (core_places catalog.now) cores.now) }
{
    let mut lists = Vec::with_capacity(alloc, cores.len())?;
    for core in cores {
        lists.push(core_places(alloc, core, catalog)?)?;
    }
    Ok(List::of_vec(lists))
}

#[tactic(auto, using(crate::proofs::Placed::core_parts))]
fn core_places(alloc: Global, core: &Core, catalog: &Catalog) -> Result<Places, AllocError>
    ensures { IfOk result (λ places. places ≡ core_places catalog.now core.now) }
{
    let scope = scope_of(alloc, core.from.items(), catalog)?;
    let mut places = Vec::new(alloc);
    push_item_places(&mut places, &scope, items_of(core))?;
    push_expr_places(&mut places, &scope, core.picks.items())?;
    push_name_places(&mut places, &scope, core.group.items())?;
    push_optional_places(&mut places, &scope, &core.having)?;
    Ok(List::of_vec(places))
}

#[tactic(auto, using(crate::proofs::Placed::update_parts))]
fn update_places(alloc: Global, scope: &[Entry], update: &Update) -> Result<Places, AllocError>
    ensures { IfOk result (λ places. places ≡ places_in scope.now (update_names update.now)) }
{
    let mut places = Vec::new(alloc);
    push_set_places(&mut places, scope, update.sets.items())?;
    push_optional_places(&mut places, scope, &update.pick)?;
    Ok(List::of_vec(places))
}

fn delete_places(alloc: Global, scope: &[Entry], delete: &Delete) -> Result<Places, AllocError>
    ensures { IfOk result (λ places. places ≡ places_in scope.now (delete_names delete.now)) }
{
    let mut places = Vec::new(alloc);
    push_optional_places(&mut places, scope, &delete.pick)?;
    Ok(List::of_vec(places))
}

fn push_item_places(
    places: &mut Vec<usize>,
    scope: &[Entry],
    items: &[Item],
) -> Result<(), AllocError>
    ensures { OnOk result (places.new.items ≡ places.old.items
        ++ places_in scope.now (names_of_items items.now)) }
{
    for item in items {
        push_places(places, scope, &item.expr)?;
    }
    Ok(())
}

fn push_set_places(places: &mut Vec<usize>, scope: &[Entry], sets: &[Set]) -> Result<(), AllocError>
    ensures { OnOk result (places.new.items ≡ places.old.items
        ++ places_in scope.now (flat_map (λ set. names_in set.expr) sets.now)) }
{
    for set in sets {
        push_places(places, scope, &set.expr)?;
    }
    Ok(())
}

fn push_expr_places(
    places: &mut Vec<usize>,
    scope: &[Entry],
    exprs: &[Expr],
) -> Result<(), AllocError>
    ensures { OnOk result (places.new.items ≡ places.old.items
        ++ places_in scope.now (flat_map names_in exprs.now)) }
{
    for expr in exprs {
        push_places(places, scope, expr)?;
    }
    Ok(())
}

fn push_name_places(
    places: &mut Vec<usize>,
    scope: &[Entry],
    names: &[ColumnName],
) -> Result<(), AllocError>
    ensures { OnOk result (places.new.items ≡ places.old.items ++ places_in scope.now names.now) }
{
    for name in names {
        places.push(place_of(scope, name))?;
    }
    Ok(())
}

#[tactic(auto, using(crate::proofs::Placed::optional_places))]
fn push_optional_places(
    places: &mut Vec<usize>,
    scope: &[Entry],
    expr: &Option<Expr>,
) -> Result<(), AllocError>
    ensures { OnOk result (places.new.items ≡ places.old.items
        ++ places_in scope.now (flat_map names_in (option_to_list expr.now))) }
{
    match expr {
        None => Ok(()),
        Some(expr) => push_places(places, scope, expr),
    }
}

fn order_places(
    alloc: Global,
    titles: &[AnswerColumn],
    order: &[Order],
) -> Result<Places, AllocError>
    ensures { IfOk result (λ places. places ≡ order_places titles.now order.now) }
{
    let mut places = Vec::with_capacity(alloc, order.len())?;
    for part in order {
        places.push(key_place(titles, &part.key))?;
    }
    Ok(List::of_vec(places))
}
