//! Expressions with the places of their columns.

ghost use Rattle.std.specs.Prelude.{◌≡◌, ◌+◌, ◌++◌, ◌-◌, ◌≤◌, drop, is_none, length, nat_lt, take};
ghost use Rattle.std.specs.Prelude.{IfOk, IfSome, OnErr, OnOk};
ghost use Rattle.predicates.specs.Placing.{own_places, other_places, PlacesItems};

use ldv_value::{CopyItem, List, Places};
use sql_model::{Expr, Item};
use std::alloc::{AllocError, Global};
use std::mem;

/// An expression, and the place in the joined row of each column that it names, left to right.
#[derive(Drop)]
pub struct BoundExpr {
    pub expr: Expr,
    pub places: Places,
}

/// Appends to `own` the places of an expression's column names, which are the next in `places` from index
/// `at` on, and moves `at` behind them. On `AllocError` `own` and `at` are as they were.
pub fn take_places(
    expr: &Expr,
    places: &Places,
    at: &mut usize,
    own: &mut Places,
) -> Result<(), AllocError>
    ensures own { OnOk result (own.new ≡ own.old ++ own_places expr.now (drop at.old places.now)) }
    ensures others { OnOk result (drop at.new places.now ≡ other_places expr.now (drop at.old places.now)) }
    ensures err { OnErr result ((own.new ≡ own.old) × (at.new ≡ at.old)) }
{
    let end = skip_places(expr, places, *at);
    add_between(places, *at, end, own)?;
    *at = end;
    Ok(())
}

/// The index behind the places of an expression's column names, which are the next in `places` from index
/// `at` on.
#[tactic(auto, using(crate::proofs::Names::own_forms))]
pub fn skip_places(expr: &Expr, places: &Places, at: usize) -> usize
    ensures onward { at ≤ result }
    ensures within { at ≤ length places.now → result ≤ length places.now }
    ensures others { drop result places.now ≡ other_places expr.now (drop at places.now) }
{
    match expr {
        Expr::Constant(_) => at,
        Expr::Column(_) => next_after(places, at),
        Expr::Negate(inner) => skip_places(inner.get(), places, at),
        Expr::Not(inner) => skip_places(inner.get(), places, at),
        Expr::Both(_, left, right) => {
            let middle = skip_places(left.get(), places, at);
            skip_places(right.get(), places, middle)
        }
        Expr::IsNull(inner, _) => skip_places(inner.get(), places, at),
        Expr::Aggregate(_, None) => at,
        Expr::Aggregate(_, Some(inner)) => skip_places(inner.get(), places, at),
    }
}

// The next index, where there is a place at this one.
#[tactic(auto, using(crate::proofs::Names::next_forms))]
fn next_after(places: &Places, at: usize) -> usize
    ensures onward { at ≤ result }
    ensures within { at ≤ length places.now → result ≤ length places.now }
    ensures others { drop result places.now ≡ drop 1 (drop at places.now) }
{
    match places.get(at) {
        None => at,
        Some(_place) => at + 1,
    }
}

// Appends the places from one index to another. On `AllocError` the list is as it was.
#[tactic(auto, using(crate::proofs::Names::none_between))]
fn add_between(places: &Places, from: usize, to: usize, own: &mut Places) -> Result<(), AllocError>
    requires onward { from ≤ to }
    requires within { from ≤ length places.now → to ≤ length places.now }
    ensures ok { OnOk result (own.new ≡ own.old ++ take (to - from) (drop from places.now)) }
    ensures err { OnErr result (own.new ≡ own.old) }
{
    if from >= places.len() {
        return Ok(());
    }
    let alloc = own.allocator();
    let mut held = mem::replace(own, List::new(alloc)).into_vec();
    let added = held.extend_from_slice(&places.items()[from..to]);
    *own = List::of_vec(held);
    added
}

/// Appends to `own` the place at index `at`, if there is one, and moves `at` behind it. On `AllocError` `own`
/// and `at` are as they were.
#[tactic(auto, using(crate::proofs::Names::next_forms))]
pub fn take_place(places: &Places, at: &mut usize, own: &mut Places) -> Result<(), AllocError>
    ensures own { OnOk result (own.new ≡ own.old ++ take 1 (drop at.old places.now)) }
    ensures others { OnOk result (drop at.new places.now ≡ drop 1 (drop at.old places.now)) }
    ensures err { OnErr result ((own.new ≡ own.old) × (at.new ≡ at.old)) }
{
    match places.get(*at) {
        None => Ok(()),
        Some(place) => {
            own.push(*place)?;
            *at += 1;
            Ok(())
        }
    }
}

/// The column, from 0, at a place of the joined row, in the source whose columns come after `before` values.
/// `None` if the place is among these values.
pub fn column_of_source(before: u128, place: usize) -> Option<usize>
    ensures none { is_none result ≡ nat_lt place before }
    ensures at { IfSome result (λ column. before + column ≡ place) }
{
    let place = place as u128;
    if place < before {
        None
    } else {
        Some((place - before) as usize)
    }
}

/// An expression with the places of its column names, which are the next in `places` from index `at` on.
/// Moves `at` behind them. On `AllocError` `at` is as it was.
pub fn placed_at(
    alloc: Global,
    expr: &Expr,
    places: &Places,
    at: &mut usize,
) -> Result<BoundExpr, AllocError>
    ensures expr { IfOk result (λ placed. placed.expr ≡ expr.now) }
    ensures places { IfOk result (λ placed. placed.places ≡ own_places expr.now (drop at.old places.now)) }
    ensures others { OnOk result (drop at.new places.now ≡ other_places expr.now (drop at.old places.now)) }
    ensures err { OnErr result (at.new ≡ at.old) }
{
    let copy = expr.copy_item(alloc)?;
    let mut own = List::new(alloc);
    take_places(expr, places, at, &mut own)?;
    Ok(BoundExpr {
        expr: copy,
        places: own,
    })
}

/// Items with the places of their column names, which are the next in `places` from index `at` on. Moves `at`
/// behind them. On `AllocError` `at` is as it was.
pub fn placed_items(
    alloc: Global,
    items: &[Item],
    places: &Places,
    at: &mut usize,
) -> Result<List<BoundExpr>, AllocError>
    ensures ok { IfOk result (λ placed.
        PlacesItems items.now placed (drop at.old places.now) (drop at.new places.now)) }
    ensures err { OnErr result (at.new ≡ at.old) }
{
    let mut end = *at;
    let mut made = List::new(alloc);
    for item in items {
        made.push(placed_at(alloc, &item.expr, places, &mut end)?)?;
    }
    *at = end;
    Ok(made)
}
