//! The kinds of the columns of cores and of their UNION.

ghost use Rattle.std.specs.Prelude.{◌≡◌, IfOk, option_and_then, map};
ghost use Rattle.sql_model.specs.declared.kind.Kind.TheVariants.{Int, Text};
ghost use Rattle.sql_model.specs.Kinds.{kind_of_column};
ghost use Rattle.sql_model.specs.Refusals.{kind_of_item, kinds_of_items, item_kinds, kinds_in_scope};
ghost use Rattle.sql_model.specs.Refusals.{core_kinds, union_kind, union_kinds, kinds_after, query_kinds};

use crate::clash::conditions_fit;
use crate::kinds::{group_kind, is_logical, kind_of_column};
use crate::scope::{Entry, scope_of};
use ldv_value::List;
use sql_model::{Catalog, Core, Item, Items, Kind};
use std::alloc::{AllocError, Global};

/// Kinds of answer columns.
pub(crate) type Kinds = List<Kind>;

/// The kinds of a query's answer columns, with its cores combined from the left; `None` if kinds or counts
/// clash.
pub(crate) fn query_kinds(
    alloc: Global,
    catalog: &Catalog,
    cores: &[Core],
) -> Result<Option<Kinds>, AllocError>
    ensures { IfOk result (λ kinds. kinds ≡ query_kinds catalog.now cores.now) }
{
    match cores {
        [] => Ok(Some(List::new(alloc))),
        [core, rest @ ..] => {
            let kinds = core_kinds(alloc, catalog, core)?;
            kinds_after(alloc, catalog, kinds, rest)
        }
    }
}

fn kinds_after(
    alloc: Global,
    catalog: &Catalog,
    kinds: Option<Kinds>,
    cores: &[Core],
) -> Result<Option<Kinds>, AllocError>
    ensures { IfOk result (λ after. after ≡ kinds_after catalog.now kinds cores.now) }
{
    let mut united = kinds;
    for core in cores {
        united = with_core(alloc, catalog, united, core)?;
    }
    Ok(united)
}

// The kinds of earlier cores united with those of the next.
fn with_core(
    alloc: Global,
    catalog: &Catalog,
    kinds: Option<Kinds>,
    core: &Core,
) -> Result<Option<Kinds>, AllocError>
    ensures { IfOk result (λ united. united
        ≡ option_and_then (λ ks. option_and_then (union_kinds ks) (core_kinds catalog.now core.now)) kinds) }
{
    let Some(kinds) = kinds else {
        return Ok(None);
    };
    let Some(more) = core_kinds(alloc, catalog, core)? else {
        return Ok(None);
    };
    union_kinds(alloc, &kinds, &more)
}

fn core_kinds(alloc: Global, catalog: &Catalog, core: &Core) -> Result<Option<Kinds>, AllocError>
    ensures { IfOk result (λ kinds. kinds ≡ core_kinds catalog.now core.now) }
{
    let scope = scope_of(alloc, core.from.items(), catalog)?;
    kinds_in_scope(alloc, &scope, core)
}

fn kinds_in_scope(alloc: Global, scope: &[Entry], core: &Core) -> Result<Option<Kinds>, AllocError>
    ensures { IfOk result (λ kinds. kinds ≡ kinds_in_scope scope.now core.now) }
{
    if conditions_fit(scope, core) {
        item_kinds(alloc, scope, &core.items)
    } else {
        Ok(None)
    }
}

fn item_kinds(
    alloc: Global,
    scope: &[Entry],
    items: &Option<Items>,
) -> Result<Option<Kinds>, AllocError>
    ensures { IfOk result (λ kinds. kinds ≡ item_kinds scope.now items.now) }
{
    match items {
        None => Ok(Some(scope_kinds(alloc, scope)?)),
        Some(items) => kinds_of_items(alloc, scope, items.items()),
    }
}

fn scope_kinds(alloc: Global, scope: &[Entry]) -> Result<Kinds, AllocError>
    ensures { IfOk result (λ kinds. kinds ≡ map (λ entry. kind_of_column entry.column) scope.now) }
{
    let mut kinds = Vec::with_capacity(alloc, scope.len())?;
    for entry in scope {
        kinds.push(kind_of_column(entry.column()))?;
    }
    Ok(List::of_vec(kinds))
}

#[tactic(auto, using(crate::proofs::Unions::kinds_onto_empty))]
fn kinds_of_items(
    alloc: Global,
    scope: &[Entry],
    items: &[Item],
) -> Result<Option<Kinds>, AllocError>
    ensures { IfOk result (λ kinds. kinds ≡ kinds_of_items scope.now items.now) }
{
    let mut kinds = Vec::with_capacity(alloc, items.len())?;
    for item in items {
        match kind_of_item(group_kind(scope, &item.expr)) {
            None => return Ok(None),
            Some(kind) => kinds.push(kind)?,
        }
    }
    Ok(Some(List::of_vec(kinds)))
}

// The kind of an answer column, which is no truth.
fn kind_of_item(kind: Option<Kind>) -> Option<Kind>
    ensures { result ≡ kind_of_item kind }
{
    match kind {
        None => None,
        Some(kind) => { if is_logical(kind) { None } else { Some(kind) } }
    }
}

// Kinds combined column by column; `None` where the counts differ.
#[tactic(auto, using(crate::proofs::Unions::union_rules))]
fn union_kinds(alloc: Global, left: &Kinds, right: &Kinds) -> Result<Option<Kinds>, AllocError>
    ensures { IfOk result (λ kinds. kinds ≡ union_kinds left.now right.now) }
{
    if left.len() != right.len() {
        return Ok(None);
    }
    let mut kinds = Vec::with_capacity(alloc, left.len())?;
    for (place, kind) in left.items().iter().enumerate() {
        let Some(other) = right.get(place) else {
            return Ok(None);
        };
        match union_kind(*kind, *other) {
            None => return Ok(None),
            Some(kind) => kinds.push(kind)?,
        }
    }
    Ok(Some(List::of_vec(kinds)))
}

// ANY beside another kind gives the other.
fn union_kind(left: Kind, right: Kind) -> Option<Kind>
    ensures { result ≡ union_kind left right }
{
    match left {
        Kind::Any => Some(right),
        Kind::Int => number_beside(right),
        Kind::Text => text_beside(right),
        Kind::Truth => None,
    }
}

fn number_beside(right: Kind) -> Option<Kind>
    ensures { result ≡ union_kind Int right }
{
    match right {
        Kind::Any => Some(Kind::Int),
        Kind::Int => Some(Kind::Int),
        Kind::Text => None,
        Kind::Truth => None,
    }
}

fn text_beside(right: Kind) -> Option<Kind>
    ensures { result ≡ union_kind Text right }
{
    match right {
        Kind::Any => Some(Kind::Text),
        Kind::Int => None,
        Kind::Text => Some(Kind::Text),
        Kind::Truth => None,
    }
}
