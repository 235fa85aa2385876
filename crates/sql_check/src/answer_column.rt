//! The names of answer columns.

ghost use Rattle.std.specs.Prelude.{◌≡◌, IfOk, Some, map, filter, length, position};
ghost use Rattle.std.specs.List.{position_or_len};
ghost use Rattle.std.specs.Option.{option_copied};
ghost use Rattle.sql_model.specs.Kinds.{own_name};
ghost use Rattle.sql_model.specs.Places.{key_place};
ghost use Rattle.sql_model.specs.Refusals.{item_name, item_columns, answer_columns, has_name, is_order_key};

use crate::scope::{Entry, scope_of};
use ldv_value::Utf8;
use sql_model::{Catalog, Core, Expr, Item, Items, OrderKey};
use std::alloc::{AllocError, Global};
use std::marker::Model;

/// An answer column: its name, if it has one.
#[derive(Drop)]
pub(crate) struct AnswerColumn<'a> {
    text: Option<&'a Utf8>,
}

impl<'a> Model for AnswerColumn<'a> {
    ghost use Rattle.std.specs.Prelude.{List, ℕ, Option};
    ghost use Rattle.std.specs.Option.{option_copied};

    ghost Value = { Option (List ℕ) };

    ghost view = { λ t. option_copied t.text };
}

impl<'a> AnswerColumn<'a> {
    // Whether this is its name.
    fn has_name(&self, name: &Utf8) -> bool
        ensures { result ≡ has_name name.now self.now }
    {
        match self.text {
            None => false,
            Some(text) => *text == *name,
        }
    }
}

// The name of an item that is a column.
#[tactic(auto, using(crate::proofs::Walks::own_forms))]
fn own_name(expr: &Expr) -> Option<&Utf8>
    ensures { option_copied result ≡ own_name expr.now }
{
    match expr {
        Expr::Constant(_) => None,
        Expr::Column(name) => Some(&name.name),
        Expr::Negate(_) => None,
        Expr::Not(_) => None,
        Expr::Both(_, _, _) => None,
        Expr::IsNull(_, _) => None,
        Expr::Aggregate(_, None) => None,
        Expr::Aggregate(_, Some(_)) => None,
    }
}

fn column_of<'a>(item: &'a Item) -> AnswerColumn<'a>
    ensures { result ≡ item_name item.now.name item.now.expr }
{
    match &item.name {
        None => AnswerColumn {
            text: own_name(&item.expr),
        },
        Some(name) => AnswerColumn { text: Some(name) },
    }
}

/// The names of the answer columns, which are those of the first core.
pub(crate) fn answer_columns<'a>(
    alloc: Global,
    catalog: &'a Catalog,
    cores: &'a [Core],
) -> Result<Vec<AnswerColumn<'a>>, AllocError>
    ensures { IfOk result (λ titles. titles.items ≡ answer_columns catalog.now cores.now) }
{
    match cores {
        [] => Ok(Vec::new(alloc)),
        [core, ..] => {
            let scope = scope_of(alloc, core.from.items(), catalog)?;
            item_columns(alloc, &scope, &core.items)
        }
    }
}

fn item_columns<'a>(
    alloc: Global,
    scope: &[Entry<'a>],
    items: &'a Option<Items>,
) -> Result<Vec<AnswerColumn<'a>>, AllocError>
    ensures { IfOk result (λ titles. titles.items ≡ item_columns scope.now items.now) }
{
    match items {
        None => scope_columns(alloc, scope),
        Some(items) => columns_of_items(alloc, items.items()),
    }
}

fn scope_columns<'a>(
    alloc: Global,
    scope: &[Entry<'a>],
) -> Result<Vec<AnswerColumn<'a>>, AllocError>
    ensures { IfOk result (λ titles. titles.items ≡ map (λ entry. Some entry.column.name) scope.now) }
{
    let mut titles = Vec::with_capacity(alloc, scope.len())?;
    for entry in scope {
        titles.push(AnswerColumn {
            text: Some(&entry.column().name),
        })?;
    }
    Ok(titles)
}

fn columns_of_items<'a>(
    alloc: Global,
    items: &'a [Item],
) -> Result<Vec<AnswerColumn<'a>>, AllocError>
    ensures { IfOk result (λ titles. titles.items ≡ map (λ item. item_name item.name item.expr) items.now) }
{
    let mut titles = Vec::with_capacity(alloc, items.len())?;
    for item in items {
        titles.push(column_of(item))?;
    }
    Ok(titles)
}

/// Whether a key is the name of exactly one answer column, or the number of one.
pub(crate) fn is_order_key(titles: &[AnswerColumn], key: &OrderKey) -> bool
    ensures { result ≡ is_order_key titles.now key.now }
{
    match key {
        OrderKey::Name(name) => count_named(titles, name) == 1,
        OrderKey::Place(place) => 1 <= *place && *place <= titles.len() as u64,
    }
}

/// The place of the answer column that a key means, from 0. It is the number of answer columns if no column
/// has the key's name.
pub(crate) fn key_place(titles: &[AnswerColumn], key: &OrderKey) -> usize
    ensures { result ≡ key_place titles.now key.now }
{
    match key {
        OrderKey::Name(name) => place_or_len(titles, name),
        OrderKey::Place(place) => place.saturating_sub(1) as usize,
    }
}

fn count_named(titles: &[AnswerColumn], name: &Utf8) -> usize
    ensures { result ≡ length (filter (has_name name.now) titles.now) }
{
    titles.iter().filter(|title| title.has_name(name)).count()
}

#[tactic(auto, using(ldv_value::proofs::Places::place_or_len))]
fn place_or_len(titles: &[AnswerColumn], name: &Utf8) -> usize
    ensures { result ≡ position_or_len (has_name name.now) titles.now }
{
    named_place(titles, name).unwrap_or(titles.len())
}

fn named_place(titles: &[AnswerColumn], name: &Utf8) -> Option<usize>
    ensures { result ≡ position (has_name name.now) titles.now }
{
    titles.iter().position(|title| title.has_name(name))
}
