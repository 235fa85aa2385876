//! The values of an INSERT and their columns.

ghost use Rattle.std.specs.Prelude.{◌≡◌, ◌++◌, IfOk, OnOk, find, option_to_list, zip};
ghost use Rattle.std.specs.List.{list_all};
ghost use Rattle.sql_model.specs.Refusals.{takes_value, row_fits, columns_named, target_columns};
ghost use Rattle.sql_model.specs.Refusals.{insert_clashes};
ghost use Rattle.sql_model.specs.Scope.{is_column};

use crate::clash::takes;
use crate::core_names::names_of;
use crate::duplicate::has_duplicate;
use crate::kinds::row_kind;
use crate::scope::column_at;
use ldv_value::{Names, Utf8};
use sql_model::{Column, Expr, Exprs, Insert};
use std::alloc::{AllocError, Global};
use std::marker::Model;

/// A column that takes a value.
#[derive(Drop)]
pub(crate) struct Target<'a> {
    column: &'a Column,
}

impl<'a> Model for Target<'a> {
    ghost use Rattle.sql_model.specs.declared.table.Column.{Column};

    ghost Value = { Column };

    ghost view = { λ t. t.column.now };
}

impl<'a> Target<'a> {
    // The column itself.
    fn column(&self) -> &'a Column
        ensures { result.now ≡ self.now }
    {
        self.column
    }
}

/// Whether an INSERT names a column twice, has a row with more or fewer values than columns, or has a value
/// of another kind than its column.
#[tactic(auto, using(crate::proofs::Mapped::own_names))]
pub(crate) fn insert_clashes(
    alloc: Global,
    insert: &Insert,
    columns: &[Column],
) -> Result<bool, AllocError>
    ensures { IfOk result (λ clash. clash ≡ insert_clashes insert.now columns.now) }
{
    if has_duplicate(alloc, names_of(&insert.columns))? {
        return Ok(true);
    }
    let targets = target_columns(alloc, &insert.columns, columns)?;
    Ok(!rows_fit(&targets, insert.rows.items()))
}

fn target_columns<'a>(
    alloc: Global,
    names: &Option<Names>,
    columns: &'a [Column],
) -> Result<Vec<Target<'a>>, AllocError>
    ensures { IfOk result (λ targets. targets.items ≡ target_columns names.now columns.now) }
{
    match names {
        None => all_columns(alloc, columns),
        Some(names) => columns_named(alloc, columns, names.items()),
    }
}

fn all_columns<'a>(alloc: Global, columns: &'a [Column]) -> Result<Vec<Target<'a>>, AllocError>
    ensures { IfOk result (λ targets. targets.items ≡ columns.now) }
{
    let mut targets = Vec::with_capacity(alloc, columns.len())?;
    for column in columns {
        targets.push(Target { column })?;
    }
    Ok(targets)
}

fn columns_named<'a>(
    alloc: Global,
    columns: &'a [Column],
    names: &[Utf8],
) -> Result<Vec<Target<'a>>, AllocError>
    ensures { IfOk result (λ targets. targets.items ≡ columns_named columns.now names.now) }
{
    let mut targets = Vec::new(alloc);
    for name in names {
        push_named(&mut targets, columns, name)?;
    }
    Ok(targets)
}

// Appends the column of a name, where there is one.
fn push_named<'a>(
    targets: &mut Vec<Target<'a>>,
    columns: &'a [Column],
    name: &Utf8,
) -> Result<(), AllocError>
    ensures { OnOk result (targets.new.items ≡ targets.old.items
        ++ option_to_list (find (is_column name.now) columns.now)) }
{
    match column_at(columns, name) {
        None => Ok(()),
        Some(column) => {
            targets.push(Target { column })?;
            Ok(())
        }
    }
}

fn rows_fit(targets: &[Target], rows: &[Exprs]) -> bool
    ensures { result ≡ list_all (row_fits targets.now) rows.now }
{
    rows.iter().all(|row| row_fits(targets, row.items()))
}

// Whether there is one value for each column, of the column's kind.
fn row_fits(targets: &[Target], exprs: &[Expr]) -> bool
    ensures { result ≡ row_fits targets.now exprs.now }
{
    exprs.len() == targets.len() && values_fit(targets, exprs)
}

fn values_fit(targets: &[Target], exprs: &[Expr]) -> bool
    ensures { result ≡ list_all takes_value (zip targets.now exprs.now) }
{
    targets
        .iter()
        .zip(exprs)
        .all(|(target, expr)| takes_value(target, expr))
}

fn takes_value(target: &Target, expr: &Expr) -> bool
    ensures { result ≡ takes_value (target.now, expr.now) }
{
    takes(target.column(), row_kind(&[], expr))
}
