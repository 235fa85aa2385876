//! The values of new rows.

ghost use Rattle.std.specs.Prelude.{◌≡◌, [], map, IfOk};
ghost use Rattle.std.specs.List.{AllByRecursion};
ghost use Rattle.dml_versions.specs.inner.Making.{place_given, places_given, IsPlain, ArePlain, value_from};
ghost use Rattle.dml_versions.specs.inner.Making.{values_from};
ghost use Rattle.sql_model.specs.Changes.{plain_value};

use ldv_value::{List, Names, RowList, Utf8, Value, Values};
use predicates::constant_value;
use sql_model::{Column, Expr, ExprRows, Exprs};
use std::alloc::{AllocError, Global};

/// The values of the new rows of an INSERT.
pub(crate) fn new_rows(
    alloc: Global,
    names: &Option<Names>,
    columns: &[Column],
    rows: &ExprRows,
) -> Result<RowList, AllocError>
    requires { AllByRecursion ArePlain rows.now }
    ensures { IfOk result (λ made. made ≡ map (values_from (places_given names.now columns.now)) rows.now) }
{
    match names {
        None => plain_rows(alloc, rows.items()),
        Some(names) => {
            let sources = sources_given(alloc, names.items(), columns)?;
            given_rows(alloc, sources.as_slice(), rows.items())
        }
    }
}

// The rows of an INSERT that names no columns: the values are those of all columns, in order.
fn plain_rows(alloc: Global, rows: &[Exprs]) -> Result<RowList, AllocError>
    requires { AllByRecursion ArePlain rows.now }
    ensures { IfOk result (λ made. made ≡ map (map plain_value) rows.now) }
{
    let mut made = List::with_capacity(alloc, rows.len())?;
    let mut left = rows;
    loop {
        match left {
            [] => return Ok(made),
            [exprs, rest @ ..] => {
                made.push(plain_values(alloc, exprs.items())?)?;
                left = rest;
            }
        }
    }
}

fn plain_values(alloc: Global, exprs: &[Expr]) -> Result<Values, AllocError>
    requires { ArePlain exprs.now }
    ensures { IfOk result (λ values. values ≡ map plain_value exprs.now) }
{
    let mut values = List::with_capacity(alloc, exprs.len())?;
    let mut left = exprs;
    loop {
        match left {
            [] => return Ok(values),
            [expr, rest @ ..] => {
                values.push(plain_value(alloc, expr)?)?;
                left = rest;
            }
        }
    }
}

// The rows of an INSERT that names columns: each column takes the value at its source, or NULL.
fn given_rows(
    alloc: Global,
    sources: &[Option<usize>],
    rows: &[Exprs],
) -> Result<RowList, AllocError>
    requires { AllByRecursion ArePlain rows.now }
    ensures { IfOk result (λ made. made ≡ map (λ exprs. map (value_from exprs) sources.now) rows.now) }
{
    let mut made = List::with_capacity(alloc, rows.len())?;
    let mut left = rows;
    loop {
        match left {
            [] => return Ok(made),
            [exprs, rest @ ..] => {
                made.push(given_values(alloc, sources, exprs)?)?;
                left = rest;
            }
        }
    }
}

fn given_values(
    alloc: Global,
    sources: &[Option<usize>],
    exprs: &Exprs,
) -> Result<Values, AllocError>
    requires { ArePlain exprs.now }
    ensures { IfOk result (λ values. values ≡ map (value_from exprs.now) sources.now) }
{
    let mut values = List::with_capacity(alloc, sources.len())?;
    for source in sources {
        values.push(value_from(alloc, *source, exprs)?)?;
    }
    Ok(values)
}

// The value at a place; NULL where there is none.
#[tactic(auto, using(crate::proofs::MadeLaws::plain_of))]
fn value_from(alloc: Global, source: Option<usize>, exprs: &Exprs) -> Result<Value, AllocError>
    requires { ArePlain exprs.now }
    ensures { IfOk result (λ value. value ≡ value_from exprs.now source) }
{
    match source {
        None => Ok(Value::Null),
        Some(place) => match exprs.get(place) {
            None => Ok(Value::Null),
            Some(expr) => plain_value(alloc, expr),
        },
    }
}

// The value of an expression that names no column.
fn plain_value(alloc: Global, expr: &Expr) -> Result<Value, AllocError>
    requires { IsPlain expr.now }
    ensures { IfOk result (λ value. value ≡ plain_value expr.now) }
{
    let value = constant_value(alloc, expr)?;
    Ok(value)
}

// For each column, the place of its name among those that an INSERT names; none where it isn't there.
fn sources_given(
    alloc: Global,
    names: &[Utf8],
    columns: &[Column],
) -> Result<Vec<Option<usize>>, AllocError>
    ensures { IfOk result (λ sources. sources.items ≡ map (place_given names.now) columns.now) }
{
    let mut sources = Vec::with_capacity(alloc, columns.len())?;
    for column in columns {
        sources.push(place_given(names, column))?;
    }
    Ok(sources)
}

fn place_given(names: &[Utf8], column: &Column) -> Option<usize>
    ensures { result ≡ place_given names.now column.now }
{
    names
        .iter()
        .position(|name| name.as_str() == column.name.as_str())
}
