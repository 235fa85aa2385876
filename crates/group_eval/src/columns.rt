//! The values that one column has over a group.

ghost use Rattle.std.specs.Prelude.{◌≡◌, ◌++◌, ◌∷◌, [], List as Items, map, IfOk, IfSome, OnOk, Some, true};
ghost use Rattle.group_eval.specs.inner.Columns.{known_column, IsKnown, IsValueAt};
ghost use Rattle.lineage.specs.declared.answer.Pick.{Pick as Given};
ghost use Rattle.sql_model.specs.Meaning.{known_values};
ghost use Rattle.ldv_value.specs.Cells.{value_at};

use ldv_value::{List, Places, Value, Values};
use lineage::Pick;
use predicates::is_column;
use sql_model::{Expr, value_or};
use std::alloc::{AllocError, Global};

/// The values of one column, by its place, over a group, without NULLs, from the last call of `gather`. So
/// several aggregates of one column take one walk over the group.
#[derive(Drop)]
pub(crate) struct KnownColumn {
    place: Option<usize>,
    values: Values,
}

impl KnownColumn {
    /// No column yet. It takes no memory.
    pub(crate) fn none(alloc: Global) -> KnownColumn
        ensures { (picks : Items Given) → IsKnown picks result }
    {
        KnownColumn {
            place: None,
            values: List::new(alloc),
        }
    }

    /// Gathers the values of a column over a group, unless the last call did. The group is the same at each
    /// call. On `AllocError` the gathered values are as they were.
    pub(crate) fn gather(
        &mut self,
        alloc: Global,
        place: usize,
        group: &[&Pick],
    ) -> Result<(), AllocError>
        requires { IsKnown (map (λ r. r.now) group.now) self.old }
        ensures values { OnOk result (self.new.values ≡ known_column place (map (λ r. r.now) group.now)) }
        ensures known { OnOk result (IsKnown (map (λ r. r.now) group.now) self.new) }
    {
        if is_at(self.place, place) {
            return Ok(());
        }
        let values = column_values(alloc, place, group)?;
        self.values = values;
        self.place = Some(place);
        Ok(())
    }

    /// The values that were gathered last.
    pub(crate) fn values(&self) -> &[Value]
        ensures { result.now ≡ self.now.values }
    {
        self.values.items()
    }
}

fn is_at(own: Option<usize>, place: usize) -> bool
    ensures { result ≡ true → own ≡ Some place }
{
    match own {
        None => false,
        Some(own) => own == place,
    }
}

// Appends a copy of a value that isn't NULL.
fn push_known(values: &mut Values, value: &Value) -> Result<(), AllocError>
    ensures { OnOk result (values.new ≡ values.old ++ known_values (value.now ∷ [])) }
{
    match value {
        Value::Null => Ok(()),
        Value::Int(number) => values.push(Value::Int(*number)),
        Value::Text(text) => values.push(Value::Text(text.copy()?)),
    }
}

// Appends a copy of the value at a place of a row, where it isn't NULL.
fn push_at(values: &mut Values, row: &Values, place: usize) -> Result<(), AllocError>
    ensures { OnOk result (values.new ≡ values.old ++ known_values (value_at row.now place ∷ [])) }
{
    let null = Value::Null;
    push_known(values, value_or(row, place, &null))
}

// The values of a column over a group, without NULL.
fn column_values(alloc: Global, place: usize, group: &[&Pick]) -> Result<Values, AllocError>
    ensures { IfOk result (λ values. values ≡ known_column place (map (λ r. r.now) group.now)) }
{
    let mut values = List::with_capacity(alloc, group.len())?;
    for pick in group {
        push_at(&mut values, &pick.values, place)?;
    }
    Ok(values)
}

/// The place of the column if an expression is a column, and otherwise `None`. `places` has the places of the
/// expression's column names.
pub(crate) fn column_place(expr: &Expr, places: &Places) -> Option<usize>
    ensures { IfSome result (IsValueAt expr.now places.now) }
{
    if !is_column(expr) {
        return None;
    }
    match places.get(0) {
        None => None,
        Some(place) => Some(*place),
    }
}
