//! Values that are lent.

ghost use Rattle.std.specs.Prelude.{◌≡◌};
ghost use Rattle.lent_cells.specs.Lending.{cell_value};
ghost use Rattle.ldv_value.specs.Cells.{int_value};
ghost use Rattle.ldv_value.specs.Order.{order, meets, test_of};
ghost use Rattle.sql_model.specs.Meaning.{null_test};

use ldv_value::{Cmp, Truth, Value};
use std::cmp::Ordering;

/// A value that is lent.
#[derive(Clone, Copy)]
pub enum Cell<'a> {
    Null,
    Int(i64),
    Text(&'a str),
}

impl<'a> Cell<'a> {
    /// A value, lent.
    pub fn of(value: &'a Value) -> Cell<'a>
        ensures { cell_value result ≡ value.now }
    {
        match value {
            Value::Null => Cell::Null,
            Value::Int(number) => Cell::Int(*number),
            Value::Text(text) => Cell::Text(text.as_str()),
        }
    }

    /// A number, or NULL where there is none.
    pub fn of_number(number: Option<i64>) -> Cell<'a>
        ensures { cell_value result ≡ int_value number }
    {
        match number {
            None => Cell::Null,
            Some(number) => Cell::Int(number),
        }
    }
}

/// How two cells compare, in the total order.
pub(crate) fn compare(left: Cell, right: Cell) -> Ordering
    ensures { result ≡ order (cell_value left.entry) (cell_value right.entry) }
{
    match left {
        Cell::Null => match right {
            Cell::Null => Ordering::Equal,
            Cell::Int(_) => Ordering::Less,
            Cell::Text(_) => Ordering::Less,
        },
        Cell::Int(m) => match right {
            Cell::Null => Ordering::Greater,
            Cell::Int(n) => m.cmp(&n),
            Cell::Text(_) => Ordering::Less,
        },
        Cell::Text(s) => match right {
            Cell::Null => Ordering::Greater,
            Cell::Int(_) => Ordering::Greater,
            Cell::Text(t) => s.cmp(t),
        },
    }
}

fn holds(test: Cmp, between: Ordering) -> bool
    ensures { result ≡ meets test between }
{
    match test {
        Cmp::Eq => between.is_eq(),
        Cmp::Ne => !between.is_eq(),
        Cmp::Lt => between.is_lt(),
        Cmp::Le => !between.is_gt(),
        Cmp::Gt => between.is_gt(),
        Cmp::Ge => !between.is_lt(),
    }
}

/// The truth of a comparison: Unknown where a side is NULL.
pub(crate) fn comparison_truth(test: Cmp, left: Cell, right: Cell) -> Truth
    ensures { result ≡ test_of test (cell_value left.entry) (cell_value right.entry) }
{
    match left {
        Cell::Null => Truth::Unknown,
        Cell::Int(_) => match right {
            Cell::Null => Truth::Unknown,
            Cell::Int(_) => Truth::of_bool(holds(test, compare(left, right))),
            Cell::Text(_) => Truth::of_bool(holds(test, compare(left, right))),
        },
        Cell::Text(_) => match right {
            Cell::Null => Truth::Unknown,
            Cell::Int(_) => Truth::of_bool(holds(test, compare(left, right))),
            Cell::Text(_) => Truth::of_bool(holds(test, compare(left, right))),
        },
    }
}

/// The truth of IS NULL, or of IS NOT NULL where the flag is set.
pub(crate) fn null_truth(negative: bool, cell: Cell) -> Truth
    ensures { result ≡ null_test negative (cell_value cell.entry) }
{
    match cell {
        Cell::Null => Truth::of_bool(!negative),
        Cell::Int(_) => Truth::of_bool(negative),
        Cell::Text(_) => Truth::of_bool(negative),
    }
}
