//! Arithmetic on cells: NULL where a side isn't a number, or the result is outside 64 bits.

ghost use Rattle.std.specs.Prelude.{◌≡◌, ◌∷◌, [], ◌+ℤ◌, ◌-ℤ◌, ◌*ℤ◌};
ghost use Rattle.lent_cells.specs.Lending.{cell_value};
ghost use Rattle.sql_model.specs.Meaning.{with_numbers, negation_of, value_both, aggregate_of, known_values};

use crate::cell::Cell;
use sql_model::{Fold, Operator};

#[tactic(auto, using(sql_model::proofs::CheckedNumbers::checked_numbers))]
fn sum<'a>(left: Cell<'a>, right: Cell<'a>) -> Cell<'a>
    ensures { cell_value result
        ≡ with_numbers (λ m n. m +ℤ n) (cell_value left.entry) (cell_value right.entry) }
{
    match left {
        Cell::Null => Cell::Null,
        Cell::Int(m) => match right {
            Cell::Null => Cell::Null,
            Cell::Int(n) => Cell::of_number(m.checked_add(n)),
            Cell::Text(_) => Cell::Null,
        },
        Cell::Text(_) => Cell::Null,
    }
}

#[tactic(auto, using(sql_model::proofs::CheckedNumbers::checked_numbers))]
fn difference<'a>(left: Cell<'a>, right: Cell<'a>) -> Cell<'a>
    ensures { cell_value result
        ≡ with_numbers (λ m n. m -ℤ n) (cell_value left.entry) (cell_value right.entry) }
{
    match left {
        Cell::Null => Cell::Null,
        Cell::Int(m) => match right {
            Cell::Null => Cell::Null,
            Cell::Int(n) => Cell::of_number(m.checked_sub(n)),
            Cell::Text(_) => Cell::Null,
        },
        Cell::Text(_) => Cell::Null,
    }
}

#[tactic(auto, using(sql_model::proofs::CheckedNumbers::checked_numbers))]
fn product<'a>(left: Cell<'a>, right: Cell<'a>) -> Cell<'a>
    ensures { cell_value result
        ≡ with_numbers (λ m n. m *ℤ n) (cell_value left.entry) (cell_value right.entry) }
{
    match left {
        Cell::Null => Cell::Null,
        Cell::Int(m) => match right {
            Cell::Null => Cell::Null,
            Cell::Int(n) => Cell::of_number(m.checked_mul(n)),
            Cell::Text(_) => Cell::Null,
        },
        Cell::Text(_) => Cell::Null,
    }
}

/// Minus a cell.
#[tactic(auto, using(sql_model::proofs::CheckedNumbers::checked_numbers))]
pub(crate) fn minus<'a>(cell: Cell<'a>) -> Cell<'a>
    ensures { cell_value result ≡ negation_of (cell_value cell.entry) }
{
    match cell {
        Cell::Null => Cell::Null,
        Cell::Int(number) => Cell::of_number(number.checked_neg()),
        Cell::Text(_) => Cell::Null,
    }
}

/// The value of an operator: NULL for those that have a truth.
pub(crate) fn calculate<'a>(operator: Operator, left: Cell<'a>, right: Cell<'a>) -> Cell<'a>
    ensures { cell_value result ≡ value_both operator (cell_value left.entry) (cell_value right.entry) }
{
    match operator {
        Operator::Add => sum(left, right),
        Operator::Subtract => difference(left, right),
        Operator::Multiply => product(left, right),
        Operator::Compare(_) => Cell::Null,
        Operator::And => Cell::Null,
        Operator::Or => Cell::Null,
    }
}

/// An aggregate over one row.
#[tactic(auto, using(sql_model::proofs::CheckedNumbers::checked_numbers))]
pub(crate) fn folded_one<'a>(fold: Fold, cell: Cell<'a>) -> Cell<'a>
    ensures { cell_value result ≡ aggregate_of fold (known_values (cell_value cell.entry ∷ [])) }
{
    match cell {
        Cell::Null => match fold {
            Fold::Count => Cell::Int(0),
            Fold::Sum => Cell::Null,
            Fold::Min => Cell::Null,
            Fold::Max => Cell::Null,
        },
        Cell::Int(number) => match fold {
            Fold::Count => Cell::Int(1),
            Fold::Sum => Cell::of_number(number.checked_add(0)),
            Fold::Min => Cell::Int(number),
            Fold::Max => Cell::Int(number),
        },
        Cell::Text(text) => match fold {
            Fold::Count => Cell::Int(1),
            Fold::Sum => Cell::Int(0),
            Fold::Min => Cell::Text(text),
            Fold::Max => Cell::Text(text),
        },
    }
}
