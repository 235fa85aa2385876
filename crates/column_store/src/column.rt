//! A column of a table: its kind, and a cell for each slot.

ghost use Rattle.std.specs.Prelude.{◌≡◌, ℕ, ◌+◌, ◌^◌, ◌<◌, ◌≤◌, Bool, true, false, List, [], ◌∷◌, ◌++◌};
ghost use Rattle.std.specs.Prelude.{length, map, slice_index_or, slice_set, OnOk, OnErr, IfOk, IsOk, Option};
ghost use Rattle.std.specs.Prelude.{Some, IfSome, is_none, is_some};
ghost use Rattle.ldv_value.specs.Order.{order};
ghost use Rattle.column_store.specs.Types.{Null};
ghost use Rattle.ldv_value.specs.Cells.{int_value};
ghost use Rattle.column_store.specs.Cells.{Cells, is_of_kind};

use crate::int_column::IntColumn;
use ldv_value::{CopyItem, Value};
use std::alloc::{AllocError, Global};
use std::cmp::Ordering;
use std::marker::Model;

#[derive(Drop)]
enum Held {
    Ints(IntColumn),
    Texts(Vec<Value>),
}

/// A cell for each slot. A column of numbers holds words, and one of texts the values themselves. Contracts
/// see its kind, the values of its cells, and `spare`, the number of cells that can be added without more
/// memory.
#[derive(Drop)]
pub struct Column {
    held: Held,
}

impl Model for Column {
    ghost use Rattle.column_store.specs.Cells.{Cells};

    ghost Value = { Cells };

    ghost use Rattle.column_store.specs.Cells.{held_cells};

    ghost view = { λ a. held_cells a.held };
}

impl Column {
    /// A column with no cells, of texts if `text` is true, and else of numbers.
    pub fn new(alloc: Global, text: bool) -> Column
        ensures items { result.items ≡ [] }
        ensures kind { result.text ≡ text }
    {
        if text {
            Column {
                held: Held::Texts(Vec::new(alloc)),
            }
        } else {
            Column {
                held: Held::Ints(IntColumn::new(alloc)),
            }
        }
    }

    /// A copy of a cell.
    #[tactic(auto, using(crate::proofs::CellLaws::cell_rules))]
    pub(crate) fn copy_cell(&self, alloc: Global, slot: usize) -> Result<Value, AllocError>
        requires { slot < length self.now.items }
        ensures { IfOk result (λ value. value ≡ slice_index_or self.now.items slot Null) }
    {
        match &self.held {
            Held::Ints(ints) => Ok(Value::of_number(ints.get(slot))),
            Held::Texts(values) => {
                let value = &values[slot];
                value.copy_item(alloc)
            }
        }
    }

    /// How a cell compares to a value, in the total order.
    #[tactic(auto, using(crate::proofs::CellLaws::cell_rules))]
    pub(crate) fn compare_cell(&self, slot: usize, other: &Value) -> Ordering
        requires { slot < length self.now.items }
        ensures { result ≡ order (slice_index_or self.now.items slot Null) other.now }
    {
        match &self.held {
            Held::Ints(ints) => {
                let value = Value::of_number(ints.get(slot));
                value.cmp(other)
            }
            Held::Texts(values) => {
                let value = &values[slot];
                value.cmp(other)
            }
        }
    }

    /// Reserves memory for `more` cells, fewer than 2^32. On `AllocError` the cells are as they were, and
    /// `spare` is no smaller.
    #[tactic(auto, using(crate::proofs::CellLaws::cell_rules))]
    pub fn reserve(&mut self, more: usize) -> Result<(), AllocError>
        requires { more < 2 ^ 32 }
        ensures kind { self.new.text ≡ self.old.text }
        ensures items { self.new.items ≡ self.old.items }
        ensures room { OnOk result (more ≤ self.new.spare) }
        ensures spare { self.old.spare ≤ self.new.spare }
    {
        match &mut self.held {
            Held::Ints(ints) => ints.reserve(more),
            Held::Texts(values) => values.reserve(more),
        }
    }

    /// Adds a cell. The column has fewer than 2^32 cells, `spare` is at least 1, and the value has the
    /// column's kind or is NULL.
    #[tactic(auto, using(crate::proofs::CellLaws::cell_rules))]
    pub fn push(&mut self, value: Value) -> Result<(), AllocError>
        requires few { length self.old.items < 2 ^ 32 }
        requires room { 1 ≤ self.old.spare }
        requires kind { is_of_kind self.old.text value ≡ true }
        ensures kind { self.new.text ≡ self.old.text }
        ensures items { self.new.items ≡ self.old.items ++ value ∷ [] }
        ensures spare { self.old.spare ≤ self.new.spare + 1 }
        ensures succeeds { IsOk result }
    {
        match &mut self.held {
            Held::Ints(ints) => ints.push(number_of(value)),
            Held::Texts(values) => {
                values.push(value)?;
                Ok(())
            }
        }
    }

    /// Replaces the cell of a slot by a value of the column's kind or NULL.
    #[tactic(auto, using(crate::proofs::CellLaws::cell_rules))]
    pub fn set(&mut self, slot: usize, value: Value)
        requires within { slot < length self.old.items }
        requires kind { is_of_kind self.old.text value ≡ true }
        ensures kind { self.new.text ≡ self.old.text }
        ensures items { self.new.items ≡ slice_set self.old.items slot value }
        ensures spare { self.new.spare ≡ self.old.spare }
    {
        match &mut self.held {
            Held::Ints(ints) => ints.set(slot, number_of(value)),
            Held::Texts(values) => values[slot] = value,
        }
    }

    /// The numbers of a column of numbers; `None` for one of texts.
    pub fn ints(&self) -> Option<&IntColumn>
        ensures kind { is_none result ≡ self.now.text }
        ensures items { IfSome result (λ ints. map int_value ints.now.items ≡ self.now.items) }
    {
        match &self.held {
            Held::Ints(ints) => Some(ints),
            Held::Texts(_values) => None,
        }
    }

    /// The values of a column of texts; `None` for one of numbers.
    pub fn texts(&self) -> Option<&[Value]>
        ensures kind { is_some result ≡ self.now.text }
        ensures items { IfSome result (λ values. values.now ≡ self.now.items) }
    {
        match &self.held {
            Held::Ints(_ints) => None,
            Held::Texts(values) => Some(values.as_slice()),
        }
    }
}

// The number of a value that is no text.
fn number_of(value: Value) -> Option<i64>
    ensures { is_of_kind false value ≡ true → int_value result ≡ value }
{
    match value {
        Value::Int(number) => Some(number),
        Value::Null => None,
        Value::Text(_text) => None,
    }
}
