//! A column of numbers.

ghost use Rattle.std.specs.Prelude.{◌≡◌, ℕ, ℤ, ◌+◌, ◌-◌, ◌*◌, ◌/◌, ◌^◌, ◌<◌, ◌≤◌, Bool, true, false, List};
ghost use Rattle.std.specs.Prelude.{[], ◌∷◌, ◌++◌, None, Some, is_none, length, slice_get, slice_index_or};
ghost use Rattle.std.specs.Prelude.{slice_set, OnOk, OnErr, IfOk, IsOk};
ghost use Rattle.column_store.specs.Flags.{flag_in};

use crate::bits::Bits;
use crate::grow::reserve_eighth;
use std::alloc::{AllocError, Global};
use std::marker::Model;

/// A cell for each slot, a number or NULL. Contracts see a list of cells, and `spare`, the number of cells
/// that can be added without more memory.
#[derive(Drop)]
pub struct IntColumn {
    values: Vec<i64>,
    nulls: Bits,
}

impl Model for IntColumn {
    ghost use Rattle.column_store.specs.IntCells.{IntCells};

    ghost Value = { IntCells };

    ghost use Rattle.column_store.specs.IntCells.{seen_cells, IsColumn};

    ghost view = { seen_cells };

    ghost invariant = { IsColumn };
}

impl IntColumn {
    /// A column with no cells.
    pub fn new(alloc: Global) -> IntColumn
        ensures { result.items ≡ [] }
    {
        IntColumn {
            values: Vec::new(alloc),
            nulls: Bits::new(alloc),
        }
    }

    /// The cell of a slot; `None` is NULL.
    #[tactic(auto, using(crate::proofs::IntCellLaws::cell_rules))]
    pub fn get(&self, slot: usize) -> Option<i64>
        requires { slot < length self.now.items }
        ensures { result ≡ slice_index_or self.now.items slot None }
    {
        if self.nulls.get(slot) {
            None
        } else {
            Some(self.values[slot])
        }
    }

    /// Reserves memory for `more` cells, fewer than 2^32. On `AllocError` the cells are as they were, and
    /// `spare` is no smaller.
    #[tactic(auto, using(crate::proofs::IntCellLaws::cell_rules))]
    pub fn reserve(&mut self, more: usize) -> Result<(), AllocError>
        requires { more < 2 ^ 32 }
        ensures items { self.new.items ≡ self.old.items }
        ensures room { OnOk result (more ≤ self.new.spare) }
        ensures spare { self.old.spare ≤ self.new.spare }
    {
        reserve_eighth(&mut self.values, more)?;
        self.nulls.reserve(more)?;
        Ok(())
    }

    /// Adds a cell. The column has fewer than 2^32 cells, and `spare` is at least 1.
    #[tactic(auto, using(crate::proofs::IntCellLaws::cell_rules))]
    pub fn push(&mut self, cell: Option<i64>) -> Result<(), AllocError>
        requires few { length self.old.items < 2 ^ 32 }
        requires room { 1 ≤ self.old.spare }
        ensures items { self.new.items ≡ self.old.items ++ cell ∷ [] }
        ensures spare { self.old.spare ≤ self.new.spare + 1 }
        ensures succeeds { IsOk result }
    {
        self.values.push(cell.unwrap_or(0))?;
        self.nulls.push(cell.is_none())?;
        Ok(())
    }

    /// Replaces the cell of a slot.
    #[tactic(auto, using(crate::proofs::IntCellLaws::cell_rules))]
    pub fn set(&mut self, slot: usize, cell: Option<i64>)
        requires { slot < length self.old.items }
        ensures items { self.new.items ≡ slice_set self.old.items slot cell }
        ensures spare { self.new.spare ≡ self.old.spare }
    {
        self.values[slot] = cell.unwrap_or(0);
        self.nulls.set(slot, cell.is_none());
    }

    /// A word for each cell. The word of a NULL cell means nothing.
    #[tactic(auto, using(crate::proofs::IntCellLaws::cell_rules))]
    pub fn values(&self) -> &[i64]
        ensures long { length result.now ≡ length self.now.items }
        ensures numbers { (n : ℕ) (number : ℤ) → slice_index_or self.now.items n None ≡ Some number
            → slice_get result.now n ≡ Some number }
    {
        self.values.as_slice()
    }

    /// A bit for each cell, 64 in a word, which is set exactly if the cell is NULL. No bit past the last cell
    /// is set.
    #[tactic(auto, using(crate::proofs::IntCellLaws::cell_rules))]
    pub fn nulls(&self) -> &[u64]
        ensures long { length result.now ≡ (length self.now.items + 63) / 64 }
        ensures bits { (n : ℕ) → n < length self.now.items
            → flag_in result.now n ≡ is_none (slice_index_or self.now.items n None) }
        ensures clear { (n : ℕ) → length self.now.items ≤ n → flag_in result.now n ≡ false }
    {
        self.nulls.words()
    }
}
