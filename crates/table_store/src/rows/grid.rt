//! The rows of a table in columns: one slot for each row that the table ever had.

ghost use Rattle.std.specs.Prelude.{◌≡◌, ◌==◌, ◌≢◌, ℕ, ◌+◌, ◌-◌, ◌*◌, ◌/◌, ◌^◌, ◌<◌, ◌≤◌, Bool, true, false};
ghost use Rattle.std.specs.Prelude.{◌&&◌, List, [], ◌∷◌, ◌++◌, length, slice_index, slice_index_or};
ghost use Rattle.std.specs.Prelude.{slice_set, OnOk, OnErr, IfOk, IsOk, IsSome, IfSome, MatchOption, map};
ghost use Rattle.std.specs.Prelude.{None, Some, slice_get};
ghost use Rattle.std.specs.Cmp.Lexicographic.{slice_cmp};
ghost use Rattle.lanes.specs.Sets.{member};
ghost use Rattle.ldv_value.specs.Order.{order};
ghost use Rattle.table_store.specs.Types.{Null};
ghost use Rattle.sql_model.specs.Keys.{values_at};
ghost use Rattle.table_store.specs.inner.Grid.{IsRising, Slot, no_slot, fits_kinds, are_of_kinds, AreNumberedFrom};
ghost use Rattle.table_store.specs.inner.Grid.{next_after, new_slot, slot_null, slot_passes};

use crate::rows::push::{push_rows, reserve_rows};
use crate::rows::scan::{keep_nulls_at, select};
use column_store::{Bits, Column, compare_cells, copy_cells, empty_columns, set_cells};
use lanes::and_into;
use ldv_value::{Cmp, Places, Values};
use sql_model::TableRows;
use std::alloc::{AllocError, Global};
use std::cmp::Ordering;
use std::marker::Model;

/// Rows in columns. Contracts see the list of their slots.
#[derive(Drop)]
pub(crate) struct Grid {
    numbers: Vec<u32>,
    since: Vec<u32>,
    standing: Bits,
    columns: Vec<Column>,
    next: u32,
}

impl Model for Grid {
    ghost use Rattle.table_store.specs.inner.Grid.{Rows};

    ghost Value = { Rows };

    ghost use Rattle.table_store.specs.inner.Grid.{seen_rows, IsTable};

    ghost view = { seen_rows };

    ghost invariant = { IsTable };
}

impl Grid {
    /// No rows, with a column for each item of `texts`: of texts if the item is true, and else of numbers.
    #[tactic(auto, using(crate::proofs::GridLaws::grid_empty))]
    pub(crate) fn new(alloc: Global, texts: &[bool]) -> Result<Grid, AllocError>
        ensures { IfOk result (λ grid. grid ≡ record { slots = []; kinds = texts.now; next = 0 }) }
    {
        let columns = empty_columns(alloc, texts)?;
        Ok(Grid {
            numbers: Vec::new(alloc),
            since: Vec::new(alloc),
            standing: Bits::new(alloc),
            columns,
            next: 0,
        })
    }

    /// How many rows the table ever had.
    #[tactic(auto, using(crate::proofs::GridLaws::grid_rules))]
    pub(crate) fn len(&self) -> usize
        ensures count { result ≡ length self.now.slots }
        ensures few { length self.now.slots ≤ self.now.next }
    {
        self.numbers.len()
    }

    /// The number of the next row.
    pub(crate) fn next(&self) -> u32
        ensures { result ≡ self.now.next }
    {
        self.next
    }

    /// Raises the number of the next row.
    pub(crate) fn set_next(&mut self, next: u32)
        requires { self.old.next ≤ next }
        ensures { self.new ≡ record self.old { next = next } }
    {
        self.next = next;
    }

    /// The number of the row in a slot.
    #[tactic(auto, using(crate::proofs::GridLaws::grid_rules))]
    pub(crate) fn number(&self, slot: usize) -> u32
        requires { slot < length self.now.slots }
        ensures { result ≡ (slice_index_or self.now.slots slot no_slot).number }
    {
        self.numbers[slot]
    }

    /// Since when the row in a slot has its last values.
    #[tactic(auto, using(crate::proofs::GridLaws::grid_rules))]
    pub(crate) fn since(&self, slot: usize) -> u32
        requires { slot < length self.now.slots }
        ensures { result ≡ (slice_index_or self.now.slots slot no_slot).since }
    {
        self.since[slot]
    }

    /// Whether the row in a slot is live.
    #[tactic(auto, using(crate::proofs::GridLaws::grid_rules))]
    pub(crate) fn stands(&self, slot: usize) -> bool
        requires { slot < length self.now.slots }
        ensures { result ≡ (slice_index_or self.now.slots slot no_slot).stands }
    {
        self.standing.get(slot)
    }

    /// A copy of the last values of the row in a slot.
    #[tactic(auto, using(crate::proofs::GridLaws::grid_rules))]
    pub(crate) fn copy_values(&self, alloc: Global, slot: usize) -> Result<Values, AllocError>
        requires { slot < length self.now.slots }
        ensures { IfOk result (λ values. values ≡ (slice_index_or self.now.slots slot no_slot).values) }
    {
        copy_cells(alloc, &self.columns, slot)
    }

    /// How the key of the row in a slot compares to values, in the order of keys.
    pub(crate) fn compare_key(&self, slot: usize, places: &Places, values: &Values) -> Ordering
        requires { slot < length self.now.slots }
        ensures { result ≡ slice_cmp order
            (values_at places.now (slice_index_or self.now.slots slot no_slot).values) values.now }
    {
        compare_cells(&self.columns, slot, places.items(), values.items())
    }

    /// Sets the bits of the slots whose row is live and whose number in the column passes the comparison with
    /// the constant, and clears all others.
    pub(crate) fn scan(&self, column: usize, op: Cmp, constant: i64, mask: &mut [u64])
        requires column { slice_get self.now.kinds column ≡ Some false }
        requires mask { length mask.old ≡ (length self.now.slots + 63) / 64 }
        ensures { (n : ℕ) → member mask.new n ≡ slot_passes column op constant
            (slice_index_or self.now.slots n no_slot) }
    {
        let chosen = &self.columns[column];
        select(chosen, op, constant, mask);
        and_into(mask, self.standing.words());
    }

    /// Sets the bits of the slots whose row is live and has NULL in the column (if `is_null` is false:
    /// another value), and clears all others. A place past the last column has NULL.
    pub(crate) fn scan_nulls(&self, column: usize, is_null: bool, mask: &mut [u64])
        requires { length mask.old ≡ (length self.now.slots + 63) / 64 }
        ensures { (n : ℕ) → member mask.new n ≡ slot_null column is_null
            (slice_index_or self.now.slots n no_slot) }
    {
        mask.copy_from_slice(self.standing.words());
        keep_nulls_at(&self.columns, column, is_null, mask);
    }

    /// The slots of live rows, as bits.
    pub(crate) fn standing_slots(&self) -> &[u64]
        ensures long { length result.now ≡ (length self.now.slots + 63) / 64 }
        ensures members { (n : ℕ) → member result.now n ≡ (slice_index_or self.now.slots n no_slot).stands }
    {
        self.standing.words()
    }

    /// Adds rows whose first values are written at the time `since`. On `AllocError` nothing has changed.
    pub(crate) fn push_all(&mut self, rows: TableRows, since: u32) -> Result<(), AllocError>
        requires numbered { AreNumberedFrom self.old.next rows }
        requires few { length rows < 2 ^ 32 }
        requires kinds { are_of_kinds self.old.kinds rows ≡ true }
        ensures ok { OnOk result (self.new
            ≡ record self.old {
              slots = self.old.slots ++ map (new_slot since) rows;
              next = next_after self.old.next rows;
            }) }
        ensures err { OnErr result (self.new ≡ self.old) }
    {
        let more = rows.len();
        reserve_rows(
            &mut self.numbers,
            &mut self.since,
            &mut self.standing,
            &mut self.columns,
            more,
        )?;
        self.next = push_rows(
            &mut self.numbers,
            &mut self.since,
            &mut self.standing,
            &mut self.columns,
            self.next,
            rows,
            since,
        )?;
        Ok(())
    }

    /// Replaces the last values of the row in a slot, which it has since a time.
    #[tactic(auto, using(crate::proofs::GridLaws::grid_rules))]
    pub(crate) fn set(&mut self, slot: usize, values: Values, since: u32)
        requires within { slot < length self.old.slots }
        requires kinds { fits_kinds self.old.kinds values ≡ true }
        ensures { self.new ≡ record self.old {
          slots = slice_set self.old.slots slot
              (record (slice_index_or self.old.slots slot no_slot) { since = since; values = values });
        } }
    {
        self.since[slot] = since;
        set_cells(&mut self.columns, slot, values);
    }

    /// Deletes the row in a slot. Its values stay in the columns.
    pub(crate) fn clear(&mut self, slot: usize)
        requires { slot < length self.old.slots }
        ensures { self.new ≡ record self.old {
          slots = slice_set self.old.slots slot
              (record (slice_index_or self.old.slots slot no_slot) { stands = false });
        } }
    {
        self.standing.set(slot, false);
    }

    /// The slot of the row with a number: the slot of that number, as long as none was left out before it, or
    /// else found by bisection.
    pub(crate) fn find(&self, number: u32) -> Option<usize>
        ensures found { IfSome result (λ slot. (slot < length self.now.slots)
            × ((slice_index_or self.now.slots slot no_slot).number ≡ number)) }
        ensures absent { result ≡ None → (k : ℕ) → k < length self.now.slots
            → (slice_index_or self.now.slots k no_slot).number ≢ number }
    {
        place_in(&self.numbers, number)
    }

    /// Does nothing. Its contract tells the caller that the numbers are strictly increasing and below the
    /// next one.
    #[tactic(auto, using(crate::proofs::GridLaws::grid_rules))]
    pub(crate) fn tell_order(&self)
        ensures rising { (i j : ℕ) → i < j → j < length self.now.slots
            → (slice_index_or self.now.slots i no_slot).number
            < (slice_index_or self.now.slots j no_slot).number }
        ensures below { (i : ℕ) → i < length self.now.slots
            → (slice_index_or self.now.slots i no_slot).number < self.now.next }
        ensures small { self.now.next < 2 ^ 32 }
    {
        let _numbers = &self.numbers;
        let _next = self.next;
    }
}

// The place of a number.
#[tactic(auto, using(crate::proofs::GridLaws::only_place))]
fn place_in(numbers: &Vec<u32>, number: u32) -> Option<usize>
    requires { IsRising numbers.now.items }
    ensures found { IfSome result (λ place. (place < length numbers.now.items)
        × (slice_index numbers.now.items place ≡ number)) }
    ensures absent { result ≡ None → (k : ℕ) → k < length numbers.now.items
        → slice_index numbers.now.items k ≢ number }
{
    let near = number as usize;
    if near < numbers.len() {
        if numbers[near] == number {
            return Some(near);
        }
    }
    let place = place_of(numbers, number);
    if place == numbers.len() {
        return None;
    }
    if numbers[place] != number {
        return None;
    }
    Some(place)
}

// The place of the first number that is at least the given one, found by bisection.
pub(crate) fn place_of(numbers: &[u32], number: u32) -> usize
    requires { IsRising numbers.now }
    ensures within { result ≤ length numbers.now }
    ensures before { (k : ℕ) → k < result → slice_index numbers.now k < number }
    ensures after { (k : ℕ) → result ≤ k → k < length numbers.now → number ≤ slice_index numbers.now k }
{
    let mut low = 0;
    let mut high = numbers.len();
    'halves: while low < high {
        let mid = low + (high - low) / 2;
        if numbers[mid] < number {
            low = mid + 1;
        } else {
            high = mid;
        }
    }
    low
}
