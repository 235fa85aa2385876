//! The rows of a table by the keys that they refer to.

ghost use Rattle.std.specs.Prelude.{◌≡◌, ◌<◌, ℕ, ℤ, List, true, false, IsTrue, OnOk, IfOk, IfSome, length};
ghost use Rattle.std.specs.Prelude.{slice_index_or};
ghost use Rattle.std.specs.Ordering.{int_cmp};
ghost use Rattle.sql_model.specs.KeyOrder.{key_order};
ghost use Rattle.sql_model.specs.References.{reference};
ghost use Rattle.table_store.specs.inner.ChildPairs.{no_foreign, pair_in, AreReferred, IsFirstFrom, IsReferred};
ghost use Rattle.table_store.specs.inner.ChildPairs.{has_pair, placed_order, KeepBut, KeepPairs};
ghost use Rattle.table_store.specs.inner.ChildPairs.{first_place, pair_by, StayReferred};
ghost use Rattle.table_store.specs.Histories.{no_history, rows_now};
ghost use Rattle.table_store.specs.Types.{Foreign, Value};

use crate::keys::index::{has_key_in, int_key, key_of};
use crate::keys::key_map::CopyKey;
use crate::references::child_set::ChildSet;
use crate::references::first_place::first_place;
use crate::rows::Rows;
use ldv_value::Values;
use sql_model::{Foreign, Foreigns, RowKey, TableRow, refers_to_none};
use std::alloc::{AllocError, Global};

/// The numbers of rows under the keys that they refer to, by the place of the first foreign key over the same
/// columns. A key of one number is stored as that number.
#[derive(Drop)]
pub(crate) struct ChildIndex {
    pub(crate) ints: ChildSet<(usize, i64)>,
    pub(crate) others: ChildSet<(usize, RowKey)>,
}

impl ChildIndex {
    /// An index with no row. It takes no memory.
    pub(crate) fn new(alloc: Global) -> ChildIndex {
        ChildIndex {
            ints: ChildSet::new(alloc),
            others: ChildSet::new(alloc),
        }
    }

    /// Whether there is no number under any key.
    pub(crate) fn is_empty(&self) -> bool
        ensures { IsTrue result → (place : ℕ) (key : List Value) (number : ℕ)
            → pair_in self.now place key number ≡ false }
    {
        if !self.has_no_int() {
            return false;
        }
        self.has_no_other()
    }

    // Whether there is none under a key that is one number.
    fn has_no_int(&self) -> bool
        ensures { IsTrue result → (place : ℕ) (int : ℤ) (number : ℕ)
            → has_pair (placed_order int_cmp) self.now.ints.held (place, int) number ≡ false }
    {
        self.ints.is_empty()
    }

    // Whether there is none under another key.
    fn has_no_other(&self) -> bool
        ensures { IsTrue result → (place : ℕ) (key : List Value) (number : ℕ)
            → has_pair (placed_order key_order) self.now.others.held (place, record { values = key }) number
            ≡ false }
    {
        self.others.is_empty()
    }

    /// Adds a number under a key.
    pub(crate) fn add(&mut self, place: usize, key: RowKey, number: u32) -> Result<(), AllocError>
        ensures kept { KeepPairs (pair_in self.old) (pair_in self.new) }
        ensures ok { OnOk result (pair_in self.new place key.values number ≡ true) }
    {
        match int_key(key.values.items()) {
            None => self.others.add((place, key), number),
            Some(int) => self.ints.add((place, int), number),
        }
    }

    /// Removes a number under a key. It takes no memory.
    pub(crate) fn remove(&mut self, place: usize, key: RowKey, number: u32)
        ensures { KeepBut place key.values number (pair_in self.old) (pair_in self.new) }
    {
        match int_key(key.values.items()) {
            None => self.others.remove((place, key), number),
            Some(int) => self.ints.remove((place, int), number),
        }
    }

    /// The least number under a key that is at least `from`.
    pub(crate) fn first_from(
        &self,
        place: usize,
        key: &RowKey,
        from: u32,
    ) -> Result<Option<u32>, AllocError>
        ensures { IfOk result (IsFirstFrom (pair_in self.now place key.now.values) from) }
    {
        match int_key(key.values.items()) {
            None => {
                let copy = key.copy_key()?;
                Ok(self.others.first_from((place, copy), from))
            }
            Some(int) => Ok(self.ints.first_from((place, int), from)),
        }
    }
}

/// The index of rows.
pub(crate) fn index_of_rows(
    alloc: Global,
    foreigns: &Foreigns,
    rows: &[TableRow],
) -> Result<ChildIndex, AllocError>
    ensures { IfOk result (λ index. AreReferred (pair_by index foreigns.now) foreigns.now rows.now) }
{
    let mut index = ChildIndex::new(alloc);
    add_all(alloc, &mut index, foreigns, rows)?;
    Ok(index)
}

/// Adds rows under the keys that they refer to. On `AllocError` some of them may have been added.
pub(crate) fn add_all(
    alloc: Global,
    index: &mut ChildIndex,
    foreigns: &Foreigns,
    rows: &[TableRow],
) -> Result<(), AllocError>
    ensures kept { KeepPairs (pair_by index.old foreigns.now) (pair_by index.new foreigns.now) }
    ensures ok { OnOk result (AreReferred (pair_by index.new foreigns.now) foreigns.now rows.now) }
{
    for row in rows {
        match add_row(alloc, index, foreigns, row) {
            Ok(()) => {}
            Err(refused) => return Err(refused),
        }
    }
    Ok(())
}

fn add_row(
    alloc: Global,
    index: &mut ChildIndex,
    foreigns: &Foreigns,
    row: &TableRow,
) -> Result<(), AllocError>
    ensures kept { KeepPairs (pair_by index.old foreigns.now) (pair_by index.new foreigns.now) }
    ensures ok { OnOk result (IsReferred (pair_by index.new foreigns.now) foreigns.now row.now) }
{
    let items = foreigns.items();
    for place in 0..items.len() {
        match add_at(alloc, index, items, place, row) {
            Ok(()) => {}
            Err(refused) => return Err(refused),
        }
    }
    Ok(())
}

// Adds a row by the foreign key at a place, if no foreign key before it is over the same columns.
fn add_at(
    alloc: Global,
    index: &mut ChildIndex,
    foreigns: &[Foreign],
    place: usize,
    row: &TableRow,
) -> Result<(), AllocError>
    requires { place < length foreigns.now }
    ensures kept { KeepPairs (pair_in index.old) (pair_in index.new) }
    ensures ok { OnOk result (first_place foreigns.now place ≡ place
        → IfSome (reference (slice_index_or foreigns.now place no_foreign) row.now.values)
        (λ key. pair_in index.new place key row.now.number ≡ true)) }
{
    if first_place(foreigns, place) != place {
        return Ok(());
    }
    add_by(alloc, index, place, &foreigns[place], row)
}

fn add_by(
    alloc: Global,
    index: &mut ChildIndex,
    place: usize,
    foreign: &Foreign,
    row: &TableRow,
) -> Result<(), AllocError>
    ensures kept { KeepPairs (pair_in index.old) (pair_in index.new) }
    ensures ok { OnOk result (IfSome (reference foreign.now row.now.values)
        (λ key. pair_in index.new place key row.now.number ≡ true)) }
{
    if refers_to_none(foreign, &row.values) {
        return Ok(());
    }
    let key = key_of(alloc, &foreign.columns, &row.values)?;
    index.add(place, key, row.number)
}

/// Removes rows, by their numbers, under the keys that they referred to after a time but no longer refer to.
/// If memory runs out, some stay. So a key that many rows once referred to is looked up as fast as any.
pub(crate) fn settle_all(
    alloc: Global,
    index: &mut ChildIndex,
    foreigns: &Foreigns,
    stored: &Rows,
    numbers: &[u32],
    time: u32,
)
    ensures { StayReferred foreigns.now (rows_now stored.now.slots)
        (pair_by index.old foreigns.now) (pair_by index.new foreigns.now) }
{
    if foreigns.is_empty() {
        return;
    }
    for number in numbers {
        settle_row(alloc, index, foreigns, stored, *number, time);
    }
}

// Takes the row of one number out from under the keys to which it refers no longer.
fn settle_row(
    alloc: Global,
    index: &mut ChildIndex,
    foreigns: &Foreigns,
    stored: &Rows,
    number: u32,
    time: u32,
)
    ensures { StayReferred foreigns.now (rows_now stored.now.slots)
        (pair_by index.old foreigns.now) (pair_by index.new foreigns.now) }
{
    match stored.find(number) {
        None => {}
        Some(slot) => settle_slot(alloc, index, foreigns, stored, slot, number, time),
    }
}

// Takes the row in a slot, which has the number, out from under them. They are found by the values that it
// had after the time, and nothing is done where memory is out.
fn settle_slot(
    alloc: Global,
    index: &mut ChildIndex,
    foreigns: &Foreigns,
    stored: &Rows,
    slot: usize,
    number: u32,
    time: u32,
)
    requires within { slot < length stored.now.slots }
    requires numbered { (slice_index_or stored.now.slots slot no_history).number ≡ number }
    ensures { StayReferred foreigns.now (rows_now stored.now.slots)
        (pair_by index.old foreigns.now) (pair_by index.new foreigns.now) }
{
    match stored.values_as_of(alloc, slot, time) {
        Err(_refused) => {}
        Ok(None) => {}
        Ok(Some(values)) => settle_values(alloc, index, foreigns, stored, slot, number, &values),
    }
}

// Takes a row that had these values out from under the keys that they refer to, foreign key by foreign key.
fn settle_values(
    alloc: Global,
    index: &mut ChildIndex,
    foreigns: &Foreigns,
    stored: &Rows,
    slot: usize,
    number: u32,
    values: &Values,
)
    requires within { slot < length stored.now.slots }
    requires numbered { (slice_index_or stored.now.slots slot no_history).number ≡ number }
    ensures { StayReferred foreigns.now (rows_now stored.now.slots)
        (pair_by index.old foreigns.now) (pair_by index.new foreigns.now) }
{
    let items = foreigns.items();
    for place in 0..items.len() {
        settle_at(alloc, index, items, place, stored, slot, number, values);
    }
}

// Takes it out from under the key of the foreign key at a place, if none before it is over the same columns.
fn settle_at(
    alloc: Global,
    index: &mut ChildIndex,
    foreigns: &[Foreign],
    place: usize,
    stored: &Rows,
    slot: usize,
    number: u32,
    values: &Values,
)
    requires at { place < length foreigns.now }
    requires within { slot < length stored.now.slots }
    requires numbered { (slice_index_or stored.now.slots slot no_history).number ≡ number }
    ensures { StayReferred foreigns.now (rows_now stored.now.slots)
        (pair_by index.old foreigns.now) (pair_by index.new foreigns.now) }
{
    if first_place(foreigns, place) != place {
        return;
    }
    settle_by(
        alloc,
        index,
        place,
        &foreigns[place],
        stored,
        slot,
        number,
        values,
    );
}

// Takes it out from under the key of one foreign key.
fn settle_by(
    alloc: Global,
    index: &mut ChildIndex,
    place: usize,
    foreign: &Foreign,
    stored: &Rows,
    slot: usize,
    number: u32,
    values: &Values,
)
    requires within { slot < length stored.now.slots }
    requires numbered { (slice_index_or stored.now.slots slot no_history).number ≡ number }
    ensures { (foreigns : List Foreign) → slice_index_or foreigns place no_foreign ≡ foreign.now
        → StayReferred foreigns (rows_now stored.now.slots)
        (pair_by index.old foreigns) (pair_by index.new foreigns) }
{
    match key_of(alloc, &foreign.columns, values) {
        Err(_refused) => {}
        Ok(key) => settle_key(index, place, foreign, stored, slot, number, key),
    }
}

// Takes it out from under one key, unless the row stands and still refers to it.
fn settle_key(
    index: &mut ChildIndex,
    place: usize,
    foreign: &Foreign,
    stored: &Rows,
    slot: usize,
    number: u32,
    key: RowKey,
)
    requires within { slot < length stored.now.slots }
    requires numbered { (slice_index_or stored.now.slots slot no_history).number ≡ number }
    ensures { (foreigns : List Foreign) → slice_index_or foreigns place no_foreign ≡ foreign.now
        → StayReferred foreigns (rows_now stored.now.slots)
        (pair_by index.old foreigns) (pair_by index.new foreigns) }
{
    stored.tell_order();
    if has_key_in(stored, &foreign.columns, &key.values, slot) {
        return;
    }
    index.remove(place, key, number);
}
