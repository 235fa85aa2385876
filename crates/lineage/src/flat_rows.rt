//! Rows of slots, laid one after the other.

ghost use Rattle.std.specs.Prelude.{◌≡◌, ◌+◌, ◌*◌, ◌≤◌, ◌++◌, ◌∷◌, [], length, take, drop, IfOk, OnErr, OnOk};
ghost use Rattle.std.specs.List.{AllByRecursion};
ghost use Rattle.lineage.specs.Flat.{rows_in, rows_of_width, HasLength};

use std::alloc::{AllocError, Global};
use std::marker::Model;

/// Rows of slots, all of one width: a joined row has one slot for each of its sources. They take four bytes a
/// slot.
#[derive(Drop)]
pub struct FlatRows {
    width: usize,
    count: usize,
    slots: Vec<u32>,
}

impl Model for FlatRows {
    ghost use Rattle.lineage.specs.Flat.{SlotRows};

    ghost Value = { SlotRows };

    ghost use Rattle.lineage.specs.inner.Laid.{seen_rows, AreLaid};

    ghost view = { seen_rows };

    ghost invariant = { AreLaid };
}

impl FlatRows {
    /// No rows of a width. They take no memory.
    pub fn new(alloc: Global, width: usize) -> FlatRows
        ensures { result ≡ record { width = width; rows = [] } }
    {
        FlatRows {
            width,
            count: 0,
            slots: Vec::new(alloc),
        }
    }

    /// The one row that has no slot. It takes no memory.
    pub fn of_no_source(alloc: Global) -> FlatRows
        ensures { result ≡ record { width = 0; rows = [] ∷ [] } }
    {
        FlatRows {
            width: 0,
            count: 1,
            slots: Vec::new(alloc),
        }
    }

    /// No rows, of one slot more. A width that no `usize` holds counts as out of memory.
    pub fn wider(&self) -> Result<FlatRows, AllocError>
        ensures { IfOk result (λ made. made ≡ rows_of_width (self.now.width + 1) []) }
    {
        let width = next_count(self.width)?;
        Ok(FlatRows::new(*self.slots.allocator(), width))
    }

    /// The number of slots of a row.
    pub fn width(&self) -> usize
        ensures { result ≡ self.now.width }
    {
        self.width
    }

    /// How many rows there are.
    #[tactic(auto, using(crate::proofs::FlatLaws::count_rules))]
    pub fn len(&self) -> usize
        ensures { result ≡ length self.now.rows }
    {
        self.count
    }

    /// The slots of all rows, one row after the other.
    #[tactic(auto, using(crate::proofs::FlatLaws::count_rules))]
    pub fn slots(&self) -> &[u32]
        ensures rows { self.now.rows ≡ rows_in (length self.now.rows) self.now.width result.now }
        ensures long { length result.now ≡ length self.now.rows * self.now.width }
    {
        self.slots.as_slice()
    }

    /// Does nothing. Its contract tells the caller that each row has as many slots as the width says.
    pub fn tell_width(&self)
        ensures { AllByRecursion (HasLength self.now.width) self.now.rows }
    {
        let _slots = &self.slots;
    }

    /// Adds a row. On `AllocError` the rows are as they were.
    pub fn push(&mut self, row: &[u32]) -> Result<(), AllocError>
        requires { length row.now ≡ self.old.width }
        ensures ok { OnOk result (self.new ≡ record self.old { rows = self.old.rows ++ row.now ∷ [] }) }
        ensures err { OnErr result (self.new ≡ self.old) }
    {
        let count = next_count(self.count)?;
        add_all(&mut self.slots, row)?;
        self.count = count;
        Ok(())
    }

    /// Adds the row of a prefix and one slot more. On `AllocError` the rows are as they were.
    pub fn push_extended(&mut self, prefix: &[u32], slot: u32) -> Result<(), AllocError>
        requires { length prefix.now + 1 ≡ self.old.width }
        ensures ok { OnOk result (self.new
            ≡ record self.old { rows = self.old.rows ++ (prefix.now ++ slot ∷ []) ∷ [] }) }
        ensures err { OnErr result (self.new ≡ self.old) }
    {
        let count = next_count(self.count)?;
        add_slots(&mut self.slots, prefix, slot)?;
        self.count = count;
        Ok(())
    }
}

// A count and one more. What no `usize` holds counts as out of memory.
fn next_count(count: usize) -> Result<usize, AllocError>
    ensures { IfOk result (λ next. next ≡ count + 1) }
{
    match count.checked_add(1) {
        None => Err(AllocError),
        Some(next) => Ok(next),
    }
}

// Adds slots. On `AllocError` the list is as it was.
fn add_all(slots: &mut Vec<u32>, more: &[u32]) -> Result<(), AllocError>
    ensures ok { OnOk result (slots.new.items ≡ slots.old.items ++ more.now) }
    ensures err { OnErr result (slots.new.items ≡ slots.old.items) }
{
    slots.extend_from_slice(more)?;
    Ok(())
}

// Adds slots, and one more. On `AllocError` the list is as it was.
fn add_slots(slots: &mut Vec<u32>, more: &[u32], last: u32) -> Result<(), AllocError>
    ensures ok { OnOk result (slots.new.items ≡ slots.old.items ++ (more.now ++ last ∷ [])) }
    ensures err { OnErr result (slots.new.items ≡ slots.old.items) }
{
    let before = slots.len();
    slots.extend_from_slice(more)?;
    match slots.push(last) {
        Ok(()) => Ok(()),
        Err(stop) => {
            slots.truncate(before);
            Err(stop.into())
        }
    }
}

/// The slots of the first row, and those of the others.
pub fn split_row(slots: &[u32], width: usize) -> (&[u32], &[u32])
    requires { width ≤ length slots.now }
    ensures row { result.0.now ≡ take width slots.now }
    ensures rest { result.1.now ≡ drop width slots.now }
{
    slots.split_at(width)
}
