//! Rows through time.

mod grid;
mod logged;
mod push;
mod rewrites;
mod row_ends;
mod scan;
pub(crate) mod table_rows;
mod version_log;

ghost use Rattle.std.specs.Prelude.{◌≡◌, ◌==◌, ℕ, ◌+◌, ◌<◌, ◌≤◌, ◌^◌, Bool, true, List, [], ◌∷◌, ◌++◌};
ghost use Rattle.std.specs.Prelude.{Option, Some, None, OnOk, OnErr, IfOk, IsOk, IsSome, length, map};
ghost use Rattle.std.specs.Prelude.{slice_index_or, is_some, IfSome, ◌≢◌, false, slice_get, ◌/◌};
ghost use Rattle.std.specs.Option.{option_map, option_map_or};
ghost use Rattle.std.specs.Cmp.Lexicographic.{slice_cmp};
ghost use Rattle.lanes.specs.Sets.{member};
ghost use Rattle.ldv_value.specs.Order.{order};
ghost use Rattle.sql_model.specs.Keys.{values_at};
ghost use Rattle.table_store.specs.Scans.{null_passes, passes_test};
ghost use Rattle.table_store.specs.Types.{Null};
ghost use Rattle.row_version.specs.History.{write_at, current_values, as_of, version};
ghost use Rattle.table_store.specs.inner.Grid.{are_of_kinds, no_slot, AreNumberedFrom, next_after};
ghost use Rattle.table_store.specs.inner.RowHistories.{is_ended};
ghost use Rattle.table_store.specs.Histories.{history_of_new_row, changed_by, no_history};
ghost use Rattle.table_store.specs.inner.RowChanges.{changes_given, removal, rewrite, RiseFrom, AllFitKinds};
ghost use Rattle.table_store.specs.inner.RowChanges.{AllStand, AreBefore};
ghost use Rattle.table_store.specs.inner.Past.{past};
ghost use Rattle.table_store.specs.RowOrder.{AreInOrder};

use crate::rows::grid::Grid;
use crate::rows::rewrites::{rewrite_each, rewrites_of};
use crate::rows::row_ends::end_each;
use crate::rows::version_log::VersionLog;
use ldv_value::{Cmp, Places, Values};
use sql_model::TableRows;
use std::alloc::{AllocError, Global};
use std::cmp::Ordering;
use std::marker::Model;

/// Rows through time. Contracts see the changes of each row.
#[derive(Drop)]
pub(crate) struct Rows {
    grid: Grid,
    log: VersionLog,
}

impl Model for Rows {
    ghost use Rattle.table_store.specs.inner.RowHistories.{RowsHistory};

    ghost Value = { RowsHistory };

    ghost use Rattle.table_store.specs.inner.RowHistories.{seen_histories, IsRows};

    ghost view = { seen_histories };

    ghost invariant = { IsRows };
}

impl Rows {
    /// No rows, with a column for each item of `texts`: of texts if the item is true, and else of numbers.
    #[tactic(auto, using(crate::proofs::RowLaws::none_kept))]
    pub(crate) fn new(alloc: Global, texts: &[bool]) -> Result<Rows, AllocError>
        ensures { IfOk result (λ rows. rows ≡ record { slots = []; kinds = texts.now; next = 0 }) }
    {
        Ok(Rows {
            grid: Grid::new(alloc, texts)?,
            log: VersionLog::new(alloc),
        })
    }

    /// How many rows there ever were.
    #[tactic(auto, using(crate::proofs::RowLaws::row_rules))]
    pub(crate) fn len(&self) -> usize
        ensures { result ≡ length self.now.slots }
    {
        self.grid.len()
    }

    /// The number of the row in a slot.
    #[tactic(auto, using(crate::proofs::RowLaws::row_rules))]
    pub(crate) fn number(&self, slot: usize) -> u32
        requires { slot < length self.now.slots }
        ensures { result ≡ (slice_index_or self.now.slots slot no_history).number }
    {
        self.grid.number(slot)
    }

    /// Whether the row in a slot is live.
    #[tactic(auto, using(crate::proofs::RowLaws::row_rules))]
    pub(crate) fn stands(&self, slot: usize) -> bool
        requires { slot < length self.now.slots }
        ensures { result ≡ is_some (current_values (slice_index_or self.now.slots slot no_history).changes) }
    {
        self.grid.stands(slot)
    }

    /// A copy of the values that the row in a slot has now.
    #[tactic(auto, using(crate::proofs::RowLaws::row_rules))]
    pub(crate) fn copy_values(&self, alloc: Global, slot: usize) -> Result<Values, AllocError>
        requires within { slot < length self.now.slots }
        requires stands { IsSome (current_values (slice_index_or self.now.slots slot no_history).changes) }
        ensures { IfOk result (λ values. Some values
            ≡ current_values (slice_index_or self.now.slots slot no_history).changes) }
    {
        self.grid.copy_values(alloc, slot)
    }

    /// A copy of the values that the row in a slot had after a time; `None` if it wasn't live then.
    #[tactic(auto, using(crate::proofs::RowLaws::row_rules))]
    pub(crate) fn values_as_of(
        &self,
        alloc: Global,
        slot: usize,
        time: u32,
    ) -> Result<Option<Values>, AllocError>
        requires { slot < length self.now.slots }
        ensures { IfOk result (λ values. values
            ≡ as_of (slice_index_or self.now.slots slot no_history).changes time) }
    {
        if is_ended_by(self.log.end_at(slot), time) {
            return Ok(None);
        }
        if self.grid.since(slot) <= time {
            let copy = self.grid.copy_values(alloc, slot)?;
            return Ok(Some(copy));
        }
        earlier_values(&self.log, slot, time)
    }

    /// How often the row in a slot has changed.
    #[tactic(auto, using(crate::proofs::RowLaws::row_rules))]
    pub(crate) fn version(&self, slot: usize) -> u32
        requires { slot < length self.now.slots }
        ensures { result ≡ version (slice_index_or self.now.slots slot no_history).changes }
    {
        let earlier = self.log.count(slot);
        if self.grid.stands(slot) {
            earlier
        } else {
            earlier + 1
        }
    }

    /// The slot of the row with a number, found by bisection.
    pub(crate) fn find(&self, number: u32) -> Option<usize>
        ensures found { IfSome result (λ slot. (slot < length self.now.slots)
            × ((slice_index_or self.now.slots slot no_history).number ≡ number)) }
        ensures absent { result ≡ None → (k : ℕ) → k < length self.now.slots
            → (slice_index_or self.now.slots k no_history).number ≢ number }
    {
        self.grid.find(number)
    }

    /// Does nothing. Its contract tells the caller that the numbers are strictly increasing and below the
    /// next one.
    pub(crate) fn tell_order(&self)
        ensures order { AreInOrder self.now.slots self.now.next }
        ensures small { self.now.next < 2 ^ 32 }
    {
        self.grid.tell_order();
    }

    /// How the key of the live row in a slot compares to values.
    pub(crate) fn compare_key(&self, slot: usize, places: &Places, values: &Values) -> Ordering
        requires within { slot < length self.now.slots }
        requires stands { IsSome (current_values (slice_index_or self.now.slots slot no_history).changes) }
        ensures { Some result ≡ option_map (λ row. slice_cmp order (values_at places.now row) values.now)
            (current_values (slice_index_or self.now.slots slot no_history).changes) }
    {
        self.grid.compare_key(slot, places, values)
    }

    /// Sets the bits of the slots whose row is live and whose number in the column passes the comparison with
    /// the constant, and clears all others.
    pub(crate) fn scan(&self, column: usize, op: Cmp, constant: i64, mask: &mut [u64])
        requires column { slice_get self.now.kinds column ≡ Some false }
        requires mask { length mask.old ≡ (length self.now.slots + 63) / 64 }
        ensures { (n : ℕ) → member mask.new n ≡ option_map_or
            (λ row. passes_test op constant (slice_index_or row column Null))
            (current_values (slice_index_or self.now.slots n no_history).changes) false }
    {
        self.grid.scan(column, op, constant, mask);
    }

    /// Sets the bits of the slots whose row is live and has NULL in the column (if `is_null` is false:
    /// another value), and clears all others. A place past the last column has NULL.
    pub(crate) fn scan_nulls(&self, column: usize, is_null: bool, mask: &mut [u64])
        requires { length mask.old ≡ (length self.now.slots + 63) / 64 }
        ensures { (n : ℕ) → member mask.new n ≡ option_map_or
            (λ row. null_passes is_null (slice_index_or row column Null))
            (current_values (slice_index_or self.now.slots n no_history).changes) false }
    {
        self.grid.scan_nulls(column, is_null, mask);
    }

    /// The slots of live rows, as bits.
    pub(crate) fn standing_slots(&self) -> &[u64]
        ensures long { length result.now ≡ (length self.now.slots + 63) / 64 }
        ensures few { length self.now.slots < 2 ^ 32 }
        ensures members { (n : ℕ) → member result.now n
            ≡ is_some (current_values (slice_index_or self.now.slots n no_history).changes) }
    {
        let _len = self.grid.len();
        self.grid.tell_order();
        self.grid.standing_slots()
    }

    /// Raises the number of the next row.
    pub(crate) fn set_next(&mut self, next: u32)
        requires { self.old.next ≤ next }
        ensures { self.new ≡ record self.old { next = next } }
    {
        self.grid.set_next(next);
    }

    /// The number of the next row.
    pub(crate) fn next(&self) -> u32
        ensures { result ≡ self.now.next }
    {
        self.grid.next()
    }

    /// Adds rows at a time. On `AllocError` nothing has changed.
    pub(crate) fn push_all(&mut self, rows: TableRows, time: u32) -> Result<(), AllocError>
        requires numbered { AreNumberedFrom self.old.next rows }
        requires few { length rows < 2 ^ 32 }
        requires kinds { are_of_kinds self.old.kinds rows ≡ true }
        ensures ok { OnOk result (self.new
            ≡ record self.old {
              slots = self.old.slots ++ map (history_of_new_row time) rows;
              next = next_after self.old.next rows;
            }) }
        ensures err { OnErr result (self.new ≡ self.old) }
    {
        self.grid.push_all(rows, time)?;
        Ok(())
    }

    /// Gives live rows, each by its number, other values at a time later than that of each earlier change. On
    /// `AllocError` nothing has changed.
    pub(crate) fn rewrite_all(
        &mut self,
        alloc: Global,
        rows: TableRows,
        time: u32,
    ) -> Result<(), AllocError>
        requires before { AreBefore time self.old.slots }
        requires apart { RiseFrom 0 (map rewrite rows) }
        requires stand { AllStand self.old.slots (map rewrite rows) }
        requires fits { AllFitKinds self.old.kinds (map rewrite rows) }
        ensures ok { OnOk result (self.new ≡ record self.old {
          slots = map (changed_by (changes_given time (map rewrite rows))) self.old.slots;
        }) }
        ensures err { OnErr result (self.new ≡ self.old) }
    {
        self.grid.tell_order();
        let given = rewrites_of(alloc, &self.grid, rows)?;
        let slots = self.grid.len();
        let more = given.len();
        self.log.reserve(slots, more)?;
        rewrite_each(&mut self.grid, &mut self.log, given, time)?;
        Ok(())
    }

    /// Deletes live rows, each by its number, at a time later than that of each earlier change. On
    /// `AllocError` nothing has changed.
    pub(crate) fn delete_all(&mut self, numbers: &[u32], time: u32) -> Result<(), AllocError>
        requires before { AreBefore time self.old.slots }
        requires apart { RiseFrom 0 (map removal numbers.now) }
        requires stand { AllStand self.old.slots (map removal numbers.now) }
        ensures ok { OnOk result (self.new ≡ record self.old {
          slots = map (changed_by (changes_given time (map removal numbers.now))) self.old.slots;
        }) }
        ensures err { OnErr result (self.new ≡ self.old) }
    {
        self.grid.tell_order();
        let slots = self.grid.len();
        self.log.reserve_ends(slots)?;
        end_each(&mut self.grid, &mut self.log, numbers, time);
        Ok(())
    }
}

// Whether a row had ended by a time, by when it ended; 0: it stands.
fn is_ended_by(end: u32, time: u32) -> bool
    ensures { result ≡ is_ended end time }
{
    end != 0 && end <= time
}

// A copy of the values that the row in a slot had after a time, before its last ones.
fn earlier_values(log: &VersionLog, slot: usize, time: u32) -> Result<Option<Values>, AllocError>
    ensures { IfOk result (λ values. values ≡ as_of (past log.now.versions slot) time) }
{
    match log.values_by(slot, time) {
        None => Ok(None),
        Some(values) => {
            let copy = values.copy()?;
            Ok(Some(copy))
        }
    }
}
