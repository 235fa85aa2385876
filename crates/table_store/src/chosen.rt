//! The slots of a table whose rows pass tests.

ghost use Rattle.std.specs.Prelude.{◌≡◌, ◌&&◌, ℕ, ◌+◌, ◌*◌, ◌/◌, ◌^◌, ◌<◌, IfOk, length, slice_index_or, true};
ghost use Rattle.std.specs.List.{list_all};
ghost use Rattle.lanes.specs.Sets.{member};
ghost use Rattle.sql_model.specs.ColumnTests.{fits};
ghost use Rattle.table_store.specs.CellTests.{AllFitColumns, slot_tested, slot_chosen};
ghost use Rattle.table_store.specs.Histories.{no_history};

use crate::table::TableStore;
use lanes::and_into;
use sql_model::{CellTest, ColumnTest};
use std::alloc::{AllocError, Global};

impl TableStore {
    /// The slots whose row is live now and passes each test, as bits: a word for each 64 slots, rounded up.
    /// The tests compare only columns of INT.
    #[tactic(auto, using(crate::proofs::ChosenLaws::chosen_is))]
    pub fn choose_slots(&self, alloc: Global, tests: &[ColumnTest]) -> Result<Vec<u64>, AllocError>
        requires { AllFitColumns self.now.schema.columns tests.now }
        ensures long { IfOk result (λ words. length words.items ≡ (length self.now.slots + 63) / 64) }
        ensures few { IfOk result (λ words. length words.items < 2 ^ 57) }
        ensures members { IfOk result (λ words. (n : ℕ) → member words.items n
            ≡ slot_chosen tests.now (slice_index_or self.now.slots n no_history)) }
    {
        let mut words = Vec::from_slice(alloc, self.standing_slots())?;
        let mut scanned = vec![in alloc; 0u64; words.len()]?;
        keep_passing(self, tests, words.as_mut_slice(), scanned.as_mut_slice());
        Ok(words)
    }
}

// Keeps of some slots those whose row passes each test. The second words are for the scans.
#[tactic(auto, using(crate::proofs::ChosenLaws::kept_step))]
fn keep_passing(table: &TableStore, tests: &[ColumnTest], words: &mut [u64], scanned: &mut [u64])
    requires fit { AllFitColumns table.now.schema.columns tests.now }
    requires long { length words.old ≡ (length table.now.slots + 63) / 64 }
    requires same { length scanned.old ≡ length words.old }
    ensures { (n : ℕ) → member words.new n ≡ (member words.old n
        && list_all (λ test. slot_tested test (slice_index_or table.now.slots n no_history)) tests.now) }
{
    let mut left = tests;
    'tests: while let [test, others @ ..] = left {
        scan_by(table, test.column, test.test, scanned);
        and_into(words, scanned);
        left = others;
    }
}

// Sets the bits of just the slots whose row passes a test of a column.
#[tactic(auto, using(crate::proofs::ChosenLaws::compare_fits))]
fn scan_by(table: &TableStore, column: usize, test: CellTest, words: &mut [u64])
    requires fit { fits table.now.schema.columns (record { column = column; test = test }) ≡ true }
    requires long { length words.old ≡ (length table.now.slots + 63) / 64 }
    ensures { (n : ℕ) → member words.new n ≡ slot_tested (record { column = column; test = test })
        (slice_index_or table.now.slots n no_history) }
{
    match test {
        CellTest::Compare { op, constant } => table.scan(column as u64, op, constant, words),
        CellTest::IsNull => table.scan_nulls(column as u64, true, words),
        CellTest::IsNotNull => table.scan_nulls(column as u64, false, words),
    }
}
