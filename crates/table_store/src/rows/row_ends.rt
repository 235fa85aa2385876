//! Rows that are deleted. Nothing is copied, and no memory is taken.

ghost use Rattle.std.specs.Prelude.{◌≡◌, ℕ, ◌<◌, ◌≤◌, [], ◌∷◌, length, map};
ghost use Rattle.table_store.specs.Histories.{changed_by};
ghost use Rattle.table_store.specs.inner.Past.{past, end_in};
ghost use Rattle.table_store.specs.inner.RowHistories.{AreKept, histories_of};
ghost use Rattle.table_store.specs.inner.RowChanges.{changes_given, removal, AllOpen, HasOpenSlot};
ghost use Rattle.table_store.specs.inner.RowChanges.{EndsRow, RiseFrom};

use crate::rows::grid::Grid;
use crate::rows::version_log::VersionLog;

/// Deletes rows, each by its number, at a time. `VersionLog::reserve_ends` has made the places.
pub(crate) fn end_each(grid: &mut Grid, log: &mut VersionLog, numbers: &[u32], time: u32)
    requires kept { AreKept (λ k. past log.old.versions k) (λ k. end_in log.old.ends k) grid.old.slots }
    requires apart { RiseFrom 0 (map removal numbers.now) }
    requires ready { AllOpen (λ k. past log.old.versions k) (λ k. end_in log.old.ends k) grid.old.slots
        numbers.now }
    requires later { 0 < length numbers.now → 0 < time }
    requires covered { length grid.old.slots ≤ length log.old.ends }
    ensures kept { AreKept (λ k. past log.new.versions k) (λ k. end_in log.new.ends k) grid.new.slots }
    ensures seen { histories_of (λ k. past log.new.versions k) (λ k. end_in log.new.ends k) grid.new.slots
        ≡ map (changed_by (changes_given time (map removal numbers.now)))
        (histories_of (λ k. past log.old.versions k) (λ k. end_in log.old.ends k) grid.old.slots) }
    ensures kinds { grid.new.kinds ≡ grid.old.kinds }
    ensures next { grid.new.next ≡ grid.old.next }
{
    for number in numbers {
        end_row(grid, log, *number, time);
    }
}

// Deletes the row with a number.
fn end_row(grid: &mut Grid, log: &mut VersionLog, number: u32, time: u32)
    requires kept { AreKept (λ k. past log.old.versions k) (λ k. end_in log.old.ends k) grid.old.slots }
    requires ready { HasOpenSlot (λ k. past log.old.versions k) (λ k. end_in log.old.ends k) grid.old.slots
        number }
    requires later { 0 < time }
    requires covered { length grid.old.slots ≤ length log.old.ends }
    ensures row { EndsRow time number
        (λ k. past log.old.versions k) (λ k. end_in log.old.ends k) grid.old
        (λ k. past log.new.versions k) (λ k. end_in log.new.ends k) grid.new }
    ensures covered { length log.new.ends ≡ length log.old.ends }
{
    grid.tell_order();
    match grid.find(number) {
        None => unreachable!(),
        Some(slot) => {
            log.end(slot, time);
            grid.clear(slot);
        }
    }
}
