//! The tables that a statement asks: those that it names and those of the rows that it needs, with their
//! parents.

ghost use Rattle.std.specs.Prelude.{◌≡◌, ◌+◌, ◌<◌, ◌≤◌, List as Items, [], ℕ, Bool, length, map, filter};
ghost use Rattle.std.specs.Prelude.{slice_index_or};
ghost use Rattle.sql_engine.specs.inner.Listing.{tables_asked};
ghost use Rattle.sql_engine.specs.inner.Taking.{is_taken, AreDistinct, IsFresh, InPlace};

use crate::marks::{Mark, TableMarks, is_taken, mark_all_parents, mark_needed};
use ldv_value::{List, Names, Utf8};
use sql_model::{Catalog, Need, Statement};

// Keeps the name at a place behind those that are kept, where it is taken; how many are kept then.
fn keep_at(items: &mut Vec<Utf8>, kept: usize, place: usize, taken: bool) -> usize
    requires within { place < length items.old.items }
    requires behind { kept ≤ place }
    ensures few { result ≤ place + 1 }
    ensures long { length items.new.items ≡ length items.old.items }
    ensures kept { (test : Items ℕ → Bool) (all : Items (Items ℕ))
        → InPlace test all items.old.items kept place
        → test (slice_index_or items.old.items place []) ≡ taken
        → InPlace test all items.new.items result (place + 1) }
{
    if !taken {
        return kept;
    }
    items.swap(kept, place);
    kept + 1
}

// The names whose marks say that they are taken.
fn taken_names(names: Names, marks: &[Mark]) -> Names
    requires { length names ≡ length marks.now }
    ensures { (test : Items ℕ → Bool) → map test names ≡ map is_taken marks.now
        → result ≡ filter test names }
{
    let mut items = names.into_vec();
    let mut kept = 0;
    for place in 0..marks.len() {
        kept = keep_at(&mut items, kept, place, is_taken(marks[place]));
    }
    items.truncate(kept);
    List::of_vec(items)
}

/// The tables that a statement asks, sorted. The rows that it needs are known here, and no memory is taken.
pub(crate) fn tables_asked(
    taking: TableMarks,
    statement: &Statement,
    reads: &[Need],
    catalog: &Catalog,
) -> Names
    requires fresh { IsFresh statement.now catalog.now.names taking }
    requires paired { length catalog.now.names ≡ length catalog.now.schemas }
    requires distinct { AreDistinct catalog.now.names }
    ensures { result ≡ tables_asked statement.now reads.now catalog.now }
{
    let TableMarks { names, marks } = taking;
    let mut taken = marks;
    mark_needed(catalog.names.items(), &mut taken, reads);
    mark_all_parents(catalog, &mut taken);
    let made = taken_names(names, taken.as_slice());
    made
}
