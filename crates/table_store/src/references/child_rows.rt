//! The search for the first row of a table that refers to one of some keys, by the index of its references.

ghost use Rattle.std.specs.Prelude.{◌≡◌, ◌==◌, ◌&&◌, ◌<◌, true, false, Some, IfOk, length, min, slice_index_or};
ghost use Rattle.std.specs.Prelude.{if◌then◌else◌};
ghost use Rattle.std.specs.List.{list_any};
ghost use Rattle.std.specs.Option.{option_map_or};
ghost use Rattle.sql_model.specs.Keys.{same_values};
ghost use Rattle.sql_model.specs.References.{reference};
ghost use Rattle.table_store.specs.inner.ChildPairs.{first_number, is_child, is_child_by, is_child_in};
ghost use Rattle.table_store.specs.inner.ChildPairs.{is_child_of, lower_of, no_foreign, refers};
ghost use Rattle.table_store.specs.inner.ChildSteps.{after, AreFrom, IsStep};
ghost use Rattle.table_store.specs.declared.references.child_rows.Search.TheVariants.{Ends};
ghost use Rattle.table_store.specs.Histories.{no_history, row_now, rows_now};
ghost use Rattle.table_store.specs.Stops.{are_sorted_numbers};

use crate::keys::given::is_given;
use crate::keys::index::key_of;
use crate::table::TableStore;
use ldv_value::Values;
use sql_model::{Foreign, RowKey, refers_to_none};
use std::alloc::{AllocError, Global};
use std::collections::BTreeSet;

/// The number of the first row that refers to one of some keys of the target and isn't among the given rows;
/// `None` if there is none. A table is passed over at once if no row of it refers to a key.
pub(crate) fn first_child_in(
    alloc: Global,
    table: &TableStore,
    target: &str,
    given: &[u32],
    keys: &BTreeSet<RowKey>,
) -> Result<Option<u32>, AllocError>
    requires { are_sorted_numbers given.now ≡ true }
    ensures { IfOk result (λ first. first
        ≡ first_number (is_child_in given.now target.now keys.now.keys table.now.schema.foreign)
        (rows_now table.now.slots)) }
{
    if table.has_no_reference() {
        return Ok(None);
    }
    let first = first_by_each(alloc, table, target, given, keys)?;
    Ok(first)
}

// The same, by one foreign key after the other.
fn first_by_each(
    alloc: Global,
    table: &TableStore,
    target: &str,
    given: &[u32],
    keys: &BTreeSet<RowKey>,
) -> Result<Option<u32>, AllocError>
    requires { are_sorted_numbers given.now ≡ true }
    ensures { IfOk result (λ first. first
        ≡ first_number (is_child_in given.now target.now keys.now.keys table.now.schema.foreign)
        (rows_now table.now.slots)) }
{
    table.tell_order();
    let foreigns = table.schema().foreign.items();
    let mut first = None;
    for place in 0..foreigns.len() {
        let found = first_by(alloc, table, place, &foreigns[place], target, given, keys)?;
        first = lower_of(first, found);
    }
    Ok(first)
}

// The lower of two numbers, either of which may be missing.
fn lower_of(first: Option<u32>, other: Option<u32>) -> Option<u32>
    ensures { result ≡ lower_of first other }
{
    match first {
        None => other,
        Some(number) => match other {
            None => Some(number),
            Some(second) => Some(least_of(number, second)),
        },
    }
}

// The lower of two numbers.
fn least_of(number: u32, other: u32) -> u32
    ensures { result ≡ min number other }
{
    if other < number { other } else { number }
}

// The number of the first such row by one foreign key, if its parent is the target.
fn first_by(
    alloc: Global,
    table: &TableStore,
    place: usize,
    foreign: &Foreign,
    target: &str,
    given: &[u32],
    keys: &BTreeSet<RowKey>,
) -> Result<Option<u32>, AllocError>
    requires sorted { are_sorted_numbers given.now ≡ true }
    requires within { place < length table.now.schema.foreign }
    requires there { foreign.now ≡ slice_index_or table.now.schema.foreign place no_foreign }
    ensures { IfOk result (λ first. first
        ≡ first_number (is_child_by given.now target.now keys.now.keys foreign.now)
        (rows_now table.now.slots)) }
{
    if !foreign.parent.is_text(target) {
        return Ok(None);
    }
    let first = first_of(alloc, table, place, foreign, given, keys)?;
    Ok(first)
}

// The number of the first such row by a foreign key whose parent is the target, under any of the keys.
fn first_of(
    alloc: Global,
    table: &TableStore,
    place: usize,
    foreign: &Foreign,
    given: &[u32],
    keys: &BTreeSet<RowKey>,
) -> Result<Option<u32>, AllocError>
    requires sorted { are_sorted_numbers given.now ≡ true }
    requires within { place < length table.now.schema.foreign }
    requires there { foreign.now ≡ slice_index_or table.now.schema.foreign place no_foreign }
    ensures { IfOk result (λ first. first
        ≡ first_number (is_child_of given.now foreign.now keys.now.keys) (rows_now table.now.slots)) }
{
    table.tell_order();
    let mut first = None;
    for key in keys.iter() {
        match first_under(alloc, table, place, foreign, given, key) {
            Ok(found) => first = lower_of(first, found),
            Err(refused) => return Err(refused),
        }
    }
    Ok(first)
}

// The number of the first such row by a foreign key under one key.
fn first_under(
    alloc: Global,
    table: &TableStore,
    place: usize,
    foreign: &Foreign,
    given: &[u32],
    key: &RowKey,
) -> Result<Option<u32>, AllocError>
    requires sorted { are_sorted_numbers given.now ≡ true }
    requires within { place < length table.now.schema.foreign }
    requires there { foreign.now ≡ slice_index_or table.now.schema.foreign place no_foreign }
    ensures { IfOk result (λ first. first
        ≡ first_number (is_child given.now foreign.now key.now.values) (rows_now table.now.slots)) }
{
    let mut from = 0;
    'numbers: loop {
        match step(alloc, table, place, foreign, given, key, from) {
            Err(refused) => return Err(refused),
            Ok(found) => match found {
                Search::Ends(first) => return Ok(first),
                Search::GoesOn(next) => from = next,
            },
        }
    }
}

// What comes of the next number under a key.
#[derive(Clone, Copy)]
enum Search {
    // The first row is known, or there is none.
    Ends(Option<u32>),
    // The first row, if there is one, has this number or a higher one.
    GoesOn(u32),
}

// Looks at the next row that may refer to a key.
fn step(
    alloc: Global,
    table: &TableStore,
    place: usize,
    foreign: &Foreign,
    given: &[u32],
    key: &RowKey,
    from: u32,
) -> Result<Search, AllocError>
    requires sorted { are_sorted_numbers given.now ≡ true }
    requires within { place < length table.now.schema.foreign }
    requires there { foreign.now ≡ slice_index_or table.now.schema.foreign place no_foreign }
    requires from { AreFrom (is_child given.now foreign.now key.now.values) (rows_now table.now.slots) from }
    ensures { IfOk result (IsStep (is_child given.now foreign.now key.now.values)
        (rows_now table.now.slots) from) }
{
    table.tell_order();
    table.tell_small();
    let found = table.referring_from(place, key, from)?;
    match found {
        None => Ok(Search::Ends(None)),
        Some(number) => {
            let search = search_at(alloc, table, foreign, given, key, number)?;
            Ok(search)
        }
    }
}

// Whether the row of a number is the one, or the walk goes on.
fn search_at(
    alloc: Global,
    table: &TableStore,
    foreign: &Foreign,
    given: &[u32],
    key: &RowKey,
    number: u32,
) -> Result<Search, AllocError>
    requires { are_sorted_numbers given.now ≡ true }
    ensures { IfOk result (λ search. search ≡ (if list_any
        (λ row. (row.number == number) && is_child given.now foreign.now key.now.values row)
        (rows_now table.now.slots) then Ends (Some number) else after number)) }
{
    let hit = is_child_at(alloc, table, foreign, given, key, number)?;
    if hit {
        return Ok(Search::Ends(Some(number)));
    }
    Ok(after(number))
}

// The search after a row that is passed over.
fn after(number: u32) -> Search
    ensures { result ≡ after number }
{
    if number == 4_294_967_295 {
        return Search::Ends(None);
    }
    Search::GoesOn(number + 1)
}

// Whether the row of a number stands, isn't given and refers to a key.
fn is_child_at(
    alloc: Global,
    table: &TableStore,
    foreign: &Foreign,
    given: &[u32],
    key: &RowKey,
    number: u32,
) -> Result<bool, AllocError>
    requires { are_sorted_numbers given.now ≡ true }
    ensures { IfOk result (λ is. is ≡ list_any
        (λ row. (row.number == number) && is_child given.now foreign.now key.now.values row)
        (rows_now table.now.slots)) }
{
    if is_given(given, number) {
        return Ok(false);
    }
    let refers = refers_at(alloc, table, foreign, key, number)?;
    Ok(refers)
}

// Whether the row of a number stands and refers to a key.
fn refers_at(
    alloc: Global,
    table: &TableStore,
    foreign: &Foreign,
    key: &RowKey,
    number: u32,
) -> Result<bool, AllocError>
    ensures { IfOk result (λ is. is ≡ list_any
        (λ row. (row.number == number) && refers foreign.now key.now.values row)
        (rows_now table.now.slots)) }
{
    table.tell_order();
    match table.slot_of(number) {
        None => Ok(false),
        Some(slot) => {
            let refers = refers_in(alloc, table, foreign, key, slot)?;
            Ok(refers)
        }
    }
}

// Whether the row in a slot stands and refers to a key.
fn refers_in(
    alloc: Global,
    table: &TableStore,
    foreign: &Foreign,
    key: &RowKey,
    slot: u64,
) -> Result<bool, AllocError>
    ensures { IfOk result (λ is. is ≡ option_map_or (refers foreign.now key.now.values)
        (row_now (slice_index_or table.now.slots slot no_history)) false) }
{
    match table.slot_row(slot) {
        None => Ok(false),
        Some(_number) => {
            let values = table.row_values(slot)?;
            let refers = refers_by(alloc, foreign, key, &values)?;
            Ok(refers)
        }
    }
}

// Whether values refer to a key.
fn refers_by(
    alloc: Global,
    foreign: &Foreign,
    key: &RowKey,
    values: &Values,
) -> Result<bool, AllocError>
    ensures { IfOk result (λ is. is
        ≡ option_map_or (λ own. same_values own key.now.values) (reference foreign.now values.now) false) }
{
    if refers_to_none(foreign, values) {
        return Ok(false);
    }
    let own = key_of(alloc, &foreign.columns, values)?;
    Ok(own.cmp(key).is_eq())
}
