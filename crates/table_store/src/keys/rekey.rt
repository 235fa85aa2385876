//! The keys of rows after given rows have replaced some of them.

ghost use Rattle.std.specs.Prelude.{◌≡◌, ◌==◌, ℕ, ◌+◌, ◌^◌, ◌<◌, ◌≤◌, Bool, true, false, List, [], ◌∷◌, ◌++◌};
ghost use Rattle.std.specs.Prelude.{Option, Some, None, find, OnOk, OnErr, IfOk, IfErr, IsSome, length};
ghost use Rattle.std.specs.Prelude.{map, take, slice_get, Err};
ghost use Rattle.std.specs.List.{AllByRecursion, list_all, list_any};
ghost use Rattle.std.specs.Option.{option_map};
ghost use Rattle.sql_model.specs.Changes.{clash_after, clash_by};
ghost use Rattle.table_store.specs.Claims.{both_stop, KeepsKey};
ghost use Rattle.table_store.specs.GivenKeys.{with_claims, keeper, AreJudged, TakeOver};
ghost use Rattle.table_store.specs.Histories.{rows_now};
ghost use Rattle.table_store.specs.IndexView.{held_in};
ghost use Rattle.table_store.specs.KeyIndex.{HeldKeys, AreHeld, AreIndexed};
ghost use Rattle.table_store.specs.Stops.{are_sorted_rows, replaced_by, StopsAs};

use crate::error::StoreStop;
use crate::keys::clash::{Clash, earlier_clash, first_clash};
use crate::keys::index::{Index, has_key_at, held_number, key_of};
use crate::rows::Rows;
use ldv_value::Places;
use sql_model::{RowKey, TableRow};
use std::alloc::{AllocError, Global};

/// The entries that the index needs after given rows have replaced those with their numbers: the number of
/// each given row under its key, or none if each of them keeps its key. `KeyTaken` comes if two rows would
/// have one key. The call only looks at the given rows and at rows that have one of their keys.
pub(crate) fn claims_of(
    alloc: Global,
    index: &Index,
    stored: &Rows,
    places: &Places,
    given: &[TableRow],
) -> Result<Index, StoreStop>
    requires sorted { are_sorted_rows given.now ≡ true }
    requires stand { list_all (λ row. list_any (λ old. old.number == row.number)
        (rows_now stored.now.slots)) given.now ≡ true }
    requires indexed { AreIndexed places.now (λ key. held_in index.now key)
        (rows_now stored.now.slots) }
    ensures ok { IfOk result (λ claims. TakeOver places.now (rows_now stored.now.slots)
        (map (replaced_by given.now) (rows_now stored.now.slots)) (λ key. held_in claims key)) }
    ensures stop { StopsAs (both_stop places.now
        (clash_by places.now (map (replaced_by given.now) (rows_now stored.now.slots)))) result }
{
    if places.is_empty() {
        return Ok(Index::new(alloc));
    }
    stored.tell_order();
    let keep = keep_keys(alloc, stored, places, given)?;
    if keep {
        return Ok(Index::new(alloc));
    }
    claim_keys(alloc, index, stored, places, given)
}

// Whether each given row has the key of the row of its number.
fn keep_keys(
    alloc: Global,
    stored: &Rows,
    places: &Places,
    given: &[TableRow],
) -> Result<bool, AllocError>
    ensures { IfOk result (λ keep. keep ≡ true
        → AllByRecursion (KeepsKey places.now (rows_now stored.now.slots)) given.now) }
{
    for row in given {
        let keeps = keeps_key(alloc, stored, places, row)?;
        if !keeps {
            return Ok(false);
        }
    }
    Ok(true)
}

// Whether a given row has the key of the row of its number.
fn keeps_key(
    alloc: Global,
    stored: &Rows,
    places: &Places,
    row: &TableRow,
) -> Result<bool, AllocError>
    ensures { IfOk result (λ keeps. keeps ≡ true → KeepsKey places.now (rows_now stored.now.slots) row.now) }
{
    let key = key_of(alloc, places, &row.values)?;
    Ok(has_key_at(stored, places, &key.values, row.number as u64))
}

// The numbers of the given rows under their keys, where there is a key.
fn claim_keys(
    alloc: Global,
    index: &Index,
    stored: &Rows,
    places: &Places,
    given: &[TableRow],
) -> Result<Index, StoreStop>
    requires sorted { are_sorted_rows given.now ≡ true }
    requires stand { list_all (λ row. list_any (λ old. old.number == row.number)
        (rows_now stored.now.slots)) given.now ≡ true }
    requires held { AreHeld places.now (λ key. held_in index.now key) (rows_now stored.now.slots) }
    ensures ok { IfOk result (λ claims. (held : HeldKeys)
        → AreHeld places.now held (rows_now stored.now.slots)
        → AreHeld places.now (with_claims (λ key. held_in claims key) held)
        (map (replaced_by given.now) (rows_now stored.now.slots))) }
    ensures stop { StopsAs (both_stop places.now
        (clash_after places.now [] (map (replaced_by given.now) (rows_now stored.now.slots)))) result }
{
    stored.tell_order();
    let mut claims = Index::new(alloc);
    let mut first = None;
    for place in 0..given.len() {
        match claim_next(
            alloc,
            &mut claims,
            first,
            index,
            stored,
            places,
            given,
            place,
        ) {
            Ok(next) => first = next,
            Err(stop) => return Err(stop),
        }
    }
    match first {
        None => Ok(claims),
        Some(clash) => Err(clash.into_stop()),
    }
}

// Claims the key of one more given row, and returns the first clash so far of a given row and one that keeps
// its key. KeyTaken: an earlier given row has the key. As later given rows clash later, the first clash is
// known then.
fn claim_next(
    alloc: Global,
    claims: &mut Index,
    first: Option<Clash>,
    index: &Index,
    stored: &Rows,
    places: &Places,
    given: &[TableRow],
    place: usize,
) -> Result<Option<Clash>, StoreStop>
    requires within { place < length given.now }
    requires sorted { are_sorted_rows given.now ≡ true }
    requires stand { list_all (λ row. list_any (λ old. old.number == row.number)
        (rows_now stored.now.slots)) given.now ≡ true }
    requires held { AreHeld places.now (λ key. held_in index.now key) (rows_now stored.now.slots) }
    requires judged { AreJudged places.now (rows_now stored.now.slots) given.now
        (λ key. held_in claims.old key) first (take place given.now) }
    ensures ok { IfOk result (λ next. AreJudged places.now (rows_now stored.now.slots) given.now
        (λ key. held_in claims.new key) next (take (place + 1) given.now)) }
    ensures stop { IfErr result (λ stop. StopsAs {X = Unit {0}} (both_stop places.now
        (clash_after places.now [] (map (replaced_by given.now) (rows_now stored.now.slots)))) (Err stop)) }
{
    stored.tell_order();
    let row = &given[place];
    let key = key_of(alloc, places, &row.values)?;
    match claims.number(&key) {
        Some(earlier) => Err(earlier_clash(
            first,
            Clash {
                earlier,
                later: row.number,
                key: key.values,
            },
        )
        .into_stop()),
        None => {
            let kept = keeper(index, stored, places, given, &key);
            let next = first_clash(first, kept, row.number, &key.values)?;
            claims.put(key, row.number)?;
            Ok(next)
        }
    }
}

// The number of the row that has a key and isn't given, so that it keeps the key.
fn keeper(
    index: &Index,
    stored: &Rows,
    places: &Places,
    given: &[TableRow],
    key: &RowKey,
) -> Option<u32>
    requires sorted { are_sorted_rows given.now ≡ true }
    requires held { AreHeld places.now (λ key. held_in index.now key) (rows_now stored.now.slots) }
    ensures { result ≡ keeper places.now (rows_now stored.now.slots) given.now key.now.values }
{
    match held_number(index, stored, places, key) {
        None => None,
        Some(number) => match given_row(given, number) {
            None => Some(number),
            Some(_given) => None,
        },
    }
}

// The given row of a number, found by bisection.
fn given_row(given: &[TableRow], number: u32) -> Option<&TableRow>
    requires { are_sorted_rows given.now ≡ true }
    ensures { option_map (λ row. row.now) result ≡ find (λ new. new.number == number) given.now }
{
    let place = given.partition_point(|row| row.number < number);
    match row_at(given, place) {
        None => None,
        Some(row) => {
            if row.number == number {
                Some(row)
            } else {
                None
            }
        }
    }
}

// The row at a place.
fn row_at(given: &[TableRow], place: usize) -> Option<&TableRow>
    ensures { option_map (λ row. row.now) result ≡ slice_get given.now place }
{
    given.get(place)
}
