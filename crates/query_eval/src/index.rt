//! The slots of a source by the values of columns.

ghost use Rattle.std.specs.Prelude.{◌≡◌, ◌++◌, ◌∷◌, [], true, List as Items, ℕ, IfOk, OnOk};
ghost use Rattle.std.specs.Prelude.{option_and_then, unwrap_or};
ghost use Rattle.std.specs.Option.{option_map, option_map_or};
ghost use Rattle.query_eval.specs.inner.Joining.{non_null, known_values, key_of, TieValues};
ghost use Rattle.query_eval.specs.inner.Joining.{values_before, values_here};
ghost use Rattle.query_eval.specs.inner.Asked.{is_asked, IsIndex};
ghost use Rattle.query_eval.specs.inner.Slots.{row_at, values_at, slot_added, slots_listed, slots_with};
ghost use Rattle.ldv_value.specs.Cells.{value_at};

use crate::asked::{AskedKeys, is_asked};
use crate::probe::Probe;
use crate::slot_row::{value_in, value_of};
use crate::source::{Source, SourceRow};
use ldv_value::{Key, List, Refs, RefsBy, Value};
use std::alloc::{AllocError, Global};

/// Values, as parts of a key.
pub(crate) type Keys<'a> = List<Key<'a, Value>>;
/// The value of a row in one column, and those in others. A key of one column takes no memory of its own.
pub(crate) type TieKey<'a> = (Key<'a, Value>, Keys<'a>);

type SlotsByKey<'a> = RefsBy<'a, TieKey<'a>, u32>;

/// The slots of rows by the values of these in some columns. Those of the same values are in their order. A
/// row with NULL in one of these columns isn't there.
#[derive(Drop)]
pub(crate) struct Index<'a> {
    map: SlotsByKey<'a>,
}

// A value, unless it is NULL.
fn non_null(value: &Value) -> Option<&Value>
    ensures { option_map (λ v. v.now) result ≡ non_null value.now }
{
    match value {
        Value::Null => None,
        Value::Int(_) => Some(value),
        Value::Text(_) => Some(value),
    }
}

// The value in a column of the row in a slot, unless it is NULL.
#[tactic(auto, using(crate::proofs::TieKeys::known_missing))]
fn known_in<'a>(rows: &'a [SourceRow], slot: u32, column: usize) -> Option<&'a Value>
    ensures { option_map (λ v. v.now) result ≡ non_null (value_at (row_at rows.now slot).values column) }
{
    match value_in(rows, slot, column) {
        None => None,
        Some(value) => non_null(value),
    }
}

// The values of the row in a slot in the columns of ties, unless one is NULL.
#[tactic(auto, using(crate::proofs::TieKeys::known_onto_none))]
fn known_here<'a>(
    alloc: Global,
    rows: &'a [SourceRow],
    slot: u32,
    ties: &[Probe],
) -> Result<Option<Keys<'a>>, AllocError>
    ensures { IfOk result (λ found. found
        ≡ known_values (values_here ties.now (row_at rows.now slot).values)) }
{
    let mut values = List::new(alloc);
    for tie in ties {
        match known_in(rows, slot, tie.place) {
            None => return Ok(None),
            Some(value) => values.push(Key::of(value))?,
        }
    }
    Ok(Some(values))
}

// A key of a first value and of others.
fn key_with<'a>(first: Option<&'a Value>, others: Option<Keys<'a>>) -> Option<TieKey<'a>>
    ensures { result ≡ option_and_then (λ v. option_map (λ vs. (v, vs)) others.entry)
        (option_map (λ v. v.now) first.entry) }
{
    match first {
        None => None,
        Some(value) => match others {
            None => None,
            Some(values) => Some((Key::of(value), values)),
        },
    }
}

// The key of the row in a slot, unless a value of it is NULL. Without ties there is none.
fn key_here<'a>(
    alloc: Global,
    rows: &'a [SourceRow],
    slot: u32,
    ties: &[Probe],
) -> Result<Option<TieKey<'a>>, AllocError>
    ensures { IfOk result (λ key. key ≡ key_of (values_here ties.now (row_at rows.now slot).values)) }
{
    match ties {
        [] => Ok(None),
        [first, others @ ..] => {
            let values = known_here(alloc, rows, slot, others)?;
            Ok(key_with(known_in(rows, slot, first.place), values))
        }
    }
}

// Adds a slot under a key, if that is asked for.
fn add_asked<'a>(
    map: &mut SlotsByKey<'a>,
    key: TieKey<'a>,
    slot: &'a u32,
    asked: &Option<AskedKeys<'a>>,
) -> Result<(), AllocError>
    ensures { OnOk result ((other : TieValues) → is_asked asked.now other ≡ true
        → slots_listed map.new other ≡ slot_added key.entry slot.now other (slots_listed map.old other)) }
{
    if is_asked(asked, &key) {
        map.add(key, slot)
    } else {
        Ok(())
    }
}

// Adds a slot under the key of its row, if there is one that is asked for.
fn add_known<'a>(
    alloc: Global,
    map: &mut SlotsByKey<'a>,
    rows: &'a [SourceRow],
    slot: &'a u32,
    ties: &[Probe],
    asked: &Option<AskedKeys<'a>>,
) -> Result<(), AllocError>
    ensures { OnOk result ((key : TieValues) → is_asked asked.now key ≡ true → (rest : Items ℕ)
        → slots_listed map.new key ++ slots_with ties.now (key.0 ∷ key.1) rows.now rest
        ≡ slots_listed map.old key ++ slots_with ties.now (key.0 ∷ key.1) rows.now (slot.now ∷ rest)) }
{
    let own = key_here(alloc, rows, *slot, ties)?;
    match own {
        None => Ok(()),
        Some(key) => add_asked(map, key, slot, asked),
    }
}

/// The index of slots by the columns of ties. It has all slots of each key that is asked for.
pub(crate) fn index_of<'a>(
    alloc: Global,
    rows: &'a [SourceRow],
    slots: &'a [u32],
    ties: &[Probe],
    asked: &Option<AskedKeys<'a>>,
) -> Result<Index<'a>, AllocError>
    ensures { IfOk result (λ index. IsIndex asked.now index.map ties.now rows.now slots.now) }
{
    let mut map = RefsBy::new(alloc);
    for slot in slots {
        add_known(alloc, &mut map, rows, slot, ties, asked)?;
    }
    Ok(Index { map })
}

// The value at a place of the joined row in some slots, unless it is NULL.
#[tactic(auto, using(crate::proofs::TieKeys::known_missing))]
fn known_of<'a>(sources: &'a [Source], slots: &[u32], place: usize) -> Option<&'a Value>
    ensures { option_map (λ v. v.now) result ≡ non_null (value_at (values_at sources.now slots.now) place) }
{
    match value_of(sources, slots, None, place) {
        None => None,
        Some(value) => non_null(value),
    }
}

// The values of the joined row in some slots that ties compare, unless one is NULL.
#[tactic(auto, using(crate::proofs::TieKeys::known_onto_none))]
fn known_before<'a>(
    alloc: Global,
    sources: &'a [Source],
    slots: &[u32],
    ties: &[Probe],
) -> Result<Option<Keys<'a>>, AllocError>
    ensures { IfOk result (λ found. found
        ≡ known_values (values_before ties.now (values_at sources.now slots.now))) }
{
    let mut values = List::new(alloc);
    for tie in ties {
        match known_of(sources, slots, tie.from) {
            None => return Ok(None),
            Some(value) => values.push(Key::of(value))?,
        }
    }
    Ok(Some(values))
}

/// The key by which the joined row in some slots looks slots up, unless a value of it is NULL. Without ties
/// there is none.
pub(crate) fn key_before<'a>(
    alloc: Global,
    sources: &'a [Source],
    slots: &[u32],
    ties: &[Probe],
) -> Result<Option<TieKey<'a>>, AllocError>
    ensures { IfOk result (λ key. key ≡ key_of (values_before ties.now (values_at sources.now slots.now))) }
{
    match ties {
        [] => Ok(None),
        [first, others @ ..] => {
            let values = known_before(alloc, sources, slots, others)?;
            Ok(key_with(known_of(sources, slots, first.from), values))
        }
    }
}

/// The slots under a key; `None` if there is none.
pub(crate) fn slots_under<'b, 'a>(
    index: &'b Index<'a>,
    key: Option<TieKey<'a>>,
) -> Option<&'b Refs<'a, u32>>
    ensures { unwrap_or (option_map (λ r. r.now) result) []
        ≡ option_map_or (slots_listed index.now.map) key.entry [] }
{
    match key {
        None => None,
        Some(key) => index.map.get(&key),
    }
}
