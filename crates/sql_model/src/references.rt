//! References of rows to rows of parents, in n log n steps. No key is copied.

ghost use Rattle.std.specs.Prelude.{◌≡◌, List, [], ◌∷◌, None, IfOk, not, ◌&&◌, ◌||◌, filter};
ghost use Rattle.std.specs.BTreeSet.{contains_by};
ghost use Rattle.std.specs.List.{list_all, list_any};
ghost use Rattle.sql_model.specs.Keys.{values_at};
ghost use Rattle.ldv_value.specs.Order.{values_order};
ghost use Rattle.sql_model.specs.inner.KeySets.{hold_in, holds_by, names, refers_among, same_foreign};
ghost use Rattle.sql_model.specs.inner.KeySets.{table_holds_in};
ghost use Rattle.sql_model.specs.Meaning.{is_null};
ghost use Rattle.sql_model.specs.References.{all_have_parents, has_key, has_parent};
ghost use Rattle.sql_model.specs.References.{references_hold};
ghost use Rattle.ldv_value.specs.Cells.{value_at};
ghost use Rattle.sql_model.specs.Types.{Value, Table as Seen};

use crate::table::{Foreign, Table, TableRow, TableRows, Tables};
use crate::truths::is_null;
use crate::unique::{KeyOf, value_or};
use ldv_value::{Places, Utf8, Value, Values};
use std::alloc::{AllocError, Global};
use std::collections::BTreeSet;
use std::marker::Model;

/// Whether the parent has a row with each key that a row refers to. `AllocError` means only that memory ran
/// out.
#[tactic(auto, using(crate::proofs::ReferringRows::all_hold))]
pub fn references_hold(alloc: Global, tables: &Tables) -> Result<bool, AllocError>
    ensures { IfOk result (λ holds. holds ≡ references_hold tables.now) }
{
    let referring = referring_rows(alloc, tables)?;
    hold_among(alloc, tables.items(), referring)
}

// A foreign key, and rows of its table.
#[derive(Drop)]
struct Referring<'a> {
    foreign: &'a Foreign,
    rows: &'a TableRows,
}

impl<'a> Model for Referring<'a> {
    ghost use Rattle.sql_model.specs.inner.KeySets.{Referring as Seen};

    ghost Value = { Seen };

    ghost view = { λ r. record { foreign = r.foreign.now; rows = r.rows.now } };
}

impl<'a> Referring<'a> {
    // Whether the foreign key names a table.
    fn names(&self, parent: &Table) -> bool
        ensures { result ≡ names parent.now self.now }
    {
        parent.name == self.foreign.parent
    }

    // Whether each row that refers lacks no parent, which some keys are those of.
    fn is_among(&self, keys: &BTreeSet<KeyOf<'a>>) -> bool
        ensures { result ≡ list_all (refers_among keys.now self.now.foreign) self.now.rows }
    {
        are_among(keys, self.foreign, self.rows)
    }
}

// The foreign keys by which some row refers to a key. One that its table has several times is there once.
fn referring_rows<'a>(alloc: Global, tables: &'a Tables) -> Result<Vec<Referring<'a>>, AllocError>
    ensures { IfOk result (λ found. (parents : List Seen)
        → list_all (hold_in parents) found.items ≡ list_all (table_holds_in parents) tables.now) }
{
    let mut found = Vec::new(alloc);
    for table in tables.items() {
        add_referring(&mut found, table)?;
    }
    Ok(found)
}

fn add_referring<'a>(found: &mut Vec<Referring<'a>>, table: &'a Table) -> Result<(), AllocError>
    ensures { IfOk result (λ none. (parents : List Seen)
        → list_all (hold_in parents) found.new.items
        ≡ (list_all (hold_in parents) found.old.items && table_holds_in parents table.now)) }
{
    let mut left = table.schema.foreign.items();
    while let [foreign, others @ ..] = left {
        add_last(found, foreign, others, &table.rows)?;
        left = others;
    }
    Ok(())
}

// Adds a foreign key of a table, unless it is left out.
#[tactic(auto, using(crate::proofs::ReferringRows::last_added, crate::proofs::ReferringRows::none_added))]
fn add_last<'a>(
    found: &mut Vec<Referring<'a>>,
    foreign: &'a Foreign,
    others: &[Foreign],
    rows: &'a TableRows,
) -> Result<(), AllocError>
    ensures { IfOk result (λ none. (parents : List Seen)
        → (list_all (hold_in parents) found.new.items
        && list_all (all_have_parents parents rows.now) others.now)
        ≡ (list_all (hold_in parents) found.old.items
        && list_all (all_have_parents parents rows.now) (foreign.now ∷ others.now))) }
{
    if is_left_out(foreign, others, rows) {
        return Ok(());
    }
    found.push(Referring { foreign, rows })?;
    Ok(())
}

// Whether the same foreign key is among those after it, or no row refers by it.
fn is_left_out(foreign: &Foreign, others: &[Foreign], rows: &TableRows) -> bool
    ensures { result ≡ (list_any (same_foreign foreign.now) others.now
        || list_all (has_parent None foreign.now) rows.now) }
{
    is_one_of(foreign, others) || refer_to_none(foreign, rows)
}

fn is_one_of(foreign: &Foreign, others: &[Foreign]) -> bool
    ensures { result ≡ list_any (same_foreign foreign.now) others.now }
{
    others.iter().any(|other| is_same(foreign, other))
}

fn is_same(foreign: &Foreign, other: &Foreign) -> bool
    ensures { result ≡ same_foreign foreign.now other.now }
{
    foreign.columns == other.columns && foreign.parent == other.parent
}

// Whether no row lacks its parent among some tables. Of each table the keys are gathered once at most.
fn hold_among<'a>(
    alloc: Global,
    parents: &'a [Table],
    referring: Vec<Referring<'a>>,
) -> Result<bool, AllocError>
    ensures { IfOk result (λ holds. holds ≡ list_all (hold_in parents.now) referring.entry.items) }
{
    let mut left = referring;
    let mut rest = parents;
    while let [parent, others @ ..] = rest {
        if !judge(alloc, parent, &mut left)? {
            return Ok(false);
        }
        rest = others;
    }
    Ok(have_none(left.as_slice()))
}

// Judges those that refer to a table, and leaves the others where none of them lacks its parent.
#[tactic(auto, using(crate::proofs::ReferringRows::first_parent))]
fn judge<'a>(
    alloc: Global,
    parent: &'a Table,
    left: &mut Vec<Referring<'a>>,
) -> Result<bool, AllocError>
    ensures { IfOk result (λ holds. (parents : List Seen)
        → list_all (hold_in (parent.now ∷ parents)) left.old.items
        ≡ (holds && list_all (hold_in parents) left.new.items)) }
{
    if !hold_by(alloc, parent, left.as_slice())? {
        return Ok(false);
    }
    leave_others(left, parent);
    Ok(true)
}

// Leaves those that refer to other tables.
fn leave_others<'a>(left: &mut Vec<Referring<'a>>, parent: &Table)
    ensures { left.new.items ≡ filter (λ r. not (names parent.now r)) left.old.items }
{
    left.retain(|r| !r.names(parent));
}

fn have_none<'a>(left: &[Referring<'a>]) -> bool
    ensures { result ≡ list_all (hold_in []) left.now }
{
    left.iter().all(|r| refer_to_none(r.foreign, r.rows))
}

// Whether none of those that refer to a table lacks its parent.
#[tactic(auto, using(crate::proofs::ReferringRows::none_named))]
fn hold_by<'a>(
    alloc: Global,
    parent: &'a Table,
    referring: &[Referring<'a>],
) -> Result<bool, AllocError>
    ensures { IfOk result (λ holds. holds ≡ list_all (holds_by parent.now) referring.now) }
{
    if !is_named(parent, referring) {
        return Ok(true);
    }
    let keys = keys_of(alloc, &parent.schema.key, &parent.rows)?;
    Ok(are_all_among(&keys, parent, referring))
}

fn is_named<'a>(parent: &Table, referring: &[Referring<'a>]) -> bool
    ensures { result ≡ list_any (names parent.now) referring.now }
{
    referring.iter().any(|r| r.names(parent))
}

fn are_all_among<'a>(
    keys: &BTreeSet<KeyOf<'a>>,
    parent: &Table,
    referring: &[Referring<'a>],
) -> bool
    ensures { result ≡ list_all
        (λ r. not (names parent.now r) || list_all (refers_among keys.now r.foreign) r.rows) referring.now }
{
    for r in referring {
        if r.names(parent) && !r.is_among(keys) {
            return false;
        }
    }
    true
}

// Whether each row refers to no key.
fn refer_to_none(foreign: &Foreign, rows: &TableRows) -> bool
    ensures { result ≡ list_all (has_parent None foreign.now) rows.now }
{
    rows.items()
        .iter()
        .all(|row| refers_to_none(foreign, &row.values))
}

fn are_among<'a>(keys: &BTreeSet<KeyOf<'a>>, foreign: &'a Foreign, rows: &'a TableRows) -> bool
    ensures { result ≡ list_all (refers_among keys.now foreign.now) rows.now }
{
    for row in rows.items() {
        if !refers_among(keys, foreign, row) {
            return false;
        }
    }
    true
}

// The keys of rows.
fn keys_of<'a>(
    alloc: Global,
    key: &'a Places,
    rows: &'a TableRows,
) -> Result<BTreeSet<KeyOf<'a>>, AllocError>
    ensures { IfOk result (λ keys. (wanted : List Value)
        → contains_by (values_order wanted) keys ≡ list_any (has_key key.now wanted) rows.now) }
{
    let mut keys = BTreeSet::new(alloc);
    for row in rows.items() {
        keys.insert(KeyOf::of(&row.values, key))?;
    }
    Ok(keys)
}

// Whether a row refers to no key, or to one of some keys.
fn refers_among<'a>(keys: &BTreeSet<KeyOf<'a>>, foreign: &'a Foreign, row: &'a TableRow) -> bool
    ensures { result ≡ refers_among keys.now foreign.now row.now }
{
    refers_to_none(foreign, &row.values) || keys.contains(&KeyOf::of(&row.values, &foreign.columns))
}

/// Whether a row refers to no key, since one of its values in the foreign key's columns is NULL.
pub fn refers_to_none(foreign: &Foreign, values: &Values) -> bool
    ensures { result ≡ list_any is_null (values_at foreign.now.columns values.now) }
{
    is_null_at_some(values, foreign.columns.items())
}

fn is_null_at_some(values: &Values, places: &[usize]) -> bool
    ensures { result ≡ list_any (λ place. is_null (value_at values.now place)) places.now }
{
    places.iter().any(|place| is_null_at(values, *place))
}

fn is_null_at(values: &Values, place: usize) -> bool
    ensures { result ≡ is_null (value_at values.now place) }
{
    let null = Value::Null;
    is_null(value_or(values, place, &null))
}
