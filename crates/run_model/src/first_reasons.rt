//! The first statement that needs each row, by table and number.

ghost use Rattle.std.specs.Prelude.{◌≡◌, OnOk, OnErr, List as Items, ℕ, None};
ghost use Rattle.std.specs.BTreeMap.{get_by_text};
ghost use Rattle.run_model.specs.Packing.{reason_at, reason_of_named, reason_of_row, row_reason};
ghost use Rattle.std.specs.Option.{option_or};

use ldv_value::Utf8;
use sql_model::Rule;
use std::alloc::{AllocError, Global};
use std::collections::BTreeMap;

/// The statement that needs a row, and its rule.
#[derive(Clone, Copy)]
pub struct Why {
    pub statement: u32,
    pub rule: Rule,
}

/// The first reason for each row of a table, by number.
pub type RowReasons = BTreeMap<u32, Why>;

/// The first reason for each row, by table and number. A table's name is copied once.
pub type Reasons = BTreeMap<String, RowReasons>;

// Notes a row of a table, if it isn't there.
#[tactic(auto, using(crate::proofs::ReasonLaws::row_unchanged))]
fn note_row(rows: &mut RowReasons, row: u32, why: Why) -> Result<(), AllocError>
    ensures noted { OnOk result ((q : ℕ) → row_reason rows.new q
        ≡ option_or (row_reason rows.old q) (reason_of_row row why q)) }
    ensures err { OnErr result ((q : ℕ) → row_reason rows.new q ≡ row_reason rows.old q) }
{
    if rows.contains_key(&row) {
        return Ok(());
    }
    rows.insert(row, why)?;
    Ok(())
}

// Notes a row of a table of which none is there.
#[tactic(auto, using(crate::proofs::ReasonLaws::reasons_unchanged))]
fn note_table(
    alloc: Global,
    reasons: &mut Reasons,
    table: &Utf8,
    row: u32,
    why: Why,
) -> Result<(), AllocError>
    requires { get_by_text reasons.old table.now ≡ None }
    ensures noted { OnOk result ((t : Items ℕ) (n : ℕ) → reason_at reasons.new t n
        ≡ option_or (reason_at reasons.old t n) (reason_of_named table.now row why t n)) }
    ensures err { OnErr result ((t : Items ℕ) (n : ℕ)
        → reason_at reasons.new t n ≡ reason_at reasons.old t n) }
{
    let key = String::from_str(alloc, table.as_str())?;
    let mut rows = RowReasons::new(alloc);
    note_row(&mut rows, row, why)?;
    reasons.insert(key, rows)?;
    Ok(())
}

/// Notes why a row of a table is needed, if the row isn't there yet. The table's name is copied if it is the
/// first row of the table. `AllocError` means out of memory only, and then the reasons are as before.
pub fn note_named(
    alloc: Global,
    reasons: &mut Reasons,
    table: &Utf8,
    row: u32,
    why: Why,
) -> Result<(), AllocError>
    ensures noted { OnOk result ((t : Items ℕ) (n : ℕ) → reason_at reasons.new t n
        ≡ option_or (reason_at reasons.old t n) (reason_of_named table.now row why t n)) }
    ensures err { OnErr result ((t : Items ℕ) (n : ℕ)
        → reason_at reasons.new t n ≡ reason_at reasons.old t n) }
{
    match reasons.get_mut(table.as_str()) {
        Some(rows) => note_row(rows, row, why),
        None => note_table(alloc, reasons, table, row, why),
    }
}
