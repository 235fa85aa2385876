//! The first statement that needs each row, from the events of a run.

ghost use Rattle.std.specs.Prelude.{◌≡◌, ◌&&◌, ◌%◌, ◌<◌, OnOk, IfOk, List as Items, ℕ, Option};
ghost use Rattle.std.specs.Prelude.{length, true};
ghost use Rattle.run_model.specs.Packing.{reason_at, reason_of_read};
ghost use Rattle.std.specs.Option.{option_or};
ghost use Rattle.ldv_value.specs.Options.{only_if};
ghost use Rattle.run_model.specs.Slice.{Reason, reason_in, act_reason, first_reason};
ghost use Rattle.lanes.specs.Sets.{member};
ghost use Rattle.slicer.specs.inner.Rows.{are_of_block, reason_due, has_row};

use crate::fresh::{fresh_rows, split_block};
use crate::row_set::{BLOCK_ROWS, RowSet, has_bit, has_row};
use ldv_value::List;
use run_model::{Act, Event, Reasons, Why, note_named};
use sql_model::Need;
use std::alloc::{AllocError, Global};

// Notes a row that a statement needs, if it isn't there.
fn note_need(
    alloc: Global,
    reasons: &mut Reasons,
    statement: u32,
    need: &Need,
) -> Result<(), AllocError>
    ensures { OnOk result ((table : Items ℕ) (row : ℕ) → reason_at reasons.new table row
        ≡ option_or (reason_at reasons.old table row) (reason_of_read statement need.now table row)) }
{
    let why = Why {
        statement,
        rule: need.rule,
    };
    note_named(alloc, reasons, &need.member.table, need.member.row, why)
}

fn is_noted(initial_rows: &RowSet, fresh: &List<u64>, need: &Need) -> bool
    ensures { result ≡ (member fresh.now (need.now.member.row % 4096)
        && has_row initial_rows.now need.now.member.table need.now.member.row) }
{
    has_bit(fresh, need.member.row % BLOCK_ROWS)
        && has_row(initial_rows, &need.member.table, need.member.row)
}

// Notes a row that a statement needs, if it is initial, and among the words of its block.
fn note_fresh(
    alloc: Global,
    reasons: &mut Reasons,
    initial_rows: &RowSet,
    fresh: &List<u64>,
    statement: u32,
    need: &Need,
) -> Result<(), AllocError>
    ensures { OnOk result ((table : Items ℕ) (row : ℕ) → reason_at reasons.new table row
        ≡ option_or (reason_at reasons.old table row)
        (only_if (member fresh.now (row % 4096) && has_row initial_rows.now table row)
        (reason_of_read statement need.now table row))) }
{
    if is_noted(initial_rows, fresh, need) {
        return note_need(alloc, reasons, statement, need);
    }
    Ok(())
}

fn note_all_fresh(
    alloc: Global,
    reasons: &mut Reasons,
    initial_rows: &RowSet,
    fresh: &List<u64>,
    statement: u32,
    needs: &[Need],
) -> Result<(), AllocError>
    ensures { OnOk result ((table : Items ℕ) (row : ℕ) → reason_at reasons.new table row
        ≡ option_or (reason_at reasons.old table row)
        (only_if (member fresh.now (row % 4096) && has_row initial_rows.now table row)
        (reason_in statement table row needs.now))) }
{
    for need in needs {
        note_fresh(alloc, reasons, initial_rows, fresh, statement, need)?;
    }
    Ok(())
}

// Notes the rows of one block that a statement is the first to need. Now they are needed.
fn note_block(
    alloc: Global,
    reasons: &mut Reasons,
    initial_rows: &RowSet,
    needed: &mut RowSet,
    statement: u32,
    needs: &[Need],
) -> Result<(), AllocError>
    requires { are_of_block needs.now ≡ true }
    ensures { OnOk result ((table : Items ℕ) (row : ℕ) (later : Option Reason)
        → reason_due reasons.new initial_rows.now needed.new table row later
        ≡ reason_due reasons.old initial_rows.now needed.old table row
        (option_or (reason_in statement table row needs.now) later)) }
{
    let fresh = fresh_rows(alloc, needed, needs)?;
    note_all_fresh(alloc, reasons, initial_rows, &fresh, statement, needs)
}

// Notes the rows of the block of the first read, and returns the reads of other blocks.
fn note_first_block<'a>(
    alloc: Global,
    reasons: &mut Reasons,
    initial_rows: &RowSet,
    needed: &mut RowSet,
    statement: u32,
    needs: &'a [Need],
) -> Result<&'a [Need], AllocError>
    ensures due { IfOk result (λ left. (table : Items ℕ) (row : ℕ) (later : Option Reason)
        → reason_due reasons.new initial_rows.now needed.new table row
        (option_or (reason_in statement table row left.now) later)
        ≡ reason_due reasons.old initial_rows.now needed.old table row
        (option_or (reason_in statement table row needs.now) later)) }
    ensures shorter { IfOk result (λ left. 0 < length needs.now → length left.now < length needs.now) }
{
    let (own, others) = split_block(needs);
    note_block(alloc, reasons, initial_rows, needed, statement, own)?;
    Ok(others)
}

fn note_reads(
    alloc: Global,
    reasons: &mut Reasons,
    initial_rows: &RowSet,
    needed: &mut RowSet,
    statement: u32,
    needs: &[Need],
) -> Result<(), AllocError>
    ensures { OnOk result ((table : Items ℕ) (row : ℕ) (later : Option Reason)
        → reason_due reasons.new initial_rows.now needed.new table row later
        ≡ reason_due reasons.old initial_rows.now needed.old table row
        (option_or (reason_in statement table row needs.now) later)) }
{
    let mut left = needs;
    while !left.is_empty() {
        left = note_first_block(alloc, reasons, initial_rows, needed, statement, left)?;
    }
    Ok(())
}

fn note_act(
    alloc: Global,
    reasons: &mut Reasons,
    initial_rows: &RowSet,
    needed: &mut RowSet,
    act: &Act,
) -> Result<(), AllocError>
    ensures { OnOk result ((table : Items ℕ) (row : ℕ) (later : Option Reason)
        → reason_due reasons.new initial_rows.now needed.new table row later
        ≡ reason_due reasons.old initial_rows.now needed.old table row
        (option_or (act_reason table row act.now) later)) }
{
    match act {
        Act::Asked {
            statement,
            tables: _,
            reads,
            made: _,
        } => note_reads(
            alloc,
            reasons,
            initial_rows,
            needed,
            *statement,
            reads.items(),
        ),
        _ => Ok(()),
    }
}

/// The first reason for each initial row. Rows that earlier statements needed are skipped in later ones, so
/// only the first reads of a row are looked up.
pub(crate) fn reasons_in(
    alloc: Global,
    events: &[Event],
    initial_rows: &RowSet,
) -> Result<Reasons, AllocError>
    ensures { IfOk result (λ reasons. (table : Items ℕ) (row : ℕ) → reason_at reasons table row
        ≡ only_if (has_row initial_rows.now table row) (first_reason table row events.now)) }
{
    let mut reasons = Reasons::new(alloc);
    let mut needed = RowSet::new(alloc);
    for event in events {
        note_act(alloc, &mut reasons, initial_rows, &mut needed, &event.act)?;
    }
    Ok(reasons)
}
