//! `fetch`, `count`, `status` and `close`.

ghost use Rattle.std.specs.Prelude.{◌≡◌, ◌+◌, ◌<◌, ◌^◌, ℕ, pos, None, Some, MatchOption, IfOk, OnOk, OnSome};
ghost use Rattle.std.specs.Prelude.{slice_get};
ghost use Rattle.std.specs.Option.{option_map, option_and_then};
ghost use Rattle.run_model.specs.StepBase.{number_within};
ghost use Rattle.run_model.specs.StepReplies.{row_count, status_value, count_in, code_in, rows_in};
ghost use Rattle.proc_core.specs.inner.Slots.{computation_of, cursor_of};
ghost use Rattle.proc_core.specs.Stands.{cursor_at};
ghost use Rattle.proc_core.specs.inner.SlotReplies.{slot_close, slot_fetch, slot_fetch_from, slot_take_row};
ghost use Rattle.proc_core.specs.inner.SlotReplies.{slot_next_row, slot_with_values, slot_one_more};
ghost use Rattle.proc_core.specs.inner.SlotReplies.{slot_count};
ghost use Rattle.proc_core.specs.inner.SlotReplies.{slot_status};

use crate::instructions::ask::set_cursor;
use crate::instructions::computed::{Computed, NUMBER_TOO_LARGE, WRONG_KIND};
use crate::instructions::variables::assign;
use crate::process::{SlotCursor, SlotProcess};
use ldv_value::{Value, Values};
use script_code::Slots;
use sql_model::Reply;
use std::alloc::AllocError;

/// `close f`
pub(crate) fn close(slot: usize, process: &mut SlotProcess)
    requires { process.old.place + 1 < 2 ^ 64 }
    ensures { process.new ≡ slot_close slot process.old }
{
    if process.files.get(slot).is_none() {
        process.end(WRONG_KIND);
    } else {
        process.files.set(slot, None);
        process.go_on();
    }
}

fn cursor_of(process: &SlotProcess, slot: usize) -> Option<SlotCursor>
    ensures { result ≡ cursor_of slot process.now }
{
    match process.cursors.get(slot) {
        None => None,
        Some(cursor) => *cursor,
    }
}

// A row of a reply. Only a query has rows.
fn row_at(reply: &Reply, place: usize) -> Option<&Values>
    ensures row { option_map (λ row. row.now) result ≡ slice_get (rows_in reply.now) place }
    ensures room { OnSome result (place + 1 < 2 ^ 64) }
{
    match reply {
        Reply::Rows(rows) => rows.get(place),
        Reply::Changed(_) => None,
        Reply::Refused(_) => None,
    }
}

// A copy of the next row of a cursor.
fn next_row(process: &SlotProcess, cursor: SlotCursor) -> Result<Option<Values>, AllocError>
    ensures row { IfOk result (λ row. row ≡ slot_next_row cursor process.now) }
    ensures room { IfOk result (λ row. OnSome row (cursor.fetched + 1 < 2 ^ 64)) }
{
    match process.replies.get(cursor.reply) {
        None => Ok(None),
        Some(reply) => match row_at(reply, cursor.fetched) {
            None => Ok(None),
            Some(row) => Ok(Some(row.copy()?)),
        },
    }
}

// Gives the variables the values, in order.
#[tactic(auto, using(crate::proofs::FetchedValues::value_steps))]
fn set_values(to: &[usize], row: Values, process: &mut SlotProcess) -> Result<(), AllocError>
    ensures { OnOk result (process.new ≡ slot_with_values to.now row process.old) }
{
    let mut left = row.into_vec();
    left.reverse();
    let mut slots = to;
    while let [slot, others @ ..] = slots {
        match left.pop() {
            None => return Ok(()),
            Some(value) => {
                process.set_variable(*slot, value)?;
                slots = others;
            }
        }
    }
    Ok(())
}

// Counts one more fetched row.
fn one_more(slot: usize, cursor: SlotCursor, process: &mut SlotProcess)
    requires { cursor.fetched + 1 < 2 ^ 64 }
    ensures { process.new ≡ slot_one_more slot cursor process.old }
{
    set_cursor(
        slot,
        SlotCursor {
            reply: cursor.reply,
            fetched: cursor.fetched + 1,
        },
        process,
    );
}

// Gives the variables the values of a row and goes on, or ends by misuse where these aren't as many.
fn take_row(
    row: Values,
    cursor: SlotCursor,
    slot: usize,
    to: &Slots,
    process: &mut SlotProcess,
) -> Result<(), AllocError>
    requires room { process.old.place + 1 < 2 ^ 64 }
    requires more { cursor.fetched + 1 < 2 ^ 64 }
    ensures { OnOk result (process.new ≡ slot_take_row row cursor slot to.now process.old) }
{
    if row.len() == to.len() {
        one_more(slot, cursor, process);
        set_values(to.items(), row, process)?;
        process.go_on();
    } else {
        process.end(WRONG_KIND);
    }
    Ok(())
}

// Fetches the next row, or goes on at the label where none is left.
fn fetch_from(
    cursor: SlotCursor,
    slot: usize,
    to: &Slots,
    place: usize,
    process: &mut SlotProcess,
) -> Result<(), AllocError>
    requires { process.old.place + 1 < 2 ^ 64 }
    ensures { OnOk result (process.new ≡ slot_fetch_from (Some cursor) slot to.now place process.old) }
{
    match next_row(process, cursor)? {
        None => process.go_to(place),
        Some(row) => take_row(row, cursor, slot, to, process)?,
    }
    Ok(())
}

/// `fetch c x x* else L`
pub(crate) fn fetch(
    slot: usize,
    to: &Slots,
    place: usize,
    process: &mut SlotProcess,
) -> Result<(), AllocError>
    requires { process.old.place + 1 < 2 ^ 64 }
    ensures { OnOk result (process.new ≡ slot_fetch slot to.now place process.old) }
{
    match cursor_of(process, slot) {
        None => {
            process.end(WRONG_KIND);
            Ok(())
        }
        Some(cursor) => fetch_from(cursor, slot, to, place, process),
    }
}

// The number of all rows of a reply, or of changed rows, or 0.
fn count_in(reply: &Reply) -> Computed
    ensures { computation_of result ≡ number_within (pos (count_in reply.now)) }
{
    match reply {
        Reply::Rows(rows) => number(rows.len() as u64),
        Reply::Changed(count) => number(*count),
        Reply::Refused(_) => number(0),
    }
}

fn number(count: u64) -> Computed
    ensures { computation_of result ≡ number_within (pos count) }
{
    match i64::try_from(count) {
        Ok(number) => Computed::Yields(Value::Int(number)),
        Err(_) => Computed::Misused(NUMBER_TOO_LARGE),
    }
}

// 0, or the code of a refusal.
fn code_in(reply: &Reply) -> i64
    ensures { result ≡ pos (code_in reply.now) }
{
    match reply {
        Reply::Rows(_) => 0,
        Reply::Changed(_) => 0,
        Reply::Refused(refusal) => i64::from(refusal.code()),
    }
}

// The reply that a cursor means.
fn reply_of(process: &SlotProcess, slot: usize) -> Option<&Reply>
    ensures { MatchOption result
        (option_and_then (cursor_at process.now.replies) (cursor_of slot process.now) ≡ None)
        (λ reply. (n : ℕ) × (option_and_then (cursor_at process.now.replies) (cursor_of slot process.now)
        ≡ Some (record { reply = reply.now; fetched = n }))) }
{
    match cursor_of(process, slot) {
        None => None,
        Some(cursor) => process.replies.get(cursor.reply),
    }
}

/// `count x c`
pub(crate) fn count(to: usize, slot: usize, process: &mut SlotProcess) -> Result<(), AllocError>
    requires { process.old.place + 1 < 2 ^ 64 }
    ensures { OnOk result (process.new ≡ slot_count to slot process.old) }
{
    assign(to, row_count(process, slot), process)?;
    Ok(())
}

fn row_count(process: &SlotProcess, slot: usize) -> Computed
    ensures { computation_of result ≡ row_count (option_and_then (cursor_at process.now.replies)
        (cursor_of slot process.now)) }
{
    match reply_of(process, slot) {
        None => Computed::Misused(WRONG_KIND),
        Some(reply) => count_in(reply),
    }
}

/// `status x c`
pub(crate) fn status(to: usize, slot: usize, process: &mut SlotProcess) -> Result<(), AllocError>
    requires { process.old.place + 1 < 2 ^ 64 }
    ensures { OnOk result (process.new ≡ slot_status to slot process.old) }
{
    assign(to, status_value(process, slot), process)?;
    Ok(())
}

fn status_value(process: &SlotProcess, slot: usize) -> Computed
    ensures { computation_of result ≡ status_value (option_and_then (cursor_at process.now.replies)
        (cursor_of slot process.now)) }
{
    match reply_of(process, slot) {
        None => Computed::Misused(WRONG_KIND),
        Some(reply) => Computed::Yields(Value::Int(code_in(reply))),
    }
}
