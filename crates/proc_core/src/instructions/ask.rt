//! The statement that the next step of a process asks, and how its reply changes the process.

ghost use Rattle.std.specs.Prelude.{◌≡◌, ◌+◌, ◌<◌, ◌^◌, Some, length, slice_get, slice_set};
ghost use Rattle.std.specs.Prelude.{IfOk, OnOk, OnSome};
ghost use Rattle.std.specs.Option.{option_map};
ghost use Rattle.proc_core.specs.inner.Slots.{slot_values, slot_with_cursor};
ghost use Rattle.proc_core.specs.inner.SlotAsk.{slot_ask, slot_ask_in, slot_ask_at, slot_replied};
ghost use Rattle.proc_core.specs.inner.SlotAsk.{text_statement};
ghost use Rattle.proc_core.specs.inner.SlotStep.{HasRoom};
ghost use Rattle.proc_core.specs.declared.process.SlotProcess.{SlotProcess};

use crate::instructions::variables::value_of;
use crate::machine::{Codes, Machine, next_in};
use crate::process::{SlotCursor, SlotProcess};
use ldv_value::{Utf8, Value, Values};
use script_code::{SlotInstr, SlotOperands};
use sql_model::Reply;
use std::alloc::{AllocError, Global};

/// A statement that a process asks: its text, its parameters, and the slot of the cursor for its reply.
#[derive(Drop)]
pub(crate) struct Statement {
    pub cursor: usize,
    pub text: Utf8,
    pub params: Values,
}

/// The values that operands have.
pub(crate) fn values_of(
    alloc: Global,
    process: &SlotProcess,
    operands: &SlotOperands,
) -> Result<Values, AllocError>
    ensures { IfOk result (λ values. values ≡ slot_values process.now operands.now) }
{
    let mut values = Values::with_capacity(alloc, operands.len())?;
    for operand in operands.items() {
        values.push(value_of(alloc, process, operand)?)?;
    }
    Ok(values)
}

// The statement, where the value of its text is a text.
fn text_statement(cursor: usize, text: Value, params: Values) -> Option<Statement>
    ensures { result ≡ text_statement cursor text params }
{
    match text {
        Value::Null => None,
        Value::Int(_) => None,
        Value::Text(text) => Some(Statement {
            cursor,
            text,
            params,
        }),
    }
}

fn statement_of_instr(
    alloc: Global,
    instr: Option<&SlotInstr>,
    process: &SlotProcess,
) -> Result<Option<Statement>, AllocError>
    requires { OnSome instr (process.now.place + 1 < 2 ^ 64) }
    ensures asked { IfOk result (λ asked. asked
        ≡ slot_ask (option_map (λ i. i.now) instr.entry) process.now) }
    ensures room { IfOk result (λ asked. OnSome asked (process.now.place + 1 < 2 ^ 64)) }
{
    match instr {
        Some(
            SlotInstr::Sql {
                cursor,
                text,
                params,
            },
        ) => {
            let text = value_of(alloc, process, text)?;
            let params = values_of(alloc, process, params)?;
            Ok(text_statement(*cursor, text, params))
        }
        Some(SlotInstr::Own(_)) => Ok(None),
        Some(SlotInstr::OnFiles(_)) => Ok(None),
        Some(
            SlotInstr::Spawn {
                child: _,
                path: _,
                arguments: _,
                place: _,
            },
        ) => Ok(None),
        Some(SlotInstr::Wait { to: _, child: _ }) => Ok(None),
        None => Ok(None),
    }
}

fn statement_of_process(
    alloc: Global,
    codes: &Codes,
    process: &SlotProcess,
) -> Result<Option<Statement>, AllocError>
    ensures asked { IfOk result (λ asked. asked ≡ slot_ask_in codes.now (Some process.now)) }
    ensures room { IfOk result (λ asked. OnSome asked (process.now.place + 1 < 2 ^ 64)) }
{
    statement_of_instr(alloc, next_in(codes, process), process)
}

/// The statement that the next step of a process asks, if it asks one.
pub(crate) fn statement_at(
    machine: &Machine,
    number: usize,
) -> Result<Option<Statement>, AllocError>
    ensures asked { IfOk result (λ asked. asked ≡ slot_ask_at machine.now number) }
    ensures room { IfOk result (λ asked. OnSome asked
        (HasRoom (slice_get machine.now.processes.items number))) }
{
    match machine.processes.get(number) {
        None => Ok(None),
        Some(process) => statement_of_process(machine.alloc, &machine.codes, process),
    }
}

// Gives a process the reply to its statement: the cursor means it, before its first row.
fn take_reply(cursor: usize, reply: Reply, process: &mut SlotProcess) -> Result<(), AllocError>
    requires { process.old.place + 1 < 2 ^ 64 }
    ensures { OnOk result (process.new ≡ slot_replied cursor reply process.old) }
{
    let index = process.replies.len();
    process.replies.push(reply)?;
    set_cursor(
        cursor,
        SlotCursor {
            reply: index,
            fetched: 0,
        },
        process,
    );
    process.go_on();
    Ok(())
}

/// Sets the cursor in a slot.
pub(crate) fn set_cursor(slot: usize, cursor: SlotCursor, process: &mut SlotProcess)
    ensures { process.new ≡ slot_with_cursor slot cursor process.old }
{
    if slot < process.cursors.len() {
        process.cursors.replace(slot, Some(cursor));
    }
}

/// Gives the process of a number the reply to its statement.
pub(crate) fn take_reply_at(
    cursor: usize,
    reply: Reply,
    number: usize,
    processes: &mut Vec<SlotProcess>,
) -> Result<(), AllocError>
    requires within { number < length processes.old.items }
    requires room { HasRoom (slice_get processes.old.items number) }
    ensures { OnOk result ((r : SlotProcess) → slice_get processes.old.items number ≡ Some r
        → processes.new.items ≡ slice_set processes.old.items number (slot_replied cursor reply r)) }
{
    let process = &mut processes[number];
    take_reply(cursor, reply, process)
}
