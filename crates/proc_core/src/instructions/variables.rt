//! `let`, `if`, `goto`, `print` and `exit`: they change their own process only.

ghost use Rattle.std.specs.Prelude.{◌≡◌, ◌+◌, ◌++◌, ◌^◌, ◌<◌, nat_lt, slice_get, IfOk, OnOk};
ghost use Rattle.std.specs.List.{flat_map};
ghost use Rattle.ldv_value.specs.Limits.{printed_limit};
ghost use Rattle.ldv_value.specs.Order.{order, meets};
ghost use Rattle.ldv_value.specs.Shown.{value_text};
ghost use Rattle.sql_model.specs.Meaning.{or_null};
ghost use Rattle.proc_core.specs.Types.{Int};
ghost use Rattle.run_model.specs.StepVariables.{calculation, concatenation, to_number, printed_line};
ghost use Rattle.run_model.specs.StepVariables.{exit_status};
ghost use Rattle.proc_core.specs.inner.Slots.{slot_value, slot_values, slot_assign, computation_of};
ghost use Rattle.proc_core.specs.inner.SlotVariables.{slot_let, slot_calculate, slot_glue, slot_let_number};
ghost use Rattle.proc_core.specs.inner.SlotVariables.{slot_jump_if, slot_jump_where, slot_print};
ghost use Rattle.proc_core.specs.inner.SlotVariables.{slot_print_line};
ghost use Rattle.proc_core.specs.inner.SlotVariables.{slot_exit};

use crate::instructions::computed::{
    Computed, TOO_LONG, WRONG_KIND, calculate_values, concatenate, to_number,
};
use crate::process::SlotProcess;
use ldv_value::{Bytes, Cmp, CopyItem, PRINTED_LIMIT, Value, append_text, holds};
use script_code::{SlotOperand, SlotOperands};
use script_parse::CalcOp;
use std::alloc::{AllocError, Global};

// The bytes for which a line has room at first.
const LINE_ROOM: usize = 128;

/// The value in the slot of a variable; if there is no such slot, the caller's NULL.
#[inline(always)]
pub(crate) fn variable_at<'a>(process: &'a SlotProcess, slot: usize, null: &'a Value) -> &'a Value
    requires { null.now ≡ Value.Null }
    ensures { result.now ≡ or_null (slice_get process.now.variables slot) }
{
    process.variables.get(slot, null)
}

/// The value that an operand has. The NULL is lent to `variable_at`.
#[inline(always)]
pub(crate) fn value_at<'a>(
    process: &'a SlotProcess,
    operand: &'a SlotOperand,
    null: &'a Value,
) -> &'a Value
    requires { null.now ≡ Value.Null }
    ensures { result.now ≡ slot_value process.now operand.now }
{
    match operand {
        SlotOperand::Constant(value) => value,
        SlotOperand::Slot(slot) => variable_at(process, *slot, null),
    }
}

/// A copy of the value that an operand has.
pub(crate) fn value_of(
    alloc: Global,
    process: &SlotProcess,
    operand: &SlotOperand,
) -> Result<Value, AllocError>
    ensures { IfOk result (λ value. value ≡ slot_value process.now operand.now) }
{
    let null = Value::Null;
    value_at(process, operand, &null).copy_item(alloc)
}

/// Gives a variable a computed value and goes on, or ends by misuse.
#[inline(always)]
pub(crate) fn assign(
    to: usize,
    value: Computed,
    process: &mut SlotProcess,
) -> Result<(), AllocError>
    requires { process.old.place + 1 < 2 ^ 64 }
    ensures { OnOk result (process.new ≡ slot_assign to (computation_of value) process.old) }
{
    match value {
        Computed::Yields(value) => {
            process.set_variable(to, value)?;
            process.go_on();
        }
        Computed::Misused(status) => process.end(status),
    }
    Ok(())
}

/// `let x = v`
pub(crate) fn let_value(
    alloc: Global,
    to: usize,
    value: &SlotOperand,
    process: &mut SlotProcess,
) -> Result<(), AllocError>
    requires { process.old.place + 1 < 2 ^ 64 }
    ensures { OnOk result (process.new ≡ slot_let to value.now process.old) }
{
    let value = value_of(alloc, process, value)?;
    assign(to, Computed::Yields(value), process)?;
    Ok(())
}

// What `+`, `-` or `*` gives.
fn calculation_of(
    op: CalcOp,
    left: &SlotOperand,
    right: &SlotOperand,
    process: &SlotProcess,
) -> Computed
    ensures { computation_of result
        ≡ calculation op (slot_value process.now left.now) (slot_value process.now right.now) }
{
    let null = Value::Null;
    calculate_values(
        op,
        value_at(process, left, &null),
        value_at(process, right, &null),
    )
}

/// `let x = v + w`, also `-` and `*`
pub(crate) fn calculate(
    to: usize,
    op: CalcOp,
    left: &SlotOperand,
    right: &SlotOperand,
    process: &mut SlotProcess,
) -> Result<(), AllocError>
    requires { process.old.place + 1 < 2 ^ 64 }
    ensures { OnOk result (process.new ≡ slot_calculate to op left.now right.now process.old) }
{
    let value = calculation_of(op, left, right, process);
    assign(to, value, process)?;
    Ok(())
}

// What `++` gives.
fn text_of(
    alloc: Global,
    left: &SlotOperand,
    right: &SlotOperand,
    process: &SlotProcess,
) -> Result<Computed, AllocError>
    ensures { IfOk result (λ c. computation_of c
        ≡ concatenation (slot_value process.now left.now) (slot_value process.now right.now)) }
{
    let null = Value::Null;
    concatenate(
        alloc,
        value_at(process, left, &null),
        value_at(process, right, &null),
    )
}

/// `let x = v ++ w`
pub(crate) fn glue(
    alloc: Global,
    to: usize,
    left: &SlotOperand,
    right: &SlotOperand,
    process: &mut SlotProcess,
) -> Result<(), AllocError>
    requires { process.old.place + 1 < 2 ^ 64 }
    ensures { OnOk result (process.new ≡ slot_glue to left.now right.now process.old) }
{
    let value = text_of(alloc, left, right, process)?;
    assign(to, value, process)?;
    Ok(())
}

// What `int` gives.
fn number_of(value: &SlotOperand, process: &SlotProcess) -> Computed
    ensures { computation_of result ≡ to_number (slot_value process.now value.now) }
{
    let null = Value::Null;
    to_number(value_at(process, value, &null))
}

/// `let x = int v`
pub(crate) fn let_number(
    to: usize,
    value: &SlotOperand,
    process: &mut SlotProcess,
) -> Result<(), AllocError>
    requires { process.old.place + 1 < 2 ^ 64 }
    ensures { OnOk result (process.new ≡ slot_let_number to value.now process.old) }
{
    let number = number_of(value, process);
    assign(to, number, process)?;
    Ok(())
}

#[inline(always)]
fn jump_where(jumps: bool, place: usize, process: &mut SlotProcess)
    requires { process.old.place + 1 < 2 ^ 64 }
    ensures { process.new ≡ slot_jump_where jumps place process.old }
{
    if jumps {
        process.go_to(place);
    } else {
        process.go_on();
    }
}

// Whether a comparison holds.
fn holds_at(op: Cmp, left: &SlotOperand, right: &SlotOperand, process: &SlotProcess) -> bool
    ensures { result
        ≡ meets op (order (slot_value process.now left.now) (slot_value process.now right.now)) }
{
    let null = Value::Null;
    holds(
        op,
        value_at(process, left, &null),
        value_at(process, right, &null),
    )
}

/// `if v = w goto L`, and the other comparisons
pub(crate) fn jump_if(
    op: Cmp,
    left: &SlotOperand,
    right: &SlotOperand,
    place: usize,
    process: &mut SlotProcess,
)
    requires { process.old.place + 1 < 2 ^ 64 }
    ensures { process.new ≡ slot_jump_if op left.now right.now place process.old }
{
    let jumps = holds_at(op, left, right, process);
    jump_where(jumps, place, process);
}

// Appends the value of an operand as text.
fn append_operand(
    process: &SlotProcess,
    operand: &SlotOperand,
    to: &mut Bytes,
) -> Result<(), AllocError>
    ensures { OnOk result (to.new ≡ to.old ++ value_text (slot_value process.now operand.now)) }
{
    let null = Value::Null;
    append_text(value_at(process, operand, &null), to)
}

fn append_operands(
    process: &SlotProcess,
    operands: &SlotOperands,
    to: &mut Bytes,
) -> Result<(), AllocError>
    ensures { OnOk result (to.new ≡ to.old ++ flat_map value_text (slot_values process.now operands.now)) }
{
    for operand in operands.items() {
        append_operand(process, operand, to)?;
    }
    Ok(())
}

/// The line that shows the values of operands, with its LF.
pub(crate) fn line_of(
    alloc: Global,
    process: &SlotProcess,
    operands: &SlotOperands,
) -> Result<Bytes, AllocError>
    ensures { IfOk result (λ line. line ≡ printed_line (slot_values process.now operands.now)) }
{
    let mut line = Bytes::with_capacity(alloc, LINE_ROOM)?;
    append_operands(process, operands, &mut line)?;
    line.extend(b"\n")?;
    Ok(line)
}

// Whether printing `more` bytes would take a process past the limit.
fn passes_limit(printed: usize, more: usize) -> bool
    ensures { result ≡ nat_lt printed_limit (printed + more) }
{
    printed > PRINTED_LIMIT || more > PRINTED_LIMIT - printed
}

// Prints a line and goes on, or ends by misuse where that is too much.
fn print_line(line: &Bytes, process: &mut SlotProcess) -> Result<(), AllocError>
    requires { process.old.place + 1 < 2 ^ 64 }
    ensures { OnOk result (process.new ≡ slot_print_line line.now process.old) }
{
    if passes_limit(process.printed.len(), line.len()) {
        process.end(TOO_LONG);
        return Ok(());
    }
    process.printed.extend(line.as_slice())?;
    process.go_on();
    Ok(())
}

/// `print v v*`
pub(crate) fn print(
    alloc: Global,
    operands: &SlotOperands,
    process: &mut SlotProcess,
) -> Result<(), AllocError>
    requires { process.old.place + 1 < 2 ^ 64 }
    ensures { OnOk result (process.new ≡ slot_print operands.now process.old) }
{
    let line = line_of(alloc, process, operands)?;
    print_line(&line, process)
}

fn exit_status(value: &Value) -> u8
    ensures { result ≡ exit_status value.now }
{
    match value {
        Value::Null => WRONG_KIND,
        Value::Int(number) => status_of(*number),
        Value::Text(_) => WRONG_KIND,
    }
}

fn status_of(number: i64) -> u8
    ensures { result ≡ exit_status (Int number) }
{
    if number >= 0 && number < 256 {
        number as u8
    } else {
        WRONG_KIND
    }
}

// The status that an operand means.
fn status_at(status: &SlotOperand, process: &SlotProcess) -> u8
    ensures { result ≡ exit_status (slot_value process.now status.now) }
{
    let null = Value::Null;
    exit_status(value_at(process, status, &null))
}

/// `exit v`
pub(crate) fn exit(status: &SlotOperand, process: &mut SlotProcess)
    ensures { process.new ≡ slot_exit status.now process.old }
{
    let code = status_at(status, process);
    process.end(code);
}
