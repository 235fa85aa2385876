//! A process before its first step: its slots, with the arguments in the variables of their names.

ghost use Rattle.std.specs.Prelude.{◌≡◌, ◌+◌, ◌<◌, ◌∷◌, None, IfOk, OnOk, List as Items, drop, length, map};
ghost use Rattle.std.specs.Prelude.{replicate};
ghost use Rattle.proc_core.specs.Types.{Instr, Value};
ghost use Rattle.run_model.specs.Core.{NameBinding, argument_name, arguments_from, argument_variables};
ghost use Rattle.run_model.specs.Core.{new_process};
ghost use Rattle.proc_core.specs.Stands.{value_held, Holds};

use crate::file_slots::FileSlots;
use crate::process::SlotProcess;
use crate::variable_slots::VariableSlots;
use itoa::Buffer;
use ldv_value::{Bytes, CopyItem, List, Parts, Utf8, Value};
use script_code::{Code, NameTable};
use sql_model::Replies;
use std::alloc::{AllocError, Global};

// `count` slots in which there is nothing.
fn empty_slots<X: Drop>(alloc: Global, count: usize) -> Result<List<Option<X>>, AllocError>
    ensures { IfOk result (λ slots. slots ≡ replicate count None) }
{
    let mut slots = Vec::with_capacity(alloc, count)?;
    for _slot in 0..count {
        slots.push(None)?;
    }
    Ok(List::of_vec(slots))
}

// Sets the variable of a name, where the script has that name.
fn bind_first(
    names: &NameTable,
    name: &Utf8,
    value: Value,
    slots: &mut VariableSlots,
) -> Result<(), AllocError>
    ensures { OnOk result ((bs : Items (NameBinding Value)) → slots.old ≡ map (value_held bs) names.now
        → slots.new ≡ map (value_held (record { name = name.now; bound = value } ∷ bs)) names.now) }
{
    match names.find(name) {
        None => Ok(()),
        Some(slot) => {
            slots.set(slot, value)?;
            Ok(())
        }
    }
}

fn argument_name(alloc: Global, number: u64) -> Result<Utf8, AllocError>
    ensures { IfOk result (λ name. name ≡ argument_name number) }
{
    let mut name = Utf8::new(alloc);
    let mut buffer = Buffer::new();
    name.push_str("arg")?;
    name.push_str(buffer.format(number))?;
    Ok(name)
}

// Sets the variable of the argument at a place, where the script has its name.
fn bind_argument(
    alloc: Global,
    names: &NameTable,
    arguments: &[Value],
    place: usize,
    slots: &mut VariableSlots,
) -> Result<(), AllocError>
    requires { place < length arguments.now }
    ensures { OnOk result (slots.old ≡ map (value_held (arguments_from (place + 1 + 1)
        (drop (place + 1) arguments.now))) names.now
        → slots.new ≡ map (value_held (arguments_from (place + 1) (drop place arguments.now))) names.now) }
{
    let name = argument_name(alloc, place as u64 + 1)?;
    let value = arguments[place].copy_item(alloc)?;
    bind_first(names, &name, value, slots)?;
    Ok(())
}

// Slots of variables, of which those of the arguments are set.
fn bind_arguments(
    alloc: Global,
    names: &NameTable,
    arguments: &[Value],
) -> Result<VariableSlots, AllocError>
    ensures { IfOk result (λ slots. slots ≡ map (value_held (arguments_from 1 arguments.now)) names.now) }
{
    let mut slots = VariableSlots::of_count(alloc, names.len());
    let mut left = arguments.len();
    while left > 0 {
        left -= 1;
        bind_argument(alloc, names, arguments, left, &mut slots)?;
    }
    Ok(slots)
}

// The slots of the variables of a process with these arguments: `argc` and `arg1`, `arg2` and so on are set.
fn variables(
    alloc: Global,
    names: &NameTable,
    arguments: &[Value],
) -> Result<VariableSlots, AllocError>
    ensures { IfOk result (λ slots. slots ≡ map (value_held (argument_variables arguments.now)) names.now) }
{
    let mut slots = bind_arguments(alloc, names, arguments)?;
    let name = Utf8::of(alloc, "argc")?;
    let count = arguments.len() as i64;
    bind_first(names, &name, Value::Int(count), &mut slots)?;
    Ok(slots)
}

/// A process that begins: its name, the index of its resolved script, and its arguments.
pub(crate) fn new_process(
    alloc: Global,
    name: Parts,
    index: usize,
    code: &Code,
    arguments: &[Value],
) -> Result<SlotProcess, AllocError>
    ensures { IfOk result (λ r. (script : Items Instr)
        → Holds code.now.scope index script r (new_process name script arguments.now)) }
{
    let scope = &code.scope;
    Ok(SlotProcess {
        name,
        code: index,
        place: 0,
        variables: variables(alloc, &scope.variables, arguments)?,
        files: FileSlots::closed_slots(alloc, scope.files.len())?,
        cursors: empty_slots(alloc, scope.cursors.len())?,
        children: empty_slots(alloc, scope.children.len())?,
        spawned: 0,
        printed: Bytes::new(alloc),
        replies: Replies::new(alloc),
        status: None,
    })
}
