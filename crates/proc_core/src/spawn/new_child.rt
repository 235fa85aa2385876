//! How a `spawn` makes a child: the new process, and what its parent keeps of it.

ghost use Rattle.std.specs.Prelude.{◌≡◌, ◌+◌, ◌++◌, ◌∷◌, [], ◌<◌, ◌≤◌, ◌^◌, Some, true, length, slice_get};
ghost use Rattle.std.specs.Prelude.{slice_set};
ghost use Rattle.std.specs.Prelude.{IfOk, OnOk, List as Items};
ghost use Rattle.ldv_value.specs.Limits.{max_processes};
ghost use Rattle.proc_core.specs.Types.{Instr};
ghost use Rattle.run_model.specs.Core.{new_process};
ghost use Rattle.script_code.specs.declared.code.Code.{Code};
ghost use Rattle.proc_core.specs.inner.Counts.{MaySpawn};
ghost use Rattle.proc_core.specs.inner.SlotSpawn.{HasChild, slot_parent, slot_with_new};
ghost use Rattle.proc_core.specs.inner.SlotStep.{HasRoom};
ghost use Rattle.proc_core.specs.inner.Slots.{slot_with_child};
ghost use Rattle.proc_core.specs.Stands.{Holds};
ghost use Rattle.proc_core.specs.declared.process.SlotProcess.{SlotProcess};

use crate::machine::{Codes, Machine};
use crate::process::SlotProcess;
use crate::spawn::new_process::new_process;
use ldv_value::{Parts, Values};
use ready_set::ReadySet;
use script_code::Code;
use std::alloc::{AllocError, Global};

// Sets the child that a slot means.
fn set_child(slot: usize, number: u32, process: &mut SlotProcess)
    ensures { process.new ≡ slot_with_child slot number process.old }
{
    if slot < process.children.len() {
        process.children.replace(slot, Some(number));
    }
}

// Makes a process the parent of the child of a creation number; it goes on at the next instruction.
fn become_parent(number: u32, slot: usize, process: &mut SlotProcess)
    requires room { process.old.place + 1 < 2 ^ 64 }
    requires spawns { process.old.spawned + 1 < 2 ^ 32 }
    ensures { process.new ≡ slot_parent number slot process.old }
{
    set_child(slot, number, process);
    process.spawned += 1;
    process.go_on();
}

// Makes the process of a number the parent of a child.
fn parent_at(child: u32, slot: usize, number: usize, processes: &mut Vec<SlotProcess>)
    requires within { number < length processes.old.items }
    requires room { HasRoom (slice_get processes.old.items number) }
    requires spawns { MaySpawn (slice_get processes.old.items number) }
    ensures { (r : SlotProcess) → slice_get processes.old.items number ≡ Some r
        → processes.new.items ≡ slice_set processes.old.items number (slot_parent child slot r) }
{
    let process = &mut processes[number];
    become_parent(child, slot, process);
}

// Adds a child of a process.
fn add_child(
    child: SlotProcess,
    slot: usize,
    number: usize,
    processes: &mut Vec<SlotProcess>,
) -> Result<(), AllocError>
    requires within { number < length processes.old.items }
    requires few { length processes.old.items < max_processes }
    requires room { HasRoom (slice_get processes.old.items number) }
    requires spawns { MaySpawn (slice_get processes.old.items number) }
    ensures { OnOk result ((r : SlotProcess) → slice_get processes.old.items number ≡ Some r
        → processes.new.items ≡ slot_with_new number slot child r processes.old.items) }
{
    let made = processes.len() as u32;
    parent_at(made, slot, number, processes);
    processes.push(child)?;
    Ok(())
}

// Adds a new process to those that may run.
fn add_ready(ready: &mut ReadySet) -> Result<(), AllocError>
    requires { length ready.old.flags < max_processes }
    ensures { OnOk result (ready.new.flags ≡ ready.old.flags ++ true ∷ []) }
{
    ready.reserve()?;
    ready.push(true);
    Ok(())
}

// The name of the next child of a process, in memory of its length.
fn name_of_child(alloc: Global, parent: &SlotProcess) -> Result<Parts, AllocError>
    ensures { IfOk result (λ name. name ≡ parent.now.name ++ parent.now.spawned ∷ []) }
{
    let parts = parent.name.items();
    let mut name = Vec::with_capacity(alloc, parts.len().saturating_add(1))?;
    name.extend_from_slice(parts)?;
    name.push(parent.spawned)?;
    Ok(Parts::of_vec(name))
}

// The next child of a process, which runs the resolved script at an index.
fn new_child(
    alloc: Global,
    codes: &Codes,
    parent: &SlotProcess,
    index: usize,
    arguments: &Values,
) -> Result<SlotProcess, AllocError>
    requires { index < length codes.now }
    ensures { IfOk result (λ child. (code : Code) (script : Items Instr)
        → slice_get codes.now index ≡ Some code
        → Holds code.scope index script child
        (new_process (parent.now.name ++ parent.now.spawned ∷ []) script arguments.now)) }
{
    let code = &codes.items()[index];
    let name = name_of_child(alloc, parent)?;
    Ok(new_process(alloc, name, index, code, arguments.items())?)
}

fn child_at(
    machine: &Machine,
    number: usize,
    index: usize,
    arguments: &Values,
) -> Result<SlotProcess, AllocError>
    requires within { number < length machine.now.processes.items }
    requires held { index < length machine.now.codes }
    ensures { IfOk result (λ child. (r : SlotProcess) (code : Code) (script : Items Instr)
        → slice_get machine.now.processes.items number ≡ Some r
        → slice_get machine.now.codes index ≡ Some code
        → Holds code.scope index script child
        (new_process (r.name ++ r.spawned ∷ []) script arguments.now)) }
{
    let parent = &machine.processes[number];
    Ok(new_child(machine.alloc, &machine.codes, parent, index, arguments)?)
}

/// Makes a child of a process, which runs the resolved script at an index.
pub(crate) fn make_child(
    machine: &mut Machine,
    number: usize,
    slot: usize,
    index: usize,
    arguments: &Values,
) -> Result<(), AllocError>
    requires within { number < length machine.old.processes.items }
    requires few { length machine.old.processes.items < max_processes }
    requires held { index < length machine.old.codes }
    requires room { HasRoom (slice_get machine.old.processes.items number) }
    requires spawns { MaySpawn (slice_get machine.old.processes.items number) }
    requires flags { length machine.old.ready.flags ≤ length machine.old.processes.items }
    ensures { OnOk result ((r : SlotProcess) (code : Code)
        → slice_get machine.old.processes.items number ≡ Some r
        → slice_get machine.old.codes index ≡ Some code
        → HasChild machine.old number slot index code r arguments.now machine.new) }
{
    let child = child_at(machine, number, index, arguments)?;
    let parent = number as u32;
    add_ready(&mut machine.ready)?;
    machine.parents.push(parent)?;
    add_child(child, slot, number, &mut machine.processes)?;
    Ok(())
}
