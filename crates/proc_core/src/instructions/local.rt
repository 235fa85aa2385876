//! Steps that ask nothing and make no process.

ghost use Rattle.std.specs.Prelude.{◌≡◌, ◌+◌, ◌<◌, ◌^◌, length, Some, map, slice_get, slice_set};
ghost use Rattle.std.specs.Prelude.{ℕ, OnOk, OnSome};
ghost use Rattle.std.specs.Option.{option_map};
ghost use Rattle.run_model.specs.Core.{Core};
ghost use Rattle.run_model.specs.Events.{event_at};
ghost use Rattle.run_model.specs.Step.{local_step};
ghost use Rattle.proc_core.specs.inner.SlotOwn.{slot_own};
ghost use Rattle.proc_core.specs.inner.Counts.{CountsBelow};
ghost use Rattle.proc_core.specs.inner.SlotReady.{Grows};
ghost use Rattle.proc_core.specs.inner.SlotStep.{HasRoom, IsLocal, next_slot_instr, slot_effect};
ghost use Rattle.proc_core.specs.inner.SlotStep.{slot_is_local};
ghost use Rattle.ldv_value.specs.FileState.{FileState};
ghost use Rattle.proc_core.specs.inner.Slots.{child_at, slot_ended};
ghost use Rattle.proc_core.specs.inner.SlotFiles.{slot_on_files};
ghost use Rattle.proc_core.specs.inner.SlotStep.{slot_child_status, slot_status_in, slot_wait_for};
ghost use Rattle.proc_core.specs.inner.SlotStep.{slot_wait_with};
ghost use Rattle.proc_core.specs.Stands.{IsCore, AppendsEvents};
ghost use Rattle.proc_core.specs.declared.process.SlotProcess.{SlotProcess};

use crate::instructions::computed::WRONG_KIND;
use crate::instructions::execute::execute_own;
use crate::instructions::files::execute_on_files;
use crate::machine::{Machine, next_of};
use crate::process::SlotProcess;
use crate::schedule::child_of;
use crate::tell::{Who, tell};
use file_tree::Tree;
use ldv_value::Value;
use run_model::{Act, Tracer};
use script_code::{FileInstr, OwnInstr, SlotInstr};
use std::alloc::{AllocError, Global};

/// Ends a process.
pub(crate) fn end_at(status: u8, number: usize, processes: &mut Vec<SlotProcess>)
    requires { number < length processes.old.items }
    ensures { (r : SlotProcess) → slice_get processes.old.items number ≡ Some r
        → processes.new.items ≡ slice_set processes.old.items number (slot_ended status r) }
{
    let process = &mut processes[number];
    process.end(status);
}

// Executes an instruction that changes its own process only.
fn own_at(
    alloc: Global,
    instr: &OwnInstr,
    number: usize,
    processes: &mut Vec<SlotProcess>,
) -> Result<(), AllocError>
    requires within { number < length processes.old.items }
    requires room { HasRoom (slice_get processes.old.items number) }
    ensures { OnOk result ((r : SlotProcess) → slice_get processes.old.items number ≡ Some r
        → processes.new.items ≡ slice_set processes.old.items number (slot_own instr.now r)) }
{
    let process = &mut processes[number];
    execute_own(alloc, instr, process)
}

// Executes an instruction on files.
fn files_at<T: Tracer>(
    alloc: Global,
    instr: &FileInstr,
    who: Who,
    processes: &mut Vec<SlotProcess>,
    tree: &mut Tree,
    tracer: &mut T,
) -> Result<(), AllocError>
    requires within { who.number < length processes.old.items }
    requires room { HasRoom (slice_get processes.old.items who.number) }
    ensures processes { OnOk result ((r : SlotProcess) → slice_get processes.old.items who.number ≡ Some r
        → processes.new.items ≡ slice_set processes.old.items who.number
        (slot_on_files instr.now r tree.old).process) }
    ensures files { OnOk result ((r : SlotProcess) → slice_get processes.old.items who.number ≡ Some r
        → tree.new ≡ (slot_on_files instr.now r tree.old).files) }
    ensures told { OnOk result ((r : SlotProcess) → slice_get processes.old.items who.number ≡ Some r
        → AppendsEvents T.KEEPS (T.events tracer.old)
        (T.events tracer.new) (map (event_at who.step who.number)
        (slot_on_files instr.now r tree.old).acts)) }
{
    let process = &mut processes[who.number];
    execute_on_files(alloc, instr, process, tree, who, tracer)
}

// Makes the step of a `wait`, by the child that its name means and that child's status, if it has ended. The
// scheduler lets no process step that still has to wait.
fn wait_with<T: Tracer>(
    to: usize,
    child: Option<u32>,
    status: Option<u8>,
    process: &mut SlotProcess,
    who: Who,
    tracer: &mut T,
) -> Result<(), AllocError>
    requires room { process.old.place + 1 < 2 ^ 64 }
    ensures process { OnOk result ((st : FileState)
        → process.new ≡ (slot_wait_with child status to process.old st).process) }
    ensures told { OnOk result ((st : FileState)
        → AppendsEvents T.KEEPS (T.events tracer.old)
        (T.events tracer.new) (map (event_at who.step who.number)
        (slot_wait_with child status to process.old st).acts)) }
{
    match child {
        None => {
            process.end(WRONG_KIND);
            Ok(())
        }
        Some(child) => match status {
            None => Ok(()),
            Some(status) => {
                tell(who, Act::Waited { child }, tracer)?;
                process.set_variable(to, Value::Int(i64::from(status)))?;
                process.go_on();
                Ok(())
            }
        },
    }
}

fn child_at(processes: &[SlotProcess], number: usize, slot: usize) -> Option<u32>
    requires { number < length processes.now }
    ensures { (r : SlotProcess) → slice_get processes.now number ≡ Some r → result ≡ child_at slot r }
{
    let process = &processes[number];
    child_of(process, slot)
}

fn child_status(processes: &[SlotProcess], child: Option<u32>) -> Option<u8>
    ensures { result ≡ slot_child_status child processes.now }
{
    match child {
        None => None,
        Some(child) => status_in(processes, child as usize),
    }
}

/// The status of a process, if it has ended.
#[inline(always)]
pub(crate) fn status_in(processes: &[SlotProcess], number: usize) -> Option<u8>
    ensures { result ≡ slot_status_in processes.now number }
{
    match processes.get(number) {
        None => None,
        Some(process) => process.status,
    }
}

// Makes the step of a `wait`.
fn wait_at<T: Tracer>(
    to: usize,
    slot: usize,
    who: Who,
    processes: &mut Vec<SlotProcess>,
    tracer: &mut T,
) -> Result<(), AllocError>
    requires within { who.number < length processes.old.items }
    requires room { HasRoom (slice_get processes.old.items who.number) }
    ensures processes { OnOk result ((r : SlotProcess) (st : FileState)
        → slice_get processes.old.items who.number ≡ Some r
        → processes.new.items ≡ slice_set processes.old.items who.number
        (slot_wait_for (child_at slot r) to processes.old.items r st).process) }
    ensures told { OnOk result ((r : SlotProcess) (st : FileState)
        → slice_get processes.old.items who.number ≡ Some r
        → AppendsEvents T.KEEPS (T.events tracer.old)
        (T.events tracer.new) (map (event_at who.step who.number)
        (slot_wait_for (child_at slot r) to processes.old.items r st).acts)) }
{
    let child = child_at(processes, who.number, slot);
    let status = child_status(processes, child);
    let process = &mut processes[who.number];
    wait_with(to, child, status, process, who, tracer)
}

// Executes an instruction. After the last one there is none, and the process ends. An `sql` comes here where
// what it would ask isn't a text, and a `spawn` never.
fn execute_local_instr<T: Tracer>(
    alloc: Global,
    instr: Option<&SlotInstr>,
    who: Who,
    processes: &mut Vec<SlotProcess>,
    tree: &mut Tree,
    tracer: &mut T,
) -> Result<(), AllocError>
    requires within { who.number < length processes.old.items }
    requires room { OnSome instr (HasRoom (slice_get processes.old.items who.number)) }
    requires local { IsLocal (option_map (λ i. i.now) instr) }
    ensures processes { OnOk result ((r : SlotProcess) → slice_get processes.old.items who.number ≡ Some r
        → processes.new.items ≡ slice_set processes.old.items who.number
        (slot_effect (option_map (λ i. i.now) instr.entry) processes.old.items r tree.old).process) }
    ensures files { OnOk result ((r : SlotProcess) → slice_get processes.old.items who.number ≡ Some r
        → tree.new
        ≡ (slot_effect (option_map (λ i. i.now) instr.entry) processes.old.items r tree.old).files) }
    ensures told { OnOk result ((r : SlotProcess) → slice_get processes.old.items who.number ≡ Some r
        → AppendsEvents T.KEEPS (T.events tracer.old)
        (T.events tracer.new) (map (event_at who.step who.number)
        (slot_effect (option_map (λ i. i.now) instr.entry) processes.old.items r tree.old).acts)) }
{
    match instr {
        None => {
            end_at(0, who.number, processes);
            Ok(())
        }
        Some(SlotInstr::Own(instr)) => own_at(alloc, instr, who.number, processes),
        Some(SlotInstr::OnFiles(instr)) => files_at(alloc, instr, who, processes, tree, tracer),
        Some(
            SlotInstr::Spawn {
                child: _,
                path: _,
                arguments: _,
                place: _,
            },
        ) => unreachable!(),
        Some(SlotInstr::Wait { to, child }) => wait_at(*to, *child, who, processes, tracer),
        Some(
            SlotInstr::Sql {
                cursor: _,
                text: _,
                params: _,
            },
        ) => {
            end_at(WRONG_KIND, who.number, processes);
            Ok(())
        }
    }
}

// Whether a step asks nothing and makes no process, by its instruction.
#[inline(always)]
fn is_local(instr: Option<&SlotInstr>) -> bool
    ensures { result ≡ slot_is_local (option_map (λ i. i.now) instr.entry) }
{
    match instr {
        Some(SlotInstr::Own(_)) => true,
        Some(SlotInstr::OnFiles(_)) => true,
        Some(
            SlotInstr::Spawn {
                child: _,
                path: _,
                arguments: _,
                place: _,
            },
        ) => false,
        Some(SlotInstr::Wait { to: _, child: _ }) => true,
        Some(
            SlotInstr::Sql {
                cursor: _,
                text: _,
                params: _,
            },
        ) => false,
        None => true,
    }
}

/// Whether the next step of a process asks nothing and makes no process.
#[inline(always)]
pub(crate) fn is_local_at(machine: &Machine, number: usize) -> bool
    ensures { result ≡ slot_is_local (next_slot_instr machine.now.codes
        (slice_get machine.now.processes.items number)) }
{
    is_local(next_of(&machine.codes, &machine.processes, number))
}

/// Makes the next step of a process, if that asks nothing and makes no process.
pub(crate) fn execute_local<T: Tracer>(
    machine: &mut Machine,
    who: Who,
    tracer: &mut T,
) -> Result<(), AllocError>
    requires local { IsLocal (next_slot_instr machine.old.codes
        (slice_get machine.old.processes.items who.number)) }
    ensures core { OnOk result ((c : Core) → IsCore machine.old c
        → IsCore machine.new (local_step who.number c).core) }
    ensures told { OnOk result ((c : Core) → IsCore machine.old c
        → AppendsEvents T.KEEPS (T.events tracer.old)
        (T.events tracer.new) (map (event_at who.step who.number)
        (local_step who.number c).acts)) }
    ensures grows { OnOk result (Grows machine.old who.number machine.new) }
    ensures counted { OnOk result ((n : ℕ) → CountsBelow n machine.old → CountsBelow n machine.new) }
{
    let past = who.number >= machine.processes.len();
    if past {
        return Ok(());
    }
    let instr = next_of(&machine.codes, &machine.processes, who.number);
    execute_local_instr(
        machine.alloc,
        instr,
        who,
        &mut machine.processes,
        &mut machine.tree,
        tracer,
    )?;
    Ok(())
}
