//! The step of a `spawn`: what is at its path, and what comes of that.

mod new_child;
pub(crate) mod new_process;
mod program;
pub(crate) mod spawn_request;

ghost use Rattle.std.specs.Prelude.{◌≡◌, ◌+◌, ◌++◌, ◌∷◌, [], ◌<◌, Some, length, map, slice_get, slice_set};
ghost use Rattle.std.specs.Prelude.{OnOk};
ghost use Rattle.ldv_value.specs.Limits.{max_processes};
ghost use Rattle.proc_core.specs.Types.{Spawned, Unspawned};
ghost use Rattle.run_model.specs.Core.{Core};
ghost use Rattle.run_model.specs.Events.{event_at};
ghost use Rattle.run_model.specs.Step.{local_step};
ghost use Rattle.run_model.specs.StepBase.{bad_path};
ghost use Rattle.script_code.specs.declared.code.Code.{Code};
ghost use Rattle.proc_core.specs.inner.Counts.{CountsBelow};
ghost use Rattle.proc_core.specs.inner.SlotReady.{Grows};
ghost use Rattle.proc_core.specs.inner.SlotSpawn.{HasChild, IsNoChild, slot_request_at};
ghost use Rattle.proc_core.specs.inner.SlotStep.{HasRoom};
ghost use Rattle.proc_core.specs.inner.Slots.{slot_ended, slot_went_to};
ghost use Rattle.proc_core.specs.Stands.{IsCore, AppendsEvents};
ghost use Rattle.proc_core.specs.declared.process.SlotProcess.{SlotProcess};

use crate::instructions::computed::BAD_PATH;
use crate::instructions::local::end_at;
use crate::machine::Machine;
use crate::process::SlotProcess;
use crate::spawn::new_child::make_child;
use crate::spawn::program::{Program, program_at};
use crate::spawn::spawn_request::SpawnRequest;
use crate::tell::{PathAct, Who, tell_path};
use ldv_value::{Utf8, Values};
use run_model::Tracer;
use script_code::Code;
use std::alloc::AllocError;

// Ends a process whose `spawn` has no path.
fn end_misused(machine: &mut Machine, number: usize)
    requires { number < length machine.old.processes.items }
    ensures left { (r : SlotProcess) → slice_get machine.old.processes.items number ≡ Some r
        → machine.new.processes.items
        ≡ slice_set machine.old.processes.items number (slot_ended bad_path r) }
    ensures others { IsNoChild machine.old machine.new }
{
    end_at(BAD_PATH, number, &mut machine.processes);
}

// Lets the process of a number go on at the place of a label.
fn go_to_at(place: usize, number: usize, processes: &mut Vec<SlotProcess>)
    requires { number < length processes.old.items }
    ensures { (r : SlotProcess) → slice_get processes.old.items number ≡ Some r
        → processes.new.items ≡ slice_set processes.old.items number (slot_went_to place r) }
{
    let process = &mut processes[number];
    process.go_to(place);
}

// The same in a machine, of which all else stays.
fn jump_at(machine: &mut Machine, place: usize, number: usize)
    requires { number < length machine.old.processes.items }
    ensures left { (r : SlotProcess) → slice_get machine.old.processes.items number ≡ Some r
        → machine.new.processes.items
        ≡ slice_set machine.old.processes.items number (slot_went_to place r) }
    ensures others { IsNoChild machine.old machine.new }
{
    go_to_at(place, number, &mut machine.processes);
}

// Ends the step of a `spawn` that is refused: it is reported, and the process goes on at the label.
fn refuse<T: Tracer>(
    machine: &mut Machine,
    who: Who,
    path: &Utf8,
    found: bool,
    place: usize,
    tracer: &mut T,
) -> Result<(), AllocError>
    requires { who.number < length machine.old.processes.items }
    ensures left { OnOk result ((r : SlotProcess)
        → slice_get machine.old.processes.items who.number ≡ Some r
        → machine.new.processes.items
        ≡ slice_set machine.old.processes.items who.number (slot_went_to place r)) }
    ensures others { OnOk result (IsNoChild machine.old machine.new) }
    ensures told { OnOk result (AppendsEvents T.KEEPS (T.events tracer.old) (T.events tracer.new)
        (map (event_at who.step who.number) (Unspawned path.now found ∷ []))) }
{
    tell_path(who, PathAct::Unspawned(found), path, tracer)?;
    jump_at(machine, place, who.number);
    Ok(())
}

// Notes which process was made last from a path.
fn note_runner(machine: &mut Machine, path: Utf8, number: usize) -> Result<(), AllocError>
    ensures { OnOk result (machine.new ≡ record machine.old { runners = machine.new.runners }) }
{
    machine.runners.insert(path.into_string(), number)?;
    Ok(())
}

// Adds a resolved script.
fn add_code(machine: &mut Machine, code: Code) -> Result<(), AllocError>
    ensures { OnOk result (machine.new
        ≡ record machine.old { codes = machine.old.codes ++ code ∷ [] }) }
{
    machine.codes.push(code)?;
    Ok(())
}

// Makes a child that runs the resolved script at an index, and reports it.
fn launch<T: Tracer>(
    machine: &mut Machine,
    who: Who,
    slot: usize,
    index: usize,
    path: Utf8,
    arguments: &Values,
    tracer: &mut T,
) -> Result<(), AllocError>
    requires within { who.number < length machine.old.processes.items }
    requires few { length machine.old.processes.items < max_processes }
    requires held { index < length machine.old.codes }
    requires room { HasRoom (slice_get machine.old.processes.items who.number) }
    requires counted { CountsBelow who.step machine.old }
    ensures made { OnOk result ((r : SlotProcess) (code : Code)
        → slice_get machine.old.processes.items who.number ≡ Some r
        → slice_get machine.old.codes index ≡ Some code
        → HasChild machine.old who.number slot index code r arguments.now machine.new) }
    ensures told { OnOk result (AppendsEvents T.KEEPS (T.events tracer.old) (T.events tracer.new)
        (map (event_at who.step who.number) (Spawned path ∷ []))) }
{
    tell_path(who, PathAct::Spawned, &path, tracer)?;
    let number = machine.processes.len();
    make_child(machine, who.number, slot, index, arguments)?;
    note_runner(machine, path, number)?;
    Ok(())
}

// Adds a resolved script, and makes a child that runs it.
fn launch_new<T: Tracer>(
    machine: &mut Machine,
    who: Who,
    slot: usize,
    code: Code,
    path: Utf8,
    arguments: &Values,
    tracer: &mut T,
) -> Result<(), AllocError>
    requires within { who.number < length machine.old.processes.items }
    requires few { length machine.old.processes.items < max_processes }
    requires room { HasRoom (slice_get machine.old.processes.items who.number) }
    requires counted { CountsBelow who.step machine.old }
    ensures made { OnOk result ((r : SlotProcess)
        → slice_get machine.old.processes.items who.number ≡ Some r
        → HasChild (record machine.old { codes = machine.old.codes ++ code ∷ [] }) who.number slot
        (length machine.old.codes) code r arguments.now machine.new) }
    ensures told { OnOk result (AppendsEvents T.KEEPS (T.events tracer.old) (T.events tracer.new)
        (map (event_at who.step who.number) (Spawned path ∷ []))) }
{
    let index = machine.codes.len();
    add_code(machine, code)?;
    launch(machine, who, slot, index, path, arguments, tracer)?;
    Ok(())
}

// Makes the step of a `spawn` of a path.
fn spawn_path<T: Tracer>(
    machine: &mut Machine,
    who: Who,
    child: usize,
    path: Utf8,
    arguments: Values,
    place: usize,
    tracer: &mut T,
) -> Result<(), AllocError>
    requires says { slot_request_at machine.old who.number
        ≡ Some (record { child = child; path = Some path; arguments = arguments; place = place }) }
    requires within { who.number < length machine.old.processes.items }
    requires room { HasRoom (slice_get machine.old.processes.items who.number) }
    requires counted { CountsBelow who.step machine.old }
    ensures core { OnOk result ((c : Core) → IsCore machine.old c
        → IsCore machine.new (local_step who.number c).core) }
    ensures told { OnOk result ((c : Core) → IsCore machine.old c
        → AppendsEvents T.KEEPS (T.events tracer.old)
        (T.events tracer.new) (map (event_at who.step who.number)
        (local_step who.number c).acts)) }
    ensures grows { OnOk result (Grows machine.old who.number machine.new) }
    ensures counted { OnOk result (CountsBelow (who.step + 1) machine.new) }
{
    match program_at(machine, &path)? {
        Program::Absent => {
            refuse(machine, who, &path, false, place, tracer)?;
            Ok(())
        }
        Program::Refused => {
            refuse(machine, who, &path, true, place, tracer)?;
            Ok(())
        }
        Program::Known(index) => {
            launch(machine, who, child, index, path, &arguments, tracer)?;
            Ok(())
        }
        Program::New(code) => {
            launch_new(machine, who, child, code, path, &arguments, tracer)?;
            Ok(())
        }
    }
}

/// Makes the step of a `spawn`: a child is made, or the process goes on at the label, or it ends if the
/// value isn't a path.
pub(crate) fn spawn<T: Tracer>(
    machine: &mut Machine,
    who: Who,
    request: SpawnRequest,
    tracer: &mut T,
) -> Result<(), AllocError>
    requires says { slot_request_at machine.old who.number ≡ Some request }
    requires within { who.number < length machine.old.processes.items }
    requires room { HasRoom (slice_get machine.old.processes.items who.number) }
    requires counted { CountsBelow who.step machine.old }
    ensures core { OnOk result ((c : Core) → IsCore machine.old c
        → IsCore machine.new (local_step who.number c).core) }
    ensures told { OnOk result ((c : Core) → IsCore machine.old c
        → AppendsEvents T.KEEPS (T.events tracer.old)
        (T.events tracer.new) (map (event_at who.step who.number)
        (local_step who.number c).acts)) }
    ensures grows { OnOk result (Grows machine.old who.number machine.new) }
    ensures counted { OnOk result (CountsBelow (who.step + 1) machine.new) }
{
    let SpawnRequest {
        child,
        path,
        arguments,
        place,
    } = request;
    match path {
        None => {
            end_misused(machine, who.number);
            Ok(())
        }
        Some(path) => spawn_path(machine, who, child, path, arguments, place, tracer),
    }
}
