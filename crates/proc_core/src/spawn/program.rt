//! The program that a `spawn` finds at a path.

ghost use Rattle.std.specs.Prelude.{◌≡◌, IfOk, IfSome};
ghost use Rattle.proc_core.specs.inner.SlotSpawn.{Runs, IsProgramRead, IsProgramOf, IsProgram};

use crate::machine::{Codes, Machine};
use crate::process::SlotProcess;
use ldv_value::{MAX_PROCESSES, Utf8};
use script_code::{Code, read_code};
use std::alloc::{AllocError, Global};

/// The program at a path, if there is one.
#[derive(Drop)]
pub(crate) enum Program {
    /// No file.
    Absent,
    /// A file that isn't a script, or any file if no further process may be made.
    Refused,
    /// The script that the last process made from this path runs, by the index of its resolved form.
    Known(usize),
    /// Another script, which was read and resolved anew.
    New(Code),
}

/// Looks up the program at a path.
pub(crate) fn program_at(machine: &Machine, path: &Utf8) -> Result<Program, AllocError>
    ensures { IfOk result (IsProgram machine.now path.now) }
{
    match machine.tree.state(path.as_str()) {
        None => Ok(Program::Absent),
        Some(bytes) => program_of(machine, path, bytes),
    }
}

fn program_of(machine: &Machine, path: &Utf8, bytes: &[u8]) -> Result<Program, AllocError>
    ensures { IfOk result (IsProgramOf machine.now bytes.now) }
{
    if machine.processes.len() >= MAX_PROCESSES {
        return Ok(Program::Refused);
    }
    match known_at(machine, path, bytes) {
        Some(index) => Ok(Program::Known(index)),
        None => read_program(machine.alloc, bytes),
    }
}

fn read_program(alloc: Global, bytes: &[u8]) -> Result<Program, AllocError>
    ensures { IfOk result (λ program. IsProgramRead bytes.now program) }
{
    match read_code(alloc, bytes)? {
        None => Ok(Program::Refused),
        Some(code) => Ok(Program::New(code)),
    }
}

// The index of the resolved script that the last process made from a path runs, where these are its bytes.
fn known_at(machine: &Machine, path: &Utf8, bytes: &[u8]) -> Option<usize>
    ensures { IfSome result (Runs machine.now.codes machine.now.processes.items bytes.now) }
{
    match machine.runners.get(path.as_str()) {
        None => None,
        Some(number) => known_by(&machine.codes, &machine.processes, *number, bytes),
    }
}

// The index of the resolved script that the process of a number runs, where these are its bytes.
fn known_by(codes: &Codes, processes: &[SlotProcess], number: usize, bytes: &[u8]) -> Option<usize>
    ensures { IfSome result (Runs codes.now processes.now bytes.now) }
{
    match processes.get(number) {
        None => None,
        Some(process) => match codes.get(process.code) {
            None => None,
            Some(code) => if_source(process.code, code, bytes),
        },
    }
}

// The index of a resolved script, where these are its bytes.
fn if_source(index: usize, code: &Code, bytes: &[u8]) -> Option<usize>
    ensures { IfSome result (λ found. (found ≡ index) × (code.now.source ≡ bytes.now)) }
{
    if code.source.as_slice() == bytes {
        Some(index)
    } else {
        None
    }
}
