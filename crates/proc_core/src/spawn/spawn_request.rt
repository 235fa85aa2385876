//! What a `spawn` says, with the values that it takes.

ghost use Rattle.std.specs.Prelude.{◌≡◌, ◌+◌, ◌<◌, ◌^◌, Some, IfOk, OnSome, length, slice_get};
ghost use Rattle.std.specs.Option.{option_map};
ghost use Rattle.proc_core.specs.inner.SlotSpawn.{slot_request, slot_request_in, slot_request_at};
ghost use Rattle.proc_core.specs.inner.SlotStep.{HasRoom};

use crate::instructions::ask::values_of;
use crate::instructions::files::path_of;
use crate::machine::{Codes, Machine, next_in};
use crate::process::SlotProcess;
use ldv_value::{Utf8, Values};
use script_code::SlotInstr;
use std::alloc::{AllocError, Global};

/// What a `spawn` says: a slot for the child, the path, `None` if the value isn't one, the arguments, and
/// the place of the label.
#[derive(Drop)]
pub(crate) struct SpawnRequest {
    pub child: usize,
    pub path: Option<Utf8>,
    pub arguments: Values,
    pub place: usize,
}

fn request_of_instr(
    alloc: Global,
    instr: Option<&SlotInstr>,
    process: &SlotProcess,
) -> Result<Option<SpawnRequest>, AllocError>
    requires { OnSome instr (process.now.place + 1 < 2 ^ 64) }
    ensures said { IfOk result (λ said. said
        ≡ slot_request (option_map (λ i. i.now) instr.entry) process.now) }
    ensures room { IfOk result (λ said. OnSome said (process.now.place + 1 < 2 ^ 64)) }
{
    match instr {
        Some(
            SlotInstr::Spawn {
                child,
                path,
                arguments,
                place,
            },
        ) => Ok(Some(SpawnRequest {
            child: *child,
            path: path_of(alloc, process, path)?,
            arguments: values_of(alloc, process, arguments)?,
            place: *place,
        })),
        Some(SlotInstr::Own(_)) => Ok(None),
        Some(SlotInstr::OnFiles(_)) => Ok(None),
        Some(SlotInstr::Wait { to: _, child: _ }) => Ok(None),
        Some(
            SlotInstr::Sql {
                cursor: _,
                text: _,
                params: _,
            },
        ) => Ok(None),
        None => Ok(None),
    }
}

fn request_of_process(
    alloc: Global,
    codes: &Codes,
    process: &SlotProcess,
) -> Result<Option<SpawnRequest>, AllocError>
    ensures said { IfOk result (λ said. said ≡ slot_request_in codes.now (Some process.now)) }
    ensures room { IfOk result (λ said. OnSome said (process.now.place + 1 < 2 ^ 64)) }
{
    request_of_instr(alloc, next_in(codes, process), process)
}

/// What the next step of a process says, if it is a `spawn`.
pub(crate) fn request_at(
    machine: &Machine,
    number: usize,
) -> Result<Option<SpawnRequest>, AllocError>
    ensures said { IfOk result (λ said. said ≡ slot_request_at machine.now number) }
    ensures within { IfOk result (λ said. OnSome said (number < length machine.now.processes.items)) }
    ensures room { IfOk result (λ said. OnSome said
        (HasRoom (slice_get machine.now.processes.items number))) }
{
    match machine.processes.get(number) {
        None => Ok(None),
        Some(process) => request_of_process(machine.alloc, &machine.codes, process),
    }
}
