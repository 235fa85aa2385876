//! The state of a run, without its database.

ghost use Rattle.std.specs.Prelude.{◌≡◌, ◌+◌, ◌<◌, ◌^◌, OnSome, slice_get};
ghost use Rattle.std.specs.Option.{option_map};
ghost use Rattle.proc_core.specs.inner.SlotStep.{next_slot_instr, HasRoom};

use crate::process::SlotProcess;
use file_tree::Tree;
use ldv_value::{List, Numbers};
use ready_set::ReadySet;
use script_code::{Code, SlotInstr};
use std::alloc::Global;
use std::collections::BTreeMap;

/// Resolved scripts, which the processes that run them share.
pub(crate) type Codes = List<Code>;

/// The files, the processes in creation order, and the scheduler.
#[derive(Drop)]
pub(crate) struct Machine {
    pub alloc: Global,
    pub codes: Codes,
    pub processes: Vec<SlotProcess>,
    pub tree: Tree,
    pub seed: u64,
    /// The process that ran last.
    pub last: u32,
    /// The state of the generator of pseudorandom numbers.
    pub generator: u64,
    /// How many statements were asked.
    pub asked: u32,
    /// Which processes may run.
    pub ready: ReadySet,
    /// The creation number of each process's parent; the first process has its own there.
    pub parents: Numbers,
    /// For each path, the creation number of the last process that was made from the script there.
    pub runners: BTreeMap<String, usize>,
}

/// The next instruction of a process, by its creation number. `None` after the last one, and if there is no
/// such process.
pub(crate) fn next_of<'a>(
    codes: &'a Codes,
    processes: &[SlotProcess],
    number: usize,
) -> Option<&'a SlotInstr>
    ensures next { option_map (λ instr. instr.now) result
        ≡ next_slot_instr codes.now (slice_get processes.now number) }
    ensures room { OnSome result (HasRoom (slice_get processes.now number)) }
{
    match processes.get(number) {
        None => None,
        Some(process) => next_in(codes, process),
    }
}

/// The next instruction of a process.
#[inline(always)]
pub(crate) fn next_in<'a>(codes: &'a Codes, process: &SlotProcess) -> Option<&'a SlotInstr>
    ensures next { option_map (λ instr. instr.now) result ≡ next_slot_instr codes.now (Some process.now) }
    ensures room { OnSome result (process.now.place + 1 < 2 ^ 64) }
{
    match codes.get(process.code) {
        None => None,
        Some(code) => code.instructions.get(process.place),
    }
}
