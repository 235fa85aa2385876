//! The scheduler: which process makes the next step.

ghost use Rattle.std.specs.Prelude.{◌≡◌, ◌<◌, None, length, slice_get};
ghost use Rattle.std.specs.Option.{option_map};
ghost use Rattle.run_model.specs.Core.{Core};
ghost use Rattle.proc_core.specs.Flags.{runnable_flags};
ghost use Rattle.ready_set.specs.Ready.{numbers};
ghost use Rattle.run_model.specs.Schedule.{choose, core_after_choice, moved_x, at_random, pick_of};
ghost use Rattle.proc_core.specs.inner.SlotStep.{slot_is_runnable, slot_waits_at, slot_waits_for};
ghost use Rattle.proc_core.specs.inner.SlotStep.{slot_still_runs};
ghost use Rattle.proc_core.specs.inner.Slots.{child_at};
ghost use Rattle.proc_core.specs.Stands.{IsCore};

use crate::machine::{Codes, Machine, next_in};
use crate::process::SlotProcess;
use ready_set::ReadySet;
use script_code::SlotInstr;

fn still_runs(processes: &[SlotProcess], number: u32) -> bool
    ensures { result ≡ slot_still_runs (slice_get processes.now number) }
{
    match processes.get(number as usize) {
        None => false,
        Some(process) => process.status.is_none(),
    }
}

/// The child in a slot, by its creation number.
pub(crate) fn child_of(process: &SlotProcess, slot: usize) -> Option<u32>
    ensures { result ≡ child_at slot process.now }
{
    match process.children.get(slot) {
        None => None,
        Some(child) => *child,
    }
}

// Whether a `wait` for this child goes on waiting: it is there and hasn't ended.
fn waits_for(processes: &[SlotProcess], child: Option<u32>) -> bool
    ensures { result ≡ slot_waits_for child processes.now }
{
    match child {
        None => false,
        Some(child) => still_runs(processes, child),
    }
}

fn waits_at(instr: Option<&SlotInstr>, process: &SlotProcess, processes: &[SlotProcess]) -> bool
    ensures { result ≡ slot_waits_at (option_map (λ i. i.now) instr.entry) process.now processes.now }
{
    match instr {
        Some(SlotInstr::Wait { to: _, child }) => waits_for(processes, child_of(process, *child)),
        Some(SlotInstr::Own(_)) => false,
        Some(SlotInstr::OnFiles(_)) => false,
        Some(
            SlotInstr::Spawn {
                child: _,
                path: _,
                arguments: _,
                place: _,
            },
        ) => false,
        Some(
            SlotInstr::Sql {
                cursor: _,
                text: _,
                params: _,
            },
        ) => false,
        None => false,
    }
}

/// Whether a process may run.
pub(crate) fn is_runnable(codes: &Codes, processes: &[SlotProcess], process: &SlotProcess) -> bool
    ensures { result ≡ slot_is_runnable codes.now processes.now process.now }
{
    process.status.is_none() && !waits_at(next_in(codes, process), process, processes)
}

// The generator's next state. Under seed 0 it stands still.
fn moved_x(seed: u64, x: u64) -> u64
    ensures { result ≡ moved_x seed x }
{
    if seed == 0 {
        x
    } else {
        x.wrapping_mul(6364136223846793005)
            .wrapping_add(1442695040888963407)
    }
}

// The number at the index that the generator's high bits give, counted round.
fn pick_random(ready: &ReadySet, x: u64) -> u32
    requires { 0 < length (numbers ready.now.flags) }
    ensures { result ≡ at_random x (numbers ready.now.flags) }
{
    ready.pick_at(x >> 33)
}

// The number that the scheduler picks: by turns under seed 0, and at random under any other.
fn pick_one(ready: &ReadySet, seed: u64, last: u32, x: u64) -> u32
    requires { 0 < length (numbers ready.now.flags) }
    ensures { result ≡ pick_of seed last x (numbers ready.now.flags) }
{
    if seed == 0 {
        ready.pick_next(last)
    } else {
        pick_random(ready, x)
    }
}

// The number that the scheduler picks, and 0 where no process may run.
fn pick(ready: &ReadySet, seed: u64, last: u32, x: u64) -> u32
    ensures { result ≡ pick_of seed last x (numbers ready.now.flags) }
{
    if ready.len() == 0 {
        0
    } else {
        pick_one(ready, seed, last, x)
    }
}

/// The creation number of the process that the seed chooses.
#[inline(always)]
pub(crate) fn choose(machine: &Machine) -> u32
    ensures { (c : Core) → IsCore machine.now c → machine.now.ready.flags ≡ runnable_flags c.processes
        → result ≡ choose None c }
{
    let x = moved_x(machine.seed, machine.generator);
    pick(&machine.ready, machine.seed, machine.last, x)
}

/// Notes that a process was chosen.
pub(crate) fn schedule(machine: &mut Machine, number: u32)
    ensures core { (c : Core) → IsCore machine.old c → IsCore machine.new (core_after_choice number c) }
    ensures ready { machine.new.ready ≡ machine.old.ready }
    ensures parents { machine.new.parents ≡ machine.old.parents }
    ensures processes { machine.new.processes ≡ machine.old.processes }
    ensures asked { machine.new.asked ≡ machine.old.asked }
{
    let moved = moved_x(machine.seed, machine.generator);
    machine.last = number;
    machine.generator = moved;
}
