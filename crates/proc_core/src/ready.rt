//! The set of processes that may run, kept up to date step by step.

ghost use Rattle.std.specs.Prelude.{◌≡◌, ◌<◌, length, slice_set};
ghost use Rattle.std.specs.Option.{option_map};
ghost use Rattle.proc_core.specs.Running.{has_ended};
ghost use Rattle.proc_core.specs.inner.SlotReady.{marked, marked_parent, refreshed};

use crate::instructions::local::status_in;
use crate::machine::{Codes, Machine};
use crate::process::SlotProcess;
use crate::schedule::is_runnable;
use ldv_value::Numbers;
use ready_set::ReadySet;

// Sets the flag of a number that was made.
#[tactic(auto, using(crate::proofs::Readiness::set_same))]
fn set_made(number: u32, flag: bool, ready: &mut ReadySet)
    requires { number < length ready.old.flags }
    ensures { ready.new.flags ≡ slice_set ready.old.flags number flag }
{
    if ready.contains(number) != flag {
        ready.set(number, flag);
    }
}

// Sets the flag of a number, where it is made.
#[tactic(auto, using(crate::proofs::Readiness::set_past))]
fn set_flag(number: usize, flag: bool, ready: &mut ReadySet)
    ensures { ready.new.flags ≡ slice_set ready.old.flags number flag }
{
    if number < ready.made_count() as usize {
        set_made(number as u32, flag, ready);
    }
}

// Sets the flag of a process to whether it may run.
fn mark(codes: &Codes, processes: &[SlotProcess], number: usize, ready: &mut ReadySet)
    ensures { ready.new.flags ≡ marked codes.now processes.now number ready.old.flags }
{
    match processes.get(number) {
        None => {}
        Some(process) => set_flag(number, is_runnable(codes, processes, process), ready),
    }
}

fn mark_parent(codes: &Codes, processes: &[SlotProcess], parent: Option<&u32>, ready: &mut ReadySet)
    ensures { ready.new.flags
        ≡ marked_parent codes.now processes.now (option_map (λ n. n.now) parent.entry) ready.old.flags }
{
    match parent {
        None => {}
        Some(parent) => mark(codes, processes, *parent as usize, ready),
    }
}

// Sets the flag of a process, and where it has ended that of its parent, which may have waited for it.
fn refresh_flags(
    codes: &Codes,
    processes: &[SlotProcess],
    parents: &Numbers,
    number: usize,
    ready: &mut ReadySet,
)
    ensures { ready.new.flags ≡ refreshed codes.now processes.now parents.now number ready.old.flags }
{
    mark(codes, processes, number, ready);
    match status_in(processes, number) {
        None => {}
        Some(_) => mark_parent(codes, processes, parents.get(number), ready),
    }
}

/// Whether no process may run. A run isn't stuck, so all have ended then.
pub(crate) fn has_ended(machine: &Machine) -> bool
    ensures { result ≡ has_ended machine.now }
{
    machine.ready.len() == 0
}

/// Brings the flag of a process up to date after its step, and its parent's flag too if it has ended.
pub(crate) fn refresh(machine: &mut Machine, number: usize)
    ensures flags { machine.new.ready.flags ≡ refreshed machine.old.codes machine.old.processes.items
        machine.old.parents number machine.old.ready.flags }
    ensures others { machine.new ≡ record machine.old { ready = machine.new.ready } }
{
    refresh_flags(
        &machine.codes,
        &machine.processes,
        &machine.parents,
        number,
        &mut machine.ready,
    );
}
