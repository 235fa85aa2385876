//! From runs of events to the events.

ghost use Rattle.std.specs.Prelude.{◌≡◌, ◌++◌, ◌∷◌, [], true, IfOk, OnOk};
ghost use Rattle.std.specs.List.{list_all};
ghost use Rattle.package_codec.specs.CompactPackages.{expanded_package};
ghost use Rattle.package_codec.specs.Runs.{at_step, are_runs, events_in, is_run, run_events};

use crate::compact_package::CompactPackage;
use crate::trace::event_run::{EventRun, EventRuns};
use crate::trace::run_rules::count_events;
use ldv_value::{CopyItem, List};
use run_model::{Event, Events, Package};
use std::alloc::{AllocError, Global};

/// The package with all events that its runs represent. It may be far larger than the bytes that it was read
/// from. `AllocError` means out of memory only.
#[tactic(auto, using(crate::proofs::Runs::are_all_runs))]
pub fn expanded_package(alloc: Global, package: CompactPackage) -> Result<Package, AllocError>
    requires { are_runs «package».runs ≡ true }
    ensures { IfOk result (λ p. p ≡ expanded_package «package») }
{
    let CompactPackage { bare, runs } = package;
    let mut whole = bare;
    whole.events = events_in(alloc, runs)?;
    Ok(whole)
}

/// All events that runs represent. If a package may have so many, memory for them is taken at once.
/// `AllocError` means out of memory only.
pub fn events_in(alloc: Global, runs: EventRuns) -> Result<Events, AllocError>
    requires { list_all is_run runs ≡ true }
    ensures { IfOk result (λ events. events ≡ events_in runs) }
{
    let count = count_events(runs.items()).unwrap_or(0);
    let mut events = List::with_capacity(alloc, count as usize)?;
    for run in runs.into_vec() {
        expand(run, &mut events)?;
    }
    Ok(events)
}

// Appends the events of a run. Its own act goes into the last of them, so that a question is never copied.
fn expand(run: EventRun, to: &mut Events) -> Result<(), AllocError>
    requires { is_run run ≡ true }
    ensures { OnOk result (to.new ≡ to.old ++ run_events run) }
{
    let at = expand_front(&run, to)?;
    let Event {
        step: _,
        process,
        act,
    } = run.first;
    to.push(Event {
        step: at,
        process,
        act,
    })
}

// Appends the events of a run but for its last, whose step it returns.
fn expand_front(run: &EventRun, to: &mut Events) -> Result<u32, AllocError>
    requires { is_run run.now ≡ true }
    ensures { IfOk result (λ at. to.new ++ at_step run.now.first at ∷ [] ≡ to.old ++ run_events run.now) }
{
    let alloc = to.allocator();
    let mut at = run.first.step;
    let mut left = run.count;
    while left > 1 {
        let act = run.first.act.copy_item(alloc)?;
        to.push(Event {
            step: at,
            process: run.first.process,
            act,
        })?;
        at += run.stride;
        left -= 1;
    }
    Ok(at)
}
