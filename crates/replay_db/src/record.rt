//! The package of a world's run, of either mode.

ghost use Rattle.std.specs.Prelude.{◌≡◌, ◌≤◌, Some, IfOk};
ghost use Rattle.ldv_value.specs.Gives.{Gives};
ghost use Rattle.ldv_value.specs.Limits.{max_steps};
ghost use Rattle.run_model.specs.Start.{IsParsed, start_script};
ghost use Rattle.run_model.specs.ValidTrace.{IsTrace};
ghost use Rattle.slicer.specs.InitialRows.{ReadsInitialRows};
ghost use Rattle.replay_db.specs.inner.Logging.{packed_logs};
ghost use Rattle.replay_db.specs.inner.Recording.{package_of_traced};
ghost use Rattle.replay_db.specs.Runs.{CanRun, RecordsAs, Stops, package_within};
ghost use Rattle.replay_db.specs.Types.{Included, Excluded};

use crate::copy::copy_world;
use crate::error::EndStop;
use crate::logged::{Logged, log_world};
use crate::start::parse_start;
use crate::trace::{Traced, trace_world};
use run_model::{Logs, Mode, Package, PackedTables, ParsedWorld, World};
use script_parse::Script;
use slicer::{Sliced, slice, slice_files};
use std::alloc::{AllocError, Global};
use trace_graph::Graph;

// What the run needed of the world, with what is recorded of it.
fn pack_included(alloc: Global, world: &World, traced: Traced) -> Result<Package, AllocError>
    requires trace { IsTrace traced.events }
    requires rows { ReadsInitialRows traced.events world.now.tables }
    ensures { IfOk result (λ p. p ≡ package_of_traced world.now traced) }
{
    let Traced { events, steps } = traced;
    let graph = Graph::of_events(alloc, &events)?;
    let Sliced { files, tables } = slice(alloc, &events, &graph, world)?;
    Ok(Package {
        mode: Mode::Included,
        start: world.start.copy()?,
        seed: world.seed,
        steps,
        files,
        tables,
        logs: Logs::new(alloc),
        events,
    })
}

// The included package of the run of a world.
fn included_package_of_run(
    alloc: Global,
    world: &World,
    script: &Script,
    budget: u32,
) -> Result<Package, EndStop>
    requires can_run { CanRun world.now }
    requires parsed { start_script world.now ≡ Some script.now.instructions }
    requires bounded { budget ≤ max_steps }
    ensures { Gives Stops result (package_within Included budget world.now) }
{
    let copy = copy_world(world)?;
    match trace_world(alloc, copy, script, budget) {
        Ok(traced) => Ok(pack_included(alloc, world, traced)?),
        Err(stop) => Err(stop),
    }
}

// What the run needed of the files of the world, and what was asked in it.
fn pack_excluded(alloc: Global, world: &World, logged: Logged) -> Result<Package, AllocError>
    ensures { IfOk result (λ p. p ≡ packed_logs world.now logged) }
{
    let Logged {
        events,
        steps,
        logs,
    } = logged;
    let files = slice_files(alloc, &events, world)?;
    Ok(Package {
        mode: Mode::Excluded,
        start: world.start.copy()?,
        seed: world.seed,
        steps,
        files,
        tables: PackedTables::new(alloc),
        logs,
        events,
    })
}

// The excluded package of the run of a world.
fn excluded_package_of_run(
    alloc: Global,
    world: &World,
    script: &Script,
    budget: u32,
) -> Result<Package, EndStop>
    requires can_run { CanRun world.now }
    requires parsed { start_script world.now ≡ Some script.now.instructions }
    requires bounded { budget ≤ max_steps }
    ensures { Gives Stops result (package_within Excluded budget world.now) }
{
    let copy = copy_world(world)?;
    match log_world(alloc, copy, script, budget) {
        Ok(logged) => Ok(pack_excluded(alloc, world, logged)?),
        Err(stop) => Err(stop),
    }
}

fn package_of_mode(
    alloc: Global,
    world: &World,
    script: &Script,
    mode: Mode,
    budget: u32,
) -> Result<Package, EndStop>
    requires can_run { CanRun world.now }
    requires parsed { start_script world.now ≡ Some script.now.instructions }
    requires bounded { budget ≤ max_steps }
    ensures { Gives Stops result (package_within mode budget world.now) }
{
    match mode {
        Mode::Included => included_package_of_run(alloc, world, script, budget),
        Mode::Excluded => excluded_package_of_run(alloc, world, script, budget),
    }
}

/// The package of the run of a world by its seed, within a budget of at most 10,000,000 steps: the needed
/// files, and the trace. An included package has the needed tables and rows, each row with the first
/// statement that needed it and its rule. An excluded package has the statements of each process, with their
/// replies. The run changes a copy of the world.
///
/// `NotEnded` comes if and only if some process hasn't ended after the steps of the budget; `NoMemory` may
/// come in place of any answer.
pub fn record_world(
    alloc: Global,
    world: &World,
    mode: Mode,
    budget: u32,
) -> Result<Package, EndStop>
    requires can_run { CanRun world.now }
    requires bounded { budget ≤ max_steps }
    ensures recorded { Gives Stops result (package_within mode budget world.now) }
    // Where the world lies between the slice of a larger one and that one, its package is that one's.
    ensures between { RecordsAs mode budget world.now result }
{
    let script = parse_start(alloc, world)?;
    package_of_mode(alloc, world, &script, mode, budget)
}

/// The same as `record_world`, of a world whose script was parsed before.
pub fn record_parsed(
    alloc: Global,
    parsed: &ParsedWorld,
    mode: Mode,
    budget: u32,
) -> Result<Package, EndStop>
    requires can_run { CanRun parsed.now.world }
    requires parsed { IsParsed parsed.now }
    requires bounded { budget ≤ max_steps }
    ensures recorded { Gives Stops result (package_within mode budget parsed.now.world) }
    ensures between { RecordsAs mode budget parsed.now.world result }
{
    package_of_mode(alloc, &parsed.world, &parsed.script, mode, budget)
}
