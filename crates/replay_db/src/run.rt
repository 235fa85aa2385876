//! Runs of worlds.

ghost use Rattle.std.specs.Prelude.{◌≡◌, ◌≤◌, List as Items, Some, [], true, slice_get, IfOk, IfErr, OnOk};
ghost use Rattle.ldv_value.specs.Gives.{Gives};
ghost use Rattle.ldv_value.specs.Limits.{max_steps};
ghost use Rattle.proc_core.specs.Running.{Stands, has_ended};
ghost use Rattle.proc_core.specs.Stands.{AppendsEvents};
ghost use Rattle.run_model.specs.Events.{start_events};
ghost use Rattle.run_model.specs.Run.{run as state_after};
ghost use Rattle.run_model.specs.SqlDatabase.{sql_base};
ghost use Rattle.run_model.specs.Start.{IsParsed, start_script, start_state};
ghost use Rattle.run_model.specs.WorldRun.{ends_within, events_within, outcome_within, steps_by};
ghost use Rattle.sql_engine.specs.Asking.{database};
ghost use Rattle.replay_db.specs.inner.Recording.{HasNotEnded};
ghost use Rattle.replay_db.specs.Runs.{CanRun, RunsAs, Stops};
ghost use Rattle.replay_db.specs.Types.{Instr};

use crate::copy::copy_world;
use crate::error::EndStop;
use crate::setting::{Setting, setting_of};
use crate::start::parse_start;
use proc_core::{Run, RunStop};
use run_model::{NullTracer, Outcome, ParsedWorld, Tracer, World};
use script_parse::Script;
use sql_engine::Engine;
use std::alloc::{AllocError, Global};

/// The run of a world before its first step. The first script was parsed before.
pub(crate) fn begin<T: Tracer>(
    alloc: Global,
    world: World,
    script: &Script,
    tracer: T,
) -> Result<Run<Engine, T>, AllocError>
    requires can_run { CanRun world }
    requires parsed { start_script world ≡ Some script.now.instructions }
    ensures state { IfOk result (λ run. (due : Items Instr) → start_script world ≡ Some due
        → Stands run.machine (database run.db) (start_state world due)) }
    ensures told { IfOk result (λ run. AppendsEvents T.KEEPS (T.events tracer) (T.events run.tracer)
        (start_events (slice_get world.start 0))) }
    ensures steps { IfOk result (λ run. run.steps ≡ 0) }
{
    let World {
        start,
        seed,
        files,
        tables,
    } = world;
    let Setting { tree, engine } = setting_of(alloc, files, tables)?;
    let begun = Run::start_parsed(&start, script, seed, tree, engine, tracer)?;
    Ok(begun)
}

/// The run of a world at its end. No statement of SQL diverges.
pub(crate) fn run_to_end<T: Tracer>(
    alloc: Global,
    world: World,
    script: &Script,
    tracer: T,
    budget: u32,
) -> Result<Run<Engine, T>, EndStop>
    requires can_run { CanRun world }
    requires parsed { start_script world ≡ Some script.now.instructions }
    requires bounded { budget ≤ max_steps }
    ensures state { IfOk result (λ run. (due : Items Instr) → start_script world ≡ Some due
        → Stands run.machine (database run.db) (state_after sql_base budget [] (start_state world due))) }
    ensures ended { OnOk result (ends_within budget world ≡ true) }
    ensures over { IfOk result (λ run. has_ended run.machine ≡ true) }
    ensures told { IfOk result (λ run. AppendsEvents T.KEEPS (T.events tracer) (T.events run.tracer)
        (events_within budget world)) }
    ensures steps { IfOk result (λ run. run.steps ≡ steps_by budget [] world) }
    ensures not_ended { IfErr result (HasNotEnded budget world) }
{
    let begun = begin(alloc, world, script, tracer)?;
    match begun.to_end(budget) {
        Ok(ended) => Ok(ended),
        Err(RunStop::NotEnded) => Err(EndStop::NotEnded),
        Err(
            RunStop::Diverged {
                process: _,
                index: _,
            },
        ) => unreachable!(),
        Err(RunStop::NoMemory) => Err(EndStop::NoMemory),
    }
}

#[tactic(auto, using(crate::proofs::EndedRuns::outcome_stops))]
fn outcome_of_run(
    alloc: Global,
    world: World,
    script: &Script,
    budget: u32,
) -> Result<Outcome, EndStop>
    requires can_run { CanRun world }
    requires parsed { start_script world ≡ Some script.now.instructions }
    requires bounded { budget ≤ max_steps }
    ensures { Gives Stops result (outcome_within budget world) }
{
    let ended = run_to_end(alloc, world, script, NullTracer, budget)?;
    Ok(ended.into_outcome()?)
}

/// The same as `run_parsed`, but it parses the first script.
pub(crate) fn run_owned(alloc: Global, world: World, budget: u32) -> Result<Outcome, EndStop>
    requires can_run { CanRun world }
    requires bounded { budget ≤ max_steps }
    ensures outcome { Gives Stops result (outcome_within budget world) }
    ensures between { RunsAs budget world result }
{
    let script = parse_start(alloc, &world)?;
    outcome_of_run(alloc, world, &script, budget)
}

/// The outcome of the run of a world by its seed, within a budget of at most 10,000,000 steps. Its first
/// script was parsed before. The run takes over the world's files and tables, and copies none of them.
///
/// `NotEnded` comes if and only if some process hasn't ended after the steps of the budget; `NoMemory` may
/// come in place of any answer.
pub fn run_parsed(alloc: Global, parsed: ParsedWorld, budget: u32) -> Result<Outcome, EndStop>
    requires can_run { CanRun parsed.world }
    requires parsed { IsParsed parsed }
    requires bounded { budget ≤ max_steps }
    ensures outcome { Gives Stops result (outcome_within budget parsed.world) }
    // Where the world lies between the slice of a larger one and that one, its outcome is that one's.
    ensures between { RunsAs budget parsed.world result }
{
    let ParsedWorld { world, script } = parsed;
    outcome_of_run(alloc, world, &script, budget)
}

/// The same as `run_parsed`, but it parses the first script, and the run changes a copy of the world.
pub fn run_world(alloc: Global, world: &World, budget: u32) -> Result<Outcome, EndStop>
    requires can_run { CanRun world.now }
    requires bounded { budget ≤ max_steps }
    ensures outcome { Gives Stops result (outcome_within budget world.now) }
    ensures between { RunsAs budget world.now result }
{
    let copy = copy_world(world)?;
    run_owned(alloc, copy, budget)
}
