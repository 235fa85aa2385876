//! The run of a world with its events and the replies to its statements recorded.

ghost use Rattle.std.specs.Prelude.{◌≡◌, ◌≤◌, List as Items, Some, [], true, slice_get, IfOk, IfErr};
ghost use Rattle.ldv_value.specs.Limits.{max_steps};
ghost use Rattle.proc_core.specs.Running.{Stands};
ghost use Rattle.run_model.specs.Events.{start_events};
ghost use Rattle.run_model.specs.Start.{start_script};
ghost use Rattle.sql_engine.specs.Asking.{database};
ghost use Rattle.run_laws.specs.KeptReplies.{logs_kept};
ghost use Rattle.replay_db.specs.inner.Logging.{IsLogged, keeping_database, kept_start};
ghost use Rattle.replay_db.specs.inner.Recording.{HasNotEnded};
ghost use Rattle.replay_db.specs.Runs.{CanRun};
ghost use Rattle.replay_db.specs.Types.{Instr};

use crate::error::EndStop;
use crate::recorder::Recorder;
use crate::setting::{Setting, setting_of};
use proc_core::{Run, RunStop};
use run_model::{Events, ListTracer, Logs, World};
use script_parse::Script;
use sql_engine::Engine;
use std::alloc::{AllocError, Global};

/// The record of an ended run: its events, the number of its steps, and the statements of each process with
/// their replies.
#[derive(Drop)]
pub(crate) struct Logged {
    pub events: Events,
    pub steps: u32,
    pub logs: Logs,
}

// The run of a world before its first step. What it will ask is kept.
fn begin(
    alloc: Global,
    world: World,
    script: &Script,
) -> Result<Run<Recorder<Engine>, ListTracer>, AllocError>
    requires can_run { CanRun world }
    requires parsed { start_script world ≡ Some script.now.instructions }
    ensures state { IfOk result (λ run. (due : Items Instr) → start_script world ≡ Some due
        → Stands run.machine (keeping_database (database run.db.db) run.db.kept) (kept_start world due)) }
    ensures told { IfOk result (λ run. run.tracer ≡ start_events (slice_get world.start 0)) }
    ensures steps { IfOk result (λ run. run.steps ≡ 0) }
{
    let World {
        start,
        seed,
        files,
        tables,
    } = world;
    let Setting { tree, engine } = setting_of(alloc, files, tables)?;
    let recorder = Recorder::over(alloc, engine);
    let begun = Run::start_parsed(&start, script, seed, tree, recorder, ListTracer::new(alloc))?;
    Ok(begun)
}

// What is recorded of a run, at its end.
fn recorded_run(run: Run<Recorder<Engine>, ListTracer>) -> Result<Logged, AllocError>
    ensures events { IfOk result (λ logged. logged.events ≡ run.tracer) }
    ensures steps { IfOk result (λ logged. logged.steps ≡ run.steps) }
    ensures logs { IfOk result (λ logged. logged.logs ≡ logs_kept run.db.kept) }
{
    let steps = run.steps();
    let (recorder, tracer) = run.into_parts();
    let logs = recorder.logs()?;
    Ok(Logged {
        events: tracer.events(),
        steps,
        logs,
    })
}

/// Runs a world within a budget of steps, and returns the record of the run, with the replies. No statement
/// of SQL diverges.
pub(crate) fn log_world(
    alloc: Global,
    world: World,
    script: &Script,
    budget: u32,
) -> Result<Logged, EndStop>
    requires can_run { CanRun world }
    requires parsed { start_script world ≡ Some script.now.instructions }
    requires bounded { budget ≤ max_steps }
    ensures logged { IfOk result (λ logged. IsLogged budget world logged) }
    ensures not_ended { IfErr result (HasNotEnded budget world) }
{
    let begun = begin(alloc, world, script)?;
    match begun.to_end(budget) {
        Ok(ended) => Ok(recorded_run(ended)?),
        Err(RunStop::NotEnded) => Err(EndStop::NotEnded),
        Err(
            RunStop::Diverged {
                process: _,
                index: _,
            },
        ) => unreachable!(),
        Err(RunStop::NoMemory) => Err(EndStop::NoMemory),
    }
}
