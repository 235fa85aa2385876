//! The run of a world with its events recorded.

ghost use Rattle.std.specs.Prelude.{◌≡◌, ◌≤◌, Some, IfOk, IfErr};
ghost use Rattle.ldv_value.specs.Limits.{max_steps};
ghost use Rattle.run_model.specs.Start.{start_script};
ghost use Rattle.replay_db.specs.inner.Recording.{HasNotEnded, IsTraced};
ghost use Rattle.replay_db.specs.Runs.{CanRun};

use crate::error::EndStop;
use crate::run::run_to_end;
use run_model::{Events, ListTracer, World};
use script_parse::Script;
use std::alloc::Global;

/// The record of an ended run: its events, and the number of its steps.
#[derive(Drop)]
pub(crate) struct Traced {
    pub events: Events,
    pub steps: u32,
}

/// Runs a world within a budget of steps, and returns the record of the run.
pub(crate) fn trace_world(
    alloc: Global,
    world: World,
    script: &Script,
    budget: u32,
) -> Result<Traced, EndStop>
    requires can_run { CanRun world }
    requires parsed { start_script world ≡ Some script.now.instructions }
    requires bounded { budget ≤ max_steps }
    ensures traced { IfOk result (λ traced. IsTraced budget world traced) }
    ensures not_ended { IfErr result (HasNotEnded budget world) }
{
    let ended = run_to_end(alloc, world, script, ListTracer::new(alloc), budget)?;
    let steps = ended.steps();
    let (_engine, tracer) = ended.into_parts();
    Ok(Traced {
        events: tracer.events(),
        steps,
    })
}
