//! Runs over recorded replies.

ghost use Rattle.std.specs.Prelude.{◌≡◌, ◌≤◌, List as Items, Some, [], IfOk};
ghost use Rattle.ldv_value.specs.Limits.{max_steps};
ghost use Rattle.proc_core.specs.Running.{Stands};
ghost use Rattle.run_model.specs.LogRun.{log_start};
ghost use Rattle.run_model.specs.Package.{own_world};
ghost use Rattle.run_model.specs.Start.{start_script};
ghost use Rattle.replay_log.specs.Types.{Instr};
ghost use Rattle.replay_log.specs.Replays.{CanReplay, Replays, with_seed};

use crate::copies::copy_to_replay;
use crate::own::own_files;
use crate::reply_log::ReplyLog;
use crate::start::parse_start;
use file_tree::Tree;
use proc_core::{Run, RunStop};
use run_model::{NullTracer, Outcome, Package};
use script_parse::Script;
use std::alloc::{AllocError, Global};

// The run of a package over its recorded replies, before its first step. The script that it starts with was
// parsed.
fn begin(
    alloc: Global,
    package: Package,
    script: &Script,
) -> Result<Run<ReplyLog, NullTracer>, AllocError>
    requires can_replay { CanReplay «package» }
    requires parsed { start_script (own_world «package») ≡ Some script.now.instructions }
    ensures state { IfOk result (λ run. (due : Items Instr)
        → start_script (own_world «package») ≡ Some due
        → Stands run.machine run.db (log_start «package» due)) }
    ensures steps { IfOk result (λ run. run.steps ≡ 0) }
{
    let Package {
        mode: _,
        start,
        seed,
        steps: _,
        files,
        tables: _,
        logs,
        events: _,
    } = package;
    let own = own_files(alloc, files)?;
    let tree = Tree::of_files(alloc, own)?;
    let db = ReplyLog::of_logs(alloc, logs);
    let begun = Run::start_parsed(&start, script, seed, tree, db, NullTracer)?;
    Ok(begun)
}

/// Runs the files of a package over its recorded replies, at most `budget` steps (at most 10,000,000), and
/// gives the outcome of the run. The first script was parsed before. Replies that are left at the end don't
/// matter.
///
/// `NotEnded` comes if and only if the run has neither ended nor diverged after these steps. `Diverged` comes
/// if and only if the next recorded statement of a process isn't the one that it asks: it has the process,
/// and the number of its statements before that one. `NoMemory` may come in place of any answer.
pub fn replay_parsed(
    alloc: Global,
    package: Package,
    script: &Script,
    budget: u32,
) -> Result<Outcome, RunStop>
    requires can_replay { CanReplay «package» }
    requires parsed { start_script (own_world «package») ≡ Some script.now.instructions }
    requires bounded { budget ≤ max_steps }
    ensures { Replays budget «package» result }
{
    let begun = match begin(alloc, package, script) {
        Ok(begun) => begun,
        Err(AllocError) => return Err(RunStop::NoMemory),
    };
    let ended = match begun.to_end(budget) {
        Ok(ended) => ended,
        Err(stop) => return Err(stop),
    };
    match ended.into_outcome() {
        Ok(outcome) => Ok(outcome),
        Err(AllocError) => Err(RunStop::NoMemory),
    }
}

// The same, where the script wasn't parsed.
fn replay_owned(alloc: Global, package: Package, budget: u32) -> Result<Outcome, RunStop>
    requires can_replay { CanReplay «package» }
    requires bounded { budget ≤ max_steps }
    ensures { Replays budget «package» result }
{
    match parse_start(alloc, &package) {
        Ok(script) => replay_parsed(alloc, package, &script, budget),
        Err(AllocError) => Err(RunStop::NoMemory),
    }
}

/// The same as `replay_parsed`, but it parses the first script, and the run uses a copy of the package.
pub fn replay_excluded(alloc: Global, package: &Package, budget: u32) -> Result<Outcome, RunStop>
    requires can_replay { CanReplay «package».now }
    requires bounded { budget ≤ max_steps }
    ensures { Replays budget «package».now result }
{
    match copy_to_replay(alloc, package) {
        Ok(copy) => replay_owned(alloc, copy, budget),
        Err(AllocError) => Err(RunStop::NoMemory),
    }
}

/// The same as `replay_excluded`, but under another seed than the package's own.
pub fn replay_seeded(
    alloc: Global,
    package: &Package,
    seed: u64,
    budget: u32,
) -> Result<Outcome, RunStop>
    requires can_replay { CanReplay «package».now }
    requires bounded { budget ≤ max_steps }
    ensures { Replays budget (with_seed seed «package».now) result }
{
    match copy_to_replay(alloc, package) {
        Ok(copy) => replay_owned(alloc, Package { seed, ..copy }, budget),
        Err(AllocError) => Err(RunStop::NoMemory),
    }
}

/// The same as `replay_parsed`, but under another seed than the package's own.
pub fn replay_seeded_parsed(
    alloc: Global,
    package: Package,
    script: &Script,
    seed: u64,
    budget: u32,
) -> Result<Outcome, RunStop>
    requires can_replay { CanReplay «package» }
    requires parsed { start_script (own_world «package») ≡ Some script.now.instructions }
    requires bounded { budget ≤ max_steps }
    ensures { Replays budget (with_seed seed «package») result }
{
    replay_parsed(alloc, Package { seed, ..package }, script, budget)
}
