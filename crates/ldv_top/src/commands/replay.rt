//! `replay`: from a package to the outcome of its run.

ghost use Rattle.std.specs.Prelude.{◌≡◌, ◌≤◌, length, IfOk};
ghost use Rattle.ldv_value.specs.Limits.{input_limit, max_steps};
ghost use Rattle.run_model.specs.declared.package.Package.{Package};
ghost use Rattle.run_model.specs.Package.{own_world};
ghost use Rattle.package_layout.specs.StartScript.{StartsWith};
ghost use Rattle.replay_db.specs.Runs.{CanRun};
ghost use Rattle.replay_log.specs.Replays.{CanReplay, Replays};
ghost use Rattle.ldv_top.specs.Due.{response_due, due_world, due_log, replayed_package, due_replay};

use crate::reading::read_parsed_of;
use crate::response::{Response, ended_response};
use ldv_value::Bytes;
use package_codec::{CompactPackage, ParsedPackage};
use package_layout::PackageStop;
use proc_core::RunStop;
use replay_db::replay_included_read;
use replay_log::{can_replay_law, replay_parsed};
use run_model::{Mode, Outcome, Package, outcome_text};
use std::alloc::{AllocError, Global};

fn included_response(
    alloc: Global,
    budget: u32,
    parsed: ParsedPackage,
) -> Result<Response, AllocError>
    requires can_run { CanRun (own_world parsed.cut.bare) }
    requires parsed { StartsWith parsed }
    requires bounded { budget ≤ max_steps }
    ensures { IfOk result (λ response. response_due response
        ≡ due_world budget (own_world parsed.cut.bare)) }
{
    let ended = replay_included_read(alloc, parsed, budget);
    ended_response(alloc, budget, ended)
}

// The response to what comes of the run of a package over its recorded replies.
#[tactic(auto, using(crate::proofs::LogResponses::log_ends))]
fn log_response(
    alloc: Global,
    budget: u32,
    ended: Result<Outcome, RunStop>,
) -> Result<Response, AllocError>
    ensures { (p : Package) → Replays budget p ended
        → IfOk result (λ response. response_due response ≡ due_log budget p) }
{
    match ended {
        Ok(outcome) => Ok(Response::Written(outcome_text(alloc, &outcome)?)),
        Err(RunStop::NotEnded) => Ok(Response::NotEnded(budget)),
        Err(RunStop::Diverged { process, index }) => Ok(Response::Diverged(process, index)),
        Err(RunStop::NoMemory) => Err(AllocError),
    }
}

fn excluded_response(
    alloc: Global,
    budget: u32,
    parsed: ParsedPackage,
) -> Result<Response, AllocError>
    requires can_replay { CanReplay parsed.cut.bare }
    requires parsed { StartsWith parsed }
    requires bounded { budget ≤ max_steps }
    ensures { IfOk result (λ response. response_due response ≡ due_log budget parsed.cut.bare) }
{
    let ParsedPackage { cut, script } = parsed;
    let CompactPackage { bare, runs: _ } = cut;
    let ended = replay_parsed(alloc, bare, &script, budget);
    log_response(alloc, budget, ended)
}

fn replay_package(alloc: Global, budget: u32, parsed: ParsedPackage) -> Result<Response, AllocError>
    requires can_run { CanRun (own_world parsed.cut.bare) }
    requires can_replay { CanReplay parsed.cut.bare }
    requires parsed { StartsWith parsed }
    requires bounded { budget ≤ max_steps }
    ensures { IfOk result (λ response. response_due response ≡ replayed_package budget parsed.cut.bare) }
{
    match parsed.cut.bare.mode {
        Mode::Included => included_response(alloc, budget, parsed),
        Mode::Excluded => excluded_response(alloc, budget, parsed),
    }
}

/// The response of `replay` to an input. The trace isn't looked at, and no list of its events is made.
pub(crate) fn replay_response(
    alloc: Global,
    budget: u32,
    input: Bytes,
) -> Result<Response, AllocError>
    requires short { length input ≤ input_limit }
    requires bounded { budget ≤ max_steps }
    ensures { IfOk result (λ response. response_due response ≡ due_replay budget input) }
{
    can_replay_law();
    match read_parsed_of(alloc, input) {
        Ok(parsed) => replay_package(alloc, budget, parsed),
        Err(PackageStop::Damaged(kind)) => Ok(Response::Damaged(kind)),
        Err(PackageStop::NoMemory) => Err(AllocError),
    }
}
