//! `replay --seed`: from a package to the outcome of its run under another seed.

ghost use Rattle.std.specs.Prelude.{◌≡◌, ◌≤◌, ℕ, length, true, IfOk};
ghost use Rattle.ldv_value.specs.Limits.{input_limit, max_steps};
ghost use Rattle.run_model.specs.declared.package.Package.{Package};
ghost use Rattle.package_codec.specs.CompactPackages.{expanded_package};
ghost use Rattle.package_codec.specs.Runs.{are_runs};
ghost use Rattle.package_layout.specs.StartScript.{StartsWith};
ghost use Rattle.replay_log.specs.Replays.{CanReplay};
ghost use Rattle.free_order.specs.OtherSeed.{ReplaysUnder};
ghost use Rattle.ldv_top.specs.Due.{response_due, reseeded_package, due_replay_seed};

use crate::reading::read_parsed_of;
use crate::response::Response;
use free_order::{OrderStop, replay_other_seed_parsed};
use ldv_value::Bytes;
use package_codec::{ParsedPackage, expanded_package};
use package_layout::PackageStop;
use replay_log::can_replay_law;
use run_model::{Outcome, outcome_text};
use std::alloc::{AllocError, Global};

// The response to what comes of the run of a package under another seed.
#[tactic(auto, using(crate::proofs::SeedResponses::seed_ends))]
fn reseeded_response(
    alloc: Global,
    budget: u32,
    ended: Result<Outcome, OrderStop>,
) -> Result<Response, AllocError>
    ensures { (seed : ℕ) (p : Package) → ReplaysUnder seed budget p ended
        → IfOk result (λ response. response_due response ≡ reseeded_package seed budget p) }
{
    match ended {
        Ok(outcome) => Ok(Response::Written(outcome_text(alloc, &outcome)?)),
        Err(OrderStop::NotPrivate) => Ok(Response::NotPrivate),
        Err(OrderStop::NotEnded) => Ok(Response::NotEnded(budget)),
        Err(OrderStop::Diverged { process, index }) => Ok(Response::Diverged(process, index)),
        Err(OrderStop::NoMemory) => Err(AllocError),
    }
}

// The list of its events is made, and they are looked at.
fn parsed_response(
    alloc: Global,
    seed: u64,
    budget: u32,
    parsed: ParsedPackage,
) -> Result<Response, AllocError>
    requires can_replay { CanReplay (expanded_package parsed.cut) }
    requires parsed { StartsWith parsed }
    requires runs { are_runs parsed.cut.runs ≡ true }
    requires bounded { budget ≤ max_steps }
    ensures { IfOk result (λ response. response_due response
        ≡ reseeded_package seed budget (expanded_package parsed.cut)) }
{
    let ParsedPackage { cut, script } = parsed;
    let whole = expanded_package(alloc, cut)?;
    let ended = replay_other_seed_parsed(alloc, whole, &script, seed, budget);
    reseeded_response(alloc, budget, ended)
}

/// The response of `replay --seed` to an input. The events of its trace show whether its processes share a
/// path that one of them changes.
pub(crate) fn replay_seed_response(
    alloc: Global,
    seed: u64,
    budget: u32,
    input: Bytes,
) -> Result<Response, AllocError>
    requires short { length input ≤ input_limit }
    requires bounded { budget ≤ max_steps }
    ensures { IfOk result (λ response. response_due response ≡ due_replay_seed seed budget input) }
{
    can_replay_law();
    match read_parsed_of(alloc, input) {
        Ok(parsed) => parsed_response(alloc, seed, budget, parsed),
        Err(PackageStop::Damaged(kind)) => Ok(Response::Damaged(kind)),
        Err(PackageStop::NoMemory) => Err(AllocError),
    }
}
