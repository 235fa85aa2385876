//! Replay of packages that hold the needed rows.

ghost use Rattle.std.specs.Prelude.{◌≡◌, ◌≤◌, Some};
ghost use Rattle.ldv_value.specs.Gives.{Gives};
ghost use Rattle.ldv_value.specs.Limits.{max_steps};
ghost use Rattle.package_layout.specs.StartScript.{StartsWith};
ghost use Rattle.run_model.specs.Package.{own_world};
ghost use Rattle.run_model.specs.Start.{start_script};
ghost use Rattle.run_model.specs.WorldRun.{outcome_within};
ghost use Rattle.replay_db.specs.Runs.{CanRun, Stops};

use crate::error::EndStop;
use crate::own::{own_parsed_world, own_world};
use crate::run::{run_owned, run_parsed};
use package_codec::{CompactPackage, ParsedPackage};
use run_model::{Outcome, Package};
use script_parse::Script;
use std::alloc::Global;

/// The outcome of the run of an included package's own world, within a budget of at most 10,000,000 steps.
/// The recorded trace and the recorded number of steps aren't looked at. The own world of every valid package
/// can be run, as `package_law` says.
///
/// `NotEnded` comes if and only if some process hasn't ended after the steps of the budget; `NoMemory` may
/// come in place of any answer.
pub fn replay_included(alloc: Global, package: &Package, budget: u32) -> Result<Outcome, EndStop>
    requires can_run { CanRun (own_world «package».now) }
    requires bounded { budget ≤ max_steps }
    ensures { Gives Stops result (outcome_within budget (own_world «package».now)) }
{
    let world = own_world(alloc, package)?;
    run_owned(alloc, world, budget)
}

/// The same as `replay_included`, with the first script parsed before. The run takes over the package's files
/// and rows, and copies none of them.
pub fn replay_included_parsed(
    alloc: Global,
    package: Package,
    script: Script,
    budget: u32,
) -> Result<Outcome, EndStop>
    requires can_run { CanRun (own_world «package») }
    requires parsed { start_script (own_world «package») ≡ Some script.instructions }
    requires bounded { budget ≤ max_steps }
    ensures { Gives Stops result (outcome_within budget (own_world «package»)) }
{
    let own = own_parsed_world(alloc, package, script)?;
    run_parsed(alloc, own, budget)
}

/// The same as `replay_included_parsed`, for a package as it was read. Its trace and its number of steps are
/// dropped unseen.
pub fn replay_included_read(
    alloc: Global,
    parsed: ParsedPackage,
    budget: u32,
) -> Result<Outcome, EndStop>
    requires can_run { CanRun (own_world parsed.cut.bare) }
    requires parsed { StartsWith parsed }
    requires bounded { budget ≤ max_steps }
    ensures { Gives Stops result (outcome_within budget (own_world parsed.cut.bare)) }
{
    let ParsedPackage { cut, script } = parsed;
    let CompactPackage { bare, runs: _ } = cut;
    replay_included_parsed(alloc, bare, script, budget)
}
