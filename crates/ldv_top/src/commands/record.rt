//! `record`: from a world document to the package of its run.

ghost use Rattle.std.specs.Prelude.{◌≡◌, ◌≤◌, length, IfOk, OnOk};
ghost use Rattle.ldv_value.specs.Limits.{input_limit, max_steps};
ghost use Rattle.package_layout.specs.Whole.{spelling};
ghost use Rattle.run_model.specs.Start.{IsParsed};
ghost use Rattle.replay_db.specs.Runs.{CanRun};
ghost use Rattle.ldv_top.specs.Due.{response_due, due_spelling, recorded_world, due_record};
ghost use Rattle.ldv_top.specs.Headline.{IsRecording};
ghost use Rattle.ldv_top.specs.declared.exit.Exit.{Exit};

use crate::laws::headline_law::headline_law;
use crate::reading::read_world;
use crate::response::Response;
use ldv_value::Bytes;
use package_layout::{SpellStop, spell};
use replay_db::{EndStop, record_parsed};
use run_model::{Mode, Package, ParsedWorld};
use std::alloc::{AllocError, Global};
use world_json::WorldStop;

#[tactic(auto, using(crate::proofs::RecordLaws::spelling_ends))]
fn spelling_response(alloc: Global, package: &Package) -> Result<Response, AllocError>
    ensures { IfOk result (λ response. response_due response ≡ due_spelling (spelling «package».now)) }
{
    match spell(alloc, package) {
        Ok(bytes) => Ok(Response::Written(bytes)),
        Err(SpellStop::TooLong) => Ok(Response::PackageTooLong),
        Err(SpellStop::NoMemory) => Err(AllocError),
    }
}

fn recorded_response(
    alloc: Global,
    mode: Mode,
    budget: u32,
    parsed: ParsedWorld,
) -> Result<Response, AllocError>
    requires can_run { CanRun parsed.world }
    requires parsed { IsParsed parsed }
    requires bounded { budget ≤ max_steps }
    ensures { IfOk result (λ response. response_due response ≡ recorded_world mode budget parsed.world) }
{
    match record_parsed(alloc, &parsed, mode, budget) {
        Ok(package) => spelling_response(alloc, &package),
        Err(EndStop::NotEnded) => Ok(Response::NotEnded(budget)),
        Err(EndStop::NoMemory) => Err(AllocError),
    }
}

/// The response of `record` to an input.
pub(crate) fn record_response(
    alloc: Global,
    mode: Mode,
    budget: u32,
    input: Bytes,
) -> Result<Response, AllocError>
    requires short { length input ≤ input_limit }
    requires bounded { budget ≤ max_steps }
    ensures due { IfOk result (λ response. response_due response ≡ due_record mode budget input) }
    // Bytes to write are the package of the document's world.
    ensures recorded { OnOk result ((due_record mode budget input).exit ≡ Exit.Done
        → IsRecording mode budget input (due_record mode budget input).bytes) }
{
    headline_law();
    match read_world(alloc, input) {
        Ok(parsed) => recorded_response(alloc, mode, budget, parsed),
        Err(WorldStop::Fault(fault)) => Ok(Response::NotWorld(fault)),
        Err(WorldStop::NoMemory) => Err(AllocError),
    }
}
