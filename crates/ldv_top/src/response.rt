//! The response of a command before anything is written, and the response to the run of a world.

ghost use Rattle.std.specs.Prelude.{◌≡◌, ◌≤◌, IfOk};
ghost use Rattle.ldv_value.specs.Gives.{Gives};
ghost use Rattle.ldv_value.specs.Limits.{max_steps};
ghost use Rattle.run_model.specs.Start.{IsParsed};
ghost use Rattle.run_model.specs.WorldRun.{outcome_within};
ghost use Rattle.replay_db.specs.Runs.{CanRun, Stops};
ghost use Rattle.replay_db.specs.Types.{World};
ghost use Rattle.ldv_top.specs.Due.{response_due, due_world};

use joined_data::Clash;
use ldv_value::Bytes;
use package_layout::DamageKind;
use replay_db::{EndStop, run_parsed};
use run_model::{Outcome, ParsedWorld, ProcName, outcome_text};
use std::alloc::{AllocError, Global};
use world_json::WorldFault;

/// The response of a command, before anything is written: the bytes to write, or another exit.
#[derive(Drop)]
pub enum Response {
    /// The bytes of the output.
    Written(Bytes),
    /// The input is no world.
    NotWorld(WorldFault),
    /// The run hasn't ended after the steps of this budget.
    NotEnded(u32),
    /// In the replay of an excluded package, this process asks another statement than the recorded one, or
    /// none is left. The number, from 0, is that of the statement among those of the process.
    Diverged(ProcName, u32),
    /// The input isn't a package, or isn't the input of `join` or `replay --run`.
    Damaged(DamageKind),
    /// The two packages of `join` differ.
    Clash(Clash),
    /// The package or the document has no such item, or the command needs an included package and this one is
    /// excluded.
    NoSuch,
    /// The package would have more than 67,108,864 bytes.
    PackageTooLong,
    /// The package has rows, or its processes share a path that one of them changes.
    NotPrivate,
    /// The input is no provenance document.
    NotProv,
}

/// The response to the result of the run of a world within a budget.
#[tactic(auto, using(crate::proofs::ResponseLaws::world_ends))]
pub(crate) fn ended_response(
    alloc: Global,
    budget: u32,
    ended: Result<Outcome, EndStop>,
) -> Result<Response, AllocError>
    ensures { (w : World) → Gives Stops ended (outcome_within budget w)
        → IfOk result (λ response. response_due response ≡ due_world budget w) }
{
    match ended {
        Ok(outcome) => Ok(Response::Written(outcome_text(alloc, &outcome)?)),
        Err(EndStop::NotEnded) => Ok(Response::NotEnded(budget)),
        Err(EndStop::NoMemory) => Err(AllocError),
    }
}

/// The response to the run of a world whose script was parsed before.
pub(crate) fn parsed_response(
    alloc: Global,
    budget: u32,
    parsed: ParsedWorld,
) -> Result<Response, AllocError>
    requires can_run { CanRun parsed.world }
    requires parsed { IsParsed parsed }
    requires bounded { budget ≤ max_steps }
    ensures { IfOk result (λ response. response_due response ≡ due_world budget parsed.world) }
{
    let ended = run_parsed(alloc, parsed, budget);
    ended_response(alloc, budget, ended)
}
