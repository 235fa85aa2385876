//! `replay --run`: from a joined package to the outcome of the world of one of its runs.

ghost use Rattle.std.specs.Prelude.{◌≡◌, ◌≤◌, length, IfOk, IfSome};
ghost use Rattle.std.specs.List.{AllByRecursion};
ghost use Rattle.ldv_value.specs.Limits.{input_limit, max_steps};
ghost use Rattle.joined_data.specs.Rooms.{TypedCommonTable};
ghost use Rattle.package_join.specs.CompactValid.{CompactJoinedReadsAs};
ghost use Rattle.joined_data.specs.CompactJoins.{whole_join};
ghost use Rattle.package_join.specs.ParsedJoins.{StartRuns, cut_of};
ghost use Rattle.package_join.specs.Valid.{IsJoinedRead, joined_reading};
ghost use Rattle.package_join.specs.Worlds.{joined_world};
ghost use Rattle.run_model.specs.ValidWorld.{CanRun};
ghost use Rattle.ldv_top.specs.Due.{response_due, due_replay_run, due_world};
ghost use Rattle.ldv_top.specs.Words.{IsBounded};
ghost use Rattle.ldv_top.specs.WordsOfJoins.{replay_of_run, which_of};

use crate::command::Command;
use crate::response::{Response, parsed_response};
use joined_data::{ParsedJoined, Which};
use ldv_value::Bytes;
use package_join::{joined_parsed_world, joined_runs_law, read_parsed_joined};
use package_layout::PackageStop;
use std::alloc::{AllocError, Global};

fn which_of(number: &str) -> Option<Which>
    ensures { result ≡ which_of number.now }
{
    if number == "1" {
        Some(Which::First)
    } else if number == "2" {
        Some(Which::Second)
    } else {
        None
    }
}

/// The command `replay --run K`, with the budget of the run.
pub(crate) fn replay_of_run(word: &str, number: &str, budget: u32) -> Option<Command>
    requires { budget ≤ max_steps }
    ensures command { result ≡ replay_of_run word.now number.now budget }
    ensures bounded { IfSome result (λ command. IsBounded command) }
{
    if word == "replay" {
        let which = which_of(number)?;
        Some(Command::ReplayRun { which, budget })
    } else {
        None
    }
}

// The joined package that the input is, with its traces kept as runs and with its scripts. The input isn't
// kept.
fn read_joined_of(alloc: Global, input: Bytes) -> Result<ParsedJoined, PackageStop>
    ensures found { IfOk result (λ p. IsJoinedRead input (whole_join p.cut)) }
    ensures typed { IfOk result (λ p. AllByRecursion TypedCommonTable p.cut.tables) }
    ensures parsed { IfOk result StartRuns }
    ensures reading { CompactJoinedReadsAs (cut_of result) (joined_reading input) }
{
    read_parsed_joined(alloc, input.as_slice())
}

/// The response of `replay --run` to an input. No list of events is made.
pub(crate) fn replay_run_response(
    alloc: Global,
    which: Which,
    budget: u32,
    input: Bytes,
) -> Result<Response, AllocError>
    requires short { length input ≤ input_limit }
    requires bounded { budget ≤ max_steps }
    ensures { IfOk result (λ response. response_due response ≡ due_replay_run which budget input) }
{
    joined_runs_law();
    match read_joined_of(alloc, input) {
        Ok(joined) => run_response(alloc, which, budget, joined),
        Err(PackageStop::Damaged(kind)) => Ok(Response::Damaged(kind)),
        Err(PackageStop::NoMemory) => Err(AllocError),
    }
}

fn run_response(
    alloc: Global,
    which: Which,
    budget: u32,
    joined: ParsedJoined,
) -> Result<Response, AllocError>
    requires can_run { CanRun (joined_world which (whole_join joined.cut)) }
    requires parsed { StartRuns joined }
    requires bounded { budget ≤ max_steps }
    ensures { IfOk result (λ response. response_due response
        ≡ due_world budget (joined_world which (whole_join joined.cut))) }
{
    let parsed = joined_parsed_world(alloc, joined, which)?;
    parsed_response(alloc, budget, parsed)
}
