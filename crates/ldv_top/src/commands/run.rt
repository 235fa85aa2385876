//! `run`: from a world's document to the outcome of its run.

ghost use Rattle.std.specs.Prelude.{◌≡◌, ◌≤◌, length, IfOk};
ghost use Rattle.ldv_value.specs.Limits.{input_limit, max_steps};
ghost use Rattle.ldv_top.specs.Due.{response_due, due_run};

use crate::reading::read_world;
use crate::response::{Response, parsed_response};
use ldv_value::Bytes;
use std::alloc::{AllocError, Global};
use world_json::WorldStop;

/// The response of `run` to an input.
pub(crate) fn run_response(alloc: Global, budget: u32, input: Bytes) -> Result<Response, AllocError>
    requires short { length input ≤ input_limit }
    requires bounded { budget ≤ max_steps }
    ensures { IfOk result (λ response. response_due response ≡ due_run budget input) }
{
    match read_world(alloc, input) {
        Ok(parsed) => parsed_response(alloc, budget, parsed),
        Err(WorldStop::Fault(fault)) => Ok(Response::NotWorld(fault)),
        Err(WorldStop::NoMemory) => Err(AllocError),
    }
}
