//! Worlds of documents.

ghost use Rattle.replay_db.specs.Runs.{CanRun};

use run_model::World;
use std::alloc::Global;
use std::process::Abort;
use world_json::world_of;

/// The world of a valid document.
pub(crate) fn world_of_text(rt: &impl Abort, alloc: Global, text: &str) -> World
    ensures { CanRun result }
{
    match world_of(alloc, text.as_bytes()) {
        Ok(world) => world,
        Err(stop) => panic!(rt; "{stop:?}"),
    }
}
