//! Copies of worlds.

ghost use Rattle.std.specs.Prelude.{◌≡◌, IfOk};

use run_model::World;
use std::alloc::AllocError;

/// A copy of a world, which a run can consume.
pub(crate) fn copy_world(world: &World) -> Result<World, AllocError>
    ensures { IfOk result (λ copy. copy ≡ world.now) }
{
    Ok(World {
        start: world.start.copy()?,
        seed: world.seed,
        files: world.files.copy()?,
        tables: world.tables.copy()?,
    })
}
