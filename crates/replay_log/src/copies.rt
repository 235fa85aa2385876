//! A copy of the parts of a package that a run over recorded replies takes.

ghost use Rattle.std.specs.Prelude.{◌≡◌, IfOk};
ghost use Rattle.replay_log.specs.Replays.{without_trace};

use run_model::{Events, Package, PackedTables};
use std::alloc::{AllocError, Global};

/// A copy of a package without its trace and tables.
pub(crate) fn copy_to_replay(alloc: Global, package: &Package) -> Result<Package, AllocError>
    ensures { IfOk result (λ copy. copy ≡ without_trace «package».now) }
{
    Ok(Package {
        mode: package.mode,
        start: package.start.copy()?,
        seed: package.seed,
        steps: package.steps,
        files: package.files.copy()?,
        tables: PackedTables::new(alloc),
        logs: package.logs.copy()?,
        events: Events::new(alloc),
    })
}
