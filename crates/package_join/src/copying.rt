//! A copy of a package without its logs.

ghost use Rattle.std.specs.Prelude.{◌≡◌, IfOk};
ghost use Rattle.package_join.specs.inner.Copying.{without_logs};

use ldv_value::List;
use run_model::Package;
use std::alloc::{AllocError, Global};

/// A copy of a package, without logs.
pub(crate) fn copy_package(alloc: Global, package: &Package) -> Result<Package, AllocError>
    ensures { IfOk result (λ copy. copy ≡ without_logs «package».now) }
{
    Ok(Package {
        mode: package.mode,
        start: package.start.copy()?,
        seed: package.seed,
        steps: package.steps,
        files: package.files.copy()?,
        tables: package.tables.copy()?,
        logs: List::new(alloc),
        events: package.events.copy()?,
    })
}
