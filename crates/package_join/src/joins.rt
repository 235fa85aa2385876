//! Joining two packages.

ghost use Rattle.std.specs.Prelude.{◌≡◌, IfOk};
ghost use Rattle.package_codec.specs.CompactPackages.{expanded_package};
ghost use Rattle.package_codec.specs.Runs.{IsCut};
ghost use Rattle.package_layout.specs.Valid.{IsValidPackage};
ghost use Rattle.run_model.specs.declared.package.Mode.{Mode};
ghost use Rattle.joined_data.specs.CompactJoins.{CompactJoinsAs};
ghost use Rattle.joined_data.specs.Joined.{joined_of};
ghost use Rattle.joined_data.specs.Parts.{JoinsAs};
ghost use Rattle.package_join.specs.Valid.{IsValidJoined};

use crate::copying::copy_package;
use joined_data::{CompactJoined, JoinStop, Joined, join_owned, join_with_runs};
use package_codec::CompactPackage;
use run_model::Package;
use std::alloc::Global;

/// Joins two valid included packages. `Clash`: they differ, and the clash is the first one by `clash_of` of
/// `specs/Joined.antt` of `joined_data`. Both are copied: `join_owned` copies neither.
pub fn join(alloc: Global, a: &Package, b: &Package) -> Result<Joined, JoinStop>
    requires first { IsValidPackage a.now }
    requires second { IsValidPackage b.now }
    requires first_included { a.now.mode ≡ Mode.Included }
    requires second_included { b.now.mode ≡ Mode.Included }
    ensures joined { JoinsAs result (joined_of a.now b.now) }
    ensures valid { IfOk result (λ joined. IsValidJoined joined) }
{
    let first = copy_package(alloc, a)?;
    let second = copy_package(alloc, b)?;
    join_owned(alloc, first, second)
}

/// The same for packages whose traces are kept as the runs of their events. No list of events is made: the
/// memory grows with the files, tables, rows and runs of both, and never with the number of events.
pub fn join_compact(
    alloc: Global,
    a: CompactPackage,
    b: CompactPackage,
) -> Result<CompactJoined, JoinStop>
    requires first { IsCut a.runs }
    requires second { IsCut b.runs }
    ensures joined { CompactJoinsAs result (joined_of (expanded_package a) (expanded_package b)) }
    // The runs stay those of their events.
    ensures first_cut { IfOk result (λ joined. IsCut joined.first.runs) }
    ensures second_cut { IfOk result (λ joined. IsCut joined.second.runs) }
{
    join_with_runs(alloc, a, b)
}
