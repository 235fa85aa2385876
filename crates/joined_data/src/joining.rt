//! Joins two packages in their own memory: both are taken apart, and their parts are merged.

ghost use Rattle.std.specs.Prelude.{◌≡◌, IfOk};
ghost use Rattle.joined_data.specs.CompactJoins.{JoinsWithRuns};
ghost use Rattle.joined_data.specs.Joined.{joined_of};
ghost use Rattle.joined_data.specs.Parts.{JoinsAs, early_clash, joined_after, joined_parts, join_of_parts};

use crate::clash::{files_clash, schemas_clash, taken_key, values_clash};
use crate::compact_joined::{CompactJoined, with_runs};
use crate::joined::{Clash, Joined};
use crate::merging::merge_lists;
use crate::parts::{Parts, parts_of};
use package_codec::CompactPackage;
use run_model::Package;
use std::alloc::{AllocError, Global};

/// Why two packages aren't joined.
#[derive(Drop)]
pub enum JoinStop {
    /// The packages differ: their first clash.
    Clash(Clash),
    /// Out of memory.
    NoMemory,
}

impl From<AllocError> for JoinStop {
    ghost use Rattle.std.specs.Prelude.{◌≡◌};
    ghost use Rattle.joined_data.specs.declared.joining.JoinStop.TheVariants.{NoMemory};

    ghost from_gives = { λ _ stop. stop ≡ NoMemory };

    fn from(_error: AllocError) -> Self {
        JoinStop::NoMemory
    }
}

/// Joins two valid included packages in their own memory: values and events are moved. `Clash`: they differ,
/// and the clash is the first one by `clash_of` of `specs/Joined.antt`.
#[tactic(auto, using(crate::proofs::PartLaws::parts_joined))]
pub fn join_owned(alloc: Global, a: Package, b: Package) -> Result<Joined, JoinStop>
    ensures { JoinsAs result (joined_of a b) }
{
    let first = parts_of(alloc, a)?;
    let second = parts_of(alloc, b)?;
    join_parts(alloc, first, second)
}

/// Joins two packages without their traces, and adds the runs of both. The errors are those of `join_owned`.
pub fn join_with_runs(
    alloc: Global,
    a: CompactPackage,
    b: CompactPackage,
) -> Result<CompactJoined, JoinStop>
    ensures { JoinsWithRuns a.runs b.runs result (joined_of a.bare b.bare) }
{
    match join_owned(alloc, a.bare, b.bare) {
        Ok(joined) => Ok(with_runs(a.runs, b.runs, joined)),
        Err(JoinStop::Clash(clash)) => Err(JoinStop::Clash(clash)),
        Err(JoinStop::NoMemory) => Err(JoinStop::NoMemory),
    }
}

fn join_parts(alloc: Global, first: Parts, second: Parts) -> Result<Joined, JoinStop>
    ensures { JoinsAs result (joined_parts first second) }
{
    let clash = early_clash(&first, &second)?;
    join_after(alloc, clash, first, second)
}

fn early_clash(first: &Parts, second: &Parts) -> Result<Option<Clash>, AllocError>
    ensures { IfOk result (λ clash. clash ≡ early_clash first.now second.now) }
{
    match files_clash(first.files.items(), second.files.items())? {
        Some(clash) => Ok(Some(clash)),
        None => match schemas_clash(first.tables.items(), second.tables.items())? {
            Some(clash) => Ok(Some(clash)),
            None => values_clash(first.tables.items(), second.tables.items()),
        },
    }
}

fn join_after(
    alloc: Global,
    clash: Option<Clash>,
    first: Parts,
    second: Parts,
) -> Result<Joined, JoinStop>
    ensures { JoinsAs result (joined_after clash first second) }
{
    match clash {
        Some(clash) => Err(JoinStop::Clash(clash)),
        None => join_of_parts(alloc, first, second),
    }
}

fn join_of_parts(alloc: Global, first: Parts, second: Parts) -> Result<Joined, JoinStop>
    ensures { JoinsAs result (join_of_parts first second) }
{
    let tables = merge_lists(alloc, first.tables, second.tables)?;
    match taken_key(alloc, tables.items())? {
        Some(clash) => Err(JoinStop::Clash(clash)),
        None => Ok(Joined {
            files: merge_lists(alloc, first.files, second.files)?,
            tables,
            first: first.run,
            second: second.run,
        }),
    }
}
