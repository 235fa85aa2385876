//! The rows that a query needs, sorted, each with its rule.

ghost use Rattle.std.specs.Prelude.{◌≡◌, IfOk};
ghost use Rattle.std.specs.Cmp.Lexicographic.{slice_cmp};
ghost use Rattle.std.specs.List.Sorted.{IsStrictlySortedBy};
ghost use Rattle.std.specs.Ordering.{nat_cmp};
ghost use Rattle.lineage.specs.Lineage.{IsNamed};
ghost use Rattle.sql_engine.specs.inner.Listing.{needs_of};

use ldv_value::Names;
use lineage::{LineageSet, needed_by, union_of_needs};
use sql_model::{Needs, Rule};
use std::alloc::{AllocError, Global};

/// The rows of two sets, sorted by table and number: those of the first by the rule of lineages, and those
/// that are in the second alone by the rule of hidden rows. The names are those of all tables, sorted.
pub(crate) fn needs_of(
    alloc: Global,
    names: &Names,
    lineage: &LineageSet,
    hidden: &LineageSet,
) -> Result<Needs, AllocError>
    requires sorted { IsStrictlySortedBy (slice_cmp nat_cmp) names.now }
    requires lineage { IsNamed names.now lineage.now }
    requires hidden { IsNamed names.now hidden.now }
    ensures { IfOk result (λ needs. needs ≡ needs_of names.now lineage.now hidden.now) }
{
    let first = needed_by(Rule::L, lineage.members(names)?)?;
    let others = needed_by(Rule::H, hidden.members(names)?)?;
    union_of_needs(alloc, first.items(), others.items())
}
