//! The union of the lineages of picks.

ghost use Rattle.std.specs.Prelude.{◌≡◌, map, IfOk, OnOk};
ghost use Rattle.group_eval.specs.inner.Uniting.{lineage_of_picks};
ghost use Rattle.lineage.specs.Lineage.{union_of};

use lineage::{LineageRows, LineageSet, Pick};
use std::alloc::{AllocError, Global};

/// Adds the lineages of the picks of a group to a set.
pub(crate) fn add_lineages(lineage: &mut LineageSet, group: &[&Pick]) -> Result<(), AllocError>
    ensures { OnOk result (lineage.new
        ≡ union_of lineage.old (lineage_of_picks (map (λ r. r.now) group.now))) }
{
    for pick in group {
        lineage.add_rows(&pick.lineage)?;
    }
    Ok(())
}

// Adds the lineages of the picks of a group to a list.
fn append_lineages(lineage: &mut LineageRows, group: &[&Pick]) -> Result<(), AllocError>
    ensures { OnOk result (lineage.new
        ≡ union_of lineage.old (lineage_of_picks (map (λ r. r.now) group.now))) }
{
    for pick in group {
        lineage.union(&pick.lineage)?;
    }
    Ok(())
}

/// The union of the lineages of the picks of a group.
#[tactic(auto, using(lineage::proofs::Unions::union_none))]
pub(crate) fn lineage_of_picks(alloc: Global, group: &[&Pick]) -> Result<LineageRows, AllocError>
    ensures { IfOk result (λ lineage. lineage ≡ lineage_of_picks (map (λ r. r.now) group.now)) }
{
    let mut lineage = LineageRows::empty(alloc);
    append_lineages(&mut lineage, group)?;
    Ok(lineage)
}
