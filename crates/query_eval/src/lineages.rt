//! The union of the lineages of answers.

ghost use Rattle.std.specs.Prelude.{◌≡◌, ◌∷◌, List as Items, IfOk, OnOk};
ghost use Rattle.lineage.specs.Lineage.{union_of};
ghost use Rattle.lineage.specs.declared.answer.Answer.{Answer as Given};
ghost use Rattle.query_eval.specs.Merging.{lineage_of_answers};

use lineage::{Answer, LineageSet};
use std::alloc::{AllocError, Global};

// Adds the lineage of an answer to a set.
fn add_to_set(lineage: &mut LineageSet, answer: &Answer) -> Result<(), AllocError>
    ensures { OnOk result ((rest : Items Given)
        → union_of lineage.new (lineage_of_answers rest)
        ≡ union_of lineage.old (lineage_of_answers (answer.now ∷ rest))) }
{
    lineage.add_rows(&answer.lineage)
}

/// The union of the lineages of answers, as a set. If the answers stand for rows, it stands for the lineages
/// of all these rows (`proofs/Merges.antt`).
pub fn united_set(alloc: Global, answers: &[Answer]) -> Result<LineageSet, AllocError>
    ensures { IfOk result (λ lineage. lineage ≡ lineage_of_answers answers.now) }
{
    let mut lineage = LineageSet::empty(alloc);
    for answer in answers {
        add_to_set(&mut lineage, answer)?;
    }
    Ok(lineage)
}
