//! The rows of the cores of a query.

ghost use Rattle.std.specs.Prelude.{◌≡◌, ◌≤◌, ◌<◌, ◌∷◌, ◌++◌, List as Items, ℕ, Bool, true, not, drop, IfOk};
ghost use Rattle.std.specs.Prelude.{if◌then◌else◌};
ghost use Rattle.lineage.specs.Rows.{AnswersStandFor};
ghost use Rattle.sql_model.specs.Needs.{Versions};
ghost use Rattle.predicates.specs.Checking.{HasCore, IsQuery};
ghost use Rattle.sql_engine.specs.inner.Answering.{AreRows, IsEvaluated, IsCore, AreAll, merges_later};
ghost use Rattle.sql_engine.specs.Types.{StoreHistory};
ghost use Rattle.sql_model.specs.QueryAnswer.{Origin, AnswerRow, once};
ghost use Rattle.sql_model.specs.Refusals.{cores_of};

use group_eval::group;
use ldv_value::List;
use lineage::{Answers, LineageSet, Picks};
use predicates::{core_of, query_of};
use query_eval::{merge, picked, project};
use sql_check::groups;
use sql_model::{Checked, Core};
use std::alloc::{AllocError, Global};
use table_store::Store;

/// Answer rows, and the rows of tables in groups that HAVING rejects.
#[derive(Drop)]
pub(crate) struct CoreRows {
    pub answers: Answers,
    pub rejected: LineageSet,
}

// The rows of a core from its picked combinations.
fn evaluate_core(checked: &Checked, place: usize, picks: Picks) -> Result<CoreRows, AllocError>
    requires { HasCore checked.now place }
    ensures { IfOk result (IsEvaluated checked.now place picks) }
{
    if groups(core_of(checked, place)) {
        let grouped = group(checked, place, picks)?;
        return Ok(CoreRows {
            answers: grouped.answers,
            rejected: grouped.rejected,
        });
    }
    let alloc = picks.allocator();
    Ok(CoreRows {
        answers: project(checked, place, picks)?,
        rejected: LineageSet::empty(alloc),
    })
}

// Rows of the same values as one, where DISTINCT wants it.
#[tactic(auto, using(crate::proofs::AnswerLaws::once_merged))]
fn once(distinct: bool, rows: CoreRows) -> Result<CoreRows, AllocError>
    ensures { IfOk result (λ made. (store : StoreHistory) (keep : Bool) (now : Items AnswerRow)
        (hidden : Items Origin) → AreRows store keep now hidden rows
        → AreRows store keep (once distinct now) hidden made) }
{
    if !distinct {
        return Ok(rows);
    }
    Ok(CoreRows {
        answers: merge(rows.answers)?,
        rejected: rows.rejected,
    })
}

// The rows of the core at a place.
fn core_rows(
    checked: &Checked,
    place: usize,
    store: &Store,
    keep: bool,
) -> Result<CoreRows, AllocError>
    requires { HasCore checked.now place }
    ensures { IfOk result (IsCore checked.now place store.now keep) }
{
    let picks = picked(checked, place, store, keep)?;
    let rows = evaluate_core(checked, place, picks)?;
    once(core_of(checked, place).distinct, rows)
}

// Appends answers to others.
fn append_answers(answers: Answers, more: Answers) -> Result<Answers, AllocError>
    ensures { IfOk result (λ made. made ≡ answers ++ more) }
{
    let mut made = answers;
    for answer in more.into_vec() {
        made.push(answer)?;
    }
    Ok(made)
}

// Rows of the same values as one, where they are to be merged.
fn merged_if(merges: bool, answers: Answers) -> Result<Answers, AllocError>
    ensures { IfOk result (λ made. (names : Items (Items ℕ)) (versions : Versions) (keep : Bool)
        (rows : Items AnswerRow) → AnswersStandFor names versions keep answers rows
        → AnswersStandFor names versions keep made (once merges rows)) }
{
    if merges { merge(answers) } else { Ok(answers) }
}

// Appends rows to others, and merges rows of the same values then, where they are to be merged.
fn unite_rows(merges: bool, rows: CoreRows, more: CoreRows) -> Result<CoreRows, AllocError>
    ensures { IfOk result (λ made. (store : StoreHistory) (keep : Bool) (now after : Items AnswerRow)
        (hidden others : Items Origin) → AreRows store keep now hidden rows
        → AreRows store keep after others more
        → AreRows store keep (once merges (now ++ after)) (hidden ++ others) made) }
{
    let CoreRows { answers, rejected } = rows;
    let mut set = rejected;
    set.union(&more.rejected)?;
    let both = append_answers(answers, more.answers)?;
    Ok(CoreRows {
        answers: merged_if(merges, both)?,
        rejected: set,
    })
}

// How many cores there are up to the last before which UNION without ALL stands.
fn count_merged(cores: &[Core]) -> usize
    ensures { (place : ℕ) → place < result → merges_later (drop place cores.now) ≡ true }
{
    let mut count = 0;
    let mut place = 0;
    for core in cores {
        place += 1;
        count = count_with(core, place, count);
    }
    count
}

// The count, or the place after a core before which UNION without ALL stands.
fn count_with(core: &Core, after: usize, count: usize) -> usize
    ensures { result ≡ (if core.now.joined_all then count else after) }
{
    if core.joined_all { count } else { after }
}

// Whether rows are merged with those of a core. After the first `merged` cores UNION without ALL does it.
// Among these nothing is lost if they wait for the last one, so they are merged where they are many.
fn merges_here(core: &Core, place: usize, merged: usize, are_many: bool) -> bool
    ensures { merged ≤ place → result ≡ not core.now.joined_all }
{
    if place < merged {
        are_many
    } else {
        !core.joined_all
    }
}

// Whether there are twice as many rows as after the last merging, or more.
fn are_many(rows: &CoreRows, more: &CoreRows, settled: usize) -> bool {
    rows.answers.len().saturating_add(more.answers.len()) / 2 >= settled
}

// How many rows there were after the last merging.
fn settled_after(merges: bool, settled: usize, rows: &CoreRows) -> usize {
    if merges { rows.answers.len() } else { settled }
}

// The rows of the first core and of others, united from the left.
fn rows_from(
    checked: &Checked,
    first: &Core,
    others: &[Core],
    store: &Store,
    keep: bool,
) -> Result<CoreRows, AllocError>
    requires { cores_of checked.now.statement ≡ first.now ∷ others.now }
    ensures { IfOk result (AreAll checked.now store.now keep) }
{
    let merged = count_merged(others);
    let mut rows = core_rows(checked, 0, store, keep)?;
    let mut settled = rows.answers.len();
    let mut place = 1;
    for core in others {
        let more = core_rows(checked, place, store, keep)?;
        let merges = merges_here(core, place, merged, are_many(&rows, &more, settled));
        rows = unite_rows(merges, rows, more)?;
        settled = settled_after(merges, settled, &rows);
        place += 1;
    }
    Ok(rows)
}

/// The rows of all cores of a query, united from the left.
pub(crate) fn all_rows(
    alloc: Global,
    checked: &Checked,
    store: &Store,
    keep: bool,
) -> Result<CoreRows, AllocError>
    requires { IsQuery checked.now.statement }
    ensures { IfOk result (AreAll checked.now store.now keep) }
{
    match query_of(checked).cores.items() {
        [] => Ok(CoreRows {
            answers: List::new(alloc),
            rejected: LineageSet::empty(alloc),
        }),
        [first, others @ ..] => rows_from(checked, first, others, store, keep),
    }
}
