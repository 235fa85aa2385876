//! The answer of a query, with the rows that it needs.

ghost use Rattle.std.specs.Prelude.{◌≡◌, ◌||◌, map, IfOk};
ghost use Rattle.std.specs.List.{list_all, list_any};
ghost use Rattle.predicates.specs.Checking.{IsQuery};
ghost use Rattle.sql_engine.specs.inner.Answering.{values_of, IsAnswered, IsHidden};
ghost use Rattle.sql_model.specs.Needs.{has_merging, sums_up};
ghost use Rattle.sql_model.specs.Refusals.{groups};

use crate::cores::all_rows;
use ldv_value::{List, RowList};
use lineage::{Answers, LineageSet};
use predicates::query_of;
use query_eval::{finish, united_set};
use sql_check::groups;
use sql_model::{Checked, Core};
use std::alloc::{AllocError, Global};
use table_store::Store;

/// The rows of values of an answer, the rows of tables that they come from, and the further rows of tables
/// that the query needs. Both sets are empty if no lineage is kept.
#[derive(Drop)]
pub(crate) struct QueryAnswer {
    pub rows: RowList,
    pub lineage: LineageSet,
    pub hidden: LineageSet,
}

// Whether UNION ALL stands before each core.
fn is_union_all(cores: &[Core]) -> bool
    ensures { result ≡ list_all (λ core. core.joined_all) cores.now }
{
    cores.iter().all(|core| core.joined_all)
}

// Whether UNION without ALL occurs.
fn has_merging(cores: &[Core]) -> bool
    ensures { result ≡ has_merging cores.now }
{
    match cores {
        [] => false,
        [_first, others @ ..] => !is_union_all(others),
    }
}

// Whether a core groups or has DISTINCT.
fn any_sums_up(cores: &[Core]) -> bool
    ensures { result ≡ list_any (λ core. groups core || core.distinct) cores.now }
{
    cores.iter().any(|core| groups(core) || core.distinct)
}

// Whether a row of the answer may stand for several.
fn sums_up(cores: &[Core]) -> bool
    ensures { result ≡ sums_up cores.now }
{
    any_sums_up(cores) || has_merging(cores)
}

// The rejected rows, with those of the cut rows where these count.
fn hidden_of(sums: bool, rejected: LineageSet, cut: &LineageSet) -> Result<LineageSet, AllocError>
    ensures { IfOk result (λ made. IsHidden sums rejected cut.now made) }
{
    let mut hidden = rejected;
    if sums {
        hidden.union(cut)?;
    }
    Ok(hidden)
}

// The values of answers.
fn values_of(answers: Answers) -> Result<RowList, AllocError>
    ensures { IfOk result (λ rows. rows ≡ map values_of answers) }
{
    let mut rows = List::with_capacity(answers.allocator(), answers.len())?;
    for answer in answers.into_vec() {
        rows.push(answer.values)?;
    }
    Ok(rows)
}

/// The answer of a query over the tables of a store. The query was checked against the store's catalog.
pub(crate) fn query_answer(
    alloc: Global,
    checked: &Checked,
    store: &Store,
    keep: bool,
) -> Result<QueryAnswer, AllocError>
    requires { IsQuery checked.now.statement }
    ensures { IfOk result (IsAnswered checked.now store.now keep) }
{
    let all = all_rows(alloc, checked, store, keep)?;
    let finished = finish(checked, all.answers)?;
    let sums = sums_up(query_of(checked).cores.items());
    let hidden = hidden_of(sums, all.rejected, &finished.cut)?;
    let lineage = united_set(alloc, finished.answers.items())?;
    Ok(QueryAnswer {
        rows: values_of(finished.answers)?,
        lineage,
        hidden,
    })
}
