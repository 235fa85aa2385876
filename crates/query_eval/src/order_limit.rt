//! ORDER BY and LIMIT.

ghost use Rattle.std.specs.Prelude.{◌≡◌, ◌≤◌, length, IfOk, Some};
ghost use Rattle.predicates.specs.Checking.{IsQuery};
ghost use Rattle.query_eval.specs.Finishing.{IsFinished, IsLimited};
ghost use Rattle.query_eval.specs.Types.{Int};
ghost use Rattle.sql_model.specs.QueryAnswer.{limit_of};

use crate::lineages::united_set;
use crate::sort::{sort_answers, sort_columns};
use ldv_value::{List, Value};
use lineage::{Answers, LineageSet};
use predicates::{column_indexes, query_of};
use sql_model::Checked;
use std::alloc::{AllocError, Global};

/// The answers of a query, and the united lineage of the answers that LIMIT cut.
#[derive(Drop)]
pub struct Finished {
    pub answers: Answers,
    pub cut: LineageSet,
}

/// Sorts the answers of a query's cores by ORDER BY and cuts them by LIMIT. The sort is stable. A row has one
/// version in all lineages of the answers.
pub fn finish(checked: &Checked, answers: Answers) -> Result<Finished, AllocError>
    requires { IsQuery checked.now.statement }
    ensures { IfOk result (IsFinished checked.now answers) }
{
    let alloc = answers.allocator();
    let query = query_of(checked);
    let none = List::new(alloc);
    let places = column_indexes(checked, query.cores.len(), &none);
    let columns = sort_columns(alloc, places.items(), query.order.items())?;
    let answers = sort_answers(columns.as_slice(), answers)?;
    limit_answers(alloc, limit_of(&query.limit), answers)
}

// How many rows LIMIT keeps.
fn limit_of(limit: &Option<Value>) -> Option<u64>
    ensures { result ≡ limit_of limit.now }
{
    match limit {
        None => None,
        Some(value) => match value {
            Value::Null => None,
            Value::Int(number) => count_of(*number),
            Value::Text(_) => None,
        },
    }
}

fn count_of(number: i64) -> Option<u64>
    ensures { result ≡ limit_of (Some (Int number)) }
{
    if number < 0 {
        None
    } else {
        Some(number as u64)
    }
}

fn limit_answers(
    alloc: Global,
    limit: Option<u64>,
    answers: Answers,
) -> Result<Finished, AllocError>
    ensures { IfOk result (IsLimited limit answers) }
{
    match limit {
        None => Ok(Finished {
            answers,
            cut: LineageSet::empty(alloc),
        }),
        Some(count) => cut_at(alloc, count, answers),
    }
}

// Cuts the answers after a number of them, where there are more.
fn cut_at(alloc: Global, count: u64, answers: Answers) -> Result<Finished, AllocError>
    ensures { IfOk result (IsLimited (Some count) answers) }
{
    if count >= answers.len() as u64 {
        return Ok(Finished {
            answers,
            cut: LineageSet::empty(alloc),
        });
    }
    cut_below(alloc, count as usize, answers)
}

fn cut_below(alloc: Global, count: usize, answers: Answers) -> Result<Finished, AllocError>
    requires { count ≤ length answers }
    ensures { IfOk result (IsLimited (Some count) answers) }
{
    let mut items = answers.into_vec();
    let cut = united_set(alloc, &items[count..])?;
    items.truncate(count);
    Ok(Finished {
        answers: List::of_vec(items),
        cut,
    })
}
