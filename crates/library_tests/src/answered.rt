//! The answer of a query with the rows of tables that each of its rows comes from, by the calls for the parts
//! of a query. The engine only tells the rows that all of them come from together.

ghost use Rattle.std.specs.Prelude.{◌≡◌, IsTrue, is_some};
ghost use Rattle.predicates.specs.Checking.{HasCore, IsQuery, core_at};

use group_eval::{Grouped, group};
use ldv_value::Values;
use lineage::{Answers, LineageSet, Picks};
use predicates::core_of;
use query_eval::{Finished, finish, merge, picked, project};
use sql_check::{CheckStop, check, groups};
use sql_model::{Catalog, Checked, Statement};
use sql_parse::{ParseStop, parse};
use std::alloc::{AllocError, Global};
use std::mem;
use table_store::Store;

// ---- the statement of a text

fn statement_with(
    alloc: Global,
    text: &str,
    params: &Values,
) -> Result<Option<Statement>, AllocError> {
    match parse(alloc, text, params) {
        Ok(statement) => Ok(Some(statement)),
        Err(ParseStop::Syntax) => Ok(None),
        Err(ParseStop::NoMemory) => Err(AllocError),
    }
}

fn statement_of(alloc: Global, text: &str) -> Result<Option<Statement>, AllocError> {
    let params = Values::new(alloc);
    statement_with(alloc, text, &params)
}

fn check_statement(
    alloc: Global,
    statement: &Statement,
    catalog: &Catalog,
) -> Result<Option<Checked>, AllocError> {
    match check(alloc, statement, catalog) {
        Ok(checked) => Ok(Some(checked)),
        Err(CheckStop::NoMemory) => Err(AllocError),
        Err(_) => Ok(None),
    }
}

// None where the text is no statement, or a refused one.
fn checked_text(
    alloc: Global,
    text: &str,
    catalog: &Catalog,
) -> Result<Option<Checked>, AllocError> {
    match statement_of(alloc, text)? {
        None => Ok(None),
        Some(statement) => check_statement(alloc, &statement, catalog),
    }
}

// ---- the rows of a core; those of the groups that HAVING rejects are added to a set

fn with_rejected(rows: Grouped, rejected: &mut LineageSet) -> Result<Answers, AllocError> {
    rejected.union(&rows.rejected)?;
    Ok(rows.answers)
}

fn group_picks(
    checked: &Checked,
    core: usize,
    picks: Picks,
    rejected: &mut LineageSet,
) -> Result<Answers, AllocError>
    requires { HasCore checked.now core }
{
    let rows = group(checked, core, picks)?;
    with_rejected(rows, rejected)
}

fn evaluate(
    checked: &Checked,
    core: usize,
    picks: Picks,
    rejected: &mut LineageSet,
) -> Result<Answers, AllocError>
    requires { HasCore checked.now core }
{
    if groups(core_of(checked, core)) {
        group_picks(checked, core, picks, rejected)
    } else {
        project(checked, core, picks)
    }
}

fn plain_rows(
    checked: &Checked,
    core: usize,
    store: &Store,
    keep: bool,
    rejected: &mut LineageSet,
) -> Result<Answers, AllocError>
    requires { HasCore checked.now core }
{
    let picks = picked(checked, core, store, keep)?;
    evaluate(checked, core, picks, rejected)
}

fn merge_all(answers: &mut Answers) -> Result<(), AllocError> {
    let none = Answers::new(answers.allocator());
    *answers = merge(mem::replace(answers, none))?;
    Ok(())
}

fn merge_if(merges: bool, answers: &mut Answers) -> Result<(), AllocError> {
    if merges { merge_all(answers) } else { Ok(()) }
}

fn core_rows(
    checked: &Checked,
    core: usize,
    store: &Store,
    keep: bool,
    rejected: &mut LineageSet,
) -> Result<Answers, AllocError>
    requires { HasCore checked.now core }
{
    let mut rows = plain_rows(checked, core, store, keep, rejected)?;
    merge_if(core_of(checked, core).distinct, &mut rows)?;
    Ok(rows)
}

// ---- the rows of all cores

fn has_core(checked: &Checked, core: usize) -> bool
    ensures { result ≡ is_some (core_at checked.now core) }
{
    match &checked.statement {
        Statement::Query(query) => match query.cores.get(core) {
            Some(_) => true,
            None => false,
        },
        Statement::Insert(_) => false,
        Statement::Update(_) => false,
        Statement::Delete(_) => false,
    }
}

fn append_answers(answers: &mut Answers, more: Answers) -> Result<(), AllocError> {
    for answer in more.into_vec() {
        answers.push(answer)?;
    }
    Ok(())
}

fn append_core(
    checked: &Checked,
    core: usize,
    store: &Store,
    keep: bool,
    answers: &mut Answers,
    rejected: &mut LineageSet,
) -> Result<(), AllocError>
    requires { HasCore checked.now core }
{
    let more = core_rows(checked, core, store, keep, rejected)?;
    append_answers(answers, more)
}

// Whether the rows of a core are merged with those before it.
fn unites(checked: &Checked, core: usize) -> bool
    requires { HasCore checked.now core }
{
    core > 0 && !core_of(checked, core).joined_all
}

fn add_core(
    checked: &Checked,
    core: usize,
    store: &Store,
    keep: bool,
    answers: &mut Answers,
    rejected: &mut LineageSet,
) -> Result<(), AllocError>
    requires { HasCore checked.now core }
{
    append_core(checked, core, store, keep, answers, rejected)?;
    merge_if(unites(checked, core), answers)
}

// Adds the rows of a core where the query has it.
fn add_core_if(
    checked: &Checked,
    core: usize,
    store: &Store,
    keep: bool,
    answers: &mut Answers,
    rejected: &mut LineageSet,
) -> Result<(), AllocError> {
    if has_core(checked, core) {
        add_core(checked, core, store, keep, answers, rejected)
    } else {
        Ok(())
    }
}

// The most cores of a query here.
const CORES: usize = 4;

fn add_cores(
    checked: &Checked,
    store: &Store,
    keep: bool,
    answers: &mut Answers,
    rejected: &mut LineageSet,
) -> Result<(), AllocError> {
    for core in 0..CORES {
        add_core_if(checked, core, store, keep, answers, rejected)?;
    }
    Ok(())
}

fn all_rows(
    alloc: Global,
    checked: &Checked,
    store: &Store,
    keep: bool,
    rejected: &mut LineageSet,
) -> Result<Answers, AllocError> {
    let mut answers = Answers::new(alloc);
    add_cores(checked, store, keep, &mut answers, rejected)?;
    Ok(answers)
}

// ---- the answer

fn is_query(checked: &Checked) -> bool
    ensures { IsTrue result → IsQuery checked.now.statement }
{
    match &checked.statement {
        Statement::Query(_) => true,
        Statement::Insert(_) => false,
        Statement::Update(_) => false,
        Statement::Delete(_) => false,
    }
}

fn query_answer(
    alloc: Global,
    checked: &Checked,
    store: &Store,
    keep: bool,
    rejected: &mut LineageSet,
) -> Result<Finished, AllocError>
    requires { IsQuery checked.now.statement }
{
    let answers = all_rows(alloc, checked, store, keep, rejected)?;
    finish(checked, answers)
}

fn answer_of(
    alloc: Global,
    checked: &Checked,
    store: &Store,
    keep: bool,
    rejected: &mut LineageSet,
) -> Result<Option<Finished>, AllocError> {
    if !is_query(checked) {
        return Ok(None);
    }
    Ok(Some(query_answer(alloc, checked, store, keep, rejected)?))
}

/// The answer of a text over the tables of a store, and the rows of tables that LIMIT cuts; `None` if it is
/// no query or a refused one. The rows in groups that HAVING rejects are added to a set. If `keep` is false,
/// no row of a table is told.
pub(crate) fn answer_to(
    alloc: Global,
    text: &str,
    store: &Store,
    keep: bool,
    rejected: &mut LineageSet,
) -> Result<Option<Finished>, AllocError> {
    match checked_text(alloc, text, store.catalog())? {
        None => Ok(None),
        Some(checked) => answer_of(alloc, &checked, store, keep, rejected),
    }
}
