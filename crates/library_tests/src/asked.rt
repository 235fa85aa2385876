//! Statements with their replies, one after the other.

ghost use Rattle.std.specs.Prelude.{◌≡◌, ◌<◌, ◌≤◌, IfOk, OnOk};

use crate::session::{ask, engine_of};
use crate::stored::tables;
use run_model::Tracer;
use sql_engine::Engine;
use sql_model::Reply;
use std::alloc::{AllocError, Global};
use std::process::Abort;

/// A statement and its reply: `rows 2`, `changed 1` or `refused 6`.
pub(crate) type Case = (&'static str, &'static str);

fn show_count(alloc: Global, word: &str, count: u64) -> Result<String, AllocError> {
    format!(in alloc; "{word} {count}")
}

fn show_reply(alloc: Global, reply: &Reply) -> Result<String, AllocError> {
    match reply {
        Reply::Rows(rows) => show_count(alloc, "rows", rows.len() as u64),
        Reply::Changed(count) => show_count(alloc, "changed", *count),
        Reply::Refused(refusal) => show_count(alloc, "refused", refusal.code() as u64),
    }
}

/// Expects a text for the named thing.
pub(crate) fn expect_text(rt: &impl Abort, name: &str, text: &str, want: &str) {
    assert!(rt; text == want, "{text} in place of {want} for {name}");
}

fn expect_shown(
    rt: &impl Abort,
    alloc: Global,
    case: &Case,
    reply: &Reply,
) -> Result<(), AllocError> {
    let shown = show_reply(alloc, reply)?;
    expect_text(rt, case.0, shown.as_str(), case.1);
    Ok(())
}

fn expect_reply<T: Tracer>(
    rt: &impl Abort,
    alloc: Global,
    engine: &mut Engine,
    step: u32,
    case: &Case,
    tracer: &mut T,
) -> Result<(), AllocError>
    requires { engine.old.time < step }
    ensures { OnOk result (engine.new.time ≤ step) }
{
    let reply = ask(alloc, engine, step, case.0, tracer)?;
    expect_shown(rt, alloc, case, &reply)
}

// Asks at the step after one, and gives that step.
fn expect_next<T: Tracer>(
    rt: &impl Abort,
    alloc: Global,
    engine: &mut Engine,
    step: u32,
    case: &Case,
    tracer: &mut T,
) -> Result<u32, AllocError>
    requires { engine.old.time ≤ step }
    ensures { IfOk result (λ next. engine.new.time ≤ next) }
{
    let Some(next) = step.checked_add(1) else {
        return Err(AllocError);
    };
    expect_reply(rt, alloc, engine, next, case, tracer)?;
    Ok(next)
}

/// Asks statements at the steps from 1, and expects the reply of each.
pub(crate) fn ask_all<T: Tracer>(
    rt: &impl Abort,
    alloc: Global,
    engine: &mut Engine,
    cases: &[Case],
    tracer: &mut T,
) -> Result<(), AllocError>
    requires { engine.old.time ≡ 0 }
{
    let mut step = 0;
    for case in cases {
        step = expect_next(rt, alloc, engine, step, case, tracer)?;
    }
    Ok(())
}

/// The engine over the table t with the rows 0 to 4.
pub(crate) fn engine_of_t(rt: &impl Abort, alloc: Global) -> Result<Engine, AllocError>
    ensures { IfOk result (λ engine. engine.time ≡ 0) }
{
    let tables = tables(alloc)?;
    engine_of(rt, alloc, tables)
}
