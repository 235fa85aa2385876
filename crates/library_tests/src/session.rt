//! An engine that answers statement by statement.

ghost use Rattle.std.specs.Prelude.{◌≡◌, ◌<◌, ◌≤◌, IfOk, OnOk};

use crate::stored::expect_database;
use ldv_value::{Parts, Utf8, Values};
use run_model::{Asker, Database, ProcName, Tracer};
use sql_engine::Engine;
use sql_model::{Reply, Tables};
use std::alloc::{AllocError, Global};
use std::process::Abort;

/// The engine over tables before any change.
pub(crate) fn engine_of(
    rt: &impl Abort,
    alloc: Global,
    tables: Tables,
) -> Result<Engine, AllocError>
    ensures { IfOk result (λ engine. engine.time ≡ 0) }
{
    expect_database(rt, alloc, tables.items())?;
    Engine::of_tables(alloc, tables)
}

fn asker(alloc: Global, step: u32) -> Asker
    ensures { result.step ≡ step }
{
    Asker {
        name: ProcName {
            parts: Parts::new(alloc),
        },
        number: 0,
        step,
        statement: 0,
    }
}

fn ask_as<T: Tracer>(
    who: &Asker,
    engine: &mut Engine,
    text: &Utf8,
    params: &Values,
    tracer: &mut T,
) -> Result<Reply, AllocError>
    requires { engine.old.time < who.now.step }
    ensures { OnOk result (engine.new.time ≤ who.now.step) }
{
    match engine.ask(who, text, params, tracer) {
        Err(_) => Err(AllocError),
        Ok(reply) => Ok(reply),
    }
}

fn ask_text<T: Tracer>(
    alloc: Global,
    who: &Asker,
    engine: &mut Engine,
    text: &str,
    params: &Values,
    tracer: &mut T,
) -> Result<Reply, AllocError>
    requires { engine.old.time < who.now.step }
    ensures { OnOk result (engine.new.time ≤ who.now.step) }
{
    let text = Utf8::of(alloc, text)?;
    ask_as(who, engine, &text, params, tracer)
}

fn ask_at<T: Tracer>(
    alloc: Global,
    engine: &mut Engine,
    step: u32,
    text: &str,
    params: &Values,
    tracer: &mut T,
) -> Result<Reply, AllocError>
    requires { engine.old.time < step }
    ensures { OnOk result (engine.new.time ≤ step) }
{
    let who = asker(alloc, step);
    ask_text(alloc, &who, engine, text, params, tracer)
}

/// Asks a statement without parameters at a step.
pub(crate) fn ask<T: Tracer>(
    alloc: Global,
    engine: &mut Engine,
    step: u32,
    text: &str,
    tracer: &mut T,
) -> Result<Reply, AllocError>
    requires { engine.old.time < step }
    ensures { OnOk result (engine.new.time ≤ step) }
{
    let params = Values::new(alloc);
    ask_at(alloc, engine, step, text, &params, tracer)
}
