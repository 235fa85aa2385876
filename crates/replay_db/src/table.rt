//! A table of a package's own world after a step of its run.

ghost use Rattle.std.specs.Prelude.{◌≡◌, ◌+◌, ◌<◌, ◌≤◌, Bool, IfOk, IsSome, None, Ok, Some, [], false, true};
ghost use Rattle.std.specs.Prelude.{nat_lt};
ghost use Rattle.ldv_value.specs.Gives.{GivesOr};
ghost use Rattle.ldv_value.specs.Limits.{max_steps};
ghost use Rattle.proc_core.specs.Running.{Stands, has_ended};
ghost use Rattle.run_model.specs.Package.{own_world};
ghost use Rattle.run_model.specs.Run.{move, run as state_after, steps as steps_made};
ghost use Rattle.run_model.specs.SqlDatabase.{SqlDatabase, sql_base};
ghost use Rattle.run_model.specs.Start.{start_script};
ghost use Rattle.run_model.specs.State.{State};
ghost use Rattle.sql_engine.specs.Asking.{database};
ghost use Rattle.sql_model.specs.Scope.{table_at};
ghost use Rattle.replay_db.specs.Runs.{CanRun};
ghost use Rattle.replay_db.specs.TableAt.{IsDueStop, has_table, table_verdict, table_at_of, table_of_run};

use crate::own::{own_world, own_world_of};
use crate::run::begin;
use crate::start::parse_start;
use ldv_value::{CopyItem, Utf8};
use proc_core::{Run, Stopped};
use run_model::{Mode, NullTracer, Package, World};
use script_parse::Script;
use sql_engine::Engine;
use sql_model::Table;
use std::alloc::{AllocError, Global};

/// Why there is no table, in the order of the tests.
#[derive(Clone, Copy, Debug, PartialEq, Eq)]
pub enum TableStop {
    /// The package is excluded, or has no table with this name.
    NoTable,
    /// Not all processes have ended after the steps of the budget.
    NotEnded,
    /// The step is above the number of steps of the run.
    NoStep,
    /// Out of memory.
    NoMemory,
}

impl From<AllocError> for TableStop {
    ghost use Rattle.std.specs.Prelude.{◌≡◌};
    ghost use Rattle.replay_db.specs.declared.table.TableStop.TheVariants.{NoMemory};

    ghost from_gives = { λ _ stop. stop ≡ NoMemory };

    fn from(_error: AllocError) -> TableStop {
        TableStop::NoMemory
    }
}

fn has_table(package: &Package, name: &str) -> bool
    ensures { result ≡ has_table name.now «package».now }
{
    let tables = package.tables.items();
    tables.iter().any(|table| table.name.as_str() == name)
}

// One step. No question of SQL diverges.
fn step_on(begun: Run<Engine, NullTracer>) -> Result<Run<Engine, NullTracer>, AllocError>
    requires stands { (s : State SqlDatabase) × Stands begun.machine (database begun.db) s }
    requires going { has_ended begun.machine ≡ false }
    requires room { begun.steps < max_steps }
    ensures state { IfOk result (λ after. (s : State SqlDatabase) → Stands begun.machine (database begun.db) s
        → Stands after.machine (database after.db) (move sql_base None s).state) }
    ensures steps { IfOk result (λ after. after.steps ≡ begun.steps + 1) }
{
    match begun.advance() {
        Ok(next) => Ok(next),
        Err(
            Stopped::Diverged {
                process: _,
                index: _,
            },
        ) => unreachable!(),
        Err(Stopped::NoMemory) => Err(AllocError),
    }
}

// Makes steps until all processes have ended, at most `count` of them.
fn go_on(begun: Run<Engine, NullTracer>, count: u32) -> Result<Run<Engine, NullTracer>, AllocError>
    requires stands { (s : State SqlDatabase) × Stands begun.machine (database begun.db) s }
    requires room { begun.steps + count ≤ max_steps }
    ensures state { IfOk result (λ after. (s : State SqlDatabase)
        → Stands begun.machine (database begun.db) s
        → Stands after.machine (database after.db) (state_after sql_base count [] s)) }
    ensures steps { IfOk result (λ after. (s : State SqlDatabase)
        → Stands begun.machine (database begun.db) s
        → after.steps ≡ begun.steps + steps_made sql_base count [] s) }
    ensures few { IfOk result (λ after. after.steps ≤ begun.steps + count) }
{
    let mut gone = begun;
    for _made in 0..count {
        if gone.ended() {
            return Ok(gone);
        }
        gone = step_on(gone)?;
    }
    Ok(gone)
}

// A table, which is there, as it is now; the time is no earlier than that of the last change.
fn table_now(alloc: Global, engine: &Engine, name: &str, time: u32) -> Result<Table, AllocError>
    requires there { IsSome (table_at name.now (database engine.now).tables) }
    requires late { engine.now.time ≤ time }
    ensures { IfOk result (λ table. table_at name.now (database engine.now).tables ≡ Some table) }
{
    match engine.store().table(name) {
        None => unreachable!(),
        Some(held) => Ok(Table {
            name: Utf8::of(alloc, held.name())?,
            schema: held.schema().copy_item(alloc)?,
            rows: held.rows_at(time)?,
            next: held.next_at(time),
        }),
    }
}

// The table that was taken after the step, or why there is none, once the run has gone on to its end.
fn table_verdict(
    gone: &Run<Engine, NullTracer>,
    step: u32,
    table: Table,
) -> Result<Table, TableStop>
    ensures { result ≡ table_verdict (has_ended gone.now.machine) gone.now.steps step (Ok table) }
{
    if !gone.ended() {
        Err(TableStop::NotEnded)
    } else if gone.steps() < step {
        Err(TableStop::NoStep)
    } else {
        Ok(table)
    }
}

// How many steps are made before the table is taken.
fn first_part(step: u32, budget: u32) -> u32
    ensures within { result ≤ budget }
    ensures whole { step ≤ budget → result ≡ step }
{
    if step < budget { step } else { budget }
}

// A table of a world that has it, after a step of its run: the run stops at the step, and then goes on.
fn table_of_run(
    alloc: Global,
    world: World,
    script: &Script,
    name: &str,
    step: u32,
    budget: u32,
) -> Result<Table, TableStop>
    requires can_run { CanRun world }
    requires parsed { start_script world ≡ Some script.now.instructions }
    requires bounded { budget ≤ max_steps }
    requires there { IsSome (table_at name.now world.tables) }
    ensures { GivesOr IsDueStop result (table_of_run budget step name.now world) }
{
    let early = first_part(step, budget);
    let begun = begin(alloc, world, script, NullTracer)?;
    let there = go_on(begun, early)?;
    let table = table_now(alloc, there.db(), name, there.steps())?;
    let gone = go_on(there, budget - early)?;
    table_verdict(&gone, step, table)
}

// A table of a world that has it, after a step of its run, where its script wasn't parsed.
fn table_of_world(
    alloc: Global,
    world: World,
    name: &str,
    step: u32,
    budget: u32,
) -> Result<Table, TableStop>
    requires can_run { CanRun world }
    requires bounded { budget ≤ max_steps }
    requires there { IsSome (table_at name.now world.tables) }
    ensures { GivesOr IsDueStop result (table_of_run budget step name.now world) }
{
    let script = parse_start(alloc, &world)?;
    table_of_run(alloc, world, &script, name, step, budget)
}

// A table of an included package.
fn table_included(
    alloc: Global,
    package: &Package,
    name: &str,
    step: u32,
    budget: u32,
) -> Result<Table, TableStop>
    requires can_run { CanRun (own_world «package».now) }
    requires bounded { budget ≤ max_steps }
    requires there { has_table name.now «package».now ≡ true }
    ensures { GivesOr IsDueStop result (table_of_run budget step name.now (own_world «package».now)) }
{
    let world = own_world(alloc, package)?;
    table_of_world(alloc, world, name, step, budget)
}

// A table of an included package whose script was parsed. No file and no row is copied.
fn table_included_parsed(
    alloc: Global,
    package: Package,
    script: &Script,
    name: &str,
    step: u32,
    budget: u32,
) -> Result<Table, TableStop>
    requires can_run { CanRun (own_world «package») }
    requires parsed { start_script (own_world «package») ≡ Some script.now.instructions }
    requires bounded { budget ≤ max_steps }
    requires there { has_table name.now «package» ≡ true }
    ensures { GivesOr IsDueStop result (table_of_run budget step name.now (own_world «package»)) }
{
    let world = own_world_of(alloc, package)?;
    table_of_run(alloc, world, script, name, step, budget)
}

/// The table with a name, its rows and the number of its next row, after a step of the run of an included
/// package's own world; step 0 is the start. The budget is at most 10,000,000 steps. The recorded trace and
/// the recorded number of steps aren't looked at.
///
/// `NoTable` comes if and only if the package is excluded or has no table with this name; else `NotEnded` if
/// and only if some process hasn't ended after the steps of the budget; else `NoStep` if and only if the step
/// is above the number of steps of the run. `NoMemory` may come in place of any answer. The own world of
/// every valid package can be run, as `package_law` says.
pub fn table_at(
    alloc: Global,
    package: &Package,
    name: &str,
    step: u32,
    budget: u32,
) -> Result<Table, TableStop>
    requires can_run { CanRun (own_world «package».now) }
    requires bounded { budget ≤ max_steps }
    ensures { GivesOr IsDueStop result (table_at_of budget step name.now «package».now) }
{
    match package.mode {
        Mode::Excluded => Err(TableStop::NoTable),
        Mode::Included => {
            if has_table(package, name) {
                table_included(alloc, package, name, step, budget)
            } else {
                Err(TableStop::NoTable)
            }
        }
    }
}

/// The same as `table_at`, with the first script parsed before. The run takes over the package's files and
/// rows, and copies none of them.
pub fn table_at_parsed(
    alloc: Global,
    package: Package,
    script: &Script,
    name: &str,
    step: u32,
    budget: u32,
) -> Result<Table, TableStop>
    requires can_run { CanRun (own_world «package») }
    requires parsed { start_script (own_world «package») ≡ Some script.now.instructions }
    requires bounded { budget ≤ max_steps }
    ensures { GivesOr IsDueStop result (table_at_of budget step name.now «package») }
{
    match package.mode {
        Mode::Excluded => Err(TableStop::NoTable),
        Mode::Included => {
            if has_table(&package, name) {
                table_included_parsed(alloc, package, script, name, step, budget)
            } else {
                Err(TableStop::NoTable)
            }
        }
    }
}
