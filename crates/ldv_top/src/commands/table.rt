//! `table`: from its words to its response.

ghost use Rattle.std.specs.Prelude.{◌≡◌, ◌≤◌, Some, length, map, option_map, string_bytes, IfOk, IfSome};
ghost use Rattle.std.specs.Prelude.{option_and_then};
ghost use Rattle.ldv_value.specs.Gives.{Gives};
ghost use Rattle.ldv_value.specs.Limits.{input_limit, max_steps};
ghost use Rattle.package_layout.specs.StartScript.{StartsWith};
ghost use Rattle.run_model.specs.Package.{own_world};
ghost use Rattle.replay_db.specs.Runs.{CanRun};
ghost use Rattle.ldv_top.specs.Due.{response_due};
ghost use Rattle.ldv_top.specs.DueOfTables.{due_table, tabled_package};
ghost use Rattle.ldv_top.specs.inner.WordStops.{Stops};
ghost use Rattle.ldv_top.specs.Words.{IsBounded};
ghost use Rattle.ldv_top.specs.WordsOfTables.{table_named, table_of};
ghost use Rattle.ldv_top.specs.declared.command.Command.TheVariants.{Table as TableWords};

use crate::command::{Command, budget_in};
use crate::numbers::number_within;
use crate::reading::read_parsed_of;
use crate::response::Response;
use crate::word_stop::WordStop;
use ldv_value::{Bytes, DEFAULT_STEPS, MAX_STEPS, Utf8};
use package_codec::{CompactPackage, ParsedPackage};
use package_layout::PackageStop;
use replay_db::{TableStop, package_law, table_at_parsed};
use run_model::table_text;
use sql_model::is_sql_name;
use std::alloc::{AllocError, Global};

/// The command of the words after `table`.
pub(crate) fn table_of(alloc: Global, words: &[String]) -> Result<Command, WordStop>
    ensures command { Gives Stops result (table_of (map string_bytes words.now)) }
    ensures bounded { IfOk result (λ command. IsBounded command) }
{
    match words {
        [] => Err(WordStop::Usage),
        [_name] => Err(WordStop::Usage),
        [name, step] => table_named(alloc, name.as_str(), step.as_str(), DEFAULT_STEPS),
        [_name, _step, _option] => Err(WordStop::Usage),
        [name, step, option, number] => table_within(
            alloc,
            name.as_str(),
            step.as_str(),
            budget_in(option.as_str(), number.as_str()),
        ),
        _ => Err(WordStop::Usage),
    }
}

fn table_within(
    alloc: Global,
    name: &str,
    step: &str,
    budget: Option<u32>,
) -> Result<Command, WordStop>
    requires { IfSome budget (λ budget. budget ≤ max_steps) }
    ensures command { Gives Stops result (option_and_then (table_named name.now step.now) budget) }
    ensures bounded { IfOk result (λ command. IsBounded command) }
{
    match budget {
        Some(budget) => table_named(alloc, name, step, budget),
        None => Err(WordStop::Usage),
    }
}

fn table_named(alloc: Global, name: &str, step: &str, budget: u32) -> Result<Command, WordStop>
    requires { budget ≤ max_steps }
    ensures command { Gives Stops result (table_named name.now step.now budget) }
    ensures bounded { IfOk result (λ command. IsBounded command) }
{
    if is_sql_name(name) {
        table_at_step(
            alloc,
            name,
            number_within(MAX_STEPS, step.as_bytes()),
            budget,
        )
    } else {
        Err(WordStop::Usage)
    }
}

fn table_at_step(
    alloc: Global,
    name: &str,
    step: Option<u32>,
    budget: u32,
) -> Result<Command, WordStop>
    requires { budget ≤ max_steps }
    ensures command { Gives Stops result (option_map (λ number. TableWords name.now number budget) step) }
    ensures bounded { IfOk result (λ command. IsBounded command) }
{
    match step {
        Some(step) => table_words(alloc, name, step, budget),
        None => Err(WordStop::Usage),
    }
}

fn table_words(alloc: Global, name: &str, step: u32, budget: u32) -> Result<Command, WordStop>
    requires { budget ≤ max_steps }
    ensures command { Gives Stops result (Some (TableWords name.now step budget)) }
    ensures bounded { IfOk result (λ command. IsBounded command) }
{
    match Utf8::of(alloc, name) {
        Ok(name) => Ok(Command::Table { name, step, budget }),
        Err(_) => Err(WordStop::NoMemory),
    }
}

/// The response of `table` to an input. The trace isn't looked at, and no list of its events is made.
pub(crate) fn table_response(
    alloc: Global,
    name: &str,
    step: u32,
    budget: u32,
    input: Bytes,
) -> Result<Response, AllocError>
    requires short { length input ≤ input_limit }
    requires bounded { budget ≤ max_steps }
    ensures { IfOk result (λ response. response_due response ≡ due_table name.now step budget input) }
{
    package_law();
    match read_parsed_of(alloc, input) {
        Ok(parsed) => tabled_response(alloc, name, step, budget, parsed),
        Err(PackageStop::Damaged(kind)) => Ok(Response::Damaged(kind)),
        Err(PackageStop::NoMemory) => Err(AllocError),
    }
}

fn tabled_response(
    alloc: Global,
    name: &str,
    step: u32,
    budget: u32,
    parsed: ParsedPackage,
) -> Result<Response, AllocError>
    requires can_run { CanRun (own_world parsed.cut.bare) }
    requires parsed { StartsWith parsed }
    requires bounded { budget ≤ max_steps }
    ensures { IfOk result (λ response. response_due response
        ≡ tabled_package name.now step budget parsed.cut.bare) }
{
    let ParsedPackage { cut, script } = parsed;
    let CompactPackage { bare, runs: _ } = cut;
    match table_at_parsed(alloc, bare, &script, name, step, budget) {
        Ok(table) => Ok(Response::Written(table_text(alloc, &table)?)),
        Err(TableStop::NoTable) => Ok(Response::NoSuch),
        Err(TableStop::NotEnded) => Ok(Response::NotEnded(budget)),
        Err(TableStop::NoStep) => Ok(Response::NoSuch),
        Err(TableStop::NoMemory) => Err(AllocError),
    }
}
