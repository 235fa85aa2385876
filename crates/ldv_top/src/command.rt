//! The words of the command line.

ghost use Rattle.std.specs.Prelude.{◌≡◌, ◌≤◌, ◌∷◌, map, string_bytes, IfOk, IfSome};
ghost use Rattle.ldv_value.specs.Gives.{Gives};
ghost use Rattle.ldv_value.specs.Limits.{max_steps};
ghost use Rattle.ldv_top.specs.inner.WordStops.{Stops};
ghost use Rattle.ldv_top.specs.Words.{IsBounded, command_of, inspect_of};
ghost use Rattle.ldv_top.specs.WordsOfRuns.{budget_in, chosen_within, command_flagged, command_named};
ghost use Rattle.ldv_top.specs.WordsOfRuns.{command_seeded, command_with, run_of, command_with_seed};

use crate::commands::generate::generate_of;
use crate::commands::inspection::report_of;
use crate::commands::join::join_of;
use crate::commands::migrate::migrate_of;
use crate::commands::prov::prov_of;
use crate::commands::replay_run::replay_of_run;
use crate::commands::table::table_of;
use crate::numbers::{long_within, positive_within};
use crate::word_stop::WordStop;
use joined_data::Which;
use ldv_value::{DEFAULT_STEPS, MAX_STEPS, Utf8};
use run_model::Mode;
use std::alloc::Global;

// The largest seed.
const MAX_SEED: u64 = 18_446_744_073_709_551_615;

/// A report of `inspect` on a package.
#[derive(Drop)]
pub enum Report {
    /// Its rows, each with the first statement that needed it, and the rule.
    Rows,
    /// Its files.
    Files,
    /// Its events.
    Trace,
    /// The reason why a row of a table is in it.
    Why { table: Utf8, row: u32 },
    /// The nodes that the content of a path came from.
    Depends { path: Utf8 },
}

/// A command, with the values in its words. A budget is the greatest number of steps that a run may take, 1
/// to 10,000,000.
#[derive(Drop)]
pub enum Command {
    /// `run`: the input is a world document, the output its outcome.
    Run { budget: u32 },
    /// `record`: the input is a world document, the output the package of its run.
    Record { mode: Mode, budget: u32 },
    /// `replay`: the input is a package, the output the outcome of the world in it.
    Replay { budget: u32 },
    /// `replay --seed`: the input is a package of recorded replies, the output the outcome of its run under
    /// this seed.
    ReplaySeed { seed: u64, budget: u32 },
    /// `replay --run 1` and `replay --run 2`: the input is a joined package, the output the outcome of the
    /// world of this run.
    ReplayRun { which: Which, budget: u32 },
    /// `join`: the input is two included packages, each with its length before it, the output their joined
    /// package.
    Join,
    /// `audit`: the input is a package, the output whether it is the package of its own world's run.
    Audit { budget: u32 },
    /// `table`: the input is a package, the output a table of the world in it after a step.
    Table { name: Utf8, step: u32, budget: u32 },
    /// `inspect`: the input is a package, the output a report on it.
    Inspect { report: Report },
    /// `gen`: nothing is read, and the output sums up the record and the replay of a world with this number
    /// of orders, 1 to 100,000.
    Generate { orders: u32 },
    /// `migrate`: the input is a package of either version, the output the same package in the second
    /// version.
    Migrate,
    /// `prov`: the input is a package, the output the provenance document of its graph.
    Prov,
    /// `prov depends`: the input is a provenance document, the output the nodes that a path depends on by it.
    ProvDepends { path: Utf8 },
}

/// The command of these words. `Usage` if and only if they are no command. `NoMemory`: they are a command,
/// and memory ran out.
pub fn read_words(alloc: Global, words: &[String]) -> Result<Command, WordStop>
    ensures command { Gives Stops result (command_of (map string_bytes words.now)) }
    ensures bounded { IfOk result (λ command. IsBounded command) }
{
    match words {
        [] => Err(WordStop::Usage),
        [word, others @ ..] => command_of(alloc, word.as_str(), others),
    }
}

// By the first word.
fn command_of(alloc: Global, word: &str, others: &[String]) -> Result<Command, WordStop>
    ensures command { Gives Stops result (command_of (word.now ∷ map string_bytes others.now)) }
    ensures bounded { IfOk result (λ command. IsBounded command) }
{
    if word == "table" {
        table_of(alloc, others)
    } else if word == "inspect" {
        inspect_of(alloc, others)
    } else if word == "gen" {
        known_command(generate_of(others))
    } else if word == "migrate" {
        known_command(migrate_of(others))
    } else if word == "prov" {
        prov_of(alloc, others)
    } else if word == "join" {
        known_command(join_of(others))
    } else {
        known_command(run_of(word, others))
    }
}

fn inspect_of(alloc: Global, words: &[String]) -> Result<Command, WordStop>
    ensures command { Gives Stops result (inspect_of (map string_bytes words.now)) }
    ensures bounded { IfOk result (λ command. IsBounded command) }
{
    match report_of(alloc, words) {
        Ok(report) => Ok(Command::Inspect { report }),
        Err(stop) => Err(stop),
    }
}

// A command for which no memory is wanted.
fn known_command(command: Option<Command>) -> Result<Command, WordStop>
    requires { IfSome command (λ command. IsBounded command) }
    ensures command { Gives Stops result command }
    ensures bounded { IfOk result (λ command. IsBounded command) }
{
    match command {
        Some(command) => Ok(command),
        None => Err(WordStop::Usage),
    }
}

fn run_of(word: &str, others: &[String]) -> Option<Command>
    ensures command { result ≡ run_of word.now (map string_bytes others.now) }
    ensures bounded { IfSome result (λ command. IsBounded command) }
{
    match others {
        [] => command_named(word, DEFAULT_STEPS),
        [flag] => command_flagged(word, flag.as_str(), DEFAULT_STEPS),
        [option, number] => command_with(word, option.as_str(), number.as_str()),
        [flag, option, number] => command_flagged(
            word,
            flag.as_str(),
            budget_in(option.as_str(), number.as_str())?,
        ),
        [option, choice, steps, number] => chosen_within(
            word,
            option.as_str(),
            choice.as_str(),
            budget_in(steps.as_str(), number.as_str())?,
        ),
        _ => None,
    }
}

fn command_named(word: &str, budget: u32) -> Option<Command>
    requires { budget ≤ max_steps }
    ensures command { result ≡ command_named word.now budget }
    ensures bounded { IfSome result (λ command. IsBounded command) }
{
    if word == "run" {
        Some(Command::Run { budget })
    } else if word == "record" {
        let mode = Mode::Included;
        Some(Command::Record { mode, budget })
    } else if word == "replay" {
        Some(Command::Replay { budget })
    } else if word == "audit" {
        Some(Command::Audit { budget })
    } else {
        None
    }
}

fn command_flagged(word: &str, flag: &str, budget: u32) -> Option<Command>
    requires { budget ≤ max_steps }
    ensures command { result ≡ command_flagged word.now flag.now budget }
    ensures bounded { IfSome result (λ command. IsBounded command) }
{
    if word == "record" && flag == "--excluded" {
        let mode = Mode::Excluded;
        Some(Command::Record { mode, budget })
    } else {
        None
    }
}

// With `--seed S`, `--run K` or `--steps N`.
fn command_with(word: &str, option: &str, number: &str) -> Option<Command>
    ensures command { result ≡ command_with word.now option.now number.now }
    ensures bounded { IfSome result (λ command. IsBounded command) }
{
    if option == "--seed" {
        command_with_seed(word, number, DEFAULT_STEPS)
    } else if option == "--run" {
        replay_of_run(word, number, DEFAULT_STEPS)
    } else {
        command_named(word, budget_in(option, number)?)
    }
}

// With `--seed S` or `--run K` before `--steps N`.
fn chosen_within(word: &str, option: &str, choice: &str, budget: u32) -> Option<Command>
    requires { budget ≤ max_steps }
    ensures command { result ≡ chosen_within word.now option.now choice.now budget }
    ensures bounded { IfSome result (λ command. IsBounded command) }
{
    if option == "--seed" {
        command_with_seed(word, choice, budget)
    } else if option == "--run" {
        replay_of_run(word, choice, budget)
    } else {
        None
    }
}

fn command_with_seed(word: &str, seed: &str, budget: u32) -> Option<Command>
    requires { budget ≤ max_steps }
    ensures command { result ≡ command_with_seed word.now seed.now budget }
    ensures bounded { IfSome result (λ command. IsBounded command) }
{
    command_seeded(word, budget, long_within(MAX_SEED, seed.as_bytes())?)
}

fn command_seeded(word: &str, budget: u32, seed: u64) -> Option<Command>
    requires { budget ≤ max_steps }
    ensures command { result ≡ command_seeded word.now budget seed }
    ensures bounded { IfSome result (λ command. IsBounded command) }
{
    if word == "replay" {
        Some(Command::ReplaySeed { seed, budget })
    } else {
        None
    }
}

/// The budget of `--steps N`.
pub(crate) fn budget_in(option: &str, number: &str) -> Option<u32>
    ensures budget { result ≡ budget_in option.now number.now }
    ensures bounded { IfSome result (λ budget. budget ≤ max_steps) }
{
    if option == "--steps" {
        positive_within(MAX_STEPS, number.as_bytes())
    } else {
        None
    }
}
