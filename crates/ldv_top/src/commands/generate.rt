//! `gen`: from its words to its response.

ghost use Rattle.std.specs.Prelude.{◌≡◌, ◌++◌, ◌-◌, Some, length, drop, map, option_map, string_bytes};
ghost use Rattle.std.specs.Prelude.{IfOk, IfSome, OnOk};
ghost use Rattle.std.specs.Fmt.{decimal};
ghost use Rattle.ldv_value.specs.Gives.{Gives};
ghost use Rattle.ldv_value.specs.Limits.{default_steps};
ghost use Rattle.run_model.specs.declared.package.Mode.TheVariants.{Included};
ghost use Rattle.run_model.specs.OutcomeText.{line, outcome_text_of};
ghost use Rattle.run_model.specs.Package.{own_world};
ghost use Rattle.run_model.specs.Start.{IsParsed, start_script};
ghost use Rattle.package_layout.specs.Valid.{IsValidPackage};
ghost use Rattle.replay_db.specs.Runs.{CanRun, Stops, package_within};
ghost use Rattle.replay_db.specs.Worlds.{ValidWorld};
ghost use Rattle.ldv_top.specs.Due.{response_due};
ghost use Rattle.ldv_top.specs.DueOfGenerate.{counts_line, digest_text, due_generate, kept_count};
ghost use Rattle.ldv_top.specs.DueOfGenerate.{package_line, replay_line, row_count, summary_head};
ghost use Rattle.ldv_top.specs.DueOfGenerate.{summed_package, summed_replay, summed_world};
ghost use Rattle.ldv_top.specs.Words.{IsBounded};
ghost use Rattle.ldv_top.specs.WordsOfGenerate.{generate_of};
ghost use Rattle.ldv_top.specs.declared.command.Command.TheVariants.{Generate};

use crate::command::Command;
use crate::numbers::positive_within;
use crate::response::Response;
use hex::encode;
use itoa::Buffer;
use ldv_value::{Bytes, DEFAULT_STEPS};
use package_layout::{DIGEST_LENGTH, SpellStop, spell};
use replay_db::{EndStop, package_law, parsed_world, record_parsed, replay_included_parsed};
use run_model::{Mode, Outcome, Package, PackedTable, ParsedWorld, World, outcome_text};
use script_parse::Script;
use sql_model::Table;
use std::alloc::{AllocError, Global};
use world_json::generate;

// The largest number of orders of a generated world.
const MAX_ORDERS: u32 = 100_000;

/// The command of the words after `gen`.
pub(crate) fn generate_of(words: &[String]) -> Option<Command>
    ensures command { result ≡ generate_of (map string_bytes words.now) }
    ensures bounded { IfSome result (λ command. IsBounded command) }
{
    match words {
        [number] => command_of_orders(positive_within(MAX_ORDERS, number.as_str().as_bytes())),
        _ => None,
    }
}

fn command_of_orders(orders: Option<u32>) -> Option<Command>
    ensures command { result ≡ option_map (λ orders. Generate orders) orders }
    ensures bounded { IfSome result (λ command. IsBounded command) }
{
    match orders {
        Some(orders) => Some(Command::Generate { orders }),
        None => None,
    }
}

/// The response of `gen`: a world is made, recorded, and the package spelled and replayed.
pub(crate) fn generate_response(alloc: Global, orders: u32) -> Result<Response, AllocError>
    ensures { IfOk result (λ response. response_due response ≡ due_generate orders) }
{
    let world = generate(alloc, orders)?;
    world_response(alloc, orders, world)
}

fn world_response(alloc: Global, orders: u32, world: World) -> Result<Response, AllocError>
    requires { ValidWorld world }
    ensures { IfOk result (λ response. response_due response ≡ summed_world orders world) }
{
    package_law();
    let parsed = parsed_world(alloc, world)?;
    recorded_response(alloc, orders, parsed)
}

fn recorded_response(
    alloc: Global,
    orders: u32,
    parsed: ParsedWorld,
) -> Result<Response, AllocError>
    requires valid { ValidWorld parsed.world }
    requires parsed { IsParsed parsed }
    ensures { IfOk result (λ response. response_due response ≡ summed_world orders parsed.world) }
{
    package_law();
    let rows = row_count(parsed.world.tables.items());
    match record_once(alloc, &parsed) {
        Ok(package) => package_response(alloc, orders, rows, package, script_of(parsed)),
        Err(EndStop::NotEnded) => Ok(Response::NotEnded(DEFAULT_STEPS)),
        Err(EndStop::NoMemory) => Err(AllocError),
    }
}

fn record_once(alloc: Global, parsed: &ParsedWorld) -> Result<Package, EndStop>
    requires can_run { CanRun parsed.now.world }
    requires parsed { IsParsed parsed.now }
    ensures { Gives Stops result (package_within Included default_steps parsed.now.world) }
{
    record_parsed(alloc, parsed, Mode::Included, DEFAULT_STEPS)
}

// The script of a world, which isn't kept.
fn script_of(parsed: ParsedWorld) -> Script
    ensures { result ≡ parsed.script }
{
    let ParsedWorld { world: _, script } = parsed;
    script
}

#[tactic(auto, using(crate::proofs::GenerateLaws::summed_long))]
fn package_response(
    alloc: Global,
    orders: u32,
    rows: u128,
    package: Package,
    script: Script,
) -> Result<Response, AllocError>
    requires valid { IsValidPackage «package» }
    requires parsed { start_script (own_world «package») ≡ Some script.instructions }
    ensures { IfOk result (λ response. response_due response ≡ summed_package orders rows «package») }
{
    package_law();
    match spell(alloc, &package) {
        Ok(bytes) => spelled_response(alloc, orders, rows, package, script, bytes),
        Err(SpellStop::TooLong) => Ok(Response::PackageTooLong),
        Err(SpellStop::NoMemory) => Err(AllocError),
    }
}

fn spelled_response(
    alloc: Global,
    orders: u32,
    rows: u128,
    package: Package,
    script: Script,
    bytes: Bytes,
) -> Result<Response, AllocError>
    requires can_run { CanRun (own_world «package») }
    requires parsed { start_script (own_world «package») ≡ Some script.instructions }
    ensures { IfOk result (λ response. response_due response
        ≡ summed_replay (summary_head orders rows «package» bytes) «package») }
{
    let head = summary_head(alloc, orders, rows, &package, bytes)?;
    replayed_response(alloc, package, script, head)
}

#[tactic(auto, using(crate::proofs::GenerateLaws::replay_sums))]
fn replayed_response(
    alloc: Global,
    package: Package,
    script: Script,
    head: Bytes,
) -> Result<Response, AllocError>
    requires can_run { CanRun (own_world «package») }
    requires parsed { start_script (own_world «package») ≡ Some script.instructions }
    ensures { IfOk result (λ response. response_due response ≡ summed_replay head «package») }
{
    match replay_included_parsed(alloc, package, script, DEFAULT_STEPS) {
        Ok(outcome) => Ok(Response::Written(with_replay(alloc, head, &outcome)?)),
        Err(EndStop::NotEnded) => Ok(Response::NotEnded(DEFAULT_STEPS)),
        Err(EndStop::NoMemory) => Err(AllocError),
    }
}

// ---- the summary

// The lines before the replay. The bytes of the package aren't kept.
fn summary_head(
    alloc: Global,
    orders: u32,
    rows: u128,
    package: &Package,
    bytes: Bytes,
) -> Result<Bytes, AllocError>
    ensures { IfOk result (λ head. head ≡ summary_head orders rows «package».now bytes) }
{
    let kept = kept_count(package.tables.items());
    let mut head = Bytes::new(alloc);
    append_counts(&mut head, orders, rows, kept, package.steps)?;
    append_package(alloc, &mut head, bytes.as_slice())?;
    Ok(head)
}

fn with_replay(alloc: Global, head: Bytes, outcome: &Outcome) -> Result<Bytes, AllocError>
    ensures { IfOk result (λ text. text ≡ head ++ replay_line (outcome_text_of outcome.now)) }
{
    let text = outcome_text(alloc, outcome)?;
    let mut summary = head;
    append_counted(&mut summary, b"replay ", text.len() as u128)?;
    Ok(summary)
}

// A sum of lengths in memory has fewer than 128 bits.
fn row_count(tables: &[Table]) -> u128
    ensures { result ≡ row_count tables.now }
{
    let mut count: u128 = 0;
    for table in tables {
        count += table.rows.len() as u128;
    }
    count
}

fn kept_count(tables: &[PackedTable]) -> u128
    ensures { result ≡ kept_count tables.now }
{
    let mut count: u128 = 0;
    for table in tables {
        count += table.rows.len() as u128;
    }
    count
}

fn append_counts(
    to: &mut Bytes,
    orders: u32,
    rows: u128,
    kept: u128,
    steps: u32,
) -> Result<(), AllocError>
    ensures { OnOk result (to.new ≡ to.old ++ counts_line orders rows kept steps) }
{
    append_numbered(to, b"gen ", orders as u128)?;
    append_numbered(to, b" rows ", rows)?;
    append_numbered(to, b" kept ", kept)?;
    append_counted(to, b" steps ", steps as u128)
}

fn append_package(alloc: Global, to: &mut Bytes, bytes: &[u8]) -> Result<(), AllocError>
    ensures { OnOk result (to.new ≡ to.old ++ package_line bytes.now) }
{
    append_numbered(to, b"package ", bytes.len() as u128)?;
    to.extend(b" ")?;
    append_digest(alloc, to, bytes)?;
    to.extend(b"\n")
}

fn append_digest(alloc: Global, to: &mut Bytes, bytes: &[u8]) -> Result<(), AllocError>
    ensures { OnOk result (to.new ≡ to.old ++ digest_text bytes.now) }
{
    let text = encode(alloc, last_bytes(bytes))?;
    to.extend(text.as_bytes())
}

fn last_bytes(bytes: &[u8]) -> &[u8]
    ensures { result.now ≡ drop (length bytes.now - 32) bytes.now }
{
    &bytes[bytes.len().saturating_sub(DIGEST_LENGTH)..]
}

// A number and LF.
fn append_counted(to: &mut Bytes, word: &[u8], number: u128) -> Result<(), AllocError>
    ensures { OnOk result (to.new ≡ to.old ++ line (word.now ++ decimal number)) }
{
    append_numbered(to, word, number)?;
    to.extend(b"\n")
}

fn append_numbered(to: &mut Bytes, word: &[u8], number: u128) -> Result<(), AllocError>
    ensures { OnOk result (to.new ≡ to.old ++ (word.now ++ decimal number)) }
{
    let mut buffer = Buffer::new();
    to.extend(word)?;
    to.extend(buffer.format(number).as_bytes())
}
