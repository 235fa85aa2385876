//! The rules for a whole package.

ghost use Rattle.std.specs.Prelude.{◌≡◌, true, IfOk, bytes_eq, find, nat_lt};
ghost use Rattle.std.specs.List.{list_all};
ghost use Rattle.std.specs.Option.{option_map, is_some};
ghost use Rattle.script_parse.specs.Script.{script_of};
ghost use Rattle.package_layout.specs.CompactReading.{compact_rules};
ghost use Rattle.package_codec.specs.CompactPackages.{expanded_package, with_events};
ghost use Rattle.package_codec.specs.Runs.{are_runs, events_in, is_run};
ghost use Rattle.package_layout.specs.StartScript.{file_script, packed_script, ruled_script, script_in};
ghost use Rattle.package_layout.specs.StartScript.{valid_script};
ghost use Rattle.package_layout.specs.Valid.{mode_rule, steps_rule};
ghost use Rattle.package_layout.specs.Valid.{trace_rule, reasons_rule, parts_rule, whole_rule};

use crate::rules::{is_valid_files, is_valid_logs, is_valid_start, is_valid_tables};
use ldv_value::{Bytes, FILE_LIMIT, MAX_STEPS, Utf8, Words};
use package_codec::{
    CompactPackage, EventRun, Version, are_runs, asked_count, fits_version, is_trace,
};
use run_model::{Logs, Mode, Package, PackedFile, PackedFiles, PackedTable, PackedTables};
use script_parse::{Script, ScriptStop, parse_script};
use std::alloc::{AllocError, Global};

/// The first script of a package, or `None` if the package isn't valid. It is valid if its runs are those of
/// a trace, all of it meets the rules for valid packages, and the version can write it. No list of events is
/// made. `AllocError` means out of memory only.
pub fn valid_script(
    alloc: Global,
    version: Version,
    package: &CompactPackage,
) -> Result<Option<Script>, AllocError>
    ensures script { IfOk result (λ found. option_map (λ s. s.instructions) found
        ≡ valid_script version «package».now) }
    // There is one exactly where the package is valid.
    ensures rules { IfOk result (λ found. is_some (option_map (λ s. s.instructions) found)
        ≡ compact_rules version «package».now) }
{
    script_by_rules(alloc, version, package)
}

fn script_by_rules(
    alloc: Global,
    version: Version,
    package: &CompactPackage,
) -> Result<Option<Script>, AllocError>
    ensures { IfOk result (λ found. option_map (λ s. s.instructions) found
        ≡ valid_script version «package».now) }
{
    if !are_runs(package.runs.items()) {
        return Ok(None);
    }
    if !fits_version(version, package) {
        return Ok(None);
    }
    ruled_script(alloc, package)
}

#[tactic(auto, using(package_codec::proofs::Runs::are_all_runs))]
fn ruled_script(alloc: Global, package: &CompactPackage) -> Result<Option<Script>, AllocError>
    requires { are_runs «package».now.runs ≡ true }
    ensures { IfOk result (λ found. option_map (λ s. s.instructions) found
        ≡ ruled_script (expanded_package «package».now)) }
{
    if !is_valid_parts(alloc, &package.bare)? {
        return Ok(None);
    }
    if !is_valid_whole(&package.bare, package.runs.items()) {
        return Ok(None);
    }
    packed_script(alloc, &package.bare.start, &package.bare.files)
}

fn is_valid_parts(alloc: Global, package: &Package) -> Result<bool, AllocError>
    ensures { IfOk result (λ holds. holds ≡ parts_rule «package».now) }
{
    if !is_valid_start(&package.start) {
        return Ok(false);
    }
    if !is_valid_files(&package.files) {
        return Ok(false);
    }
    if !is_valid_tables(alloc, &package.tables)? {
        return Ok(false);
    }
    Ok(is_valid_logs(&package.logs))
}

fn is_valid_whole(bare: &Package, runs: &[EventRun]) -> bool
    requires { list_all is_run runs.now ≡ true }
    ensures { result ≡ whole_rule (with_events bare.now (events_in runs.now)) }
{
    is_valid_mode(bare.mode, &bare.tables, &bare.logs)
        && is_valid_steps(bare.steps)
        && is_valid_trace(&bare.start, bare.steps, runs)
        && is_valid_reasons(asked_count(runs), &bare.tables)
}

fn is_valid_mode(mode: Mode, tables: &PackedTables, logs: &Logs) -> bool
    ensures { result ≡ mode_rule mode tables.now logs.now }
{
    match mode {
        Mode::Included => logs.is_empty(),
        Mode::Excluded => tables.is_empty(),
    }
}

fn is_valid_steps(steps: u32) -> bool
    ensures { result ≡ steps_rule steps }
{
    1 <= steps && steps <= MAX_STEPS
}

fn is_valid_trace(words: &Words, steps: u32, runs: &[EventRun]) -> bool
    requires { list_all is_run runs.now ≡ true }
    ensures { result ≡ trace_rule words.now steps (events_in runs.now) }
{
    match words.items() {
        [] => false,
        [word, ..] => is_trace(word, steps, runs),
    }
}

fn is_valid_reasons(asked: u64, tables: &PackedTables) -> bool
    ensures { result ≡ reasons_rule asked tables.now }
{
    tables
        .items()
        .iter()
        .all(|table| is_valid_table_reasons(asked, table))
}

fn is_valid_table_reasons(asked: u64, table: &PackedTable) -> bool
    ensures { result ≡ list_all (λ row. nat_lt row.statement asked) table.now.rows }
{
    table
        .rows
        .items()
        .iter()
        .all(|row| u64::from(row.statement) < asked)
}

fn packed_script(
    alloc: Global,
    words: &Words,
    files: &PackedFiles,
) -> Result<Option<Script>, AllocError>
    ensures { IfOk result (λ found. option_map (λ s. s.instructions) found
        ≡ packed_script words.now files.now) }
{
    match words.items() {
        [] => Ok(None),
        [word, ..] => file_script(alloc, word, files),
    }
}

fn file_script(
    alloc: Global,
    word: &Utf8,
    files: &PackedFiles,
) -> Result<Option<Script>, AllocError>
    ensures { IfOk result (λ found. option_map (λ s. s.instructions) found
        ≡ file_script (find (λ f. bytes_eq word.now f.path) files.now)) }
{
    match find_file(files, word) {
        None => Ok(None),
        Some(file) => script_in(alloc, &file.content),
    }
}

fn find_file<'a>(files: &'a PackedFiles, path: &Utf8) -> Option<&'a PackedFile>
    ensures { option_map (λ f. f.now) result ≡ find (λ f. bytes_eq path.now f.path) files.now }
{
    files.items().iter().find(|file| *path == file.path)
}

fn script_in(alloc: Global, content: &Option<Bytes>) -> Result<Option<Script>, AllocError>
    ensures { IfOk result (λ found. option_map (λ s. s.instructions) found
        ≡ script_in content.now) }
{
    match content {
        None => Ok(None),
        Some(bytes) => {
            if bytes.len() <= FILE_LIMIT {
                parse_content(alloc, bytes.as_slice())
            } else {
                Ok(None)
            }
        }
    }
}

fn parse_content(alloc: Global, bytes: &[u8]) -> Result<Option<Script>, AllocError>
    ensures { IfOk result (λ found. option_map (λ s. s.instructions) found ≡ script_of bytes.now) }
{
    match parse_script(alloc, bytes) {
        Ok(script) => Ok(Some(script)),
        Err(ScriptStop::Line(_)) => Ok(None),
        Err(ScriptStop::NoMemory) => Err(AllocError),
    }
}
