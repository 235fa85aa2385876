//! `inspect`: from its words to its response.

ghost use Rattle.std.specs.Prelude.{◌≡◌, ◌≤◌, ℕ, List as Items, Option as Maybe, Some, length, map};
ghost use Rattle.std.specs.Prelude.{option_map, string_bytes, IfOk};
ghost use Rattle.ldv_value.specs.Gives.{Gives};
ghost use Rattle.ldv_value.specs.Limits.{input_limit};
ghost use Rattle.inspect.specs.Stopping.{Stops as StopsReport};
ghost use Rattle.run_model.specs.ValidTrace.{IsTrace};
ghost use Rattle.ldv_top.specs.Due.{response_due};
ghost use Rattle.ldv_top.specs.DueOfReports.{due_inspect, item_due, report_due};
ghost use Rattle.ldv_top.specs.WordNumbers.{number_within};
ghost use Rattle.ldv_top.specs.inner.WordStops.{Stops};
ghost use Rattle.ldv_top.specs.WordsOfReports.{depends_named, report_named, report_of, why_named};
ghost use Rattle.ldv_top.specs.declared.command.Report.TheVariants.{Depends, Files, Rows, Why};

use crate::command::Report;
use crate::numbers::number_within;
use crate::reading::{read_compact_of, read_package_of};
use crate::response::Response;
use crate::word_stop::WordStop;
use inspect::{InspectStop, depends_text, files_text, rows_text, trace_text, why_text};
use ldv_value::{Bytes, Utf8, is_path};
use package_layout::PackageStop;
use run_model::Package;
use sql_model::is_sql_name;
use std::alloc::{AllocError, Global};

// The largest number of a row.
const MAX_ROW: u32 = 4_294_967_294;

/// The report of the words after `inspect`.
pub(crate) fn report_of(alloc: Global, words: &[String]) -> Result<Report, WordStop>
    ensures { Gives Stops result (report_of (map string_bytes words.now)) }
{
    match words {
        [] => Err(WordStop::Usage),
        [word] => known_report(report_named(word.as_str())),
        [word, path] => depends_named(alloc, word.as_str(), path.as_str()),
        [word, table, row] => why_named(alloc, word.as_str(), table.as_str(), row.as_str()),
        _ => Err(WordStop::Usage),
    }
}

fn known_report(report: Option<Report>) -> Result<Report, WordStop>
    ensures { Gives Stops result report }
{
    match report {
        Some(report) => Ok(report),
        None => Err(WordStop::Usage),
    }
}

fn report_named(word: &str) -> Option<Report>
    ensures { result ≡ report_named word.now }
{
    if word == "rows" {
        Some(Report::Rows)
    } else if word == "files" {
        Some(Report::Files)
    } else if word == "trace" {
        Some(Report::Trace)
    } else {
        None
    }
}

fn depends_named(alloc: Global, word: &str, path: &str) -> Result<Report, WordStop>
    ensures { Gives Stops result (depends_named word.now path.now) }
{
    if word == "depends" && is_path(path) {
        depends(alloc, path)
    } else {
        Err(WordStop::Usage)
    }
}

fn depends(alloc: Global, path: &str) -> Result<Report, WordStop>
    ensures { Gives Stops result (Some (Depends path.now)) }
{
    match Utf8::of(alloc, path) {
        Ok(path) => Ok(Report::Depends { path }),
        Err(_) => Err(WordStop::NoMemory),
    }
}

fn why_named(alloc: Global, word: &str, table: &str, row: &str) -> Result<Report, WordStop>
    ensures { Gives Stops result (why_named word.now table.now row.now) }
{
    if word == "why" && is_sql_name(table) {
        why(alloc, table, number_within(MAX_ROW, row.as_bytes()))
    } else {
        Err(WordStop::Usage)
    }
}

fn why(alloc: Global, table: &str, row: Option<u32>) -> Result<Report, WordStop>
    ensures { Gives Stops result (option_map (λ number. Why table.now number) row) }
{
    match row {
        Some(row) => why_row(alloc, table, row),
        None => Err(WordStop::Usage),
    }
}

fn why_row(alloc: Global, table: &str, row: u32) -> Result<Report, WordStop>
    ensures { Gives Stops result (Some (Why table.now row)) }
{
    match Utf8::of(alloc, table) {
        Ok(table) => Ok(Report::Why { table, row }),
        Err(_) => Err(WordStop::NoMemory),
    }
}

/// The response of `inspect` to an input. Only reports on events make the list of them.
pub(crate) fn inspect_response(
    alloc: Global,
    report: &Report,
    input: Bytes,
) -> Result<Response, AllocError>
    requires short { length input ≤ input_limit }
    ensures { IfOk result (λ response. response_due response ≡ due_inspect report.now input) }
{
    match report {
        Report::Rows => rows_response(alloc, input),
        Report::Files => files_response(alloc, input),
        _ => whole_response(alloc, report, input),
    }
}

fn rows_response(alloc: Global, input: Bytes) -> Result<Response, AllocError>
    requires short { length input ≤ input_limit }
    ensures { IfOk result (λ response. response_due response ≡ due_inspect Rows input) }
{
    match read_compact_of(alloc, input) {
        Ok(package) => Ok(Response::Written(rows_text(alloc, &package.bare)?)),
        Err(PackageStop::Damaged(kind)) => Ok(Response::Damaged(kind)),
        Err(PackageStop::NoMemory) => Err(AllocError),
    }
}

fn files_response(alloc: Global, input: Bytes) -> Result<Response, AllocError>
    requires short { length input ≤ input_limit }
    ensures { IfOk result (λ response. response_due response ≡ due_inspect Files input) }
{
    match read_compact_of(alloc, input) {
        Ok(package) => Ok(Response::Written(files_text(alloc, &package.bare)?)),
        Err(PackageStop::Damaged(kind)) => Ok(Response::Damaged(kind)),
        Err(PackageStop::NoMemory) => Err(AllocError),
    }
}

// A report for which the list of events is made.
#[tactic(auto, using(crate::proofs::Traces::valid_trace))]
fn whole_response(alloc: Global, report: &Report, input: Bytes) -> Result<Response, AllocError>
    requires short { length input ≤ input_limit }
    ensures { IfOk result (λ response. response_due response ≡ due_inspect report.now input) }
{
    match read_package_of(alloc, input) {
        Ok(package) => report_response(alloc, report, package),
        Err(PackageStop::Damaged(kind)) => Ok(Response::Damaged(kind)),
        Err(PackageStop::NoMemory) => Err(AllocError),
    }
}

fn report_response(alloc: Global, report: &Report, package: Package) -> Result<Response, AllocError>
    requires { IsTrace «package».events }
    ensures { IfOk result (λ response. response_due response ≡ report_due report.now «package») }
{
    match report {
        Report::Rows => Ok(Response::Written(rows_text(alloc, &package)?)),
        Report::Files => Ok(Response::Written(files_text(alloc, &package)?)),
        Report::Trace => Ok(Response::Written(trace_text(alloc, &package)?)),
        Report::Why { table, row } => {
            item_response(why_text(alloc, &package, table.as_str(), *row))
        }
        Report::Depends { path } => { item_response(depends_text(alloc, package, path.as_str())) }
    }
}

// The report on an item, which may not be there.
fn item_response(text: Result<Bytes, InspectStop>) -> Result<Response, AllocError>
    ensures { (due : Maybe (Items ℕ)) → Gives StopsReport text due
        → IfOk result (λ response. response_due response ≡ item_due due) }
{
    match text {
        Ok(text) => Ok(Response::Written(text)),
        Err(InspectStop::NoSuch) => Ok(Response::NoSuch),
        Err(InspectStop::NoMemory) => Err(AllocError),
    }
}
