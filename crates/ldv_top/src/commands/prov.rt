//! `prov`: from its words to its response.

ghost use Rattle.std.specs.Prelude.{◌≡◌, ◌≤◌, Some, length, map, string_bytes, IfOk};
ghost use Rattle.ldv_value.specs.Gives.{Gives};
ghost use Rattle.ldv_value.specs.Limits.{input_limit};
ghost use Rattle.run_model.specs.ValidTrace.{IsTrace};
ghost use Rattle.prov_export.specs.Dependence.{depends_report};
ghost use Rattle.ldv_top.specs.Due.{response_due};
ghost use Rattle.ldv_top.specs.DueOfProv.{due_prov, due_prov_depends, prov_due};
ghost use Rattle.ldv_top.specs.DueOfReports.{item_due};
ghost use Rattle.ldv_top.specs.inner.WordStops.{Stops};
ghost use Rattle.ldv_top.specs.Words.{IsBounded};
ghost use Rattle.ldv_top.specs.WordsOfProv.{prov_of, prov_depends_named};
ghost use Rattle.ldv_top.specs.declared.command.Command.TheVariants.{ProvDepends};

use crate::command::Command;
use crate::reading::{read_graph, read_package_of};
use crate::response::Response;
use crate::word_stop::WordStop;
use ldv_value::{Bytes, Utf8, is_path};
use package_layout::PackageStop;
use prov_export::{ProvStop, depends_text, write_prov};
use run_model::Package;
use std::alloc::{AllocError, Global};
use trace_graph::Graph;

/// The command of the words after `prov`.
pub(crate) fn prov_of(alloc: Global, words: &[String]) -> Result<Command, WordStop>
    ensures command { Gives Stops result (prov_of (map string_bytes words.now)) }
    ensures bounded { IfOk result (λ command. IsBounded command) }
{
    match words {
        [] => Ok(Command::Prov),
        [_word] => Err(WordStop::Usage),
        [word, path] => prov_depends_named(alloc, word.as_str(), path.as_str()),
        _ => Err(WordStop::Usage),
    }
}

fn prov_depends_named(alloc: Global, word: &str, path: &str) -> Result<Command, WordStop>
    ensures command { Gives Stops result (prov_depends_named word.now path.now) }
    ensures bounded { IfOk result (λ command. IsBounded command) }
{
    if word == "depends" && is_path(path) {
        prov_depends(alloc, path)
    } else {
        Err(WordStop::Usage)
    }
}

fn prov_depends(alloc: Global, path: &str) -> Result<Command, WordStop>
    ensures command { Gives Stops result (Some (ProvDepends path.now)) }
    ensures bounded { IfOk result (λ command. IsBounded command) }
{
    match Utf8::of(alloc, path) {
        Ok(path) => Ok(Command::ProvDepends { path }),
        Err(_) => Err(WordStop::NoMemory),
    }
}

/// The response of `prov` to an input.
#[tactic(auto, using(crate::proofs::Traces::valid_trace))]
pub(crate) fn prov_response(alloc: Global, input: Bytes) -> Result<Response, AllocError>
    requires short { length input ≤ input_limit }
    ensures { IfOk result (λ response. response_due response ≡ due_prov input) }
{
    match read_package_of(alloc, input) {
        Ok(package) => written_response(alloc, &package),
        Err(PackageStop::Damaged(kind)) => Ok(Response::Damaged(kind)),
        Err(PackageStop::NoMemory) => Err(AllocError),
    }
}

fn written_response(alloc: Global, package: &Package) -> Result<Response, AllocError>
    requires { IsTrace «package».now.events }
    ensures { IfOk result (λ response. response_due response ≡ prov_due «package».now) }
{
    let graph = Graph::of_events(alloc, &package.events)?;
    Ok(Response::Written(write_prov(alloc, &graph)?))
}

/// The response of `prov depends` to an input. The path is looked up in the graph of the document only.
pub(crate) fn prov_depends_response(
    alloc: Global,
    path: &str,
    input: Bytes,
) -> Result<Response, AllocError>
    requires short { length input ≤ input_limit }
    ensures { IfOk result (λ response. response_due response ≡ due_prov_depends path.now input) }
{
    match read_graph(alloc, input) {
        Ok(graph) => sources_response(alloc, &graph, path),
        Err(ProvStop::NotProv) => Ok(Response::NotProv),
        Err(ProvStop::NoMemory) => Err(AllocError),
    }
}

fn sources_response(alloc: Global, graph: &Graph, path: &str) -> Result<Response, AllocError>
    ensures { IfOk result (λ response. response_due response ≡ item_due (depends_report graph.now path.now)) }
{
    let text = depends_text(alloc, graph, path)?;
    Ok(item_response(text))
}

// The lines on a path, which may be no node.
fn item_response(text: Option<Bytes>) -> Response
    ensures { response_due result ≡ item_due text }
{
    match text {
        Some(text) => Response::Written(text),
        None => Response::NoSuch,
    }
}
