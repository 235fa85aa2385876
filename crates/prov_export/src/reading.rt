//! The graph of a document.

ghost use Rattle.std.specs.Prelude.{◌≡◌, IfOk, bytes_eq};
ghost use Rattle.ldv_value.specs.Gives.{Gives};
ghost use Rattle.serde_json.specs.View.{view};
ghost use Rattle.trace_graph.specs.Graph.{Parts};
ghost use Rattle.trace_graph.specs.WellFormed.{IsWellFormed, is_well_formed};
ghost use Rattle.prov_export.specs.Document.{prov_text};
ghost use Rattle.prov_export.specs.Laws.{IsTypedGraph};
ghost use Rattle.prov_export.specs.inner.ObjectRefs.{objects_seen};
ghost use Rattle.prov_export.specs.Reading.{kept_as, parts_in, parts_with, prov_reading, taken_from};
ghost use Rattle.prov_export.specs.Stopping.{Stops};

use crate::edge_reading::edges_in;
use crate::error::ProvStop;
use crate::node_reading::nodes_in;
use crate::objects::{ObjectRefs, objects_of};
use crate::writing::write_prov;
use json_bytes::{JsonStop, read_json};
use serde_json::Value;
use std::alloc::{AllocError, Global};
use std::marker::Model;
use trace_graph::{Edges, Graph, Nodes, is_well_formed};

/// The nodes and edges taken out of a document.
#[derive(Drop)]
struct Draft {
    nodes: Nodes,
    edges: Edges,
}

impl Model for Draft {
    ghost use Rattle.trace_graph.specs.Graph.{Parts};

    ghost Value = { Parts };

    ghost view = { λ a. record { nodes = a.nodes; edges = a.edges } };
}

fn draft_with(alloc: Global, objects: &ObjectRefs<'_>) -> Result<Draft, ProvStop>
    ensures { Gives Stops result (parts_with (objects_seen objects.now)) }
{
    let nodes = match nodes_in(alloc, objects) {
        Ok(nodes) => nodes,
        Err(stop) => return Err(stop),
    };
    match edges_in(alloc, objects) {
        Ok(edges) => Ok(Draft { nodes, edges }),
        Err(stop) => Err(stop),
    }
}

fn draft_in(alloc: Global, document: &Value) -> Result<Draft, ProvStop>
    ensures { Gives Stops result (parts_in (view document.now)) }
{
    match objects_of(document) {
        None => Err(ProvStop::NotProv),
        Some(objects) => draft_with(alloc, &objects),
    }
}

// The JSON value is dropped with the call.
fn draft_of(alloc: Global, bytes: &[u8]) -> Result<Draft, ProvStop>
    ensures { Gives Stops result (taken_from bytes.now) }
{
    match read_json(alloc, bytes) {
        Ok(document) => draft_in(alloc, &document),
        Err(JsonStop::NotJson) => Err(ProvStop::NotProv),
        Err(JsonStop::NoMemory) => Err(ProvStop::NoMemory),
    }
}

fn is_text_of(alloc: Global, graph: &Graph, bytes: &[u8]) -> Result<bool, AllocError>
    ensures { IfOk result (λ same. same ≡ bytes_eq (prov_text graph.now) bytes.now) }
{
    let text = write_prov(alloc, graph)?;
    Ok(text.items() == bytes)
}

// A well-formed graph, if its document has that text.
fn graph_if_written(alloc: Global, bytes: &[u8], graph: Graph) -> Result<Graph, ProvStop>
    requires { IsWellFormed graph }
    ensures { Gives Stops result (kept_as bytes.now graph) }
{
    let same = is_text_of(alloc, &graph, bytes)?;
    if same {
        Ok(graph)
    } else {
        Err(ProvStop::NotProv)
    }
}

fn graph_of_draft(alloc: Global, bytes: &[u8], draft: Draft) -> Result<Graph, ProvStop>
    ensures { Gives Stops result (kept_as bytes.now draft) }
{
    let Draft { nodes, edges } = draft;
    let formed = is_well_formed(alloc, nodes.items(), edges.items())?;
    if formed {
        graph_if_written(alloc, bytes, Graph::of_parts(nodes, edges))
    } else {
        Err(ProvStop::NotProv)
    }
}

fn graph_of(alloc: Global, bytes: &[u8]) -> Result<Graph, ProvStop>
    ensures { Gives Stops result (prov_reading bytes.now) }
{
    match draft_of(alloc, bytes) {
        Ok(draft) => graph_of_draft(alloc, bytes, draft),
        Err(stop) => Err(stop),
    }
}

/// The graph whose document the bytes are. `NotProv` if and only if they are the document of no well-formed
/// graph; `NoMemory` may come in place of either answer.
pub fn read_prov(alloc: Global, bytes: &[u8]) -> Result<Graph, ProvStop>
    ensures reading { Gives Stops result (prov_reading bytes.now) }
    ensures ok { IfOk result (λ graph. IsWellFormed graph × (prov_text graph ≡ bytes.now)) }
    ensures not_prov { result ≡ Err ProvStop.NotProv → (graph : Parts) → IsTypedGraph graph
        → IsWellFormed graph → prov_text graph ≡ bytes.now → ⊥ }
{
    graph_of(alloc, bytes)
}
