//! The report on the nodes that a path depends on.

ghost use Rattle.std.specs.Prelude.{◌≡◌, ◌<◌, ◌++◌, codes, length, map, IfOk, IsTrue, OnOk};
ghost use Rattle.std.specs.List.{flat_map};
ghost use Rattle.ldv_value.specs.Gives.{Gives};
ghost use Rattle.reach.specs.Depends.{depends_of};
ghost use Rattle.reach.specs.Lent.{lent_node};
ghost use Rattle.trace_graph.specs.NodeLines.{node_line};
ghost use Rattle.run_model.specs.OutcomeText.{line};
ghost use Rattle.run_model.specs.ValidTrace.{IsTrace};
ghost use Rattle.trace_graph.specs.Lent.{node_of, lent_parts};
ghost use Rattle.trace_graph.specs.Graph.{are_between};
ghost use Rattle.inspect.specs.DependsReports.{depends_report, report_on};
ghost use Rattle.inspect.specs.ProcessNames.{name_in};
ghost use Rattle.inspect.specs.Stopping.{Stops};

use crate::error::InspectStop;
use crate::process_names::{Processes, append_process, processes_of};
use ldv_value::Bytes;
use reach::depends;
use run_model::Package;
use std::alloc::{AllocError, Global};
use trace_graph::{LentGraph, NodeKey, NodeTexts, append_number_line, append_path, append_version};

/// A line for each node from which information may have got to a path by the end of the recorded run: paths
/// sorted by bytes, then processes by creation number, rows by table, row and version, and statements and
/// then replies by number. `NoSuch` if and only if the path is no node of the graph of the package's events;
/// `NoMemory` may come in place of either answer. The events are dropped on the way, and the graph reuses
/// their memory.
pub fn depends_text(alloc: Global, package: Package, path: &str) -> Result<Bytes, InspectStop>
    requires { IsTrace «package».events }
    ensures { Gives Stops result (depends_report «package».events «package».steps path.now) }
{
    let Package {
        mode: _,
        start: _,
        seed: _,
        steps,
        files: _,
        tables: _,
        logs: _,
        events,
    } = package;
    let processes = processes_of(alloc, events.items())?;
    let texts = NodeTexts::of_events(alloc, &events)?;
    let graph = LentGraph::of_events(alloc, &texts, events)?;
    report_on(alloc, &processes, &graph, path, steps)
}

// The report on a path of a graph, for a run of this number of steps.
fn report_on(
    alloc: Global,
    processes: &Processes,
    graph: &LentGraph<'_>,
    path: &str,
    steps: u32,
) -> Result<Bytes, InspectStop>
    requires between { IsTrue (are_between (length graph.now.nodes.items) graph.now.edges.items) }
    ensures { Gives Stops result (report_on (lent_parts graph.now) processes.now steps path.now) }
{
    match graph.place(path) {
        None => Err(InspectStop::NoSuch),
        Some(place) => Ok(report_at(alloc, processes, graph, place, steps)?),
    }
}

fn report_at(
    alloc: Global,
    processes: &Processes,
    graph: &LentGraph<'_>,
    place: usize,
    time: u32,
) -> Result<Bytes, AllocError>
    requires between { IsTrue (are_between (length graph.now.nodes.items) graph.now.edges.items) }
    requires place { place < length graph.now.nodes.items }
    ensures { IfOk result (λ text. text
        ≡ flat_map (node_line (name_in processes.now)) (depends_of (lent_parts graph.now) place time)) }
{
    let sources = sources_of(alloc, graph, place, time)?;
    let mut text = Bytes::new(alloc);
    append_nodes(&mut text, processes, sources.as_slice())?;
    Ok(text)
}

// The nodes that the node at a place depends on by a time.
fn sources_of<'a, 'b>(
    alloc: Global,
    graph: &'a LentGraph<'b>,
    place: usize,
    time: u32,
) -> Result<Vec<&'a NodeKey<'b>>, AllocError>
    requires between { IsTrue (are_between (length graph.now.nodes.items) graph.now.edges.items) }
    requires place { place < length graph.now.nodes.items }
    ensures { IfOk result (λ sources. map lent_node sources.items
        ≡ depends_of (lent_parts graph.now) place time) }
{
    let nodes = graph.nodes.as_slice();
    let edges = graph.edges.as_slice();
    depends(alloc, nodes, edges, place, time)
}

fn append_nodes(
    to: &mut Bytes,
    processes: &Processes,
    nodes: &[&NodeKey<'_>],
) -> Result<(), AllocError>
    ensures { OnOk result (to.new
        ≡ to.old ++ flat_map (node_line (name_in processes.now)) (map lent_node nodes.now)) }
{
    for node in nodes {
        append_node(to, processes, *node)?;
    }
    Ok(())
}

fn append_node(to: &mut Bytes, processes: &Processes, node: &NodeKey<'_>) -> Result<(), AllocError>
    ensures { OnOk result (to.new ≡ to.old ++ node_line (name_in processes.now) (node_of node.now)) }
{
    match node {
        NodeKey::Path(path) => append_path(to, *path),
        NodeKey::Process(process) => append_process_line(to, processes, *process),
        NodeKey::Row(table, row, version) => append_version(to, *table, *row, *version),
        NodeKey::Ask(statement) => append_number_line(to, b"ask ", *statement),
        NodeKey::Reply(statement) => append_number_line(to, b"reply ", *statement),
    }
}

fn append_process_line(
    to: &mut Bytes,
    processes: &Processes,
    process: u32,
) -> Result<(), AllocError>
    ensures { OnOk result (to.new ≡ to.old ++ line (codes "process " ++ name_in processes.now process)) }
{
    to.extend(b"process ")?;
    append_process(to, processes, process)?;
    to.extend(b"\n")
}
