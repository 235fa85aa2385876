//! The report on the nodes that a path depends on, from the document of a graph.

ghost use Rattle.std.specs.Prelude.{◌≡◌, ◌<◌, ◌++◌, length, map, IfOk, OnOk};
ghost use Rattle.std.specs.Fmt.{decimal};
ghost use Rattle.std.specs.List.{flat_map};
ghost use Rattle.reach.specs.Lent.{lent_node};
ghost use Rattle.trace_graph.specs.NodeLines.{node_line};
ghost use Rattle.trace_graph.specs.Lent.{node_of};
ghost use Rattle.prov_export.specs.Dependence.{depends_at, depends_report};

use ldv_value::{Bytes, MAX_STEPS, Utf8};
use reach::depends;
use std::alloc::{AllocError, Global};
use trace_graph::{Graph, Node, NodeKey, append_number_line, append_path, append_version};

/// A line for each node from which information may have got to a path, in the order of the report on a
/// package, with processes by their creation numbers. `None` if and only if the path is no node of the graph.
/// `AllocError` means out of memory only.
pub fn depends_text(alloc: Global, graph: &Graph, path: &str) -> Result<Option<Bytes>, AllocError>
    ensures { IfOk result (λ text. text ≡ depends_report graph.now path.now) }
{
    let node = Node::Path(Utf8::of(alloc, path)?);
    match graph.place(&node) {
        None => Ok(None),
        Some(place) => Ok(Some(report_at(alloc, graph, place)?)),
    }
}

fn report_at(alloc: Global, graph: &Graph, place: usize) -> Result<Bytes, AllocError>
    requires { place < length graph.now.nodes }
    ensures { IfOk result (λ text. text ≡ depends_at graph.now place) }
{
    let keys = graph.keys(alloc)?;
    let nodes = keys.as_slice();
    let edges = graph.edges().items();
    let sources = depends(alloc, nodes, edges, place, MAX_STEPS)?;
    let found = sources.as_slice();
    lines_of(alloc, found)
}

fn lines_of(alloc: Global, nodes: &[&NodeKey<'_>]) -> Result<Bytes, AllocError>
    ensures { IfOk result (λ text. text ≡ flat_map (node_line decimal) (map lent_node nodes.now)) }
{
    let mut text = Bytes::new(alloc);
    append_nodes(&mut text, nodes)?;
    Ok(text)
}

fn append_nodes(to: &mut Bytes, nodes: &[&NodeKey<'_>]) -> Result<(), AllocError>
    ensures { OnOk result (to.new ≡ to.old ++ flat_map (node_line decimal) (map lent_node nodes.now)) }
{
    for node in nodes {
        append_node(to, *node)?;
    }
    Ok(())
}

fn append_node(to: &mut Bytes, node: &NodeKey<'_>) -> Result<(), AllocError>
    ensures { OnOk result (to.new ≡ to.old ++ node_line decimal (node_of node.now)) }
{
    match node {
        NodeKey::Path(path) => append_path(to, *path),
        NodeKey::Process(process) => append_number_line(to, b"process ", *process),
        NodeKey::Row(table, row, version) => append_version(to, *table, *row, *version),
        NodeKey::Ask(statement) => append_number_line(to, b"ask ", *statement),
        NodeKey::Reply(statement) => append_number_line(to, b"reply ", *statement),
    }
}
