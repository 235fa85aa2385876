//! The nodes that a node depends on.

ghost use Rattle.std.specs.Prelude.{◌≡◌, ◌<◌, length, map, IfOk, IsTrue};
ghost use Rattle.trace_graph.specs.Lent.{node_of};
ghost use Rattle.trace_graph.specs.Graph.{are_between};
ghost use Rattle.reach.specs.Reach.{AreSources};
ghost use Rattle.reach.specs.Depends.{depends_of};
ghost use Rattle.reach.specs.Lent.{lent_node};

use crate::found::open_keys;
use crate::latest::latest_times;
use std::alloc::{AllocError, Global};
use trace_graph::{Edge, NodeKey};

/// The nodes that a node of a graph depends on by a time. A path of at least one edge must lead from them to
/// the node, and each edge must have a time within its interval such that the times never fall and the last
/// is at most `time`. The node itself is among them only if such a path leads from it to itself. Each node
/// comes once: paths sorted by bytes, then processes by number, rows by table, row and version, and
/// statements and then replies by number. They are borrowed from the graph. `nodes` and `edges` are those of
/// the graph, `node` is a place in `nodes`, from 0, and `time` is a step. `AllocError` means out of memory
/// only.
pub fn depends<'a, 'b>(
    alloc: Global,
    nodes: &'a [NodeKey<'b>],
    edges: &[Edge],
    node: usize,
    time: u32,
) -> Result<Vec<&'a NodeKey<'b>>, AllocError>
    requires between { IsTrue (are_between (length nodes.now) edges.now) }
    requires node { node < length nodes.now }
    ensures nodes { IfOk result (λ found. map lent_node found.items
        ≡ depends_of (record { nodes = map node_of nodes.now; edges = edges.now }) node time) }
    ensures sources { IfOk result (λ found. AreSources
        (record { nodes = map node_of nodes.now; edges = edges.now }) node time (map lent_node found.items)) }
{
    let latest = latest_times(alloc, nodes.len(), edges, node, time)?;
    open_keys(alloc, nodes, edges, &latest)
}
