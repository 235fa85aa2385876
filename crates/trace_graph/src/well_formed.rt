//! Whether nodes and edges make a well-formed graph.

ghost use Rattle.std.specs.Prelude.{◌≡◌, length, map, IfOk, not};
ghost use Rattle.std.specs.List.{list_all};
ghost use Rattle.sql_model.specs.Keys.{repeats};
ghost use Rattle.trace_graph.specs.Graph.{same_node, is_between, are_between};
ghost use Rattle.trace_graph.specs.WellFormed.{node_rule, places_of, same_places, times_rule, is_well_formed};

use crate::edge::Edge;
use crate::key::keys_of;
use crate::node::Node;
use ldv_value::{MAX_STEPS, is_path};
use sql_model::{has_twice, is_sql_name};
use std::alloc::{AllocError, Global};

// Whether the name of a node meets its rule.
fn node_rule(node: &Node) -> bool
    ensures { result ≡ node_rule node.now }
{
    match node {
        Node::Path(path) => is_path(path.as_str()),
        Node::Process(_process) => true,
        Node::Row(member) => is_sql_name(member.table.as_str()),
        Node::Ask(_statement) => true,
        Node::Reply(_statement) => true,
    }
}

fn nodes_rule(nodes: &[Node]) -> bool
    ensures { result ≡ list_all node_rule nodes.now }
{
    nodes.iter().all(|node| node_rule(node))
}

// Whether no two nodes are the same.
fn nodes_differ(alloc: Global, nodes: &[Node]) -> Result<bool, AllocError>
    ensures { IfOk result (λ differ. differ ≡ not (repeats same_node nodes.now)) }
{
    let keys = keys_of(alloc, nodes)?;
    let twice = has_twice(alloc, keys)?;
    Ok(!twice)
}

// The places that an edge is between.
fn places_of(edge: &Edge) -> (usize, usize)
    ensures { result ≡ places_of edge.now }
{
    (edge.source, edge.target)
}

fn all_places(alloc: Global, edges: &[Edge]) -> Result<Vec<(usize, usize)>, AllocError>
    ensures { IfOk result (λ places. places.items ≡ map places_of edges.now) }
{
    let mut places = Vec::with_capacity(alloc, edges.len())?;
    for edge in edges {
        places.push(places_of(edge))?;
    }
    Ok(places)
}

// Whether no two edges are between the same places.
fn edges_differ(alloc: Global, edges: &[Edge]) -> Result<bool, AllocError>
    ensures { IfOk result (λ differ. differ ≡ not (repeats same_places edges.now)) }
{
    let places = all_places(alloc, edges)?;
    let twice = has_twice(alloc, places)?;
    Ok(!twice)
}

fn times_rule(edge: &Edge) -> bool
    ensures { result ≡ times_rule edge.now }
{
    edge.first <= edge.last && edge.last <= MAX_STEPS
}

fn all_times_rule(edges: &[Edge]) -> bool
    ensures { result ≡ list_all times_rule edges.now }
{
    edges.iter().all(|edge| times_rule(edge))
}

fn is_between(count: usize, edge: &Edge) -> bool
    ensures { result ≡ is_between count edge.now }
{
    edge.source < count && edge.target < count
}

fn are_between(count: usize, edges: &[Edge]) -> bool
    ensures { result ≡ are_between count edges.now }
{
    edges.iter().all(|edge| is_between(count, edge))
}

/// Whether nodes and edges make a well-formed graph: nodes differ, paths and names of tables meet their
/// rules, edges are between places of nodes, no two edges have the same places, and each edge has
/// `first <= last <= 10,000,000`. `AllocError` means out of memory only.
pub fn is_well_formed(alloc: Global, nodes: &[Node], edges: &[Edge]) -> Result<bool, AllocError>
    ensures { IfOk result (λ formed. formed
        ≡ is_well_formed (record { nodes = nodes.now; edges = edges.now })) }
{
    let nodes_differ = nodes_differ(alloc, nodes)?;
    let edges_differ = edges_differ(alloc, edges)?;
    let ruled = nodes_rule(nodes);
    let between = are_between(nodes.len(), edges);
    let timed = all_times_rule(edges);
    Ok(nodes_differ && (ruled && (between && (edges_differ && timed))))
}
