//! Graphs.

ghost use Rattle.std.specs.Prelude.{◌≡◌, ◌<◌, length, map, position, IsTrue, IfOk, IfSome};
ghost use Rattle.run_model.specs.ValidTrace.{IsTrace};
ghost use Rattle.trace_graph.specs.inner.Building.{parts_of, no_parts, with_events, made_fits};
ghost use Rattle.trace_graph.specs.Lent.{node_of};
ghost use Rattle.trace_graph.specs.Graph.{same_node, graph_of, are_between};
ghost use Rattle.trace_graph.specs.NodeTexts.{acts_held};
ghost use Rattle.trace_graph.specs.WellFormed.{IsWellFormed};

use crate::building::Building;
use crate::edge::Edges;
use crate::key::{NodeKey, is_same, keys_of, nodes_of};
use crate::node::{Node, Nodes};
use crate::texts::NodeTexts;
use run_model::{Event, Events};
use std::alloc::{AllocError, Global};
use std::marker::Model;

/// A graph. Contracts see its nodes and its edges (`Parts`). Each edge is between places of nodes.
#[derive(Drop)]
pub struct Graph {
    nodes: Nodes,
    edges: Edges,
}

impl Model for Graph {
    ghost use Rattle.std.specs.Prelude.{length, IsTrue};
    ghost use Rattle.trace_graph.specs.Graph.{Parts, are_between};

    ghost Value = { Parts };

    ghost view = { λ a. record { nodes = a.nodes; edges = a.edges } };

    ghost invariant = { λ a. IsTrue (are_between (length a.nodes) a.edges) };
}

impl Graph {
    /// The graph of a trace. `AllocError` means out of memory only.
    pub fn of_events(alloc: Global, events: &Events) -> Result<Graph, AllocError>
        requires { IsTrace events.now }
        ensures { IfOk result (λ graph. graph ≡ graph_of events.now) }
    {
        let texts = NodeTexts::of_events(alloc, events)?;
        graph_over_texts(alloc, &texts, events.items())
    }

    /// The graph of well-formed lists of nodes and edges (`is_well_formed` tests them).
    #[tactic(auto, using(crate::proofs::WellFormedParts::formed_between))]
    pub fn of_parts(nodes: Nodes, edges: Edges) -> Graph
        requires { IsWellFormed (record { nodes = nodes; edges = edges }) }
        ensures { result ≡ record { nodes = nodes; edges = edges } }
    {
        Graph { nodes, edges }
    }

    /// The nodes, in the order in which they were first seen.
    pub fn nodes(&self) -> &Nodes
        ensures { result.now ≡ self.now.nodes }
    {
        &self.nodes
    }

    /// The edges, in the order in which their pair of nodes was first seen.
    pub fn edges(&self) -> &Edges
        ensures edges { result.now ≡ self.now.edges }
        ensures between { IsTrue (are_between (length self.now.nodes) self.now.edges) }
    {
        &self.edges
    }

    /// The nodes as keys, in their order. `AllocError` means out of memory only.
    pub fn keys(&self, alloc: Global) -> Result<Vec<NodeKey<'_>>, AllocError>
        ensures { IfOk result (λ keys. map node_of keys.items ≡ self.now.nodes) }
    {
        keys_of(alloc, self.nodes.items())
    }

    /// The place of a node in the list of nodes, from 0, or `None` if it isn't there. The time is linear in
    /// the number of nodes.
    pub fn place(&self, node: &Node) -> Option<usize>
        ensures place { result ≡ position (same_node node.now) self.now.nodes }
        ensures within { IfSome result (λ place. place < length self.now.nodes) }
    {
        self.nodes
            .items()
            .iter()
            .position(|other| is_same(node, other))
    }
}

// The graph of events whose texts are held, with texts of its own.
fn graph_over_texts(alloc: Global, texts: &NodeTexts, events: &[Event]) -> Result<Graph, AllocError>
    requires fits { IsTrue (made_fits 1 events.now) }
    requires held { IsTrue (acts_held texts.now.held.keys events.now) }
    requires between { IsTrue (are_between (length (with_events no_parts 1 events.now).nodes)
        (with_events no_parts 1 events.now).edges) }
    ensures { IfOk result (λ graph. graph ≡ with_events no_parts 1 events.now) }
{
    let mut building = Building::new(alloc);
    graph_in(alloc, &mut building, texts, events)
}

// The same, which is built where nothing is yet.
fn graph_in<'a>(
    alloc: Global,
    building: &mut Building<'a>,
    texts: &'a NodeTexts,
    events: &[Event],
) -> Result<Graph, AllocError>
    requires empty { parts_of building.old ≡ no_parts }
    requires fits { IsTrue (made_fits 1 events.now) }
    requires held { IsTrue (acts_held texts.now.held.keys events.now) }
    requires between { IsTrue (are_between (length (with_events no_parts 1 events.now).nodes)
        (with_events no_parts 1 events.now).edges) }
    ensures { IfOk result (λ graph. graph ≡ with_events no_parts 1 events.now) }
{
    building.fill(texts, events)?;
    finish(alloc, building)
}

// The graph of what was built.
fn finish(alloc: Global, building: &mut Building<'_>) -> Result<Graph, AllocError>
    requires { IsTrue (are_between (length (parts_of building.old).nodes) (parts_of building.old).edges) }
    ensures { IfOk result (λ graph. graph ≡ parts_of building.old) }
{
    // The table of edges is the larger: it is gone before the nodes are made.
    let edges = building.take_edges(alloc, 0)?;
    let nodes = nodes_of(alloc, building.keys.as_slice())?;
    Ok(Graph { nodes, edges })
}
