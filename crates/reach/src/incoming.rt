//! The edges that come to each node, by the places of the nodes.

ghost use Rattle.std.specs.Prelude.{◌≡◌, ◌<◌, length, replicate, slice_index_or, slice_set, IfOk, IsTrue};
ghost use Rattle.trace_graph.specs.Graph.{are_between};
ghost use Rattle.reach.specs.inner.Search.{edges_into};
ghost use Rattle.reach.specs.inner.Incoming.{AreChains, value_at};

use std::alloc::{AllocError, Global};
use trace_graph::Edge;

/// The edges to each node, chained by their places in the list of edges: each node has the place of the first
/// edge to it, and each edge the place of the next edge to the same node. The number of edges ends a chain.
/// This takes a number for each node and each edge, and no list for each node.
#[derive(Drop)]
pub(crate) struct Incoming {
    pub(crate) firsts: Vec<usize>,
    pub(crate) nexts: Vec<usize>,
}

fn edge_at(edges: &[Edge], at: usize) -> Edge
    requires { at < length edges.now }
    ensures { result ≡ slice_index_or edges.now at result }
{
    edges[at]
}

#[tactic(auto, using(crate::proofs::ChainLaws::value_read))]
fn value_at(values: &[usize], place: usize) -> usize
    requires { place < length values.now }
    ensures { result ≡ value_at values.now place }
{
    values[place]
}

fn same_values(alloc: Global, value: usize, count: usize) -> Result<Vec<usize>, AllocError>
    ensures { IfOk result (λ values. values.items ≡ replicate count value) }
{
    let values = vec![in alloc; value; count]?;
    Ok(values)
}

// Puts an edge to a node in front of the chain of those to it.
#[tactic(auto, using(crate::proofs::ChainLaws::value_read))]
fn link_edge(firsts: &mut Vec<usize>, nexts: &mut Vec<usize>, at: usize, target: usize)
    requires at { at < length nexts.old.items }
    requires target { target < length firsts.old.items }
    ensures firsts { firsts.new.items ≡ slice_set firsts.old.items target at }
    ensures nexts { nexts.new.items ≡ slice_set nexts.old.items at (value_at firsts.old.items target) }
{
    nexts[at] = firsts[target];
    firsts[target] = at;
}

/// The edges to each of `count` places.
pub(crate) fn incoming_edges(
    alloc: Global,
    count: usize,
    edges: &[Edge],
) -> Result<Incoming, AllocError>
    requires { IsTrue (are_between count edges.now) }
    ensures firsts { IfOk result (λ incoming. length incoming.firsts.items ≡ count) }
    ensures nexts { IfOk result (λ incoming. length incoming.nexts.items ≡ length edges.now) }
    ensures chains { IfOk result (λ incoming. AreChains edges.now incoming.nexts.items 0
        incoming.firsts.items) }
{
    let mut firsts = same_values(alloc, edges.len(), count)?;
    let mut nexts = same_values(alloc, edges.len(), edges.len())?;
    let mut at = edges.len();
    while at > 0 {
        at -= 1;
        let edge = edge_at(edges, at);
        link_edge(&mut firsts, &mut nexts, at, edge.target);
    }
    Ok(Incoming { firsts, nexts })
}

impl Incoming {
    fn first_at(&self, place: usize) -> usize
        requires { place < length self.now.firsts.items }
        ensures { result ≡ value_at self.now.firsts.items place }
    {
        value_at(&self.firsts, place)
    }

    fn next_at(&self, at: usize) -> usize
        requires { at < length self.now.nexts.items }
        ensures { result ≡ value_at self.now.nexts.items at }
    {
        value_at(&self.nexts, at)
    }

    /// The edges to a place, in their order.
    pub(crate) fn edges_to(
        &self,
        alloc: Global,
        edges: &[Edge],
        place: usize,
    ) -> Result<Vec<Edge>, AllocError>
        requires place { place < length self.now.firsts.items }
        requires nexts { length self.now.nexts.items ≡ length edges.now }
        requires chains { AreChains edges.now self.now.nexts.items 0 self.now.firsts.items }
        ensures { IfOk result (λ found. found.items ≡ edges_into edges.now place) }
    {
        let mut found = Vec::new(alloc);
        let mut at = self.first_at(place);
        while at < edges.len() {
            let edge = edge_at(edges, at);
            found.push(edge)?;
            let after = self.next_at(at);
            at = after;
        }
        Ok(found)
    }
}
