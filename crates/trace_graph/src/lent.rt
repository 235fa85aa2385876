//! The graph of a trace, with texts that stay where they are.

ghost use Rattle.std.specs.Prelude.{◌≡◌, ◌<◌, length, IfOk, IfSome, IsTrue};
ghost use Rattle.run_model.specs.ValidTrace.{IsTrace};
ghost use Rattle.trace_graph.specs.inner.Building.{parts_of, no_parts, with_events, made_fits};
ghost use Rattle.trace_graph.specs.Graph.{graph_of, place_of, are_between};
ghost use Rattle.trace_graph.specs.Lent.{lent_parts};
ghost use Rattle.trace_graph.specs.NodeTexts.{acts_held, lends_texts};

use crate::building::{Building, room_of};
use crate::edge::Edge;
use crate::key::{NodeKey, path_place};
use crate::texts::NodeTexts;
use run_model::Events;
use std::alloc::{AllocError, Global};

/// A graph that borrows its texts from a `NodeTexts`. It doesn't need the events any more.
#[derive(Drop)]
pub struct LentGraph<'a> {
    /// The nodes, in the order in which they were first seen.
    pub nodes: Vec<NodeKey<'a>>,
    /// The edges, in the order in which their pair of nodes was first seen.
    pub edges: Vec<Edge>,
}

impl<'a> LentGraph<'a> {
    /// The graph of a trace; its events are dropped one by one. `texts` are those of the trace, as
    /// `NodeTexts::of_events` gives them. `AllocError` means out of memory only.
    pub fn of_events(
        alloc: Global,
        texts: &'a NodeTexts,
        events: Events,
    ) -> Result<LentGraph<'a>, AllocError>
        requires trace { IsTrace events }
        requires texts { IsTrue (lends_texts texts.now events) }
        ensures graph { IfOk result (λ graph. lent_parts graph ≡ graph_of events) }
        ensures between { IfOk result (λ graph. IsTrue (are_between (length graph.nodes.items)
            graph.edges.items)) }
    {
        let mut building = Building::new(alloc);
        lent_graph_in(alloc, &mut building, texts, events)
    }

    /// The place of the node of a path, from 0, or `None` if there is no such node. The time is linear in the
    /// number of nodes.
    pub fn place(&self, path: &str) -> Option<usize>
        ensures place { result ≡ place_of (lent_parts self.now) path.now }
        ensures within { IfSome result (λ place. place < length self.now.nodes.items) }
    {
        path_place(self.nodes.as_slice(), path)
    }
}

// The graph of events, which is built where nothing is yet.
fn lent_graph_in<'a>(
    alloc: Global,
    building: &mut Building<'a>,
    texts: &'a NodeTexts,
    events: Events,
) -> Result<LentGraph<'a>, AllocError>
    requires empty { parts_of building.old ≡ no_parts }
    requires fits { IsTrue (made_fits 1 events) }
    requires held { IsTrue (acts_held texts.now.held.keys events) }
    ensures { IfOk result (λ graph. lent_parts graph ≡ with_events no_parts 1 events) }
{
    let room = room_of(events.items());
    building.fill_from(texts, events, room.nodes)?;
    lend(alloc, building, room.edges)
}

// What was built, without the tables by which nodes and edges are found. There is to be room for so many
// edges.
fn lend<'a>(
    alloc: Global,
    building: &mut Building<'a>,
    room: usize,
) -> Result<LentGraph<'a>, AllocError>
    ensures { IfOk result (λ graph. lent_parts graph ≡ parts_of building.old) }
{
    // The table of nodes is gone before that of edges is made, which is the larger.
    let nodes = building.take_keys(alloc)?;
    let edges = building.take_edges(alloc, room)?;
    Ok(LentGraph {
        nodes,
        edges: edges.into_vec(),
    })
}
