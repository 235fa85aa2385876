//! The latest time of each node from which the searched node is still reached in time.

ghost use Rattle.std.specs.Prelude.{◌≡◌, ◌<◌, length, IfOk, IsTrue};
ghost use Rattle.trace_graph.specs.Graph.{are_between};
ghost use Rattle.reach.specs.Found.{time_at, reaches};
ghost use Rattle.reach.specs.inner.Search.{AreLatest};

use crate::incoming::incoming_edges;
use crate::search::Search;
use std::alloc::{AllocError, Global};
use trace_graph::Edge;

/// The latest time of a place.
#[tactic(auto, using(crate::proofs::TimeLaws::time_read))]
pub(crate) fn time_at(latest: &[Option<u32>], place: usize) -> Option<u32>
    requires { place < length latest.now }
    ensures { result ≡ time_at latest.now place }
{
    latest[place]
}

/// Whether a time is late enough.
pub(crate) fn reaches(time: u32, latest: Option<u32>) -> bool
    ensures { result ≡ reaches time latest }
{
    match latest {
        None => false,
        Some(latest) => time <= latest,
    }
}

/// For each of `count` places, the latest time from which `node` is still reached by `time`; `None` if it
/// isn't reached from there.
pub(crate) fn latest_times(
    alloc: Global,
    count: usize,
    edges: &[Edge],
    node: usize,
    time: u32,
) -> Result<Vec<Option<u32>>, AllocError>
    requires between { IsTrue (are_between count edges.now) }
    requires node { node < count }
    ensures length { IfOk result (λ latest. length latest.items ≡ count) }
    ensures latest { IfOk result (λ latest. AreLatest edges.now node time latest.items) }
{
    let incoming = incoming_edges(alloc, count, edges)?;
    let mut search = Search::start(alloc, count, node, time)?;
    while let Some((by, place)) = search.queue.pop() {
        search.visit(alloc, edges, &incoming, by, place)?;
    }
    let Search { latest, queue: _ } = search;
    Ok(latest)
}
