//! The search for the latest times.

ghost use Rattle.std.specs.Prelude.{◌≡◌, ◌<◌, length, IfOk, OnOk, ◌∷◌, []};
ghost use Rattle.std.specs.List.Sorted.{IsPermutation};
ghost use Rattle.std.specs.BinaryHeap.{heap_items};
ghost use Rattle.reach.specs.inner.Incoming.{AreChains};
ghost use Rattle.reach.specs.inner.Search.{queue_after_edge, times_with_sources, queue_after_edges};
ghost use Rattle.reach.specs.Found.{is_later, times_with_source};
ghost use Rattle.reach.specs.inner.Search.{is_current, times_after_visit, visited_queue, start_times};
ghost use Rattle.reach.specs.inner.Search.{edges_into, ComeFrom};

use crate::incoming::Incoming;
use crate::latest::{reaches, time_at};
use std::alloc::{AllocError, Global};
use std::collections::BinaryHeap;
use trace_graph::Edge;

// Whether this edge gives its source a later departure time, if its target can be left at `time`.
fn is_later(latest: &[Option<u32>], edge: &Edge, time: u32) -> bool
    requires { edge.now.source < length latest.now }
    ensures { result ≡ is_later latest.now edge.now time }
{
    let last = edge.last.min(time);
    edge.first <= last && !reaches(last, time_at(latest, edge.source))
}

// Whether a time is still the latest of its place.
fn is_current(latest: &[Option<u32>], time: u32, place: usize) -> bool
    requires { place < length latest.now }
    ensures { result ≡ is_current latest.now time place }
{
    match time_at(latest, place) {
        None => false,
        Some(latest) => latest == time,
    }
}

/// The search: the latest time of each place so far, and a queue of the places whose edges it must still look
/// at, each with its latest time. The latest comes first.
#[derive(Drop)]
pub(crate) struct Search {
    pub(crate) latest: Vec<Option<u32>>,
    pub(crate) queue: BinaryHeap<(u32, usize)>,
}

impl Search {
    /// The search from a place that can be left up to `time`.
    pub(crate) fn start(
        alloc: Global,
        count: usize,
        place: usize,
        time: u32,
    ) -> Result<Search, AllocError>
        requires { place < count }
        ensures latest { IfOk result (λ search. search.latest.items ≡ start_times count place time) }
        ensures queue { IfOk result (λ search. IsPermutation ((time, place) ∷ []) (heap_items search.queue)) }
    {
        let mut latest = vec![in alloc; None; count]?;
        latest[place] = Some(time);
        let mut queue = BinaryHeap::new(alloc);
        queue.push((time, place))?;
        Ok(Search { latest, queue })
    }

    // Looks at an edge whose target can be left up to `time`.
    fn look_at(&mut self, edge: &Edge, time: u32) -> Result<(), AllocError>
        requires { edge.now.source < length self.old.latest.items }
        ensures latest { OnOk result (self.new.latest.items
            ≡ times_with_source self.old.latest.items edge.now time) }
        ensures queue { OnOk result (IsPermutation
            (queue_after_edge self.old.latest.items edge.now time (heap_items self.old.queue))
            (heap_items self.new.queue)) }
    {
        if !is_later(&self.latest, edge, time) {
            return Ok(());
        }
        let last = edge.last.min(time);
        self.queue.push((last, edge.source))?;
        self.latest[edge.source] = Some(last);
        Ok(())
    }

    // Looks at edges to one place that can be left up to `time`.
    fn look_at_all(&mut self, edges: &[Edge], time: u32) -> Result<(), AllocError>
        requires { ComeFrom (length self.old.latest.items) edges.now }
        ensures latest { OnOk result (self.new.latest.items
            ≡ times_with_sources self.old.latest.items edges.now time) }
        ensures queue { OnOk result (IsPermutation
            (queue_after_edges self.old.latest.items edges.now time (heap_items self.old.queue))
            (heap_items self.new.queue)) }
    {
        for edge in edges {
            self.look_at(edge, time)?;
        }
        Ok(())
    }

    /// Looks at the edges to a place, unless its time has risen since it was queued.
    pub(crate) fn visit(
        &mut self,
        alloc: Global,
        edges: &[Edge],
        incoming: &Incoming,
        time: u32,
        place: usize,
    ) -> Result<(), AllocError>
        requires place { place < length self.old.latest.items }
        requires firsts { length incoming.now.firsts.items ≡ length self.old.latest.items }
        requires nexts { length incoming.now.nexts.items ≡ length edges.now }
        requires chains { AreChains edges.now incoming.now.nexts.items 0 incoming.now.firsts.items }
        requires sources { ComeFrom (length self.old.latest.items) (edges_into edges.now place) }
        ensures latest { OnOk result (self.new.latest.items
            ≡ times_after_visit self.old.latest.items (edges_into edges.now place) (time, place)) }
        ensures queue { OnOk result (IsPermutation
            (visited_queue self.old.latest.items (edges_into edges.now place) (time, place)
            (heap_items self.old.queue))
            (heap_items self.new.queue)) }
    {
        if !is_current(&self.latest, time, place) {
            return Ok(());
        }
        let found = incoming.edges_to(alloc, edges, place)?;
        self.look_at_all(found.as_slice(), time)
    }
}
