//! The nodes that a search found, in the order of the report.

ghost use Rattle.std.specs.Prelude.{◌≡◌, ◌<◌, ◌++◌, length, map, option_to_list, slice_index_or};
ghost use Rattle.std.specs.Prelude.{IfOk, OnOk, IsTrue};
ghost use Rattle.std.specs.List.Sorted.{IsStrictlySortedBy};
ghost use Rattle.trace_graph.specs.Graph.{are_between};
ghost use Rattle.trace_graph.specs.Lent.{node_of};
ghost use Rattle.reach.specs.Order.{node_cmp};
ghost use Rattle.reach.specs.Found.{open_sources};
ghost use Rattle.reach.specs.Lent.{lent_node};
ghost use Rattle.reach.specs.inner.Marks.{is_marked, marked_at, marked_below, SameNodes};

use crate::marks::open_marks;
use std::alloc::{AllocError, Global};
use trace_graph::{Edge, NodeKey};

/// Borrowed keys of the nodes of a graph, in any order.
type Keys<'a, 'b> = Vec<&'a NodeKey<'b>>;

#[tactic(auto, using(crate::proofs::MarkLaws::mark_read))]
fn is_marked(marks: &[bool], place: usize) -> bool
    requires { place < length marks.now }
    ensures { result ≡ is_marked marks.now place }
{
    marks[place]
}

fn key_at<'a, 'b>(nodes: &'a [NodeKey<'b>], place: usize) -> &'a NodeKey<'b>
    requires { place < length nodes.now }
    ensures { result.now ≡ slice_index_or nodes.now place result.now }
{
    &nodes[place]
}

// Adds the key of the node at a place, if it is marked.
fn add_marked<'a, 'b>(
    keys: &mut Keys<'a, 'b>,
    nodes: &'a [NodeKey<'b>],
    marks: &[bool],
    place: usize,
) -> Result<(), AllocError>
    requires nodes { place < length nodes.now }
    requires marks { place < length marks.now }
    ensures { OnOk result (map lent_node keys.new.items ≡ map lent_node keys.old.items
        ++ option_to_list (marked_at (map node_of nodes.now) marks.now place)) }
{
    if !is_marked(marks, place) {
        return Ok(());
    }
    let key = key_at(nodes, place);
    keys.push(key)?;
    Ok(())
}

// The keys of the marked nodes, in the order of their places.
#[tactic(auto, using(crate::proofs::MarkLaws::marked_more))]
fn marked_keys<'a, 'b>(
    alloc: Global,
    nodes: &'a [NodeKey<'b>],
    marks: &[bool],
) -> Result<Keys<'a, 'b>, AllocError>
    requires { length marks.now ≡ length nodes.now }
    ensures { IfOk result (λ keys. map lent_node keys.items
        ≡ marked_below (map node_of nodes.now) marks.now (length nodes.now)) }
{
    let mut keys = Keys::new(alloc);
    for place in 0..nodes.len() {
        add_marked(&mut keys, nodes, marks, place)?;
    }
    Ok(keys)
}

// Keys in the order of the report, each once.
fn sort_keys_once<'a, 'b>(keys: Keys<'a, 'b>) -> Result<Keys<'a, 'b>, AllocError>
    ensures sorted { IfOk result (λ sorted. IsStrictlySortedBy node_cmp (map lent_node sorted.items)) }
    ensures nodes { IfOk result (λ sorted. SameNodes (map lent_node keys.entry.items)
        (map lent_node sorted.items)) }
{
    let mut sorted = keys;
    sorted.sort()?;
    sorted.dedup();
    Ok(sorted)
}

/// The keys of the nodes that open edges come from, in the order of the report, each once.
pub(crate) fn open_keys<'a, 'b>(
    alloc: Global,
    nodes: &'a [NodeKey<'b>],
    edges: &[Edge],
    latest: &[Option<u32>],
) -> Result<Keys<'a, 'b>, AllocError>
    requires between { IsTrue (are_between (length nodes.now) edges.now) }
    requires latest { length latest.now ≡ length nodes.now }
    ensures keys { IfOk result (λ keys. map lent_node keys.items
        ≡ open_sources (record { nodes = map node_of nodes.now; edges = edges.now }) latest.now) }
    ensures sorted { IfOk result (λ keys. IsStrictlySortedBy node_cmp (map lent_node keys.items)) }
{
    let marks = open_marks(alloc, nodes.len(), edges, latest)?;
    let keys = marked_keys(alloc, nodes, &marks)?;
    sort_keys_once(keys)
}
