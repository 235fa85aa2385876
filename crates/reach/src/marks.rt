//! Marks at the places of nodes that open edges come from. An edge is open if information that it brings to
//! its target still gets to the searched node in time.

ghost use Rattle.std.specs.Prelude.{◌≡◌, ◌<◌, length, IfOk, IsTrue};
ghost use Rattle.trace_graph.specs.Graph.{are_between};
ghost use Rattle.reach.specs.Found.{is_open};
ghost use Rattle.reach.specs.inner.Marks.{with_mark, marks_of};

use crate::latest::{reaches, time_at};
use std::alloc::{AllocError, Global};
use trace_graph::Edge;

// Whether what an edge brings to its target still gets to the node in time.
fn is_open(latest: &[Option<u32>], edge: &Edge) -> bool
    requires { edge.now.target < length latest.now }
    ensures { result ≡ is_open latest.now edge.now }
{
    edge.first <= edge.last && reaches(edge.first, time_at(latest, edge.target))
}

// Marks the place that an edge comes from, if the edge is open.
fn mark(marks: &mut Vec<bool>, latest: &[Option<u32>], edge: &Edge)
    requires source { edge.now.source < length marks.old.items }
    requires target { edge.now.target < length latest.now }
    ensures { marks.new.items ≡ with_mark latest.now marks.old.items edge.now }
{
    if is_open(latest, edge) {
        marks[edge.source] = true;
    }
}

/// For each of `count` places, whether an open edge comes from it.
#[tactic(auto, using(crate::proofs::MarkLaws::mark_length))]
pub(crate) fn open_marks(
    alloc: Global,
    count: usize,
    edges: &[Edge],
    latest: &[Option<u32>],
) -> Result<Vec<bool>, AllocError>
    requires between { IsTrue (are_between count edges.now) }
    requires latest { length latest.now ≡ count }
    ensures length { IfOk result (λ marks. length marks.items ≡ count) }
    ensures marks { IfOk result (λ marks. marks.items ≡ marks_of count latest.now edges.now) }
{
    let mut marks = vec![in alloc; false; count]?;
    for edge in edges {
        mark(&mut marks, latest, edge);
    }
    Ok(marks)
}
