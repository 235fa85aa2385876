//! The times of each edge.

ghost use Rattle.std.specs.Prelude.{◌≡◌, ◌++◌, [], map, IfOk, OnOk, Some};
ghost use Rattle.indexmap.specs.IndexMap.{insert_entry};
ghost use Rattle.trace_graph.specs.inner.Building.{edge_at, same_pair, span_with, with_time};

use crate::edge::{Edge, Edges};
use indexmap::IndexMap;
use std::alloc::{AllocError, Global};

/// From the first to the last of an edge's times.
#[derive(Clone, Copy)]
pub(crate) struct Span {
    pub(crate) first: u32,
    pub(crate) last: u32,
}

/// The span of each edge, by the places of its source and its target, in the order in which edges were first
/// seen.
pub(crate) type Spans = IndexMap<(usize, usize), Span>;

// A span, if there is one, with a time more.
fn span_with(span: Option<Span>, time: u32) -> Span
    ensures { result ≡ span_with span time }
{
    match span {
        None => Span {
            first: time,
            last: time,
        },
        Some(span) => Span {
            first: span.first.min(time),
            last: span.last.max(time),
        },
    }
}

/// Adds a time to the edge between two places. Most edges are new, and a new edge takes one look-up.
pub(crate) fn add_time(
    spans: &mut Spans,
    source: usize,
    target: usize,
    time: u32,
) -> Result<(), AllocError>
    ensures { OnOk result (map edge_at spans.new.entries
        ≡ with_time source target time (map edge_at spans.old.entries)) }
{
    let before = spans.insert((source, target), span_with(None, time))?;
    match before {
        None => Ok(()),
        Some(span) => widen(spans, source, target, span, time),
    }
}

// Puts the span that an edge had back, with a time more.
fn widen(
    spans: &mut Spans,
    source: usize,
    target: usize,
    span: Span,
    time: u32,
) -> Result<(), AllocError>
    ensures { OnOk result (spans.new.entries
        ≡ insert_entry same_pair spans.old.entries (source, target) (span_with (Some span) time)) }
{
    spans.insert((source, target), span_with(Some(span), time))?;
    Ok(())
}

// The edge of an entry.
fn edge_at(ends: (usize, usize), span: Span) -> Edge
    ensures { result ≡ edge_at (ends, span) }
{
    let (source, target) = ends;
    Edge {
        source,
        target,
        first: span.first,
        last: span.last,
    }
}

/// The edges, in their order.
pub(crate) fn edges_of(alloc: Global, spans: Spans) -> Result<Edges, AllocError>
    ensures { IfOk result (λ edges. edges ≡ map edge_at spans.entries) }
{
    let mut edges = Edges::with_capacity(alloc, spans.len())?;
    for (ends, span) in spans {
        edges.push(edge_at(ends, span))?;
    }
    Ok(edges)
}
