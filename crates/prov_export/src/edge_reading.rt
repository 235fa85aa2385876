//! The edges of a document.

ghost use Rattle.std.specs.Prelude.{◌≡◌, string_bytes};
ghost use Rattle.ldv_value.specs.Gives.{Gives};
ghost use Rattle.serde_json.specs.View.{view, members_view};
ghost use Rattle.prov_export.specs.Reading.{place_of, place_at, edge_in, edge_named, edge_by_name, edge_of};
ghost use Rattle.prov_export.specs.inner.ObjectRefs.{objects_seen};
ghost use Rattle.prov_export.specs.Reading.{each_from, edges_in};
ghost use Rattle.prov_export.specs.Stopping.{Stops};

use crate::error::ProvStop;
use crate::ids::edge_name;
use crate::members::{Members, member_of, number_at, text_at, time_at};
use crate::objects::ObjectRefs;
use crate::relation::{Relation, source_name, target_name};
use serde_json::Value;
use std::alloc::Global;
use trace_graph::{Edge, Edges};

// The place of the node of an id.
fn place_of(nodes: &Members, id: &str) -> Option<u64>
    ensures { result ≡ place_of (members_view nodes.now.entries) id.now }
{
    match member_of(nodes, id) {
        None => None,
        Some(value) => number_at(value, "ldv:place"),
    }
}

// The place of the node whose id a value has under a name.
fn place_at(nodes: &Members, name: &str, value: &Value) -> Option<u64>
    ensures { result ≡ place_at (members_view nodes.now.entries) name.now (view value.now) }
{
    match text_at(value, name) {
        None => None,
        Some(id) => place_of(nodes, id),
    }
}

fn edge_in(relation: Relation, sources: &Members, targets: &Members, value: &Value) -> Option<Edge>
    ensures { result ≡ edge_in relation (members_view sources.now.entries)
        (members_view targets.now.entries) (view value.now) }
{
    let source = place_at(sources, source_name(relation), value)?;
    let target = place_at(targets, target_name(relation), value)?;
    let first = time_at(value, "ldv:first")?;
    let last = time_at(value, "ldv:last")?;
    Some(Edge {
        source: source as usize,
        target: target as usize,
        first,
        last,
    })
}

fn edge_named(
    relation: Relation,
    sources: &Members,
    targets: &Members,
    edges: &Members,
    name: &str,
) -> Option<Edge>
    ensures { result ≡ edge_named relation (members_view sources.now.entries)
        (members_view targets.now.entries) (members_view edges.now.entries) name.now }
{
    match member_of(edges, name) {
        None => None,
        Some(value) => edge_in(relation, sources, targets, value),
    }
}

// The edge of a name, of whichever relation.
fn edge_by_name(objects: &ObjectRefs<'_>, name: &str) -> Option<Edge>
    ensures { result ≡ edge_by_name (objects_seen objects.now) name.now }
{
    let entities = objects.entities;
    let activities = objects.activities;
    match edge_named(Relation::Used, entities, activities, objects.used, name) {
        Some(edge) => Some(edge),
        None => match edge_named(
            Relation::Generated,
            activities,
            entities,
            objects.generated,
            name,
        ) {
            Some(edge) => Some(edge),
            None => match edge_named(Relation::Derived, entities, entities, objects.derived, name) {
                Some(edge) => Some(edge),
                None => edge_named(
                    Relation::Informed,
                    activities,
                    activities,
                    objects.informed,
                    name,
                ),
            },
        },
    }
}

// The edge, or that the bytes are no document.
fn known_edge(edge: Option<Edge>) -> Result<Edge, ProvStop>
    ensures { Gives Stops result edge }
{
    match edge {
        None => Err(ProvStop::NotProv),
        Some(edge) => Ok(edge),
    }
}

fn edge_of(alloc: Global, objects: &ObjectRefs<'_>, number: u128) -> Result<Edge, ProvStop>
    ensures { Gives Stops result (edge_of (objects_seen objects.now) number) }
{
    let name = edge_name(alloc, number)?;
    known_edge(edge_by_name(objects, name.as_str()))
}

/// The edges, in the order of their numbers.
pub(crate) fn edges_in(alloc: Global, objects: &ObjectRefs<'_>) -> Result<Edges, ProvStop>
    ensures { Gives Stops result (edges_in (objects_seen objects.now)) }
{
    edges_by(alloc, objects, objects.edge_count())
}

#[tactic(auto, using(crate::proofs::Each::each_rules))]
fn edges_by(alloc: Global, objects: &ObjectRefs<'_>, count: u128) -> Result<Edges, ProvStop>
    ensures { Gives Stops result (each_from (edge_of (objects_seen objects.now)) 0 count) }
{
    let mut edges = Edges::new(alloc);
    for number in 0..count {
        match edge_of(alloc, objects, number) {
            Ok(edge) => edges.push(edge)?,
            Err(stop) => return Err(stop),
        }
    }
    Ok(edges)
}
