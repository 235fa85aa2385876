//! The members of a document, in the order of their names. A value is kept as the node or edge that it is
//! made from: as a JSON value, each would take some 800 bytes.

ghost use Rattle.std.specs.Prelude.{◌≡◌, ◌<◌, length, string_bytes, true, Bool, ℕ, IfOk, OnOk, IsTrue};
ghost use Rattle.serde_json.specs.Data.{Data, no_members, put};
ghost use Rattle.trace_graph.specs.Graph.{are_between, is_between};
ghost use Rattle.trace_graph.specs.declared.edge.Edge.{Edge as TheEdge};
ghost use Rattle.prov_export.specs.Document.{place_value, with_node, with_nodes, edge_relation, edge_value};
ghost use Rattle.prov_export.specs.Document.{with_edge, with_edges, edge_name, node_at};
ghost use Rattle.prov_export.specs.Ids.{node_id};
ghost use Rattle.prov_export.specs.inner.Texts.{members_by, all_pass};

use crate::ids::{edge_name, is_entity, is_kind, node_id};
use crate::relation::{Relation, is_relation, relation_of};
use std::alloc::{AllocError, Global};
use std::collections::BTreeMap;
use trace_graph::{Edge, Node};

/// The places of nodes, by their ids.
pub(crate) type NodeEntries = BTreeMap<String, usize>;

/// Edges, by their names.
pub(crate) type EdgeEntries = BTreeMap<String, Edge>;

// ---- nodes

fn put_place(entries: &mut NodeEntries, name: String, place: usize) -> Result<(), AllocError>
    ensures { OnOk result ((value : ℕ → Data) → members_by value entries.new.entries
        ≡ put (string_bytes name) (value place) (members_by value entries.old.entries)) }
{
    entries.insert(name, place)?;
    Ok(())
}

fn put_node_there(
    alloc: Global,
    place: usize,
    node: &Node,
    entries: &mut NodeEntries,
) -> Result<(), AllocError>
    ensures { OnOk result (members_by place_value entries.new.entries
        ≡ put (node_id node.now) (place_value place) (members_by place_value entries.old.entries)) }
{
    let id = node_id(alloc, node)?;
    put_place(entries, id, place)
}

fn put_node(
    alloc: Global,
    entity: bool,
    place: usize,
    node: &Node,
    entries: &mut NodeEntries,
) -> Result<(), AllocError>
    ensures { OnOk result (members_by place_value entries.new.entries
        ≡ with_node entity place node.now (members_by place_value entries.old.entries)) }
{
    if is_kind(entity, node) {
        put_node_there(alloc, place, node, entries)
    } else {
        Ok(())
    }
}

/// The entities among nodes if `entity` is true, and else the activities.
pub(crate) fn node_entries(
    alloc: Global,
    entity: bool,
    nodes: &[Node],
) -> Result<NodeEntries, AllocError>
    ensures { IfOk result (λ entries. members_by place_value entries.entries
        ≡ with_nodes entity 0 nodes.now no_members) }
{
    let mut entries = NodeEntries::new(alloc);
    let mut place = 0;
    for node in nodes {
        put_node(alloc, entity, place, node, &mut entries)?;
        place += 1;
    }
    Ok(entries)
}

// ---- edges

/// The node at a place.
pub(crate) fn node_at(nodes: &[Node], place: usize) -> &Node
    requires { place < length nodes.now }
    ensures { result.now ≡ node_at nodes.now place }
{
    &nodes[place]
}

fn edge_relation(nodes: &[Node], edge: &Edge) -> Relation
    requires { IsTrue (is_between (length nodes.now) edge.now) }
    ensures { result ≡ edge_relation nodes.now edge.now }
{
    let source = is_entity(node_at(nodes, edge.source));
    let target = is_entity(node_at(nodes, edge.target));
    relation_of(source, target)
}

fn put_edge_named(entries: &mut EdgeEntries, name: String, edge: Edge) -> Result<(), AllocError>
    ensures put { OnOk result ((value : TheEdge → Data) → members_by value entries.new.entries
        ≡ put (string_bytes name) (value edge) (members_by value entries.old.entries)) }
    ensures all { OnOk result ((test : TheEdge → Bool) → test edge ≡ true
        → all_pass test entries.old.entries ≡ true → all_pass test entries.new.entries ≡ true) }
{
    entries.insert(name, edge)?;
    Ok(())
}

fn put_edge_there(
    alloc: Global,
    relation: Relation,
    nodes: &[Node],
    number: usize,
    edge: &Edge,
    entries: &mut EdgeEntries,
) -> Result<(), AllocError>
    requires { is_between (length nodes.now) edge.now ≡ true }
    ensures put { OnOk result (members_by (edge_value relation nodes.now) entries.new.entries
        ≡ put (edge_name number) (edge_value relation nodes.now edge.now)
        (members_by (edge_value relation nodes.now) entries.old.entries)) }
    ensures between { OnOk result (all_pass (is_between (length nodes.now)) entries.old.entries ≡ true
        → all_pass (is_between (length nodes.now)) entries.new.entries ≡ true) }
{
    let name = edge_name(alloc, number as u128)?;
    put_edge_named(entries, name, *edge)
}

fn put_edge(
    alloc: Global,
    relation: Relation,
    nodes: &[Node],
    number: usize,
    edge: &Edge,
    entries: &mut EdgeEntries,
) -> Result<(), AllocError>
    requires { is_between (length nodes.now) edge.now ≡ true }
    ensures put { OnOk result (members_by (edge_value relation nodes.now) entries.new.entries
        ≡ with_edge relation nodes.now number edge.now
        (members_by (edge_value relation nodes.now) entries.old.entries)) }
    ensures between { OnOk result (all_pass (is_between (length nodes.now)) entries.old.entries ≡ true
        → all_pass (is_between (length nodes.now)) entries.new.entries ≡ true) }
{
    if is_relation(relation, edge_relation(nodes, edge)) {
        put_edge_there(alloc, relation, nodes, number, edge, entries)
    } else {
        Ok(())
    }
}

/// The edges of a relation.
pub(crate) fn edge_entries(
    alloc: Global,
    relation: Relation,
    nodes: &[Node],
    edges: &[Edge],
) -> Result<EdgeEntries, AllocError>
    requires { IsTrue (are_between (length nodes.now) edges.now) }
    ensures members { IfOk result (λ entries. members_by (edge_value relation nodes.now) entries.entries
        ≡ with_edges relation nodes.now 0 edges.now no_members) }
    ensures between { IfOk result (λ entries.
        all_pass (is_between (length nodes.now)) entries.entries ≡ true) }
{
    let mut entries = EdgeEntries::new(alloc);
    let mut number = 0;
    for edge in edges {
        put_edge(alloc, relation, nodes, number, edge, &mut entries)?;
        number += 1;
    }
    Ok(entries)
}
