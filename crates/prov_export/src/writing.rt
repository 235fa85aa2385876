//! The document of a graph: its text, member by member.

ghost use Rattle.std.specs.Prelude.{◌≡◌, ◌++◌, length, string_bytes, true, false, IfOk, OnOk, IsTrue};
ghost use Rattle.json.specs.Print.{quoted};
ghost use Rattle.serde_json.specs.Data.{string, put};
ghost use Rattle.serde_json.specs.View.{view, members_view};
ghost use Rattle.serde_json.specs.Written.{comma_if, compact_text, has_float, members_text};
ghost use Rattle.trace_graph.specs.Graph.{is_between};
ghost use Rattle.prov_export.specs.Document.{place_value, nodes_value, edge_value, edge_members, edges_value};
ghost use Rattle.prov_export.specs.Document.{prov_text, relation_name, source_name, target_name};
ghost use Rattle.prov_export.specs.Ids.{node_id};
ghost use Rattle.prov_export.specs.inner.Texts.{members_by, all_pass, member_text, name_text};
ghost use Rattle.prov_export.specs.inner.Texts.{all_nodes_text, all_edges_text, edges_text};
ghost use Rattle.prov_export.specs.Types.{Derived, Generated, Informed};

use crate::ids::node_id;
use crate::members::{Members, object_of};
use crate::ordering::{EdgeEntries, NodeEntries, edge_entries, node_at, node_entries};
use crate::relation::{Relation, relation_name, source_name, target_name};
use ldv_value::Bytes;
use serde_json::{Value, put};
use std::alloc::{AllocError, Global};
use trace_graph::{Edge, Graph, Node};

// ---- values and names

// Appends the text of a value.
fn append_value(alloc: Global, value: &Value, to: &mut Bytes) -> Result<(), AllocError>
    ensures { OnOk result (has_float (view value.now) ≡ false
        → to.new ≡ to.old ++ compact_text (view value.now)) }
{
    let text = value.to_vec(alloc)?;
    to.extend(text.as_slice())
}

fn append_comma(later: bool, to: &mut Bytes) -> Result<(), AllocError>
    ensures { OnOk result (to.new ≡ to.old ++ comma_if later) }
{
    if later { to.extend(b",") } else { Ok(()) }
}

fn append_text(alloc: Global, text: String, to: &mut Bytes) -> Result<(), AllocError>
    ensures { OnOk result (to.new ≡ to.old ++ quoted (string_bytes text)) }
{
    let value = Value::String(text);
    append_value(alloc, &value, to)
}

// Appends a name with its colon, after a comma where a member stands before.
fn append_name(alloc: Global, later: bool, name: String, to: &mut Bytes) -> Result<(), AllocError>
    ensures { OnOk result (to.new ≡ to.old ++ name_text later (string_bytes name)) }
{
    append_comma(later, to)?;
    append_text(alloc, name, to)?;
    to.extend(b":")
}

// ---- nodes

fn place_value(alloc: Global, place: usize) -> Result<Value, AllocError>
    ensures { IfOk result (λ value. view value ≡ place_value place) }
{
    let mut members = Members::new(alloc);
    put(&mut members, alloc, "ldv:place", Value::from(place))?;
    Ok(object_of(members))
}

fn append_place(alloc: Global, place: usize, to: &mut Bytes) -> Result<(), AllocError>
    ensures { OnOk result (to.new ≡ to.old ++ compact_text (place_value place)) }
{
    let value = place_value(alloc, place)?;
    append_value(alloc, &value, to)
}

fn append_node(
    alloc: Global,
    later: bool,
    name: String,
    place: usize,
    to: &mut Bytes,
) -> Result<(), AllocError>
    ensures { OnOk result (to.new
        ≡ to.old ++ member_text later (string_bytes name) (place_value place)) }
{
    append_name(alloc, later, name, to)?;
    append_place(alloc, place, to)
}

fn append_each_node(alloc: Global, entries: NodeEntries, to: &mut Bytes) -> Result<(), AllocError>
    ensures { OnOk result (to.new
        ≡ to.old ++ members_text false (members_by place_value entries.entries)) }
{
    let mut later = false;
    for (name, place) in entries {
        append_node(alloc, later, name, place, to)?;
        later = true;
    }
    to.extend(b"}")
}

fn append_node_object(
    alloc: Global,
    entity: bool,
    nodes: &[Node],
    to: &mut Bytes,
) -> Result<(), AllocError>
    ensures { OnOk result (to.new ≡ to.old ++ compact_text (nodes_value entity nodes.now)) }
{
    let entries = node_entries(alloc, entity, nodes)?;
    to.extend(b"{")?;
    append_each_node(alloc, entries, to)
}

// Appends the member of the entities, or where `entity` is false of the activities.
fn append_nodes(
    alloc: Global,
    later: bool,
    name: &str,
    entity: bool,
    graph: &Graph,
    to: &mut Bytes,
) -> Result<(), AllocError>
    ensures { OnOk result (to.new
        ≡ to.old ++ member_text later name.now (nodes_value entity graph.now.nodes)) }
{
    let text = String::from_str(alloc, name)?;
    append_name(alloc, later, text, to)?;
    append_node_object(alloc, entity, graph.nodes().items(), to)
}

// ---- edges

fn id_value(alloc: Global, node: &Node) -> Result<Value, AllocError>
    ensures { IfOk result (λ value. view value ≡ string (node_id node.now)) }
{
    let id = node_id(alloc, node)?;
    Ok(Value::String(id))
}

// Puts the ids of two nodes into the value of an edge between them.
fn put_ends(
    alloc: Global,
    relation: Relation,
    source: &Node,
    target: &Node,
    members: &mut Members,
) -> Result<(), AllocError>
    ensures { OnOk result (members_view members.new.entries
        ≡ put (source_name relation) (string (node_id source.now))
        (put (target_name relation) (string (node_id target.now)) (members_view members.old.entries))) }
{
    let target = id_value(alloc, target)?;
    put(members, alloc, target_name(relation), target)?;
    let source = id_value(alloc, source)?;
    put(members, alloc, source_name(relation), source)
}

fn edge_members(
    alloc: Global,
    relation: Relation,
    nodes: &[Node],
    edge: &Edge,
) -> Result<Members, AllocError>
    requires { IsTrue (is_between (length nodes.now) edge.now) }
    ensures { IfOk result (λ members. members_view members.entries
        ≡ edge_members relation nodes.now edge.now) }
{
    let mut members = Members::new(alloc);
    put(&mut members, alloc, "ldv:first", Value::from(edge.first))?;
    put(&mut members, alloc, "ldv:last", Value::from(edge.last))?;
    let source = node_at(nodes, edge.source);
    let target = node_at(nodes, edge.target);
    put_ends(alloc, relation, source, target, &mut members)?;
    Ok(members)
}

fn append_edge_value(
    alloc: Global,
    relation: Relation,
    nodes: &[Node],
    edge: &Edge,
    to: &mut Bytes,
) -> Result<(), AllocError>
    requires { is_between (length nodes.now) edge.now ≡ true }
    ensures { OnOk result (to.new ≡ to.old ++ compact_text (edge_value relation nodes.now edge.now)) }
{
    let members = edge_members(alloc, relation, nodes, edge)?;
    let value = object_of(members);
    append_value(alloc, &value, to)
}

fn append_edge(
    alloc: Global,
    relation: Relation,
    nodes: &[Node],
    later: bool,
    name: String,
    edge: Edge,
    to: &mut Bytes,
) -> Result<(), AllocError>
    requires { is_between (length nodes.now) edge ≡ true }
    ensures { OnOk result (to.new
        ≡ to.old ++ member_text later (string_bytes name) (edge_value relation nodes.now edge)) }
{
    append_name(alloc, later, name, to)?;
    append_edge_value(alloc, relation, nodes, &edge, to)
}

fn append_each_edge(
    alloc: Global,
    relation: Relation,
    nodes: &[Node],
    entries: EdgeEntries,
    to: &mut Bytes,
) -> Result<(), AllocError>
    requires { all_pass (is_between (length nodes.now)) entries.entries ≡ true }
    ensures { OnOk result (to.new
        ≡ to.old ++ members_text false (members_by (edge_value relation nodes.now) entries.entries)) }
{
    let mut later = false;
    for (name, edge) in entries {
        append_edge(alloc, relation, nodes, later, name, edge, to)?;
        later = true;
    }
    to.extend(b"}")
}

fn append_edge_object(
    alloc: Global,
    relation: Relation,
    graph: &Graph,
    to: &mut Bytes,
) -> Result<(), AllocError>
    ensures { OnOk result (to.new ≡ to.old ++ compact_text (edges_value relation graph.now)) }
{
    let nodes = graph.nodes().items();
    let entries = edge_entries(alloc, relation, nodes, graph.edges().items())?;
    to.extend(b"{")?;
    append_each_edge(alloc, relation, nodes, entries, to)
}

// Appends the member of a relation's edges, before which others stand.
fn append_edges(
    alloc: Global,
    relation: Relation,
    graph: &Graph,
    to: &mut Bytes,
) -> Result<(), AllocError>
    ensures { OnOk result (to.new
        ≡ to.old ++ member_text true (relation_name relation) (edges_value relation graph.now)) }
{
    let text = String::from_str(alloc, relation_name(relation))?;
    append_name(alloc, true, text, to)?;
    append_edge_object(alloc, relation, graph, to)
}

// ---- the document

// Appends the members of all nodes.
fn append_all_nodes(alloc: Global, graph: &Graph, to: &mut Bytes) -> Result<(), AllocError>
    ensures { OnOk result (to.new ≡ to.old ++ all_nodes_text graph.now) }
{
    append_nodes(alloc, false, "activity", false, graph, to)?;
    append_nodes(alloc, true, "entity", true, graph, to)
}

// Appends the members of all edges.
fn append_all_edges(alloc: Global, graph: &Graph, to: &mut Bytes) -> Result<(), AllocError>
    ensures { OnOk result (to.new ≡ to.old ++ all_edges_text graph.now) }
{
    append_edges(alloc, Relation::Used, graph, to)?;
    append_from_derived(alloc, graph, to)
}

// Appends the members of edges from `wasDerivedFrom` on.
fn append_from_derived(alloc: Global, graph: &Graph, to: &mut Bytes) -> Result<(), AllocError>
    ensures { OnOk result (to.new ≡ to.old ++ (edges_text Derived graph.now
        ++ (edges_text Generated graph.now ++ edges_text Informed graph.now))) }
{
    append_edges(alloc, Relation::Derived, graph, to)?;
    append_from_generated(alloc, graph, to)
}

// Appends the members of edges from `wasGeneratedBy` on.
fn append_from_generated(alloc: Global, graph: &Graph, to: &mut Bytes) -> Result<(), AllocError>
    ensures { OnOk result (to.new
        ≡ to.old ++ (edges_text Generated graph.now ++ edges_text Informed graph.now)) }
{
    append_edges(alloc, Relation::Generated, graph, to)?;
    append_edges(alloc, Relation::Informed, graph, to)
}

/// The document of a graph, as compact JSON. The memory is little more than the text, the graph and the names
/// of one object. `AllocError` means out of memory only.
pub fn write_prov(alloc: Global, graph: &Graph) -> Result<Bytes, AllocError>
    ensures { IfOk result (λ text. text ≡ prov_text graph.now) }
{
    let mut text = Bytes::of_slice(alloc, b"{")?;
    append_all_nodes(alloc, graph, &mut text)?;
    append_all_edges(alloc, graph, &mut text)?;
    text.extend(b"}")?;
    Ok(text)
}
