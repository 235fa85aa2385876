//! Nodes as the keys of a set or a map, without a copy of their texts.

ghost use Rattle.std.specs.Prelude.{◌≡◌, ◌<◌, ◌++◌, [], length, map, position, IfOk, IfSome, OnOk};
ghost use Rattle.trace_graph.specs.inner.Building.{with_node};
ghost use Rattle.trace_graph.specs.Lent.{node_of, names_path};
ghost use Rattle.trace_graph.specs.Graph.{same_node, place_in};
ghost use Rattle.trace_graph.specs.Links.{at_version};
ghost use Rattle.trace_graph.specs.Types.{Row};

use crate::node::{Node, Nodes};
use indexmap::IndexSet;
use ldv_value::Utf8;
use sql_model::Member;
use std::alloc::{AllocError, Global};

/// A node that borrows its texts. Keys are in the order of the report of `inspect depends`: by kind, then by
/// content.
#[derive(Clone, Copy, PartialEq, Eq, Hash, PartialOrd, Ord)]
pub enum NodeKey<'a> {
    /// A path.
    Path(&'a str),
    /// A process, by creation number.
    Process(u32),
    /// A row by its table, its number and its version, 0 for the initial one.
    Row(&'a str, u32, u32),
    /// A statement, by its number in the run, from 0.
    Ask(u32),
    /// The reply to a statement, by its number.
    Reply(u32),
}

/// Nodes with their places, in the order in which they were first seen.
pub(crate) type NodeKeys<'a> = IndexSet<NodeKey<'a>>;

// A row at a version, which needn't be its own.
fn version_key(member: &Member, version: u32) -> NodeKey<'_>
    ensures { node_of result ≡ Row (at_version member.now version) }
{
    NodeKey::Row(member.table.as_str(), member.row, version)
}

// A row at its version.
fn row_key(member: &Member) -> NodeKey<'_>
    ensures { node_of result ≡ Row member.now }
{
    version_key(member, member.version)
}

/// The key of a node.
pub(crate) fn key_of(node: &Node) -> NodeKey<'_>
    ensures { node_of result ≡ node.now }
{
    match node {
        Node::Path(path) => NodeKey::Path(path.as_str()),
        Node::Process(process) => NodeKey::Process(*process),
        Node::Row(member) => row_key(member),
        Node::Ask(statement) => NodeKey::Ask(*statement),
        Node::Reply(statement) => NodeKey::Reply(*statement),
    }
}

/// Whether two nodes are the same.
#[tactic(auto, using(crate::proofs::KeyLaws::key_same))]
pub(crate) fn is_same(node: &Node, other: &Node) -> bool
    ensures { result ≡ same_node node.now other.now }
{
    key_of(node) == key_of(other)
}

/// Puts a node at the end, if it isn't there yet, and returns its place.
pub(crate) fn number<'a>(keys: &mut NodeKeys<'a>, key: NodeKey<'a>) -> Result<usize, AllocError>
    ensures nodes { OnOk result (map node_of keys.new.keys
        ≡ with_node (map node_of keys.old.keys) (node_of key.entry)) }
    ensures place { IfOk result (λ place. place ≡ place_in (map node_of keys.old.keys) (node_of key.entry)) }
{
    let (place, _) = keys.insert_full(key)?;
    Ok(place)
}

/// The keys of nodes, in their order.
pub(crate) fn keys_of<'a>(alloc: Global, nodes: &'a [Node]) -> Result<Vec<NodeKey<'a>>, AllocError>
    ensures { IfOk result (λ keys. map node_of keys.items ≡ nodes.now) }
{
    let mut keys = Vec::with_capacity(alloc, nodes.len())?;
    for node in nodes {
        keys.push(key_of(node))?;
    }
    Ok(keys)
}

/// A copy of keys; their texts stay where they are.
pub(crate) fn copy_keys<'a>(
    alloc: Global,
    keys: &[NodeKey<'a>],
) -> Result<Vec<NodeKey<'a>>, AllocError>
    ensures { IfOk result (λ copied. copied.items ≡ keys.now) }
{
    let mut copied = Vec::with_capacity(alloc, keys.len())?;
    copied.extend_from_slice(keys)?;
    Ok(copied)
}

// Whether a key is that of a path.
fn names_path(key: &NodeKey<'_>, path: &str) -> bool
    ensures { result ≡ names_path path.now key.now }
{
    match key {
        NodeKey::Path(other) => path == *other,
        NodeKey::Process(_process) => false,
        NodeKey::Row(_table, _row, _version) => false,
        NodeKey::Ask(_statement) => false,
        NodeKey::Reply(_statement) => false,
    }
}

/// The place of the first key of a path.
pub(crate) fn path_place(keys: &[NodeKey<'_>], path: &str) -> Option<usize>
    ensures place { result ≡ position (names_path path.now) keys.now }
    ensures within { IfSome result (λ place. place < length keys.now) }
{
    keys.iter().position(|key| names_path(key, path))
}

// The node of a key, with texts of its own.
fn node_at(alloc: Global, key: &NodeKey<'_>) -> Result<Node, AllocError>
    ensures { IfOk result (λ node. node ≡ node_of key.now) }
{
    match key {
        NodeKey::Path(path) => Ok(Node::Path(Utf8::of(alloc, *path)?)),
        NodeKey::Process(process) => Ok(Node::Process(*process)),
        NodeKey::Row(table, row, version) => Ok(Node::Row(Member {
            table: Utf8::of(alloc, *table)?,
            row: *row,
            version: *version,
        })),
        NodeKey::Ask(statement) => Ok(Node::Ask(*statement)),
        NodeKey::Reply(statement) => Ok(Node::Reply(*statement)),
    }
}

/// The nodes of keys, in their order, with texts of their own.
pub(crate) fn nodes_of(alloc: Global, keys: &[NodeKey<'_>]) -> Result<Nodes, AllocError>
    ensures { IfOk result (λ nodes. nodes ≡ map node_of keys.now) }
{
    let mut nodes = Nodes::with_capacity(alloc, keys.len())?;
    for key in keys {
        nodes.push(node_at(alloc, key)?)?;
    }
    Ok(nodes)
}
