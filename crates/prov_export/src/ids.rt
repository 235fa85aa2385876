//! The ids of nodes.

ghost use Rattle.std.specs.Prelude.{◌≡◌, ◌++◌, ◌∷◌, string_bytes, IfOk, OnOk};
ghost use Rattle.std.specs.Fmt.{decimal};
ghost use Rattle.prov_export.specs.Document.{edge_name, is_kind};
ghost use Rattle.prov_export.specs.Ids.{is_entity, member_id, node_id};

use itoa::Buffer;
use sql_model::Member;
use std::alloc::{AllocError, Global};
use trace_graph::Node;

/// Whether a node is an entity: a path, a row version or a reply.
pub(crate) fn is_entity(node: &Node) -> bool
    ensures { result ≡ is_entity node.now }
{
    match node {
        Node::Path(_path) => true,
        Node::Process(_process) => false,
        Node::Row(_member) => true,
        Node::Ask(_statement) => false,
        Node::Reply(_statement) => true,
    }
}

/// Whether a node is an entity if `entity` is true, and else whether it is an activity.
pub(crate) fn is_kind(entity: bool, node: &Node) -> bool
    ensures { result ≡ is_kind entity node.now }
{
    match entity {
        true => is_entity(node),
        false => !is_entity(node),
    }
}

// Two texts, one after the other.
fn concatenate(alloc: Global, head: &str, tail: &str) -> Result<String, AllocError>
    ensures { IfOk result (λ text. string_bytes text ≡ head.now ++ tail.now) }
{
    let mut text = String::from_str(alloc, head)?;
    text.push_str(tail)?;
    Ok(text)
}

// A text and a number.
fn text_with_number(alloc: Global, head: &str, number: u128) -> Result<String, AllocError>
    ensures { IfOk result (λ text. string_bytes text ≡ head.now ++ decimal number) }
{
    let mut buffer = Buffer::new();
    concatenate(alloc, head, buffer.format(number))
}

// A slash and a number, at the end of a text.
fn push_slashed(to: &mut String, number: u32) -> Result<(), AllocError>
    ensures { OnOk result (string_bytes to.new ≡ string_bytes to.old ++ (47 ∷ decimal number)) }
{
    let mut buffer = Buffer::new();
    to.push_str("/")?;
    to.push_str(buffer.format(number))?;
    Ok(())
}

fn member_id(alloc: Global, head: &str, member: &Member) -> Result<String, AllocError>
    ensures { IfOk result (λ text. string_bytes text ≡ head.now ++ member_id member.now) }
{
    let mut text = concatenate(alloc, head, member.table.as_str())?;
    push_slashed(&mut text, member.row)?;
    push_slashed(&mut text, member.version)?;
    Ok(text)
}

/// The id of a node.
pub(crate) fn node_id(alloc: Global, node: &Node) -> Result<String, AllocError>
    ensures { IfOk result (λ id. string_bytes id ≡ node_id node.now) }
{
    match node {
        Node::Path(path) => concatenate(alloc, "ldv:path/", path.as_str()),
        Node::Process(process) => text_with_number(alloc, "ldv:process/", *process as u128),
        Node::Row(member) => member_id(alloc, "ldv:row/", member),
        Node::Ask(statement) => text_with_number(alloc, "ldv:ask/", *statement as u128),
        Node::Reply(statement) => text_with_number(alloc, "ldv:reply/", *statement as u128),
    }
}

/// The name of the edge with a number.
pub(crate) fn edge_name(alloc: Global, number: u128) -> Result<String, AllocError>
    ensures { IfOk result (λ name. string_bytes name ≡ edge_name number) }
{
    text_with_number(alloc, "ldv:e", number)
}
