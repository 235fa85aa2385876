//! The nodes that ids name.

ghost use Rattle.std.specs.Prelude.{◌≡◌, ◌<◌, ◌+◌, take, drop, length, position, option_map, IfSome};
ghost use Rattle.ldv_value.specs.Gives.{Gives};
ghost use Rattle.ldv_value.specs.Texts.{text_of as text_in};
ghost use Rattle.prov_export.specs.Ids.{after, with_digit, with_digits, number_in, is_slash};
ghost use Rattle.prov_export.specs.Ids.{parts_at_slash, version_from, version_in, row_from, row_in};
ghost use Rattle.prov_export.specs.Ids.{path_in};
ghost use Rattle.prov_export.specs.Ids.{reply_in, statement_in, numbered_in, other_in, node_in};
ghost use Rattle.prov_export.specs.Stopping.{Stops};

use crate::error::ProvStop;
use ldv_value::Utf8;
use sql_model::Member;
use std::alloc::Global;
use trace_graph::Node;

// ---- parts

// What follows a text at the front of another.
fn after<'a>(head: &[u8], text: &'a [u8]) -> Option<&'a [u8]>
    ensures { option_map (λ rest. rest.now) result ≡ after head.now text.now }
{
    let mut rest = text;
    for byte in head {
        match rest {
            [] => return None,
            [first, others @ ..] => {
                if *byte != *first {
                    return None;
                }
                rest = others;
            }
        }
    }
    Some(rest)
}

fn number_in(bytes: &[u8]) -> Option<u32>
    ensures { result ≡ number_in bytes.now }
{
    let mut number: u32 = 0;
    for byte in bytes {
        match with_digit(number, *byte) {
            Some(more) => number = more,
            None => return None,
        }
    }
    Some(number)
}

fn with_digit(number: u32, byte: u8) -> Option<u32>
    ensures { result ≡ with_digit number byte }
{
    if byte < b'0' || b'9' < byte {
        return None;
    }
    let next = number as u64 * 10 + (byte - b'0') as u64;
    if next <= 4_294_967_295 {
        Some(next as u32)
    } else {
        None
    }
}

#[tactic(auto, using(ldv_value::proofs::TextTests::is_text, ldv_value::proofs::TextTests::no_text))]
fn text_in(alloc: Global, bytes: &[u8]) -> Result<Utf8, ProvStop>
    ensures { Gives Stops result (text_in bytes.now) }
{
    match std::str::from_utf8(bytes) {
        Ok(text) => Ok(Utf8::of(alloc, text)?),
        Err(_) => Err(ProvStop::NotProv),
    }
}

fn slash_in(text: &[u8]) -> Option<usize>
    ensures place { result ≡ position is_slash text.now }
    ensures within { IfSome result (λ place. place < length text.now) }
{
    text.iter().position(|byte| *byte == b'/')
}

fn before(text: &[u8], place: usize) -> &[u8]
    requires { place < length text.now }
    ensures { result.now ≡ take place text.now }
{
    &text[..place]
}

fn behind(text: &[u8], place: usize) -> &[u8]
    requires { place < length text.now }
    ensures { result.now ≡ drop (place + 1) text.now }
{
    &text[place + 1..]
}

// The parts before and after the first slash.
fn parts_at_slash(text: &[u8]) -> Option<(&[u8], &[u8])>
    ensures { option_map (λ p. (p.0.now, p.1.now)) result ≡ parts_at_slash text.now }
{
    match slash_in(text) {
        None => None,
        Some(place) => Some((before(text, place), behind(text, place))),
    }
}

// ---- rows

fn version_of(row: &[u8], version: &[u8]) -> Option<(u32, u32)>
    ensures { result ≡ version_from (row.now, version.now) }
{
    let row = number_in(row)?;
    let version = number_in(version)?;
    Some((row, version))
}

fn version_in(text: &[u8]) -> Option<(u32, u32)>
    ensures { result ≡ version_in text.now }
{
    match parts_at_slash(text) {
        None => None,
        Some((row, version)) => version_of(row, version),
    }
}

fn row_of(alloc: Global, table: &[u8], version: &[u8]) -> Result<Node, ProvStop>
    ensures { Gives Stops result (row_from (table.now, version.now)) }
{
    match version_in(version) {
        None => Err(ProvStop::NotProv),
        Some((row, version)) => match text_in(alloc, table) {
            Ok(table) => Ok(Node::Row(Member {
                table,
                row,
                version,
            })),
            Err(stop) => Err(stop),
        },
    }
}

fn row_in(alloc: Global, text: &[u8]) -> Result<Node, ProvStop>
    ensures { Gives Stops result (row_in text.now) }
{
    match parts_at_slash(text) {
        None => Err(ProvStop::NotProv),
        Some((table, version)) => row_of(alloc, table, version),
    }
}

// ---- nodes

fn path_in(alloc: Global, text: &[u8]) -> Result<Node, ProvStop>
    ensures { Gives Stops result (path_in text.now) }
{
    match text_in(alloc, text) {
        Ok(path) => Ok(Node::Path(path)),
        Err(stop) => Err(stop),
    }
}

fn reply_in(text: &[u8]) -> Option<Node>
    ensures { result ≡ reply_in text.now }
{
    match after(b"ldv:reply/", text) {
        None => None,
        Some(rest) => Some(Node::Reply(number_in(rest)?)),
    }
}

fn statement_in(text: &[u8]) -> Option<Node>
    ensures { result ≡ statement_in text.now }
{
    match after(b"ldv:ask/", text) {
        None => reply_in(text),
        Some(rest) => Some(Node::Ask(number_in(rest)?)),
    }
}

fn numbered_in(text: &[u8]) -> Option<Node>
    ensures { result ≡ numbered_in text.now }
{
    match after(b"ldv:process/", text) {
        None => statement_in(text),
        Some(rest) => Some(Node::Process(number_in(rest)?)),
    }
}

// The node, or that the bytes are no document.
fn known_node(node: Option<Node>) -> Result<Node, ProvStop>
    ensures { Gives Stops result node }
{
    match node {
        None => Err(ProvStop::NotProv),
        Some(node) => Ok(node),
    }
}

fn other_in(alloc: Global, text: &[u8]) -> Result<Node, ProvStop>
    ensures { Gives Stops result (other_in text.now) }
{
    match after(b"ldv:row/", text) {
        None => known_node(numbered_in(text)),
        Some(rest) => row_in(alloc, rest),
    }
}

/// The node that an id names.
pub(crate) fn node_in(alloc: Global, id: &str) -> Result<Node, ProvStop>
    ensures { Gives Stops result (node_in id.now) }
{
    let text = id.as_bytes();
    match after(b"ldv:path/", text) {
        None => other_in(alloc, text),
        Some(rest) => path_in(alloc, rest),
    }
}
