//! The initial rows of a graph.

ghost use Rattle.std.specs.Prelude.{◌≡◌, ◌||◌, ◌&&◌, List, ℕ, not, OnOk, IfOk};
ghost use Rattle.std.specs.List.{list_any};
ghost use Rattle.trace_graph.specs.declared.node.Node.TheVariants.{Row};
ghost use Rattle.trace_graph.specs.Graph.{same_member, same_node};
ghost use Rattle.trace_graph.specs.GraphLaws.{leads, passes_at};
ghost use Rattle.trace_graph.specs.VersionLaws.{is_statement};
ghost use Rattle.slicer.specs.InitialRows.{at_first, is_initial_node};
ghost use Rattle.slicer.specs.inner.Rows.{has_row, is_led};

use crate::row_set::{RowSet, add_row, remove_row};
use ldv_value::Utf8;
use sql_model::Member;
use std::alloc::{AllocError, Global};
use trace_graph::{Edge, Graph, Node, Nodes};

// ---- rows in their first version

// Adds a row, if the version is its first.
fn add_first(alloc: Global, rows: &mut RowSet, member: &Member) -> Result<(), AllocError>
    ensures { OnOk result ((table : List ℕ) (row : ℕ) → has_row rows.new table row
        ≡ (same_member (at_first table row) member.now || has_row rows.old table row)) }
{
    if member.version > 0 {
        return Ok(());
    }
    add_row(alloc, rows, &member.table, member.row)
}

fn add_node(alloc: Global, rows: &mut RowSet, node: &Node) -> Result<(), AllocError>
    ensures { OnOk result ((table : List ℕ) (row : ℕ) → has_row rows.new table row
        ≡ (same_node (Row (at_first table row)) node.now || has_row rows.old table row)) }
{
    match node {
        Node::Row(member) => add_first(alloc, rows, member),
        Node::Path(_) | Node::Process(_) | Node::Ask(_) | Node::Reply(_) => Ok(()),
    }
}

/// The rows whose first version is among nodes.
pub(crate) fn first_rows(alloc: Global, nodes: &[Node]) -> Result<RowSet, AllocError>
    ensures { IfOk result (λ rows. (table : List ℕ) (row : ℕ) → has_row rows table row
        ≡ list_any (same_node (Row (at_first table row))) nodes.now) }
{
    let mut rows = RowSet::new(alloc);
    for node in nodes {
        add_node(alloc, &mut rows, node)?;
    }
    Ok(rows)
}

// ---- without those that statements made

// Takes a row out, if the version is its first.
fn remove_first(rows: &mut RowSet, member: &Member)
    ensures { (table : List ℕ) (row : ℕ) → has_row rows.new table row
        ≡ (not (same_member (at_first table row) member.now) && has_row rows.old table row) }
{
    if member.version > 0 {
        return;
    }
    remove_row(rows, &member.table, member.row);
}

fn is_ask(nodes: &Nodes, place: usize) -> bool
    ensures { result ≡ passes_at is_statement nodes.now place }
{
    match nodes.get(place) {
        Some(Node::Ask(_)) => true,
        _ => false,
    }
}

fn remove_at(rows: &mut RowSet, nodes: &Nodes, place: usize)
    ensures { (table : List ℕ) (row : ℕ) → has_row rows.new table row
        ≡ (not (passes_at (same_node (Row (at_first table row))) nodes.now place)
        && has_row rows.old table row) }
{
    match nodes.get(place) {
        Some(Node::Row(member)) => remove_first(rows, member),
        _ => {}
    }
}

// Takes out the row that an edge from a statement leads to.
fn remove_made(rows: &mut RowSet, nodes: &Nodes, edge: &Edge)
    ensures { (table : List ℕ) (row : ℕ) → has_row rows.new table row
        ≡ (not (is_led nodes.now table row edge.now) && has_row rows.old table row) }
{
    if is_ask(nodes, edge.source) {
        remove_at(rows, nodes, edge.target);
    }
}

fn remove_all_made(rows: &mut RowSet, graph: &Graph)
    ensures { (table : List ℕ) (row : ℕ) → has_row rows.new table row
        ≡ (not (leads is_statement (Row (at_first table row)) graph.now) && has_row rows.old table row) }
{
    for edge in graph.edges().items() {
        remove_made(rows, graph.nodes(), edge);
    }
}

/// The rows whose first version is in the graph, without the rows that a statement made. It goes over the
/// nodes and the edges once.
pub(crate) fn initial_rows(alloc: Global, graph: &Graph) -> Result<RowSet, AllocError>
    ensures { IfOk result (λ rows. (table : List ℕ) (row : ℕ) → has_row rows table row
        ≡ is_initial_node graph.now (at_first table row)) }
{
    let mut rows = first_rows(alloc, graph.nodes().items())?;
    remove_all_made(&mut rows, graph);
    Ok(rows)
}
