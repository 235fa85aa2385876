//! The graphs of worked runs.

ghost use Rattle.std.specs.Prelude.{◌<◌, length, IfOk, IfSome};
ghost use Rattle.package_layout.specs.Valid.{IsValidPackage};

use crate::recorded::{recorded_package, world_of};
use ldv_value::Utf8;
use reach::depends;
use run_model::Package;
use sql_model::Member;
use std::alloc::{AllocError, Global};
use std::process::Abort;
use std::test::Fail;
use trace_graph::{Edge, Graph, Node};

// A node that a graph should have.
#[derive(Clone, Copy)]
enum Want<'a> {
    Path(&'a str),
    Process(u32),
    // a row of the table t, and its version
    Row(u32, u32),
    Ask(u32),
    Reply(u32),
}

fn is_member(member: &Member, row: u32, version: u32) -> bool {
    member.table.is_text("t") && member.row == row && member.version == version
}

fn is_wanted(node: &Node, want: Want<'_>) -> bool {
    match (node, want) {
        (Node::Path(path), Want::Path(text)) => path.is_text(text),
        (Node::Process(process), Want::Process(number)) => *process == number,
        (Node::Row(member), Want::Row(row, version)) => is_member(member, row, version),
        (Node::Ask(statement), Want::Ask(number)) => *statement == number,
        (Node::Reply(statement), Want::Reply(number)) => *statement == number,
        _ => false,
    }
}

fn are_nodes(nodes: &[Node], wants: &[Want<'_>]) -> bool {
    nodes.len() == wants.len()
        && nodes
            .iter()
            .zip(wants)
            .all(|(node, want)| is_wanted(node, *want))
}

// The source and the target of an edge, and its first and last step.
type Ends = (usize, usize, u32, u32);

fn are_edges(edges: &[Edge], wants: &[Ends]) -> bool {
    edges.len() == wants.len()
        && edges.iter().zip(wants).all(|(edge, want)| (
            edge.source,
            edge.target,
            edge.first,
            edge.last,
        ) == *want)
}

fn graph_of(alloc: Global, package: &Package) -> Result<Graph, AllocError>
    requires { IsValidPackage «package».now }
{
    Graph::of_events(alloc, &package.events)
}

// A file beside a script.
const FILE: &str = r#""f":"x\n","#;

// The package of the run of a script, over the table t and with files beside the script.
fn package_of(
    rt: &impl Abort,
    alloc: Global,
    script: &str,
    files: &str,
) -> Result<Package, AllocError>
    ensures { IfOk result (λ p. IsValidPackage p) }
{
    let world = world_of(alloc, script, files)?;
    recorded_package(rt, alloc, world.as_str())
}

fn graph(rt: &impl Abort, alloc: Global, script: &str, files: &str) -> Result<Graph, AllocError> {
    let package = package_of(rt, alloc, script, files)?;
    graph_of(alloc, &package)
}

fn is_graph(graph: &Graph, nodes: &[Want<'_>], edges: &[Ends]) -> bool {
    are_nodes(graph.nodes().items(), nodes) && are_edges(graph.edges().items(), edges)
}

// ---- edges

const UPDATE: &str =
    r#"sql q \"UPDATE t SET v = v + 1 WHERE k = 1\"\nsql q \"SELECT v FROM t WHERE k = 1\"\n"#;

fn nodes_of_update() -> [Want<'static>; 8] {
    [
        Want::Path("main"),
        Want::Process(0),
        Want::Ask(0),
        Want::Reply(0),
        Want::Row(0, 0),
        Want::Row(0, 1),
        Want::Ask(1),
        Want::Reply(1),
    ]
}

fn edges_of_update() -> [Ends; 11] {
    [
        (0, 1, 0, 0),
        (1, 2, 1, 1),
        (2, 3, 1, 1),
        (3, 1, 1, 1),
        (4, 3, 1, 1),
        (2, 5, 1, 1),
        (4, 5, 1, 1),
        (1, 6, 2, 2),
        (6, 7, 2, 2),
        (7, 1, 2, 2),
        (5, 7, 2, 2),
    ]
}

#[test]
fn an_update_makes_a_version_of_a_row_read(rt: HostRuntime) -> Result<(), Fail> {
    let graph = graph(&rt, rt.alloc(), UPDATE, "")?;
    assert!(rt; is_graph(&graph, &nodes_of_update(), &edges_of_update()));
    Ok(())
}

const WRITES_AND_READS: &str =
    r#"open g w \"g\" else x\nwrite g \"1\"\nopen f r \"f\" else x\nreadline l f else x\nx:\n"#;

fn nodes_of_files() -> [Want<'static>; 4] {
    [
        Want::Path("main"),
        Want::Process(0),
        Want::Path("g"),
        Want::Path("f"),
    ]
}

fn edges_of_files() -> [Ends; 3] {
    [(0, 1, 0, 0), (1, 2, 1, 2), (3, 1, 3, 4)]
}

#[test]
fn one_edge_has_the_first_and_the_last_step(rt: HostRuntime) -> Result<(), Fail> {
    let graph = graph(&rt, rt.alloc(), WRITES_AND_READS, FILE)?;
    assert!(rt; is_graph(&graph, &nodes_of_files(), &edges_of_files()));
    Ok(())
}

// ---- places and times

fn place_of(alloc: Global, graph: &Graph, path: &str) -> Result<Option<usize>, AllocError>
    ensures { IfOk result (λ found. IfSome found (λ place. place < length graph.now.nodes)) }
{
    let node = Node::Path(Utf8::of(alloc, path)?);
    Ok(graph.place(&node))
}

fn is_at(
    alloc: Global,
    graph: &Graph,
    path: &str,
    place: Option<usize>,
) -> Result<bool, AllocError> {
    Ok(place_of(alloc, graph, path)? == place)
}

fn expect_places(rt: &impl Abort, alloc: Global, graph: &Graph) -> Result<(), AllocError> {
    assert!(rt; is_at(alloc, graph, "f", Some(2))?);
    assert!(rt; is_at(alloc, graph, "g", None)?);
    assert!(rt; graph.place(&Node::Process(1)).is_none());
    Ok(())
}

#[test]
fn a_node_has_a_place_where_it_is_in_the_graph(rt: HostRuntime) -> Result<(), Fail> {
    let graph = graph(&rt, rt.alloc(), r#"remove \"f\" else x\nx:\n"#, FILE)?;
    expect_places(&rt, rt.alloc(), &graph)?;
    Ok(())
}

// How many nodes the node at a place depends on by a time.
fn count_sources(alloc: Global, graph: &Graph, place: usize, time: u32) -> Result<usize, AllocError>
    requires { place < length graph.now.nodes }
{
    let keys = graph.keys(alloc)?;
    let nodes = keys.as_slice();
    let edges = graph.edges().items();
    let sources = depends(alloc, nodes, edges, place, time)?;
    Ok(sources.len())
}

// Whether the path depends on so many nodes by a time.
fn has_sources(
    alloc: Global,
    graph: &Graph,
    path: &str,
    time: u32,
    count: usize,
) -> Result<bool, AllocError> {
    match place_of(alloc, graph, path)? {
        Some(place) => Ok(count_sources(alloc, graph, place, time)? == count),
        None => Ok(false),
    }
}

fn expect_source(
    rt: &impl Abort,
    alloc: Global,
    graph: &Graph,
    path: &str,
    want: (u32, usize),
) -> Result<(), AllocError> {
    let (time, count) = want;
    assert!(rt;
        has_sources(alloc, graph, path, time, count)?,
        "{path} at {time}"
    );
    Ok(())
}

fn expect_sources(
    rt: &impl Abort,
    alloc: Global,
    graph: &Graph,
    path: &str,
    wants: &[(u32, usize)],
) -> Result<(), AllocError> {
    for want in wants {
        expect_source(rt, alloc, graph, path, *want)?;
    }
    Ok(())
}

const COPIES: &str = r#"open f r \"f\" else x\nopen g w \"g\" else x\nx:\n"#;

// g is written at step 2, of what f had at step 1, and no command asks for an earlier step than the last.
#[test]
fn a_path_depends_on_what_came_by_a_time(rt: HostRuntime) -> Result<(), Fail> {
    let graph = graph(&rt, rt.alloc(), COPIES, FILE)?;
    expect_sources(
        &rt,
        rt.alloc(),
        &graph,
        "g",
        &[(0, 0), (1, 0), (2, 3), (3, 3)],
    )?;
    expect_sources(&rt, rt.alloc(), &graph, "f", &[(3, 0)])?;
    Ok(())
}
