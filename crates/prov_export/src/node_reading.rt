//! The nodes of a document.

ghost use Rattle.std.specs.Prelude.{◌≡◌, ℕ, Some, None, option_map, IfOk};
ghost use Rattle.ldv_value.specs.Gives.{Gives};
ghost use Rattle.prov_export.specs.inner.Names.{names_of};
ghost use Rattle.prov_export.specs.inner.ObjectRefs.{objects_seen};
ghost use Rattle.prov_export.specs.Reading.{each_from, node_by, nodes_in};
ghost use Rattle.prov_export.specs.Stopping.{Stops};

use crate::error::ProvStop;
use crate::id_reading::node_in;
use crate::name_map::{Names, name_of, names_in};
use crate::objects::ObjectRefs;
use std::alloc::Global;
use trace_graph::{Node, Nodes};

// The node whose member has a place.
fn node_by(alloc: Global, names: &Names<'_>, place: u128) -> Result<Node, ProvStop>
    ensures { Gives Stops result (node_by (names_of names.now) place) }
{
    match name_of(names, place) {
        None => Err(ProvStop::NotProv),
        Some(name) => node_in(alloc, name),
    }
}

#[tactic(auto, using(crate::proofs::Each::each_rules))]
fn nodes_by(alloc: Global, names: &Names<'_>, count: u128) -> Result<Nodes, ProvStop>
    ensures { Gives Stops result (each_from (node_by (names_of names.now)) 0 count) }
{
    let mut nodes = Nodes::new(alloc);
    for place in 0..count {
        match node_by(alloc, names, place) {
            Ok(node) => nodes.push(node)?,
            Err(stop) => return Err(stop),
        }
    }
    Ok(nodes)
}

/// The nodes, in the order of their places.
pub(crate) fn nodes_in(alloc: Global, objects: &ObjectRefs<'_>) -> Result<Nodes, ProvStop>
    ensures { Gives Stops result (nodes_in (objects_seen objects.now)) }
{
    let names = names_in(alloc, objects.entities, objects.activities)?;
    nodes_by(alloc, &names, objects.node_count())
}
