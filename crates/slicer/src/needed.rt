//! The slice of a world.

ghost use Rattle.std.specs.Prelude.{◌≡◌, IfOk};
ghost use Rattle.sql_model.specs.declared.need.Member.{Member};
ghost use Rattle.run_model.specs.Slice.{files_needed, tables_needed};
ghost use Rattle.trace_graph.specs.Graph.{graph_of};
ghost use Rattle.slicer.specs.InitialRows.{ReadsInitialRows, is_initial_node, is_packed};

use crate::files::needed_files;
use crate::tables::needed_tables;
use run_model::{Events, PackedFiles, PackedTables, World};
use std::alloc::{AllocError, Global};
use trace_graph::{Graph, graph_law};

/// The parts of its world that a run needs.
#[derive(Drop)]
pub struct Sliced {
    /// The needed initial files, in the world's order: whole, or present if the run only needed them to be
    /// there.
    pub files: PackedFiles,
    /// The needed initial tables, in the world's order, with their needed rows. Each row has the first
    /// statement that needs it, and its rule.
    pub tables: PackedTables,
}

/// The parts that events need of the world that they began in. The graph must be that of the events; it shows
/// which rows are initial. `AllocError` means out of memory only.
pub fn slice(
    alloc: Global,
    events: &Events,
    graph: &Graph,
    world: &World,
) -> Result<Sliced, AllocError>
    requires graph { graph.now ≡ graph_of events.now }
    requires rows { ReadsInitialRows events.now world.now.tables }
    ensures files { IfOk result (λ sliced. sliced.files ≡ files_needed events.now world.now.files) }
    ensures tables { IfOk result (λ sliced. sliced.tables ≡ tables_needed events.now world.now.tables) }
    // The packed rows are those whose first version is in the graph, and which no statement made.
    ensures nodes { IfOk result (λ sliced. (version : Member)
        → is_packed sliced.tables version ≡ is_initial_node graph.now version) }
{
    graph_law();
    let files = needed_files(alloc, events.items(), world.files.items())?;
    let tables = needed_tables(alloc, events.items(), graph, world.tables.items())?;
    Ok(Sliced { files, tables })
}

/// The files that events need of the world that they began in, as in its slice. `AllocError` means out of
/// memory only.
pub fn slice_files(alloc: Global, events: &Events, world: &World) -> Result<PackedFiles, AllocError>
    ensures { IfOk result (λ files. files ≡ files_needed events.now world.now.files) }
{
    needed_files(alloc, events.items(), world.files.items())
}
