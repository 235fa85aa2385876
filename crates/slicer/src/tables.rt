//! Needed tables, with their needed rows.

ghost use Rattle.std.specs.Prelude.{◌≡◌, IfOk};
ghost use Rattle.slicer.specs.inner.Rows.{tables_from};

use crate::initial::initial_rows;
use crate::reasons::reasons_in;
use run_model::{Event, PackedTables, pack_tables, tables_asked};
use sql_model::Table;
use std::alloc::{AllocError, Global};
use trace_graph::Graph;

/// The tables that statements ask, with the initial rows of the graph. Each row has the first statement that
/// needs it; a row that no statement needs is left out. `AllocError` means out of memory only.
pub(crate) fn needed_tables(
    alloc: Global,
    events: &[Event],
    graph: &Graph,
    tables: &[Table],
) -> Result<PackedTables, AllocError>
    ensures { IfOk result (λ packed. packed ≡ tables_from events.now graph.now tables.now) }
{
    let names = tables_asked(alloc, events)?;
    let initial = initial_rows(alloc, graph)?;
    let reasons = reasons_in(alloc, events, &initial)?;
    pack_tables(alloc, &names, &reasons, tables)
}
