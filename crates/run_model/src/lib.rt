//! Worlds, runs, events, packages and outcomes. A run is defined over any database: SQL over tables is one
//! (`specs/SqlDatabase.antt`), recorded replies are another (`specs/LogDatabase.antt`).
//!
//! `packing` packs the tables of some names (`name_set`), with the rows that have reasons
//! (`first_reasons`).
//!
//! Entry: `outcome_text` in `src/text.rt`. Read first: `specs/Run.antt`.
#![tactic(auto)]

mod database;
mod event;
mod first_reasons;
mod law;
mod name;
mod name_set;
mod order;
mod outcome;
mod own;
mod package;
mod packing;
mod text;
mod tracer;
mod world;

pub use database::{Asker, Database, Stop};
pub use event::{Act, Event, Events};
pub use first_reasons::{Reasons, RowReasons, Why, note_named};
pub use law::{few_events_law, never_stuck_law, world_events_law};
pub use name::ProcName;
pub use name_set::{NameSet, add_name, has_name, set_of_names, tables_asked};
pub use outcome::{Outcome, PathOutcome, PathOutcomes, ProcOutcome, ProcOutcomes};
pub use own::own_tables_of;
pub use package::{
    Entries, Entry, Log, Logs, Mode, Package, PackedFile, PackedFiles, PackedRow, PackedRows,
    PackedTable, PackedTables,
};
pub use packing::pack_tables;
pub use text::{append_name, outcome_text, table_text};
pub use tracer::{ListTracer, NullTracer, Tracer};
pub use world::{ParsedWorld, World};
