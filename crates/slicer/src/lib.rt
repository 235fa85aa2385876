//! The parts of its world that a run needs, from the run's events and their graph.
//!
//! Files come from the events, rows from the graph, and the events give each row its reason. Rows are united
//! in blocks of bits (`docs/internals/DECISIONS.md` says why).
//!
//! Entry: `slice` in `src/needed.rt`. Read first: `specs/Slice.antt` of `run_model`.
#![tactic(auto)]

mod files;
mod fresh;
mod initial;
mod law;
mod needed;
mod reasons;
mod row_set;
mod tables;
mod united;

pub use law::initial_rows_law;
pub use needed::{Sliced, slice, slice_files};
