//! Reports on a package: the reason for each of its parts, and the events of the recorded run.
//!
//! The name of a process is made only if a report has it, so memory is linear in the package and the report.
//! `depends_text` takes the package by value, and has dropped its events before it searches.
//!
//! Entry: `why_text` in `src/why.rt`. Read first: `specs/WhyReports.antt`.
#![tactic(auto)]

mod append;
mod depends;
mod error;
mod files;
mod law;
mod process_names;
mod rows;
mod trace;
mod why;

pub use depends::depends_text;
pub use error::InspectStop;
pub use files::files_text;
pub use law::depends_law;
pub use rows::rows_text;
pub use trace::trace_text;
pub use why::why_text;
