//! Laws of runs: a run is the same over the part of its world that it needs, and over its recorded replies.
//! They are about the definitions of `run_model` alone, and need no runtime and no engine.
//!
//! Their lemmas compare steps over files and tables that differ only in parts that no step reads
//! (`proofs/CoreSame.antt`, `proofs/StatementSame.antt`), say what a step keeps (`proofs/StepTrails.antt`,
//! `proofs/QuietSteps.antt`), and say how processes are named (`proofs/ProcessNames.antt`).
//!
//! Entry: `between_law` in `src/law.rt`. Read first: `specs/Laws.antt`.
#![tactic(auto)]

mod kept;
mod law;

pub use kept::{Kept, kept_law};
pub use law::{between_law, log_law};
