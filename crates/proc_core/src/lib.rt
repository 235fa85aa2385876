//! The runtime: processes that run scripts over files and a database, under a scheduler.
//!
//! `specs/Stands.antt` says when a machine in memory represents a state of `run_model`. A process holds
//! values by slot; each instruction is defined over slots in the files of `specs/inner` whose names begin
//! with Slot. Lemmas (`OwnSame`, `FileSame`, `ReplySame`, `SpawnSame`, `AskSame`, and `StepSame` of all) say
//! that a step over slots is the step that `run_model` defines. A `ReadySet` says of each process whether it
//! is runnable.
//!
//! Folders: `instructions` has what each instruction does to its process, `spawn` what makes a child.
//!
//! Entry: `to_end` in `src/run.rt`. Read first: `specs/Stands.antt`.
#![tactic(auto)]

mod error;
mod file_slots;
mod instructions;
mod keyed_outcome;
mod law;
mod machine;
mod outcome;
mod pages;
mod process;
mod ready;
mod run;
mod schedule;
mod spawn;
mod start;
mod step;
mod tell;
mod variable_slots;

pub use error::{RunStop, Stopped};
pub use law::flags_law;
pub use run::Run;
