//! The outcome of a run.

use crate::name::ProcName;
use ldv_value::{Bytes, List, Utf8};
use sql_model::Replies;

/// The outcome of an ended run: its processes, in the order of their names, and the touched paths,
/// sorted.
#[derive(Drop)]
pub struct Outcome {
    pub processes: ProcOutcomes,
    pub paths: PathOutcomes,
}

/// The outcome of a process: its exit status, its printed bytes and the replies to its statements.
#[derive(Drop)]
pub struct ProcOutcome {
    pub name: ProcName,
    pub status: u8,
    pub printed: Bytes,
    pub replies: Replies,
}

/// A touched path at the end of the run: the bytes of the file there, or `None` if there is no file.
#[derive(Drop)]
pub struct PathOutcome {
    pub path: Utf8,
    pub content: Option<Bytes>,
}

/// Outcomes of processes.
pub type ProcOutcomes = List<ProcOutcome>;
/// Outcomes of paths.
pub type PathOutcomes = List<PathOutcome>;
