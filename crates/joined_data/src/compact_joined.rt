//! Joined packages whose traces are kept as runs of events.

ghost use Rattle.std.specs.Prelude.{◌≡◌};
ghost use Rattle.joined_data.specs.CompactJoins.{with_runs};

use crate::joined::{Joined, JoinedRun};
use package_codec::EventRuns;
use run_model::PackedFiles;
use script_parse::Script;
use sql_model::Tables;

/// One of the two runs of a joined package, with its trace kept as runs of events: a few bytes can represent
/// millions of events.
#[derive(Drop)]
pub struct CompactRun {
    /// The run without its events.
    pub bare: JoinedRun,
    /// Its events.
    pub runs: EventRuns,
}

/// A joined package whose traces are kept as runs of events.
#[derive(Drop)]
pub struct CompactJoined {
    pub files: PackedFiles,
    pub tables: Tables,
    pub first: CompactRun,
    pub second: CompactRun,
}

/// A joined package whose traces are kept as runs, with the first scripts of its two runs. Both were parsed
/// while the packages were checked, so they needn't be parsed again.
#[derive(Drop)]
pub struct ParsedJoined {
    pub cut: CompactJoined,
    pub first: Script,
    pub second: Script,
}

/// A joined package with the runs of both traces. Nothing is copied.
pub(crate) fn with_runs(first: EventRuns, second: EventRuns, joined: Joined) -> CompactJoined
    ensures { result ≡ with_runs first second joined }
{
    let Joined {
        files,
        tables,
        first: one,
        second: two,
    } = joined;
    CompactJoined {
        files,
        tables,
        first: CompactRun {
            bare: one,
            runs: first,
        },
        second: CompactRun {
            bare: two,
            runs: second,
        },
    }
}
