//! Packages whose traces are kept as runs of events.

use crate::trace::event_run::EventRuns;
use run_model::Package;
use script_parse::Script;

/// A package whose trace is kept as runs of events. A run of a few bytes can represent millions of events.
#[derive(Drop)]
pub struct CompactPackage {
    /// The package without its events.
    pub bare: Package,
    pub runs: EventRuns,
}

/// A package whose trace is kept as runs, with its first script, parsed from the file at the first start word
/// while the package was checked, so it needn't be parsed again.
#[derive(Drop)]
pub struct ParsedPackage {
    pub cut: CompactPackage,
    pub script: Script,
}
